// The keys of a hash table.
ghost use Rattle.std.specs.Prelude.{◌≡◌, IfOk, OnOk, IsPermutation, IsSorted, ⊤, IfErr};
ghost use Rattle.std.specs.Cmp.Lexicographic.{slice_cmp};
ghost use Rattle.std.specs.Ordering.{nat_cmp};
ghost use Rattle.sg_bucket.specs.Division.{keys_of};
ghost use Rattle.sg_hash.specs.Table.{entries};
ghost use Rattle.sg_hash.specs.Calls.{HasHashTable, IfHashTable};
ghost use Rattle.sg_ops.specs.Table.{Table};
ghost use Rattle.sg_space.specs.Listing.{CountsList, WritesNoneList};
ghost use Rattle.sg_space.specs.View.{OnlyReads};

use crate::root::read_root;
use crate::walk::bucket_at;
use sg_base::PageNo;
use sg_bucket::Bytes;
use sg_space::{ListFault, PageSpace};
use std::alloc::Global;

// The keys of all entries, bucket by bucket. Each bucket has a page of its own, so a space with fewer pages has no such table.
fn list_keys<P: PageSpace>(
    space: &mut P,
    root: PageNo,
    alloc: Global,
) -> Result<Vec<Bytes>, ListFault>
    requires { HasHashTable (P.view space.old) root.0 (λ _. ⊤) }
    ensures counts { CountsList (P.view space.old) (P.view space.new) result }
    ensures kept { OnOk result (OnlyReads (P.view space.old) (P.view space.new)) }
    ensures memory { IfErr result (λ e. e ≡ ListFault.Memory → OnlyReads (P.view space.old) (P.view space.new)) }
    ensures quiet { IfErr result (λ e. e ≡ ListFault.Memory → (P.view space.new).faults ≡ (P.view space.old).faults) }
    ensures read { IfOk result (λ v. IfHashTable (P.view space.old) root.0 (λ t. v.items ≡ keys_of (entries t))) }
    ensures later { (t : Table) → P.later t space.old space.new }
    ensures means { (t : Table) → P.means space.old t → P.means space.new t }
    ensures writes { WritesNoneList (P.view space.old) (P.view space.new) result }
{
    let found = read_root(space, root)?;
    let mut all = Vec::new(alloc);
    let count = found.extent.buckets();
    if count > space.pages() {
        return Err(space.broken().into());
    }
    for i in 0..count {
        let first = bucket_at(space, root, i)?;
        sg_bucket::keys(space, alloc, first, &mut all)?;
    }
    Ok(all)
}

/// The keys of all entries, in the order of their bytes. `Memory` where memory is refused; no other call takes any.
pub fn keys<P: PageSpace>(
    space: &mut P,
    root: PageNo,
    alloc: Global,
) -> Result<Vec<Bytes>, ListFault>
    requires { HasHashTable (P.view space.old) root.0 (λ _. ⊤) }
    ensures counts { CountsList (P.view space.old) (P.view space.new) result }
    ensures kept { OnOk result (OnlyReads (P.view space.old) (P.view space.new)) }
    ensures memory { IfErr result (λ e. e ≡ ListFault.Memory → OnlyReads (P.view space.old) (P.view space.new)) }
    ensures quiet { IfErr result (λ e. e ≡ ListFault.Memory → (P.view space.new).faults ≡ (P.view space.old).faults) }
    ensures read { IfOk result (λ v. IfHashTable (P.view space.old) root.0
        (λ t. IsPermutation (keys_of (entries t)) v.items)) }
    ensures order { IfOk result (λ v. IsSorted (slice_cmp nat_cmp) v.items) }
    ensures later { (t : Table) → P.later t space.old space.new }
    ensures means { (t : Table) → P.means space.old t → P.means space.new t }
    ensures writes { WritesNoneList (P.view space.old) (P.view space.new) result }
{
    let mut all = list_keys(space, root, alloc)?;
    all.sort_unstable();
    Ok(all)
}
