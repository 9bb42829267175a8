// From the root of a hash table to its buckets.
ghost use Rattle.std.specs.Prelude.{◌≡◌, ◌+◌, ◌<◌, ◌≤◌, length, IfOk, OnOk, ⊤};
ghost use Rattle.sg_hash.specs.Table.{home_of, numbers_of};
ghost use Rattle.sg_hash.specs.Calls.{HasHashTable, IfHashTable};
ghost use Rattle.sg_hash.specs.Steps.{HasTrunk, IfTrunk, IsFirstOf, numbers_in};
ghost use Rattle.sg_ops.specs.Table.{Table};
ghost use Rattle.sg_space.specs.Pages.{WritesNone};
ghost use Rattle.sg_space.specs.View.{Counts, OnlyReads};

use crate::root::{Root, directory_of, read_root};
use sg_base::{PageNo, read_u32};
use sg_linear::fnv_1a;
use sg_space::{PageSpace, SpaceFault};

/// The first page of the bucket with this index.
pub fn bucket_at<P: PageSpace>(space: &mut P, root: PageNo, i: u32) -> Result<PageNo, SpaceFault>
    requires { HasTrunk (P.view space.old) root.0 (λ _ t. i < length t.buckets) }
    ensures counts { Counts (P.view space.old) (P.view space.new) result }
    ensures kept { OnOk result (OnlyReads (P.view space.old) (P.view space.new)) }
    ensures read { IfOk result (λ p. IfTrunk (P.view space.old) root.0 (λ _ t. i < length t.buckets → IsFirstOf t i p.0)) }
    ensures later { (t : Table) → P.later t space.old space.new }
    ensures means { (t : Table) → P.means space.old t → P.means space.new t }
    ensures writes { WritesNone (P.view space.old) (P.view space.new) result }
{
    let directory = directory_of(space, root)?;
    let mut cell = [0; 4];
    sg_array::get(space, directory, i, &mut cell)?;
    Ok(PageNo(read_u32(&cell)))
}

/// The first page of the bucket to which a key belongs, by the root's numbers.
pub fn bucket_of<P: PageSpace>(
    space: &mut P,
    root: PageNo,
    found: Root,
    key: &[u8],
) -> Result<PageNo, SpaceFault>
    requires { HasHashTable (P.view space.old) root.0 (λ t. numbers_in found ≡ numbers_of t) }
    ensures counts { Counts (P.view space.old) (P.view space.new) result }
    ensures kept { OnOk result (OnlyReads (P.view space.old) (P.view space.new)) }
    ensures read { IfOk result (λ p. IfHashTable (P.view space.old) root.0
        (λ t. numbers_in found ≡ numbers_of t → IsFirstOf t (home_of t.shape key.now) p.0)) }
    ensures later { (t : Table) → P.later t space.old space.new }
    ensures means { (t : Table) → P.means space.old t → P.means space.new t }
    ensures writes { WritesNone (P.view space.old) (P.view space.new) result }
{
    let index = found.extent.bucket_of(fnv_1a(key));
    let first = bucket_at(space, root, index)?;
    Ok(first)
}
