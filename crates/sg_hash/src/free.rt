// A hash table is freed.
ghost use Rattle.std.specs.Prelude.{◌≡◌, ◌+◌, ◌≤◌, length, OnOk, ⊤};
ghost use Rattle.sg_hash.specs.Calls.{HasHashTable, Gone};
ghost use Rattle.sg_hash.specs.Steps.{FreesBuckets};
ghost use Rattle.sg_ops.specs.Table.{Table};
ghost use Rattle.sg_space.specs.View.{Counts};

use crate::root::{directory_of, read_root};
use crate::walk::bucket_at;
use sg_base::PageNo;
use sg_space::{PageSpace, SpaceFault};

// Frees the buckets, of which there are so many.
fn free_buckets<P: PageSpace>(space: &mut P, root: PageNo, count: u32) -> Result<(), SpaceFault>
    requires { HasHashTable (P.view space.old) root.0 (λ t. length t.buckets ≡ count) }
    ensures counts { Counts (P.view space.old) (P.view space.new) result }
    ensures did { OnOk result (FreesBuckets (P.view space.old) (P.view space.new) root.0 count) }
    ensures later { (t : Table) → P.later t space.old space.new }
    ensures means { (t : Table) → P.means space.old t → P.means space.new t }
    ensures few { (P.view space.old).Told → (P.view space.new).records ≤ (P.view space.old).records
        + (P.view space.old).space.pages.count }
{
    for i in 0..count {
        let first = bucket_at(space, root, i)?;
        sg_bucket::free_all(space, first)?;
    }
    Ok(())
}

/// Frees the table's pages: its buckets, its directory and its root.
pub fn free_all<P: PageSpace>(space: &mut P, root: PageNo) -> Result<(), SpaceFault>
    requires { HasHashTable (P.view space.old) root.0 (λ _. ⊤) }
    ensures counts { Counts (P.view space.old) (P.view space.new) result }
    ensures did { OnOk result (Gone (P.view space.old) (P.view space.new) root.0) }
    ensures later { (t : Table) → P.later t space.old space.new }
    ensures means { (t : Table) → P.means space.old t → P.means space.new t }
    ensures few { (P.view space.old).Told → (P.view space.new).records ≤ (P.view space.old).records
        + ((P.view space.old).space.pages.count + 70139) }
{
    let found = read_root(space, root)?;
    let count = found.extent.buckets();
    if count > space.pages() {
        return Err(space.broken());
    }
    let directory = directory_of(space, root)?;
    free_buckets(space, root, count)?;
    sg_array::free_all(space, directory)?;
    space.free_page(root)?;
    Ok(())
}
