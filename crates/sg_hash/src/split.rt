// A bucket of a table is split.
ghost use Rattle.std.specs.Prelude.{◌≡◌, ◌+◌, ◌*◌, ◌<◌, ◌≤◌, ◌⊎◌, length, IsTrue, IsFalse, IfOk, OnOk};
ghost use Rattle.sg_hash.specs.Calls.{HasHashTable, Did, IsGrown};
ghost use Rattle.sg_hash.specs.Splits.{CanSplit, IsSplit, CanGrow};
ghost use Rattle.sg_linear.specs.Extent.{buckets_of, shape_of};
ghost use Rattle.sg_ops.specs.Table.{table_of};
ghost use Rattle.sg_space.specs.View.{Counts};

use crate::root::{Root, directory_of, read_root, set_root};
use crate::walk::bucket_at;
use sg_base::{PageNo, write_u32};
use sg_linear::Address;
use sg_ops::Ops;
use sg_space::{PageSpace, SpaceFault};

/// The most pages of a chain that is split.
const MOST_SPLIT: u32 = 8;

// Divides the entries of the next bucket between itself and a new one. All pages are taken before any is freed.
fn split_next<P: PageSpace>(
    space: &mut P,
    ops: &Ops,
    root: PageNo,
    found: Root,
) -> Result<(), SpaceFault>
    requires means { P.means space.old (table_of record_meaning range_meaning ops.now) }
    requires room { found.extent.low ≤ 524288 }
    requires there { HasHashTable (P.view space.old) root.0 (CanSplit (P.view space.old) found) }
    ensures counts { Counts (P.view space.old) (P.view space.new) result }
    ensures did { OnOk result (Did (P.view space.old) (P.view space.new) root.0 (CanSplit (P.view space.old) found) IsSplit) }
    ensures later { P.later (table_of record_meaning range_meaning ops.now) space.old space.new }
    ensures means { P.means space.new (table_of record_meaning range_meaning ops.now) }
    ensures few { (P.view space.old).Told → (P.view space.new).records ≤ (P.view space.old).records + 40747 }
{
    let directory = directory_of(space, root)?;
    let first = bucket_at(space, root, found.extent.split)?;
    let extent = found.extent.grown();
    let bucket = found.extent.buckets();
    let there = Address { extent, bucket };
    let new = sg_bucket::branch(space, ops, first, there)?;
    let mut name = [0; 4];
    write_u32(&mut name, new.0);
    sg_array::push(space, ops, directory, &name)?;
    sg_bucket::prune(space, ops, first, there)?;
    let numbers = Root {
        extent,
        entries: found.entries,
        bytes: found.bytes,
        peak: found.peak,
    };
    set_root(space, ops, root, numbers)?;
    Ok(())
}

// Whether the entries have more than 2,048 bytes for each bucket, of which there are fewer than 2^20.
fn is_crowded(found: Root) -> bool
    ensures yes { IsTrue result → (found.extent.low ≤ 524288) × (2048 * buckets_of (shape_of found.extent) < found.bytes) }
    ensures no { IsFalse result → (524288 < found.extent.low) ⊎ (found.bytes ≤ 2048 * buckets_of (shape_of found.extent)) }
{
    if found.extent.low > 524_288 {
        return false;
    }
    2_048 * u64::from(found.extent.buckets()) < found.bytes
}

/// Splits the next bucket, where that is due: the entries have more than 2,048 bytes for each bucket, and its chain
/// has at most 8 pages. At most 10 pages are taken.
pub fn grow<P: PageSpace>(space: &mut P, ops: &Ops, root: PageNo) -> Result<(), SpaceFault>
    requires means { P.means space.old (table_of record_meaning range_meaning ops.now) }
    requires can { HasHashTable (P.view space.old) root.0 (CanGrow (P.view space.old)) }
    ensures counts { Counts (P.view space.old) (P.view space.new) result }
    ensures did { OnOk result (Did (P.view space.old) (P.view space.new) root.0 (CanGrow (P.view space.old)) IsGrown) }
    ensures later { P.later (table_of record_meaning range_meaning ops.now) space.old space.new }
    ensures means { P.means space.new (table_of record_meaning range_meaning ops.now) }
    ensures few { (P.view space.old).Told → (P.view space.new).records ≤ (P.view space.old).records + 40747 }
{
    let found = read_root(space, root)?;
    if !is_crowded(found) {
        return Ok(());
    }
    let first = bucket_at(space, root, found.extent.split)?;
    let pages = sg_bucket::pages(space, first)?;
    if pages > MOST_SPLIT {
        return Ok(());
    }
    split_next(space, ops, root, found)?;
    Ok(())
}
