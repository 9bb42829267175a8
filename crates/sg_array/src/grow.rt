// How the pages of an array are written.
ghost use Rattle.std.specs.Prelude.{◌≡◌, ◌<◌, ◌≤◌, length, IfOk, OnOk, ◌+◌};
ghost use Rattle.sg_array.specs.Array.{root_cell};
ghost use Rattle.sg_array.specs.Calls.{HasArray};
ghost use Rattle.sg_array.specs.Steps.{HasBuilt, HasRootPage, SetsRoot, CanLinkTo, Linked, CanPutLast, PutsLast, IsLast, TakesLast};
ghost use Rattle.sg_ops.specs.Table.{table_of};
ghost use Rattle.sg_space.specs.View.{Counts};

use crate::walk::{Last, Root, per_page};
use sg_base::{PageNo, PageOp, write_u16, write_u32};
use sg_ops::{Ops, are_bytes};
use sg_space::{PageSpace, SpaceFault};

/// The bytes of the root's first cell.
pub fn spell_root(size: u16, count: u32, peak: u32) -> [u8; 10]
    ensures { result ≡ root_cell size count peak }
{
    let mut cell = [0; 10];
    write_u16(&mut cell, size);
    write_u32(&mut cell[2..], count);
    write_u32(&mut cell[6..], peak);
    cell
}

// Writes the root's first cell.
fn set_root<P: PageSpace>(
    space: &mut P,
    ops: &Ops,
    root: PageNo,
    size: u16,
    count: u32,
    peak: u32,
) -> Result<(), SpaceFault>
    requires means { P.means space.old (table_of record_meaning range_meaning ops.now) }
    requires can { (P.view space.old).Told → HasRootPage (P.view space.old) root.0 }
    ensures counts { Counts (P.view space.old) (P.view space.new) result }
    ensures did { OnOk result (SetsRoot (P.view space.old) (P.view space.new) root.0 size count peak) }
    ensures later { P.later (table_of record_meaning range_meaning ops.now) space.old space.new }
    ensures means { P.means space.new (table_of record_meaning range_meaning ops.now) }
    ensures few { (P.view space.new).records ≤ (P.view space.old).records + 1 }
{
    let cell = spell_root(size, count, peak);
    let op = PageOp::Set {
        slot: 0,
        bytes: &cell,
    };
    space.change(ops, root, &op)?;
    Ok(())
}

/// Takes a page of this kind, and puts its number into a slot of another.
pub fn link_new<P: PageSpace>(
    space: &mut P,
    ops: &Ops,
    p: PageNo,
    slot: u16,
    kind: u8,
) -> Result<PageNo, SpaceFault>
    requires means { P.means space.old (table_of record_meaning range_meaning ops.now) }
    requires can { (P.view space.old).Told → CanLinkTo (P.view space.old) p.0 slot }
    ensures counts { Counts (P.view space.old) (P.view space.new) result }
    ensures did { IfOk result (λ q. Linked (P.view space.old) (P.view space.new) kind q.0 p.0 slot) }
    ensures later { P.later (table_of record_meaning range_meaning ops.now) space.old space.new }
    ensures means { P.means space.new (table_of record_meaning range_meaning ops.now) }
    ensures few { (P.view space.new).records ≤ (P.view space.old).records + 3 }
{
    let new = space.take_page(kind)?;
    let mut cell = [0; 4];
    write_u32(&mut cell, new.0);
    let op = PageOp::Put { slot, bytes: &cell };
    space.change(ops, p, &op)?;
    Ok(new)
}

/// Puts an item behind the others, into an item page that there is for it.
pub fn put_last<P: PageSpace>(
    space: &mut P,
    ops: &Ops,
    root: PageNo,
    leaf: PageNo,
    found: Root,
    item: &[u8],
) -> Result<(), SpaceFault>
    requires means { P.means space.old (table_of record_meaning range_meaning ops.now) }
    requires fits { length item.now ≡ found.size }
    requires few { found.count < 1048576 }
    requires there { HasBuilt (P.view space.old) root.0
        (CanPutLast (P.view space.old) leaf.0 found.size found.count found.peak) }
    ensures counts { Counts (P.view space.old) (P.view space.new) result }
    ensures did { OnOk result (PutsLast (P.view space.old) (P.view space.new) root.0
        leaf.0 found.size found.count found.peak item.now) }
    ensures later { P.later (table_of record_meaning range_meaning ops.now) space.old space.new }
    ensures means { P.means space.new (table_of record_meaning range_meaning ops.now) }
    ensures few { (P.view space.new).records ≤ (P.view space.old).records + 2 }
{
    are_bytes(item);
    let slot = (found.count % per_page(found.size)) as u16;
    space.change(ops, leaf, &PageOp::Put { slot, bytes: item })?;
    let count = found.count + 1;
    set_root(space, ops, root, found.size, count, found.peak.max(count))?;
    Ok(())
}

/// Takes the last item out.
pub fn take_last<P: PageSpace>(
    space: &mut P,
    ops: &Ops,
    root: PageNo,
    last: Last,
) -> Result<(), SpaceFault>
    requires means { P.means space.old (table_of record_meaning range_meaning ops.now) }
    requires can { HasBuilt (P.view space.old) root.0
        (IsLast last.place.leaf.0 last.place.slot last.place.size last.count last.peak) }
    ensures counts { Counts (P.view space.old) (P.view space.new) result }
    ensures did { OnOk result (TakesLast (P.view space.old) (P.view space.new) root.0
        last.place.leaf.0 last.place.slot last.place.size last.count last.peak) }
    ensures later { P.later (table_of record_meaning range_meaning ops.now) space.old space.new }
    ensures means { P.means space.new (table_of record_meaning range_meaning ops.now) }
    ensures few { (P.view space.new).records ≤ (P.view space.old).records + 2 }
{
    let place = last.place;
    let slot = place.slot;
    space.change(ops, place.leaf, &PageOp::Remove { slot })?;
    set_root(space, ops, root, place.size, last.count, last.peak)?;
    Ok(())
}
