// The steps of a change of the catalogue.
ghost use Rattle.std.specs.Prelude.{◌≡◌, ◌+◌, ◌<◌, ◌≤◌, ◌^◌, IfOk, OnOk, Some, None, length, ⊤};
ghost use Rattle.sg_catalog.specs.Steps.{HasPlace, HasRow, HasRowOf, CanPut, SetsPlace, KeepsBut, Relinks};
ghost use Rattle.sg_ops.specs.Table.{Table, table_of};
ghost use Rattle.sg_space.specs.Pages.{CanLook, WritesNone};
ghost use Rattle.sg_space.specs.Units.{HasAt};
ghost use Rattle.sg_space.specs.View.{Counts, Keeps, OnlyReads};

use crate::look::Spot;
use crate::row::{LARGEST, Row, spell_row};
use sg_base::{PageNo, PageOp};
use sg_ops::Ops;
use sg_space::{PageSpace, SpaceFault};

/// Writes another row of as many bytes over one.
pub fn set_row<P: PageSpace>(
    space: &mut P,
    ops: &Ops,
    spot: Spot,
    row: Row,
) -> Result<(), SpaceFault>
    requires means { P.means space.old (table_of record_meaning range_meaning ops.now) }
    requires can { HasPlace (P.view space.old) (HasRowOf spot (length row.name)) }
    ensures counts { Counts (P.view space.old) (P.view space.new) result }
    ensures keeps { OnOk result ((P.view space.old).Told → Keeps (P.view space.old) (P.view space.new)) }
    ensures did { OnOk result (SetsPlace (P.view space.old) (P.view space.new)
        (HasRowOf spot (length row.name)) (Some row)) }
    ensures later { P.later (table_of record_meaning range_meaning ops.now) space.old space.new }
    ensures means { P.means space.new (table_of record_meaning range_meaning ops.now) }
    ensures few { (P.view space.new).records ≤ (P.view space.old).records + 1 }
{
    let mut cell = [0; LARGEST];
    let size = spell_row(row, &mut cell);
    let op = PageOp::Set {
        slot: spot.slot,
        bytes: &cell[..size],
    };
    space.change(ops, spot.page, &op)?;
    Ok(())
}

/// Takes a row out of its place.
pub fn clear_row<P: PageSpace>(space: &mut P, ops: &Ops, spot: Spot) -> Result<(), SpaceFault>
    requires means { P.means space.old (table_of record_meaning range_meaning ops.now) }
    requires can { HasPlace (P.view space.old) (HasRow spot) }
    ensures counts { Counts (P.view space.old) (P.view space.new) result }
    ensures keeps { OnOk result (KeepsBut (P.view space.old) (P.view space.new) spot.page.0) }
    ensures did { OnOk result (SetsPlace (P.view space.old) (P.view space.new) (HasRow spot) None) }
    ensures later { P.later (table_of record_meaning range_meaning ops.now) space.old space.new }
    ensures means { P.means space.new (table_of record_meaning range_meaning ops.now) }
    ensures few { (P.view space.new).records ≤ (P.view space.old).records + 1 }
{
    let op = PageOp::Remove { slot: spot.slot };
    space.change(ops, spot.page, &op)?;
    Ok(())
}

/// Puts a row into a free place.
pub fn fill_place<P: PageSpace>(
    space: &mut P,
    ops: &Ops,
    spot: Spot,
    row: Row,
) -> Result<(), SpaceFault>
    requires means { P.means space.old (table_of record_meaning range_meaning ops.now) }
    requires can { HasPlace (P.view space.old) (CanPut (P.view space.old) spot) }
    ensures counts { Counts (P.view space.old) (P.view space.new) result }
    ensures keeps { OnOk result ((P.view space.old).Told → Keeps (P.view space.old) (P.view space.new)) }
    ensures did { OnOk result (SetsPlace (P.view space.old) (P.view space.new)
        (CanPut (P.view space.old) spot) (Some row)) }
    ensures later { P.later (table_of record_meaning range_meaning ops.now) space.old space.new }
    ensures means { P.means space.new (table_of record_meaning range_meaning ops.now) }
    ensures few { (P.view space.new).records ≤ (P.view space.old).records + 1 }
{
    let mut cell = [0; LARGEST];
    let size = spell_row(row, &mut cell);
    let op = PageOp::Put {
        slot: spot.slot,
        bytes: &cell[..size],
    };
    space.change(ops, spot.page, &op)?;
    Ok(())
}

// The two numbers of other pages that a page has.
fn links_at<P: PageSpace>(space: &mut P, p: PageNo) -> Result<(u32, u32), SpaceFault>
    requires { CanLook (P.view space.old) (P.view space.old).space.pages p.0 }
    ensures counts { Counts (P.view space.old) (P.view space.new) result }
    ensures kept { OnOk result (OnlyReads (P.view space.old) (P.view space.new)) }
    ensures read { IfOk result (λ l. (P.view space.old).Shows →
        HasAt (P.view space.old).space.pages.at p.0 (λ sheet. sheet.links ≡ l)) }
    ensures later { (t : Table) → P.later t space.old space.new }
    ensures means { (t : Table) → P.means space.old t → P.means space.new t }
    ensures writes { WritesNone (P.view space.old) (P.view space.new) result }
{
    let view = space.page(p)?;
    Ok(view.links())
}

/// Makes another page the one that follows.
pub fn set_next<P: PageSpace>(
    space: &mut P,
    ops: &Ops,
    p: PageNo,
    next: PageNo,
) -> Result<(), SpaceFault>
    requires means { P.means space.old (table_of record_meaning range_meaning ops.now) }
    requires can { CanLook (P.view space.old) (P.view space.old).space.pages p.0 }
    ensures counts { Counts (P.view space.old) (P.view space.new) result }
    ensures did { OnOk result (Relinks (P.view space.old) (P.view space.new) p.0 (λ l. (next.0, l.1))) }
    ensures later { P.later (table_of record_meaning range_meaning ops.now) space.old space.new }
    ensures means { P.means space.new (table_of record_meaning range_meaning ops.now) }
    ensures few { (P.view space.new).records ≤ (P.view space.old).records + 1 }
{
    let (_, peak) = links_at(space, p)?;
    let op = PageOp::Links { a: next.0, b: peak };
    space.change(ops, p, &op)?;
    Ok(())
}

/// Writes the most rows that there were.
pub fn set_peak<P: PageSpace>(
    space: &mut P,
    ops: &Ops,
    p: PageNo,
    peak: u32,
) -> Result<(), SpaceFault>
    requires means { P.means space.old (table_of record_meaning range_meaning ops.now) }
    requires can { CanLook (P.view space.old) (P.view space.old).space.pages p.0 }
    ensures counts { Counts (P.view space.old) (P.view space.new) result }
    ensures did { OnOk result (Relinks (P.view space.old) (P.view space.new) p.0 (λ l. (l.0, peak))) }
    ensures later { P.later (table_of record_meaning range_meaning ops.now) space.old space.new }
    ensures means { P.means space.new (table_of record_meaning range_meaning ops.now) }
    ensures few { (P.view space.new).records ≤ (P.view space.old).records + 1 }
{
    let (next, _) = links_at(space, p)?;
    let op = PageOp::Links { a: next, b: peak };
    space.change(ops, p, &op)?;
    Ok(())
}
