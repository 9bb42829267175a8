// From the catalogue to what it names.
ghost use Rattle.std.specs.Prelude.{◌≡◌, ℕ, ◌<◌, true, false, Some, slice_get, get_or, length, IfOk, IfErr, OnOk};
ghost use Rattle.sg_base.specs.Page.{slots_of, cell_in};
ghost use Rattle.sg_catalog.specs.Look.{row_in};
ghost use Rattle.sg_ops.specs.Table.{Table};
ghost use Rattle.sg_reach.specs.Fault.{CountsReach, WritesNoneReach, IfBroken, IsReached};
ghost use Rattle.sg_walk.specs.Rows.{CanReachRows, ReachesRows, CanReach, Reaches, IsRowAt};
ghost use Rattle.sg_walk.specs.Paging.{HasRowsAt, IfRowsAt};
ghost use Rattle.sg_space.specs.Pages.{CanLook, WritesNone};
ghost use Rattle.sg_space.specs.Units.{HasAt};
ghost use Rattle.sg_space.specs.View.{Counts, OnlyReads};

use crate::body::reach_body;
use sg_alloc::Maps;
use sg_base::{PageNo, SlotView};
use sg_catalog::{Row, row_in};
use sg_names::{Counted, reach_names, tally_page};
use sg_reach::ReachFault;
use sg_space::{PageSpace, SpaceFault};

const FIRST: PageNo = PageNo(0);

const SLOTS: u16 = 79;

// The row in a slot, if one is spelled there.
fn row_on(view: &SlotView<'_>, slot: u16) -> Option<Row>
    ensures { result ≡ row_in (cell_in (slots_of view.now.page.now) slot) }
{
    let cell = view.slot(slot)?;
    row_in(cell)
}

// The row in a slot, if one is spelled there.
fn row_at<P: PageSpace>(space: &mut P, p: PageNo, slot: u16) -> Result<Option<Row>, SpaceFault>
    requires { CanLook (P.view space.old) (P.view space.old).space.pages p.0 }
    ensures counts { Counts (P.view space.old) (P.view space.new) result }
    ensures kept { OnOk result (OnlyReads (P.view space.old) (P.view space.new)) }
    ensures read { IfOk result (λ row. (P.view space.old).Shows → HasAt (P.view space.old).space.pages.at p.0 (IsRowAt slot row)) }
    ensures later { (t : Table) → P.later t space.old space.new }
    ensures means { (t : Table) → P.means space.old t → P.means space.new t }
    ensures writes { WritesNone (P.view space.old) (P.view space.new) result }
{
    let view = space.page(p)?;
    let row = row_on(&view, slot);
    Ok(row)
}

// Sets what the rows of a page reach.
fn reach_rows<P: PageSpace>(
    space: &mut P,
    pages: u32,
    p: PageNo,
    into: &mut Maps,
) -> Result<(), ReachFault>
    requires there { CanLook (P.view space.old) (P.view space.old).space.pages p.0 }
    requires rows { HasRowsAt (P.view space.old) pages p.0 into.old }
    ensures counts { CountsReach (P.view space.old) (P.view space.new) result }
    ensures kept { OnOk result (OnlyReads (P.view space.old) (P.view space.new)) }
    ensures reached { OnOk result (IfRowsAt (P.view space.old) pages p.0
        (λ rs. ReachesRows (P.view space.old).space into.old into.new rs)) }
    ensures broken { IfErr result (IfBroken (IfRowsAt (P.view space.old) pages p.0
        (λ rs. ¬ CanReachRows (P.view space.old).space into.old rs))) }
    ensures later { (t : Table) → P.later t space.old space.new }
    ensures means { (t : Table) → P.means space.old t → P.means space.new t }
    ensures writes { WritesNoneReach (P.view space.old) (P.view space.new) result }
    ensures place { IfErr result (IsReached ((P.view space.old).Shows × (slice_get into.old.pages p.0 ≡ Some true)) into.new.pages) }
{
    for slot in 0..SLOTS {
        let Some(row) = row_at(space, p, slot)? else {
            continue;
        };
        reach_body(space, p, row.kind, row.root, into)?;
    }
    Ok(())
}

/// Sets the pages and bands that the objects of a space reach, page 0 aside, which is set already: those of the
/// catalogue, and those of each array, table and blob that it names, tombstones' too. It is looked that they are
/// theirs. The marks, which are clear, are the caller's, for the names: the more there are the fewer names are counted.
///
/// An error is the space's own, or `Broken` with a page that was reached, and is set: one that is wrong, names what
/// can't be set, or has a name or a key twice. Some pages and bands may be set then.
pub fn reach<P: PageSpace>(
    space: &mut P,
    into: &mut Maps,
    marks: &mut [bool],
) -> Result<(), ReachFault>
    requires some { 0 < length marks.old }
    requires clear { (i : ℕ) → get_or marks.old i false ≡ false }
    requires first { slice_get into.old.pages 0 ≡ Some true }
    requires there { (P.view space.old).Told → CanReach (P.view space.old).space into.old }
    ensures counts { CountsReach (P.view space.old) (P.view space.new) result }
    ensures kept { OnOk result (OnlyReads (P.view space.old) (P.view space.new)) }
    ensures reached { OnOk result ((P.view space.old).Shows → Reaches (P.view space.old).space into.old into.new) }
    ensures broken { IfErr result (IfBroken ((P.view space.old).Shows → ¬ CanReach (P.view space.old).space into.old)) }
    ensures later { (t : Table) → P.later t space.old space.new }
    ensures means { (t : Table) → P.means space.old t → P.means space.new t }
    ensures writes { WritesNoneReach (P.view space.old) (P.view space.new) result }
    ensures place { IfErr result (IsReached ((P.view space.old).Shows) into.new.pages) }
{
    let pages = reach_names(space, into, marks)?;
    let mut page = FIRST;
    'pages: for _ in 0..pages {
        reach_rows(space, pages, page, into)?;
        let found = tally_page(space, page, &Counted::Every)?;
        page = found.next;
    }
    Ok(())
}
