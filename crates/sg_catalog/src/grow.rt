// The catalogue gets another row.
ghost use Rattle.std.specs.Prelude.{◌≡◌, OnOk, ◌+◌, ◌≤◌};
ghost use Rattle.sg_catalog.specs.Calls.{HasCatalog, CanPlace, PlacesRow, CanLink, LinksPage, RaisesPeak};
ghost use Rattle.sg_catalog.specs.Steps.{HasRaw};
ghost use Rattle.sg_ops.specs.Table.{table_of};
ghost use Rattle.sg_space.specs.View.{Counts};

use crate::change::{fill_place, set_next, set_peak};
use crate::look::KIND;
use crate::row::{LARGEST, Row, spell_row};
use crate::walk::{FIRST, Survey};
use sg_base::PageNo;
use sg_ops::Ops;
use sg_space::{PageSpace, SpaceFault, take_page_with};

// Takes a page, puts the row on it, and links the last page to it.
fn add_page<P: PageSpace>(
    space: &mut P,
    ops: &Ops,
    last: PageNo,
    row: Row,
) -> Result<(), SpaceFault>
    requires means { P.means space.old (table_of record_meaning range_meaning ops.now) }
    requires can { HasRaw (P.view space.old) (CanLink (P.view space.old) last.0) }
    ensures counts { Counts (P.view space.old) (P.view space.new) result }
    ensures did { OnOk result (LinksPage (P.view space.old) (P.view space.new) last.0 row) }
    ensures later { P.later (table_of record_meaning range_meaning ops.now) space.old space.new }
    ensures means { P.means space.new (table_of record_meaning range_meaning ops.now) }
    ensures few { (P.view space.new).records ≤ (P.view space.old).records + 4 }
{
    let mut cell = [0; LARGEST];
    let size = spell_row(row, &mut cell);
    let page = take_page_with(space, ops, KIND, &cell[..size])?;
    set_next(space, ops, last, page)?;
    Ok(())
}

/// Puts a row into a free place, or on a page of its own behind the last one.
pub fn place_row<P: PageSpace>(
    space: &mut P,
    ops: &Ops,
    survey: Survey,
    row: Row,
) -> Result<(), SpaceFault>
    requires means { P.means space.old (table_of record_meaning range_meaning ops.now) }
    requires can { HasCatalog (P.view space.old) (CanPlace (P.view space.old) survey) }
    ensures counts { Counts (P.view space.old) (P.view space.new) result }
    ensures did { OnOk result (PlacesRow (P.view space.old) (P.view space.new) survey row) }
    ensures later { P.later (table_of record_meaning range_meaning ops.now) space.old space.new }
    ensures means { P.means space.new (table_of record_meaning range_meaning ops.now) }
    ensures few { (P.view space.new).records ≤ (P.view space.old).records + 4 }
{
    match survey.free {
        Some(spot) => {
            fill_place(space, ops, spot, row)?;
            Ok(())
        }
        None => {
            add_page(space, ops, survey.last, row)?;
            Ok(())
        }
    }
}

/// Raises the peak to so many rows, where it is less.
pub fn raise_peak<P: PageSpace>(
    space: &mut P,
    ops: &Ops,
    peak: u32,
    rows: u32,
) -> Result<(), SpaceFault>
    requires means { P.means space.old (table_of record_meaning range_meaning ops.now) }
    requires can { HasRaw (P.view space.old) (λ c. c.peak ≡ peak) }
    ensures counts { Counts (P.view space.old) (P.view space.new) result }
    ensures did { OnOk result (RaisesPeak (P.view space.old) (P.view space.new) peak rows) }
    ensures later { P.later (table_of record_meaning range_meaning ops.now) space.old space.new }
    ensures means { P.means space.new (table_of record_meaning range_meaning ops.now) }
    ensures few { (P.view space.new).records ≤ (P.view space.old).records + 1 }
{
    if rows <= peak {
        return Ok(());
    }
    set_peak(space, ops, FIRST, rows)?;
    Ok(())
}
