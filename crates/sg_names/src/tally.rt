// How many rows of the catalogue there are of a sort.
ghost use Rattle.std.specs.Prelude.{◌≡◌, ◌+◌, ◌<◌, ◌≤◌, ◌^◌, IfOk, OnOk};
ghost use Rattle.std.specs.List.{count_by};
ghost use Rattle.sg_base.specs.Page.{slots_of, cell_in};
ghost use Rattle.sg_catalog.specs.Catalog.{rows};
ghost use Rattle.sg_catalog.specs.Look.{read_rows, row_in};
ghost use Rattle.sg_names.specs.Tally.{counts_in, IsTally, IsNameAt, name_of, HasChain, IfChain};
ghost use Rattle.sg_ops.specs.Table.{Table};
ghost use Rattle.sg_space.specs.Pages.{CanLook, WritesNone};
ghost use Rattle.sg_space.specs.Units.{HasAt};
ghost use Rattle.sg_space.specs.View.{Counts, OnlyReads};

use sg_base::{Name, PageNo, SlotView};
use sg_catalog::{Row, row_in};
use sg_space::{PageSpace, SpaceFault};

/// Which rows are counted: every one, or those of objects of this name.
#[derive(Clone, Copy)]
pub enum Counted {
    Every,
    Named(Name),
}

/// How many rows of a page count, and which page follows, 0 for none.
#[derive(Clone, Copy)]
pub struct Tally {
    pub next: PageNo,
    pub count: u64,
}

// Whether a row counts: any row, or that of an object of this name.
fn counts(row: &Row, what: &Counted) -> bool
    ensures { result ≡ counts_in what.now row.now }
{
    match what {
        Counted::Every => true,
        Counted::Named(name) => row.dropper.is_none() && row.name == *name,
    }
}

// How many rows of a page count.
fn count_on(view: &SlotView<'_>, what: &Counted) -> u64
    ensures counted { result ≡ count_by (counts_in what.now) (read_rows (slots_of view.now.page.now)) }
    ensures few { result < 65536 }
{
    let mut n = 0u64;
    for slot in 0..view.slots() {
        let Some(cell) = view.slot(slot) else {
            continue;
        };
        let Some(row) = row_in(cell) else {
            continue;
        };
        if counts(&row, what) {
            n += 1;
        }
    }
    n
}

/// How many rows of a page count, and which page follows.
pub fn tally_page<P: PageSpace>(
    space: &mut P,
    p: PageNo,
    what: &Counted,
) -> Result<Tally, SpaceFault>
    requires { CanLook (P.view space.old) (P.view space.old).space.pages p.0 }
    ensures counts { Counts (P.view space.old) (P.view space.new) result }
    ensures kept { OnOk result (OnlyReads (P.view space.old) (P.view space.new)) }
    ensures read { IfOk result (λ t. (P.view space.old).Shows → HasAt (P.view space.old).space.pages.at p.0 (IsTally what.now t)) }
    ensures few { IfOk result (λ t. t.count < 65536) }
    ensures later { (t : Table) → P.later t space.old space.new }
    ensures means { (t : Table) → P.means space.old t → P.means space.new t }
    ensures writes { WritesNone (P.view space.old) (P.view space.new) result }
{
    let view = space.page(p)?;
    let count = count_on(&view, what);
    let (next, _) = view.links();
    Ok(Tally {
        next: PageNo(next),
        count,
    })
}

// The name of the object in a slot, if there is one.
fn name_on(view: &SlotView<'_>, slot: u16) -> Option<Name>
    ensures { result ≡ name_of (row_in (cell_in (slots_of view.now.page.now) slot)) }
{
    let cell = view.slot(slot)?;
    let row = row_in(cell)?;
    if row.dropper.is_none() {
        Some(row.name)
    } else {
        None
    }
}

/// The name of the object in a slot, if there is one.
pub fn name_at<P: PageSpace>(
    space: &mut P,
    p: PageNo,
    slot: u16,
) -> Result<Option<Name>, SpaceFault>
    requires { CanLook (P.view space.old) (P.view space.old).space.pages p.0 }
    ensures counts { Counts (P.view space.old) (P.view space.new) result }
    ensures kept { OnOk result (OnlyReads (P.view space.old) (P.view space.new)) }
    ensures read { IfOk result (λ name. (P.view space.old).Shows → HasAt (P.view space.old).space.pages.at p.0 (IsNameAt slot name)) }
    ensures later { (t : Table) → P.later t space.old space.new }
    ensures means { (t : Table) → P.means space.old t → P.means space.new t }
    ensures writes { WritesNone (P.view space.old) (P.view space.new) result }
{
    let view = space.page(p)?;
    let name = name_on(&view, slot);
    Ok(name)
}

/// How many rows count, on all pages, of which there are so many.
pub fn count<P: PageSpace>(space: &mut P, pages: u32, what: &Counted) -> Result<u64, SpaceFault>
    requires { HasChain (P.view space.old) pages }
    ensures counts { Counts (P.view space.old) (P.view space.new) result }
    ensures kept { OnOk result (OnlyReads (P.view space.old) (P.view space.new)) }
    ensures read { IfOk result (λ n. IfChain (P.view space.old) pages (λ c. n ≡ count_by (counts_in what.now) (rows c))) }
    ensures later { (t : Table) → P.later t space.old space.new }
    ensures means { (t : Table) → P.means space.old t → P.means space.new t }
    ensures writes { WritesNone (P.view space.old) (P.view space.new) result }
{
    let mut page = PageNo(0);
    let mut n = 0u64;
    'pages: for _ in 0..pages {
        let found = tally_page(space, page, what)?;
        n += found.count;
        page = found.next;
    }
    Ok(n)
}
