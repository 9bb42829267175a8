// The pages of the catalogue, one after another.
ghost use Rattle.std.specs.Prelude.{◌≡◌, ◌+◌, ◌-◌, ◌*◌, ◌/◌, ◌<◌, ◌≤◌, ◌^◌, IfOk, OnOk, ⊤, IfErr};
ghost use Rattle.sg_catalog.specs.Calls.{HasCatalog, IfCatalog};
ghost use Rattle.sg_catalog.specs.Look.{fits, names_of};
ghost use Rattle.sg_catalog.specs.Catalog.{rows};
ghost use Rattle.sg_catalog.specs.Steps.{Searched, Surveyed, IsSurveyedOn};
ghost use Rattle.sg_ops.specs.Table.{Table};
ghost use Rattle.sg_space.specs.Listing.{CountsList, WritesNoneList};
ghost use Rattle.sg_space.specs.Pages.{WritesNone};
ghost use Rattle.sg_space.specs.View.{Counts, OnlyReads};

use crate::look::{Found, Measure, Spot};
use crate::page::{gather, look, measure};
use crate::wanted::Wanted;
use sg_base::{Name, PageNo};
use sg_space::{ListFault, PageSpace, SpaceFault};
use std::alloc::Global;

/// The first page.
pub const FIRST: PageNo = PageNo(0);

/// How many pages so many rows want.
fn pages_for(rows: u32) -> u32
    ensures { result ≡ 1 + (rows - 1) / 79 }
{
    1 + rows.saturating_sub(1) / 79
}

// How many pages a catalogue has that had so many rows at most. A space with fewer pages has none.
fn pages_wanted<P: PageSpace>(space: &mut P, peak: u32) -> Result<u32, SpaceFault>
    requires { HasCatalog (P.view space.old) (λ c. c.peak ≡ peak) }
    ensures counts { Counts (P.view space.old) (P.view space.new) result }
    ensures kept { OnOk result (OnlyReads (P.view space.old) (P.view space.new)) }
    ensures number { IfOk result (λ n. n ≡ 1 + (peak - 1) / 79) }
    ensures later { (t : Table) → P.later t space.old space.new }
    ensures means { (t : Table) → P.means space.old t → P.means space.new t }
    ensures writes { WritesNone (P.view space.old) (P.view space.new) result }
{
    let pages = pages_for(peak);
    if pages > space.pages() {
        return Err(space.broken());
    }
    Ok(pages)
}

/// The first row that is wanted. Each page is looked at once at most.
pub fn search<P: PageSpace>(space: &mut P, wanted: &Wanted) -> Result<Option<Found>, SpaceFault>
    requires { HasCatalog (P.view space.old) (λ _. ⊤) }
    ensures counts { Counts (P.view space.old) (P.view space.new) result }
    ensures kept { OnOk result (OnlyReads (P.view space.old) (P.view space.new)) }
    ensures read { IfOk result (λ found. IfCatalog (P.view space.old) (λ c. Searched (fits wanted.now) c found)) }
    ensures later { (t : Table) → P.later t space.old space.new }
    ensures means { (t : Table) → P.means space.old t → P.means space.new t }
    ensures writes { WritesNone (P.view space.old) (P.view space.new) result }
{
    let first = look(space, FIRST, wanted)?;
    if first.found.is_some() {
        return Ok(first.found);
    }
    let mut next = first.head.next;
    let pages = pages_wanted(space, first.head.peak)?;
    'pages: for _ in 1..pages {
        if next == FIRST {
            return Err(space.broken());
        }
        let seen = look(space, next, wanted)?;
        if seen.found.is_some() {
            return Ok(seen.found);
        }
        next = seen.head.next;
    }
    if next != FIRST {
        return Err(space.broken());
    }
    Ok(None)
}

/// How full the catalogue is: how many rows there are, the most that there were, a free place on one
/// of its pages, if there is one, and its last page.
#[derive(Clone, Copy)]
pub struct Survey {
    pub rows: u64,
    pub peak: u32,
    pub free: Option<Spot>,
    pub last: PageNo,
}

// The survey with one more page.
fn with_page(so_far: Survey, page: PageNo, measure: Measure) -> Survey
    requires { so_far.rows + measure.full < 2 ^ 64 }
    ensures { IsSurveyedOn so_far page measure result }
{
    let free = match (so_far.free, measure.free) {
        (None, Some(slot)) => Some(Spot { page, slot }),
        (free, _) => free,
    };
    Survey {
        rows: so_far.rows + measure.full as u64,
        peak: so_far.peak,
        free,
        last: page,
    }
}

/// How full the catalogue is.
pub fn survey_pages<P: PageSpace>(space: &mut P) -> Result<Survey, SpaceFault>
    requires { HasCatalog (P.view space.old) (λ _. ⊤) }
    ensures counts { Counts (P.view space.old) (P.view space.new) result }
    ensures kept { OnOk result (OnlyReads (P.view space.old) (P.view space.new)) }
    ensures read { IfOk result (λ s. IfCatalog (P.view space.old) (λ c. Surveyed (P.view space.old).space.pages.at c s)) }
    ensures later { (t : Table) → P.later t space.old space.new }
    ensures means { (t : Table) → P.means space.old t → P.means space.new t }
    ensures writes { WritesNone (P.view space.old) (P.view space.new) result }
{
    let first = measure(space, FIRST)?;
    let none = Survey {
        rows: 0,
        peak: first.head.peak,
        free: None,
        last: FIRST,
    };
    let mut all = with_page(none, FIRST, first.measure);
    let mut next = first.head.next;
    let pages = pages_wanted(space, first.head.peak)?;
    'pages: for _ in 1..pages {
        if next == FIRST {
            return Err(space.broken());
        }
        let found = measure(space, next)?;
        all = with_page(all, next, found.measure);
        next = found.head.next;
    }
    if next != FIRST {
        return Err(space.broken());
    }
    Ok(all)
}

/// The names of all objects, in the order of their places.
pub fn list_all<P: PageSpace>(space: &mut P, alloc: Global) -> Result<Vec<Name>, ListFault>
    requires { HasCatalog (P.view space.old) (λ _. ⊤) }
    ensures counts { CountsList (P.view space.old) (P.view space.new) result }
    ensures kept { OnOk result (OnlyReads (P.view space.old) (P.view space.new)) }
    ensures memory { IfErr result (λ e. e ≡ ListFault.Memory → OnlyReads (P.view space.old) (P.view space.new)) }
    ensures quiet { IfErr result (λ e. e ≡ ListFault.Memory → (P.view space.new).faults ≡ (P.view space.old).faults) }
    ensures read { IfOk result (λ v. IfCatalog (P.view space.old) (λ c. v.items ≡ names_of (rows c))) }
    ensures later { (t : Table) → P.later t space.old space.new }
    ensures means { (t : Table) → P.means space.old t → P.means space.new t }
    ensures writes { WritesNoneList (P.view space.old) (P.view space.new) result }
{
    let mut all = Vec::new(alloc);
    let first = gather(space, FIRST, &mut all)?;
    let mut next = first.next;
    let pages = pages_wanted(space, first.peak)?;
    'pages: for _ in 1..pages {
        if next == FIRST {
            return Err(space.broken().into());
        }
        let head = gather(space, next, &mut all)?;
        next = head.next;
    }
    if next != FIRST {
        return Err(space.broken().into());
    }
    Ok(all)
}
