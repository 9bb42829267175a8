// One page of the catalogue.
ghost use Rattle.std.specs.Prelude.{◌≡◌, ◌+◌, ◌<◌, ◌≤◌, ◌++◌, ◌∷◌, [], List, ℕ, Option, Some, None, length, option_map, IfOk, IfErr, IsOk, OnOk, MatchResult};
ghost use Rattle.sg_base.specs.Page.{slots_of};
ghost use Rattle.sg_base.specs.Sheet.{sheet_of};
ghost use Rattle.sg_catalog.specs.Look.{fits, read_rows, names_of, IsHeaderOf, IsNoPage, HasUnformed, SeenIn, IsMeasured, Sees, IsUnread, Measures, IsUnlisted, IsNoList, ListsPage};

use crate::row::{Row, row_in};
use crate::wanted::Wanted;
use sg_base::{Name, PageNo, SlotView};

/// The kind of the catalogue's pages.
pub const KIND: u8 = 1;

/// The most rows of one page.
pub const MOST_SLOTS: u16 = 79;

/// What was read can't be.
#[derive(Clone, Copy)]
pub struct Broken;

/// What a page says beside its rows: the page that follows it, 0 where it is the last, and on page 0
/// the most rows that there were.
#[derive(Clone, Copy)]
pub struct Header {
    pub next: PageNo,
    pub peak: u32,
}

/// A slot of a page.
#[derive(Clone, Copy)]
pub struct Spot {
    pub page: PageNo,
    pub slot: u16,
}

/// A row and where it stands.
#[derive(Clone, Copy)]
pub struct Found {
    pub spot: Spot,
    pub row: Row,
}

/// How many slots of a page are full, and one that is free, if there is one.
#[derive(Clone, Copy)]
pub struct Measure {
    pub full: u16,
    pub free: Option<u16>,
}

/// What the page says beside its rows, if it is one of the catalogue.
pub fn header_in(view: &SlotView<'_>) -> Result<Header, Broken>
    ensures { MatchResult result (IsHeaderOf (sheet_of view.now.page.now)) (λ _. IsNoPage (sheet_of view.now.page.now)) }
{
    if view.kind() != KIND || view.slots() > MOST_SLOTS {
        return Err(Broken);
    }
    let (a, b) = view.links();
    Ok(Header {
        next: PageNo(a),
        peak: b,
    })
}

/// The first row of a page that is wanted.
pub fn found_in(view: &SlotView<'_>, page: PageNo, wanted: &Wanted) -> Result<Option<Found>, Broken>
    ensures { MatchResult result (SeenIn (fits wanted.now) page (slots_of view.now.page.now)) (λ _. HasUnformed (slots_of view.now.page.now)) }
{
    for slot in 0..view.slots() {
        let Some(cell) = view.slot(slot) else {
            continue;
        };
        let Some(row) = row_in(cell) else {
            return Err(Broken);
        };
        if wanted.fits(&row) {
            let spot = Spot { page, slot };
            return Ok(Some(Found { spot, row }));
        }
    }
    Ok(None)
}

/// How many slots are full, and one that is free, the first one if one is open.
pub fn measure_of(view: &SlotView<'_>) -> Measure
    requires { length (slots_of view.now.page.now) ≤ 79 }
    ensures { IsMeasured (slots_of view.now.page.now) result.full result.free }
{
    let slots = view.slots();
    let mut full = 0;
    let mut free = None;
    for slot in 0..slots {
        if view.slot(slot).is_some() {
            full += 1;
        } else if free.is_none() {
            free = Some(slot);
        }
    }
    if free.is_none() && slots < MOST_SLOTS {
        free = Some(slots);
    }
    Measure { full, free }
}

/// What a search sees of a page: what the page says beside its rows, and the first of them that is
/// wanted.
#[derive(Clone, Copy)]
pub struct Seen {
    pub head: Header,
    pub found: Option<Found>,
}

/// What a search sees of a page, if it is one of the catalogue.
pub fn see(view: &SlotView<'_>, page: PageNo, wanted: &Wanted) -> Result<Seen, Broken>
    ensures { MatchResult result (Sees (fits wanted.now) page (sheet_of view.now.page.now)) (λ _. IsUnread (sheet_of view.now.page.now)) }
{
    let head = header_in(view)?;
    let found = found_in(view, page, wanted)?;
    Ok(Seen { head, found })
}

/// How full a page is, and what it says beside its rows.
#[derive(Clone, Copy)]
pub struct Measured {
    pub head: Header,
    pub measure: Measure,
}

/// How full a page is, if it is one of the catalogue.
pub fn read_measure(view: &SlotView<'_>) -> Result<Measured, Broken>
    ensures { MatchResult result (Measures (sheet_of view.now.page.now)) (λ _. IsNoPage (sheet_of view.now.page.now)) }
{
    let head = header_in(view)?;
    let measure = measure_of(view);
    Ok(Measured { head, measure })
}

/// Why the names of a page aren't listed.
#[derive(Clone, Copy)]
pub enum Unlisted {
    /// What was read can't be.
    Broken,
    /// Memory was refused.
    Memory,
}

// Puts a name behind those that there are.
fn push_name(names: &mut Vec<Name>, name: Name) -> Result<(), Unlisted>
    ensures { OnOk result (names.new.items ≡ names.old.items ++ (name ∷ [])) }
{
    match names.push(name) {
        Ok(()) => Ok(()),
        Err(_) => Err(Unlisted::Memory),
    }
}

/// Puts the names of a page's objects behind those that there are.
pub fn list_names(view: &SlotView<'_>, names: &mut Vec<Name>) -> Result<(), Unlisted>
    ensures { MatchResult result
        (λ _. names.new.items ≡ names.old.items ++ names_of (read_rows (slots_of view.now.page.now)))
        (λ e. IsUnlisted (slots_of view.now.page.now) e) }
{
    for slot in 0..view.slots() {
        let Some(cell) = view.slot(slot) else {
            continue;
        };
        let Some(row) = row_in(cell) else {
            return Err(Unlisted::Broken);
        };
        if row.dropper.is_some() {
            continue;
        }
        let Ok(()) = push_name(names, row.name) else {
            return Err(Unlisted::Memory);
        };
    }
    Ok(())
}

/// Puts the names of a page's objects behind those that there are, if it is one of the catalogue, and
/// answers what it says beside its rows.
pub fn list_page(view: &SlotView<'_>, names: &mut Vec<Name>) -> Result<Header, Unlisted>
    ensures { MatchResult result
        (λ head. ListsPage (sheet_of view.now.page.now) names.old.items names.new.items head)
        (λ e. IsNoList (sheet_of view.now.page.now) e) }
{
    let Ok(head) = header_in(view) else {
        return Err(Unlisted::Broken);
    };
    list_names(view, names)?;
    Ok(head)
}
