// One page of a bucket.
ghost use Rattle.std.specs.Prelude.{◌≡◌, IfOk, OnOk, option_map};
ghost use Rattle.sg_base.specs.Page.{slots_of};
ghost use Rattle.sg_bucket.specs.Part.{CanLookInto, IsMatch, IsSought, IsLook};
ghost use Rattle.sg_ops.specs.Table.{Table};
ghost use Rattle.sg_space.specs.Units.{HasAt};
ghost use Rattle.sg_space.specs.Pages.{WritesNone};
ghost use Rattle.sg_space.specs.View.{Counts, OnlyReads};

use crate::entry::{is_entry, key_in};
use sg_base::{PageNo, SlotView};
use sg_space::{PageSpace, SpaceFault};

/// The kind of a bucket's pages.
pub const BUCKET_KIND: u8 = 6;

/// What a search of a page's slots for a key finds.
pub enum Sought {
    At(u16),
    Nowhere,
    Broken,
}

// What a cell is for who looks for a key.
enum Match {
    Same,
    Other,
    Broken,
}

/// What a look at a page for a key tells: the slot of its entry, or which page is next, 0 for none.
pub enum Look {
    Here(u16),
    Next(PageNo),
}

// What a slot's cell, where it has one, is for who looks for a key.
fn compare(cell: Option<&[u8]>, key: &[u8]) -> Match
    ensures { IsMatch (option_map (λ x. x.now) cell.entry) key.now result }
{
    let Some(cell) = cell else {
        return Match::Other;
    };
    if !is_entry(cell) {
        return Match::Broken;
    }
    if key_in(cell) == key {
        Match::Same
    } else {
        Match::Other
    }
}

// Looks for a key among the entries of a page.
fn seek_slot(view: &SlotView<'_>, key: &[u8]) -> Sought
    ensures { IsSought (slots_of view.now.page.now) key.now result }
{
    for slot in 0..view.slots() {
        match compare(view.slot(slot), key) {
            Match::Same => return Sought::At(slot),
            Match::Broken => return Sought::Broken,
            Match::Other => {}
        }
    }
    Sought::Nowhere
}

/// Looks for a key on one page.
pub fn look_for<P: PageSpace>(space: &mut P, p: PageNo, key: &[u8]) -> Result<Look, SpaceFault>
    requires { CanLookInto (P.view space.old) p.0 }
    ensures counts { Counts (P.view space.old) (P.view space.new) result }
    ensures kept { OnOk result (OnlyReads (P.view space.old) (P.view space.new)) }
    ensures read { IfOk result (λ seen. (P.view space.old).Shows → HasAt (P.view space.old).space.pages.at p.0 (IsLook key.now seen)) }
    ensures later { (t : Table) → P.later t space.old space.new }
    ensures means { (t : Table) → P.means space.old t → P.means space.new t }
    ensures writes { WritesNone (P.view space.old) (P.view space.new) result }
{
    let view = space.page(p)?;
    if view.kind() != BUCKET_KIND {
        return Err(space.broken());
    }
    let next = view.links().0;
    match seek_slot(&view, key) {
        Sought::At(slot) => Ok(Look::Here(slot)),
        Sought::Nowhere => Ok(Look::Next(PageNo(next))),
        Sought::Broken => Err(space.broken()),
    }
}

/// Which page is next, 0 for none.
pub fn next_of<P: PageSpace>(space: &mut P, p: PageNo) -> Result<PageNo, SpaceFault>
    requires { CanLookInto (P.view space.old) p.0 }
    ensures counts { Counts (P.view space.old) (P.view space.new) result }
    ensures kept { OnOk result (OnlyReads (P.view space.old) (P.view space.new)) }
    ensures read { IfOk result (λ next. (P.view space.old).Shows → HasAt (P.view space.old).space.pages.at p.0 (λ sheet. sheet.links.0 ≡ next.0)) }
    ensures later { (t : Table) → P.later t space.old space.new }
    ensures means { (t : Table) → P.means space.old t → P.means space.new t }
    ensures writes { WritesNone (P.view space.old) (P.view space.new) result }
{
    let view = space.page(p)?;
    if view.kind() != BUCKET_KIND {
        return Err(space.broken());
    }
    let next = view.links().0;
    Ok(PageNo(next))
}
