// Room on the pages of a bucket.
ghost use Rattle.std.specs.Prelude.{◌≡◌, ◌<◌, ◌≤◌, length, IfOk, OnOk, IfSome, IsTrue, IsFalse, Some, None};
ghost use Rattle.sg_base.specs.Page.{slots_of, cell_in};
ghost use Rattle.sg_bucket.specs.Bucket.{HasEntry};
ghost use Rattle.sg_bucket.specs.Part.{CanLookInto, HasValueAt};
ghost use Rattle.sg_bucket.specs.Steps.{CanPut, IsRoom, IsHeld, IsBare, IsEmptied};
ghost use Rattle.sg_ops.specs.Table.{Table};
ghost use Rattle.sg_space.specs.Units.{HasAt};
ghost use Rattle.sg_space.specs.Pages.{WritesNone};
ghost use Rattle.sg_space.specs.View.{Counts, OnlyReads};

use crate::entry::{is_entry, value_in};
use crate::page::BUCKET_KIND;
use sg_base::{PageNo, SlotView};
use sg_space::{PageSpace, SpaceFault};

/// What a look at a page for room tells: a slot where the cell may be put, or which page is next, 0 for none.
pub enum Room {
    At(u16),
    Full(PageNo),
}

/// What a slot holds: how long its entry's value is, and how long a cell may be there.
#[derive(Clone, Copy)]
pub struct Held {
    pub value: u16,
    pub most: u16,
}

// An empty slot, if there is one.
fn empty_slot(view: &SlotView<'_>) -> Option<u16>
    ensures { IfSome result (λ slot. (slot < length (slots_of view.now.page.now)) × (cell_in (slots_of view.now.page.now) slot ≡ None)) }
{
    for slot in 0..view.slots() {
        if view.slot(slot).is_none() {
            return Some(slot);
        }
    }
    None
}

// A slot where a cell of this size may be put, if there is room.
fn free_slot(view: &SlotView<'_>, size: usize) -> Option<u16>
    ensures { IfSome result (λ slot. CanPut size slot (slots_of view.now.page.now)) }
{
    let room = view.room() as usize;
    if room < size {
        return None;
    }
    if let Some(slot) = empty_slot(view) {
        return Some(slot);
    }
    if room - size < 4 {
        return None;
    }
    Some(view.slots())
}

// Whether some slot has an entry.
fn has_entry(view: &SlotView<'_>) -> bool
    ensures some { IsTrue result → HasEntry (slots_of view.now.page.now) }
    ensures none { IsFalse result → IsBare (slots_of view.now.page.now) }
{
    for slot in 0..view.slots() {
        if view.slot(slot).is_some() {
            return true;
        }
    }
    false
}

/// Looks on a page for a slot where a cell of this size may be put.
pub fn room_on<P: PageSpace>(space: &mut P, p: PageNo, size: usize) -> Result<Room, SpaceFault>
    requires { CanLookInto (P.view space.old) p.0 }
    ensures counts { Counts (P.view space.old) (P.view space.new) result }
    ensures kept { OnOk result (OnlyReads (P.view space.old) (P.view space.new)) }
    ensures read { IfOk result (λ seen. (P.view space.old).Shows → HasAt (P.view space.old).space.pages.at p.0 (IsRoom size seen)) }
    ensures later { (t : Table) → P.later t space.old space.new }
    ensures means { (t : Table) → P.means space.old t → P.means space.new t }
    ensures writes { WritesNone (P.view space.old) (P.view space.new) result }
{
    let view = space.page(p)?;
    if view.kind() != BUCKET_KIND {
        return Err(space.broken());
    }
    let next = view.links().0;
    match free_slot(&view, size) {
        Some(slot) => Ok(Room::At(slot)),
        None => Ok(Room::Full(PageNo(next))),
    }
}

/// Looks at what a slot holds.
pub fn held_at<P: PageSpace>(space: &mut P, p: PageNo, slot: u16) -> Result<Held, SpaceFault>
    requires { (P.view space.old).Told → HasAt (P.view space.old).space.pages.at p.0 (HasValueAt slot) }
    ensures counts { Counts (P.view space.old) (P.view space.new) result }
    ensures kept { OnOk result (OnlyReads (P.view space.old) (P.view space.new)) }
    ensures read { IfOk result (λ held. (P.view space.old).Shows → HasAt (P.view space.old).space.pages.at p.0 (IsHeld slot held)) }
    ensures later { (t : Table) → P.later t space.old space.new }
    ensures means { (t : Table) → P.means space.old t → P.means space.new t }
    ensures writes { WritesNone (P.view space.old) (P.view space.new) result }
{
    let view = space.page(p)?;
    if view.kind() != BUCKET_KIND {
        return Err(space.broken());
    }
    let room = view.room();
    let Some(cell) = view.slot(slot) else {
        return Err(space.broken());
    };
    if !is_entry(cell) {
        return Err(space.broken());
    }
    let value = value_in(cell).len() as u16;
    let most = room + cell.len() as u16;
    Ok(Held { value, most })
}

/// Looks whether a page has no entry any more: then it answers which page is next.
pub fn emptied<P: PageSpace>(space: &mut P, p: PageNo) -> Result<Option<PageNo>, SpaceFault>
    requires { CanLookInto (P.view space.old) p.0 }
    ensures counts { Counts (P.view space.old) (P.view space.new) result }
    ensures kept { OnOk result (OnlyReads (P.view space.old) (P.view space.new)) }
    ensures read { IfOk result (λ next. (P.view space.old).Shows → HasAt (P.view space.old).space.pages.at p.0 (IsEmptied next)) }
    ensures later { (t : Table) → P.later t space.old space.new }
    ensures means { (t : Table) → P.means space.old t → P.means space.new t }
    ensures writes { WritesNone (P.view space.old) (P.view space.new) result }
{
    let view = space.page(p)?;
    if view.kind() != BUCKET_KIND {
        return Err(space.broken());
    }
    let next = view.links().0;
    if has_entry(&view) {
        return Ok(None);
    }
    Ok(Some(PageNo(next)))
}
