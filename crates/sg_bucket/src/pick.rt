// The entries of a page that are at an address.
ghost use Rattle.std.specs.Prelude.{◌≡◌, ◌≤◌, length, take, IfOk, OnOk, IfSome, option_map};
ghost use Rattle.sg_bucket.specs.Branch.{IsPick, IsOutline, IsPicked, IsTold};
ghost use Rattle.sg_bucket.specs.Entry.{IsEntryCell};
ghost use Rattle.sg_bucket.specs.Part.{CanLookInto};
ghost use Rattle.sg_ops.specs.Table.{Table};
ghost use Rattle.sg_space.specs.Units.{HasAt};
ghost use Rattle.sg_space.specs.Pages.{WritesNone};
ghost use Rattle.sg_space.specs.View.{Counts, OnlyReads};

use crate::entry::{is_entry, key_in};
use crate::page::BUCKET_KIND;
use sg_base::PageNo;
use sg_linear::Address;
use sg_space::{PageSpace, SpaceFault};

// What a cell is for who looks for entries at an address.
enum Pick {
    There,
    Elsewhere,
    Broken,
}

/// What a page says beside its entries: how many slots it has, and which page is next, 0 for none.
#[derive(Clone, Copy)]
pub struct Outline {
    pub slots: u16,
    pub next: PageNo,
}

// What a slot's cell, where it has one, is for who looks for entries at an address.
fn choose(cell: Option<&[u8]>, there: Address) -> Pick
    ensures { IsPick (option_map (λ x. x.now) cell.entry) there result }
{
    let Some(cell) = cell else {
        return Pick::Elsewhere;
    };
    if !is_entry(cell) {
        return Pick::Broken;
    }
    if there.holds(key_in(cell)) {
        Pick::There
    } else {
        Pick::Elsewhere
    }
}

/// Looks how many slots a page has, and which page is next.
pub fn outline_of<P: PageSpace>(space: &mut P, p: PageNo) -> Result<Outline, SpaceFault>
    requires { CanLookInto (P.view space.old) p.0 }
    ensures counts { Counts (P.view space.old) (P.view space.new) result }
    ensures kept { OnOk result (OnlyReads (P.view space.old) (P.view space.new)) }
    ensures read { IfOk result (λ seen. (P.view space.old).Shows → HasAt (P.view space.old).space.pages.at p.0 (IsOutline seen)) }
    ensures most { IfOk result (λ seen. seen.slots ≤ 1018) }
    ensures later { (t : Table) → P.later t space.old space.new }
    ensures means { (t : Table) → P.means space.old t → P.means space.new t }
    ensures writes { WritesNone (P.view space.old) (P.view space.new) result }
{
    let view = space.page(p)?;
    if view.kind() != BUCKET_KIND {
        return Err(space.broken());
    }
    let slots = view.slots();
    let next = view.links().0;
    Ok(Outline {
        slots,
        next: PageNo(next),
    })
}

/// Copies the cell of a slot to the front of the buffer, where it has an entry at the address, and says how many bytes
/// it has. There is none where the slot is empty, or its entry is elsewhere.
pub fn copy_entry<P: PageSpace>(
    space: &mut P,
    p: PageNo,
    slot: u16,
    there: Address,
    into: &mut [u8],
) -> Result<Option<usize>, SpaceFault>
    requires room { 1156 ≤ length into.old }
    requires page { CanLookInto (P.view space.old) p.0 }
    ensures counts { Counts (P.view space.old) (P.view space.new) result }
    ensures kept { OnOk result (OnlyReads (P.view space.old) (P.view space.new)) }
    ensures read { IfOk result (λ found. (P.view space.old).Shows → HasAt (P.view space.old).space.pages.at p.0 (IsPicked there slot found into.new)) }
    ensures entry { IfOk result (λ found. IfSome found (λ n. IsEntryCell (take n into.new))) }
    ensures within { IfOk result (λ found. IfSome found (λ n. n ≤ length into.new)) }
    ensures later { (t : Table) → P.later t space.old space.new }
    ensures means { (t : Table) → P.means space.old t → P.means space.new t }
    ensures writes { WritesNone (P.view space.old) (P.view space.new) result }
{
    let view = space.page(p)?;
    if view.kind() != BUCKET_KIND {
        return Err(space.broken());
    }
    let Some(cell) = view.slot(slot) else {
        return Ok(None);
    };
    match choose(Some(cell), there) {
        Pick::There => {
            into[..cell.len()].copy_from_slice(cell);
            Ok(Some(cell.len()))
        }
        Pick::Elsewhere => Ok(None),
        Pick::Broken => Err(space.broken()),
    }
}

/// Whether a slot has an entry at the address.
pub fn is_picked<P: PageSpace>(
    space: &mut P,
    p: PageNo,
    slot: u16,
    there: Address,
) -> Result<bool, SpaceFault>
    requires { CanLookInto (P.view space.old) p.0 }
    ensures counts { Counts (P.view space.old) (P.view space.new) result }
    ensures kept { OnOk result (OnlyReads (P.view space.old) (P.view space.new)) }
    ensures read { IfOk result (λ yes. (P.view space.old).Shows → HasAt (P.view space.old).space.pages.at p.0 (IsTold there slot yes)) }
    ensures later { (t : Table) → P.later t space.old space.new }
    ensures means { (t : Table) → P.means space.old t → P.means space.new t }
    ensures writes { WritesNone (P.view space.old) (P.view space.new) result }
{
    let view = space.page(p)?;
    if view.kind() != BUCKET_KIND {
        return Err(space.broken());
    }
    match choose(view.slot(slot), there) {
        Pick::There => Ok(true),
        Pick::Elsewhere => Ok(false),
        Pick::Broken => Err(space.broken()),
    }
}
