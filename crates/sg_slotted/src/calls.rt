ghost use Rattle.std.specs.Prelude.{◌≡◌, ◌≢◌, ◌↔◌, ◌+◌, ◌<◌, ◌≤◌, ◌++◌, ◌∷◌, [], length, slice_set, false, Some, None, Ok, Err, OnOk, OnErr, IfErr};
ghost use Rattle.sg_base.specs.Page.{slots_of, cell_in, header_of, lsn_of, bytes_of, IsSlotted};
ghost use Rattle.sg_base.specs.Slots.{is_free, put_in, set_in, remove_in};
ghost use Rattle.sg_slotted.specs.Layout.{store_layout, push_layout, lsn_layout, links_layout, format_layout, put_layout, remove_layout, set_layout};

use crate::compaction::make_room;
use crate::steps::{clear, fill, grow, refill, reset};
use crate::writes::{put_u8, put_u32, put_u64};
use sg_base::{Lsn, SlotView};

/// Why a call is refused. No byte has changed then.
#[derive(Clone, Copy, Debug, PartialEq, Eq)]
pub enum SlotError {
    /// The page has too few bytes left for the cell and, where the slot is new, its 4 bytes.
    NoRoom,
    /// There is no such slot, or it's full where it's to be empty, or empty where it's to be full.
    NoSlot,
}

/// Sets the number of the page's last change in the log. All else stays.
pub fn set_lsn(page: &mut [u8], lsn: Lsn)
    requires { IsSlotted page.old }
    ensures slotted { IsSlotted page.new }
    ensures slots { slots_of page.new ≡ slots_of page.old }
    ensures header { header_of page.new ≡ record (header_of page.old) { lsn = lsn } }
    ensures bytes { page.new ≡ lsn_layout page.old lsn }
{
    put_u64(page, 0, lsn);
}

/// Sets the two numbers of other pages. All else stays.
pub fn set_links(page: &mut [u8], a: u32, b: u32)
    requires { IsSlotted page.old }
    ensures slotted { IsSlotted page.new }
    ensures slots { slots_of page.new ≡ slots_of page.old }
    ensures header { header_of page.new ≡ record (header_of page.old) { links = (a, b) } }
    ensures bytes { page.new ≡ links_layout page.old a b }
{
    put_u32(page, 16, a);
    put_u32(page, 20, b);
}

/// Makes any 4,096 bytes a page of this kind that has no slot, and links 0. Its number in the log
/// stays.
pub fn format(page: &mut [u8], kind: u8)
    requires { length page.old ≡ 4096 }
    ensures slotted { IsSlotted page.new }
    ensures slots { slots_of page.new ≡ [] }
    ensures header { header_of page.new ≡ record { kind = kind; lsn = lsn_of page.old; links = (0, 0) } }
    ensures bytes { page.new ≡ format_layout page.old kind }
{
    reset(page);
    put_u8(page, 8, kind);
    set_links(page, 0, 0);
}

// A cell into an empty slot of a page that has the bytes for it.
fn store(page: &mut [u8], slot: u16, bytes: &[u8])
    requires slotted { IsSlotted page.old }
    requires there { slot < length (slots_of page.old) }
    requires empty { cell_in (slots_of page.old) slot ≡ None }
    requires room { bytes_of (slots_of page.old) + length bytes.now ≤ 4072 }
    ensures slotted { IsSlotted page.new }
    ensures slots { slots_of page.new ≡ slice_set (slots_of page.old) slot (Some bytes.now) }
    ensures header { header_of page.new ≡ header_of page.old }
    ensures bytes { page.new ≡ store_layout page.old slot bytes.now }
{
    make_room(page, bytes.len());
    fill(page, slot, bytes);
}

// A cell into a new slot of a page that has the bytes for both.
fn push(page: &mut [u8], bytes: &[u8])
    requires slotted { IsSlotted page.old }
    requires room { bytes_of (slots_of page.old) + (4 + length bytes.now) ≤ 4072 }
    ensures slotted { IsSlotted page.new }
    ensures slots { slots_of page.new ≡ slots_of page.old ++ (Some bytes.now ∷ []) }
    ensures header { header_of page.new ≡ header_of page.old }
    ensures bytes { page.new ≡ push_layout page.old bytes.now }
{
    make_room(page, 4 + bytes.len());
    let slot = SlotView::new(page).slots();
    grow(page);
    fill(page, slot, bytes);
}

/// Puts a cell into an empty slot, or into a new one behind the last, and leaves all others. It
/// answers `NoSlot` where the slot is full or lies further behind, and else `NoRoom` where cells and
/// directory would have more than 4,072 bytes; then no byte changes.
pub fn put(page: &mut [u8], slot: u16, bytes: &[u8]) -> Result<(), SlotError>
    requires { IsSlotted page.old }
    ensures slotted { IsSlotted page.new }
    ensures header { header_of page.new ≡ header_of page.old }
    ensures ok { OnOk result (put_in (slots_of page.old) slot bytes.now ≡ Some (slots_of page.new)) }
    ensures bytes { OnOk result (page.new ≡ put_layout page.old slot bytes.now) }

    ensures err { OnErr result (put_in (slots_of page.old) slot bytes.now ≡ None) }
    ensures no_slot { (result ≡ Err SlotError.NoSlot) ↔ (is_free (slots_of page.old) slot ≡ false) }
    ensures same { OnErr result (page.new ≡ page.old) }
{
    let view = SlotView::new(page);
    let slots = view.slots();
    let room = view.room() as usize;
    if slot > slots || view.slot(slot).is_some() {
        return Err(SlotError::NoSlot);
    }
    if slot < slots {
        if room < bytes.len() {
            return Err(SlotError::NoRoom);
        }
        store(page, slot, bytes);
    } else {
        if room < 4 || room - 4 < bytes.len() {
            return Err(SlotError::NoRoom);
        }
        push(page, bytes);
    }
    Ok(())
}

/// Takes the cell out of a full slot, which is then empty and stays in the directory. It answers
/// `NoSlot` where there is no full slot of this number; then no byte changes.
pub fn remove(page: &mut [u8], slot: u16) -> Result<(), SlotError>
    requires { IsSlotted page.old }
    ensures slotted { IsSlotted page.new }
    ensures header { header_of page.new ≡ header_of page.old }
    ensures ok { OnOk result (remove_in (slots_of page.old) slot ≡ Some (slots_of page.new)) }
    ensures bytes { OnOk result (page.new ≡ remove_layout page.old slot) }

    ensures err { OnErr result (remove_in (slots_of page.old) slot ≡ None) }
    ensures no_slot { IfErr result (λ e. e ≡ SlotError.NoSlot) }
    ensures same { OnErr result (page.new ≡ page.old) }
{
    let view = SlotView::new(page);
    if view.slot(slot).is_none() {
        return Err(SlotError::NoSlot);
    }
    clear(page, slot);
    Ok(())
}

/// Puts another cell into a full slot, and leaves all others. It answers `NoSlot` where there is no
/// full slot of this number, and else `NoRoom` where cells and directory would have more than 4,072
/// bytes; then no byte changes. A cell of as many bytes always fits, and takes the old one's place.
pub fn set(page: &mut [u8], slot: u16, bytes: &[u8]) -> Result<(), SlotError>
    requires { IsSlotted page.old }
    ensures slotted { IsSlotted page.new }
    ensures header { header_of page.new ≡ header_of page.old }
    ensures ok { OnOk result (set_in (slots_of page.old) slot bytes.now ≡ Some (slots_of page.new)) }
    ensures bytes { OnOk result (page.new ≡ set_layout page.old slot bytes.now) }

    ensures err { OnErr result (set_in (slots_of page.old) slot bytes.now ≡ None) }
    ensures no_slot { (result ≡ Err SlotError.NoSlot) ↔ (cell_in (slots_of page.old) slot ≡ None) }
    ensures same { OnErr result (page.new ≡ page.old) }
{
    let view = SlotView::new(page);
    let room = view.room() as usize;
    let Some(old) = view.slot(slot) else {
        return Err(SlotError::NoSlot);
    };
    if bytes.len() == old.len() {
        refill(page, slot, bytes);
        return Ok(());
    }
    if room + old.len() < bytes.len() {
        return Err(SlotError::NoRoom);
    }
    clear(page, slot);
    store(page, slot, bytes);
    Ok(())
}
