// One change of a page's slots each, on a page that has the room for it.
ghost use Rattle.std.specs.Prelude.{◌≡◌, ◌≢◌, ◌+◌, ◌*◌, ◌<◌, ◌≤◌, ◌++◌, ◌∷◌, [], length, slice_set, Some, None, take};
ghost use Rattle.sg_base.specs.Page.{number_at, count_of, start_of, lost_of, directory_end, slots_of, cell_in, header_of, offset_at, length_at, bytes_of, IsSlotted};
ghost use Rattle.sg_base.specs.Overwritten.{overwritten};
ghost use Rattle.sg_slotted.specs.Layout.{grown, filled, cleared, emptied};

use crate::writes::{number_u16, put_bytes, put_entry, put_u8, put_u16};
use sg_base::PAGE_SIZE;

// One more slot, an empty one.
pub fn grow(page: &mut [u8])
    requires slotted { IsSlotted page.old }
    requires room { directory_end page.old + 4 ≤ start_of page.old }
    ensures slotted { IsSlotted page.new }
    ensures slots { slots_of page.new ≡ slots_of page.old ++ (None ∷ []) }
    ensures header { header_of page.new ≡ header_of page.old }
    ensures lost { lost_of page.new ≡ lost_of page.old }
    ensures bytes { page.new ≡ grown page.old }
{
    let count = number_u16(page, 10);
    put_u16(page, 24 + 4 * count as usize, 0);
    put_u16(page, 10, count + 1);
}

// A cell into an empty slot.
pub fn fill(page: &mut [u8], slot: u16, bytes: &[u8])
    requires slotted { IsSlotted page.old }
    requires there { slot < length (slots_of page.old) }
    requires empty { cell_in (slots_of page.old) slot ≡ None }
    requires room { directory_end page.old + length bytes.now ≤ start_of page.old }
    ensures slotted { IsSlotted page.new }
    ensures slots { slots_of page.new ≡ slice_set (slots_of page.old) slot (Some bytes.now) }
    ensures header { header_of page.new ≡ header_of page.old }
    ensures lost { lost_of page.new ≡ lost_of page.old }
    ensures bytes { page.new ≡ filled page.old slot bytes.now }
{
    let size = bytes.len() as u16;
    let top = number_u16(page, 12) - size;
    put_bytes(page, top as usize, bytes);
    put_u16(page, 12, top);
    put_entry(page, slot, top, size);
}

// A cell of as many bytes in the place of a full slot's.
pub fn refill(page: &mut [u8], slot: u16, bytes: &[u8])
    requires slotted { IsSlotted page.old }
    requires full { cell_in (slots_of page.old) slot ≢ None }
    requires size { length bytes.now ≡ length_at page.old slot }
    ensures slotted { IsSlotted page.new }
    ensures slots { slots_of page.new ≡ slice_set (slots_of page.old) slot (Some bytes.now) }
    ensures header { header_of page.new ≡ header_of page.old }
    ensures bytes { page.new ≡ overwritten page.old (offset_at page.old slot) bytes.now }
{
    let offset = number_u16(page, 24 + 4 * slot as usize);
    put_bytes(page, offset as usize, bytes);
}

// No cell in a full slot any more. Its bytes are lost.
pub fn clear(page: &mut [u8], slot: u16)
    requires slotted { IsSlotted page.old }
    requires full { cell_in (slots_of page.old) slot ≢ None }
    ensures slotted { IsSlotted page.new }
    ensures slots { slots_of page.new ≡ slice_set (slots_of page.old) slot None }
    ensures header { header_of page.new ≡ header_of page.old }
    ensures bytes { page.new ≡ cleared page.old slot }
{
    let entry = 24 + 4 * slot as usize;
    let size = number_u16(page, entry + 2);
    let lost = number_u16(page, 14);
    put_u16(page, 14, lost + size);
    put_u16(page, entry, 0);
}

// No slot and no lost byte.
pub fn reset(page: &mut [u8])
    requires { length page.old ≡ 4096 }
    ensures slotted { IsSlotted page.new }
    ensures slots { slots_of page.new ≡ [] }
    ensures header { header_of page.new ≡ header_of page.old }
    ensures lost { lost_of page.new ≡ 0 }
    ensures bytes { page.new ≡ emptied page.old }
{
    put_u8(page, 9, 0);
    put_u16(page, 10, 0);
    put_u16(page, 12, PAGE_SIZE as u16);
    put_u16(page, 14, 0);
}
