// Writes at a place of a page, each of which leaves everything else.
ghost use Rattle.std.specs.Prelude.{◌≡◌, ◌+◌, ◌*◌, ◌<◌, ◌≤◌, length, slice_index, slice_set};
ghost use Rattle.byteorder.specs.Endian.{little_bytes};
ghost use Rattle.sg_base.specs.Overwritten.{overwritten};
ghost use Rattle.sg_base.specs.Page.{bytes_at, number_at, offset_at, length_at};
ghost use Rattle.sg_slotted.specs.Writes.{KeepsOutside};
ghost use Rattle.sg_slotted.specs.Layout.{with_u16};

use sg_base::{read_u16, write_u16, write_u32, write_u64};

// The number in the 2 bytes there.
#[tactic(auto, unfolding(sg_base::specs::Page::number_at, sg_base::specs::Page::bytes_at))]
pub fn number_u16(page: &[u8], at: usize) -> u16
    requires { at + 2 ≤ length page.now }
    ensures { result ≡ number_at page.now at 2 }
{
    read_u16(&page[at..at + 2])
}

pub fn put_u8(page: &mut [u8], at: usize, byte: u8)
    requires { at < length page.old }
    ensures written { slice_index page.new at ≡ byte }
    ensures others { KeepsOutside page.old page.new at (at + 1) }
    ensures bytes { page.new ≡ slice_set page.old at byte }
{
    page[at] = byte;
}

pub fn put_u16(page: &mut [u8], at: usize, number: u16)
    requires { at + 2 ≤ length page.old }
    ensures written { number_at page.new at 2 ≡ number }
    ensures others { KeepsOutside page.old page.new at (at + 2) }
    ensures bytes { page.new ≡ overwritten page.old at (little_bytes 2 number) }
{
    write_u16(&mut page[at..at + 2], number);
}

pub fn put_u32(page: &mut [u8], at: usize, number: u32)
    requires { at + 4 ≤ length page.old }
    ensures written { number_at page.new at 4 ≡ number }
    ensures others { KeepsOutside page.old page.new at (at + 4) }
    ensures bytes { page.new ≡ overwritten page.old at (little_bytes 4 number) }
{
    write_u32(&mut page[at..at + 4], number);
}

pub fn put_u64(page: &mut [u8], at: usize, number: u64)
    requires { at + 8 ≤ length page.old }
    ensures written { number_at page.new at 8 ≡ number }
    ensures others { KeepsOutside page.old page.new at (at + 8) }
    ensures bytes { page.new ≡ overwritten page.old at (little_bytes 8 number) }
{
    write_u64(&mut page[at..at + 8], number);
}

pub fn put_bytes(page: &mut [u8], at: usize, bytes: &[u8])
    requires { at + length bytes.now ≤ length page.old }
    ensures written { bytes_at page.new at (length bytes.now) ≡ bytes.now }
    ensures others { KeepsOutside page.old page.new at (at + length bytes.now) }
    ensures bytes { page.new ≡ overwritten page.old at bytes.now }
{
    page[at..at + bytes.len()].copy_from_slice(bytes);
}

// Writes where a slot's cell stands and how many bytes it has.
pub fn put_entry(page: &mut [u8], slot: u16, offset: u16, size: u16)
    requires { 28 + 4 * slot ≤ length page.old }
    ensures offset { offset_at page.new slot ≡ offset }
    ensures size { length_at page.new slot ≡ size }
    ensures others { KeepsOutside page.old page.new (24 + 4 * slot) (28 + 4 * slot) }
    ensures bytes { page.new ≡ with_u16 (with_u16 page.old (24 + 4 * slot) offset) (26 + 4 * slot) size }
{
    let entry = 24 + 4 * slot as usize;
    put_u16(page, entry, offset);
    put_u16(page, entry + 2, size);
}
