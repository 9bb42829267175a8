// Whether some bytes are a page of slots.
ghost use Rattle.std.specs.Prelude.{◌≡◌, ◌↔◌, ◌+◌, ◌*◌, ◌^◌, ◌<◌, ◌≤◌, length, IsTrue, IsSome, is_some, IfSome, MatchOption};
ghost use Rattle.std.specs.Bool.{MatchBool};
ghost use Rattle.sg_base.specs.Page.{slots_below, count_of, stored, directory_end, start_of, AreCells, IsSlotted};
ghost use Rattle.sg_base.specs.Slotted.{is_slotted};
ghost use Rattle.sg_base.specs.Taken.{Takes, IsMet};

use crate::page::u16_at;
use crate::{PAGE_SIZE, SlotView};
use sg_bits::{WORD_BITS, next_set, set};

// Takes the places, or meets one that is taken already. A word of bits has 64 places.
fn take(taken: &mut [u64], from: usize, to: usize) -> bool
    requires order { from ≤ to }
    requires within { to ≤ 64 * length taken.old }
    requires few { 64 * length taken.old < 2 ^ 64 }
    ensures { MatchBool result (Takes taken.old taken.new from to) (IsMet taken.old from to) }
{
    if next_set(taken, from) < to {
        return false;
    }
    set(taken, from, to);
    true
}

// A cell stands in the area that starts there, or has no bytes and stands behind the fields.
fn is_whole(offset: usize, size: usize, start: usize) -> bool
    requires offset { offset < 65536 }
    requires size { size < 65536 }
    ensures { IsTrue result ↔ ((24 ≤ offset) × (0 < size → start ≤ offset) × (offset + size ≤ 4096)) }
{
    24 <= offset && (size == 0 || start <= offset) && offset + size <= PAGE_SIZE
}

// How many bytes the cells have, if each is whole and no byte is in two of them.
fn stored_bytes(page: &[u8], start: usize, count: usize) -> Option<usize>
    requires size { length page.now ≡ 4096 }
    requires directory { 24 + 4 * count ≤ 4096 }
    ensures { MatchOption result (¬ AreCells page.now start count) (λ n. AreCells page.now start count × (n ≡ stored (slots_below page.now count)) × (n ≤ 4096 * count)) }
{
    let mut taken = [0; PAGE_SIZE / WORD_BITS];
    let mut bytes = 0;
    'slots: for slot in 0..count {
        let offset = u16_at(page, 24 + 4 * slot) as usize;
        let size = u16_at(page, 26 + 4 * slot) as usize;
        if offset != 0 {
            if !is_whole(offset, size, start) {
                return None;
            }
            if !take(&mut taken, offset, offset + size) {
                return None;
            }
            bytes += size;
        }
    }
    Some(bytes)
}

/// The view of some bytes, if they are a page of slots: 4,096 of them whose fields, directory and
/// cells agree. It takes no memory, and time in proportion to the page's size.
pub fn view(page: &[u8]) -> Option<SlotView<'_>>
    ensures slotted { IsSome result ↔ IsSlotted page.now }
    ensures answer { is_some result ≡ is_slotted page.now }
    ensures page { IfSome result (λ v. v.page.now ≡ page.now) }
{
    if page.len() != PAGE_SIZE || page[9] != 0 {
        return None;
    }
    let count = u16_at(page, 10) as usize;
    let start = u16_at(page, 12) as usize;
    let lost = u16_at(page, 14) as usize;
    if start < 24 + 4 * count || PAGE_SIZE < start {
        return None;
    }
    let bytes = stored_bytes(page, start, count)?;
    if start + bytes + lost == PAGE_SIZE {
        Some(SlotView { page })
    } else {
        None
    }
}
