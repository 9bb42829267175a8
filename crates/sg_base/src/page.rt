// A page of 4,096 bytes that keeps cells in numbered slots, and the view of one.
ghost use Rattle.std.specs.Prelude.{◌≡◌, ◌+◌, ◌*◌, ◌<◌, ◌≤◌, length, option_map, slice_index, IsTrue, MatchOption};
ghost use Rattle.sg_base.specs.Page.{bytes_at, number_at, lsn_of, kind_of, links_of, count_of, slots_of, room_of, cell_in, slot_at, offset_at, length_at, start_of, lost_of, IsSlotted};

use crate::{Lsn, read_u16, read_u32, read_u64};

/// How many bytes a page has.
pub const PAGE_SIZE: usize = 4096;

/// How many bytes a band has, and a window, which holds one in memory.
pub const BAND_SIZE: usize = 32_768;

// The number in the 2 bytes there.
#[tactic(auto, unfolding(crate::specs::Page::number_at, crate::specs::Page::bytes_at))]
pub fn u16_at(page: &[u8], at: usize) -> u16
    requires { at + 2 ≤ length page.now }
    ensures { result ≡ number_at page.now at 2 }
{
    read_u16(&page[at..at + 2])
}

// The number in the 4 bytes there.
#[tactic(auto, unfolding(crate::specs::Page::number_at, crate::specs::Page::bytes_at))]
fn u32_at(page: &[u8], at: usize) -> u32
    requires { at + 4 ≤ length page.now }
    ensures { result ≡ number_at page.now at 4 }
{
    read_u32(&page[at..at + 4])
}

/// The log's number of the last change of 4,096 bytes, whether they are a page of slots or not.
#[tactic(auto, unfolding(crate::specs::Page::number_at, crate::specs::Page::bytes_at))]
pub fn page_lsn(page: &[u8]) -> Lsn
    requires { length page.now ≡ PAGE_SIZE }
    ensures { result ≡ lsn_of page.now }
{
    read_u64(&page[0..8])
}

/// A look at the fields and slots of a page that is known to be slotted. Each call takes
/// constant time.
#[derive(Clone, Copy)]
pub struct SlotView<'a> {
    /// The bytes of the page.
    pub page: &'a [u8],
    ghost slotted: { IsSlotted page.now },
}

impl<'a> SlotView<'a> {
    /// The view of a page that is known to be slotted, in constant time.
    pub fn new(page: &'a [u8]) -> SlotView<'a>
        requires { IsSlotted page.now }
        ensures { result.page.now ≡ page.now }
    {
        SlotView { page }
    }

    /// What the page is used for.
    pub fn kind(&self) -> u8
        ensures { result ≡ kind_of self.now.page.now }
    {
        self.page[8]
    }

    /// The log's number of the page's last change.
    pub fn lsn(&self) -> Lsn
        ensures { result ≡ lsn_of self.now.page.now }
    {
        read_u64(&self.page[0..8])
    }

    /// The two numbers of other pages.
    pub fn links(&self) -> (u32, u32)
        ensures { result ≡ links_of self.now.page.now }
    {
        (u32_at(self.page, 16), u32_at(self.page, 20))
    }

    /// How many slots there are, empty ones too.
    pub fn slots(&self) -> u16
        ensures { result ≡ length (slots_of self.now.page.now) }
    {
        u16_at(self.page, 10)
    }

    /// The cell of a slot. There is none in an empty slot and in one behind the last.
    pub fn slot(&self, s: u16) -> Option<&'a [u8]>
        ensures { option_map (λ x. x.now) result ≡ cell_in (slots_of self.now.page.now) s }
    {
        if s >= u16_at(self.page, 10) {
            return None;
        }
        let entry = 24 + 4 * s as usize;
        let offset = u16_at(self.page, entry) as usize;
        if offset == 0 {
            return None;
        }
        let length = u16_at(self.page, entry + 2) as usize;
        Some(&self.page[offset..offset + length])
    }

    /// How many bytes are left for cells and their slots, of 4 bytes each.
    pub fn room(&self) -> u16
        ensures { result ≡ room_of (slots_of self.now.page.now) }
    {
        let free = u16_at(self.page, 12) - (24 + 4 * u16_at(self.page, 10));
        free + u16_at(self.page, 14)
    }
}
