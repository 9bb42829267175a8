ghost use Rattle.std.specs.Prelude.{◌≡◌, ◌≢◌, ◌↔◌, ◌⊎◌, ◌≤◌, ◌<◌, ◌+◌, ℕ, false, Some, None, List, length, get_or, slice_set, replicate, unwrap_or, IfOk};
ghost use Rattle.sg_base.specs.Overwritten.{overwritten};
ghost use Rattle.sg_base.specs.declared.page.TheConstants.{BAND_SIZE};
ghost use Rattle.sg_segment.specs.Runs.{IsMarked, IsWithin};
ghost use Rattle.sg_pool.specs.Held.{frame_of, page_in, since_of};
ghost use Rattle.sg_pool.specs.Windows.{IsWindows, no_marks, marked_in, last_in};

use crate::clear::{clear_marks, clear_since};
use crate::index::forget;
use crate::making::{empty_table, no_changes};
use crate::slot::Slot;
use sg_base::OutOfMemory;
use sg_segment::{Dirty, blind_write};
use std::alloc::Global;

/// Of the band in a window: the number of its last change, and which bytes were written by changes
/// that aren't on the disk.
#[derive(Drop)]
pub struct Marks {
    pub(crate) last: u64,
    pub(crate) dirty: Dirty,
}

/// What each window holds.
#[derive(Drop)]
pub struct Windows {
    // what each window holds, and the window of each band
    pub(crate) slots: Vec<Slot>,
    pub(crate) index: Vec<Option<u32>>,
    pub(crate) marks: Vec<Marks>,
    // the window into which the next band comes
    pub(crate) next: u32,
    ghost windows: { IsWindows slots.items index.items marks.items next },
}

impl Windows {
    // So many windows, which hold nothing, for so many bands.
    pub(crate) fn new(alloc: Global, bands: u32, windows: u32) -> Result<Windows, OutOfMemory>
        requires windows { (1 ≤ windows) × (windows ≤ 256) }
        ensures slots { IfOk result (λ s. s.slots.items ≡ replicate windows (record { number = None; since = None })) }
        ensures bands { IfOk result (λ s. length s.index.items ≡ bands) }
    {
        let (slots, index) = empty_table(alloc, bands, windows)?;
        let Ok(marks) = no_changes(alloc, windows) else {
            return Err(OutOfMemory);
        };
        Ok(Windows {
            slots,
            index,
            marks,
            next: 0,
        })
    }

    // The window that holds a band.
    pub(crate) fn find(&self, b: u32) -> Option<u32>
        requires band { b < length self.now.index.items }
        ensures { result ≡ frame_of self.now.slots.items b }
    {
        self.index[b as usize]
    }

    // Puts a band that is in no window into one, in place of what it holds, without a change.
    pub(crate) fn put(&mut self, w: u32, b: u32)
        requires there { w < length self.old.slots.items }
        requires band { b < length self.old.index.items }
        requires absent { frame_of self.old.slots.items b ≡ None }
        ensures slots { self.new.slots.items ≡ slice_set self.old.slots.items w (record { number = Some b; since = None }) }
        ensures bands { length self.new.index.items ≡ length self.old.index.items }
        ensures unmarked { (k : ℕ) → marked_in self.new.marks.items (Some w) k ≡ false }
        ensures others { (v : ℕ) → v ≢ w → get_or self.new.marks.items v no_marks ≡ get_or self.old.marks.items v no_marks }
    {
        let slot = self.slots[w as usize];
        forget(&mut self.index, slot.number);
        self.slots[w as usize] = Slot {
            number: Some(b),
            since: None,
        };
        self.index[b as usize] = Some(w);
        self.marks[w as usize] = Marks {
            last: 0,
            dirty: Dirty::new(),
        };
        self.next = (w + 1) % self.slots.len() as u32;
    }

    // Writes bytes to the window of a band, and marks them, as the record of this number does.
    pub(crate) fn write(&mut self, window: &mut [u8], w: u32, lsn: u64, at: u32, bytes: &[u8])
        requires there { w < length self.old.slots.items }
        requires held { (b : ℕ) × (page_in self.old.slots.items w ≡ Some b) }
        requires size { length window.old ≡ BAND_SIZE }
        requires fits { at + length bytes.now ≤ BAND_SIZE }
        ensures written { window.new ≡ overwritten window.old at bytes.now }
        ensures slots { self.new.slots.items ≡ slice_set self.old.slots.items w (record { number = page_in self.old.slots.items w; since = Some (unwrap_or (since_of self.old.slots.items (Some w)) lsn) }) }
        ensures bands { length self.new.index.items ≡ length self.old.index.items }
        ensures last { last_in self.new.marks.items (Some w) ≡ lsn }
        ensures marked { (k : ℕ) → IsMarked (get_or self.new.marks.items w no_marks).dirty k ↔ (IsMarked (get_or self.old.marks.items w no_marks).dirty k ⊎ IsWithin at (length bytes.now) k) }
        ensures others { (v : ℕ) → v ≢ w → get_or self.new.marks.items v no_marks ≡ get_or self.old.marks.items v no_marks }
    {
        let slot = self.slots[w as usize];
        self.slots[w as usize] = slot.changed(lsn);
        let marks = &mut self.marks[w as usize];
        marks.last = lsn;
        blind_write(window, &mut marks.dirty, at, bytes);
    }

    // The bands in the windows from `from` to `to` have no change that isn't on the disk.
    pub(crate) fn clear(&mut self, from: usize, to: usize)
        requires order { from ≤ to }
        requires within { to ≤ length self.old.slots.items }
        ensures count { length self.new.slots.items ≡ length self.old.slots.items }
        ensures numbers { (w : ℕ) → page_in self.new.slots.items w ≡ page_in self.old.slots.items w }
        ensures cleared { (w : ℕ) → from ≤ w → w < to → since_of self.new.slots.items (Some w) ≡ None }
        ensures unmarked { (w k : ℕ) → from ≤ w → w < to → marked_in self.new.marks.items (Some w) k ≡ false }
        ensures others { (w : ℕ) → (w < from) ⊎ (to ≤ w) → since_of self.new.slots.items (Some w) ≡ since_of self.old.slots.items (Some w) }
        ensures other_marks { (w : ℕ) → (w < from) ⊎ (to ≤ w) → get_or self.new.marks.items w no_marks ≡ get_or self.old.marks.items w no_marks }
        ensures bands { length self.new.index.items ≡ length self.old.index.items }
    {
        clear_since(&mut self.slots, from, to);
        clear_marks(&mut self.marks, from, to);
    }
}
