// The records of one page or band, repeated through a loan of its frame or window.
ghost use Rattle.std.specs.Prelude.{◌≡◌, ◌≢◌, ◌⊎◌, ◌<◌, ◌≤◌, ◌+◌, ◌^◌, ◌||◌, [], ℕ, false, Some, length, get_or, slice_set};
ghost use Rattle.sg_base.specs.Page.{IsSlotted};
ghost use Rattle.sg_base.specs.declared.page.TheConstants.{BAND_SIZE};
ghost use Rattle.sg_frames.specs.Held.{IsHere, with_bytes};
ghost use Rattle.sg_frames.specs.declared.place.Place.TheVariants.{Page, Window};
ghost use Rattle.sg_ops.specs.Table.{table_of};
ghost use Rattle.sg_redo.specs.History.{repeated, since_repeated, is_covered};
ghost use Rattle.sg_redo.specs.Places.{page_records, window_records, marks_with};
ghost use Rattle.sg_redo.specs.Units.{AreKnown};
ghost use Rattle.sg_redo.specs.Window.{replayed, since_replayed, on_byte, AllLie};
ghost use Rattle.sg_pool.specs.Held.{page_in, since_of};
ghost use Rattle.sg_pool.specs.Repeated.{last_lsn};
ghost use Rattle.sg_pool.specs.Windows.{no_marks, marked_in, last_in};

use crate::shelf::Shelf;
use crate::slot::Slot;
use crate::windows::{Marks, Windows};
use sg_base::{Lsn, Steps};
use sg_frames::{Frames, Loan};
use sg_ops::Ops;
use sg_redo::{Place, Unit, replay_unit};
use sg_segment::Dirty;
use std::mem::replace;
use std::sync::ledger::Ledger;

// The unit whose own places are all of these.
fn unit_of(places: &[Place], loan: Loan, dirty: Dirty, since: Option<Lsn>) -> Unit
    requires few { length places.now < 2 ^ 32 }
    ensures own { (result.first ≡ 0) × (result.count ≡ length places.now) }
    ensures loan { result.loan ≡ loan }
    ensures dirty { result.dirty ≡ dirty }
    ensures since { result.since ≡ since }
{
    Unit {
        number: places.first().map_or(0, |p| p.unit),
        loan,
        dirty,
        since,
        first: 0,
        count: places.len() as u32,
    }
}

// The number of the last of some records.
fn last_lsn(places: &[Place]) -> Lsn
    ensures { result ≡ last_lsn places.now }
{
    match places.last() {
        Some(place) => place.lsn,
        None => 0,
    }
}

// Repeats the records at these places on the page in a frame, which is lent for it, and gives the
// page's oldest change that isn't on the disk.
fn repeat_frame<L: Ledger>(
    frames: &mut Frames,
    f: u32,
    since: Option<Lsn>,
    places: &[Place],
    text: &[u8],
    ops: &Ops,
    steps: &mut Steps<L>,
) -> Option<Lsn>
    requires there { f < length frames.old.pages }
    requires here { IsHere frames.old (Page f) }
    requires known { AreKnown (table_of record_meaning range_meaning ops.now) text.now places.now }
    requires few { length places.now < 2 ^ 32 }
    ensures frames { let rs = page_records (table_of record_meaning range_meaning ops.now) text.now places.now in
        frames.new ≡ with_bytes frames.old (Page f) (repeated rs (get_or frames.old.pages f [])) }
    ensures here { IsHere frames.new (Page f) }
    ensures since { let rs = page_records (table_of record_meaning range_meaning ops.now) text.now places.now in
        result ≡ since_repeated rs (get_or frames.old.pages f []) since }
    ensures well { let rs = page_records (table_of record_meaning range_meaning ops.now) text.now places.now in
        (repeated rs (get_or frames.old.pages f []) ≡ get_or frames.old.pages f []) ⊎ IsSlotted (repeated rs (get_or frames.old.pages f [])) }
    ensures steps { steps.new ≡ steps.old + length places.now }
{
    let loan = frames.take(f);
    let mut unit = unit_of(places, loan, Dirty::new(), since);
    replay_unit(&mut unit, places, text, ops, steps);
    let Unit {
        number: _,
        loan,
        dirty: _,
        since,
        first: _,
        count: _,
    } = unit;
    frames.give(loan);
    since
}

// Repeats the records at these places on the band in a window, which is lent for it, and gives the
// band's oldest change that isn't on the disk.
fn repeat_window<L: Ledger>(
    frames: &mut Frames,
    w: u32,
    marks: &mut Marks,
    since: Option<Lsn>,
    places: &[Place],
    text: &[u8],
    ops: &Ops,
    steps: &mut Steps<L>,
) -> Option<Lsn>
    requires there { w < length frames.old.windows }
    requires here { IsHere frames.old (Window w) }
    requires known { AreKnown (table_of record_meaning range_meaning ops.now) text.now places.now }
    requires few { length places.now < 2 ^ 32 }
    ensures frames { let ws = window_records (table_of record_meaning range_meaning ops.now) text.now places.now in
        frames.new ≡ with_bytes frames.old (Window w) (replayed ws (get_or frames.old.windows w [])) }
    ensures here { IsHere frames.new (Window w) }
    ensures since { let ws = window_records (table_of record_meaning range_meaning ops.now) text.now places.now in
        result ≡ since_replayed ws since }
    ensures marked { let ws = window_records (table_of record_meaning range_meaning ops.now) text.now places.now in
        marks.new.dirty ≡ marks_with ws marks.old.dirty }
    ensures many { length marks.old.dirty ≡ BAND_SIZE }
    ensures last { marks.new.last ≡ last_lsn places.now }
    ensures lie { AllLie BAND_SIZE (window_records (table_of record_meaning range_meaning ops.now) text.now places.now) }
    ensures steps { steps.new ≡ steps.old + length places.now }
{
    marks.dirty.covers_window();
    let dirty = replace(&mut marks.dirty, Dirty::new());
    let loan = frames.take_window(w);
    let mut unit = unit_of(places, loan, dirty, since);
    replay_unit(&mut unit, places, text, ops, steps);
    let Unit {
        number: _,
        loan,
        dirty,
        since,
        first: _,
        count: _,
    } = unit;
    marks.dirty = dirty;
    marks.last = last_lsn(places);
    frames.give(loan);
    since
}

impl Windows {
    // Repeats the records at these places on a window's band.
    fn repeat<L: Ledger>(
        &mut self,
        frames: &mut Frames,
        w: u32,
        places: &[Place],
        text: &[u8],
        ops: &Ops,
        steps: &mut Steps<L>,
    )
        requires there { w < length self.old.slots.items }
        requires held { (b : ℕ) × (page_in self.old.slots.items w ≡ Some b) }
        requires window { w < length frames.old.windows }
        requires here { IsHere frames.old (Window w) }
        requires known { AreKnown (table_of record_meaning range_meaning ops.now) text.now places.now }
        requires few { length places.now < 2 ^ 32 }
        ensures slots { let ws = window_records (table_of record_meaning range_meaning ops.now) text.now places.now in
            self.new.slots.items ≡ slice_set self.old.slots.items w (record { number = page_in self.old.slots.items w; since = since_replayed ws (since_of self.old.slots.items (Some w)) }) }
        ensures bands { length self.new.index.items ≡ length self.old.index.items }
        ensures last { last_in self.new.marks.items (Some w) ≡ last_lsn places.now }
        ensures marked { let ws = window_records (table_of record_meaning range_meaning ops.now) text.now places.now in
            (k : ℕ) → k < BAND_SIZE → marked_in self.new.marks.items (Some w) k ≡ (marked_in self.old.marks.items (Some w) k || is_covered (on_byte k ws)) }
        ensures beyond { (k : ℕ) → BAND_SIZE ≤ k → marked_in self.new.marks.items (Some w) k ≡ false }
        ensures others { (v : ℕ) → v ≢ w → get_or self.new.marks.items v no_marks ≡ get_or self.old.marks.items v no_marks }
        ensures frames { let ws = window_records (table_of record_meaning range_meaning ops.now) text.now places.now in
            frames.new ≡ with_bytes frames.old (Window w) (replayed ws (get_or frames.old.windows w [])) }
        ensures still { IsHere frames.new (Window w) }
        ensures lie { AllLie BAND_SIZE (window_records (table_of record_meaning range_meaning ops.now) text.now places.now) }
        ensures steps { steps.new ≡ steps.old + length places.now }
    {
        let slot = self.slots[w as usize];
        let marks = &mut self.marks[w as usize];
        let since = repeat_window(frames, w, marks, slot.since, places, text, ops, steps);
        self.slots[w as usize] = Slot {
            number: slot.number,
            since,
        };
    }
}

impl Shelf {
    ghost use Rattle.sg_pool.specs.Shelves.{geometry_of};

    // Repeats the records at these places on a frame's page.
    pub(crate) fn repeat_page<L: Ledger>(
        &mut self,
        f: u32,
        places: &[Place],
        text: &[u8],
        ops: &Ops,
        steps: &mut Steps<L>,
    )
        requires there { f < length self.old.slots.items }
        requires held { (p : ℕ) × (page_in self.old.slots.items f ≡ Some p) }
        requires known { AreKnown (table_of record_meaning range_meaning ops.now) text.now places.now }
        requires few { length places.now < 2 ^ 32 }
        ensures slots { let rs = page_records (table_of record_meaning range_meaning ops.now) text.now places.now in
            self.new.slots.items ≡ slice_set self.old.slots.items f (record { number = page_in self.old.slots.items f; since = since_repeated rs (get_or self.old.frames.pages f []) (since_of self.old.slots.items (Some f)) }) }
        ensures frames { let rs = page_records (table_of record_meaning range_meaning ops.now) text.now places.now in
            self.new.frames ≡ with_bytes self.old.frames (Page f) (repeated rs (get_or self.old.frames.pages f [])) }
        ensures wins { self.new.wins ≡ self.old.wins }
        ensures geometry { geometry_of self.new ≡ geometry_of self.old }
        ensures steps { steps.new ≡ steps.old + length places.now }
    {
        let slot = self.slots[f as usize];
        let since = repeat_frame(&mut self.frames, f, slot.since, places, text, ops, steps);
        self.slots[f as usize] = Slot {
            number: slot.number,
            since,
        };
    }

    // Repeats the records at these places on a window's band.
    pub(crate) fn repeat_band<L: Ledger>(
        &mut self,
        w: u32,
        places: &[Place],
        text: &[u8],
        ops: &Ops,
        steps: &mut Steps<L>,
    )
        requires there { w < length self.old.wins.slots.items }
        requires held { (b : ℕ) × (page_in self.old.wins.slots.items w ≡ Some b) }
        requires known { AreKnown (table_of record_meaning range_meaning ops.now) text.now places.now }
        requires few { length places.now < 2 ^ 32 }
        ensures wins { let ws = window_records (table_of record_meaning range_meaning ops.now) text.now places.now in
            self.new.wins.slots.items ≡ slice_set self.old.wins.slots.items w (record { number = page_in self.old.wins.slots.items w; since = since_replayed ws (since_of self.old.wins.slots.items (Some w)) }) }
        ensures last { last_in self.new.wins.marks.items (Some w) ≡ last_lsn places.now }
        ensures marked { let ws = window_records (table_of record_meaning range_meaning ops.now) text.now places.now in
            (k : ℕ) → k < BAND_SIZE → marked_in self.new.wins.marks.items (Some w) k ≡ (marked_in self.old.wins.marks.items (Some w) k || is_covered (on_byte k ws)) }
        ensures beyond { (k : ℕ) → BAND_SIZE ≤ k → marked_in self.new.wins.marks.items (Some w) k ≡ false }
        ensures marks { (v : ℕ) → v ≢ w → get_or self.new.wins.marks.items v no_marks ≡ get_or self.old.wins.marks.items v no_marks }
        ensures slots { self.new.slots.items ≡ self.old.slots.items }
        ensures geometry { geometry_of self.new ≡ geometry_of self.old }
        ensures frames { let ws = window_records (table_of record_meaning range_meaning ops.now) text.now places.now in
            self.new.frames ≡ with_bytes self.old.frames (Window w) (replayed ws (get_or self.old.frames.windows w [])) }
        ensures lie { AllLie BAND_SIZE (window_records (table_of record_meaning range_meaning ops.now) text.now places.now) }
        ensures steps { steps.new ≡ steps.old + length places.now }
    {
        self.wins
            .repeat(&mut self.frames, w, places, text, ops, steps);
    }
}
