// The slots of all page frames, or of all windows.
ghost use Rattle.std.specs.Prelude.{◌≡◌, ◌+◌, ◌*◌, ◌^◌, ◌<◌, ◌≤◌, ℕ, [], All, length, slice_index_or, vec_len, vec_capacity};
ghost use Rattle.std.specs.Vec.{vec_ptr};
ghost use Rattle.std.specs.Ptr.{null_ptr};
ghost use denote.RawPtr.{◌+ₚ◌};
ghost use Rattle.sg_frames.specs.Pieces.{AreSideBySide, start_of};
ghost use Rattle.sg_frames.specs.Zeros.{AreZeros};

use crate::block::Run;
use crate::slot::Slot;
use std::marker::Model;
use std_alloc::vec::Lodged;

// The slots of the pieces that begin at `start`, `size` bytes each, side by side. A slot that holds no
// memory of its own place counts as lent.
pub(crate) struct Table {
    start: *const u8,
    size: usize,
    slots: Vec<Slot>,
}

impl Model for Table {
    ghost use Rattle.std.specs.Prelude.{length};
    ghost use Rattle.sg_frames.specs.Pieces.{Pieces, spots_from, lying};

    ghost Value = { Pieces };

    ghost view = { λ t. record {
      spots = spots_from t.start t.size (length t.slots.items);
      bytes = lying (spots_from t.start t.size (length t.slots.items)) t.slots.items;
    } };
}

impl Table {
    ghost use Rattle.std.specs.Borrow.{sem};
    ghost use Rattle.sg_frames.specs.Pieces.{with_entry};
    ghost use Rattle.sg_frames.specs.Tables.{LendsEntry, LendsSlots, ShowsSlots};

    // Cuts so many pieces of so many bytes from a run that lies `at` bytes behind `start`. Gives the
    // rest of the run too.
    pub(crate) fn new(
        mut slots: Vec<Slot>,
        start: *mut u8,
        at: usize,
        size: usize,
        count: u32,
        run: Run,
    ) -> (Table, Run)
        requires empty { vec_len slots ≡ 0 }
        requires room { count ≤ vec_capacity slots }
        requires some { 0 < size }
        requires not_empty { 0 < count }
        requires small { at + count * size < 2 ^ 63 }
        requires spot { run.ptr ≡ start +ₚ at }
        requires size { count * size ≤ length run.items }
        requires zeros { All (λ x. x ≡ 0) run.items }
        ensures count { (length result.0.spots ≡ count) × (length result.0.bytes ≡ count) }
        ensures spots { AreSideBySide size result.0.spots result.1.ptr }
        ensures start { start_of result.0.spots result.1.ptr ≡ run.ptr }
        ensures zeros { (k : ℕ) → k < count → AreZeros size (slice_index_or result.0.bytes k []) }
        ensures rest_spot { result.1.ptr ≡ start +ₚ (at + count * size) }
        ensures rest_size { length result.1.items + count * size ≡ length run.items }
        ensures rest_zeros { All (λ x. x ≡ 0) result.1.items }
    {
        let mut rest = run;
        'slots: for k in 0..count {
            let here = at + k as usize * size;
            let (piece, others) = rest.cut(size);
            slots.push_reserved(Slot::new(start, here, size, piece));
            rest = others;
        }
        let start = slots[0].spot();
        (Table { start, size, slots }, rest)
    }

    // Joins all pieces and the run behind them.
    pub(crate) fn into_run(self, size: usize, run: Run) -> Run
        requires some { 0 < size }
        requires none_lent { (k : ℕ) → k < length self.bytes → length (slice_index_or self.bytes k []) ≡ size }
        requires spots { AreSideBySide size self.spots run.ptr }
        ensures start { result.ptr ≡ start_of self.spots run.ptr }
        ensures size { length result.items ≡ length run.items + length self.spots * size }
    {
        let Table {
            start: _,
            size: _,
            mut slots,
        } = self;
        let mut run = run;
        'slots: while let Some(slot) = slots.pop() {
            prove!(slot.bytes().len() == size);
            run = slot.into_run().join(run);
        }
        run
    }

    pub(crate) fn bytes(&self, i: u32) -> &[u8]
        requires { 0 < length (slice_index_or self.now.bytes i []) }
        ensures { result.now ≡ slice_index_or self.now.bytes i [] }
    {
        self.slots[i as usize].bytes()
    }

    pub(crate) fn bytes_mut(&mut self, i: u32) -> &mut [u8]
        requires { 0 < length (slice_index_or self.old.bytes i []) }
        ensures* writes_back { sem 𝓛 (LendsEntry self.entry i result) }
        ensures value { result.now ≡ slice_index_or self.old.bytes i [] }
    {
        self.slots[i as usize].bytes_mut()
    }

    // All slots.
    pub(crate) fn slots_mut(&mut self) -> &mut [Slot]
        ensures* writes_back { sem 𝓛 (LendsSlots self.entry result) }
        ensures value { ShowsSlots self.old result.now }
    {
        self.slots.as_mut_slice()
    }

    // Moves the memory of one slot out.
    pub(crate) fn take(&mut self, i: u32) -> Vec<u8, Lodged>
        requires { 0 < length (slice_index_or self.old.bytes i []) }
        ensures spot { vec_ptr result ≡ slice_index_or self.old.spots i null_ptr }
        ensures bytes { result.items ≡ slice_index_or self.old.bytes i [] }
        ensures left { self.new ≡ with_entry self.old i [] }
    {
        let slot = &mut self.slots[i as usize];
        slot.take()
    }

    // Moves memory into the slot where it lies.
    pub(crate) fn put(&mut self, i: u32, memory: Vec<u8, Lodged>)
        requires some { i < length self.old.bytes }
        requires spot { vec_ptr memory ≡ slice_index_or self.old.spots i null_ptr }
        ensures { self.new ≡ with_entry self.old i memory.items }
    {
        let slot = &mut self.slots[i as usize];
        slot.put(memory);
    }
}
