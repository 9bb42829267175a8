// One piece of the block that a table holds.
ghost use Rattle.std.specs.Prelude.{◌≡◌, ◌≢◌, ◌^◌, ◌<◌, [], length, slice_index_or};
ghost use Rattle.std.specs.Vec.{vec_ptr};
ghost use Rattle.std.specs.Ptr.{Ptr};
ghost use denote.RawPtr.{◌+ₚ◌};
ghost use Rattle.sg_frames.specs.Pieces.{Piece, no_piece};

use crate::block::{Run, house, vacate};
use std::marker::Model;
use std::mem;
use std_alloc::vec::Lodged;

// Its memory, which is an empty `Vec` while it is lent.
#[derive(Drop)]
pub(crate) struct Slot {
    memory: Vec<u8, Lodged>,
}

impl Model for Slot {
    ghost use Rattle.std.specs.Vec.{vec_ptr};
    ghost use Rattle.sg_frames.specs.Pieces.{Piece};

    ghost Value = { Piece };

    ghost view = { λ s. record { spot = vec_ptr s.memory; bytes = s.memory.items } };
}

impl Slot {
    ghost use Rattle.std.specs.Borrow.{sem, LendsBoth, Array};
    ghost use Rattle.sg_frames.specs.Slots.{LendsSlot, slot_row, with_two};

    // Over a run that lies `at` bytes behind `start`.
    pub(crate) fn new(start: *mut u8, at: usize, size: usize, run: Run) -> Slot
        requires some { 0 < size }
        requires small { size < 2 ^ 63 }
        requires spot { run.ptr ≡ start +ₚ at }
        requires size { length run.items ≡ size }
        ensures spot { result.spot ≡ run.ptr }
        ensures bytes { result.bytes ≡ run.items }
    {
        let memory = house(start, at, size, run);
        Slot { memory }
    }

    // Where its memory lies.
    pub(crate) fn spot(&self) -> *const u8
        ensures { result ≡ self.now.spot }
    {
        self.memory.as_ptr()
    }

    // The run again.
    pub(crate) fn into_run(self) -> Run
        requires { 0 < length self.bytes }
        ensures spot { result.ptr ≡ self.spot }
        ensures bytes { result.items ≡ self.bytes }
    {
        let Slot { memory } = self;
        vacate(memory)
    }

    pub(crate) fn bytes(&self) -> &[u8]
        ensures { result.now ≡ self.now.bytes }
    {
        self.memory.as_slice()
    }

    pub(crate) fn bytes_mut(&mut self) -> &mut [u8]
        ensures* writes_back { sem 𝓛 (LendsSlot self.entry result) }
        ensures value { result.now ≡ self.old.bytes }
    {
        self.memory.as_mut_slice()
    }

    // Moves the memory out.
    pub(crate) fn take(&mut self) -> Vec<u8, Lodged>
        ensures spot { vec_ptr result ≡ self.old.spot }
        ensures bytes { result.items ≡ self.old.bytes }
        ensures left { self.new.bytes ≡ [] }
    {
        mem::replace(&mut self.memory, Vec::new(Lodged))
    }

    // Moves memory in.
    pub(crate) fn put(&mut self, memory: Vec<u8, Lodged>)
        ensures { self.new ≡ record { spot = vec_ptr memory; bytes = memory.items } }
    {
        self.memory = memory;
    }

    // Two different slots.
    pub(crate) fn two(slots: &mut [Slot], i: u32, j: u32) -> (&mut Slot, &mut Slot)
        requires apart { i ≢ j }
        requires first { i < length slots.old }
        requires second { j < length slots.old }
        ensures* writes_back { sem 𝓛 (LendsBoth (Array slot_row 0) slot_row slot_row
            slots.entry result (with_two slots.old i j)) }
        ensures first { result.0.now ≡ slice_index_or slots.old i no_piece }
        ensures second { result.1.now ≡ slice_index_or slots.old j no_piece }
    {
        if i < j {
            let (front, back) = slots.split_at_mut(j as usize);
            return (&mut front[i as usize], &mut back[0]);
        }
        let (front, back) = slots.split_at_mut(i as usize);
        (&mut back[0], &mut front[j as usize])
    }
}
