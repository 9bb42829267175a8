ghost use Rattle.std.specs.Prelude.{◌≡◌, ◌+◌, ◌*◌, ◌<◌, ◌≤◌, ◌≢◌, ℕ, [], length, IfOk, All, vec_len, vec_capacity};

use crate::block::{Run, Shell, attach, detach};
use crate::loan::Loan;
use crate::place::Place;
use crate::slot::Slot;
use crate::table::Table;
use sg_base::{BAND_SIZE, OutOfMemory, PAGE_SIZE};
use std::alloc::{AllocError, Global};
use std::marker::Model;

/// The page frames, of 4,096 bytes each, and windows, of 32,768 bytes each, of one block of memory.
/// Each kind is numbered from 0 on.
///
/// It has to be ended with `end`, once no loan is out: it isn't `Drop`.
pub struct Frames {
    shell: Shell,
    rest: Run,
    pages: Table,
    windows: Table,
}

impl Model for Frames {
    ghost use Rattle.sg_frames.specs.Held.{Held, IsWhole};

    ghost Value = { Held };

    ghost view = { λ f. record {
      block = record {
        pages = f.pages.spots;
        windows = f.windows.spots;
        rest = f.rest;
        whole = f.shell;
      };
      pages = f.pages.bytes;
      windows = f.windows.bytes;
    } };

    ghost invariant = { λ f. IsWhole (record {
      pages = f.pages.spots;
      windows = f.windows.spots;
      rest = f.rest;
      whole = f.shell;
    }) };
}

// Zeros for all frames and windows, and room for their slots.
fn reserve(
    alloc: Global,
    frames: u32,
    windows: u32,
) -> Result<(Vec<u8>, Vec<Slot>, Vec<Slot>), AllocError>
    requires most_frames { frames ≤ 16384 }
    requires most_windows { windows ≤ 256 }
    ensures size { IfOk result (λ r. length r.0.items ≡ frames * 4096 + windows * BAND_SIZE) }
    ensures zeros { IfOk result (λ r. All (λ x. x ≡ 0) r.0.items) }
    ensures pages { IfOk result (λ r. (vec_len r.1 ≡ 0) × (frames ≤ vec_capacity r.1)) }
    ensures windows { IfOk result (λ r. (vec_len r.2 ≡ 0) × (windows ≤ vec_capacity r.2)) }
{
    let size = frames as usize * PAGE_SIZE + windows as usize * BAND_SIZE;
    let memory = Vec::from_elem(alloc, 0, size)?;
    let pages = Vec::with_capacity(alloc, frames as usize)?;
    let others = Vec::with_capacity(alloc, windows as usize)?;
    Ok((memory, pages, others))
}

impl Frames {
    ghost use Rattle.std.specs.Borrow.{sem};
    ghost use Rattle.sg_frames.specs.Held.{IsHere, NoneLent, IsFrom, IsSameBut, IsWhole, spot_at, bytes_at, with_bytes};
    ghost use Rattle.sg_frames.specs.Lending.{LendsPlace, LendsPages, LendsTwo, pages_of};
    ghost use Rattle.sg_frames.specs.Tables.{ShowsSlots};

    /// So many page frames, 1 to 16,384 of them, and windows, 1 to 256, all in one block. Their bytes
    /// are 0.
    ///
    /// `OutOfMemory`, where there isn't enough memory, is the only refusal, and nothing is taken then.
    pub fn new(alloc: Global, frames: u32, windows: u32) -> Result<Frames, OutOfMemory>
        requires some_frames { 1 ≤ frames }
        requires most_frames { frames ≤ 16384 }
        requires some_windows { 1 ≤ windows }
        requires most_windows { windows ≤ 256 }
        ensures pages { IfOk result (λ f. length f.pages ≡ frames) }
        ensures windows { IfOk result (λ f. length f.windows ≡ windows) }
        ensures none_lent { IfOk result NoneLent }
        ensures zeros { IfOk result (λ f. (place : Place) → All (λ x. x ≡ 0) (bytes_at f place)) }
        ensures whole { IfOk result (λ f. IsWhole f.block) }
    {
        match reserve(alloc, frames, windows) {
            Ok((memory, pages, others)) => {
                Ok(Frames::cut(memory, pages, frames, others, windows))
            }
            Err(_) => Err(OutOfMemory),
        }
    }

    // Cuts the memory.
    fn cut(
        mut memory: Vec<u8>,
        pages: Vec<Slot>,
        frames: u32,
        others: Vec<Slot>,
        windows: u32,
    ) -> Frames
        requires some_frames { 0 < frames }
        requires most_frames { frames ≤ 16384 }
        requires some_windows { 0 < windows }
        requires most_windows { windows ≤ 256 }
        requires size { length memory.items ≡ frames * 4096 + windows * BAND_SIZE }
        requires zeros { All (λ x. x ≡ 0) memory.items }
        requires pages { (vec_len pages ≡ 0) × (frames ≤ vec_capacity pages) }
        requires windows { (vec_len others ≡ 0) × (windows ≤ vec_capacity others) }
        ensures pages { length result.pages ≡ frames }
        ensures windows { length result.windows ≡ windows }
        ensures none_lent { NoneLent result }
        ensures zeros { (place : Place) → All (λ x. x ≡ 0) (bytes_at result place) }
        ensures whole { IsWhole result.block }
    {
        let start = memory.as_mut_ptr();
        let (run, shell) = detach(memory);
        let (pages, run) = Table::new(pages, start, 0, PAGE_SIZE, frames, run);
        let at = frames as usize * PAGE_SIZE;
        let (windows, rest) = Table::new(others, start, at, BAND_SIZE, windows, run);
        Frames {
            shell,
            rest,
            pages,
            windows,
        }
    }

    /// The 4,096 bytes of a page frame, which is there and isn't lent.
    pub fn page(&self, i: u32) -> &[u8]
        requires { IsHere self.now (Place.Page i) }
        ensures { result.now ≡ bytes_at self.now (Place.Page i) }
    {
        self.pages.bytes(i)
    }

    /// The 4,096 bytes of a page frame, to write to. What is written changes no other frame or window.
    pub fn page_mut(&mut self, i: u32) -> &mut [u8]
        requires { IsHere self.old (Place.Page i) }
        ensures* writes_back { sem 𝓛 (LendsPlace self.entry (Place.Page i) result) }
        ensures value { result.now ≡ bytes_at self.old (Place.Page i) }
    {
        self.pages.bytes_mut(i)
    }

    // The slots of the page frames.
    fn page_slots(&mut self) -> &mut [Slot]
        ensures* writes_back { sem 𝓛 (LendsPages self.entry result) }
        ensures value { ShowsSlots (pages_of self.old) result.now }
    {
        self.pages.slots_mut()
    }

    /// The bytes of two different page frames at once, to write to. Each slice is written back to its
    /// own frame.
    ///
    /// The kit's generated proofs of callers don't follow two slices that a struct lends. Where such a
    /// proof has to go on, `take` one frame and write to the other.
    pub fn pair_mut(&mut self, i: u32, j: u32) -> (&mut [u8], &mut [u8])
        requires apart { i ≢ j }
        requires first { IsHere self.old (Place.Page i) }
        requires second { IsHere self.old (Place.Page j) }
        ensures* writes_back { sem 𝓛 (LendsTwo self.entry i j result) }
        ensures first { result.0.now ≡ bytes_at self.old (Place.Page i) }
        ensures second { result.1.now ≡ bytes_at self.old (Place.Page j) }
    {
        let (first, second) = Slot::two(self.page_slots(), i, j);
        (first.bytes_mut(), second.bytes_mut())
    }

    /// The 32,768 bytes of a window, which is there and isn't lent.
    pub fn window(&self, w: u32) -> &[u8]
        requires { IsHere self.now (Place.Window w) }
        ensures { result.now ≡ bytes_at self.now (Place.Window w) }
    {
        self.windows.bytes(w)
    }

    /// The 32,768 bytes of a window, to write to. What is written changes no other window or frame.
    pub fn window_mut(&mut self, w: u32) -> &mut [u8]
        requires { IsHere self.old (Place.Window w) }
        ensures* writes_back { sem 𝓛 (LendsPlace self.entry (Place.Window w) result) }
        ensures value { result.now ≡ bytes_at self.old (Place.Window w) }
    {
        self.windows.bytes_mut(w)
    }

    /// Moves a page frame out, with its bytes. It is lent until the loan comes back with `give`.
    pub fn take(&mut self, i: u32) -> Loan
        requires { IsHere self.old (Place.Page i) }
        ensures spot { result.spot ≡ spot_at self.old (Place.Page i) }
        ensures place { result.place ≡ Place.Page i }
        ensures bytes { result.bytes ≡ bytes_at self.old (Place.Page i) }
        ensures left { self.new ≡ with_bytes self.old (Place.Page i) [] }
        ensures others { IsSameBut (Place.Page i) self.old self.new }
    {
        let memory = self.pages.take(i);
        Loan {
            place: Place::Page(i),
            memory,
        }
    }

    /// Moves a window out, with its bytes. It is lent until the loan comes back with `give`.
    pub fn take_window(&mut self, w: u32) -> Loan
        requires { IsHere self.old (Place.Window w) }
        ensures spot { result.spot ≡ spot_at self.old (Place.Window w) }
        ensures place { result.place ≡ Place.Window w }
        ensures bytes { result.bytes ≡ bytes_at self.old (Place.Window w) }
        ensures left { self.new ≡ with_bytes self.old (Place.Window w) [] }
        ensures others { IsSameBut (Place.Window w) self.old self.new }
    {
        let memory = self.windows.take(w);
        Loan {
            place: Place::Window(w),
            memory,
        }
    }

    /// Takes a loan of this block back: its frame or window has the loan's bytes from then on.
    pub fn give(&mut self, loan: Loan)
        requires { IsFrom self.old loan }
        ensures held { self.new ≡ with_bytes self.old loan.place loan.bytes }
        ensures back { bytes_at self.new loan.place ≡ loan.bytes }
        ensures here { IsHere self.new loan.place }
        ensures others { IsSameBut loan.place self.old self.new }
    {
        let Loan { place, memory } = loan;
        match place {
            Place::Page(i) => self.pages.put(i, memory),
            Place::Window(w) => self.windows.put(w, memory),
        }
    }

    /// Puts the block together again and frees it. No frame or window is lent.
    pub fn end(self)
        requires none_lent { NoneLent self }
    {
        let Frames {
            shell,
            rest,
            pages,
            windows,
        } = self;
        let run = windows.into_run(BAND_SIZE, rest);
        let run = pages.into_run(PAGE_SIZE, run);
        drop(attach(run, shell));
    }
}
