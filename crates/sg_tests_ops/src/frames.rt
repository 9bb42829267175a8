ghost use Rattle.std.specs.Prelude.{◌≡◌, ◌≢◌, ◌<◌, ℕ, List, All, length, slice_set};
ghost use Rattle.sg_frames.specs.Held.{IsHere, NoneLent, bytes_at, size_of};
ghost use Rattle.sg_frames.specs.Lending.{with_pair};

use sg_base::OutOfMemory;
use sg_frames::{Frames, Loan, Place};
use std::alloc::Global;
use std::test::Fail;
use std::thread::{Threads, join_mut};

// Whether each byte is this one. It promises nothing, so that a test's proof carries no clause of what goes over bytes.
fn are_all(bytes: &[u8], x: u8) -> bool {
    for b in bytes {
        if *b != x {
            return false;
        }
    }
    true
}

// Whether the first byte is this one, and each other one is 0.
fn is_first(bytes: &[u8], x: u8) -> bool {
    match bytes.split_first() {
        Some((first, rest)) => *first == x && are_all(rest, 0),
        None => false,
    }
}

// Whether the last byte is this one, and each other one is 0.
fn is_last(bytes: &[u8], x: u8) -> bool {
    match bytes.split_last() {
        Some((last, rest)) => *last == x && are_all(rest, 0),
        None => false,
    }
}

// Whether each byte of a page frame is this one.
fn page_is(frames: &Frames, i: u32, x: u8) -> bool
    requires { IsHere frames.now (Place.Page i) }
{
    are_all(frames.page(i), x)
}

// Whether each byte of a window is this one.
fn window_is(frames: &Frames, w: u32, x: u8) -> bool
    requires { IsHere frames.now (Place.Window w) }
{
    are_all(frames.window(w), x)
}

// How many bytes a page frame and a window have.
fn sizes(frames: &Frames, i: u32, w: u32) -> (usize, usize)
    requires page { IsHere frames.now (Place.Page i) }
    requires window { IsHere frames.now (Place.Window w) }
{
    (frames.page(i).len(), frames.window(w).len())
}

// Writes one byte of a loan.
fn poke(loan: &mut Loan, at: usize, x: u8)
    requires { at < size_of loan.old.place }
    ensures { loan.new ≡ record loan.old { bytes = slice_set loan.old.bytes at x } }
{
    loan.bytes_mut()[at] = x;
}

// Takes what may go to another thread, and be read by several.
fn crosses<T: Send + Sync>(_value: &T) {}

// Two loans are out at once, two threads write to them, and each comes back with what was written.
fn poke_in_threads<R: Threads>(rt: &R, frames: &mut Frames, i: u32, w: u32)
    requires page { IsHere frames.old (Place.Page i) }
    requires window { IsHere frames.old (Place.Window w) }
    ensures page { bytes_at frames.new (Place.Page i) ≡ slice_set (bytes_at frames.old (Place.Page i)) 0 5 }
    ensures none_lent { NoneLent frames.old → NoneLent frames.new }
    ensures count { length frames.new.pages ≡ length frames.old.pages }
    ensures block { frames.new.block ≡ frames.old.block }
    ensures window { bytes_at frames.new (Place.Window w) ≡ slice_set (bytes_at frames.old (Place.Window w)) 32767 6 }
{
    let mut page = frames.take(i);
    let mut window = frames.take_window(w);
    crosses(&page);
    join_mut(
        rt,
        &mut || poke(&mut page, 0, 5),
        &mut || { poke(&mut window, 32_767, 6) },
    );
    frames.give(page);
    frames.give(window);
}

// The sizes of the last page frame and the last window, and whether both have zeros.
fn at_first(alloc: Global) -> Result<((usize, usize), bool), OutOfMemory> {
    let frames = Frames::new(alloc, 32, 4)?;
    let sizes = sizes(&frames, 31, 3);
    let page = page_is(&frames, 31, 0);
    let window = window_is(&frames, 3, 0);
    frames.end();
    Ok((sizes, page && window))
}

#[test]
fn frames_begin_with_zeros(rt: HostRuntime) -> Result<(), Fail> {
    assert!(rt; at_first(rt.alloc())? == ((4096, 32_768), true));
    Ok(())
}

// The sizes of the last ones where there are as many as there may be.
fn most(alloc: Global) -> Result<(usize, usize), OutOfMemory> {
    let frames = Frames::new(alloc, 16_384, 256)?;
    let sizes = sizes(&frames, 16_383, 255);
    frames.end();
    Ok(sizes)
}

#[test]
fn as_many_as_there_may_be(rt: HostRuntime) -> Result<(), Fail> {
    assert!(rt; most(rt.alloc())? == (4096, 32_768));
    Ok(())
}

// Whether a loan has the 4,096 bytes of a page frame, each of which is this one.
fn loan_is(loan: &Loan, x: u8) -> bool {
    let bytes = loan.bytes();
    bytes.len() == 4096 && are_all(bytes, x)
}

// Whether a loan's bytes are changed, and another frame is read: each has its own.
fn has_its_own(alloc: Global) -> Result<bool, OutOfMemory> {
    let mut frames = Frames::new(alloc, 32, 4)?;
    frames.page_mut(4).fill(7);
    let mut loan = frames.take(3);
    loan.bytes_mut().fill(9);
    let lent = loan_is(&loan, 9);
    let written = page_is(&frames, 4, 7);
    let other = page_is(&frames, 2, 0);
    frames.give(loan);
    let given = page_is(&frames, 3, 9);
    let still = page_is(&frames, 4, 7);
    frames.end();
    Ok(lent && written && other && given && still)
}

#[test]
fn a_loan_beside_a_frame(rt: HostRuntime) -> Result<(), Fail> {
    assert!(rt; has_its_own(rt.alloc())?);
    Ok(())
}

// Whether the first byte of a page frame is this one, and each other one is 0.
fn page_begins(frames: &Frames, i: u32, x: u8) -> bool
    requires { IsHere frames.now (Place.Page i) }
{
    is_first(frames.page(i), x)
}

// Whether the last byte of a window is this one, and each other one is 0.
fn window_ends(frames: &Frames, w: u32, x: u8) -> bool
    requires { IsHere frames.now (Place.Window w) }
{
    is_last(frames.window(w), x)
}

// Whether two threads leave what they wrote to two loans, and no more.
fn are_written<R: Threads>(rt: &R, alloc: Global) -> Result<bool, OutOfMemory> {
    let mut frames = Frames::new(alloc, 32, 4)?;
    poke_in_threads(rt, &mut frames, 2, 3);
    let page = page_begins(&frames, 2, 5);
    let window = window_ends(&frames, 3, 6);
    let other = page_is(&frames, 3, 0);
    frames.end();
    Ok(page && window && other)
}

#[test]
fn two_threads_write_two_loans(rt: HostRuntime) -> Result<(), Fail> {
    assert!(rt; are_written(&rt, rt.alloc())?);
    Ok(())
}

// Writes all bytes of two slices.
fn write_both<'a>(pair: (&'a mut [u8], &'a mut [u8]))
    ensures first { All (λ x. x ≡ 1) pair.exit.0.now }
    ensures second { All (λ x. x ≡ 2) pair.exit.1.0.now }
{
    let (first, second) = pair;
    first.fill(1);
    second.fill(2);
}

// Writes all bytes of two frames at once.
fn write_pair(frames: &mut Frames, i: u32, j: u32)
    requires apart { i ≢ j }
    requires first { IsHere frames.old (Place.Page i) }
    requires second { IsHere frames.old (Place.Page j) }
    ensures { (x : List ℕ) × (y : List ℕ) × (frames.new ≡ with_pair frames.old i j x y) × All (λ b. b ≡ 1) x × All (λ b. b ≡ 2) y }
{
    write_both(frames.pair_mut(i, j));
}

// The same, and what a caller needs to go on.
fn write_two(frames: &mut Frames, i: u32, j: u32)
    requires apart { i ≢ j }
    requires first { IsHere frames.old (Place.Page i) }
    requires second { IsHere frames.old (Place.Page j) }
    ensures none_lent { NoneLent frames.old → NoneLent frames.new }
    ensures count { length frames.new.pages ≡ length frames.old.pages }
    ensures block { frames.new.block ≡ frames.old.block }
{
    write_pair(frames, i, j);
}

// Writes all bytes of a window.
fn fill_window(frames: &mut Frames, w: u32)
    requires { IsHere frames.old (Place.Window w) }
    ensures none_lent { NoneLent frames.old → NoneLent frames.new }
    ensures counts { (length frames.new.pages ≡ length frames.old.pages) × (length frames.new.windows ≡ length frames.old.windows) }
    ensures block { frames.new.block ≡ frames.old.block }
{
    frames.window_mut(w).fill(3);
}

// Whether the windows beside one that is filled, and the last page frame, stay as they were.
fn is_filled_alone(alloc: Global) -> Result<bool, OutOfMemory> {
    let mut frames = Frames::new(alloc, 32, 4)?;
    fill_window(&mut frames, 2);
    let filled = window_is(&frames, 2, 3);
    let below = window_is(&frames, 1, 0);
    let above = window_is(&frames, 3, 0);
    let page = page_is(&frames, 31, 0);
    frames.end();
    Ok(filled && below && above && page)
}

#[test]
fn windows_beside_each_other(rt: HostRuntime) -> Result<(), Fail> {
    assert!(rt; is_filled_alone(rt.alloc())?);
    Ok(())
}

// The first of these page frames of which not each byte is this one.
fn other_page(frames: &Frames, want: &[(u32, u8)]) -> Option<u32>
    requires pages { length frames.now.pages ≡ 32 }
    requires none_lent { NoneLent frames.now }
{
    for (i, x) in want {
        if *i >= 32 || !page_is(frames, *i, *x) {
            return Some(*i);
        }
    }
    None
}

// The first page frame that isn't as two pairs of writes are to leave it.
fn written_otherwise(alloc: Global) -> Result<Option<u32>, OutOfMemory> {
    let mut frames = Frames::new(alloc, 32, 4)?;
    write_two(&mut frames, 31, 0);
    write_two(&mut frames, 7, 8);
    let other = other_page(&frames, &[(31, 1), (0, 2), (7, 1), (8, 2), (30, 0), (9, 0)]);
    frames.end();
    Ok(other)
}

#[test]
fn two_frames_at_once(rt: HostRuntime) -> Result<(), Fail> {
    assert!(rt; written_otherwise(rt.alloc())?.is_none());
    Ok(())
}
