ghost use Rattle.std.specs.Prelude.{◌≡◌, ◌+◌, ◌≤◌, ◌++◌, length, take, codes, decimal};
ghost use Rattle.sg_words.specs.Answers.{text_of_answer};
ghost use Rattle.sg_words.specs.Answers.Answer.{NoSpace, NoBands};
ghost use Rattle.sg_words.specs.Writing.{Writes};

use crate::buffer::append;
use itoa::Buffer;
use sg_base::{Failed, Sink};

// Puts a number behind a space at `at` of a buffer, and gives its end.
fn put_behind(into: &mut [u8], at: usize, n: u32) -> usize
    requires { at + 64 ≤ length into.old }
    ensures end { result ≤ at + 41 }
    ensures front { take result into.new ≡ take at into.old ++ codes " " ++ decimal n }
{
    let mut digits = Buffer::new();
    let from = append(into, at, b" ");
    append(into, from, digits.format(u64::from(n)).as_bytes())
}

// Puts the line of a refusal for want of pages at the front of a buffer, and gives its end.
fn put_no_space(into: &mut [u8], free: u32, reserved: u32, need: u32) -> usize
    requires { 256 ≤ length into.old }
    ensures end { result ≤ length into.new }
    ensures line { take result into.new ≡ text_of_answer (NoSpace free reserved need) }
{
    let words = append(into, 0, b"error no-space");
    let first = put_behind(into, words, free);
    let second = put_behind(into, first, reserved);
    let third = put_behind(into, second, need);
    append(into, third, b"\n")
}

// Puts the line of a refusal for want of bands at the front of a buffer, and gives its end.
fn put_no_bands(into: &mut [u8], free: u32, need: u32) -> usize
    requires { 256 ≤ length into.old }
    ensures end { result ≤ length into.new }
    ensures line { take result into.new ≡ text_of_answer (NoBands free need) }
{
    let words = append(into, 0, b"error no-bands");
    let first = put_behind(into, words, free);
    let second = put_behind(into, first, need);
    append(into, second, b"\n")
}

/// Writes the line of a refusal for want of pages, in one call of the sink. Where the sink fails, it took
/// a front of the line.
#[inline(never)]
pub fn write_no_space<K: Sink>(
    free: u32,
    reserved: u32,
    need: u32,
    out: &mut K,
) -> Result<(), Failed>
    ensures { Writes (K.taken out.old) (text_of_answer (NoSpace free reserved need)) (K.taken out.new) (K.faults out.old) (K.faults out.new) result }
{
    let mut line = [0u8; 256];
    let end = put_no_space(&mut line, free, reserved, need);
    out.write(&line[..end])
}

/// Writes the line of a refusal for want of bands, in one call of the sink. Where the sink fails, it took
/// a front of the line.
#[inline(never)]
pub fn write_no_bands<K: Sink>(free: u32, need: u32, out: &mut K) -> Result<(), Failed>
    ensures { Writes (K.taken out.old) (text_of_answer (NoBands free need)) (K.taken out.new) (K.faults out.old) (K.faults out.new) result }
{
    let mut line = [0u8; 256];
    let end = put_no_bands(&mut line, free, need);
    out.write(&line[..end])
}
