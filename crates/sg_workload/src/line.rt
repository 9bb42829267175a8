ghost use Rattle.std.specs.Prelude.{◌≡◌, ◌+◌, ◌*◌, ◌<◌, ◌≤◌, ◌++◌, length, take, codes, decimal, OnOk, OnErr};
ghost use Rattle.sg_base.specs.Ends.{HasRisen, Takes, TakesFront};
ghost use Rattle.sg_workload.specs.Texts.{repeated, digits_of, text_of_verb, text_of};

use crate::drawn::Verb;
use sg_base::{Failed, Sink};
use sg_text::{append, append_hex, append_number};

// Puts a text and a number behind the front of a buffer.
fn put_number(into: &mut [u8], at: usize, text: &[u8], number: u32) -> usize
    requires { at + length text.now + 20 ≤ length into.old }
    ensures end { result ≤ at + length text.now + 20 }
    ensures front { take result into.new ≡ take at into.old ++ text.now ++ decimal number }
{
    let end = append(into, at, text);
    append_number(into, end, u64::from(number))
}

// Puts the digits of a word 16 times behind the front of a buffer.
fn put_digits(into: &mut [u8], at: usize, word: u32) -> usize
    requires { at + 128 ≤ length into.old }
    ensures end { result ≡ at + 128 }
    ensures front { take result into.new ≡ take at into.old ++ repeated 16 (digits_of word) }
{
    let mut end = at;
    'copies: for _ in 0..16u32 {
        end = append_hex(into, end, &word.to_be_bytes());
    }
    end
}

fn put_apply(into: &mut [u8], at: usize, index: u32, amount: u32) -> usize
    requires { at + 192 ≤ length into.old }
    ensures end { result ≤ at + 192 }
    ensures front { take result into.new ≡ take at into.old ++ text_of_verb (Verb.Apply index amount) }
{
    let end = put_number(into, at, b" apply a ", index);
    let end = append(into, end, b" 1 x:");
    append_hex(into, end, &u64::from(amount).to_le_bytes())
}

fn put_put(into: &mut [u8], at: usize, key: u32, value: u32) -> usize
    requires { at + 192 ≤ length into.old }
    ensures end { result ≤ at + 192 }
    ensures front { take result into.new ≡ take at into.old ++ text_of_verb (Verb.Put key value) }
{
    let end = put_number(into, at, b" put h k", key);
    let end = append(into, end, b" ");
    put_digits(into, end, value)
}

fn put_paint(into: &mut [u8], at: usize, from: u32, count: u32, byte: u8) -> usize
    requires { at + 192 ≤ length into.old }
    ensures end { result ≤ at + 192 }
    ensures front { take result into.new ≡ take at into.old ++ text_of_verb (Verb.Paint from count byte) }
{
    let end = put_number(into, at, b" paint b ", from);
    let end = put_number(into, end, b" ", count);
    let end = append(into, end, b" 2 x:");
    append_hex(into, end, &[byte])
}

// Puts a verb behind the front of a buffer.
fn put_verb(into: &mut [u8], at: usize, verb: Verb) -> usize
    requires { at + 192 ≤ length into.old }
    ensures end { result ≤ at + 192 }
    ensures front { take result into.new ≡ take at into.old ++ text_of_verb verb }
{
    match verb {
        Verb::Begin => append(into, at, b" begin"),
        Verb::Commit => append(into, at, b" commit"),
        Verb::Abort => append(into, at, b" abort"),
        Verb::Apply { index, amount } => put_apply(into, at, index, amount),
        Verb::Put { key, value } => put_put(into, at, key, value),
        Verb::Find { key } => put_number(into, at, b" find h k", key),
        Verb::Del { key } => put_number(into, at, b" del h k", key),
        Verb::Paint {
            at: from,
            length,
            byte,
        } => put_paint(into, at, from, length, byte),
        Verb::Get { index } => put_number(into, at, b" get a ", index),
    }
}

// Puts a line with its LF at the front of a buffer.
fn put_line(into: &mut [u8], w: u32, verb: Verb) -> usize
    requires { 256 ≤ length into.old }
    ensures end { result ≤ 256 }
    ensures front { take result into.new ≡ text_of w verb ++ codes "\n" }
{
    let end = put_number(into, 0, b"t", w);
    let end = put_verb(into, end, verb);
    append(into, end, b"\n")
}

/// Writes the line of the transaction with this number, with its LF, in one call of the sink.
pub fn write_line<K: Sink>(w: u32, verb: Verb, out: &mut K) -> Result<(), Failed>
    ensures took { OnOk result (Takes (K.taken out.old) (text_of w verb ++ codes "\n") (K.taken out.new)) }
    ensures cut { OnErr result (TakesFront (K.taken out.old) (text_of w verb ++ codes "\n") (K.taken out.new)) }
    ensures later { K.faults out.old ≤ K.faults out.new }
    ensures quiet { OnOk result (K.faults out.new ≡ K.faults out.old) }
    ensures failed { OnErr result (HasRisen (K.faults out.old) (K.faults out.new)) }
{
    let mut line = [0u8; 256];
    let end = put_line(&mut line, w, verb);
    out.write(&line[..end])
}
