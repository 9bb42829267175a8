ghost use Rattle.std.specs.Prelude.{◌≡◌, ◌+◌, ◌*◌, ◌≤◌, ◌<◌, [], ◌++◌, List, ℕ, length, take, codes, decimal};
ghost use Rattle.sg_model.specs.SaidReplies.{said_reply};
ghost use Rattle.sg_words.specs.Answers.{text_of_reply};
ghost use Rattle.sg_words.specs.Text.{printed, text_of_reason};
ghost use Rattle.sg_words.specs.Writing.{Writes};

use crate::buffer::{append, append_hex};
use crate::value::prints_plain;
use itoa::Buffer;
use sg_base::{Failed, Sink};
use sg_model::{Reason, Reply};

/// The most bytes of a value that the small buffer takes.
const FEW_BYTES: usize = 256;

// Puts bytes as they are printed at `at` of a buffer, and gives their end.
fn print(into: &mut [u8], at: usize, bytes: &[u8]) -> usize
    requires { at + 2 + 2 * length bytes.now ≤ length into.old }
    ensures end { result ≤ at + 2 + 2 * length bytes.now }
    ensures front { take result into.new ≡ take at into.old ++ printed bytes.now }
{
    if prints_plain(bytes) {
        return append(into, at, bytes);
    }
    let digits = append(into, at, b"x:");
    append_hex(into, digits, bytes)
}

/// Puts `ok`, a space and a number at the front of a buffer, and gives their end.
#[inline]
pub fn put_count(into: &mut [u8], n: u64) -> usize
    requires { 64 ≤ length into.old }
    ensures end { result ≤ 43 }
    ensures front { take result into.new ≡ codes "ok " ++ decimal n }
{
    let mut digits = Buffer::new();
    let at = append(into, 0, b"ok ");
    append(into, at, digits.format(n).as_bytes())
}

fn put_number(into: &mut [u8], n: u64) -> usize
    requires { 64 ≤ length into.old }
    ensures end { result ≤ length into.new }
    ensures line { take result into.new ≡ codes "ok " ++ decimal n ++ codes "\n" }
{
    let end = put_count(into, n);
    append(into, end, b"\n")
}

fn put_value(into: &mut [u8], value: &[u8]) -> usize
    requires { 64 + 2 * length value.now ≤ length into.old }
    ensures end { result ≤ length into.new }
    ensures line { take result into.new ≡ codes "ok " ++ printed value.now ++ codes "\n" }
{
    let at = append(into, 0, b"ok ");
    let end = print(into, at, value);
    append(into, end, b"\n")
}

// Writes the line of a number.
fn write_number<K: Sink>(n: u64, out: &mut K) -> Result<(), Failed>
    ensures { Writes (K.taken out.old) (codes "ok " ++ decimal n ++ codes "\n") (K.taken out.new) (K.faults out.old) (K.faults out.new) result }
{
    let mut line = [0u8; 64];
    let end = put_number(&mut line, n);
    out.write(&line[..end])
}

// Writes the line of a value by a buffer of N bytes.
fn write_by<const N: usize, K: Sink>(value: &[u8], out: &mut K) -> Result<(), Failed>
    requires room { 64 + 2 * length value.now ≤ N }
    requires most { N ≤ 16448 }
    ensures { Writes (K.taken out.old) (codes "ok " ++ printed value.now ++ codes "\n") (K.taken out.new) (K.faults out.old) (K.faults out.new) result }
{
    let mut line = [0u8; N];
    let end = put_value(&mut line, value);
    out.write(&line[..end])
}

// Writes the line of a long value. Its buffer is large, so it has a frame of its own.
#[inline(never)]
fn write_long<K: Sink>(value: &[u8], out: &mut K) -> Result<(), Failed>
    requires { length value.now ≤ 8192 }
    ensures { Writes (K.taken out.old) (codes "ok " ++ printed value.now ++ codes "\n") (K.taken out.new) (K.faults out.old) (K.faults out.new) result }
{
    write_by::<16448, K>(value, out)
}

// Writes the line of a value.
#[inline(never)]
fn write_value<K: Sink>(value: &[u8], out: &mut K) -> Result<(), Failed>
    requires { length value.now ≤ 8192 }
    ensures { Writes (K.taken out.old) (codes "ok " ++ printed value.now ++ codes "\n") (K.taken out.new) (K.faults out.old) (K.faults out.new) result }
{
    if value.len() <= FEW_BYTES {
        write_by::<576, K>(value, out)
    } else {
        write_long(value, out)
    }
}

/// Writes a reply's line with its LF, in one call of the sink. `bytes` has the bytes of an answer
/// at its front. Where the sink fails, it took a front of the line.
pub fn write_reply<K: Sink>(reply: &Reply, bytes: &[u8], out: &mut K) -> Result<(), Failed>
    requires { length bytes.now ≤ 8192 }
    ensures { Writes (K.taken out.old) (text_of_reply (said_reply bytes.now reply.now)) (K.taken out.new) (K.faults out.old) (K.faults out.new) result }
{
    match reply {
        Reply::Done => out.write(b"ok\n"),
        Reply::New => out.write(b"ok new\n"),
        Reply::Replaced => out.write(b"ok replaced\n"),
        Reply::Absent => out.write(b"none\n"),
        Reply::Number(n) => write_number(*n, out),
        Reply::Bytes(n) => write_value(&bytes[..(*n).min(bytes.len())], out),
    }
}

/// The line of a reason, with its LF.
pub fn reason_text(reason: Reason) -> &'static [u8]
    ensures { result.now ≡ text_of_reason reason }
{
    match reason {
        Reason::NoObject => b"error no-object\n",
        Reason::WrongKind => b"error wrong-kind\n",
        Reason::Exists => b"error exists\n",
        Reason::OutOfRange => b"error out-of-range\n",
        Reason::NoOperation => b"error no-operation\n",
        Reason::Declined => b"error declined\n",
        Reason::TooLong => b"error too-long\n",
        Reason::TooMany => b"error too-many\n",
    }
}
