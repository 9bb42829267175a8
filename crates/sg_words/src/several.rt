ghost use Rattle.std.specs.Prelude.{◌≡◌, ◌≤◌, ◌++◌, List, ℕ, length, take, codes};
ghost use Rattle.hex.specs.Hex.{encode_lower};
ghost use Rattle.sg_words.specs.Answers.{behind_space, text_of_words};
ghost use Rattle.sg_words.specs.Text.{printed};
ghost use Rattle.sg_words.specs.Writing.{Writes, Adds};

use crate::buffer::{append, append_hex};
use crate::reply::put_count;
use crate::value::prints_plain;
use sg_base::{Failed, Name, Sink};
use sg_model::Key;

/// A word of a reply that has several.
pub trait Word {
    /// Its bytes.
    ghost bytes_of: { Self → List ℕ };

    /// Its bytes.
    fn bytes(&self) -> &[u8]
        ensures { result.now ≡ bytes_of self.now };
}

impl Word for Key {
    ghost bytes_of = { λ key. key };

    fn bytes(&self) -> &[u8] {
        Key::bytes(self)
    }
}

impl Word for Name {
    ghost bytes_of = { λ name. name };

    fn bytes(&self) -> &[u8] {
        self.text()
    }
}

// Adds bytes to the first `end` of a buffer, which wait to be written, and gives how many wait then.
// Where they have no room, those that wait are written first.
fn add<K: Sink>(waiting: &mut [u8], end: usize, bytes: &[u8], out: &mut K) -> Result<usize, Failed>
    requires { end ≤ length waiting.old }
    ensures { Adds (K.taken out.old) (take end waiting.old ++ bytes.now) (K.taken out.new) waiting.new (K.faults out.old) (K.faults out.new) result }
{
    if bytes.len() <= waiting.len() - end {
        return Ok(append(waiting, end, bytes));
    }
    match out.write(&waiting[..end]) {
        Ok(()) => {}
        Err(_) => return Err(Failed),
    }
    if bytes.len() <= waiting.len() {
        return Ok(append(waiting, 0, bytes));
    }
    match out.write(bytes) {
        Ok(()) => Ok(0),
        Err(_) => Err(Failed),
    }
}

// Adds the lower-case hexadecimal digits of some bytes.
fn add_digits<K: Sink>(
    waiting: &mut [u8],
    end: usize,
    bytes: &[u8],
    out: &mut K,
) -> Result<usize, Failed>
    requires { end ≤ length waiting.old }
    ensures { Adds (K.taken out.old) (take end waiting.old ++ encode_lower bytes.now) (K.taken out.new) waiting.new (K.faults out.old) (K.faults out.new) result }
{
    let mut count = end;
    'bytes: for byte in bytes {
        let mut digits = [0u8; 2];
        let written = append_hex(&mut digits, 0, &[*byte]);
        match add(waiting, count, &digits[..written], out) {
            Ok(more) => count = more,
            Err(_) => return Err(Failed),
        }
    }
    Ok(count)
}

// Adds bytes as they are printed.
fn add_printed<K: Sink>(
    waiting: &mut [u8],
    end: usize,
    bytes: &[u8],
    out: &mut K,
) -> Result<usize, Failed>
    requires { end ≤ length waiting.old }
    ensures { Adds (K.taken out.old) (take end waiting.old ++ printed bytes.now) (K.taken out.new) waiting.new (K.faults out.old) (K.faults out.new) result }
{
    if prints_plain(bytes) {
        return add(waiting, end, bytes, out);
    }
    match add(waiting, end, b"x:", out) {
        Ok(end) => add_digits(waiting, end, bytes, out),
        Err(_) => Err(Failed),
    }
}

/// Adds a word as it is printed, behind a space, to the first `end` bytes of a buffer, which wait to be
/// written, and gives how many wait then. Where they have no room, those that wait are written first.
pub fn add_word<K: Sink>(
    waiting: &mut [u8],
    end: usize,
    word: &[u8],
    out: &mut K,
) -> Result<usize, Failed>
    requires { end ≤ length waiting.old }
    ensures { Adds (K.taken out.old) (take end waiting.old ++ behind_space word.now) (K.taken out.new) waiting.new (K.faults out.old) (K.faults out.new) result }
{
    match add(waiting, end, b" ", out) {
        Ok(end) => add_printed(waiting, end, word, out),
        Err(_) => Err(Failed),
    }
}

/// Writes the first `end` bytes of a buffer, which wait to be written, with an LF behind them.
pub fn finish<K: Sink>(waiting: &mut [u8], end: usize, out: &mut K) -> Result<(), Failed>
    requires { end ≤ length waiting.old }
    ensures { Writes (K.taken out.old) (take end waiting.old ++ codes "\n") (K.taken out.new) (K.faults out.old) (K.faults out.new) result }
{
    match add(waiting, end, b"\n", out) {
        Ok(end) => out.write(&waiting[..end]),
        Err(_) => Err(Failed),
    }
}

/// Writes the line that says how many words there are, and the words as they are printed. It makes
/// as few calls of the sink as its buffer allows. Where the sink fails, it took a front of the line.
#[inline(never)]
pub fn write_words<W: Word, K: Sink>(words: &[W], out: &mut K) -> Result<(), Failed>
    ensures { Writes (K.taken out.old) (text_of_words W.bytes_of words.now) (K.taken out.new) (K.faults out.old) (K.faults out.new) result }
{
    let mut waiting = [0u8; 8192];
    let mut end = put_count(&mut waiting, words.len() as u64);
    'words: for word in words {
        match add_word(&mut waiting, end, word.bytes(), out) {
            Ok(more) => end = more,
            Err(_) => return Err(Failed),
        }
    }
    finish(&mut waiting, end, out)
}

/// Writes the line that names a transaction which holds what another would touch, in one call of the
/// sink where the name has at most 58 bytes. Where the sink fails, it took a front of the line.
#[inline(never)]
pub fn write_busy<K: Sink>(name: &[u8], out: &mut K) -> Result<(), Failed>
    ensures { Writes (K.taken out.old) (codes "busy " ++ name.now ++ codes "\n") (K.taken out.new) (K.faults out.old) (K.faults out.new) result }
{
    let mut waiting = [0u8; 64];
    let end = append(&mut waiting, 0, b"busy ");
    match add(&mut waiting, end, name, out) {
        Ok(end) => finish(&mut waiting, end, out),
        Err(_) => Err(Failed),
    }
}
