// The lines of the text of objects.
ghost use Rattle.std.specs.Prelude.{◌≡◌, ◌+◌, ◌*◌, ◌≤◌, ◌++◌, List, ℕ, length, take, codes, decimal};
ghost use Rattle.std.specs.List.{list_all};
ghost use Rattle.hex.specs.Hex.{encode_lower};
ghost use Rattle.sg_words.specs.Writing.{Writes};
ghost use Rattle.sg_lines.specs.Summed.{summary_line};
ghost use Rattle.sg_lines.specs.Text.{behind_space, item_line, entry_line, is_zero, piece_line, heading};

use crate::summary::Summary;
use sg_base::{Failed, Sink};
use sg_text::{append, append_hex, append_number};
use sg_words::{add_word, finish};

// Puts a space and a number behind the front of a buffer.
fn put_number(into: &mut [u8], at: usize, number: u64) -> usize
    requires { at + 21 ≤ length into.old }
    ensures end { result ≤ at + 21 }
    ensures front { take result into.new ≡ take at into.old ++ behind_space number }
{
    let end = append(into, at, b" ");
    append_number(into, end, number)
}

/// Writes the line of an item, in one call of the sink where the item has at most 256 bytes.
pub fn write_item<K: Sink>(index: u64, item: &[u8], out: &mut K) -> Result<(), Failed>
    ensures { Writes (K.taken out.old) (item_line index item.now) (K.taken out.new) (K.faults out.old) (K.faults out.new) result }
{
    let mut waiting = [0u8; 1024];
    let end = put_number(&mut waiting, 0, index);
    match add_word(&mut waiting, end, item, out) {
        Ok(end) => finish(&mut waiting, end, out),
        Err(_) => Err(Failed),
    }
}

/// Writes the line of a key and its value, in one call of the sink where these have at most 128 and 1,024 bytes.
pub fn write_entry<K: Sink>(key: &[u8], value: &[u8], out: &mut K) -> Result<(), Failed>
    ensures { Writes (K.taken out.old) (entry_line (key.now, value.now)) (K.taken out.new) (K.faults out.old) (K.faults out.new) result }
{
    let mut waiting = [0u8; 4096];
    let end = match add_word(&mut waiting, 0, key, out) {
        Ok(end) => end,
        Err(_) => return Err(Failed),
    };
    match add_word(&mut waiting, end, value, out) {
        Ok(end) => finish(&mut waiting, end, out),
        Err(_) => Err(Failed),
    }
}

/// Whether all bytes are 0.
pub fn are_zero(bytes: &[u8]) -> bool
    ensures { result ≡ list_all is_zero bytes.now }
{
    bytes.iter().all(|byte| *byte == 0)
}

// Puts the line of a piece that isn't left out at the front of a buffer.
fn put_piece(into: &mut [u8], at: u64, piece: &[u8]) -> usize
    requires room { 128 ≤ length into.old }
    requires short { length piece.now ≤ 32 }
    ensures end { result ≤ 128 }
    ensures line { take result into.new ≡ behind_space at ++ codes " x:" ++ encode_lower piece.now ++ codes "\n" }
{
    let end = put_number(into, 0, at);
    let end = append(into, end, b" x:");
    let end = append_hex(into, end, piece);
    append(into, end, b"\n")
}

/// Writes the line of a piece of a blob that begins at this offset, in one call of the sink, unless all of its bytes are 0.
pub fn write_piece<K: Sink>(at: u64, piece: &[u8], out: &mut K) -> Result<(), Failed>
    requires { length piece.now ≤ 32 }
    ensures { Writes (K.taken out.old) (piece_line at piece.now) (K.taken out.new) (K.faults out.old) (K.faults out.new) result }
{
    if are_zero(piece) {
        return Ok(());
    }
    let mut line = [0u8; 128];
    let end = put_piece(&mut line, at, piece);
    out.write(&line[..end])
}

// Puts the line that an object begins with at the front of a buffer: its kind, its name and a number or two.
fn put_heading(into: &mut [u8], kind: &[u8], name: &[u8], size: Option<u64>, count: u64) -> usize
    requires room { 256 ≤ length into.old }
    requires kind { length kind.now ≤ 16 }
    requires name { length name.now ≤ 32 }
    ensures end { result ≤ 256 }
    ensures line { take result into.new ≡ heading kind.now name.now size count }
{
    let end = append(into, 0, kind);
    let end = append(into, end, name);
    let end = match size {
        Some(size) => put_number(into, end, size),
        None => end,
    };
    let end = put_number(into, end, count);
    append(into, end, b"\n")
}

/// Writes the line that an object begins with, in one call of the sink.
pub fn write_heading<K: Sink>(
    kind: &[u8],
    name: &[u8],
    size: Option<u64>,
    count: u64,
    out: &mut K,
) -> Result<(), Failed>
    requires kind { length kind.now ≤ 16 }
    requires name { length name.now ≤ 32 }
    ensures { Writes (K.taken out.old) (heading kind.now name.now size count) (K.taken out.new) (K.faults out.old) (K.faults out.new) result }
{
    let mut line = [0u8; 256];
    let end = put_heading(&mut line, kind, name, size, count);
    out.write(&line[..end])
}

// Puts the line of a summary at the front of a buffer.
fn put_summary(into: &mut [u8], all: Summary) -> usize
    requires { 256 ≤ length into.old }
    ensures end { result ≤ 256 }
    ensures line { take result into.new ≡ summary_line all }
{
    let end = append(into, 0, b"objects");
    let end = put_number(into, end, all.objects);
    let end = append(into, end, b" items");
    let end = put_number(into, end, all.items);
    let end = append(into, end, b" entries");
    let end = put_number(into, end, all.entries);
    let end = append(into, end, b" bytes");
    let end = put_number(into, end, all.bytes);
    let end = append(into, end, b" sum");
    let end = put_number(into, end, all.sum);
    append(into, end, b"\n")
}

/// Writes the line of a summary, in one call of the sink.
pub fn write_summary<K: Sink>(all: Summary, out: &mut K) -> Result<(), Failed>
    ensures { Writes (K.taken out.old) (summary_line all) (K.taken out.new) (K.faults out.old) (K.faults out.new) result }
{
    let mut line = [0u8; 256];
    let end = put_summary(&mut line, all);
    out.write(&line[..end])
}
