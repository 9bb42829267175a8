// The double-write header behind its gate: a count, and that many numbers of pages.
ghost use Rattle.std.specs.Prelude.{◌≡◌, ◌≢◌, ◌≤◌, ◌<◌, ◌+◌, ◌*◌, ℕ, length, min, take, slice_index, IfOk, IfErr, IsTrue, MatchBool, OnOk, OnErr};
ghost use Rattle.sg_base.specs.Ends.{HasRisen};
ghost use Rattle.sg_base.specs.declared.area.Area.TheVariants.{Home};
ghost use Rattle.sg_disk.specs.Disk.{FULL, Leaves, LeavesOnly, synced, written};
ghost use Rattle.sg_disk.specs.Memory.{bytes_of};
ghost use Rattle.sg_gate.specs.Batch.{numbers_at, IsBatch, IsHeader, IsWrongAt};
ghost use Rattle.sg_gate.specs.Layout.{HEADER};

use crate::layout::COUNT_START;
use sg_base::{read_u32, write_u32};
use sg_disk::{Area, Disk, Failed};

// Writes the count and the numbers to the front of the text.
fn write_header(numbers: &[u32], text: &mut [u8])
    requires room { 4 + 4 * length numbers.now ≤ length text.old }
    requires most { length numbers.now ≤ 32 }
    ensures { IsHeader text.new numbers.now }
{
    write_u32(text, numbers.len() as u32);
    'numbers: for k in 0..numbers.len() {
        write_u32(&mut text[4 + 4 * k..], numbers[k]);
    }
}

/// Writes a header with these numbers behind its gate, and syncs. The text is room for it.
pub fn stage_header<D: Disk>(disk: &mut D, numbers: &[u32], text: &mut [u8]) -> Result<(), Failed>
    requires most { length numbers.now ≤ 32 }
    requires room { 132 ≤ length text.old }
    ensures header { IsHeader text.new numbers.now }
    ensures done { IsTrue D.told → OnOk result ((D.view disk.new).now ≡ synced Home (written Home (HEADER + 1) (take (4 + 4 * length numbers.now) text.new) (D.view disk.old).now)) }
    ensures any_moment { IsTrue D.told → LeavesOnly (D.view disk.old) (D.view disk.new) (Leaves (written Home (HEADER + 1) (take (4 + 4 * length numbers.now) text.new) (D.view disk.old).now)) }
    ensures failed { OnErr result (HasRisen (D.view disk.old).faults (D.view disk.new).faults) }
    ensures later { (D.view disk.old).faults ≤ (D.view disk.new).faults }
    ensures quiet { OnOk result ((D.view disk.new).faults ≡ (D.view disk.old).faults) }
    ensures calls { OnOk result ((D.view disk.new).calls ≡ min ((D.view disk.old).calls + 2) FULL) }
    ensures calls_most { (D.view disk.new).calls ≤ (D.view disk.old).calls + 2 }
    ensures handed { (D.view disk.new).handed ≤ (D.view disk.old).handed + 4 * length numbers.now + 4 }
    ensures kept { (D.view disk.old).handed ≤ (D.view disk.new).handed }
    ensures all_handed { OnOk result ((D.view disk.new).handed ≡ min ((D.view disk.old).handed + 4 * length numbers.now + 4) FULL) }
{
    write_header(numbers, text);
    disk.write_at(Area::Home, COUNT_START, &text[..4 + 4 * numbers.len()])?;
    disk.sync(Area::Home)
}

// Whether the number is one of these.
fn is_among(numbers: &[u32], number: u32) -> bool
    ensures { MatchBool result ((j : ℕ) × (j < length numbers.now) × (slice_index numbers.now j ≡ number)) ((j : ℕ) → j < length numbers.now → slice_index numbers.now j ≢ number) }
{
    'all: for k in 0..numbers.len() {
        if numbers[k] == number {
            return true;
        }
    }
    false
}

/// Reads the numbers of the text to the front of `into`, and answers how many there are: or else the
/// offset in the text of the first field that is out of its range.
pub fn read_header(text: &[u8], pages: u32, into: &mut [u32]) -> Result<usize, u64>
    requires size { length text.now ≡ 132 }
    requires room { length into.old ≡ 32 }
    ensures numbers { IfOk result (λ n. take n into.new ≡ numbers_at (bytes_of text.now) 0) }
    ensures batch { IfOk result (λ n. IsBatch pages (take n into.new)) }
    ensures within { IfOk result (λ n. n ≤ 32) }
    ensures wrong { IfErr result (λ at. IsWrongAt pages (bytes_of text.now) 0 at) }
    ensures near { IfErr result (λ at. at < 132) }
{
    let count = read_u32(text);
    if count == 0 || count > 32 {
        return Err(0);
    }
    'numbers: for k in 0..count as usize {
        let number = read_u32(&text[4 + 4 * k..]);
        if number >= pages || is_among(&into[..k], number) {
            return Err(4 + 4 * k as u64);
        }
        into[k] = number;
    }
    Ok(count as usize)
}
