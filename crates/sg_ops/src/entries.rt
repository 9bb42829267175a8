// One registered operation, and the search for a code among them.
ghost use Rattle.std.specs.Prelude.{◌≡◌, ◌==◌, ◌<◌, ◌≤◌, ◌+◌, ℕ, length, slice_index, find, IsTrue, Some};
ghost use Rattle.std.specs.Option.{option_copied};
ghost use Rattle.sg_ops.specs.Table.{record_of, range_of, rendered};

use crate::RANGE_LIMIT;
use crate::range::{RangeBox, RangeOp};
use crate::record::{RecordBox, RecordOp};
use crate::shipped::{Add, Ramp, Rotate, Xor};

/// A record operation: one that comes with the crate, for which there is no box, or one that a
/// program brought.
#[derive(Drop)]
pub enum RecordEntry {
    Add,
    Xor,
    Rotate,
    Brought(RecordBox),
}

/// A range operation, but for `fill`, which is in every table without an entry.
#[derive(Drop)]
pub enum RangeEntry {
    Ramp,
    Brought(RangeBox),
}

pub fn record_code(entry: &RecordEntry) -> u16
    ensures { result ≡ (record_of record_meaning entry.now).code }
{
    match entry {
        RecordEntry::Add => Add.code(),
        RecordEntry::Xor => Xor.code(),
        RecordEntry::Rotate => Rotate.code(),
        RecordEntry::Brought(op) => op.code(),
    }
}

pub fn range_code(entry: &RangeEntry) -> u16
    ensures { result ≡ (range_of range_meaning entry.now).code }
{
    match entry {
        RangeEntry::Ramp => Ramp.code(),
        RangeEntry::Brought(op) => op.code(),
    }
}

// The first entry with this code.
pub fn find_record(records: &[RecordEntry], code: u16) -> Option<&RecordEntry>
    ensures { option_copied result ≡ find (λ entry. (record_of record_meaning entry).code == code) records.now }
{
    let mut rest = records;
    while let Some((entry, tail)) = rest.split_first() {
        if record_code(entry) == code {
            return Some(entry);
        }
        rest = tail;
    }
    None
}

// The first entry with this code.
pub fn find_range(ranges: &[RangeEntry], code: u16) -> Option<&RangeEntry>
    ensures { option_copied result ≡ find (λ entry. (range_of range_meaning entry).code == code) ranges.now }
{
    let mut rest = ranges;
    while let Some((entry, tail)) = rest.split_first() {
        if range_code(entry) == code {
            return Some(entry);
        }
        rest = tail;
    }
    None
}

pub fn entry_accepts(entry: &RecordEntry, item: &[u8], arg: &[u8]) -> bool
    ensures { result ≡ (record_of record_meaning entry.now).accepts item.now arg.now }
{
    match entry {
        RecordEntry::Add => Add.accepts(item, arg),
        RecordEntry::Xor => Xor.accepts(item, arg),
        RecordEntry::Rotate => Rotate.accepts(item, arg),
        RecordEntry::Brought(op) => op.accepts(item, arg),
    }
}

pub fn entry_redo(entry: &RecordEntry, item: &mut [u8], arg: &[u8])
    requires { IsTrue ((record_of record_meaning entry.now).accepts item.old arg.now) }
    ensures { item.new ≡ (record_of record_meaning entry.now).after item.old arg.now }
{
    match entry {
        RecordEntry::Add => Add.redo(item, arg),
        RecordEntry::Xor => Xor.redo(item, arg),
        RecordEntry::Rotate => Rotate.redo(item, arg),
        RecordEntry::Brought(op) => op.redo(item, arg),
    }
}

pub fn entry_undo(entry: &RecordEntry, item: &mut [u8], arg: &[u8])
    ensures { item.new ≡ (record_of record_meaning entry.now).before item.old arg.now }
{
    match entry {
        RecordEntry::Add => Add.undo(item, arg),
        RecordEntry::Xor => Xor.undo(item, arg),
        RecordEntry::Rotate => Rotate.undo(item, arg),
        RecordEntry::Brought(op) => op.undo(item, arg),
    }
}

fn box_render(op: &RangeBox, pos: u32, arg: &[u8], into: &mut [u8])
    requires { pos + length into.old ≤ RANGE_LIMIT }
    ensures { (k : ℕ) → k < length into.old →
        slice_index into.new k ≡ (range_meaning op.now).byte arg.now (pos + k) }
{
    op.render(pos, arg, into)
}

pub fn entry_render(entry: &RangeEntry, pos: u32, arg: &[u8], into: &mut [u8])
    requires { pos + length into.old ≤ RANGE_LIMIT }
    ensures { into.new ≡ rendered (Some (range_of range_meaning entry.now)) arg.now pos (length into.old) }
{
    match entry {
        RangeEntry::Ramp => Ramp.render(pos, arg, into),
        RangeEntry::Brought(op) => box_render(op, pos, arg, into),
    }
}
