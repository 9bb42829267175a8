// The lines of a listing.
ghost use Rattle.std.specs.Prelude.{◌≡◌, ◌+◌, ◌≤◌, ◌++◌, length, take, codes, decimal, OnOk, OnErr};
ghost use Rattle.sg_base.specs.Ends.{HasRisen, Takes, TakesFront};
ghost use Rattle.sg_record.specs.Records.{spelled};
ghost use Rattle.sg_record.specs.Shown.{shown};
ghost use Rattle.sg_log.specs.Frames.{Numbered};
ghost use Rattle.sg_inspect.specs.Listing.{name_of, heading, line_of};

use sg_base::{Failed, Lsn, Sink};
use sg_gate::Super;
use sg_record::Rec;
use sg_text::{append, append_number};

// The name of a record's kind.
fn name_of(rec: &Rec<'_>) -> &'static [u8]
    ensures name { result.now ≡ name_of (shown rec.now).says }
    ensures short { length result.now ≤ 10 }
{
    match *rec {
        Rec::Begin { .. } => b"begin",
        Rec::Page { .. } => b"page",
        Rec::SegWrite { .. } => b"seg-write",
        Rec::SegOp { .. } => b"seg-op",
        Rec::TopEnd { .. } => b"top-end",
        Rec::PhysComp { .. } => b"phys-comp",
        Rec::TopVoid { .. } => b"top-void",
        Rec::CompEnd { .. } => b"comp-end",
        Rec::Save { .. } => b"save",
        Rec::Commit { .. } => b"commit",
        Rec::End { .. } => b"end",
        Rec::Checkpoint { .. } => b"checkpoint",
    }
}

// Puts a space and a number behind the front of a buffer.
fn put_number(into: &mut [u8], at: usize, number: u64) -> usize
    requires { at + 21 ≤ length into.old }
    ensures end { result ≤ at + 21 }
    ensures front { take result into.new ≡ take at into.old ++ codes " " ++ decimal number }
{
    let end = append(into, at, b" ");
    append_number(into, end, number)
}

// Puts the line of a record of so many bytes at the front of a buffer.
fn put_line(into: &mut [u8], lsn: Lsn, rec: &Rec<'_>, size: u64) -> usize
    requires room { 128 ≤ length into.old }
    requires size { size ≡ length (spelled (shown rec.now)) }
    ensures end { result ≤ 128 }
    ensures line { take result into.new ≡ line_of (record { lsn = lsn; is = shown rec.now }) }
{
    let end = append_number(into, 0, lsn);
    let end = append(into, end, b" ");
    let end = append(into, end, name_of(rec));
    let end = put_number(into, end, rec.txn().0);
    let end = put_number(into, end, rec.prev());
    let end = put_number(into, end, size);
    append(into, end, b"\n")
}

/// Writes the line of the record of so many bytes with this number, in one call of the sink.
pub fn write_line<K: Sink>(lsn: Lsn, rec: &Rec<'_>, size: u64, out: &mut K) -> Result<(), Failed>
    requires { size ≡ length (spelled (shown rec.now)) }
    ensures took { OnOk result (Takes (K.taken out.old) (line_of (record { lsn = lsn; is = shown rec.now })) (K.taken out.new)) }
    ensures cut { OnErr result (TakesFront (K.taken out.old) (line_of (record { lsn = lsn; is = shown rec.now })) (K.taken out.new)) }
    ensures later { K.faults out.old ≤ K.faults out.new }
    ensures quiet { OnOk result (K.faults out.new ≡ K.faults out.old) }
    ensures failed { OnErr result (HasRisen (K.faults out.old) (K.faults out.new)) }
{
    let mut line = [0u8; 128];
    let end = put_line(&mut line, lsn, rec, size);
    out.write(&line[..end])
}

// Puts the heading of a listing at the front of a buffer.
fn put_heading(into: &mut [u8], s: &Super, gate: Lsn) -> usize
    requires room { 128 ≤ length into.old }
    ensures end { result ≤ 128 }
    ensures heading { take result into.new ≡ heading s.now gate }
{
    let end = append(into, 0, b"log");
    let end = put_number(into, end, u64::from(s.log));
    let end = put_number(into, end, s.base);
    let end = put_number(into, end, gate);
    append(into, end, b"\n")
}

/// Writes the heading of a listing, in one call of the sink.
pub fn write_heading<K: Sink>(s: &Super, gate: Lsn, out: &mut K) -> Result<(), Failed>
    ensures took { OnOk result (Takes (K.taken out.old) (heading s.now gate) (K.taken out.new)) }
    ensures cut { OnErr result (TakesFront (K.taken out.old) (heading s.now gate) (K.taken out.new)) }
    ensures later { K.faults out.old ≤ K.faults out.new }
    ensures quiet { OnOk result (K.faults out.new ≡ K.faults out.old) }
    ensures failed { OnErr result (HasRisen (K.faults out.old) (K.faults out.new)) }
{
    let mut line = [0u8; 128];
    let end = put_heading(&mut line, s, gate);
    out.write(&line[..end])
}
