ghost use Rattle.std.specs.Prelude.{◌≡◌, ◌+◌, ◌^◌, ◌<◌, ◌≤◌, ◌++◌, length, drop};
ghost use Rattle.byteorder.specs.Endian.{little_bytes};
ghost use Rattle.sg_base.specs.Forms.{counted};
ghost use Rattle.sg_base.specs.Overwritten.{Wrote};
ghost use Rattle.sg_record.specs.Changes.{page_form, write_form, op_form, change_bytes, HasLengths};
ghost use Rattle.sg_record.specs.Records.{spelled, header, body_of, SaysFits, HEADER};
ghost use Rattle.sg_record.specs.Ranges.{IsRecord};
ghost use Rattle.sg_record.specs.Shown.{shown, shown_page, shown_bytes, shown_op, shown_change, shown_says};

use crate::kind::code_of;
use crate::says::Says;
use crate::{BandBytes, BandOp, Change, HEADER_SIZE, PageChange, Rec};
use sg_base::{Lsn, TxnId, put_text, put_u8, put_u16, put_u32, put_u64};

fn put_page(into: &mut [u8], at: usize, c: &PageChange<'_>) -> usize
    requires fits { page_form.Fits (shown_page c.now) }
    requires room { at + length (page_form.spell (shown_page c.now)) ≤ length into.old }
    ensures { Wrote into.old at (page_form.spell (shown_page c.now)) into.new result }
{
    let at = put_u32(into, at, c.page.0);
    let at = put_u8(into, at, c.operation);
    let at = put_u16(into, at, c.slot);
    let at = put_u16(into, at, c.code);
    let at = put_u16(into, at, c.before.len() as u16);
    let at = put_u16(into, at, c.after.len() as u16);
    let at = put_text(into, at, c.before);
    put_text(into, at, c.after)
}

fn put_write(into: &mut [u8], at: usize, c: &BandBytes<'_>) -> usize
    requires { at + length (write_form.spell (shown_bytes c.now)) ≤ length into.old }
    ensures { Wrote into.old at (write_form.spell (shown_bytes c.now)) into.new result }
{
    let at = put_u32(into, at, c.band.0);
    let at = put_u32(into, at, c.at);
    let at = put_u32(into, at, c.count);
    let at = put_text(into, at, c.before);
    put_text(into, at, c.after)
}

fn put_op(into: &mut [u8], at: usize, c: &BandOp<'_>) -> usize
    requires fits { op_form.Fits (shown_op c.now) }
    requires room { at + length (op_form.spell (shown_op c.now)) ≤ length into.old }
    ensures { Wrote into.old at (op_form.spell (shown_op c.now)) into.new result }
{
    let at = put_u32(into, at, c.band.0);
    let at = put_u32(into, at, c.at);
    let at = put_u32(into, at, c.count);
    let at = put_u16(into, at, c.code);
    let at = put_u32(into, at, c.position);
    let at = put_u16(into, at, c.arg.len() as u16);
    let at = put_text(into, at, c.arg);
    let at = put_u32(into, at, c.before.len() as u32);
    put_text(into, at, c.before)
}

// A change has the same bytes where it takes another one off.
fn put_change(into: &mut [u8], at: usize, change: &Change<'_>) -> usize
    requires fits { HasLengths (shown_change change.now) }
    requires room { at + length (change_bytes write_form (shown_change change.now)) ≤ length into.old }
    ensures { Wrote into.old at (change_bytes write_form (shown_change change.now)) into.new result }
{
    match change {
        Change::Page(c) => put_page(into, at, c),
        Change::SegWrite(c) => put_write(into, at, c),
        Change::SegOp(c) => put_op(into, at, c),
    }
}

// A text behind its length.
fn put_counted(into: &mut [u8], at: usize, text: &[u8]) -> usize
    requires fits { length text.now < 2 ^ 16 }
    requires room { at + 2 + length text.now ≤ length into.old }
    ensures { Wrote into.old at ((counted 2).spell text.now) into.new result }
{
    let at = put_u16(into, at, text.len() as u16);
    put_text(into, at, text)
}

// What a record says, behind its header.
fn put_says(into: &mut [u8], at: usize, says: &Says<'_>) -> usize
    requires fits { SaysFits (shown_says says.now) }
    requires room { at + length (body_of (shown_says says.now)) ≤ length into.old }
    ensures { Wrote into.old at (body_of (shown_says says.now)) into.new result }
{
    match says {
        Says::Begin | Says::Commit | Says::End => at,
        Says::Changed(change) => put_change(into, at, change),
        Says::TopEnd { undo_next, note } => {
            let at = put_u64(into, at, *undo_next);
            put_counted(into, at, note)
        }
        Says::PhysComp { undo_next, change } => {
            let at = put_u64(into, at, *undo_next);
            let at = put_u8(into, at, code_of(change.kind()));
            put_change(into, at, change)
        }
        Says::TopVoid { undo_next } => put_u64(into, at, *undo_next),
        Says::CompEnd { undo_next } => put_u64(into, at, *undo_next),
        Says::Save { mark } => put_u16(into, at, *mark),
        Says::Checkpoint { estimate, live } => {
            let at = put_u64(into, at, *estimate);
            let at = put_u16(into, at, (live.len() / 16) as u16);
            put_text(into, at, live)
        }
    }
}

// Writes a record's header, which begins with the byte of its kind, and answers the place behind it.
// The other bytes stay.
#[inline(always)]
fn put_header(into: &mut [u8], kind: u8, size: u32, txn: TxnId, prev: Lsn) -> usize
    requires { HEADER ≤ length into.old }
    ensures { Wrote into.old 0 (header kind size txn.0 prev) into.new result }
{
    let at = put_text(into, 0, &[kind]);
    let at = put_u32(into, at, size);
    let at = put_u64(into, at, txn.0);
    put_u64(into, at, prev)
}

// How many bytes a change has.
fn change_size(change: &Change<'_>) -> usize
    requires { length (change_bytes write_form (shown_change change.now)) < 2 ^ 64 }
    ensures { result ≡ length (change_bytes write_form (shown_change change.now)) }
{
    match change {
        Change::Page(c) => 13 + c.before.len() + c.after.len(),
        Change::SegWrite(c) => 12 + c.before.len() + c.after.len(),
        Change::SegOp(c) => 24 + c.arg.len() + c.before.len(),
    }
}

// How many bytes stand behind the header.
pub(crate) fn body_size(says: &Says<'_>) -> usize
    requires { length (body_of (shown_says says.now)) < 2 ^ 64 }
    ensures { result ≡ length (body_of (shown_says says.now)) }
{
    match says {
        Says::Begin | Says::Commit | Says::End => 0,
        Says::Changed(change) => change_size(change),
        Says::TopEnd { note, .. } => 10 + note.len(),
        Says::PhysComp { change, .. } => 9 + change_size(change),
        Says::TopVoid { .. } | Says::CompEnd { .. } => 8,
        Says::Save { .. } => 2,
        Says::Checkpoint { live, .. } => 10 + live.len(),
    }
}

/// How many bytes the record has, a number of 64 bits.
#[tactic(auto, unfolding(crate::specs::Records::spelled))]
pub fn size(r: &Rec<'_>) -> usize
    requires { length (spelled (shown r.now)) < 2 ^ 64 }
    ensures { result ≡ length (spelled (shown r.now)) }
{
    HEADER_SIZE + body_size(&r.says())
}

/// Writes the record at the front of `into`, and answers how many bytes it has. The bytes behind it
/// stay.
#[tactic(auto, unfolding(crate::specs::Records::spelled))]
pub fn encode(r: &Rec<'_>, into: &mut [u8]) -> usize
    requires room { length (spelled (shown r.now)) ≤ length into.old }
    requires range { IsRecord (shown r.now) }
    ensures bytes { into.new ≡ spelled (shown r.now) ++ drop (length (spelled (shown r.now))) into.old }
    ensures size { result ≡ length (spelled (shown r.now)) }
{
    let says = r.says();
    let size = HEADER_SIZE + body_size(&says);
    let at = put_header(into, code_of(says.kind()), size as u32, r.txn(), r.prev());
    put_says(into, at, &says)
}
