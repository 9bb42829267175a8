// Which of a record's fields is the first that is out of its range.
ghost use Rattle.std.specs.Prelude.{◌≡◌, ◌+◌, ◌<◌, ◌^◌, length};
ghost use Rattle.sg_record.specs.Ranges.{first_out, before_fits, after_fits, is_part, code_fits, position_fits, arg_fits, op_before_fits, page_fields, bytes_fields, op_fields, ArgsFit, HasArgs, change_fields, says_fields, out_of_range};
ghost use Rattle.sg_record.specs.Records.{HEADER, body_of};
ghost use Rattle.sg_record.specs.Shown.{shown_page, shown_bytes, shown_op, shown_change, shown_says, by};

use crate::says::Says;
use crate::{BandBytes, BandOp, Change, PageChange};
use sg_base::{BAND_SIZE, Lsn, TxnId};

// A field's offset, and whether it is in its range.
type Field = (u32, bool);

// The offset of the first field that isn't in its range.
fn first_out(fields: &[Field]) -> Option<u32>
    ensures { result ≡ first_out fields.now }
{
    let mut rest = fields;
    while let Some((field, tail)) = rest.split_first() {
        if !field.1 {
            return Some(field.0);
        }
        rest = tail;
    }
    None
}

fn before_fits(taking_off: bool, operation: u8, size: usize) -> bool
    ensures { result ≡ before_fits taking_off operation size }
{
    if taking_off || operation == 2 || operation == 6 || operation == 7 {
        size == 0
    } else if operation == 1 {
        size == 1
    } else if operation == 5 {
        size == 8
    } else {
        true
    }
}

fn after_fits(operation: u8, size: usize) -> bool
    ensures { result ≡ after_fits operation size }
{
    if operation == 1 {
        size == 1
    } else if operation == 3 {
        size == 0
    } else if operation == 5 {
        size == 8
    } else if operation == 6 || operation == 7 {
        size <= 256
    } else {
        true
    }
}

fn out_of_page(taking_off: bool, offset: u32, c: &PageChange<'_>) -> Option<u32>
    requires { offset < 64 }
    ensures { result ≡ first_out (page_fields taking_off offset (shown_page c.now)) }
{
    let page = c.page.0 < 1_048_576;
    let operation = 1 <= c.operation && c.operation <= 7;
    let before = before_fits(taking_off, c.operation, c.before.len());
    let after = after_fits(c.operation, c.after.len());
    first_out(&[
        (offset, page),
        (offset + 4, operation),
        (offset + 9, before),
        (offset + 11, after),
    ])
}

// A part of a band: 1 to 8,192 of its bytes.
fn is_part(at: u32, count: u32) -> bool
    ensures { result ≡ is_part at count }
{
    1 <= count && count <= 8_192 && u64::from(at) + u64::from(count) <= BAND_SIZE as u64
}

fn out_of_bytes(offset: u32, c: &BandBytes<'_>) -> Option<u32>
    requires { offset < 64 }
    ensures { result ≡ first_out (bytes_fields offset (shown_bytes c.now)) }
{
    let band = c.band.0 < 65_536;
    let at = c.at < BAND_SIZE as u32;
    let count = is_part(c.at, c.count);
    first_out(&[(offset, band), (offset + 4, at), (offset + 8, count)])
}

// The code of a registered operation that fills in zeros where its argument is empty.
const FILL: u16 = 1;

fn code_fits(taking_off: bool, code: u16) -> bool
    ensures { result ≡ code_fits taking_off code }
{
    !taking_off || code == FILL
}

fn position_fits(position: u32, count: u32) -> bool
    ensures { result ≡ position_fits position count }
{
    u64::from(position) + u64::from(count) <= 16_384_000
}

fn arg_fits(taking_off: bool, size: usize) -> bool
    ensures { result ≡ arg_fits taking_off size }
{
    if taking_off { size == 0 } else { size <= 256 }
}

fn op_before_fits(taking_off: bool, c: &BandOp<'_>) -> bool
    ensures { result ≡ op_before_fits taking_off (shown_op c.now) }
{
    let size = c.before.len();
    let fills_zeros = c.code == FILL && c.arg.is_empty();
    if taking_off {
        size == 0
    } else {
        size == c.count as usize || size == 0 && fills_zeros
    }
}

// An argument outside its range is met before what follows it.
fn out_of_op(taking_off: bool, offset: u32, c: &BandOp<'_>) -> Option<u32>
    requires offset { offset < 64 }
    requires arg { length c.now.arg.now < 2 ^ 16 }
    ensures { result ≡ first_out (op_fields taking_off offset (shown_op c.now)) }
{
    let band = c.band.0 < 65_536;
    let at = c.at < BAND_SIZE as u32;
    let count = is_part(c.at, c.count);
    let code = code_fits(taking_off, c.code);
    let position = position_fits(c.position, c.count);
    let arg = arg_fits(taking_off, c.arg.len());
    let before = op_before_fits(taking_off, c);
    first_out(&[
        (offset, band),
        (offset + 4, at),
        (offset + 8, count),
        (offset + 12, code),
        (offset + 14, position),
        (offset + 18, arg),
        (offset + 20 + c.arg.len() as u32, before),
    ])
}

fn out_of_change(taking_off: bool, offset: u32, change: &Change<'_>) -> Option<u32>
    requires offset { offset < 64 }
    requires args { ArgsFit (shown_change change.now) }
    ensures { result ≡ first_out (change_fields taking_off offset (shown_change change.now)) }
{
    match change {
        Change::Page(c) => out_of_page(taking_off, offset, c),
        Change::SegWrite(c) => out_of_bytes(offset, c),
        Change::SegOp(c) => out_of_op(taking_off, offset, c),
    }
}

fn out_of_says(txn: TxnId, prev: Lsn, says: &Says<'_>) -> Option<u32>
    requires { HasArgs (shown_says says.now) }
    ensures { result ≡ first_out (says_fields txn.0 prev (shown_says says.now)) }
{
    match says {
        Says::Changed(change) => out_of_change(false, 21, change),
        Says::PhysComp { change, .. } => out_of_change(true, 30, change),
        Says::TopEnd { note, .. } => first_out(&[(29, note.len() <= 2_400)]),
        Says::Save { mark } => first_out(&[(21, 1 <= *mark && *mark <= 16)]),
        Says::Checkpoint { live, .. } => {
            first_out(&[(5, txn.0 == 0), (13, prev == 0), (29, live.len() <= 1_024)])
        }
        Says::Begin | Says::TopVoid { .. } | Says::CompEnd { .. } | Says::Commit | Says::End =>
            None,
    }
}

// The bytes of the greatest record, a write of 8,192 bytes of a band with those before it.
const GREATEST: usize = 16_417;

/// The offset of the first field that isn't in its range, of a record with so many bytes.
pub fn out_of_range(txn: TxnId, prev: Lsn, says: &Says<'_>, size: usize) -> Option<u32>
    requires size { size ≡ HEADER + length (body_of (shown_says says.now)) }
    requires args { HasArgs (shown_says says.now) }
    ensures { result ≡ out_of_range (by txn.0 prev (shown_says says.now)) }
{
    if size > GREATEST {
        return Some(1);
    }
    out_of_says(txn, prev, says)
}
