ghost use Rattle.std.specs.Prelude.{◌≡◌, ◌+◌, ◌≤◌, ◌++◌, length, take, List, ℕ, Ok, None, IfOk};
ghost use Rattle.sg_base.specs.Bytes.{IsBytes};
ghost use Rattle.sg_record.specs.Records.{Record, body_of, spelled, HEADER};
ghost use Rattle.sg_record.specs.Ranges.{IsRecord, HasArgs, out_of_range};
ghost use Rattle.sg_record.specs.Reading.{unread_at, size_at, transaction_at, previous_at, body_at, in_range, read_says, parse_says, parse};
ghost use Rattle.sg_record.specs.Shown.{shown, shown_says, shown_read, by};

use crate::bodies::says;
use crate::kind::{Kind, kind_with};
use crate::ranges::out_of_range;
use crate::says::Says;
use crate::{HEADER_SIZE, Rec, RecError};
use sg_base::{Lsn, TxnId, read_u32, read_u64};

// Tells a proof that each element is below 256. It runs no code.
fn are_bytes(xs: &[u8])
    ensures { IsBytes xs.now }
{}

// The offset of the field that is at fault where the bytes behind the header can't be read.
fn unread_at(kind: Kind, body: &[u8]) -> u32
    ensures { result ≡ unread_at kind body.now }
{
    match kind {
        Kind::PhysComp => {
            if body.len() > 8 && !matches!(body[8], 2 | 3 | 4) {
                29
            } else {
                1
            }
        }
        _ => 1,
    }
}

// The record of this transaction that says this. That of a checkpoint is none.
fn rec<'a>(txn: TxnId, prev: Lsn, says: Says<'a>) -> Rec<'a>
    requires { out_of_range (by txn.0 prev (shown_says says)) ≡ None }
    ensures { shown result ≡ by txn.0 prev (shown_says says.entry) }
{
    match says {
        Says::Begin => Rec::Begin { txn, prev },
        Says::Changed(change) => change.logged(txn, prev),
        Says::TopEnd { undo_next, note } => Rec::TopEnd {
            txn,
            prev,
            undo_next,
            note,
        },
        Says::PhysComp { undo_next, change } => Rec::PhysComp {
            txn,
            prev,
            undo_next,
            change,
        },
        Says::TopVoid { undo_next } => Rec::TopVoid {
            txn,
            prev,
            undo_next,
        },
        Says::CompEnd { undo_next } => Rec::CompEnd {
            txn,
            prev,
            undo_next,
        },
        Says::Save { mark } => Rec::Save { txn, prev, mark },
        Says::Commit => Rec::Commit { txn, prev },
        Says::End => Rec::End { txn, prev },
        Says::Checkpoint { estimate, live } => Rec::Checkpoint { estimate, live },
    }
}

// The record that says this, where its fields are in their ranges. The bytes begin with its header.
fn checked<'a>(bytes: &[u8], says: Says<'a>, size: usize) -> Result<(Rec<'a>, usize), RecError>
    requires header { HEADER ≤ length bytes.now }
    requires size { size ≡ HEADER + length (body_of (shown_says says)) }
    requires args { HasArgs (shown_says says) }
    ensures { let r = by (transaction_at bytes.now) (previous_at bytes.now) (shown_says says.entry) in
        shown_read result ≡ in_range r size (out_of_range r) }
{
    let txn = TxnId(read_u64(&bytes[5..]));
    let prev = read_u64(&bytes[13..]);
    match out_of_range(txn, prev, &says, size) {
        Some(at) => Err(RecError::BadField(at)),
        None => Ok((rec(txn, prev, says), size)),
    }
}

// The record of this kind that the fields make.
fn read_fields(kind: Kind, bytes: &[u8], size: usize) -> Result<(Rec<'_>, usize), RecError>
    requires stated { size ≡ size_at bytes.now }
    requires least { HEADER ≤ size }
    requires within { size ≤ length bytes.now }
    ensures { shown_read result ≡ parse_says kind bytes.now (read_says kind (body_at bytes.now)) }
{
    are_bytes(bytes);
    let body = &bytes[HEADER_SIZE..size];
    match says(kind, body) {
        None => Err(RecError::BadField(unread_at(kind, body))),
        Some(says) => checked(bytes, says, size),
    }
}

#[tactic(auto, unfolding(crate::specs::Reading::parse, crate::specs::Reading::parse_kind))]
fn read(bytes: &[u8]) -> Result<(Rec<'_>, usize), RecError>
    ensures { shown_read result ≡ parse bytes.now }
{
    if bytes.len() < HEADER_SIZE {
        return Err(RecError::Short);
    }
    let Some(kind) = kind_with(bytes[0]) else {
        return Err(RecError::BadKind(bytes[0]));
    };
    let size = read_u32(&bytes[1..]) as usize;
    if bytes.len() < size {
        return Err(RecError::Short);
    }
    if size < HEADER_SIZE {
        return Err(RecError::BadField(1));
    }
    read_fields(kind, bytes, size)
}

/// The record at the front of the bytes and its length. It takes no memory.
pub fn decode(bytes: &[u8]) -> Result<(Rec<'_>, usize), RecError>
    // It is the record that stands there, or the first fault, in the order in which faults are told.
    ensures exact { shown_read result ≡ parse bytes.now }
    // Nothing but the one spelling of a record is accepted,
    ensures spelling { IfOk result (λ p. take p.1 bytes.now ≡ spelled (shown p.0)) }
    ensures size { IfOk result (λ p. p.1 ≡ length (spelled (shown p.0))) }
    ensures range { IfOk result (λ p. IsRecord (shown p.0)) }
    // and what was encoded is read back, whatever follows it.
    ensures back { (r : Record) (rest : List ℕ) → IsRecord r → bytes.now ≡ spelled r ++ rest
        → shown_read result ≡ Ok (r, length (spelled r)) }
{
    are_bytes(bytes);
    read(bytes)
}
