// Whether the records of a log may be repeated.
ghost use Rattle.std.specs.Prelude.{◌≡◌, ◌+◌, ◌≤◌, true, false, ℕ, List, length, Some, None, Ok, IfOk, IfErr, OnOk};
ghost use Rattle.sg_ops.specs.Table.{table_of};
ghost use Rattle.sg_log.specs.Frames.{LOG_END, numbered_from, numbered_in};
ghost use Rattle.sg_record.specs.Records.{Record};
ghost use Rattle.sg_log.specs.Texts.{AreRecords, spelled_all};
ghost use Rattle.sg_places.specs.Text.{IsText};
ghost use Rattle.sg_places.specs.Asked.{all_there, first_outside, first_unknown, or_else};
ghost use Rattle.sg_places.specs.Refused.{Refuses};

use crate::body::body_size;
use crate::change::{is_there, unknown_by};
use sg_analysis::{Losers, Opened};
use sg_base::Lsn;
use sg_ops::Ops;
use sg_record::decode;

/// Why the records of a log may not be repeated.
#[derive(Clone, Copy, Debug, PartialEq, Eq)]
pub enum Refusal {
    /// A record of the frame whose gate is at this offset is of a page or a band that the store
    /// doesn't have.
    Outside { gate: u64 },
    /// The text isn't whole frames of records.
    Torn,
}

/// The first of two codes that is there.
pub fn or_else(first: Option<u16>, second: Option<u16>) -> Option<u16>
    ensures { result ≡ or_else first second }
{
    match first {
        Some(code) => Some(code),
        None => second,
    }
}

// The first code that isn't registered, of those that are needed of the records that these bytes are.
// The first of these has the number `lsn`, and their frame's gate is at the offset `gate`.
fn check_body(
    body: &[u8],
    gate: u64,
    lsn: Lsn,
    pages: u32,
    bands: u32,
    point: Lsn,
    losers: &Losers,
    opened: &Opened,
    ops: &Ops,
) -> Result<Option<u16>, Refusal>
    requires { lsn + length body.now ≤ LOG_END }
    ensures there { (rs : List Record) → AreRecords rs → spelled_all rs ≡ body.now → OnOk result (all_there pages bands rs ≡ true) }
    ensures unknown { (rs : List Record) → AreRecords rs → spelled_all rs ≡ body.now →
        IfOk result (λ code. code ≡ first_unknown (table_of record_meaning range_meaning ops.now) point (losers.now, opened.now) (numbered_from lsn rs)) }
    ensures refused { (rs : List Record) → AreRecords rs → spelled_all rs ≡ body.now → IfErr result (λ e. (e ≡ Refusal.Outside gate) × (all_there pages bands rs ≡ false)) }
{
    let mut from = 0;
    let mut unknown = None;
    'records: while from < body.len() {
        let Ok((rec, size)) = decode(&body[from..]) else {
            return Err(Refusal::Torn);
        };
        if !is_there(&rec, pages, bands) {
            return Err(Refusal::Outside { gate });
        }
        let code = unknown_by(&rec, lsn + from as u64, point, losers, opened, ops);
        unknown = or_else(unknown, code);
        from += size;
    }
    Ok(unknown)
}

/// Whether the records of a stretch of a log may be repeated over a store of so many pages and bands:
/// each that makes a change is of one of these. The text begins at this offset of the log's area,
/// whose first byte has the number `base`.
///
/// It answers the first code that isn't registered, of those that records from the redo point on name,
/// those of the transactions that are undone, and the system's open changes; and `Outside` exactly where a record isn't of one of
/// these pages and bands, with the first such frame.
pub fn check(
    text: &[u8],
    start: u64,
    base: Lsn,
    pages: u32,
    bands: u32,
    point: Lsn,
    losers: &Losers,
    opened: &Opened,
    ops: &Ops,
) -> Result<Option<u16>, Refusal>
    requires { base + (start + length text.now) ≤ LOG_END }
    ensures there { (frames : List (List Record)) → IsText frames text.now → OnOk result (first_outside pages bands start frames ≡ None) }
    ensures unknown { (frames : List (List Record)) → IsText frames text.now →
        IfOk result (λ code. code ≡ first_unknown (table_of record_meaning range_meaning ops.now) point (losers.now, opened.now) (numbered_in (base + start) frames)) }
    ensures refused { (frames : List (List Record)) → IsText frames text.now → IfErr result (Refuses pages bands start frames) }
{
    let mut at = 0;
    let mut unknown = None;
    'frames: while at < text.len() {
        let Some(size) = body_size(text, at) else {
            return Err(Refusal::Torn);
        };
        let from = at + 5;
        let gate = start + at as u64;
        let body = &text[from..from + size];
        let lsn = base + start + from as u64;
        match check_body(body, gate, lsn, pages, bands, point, losers, opened, ops) {
            Ok(code) => {
                unknown = or_else(unknown, code);
                at = from + size;
            }
            Err(refusal) => return Err(refusal),
        }
    }
    Ok(unknown)
}
