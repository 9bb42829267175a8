// What is asked of the change that a record makes.
ghost use Rattle.std.specs.Prelude.{◌≡◌, ◌+◌, ◌<◌, ◌^◌, ℕ, false, Some, None, IfSome, IfNone, option_map};
ghost use Rattle.sg_ops.specs.Table.{table_of};
ghost use Rattle.sg_record.specs.Shown.{shown, shown_change};
ghost use Rattle.sg_redo.specs.Places.{changed_by};
ghost use Rattle.sg_places.specs.Asked.{is_there, unknown_in, is_among, is_needed, unknown_by};
ghost use Rattle.sg_places.specs.Placed.{unit_of};

use sg_analysis::{Losers, Opened};
use sg_base::{Lsn, TxnId};
use sg_ops::Ops;
use sg_record::{Change, Rec};

/// The change of a page or of a band that a record makes, if it makes one.
pub fn change_of<'a>(rec: &Rec<'a>) -> Option<Change<'a>>
    ensures { option_map shown_change result ≡ changed_by (shown rec.now).says }
{
    match *rec {
        Rec::Page { change, .. } => Some(Change::Page(change)),
        Rec::SegWrite { change, .. } => Some(Change::SegWrite(change)),
        Rec::SegOp { change, .. } => Some(Change::SegOp(change)),
        Rec::PhysComp { change, .. } => Some(change),
        _ => None,
    }
}

/// Whether the page or the band that the record changes, if it changes one, is one of the store's.
pub fn is_there(rec: &Rec<'_>, pages: u32, bands: u32) -> bool
    ensures { result ≡ is_there pages bands (changed_by (shown rec.now).says) }
{
    match change_of(rec) {
        None => true,
        Some(Change::Page(change)) => change.page.0 < pages,
        Some(Change::SegWrite(change)) => change.band.0 < bands,
        Some(Change::SegOp(change)) => change.band.0 < bands,
    }
}

// The code of the operation that the record names, where none is registered with it in its sort.
fn unknown_in(rec: &Rec<'_>, ops: &Ops) -> Option<u16>
    ensures { result ≡ unknown_in (table_of record_meaning range_meaning ops.now) (changed_by (shown rec.now).says) }
{
    match change_of(rec) {
        Some(Change::Page(change)) => {
            let names = change.operation == 6 || change.operation == 7;
            if names && !ops.has_record(change.code) {
                Some(change.code)
            } else {
                None
            }
        }
        Some(Change::SegOp(change)) => {
            if ops.has_range(change.code) {
                None
            } else {
                Some(change.code)
            }
        }
        Some(Change::SegWrite(_)) | None => None,
    }
}

// Whether the transaction is one of these.
fn is_among(txn: TxnId, losers: &Losers) -> bool
    ensures { result ≡ is_among txn.0 losers.now }
{
    'losers: for i in 0..losers.len() {
        if losers.get(i).0.0 == txn.0 {
            return true;
        }
    }
    false
}

// Whether opening needs the operation of the record with this number.
fn is_needed(rec: &Rec<'_>, lsn: Lsn, point: Lsn, losers: &Losers, opened: &Opened) -> bool
    ensures { result ≡ is_needed point (losers.now, opened.now) lsn (shown rec.now) }
{
    let txn = rec.txn();
    lsn >= point || is_among(txn, losers) || txn.0 == 0 && opened.has(lsn)
}

/// The code of the operation that the record with this number names, where opening needs it and it
/// isn't registered.
pub fn unknown_by(
    rec: &Rec<'_>,
    lsn: Lsn,
    point: Lsn,
    losers: &Losers,
    opened: &Opened,
    ops: &Ops,
) -> Option<u16>
    ensures { result ≡ unknown_by (table_of record_meaning range_meaning ops.now) point (losers.now, opened.now) lsn (shown rec.now) }
{
    if is_needed(rec, lsn, point, losers, opened) {
        unknown_in(rec, ops)
    } else {
        None
    }
}

/// The unit that a change changes in a store of so many pages and bands, if it is one of these.
pub fn unit_of(change: &Change<'_>, pages: u32, bands: u32) -> Option<u32>
    requires { pages + bands < 2 ^ 32 }
    ensures unit { IfSome result (λ u. u ≡ unit_of pages (shown_change change.now)) }
    ensures none { IfNone result (is_there pages bands (Some (shown_change change.now)) ≡ false) }
{
    match change {
        Change::Page(change) => {
            if change.page.0 < pages {
                Some(change.page.0)
            } else {
                None
            }
        }
        Change::SegWrite(change) => {
            if change.band.0 < bands {
                Some(pages + change.band.0)
            } else {
                None
            }
        }
        Change::SegOp(change) => {
            if change.band.0 < bands {
                Some(pages + change.band.0)
            } else {
                None
            }
        }
    }
}
