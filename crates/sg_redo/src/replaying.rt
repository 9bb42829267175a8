// Replay: the records of each unit, in their order, through its loan.
ghost use Rattle.std.specs.Prelude.{◌≡◌, ◌≢◌, ◌+◌, ◌↔◌, ◌⊎◌, ◌≤◌, ℕ, length, map, sum_by, Some, unwrap_or, if◌then◌else◌};
ghost use Rattle.std.specs.List.{All};
ghost use Rattle.sg_base.specs.Page.{IsSlotted};
ghost use Rattle.sg_ops.specs.Table.{table_of};
ghost use Rattle.sg_redo.specs.History.{repeated, since_repeated, IsCovered};
ghost use Rattle.sg_redo.specs.Places.{change_at, page_part, page_records, window_part, window_records, marks_with, IsKnown};
ghost use Rattle.sg_redo.specs.Units.{Lies, AreKnown, own_places, lent_at, replayed_unit};
ghost use Rattle.sg_redo.specs.Window.{on_byte, replayed, since_replayed, AllLie};
ghost use Rattle.sg_segment.specs.Runs.{IsMarked};

use crate::change::{change_at, page_op};
use crate::page::apply_page;
use crate::place::Place;
use crate::unit::Unit;
use crate::window::{BandChange, apply_window};
use sg_base::{BAND_SIZE, Lsn, PAGE_SIZE, Steps};
use sg_ops::Ops;
use sg_record::Change;
use sg_segment::Dirty;
use std::sync::ledger::Ledger;

// A record was done or wasn't: it is the oldest change, where it was done and there was none.
fn note(since: &mut Option<Lsn>, lsn: Lsn, is_done: bool)
    ensures { since.new ≡ (if is_done then Some (unwrap_or since.old lsn) else since.old) }
{
    if is_done {
        *since = Some(since.unwrap_or(lsn));
    }
}

// The record at one place, done to a page where it is due there.
#[tactic(auto, unfolding(crate::specs::Places::page_part), using(crate::proofs::Redone::applies_is))]
fn redo_page(page: &mut [u8], since: &mut Option<Lsn>, place: Place, text: &[u8], ops: &Ops)
    requires { length page.old ≡ PAGE_SIZE }
    ensures page { let t = table_of record_meaning range_meaning ops.now in
        page.new ≡ repeated (page_part t place.lsn (change_at text.now place.at)) page.old }
    ensures since { let t = table_of record_meaning range_meaning ops.now in
        since.new ≡ since_repeated (page_part t place.lsn (change_at text.now place.at)) page.old since.old }
    // What a record leaves is as it was, or a page of slots.
    ensures well { (page.new ≡ page.old) ⊎ IsSlotted page.new }
{
    if let Some(Change::Page(change)) = change_at(text, place.at) {
        let is_done = apply_page(page, place.lsn, &page_op(&change), ops);
        note(since, place.lsn, is_done);
    }
}

// The records at these places, done to a page in turn.
#[tactic(auto, using(crate::proofs::InTurn::page_none, crate::proofs::InTurn::page_turn, crate::proofs::InTurn::page_since_none))]
fn replay_page(page: &mut [u8], since: &mut Option<Lsn>, places: &[Place], text: &[u8], ops: &Ops)
    requires { length page.old ≡ PAGE_SIZE }
    ensures page { let t = table_of record_meaning range_meaning ops.now in
        page.new ≡ repeated (page_records t text.now places.now) page.old }
    ensures since { let t = table_of record_meaning range_meaning ops.now in
        since.new ≡ since_repeated (page_records t text.now places.now) page.old since.old }
    ensures well { (page.new ≡ page.old) ⊎ IsSlotted page.new }
{
    'places: for k in 0..places.len() {
        redo_page(page, since, places[k], text, ops);
    }
}

// The record at one place, written over a window.
#[tactic(auto, unfolding(crate::specs::Places::window_part), using(crate::proofs::InTurn::part_lies))]
fn redo_window(
    window: &mut [u8],
    dirty: &mut Dirty,
    since: &mut Option<Lsn>,
    place: Place,
    text: &[u8],
    ops: &Ops,
)
    requires size { length window.old ≡ BAND_SIZE }
    requires known { IsKnown (table_of record_meaning range_meaning ops.now) (change_at text.now place.at) }
    ensures written { let t = table_of record_meaning range_meaning ops.now in
        window.new ≡ replayed (window_part t place.lsn (change_at text.now place.at)) window.old }
    ensures marked { let t = table_of record_meaning range_meaning ops.now in
        (k : ℕ) → IsMarked dirty.new k ↔ (IsMarked dirty.old k ⊎ IsCovered (on_byte k (window_part t place.lsn (change_at text.now place.at)))) }
    ensures marks { length dirty.old ≡ BAND_SIZE → length dirty.new ≡ BAND_SIZE }
    ensures since { let t = table_of record_meaning range_meaning ops.now in
        since.new ≡ since_replayed (window_part t place.lsn (change_at text.now place.at)) since.old }
    ensures lies { AllLie BAND_SIZE (window_part (table_of record_meaning range_meaning ops.now) place.lsn (change_at text.now place.at)) }
{
    match change_at(text, place.at) {
        Some(Change::SegWrite(change)) => {
            let write = BandChange::Write {
                at: change.at,
                bytes: change.after,
            };
            apply_window(window, dirty, &write, ops);
            note(since, place.lsn, true);
        }
        Some(Change::SegOp(change)) => {
            let paint = BandChange::Paint {
                at: change.at,
                count: change.count,
                code: change.code,
                position: change.position,
                arg: change.arg,
            };
            apply_window(window, dirty, &paint, ops);
            note(since, place.lsn, true);
        }
        Some(Change::Page(_)) | None => {}
    }
}

// The records at these places, written over a window in turn.
#[tactic(auto, using(crate::proofs::InTurn::window_none, crate::proofs::InTurn::window_turn, crate::proofs::InTurn::marks_start, crate::proofs::InTurn::marks_turn, crate::proofs::InTurn::window_since_none, crate::proofs::InTurn::lie_none))]
fn replay_window(
    window: &mut [u8],
    dirty: &mut Dirty,
    since: &mut Option<Lsn>,
    places: &[Place],
    text: &[u8],
    ops: &Ops,
)
    requires size { length window.old ≡ BAND_SIZE }
    requires known { AreKnown (table_of record_meaning range_meaning ops.now) text.now places.now }
    ensures written { let t = table_of record_meaning range_meaning ops.now in
        window.new ≡ replayed (window_records t text.now places.now) window.old }
    ensures marked { let t = table_of record_meaning range_meaning ops.now in
        dirty.new ≡ marks_with (window_records t text.now places.now) dirty.old }
    ensures since { let t = table_of record_meaning range_meaning ops.now in
        since.new ≡ since_replayed (window_records t text.now places.now) since.old }
    ensures lie { AllLie BAND_SIZE (window_records (table_of record_meaning range_meaning ops.now) text.now places.now) }
{
    let count = places.len();
    dirty.covers_window();
    'places: for k in 0..count {
        redo_window(window, dirty, since, places[k], text, ops);
    }
}

// Repeats one unit's records through its loan.
pub fn repeat_unit(unit: &mut Unit, places: &[Place], text: &[u8], ops: &Ops)
    requires lies { Lies places.now unit.old }
    requires known { AreKnown (table_of record_meaning range_meaning ops.now) text.now places.now }
    ensures unit { unit.new ≡ replayed_unit (table_of record_meaning range_meaning ops.now) text.now places.now unit.old }
    ensures lie { length unit.old.loan.bytes ≢ PAGE_SIZE → AllLie BAND_SIZE (window_records (table_of record_meaning range_meaning ops.now) text.now (own_places places.now unit.old)) }
    ensures well { length unit.old.loan.bytes ≡ PAGE_SIZE → let rs = page_records (table_of record_meaning range_meaning ops.now) text.now (own_places places.now unit.old) in
        (repeated rs unit.old.loan.bytes ≡ unit.old.loan.bytes) ⊎ IsSlotted (repeated rs unit.old.loan.bytes) }
{
    let first = unit.first as usize;
    let own = &places[first..first + unit.count as usize];
    let memory = unit.loan.bytes_mut();
    if memory.len() == PAGE_SIZE {
        replay_page(memory, &mut unit.since, own, text, ops);
    } else {
        replay_window(memory, &mut unit.dirty, &mut unit.since, own, text, ops);
    }
}

// So many steps more.
pub fn tick_all<L: Ledger>(steps: &mut Steps<L>, count: u32)
    ensures { steps.new ≡ steps.old + count }
{
    'steps: for _step in 0..count {
        steps.tick();
    }
}

/// Replays one unit's records, as `replay` does those of several.
pub fn replay_unit<L: Ledger>(
    unit: &mut Unit,
    places: &[Place],
    text: &[u8],
    ops: &Ops,
    steps: &mut Steps<L>,
)
    requires lies { Lies places.now unit.old }
    requires known { AreKnown (table_of record_meaning range_meaning ops.now) text.now places.now }
    ensures unit { unit.new ≡ replayed_unit (table_of record_meaning range_meaning ops.now) text.now places.now unit.old }
    // Each change of a band lies in it.
    ensures lie { length unit.old.loan.bytes ≢ PAGE_SIZE → AllLie BAND_SIZE (window_records (table_of record_meaning range_meaning ops.now) text.now (own_places places.now unit.old)) }
    // A page is as it was then, or one of slots.
    ensures well { length unit.old.loan.bytes ≡ PAGE_SIZE → let rs = page_records (table_of record_meaning range_meaning ops.now) text.now (own_places places.now unit.old) in
        (repeated rs unit.old.loan.bytes ≡ unit.old.loan.bytes) ⊎ IsSlotted (repeated rs unit.old.loan.bytes) }
    ensures steps { steps.new ≡ steps.old + unit.old.count }
{
    let count = unit.count;
    repeat_unit(unit, places, text, ops);
    tick_all(steps, count);
}

/// Replays each unit's records, in the order of its places, through its loan. A page has its history
/// repeated: a record is done exactly where the page's number in the log is smaller and the operation
/// fits. A window has the records' bytes written over it, whatever stood there, and exactly these
/// marked besides. The first record that is done becomes the unit's `since`, where it had none. Each
/// place is one step.
///
/// A place at which no whole record stands that changes a unit of this sort changes nothing.
pub fn replay<L: Ledger>(
    units: &mut [Unit],
    places: &[Place],
    text: &[u8],
    ops: &Ops,
    steps: &mut Steps<L>,
)
    requires lie { All (λ u. Lies places.now u) units.old }
    requires known { AreKnown (table_of record_meaning range_meaning ops.now) text.now places.now }
    ensures units { units.new ≡ map (replayed_unit (table_of record_meaning range_meaning ops.now) text.now places.now) units.old }
    // Each loan is of the frame or window that it was of.
    ensures lent { map lent_at units.new ≡ map lent_at units.old }
    ensures steps { steps.new ≡ steps.old + sum_by (λ u. u.count) units.old }
{
    'units: for i in 0..units.len() {
        replay_unit(&mut units[i], places, text, ops, steps);
    }
}
