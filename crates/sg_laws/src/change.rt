ghost use Rattle.std.specs.Prelude.{◌≡◌, ◌↔◌, ◌<◌, All, IsTrue, map};
ghost use Rattle.std.specs.Bool.{OnTrue, OnFalse};
ghost use Rattle.sg_ops.specs.Table.{table_of};
ghost use Rattle.sg_laws.specs.Change.{contents_of, redone, IsAccepted};

use sg_ops::Ops;
use std::thread;
use std::thread::Threads;

/// An item, and the record operation that is to be done to it.
#[derive(Drop)]
pub struct Change {
    pub item: Vec<u8>,
    pub code: u16,
    pub arg: Vec<u8>,
}

#[tactic(auto, unfolding(sg_ops::specs::Table::accepts_of))]
fn is_accepted(ops: &Ops, change: &Change) -> bool
    ensures { IsTrue result ↔ IsAccepted (table_of record_meaning range_meaning ops.now) change.now }
{
    ops.has_record(change.code)
        && ops.accepts(change.code, change.item.as_slice(), change.arg.as_slice())
}

fn redo_one(ops: &Ops, change: &mut Change)
    requires { IsAccepted (table_of record_meaning range_meaning ops.now) change.old }
    ensures { contents_of change.new
        ≡ redone (table_of record_meaning range_meaning ops.now) (contents_of change.old) }
{
    ops.redo(
        change.code,
        change.item.as_mut_slice(),
        change.arg.as_slice(),
    )
}

/// Whether each change's operation is registered and accepts the item and the argument.
pub fn are_accepted(ops: &Ops, changes: &[Change]) -> bool
    ensures { IsTrue result
        ↔ All (λ c. IsAccepted (table_of record_meaning range_meaning ops.now) c) changes.now }
{
    for change in changes {
        if !is_accepted(ops, change) {
            return false;
        }
    }
    true
}

/// Makes the changes one after the other.
pub fn redo_in_turn(ops: &Ops, changes: &mut [Change])
    requires { All (λ c. IsAccepted (table_of record_meaning range_meaning ops.now) c) changes.old }
    ensures { map contents_of changes.new
        ≡ map (redone (table_of record_meaning range_meaning ops.now)) (map contents_of changes.old) }
{
    for i in 0..changes.len() {
        redo_one(ops, &mut changes[i]);
    }
}

/// Makes the changes in at most `threads` threads, which share the operations. The changes are then
/// what `redo_in_turn` leaves.
pub fn redo_in_threads<R: Threads + Sync>(rt: &R, threads: usize, ops: &Ops, changes: &mut [Change])
    requires some { 0 < threads }
    requires accepted { All (λ c. IsAccepted (table_of record_meaning range_meaning ops.now) c) changes.old }
    ensures { map contents_of changes.new
        ≡ map (redone (table_of record_meaning range_meaning ops.now)) (map contents_of changes.old) }
{
    thread::for_each_mut(
        rt,
        changes,
        threads,
        &|_, change: &mut Change|
            requires { IsAccepted (table_of record_meaning range_meaning ops.now) change.now }
            ensures { contents_of change.exit.now
                ≡ redone (table_of record_meaning range_meaning ops.entry.now) (contents_of change.entry.now) }
        { redo_one(ops, change) },
    );
}

/// Makes all changes where each is accepted, in at most `threads` threads, and otherwise none.
/// Says whether it did.
pub fn redo_all<R: Threads + Sync>(
    rt: &R,
    threads: usize,
    ops: &Ops,
    changes: &mut [Change],
) -> bool
    requires { 0 < threads }
    ensures accepted { IsTrue result
        ↔ All (λ c. IsAccepted (table_of record_meaning range_meaning ops.now) c) changes.old }
    ensures done { OnTrue result
        (map contents_of changes.new
        ≡ map (redone (table_of record_meaning range_meaning ops.now)) (map contents_of changes.old)) }
    ensures unchanged { OnFalse result (changes.new ≡ changes.old) }
{
    if !are_accepted(ops, changes) {
        return false;
    }
    redo_in_threads(rt, threads, ops, changes);
    true
}
