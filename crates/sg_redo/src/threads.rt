// Replay in several threads: each unit is of one of them.
ghost use Rattle.std.specs.Prelude.{◌≡◌, ◌<◌, ◌+◌, ℕ, map, sum_by};
ghost use Rattle.std.specs.List.{All};
ghost use Rattle.sg_ops.specs.Table.{table_of};
ghost use Rattle.sg_redo.specs.Units.{Lies, AreKnown, StaysWell, lent_at, replayed_unit};

use crate::place::Place;
use crate::replaying::{repeat_unit, tick_all};
use crate::unit::Unit;
use sg_base::Steps;
use sg_ops::Ops;
use std::sync::ledger::Ledger;
use std::thread;
use std::thread::Threads;

// A step for each place of these units.
fn tick_places<L: Ledger>(units: &[Unit], steps: &mut Steps<L>)
    ensures { steps.new ≡ steps.old + sum_by (λ u. u.count) units.now }
{
    'units: for i in 0..units.len() {
        tick_all(steps, units[i].count);
    }
}

/// Replays each unit's records as `replay` does, in at most `threads` threads, which share the
/// operations, the places and the text. Each unit is replayed by one of them, through its own loan, so
/// it is then what `replay` leaves of it. The steps are counted once all threads are done.
pub fn replay_all<R: Threads + Sync, L: Ledger>(
    rt: &R,
    threads: usize,
    units: &mut [Unit],
    places: &[Place],
    text: &[u8],
    ops: &Ops,
    steps: &mut Steps<L>,
)
    requires some { 0 < threads }
    requires lie { All (λ u. Lies places.now u) units.old }
    requires known { AreKnown (table_of record_meaning range_meaning ops.now) text.now places.now }
    ensures units { units.new ≡ map (replayed_unit (table_of record_meaning range_meaning ops.now) text.now places.now) units.old }
    // Each loan is of the frame or window that it was of.
    ensures lent { map lent_at units.new ≡ map lent_at units.old }
    // Each page is as it was then, or one of slots.
    ensures well { All (StaysWell (table_of record_meaning range_meaning ops.now) text.now places.now) units.old }
    ensures steps { steps.new ≡ steps.old + sum_by (λ u. u.count) units.old }
{
    thread::for_each_mut(
        rt,
        units,
        threads,
        &|_, unit: &mut Unit|
            requires { Lies places.now unit.now × AreKnown (table_of record_meaning range_meaning ops.now) text.now places.now }
            ensures unit { unit.exit.now ≡ replayed_unit (table_of record_meaning range_meaning ops.entry.now) text.entry.now places.entry.now unit.entry.now }
            ensures well { StaysWell (table_of record_meaning range_meaning ops.entry.now) text.entry.now places.entry.now unit.entry.now }
        { repeat_unit(unit, places, text, ops) },
    );
    tick_places(units, steps);
}
