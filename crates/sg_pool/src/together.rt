// The pages of several frames, lent at once, whose records are repeated in several threads.
ghost use Rattle.std.specs.Prelude.{◌≡◌, ◌<◌, ◌≤◌, ◌+◌, ◌-◌, ◌^◌, ◌++◌, ◌∷◌, [], ℕ, List, Some, None, length, get_or, map, sum_by, vec_len, vec_capacity, All};
ghost use Rattle.std.specs.List.Sorted.{IsNonDecreasingBy};
ghost use Rattle.sg_frames.specs.Held.{IsHere, IsFrom, with_bytes};
ghost use Rattle.sg_frames.specs.declared.place.Place.TheVariants.{Page};
ghost use Rattle.sg_ops.specs.Table.{table_of};
ghost use Rattle.sg_redo.specs.Units.{Lies, AreKnown, StaysWell, replayed_unit};
ghost use Rattle.sg_redo.specs.declared.unit.Unit as code;
ghost use Rattle.sg_pool.specs.Held.{frame_of, since_of};
ghost use Rattle.sg_pool.specs.Redone.{places_of};
ghost use Rattle.sg_pool.specs.Together.{IsBorder, part_of, IsUnitOf, IsTakenBack, ArePlaced, AreHereFrom, AreRepeated};

use crate::part::end_of_unit;
use crate::shelf::Shelf;
use crate::slot::Slot;
use sg_base::Steps;
use sg_frames::Frames;
use sg_ops::Ops;
use sg_redo::{Place, Unit, replay_all};
use sg_segment::Dirty;
use std::sync::ledger::Ledger;
use std::thread::Threads;

// In how many threads the pages of a group are repeated at most.
const THREADS: usize = 4;

// The frame of a page, by the list that says it of each.
fn frame_in(index: &Vec<Option<u32>>, p: u32) -> Option<u32>
    requires { p < length index.now.items }
    ensures { result ≡ get_or index.now.items p None }
{
    index[p as usize]
}

// Lends a frame's page, as the last of the units, with its own places.
fn lend(
    frames: &mut Frames,
    slots: &Vec<Slot>,
    f: u32,
    units: &mut Vec<Unit>,
    number: u32,
    first: usize,
    count: usize,
)
    requires there { f < length slots.now.items }
    requires here { IsHere frames.old (Page f) }
    requires room { vec_len units.old < vec_capacity units.old }
    requires few { first + count < 2 ^ 32 }
    ensures lent { (u : code.Unit) × IsUnitOf frames.old f (since_of slots.now.items (Some f)) first count u × (units.new.items ≡ units.old.items ++ u ∷ []) }
    ensures left { frames.new ≡ with_bytes frames.old (Page f) [] }
{
    let loan = frames.take(f);
    units.push_reserved(Unit {
        number,
        loan,
        dirty: Dirty::new(),
        since: slots[f as usize].since,
        first: first as u32,
        count: count as u32,
    });
}

// Takes back the last of the units, which a frame's page is: it has the unit's bytes and its oldest change from then on.
fn take_back(frames: &mut Frames, slots: &mut Vec<Slot>, f: u32, units: &mut Vec<Unit>)
    requires there { f < length slots.old.items }
    requires some { 0 < vec_len units.old }
    requires lent { (us : List code.Unit) (u : code.Unit) → units.old.items ≡ us ++ u ∷ [] → IsFrom frames.old u.loan }
    ensures back { (us : List code.Unit) (u : code.Unit) → units.old.items ≡ us ++ u ∷ [] → IsTakenBack f u slots.old.items slots.new.items frames.old frames.new × (units.new.items ≡ us) }
    ensures count { length slots.new.items ≡ length slots.old.items }
{
    if let Some(unit) = units.pop() {
        let Unit {
            number: _,
            loan,
            dirty: _,
            since,
            first: _,
            count: _,
        } = unit;
        let slot = slots[f as usize];
        slots[f as usize] = Slot {
            number: slot.number,
            since,
        };
        frames.give(loan);
    }
}

// Repeats the records at the places from one on: each page is lent in turn, as long as it is in a frame and there is
// room for one more unit, and once no more are, all units are replayed at once, and the pages come back. It answers
// where the first place stands whose page wasn't lent. The units that were lent before are replayed beside them.
fn repeat_from<R: Threads + Sync, L: Ledger>(
    rt: &R,
    frames: &mut Frames,
    slots: &mut Vec<Slot>,
    index: &Vec<Option<u32>>,
    units: &mut Vec<Unit>,
    from: usize,
    places: &[Place],
    text: &[u8],
    ops: &Ops,
    steps: &mut Steps<L>,
) -> usize
    requires within { from ≤ length places.now }
    requires few { length places.now < 2 ^ 32 }
    requires grouped { IsNonDecreasingBy (λ p. p.unit) places.now }
    requires known { AreKnown (table_of record_meaning range_meaning ops.now) text.now places.now }
    requires listed { All (λ p. p.unit < length index.now.items) places.now }
    requires placed { ArePlaced slots.old.items index.now.items frames.old }
    requires here { AreHereFrom places.now from slots.old.items frames.old }
    requires lie { All (λ u. Lies places.now u) units.old.items }
    ensures within { (from ≤ result) × (result ≤ length places.now) }
    ensures border { IsBorder places.now from → IsBorder places.now result }
    ensures units { units.new.items ≡ map (replayed_unit (table_of record_meaning range_meaning ops.now) text.now places.now) units.old.items }
    ensures well { All (StaysWell (table_of record_meaning range_meaning ops.now) text.now places.now) units.old.items }
    ensures repeated { AreRepeated (table_of record_meaning range_meaning ops.now) text.now (part_of places.now from result) slots.old.items slots.new.items frames.old frames.new }
    // Each page of these places is in a frame.
    ensures held { (n : ℕ) → frame_of slots.old.items n ≡ None → places_of n (part_of places.now from result) ≡ [] }
    ensures steps { steps.new ≡ steps.old + sum_by (λ u. u.count) units.old.items + (result - from) }
{
    if from < places.len() && units.len() < units.capacity() {
        let unit = places[from].unit;
        if let Some(f) = frame_in(index, unit) {
            let to = end_of_unit(places, from, unit);
            lend(frames, slots, f, units, unit, from, to - from);
            let end = repeat_from(
                rt, frames, slots, index, units, to, places, text, ops, steps,
            );
            take_back(frames, slots, f, units);
            return end;
        }
    }
    replay_all(rt, THREADS, units, places, text, ops, steps);
    from
}

impl Shelf {
    ghost use Rattle.sg_pool.specs.Shelves.{geometry_of};

    // Repeats the records of a front of these places, on the pages that are in frames, in several threads: it ends at the
    // first page that is in none, or where there is no room for one more unit. It answers where the front ends.
    pub(crate) fn repeat_pages<R: Threads + Sync, L: Ledger>(
        &mut self,
        rt: &R,
        units: &mut Vec<Unit>,
        places: &[Place],
        text: &[u8],
        ops: &Ops,
        steps: &mut Steps<L>,
    ) -> usize
        requires pages { All (λ p. p.unit < self.old.pages) places.now }
        requires few { length places.now < 2 ^ 32 }
        requires grouped { IsNonDecreasingBy (λ p. p.unit) places.now }
        requires known { AreKnown (table_of record_meaning range_meaning ops.now) text.now places.now }
        requires empty { units.old.items ≡ [] }
        ensures empty { units.new.items ≡ [] }
        ensures within { result ≤ length places.now }
        ensures border { IsBorder places.now result }
        ensures repeated { AreRepeated (table_of record_meaning range_meaning ops.now) text.now (part_of places.now 0 result) self.old.slots.items self.new.slots.items self.old.frames self.new.frames }
        ensures held { (n : ℕ) → frame_of self.old.slots.items n ≡ None → places_of n (part_of places.now 0 result) ≡ [] }
        ensures wins { self.new.wins ≡ self.old.wins }
        ensures geometry { geometry_of self.new ≡ geometry_of self.old }
        ensures steps { steps.new ≡ steps.old + result }
    {
        repeat_from(
            rt,
            &mut self.frames,
            &mut self.slots,
            &self.index,
            units,
            0,
            places,
            text,
            ops,
            steps,
        )
    }
}
