// Redo of a whole part of the log: its places are grouped by unit, and each unit's are done in one run. In parallel, pages are
// held and done many at a time, in several threads, and bands one after another.
ghost use Rattle.std.specs.Prelude.{◌≡◌, ◌≢◌, ◌↔◌, ◌⊎◌, ◌≤◌, ◌<◌, ◌+◌, ◌^◌, ℕ, Bool, List, [], None, Ok, nat_eq, length, get_or, take, All, OnOk, OnErr, IfErr, IsTrue};
ghost use Rattle.std.specs.Map.{lookup};
ghost use Rattle.std.specs.List.Sorted.{IsPermutation, IsNonDecreasingBy};
ghost use Rattle.sg_base.specs.declared.area.Area.{Area};
ghost use Rattle.sg_base.specs.declared.area.Area.TheVariants.{Home};
ghost use Rattle.sg_disk.specs.Disk.{View, LeavesOnly};
ghost use Rattle.sg_disk.specs.Heeds.{Heeds};
ghost use Rattle.sg_log.specs.Frames.{Numbered};
ghost use Rattle.sg_log.specs.Held.{Tail, Holds, tail_of, forced};
ghost use Rattle.sg_ops.specs.Table.{Table, table_of};
ghost use Rattle.sg_redo.specs.Units.{AreKnown};
ghost use Rattle.sg_redo.specs.declared.place.Place.{Place};
ghost use Rattle.sg_pool.specs.Counts.{HasGrown, is_disk};
ghost use Rattle.sg_pool.specs.Frames.{HaveGone};
ghost use Rattle.sg_pool.specs.Moments.{IsSameOrForced};
ghost use Rattle.sg_pool.specs.Redone.{AreInOrder, places_of, records_of, IsRedone, ArePartlyRedone, AreHomesExact, AreHomesKnown, IsRedoMoment};
ghost use Rattle.sg_pool.specs.Together.{IsBorder};
ghost use Rattle.sg_pool.specs.Well.{IsWell};

use crate::{Pool, PoolFault};
use sg_base::{BandNo, PageNo, Steps};
use sg_disk::Disk;
use sg_log::Log;
use sg_ops::Ops;
use sg_redo::{Place, Unit};
use std::sync::ledger::Ledger;
use std::thread::Threads;

// How many pages are repeated at once at most, and how many frames of the pool are left to others.
const PAGES_AT_ONCE: usize = 64;

const FRAMES_LEFT: usize = 6;

// Where the places of this unit end that begin with the one at `from`.
pub(crate) fn end_of_unit(places: &[Place], from: usize, unit: u32) -> usize
    requires there { from < length places.now }
    requires first { (d : Place) → (get_or places.now from d).unit ≡ unit }
    ensures some { from < result }
    ensures within { result ≤ length places.now }
    ensures same { (k : ℕ) (d : Place) → from ≤ k → k < result → (get_or places.now k d).unit ≡ unit }
    ensures border { (d : Place) → result < length places.now → (get_or places.now result d).unit ≢ unit }
{
    let mut to = from + 1;
    'places: while to < places.len() && places[to].unit == unit {
        to += 1;
    }
    to
}

// Where the places of so many pages at most end that begin with the one at `from`.
fn end_of_pages(places: &[Place], from: usize, pages: u32, most: usize) -> usize
    requires there { from < length places.now }
    requires first { (d : Place) → (get_or places.now from d).unit < pages }
    requires grouped { IsNonDecreasingBy (λ p. p.unit) places.now }
    requires border { IsBorder places.now from }
    ensures some { from < result }
    ensures within { result ≤ length places.now }
    ensures border { IsBorder places.now result }
    ensures pages { (k : ℕ) (d : Place) → from ≤ k → k < result → (get_or places.now k d).unit < pages }
{
    let unit = places[from].unit;
    let mut to = end_of_unit(places, from, unit);
    let mut count = 1;
    'pages: while count < most && to < places.len() && places[to].unit < pages {
        let next = places[to].unit;
        let end = end_of_unit(places, to, next);
        to = end;
        count += 1;
    }
    to
}

// Whether the numbers of these places rise.
fn are_in_order(places: &[Place]) -> bool
    ensures { IsTrue result ↔ AreInOrder places.now }
{
    'places: for k in 1..places.len() {
        if places[k].lsn <= places[k - 1].lsn {
            return false;
        }
    }
    true
}

impl Pool {
    ghost use Rattle.sg_pool.specs.Pooled.{sizes, contents, frame_holding, uses, window_count, Backs, IsLogged};
    ghost use Rattle.sg_pool.specs.Shelves.{OnTold, lasts};
    ghost use Rattle.sg_pool.specs.Redoing.{AreLastsRedone, IsDurable, RedoFails, IsRun};

    // Repeats the records at these places, which are all of one unit.
    fn redo_unit<D: Disk, L: Ledger>(
        &mut self,
        disk: &mut D,
        log: &mut Log,
        unit: u32,
        text: &[u8],
        places: &[Place],
        ops: &Ops,
        steps: &mut Steps<L>,
    ) -> Result<(), PoolFault>
        requires within { unit < (sizes self.old).pages + (sizes self.old).bands }
        requires same { All (λ p. p.unit ≡ unit) places.now }
        requires known { AreKnown (table_of record_meaning range_meaning ops.now) text.now places.now }
        requires few { length places.now < 2 ^ 32 }
        requires some { 0 < length places.now }
        ensures run { IsRun (sizes self.old) D.told (table_of record_meaning range_meaning ops.now) text.now places.now (D.view disk.old) (D.view disk.new) log.old log.new self.old self.new result }
        ensures steps { OnOk result (steps.new ≡ steps.old + length places.now) }
        ensures no_steps { OnErr result (steps.new ≡ steps.old) }
    {
        let pages = self.pages();
        if unit < pages {
            self.redo_page(disk, log, PageNo(unit), text, places, ops, steps)
        } else {
            self.redo_band(disk, log, BandNo(unit - pages), text, places, ops, steps)
        }
    }

    // Brings a page into a frame: a run over any places of it that repeats nothing.
    fn hold_page<D: Disk>(&mut self, disk: &mut D, log: &mut Log, p: u32) -> Result<(), PoolFault>
        requires page { p < (sizes self.old).pages }
        ensures size { sizes self.new ≡ sizes self.old }
        ensures run { (t : Table) (places : List Place) → All (λ q. q.unit ≡ p) places → 0 < length places →
            IsRun (sizes self.old) D.told t [] places (D.view disk.old) (D.view disk.new) log.old log.new self.old self.new result }
    {
        let _f = self.hold(disk, log, p)?;
        Ok(())
    }

    // Brings the pages of these places into frames, one after another: a run over them that repeats nothing.
    fn hold_pages<D: Disk>(
        &mut self,
        disk: &mut D,
        log: &mut Log,
        places: &[Place],
    ) -> Result<(), PoolFault>
        requires pages { All (λ p. p.unit < (sizes self.old).pages) places.now }
        requires grouped { IsNonDecreasingBy (λ p. p.unit) places.now }
        ensures size { sizes self.new ≡ sizes self.old }
        ensures run { (t : Table) → IsRun (sizes self.old) D.told t [] places.now (D.view disk.old) (D.view disk.new) log.old log.new self.old self.new result }
    {
        let mut from = 0;
        'units: while from < places.len() {
            let unit = places[from].unit;
            let to = end_of_unit(places, from, unit);
            self.hold_page(disk, log, unit)?;
            from = to;
        }
        Ok(())
    }

    // Repeats the records of a front of these places, on pages that are in frames, in several threads. It answers where
    // the front ends.
    fn repeat_held<R: Threads + Sync, L: Ledger>(
        &mut self,
        rt: &R,
        units: &mut Vec<Unit>,
        text: &[u8],
        places: &[Place],
        ops: &Ops,
        steps: &mut Steps<L>,
    ) -> usize
        requires pages { All (λ p. p.unit < (sizes self.old).pages) places.now }
        requires grouped { IsNonDecreasingBy (λ p. p.unit) places.now }
        requires known { AreKnown (table_of record_meaning range_meaning ops.now) text.now places.now }
        requires few { length places.now < 2 ^ 32 }
        requires empty { units.old.items ≡ [] }
        ensures empty { units.new.items ≡ [] }
        ensures within { result ≤ length places.now }
        ensures border { IsBorder places.now result }
        ensures size { sizes self.new ≡ sizes self.old }
        ensures run { (told : Bool) (v : View) (log : Tail) → (IsTrue told → (a : Area) (i : ℕ) → (v.now a).seen i < 256) →
            IsRun {T = Prim.Unit {0}} (sizes self.old) told (table_of record_meaning range_meaning ops.now) text.now (take result places.now) v v log log self.old self.new (Ok tt) }
        ensures steps { steps.new ≡ steps.old + result }
    {
        self.shelf.repeat_pages(rt, units, places, text, ops, steps)
    }

    // Repeats the records at these places, which are of pages alone: these come into frames first, and then the records of all that
    // are in one are repeated at once, and of the others one after another.
    fn redo_pages<R: Threads + Sync, D: Disk, L: Ledger>(
        &mut self,
        rt: &R,
        units: &mut Vec<Unit>,
        disk: &mut D,
        log: &mut Log,
        text: &[u8],
        places: &[Place],
        ops: &Ops,
        steps: &mut Steps<L>,
    ) -> Result<(), PoolFault>
        requires pages { All (λ p. p.unit < (sizes self.old).pages) places.now }
        requires grouped { IsNonDecreasingBy (λ p. p.unit) places.now }
        requires known { AreKnown (table_of record_meaning range_meaning ops.now) text.now places.now }
        requires few { length places.now < 2 ^ 32 }
        requires some { 0 < length places.now }
        requires empty { units.old.items ≡ [] }
        ensures empty { units.new.items ≡ [] }
        ensures run { IsRun (sizes self.old) D.told (table_of record_meaning range_meaning ops.now) text.now places.now (D.view disk.old) (D.view disk.new) log.old log.new self.old self.new result }
        ensures steps { OnOk result (steps.new ≡ steps.old + length places.now) }
        ensures fewer_steps { OnErr result ((steps.old ≤ steps.new) × (steps.new < steps.old + length places.now)) }
    {
        self.hold_pages(disk, log, places)?;
        let to = self.repeat_held(rt, units, text, places, ops, steps);
        self.redo_units(disk, log, text, &places[to..], ops, steps)
    }

    // How many pages are held at once at most, so that none of them has to make room for another.
    fn pages_at_once(&self) -> usize {
        self.shelf
            .slots
            .len()
            .saturating_sub(FRAMES_LEFT)
            .min(PAGES_AT_ONCE)
    }

    // Repeats the records at these places, of which those of one unit stand side by side: those of pages many pages at a
    // time, and behind them those of bands.
    fn redo_groups<R: Threads + Sync, D: Disk, L: Ledger>(
        &mut self,
        rt: &R,
        units: &mut Vec<Unit>,
        disk: &mut D,
        log: &mut Log,
        text: &[u8],
        places: &[Place],
        ops: &Ops,
        steps: &mut Steps<L>,
    ) -> Result<(), PoolFault>
        requires within { All (λ p. p.unit < (sizes self.old).pages + (sizes self.old).bands) places.now }
        requires grouped { IsNonDecreasingBy (λ p. p.unit) places.now }
        requires known { AreKnown (table_of record_meaning range_meaning ops.now) text.now places.now }
        requires few { length places.now < 2 ^ 32 }
        requires empty { units.old.items ≡ [] }
        ensures empty { units.new.items ≡ [] }
        ensures run { IsRun (sizes self.old) D.told (table_of record_meaning range_meaning ops.now) text.now places.now (D.view disk.old) (D.view disk.new) log.old log.new self.old self.new result }
        ensures steps { OnOk result (steps.new ≡ steps.old + length places.now) }
        ensures fewer_steps { OnErr result ((steps.old ≤ steps.new) × (steps.new < steps.old + length places.now)) }
    {
        let pages = self.pages();
        let most = self.pages_at_once();
        let mut from = 0;
        'groups: while from < places.len() && places[from].unit < pages {
            let to = end_of_pages(places, from, pages, most);
            self.redo_pages(rt, units, disk, log, text, &places[from..to], ops, steps)?;
            from = to;
        }
        self.redo_units(disk, log, text, &places[from..], ops, steps)
    }

    // The same, one unit after another.
    fn redo_units<D: Disk, L: Ledger>(
        &mut self,
        disk: &mut D,
        log: &mut Log,
        text: &[u8],
        places: &[Place],
        ops: &Ops,
        steps: &mut Steps<L>,
    ) -> Result<(), PoolFault>
        requires within { All (λ p. p.unit < (sizes self.old).pages + (sizes self.old).bands) places.now }
        requires grouped { IsNonDecreasingBy (λ p. p.unit) places.now }
        requires known { AreKnown (table_of record_meaning range_meaning ops.now) text.now places.now }
        requires few { length places.now < 2 ^ 32 }
        ensures run { IsRun (sizes self.old) D.told (table_of record_meaning range_meaning ops.now) text.now places.now (D.view disk.old) (D.view disk.new) log.old log.new self.old self.new result }
        ensures steps { OnOk result (steps.new ≡ steps.old + length places.now) }
        ensures fewer_steps { OnErr result ((steps.old ≤ steps.new) × (steps.new < steps.old + length places.now)) }
    {
        let mut from = 0;
        'units: while from < places.len() {
            let unit = places[from].unit;
            let to = end_of_unit(places, from, unit);
            self.redo_unit(disk, log, unit, text, &places[from..to], ops, steps)?;
            from = to;
        }
        Ok(())
    }

    // Repeats the records at these places, of which those of one unit stand side by side.
    fn redo_sorted<R: Threads + Sync, D: Disk, L: Ledger>(
        &mut self,
        rt: &R,
        disk: &mut D,
        log: &mut Log,
        text: &[u8],
        places: &[Place],
        ops: &Ops,
        steps: &mut Steps<L>,
    ) -> Result<(), PoolFault>
        requires within { All (λ p. p.unit < (sizes self.old).pages + (sizes self.old).bands) places.now }
        requires grouped { IsNonDecreasingBy (λ p. p.unit) places.now }
        requires known { AreKnown (table_of record_meaning range_meaning ops.now) text.now places.now }
        requires few { length places.now < 2 ^ 32 }
        ensures run { IsRun (sizes self.old) D.told (table_of record_meaning range_meaning ops.now) text.now places.now (D.view disk.old) (D.view disk.new) log.old log.new self.old self.new result }
        ensures steps { OnOk result (steps.new ≡ steps.old + length places.now) }
        ensures fewer_steps { OnErr result ((steps.old ≤ steps.new) × (steps.new < steps.old + length places.now)) }
    {
        let alloc = *self.shelf.slots.allocator();
        let Ok(mut units) = Vec::with_capacity(alloc, PAGES_AT_ONCE) else {
            return self.redo_units(disk, log, text, places, ops, steps);
        };
        let outcome = self.redo_groups(rt, &mut units, disk, log, text, places, ops, steps);
        units.destroy_empty();
        outcome
    }

    /// Whether these may be the places of a part of the log: each is of a page or a band of the
    /// store, and their numbers rise. `redo` asks for it.
    pub fn can_redo(&self, places: &[Place]) -> bool
        ensures { IsTrue result ↔ (All (λ p. p.unit < (sizes self.now).pages + (sizes self.now).bands) places.now × AreInOrder places.now) }
    {
        let units = self.shelf.pages + self.shelf.bands;
        places.iter().all(|place| place.unit < units) && are_in_order(places)
    }

    /// Repeats a part of the log: the records at these places of the text, which come in the order of
    /// the log, on all the pages and bands that they change, each unit's in their order. How many
    /// units these are isn't bounded by the frames: each comes into its frame or window as by `page`
    /// and `band`, and what has to make room goes home. The places are put in another order, by unit.
    /// Each place is one step. No frame is lent at any return. A place at which no whole record stands
    /// that changes a unit of its sort changes nothing.
    ///
    /// Pages are brought into frames up to 64 at a time, and then their records are repeated in at most four
    /// threads, each page's by one of them. Bands follow, one after another. The memory for what the pages are lent as
    /// is taken for this call. Where it is refused, or a page is in no frame any more, pages are done one after another.
    ///
    /// What is said of the moments of the call, and of the homes behind it, holds where the part is
    /// durable: where the log's buffer is empty and each record is below its gate, as at an opening.
    ///
    /// `Damaged` comes where a page of the part that had to be read is neither a page of slots nor
    /// all 0. Each unit is as it was then, or has all of its records repeated. `Disk` comes where the
    /// disk fails, and then nothing more is known of the pool.
    pub fn redo<R: Threads + Sync, D: Disk, L: Ledger>(
        &mut self,
        rt: &R,
        disk: &mut D,
        log: &mut Log,
        text: &[u8],
        places: &mut [Place],
        ops: &Ops,
        steps: &mut Steps<L>,
    ) -> Result<(), PoolFault>
        requires within { All (λ p. p.unit < (sizes self.old).pages + (sizes self.old).bands) places.old }
        requires order { AreInOrder places.old }
        requires known { AreKnown (table_of record_meaning range_meaning ops.now) text.now places.old }
        requires few { length places.old < 2 ^ 32 }
        ensures places { IsPermutation places.old places.new }
        ensures size { sizes self.new ≡ sizes self.old }
        ensures backed { IsTrue D.told → log.old.area ≢ Home → Backs (sizes self.old) (D.view disk.old) self.old →
            OnTold result (Backs (sizes self.old) (D.view disk.new) self.new) }
        // Each page and each band is what its own records of the part make of it.
        ensures redone { let rs = records_of (sizes self.old) (table_of record_meaning range_meaning ops.now) text.now places.old in
            IsTrue D.told → log.old.area ≢ Home → Backs (sizes self.old) (D.view disk.old) self.old →
            OnOk result (IsRedone (sizes self.old) rs (contents (D.view disk.old) self.old) (contents (D.view disk.new) self.new)) }
        ensures refused { let rs = records_of (sizes self.old) (table_of record_meaning range_meaning ops.now) text.now places.old in
            IsTrue D.told → log.old.area ≢ Home → Backs (sizes self.old) (D.view disk.old) self.old →
            OnErr result (OnTold result (ArePartlyRedone (sizes self.old) rs (contents (D.view disk.old) self.old) (contents (D.view disk.new) self.new))) }
        ensures homes { let rs = records_of (sizes self.old) (table_of record_meaning range_meaning ops.now) text.now places.old in
            (ds : List Numbered) → IsTrue D.told → log.old.area ≢ Home → Backs (sizes self.old) (D.view disk.old) self.old → IsDurable (D.view disk.old) log.old ds self.old places.old →
            OnTold result (AreHomesKnown (sizes self.old) ((D.view disk.new).now Home) rs (contents (D.view disk.old) self.old) (contents (D.view disk.new) self.new)) }
        ensures logged { (ds : List Numbered) → IsTrue D.told → log.old.area ≢ Home → Backs (sizes self.old) (D.view disk.old) self.old → IsDurable (D.view disk.old) log.old ds self.old places.old →
            OnTold result (IsLogged (tail_of log.old) (D.view disk.new) self.new) }
        ensures lasts { OnOk result (AreLastsRedone (sizes self.old) places.old self.old self.new) }
        ensures log_kept { (log.new ≡ log.old) ⊎ (log.new ≡ forced log.old) }
        // The pins are as they were.
        ensures pins { (f : ℕ) → lookup (nat_eq f) (uses self.new) ≡ lookup (nat_eq f) (uses self.old) }
        ensures count { window_count self.new ≡ window_count self.old }
        // A change that isn't on the disk is the oldest since its unit went home last.
        ensures untouched { let rs = records_of (sizes self.old) (table_of record_meaning range_meaning ops.now) text.now places.old in
            IsTrue D.told → log.old.area ≢ Home → Backs (sizes self.old) (D.view disk.old) self.old →
            OnTold result (AreHomesExact (sizes self.old) ((D.view disk.old).now Home).seen ((D.view disk.new).now Home).seen rs (contents (D.view disk.old) self.old) (contents (D.view disk.new) self.new)) }
        // The last change of a band that went home is durable.
        ensures gone { (ds : List Numbered) → IsTrue D.told → log.old.area ≢ Home → Backs (sizes self.old) (D.view disk.old) self.old → IsDurable (D.view disk.old) log.old ds self.old places.old →
            HaveGone log.old.gate self.old.shelf.wins self.new.shelf.wins }
        ensures log { (ds ps : List Numbered) → IsTrue D.told → log.old.area ≢ Home → Backs (sizes self.old) (D.view disk.old) self.old → Holds (D.view disk.old) log.old ds ps →
            OnTold result (IsSameOrForced (D.view disk.new) log.old log.new ds ps) }
        // At each moment, faults included.
        ensures moments { let rs = records_of (sizes self.old) (table_of record_meaning range_meaning ops.now) text.now places.old in
            (ds : List Numbered) → IsTrue D.told → log.old.area ≢ Home → Backs (sizes self.old) (D.view disk.old) self.old → IsDurable (D.view disk.old) log.old ds self.old places.old →
            LeavesOnly (D.view disk.old) (D.view disk.new) (IsRedoMoment (sizes self.old) (D.view disk.old) log.old ds (lasts self.old.shelf) rs (contents (D.view disk.old) self.old)) }
        // Where a page of the part was in no frame, `Ok` says that it is a page of slots or all 0, and `Damaged` that it is neither.
        ensures well { IsTrue D.told → log.old.area ≢ Home → Backs (sizes self.old) (D.view disk.old) self.old →
            OnOk result ((n : ℕ) → n < (sizes self.old).pages → places_of n places.old ≢ [] → frame_holding self.old n ≡ None → IsWell ((contents (D.view disk.old) self.old).page n)) }
        ensures faults { IfErr result (RedoFails D.told log.old.area (sizes self.old) (D.view disk.old) (D.view disk.new) self.old places.old) }
        ensures later { (D.view disk.old).faults ≤ (D.view disk.new).faults }
        ensures heeded { Heeds is_disk result (D.view disk.old) (D.view disk.new) }
        ensures kept { (D.view disk.old).handed ≤ (D.view disk.new).handed }
        ensures grown { HasGrown log.old log.new (D.view disk.old) (D.view disk.new) }
        ensures steps { OnOk result (steps.new ≡ steps.old + length places.old) }
        ensures fewer_steps { OnErr result ((steps.old ≤ steps.new) × (steps.new < steps.old + length places.old)) }
    {
        places.sort_unstable_by_key(|p| (p.unit, p.lsn));
        self.redo_sorted(rt, disk, log, text, places, ops, steps)
    }
}
