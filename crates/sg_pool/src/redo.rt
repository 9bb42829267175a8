// Redo: the records of a part of the log are repeated on the units that they change.
ghost use Rattle.std.specs.Prelude.{◌≡◌, ◌≢◌, ◌⊎◌, ◌≤◌, ◌<◌, ◌+◌, ◌^◌, ◌++◌, [], ℕ, List, Some, None, length, OnOk, OnErr, IfOk, IfErr, IsTrue};
ghost use Rattle.sg_base.specs.Ends.{HasRisen};
ghost use Rattle.sg_base.specs.declared.area.Area.TheVariants.{Home};
ghost use Rattle.sg_disk.specs.Disk.{LeavesOnly};
ghost use Rattle.sg_disk.specs.Heeds.{Heeds};
ghost use Rattle.sg_gate.specs.Batch.{IsReady};
ghost use Rattle.sg_log.specs.Frames.{Numbered};
ghost use Rattle.sg_log.specs.Held.{Holds, tail_of, forced};
ghost use Rattle.sg_ops.specs.Table.{table_of};
ghost use Rattle.sg_redo.specs.Places.{page_records, window_records};
ghost use Rattle.sg_redo.specs.Units.{AreKnown};
ghost use Rattle.sg_pool.specs.Counts.{HasGrown, is_disk};
ghost use Rattle.sg_pool.specs.Frames.{HaveGone};
ghost use Rattle.sg_pool.specs.Moments.{IsSameOrForced};
ghost use Rattle.sg_pool.specs.Order.{IsVictim};
ghost use Rattle.sg_pool.specs.Repeated.{last_lsn, IsCleanedThenPageRepeated, IsCleanedThenBandRepeated};
ghost use Rattle.sg_pool.specs.Untouched.{IsUntouched};
ghost use Rattle.sg_pool.specs.Well.{IsWell};

use crate::{Pool, PoolFault};
use sg_base::{BandNo, PageNo, Steps};
use sg_disk::Disk;
use sg_log::Log;
use sg_ops::Ops;
use sg_redo::Place;
use std::sync::ledger::Ledger;

impl Pool {
    ghost use Rattle.sg_pool.specs.Lending.{IsBrought, IsEmptied};
    ghost use Rattle.sg_pool.specs.Pooled.{sizes, contents, frame_holding, window_holding, window_count, next_window, uses, Backs, SameContents, IsLogged, IsPoolMoment, SameWindows, SameFrames, IsBandBrought, last_of, OthersKeepLasts};
    ghost use Rattle.sg_pool.specs.Shelves.{OnTold, BringFails, AreLogged, IsFrameDurable, IsWindowDurable};

    /// Repeats the records at these places of the text on a page, in their order, through a loan of
    /// its frame: each is done where the page's number is smaller and its operation fits. The page
    /// stays changed in its frame until it goes home. Each place is one step.
    ///
    /// The page comes into a frame as by `page`, with the same refusals.
    pub fn redo_page<D: Disk, L: Ledger>(
        &mut self,
        disk: &mut D,
        log: &mut Log,
        p: PageNo,
        text: &[u8],
        places: &[Place],
        ops: &Ops,
        steps: &mut Steps<L>,
    ) -> Result<(), PoolFault>
        requires page { p.0 < (sizes self.old).pages }
        requires known { AreKnown (table_of record_meaning range_meaning ops.now) text.now places.now }
        requires few { length places.now < 2 ^ 32 }
        ensures brought { IfOk result (λ _. (f : ℕ) × IsBrought p.0 self.old self.new f) }
        // No frame but the victim's has lost its page.
        ensures emptied { OnErr result (IsEmptied self.old self.new) }
        ensures unused { OnErr result (uses self.new ≡ uses self.old) }
        ensures windows { SameWindows self.old self.new }
        ensures size { sizes self.new ≡ sizes self.old }
        ensures backed { IsTrue D.told → log.old.area ≢ Home → Backs (sizes self.old) (D.view disk.old) self.old →
            OnTold result (Backs (sizes self.old) (D.view disk.new) self.new) }
        ensures repeated { IsTrue D.told → log.old.area ≢ Home → Backs (sizes self.old) (D.view disk.old) self.old →
            OnOk result (IsCleanedThenPageRepeated (sizes self.old) ((D.view disk.new).now Home) p.0 (page_records (table_of record_meaning range_meaning ops.now) text.now places.now) (contents (D.view disk.old) self.old) (contents (D.view disk.new) self.new)) }
        ensures refused { IsTrue D.told → log.old.area ≢ Home → Backs (sizes self.old) (D.view disk.old) self.old →
            OnErr result (OnTold result (SameContents (D.view disk.old) self.old (D.view disk.new) self.new)) }
        ensures log_kept { (log.new ≡ log.old) ⊎ (log.new ≡ forced log.old) }
        // A page that is in a frame costs no call.
        ensures hit { frame_holding self.old p.0 ≢ None → (disk.new ≡ disk.old) × (log.new ≡ log.old) }
        // The log is forced only where the victim's page has a change that isn't durable.
        ensures spared { frame_holding self.old p.0 ≡ None → (f : ℕ) × IsVictim (uses self.old) f × (IsFrameDurable log.old.gate self.old.shelf f → log.new ≡ log.old) }
        ensures durable { IsLogged log.old.gate (D.view disk.old) self.old → log.new ≡ log.old }
        // The home area is touched only where a unit went home.
        ensures untouched { IsTrue D.told → log.old.area ≢ Home → Backs (sizes self.old) (D.view disk.old) self.old →
            OnTold result (IsUntouched (sizes self.old) ((D.view disk.old).now Home).seen ((D.view disk.new).now Home).seen (contents (D.view disk.new) self.new)) }
        ensures log { (ds ps : List Numbered) → IsTrue D.told → log.old.area ≢ Home → IsReady ((D.view disk.old).now Home) → Holds (D.view disk.old) log.old ds ps →
            OnTold result (IsSameOrForced (D.view disk.new) log.old log.new ds ps) }
        // At each moment, faults included.
        ensures moments { (ds ps : List Numbered) → IsTrue D.told → log.old.area ≢ Home → IsReady ((D.view disk.old).now Home) → Holds (D.view disk.old) log.old ds ps →
            IsLogged (tail_of log.old) (D.view disk.old) self.old → LeavesOnly (D.view disk.old) (D.view disk.new) (IsPoolMoment (D.view disk.old) self.old log.old ds ps) }
        // Where the page was in no frame, `Ok` says that it is a page of slots or all 0, and `Damaged` that it is neither.
        ensures well { IsTrue D.told → log.old.area ≢ Home → Backs (sizes self.old) (D.view disk.old) self.old → frame_holding self.old p.0 ≡ None →
            OnOk result (IsWell ((contents (D.view disk.old) self.old).page p.0)) }
        ensures faults { IfErr result (λ e. BringFails D.told log.old.area p.0 (D.view disk.old) (D.view disk.new) self.old.shelf e) }
        ensures later { (D.view disk.old).faults ≤ (D.view disk.new).faults }
        ensures heeded { Heeds is_disk result (D.view disk.old) (D.view disk.new) }
        ensures kept { (D.view disk.old).handed ≤ (D.view disk.new).handed }
        ensures grown { HasGrown log.old log.new (D.view disk.old) (D.view disk.new) }
        ensures steps { OnOk result (steps.new ≡ steps.old + length places.now) }
        ensures no_steps { OnErr result (steps.new ≡ steps.old) }
    {
        let f = self.hold(disk, log, p.0)?;
        self.shelf.repeat_page(f, places, text, ops, steps);
        Ok(())
    }

    /// Repeats the records at these places of the text on a band, of which there is one at least, in
    /// their order, through a loan of its window: their bytes are written over it, whatever stood
    /// there, and exactly these are marked besides. They stay in the band's window until it goes home.
    /// Each place is one step.
    ///
    /// The band comes into a window as by `band`, with the same refusal.
    pub fn redo_band<D: Disk, L: Ledger>(
        &mut self,
        disk: &mut D,
        log: &mut Log,
        b: BandNo,
        text: &[u8],
        places: &[Place],
        ops: &Ops,
        steps: &mut Steps<L>,
    ) -> Result<(), PoolFault>
        requires band { b.0 < (sizes self.old).bands }
        requires known { AreKnown (table_of record_meaning range_meaning ops.now) text.now places.now }
        requires few { length places.now < 2 ^ 32 }
        requires some { 0 < length places.now }
        ensures brought { IfOk result (λ _. (w : ℕ) × IsBandBrought b.0 self.old self.new w) }
        ensures frames { SameFrames self.old self.new }
        // Where the last record is in the log, the last change of each band is.
        ensures logged { (tail : ℕ) → AreLogged tail self.old.shelf → last_lsn places.now < tail → AreLogged tail self.new.shelf }
        ensures size { sizes self.new ≡ sizes self.old }
        ensures backed { IsTrue D.told → log.old.area ≢ Home → Backs (sizes self.old) (D.view disk.old) self.old →
            OnOk result (Backs (sizes self.old) (D.view disk.new) self.new) }
        ensures repeated { IsTrue D.told → log.old.area ≢ Home → Backs (sizes self.old) (D.view disk.old) self.old →
            OnOk result (IsCleanedThenBandRepeated (sizes self.old) ((D.view disk.new).now Home) b.0 (window_records (table_of record_meaning range_meaning ops.now) text.now places.now) (contents (D.view disk.old) self.old) (contents (D.view disk.new) self.new)) }
        ensures last { OnOk result (last_of self.new b.0 ≡ last_lsn places.now) }
        // No other band that has a change that isn't on the disk has another last one than before.
        ensures lasts { OthersKeepLasts b.0 self.old self.new }
        ensures log_kept { (log.new ≡ log.old) ⊎ (log.new ≡ forced log.old) }
        // A band that is in a window costs no call.
        ensures hit { window_holding self.old b.0 ≢ None → (disk.new ≡ disk.old) × (log.new ≡ log.old) }
        // The log is forced only where the band that makes room has a change that isn't durable.
        ensures spared { window_holding self.old b.0 ≡ None → IsWindowDurable log.old.gate self.old.shelf (next_window self.old) → log.new ≡ log.old }
        ensures durable { AreLogged log.old.gate self.old.shelf → log.new ≡ log.old }
        // Bands come into the windows in turn.
        ensures turn { window_holding self.old b.0 ≡ None → OnOk result (window_holding self.new b.0 ≡ Some (next_window self.old)) }
        ensures count { window_count self.new ≡ window_count self.old }
        // The home area is touched only where a unit went home.
        ensures untouched { IsTrue D.told → log.old.area ≢ Home → Backs (sizes self.old) (D.view disk.old) self.old →
            OnOk result (IsUntouched (sizes self.old) ((D.view disk.old).now Home).seen ((D.view disk.new).now Home).seen (contents (D.view disk.new) self.new)) }
        // The last change of a band that went home is durable.
        ensures gone { AreLogged (tail_of log.old) self.old.shelf → OnOk result (HaveGone log.new.gate self.old.shelf.wins self.new.shelf.wins) }
        ensures log { (ds ps : List Numbered) → IsTrue D.told → log.old.area ≢ Home → Holds (D.view disk.old) log.old ds ps → OnTold result (IsSameOrForced (D.view disk.new) log.old log.new ds ps) }
        // At each moment, faults included.
        ensures moments { (ds ps : List Numbered) → IsTrue D.told → log.old.area ≢ Home → IsReady ((D.view disk.old).now Home) → Holds (D.view disk.old) log.old ds ps →
            IsLogged (tail_of log.old) (D.view disk.old) self.old → LeavesOnly (D.view disk.old) (D.view disk.new) (IsPoolMoment (D.view disk.old) self.old log.old ds ps) }
        ensures fault { IfErr result (λ e. e ≡ PoolFault.Disk) }
        ensures failed { OnErr result (HasRisen (D.view disk.old).faults (D.view disk.new).faults) }
        ensures later { (D.view disk.old).faults ≤ (D.view disk.new).faults }
        ensures heeded { Heeds is_disk result (D.view disk.old) (D.view disk.new) }
        ensures kept { (D.view disk.old).handed ≤ (D.view disk.new).handed }
        ensures grown { HasGrown log.old log.new (D.view disk.old) (D.view disk.new) }
        ensures steps { OnOk result (steps.new ≡ steps.old + length places.now) }
        ensures no_steps { OnErr result (steps.new ≡ steps.old) }
    {
        let w = self.hold_band(disk, log, b.0)?;
        self.shelf.repeat_band(w, places, text, ops, steps);
        Ok(())
    }
}
