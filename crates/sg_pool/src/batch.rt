ghost use Rattle.std.specs.Prelude.{◌≡◌, ◌≢◌, ◌⊎◌, ◌≤◌, ◌<◌, ◌+◌, ◌++◌, ◌∷◌, [], ℕ, List, Some, None, length, take, get_or, OnOk, OnErr, IfOk, IfErr, IfSome, IsTrue};
ghost use Rattle.sg_base.specs.Ends.{HasRisen};
ghost use Rattle.sg_base.specs.declared.area.Area.TheVariants.{Home};
ghost use Rattle.sg_disk.specs.Disk.{LeavesOnly};
ghost use Rattle.sg_disk.specs.Heeds.{Heeds};
ghost use Rattle.sg_log.specs.Frames.{Numbered};
ghost use Rattle.sg_log.specs.Held.{Holds, tail_of, forced};
ghost use Rattle.sg_gate.specs.Batch.{IsReady, IsWhole, SameLogs};
ghost use Rattle.sg_pool.specs.Counts.{HasGrown, is_disk};
ghost use Rattle.sg_pool.specs.Units.{IsBacked, IsCleaned, IsBelow};
ghost use Rattle.sg_pool.specs.Held.{frame_of, page_in, since_of};
ghost use Rattle.sg_pool.specs.Bands.{AreCleared};
ghost use Rattle.sg_pool.specs.Moments.{IsMoment};
ghost use Rattle.sg_pool.specs.Batches.{AreCollected, ArePlaced, AreHome, IsPartly, IsBatchMoment};
ghost use Rattle.sg_pool.specs.Untouched.{IsUntouched};

use crate::PoolFault;
use crate::clear::clear_since;
use crate::shelf::Shelf;
use sg_disk::Disk;
use sg_gate::{finish, place};
use sg_log::Log;

impl Shelf {
    ghost use Rattle.sg_pool.specs.Shelves.{geometry_of, units_at, IsBackedAt, lasts, AreLogged, IsSameShelf};

    // Puts a frame's page at place k, if it was changed, and puts its number behind the first k. Answers how many
    // numbers there are then.
    fn place_frame<D: Disk>(
        &self,
        disk: &mut D,
        f: u32,
        k: usize,
        numbers: &mut [u32],
    ) -> Result<usize, PoolFault>
        requires there { f < length self.now.slots.items }
        requires place { k < 32 }
        requires room { length numbers.old ≡ 32 }
        ensures collected { (from : ℕ) → AreCollected self.now.slots.items from f (take k numbers.old) → IfOk result (λ n. (n ≤ k + 1) × AreCollected self.now.slots.items from (f + 1) (take n numbers.new)) }
        ensures placed { (from : ℕ) → IsTrue D.told → AreCollected self.now.slots.items from f (take k numbers.old) → IsReady ((D.view disk.old).now Home) →
            IfOk result (λ n. (p : _) → ArePlaced self.now.slots.items self.now.frames.pages (take k numbers.old) p ((D.view disk.old).now Home) → ArePlaced self.now.slots.items self.now.frames.pages (take n numbers.new) p ((D.view disk.new).now Home)) }
        ensures logs { IsTrue D.told → OnOk result (SameLogs (D.view disk.old).now (D.view disk.new).now) }
        ensures moments { (pages : ℕ) → IsTrue D.told → IsReady ((D.view disk.old).now Home) → LeavesOnly (D.view disk.old) (D.view disk.new) (IsWhole (D.view disk.old).now pages ((D.view disk.old).now Home).seen) }
        ensures later { (D.view disk.old).faults ≤ (D.view disk.new).faults }
        ensures heeded { Heeds is_disk result (D.view disk.old) (D.view disk.new) }
        ensures kept { (D.view disk.old).handed ≤ (D.view disk.new).handed }
        ensures failed { OnErr result (HasRisen (D.view disk.old).faults (D.view disk.new).faults) }
        ensures fault { IfErr result (λ e. e ≡ PoolFault.Disk) }
    {
        let slot = self.slots[f as usize];
        if slot.since.is_none() {
            return Ok(k);
        }
        let Some(n) = slot.number else {
            return Ok(k);
        };
        match place(disk, k as u32, self.frames.page(f)) {
            Ok(()) => {}
            Err(_) => return Err(PoolFault::Disk),
        }
        numbers[k] = n;
        Ok(k + 1)
    }

    // Writes changed pages of the frames from `from` on home, 32 at most, as one batch. Answers the frame behind.
    fn write_batch<D: Disk>(&self, disk: &mut D, from: u32) -> Result<u32, PoolFault>
        requires from { from ≤ length self.now.slots.items }
        ensures onward { IfOk result (λ to. (to ≤ length self.now.slots.items) × (from ≤ to) × (from < length self.now.slots.items → from < to)) }
        ensures done { IsTrue D.told → IsReady ((D.view disk.old).now Home) → IfOk result (λ to. AreHome (geometry_of self.now) self.now.slots.items self.now.frames.pages from to ((D.view disk.old).now Home) ((D.view disk.new).now Home)) }
        ensures logs { IsTrue D.told → IsReady ((D.view disk.old).now Home) → OnOk result (SameLogs (D.view disk.old).now (D.view disk.new).now) }
        ensures moments { IsTrue D.told → IsReady ((D.view disk.old).now Home) → LeavesOnly (D.view disk.old) (D.view disk.new) (IsBatchMoment (geometry_of self.now) self.now.slots.items self.now.frames.pages (D.view disk.old).now) }
        ensures later { (D.view disk.old).faults ≤ (D.view disk.new).faults }
        ensures heeded { Heeds is_disk result (D.view disk.old) (D.view disk.new) }
        ensures kept { (D.view disk.old).handed ≤ (D.view disk.new).handed }
        ensures failed { OnErr result (HasRisen (D.view disk.old).faults (D.view disk.new).faults) }
        ensures fault { IfErr result (λ e. e ≡ PoolFault.Disk) }
    {
        let mut numbers = [0; 32];
        let mut count = 0;
        let mut f = from;
        let end = self.slots.len() as u32;
        'frames: while f < end && count < 32 {
            count = self.place_frame(disk, f, count, &mut numbers)?;
            f += 1;
        }
        if count == 0 {
            return Ok(f);
        }
        match finish(disk, self.pages, &numbers[..count]) {
            Ok(()) => Ok(f),
            Err(_) => Err(PoolFault::Disk),
        }
    }

    // Writes one batch home from frame `from` on, and marks its pages clean. Answers the frame behind.
    pub(crate) fn flush_batch<D: Disk>(&mut self, disk: &mut D, from: u32) -> Result<u32, PoolFault>
        requires from { from ≤ length self.old.slots.items }
        ensures onward { IfOk result (λ to. (to ≤ length self.old.slots.items) × (from ≤ to) × (from < length self.old.slots.items → from < to)) }
        ensures cleared { IfOk result (λ to. (h : ℕ) → from ≤ h → h < to → since_of self.new.slots.items (Some h) ≡ None) }
        ensures others { IfOk result (λ to. (h : ℕ) → (h < from) ⊎ (to ≤ h) → since_of self.new.slots.items (Some h) ≡ since_of self.old.slots.items (Some h)) }
        ensures count { length self.new.slots.items ≡ length self.old.slots.items }
        ensures pages { (h : ℕ) → page_in self.new.slots.items h ≡ page_in self.old.slots.items h }
        ensures holders { (n : ℕ) → frame_of self.new.slots.items n ≡ frame_of self.old.slots.items n }
        ensures frames { self.new.frames ≡ self.old.frames }
        ensures wins { self.new.wins ≡ self.old.wins }
        ensures geometry { geometry_of self.new ≡ geometry_of self.old }
        ensures backed { IsTrue D.told → IsBackedAt (geometry_of self.old) (D.view disk.old) self.old →
            OnOk result (IsBackedAt (geometry_of self.old) (D.view disk.new) self.new) }
        ensures partly { IsTrue D.told → IsReady ((D.view disk.old).now Home) →
            OnOk result (IsReady ((D.view disk.new).now Home) × IsPartly (geometry_of self.old) self.old.slots.items self.old.frames.pages ((D.view disk.old).now Home).seen ((D.view disk.new).now Home).seen) }
        ensures units { IsTrue D.told → IsReady ((D.view disk.old).now Home) →
            OnOk result (IsCleaned (geometry_of self.old) (units_at (D.view disk.old) self.old) (units_at (D.view disk.new) self.new)) }
        ensures logs { IsTrue D.told → IsReady ((D.view disk.old).now Home) → OnOk result (SameLogs (D.view disk.old).now (D.view disk.new).now) }
        ensures moments { IsTrue D.told → IsReady ((D.view disk.old).now Home) → LeavesOnly (D.view disk.old) (D.view disk.new) (IsBatchMoment (geometry_of self.old) self.old.slots.items self.old.frames.pages (D.view disk.old).now) }
        ensures later { (D.view disk.old).faults ≤ (D.view disk.new).faults }
        ensures heeded { Heeds is_disk result (D.view disk.old) (D.view disk.new) }
        ensures kept { (D.view disk.old).handed ≤ (D.view disk.new).handed }
        ensures failed { OnErr result (HasRisen (D.view disk.old).faults (D.view disk.new).faults) }
        ensures fault { IfErr result (λ e. e ≡ PoolFault.Disk) }
    {
        let to = self.write_batch(disk, from)?;
        clear_since(&mut self.slots, from as usize, to as usize);
        Ok(to)
    }

    // Writes all changed pages home, batch by batch.
    fn flush_pages<D: Disk>(&mut self, disk: &mut D) -> Result<(), PoolFault>
        ensures clean { OnOk result ((h : ℕ) → since_of self.new.slots.items (Some h) ≡ None) }
        ensures kept { IsSameShelf self.old self.new }
        ensures backed { IsTrue D.told → IsBackedAt (geometry_of self.old) (D.view disk.old) self.old →
            OnOk result (IsBackedAt (geometry_of self.old) (D.view disk.new) self.new) }
        ensures units { IsTrue D.told → IsReady ((D.view disk.old).now Home) →
            OnOk result (IsCleaned (geometry_of self.old) (units_at (D.view disk.old) self.old) (units_at (D.view disk.new) self.new)) }
        ensures partly { IsTrue D.told → IsReady ((D.view disk.old).now Home) →
            OnOk result (IsReady ((D.view disk.new).now Home) × IsPartly (geometry_of self.old) self.old.slots.items self.old.frames.pages ((D.view disk.old).now Home).seen ((D.view disk.new).now Home).seen) }
        ensures logs { IsTrue D.told → IsReady ((D.view disk.old).now Home) → OnOk result (SameLogs (D.view disk.old).now (D.view disk.new).now) }
        ensures moments { IsTrue D.told → IsReady ((D.view disk.old).now Home) → LeavesOnly (D.view disk.old) (D.view disk.new) (IsBatchMoment (geometry_of self.old) self.old.slots.items self.old.frames.pages (D.view disk.old).now) }
        ensures later { (D.view disk.old).faults ≤ (D.view disk.new).faults }
        ensures heeded { Heeds is_disk result (D.view disk.old) (D.view disk.new) }
        ensures handed { (D.view disk.old).handed ≤ (D.view disk.new).handed }
        ensures failed { OnErr result (HasRisen (D.view disk.old).faults (D.view disk.new).faults) }
        ensures fault { IfErr result (λ e. e ≡ PoolFault.Disk) }
    {
        let mut from = 0;
        let end = self.slots.len() as u32;
        'batches: while from < end {
            from = self.flush_batch(disk, from)?;
        }
        Ok(())
    }

    // Makes the log durable, and writes all changed pages home, and then all changed bands.
    pub(crate) fn flush<D: Disk>(&mut self, disk: &mut D, log: &mut Log) -> Result<(), PoolFault>
        ensures clean { OnOk result ((h : ℕ) → since_of self.new.slots.items (Some h) ≡ None) }
        ensures clear { OnOk result (AreCleared self.old.wins self.new.wins 0 (length self.old.wins.slots.items)) }
        ensures count { length self.new.slots.items ≡ length self.old.slots.items }
        ensures pages { (h : ℕ) → page_in self.new.slots.items h ≡ page_in self.old.slots.items h }
        ensures bands { (w : ℕ) → page_in self.new.wins.slots.items w ≡ page_in self.old.wins.slots.items w }
        ensures frames { self.new.frames ≡ self.old.frames }
        ensures logged { (tail : ℕ) → AreLogged tail self.old → AreLogged tail self.new }
        ensures geometry { geometry_of self.new ≡ geometry_of self.old }
        ensures backed { IsTrue D.told → log.old.area ≢ Home → IsBackedAt (geometry_of self.old) (D.view disk.old) self.old →
            OnOk result (IsBackedAt (geometry_of self.old) (D.view disk.new) self.new) }
        ensures units { IsTrue D.told → log.old.area ≢ Home → IsReady ((D.view disk.old).now Home) →
            OnOk result (IsCleaned (geometry_of self.old) (units_at (D.view disk.old) self.old) (units_at (D.view disk.new) self.new)) }
        ensures log { OnOk result (log.new ≡ forced log.old) }
        ensures count_windows { length self.new.wins.slots.items ≡ length self.old.wins.slots.items }
        ensures untouched { IsTrue D.told → log.old.area ≢ Home → IsReady ((D.view disk.old).now Home) →
            OnOk result (IsUntouched (geometry_of self.old) ((D.view disk.old).now Home).seen ((D.view disk.new).now Home).seen (units_at (D.view disk.new) self.new)) }
        ensures holds { (ds ps : List Numbered) → IsTrue D.told → log.old.area ≢ Home → IsReady ((D.view disk.old).now Home) → Holds (D.view disk.old) log.old ds ps → OnOk result (Holds (D.view disk.new) log.new (ds ++ ps) []) }
        ensures moments { (ds ps : List Numbered) → IsTrue D.told → log.old.area ≢ Home → IsBackedAt (geometry_of self.old) (D.view disk.old) self.old → Holds (D.view disk.old) log.old ds ps →
            IsBelow (geometry_of self.old) (tail_of log.old) (units_at (D.view disk.old) self.old) → AreLogged (tail_of log.old) self.old →
            LeavesOnly (D.view disk.old) (D.view disk.new) (IsMoment (geometry_of self.old) (D.view disk.old) log.old ds ps (lasts self.old) (units_at (D.view disk.old) self.old)) }
        ensures later { (D.view disk.old).faults ≤ (D.view disk.new).faults }
        ensures heeded { Heeds is_disk result (D.view disk.old) (D.view disk.new) }
        ensures kept { (D.view disk.old).handed ≤ (D.view disk.new).handed }
        ensures grown { HasGrown log.old log.new (D.view disk.old) (D.view disk.new) }
        ensures failed { OnErr result (HasRisen (D.view disk.old).faults (D.view disk.new).faults) }
        ensures fault { IfErr result (λ e. e ≡ PoolFault.Disk) }
    {
        match log.force(disk) {
            Ok(()) => {}
            Err(_) => return Err(PoolFault::Disk),
        }
        self.flush_pages(disk)?;
        self.flush_windows(disk)
    }
}
