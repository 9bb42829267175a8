ghost use Rattle.std.specs.Prelude.{◌≡◌, ◌≢◌, ◌⊎◌, ◌≤◌, ◌<◌, ◌+◌, ◌++◌, [], ℕ, List, Some, None, length, get_or, slice_set, OnOk, OnErr, IfErr, IsTrue};
ghost use Rattle.sg_base.specs.Ends.{HasRisen};
ghost use Rattle.sg_base.specs.declared.area.Area.TheVariants.{Home};
ghost use Rattle.sg_base.specs.declared.page.TheConstants.{BAND_SIZE};
ghost use Rattle.sg_disk.specs.Disk.{Leaves, LeavesOnly, Counts, ReadBytes};
ghost use Rattle.sg_disk.specs.Heeds.{Heeds};
ghost use Rattle.sg_log.specs.Frames.{Numbered};
ghost use Rattle.sg_log.specs.Held.{Holds, tail_of, forced};
ghost use Rattle.sg_gate.specs.Batch.{IsReady, SameLogs};
ghost use Rattle.sg_gate.specs.Layout.{HEADER};
ghost use Rattle.sg_window.specs.Runs.{IsTorn};
ghost use Rattle.sg_pool.specs.Counts.{HasGrown, is_disk};
ghost use Rattle.sg_pool.specs.Units.{IsBacked, IsCleaned, band_byte};
ghost use Rattle.sg_pool.specs.Frames.{AreLastsKept, HaveGone, AreChangesKept};
ghost use Rattle.sg_pool.specs.Held.{frame_of, page_in, since_of};
ghost use Rattle.sg_pool.specs.Windows.{no_marks, marked_in, last_in};
ghost use Rattle.sg_pool.specs.Bands.{IsDirty, AreBandsWritten, AreBandsHome, AreCleared};
ghost use Rattle.sg_pool.specs.Moments.{IsSameOrForced, IsMoment};
ghost use Rattle.sg_pool.specs.Untouched.{IsUntouched};

use crate::PoolFault;
use crate::settle::make_durable;
use crate::shelf::Shelf;
use sg_base::{Area, BandNo, Failed};
use sg_disk::Disk;
use sg_gate::band_start;
use sg_log::Log;
use sg_window::write_runs;

impl Shelf {
    ghost use Rattle.sg_pool.specs.Shelves.{geometry_of, units_at, IsBackedAt, lasts, AreLogged, IsWindowDurable};

    // Writes the marked bytes of a window's band home.
    fn write_window<D: Disk>(&self, disk: &mut D, w: u32) -> Result<(), PoolFault>
        requires there { w < length self.now.wins.slots.items }
        ensures done { IsTrue D.told → OnOk result (AreBandsWritten (geometry_of self.now) self.now.wins self.now.frames.windows w (w + 1) (D.view disk.old).now (D.view disk.new).now) }
        ensures any_moment { IsTrue D.told → LeavesOnly (D.view disk.old) (D.view disk.new) (IsTorn (D.view disk.old).now (IsDirty (geometry_of self.now) self.now.wins w (w + 1))) }
        ensures later { (D.view disk.old).faults ≤ (D.view disk.new).faults }
        ensures heeded { Heeds is_disk result (D.view disk.old) (D.view disk.new) }
        ensures kept { (D.view disk.old).handed ≤ (D.view disk.new).handed }
        ensures failed { OnErr result (HasRisen (D.view disk.old).faults (D.view disk.new).faults) }
        ensures fault { IfErr result (λ e. e ≡ PoolFault.Disk) }
    {
        let slot = self.wins.slots[w as usize];
        let Some(b) = slot.number else {
            return Ok(());
        };
        let start = band_start(self.pages, BandNo(b));
        match write_runs(
            disk,
            start,
            self.frames.window(w),
            &self.wins.marks[w as usize].dirty,
        ) {
            Ok(()) => Ok(()),
            Err(_) => Err(PoolFault::Disk),
        }
    }

    // Writes the marked bytes of the bands in the windows from `from` on and below `to` home.
    fn write_windows<D: Disk>(&self, disk: &mut D, from: u32, to: u32) -> Result<(), PoolFault>
        requires order { from ≤ to }
        requires within { to ≤ length self.now.wins.slots.items }
        ensures done { IsTrue D.told → OnOk result (AreBandsWritten (geometry_of self.now) self.now.wins self.now.frames.windows from to (D.view disk.old).now (D.view disk.new).now) }
        ensures any_moment { IsTrue D.told → LeavesOnly (D.view disk.old) (D.view disk.new) (IsTorn (D.view disk.old).now (IsDirty (geometry_of self.now) self.now.wins from to)) }
        ensures later { (D.view disk.old).faults ≤ (D.view disk.new).faults }
        ensures heeded { Heeds is_disk result (D.view disk.old) (D.view disk.new) }
        ensures kept { (D.view disk.old).handed ≤ (D.view disk.new).handed }
        ensures failed { OnErr result (HasRisen (D.view disk.old).faults (D.view disk.new).faults) }
        ensures fault { IfErr result (λ e. e ≡ PoolFault.Disk) }
    {
        'windows: for w in from..to {
            self.write_window(disk, w)?;
        }
        Ok(())
    }

    // Writes them home, and syncs the home area.
    pub(crate) fn sync_windows<D: Disk>(
        &self,
        disk: &mut D,
        from: u32,
        to: u32,
    ) -> Result<(), PoolFault>
        requires order { from ≤ to }
        requires within { to ≤ length self.now.wins.slots.items }
        ensures home { IsTrue D.told → IsReady ((D.view disk.old).now Home) → OnOk result (AreBandsHome (geometry_of self.now) self.now.wins self.now.frames.windows from to ((D.view disk.old).now Home) ((D.view disk.new).now Home)) }
        ensures logs { IsTrue D.told → OnOk result (SameLogs (D.view disk.old).now (D.view disk.new).now) }
        ensures any_moment { IsTrue D.told → LeavesOnly (D.view disk.old) (D.view disk.new) (IsTorn (D.view disk.old).now (IsDirty (geometry_of self.now) self.now.wins from to)) }
        ensures later { (D.view disk.old).faults ≤ (D.view disk.new).faults }
        ensures heeded { Heeds is_disk result (D.view disk.old) (D.view disk.new) }
        ensures kept { (D.view disk.old).handed ≤ (D.view disk.new).handed }
        ensures failed { OnErr result (HasRisen (D.view disk.old).faults (D.view disk.new).faults) }
        ensures fault { IfErr result (λ e. e ≡ PoolFault.Disk) }
    {
        self.write_windows(disk, from, to)?;
        match disk.sync(Area::Home) {
            Ok(()) => Ok(()),
            Err(_) => Err(PoolFault::Disk),
        }
    }

    // Writes a window's band home, if it was changed, once its last change is durable.
    fn write_back_window<D: Disk>(
        &self,
        disk: &mut D,
        log: &mut Log,
        w: u32,
    ) -> Result<(), PoolFault>
        requires there { w < length self.now.wins.slots.items }
        ensures home { IsTrue D.told → log.old.area ≢ Home → IsBackedAt (geometry_of self.now) (D.view disk.old) self.now →
            OnOk result (AreBandsHome (geometry_of self.now) self.now.wins self.now.frames.windows w (w + 1) ((D.view disk.old).now Home) ((D.view disk.new).now Home)) }
        ensures log { (ds ps : List Numbered) → IsTrue D.told → log.old.area ≢ Home → Holds (D.view disk.old) log.old ds ps → OnOk result (IsSameOrForced (D.view disk.new) log.old log.new ds ps) }
        ensures moments { (ds ps : List Numbered) → IsTrue D.told → log.old.area ≢ Home → IsReady ((D.view disk.old).now Home) → Holds (D.view disk.old) log.old ds ps →
            AreLogged (tail_of log.old) self.now → LeavesOnly (D.view disk.old) (D.view disk.new) (IsMoment (geometry_of self.now) (D.view disk.old) log.old ds ps (lasts self.now) (units_at (D.view disk.old) self.now)) }
        ensures gone { AreLogged (tail_of log.old) self.now → OnOk result ((o : ℕ) → since_of self.now.wins.slots.items (Some w) ≡ Some o → last_in self.now.wins.marks.items (Some w) < log.new.gate) }
        ensures log_kept { (log.new ≡ log.old) ⊎ (log.new ≡ forced log.old) }
        // A change that is durable needs no force.
        ensures spared { IsWindowDurable log.old.gate self.now w → log.new ≡ log.old }
        ensures later { (D.view disk.old).faults ≤ (D.view disk.new).faults }
        ensures heeded { Heeds is_disk result (D.view disk.old) (D.view disk.new) }
        ensures kept { (D.view disk.old).handed ≤ (D.view disk.new).handed }
        ensures grown { HasGrown log.old log.new (D.view disk.old) (D.view disk.new) }
        ensures failed { OnErr result (HasRisen (D.view disk.old).faults (D.view disk.new).faults) }
        ensures fault { IfErr result (λ e. e ≡ PoolFault.Disk) }
    {
        let slot = self.wins.slots[w as usize];
        if slot.since.is_none() {
            return Ok(());
        }
        make_durable(disk, log, self.wins.marks[w as usize].last)?;
        self.sync_windows(disk, w, w + 1)
    }

    // Makes a window clean: its band goes home, if it was changed.
    fn clean_window<D: Disk>(
        &mut self,
        disk: &mut D,
        log: &mut Log,
        w: u32,
    ) -> Result<(), PoolFault>
        requires there { w < length self.old.wins.slots.items }
        ensures clear { OnOk result (AreCleared self.old.wins self.new.wins w (w + 1)) }
        ensures frames { self.new.frames ≡ self.old.frames }
        ensures slots { self.new.slots.items ≡ self.old.slots.items }
        ensures lasts { AreLastsKept self.old.wins self.new.wins }
        ensures geometry { geometry_of self.new ≡ geometry_of self.old }
        ensures backed { IsTrue D.told → log.old.area ≢ Home → IsBackedAt (geometry_of self.old) (D.view disk.old) self.old →
            OnOk result (IsBackedAt (geometry_of self.old) (D.view disk.new) self.new) }
        ensures units { IsTrue D.told → log.old.area ≢ Home → IsBackedAt (geometry_of self.old) (D.view disk.old) self.old →
            OnOk result (IsCleaned (geometry_of self.old) (units_at (D.view disk.old) self.old) (units_at (D.view disk.new) self.new)) }
        ensures log { (ds ps : List Numbered) → IsTrue D.told → log.old.area ≢ Home → Holds (D.view disk.old) log.old ds ps → OnOk result (IsSameOrForced (D.view disk.new) log.old log.new ds ps) }
        ensures moments { (ds ps : List Numbered) → IsTrue D.told → log.old.area ≢ Home → IsReady ((D.view disk.old).now Home) → Holds (D.view disk.old) log.old ds ps →
            AreLogged (tail_of log.old) self.old → LeavesOnly (D.view disk.old) (D.view disk.new) (IsMoment (geometry_of self.old) (D.view disk.old) log.old ds ps (lasts self.old) (units_at (D.view disk.old) self.old)) }
        ensures gone { AreLogged (tail_of log.old) self.old → OnOk result (HaveGone log.new.gate self.old.wins self.new.wins) }
        ensures log_kept { (log.new ≡ log.old) ⊎ (log.new ≡ forced log.old) }
        ensures spared { IsWindowDurable log.old.gate self.old w → log.new ≡ log.old }
        ensures count { length self.new.wins.slots.items ≡ length self.old.wins.slots.items }
        ensures untouched { IsTrue D.told → log.old.area ≢ Home → IsBackedAt (geometry_of self.old) (D.view disk.old) self.old →
            OnOk result (IsUntouched (geometry_of self.old) ((D.view disk.old).now Home).seen ((D.view disk.new).now Home).seen (units_at (D.view disk.new) self.new)) }
        ensures later { (D.view disk.old).faults ≤ (D.view disk.new).faults }
        ensures heeded { Heeds is_disk result (D.view disk.old) (D.view disk.new) }
        ensures kept { (D.view disk.old).handed ≤ (D.view disk.new).handed }
        ensures grown { HasGrown log.old log.new (D.view disk.old) (D.view disk.new) }
        ensures failed { OnErr result (HasRisen (D.view disk.old).faults (D.view disk.new).faults) }
        ensures fault { IfErr result (λ e. e ≡ PoolFault.Disk) }
    {
        self.write_back_window(disk, log, w)?;
        self.wins.clear(w as usize, w as usize + 1);
        Ok(())
    }

    // Reads a band's home into a window.
    fn read_band<D: Disk>(&mut self, disk: &mut D, w: u32, b: u32) -> Result<(), Failed>
        requires there { w < length self.old.wins.slots.items }
        requires band { b < self.old.bands }
        ensures wins { self.new.wins ≡ self.old.wins }
        ensures slots { self.new.slots.items ≡ self.old.slots.items }
        ensures geometry { geometry_of self.new ≡ geometry_of self.old }
        ensures pages { self.new.frames.pages ≡ self.old.frames.pages }
        ensures others { (v : ℕ) → v ≢ w → get_or self.new.frames.windows v [] ≡ get_or self.old.frames.windows v [] }
        ensures bytes { IsTrue D.told → OnOk result ((i : ℕ) → i < BAND_SIZE → get_or (get_or self.new.frames.windows w []) i 0 ≡ ((D.view disk.old).now Home).seen (band_byte (geometry_of self.old) b i)) }
        ensures counts { Counts 0 (D.view disk.old) (D.view disk.new) result }
        ensures does { IsTrue D.told → ReadBytes (D.view disk.old) (D.view disk.new) result }
        ensures unchanged { IsTrue D.told → (D.view disk.new).now ≡ (D.view disk.old).now }
    {
        let start = band_start(self.pages, BandNo(b));
        disk.read_at(Area::Home, start, self.frames.window_mut(w))
    }

    // Puts a band into a clean window.
    fn load_band<D: Disk>(&mut self, disk: &mut D, w: u32, b: u32) -> Result<(), PoolFault>
        requires there { w < length self.old.wins.slots.items }
        requires band { b < self.old.bands }
        requires absent { frame_of self.old.wins.slots.items b ≡ None }
        requires clean { since_of self.old.wins.slots.items (Some w) ≡ None }
        ensures held { OnOk result (frame_of self.new.wins.slots.items b ≡ Some w) }
        ensures others { OnOk result ((v : ℕ) → v ≢ w → page_in self.new.wins.slots.items v ≡ page_in self.old.wins.slots.items v) }
        ensures slots { self.new.slots.items ≡ self.old.slots.items }
        ensures lasts { AreLastsKept self.old.wins self.new.wins }
        ensures count { length self.new.wins.slots.items ≡ length self.old.wins.slots.items }
        ensures changes { OnOk result (AreChangesKept self.old.wins self.new.wins) }
        ensures geometry { geometry_of self.new ≡ geometry_of self.old }
        ensures pages { self.new.frames.pages ≡ self.old.frames.pages }
        ensures backed { IsTrue D.told → IsBackedAt (geometry_of self.old) (D.view disk.old) self.old →
            OnOk result (IsBackedAt (geometry_of self.old) (D.view disk.new) self.new) }
        ensures units { IsTrue D.told → IsBackedAt (geometry_of self.old) (D.view disk.old) self.old →
            OnOk result (IsCleaned (geometry_of self.old) (units_at (D.view disk.old) self.old) (units_at (D.view disk.new) self.new)) }
        ensures unchanged { IsTrue D.told → (D.view disk.new).now ≡ (D.view disk.old).now }
        ensures moments { IsTrue D.told → LeavesOnly (D.view disk.old) (D.view disk.new) (Leaves (D.view disk.old).now) }
        ensures later { (D.view disk.old).faults ≤ (D.view disk.new).faults }
        ensures heeded { Heeds is_disk result (D.view disk.old) (D.view disk.new) }
        ensures kept { (D.view disk.old).handed ≤ (D.view disk.new).handed }
        ensures failed { OnErr result (HasRisen (D.view disk.old).faults (D.view disk.new).faults) }
        ensures fault { IfErr result (λ e. e ≡ PoolFault.Disk) }
    {
        match self.read_band(disk, w, b) {
            Ok(()) => {}
            Err(_) => return Err(PoolFault::Disk),
        }
        self.wins.put(w, b);
        Ok(())
    }

    // Puts a band into a window, whose own band goes home first where it was changed.
    pub(crate) fn bring_band<D: Disk>(
        &mut self,
        disk: &mut D,
        log: &mut Log,
        w: u32,
        b: u32,
    ) -> Result<(), PoolFault>
        requires there { w < length self.old.wins.slots.items }
        requires band { b < self.old.bands }
        requires absent { frame_of self.old.wins.slots.items b ≡ None }
        ensures held { OnOk result (frame_of self.new.wins.slots.items b ≡ Some w) }
        ensures others { OnOk result ((v : ℕ) → v ≢ w → page_in self.new.wins.slots.items v ≡ page_in self.old.wins.slots.items v) }
        ensures slots { self.new.slots.items ≡ self.old.slots.items }
        ensures lasts { AreLastsKept self.old.wins self.new.wins }
        ensures geometry { geometry_of self.new ≡ geometry_of self.old }
        ensures pages { self.new.frames.pages ≡ self.old.frames.pages }
        ensures backed { IsTrue D.told → log.old.area ≢ Home → IsBackedAt (geometry_of self.old) (D.view disk.old) self.old →
            OnOk result (IsBackedAt (geometry_of self.old) (D.view disk.new) self.new) }
        ensures units { IsTrue D.told → log.old.area ≢ Home → IsBackedAt (geometry_of self.old) (D.view disk.old) self.old →
            OnOk result (IsCleaned (geometry_of self.old) (units_at (D.view disk.old) self.old) (units_at (D.view disk.new) self.new)) }
        ensures log { (ds ps : List Numbered) → IsTrue D.told → log.old.area ≢ Home → Holds (D.view disk.old) log.old ds ps → OnOk result (IsSameOrForced (D.view disk.new) log.old log.new ds ps) }
        ensures moments { (ds ps : List Numbered) → IsTrue D.told → log.old.area ≢ Home → IsReady ((D.view disk.old).now Home) → Holds (D.view disk.old) log.old ds ps →
            AreLogged (tail_of log.old) self.old → LeavesOnly (D.view disk.old) (D.view disk.new) (IsMoment (geometry_of self.old) (D.view disk.old) log.old ds ps (lasts self.old) (units_at (D.view disk.old) self.old)) }
        ensures gone { AreLogged (tail_of log.old) self.old → OnOk result (HaveGone log.new.gate self.old.wins self.new.wins) }
        ensures log_kept { (log.new ≡ log.old) ⊎ (log.new ≡ forced log.old) }
        ensures home { IsTrue D.told → log.old.area ≢ Home → IsBackedAt (geometry_of self.old) (D.view disk.old) self.old →
            OnOk result ((i : ℕ) → i < BAND_SIZE → ((D.view disk.new).now Home).seen (band_byte (geometry_of self.old) b i) ≡ ((D.view disk.old).now Home).seen (band_byte (geometry_of self.old) b i)) }
        ensures spared { IsWindowDurable log.old.gate self.old w → log.new ≡ log.old }
        ensures count { length self.new.wins.slots.items ≡ length self.old.wins.slots.items }
        ensures untouched { IsTrue D.told → log.old.area ≢ Home → IsBackedAt (geometry_of self.old) (D.view disk.old) self.old →
            OnOk result (IsUntouched (geometry_of self.old) ((D.view disk.old).now Home).seen ((D.view disk.new).now Home).seen (units_at (D.view disk.new) self.new)) }
        ensures later { (D.view disk.old).faults ≤ (D.view disk.new).faults }
        ensures heeded { Heeds is_disk result (D.view disk.old) (D.view disk.new) }
        ensures kept { (D.view disk.old).handed ≤ (D.view disk.new).handed }
        ensures grown { HasGrown log.old log.new (D.view disk.old) (D.view disk.new) }
        ensures failed { OnErr result (HasRisen (D.view disk.old).faults (D.view disk.new).faults) }
        ensures fault { IfErr result (λ e. e ≡ PoolFault.Disk) }
    {
        self.clean_window(disk, log, w)?;
        self.load_band(disk, w, b)
    }

    // Writes all changed bands home, and marks them clean.
    pub(crate) fn flush_windows<D: Disk>(&mut self, disk: &mut D) -> Result<(), PoolFault>
        ensures clear { OnOk result (AreCleared self.old.wins self.new.wins 0 (length self.old.wins.slots.items)) }
        ensures bands { (w : ℕ) → page_in self.new.wins.slots.items w ≡ page_in self.old.wins.slots.items w }
        ensures count { length self.new.wins.slots.items ≡ length self.old.wins.slots.items }
        ensures slots { self.new.slots.items ≡ self.old.slots.items }
        ensures frames { self.new.frames ≡ self.old.frames }
        ensures logged { (tail : ℕ) → AreLogged tail self.old → AreLogged tail self.new }
        ensures geometry { geometry_of self.new ≡ geometry_of self.old }
        ensures backed { IsTrue D.told → IsBackedAt (geometry_of self.old) (D.view disk.old) self.old →
            OnOk result (IsBackedAt (geometry_of self.old) (D.view disk.new) self.new) }
        ensures units { IsTrue D.told → IsReady ((D.view disk.old).now Home) →
            OnOk result (IsCleaned (geometry_of self.old) (units_at (D.view disk.old) self.old) (units_at (D.view disk.new) self.new)) }
        ensures logs { IsTrue D.told → OnOk result (SameLogs (D.view disk.old).now (D.view disk.new).now) }
        ensures superblock { IsTrue D.told → IsReady ((D.view disk.old).now Home) → OnOk result ((i : ℕ) → i < HEADER → ((D.view disk.new).now Home).seen i ≡ ((D.view disk.old).now Home).seen i) }
        ensures any_moment { IsTrue D.told → LeavesOnly (D.view disk.old) (D.view disk.new) (IsTorn (D.view disk.old).now (IsDirty (geometry_of self.old) self.old.wins 0 (length self.old.wins.slots.items))) }
        ensures later { (D.view disk.old).faults ≤ (D.view disk.new).faults }
        ensures heeded { Heeds is_disk result (D.view disk.old) (D.view disk.new) }
        ensures kept { (D.view disk.old).handed ≤ (D.view disk.new).handed }
        ensures failed { OnErr result (HasRisen (D.view disk.old).faults (D.view disk.new).faults) }
        ensures fault { IfErr result (λ e. e ≡ PoolFault.Disk) }
    {
        let count = self.wins.slots.len();
        self.sync_windows(disk, 0, count as u32)?;
        self.wins.clear(0, count);
        Ok(())
    }
}
