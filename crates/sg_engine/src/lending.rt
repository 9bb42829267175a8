// Looks at pages and bands where they are held, in two steps: what brings one takes the engine whole,
// and the look itself borrows it.
ghost use Rattle.std.specs.Prelude.{◌≡◌, ◌⊎◌, ◌≤◌, ◌<◌, ◌++◌, ℕ, List, length, get_or, is_some, OnOk, IfErr, IsTrue};
ghost use Rattle.sg_base.specs.Ends.{HasRisen};
ghost use Rattle.sg_base.specs.declared.page.TheConstants.{BAND_SIZE};
ghost use Rattle.sg_disk.specs.Heeds.{Heeds};
ghost use Rattle.sg_gate.specs.Layout.{PAGE};
ghost use Rattle.sg_log.specs.Frames.{Numbered};
ghost use Rattle.sg_log.specs.Held.{forced};
ghost use Rattle.sg_pool.specs.Pooled.{sizes, contents, frame_holding, window_holding};
ghost use Rattle.sg_engine.specs.History.{made};
ghost use Rattle.sg_engine.specs.Engine.{Origin, entries};
ghost use Rattle.sg_engine.specs.Running.{IsEngine};
ghost use Rattle.sg_engine.specs.Faults.{is_disk};
ghost use Rattle.sg_engine.specs.Calls.{FailsByDisk, GoesOn, KeepsAllowed, StandsMeanwhile, Hands};

use crate::{Engine, EngineFault};
use sg_base::{BandNo, PageNo};
use sg_disk::Disk;

impl<D: Disk> Engine<D> {
    /// Brings a page to where it can be looked at.
    pub fn load_page(&mut self, p: PageNo) -> Result<(), EngineFault>
        requires page { p.0 < (sizes self.old.pool).pages }
        ensures held { OnOk result (IsTrue (is_some (frame_holding self.new.pool p.0))) }
        ensures size { sizes self.new.pool ≡ sizes self.old.pool }
        ensures fault { IfErr result (λ e. e ≡ EngineFault.Disk) }
        ensures log_kept { OnOk result ((self.new.log ≡ self.old.log) ⊎ (self.new.log ≡ forced self.old.log)) }
        ensures failed { FailsByDisk D.told (D.view self.old.disk) self.old.log self.old.pool (D.view self.new.disk) result }
        ensures heeded { Heeds is_disk result (D.view self.old.disk) (D.view self.new.disk) }
        ensures goes_on { GoesOn D.told (D.view self.old.disk) self.old.log self.old.pool (D.view self.new.disk) self.new.log self.new.pool result }
        ensures allowed { KeepsAllowed D.told (D.view self.old.disk) self.old.log self.old.pool (D.view self.new.disk) self.new.log self.new.pool result }
        ensures moments { StandsMeanwhile D.told (D.view self.old.disk) self.old.log self.old.pool (D.view self.new.disk) }
        ensures later { (D.view self.old.disk).faults ≤ (D.view self.new.disk).faults }
        ensures grown { Hands (D.view self.old.disk) self.old.log (D.view self.new.disk) self.new.log }
    {
        match self.pool.page(&mut self.disk, &mut self.log, p) {
            Ok(_bytes) => Ok(()),
            Err(_) => Err(EngineFault::Disk),
        }
    }

    /// A page that was brought: its bytes as the records made it.
    pub fn page(&self, p: PageNo) -> &[u8]
        requires page { p.0 < (sizes self.now.pool).pages }
        requires held { IsTrue (is_some (frame_holding self.now.pool p.0)) }
        ensures size { length result.now ≡ PAGE }
        ensures held { result.now ≡ (contents (D.view self.now.disk) self.now.pool).page p.0 }
        ensures bytes { (o : Origin) (ds ps : List Numbered) → IsEngine o (D.view self.now.disk) self.now.log ds ps self.now.pool →
            result.now ≡ (made (entries o (ds ++ ps)) o.first).page p.0 }
    {
        self.pool.held(p)
    }

    /// Brings a band to where it can be looked at.
    pub fn load_band(&mut self, b: BandNo) -> Result<(), EngineFault>
        requires band { b.0 < (sizes self.old.pool).bands }
        ensures held { OnOk result (IsTrue (is_some (window_holding self.new.pool b.0))) }
        ensures size { sizes self.new.pool ≡ sizes self.old.pool }
        ensures fault { IfErr result (λ e. e ≡ EngineFault.Disk) }
        ensures log_kept { OnOk result ((self.new.log ≡ self.old.log) ⊎ (self.new.log ≡ forced self.old.log)) }
        ensures failed { result ≡ Err EngineFault.Disk → HasRisen (D.view self.old.disk).faults (D.view self.new.disk).faults }
        ensures heeded { Heeds is_disk result (D.view self.old.disk) (D.view self.new.disk) }
        ensures goes_on { GoesOn D.told (D.view self.old.disk) self.old.log self.old.pool (D.view self.new.disk) self.new.log self.new.pool result }
        ensures allowed { KeepsAllowed D.told (D.view self.old.disk) self.old.log self.old.pool (D.view self.new.disk) self.new.log self.new.pool result }
        ensures moments { StandsMeanwhile D.told (D.view self.old.disk) self.old.log self.old.pool (D.view self.new.disk) }
        ensures later { (D.view self.old.disk).faults ≤ (D.view self.new.disk).faults }
        ensures grown { Hands (D.view self.old.disk) self.old.log (D.view self.new.disk) self.new.log }
    {
        match self.pool.band(&mut self.disk, &mut self.log, b) {
            Ok(_bytes) => Ok(()),
            Err(_) => Err(EngineFault::Disk),
        }
    }

    /// A band that was brought: its bytes as the records made it.
    pub fn band(&self, b: BandNo) -> &[u8]
        requires band { b.0 < (sizes self.now.pool).bands }
        requires held { IsTrue (is_some (window_holding self.now.pool b.0)) }
        ensures size { length result.now ≡ BAND_SIZE }
        ensures held { (i : ℕ) → i < BAND_SIZE → get_or result.now i 0 ≡ (contents (D.view self.now.disk) self.now.pool).byte b.0 i }
        ensures bytes { (o : Origin) (ds ps : List Numbered) → IsEngine o (D.view self.now.disk) self.now.log ds ps self.now.pool →
            (i : ℕ) → i < BAND_SIZE → get_or result.now i 0 ≡ (made (entries o (ds ++ ps)) o.first).byte b.0 i }
    {
        self.pool.held_band(b)
    }

    /// Copies a page: its bytes as the records made it.
    pub fn read_page(&mut self, p: PageNo, into: &mut [u8]) -> Result<(), EngineFault>
        requires page { p.0 < (sizes self.old.pool).pages }
        requires size { length into.old ≡ PAGE }
        ensures size { sizes self.new.pool ≡ sizes self.old.pool }
        ensures fault { IfErr result (λ e. e ≡ EngineFault.Disk) }
        ensures log_kept { OnOk result ((self.new.log ≡ self.old.log) ⊎ (self.new.log ≡ forced self.old.log)) }
        ensures failed { FailsByDisk D.told (D.view self.old.disk) self.old.log self.old.pool (D.view self.new.disk) result }
        ensures heeded { Heeds is_disk result (D.view self.old.disk) (D.view self.new.disk) }
        ensures bytes { (o : Origin) (ds ps : List Numbered) → IsTrue D.told → IsEngine o (D.view self.old.disk) self.old.log ds ps self.old.pool →
            OnOk result (into.new ≡ (made (entries o (ds ++ ps)) o.first).page p.0) }
        ensures goes_on { GoesOn D.told (D.view self.old.disk) self.old.log self.old.pool (D.view self.new.disk) self.new.log self.new.pool result }
        ensures allowed { KeepsAllowed D.told (D.view self.old.disk) self.old.log self.old.pool (D.view self.new.disk) self.new.log self.new.pool result }
        ensures moments { StandsMeanwhile D.told (D.view self.old.disk) self.old.log self.old.pool (D.view self.new.disk) }
        ensures later { (D.view self.old.disk).faults ≤ (D.view self.new.disk).faults }
        ensures grown { Hands (D.view self.old.disk) self.old.log (D.view self.new.disk) self.new.log }
    {
        match self.load_page(p) {
            Ok(()) => {
                into.copy_from_slice(self.page(p));
                Ok(())
            }
            Err(fault) => Err(fault),
        }
    }

    /// Copies a band: its bytes as the records made it.
    pub fn read_band(&mut self, b: BandNo, into: &mut [u8]) -> Result<(), EngineFault>
        requires band { b.0 < (sizes self.old.pool).bands }
        requires size { length into.old ≡ BAND_SIZE }
        ensures size { sizes self.new.pool ≡ sizes self.old.pool }
        ensures fault { IfErr result (λ e. e ≡ EngineFault.Disk) }
        ensures log_kept { OnOk result ((self.new.log ≡ self.old.log) ⊎ (self.new.log ≡ forced self.old.log)) }
        ensures failed { result ≡ Err EngineFault.Disk → HasRisen (D.view self.old.disk).faults (D.view self.new.disk).faults }
        ensures heeded { Heeds is_disk result (D.view self.old.disk) (D.view self.new.disk) }
        ensures bytes { (o : Origin) (ds ps : List Numbered) → IsTrue D.told → IsEngine o (D.view self.old.disk) self.old.log ds ps self.old.pool →
            OnOk result ((i : ℕ) → i < BAND_SIZE → get_or into.new i 0 ≡ (made (entries o (ds ++ ps)) o.first).byte b.0 i) }
        ensures goes_on { GoesOn D.told (D.view self.old.disk) self.old.log self.old.pool (D.view self.new.disk) self.new.log self.new.pool result }
        ensures allowed { KeepsAllowed D.told (D.view self.old.disk) self.old.log self.old.pool (D.view self.new.disk) self.new.log self.new.pool result }
        ensures moments { StandsMeanwhile D.told (D.view self.old.disk) self.old.log self.old.pool (D.view self.new.disk) }
        ensures later { (D.view self.old.disk).faults ≤ (D.view self.new.disk).faults }
        ensures grown { Hands (D.view self.old.disk) self.old.log (D.view self.new.disk) self.new.log }
    {
        match self.load_band(b) {
            Ok(()) => {
                into.copy_from_slice(self.band(b));
                Ok(())
            }
            Err(fault) => Err(fault),
        }
    }
}
