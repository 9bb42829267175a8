// What is asked of an engine beside its changes.
ghost use Rattle.std.specs.Prelude.{◌≡◌, ◌≤◌, ◌++◌, ℕ, List, length, take, IfOk, IfErr, OnErr, IsTrue};
ghost use Rattle.sg_base.specs.Ends.{HasRisen};
ghost use Rattle.sg_disk.specs.Heeds.{Heeds};
ghost use Rattle.sg_record.specs.Records.{Record, spelled};
ghost use Rattle.sg_record.specs.Ranges.{GREATEST, IsRecord};
ghost use Rattle.sg_record.specs.Shown.{shown};
ghost use Rattle.sg_log.specs.Frames.{Numbered};
ghost use Rattle.sg_log.specs.Held.{tail_of, place_of};
ghost use Rattle.sg_log.specs.Places.{StandsAt, IsRecordText};
ghost use Rattle.sg_pool.specs.Pooled.{sizes};
ghost use Rattle.sg_engine.specs.Engine.{Origin};
ghost use Rattle.sg_engine.specs.Running.{IsEngine, IsAllowed};
ghost use Rattle.sg_engine.specs.Calls.{StandsMeanwhile};
ghost use Rattle.sg_engine.specs.Faults.{is_disk};

use crate::{Engine, EngineFault};
use sg_base::Lsn;
use sg_disk::Disk;
use sg_record::Rec;

impl<D: Disk> Engine<D> {
    /// How many pages there are.
    pub fn pages(&self) -> u32
        ensures { result ≡ (sizes self.now.pool).pages }
    {
        self.pool.pages()
    }

    /// How many bands there are.
    pub fn bands(&self) -> u32
        ensures { result ≡ (sizes self.now.pool).bands }
    {
        self.pool.bands()
    }

    /// The number of the log's next byte.
    pub fn tail(&self) -> Lsn
        ensures { result ≡ tail_of self.now.log }
    {
        self.log.tail()
    }

    /// The number behind the last record that is durable.
    pub fn durable(&self) -> Lsn
        ensures { result ≡ self.now.log.gate }
    {
        self.log.durable()
    }

    /// The number that this record would have, if it were appended now.
    pub fn place(&self, r: &Rec<'_>) -> Lsn
        requires { IsRecord (shown r.now) }
        ensures { result ≡ place_of self.now.log (shown r.now) }
    {
        self.log.place(r)
    }

    /// Reads the record with this number to the front of a buffer, durable or not, and answers how many
    /// bytes it has.
    pub fn read(&mut self, at: Lsn, into: &mut [u8]) -> Result<usize, EngineFault>
        requires { GREATEST ≤ length into.old }
        ensures record { (o : Origin) (ds ps : List Numbered) (r : Record) → IsTrue D.told → IsEngine o (D.view self.old.disk) self.old.log ds ps self.old.pool → StandsAt (ds ++ ps) at r →
            IfOk result (λ n. take n into.new ≡ spelled r) }
        ensures is_record { IfOk result (λ n. IsRecordText (take n into.new) n) }
        ensures fault { IfErr result (λ e. e ≡ EngineFault.Disk) }
        ensures heeded { Heeds is_disk result (D.view self.old.disk) (D.view self.new.disk) }
        ensures failed { (o : Origin) (ds ps : List Numbered) (r : Record) → IsTrue D.told → IsEngine o (D.view self.old.disk) self.old.log ds ps self.old.pool → StandsAt (ds ++ ps) at r →
            OnErr result (HasRisen (D.view self.old.disk).faults (D.view self.new.disk).faults) }
        // Nothing has changed, also where it fails.
        ensures kept { (self.new.log ≡ self.old.log) × (self.new.pool ≡ self.old.pool) }
        ensures goes_on { (o : Origin) (ds ps : List Numbered) → IsTrue D.told → IsEngine o (D.view self.old.disk) self.old.log ds ps self.old.pool →
            IsEngine o (D.view self.new.disk) self.new.log ds ps self.new.pool }
        // A redo point that was allowed still is.
        ensures allowed { (o : Origin) (k : ℕ) → IsTrue D.told → IsAllowed o (D.view self.old.disk) self.old.log self.old.pool k →
            IsAllowed o (D.view self.new.disk) self.new.log self.new.pool k }
        ensures moments { StandsMeanwhile D.told (D.view self.old.disk) self.old.log self.old.pool (D.view self.new.disk) }
        ensures handed { (D.view self.new.disk).handed ≡ (D.view self.old.disk).handed }
        ensures later { (D.view self.old.disk).faults ≤ (D.view self.new.disk).faults }
    {
        match self.log.read(&mut self.disk, at, into) {
            Ok(size) => Ok(size),
            Err(_) => Err(EngineFault::Disk),
        }
    }
}
