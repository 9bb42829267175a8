// The log's front is cut off.
ghost use Rattle.std.specs.Prelude.{◌≡◌, ◌⊎◌, ◌≤◌, ◌<◌, ◌+◌, ◌^◌, [], ℕ, List, length, OnOk, OnErr, IfOk, IfErr, IsTrue};
ghost use Rattle.sg_base.specs.Ends.{HasRisen};
ghost use Rattle.sg_disk.specs.Disk.{LeavesOnly};
ghost use Rattle.sg_disk.specs.Heeds.{Heeds};
ghost use Rattle.sg_gate.specs.Superblock.{IsSuper};
ghost use Rattle.sg_log.specs.Cut.{cut_to};
ghost use Rattle.sg_log.specs.Frames.{Numbered};
ghost use Rattle.sg_engine.specs.Engine.{Origin};
ghost use Rattle.sg_engine.specs.Faults.{is_disk};
ghost use Rattle.sg_engine.specs.Running.{IsEngine, IsAllowed};
ghost use Rattle.sg_engine.specs.Cut.{super_at, next_stand, IsCutting, IsCutOff};

use crate::{Engine, EngineFault};
use sg_base::{Area, Lsn};
use sg_disk::Disk;
use sg_gate::{Super, renew};
use std::snapshot::Snapshot;

// The superblock of the store once its log begins at this number, in the other area.
fn next_super(s: &Super, base: Lsn) -> Super
    requires range { IsSuper s.now }
    requires newer { s.now.sequence + 2 < 2 ^ 64 }
    requires base { base ≤ 2 ^ 63 }
    ensures next { result ≡ super_at s.now (next_stand s.now base) }
    ensures range { IsSuper result }
{
    let log = if s.log == 0 { 1 } else { 0 };
    Super {
        sequence: s.sequence + 1,
        pages: s.pages,
        bands: s.bands,
        frames: s.frames,
        windows: s.windows,
        log,
        base,
    }
}

impl<D: Disk> Engine<D> {
    /// The number of the log's first byte.
    pub fn base(&self) -> Lsn
        ensures { result ≡ self.now.log.base }
    {
        self.log.base()
    }

    /// The area in which the log stands.
    pub fn area(&self) -> Area
        ensures { result ≡ self.now.log.area }
    {
        self.log.area()
    }

    /// The disk as it is now, for clauses to read. It has no bytes.
    pub fn snapshot(&self) -> Snapshot<D>
        ensures { result.value ≡ self.now.disk }
    {
        Snapshot::of(&self.disk)
    }

    /// Cuts the log off in front of the frame that holds a durable byte, and answers the superblock that
    /// counts then. Where that is the first frame, nothing is done. `s` is the superblock so far, and the
    /// buffer is empty.
    ///
    /// The frames are copied to the other area and made durable there. Then the superblock is renewed, and
    /// after that the area from before is dropped: at every moment the superblock that counts names an area
    /// with all of its records. After `Disk` the engine is told no more.
    pub fn cut(&mut self, s: &Super, point: Lsn) -> Result<Super, EngineFault>
        requires range { IsSuper s.now }
        requires newer { s.now.sequence + 2 < 2 ^ 64 }
        requires front { self.old.log.base ≤ point }
        requires before { point < self.old.log.gate }
        ensures fault { IfErr result (λ e. e ≡ EngineFault.Disk) }
        ensures failed { (o : Origin) (ds : List Numbered) → IsTrue D.told → IsEngine o (D.view self.old.disk) self.old.log ds [] self.old.pool →
            OnErr result (HasRisen (D.view self.old.disk).faults (D.view self.new.disk).faults) }
        // Where no change is older than the point, the engine runs on without the records that are gone.
        ensures cuts { (o : Origin) (ds : List Numbered) → IsTrue D.told → s.now ≡ o.super → IsEngine o (D.view self.old.disk) self.old.log ds [] self.old.pool → length self.old.log.buffer ≡ 0 →
            IsAllowed o (D.view self.old.disk) self.old.log self.old.pool point → IfOk result (IsCutOff o (D.view self.new.disk) self.new.log self.new.pool self.old.log.base point ds) }
        // A redo point that was allowed still is.
        ensures allowed { (o : Origin) (ds : List Numbered) (k : ℕ) → IsTrue D.told → s.now ≡ o.super → IsEngine o (D.view self.old.disk) self.old.log ds [] self.old.pool → length self.old.log.buffer ≡ 0 →
            IsAllowed o (D.view self.old.disk) self.old.log self.old.pool point → IsAllowed o (D.view self.old.disk) self.old.log self.old.pool k → OnOk result (IsAllowed o (D.view self.new.disk) self.new.log self.new.pool k) }
        // At each moment, faults included.
        ensures moments { (o : Origin) (ds : List Numbered) → IsTrue D.told → s.now ≡ o.super → IsEngine o (D.view self.old.disk) self.old.log ds [] self.old.pool → length self.old.log.buffer ≡ 0 →
            IsAllowed o (D.view self.old.disk) self.old.log self.old.pool point → LeavesOnly (D.view self.old.disk) (D.view self.new.disk) (IsCutting o (D.view self.old.disk) self.old.log self.old.pool point ds) }
        ensures heeded { Heeds is_disk result (D.view self.old.disk) (D.view self.new.disk) }
        ensures later { (D.view self.old.disk).faults ≤ (D.view self.new.disk).faults }
        // The log ends where it ended, and the pool is as it was.
        ensures log { OnOk result ((self.new.log ≡ self.old.log) ⊎ (self.new.log ≡ cut_to self.new.log.base self.old.log)) }
        ensures range { IfOk result IsSuper }
        ensures pool { self.new.pool ≡ self.old.pool }
        ensures kept { (D.view self.old.disk).handed ≤ (D.view self.new.disk).handed }
    {
        let area = self.log.area();
        let base = self.log.base();
        match self.log.cut(&mut self.disk, point) {
            Ok(()) => {}
            Err(_) => return Err(EngineFault::Disk),
        }
        let now = self.log.base();
        if now == base {
            return Ok(*s);
        }
        let next = next_super(s, now);
        match renew(&mut self.disk, &next) {
            Ok(()) => {}
            Err(_) => return Err(EngineFault::Disk),
        }
        match self.disk.drop_from(area, 0) {
            Ok(()) => {}
            Err(_) => return Err(EngineFault::Disk),
        }
        match self.disk.sync(area) {
            Ok(()) => Ok(next),
            Err(_) => Err(EngineFault::Disk),
        }
    }
}
