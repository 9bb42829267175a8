ghost use Rattle.std.specs.Prelude.{◌≡◌, ◌⊎◌, ◌≤◌, ◌<◌, ◌+◌, ◌++◌, ◌∷◌, [], ℕ, List, length, OnOk, IfOk, IfErr, IsTrue};
ghost use Rattle.sg_base.specs.Ends.{HasRisen};
ghost use Rattle.sg_base.specs.Op.{op_of};
ghost use Rattle.sg_base.specs.declared.page.TheConstants.{BAND_SIZE};
ghost use Rattle.sg_disk.specs.Heeds.{Heeds};
ghost use Rattle.sg_record.specs.Ranges.{IsRecord};
ghost use Rattle.sg_record.specs.Shown.{shown};
ghost use Rattle.sg_log.specs.Frames.{Numbered, LOG_END};
ghost use Rattle.sg_log.specs.Held.{place_of, end_of, tail_of, numbered, forced, has_room, appended};
ghost use Rattle.sg_ops.specs.Table.{table_of};
ghost use Rattle.sg_pool.specs.Pooled.{sizes, IsUnwritten};
ghost use Rattle.sg_engine.specs.Engine.{Origin};
ghost use Rattle.sg_engine.specs.Running.{IsEngine, IsAllowed, DoesToPage, DoesToBand, DoesNothing};
ghost use Rattle.sg_engine.specs.Calls.{FailsByDisk, MakesDurable, KeepsAllowed, StandsMeanwhile, GoesOnWith, StandsWith, Hands, WaitsFrame};
ghost use Rattle.sg_engine.specs.Faults.{is_disk};

use crate::EngineFault;
use crate::fault::fault_of;
use sg_base::{BandNo, Lsn, PageNo, PageOp};
use sg_disk::Disk;
use sg_log::Log;
use sg_ops::Ops;
use sg_pool::Pool;
use sg_record::Rec;

/// A disk, the log of the changes of its pages and bands, and the pool that holds them.
///
/// It isn't `Drop`, as its pool isn't. After `EngineFault::Disk` nothing more is known of it, but that
/// its calls return and are safe, and which disk it has.
pub struct Engine<D: Disk> {
    pub(crate) disk: D,
    pub(crate) log: Log,
    pub(crate) pool: Pool,
}

impl<D: Disk> Engine<D> {
    /// The engine of a log and a pool that were opened on this disk.
    pub fn of_parts(disk: D, log: Log, pool: Pool) -> Engine<D>
        ensures disk { result.disk ≡ disk }
        ensures log { result.log ≡ log }
        ensures pool { result.pool ≡ pool }
    {
        Engine { disk, log, pool }
    }

    /// Gives the pool's memory back, and hands back the disk as it is, with its count of faults.
    /// Records that weren't forced are lost.
    pub fn into_disk(self) -> D
        ensures { result ≡ self.disk }
    {
        let Engine { disk, log, pool } = self;
        drop(log);
        pool.end();
        disk
    }

    /// Appends a record that changes no page and no band, and answers its number.
    ///
    /// `LogEnd` comes exactly where the record would end above byte 2^63 of the log; nothing has changed
    /// then.
    pub fn append(&mut self, r: &Rec<'_>) -> Result<Lsn, EngineFault>
        requires range { IsRecord (shown r.now) }
        ensures lsn { IfOk result (λ lsn. lsn ≡ place_of self.old.log (shown r.now)) }
        ensures tail { OnOk result (tail_of self.new.log ≡ end_of self.old.log (shown r.now)) }
        ensures full { LOG_END < end_of self.old.log (shown r.now) → result ≡ Err EngineFault.LogEnd }
        ensures log_end { result ≡ Err EngineFault.LogEnd → LOG_END < end_of self.old.log (shown r.now) }
        ensures unchanged { result ≡ Err EngineFault.LogEnd → self.new ≡ self.old }
        ensures failed { result ≡ Err EngineFault.Disk → HasRisen (D.view self.old.disk).faults (D.view self.new.disk).faults }
        ensures heeded { Heeds is_disk result (D.view self.old.disk) (D.view self.new.disk) }
        ensures goes_on { GoesOnWith D.told (D.view self.old.disk) self.old.log self.old.pool (D.view self.new.disk) self.new.log self.new.pool (numbered self.old.log (shown r.now)) (λ o ns. DoesNothing o ns (numbered self.old.log (shown r.now))) result }
        ensures log { OnOk result (self.new.log ≡ appended self.old.log (shown r.now)) }
        // The disk is called only where the record doesn't fit the buffer.
        ensures no_call { IsTrue (has_room self.old.log (shown r.now)) → self.new.disk ≡ self.old.disk }
        ensures pool { self.new.pool ≡ self.old.pool }
        ensures allowed { KeepsAllowed D.told (D.view self.old.disk) self.old.log self.old.pool (D.view self.new.disk) self.new.log self.new.pool result }
        // The record itself isn't durable before the next force.
        ensures moments { StandsMeanwhile D.told (D.view self.old.disk) self.old.log self.old.pool (D.view self.new.disk) }
        ensures handed { (D.view self.new.disk).handed ≤ (D.view self.old.disk).handed + length self.old.log.buffer + 6 }
        ensures later { (D.view self.old.disk).faults ≤ (D.view self.new.disk).faults }
        ensures grown { Hands (D.view self.old.disk) self.old.log (D.view self.new.disk) self.new.log }
    {
        match self.log.append(&mut self.disk, r) {
            Ok(lsn) => Ok(lsn),
            Err(fault) => Err(fault_of(fault)),
        }
    }

    /// Makes all records durable.
    pub fn force(&mut self) -> Result<(), EngineFault>
        ensures fault { IfErr result (λ e. e ≡ EngineFault.Disk) }
        ensures log { OnOk result (self.new.log ≡ forced self.old.log) }
        ensures failed { result ≡ Err EngineFault.Disk → HasRisen (D.view self.old.disk).faults (D.view self.new.disk).faults }
        ensures heeded { Heeds is_disk result (D.view self.old.disk) (D.view self.new.disk) }
        ensures goes_on { MakesDurable D.told (D.view self.old.disk) self.old.log self.old.pool (D.view self.new.disk) self.new.log self.new.pool result }
        ensures pool { self.new.pool ≡ self.old.pool }
        ensures allowed { KeepsAllowed D.told (D.view self.old.disk) self.old.log self.old.pool (D.view self.new.disk) self.new.log self.new.pool result }
        ensures moments { StandsMeanwhile D.told (D.view self.old.disk) self.old.log self.old.pool (D.view self.new.disk) }
        ensures handed { (D.view self.new.disk).handed ≤ (D.view self.old.disk).handed + length self.old.log.buffer + 6 }
        ensures later { (D.view self.old.disk).faults ≤ (D.view self.new.disk).faults }
        ensures grown { Hands (D.view self.old.disk) self.old.log (D.view self.new.disk) self.new.log }
    {
        match self.log.force(&mut self.disk) {
            Ok(()) => Ok(()),
            Err(_) => Err(EngineFault::Disk),
        }
    }

    /// Appends the record of an operation on a page, and does it to the page. The layer above answers
    /// for it that the record says this operation on this page, and that the operation fits.
    ///
    /// `LogEnd` comes as from `append`.
    pub fn change_page(
        &mut self,
        r: &Rec<'_>,
        p: PageNo,
        op: &PageOp<'_>,
        ops: &Ops,
    ) -> Result<Lsn, EngineFault>
        requires range { IsRecord (shown r.now) }
        requires page { p.0 < (sizes self.old.pool).pages }
        ensures lsn { IfOk result (λ lsn. lsn ≡ place_of self.old.log (shown r.now)) }
        ensures tail { OnOk result (tail_of self.new.log ≡ end_of self.old.log (shown r.now)) }
        ensures full { LOG_END < end_of self.old.log (shown r.now) → result ≡ Err EngineFault.LogEnd }
        ensures log_end { result ≡ Err EngineFault.LogEnd → LOG_END < end_of self.old.log (shown r.now) }
        ensures unchanged { result ≡ Err EngineFault.LogEnd → self.new ≡ self.old }
        ensures failed { FailsByDisk D.told (D.view self.old.disk) self.old.log self.old.pool (D.view self.new.disk) result }
        ensures heeded { Heeds is_disk result (D.view self.old.disk) (D.view self.new.disk) }
        ensures goes_on { GoesOnWith D.told (D.view self.old.disk) self.old.log self.old.pool (D.view self.new.disk) self.new.log self.new.pool (numbered self.old.log (shown r.now)) (λ o ns. DoesToPage o (table_of record_meaning range_meaning ops.now) ns (numbered self.old.log (shown r.now)) p.0 (op_of op.now)) result }
        ensures size { sizes self.new.pool ≡ sizes self.old.pool }
        ensures waits { OnOk result (WaitsFrame self.new.log) }
        ensures allowed { KeepsAllowed D.told (D.view self.old.disk) self.old.log self.old.pool (D.view self.new.disk) self.new.log self.new.pool result }
        ensures moments { StandsWith D.told (D.view self.old.disk) self.old.log self.old.pool (D.view self.new.disk) (numbered self.old.log (shown r.now)) (λ o ns. DoesToPage o (table_of record_meaning range_meaning ops.now) ns (numbered self.old.log (shown r.now)) p.0 (op_of op.now)) }
        ensures later { (D.view self.old.disk).faults ≤ (D.view self.new.disk).faults }
        ensures grown { Hands (D.view self.old.disk) self.old.log (D.view self.new.disk) self.new.log }
    {
        let lsn = match self.log.append(&mut self.disk, r) {
            Ok(lsn) => lsn,
            Err(fault) => return Err(fault_of(fault)),
        };
        match self
            .pool
            .change_page(&mut self.disk, &mut self.log, p, lsn, op, ops)
        {
            Ok(()) => Ok(lsn),
            Err(_) => Err(EngineFault::Disk),
        }
    }

    /// Appends the record of a write to a band, and does it to the band. The layer above answers for it
    /// that the record says these bytes at this place.
    ///
    /// `LogEnd` comes as from `append`.
    pub fn change_band(
        &mut self,
        r: &Rec<'_>,
        b: BandNo,
        at: u32,
        bytes: &[u8],
    ) -> Result<Lsn, EngineFault>
        requires range { IsRecord (shown r.now) }
        requires band { b.0 < (sizes self.old.pool).bands }
        requires fits { at + length bytes.now ≤ BAND_SIZE }
        ensures lsn { IfOk result (λ lsn. lsn ≡ place_of self.old.log (shown r.now)) }
        ensures tail { OnOk result (tail_of self.new.log ≡ end_of self.old.log (shown r.now)) }
        ensures full { LOG_END < end_of self.old.log (shown r.now) → result ≡ Err EngineFault.LogEnd }
        ensures log_end { result ≡ Err EngineFault.LogEnd → LOG_END < end_of self.old.log (shown r.now) }
        ensures unchanged { result ≡ Err EngineFault.LogEnd → self.new ≡ self.old }
        ensures failed { result ≡ Err EngineFault.Disk → HasRisen (D.view self.old.disk).faults (D.view self.new.disk).faults }
        ensures heeded { Heeds is_disk result (D.view self.old.disk) (D.view self.new.disk) }
        ensures goes_on { GoesOnWith D.told (D.view self.old.disk) self.old.log self.old.pool (D.view self.new.disk) self.new.log self.new.pool (numbered self.old.log (shown r.now)) (λ o ns. DoesToBand o ns (numbered self.old.log (shown r.now)) b.0 at bytes.now) result }
        ensures size { sizes self.new.pool ≡ sizes self.old.pool }
        ensures waits { OnOk result (WaitsFrame self.new.log) }
        ensures allowed { KeepsAllowed D.told (D.view self.old.disk) self.old.log self.old.pool (D.view self.new.disk) self.new.log self.new.pool result }
        ensures moments { StandsWith D.told (D.view self.old.disk) self.old.log self.old.pool (D.view self.new.disk) (numbered self.old.log (shown r.now)) (λ o ns. DoesToBand o ns (numbered self.old.log (shown r.now)) b.0 at bytes.now) }
        ensures later { (D.view self.old.disk).faults ≤ (D.view self.new.disk).faults }
        ensures grown { Hands (D.view self.old.disk) self.old.log (D.view self.new.disk) self.new.log }
    {
        let lsn = match self.log.append(&mut self.disk, r) {
            Ok(lsn) => lsn,
            Err(fault) => return Err(fault_of(fault)),
        };
        match self
            .pool
            .change_band(&mut self.disk, &mut self.log, b, lsn, at, bytes)
        {
            Ok(()) => Ok(lsn),
            Err(_) => Err(EngineFault::Disk),
        }
    }

    /// Makes all records durable, and writes each changed page and band home.
    pub fn flush(&mut self) -> Result<(), EngineFault>
        ensures fault { IfErr result (λ e. e ≡ EngineFault.Disk) }
        ensures log { OnOk result (self.new.log ≡ forced self.old.log) }
        ensures failed { result ≡ Err EngineFault.Disk → HasRisen (D.view self.old.disk).faults (D.view self.new.disk).faults }
        ensures heeded { Heeds is_disk result (D.view self.old.disk) (D.view self.new.disk) }
        // No change of a page or a band is left that isn't on the disk.
        ensures written { OnOk result ((lsn : ℕ) → IsUnwritten self.new.pool lsn → ⊥) }
        ensures goes_on { MakesDurable D.told (D.view self.old.disk) self.old.log self.old.pool (D.view self.new.disk) self.new.log self.new.pool result }
        ensures size { sizes self.new.pool ≡ sizes self.old.pool }
        ensures allowed { KeepsAllowed D.told (D.view self.old.disk) self.old.log self.old.pool (D.view self.new.disk) self.new.log self.new.pool result }
        ensures moments { StandsMeanwhile D.told (D.view self.old.disk) self.old.log self.old.pool (D.view self.new.disk) }
        ensures later { (D.view self.old.disk).faults ≤ (D.view self.new.disk).faults }
        ensures grown { Hands (D.view self.old.disk) self.old.log (D.view self.new.disk) self.new.log }
    {
        match self.pool.flush(&mut self.disk, &mut self.log) {
            Ok(()) => Ok(()),
            Err(_) => Err(EngineFault::Disk),
        }
    }

    /// The number from which history has to be repeated: that of the oldest change that isn't on the
    /// disk, or the log's tail where there is none.
    pub fn redo_point(&self) -> Lsn
        ensures least { (lsn : ℕ) → IsUnwritten self.now.pool lsn → result ≤ lsn }
        ensures exact { IsUnwritten self.now.pool result ⊎ (((lsn : ℕ) → IsUnwritten self.now.pool lsn → ⊥) × (result ≡ tail_of self.now.log)) }
        ensures allowed { (o : Origin) (ds ps : List Numbered) → IsEngine o (D.view self.now.disk) self.now.log ds ps self.now.pool →
            IsAllowed o (D.view self.now.disk) self.now.log self.now.pool result }
    {
        match self.pool.oldest() {
            Some(lsn) => lsn,
            None => self.log.tail(),
        }
    }
}
