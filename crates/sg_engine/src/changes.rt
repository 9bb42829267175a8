// Changes by the records that say them: a record is made, appended, and done to its page or its band.
ghost use Rattle.std.specs.Prelude.{◌≡◌, ◌≤◌, ◌<◌, ◌++◌, ℕ, List, Some, is_some, OnOk, IfOk, IsTrue};
ghost use Rattle.sg_base.specs.Ends.{HasRisen};
ghost use Rattle.sg_disk.specs.Heeds.{Heeds};
ghost use Rattle.sg_record.specs.Changes.Change.{Page, SegWrite, SegOp};
ghost use Rattle.sg_record.specs.Ranges.{IsRecord};
ghost use Rattle.sg_record.specs.Shown.{shown, shown_page, shown_bytes, shown_op};
ghost use Rattle.sg_log.specs.Frames.{LOG_END};
ghost use Rattle.sg_log.specs.Held.{tail_of, place_of, end_of, numbered};
ghost use Rattle.sg_ops.specs.Table.{Table, table_of, range_at};
ghost use Rattle.sg_redo.specs.Places.{changed_by};
ghost use Rattle.sg_pool.specs.Pooled.{sizes, contents};
ghost use Rattle.sg_engine.specs.Effects.{logged, taken_off, IsBy, FitsPage};
ghost use Rattle.sg_engine.specs.Faults.{is_disk};
ghost use Rattle.sg_engine.specs.Calls.{FailsByDisk, KeepsAllowed, GoesOnWith, StandsWith, Hands};

use crate::{Engine, EngineFault};
use sg_base::{Lsn, TxnId};
use sg_disk::Disk;
use sg_ops::Ops;
use sg_record::{BandBytes, BandOp, Change, PageChange, Rec};
use sg_redo::page_op;

impl<D: Disk> Engine<D> {
    // Appends a record that makes this change of a page, and makes it.
    fn do_page(
        &mut self,
        r: &Rec<'_>,
        change: &PageChange<'_>,
        ops: &Ops,
    ) -> Result<Lsn, EngineFault>
        requires range { IsRecord (shown r.now) }
        requires says { changed_by (shown r.now).says ≡ Some (Page (shown_page change.now)) }
        requires page { change.now.page.0 < (sizes self.old.pool).pages }
        ensures lsn { IfOk result (λ lsn. lsn ≡ place_of self.old.log (shown r.now)) }
        ensures tail { OnOk result (tail_of self.new.log ≡ end_of self.old.log (shown r.now)) }
        ensures full { LOG_END < end_of self.old.log (shown r.now) → result ≡ Err EngineFault.LogEnd }
        ensures log_end { result ≡ Err EngineFault.LogEnd → LOG_END < end_of self.old.log (shown r.now) }
        ensures unchanged { result ≡ Err EngineFault.LogEnd → self.new ≡ self.old }
        ensures failed { FailsByDisk D.told (D.view self.old.disk) self.old.log self.old.pool (D.view self.new.disk) result }
        ensures goes_on { GoesOnWith D.told (D.view self.old.disk) self.old.log self.old.pool (D.view self.new.disk) self.new.log self.new.pool (numbered self.old.log (shown r.now)) (λ o ns. IsBy (table_of record_meaning range_meaning ops.now) o × FitsPage (table_of record_meaning range_meaning ops.now) (place_of self.old.log (shown r.now)) (shown_page change.now) ((contents (D.view self.old.disk) self.old.pool).page change.now.page.0)) result }
        ensures heeded { Heeds is_disk result (D.view self.old.disk) (D.view self.new.disk) }
        ensures size { sizes self.new.pool ≡ sizes self.old.pool }
        ensures allowed { KeepsAllowed D.told (D.view self.old.disk) self.old.log self.old.pool (D.view self.new.disk) self.new.log self.new.pool result }
        ensures moments { StandsWith D.told (D.view self.old.disk) self.old.log self.old.pool (D.view self.new.disk) (numbered self.old.log (shown r.now)) (λ o ns. IsBy (table_of record_meaning range_meaning ops.now) o × FitsPage (table_of record_meaning range_meaning ops.now) (place_of self.old.log (shown r.now)) (shown_page change.now) ((contents (D.view self.old.disk) self.old.pool).page change.now.page.0)) }
        ensures later { (D.view self.old.disk).faults ≤ (D.view self.new.disk).faults }
        ensures grown { Hands (D.view self.old.disk) self.old.log (D.view self.new.disk) self.new.log }
    {
        let op = page_op(change);
        self.change_page(r, change.page, &op, ops)
    }

    // Appends a record that makes this write to a band, and makes it.
    fn do_write(&mut self, r: &Rec<'_>, change: &BandBytes<'_>) -> Result<Lsn, EngineFault>
        requires range { IsRecord (shown r.now) }
        requires says { changed_by (shown r.now).says ≡ Some (SegWrite (shown_bytes change.now)) }
        requires band { change.now.band.0 < (sizes self.old.pool).bands }
        ensures lsn { IfOk result (λ lsn. lsn ≡ place_of self.old.log (shown r.now)) }
        ensures tail { OnOk result (tail_of self.new.log ≡ end_of self.old.log (shown r.now)) }
        ensures full { LOG_END < end_of self.old.log (shown r.now) → result ≡ Err EngineFault.LogEnd }
        ensures log_end { result ≡ Err EngineFault.LogEnd → LOG_END < end_of self.old.log (shown r.now) }
        ensures unchanged { result ≡ Err EngineFault.LogEnd → self.new ≡ self.old }
        ensures failed { result ≡ Err EngineFault.Disk → HasRisen (D.view self.old.disk).faults (D.view self.new.disk).faults }
        ensures goes_on { GoesOnWith D.told (D.view self.old.disk) self.old.log self.old.pool (D.view self.new.disk) self.new.log self.new.pool (numbered self.old.log (shown r.now)) (λ o ns. (t : Table) × IsBy t o) result }
        ensures heeded { Heeds is_disk result (D.view self.old.disk) (D.view self.new.disk) }
        ensures size { sizes self.new.pool ≡ sizes self.old.pool }
        ensures allowed { KeepsAllowed D.told (D.view self.old.disk) self.old.log self.old.pool (D.view self.new.disk) self.new.log self.new.pool result }
        ensures moments { StandsWith D.told (D.view self.old.disk) self.old.log self.old.pool (D.view self.new.disk) (numbered self.old.log (shown r.now)) (λ o ns. (t : Table) × IsBy t o) }
        ensures later { (D.view self.old.disk).faults ≤ (D.view self.new.disk).faults }
        ensures grown { Hands (D.view self.old.disk) self.old.log (D.view self.new.disk) self.new.log }
    {
        self.change_band(r, change.band, change.at, change.after)
    }

    // Appends a record that does this registered operation to a part of a band, and does it.
    fn do_op(&mut self, r: &Rec<'_>, change: &BandOp<'_>, ops: &Ops) -> Result<Lsn, EngineFault>
        requires range { IsRecord (shown r.now) }
        requires says { changed_by (shown r.now).says ≡ Some (SegOp (shown_op change.now)) }
        requires band { change.now.band.0 < (sizes self.old.pool).bands }
        requires known { IsTrue (is_some (range_at (table_of record_meaning range_meaning ops.now) change.now.code)) }
        ensures lsn { IfOk result (λ lsn. lsn ≡ place_of self.old.log (shown r.now)) }
        ensures tail { OnOk result (tail_of self.new.log ≡ end_of self.old.log (shown r.now)) }
        ensures full { LOG_END < end_of self.old.log (shown r.now) → result ≡ Err EngineFault.LogEnd }
        ensures log_end { result ≡ Err EngineFault.LogEnd → LOG_END < end_of self.old.log (shown r.now) }
        ensures unchanged { result ≡ Err EngineFault.LogEnd → self.new ≡ self.old }
        ensures failed { result ≡ Err EngineFault.Disk → HasRisen (D.view self.old.disk).faults (D.view self.new.disk).faults }
        ensures goes_on { GoesOnWith D.told (D.view self.old.disk) self.old.log self.old.pool (D.view self.new.disk) self.new.log self.new.pool (numbered self.old.log (shown r.now)) (λ o ns. IsBy (table_of record_meaning range_meaning ops.now) o) result }
        ensures heeded { Heeds is_disk result (D.view self.old.disk) (D.view self.new.disk) }
        ensures size { sizes self.new.pool ≡ sizes self.old.pool }
        ensures allowed { KeepsAllowed D.told (D.view self.old.disk) self.old.log self.old.pool (D.view self.new.disk) self.new.log self.new.pool result }
        ensures moments { StandsWith D.told (D.view self.old.disk) self.old.log self.old.pool (D.view self.new.disk) (numbered self.old.log (shown r.now)) (λ o ns. IsBy (table_of record_meaning range_meaning ops.now) o) }
        ensures later { (D.view self.old.disk).faults ≤ (D.view self.new.disk).faults }
        ensures grown { Hands (D.view self.old.disk) self.old.log (D.view self.new.disk) self.new.log }
    {
        let mut bytes = [0; 32_768];
        let part = &mut bytes[..change.count as usize];
        ops.render(change.code, change.position, change.arg, part);
        self.change_band(r, change.band, change.at, part)
    }

    /// Appends the record of a change of a page, of this transaction and with this previous
    /// record, and makes the change.
    ///
    /// Its operation fits the page. `LogEnd` comes as from `append`.
    pub fn log_page(
        &mut self,
        txn: TxnId,
        prev: Lsn,
        change: PageChange<'_>,
        ops: &Ops,
    ) -> Result<Lsn, EngineFault>
        requires range { IsRecord (logged txn.0 prev (Page (shown_page change))) }
        requires page { change.page.0 < (sizes self.old.pool).pages }
        ensures lsn { IfOk result (λ lsn. lsn ≡ place_of self.old.log (logged txn.0 prev (Page (shown_page change.entry)))) }
        ensures tail { OnOk result (tail_of self.new.log ≡ end_of self.old.log (logged txn.0 prev (Page (shown_page change.entry)))) }
        ensures full { LOG_END < end_of self.old.log (logged txn.0 prev (Page (shown_page change.entry))) → result ≡ Err EngineFault.LogEnd }
        ensures log_end { result ≡ Err EngineFault.LogEnd → LOG_END < end_of self.old.log (logged txn.0 prev (Page (shown_page change.entry))) }
        ensures unchanged { result ≡ Err EngineFault.LogEnd → self.new ≡ self.old }
        ensures failed { FailsByDisk D.told (D.view self.old.disk) self.old.log self.old.pool (D.view self.new.disk) result }
        ensures goes_on { GoesOnWith D.told (D.view self.old.disk) self.old.log self.old.pool (D.view self.new.disk) self.new.log self.new.pool (numbered self.old.log (logged txn.0 prev (Page (shown_page change.entry)))) (λ o ns. IsBy (table_of record_meaning range_meaning ops.now) o × FitsPage (table_of record_meaning range_meaning ops.now) (place_of self.old.log (logged txn.0 prev (Page (shown_page change.entry)))) (shown_page change.entry) ((contents (D.view self.old.disk) self.old.pool).page change.entry.page.0)) result }
        ensures heeded { Heeds is_disk result (D.view self.old.disk) (D.view self.new.disk) }
        ensures size { sizes self.new.pool ≡ sizes self.old.pool }
        ensures allowed { KeepsAllowed D.told (D.view self.old.disk) self.old.log self.old.pool (D.view self.new.disk) self.new.log self.new.pool result }
        ensures moments { StandsWith D.told (D.view self.old.disk) self.old.log self.old.pool (D.view self.new.disk) (numbered self.old.log (logged txn.0 prev (Page (shown_page change.entry)))) (λ o ns. IsBy (table_of record_meaning range_meaning ops.now) o × FitsPage (table_of record_meaning range_meaning ops.now) (place_of self.old.log (logged txn.0 prev (Page (shown_page change.entry)))) (shown_page change.entry) ((contents (D.view self.old.disk) self.old.pool).page change.entry.page.0)) }
        ensures later { (D.view self.old.disk).faults ≤ (D.view self.new.disk).faults }
        ensures grown { Hands (D.view self.old.disk) self.old.log (D.view self.new.disk) self.new.log }
    {
        let rec = Rec::Page { txn, prev, change };
        self.do_page(&rec, &change, ops)
    }

    /// Appends the record of a write to a band, of this transaction and with this previous
    /// record, and makes the change.
    ///
    /// `LogEnd` comes as from `append`.
    pub fn log_write(
        &mut self,
        txn: TxnId,
        prev: Lsn,
        change: BandBytes<'_>,
    ) -> Result<Lsn, EngineFault>
        requires range { IsRecord (logged txn.0 prev (SegWrite (shown_bytes change))) }
        requires band { change.band.0 < (sizes self.old.pool).bands }
        ensures lsn { IfOk result (λ lsn. lsn ≡ place_of self.old.log (logged txn.0 prev (SegWrite (shown_bytes change.entry)))) }
        ensures tail { OnOk result (tail_of self.new.log ≡ end_of self.old.log (logged txn.0 prev (SegWrite (shown_bytes change.entry)))) }
        ensures full { LOG_END < end_of self.old.log (logged txn.0 prev (SegWrite (shown_bytes change.entry))) → result ≡ Err EngineFault.LogEnd }
        ensures log_end { result ≡ Err EngineFault.LogEnd → LOG_END < end_of self.old.log (logged txn.0 prev (SegWrite (shown_bytes change.entry))) }
        ensures unchanged { result ≡ Err EngineFault.LogEnd → self.new ≡ self.old }
        ensures failed { result ≡ Err EngineFault.Disk → HasRisen (D.view self.old.disk).faults (D.view self.new.disk).faults }
        ensures goes_on { GoesOnWith D.told (D.view self.old.disk) self.old.log self.old.pool (D.view self.new.disk) self.new.log self.new.pool (numbered self.old.log (logged txn.0 prev (SegWrite (shown_bytes change.entry)))) (λ o ns. (t : Table) × IsBy t o) result }
        ensures heeded { Heeds is_disk result (D.view self.old.disk) (D.view self.new.disk) }
        ensures size { sizes self.new.pool ≡ sizes self.old.pool }
        ensures allowed { KeepsAllowed D.told (D.view self.old.disk) self.old.log self.old.pool (D.view self.new.disk) self.new.log self.new.pool result }
        ensures moments { StandsWith D.told (D.view self.old.disk) self.old.log self.old.pool (D.view self.new.disk) (numbered self.old.log (logged txn.0 prev (SegWrite (shown_bytes change.entry)))) (λ o ns. (t : Table) × IsBy t o) }
        ensures later { (D.view self.old.disk).faults ≤ (D.view self.new.disk).faults }
        ensures grown { Hands (D.view self.old.disk) self.old.log (D.view self.new.disk) self.new.log }
    {
        let rec = Rec::SegWrite { txn, prev, change };
        self.do_write(&rec, &change)
    }

    /// Appends the record of a registered operation on a part of a band, of this transaction and with this previous
    /// record, and makes the change.
    ///
    /// `LogEnd` comes as from `append`.
    pub fn log_op(
        &mut self,
        txn: TxnId,
        prev: Lsn,
        change: BandOp<'_>,
        ops: &Ops,
    ) -> Result<Lsn, EngineFault>
        requires range { IsRecord (logged txn.0 prev (SegOp (shown_op change))) }
        requires band { change.band.0 < (sizes self.old.pool).bands }
        requires known { IsTrue (is_some (range_at (table_of record_meaning range_meaning ops.now) change.code)) }
        ensures lsn { IfOk result (λ lsn. lsn ≡ place_of self.old.log (logged txn.0 prev (SegOp (shown_op change.entry)))) }
        ensures tail { OnOk result (tail_of self.new.log ≡ end_of self.old.log (logged txn.0 prev (SegOp (shown_op change.entry)))) }
        ensures full { LOG_END < end_of self.old.log (logged txn.0 prev (SegOp (shown_op change.entry))) → result ≡ Err EngineFault.LogEnd }
        ensures log_end { result ≡ Err EngineFault.LogEnd → LOG_END < end_of self.old.log (logged txn.0 prev (SegOp (shown_op change.entry))) }
        ensures unchanged { result ≡ Err EngineFault.LogEnd → self.new ≡ self.old }
        ensures failed { result ≡ Err EngineFault.Disk → HasRisen (D.view self.old.disk).faults (D.view self.new.disk).faults }
        ensures goes_on { GoesOnWith D.told (D.view self.old.disk) self.old.log self.old.pool (D.view self.new.disk) self.new.log self.new.pool (numbered self.old.log (logged txn.0 prev (SegOp (shown_op change.entry)))) (λ o ns. IsBy (table_of record_meaning range_meaning ops.now) o) result }
        ensures heeded { Heeds is_disk result (D.view self.old.disk) (D.view self.new.disk) }
        ensures size { sizes self.new.pool ≡ sizes self.old.pool }
        ensures allowed { KeepsAllowed D.told (D.view self.old.disk) self.old.log self.old.pool (D.view self.new.disk) self.new.log self.new.pool result }
        ensures moments { StandsWith D.told (D.view self.old.disk) self.old.log self.old.pool (D.view self.new.disk) (numbered self.old.log (logged txn.0 prev (SegOp (shown_op change.entry)))) (λ o ns. IsBy (table_of record_meaning range_meaning ops.now) o) }
        ensures later { (D.view self.old.disk).faults ≤ (D.view self.new.disk).faults }
        ensures grown { Hands (D.view self.old.disk) self.old.log (D.view self.new.disk) self.new.log }
    {
        let rec = Rec::SegOp { txn, prev, change };
        self.do_op(&rec, &change, ops)
    }

    /// Appends the record that takes a change of a page off by this one, of this transaction, with
    /// this previous record and with the record at which undoing goes on, and makes this change.
    ///
    /// Its operation fits the page. `LogEnd` comes as from `append`.
    pub fn compensate_page(
        &mut self,
        txn: TxnId,
        prev: Lsn,
        undo_next: Lsn,
        change: PageChange<'_>,
        ops: &Ops,
    ) -> Result<Lsn, EngineFault>
        requires range { IsRecord (taken_off txn.0 prev undo_next (Page (shown_page change))) }
        requires page { change.page.0 < (sizes self.old.pool).pages }
        ensures lsn { IfOk result (λ lsn. lsn ≡ place_of self.old.log (taken_off txn.0 prev undo_next (Page (shown_page change.entry)))) }
        ensures tail { OnOk result (tail_of self.new.log ≡ end_of self.old.log (taken_off txn.0 prev undo_next (Page (shown_page change.entry)))) }
        ensures full { LOG_END < end_of self.old.log (taken_off txn.0 prev undo_next (Page (shown_page change.entry))) → result ≡ Err EngineFault.LogEnd }
        ensures log_end { result ≡ Err EngineFault.LogEnd → LOG_END < end_of self.old.log (taken_off txn.0 prev undo_next (Page (shown_page change.entry))) }
        ensures unchanged { result ≡ Err EngineFault.LogEnd → self.new ≡ self.old }
        ensures failed { FailsByDisk D.told (D.view self.old.disk) self.old.log self.old.pool (D.view self.new.disk) result }
        ensures goes_on { GoesOnWith D.told (D.view self.old.disk) self.old.log self.old.pool (D.view self.new.disk) self.new.log self.new.pool (numbered self.old.log (taken_off txn.0 prev undo_next (Page (shown_page change.entry)))) (λ o ns. IsBy (table_of record_meaning range_meaning ops.now) o × FitsPage (table_of record_meaning range_meaning ops.now) (place_of self.old.log (taken_off txn.0 prev undo_next (Page (shown_page change.entry)))) (shown_page change.entry) ((contents (D.view self.old.disk) self.old.pool).page change.entry.page.0)) result }
        ensures heeded { Heeds is_disk result (D.view self.old.disk) (D.view self.new.disk) }
        ensures size { sizes self.new.pool ≡ sizes self.old.pool }
        ensures allowed { KeepsAllowed D.told (D.view self.old.disk) self.old.log self.old.pool (D.view self.new.disk) self.new.log self.new.pool result }
        ensures moments { StandsWith D.told (D.view self.old.disk) self.old.log self.old.pool (D.view self.new.disk) (numbered self.old.log (taken_off txn.0 prev undo_next (Page (shown_page change.entry)))) (λ o ns. IsBy (table_of record_meaning range_meaning ops.now) o × FitsPage (table_of record_meaning range_meaning ops.now) (place_of self.old.log (taken_off txn.0 prev undo_next (Page (shown_page change.entry)))) (shown_page change.entry) ((contents (D.view self.old.disk) self.old.pool).page change.entry.page.0)) }
        ensures later { (D.view self.old.disk).faults ≤ (D.view self.new.disk).faults }
        ensures grown { Hands (D.view self.old.disk) self.old.log (D.view self.new.disk) self.new.log }
    {
        let rec = Rec::PhysComp {
            txn,
            prev,
            undo_next,
            change: Change::Page(change),
        };
        self.do_page(&rec, &change, ops)
    }

    /// Appends the record that takes a write to a band off by this one, of this transaction, with
    /// this previous record and with the record at which undoing goes on, and makes this change.
    ///
    /// `LogEnd` comes as from `append`.
    pub fn compensate_write(
        &mut self,
        txn: TxnId,
        prev: Lsn,
        undo_next: Lsn,
        change: BandBytes<'_>,
    ) -> Result<Lsn, EngineFault>
        requires range { IsRecord (taken_off txn.0 prev undo_next (SegWrite (shown_bytes change))) }
        requires band { change.band.0 < (sizes self.old.pool).bands }
        ensures lsn { IfOk result (λ lsn. lsn ≡ place_of self.old.log (taken_off txn.0 prev undo_next (SegWrite (shown_bytes change.entry)))) }
        ensures tail { OnOk result (tail_of self.new.log ≡ end_of self.old.log (taken_off txn.0 prev undo_next (SegWrite (shown_bytes change.entry)))) }
        ensures full { LOG_END < end_of self.old.log (taken_off txn.0 prev undo_next (SegWrite (shown_bytes change.entry))) → result ≡ Err EngineFault.LogEnd }
        ensures log_end { result ≡ Err EngineFault.LogEnd → LOG_END < end_of self.old.log (taken_off txn.0 prev undo_next (SegWrite (shown_bytes change.entry))) }
        ensures unchanged { result ≡ Err EngineFault.LogEnd → self.new ≡ self.old }
        ensures failed { result ≡ Err EngineFault.Disk → HasRisen (D.view self.old.disk).faults (D.view self.new.disk).faults }
        ensures goes_on { GoesOnWith D.told (D.view self.old.disk) self.old.log self.old.pool (D.view self.new.disk) self.new.log self.new.pool (numbered self.old.log (taken_off txn.0 prev undo_next (SegWrite (shown_bytes change.entry)))) (λ o ns. (t : Table) × IsBy t o) result }
        ensures heeded { Heeds is_disk result (D.view self.old.disk) (D.view self.new.disk) }
        ensures size { sizes self.new.pool ≡ sizes self.old.pool }
        ensures allowed { KeepsAllowed D.told (D.view self.old.disk) self.old.log self.old.pool (D.view self.new.disk) self.new.log self.new.pool result }
        ensures moments { StandsWith D.told (D.view self.old.disk) self.old.log self.old.pool (D.view self.new.disk) (numbered self.old.log (taken_off txn.0 prev undo_next (SegWrite (shown_bytes change.entry)))) (λ o ns. (t : Table) × IsBy t o) }
        ensures later { (D.view self.old.disk).faults ≤ (D.view self.new.disk).faults }
        ensures grown { Hands (D.view self.old.disk) self.old.log (D.view self.new.disk) self.new.log }
    {
        let rec = Rec::PhysComp {
            txn,
            prev,
            undo_next,
            change: Change::SegWrite(change),
        };
        self.do_write(&rec, &change)
    }

    /// Appends the record that takes a registered operation on a part of a band off by this one, of this transaction, with
    /// this previous record and with the record at which undoing goes on, and makes this change.
    ///
    /// `LogEnd` comes as from `append`.
    pub fn compensate_op(
        &mut self,
        txn: TxnId,
        prev: Lsn,
        undo_next: Lsn,
        change: BandOp<'_>,
        ops: &Ops,
    ) -> Result<Lsn, EngineFault>
        requires range { IsRecord (taken_off txn.0 prev undo_next (SegOp (shown_op change))) }
        requires band { change.band.0 < (sizes self.old.pool).bands }
        requires known { IsTrue (is_some (range_at (table_of record_meaning range_meaning ops.now) change.code)) }
        ensures lsn { IfOk result (λ lsn. lsn ≡ place_of self.old.log (taken_off txn.0 prev undo_next (SegOp (shown_op change.entry)))) }
        ensures tail { OnOk result (tail_of self.new.log ≡ end_of self.old.log (taken_off txn.0 prev undo_next (SegOp (shown_op change.entry)))) }
        ensures full { LOG_END < end_of self.old.log (taken_off txn.0 prev undo_next (SegOp (shown_op change.entry))) → result ≡ Err EngineFault.LogEnd }
        ensures log_end { result ≡ Err EngineFault.LogEnd → LOG_END < end_of self.old.log (taken_off txn.0 prev undo_next (SegOp (shown_op change.entry))) }
        ensures unchanged { result ≡ Err EngineFault.LogEnd → self.new ≡ self.old }
        ensures failed { result ≡ Err EngineFault.Disk → HasRisen (D.view self.old.disk).faults (D.view self.new.disk).faults }
        ensures goes_on { GoesOnWith D.told (D.view self.old.disk) self.old.log self.old.pool (D.view self.new.disk) self.new.log self.new.pool (numbered self.old.log (taken_off txn.0 prev undo_next (SegOp (shown_op change.entry)))) (λ o ns. IsBy (table_of record_meaning range_meaning ops.now) o) result }
        ensures heeded { Heeds is_disk result (D.view self.old.disk) (D.view self.new.disk) }
        ensures size { sizes self.new.pool ≡ sizes self.old.pool }
        ensures allowed { KeepsAllowed D.told (D.view self.old.disk) self.old.log self.old.pool (D.view self.new.disk) self.new.log self.new.pool result }
        ensures moments { StandsWith D.told (D.view self.old.disk) self.old.log self.old.pool (D.view self.new.disk) (numbered self.old.log (taken_off txn.0 prev undo_next (SegOp (shown_op change.entry)))) (λ o ns. IsBy (table_of record_meaning range_meaning ops.now) o) }
        ensures later { (D.view self.old.disk).faults ≤ (D.view self.new.disk).faults }
        ensures grown { Hands (D.view self.old.disk) self.old.log (D.view self.new.disk) self.new.log }
    {
        let rec = Rec::PhysComp {
            txn,
            prev,
            undo_next,
            change: Change::SegOp(change),
        };
        self.do_op(&rec, &change, ops)
    }
}
