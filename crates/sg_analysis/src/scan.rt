ghost use Rattle.std.specs.Prelude.{◌≡◌, ◌+◌, ◌++◌, true, false, ◌∷◌, ◌≤◌, [], ℕ, List, ◌==◌, ◌&&◌, length, map, filter, not, OnOk, IfErr};
ghost use Rattle.std.specs.List.{find};
ghost use Rattle.sg_record.specs.Shown.{shown};
ghost use Rattle.sg_log.specs.Frames.{LOG_END};
ghost use Rattle.sg_log.specs.Frames.{Numbered};
ghost use Rattle.sg_analysis.specs.Sights.{Step, sight_of, steps_of};
ghost use Rattle.sg_analysis.specs.Sights.Sight.{Stepped};
ghost use Rattle.sg_record.specs.Records.{Record};
ghost use Rattle.sg_recovery.specs.Chains.{next_lsn};
ghost use Rattle.sg_analysis.specs.Returns.{border_if, progress_of, goes_back};
ghost use Rattle.sg_analysis.specs.Standing.{may_step, may_stand, goes_on};
ghost use Rattle.sg_analysis.specs.Unended.{may_act};
ghost use Rattle.sg_analysis.specs.Placed.{AreInFrames, ArePlaced};
ghost use Rattle.sg_analysis.specs.Rows.{touched, rows_by, Knows, AreTaken, RecordsFail};

use crate::AnalysisFault;
use crate::past::{Over, Past};
use crate::progress::{Progress, fits_progress, keep_opened, keep_returns};
use crate::records::{
    ends_action, goes_right, is_systems, may_be_behind, precedes_system, stage_of, takes_off,
};
use crate::row::{Row, touch_all};
use crate::stacks::Stacks;
use crate::unended::{Begun, Unended};
use sg_base::{Lsn, TxnId};
use sg_record::{Rec, decode};
use std::alloc::{AllocError, Global};

/// What an analysis keeps while it reads a log: a row for each transaction that goes on, in the order
/// of their begins, and one for the system; what has come of others; the actions without an end; and
/// which changes are open and which notes stand.
#[derive(Drop)]
pub struct Scan {
    // the number of the log's first byte
    pub base: Lsn,
    pub system: Row,
    pub rows: Vec<Row>,
    // the number of the last checkpoint, and what it estimates
    pub checkpoint: Option<(Lsn, Lsn)>,
    pub past: Past,
    pub unended: Unended,
    // the numbers of each transaction's open changes
    pub opened: Stacks,
    // where undoing goes on behind each of a transaction's standing notes
    pub returns: Stacks,
}

impl Scan {
    /// Before a log whose first byte has this number.
    pub fn new(alloc: Global, base: Lsn) -> Scan
        ensures knows { Knows result base [] }
        ensures unended { result.unended.actions.items ≡ [] }
    {
        Scan {
            base,
            system: Row {
                txn: TxnId(0),
                last: 0,
                border: 0,
                taken_off: false,
            },
            rows: Vec::new(alloc),
            checkpoint: None,
            past: Past::new(alloc),
            unended: Unended::new(alloc),
            opened: Stacks::new(alloc),
            returns: Stacks::new(alloc),
        }
    }

    // The row of a transaction that goes on.
    pub fn row(&self, txn: TxnId) -> Option<Row>
        ensures { result ≡ find (λ row. row.txn.0 == txn.0) self.now.rows.items }
    {
        for row in &self.rows {
            if row.txn.0 == txn.0 {
                return Some(*row);
            }
        }
        None
    }

    // Whether a step that is no begin may come next.
    fn goes_on(&self, rec: &Rec<'_>) -> bool
        ensures { (base : ℕ) (ns : List Numbered) (x : Step) → Knows self.now base ns → sight_of (shown rec.now) ≡ Stepped x → result ≡ goes_on base (steps_of ns) x }
    {
        let txn = rec.txn();
        if txn.0 == 0 {
            return precedes_system(self.base, self.system, rec.prev())
                && is_systems(self.system.taken_off, rec);
        }
        match self.row(txn) {
            None => may_be_behind(self.base, self.past.get(txn), rec),
            Some(row) => rec.prev() == row.last && goes_right(row.border, row.taken_off, rec),
        }
    }

    // The last border of the system, or of a transaction that goes on.
    fn border_if(&self, txn: TxnId) -> Option<Lsn>
        ensures { (base : ℕ) (ns : List Numbered) → Knows self.now base ns → result ≡ border_if (steps_of ns) txn.0 }
    {
        if txn.0 == 0 {
            return Some(self.system.border);
        }
        match self.row(txn) {
            None => None,
            Some(row) => Some(row.border),
        }
    }

    // How far a transaction has come.
    fn progress(&self, txn: TxnId) -> Progress
        ensures { (base : ℕ) (ns : List Numbered) → Knows self.now base ns → result ≡ progress_of (steps_of ns) txn.0 }
    {
        Progress {
            border: self.border_if(txn),
            newest: self.opened.newest(txn),
            second: self.opened.second(txn),
            returning: self.returns.newest(txn),
        }
    }

    // Whether undoing goes on where it has to behind a step.
    fn goes_back(&self, rec: &Rec<'_>) -> bool
        ensures { (base : ℕ) (ns : List Numbered) (x : Step) → Knows self.now base ns → sight_of (shown rec.now) ≡ Stepped x → result ≡ goes_back base (steps_of ns) x }
    {
        let txn = rec.txn();
        fits_progress(self.base, txn.0 == 0, self.progress(txn), rec)
    }

    // Whether a step that is no begin may come next, and undoing goes on where it has to.
    fn follows(&self, rec: &Rec<'_>) -> bool
        ensures { (base : ℕ) (ns : List Numbered) (x : Step) → Knows self.now base ns → sight_of (shown rec.now) ≡ Stepped x → result ≡ (goes_on base (steps_of ns) x && goes_back base (steps_of ns) x) }
    {
        self.goes_on(rec) && self.goes_back(rec)
    }

    /// Whether the record may come next, with this number.
    pub fn may_stand(&self, lsn: Lsn, rec: &Rec<'_>) -> bool
        ensures { (base : ℕ) (ns : List Numbered) → Knows self.now base ns → result ≡ may_stand base (steps_of ns) lsn (sight_of (shown rec.now)) }
    {
        match *rec {
            Rec::Begin { txn, prev } => txn.0 == lsn && prev == 0,
            Rec::Checkpoint { estimate, .. } => estimate <= lsn,
            _ => rec.txn().0 < lsn && self.follows(rec),
        }
    }

    // The rows behind a record of this transaction, with this number.
    fn touch(&mut self, txn: TxnId, lsn: Lsn, ends: bool, off: bool)
        ensures base { self.new.base ≡ self.old.base }
        ensures checkpoint { self.new.checkpoint ≡ self.old.checkpoint }
        ensures past { self.new.past ≡ self.old.past }
        ensures unended { self.new.unended ≡ self.old.unended }
        ensures opened { self.new.opened ≡ self.old.opened }
        ensures returns { self.new.returns ≡ self.old.returns }
        ensures system { self.new.system ≡ touched txn.0 lsn ends off self.old.system }
        ensures rows { self.new.rows.items ≡ map (touched txn.0 lsn ends off) self.old.rows.items }
    {
        self.system.touch(txn, lsn, ends, off);
        touch_all(&mut self.rows, txn, lsn, ends, off);
    }

    // Takes the row of a transaction away.
    fn forget(&mut self, txn: TxnId)
        ensures base { self.new.base ≡ self.old.base }
        ensures checkpoint { self.new.checkpoint ≡ self.old.checkpoint }
        ensures past { self.new.past ≡ self.old.past }
        ensures unended { self.new.unended ≡ self.old.unended }
        ensures opened { self.new.opened ≡ self.old.opened }
        ensures returns { self.new.returns ≡ self.old.returns }
        ensures system { self.new.system ≡ self.old.system }
        ensures rows { self.new.rows.items ≡ filter (λ row. not (row.txn.0 == txn.0)) self.old.rows.items }
    {
        self.rows.retain(|row| row.txn.0 != txn.0);
    }

    // Adds a row where one begins, and takes away that of one that is over.
    fn change_rows(&mut self, lsn: Lsn, rec: &Rec<'_>) -> Result<(), AllocError>
        ensures base { self.new.base ≡ self.old.base }
        ensures checkpoint { self.new.checkpoint ≡ self.old.checkpoint }
        ensures past { self.new.past ≡ self.old.past }
        ensures unended { self.new.unended ≡ self.old.unended }
        ensures opened { self.new.opened ≡ self.old.opened }
        ensures returns { self.new.returns ≡ self.old.returns }
        ensures system { self.new.system ≡ self.old.system }
        ensures rows { OnOk result (self.new.rows.items ≡ rows_by (sight_of (shown rec.now)) lsn self.old.rows.items) }
    {
        match *rec {
            Rec::Begin { txn, .. } => self.rows.push(Row::begun(txn, lsn))?,
            Rec::Commit { txn, .. } | Rec::End { txn, .. } => self.forget(txn),
            _ => {}
        }
        Ok(())
    }

    // Whether this is the system, or a transaction that goes on.
    pub fn may_act(&self, txn: TxnId) -> bool
        ensures { result ≡ may_act (map (λ row. row.txn.0) self.now.rows.items) txn.0 }
    {
        txn.0 == 0 || self.row(txn).is_some()
    }

    // Takes a step in, which stands in the frame with this gate.
    fn step(&mut self, lsn: Lsn, gate: u64, rec: &Rec<'_>) -> Result<(), AllocError>
        ensures knows { (base : ℕ) (ns : List Numbered) (x : Step) → Knows self.old base ns → sight_of (shown rec.now) ≡ Stepped x →
            next_lsn (steps_of ns) ≤ lsn → may_step base (steps_of ns) lsn x ≡ true → OnOk result (Knows self.new base (ns ++ (record { lsn = lsn; is = shown rec.now }) ∷ [])) }
        ensures placed { (base : ℕ) (frames : List (List Record)) (from : ℕ) → from ≤ lsn → ArePlaced base frames gate from lsn self.old.unended.actions.items →
            OnOk result (ArePlaced base frames gate from (lsn + 1) self.new.unended.actions.items) }
    {
        let txn = rec.txn();
        let ends = ends_action(rec);
        let goes_on = self.row(txn).is_some();
        keep_opened(&mut self.opened, lsn, rec)?;
        keep_returns(&mut self.returns, goes_on, rec)?;
        self.touch(txn, lsn, ends, takes_off(rec));
        self.change_rows(lsn, rec)?;
        let over = Over {
            txn,
            last: lsn,
            stage: stage_of(rec),
        };
        let lives = self.may_act(txn);
        self.past.change(self.base, over, lives)?;
        self.unended.change(Begun { txn, lsn, gate }, ends)
    }

    /// Takes the record in, with this number. It stands in the frame whose gate is at the offset `gate`.
    pub fn note(&mut self, lsn: Lsn, gate: u64, rec: &Rec<'_>) -> Result<(), AllocError>
        ensures knows { (base : ℕ) (ns : List Numbered) → Knows self.old base ns → next_lsn (steps_of ns) ≤ lsn → may_stand base (steps_of ns) lsn (sight_of (shown rec.now)) ≡ true →
            OnOk result (Knows self.new base (ns ++ (record { lsn = lsn; is = shown rec.now }) ∷ [])) }
        ensures placed { (base : ℕ) (frames : List (List Record)) (from : ℕ) → from ≤ lsn → ArePlaced base frames gate from lsn self.old.unended.actions.items →
            OnOk result (ArePlaced base frames gate from (lsn + 1) self.new.unended.actions.items) }
    {
        match *rec {
            Rec::Checkpoint { estimate, .. } => {
                self.checkpoint = Some((lsn, estimate));
                Ok(())
            }
            _ => self.step(lsn, gate, rec),
        }
    }

    /// Takes the records in that the bytes are, the first of which has the number `lsn`. The gate of
    /// their frame is at the offset `at`. It answers `Damaged` exactly where they are no records, or
    /// one of them may not stand behind those before it.
    pub fn take(&mut self, lsn: Lsn, at: u64, body: &[u8]) -> Result<(), AnalysisFault>
        requires { lsn + length body.now ≤ LOG_END }
        ensures taken { (base : ℕ) (ns : List Numbered) → Knows self.old base ns → next_lsn (steps_of ns) ≤ lsn → OnOk result (AreTaken self.new base ns lsn body.now) }
        ensures placed { (base : ℕ) (frames : List (List Record)) → AreInFrames base frames self.old.unended.actions.items →
            OnOk result (ArePlaced base frames at lsn (lsn + length body.now) self.new.unended.actions.items) }
        ensures fails { (base : ℕ) (ns : List Numbered) → Knows self.old base ns → next_lsn (steps_of ns) ≤ lsn → IfErr result (RecordsFail base ns lsn at body.now) }
    {
        let mut from = 0;
        'records: while from < body.len() {
            let Ok((rec, size)) = decode(&body[from..]) else {
                return Err(AnalysisFault::Damaged { at });
            };
            let here = lsn + from as u64;
            if !self.may_stand(here, &rec) {
                return Err(AnalysisFault::Damaged { at });
            }
            self.note(here, at, &rec)?;
            from += size;
        }
        Ok(())
    }
}
