// The records of a transaction that are outside of its actions: marks, its commit and its end.
use crate::acts::count_break;
use crate::rows::{Row, last_in, place};
use crate::spelling::is_number;
use crate::{Acts, Engine};
use sg_base::{Lsn, TxnId};
use sg_record::Rec;
use sg_space::SpaceFault;

impl<E: Engine> Acts<E> {
    ghost use Rattle.std.specs.Prelude.{◌≡◌, ◌+◌, ◌≤◌, ℕ, false, IfOk, IfErr, OnOk};
    ghost use Rattle.sg_ops.specs.Table.{Table};
    ghost use Rattle.sg_action.specs.States.{State};
    ghost use Rattle.sg_actions.specs.Engine.{Keeps, IsNearEnd, led};
    ghost use Rattle.sg_space.specs.declared.space.SpaceFault.TheVariants.{LogEnd};
    ghost use Rattle.sg_recovery.specs.Log.Record.{Save, Commit, End};
    ghost use Rattle.sg_actions.specs.Acting.{HasChain};
    ghost use Rattle.sg_actions.specs.Counts.{ActsCounts, MayAppend};
    ghost use Rattle.sg_actions.specs.Ending.{CanMark, IsMark, Marked, Committed, CanClose, Closed};
    ghost use Rattle.sg_actions.specs.View.{IsKept};

    /// Sets a mark of a transaction, to which it can be rolled back, and answers the number of its record.
    pub fn save(&mut self, txn: TxnId, mark: u16) -> Result<Lsn, SpaceFault>
        requires can { CanMark (E.view self.old.engine) self.old.unfreed self.old.rows.items self.old.actor txn.0 }
        requires mark { IsMark mark }
        requires chain { HasChain (E.view self.old.engine) self.old.rows.items self.old.actor }
        requires quiet { (E.view self.old.engine).Told → self.old.begun ≡ false }
        ensures counts { ActsCounts (E.view self.old.engine) (E.view self.new.engine) self.old.breaks self.new.breaks result }
        ensures log_end { IfErr result (λ f. f ≡ LogEnd → IsNearEnd (E.view self.old.engine)) }
        ensures means { Keeps (E.means self.old.engine) (E.means self.new.engine) }
        ensures did { (limits : State → ℕ → ℕ) (t : Table) (from : State) → E.means self.old.engine t from → IfOk result (Marked t limits (led from (E.view self.old.engine)) (led from (E.view self.new.engine)) self.old.maps self.old.rows.items self.new.rows.items self.old.actor txn mark) }
        ensures maps { self.new.maps ≡ self.old.maps }
        ensures unfreed { self.new.unfreed ≡ self.old.unfreed }
        ensures actor { self.new.actor ≡ self.old.actor }
        ensures begun { self.new.begun ≡ self.old.begun }
        // also of a call that fails
        ensures appends { (limits : State → ℕ → ℕ) (t : Table) (from : State) → E.means self.old.engine t from → (E.view self.old.engine).Told → IsKept t limits (led from (E.view self.old.engine)) self.old.maps self.old.rows.items self.old.actor →
            MayAppend (E.recovers t) t (led from (E.view self.old.engine)) (led from (E.view self.new.engine)) self.old.rows.items txn.0 (λ last. Save txn.0 last mark) }
    {
        let Some(prev) = last_in(self.rows.as_slice(), txn) else {
            return Err(count_break(&mut self.breaks));
        };
        is_number(txn.0);
        is_number(prev);
        let lsn = self.engine.log(&Rec::Save { txn, prev, mark })?;
        place(self.rows.as_mut_slice(), txn, Row { txn, last: lsn });
        Ok(lsn)
    }

    /// Commits a transaction: at `Ok` its commit and all records before it are durable. It has a row until
    /// it ends.
    pub fn commit(&mut self, txn: TxnId) -> Result<(), SpaceFault>
        requires can { CanMark (E.view self.old.engine) self.old.unfreed self.old.rows.items self.old.actor txn.0 }
        requires chain { HasChain (E.view self.old.engine) self.old.rows.items self.old.actor }
        requires quiet { (E.view self.old.engine).Told → self.old.begun ≡ false }
        ensures counts { ActsCounts (E.view self.old.engine) (E.view self.new.engine) self.old.breaks self.new.breaks result }
        ensures log_end { IfErr result (λ f. f ≡ LogEnd → IsNearEnd (E.view self.old.engine)) }
        // what waited, its record of 21 bytes, and twice what a frame has beside its records
        ensures hands { (E.view self.new.engine).disk.handed ≤ (E.view self.old.engine).disk.handed + E.waiting self.old.engine + 33 }
        ensures none_waits { OnOk result (E.waiting self.new.engine ≡ 0) }
        ensures means { Keeps (E.means self.old.engine) (E.means self.new.engine) }
        ensures did { (limits : State → ℕ → ℕ) (t : Table) (from : State) → E.means self.old.engine t from → OnOk result (Committed t limits (led from (E.view self.old.engine)) (led from (E.view self.new.engine)) self.old.maps self.old.rows.items self.new.rows.items self.old.actor txn) }
        ensures maps { self.new.maps ≡ self.old.maps }
        ensures unfreed { self.new.unfreed ≡ self.old.unfreed }
        ensures actor { self.new.actor ≡ self.old.actor }
        ensures begun { self.new.begun ≡ self.old.begun }
        // also of a call that fails
        ensures appends { (limits : State → ℕ → ℕ) (t : Table) (from : State) → E.means self.old.engine t from → (E.view self.old.engine).Told → IsKept t limits (led from (E.view self.old.engine)) self.old.maps self.old.rows.items self.old.actor →
            MayAppend (E.recovers t) t (led from (E.view self.old.engine)) (led from (E.view self.new.engine)) self.old.rows.items txn.0 (λ last. Commit txn.0 last) }
    {
        let Some(prev) = last_in(self.rows.as_slice(), txn) else {
            return Err(count_break(&mut self.breaks));
        };
        is_number(txn.0);
        is_number(prev);
        let lsn = self.engine.log(&Rec::Commit { txn, prev })?;
        place(self.rows.as_mut_slice(), txn, Row { txn, last: lsn });
        self.engine.force()
    }

    /// Ends a transaction that has committed, or of which all is undone. Its row is vacant then.
    pub fn end(&mut self, txn: TxnId) -> Result<(), SpaceFault>
        requires can { CanClose (E.view self.old.engine) self.old.unfreed self.old.rows.items self.old.actor txn.0 }
        requires chain { HasChain (E.view self.old.engine) self.old.rows.items self.old.actor }
        requires quiet { (E.view self.old.engine).Told → self.old.begun ≡ false }
        ensures counts { ActsCounts (E.view self.old.engine) (E.view self.new.engine) self.old.breaks self.new.breaks result }
        ensures log_end { IfErr result (λ f. f ≡ LogEnd → IsNearEnd (E.view self.old.engine)) }
        ensures hands { (E.view self.new.engine).disk.handed ≤ (E.view self.old.engine).disk.handed + E.waiting self.old.engine + 6 }
        ensures means { Keeps (E.means self.old.engine) (E.means self.new.engine) }
        ensures did { (limits : State → ℕ → ℕ) (t : Table) (from : State) → E.means self.old.engine t from → OnOk result (Closed t limits (led from (E.view self.old.engine)) (led from (E.view self.new.engine)) self.old.maps self.old.rows.items self.new.rows.items self.old.actor txn) }
        ensures maps { self.new.maps ≡ self.old.maps }
        ensures unfreed { self.new.unfreed ≡ self.old.unfreed }
        ensures actor { self.new.actor ≡ self.old.actor }
        ensures begun { self.new.begun ≡ self.old.begun }
        // also of a call that fails
        ensures appends { (limits : State → ℕ → ℕ) (t : Table) (from : State) → E.means self.old.engine t from → (E.view self.old.engine).Told → IsKept t limits (led from (E.view self.old.engine)) self.old.maps self.old.rows.items self.old.actor →
            MayAppend (E.recovers t) t (led from (E.view self.old.engine)) (led from (E.view self.new.engine)) self.old.rows.items txn.0 (λ last. End txn.0 last) }
    {
        let Some(prev) = last_in(self.rows.as_slice(), txn) else {
            return Err(count_break(&mut self.breaks));
        };
        is_number(txn.0);
        is_number(prev);
        self.engine.log(&Rec::End { txn, prev })?;
        let vacant = Row {
            txn: TxnId(0),
            last: 0,
        };
        place(self.rows.as_mut_slice(), txn, vacant);
        Ok(())
    }
}
