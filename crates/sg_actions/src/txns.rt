// Transactions and the ends of their actions.
ghost use Rattle.std.specs.Prelude.{◌≡◌, ◌<◌, ◌≤◌, length, IfOk, OnOk};

use crate::rows::{Actor, Row, keep_row, last_in, place};
use crate::settling::{settle_bands, settle_pages};
use crate::spelling::is_number;
use crate::{Acts, Engine};
use sg_base::{Lsn, TxnId};
use sg_record::Rec;
use sg_space::{SpaceFault, UndoNote};
use std::snapshot::Snapshot;

impl<E: Engine> Acts<E> {
    ghost use Rattle.std.specs.Prelude.{◌≡◌, ◌≤◌, ◌<◌, ℕ, true, false, [], length, IfOk, OnOk};
    ghost use Rattle.sg_checkpoints.specs.Checkpoints.{StaysMarked};
    ghost use Rattle.sg_checkpoints.specs.Cutting.{IsCut};
    ghost use Rattle.sg_ops.specs.Table.{Table};
    ghost use Rattle.sg_action.specs.States.{State};
    ghost use Rattle.sg_recovery.specs.Log.{tally};
    ghost use Rattle.sg_actions.specs.Acting.{HasChain};
    ghost use Rattle.sg_actions.specs.Cutting.{IsOldest};
    ghost use Rattle.sg_actions.specs.Engine.{EngineCounts, EngineRests, EngineLooks, IsForced, Keeps, led};
    ghost use Rattle.sg_actions.specs.Calls.{Appends, CanBegin, Begun, CanAct, NowActs, CanEnd, ActionEnded};
    ghost use Rattle.sg_actions.specs.View.{IsKept, Since};
    ghost use Rattle.sg_recovery.specs.Log.Record.{Begin, TopEnd};

    /// The number of the log's next byte.
    pub fn tail(&self) -> Lsn
        ensures { result ≡ (E.view self.now.engine).tail }
    {
        self.engine.tail()
    }

    /// The number of the first byte that the log still has.
    pub fn start(&self) -> Lsn
        ensures { result ≡ E.first_byte self.now.engine }
    {
        self.engine.start()
    }

    /// Makes the log durable, and writes each changed page and band home.
    pub fn flush(&mut self) -> Result<(), SpaceFault>
        ensures rests { EngineRests (E.view self.old.engine) (E.view self.new.engine) result }
        ensures written { OnOk result ((lsn : ℕ) → E.unwritten self.new.engine lsn → ⊥) }
        ensures marked { OnOk result ((E.view self.old.engine).Told → StaysMarked (E.marked self.old.engine) (E.marked self.new.engine) E.ends_at (E.view self.new.engine).disk.now) }
        ensures means { Keeps (E.means self.old.engine) (E.means self.new.engine) }
        ensures looks { (t : Table) (from : State) → E.means self.old.engine t from → EngineLooks (E.recovers t) t (led from (E.view self.old.engine)) (led from (E.view self.new.engine)) result }
        ensures forced { OnOk result (IsForced (E.view self.new.engine)) }
        ensures kept { (limits : State → ℕ → ℕ) (t : Table) (from : State) → E.means self.old.engine t from → OnOk result ((E.view self.old.engine).Told → IsKept t limits (led from (E.view self.old.engine)) self.old.maps self.old.rows.items self.old.actor →
            IsKept t limits (led from (E.view self.new.engine)) self.new.maps self.new.rows.items self.new.actor) }
        ensures maps { self.new.maps ≡ self.old.maps }
        ensures unfreed { self.new.unfreed ≡ self.old.unfreed }
        ensures rows { self.new.rows.items ≡ self.old.rows.items }
        ensures actor { self.new.actor ≡ self.old.actor }
        ensures begun { self.new.begun ≡ self.old.begun }
        ensures begun_at { self.new.begun_at ≡ self.old.begun_at }
        ensures breaks { self.new.breaks ≡ self.old.breaks }
    {
        self.engine.flush()?;
        Ok(())
    }

    /// Makes the log durable, and cuts off its front what neither redo nor undo wants any more, where `oldest` is the transaction
    /// that goes on and began first. No action is open. What is kept begins with the frame that holds the least of the changes
    /// that aren't on the disk yet, the begin of `oldest` and the last checkpoint; without a checkpoint nothing is cut.
    pub fn truncate(&mut self, oldest: Option<TxnId>) -> Result<(), SpaceFault>
        requires idle { (E.view self.old.engine).Told → (tally (E.view self.old.engine).steps).opened ≡ [] }
        requires oldest { (E.view self.old.engine).Told → IsOldest oldest (tally (E.view self.old.engine).steps).live }
        ensures rests { EngineRests (E.view self.old.engine) (E.view self.new.engine) result }
        ensures means { Keeps (E.means self.old.engine) (E.means self.new.engine) }
        ensures looks { (t : Table) (from : State) → E.means self.old.engine t from → EngineLooks (E.recovers t) t (led from (E.view self.old.engine)) (led from (E.view self.new.engine)) result }
        ensures forced { OnOk result (IsForced (E.view self.new.engine)) }
        ensures cuts { OnOk result ((E.view self.old.engine).Told → IsCut (E.unwritten self.old.engine) oldest (E.last_checkpoint self.old.engine) (E.is_spent self.old.engine) (E.first_byte self.old.engine) (E.first_byte self.new.engine) (E.first_frame_end self.new.engine)) }
        ensures kept { (limits : State → ℕ → ℕ) (t : Table) (from : State) → E.means self.old.engine t from → OnOk result ((E.view self.old.engine).Told → IsKept t limits (led from (E.view self.old.engine)) self.old.maps self.old.rows.items self.old.actor →
            IsKept t limits (led from (E.view self.new.engine)) self.new.maps self.new.rows.items self.new.actor) }
        ensures maps { self.new.maps ≡ self.old.maps }
        ensures unfreed { self.new.unfreed ≡ self.old.unfreed }
        ensures rows { self.new.rows.items ≡ self.old.rows.items }
        ensures actor { self.new.actor ≡ self.old.actor }
        ensures begun { self.new.begun ≡ self.old.begun }
        ensures begun_at { self.new.begun_at ≡ self.old.begun_at }
        ensures breaks { self.new.breaks ≡ self.old.breaks }
    {
        self.engine.truncate(oldest)?;
        Ok(())
    }

    /// Begins a transaction, whose number is that of its record.
    pub fn begin(&mut self) -> Result<TxnId, SpaceFault>
        requires can { CanBegin (E.view self.old.engine) self.old.unfreed self.old.rows.items self.old.actor }
        requires chain { HasChain (E.view self.old.engine) self.old.rows.items self.old.actor }
        requires quiet { (E.view self.old.engine).Told → self.old.begun ≡ false }
        ensures number { IfOk result (λ u. ((E.view self.old.engine).tail ≤ u.0) × (u.0 < (E.view self.new.engine).tail)) }
        ensures counts { EngineCounts (E.view self.old.engine) (E.view self.new.engine) result }
        ensures means { Keeps (E.means self.old.engine) (E.means self.new.engine) }
        ensures did { (limits : State → ℕ → ℕ) (t : Table) (from : State) → E.means self.old.engine t from → IfOk result (Begun t limits (led from (E.view self.old.engine)) (led from (E.view self.new.engine)) self.old.maps self.old.rows.items self.new.rows.items self.old.actor) }
        ensures maps { self.new.maps ≡ self.old.maps }
        ensures unfreed { self.new.unfreed ≡ self.old.unfreed }
        ensures actor { self.new.actor ≡ self.old.actor }
        ensures begun { self.new.begun ≡ self.old.begun }
        ensures breaks { self.new.breaks ≡ self.old.breaks }
        // also of a call that fails
        ensures appends { (limits : State → ℕ → ℕ) (t : Table) (from : State) → E.means self.old.engine t from → (E.view self.old.engine).Told → IsKept t limits (led from (E.view self.old.engine)) self.old.maps self.old.rows.items self.old.actor →
            Appends (E.recovers t) t (led from (E.view self.old.engine)) (led from (E.view self.new.engine)) (Begin (E.view self.new.engine).tried 0) }
    {
        let txn = TxnId(
            self.engine.next(&Rec::Begin {
                txn: TxnId(0),
                prev: 0,
            }),
        );
        self.engine.log(&Rec::Begin { txn, prev: 0 })?;
        place(self.rows.as_mut_slice(), TxnId(0), Row { txn, last: txn.0 });
        Ok(txn)
    }

    /// The transaction acts, or the system, which is 0: the records that follow are its.
    pub fn act(&mut self, txn: TxnId)
        requires can { CanAct (E.view self.old.engine) self.old.unfreed self.old.rows.items self.old.actor txn.0 }
        requires chain { HasChain (E.view self.old.engine) self.old.rows.items self.old.actor }
        ensures acts { (limits : State → ℕ → ℕ) (t : Table) (from : State) → E.means self.old.engine t from → NowActs t limits (led from (E.view self.old.engine)) self.old.maps self.old.rows.items self.old.actor self.new.actor txn.0 }
        ensures engine { self.new.engine ≡ self.old.engine }
        ensures since { (t : Table) (from : State) → E.means self.old.engine t from →
            Since (E.means self.new.engine) (E.view self.new.engine) self.new.begun (E.view self.new.begun_at.value).now t from }
        ensures maps { self.new.maps ≡ self.old.maps }
        ensures unfreed { self.new.unfreed ≡ self.old.unfreed }
        ensures begun { self.new.begun ≡ true }
        ensures breaks { self.new.breaks ≡ self.old.breaks }
        ensures rows { self.new.rows.items ≡ self.old.rows.items }
    {
        self.begun = true;
        self.begun_at = Snapshot::of(&self.engine);
        if txn.0 == 0 {
            return;
        }
        if let Some(last) = last_in(self.rows.as_slice(), txn) {
            self.actor = Actor {
                txn,
                last,
                before: last,
            };
        }
    }

    /// Ends the action of who acts, with a note that says how it is undone. No action is open then, and
    /// the system acts.
    pub fn end_action(&mut self, txn: TxnId, note: &UndoNote) -> Result<(), SpaceFault>
        requires can { CanEnd (E.view self.old.engine) self.old.actor txn.0 }
        requires chain { HasChain (E.view self.old.engine) self.old.rows.items self.old.actor }
        ensures counts { EngineCounts (E.view self.old.engine) (E.view self.new.engine) result }
        ensures means { Keeps (E.means self.old.engine) (E.means self.new.engine) }
        ensures did { (limits : State → ℕ → ℕ) (t : Table) (from : State) → E.means self.old.engine t from → OnOk result (ActionEnded t limits (led from (E.view self.old.engine)) (led from (E.view self.new.engine)) self.old.maps self.new.maps self.old.unfreed self.new.unfreed self.old.rows.items self.new.rows.items self.old.actor self.new.actor note.now) }
        ensures pages { length self.new.maps.pages ≡ length self.old.maps.pages }
        ensures bands { length self.new.maps.bands ≡ length self.old.maps.bands }
        ensures begun { OnOk result (self.new.begun ≡ false) }
        ensures breaks { self.new.breaks ≡ self.old.breaks }
        // also of a call that fails
        ensures appends { (limits : State → ℕ → ℕ) (t : Table) (from : State) → E.means self.old.engine t from → (E.view self.old.engine).Told → IsKept t limits (led from (E.view self.old.engine)) self.old.maps self.old.rows.items self.old.actor →
            Appends (E.recovers t) t (led from (E.view self.old.engine)) (led from (E.view self.new.engine)) (TopEnd self.old.actor.txn.0 self.old.actor.last self.old.actor.before note.now) }
    {
        let actor = self.actor;
        is_number(actor.txn.0);
        is_number(actor.last);
        is_number(actor.before);
        note.size();
        let lsn = self.engine.log(&Rec::TopEnd {
            txn: actor.txn,
            prev: actor.last,
            undo_next: actor.before,
            note: note.bytes(),
        })?;
        keep_row(&mut self.rows, actor.txn, lsn);
        self.actor = Actor {
            txn: TxnId(0),
            last: 0,
            before: 0,
        };
        self.begun = false;
        settle_pages(&mut self.maps, &mut self.unfreed);
        settle_bands(&mut self.maps, &mut self.unfreed);
        Ok(())
    }
}
