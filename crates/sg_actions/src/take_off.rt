// An action without an end is taken off.
ghost use Rattle.std.specs.Prelude.{◌≡◌, ◌<◌, ℕ, IfSome, IfNone};
ghost use Rattle.sg_record.specs.Changes.{Change as Changing};
ghost use Rattle.sg_record.specs.Shown.{shown_change};
ghost use Rattle.sg_actions.specs.Reads.{AreOfRecord, ReadsChange};

use crate::acts::count_break;
use crate::rows::{Actor, keep_row};
use crate::settling::{forget_bands, forget_pages, untake};
use crate::spelling::{change_in, comp_of, is_brief, is_number, tell_range};
use crate::{Acts, Engine};
use sg_base::{Lsn, TxnId};
use sg_ops::Ops;
use sg_record::{Change, Rec, decode};
use sg_space::SpaceFault;

// The bytes of the greatest record.
const GREATEST: usize = 16_417;

// The change of the record that these bytes are of, with the record before it, where it makes one, names
// one below its own number, and a record has room for what takes the change off.
fn read_change<'a>(bytes: &'a [u8], at: Lsn) -> Option<(Change<'a>, Lsn)>
    ensures range { IfSome result (λ p. AreOfRecord bytes.now) }
    ensures reads { IfSome result (λ p. ReadsChange bytes.now at (shown_change p.0) p.1) }
    ensures none { IfNone result ((c : Changing) (previous : ℕ) → ReadsChange bytes.now at c previous → ⊥) }
{
    let Ok((r, _)) = decode(bytes) else {
        return None;
    };
    let Some((change, prev)) = change_in(&r) else {
        return None;
    };
    if prev >= at {
        return None;
    }
    if !is_brief(&change) {
        return None;
    }
    Some((change, prev))
}

impl<E: Engine> Acts<E> {
    ghost use Rattle.std.specs.Prelude.{◌≡◌, ◌≢◌, ◌<◌, ℕ, false, [], length, IfOk, OnOk};
    ghost use Rattle.sg_recovery.specs.Log.{tally};
    ghost use Rattle.sg_ops.specs.Table.{Table, table_of};
    ghost use Rattle.sg_actions.specs.Engine.{EngineCounts, Keeps, AreBy, led, now_of};
    ghost use Rattle.sg_actions.specs.TakingOff.{CanGoOff, IsAllOff, IsGoing, IsTakingOff, TookOff, Voided};
    ghost use Rattle.sg_actions.specs.Offed.{CanTakeOff, TakenOff, CanResume, ActionOff, IsResumable, AllOff};
    ghost use Rattle.sg_actions.specs.WentOff.{OffCounts, WentOff};
    ghost use Rattle.sg_action.specs.States.{State, Kept};

    // Takes the change off that the record with this number makes, and answers at which record the
    // take-off goes on.
    fn take_one_off(&mut self, ops: &Ops, at: Lsn) -> Result<Lsn, SpaceFault>
        requires off { let t = table_of record_meaning range_meaning ops.now in (E.view self.old.engine).Told →
            ∥ ((from : State) × E.means self.old.engine t from × CanGoOff t (led from (E.view self.old.engine)) self.old.rows.items self.old.actor at) ∥₁ }
        requires by { (E.view self.old.engine).Told → AreBy (E.means self.old.engine) (table_of record_meaning range_meaning ops.now) }
        requires begun { self.old.begun ≡ false }
        ensures begun { self.new.begun ≡ false }
        ensures told { (E.view self.new.engine).Told → (E.view self.old.engine).Told }
        ensures counts { OffCounts (E.view self.old.engine) (E.view self.new.engine) self.old.breaks self.new.breaks result }
        // also of a call that fails
        ensures goes { let t = table_of record_meaning range_meaning ops.now in (from : State) → E.means self.old.engine t from → (E.view self.old.engine).Told →
            (kept : Kept) (begin : State) → at ≢ self.old.actor.before → IsGoing t kept begin (led from (E.view self.old.engine)) self.old.rows.items self.old.actor at →
            WentOff (E.recovers t) t self.old.actor.txn.0 (led from (E.view self.old.engine)) (led from (E.view self.new.engine)) }
        ensures lower { IfOk result (λ next. next < at) }
        ensures means { let t = table_of record_meaning range_meaning ops.now in (from : State) → E.means self.old.engine t from → E.means self.new.engine t from }
        ensures did { let t = table_of record_meaning range_meaning ops.now in (from : State) → E.means self.old.engine t from → IfOk result (TookOff t (led from (E.view self.old.engine)) (led from (E.view self.new.engine)) self.old.maps self.new.maps self.old.unfreed self.old.rows.items self.old.actor self.new.actor at) }
        ensures who { self.new.actor.txn ≡ self.old.actor.txn }
        ensures unfreed { self.new.unfreed ≡ self.old.unfreed }
        ensures rows { self.new.rows.items ≡ self.old.rows.items }
    {
        let mut text = [0u8; GREATEST];
        let size = self.engine.read(at, &mut text)?;
        let Some((change, prev)) = read_change(&text[..size], at) else {
            return Err(count_break(&mut self.breaks));
        };
        let record = Rec::PhysComp {
            txn: self.actor.txn,
            prev: self.actor.last,
            undo_next: prev,
            change: comp_of(&change),
        };
        is_number(self.actor.txn.0);
        is_number(self.actor.last);
        is_number(prev);
        tell_range(&record);
        self.actor.last = self.engine.log_by(ops, &record)?;
        untake(&mut self.maps, &self.unfreed, &change);
        Ok(prev)
    }

    // Appends the record that all of an action is taken off. No action is open then.
    fn void(&mut self) -> Result<(), SpaceFault>
        requires over { (E.view self.old.engine).Told → ∥ IsAllOff (E.view self.old.engine).base (E.view self.old.engine).steps (E.view self.old.engine).tail self.old.actor ∥₁ }
        ensures counts { EngineCounts (E.view self.old.engine) (E.view self.new.engine) result }
        ensures means { Keeps (E.means self.old.engine) (E.means self.new.engine) }
        ensures did { (t : Table) (from : State) → E.means self.old.engine t from → OnOk result (Voided (led from (E.view self.old.engine)) (led from (E.view self.new.engine)) self.old.rows.items self.new.rows.items self.old.actor self.new.actor) }
        ensures maps { self.new.maps ≡ self.old.maps }
        ensures unfreed { self.new.unfreed ≡ self.old.unfreed }
        ensures breaks { self.new.breaks ≡ self.old.breaks }
        ensures begun { OnOk result (self.new.begun ≡ false) }
        // also of a call that fails
        ensures goes { (t : Table) (from : State) → E.means self.old.engine t from → (E.view self.old.engine).Told → (kept : Kept) (begin : State) →
            IsTakingOff t kept begin (E.view self.old.engine).base (E.view self.old.engine).steps (now_of t (led from (E.view self.old.engine))) (E.view self.old.engine).tail self.old.rows.items self.old.actor → (tally (E.view self.old.engine).steps).opened ≡ [] →
            WentOff (E.recovers t) t self.old.actor.txn.0 (led from (E.view self.old.engine)) (led from (E.view self.new.engine)) }
    {
        let actor = self.actor;
        is_number(actor.txn.0);
        is_number(actor.last);
        is_number(actor.before);
        let lsn = self.engine.log(&Rec::TopVoid {
            txn: actor.txn,
            prev: actor.last,
            undo_next: actor.before,
        })?;
        keep_row(&mut self.rows, actor.txn, lsn);
        self.begun = false;
        self.actor = Actor {
            txn: TxnId(0),
            last: 0,
            before: 0,
        };
        Ok(())
    }

    /// Takes the open action off, the last change first: pages and bands can't be told then from those
    /// at its begin. No action is open then, and the system acts.
    pub fn take_off(&mut self, ops: &Ops) -> Result<(), SpaceFault>
        requires well { let t = table_of record_meaning range_meaning ops.now in (E.view self.old.engine).Told →
            ∥ ((limits : State → ℕ → ℕ) × (from : State) × E.means self.old.engine t from × CanTakeOff t limits (led from (E.view self.old.engine)) self.old.maps self.old.rows.items self.old.actor) ∥₁ }
        requires by { (E.view self.old.engine).Told → AreBy (E.means self.old.engine) (table_of record_meaning range_meaning ops.now) }
        ensures means { let t = table_of record_meaning range_meaning ops.now in (from : State) → E.means self.old.engine t from → E.means self.new.engine t from }
        ensures told { (E.view self.new.engine).Told → (E.view self.old.engine).Told }
        ensures did { let t = table_of record_meaning range_meaning ops.now in (limits : State → ℕ → ℕ) (from : State) → E.means self.old.engine t from →
            ((E.view self.old.engine).Told → CanTakeOff t limits (led from (E.view self.old.engine)) self.old.maps self.old.rows.items self.old.actor) → OnOk result (TakenOff t limits (led from (E.view self.old.engine)) (led from (E.view self.new.engine)) self.old.maps self.new.maps self.new.unfreed self.new.rows.items self.old.actor self.new.actor) }
        ensures counts { OffCounts (E.view self.old.engine) (E.view self.new.engine) self.old.breaks self.new.breaks result }
        // also of a call that fails
        ensures goes { let t = table_of record_meaning range_meaning ops.now in (limits : State → ℕ → ℕ) (from : State) → E.means self.old.engine t from → (E.view self.old.engine).Told →
            CanTakeOff t limits (led from (E.view self.old.engine)) self.old.maps self.old.rows.items self.old.actor →
            WentOff (E.recovers t) t self.old.actor.txn.0 (led from (E.view self.old.engine)) (led from (E.view self.new.engine)) }
    {
        // No change is logged from now on.
        self.begun = false;
        forget_pages(&mut self.unfreed);
        forget_bands(&mut self.unfreed);
        let mut at = self.actor.last;
        'changes: while at != self.actor.before {
            at = self.take_one_off(ops, at)?;
        }
        self.void()
    }

    /// Goes on with a take-off that was stopped, at the record with this number: where the last one that
    /// took a change off points to. No action is open then, and the system acts.
    pub fn resume(&mut self, ops: &Ops, from: Lsn) -> Result<(), SpaceFault>
        requires off { let t = table_of record_meaning range_meaning ops.now in (E.view self.old.engine).Told →
            ∥ ((start : State) × E.means self.old.engine t start × CanResume t (led start (E.view self.old.engine)) self.old.rows.items self.old.actor from) ∥₁ }
        requires by { (E.view self.old.engine).Told → AreBy (E.means self.old.engine) (table_of record_meaning range_meaning ops.now) }
        ensures told { (E.view self.new.engine).Told → (E.view self.old.engine).Told }
        ensures means { let t = table_of record_meaning range_meaning ops.now in (start : State) → E.means self.old.engine t start → E.means self.new.engine t start }
        ensures did { let t = table_of record_meaning range_meaning ops.now in (limits : State → ℕ → ℕ) (start : State) → E.means self.old.engine t start → OnOk result ((kept : Kept) (begin : State) →
            ((E.view self.old.engine).Told → IsResumable t kept begin (led start (E.view self.old.engine)) self.old.maps self.old.unfreed self.old.rows.items self.old.actor from) →
            (E.view self.new.engine).Told → AllOff t limits kept begin (led start (E.view self.new.engine)) self.new.maps self.new.rows.items self.new.actor) }
        ensures over { let t = table_of record_meaning range_meaning ops.now in (start : State) → E.means self.old.engine t start → OnOk result ((kept : Kept) (begin : State) →
            ((E.view self.old.engine).Told → IsGoing t kept begin (led start (E.view self.old.engine)) self.old.rows.items self.old.actor from) →
            (E.view self.new.engine).Told → ActionOff t kept begin (led start (E.view self.new.engine)) self.new.rows.items self.new.actor) }
        ensures counts { OffCounts (E.view self.old.engine) (E.view self.new.engine) self.old.breaks self.new.breaks result }
        // also of a call that fails
        ensures goes { let t = table_of record_meaning range_meaning ops.now in (start : State) → E.means self.old.engine t start → (E.view self.old.engine).Told → (kept : Kept) (begin : State) →
            IsGoing t kept begin (led start (E.view self.old.engine)) self.old.rows.items self.old.actor from →
            WentOff (E.recovers t) t self.old.actor.txn.0 (led start (E.view self.old.engine)) (led start (E.view self.new.engine)) }
        ensures begun { OnOk result (self.new.begun ≡ false) }
        ensures unfreed { self.new.unfreed ≡ self.old.unfreed }
    {
        self.begun = false;
        let mut at = from;
        'changes: while at != self.actor.before {
            at = self.take_one_off(ops, at)?;
        }
        self.void()
    }
}
