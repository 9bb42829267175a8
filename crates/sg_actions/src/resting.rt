// Where nobody acts.
use crate::acts::count_break;
use crate::rows::{Actor, keep_row, last_in};
use crate::settling::{settle_bands, settle_pages};
use crate::{Acts, Engine};
use sg_base::TxnId;
use sg_space::SpaceFault;

impl<E: Engine> Acts<E> {
    ghost use Rattle.std.specs.Prelude.{◌≡◌, ◌≢◌, ◌≤◌, ◌↔◌, ℕ, true, false, IsTrue, [], None, Some, if◌then◌else◌};
    ghost use Rattle.sg_base.specs.Ends.{HasRisen};
    ghost use Rattle.sg_ops.specs.Table.{Table};
    ghost use Rattle.sg_recovery.specs.Log.{tally};
    ghost use Rattle.sg_action.specs.States.{State};
    ghost use Rattle.sg_actions.specs.Acting.{IsChained};
    ghost use Rattle.sg_actions.specs.Calls.{AreSettled};
    ghost use Rattle.sg_actions.specs.Engine.{led};
    ghost use Rattle.sg_actions.specs.Rows.{HasRow, rows_after, at_rest};
    ghost use Rattle.sg_actions.specs.Steps.{ended};
    ghost use Rattle.sg_actions.specs.View.{IsKept};

    /// Whose action was begun last, where no call has ended it.
    pub fn acting(&self) -> Option<TxnId>
        ensures { result ≡ (if self.now.begun then Some self.now.actor.txn else None) }
    {
        if self.begun {
            Some(self.actor.txn)
        } else {
            None
        }
    }

    /// Whether a last record of who acts is known: behind an opening, of an action that has no end.
    pub fn has_last(&self) -> bool
        ensures yes { result ≡ true → self.now.actor.last ≢ 0 }
        ensures no { result ≡ false → self.now.actor.last ≡ 0 }
    {
        self.actor.last != 0
    }

    /// Whether the open action has logged no change, or no action is open.
    pub fn is_still(&self) -> bool
        ensures { IsChained (E.view self.now.engine).base (E.view self.now.engine).steps (E.view self.now.engine).tail self.now.rows.items self.now.actor → (IsTrue result ↔ ((tally (E.view self.now.engine).steps).opened ≡ [])) }
    {
        self.actor.last == self.actor.before
    }

    /// Whether there is a row of this transaction.
    pub fn has_row(&self, txn: TxnId) -> bool
        ensures yes { result ≡ true → HasRow self.now.rows.items txn.0 }
        ensures no { result ≡ false → HasRow self.now.rows.items txn.0 → ⊥ }
    {
        last_in(self.rows.as_slice(), txn).is_some()
    }

    /// Whether one more transaction may begin.
    pub fn has_place(&self) -> bool
        ensures place { result ≡ true → HasRow self.now.rows.items 0 }
        ensures none { result ≡ false → HasRow self.now.rows.items 0 → ⊥ }
    {
        last_in(self.rows.as_slice(), TxnId(0)).is_some()
    }

    /// Reports that what was asked for can't be: a break is counted, and nothing else changes. An engine that
    /// tells is never asked.
    pub fn report(&mut self) -> SpaceFault
        requires untold { (E.view self.old.engine).Told → ⊥ }
        ensures answer { result ≡ SpaceFault.Disk }
        ensures risen { HasRisen self.old.breaks self.new.breaks }
        ensures later { self.old.breaks ≤ self.new.breaks }
        ensures engine { self.new.engine ≡ self.old.engine }
        ensures maps { self.new.maps ≡ self.old.maps }
        ensures unfreed { self.new.unfreed ≡ self.old.unfreed }
        ensures rows { self.new.rows.items ≡ self.old.rows.items }
        ensures actor { self.new.actor ≡ self.old.actor }
        ensures begun { self.new.begun ≡ self.old.begun }
        ensures begun_at { self.new.begun_at ≡ self.old.begun_at }
    {
        count_break(&mut self.breaks)
    }

    /// Ends an action that was begun and has logged nothing. Nobody acts then; what it freed is no longer
    /// taken, and the space shows what it showed.
    pub fn rest(&mut self)
        ensures engine { self.new.engine ≡ self.old.engine }
        ensures actor { self.new.actor ≡ at_rest }
        ensures begun { self.new.begun ≡ false }
        ensures breaks { self.new.breaks ≡ self.old.breaks }
        ensures rows { self.new.rows.items ≡ rows_after self.old.rows.items self.old.actor.txn self.old.actor.last }
        ensures pages { AreSettled self.old.maps.pages self.old.unfreed.pages self.new.maps.pages self.new.unfreed.pages }
        ensures bands { AreSettled self.old.maps.bands self.old.unfreed.bands self.new.maps.bands self.new.unfreed.bands }
        ensures kept { (limits : State → ℕ → ℕ) (t : Table) (from : State) → E.means self.old.engine t from → (E.view self.old.engine).Told → ended (E.view self.old.engine).steps ≡ (E.view self.old.engine).steps →
            IsKept t limits (led from (E.view self.old.engine)) self.old.maps self.old.rows.items self.old.actor → IsKept t limits (led from (E.view self.new.engine)) self.new.maps self.new.rows.items self.new.actor }
    {
        let actor = self.actor;
        keep_row(&mut self.rows, actor.txn, actor.last);
        self.actor = Actor {
            txn: TxnId(0),
            last: 0,
            before: 0,
        };
        self.begun = false;
        settle_pages(&mut self.maps, &mut self.unfreed);
        settle_bands(&mut self.maps, &mut self.unfreed);
    }
}
