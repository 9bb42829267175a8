// Actions.
ghost use Rattle.std.specs.Prelude.{◌≡◌, ◌≤◌, ℕ, Some, IfErr, OnOk};
ghost use Rattle.sg_recovery.specs.Log.Record.{TopEnd};
ghost use Rattle.sg_store.specs.Engine.{Keeps, AsMeant, Asked, Action, IsEngine, IsIdle, MayAct, ActsFor, Appends, Appended, Counts, IsDiskFault, IsNearEnd, pages_of};
ghost use Rattle.sg_shown.specs.Shown.{shown};

use crate::resting::quiet;
use sg_actions::{Acts, Engine};
use sg_base::TxnId;
use sg_space::{SpaceFault, UndoNote};

/// What is changed from now on is an action of this transaction, which is live, or of the system.
pub fn act<E: Engine>(acts: &mut Acts<E>, txn: TxnId)
    requires can { Asked (shown acts.old) (MayAct txn.0) }
    ensures disk { (shown acts.new).disk ≡ (shown acts.old).disk }
    ensures gate { (shown acts.new).gate ≡ (shown acts.old).gate }
    ensures tail { (shown acts.new).tail ≡ (shown acts.old).tail }
    ensures quiet { (shown acts.new).faults ≡ (shown acts.old).faults }
    ensures told { (shown acts.new).Told → (shown acts.old).Told }
    ensures tells { (shown acts.old).Told → (shown acts.new).Told }
    ensures means { Keeps (shown acts.old) (shown acts.new) }
    ensures acts { AsMeant (shown acts.old) (shown acts.new) (λ t g v w. IsEngine t g v → IsIdle v
        → IsEngine t g w × (w ≡ record v { action = Some (record { transaction = txn.0; pages = pages_of t g v }) })) }
{
    quiet(acts);
    acts.act(txn);
}

/// Ends the action of the transaction, with how it is undone.
pub fn end_action<E: Engine>(
    acts: &mut Acts<E>,
    txn: TxnId,
    note: &UndoNote,
) -> Result<(), SpaceFault>
    requires can { Asked (shown acts.old) (ActsFor txn.0) }
    ensures counts { Counts IsDiskFault (shown acts.old) (shown acts.new) result }
    ensures means { Keeps (shown acts.old) (shown acts.new) }
    ensures log_end { IfErr result (IsNearEnd (shown acts.old).tail) }
    ensures ends { AsMeant (shown acts.old) (shown acts.new) (λ t g v w. (a : Action g)
        → IsEngine t g v → v.action ≡ Some a → a.transaction ≡ txn.0 → (lsn : ℕ)
        × (previous : ℕ) × (undo_next : ℕ)
        × Appends t g v w (record { lsn = lsn; is = TopEnd txn.0 previous undo_next (g.note note.now) })
        × OnOk result (Appended t g v w (record { lsn = lsn; is = TopEnd txn.0 previous undo_next (g.note note.now) }))) }
{
    acts.end_action(txn, note)
}
