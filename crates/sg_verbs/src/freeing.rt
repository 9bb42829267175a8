// What was dropped is freed.
ghost use Rattle.std.specs.Prelude.{◌≡◌, ℕ, Some, IfErr, IfOk};
ghost use Rattle.sg_ops.specs.Table.{table_of};
ghost use Rattle.sg_store.specs.Engine.{KeepsBy, AsMeantBy, AskedBy, IsEngine, IsIdle, Action, pages_of, Changes, Counts, IsDiskFault, IsNearEnd};
ghost use Rattle.sg_store.specs.Verbs.{Reads, CanFree, FreesNext};
ghost use Rattle.sg_shown.specs.Shown.{shown};

use crate::pausing::{give_up, settle, sound};
use sg_actions::{Acts, Engine};
use sg_base::TxnId;
use sg_ops::Ops;
use sg_space::{SpaceFault, UndoNote};

/// Frees something that is buried, in an action of the system, with the note of its end: something that
/// this transaction dropped, or anything. `false` exactly where nothing of the kind is.
pub fn free_next<E: Engine>(
    acts: &mut Acts<E>,
    ops: &Ops,
    by: Option<TxnId>,
    note: &mut UndoNote,
) -> Result<bool, SpaceFault>
    requires can { AskedBy (table_of record_meaning range_meaning ops.now) (shown acts.old) (CanFree (table_of record_meaning range_meaning ops.now)) }
    ensures counts { Counts IsDiskFault (shown acts.old) (shown acts.new) result }
    ensures means { KeepsBy (table_of record_meaning range_meaning ops.now) (shown acts.old) (shown acts.new) }
    ensures log_end { IfErr result (IsNearEnd (shown acts.new).tail) }
    ensures frees { let t = table_of record_meaning range_meaning ops.now in
        AsMeantBy t (shown acts.old) (shown acts.new) (λ g v w. (o : g.O) (a : Action g)
        → IsEngine t g v → IsIdle v → v.action ≡ Some a
        → a ≡ record { transaction = 0; pages = pages_of t g v } → Reads t g v o
        → (c : Changes t g a v w) × IfOk result (FreesNext t g a by v w o c.made)) }
{
    note.set(&[]);
    sound(acts);
    match sg_objects::free_next(acts, ops, by) {
        Ok(was) => match settle(acts) {
            None => Ok(was),
            Some(fault) => Err(fault),
        },
        Err(_fault) => Err(give_up(acts, true)),
    }
}
