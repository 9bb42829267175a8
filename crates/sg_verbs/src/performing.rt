// An operation is done in the open action.
ghost use Rattle.std.specs.Prelude.{◌≡◌, ◌≤◌, ◌+◌, false, [], OnOk, IfErr, length};
ghost use Rattle.sg_ops.specs.Table.{table_of};
ghost use Rattle.sg_model.specs.SaidOps.{said_op, verb_of};
ghost use Rattle.sg_model.specs.Step.{is_changing};
ghost use Rattle.sg_reading.specs.Noted.{BringsBytes};
ghost use Rattle.sg_store.specs.Engine.{KeepsBy, AsMeantBy, AskedBy, Action, IsEngine, Changes, Counts, IsObjDisk, IsVerbEnd, VERB_BYTES, IsRefusedQuietly};
ghost use Rattle.sg_store.specs.Verbs.{CanPerform, CanDo, HasPerformed};
ghost use Rattle.sg_shown.specs.Shown.{shown};

use crate::pausing::{give_up, hold, release, settle};
use sg_actions::{Acts, Engine};
use sg_base::TxnId;
use sg_model::{Op, Reply};
use sg_ops::{Ops, are_bytes};
use sg_space::UndoNote;
use sg_store::ObjFault;

/// The most by which a verb raises the log's tail, with room for one more record behind it.
const MOST_BYTES: u64 = 1_073_741_824 - 131_072;

// Tells a proof that what an operation brings to an array are bytes. It runs no code.
fn brings_bytes(op: &Op<'_>)
    ensures { BringsBytes (verb_of op.now) }
{
    match *op {
        Op::Push { value, .. } | Op::Set { value, .. } => are_bytes(value),
        Op::Apply { arg, .. } => are_bytes(arg),
        _ => {}
    }
}

/// Does an operation in the action of the transaction, which has changed nothing yet, and notes what
/// undoes it. The note has no bytes where nothing was changed.
pub fn perform<E: Engine>(
    acts: &mut Acts<E>,
    ops: &Ops,
    txn: TxnId,
    op: &Op<'_>,
    into: &mut [u8],
    note: &mut UndoNote,
) -> Result<Reply, ObjFault>
    requires into { 8192 ≤ length into.old }
    requires can { AskedBy (table_of record_meaning range_meaning ops.now) (shown acts.old) (CanDo txn.0 (said_op op.now) (table_of record_meaning range_meaning ops.now)) }
    ensures counts { Counts IsObjDisk (shown acts.old) (shown acts.new) result }
    ensures refused { IfErr result (IsRefusedQuietly (shown acts.old) (shown acts.new)) }
    ensures means { KeepsBy (table_of record_meaning range_meaning ops.now) (shown acts.old) (shown acts.new) }
    ensures log_end { IfErr result (IsVerbEnd (is_changing (said_op op.now)) (shown acts.old).tail) }
    ensures grows { OnOk result ((shown acts.new).tail ≤ (shown acts.old).tail + VERB_BYTES) }
    ensures looks { OnOk result (is_changing (said_op op.now) ≡ false → note.new ≡ []) }
    ensures performs { let t = table_of record_meaning range_meaning ops.now in
        AsMeantBy t (shown acts.old) (shown acts.new) (λ g v w. (o : g.O) (a : Action g)
        → IsEngine t g v → v.action ≡ Some a → a.transaction ≡ txn.0
        → CanPerform t g v o (said_op op.now) → (c : Changes t g a v w)
        × HasPerformed t g a v w o (said_op op.now) c.made into.new note.new result) }
{
    op.name().tell_name();
    brings_bytes(op);
    let changes = op.is_changing();
    let start = acts.tail();
    // what can change nothing is looked up while whoever acts pauses
    let was = hold(acts, changes);
    let done = sg_objects::perform(acts, ops, txn, op, into, note);
    release(acts, changes, was);
    let end = acts.tail();
    // A space that tells never writes more in one verb. One that doesn't is asked no further.
    if end - start > MOST_BYTES {
        acts.stop();
        return Err(ObjFault::Space(acts.report()));
    }
    match done {
        Ok(reply) => match settle(acts) {
            None => Ok(reply),
            Some(fault) => Err(ObjFault::Space(fault)),
        },
        Err(why) => match why {
            sg_objects::ObjFault::Model(reason) => match settle(acts) {
                None => Err(ObjFault::Model(reason)),
                Some(fault) => Err(ObjFault::Space(fault)),
            },
            sg_objects::ObjFault::Space(_fault) => Err(ObjFault::Space(give_up(acts, changes))),
        },
    }
}
