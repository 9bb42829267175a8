// Any verb, done to the object of a name.
ghost use Rattle.std.specs.Prelude.{◌≡◌, ◌≤◌, length, IfOk, [], false, ◌+◌};
ghost use Rattle.sg_model.specs.SaidOps.{name_of, verb_of};
ghost use Rattle.sg_model.specs.SaidReplies.{said_outcome};
ghost use Rattle.sg_ops.specs.Table.{table_of};
ghost use Rattle.sg_space.specs.View.{Counts};
ghost use Rattle.sg_contents.specs.Standing.{HasContents};
ghost use Rattle.sg_objects.specs.Calls.{CountsObject, IfSaid};
ghost use Rattle.sg_objects.specs.Done.{Did, IsDone, IsFresh, HasRoomFor};
ghost use Rattle.sg_objects.specs.Shaped.{Shapes};
ghost use Rattle.sg_objects.specs.Quiet.{IsQuiet, LooksAlone, LooksAtObjects, Wrote, most_records};
ghost use Rattle.sg_model.specs.Step.{is_changing_verb};

use crate::apply::apply;
use crate::array::{get, pop, push, set};
use crate::blob_make::make_blob;
use crate::blob_paint::paint;
use crate::blob_read::read;
use crate::blob_size::resize;
use crate::blob_write::write;
use crate::len::len;
use crate::make::{discard, make_array, make_table};
use crate::put::put;
use crate::table::{del, find};
use sg_base::TxnId;
use sg_model::{Op, Reason, Reply};
use sg_ops::Ops;
use sg_space::{PageSpace, SpaceFault, UndoNote};

/// Why a call of the objects failed.
#[derive(Clone, Copy, Debug, PartialEq, Eq)]
pub enum ObjFault {
    /// The operation is refused.
    Model(Reason),
    /// A call of the space failed.
    Space(SpaceFault),
}

// The verb, by what the operation is.
fn perform_verb<P: PageSpace>(
    space: &mut P,
    ops: &Ops,
    by: TxnId,
    op: &Op<'_>,
    into: &mut [u8],
    undo: &mut UndoNote,
) -> Result<Result<Reply, Reason>, SpaceFault>
    requires means { P.means space.old (table_of record_meaning range_meaning ops.now) }
    requires room { 8192 ≤ length into.old }
    requires there { HasContents (P.view space.old) (HasRoomFor (table_of record_meaning range_meaning ops.now) (P.view space.old) (name_of op.now) (verb_of op.now)) }
    requires fresh { (P.view space.old).Told → IsFresh (P.view space.old) }
    ensures counts { Counts (P.view space.old) (P.view space.new) result }
    ensures did { IfOk result (λ r. Did (P.view space.old) (P.view space.new) (HasRoomFor (table_of record_meaning range_meaning ops.now) (P.view space.old) (name_of op.now) (verb_of op.now))
        (IsDone (table_of record_meaning range_meaning ops.now) by.0 (name_of op.now) (verb_of op.now) (said_outcome into.new r) undo.new (P.view space.old).space (P.view space.new).space)) }
    ensures splits { IfOk result (λ r. Shapes (P.view space.old) (P.view space.new) (HasRoomFor (table_of record_meaning range_meaning ops.now) (P.view space.old) (name_of op.now) (verb_of op.now)) (name_of op.now) (verb_of op.now) (said_outcome into.new r)) }
    ensures later { P.later (table_of record_meaning range_meaning ops.now) space.old space.new }
    ensures means { P.means space.new (table_of record_meaning range_meaning ops.now) }
    ensures few { (P.view space.old).Told → (P.view space.new).records ≤ (P.view space.old).records + most_records }
    ensures looks { is_changing_verb (verb_of op.now) ≡ false → LooksAlone (P.view space.old) (P.view space.new) result undo.new }
    ensures quiet { IfOk result (λ _. undo.new ≡ [] → IsQuiet (P.view space.old) (P.view space.new)) }
    ensures wrote { IfOk result (λ r. Wrote (P.view space.old) (P.view space.new) (HasRoomFor (table_of record_meaning range_meaning ops.now) (P.view space.old) (name_of op.now) (verb_of op.now)) (name_of op.now) (verb_of op.now) (said_outcome into.new r)) }
{
    match *op {
        Op::MakeArray { name, size } => make_array(space, ops, name, size, into, undo),
        Op::MakeTable { name } => make_table(space, ops, name, into, undo),
        Op::Discard { name } => discard(space, ops, by, name, into, undo),
        Op::Push { name, value } => push(space, ops, name, value, into, undo),
        Op::Pop { name } => pop(space, ops, name, into, undo),
        Op::Set { name, index, value } => set(space, ops, name, index, value, into, undo),
        Op::Get { name, index } => get(space, ops, name, index, into, undo),
        Op::Len { name } => len(space, ops, name, into, undo),
        Op::Apply {
            name,
            index,
            code,
            arg,
        } => apply(space, ops, name, index, code, arg, into, undo),
        Op::Put { name, key, value } => put(space, ops, name, key, value, into, undo),
        Op::Del { name, key } => del(space, ops, name, key, into, undo),
        Op::Find { name, key } => find(space, ops, name, key, into, undo),
        Op::MakeBlob { name } => make_blob(space, ops, name, into, undo),
        Op::Write { name, at, bytes } => write(space, ops, name, at, bytes, into, undo),
        Op::Read { name, at, count } => read(space, ops, name, at, count, into, undo),
        Op::Size { name, length } => resize(space, ops, name, length, into, undo),
        Op::Paint {
            name,
            at,
            count,
            code,
            arg,
        } => paint(space, ops, name, at, count, code, arg, into, undo),
    }
}

/// Does an operation to the object of its name, in an action that has changed nothing yet, and notes what undoes
/// it. The note has no bytes where nothing was changed.
pub fn perform<P: PageSpace>(
    space: &mut P,
    ops: &Ops,
    by: TxnId,
    op: &Op<'_>,
    into: &mut [u8],
    undo: &mut UndoNote,
) -> Result<Reply, ObjFault>
    requires means { P.means space.old (table_of record_meaning range_meaning ops.now) }
    requires room { 8192 ≤ length into.old }
    requires there { HasContents (P.view space.old) (HasRoomFor (table_of record_meaning range_meaning ops.now) (P.view space.old) (name_of op.now) (verb_of op.now)) }
    requires fresh { (P.view space.old).Told → IsFresh (P.view space.old) }
    ensures counts { CountsObject (P.view space.old) (P.view space.new) result }
    ensures did { IfSaid into.new result (λ outcome. Did (P.view space.old) (P.view space.new) (HasRoomFor (table_of record_meaning range_meaning ops.now) (P.view space.old) (name_of op.now) (verb_of op.now))
        (IsDone (table_of record_meaning range_meaning ops.now) by.0 (name_of op.now) (verb_of op.now) outcome undo.new (P.view space.old).space (P.view space.new).space)) }
    ensures splits { IfSaid into.new result (λ outcome. Shapes (P.view space.old) (P.view space.new) (HasRoomFor (table_of record_meaning range_meaning ops.now) (P.view space.old) (name_of op.now) (verb_of op.now)) (name_of op.now) (verb_of op.now) outcome) }
    ensures later { P.later (table_of record_meaning range_meaning ops.now) space.old space.new }
    ensures means { P.means space.new (table_of record_meaning range_meaning ops.now) }
    ensures few { (P.view space.old).Told → (P.view space.new).records ≤ (P.view space.old).records + most_records }
    ensures looks { is_changing_verb (verb_of op.now) ≡ false → LooksAtObjects (P.view space.old) (P.view space.new) result undo.new }
    ensures quiet { IfSaid into.new result (λ _. undo.new ≡ [] → IsQuiet (P.view space.old) (P.view space.new)) }
    ensures wrote { IfSaid into.new result (λ outcome. Wrote (P.view space.old) (P.view space.new) (HasRoomFor (table_of record_meaning range_meaning ops.now) (P.view space.old) (name_of op.now) (verb_of op.now)) (name_of op.now) (verb_of op.now) outcome) }
{
    match perform_verb(space, ops, by, op, into, undo) {
        Err(fault) => Err(ObjFault::Space(fault)),
        Ok(Err(reason)) => Err(ObjFault::Model(reason)),
        Ok(Ok(reply)) => Ok(reply),
    }
}
