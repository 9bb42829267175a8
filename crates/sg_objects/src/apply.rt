// A registered operation on an item.
ghost use Rattle.std.specs.Prelude.{◌≡◌, ◌<◌, ◌≤◌, length, OnOk, IfOk, ⊤, [], ◌+◌};
ghost use Rattle.sg_ops.specs.Table.{Table, table_of};
ghost use Rattle.sg_model.specs.SaidReplies.{said_outcome};
ghost use Rattle.sg_model.specs.Verb.Verb.{Apply};
ghost use Rattle.sg_space.specs.View.{Counts, OnlyReads};
ghost use Rattle.sg_contents.specs.Standing.{HasContents, IfContents};
ghost use Rattle.sg_objects.specs.Done.{Did, IsDone, HasRoomFor};
ghost use Rattle.sg_objects.specs.Found.{CheckedBy, CanApplyTo};
ghost use Rattle.sg_space.specs.Pages.{WritesNone};
ghost use Rattle.sg_objects.specs.Quiet.{IsQuiet};

use crate::find::{ArrayAt, array_of};
use crate::note::note_apply;
use sg_base::Name;
use sg_model::{Reason, Reply};
use sg_ops::Ops;
use sg_space::{PageSpace, SpaceFault, UndoNote};

/// The array of which an item is accepted by a registered operation with this argument.
pub fn check_apply<P: PageSpace>(
    space: &mut P,
    ops: &Ops,
    name: Name,
    index: u64,
    code: u64,
    arg: &[u8],
) -> Result<Result<ArrayAt, Reason>, SpaceFault>
    requires { HasContents (P.view space.old) (λ _. ⊤) }
    ensures counts { Counts (P.view space.old) (P.view space.new) result }
    ensures kept { OnOk result (OnlyReads (P.view space.old) (P.view space.new)) }
    ensures read { IfOk result (λ r. IfContents (P.view space.old) (λ s.
        CheckedBy (table_of record_meaning range_meaning ops.now) name (Apply index code arg.now) s
        (CanApplyTo (table_of record_meaning range_meaning ops.now) name index code arg.now s) r)) }
    ensures below { IfOk result (λ r. IfOk r (λ x. index < x.len)) }
    ensures short { IfOk result (λ r. IfOk r (λ x. (length arg.now ≤ 256))) }
    ensures code { IfOk result (λ r. IfOk r (λ x. (code < 65536))) }
    ensures later { (t : Table) → P.later t space.old space.new }
    ensures means { (t : Table) → P.means space.old t → P.means space.new t }
    ensures writes { WritesNone (P.view space.old) (P.view space.new) result }
{
    match array_of(space, name)? {
        Err(reason) => Ok(Err(reason)),
        Ok(found) => {
            if arg.len() > 256 {
                return Ok(Err(Reason::TooLong));
            }
            if index >= found.len as u64 {
                return Ok(Err(Reason::OutOfRange));
            }
            if code > 65535 {
                return Ok(Err(Reason::NoOperation));
            }
            if !ops.has_record(code as u16) {
                return Ok(Err(Reason::NoOperation));
            }
            let mut item = [0; 256];
            sg_array::get(space, found.root, index as u32, &mut item)?;
            if !ops.accepts(code as u16, &item[..found.size as usize], arg) {
                return Ok(Err(Reason::Declined));
            }
            Ok(Ok(found))
        }
    }
}

/// Changes an item by a registered operation.
pub fn apply<P: PageSpace>(
    space: &mut P,
    ops: &Ops,
    name: Name,
    index: u64,
    code: u64,
    arg: &[u8],
    into: &mut [u8],
    undo: &mut UndoNote,
) -> Result<Result<Reply, Reason>, SpaceFault>
    requires means { P.means space.old (table_of record_meaning range_meaning ops.now) }
    requires there { HasContents (P.view space.old) (HasRoomFor (table_of record_meaning range_meaning ops.now) (P.view space.old) name (Apply index code arg.now)) }
    ensures counts { Counts (P.view space.old) (P.view space.new) result }
    ensures did { IfOk result (λ r. Did (P.view space.old) (P.view space.new) (HasRoomFor (table_of record_meaning range_meaning ops.now) (P.view space.old) name (Apply index code arg.now))
        (IsDone (table_of record_meaning range_meaning ops.now) 0 name (Apply index code arg.now) (said_outcome into.new r) undo.new (P.view space.old).space (P.view space.new).space)) }
    ensures later { P.later (table_of record_meaning range_meaning ops.now) space.old space.new }
    ensures means { P.means space.new (table_of record_meaning range_meaning ops.now) }
    ensures few { (P.view space.new).records ≤ (P.view space.old).records + 1 }
    ensures quiet { IfOk result (λ _. undo.new ≡ [] → IsQuiet (P.view space.old) (P.view space.new)) }
{
    undo.set(&[]);
    match check_apply(space, ops, name, index, code, arg)? {
        Err(reason) => Ok(Err(reason)),
        Ok(found) => {
            sg_array::apply(space, ops, found.root, index as u32, code as u16, arg)?;
            note_apply(undo, name, index as u32, code as u16, arg);
            Ok(Ok(Reply::Done))
        }
    }
}
