// The verbs on arrays.
ghost use Rattle.std.specs.Prelude.{◌≡◌, ◌≤◌, length, OnOk, IfOk, ⊤, [], ◌+◌};
ghost use Rattle.sg_ops.specs.Table.{table_of};
ghost use Rattle.sg_model.specs.SaidReplies.{said_outcome};
ghost use Rattle.sg_model.specs.Verb.Verb.{Push, Pop, Set, Get};
ghost use Rattle.sg_space.specs.View.{Counts};
ghost use Rattle.sg_contents.specs.Standing.{HasContents};
ghost use Rattle.sg_objects.specs.Done.{Did, IsDone, IsFresh, HasRoomFor};
ghost use Rattle.sg_objects.specs.Quiet.{IsQuiet, LooksAlone};

use crate::check::{check_get, check_pop, check_push, check_set};
use crate::note::{note_pop, note_push, note_set};
use sg_base::Name;
use sg_model::{Reason, Reply};
use sg_ops::Ops;
use sg_space::{PageSpace, SpaceFault, UndoNote};

/// Adds an item at an array's end.
pub fn push<P: PageSpace>(
    space: &mut P,
    ops: &Ops,
    name: Name,
    value: &[u8],
    into: &mut [u8],
    undo: &mut UndoNote,
) -> Result<Result<Reply, Reason>, SpaceFault>
    requires means { P.means space.old (table_of record_meaning range_meaning ops.now) }
    requires there { HasContents (P.view space.old) (HasRoomFor (table_of record_meaning range_meaning ops.now) (P.view space.old) name (Push value.now)) }
    requires fresh { (P.view space.old).Told → IsFresh (P.view space.old) }
    ensures counts { Counts (P.view space.old) (P.view space.new) result }
    ensures did { IfOk result (λ r. Did (P.view space.old) (P.view space.new) (HasRoomFor (table_of record_meaning range_meaning ops.now) (P.view space.old) name (Push value.now))
        (IsDone (table_of record_meaning range_meaning ops.now) 0 name (Push value.now) (said_outcome into.new r) undo.new (P.view space.old).space (P.view space.new).space)) }
    ensures later { P.later (table_of record_meaning range_meaning ops.now) space.old space.new }
    ensures means { P.means space.new (table_of record_meaning range_meaning ops.now) }
    ensures few { (P.view space.new).records ≤ (P.view space.old).records + 8 }
    ensures quiet { IfOk result (λ _. undo.new ≡ [] → IsQuiet (P.view space.old) (P.view space.new)) }
{
    undo.set(&[]);
    match check_push(space, name, value)? {
        Err(reason) => Ok(Err(reason)),
        Ok(found) => {
            let index = sg_array::push(space, ops, found.root, value)?;
            note_push(undo, name);
            Ok(Ok(Reply::Number(index as u64)))
        }
    }
}

/// Takes an array's last item, and copies it to the front of `into`.
pub fn pop<P: PageSpace>(
    space: &mut P,
    ops: &Ops,
    name: Name,
    into: &mut [u8],
    undo: &mut UndoNote,
) -> Result<Result<Reply, Reason>, SpaceFault>
    requires means { P.means space.old (table_of record_meaning range_meaning ops.now) }
    requires room { 8192 ≤ length into.old }
    requires there { HasContents (P.view space.old) (HasRoomFor (table_of record_meaning range_meaning ops.now) (P.view space.old) name Pop) }
    ensures counts { Counts (P.view space.old) (P.view space.new) result }
    ensures did { IfOk result (λ r. Did (P.view space.old) (P.view space.new) (HasRoomFor (table_of record_meaning range_meaning ops.now) (P.view space.old) name Pop)
        (IsDone (table_of record_meaning range_meaning ops.now) 0 name Pop (said_outcome into.new r) undo.new (P.view space.old).space (P.view space.new).space)) }
    ensures later { P.later (table_of record_meaning range_meaning ops.now) space.old space.new }
    ensures means { P.means space.new (table_of record_meaning range_meaning ops.now) }
    ensures few { (P.view space.new).records ≤ (P.view space.old).records + 2 }
    ensures quiet { IfOk result (λ _. undo.new ≡ [] → IsQuiet (P.view space.old) (P.view space.new)) }
{
    undo.set(&[]);
    match check_pop(space, name)? {
        Err(reason) => Ok(Err(reason)),
        Ok(found) => {
            sg_array::pop(space, ops, found.root, into)?;
            let size = found.size as usize;
            note_pop(undo, name, &into[..size]);
            Ok(Ok(Reply::Bytes(size)))
        }
    }
}

/// Copies an array's item to the front of `into`.
pub fn get<P: PageSpace>(
    space: &mut P,
    ops: &Ops,
    name: Name,
    index: u64,
    into: &mut [u8],
    undo: &mut UndoNote,
) -> Result<Result<Reply, Reason>, SpaceFault>
    requires means { P.means space.old (table_of record_meaning range_meaning ops.now) }
    requires room { 8192 ≤ length into.old }
    requires there { HasContents (P.view space.old) (HasRoomFor (table_of record_meaning range_meaning ops.now) (P.view space.old) name (Get index)) }
    ensures counts { Counts (P.view space.old) (P.view space.new) result }
    ensures did { IfOk result (λ r. Did (P.view space.old) (P.view space.new) (HasRoomFor (table_of record_meaning range_meaning ops.now) (P.view space.old) name (Get index))
        (IsDone (table_of record_meaning range_meaning ops.now) 0 name (Get index) (said_outcome into.new r) undo.new (P.view space.old).space (P.view space.new).space)) }
    ensures later { P.later (table_of record_meaning range_meaning ops.now) space.old space.new }
    ensures means { P.means space.new (table_of record_meaning range_meaning ops.now) }
    ensures looks { LooksAlone (P.view space.old) (P.view space.new) result undo.new }
    ensures quiet { IfOk result (λ _. undo.new ≡ [] → IsQuiet (P.view space.old) (P.view space.new)) }
{
    undo.set(&[]);
    match check_get(space, name, index)? {
        Err(reason) => Ok(Err(reason)),
        Ok(found) => {
            sg_array::get(space, found.root, index as u32, into)?;
            Ok(Ok(Reply::Bytes(found.size as usize)))
        }
    }
}

/// Replaces an array's item.
pub fn set<P: PageSpace>(
    space: &mut P,
    ops: &Ops,
    name: Name,
    index: u64,
    value: &[u8],
    into: &mut [u8],
    undo: &mut UndoNote,
) -> Result<Result<Reply, Reason>, SpaceFault>
    requires means { P.means space.old (table_of record_meaning range_meaning ops.now) }
    requires there { HasContents (P.view space.old) (HasRoomFor (table_of record_meaning range_meaning ops.now) (P.view space.old) name (Set index value.now)) }
    ensures counts { Counts (P.view space.old) (P.view space.new) result }
    ensures did { IfOk result (λ r. Did (P.view space.old) (P.view space.new) (HasRoomFor (table_of record_meaning range_meaning ops.now) (P.view space.old) name (Set index value.now))
        (IsDone (table_of record_meaning range_meaning ops.now) 0 name (Set index value.now) (said_outcome into.new r) undo.new (P.view space.old).space (P.view space.new).space)) }
    ensures later { P.later (table_of record_meaning range_meaning ops.now) space.old space.new }
    ensures means { P.means space.new (table_of record_meaning range_meaning ops.now) }
    ensures few { (P.view space.new).records ≤ (P.view space.old).records + 1 }
    ensures quiet { IfOk result (λ _. undo.new ≡ [] → IsQuiet (P.view space.old) (P.view space.new)) }
{
    undo.set(&[]);
    match check_set(space, name, index, value)? {
        Err(reason) => Ok(Err(reason)),
        Ok(found) => {
            let mut old = [0; 256];
            sg_array::get(space, found.root, index as u32, &mut old)?;
            sg_array::set(space, ops, found.root, index as u32, value)?;
            note_set(undo, name, index as u32, &old[..found.size as usize]);
            Ok(Ok(Reply::Done))
        }
    }
}
