// Objects are made and dropped.
ghost use Rattle.std.specs.Prelude.{◌≡◌, ◌≤◌, ◌<◌, ◌^◌, length, is_some, OnOk, IfOk, ⊤, [], ◌+◌};
ghost use Rattle.sg_catalog.specs.Catalog.{there, rows};
ghost use Rattle.sg_ops.specs.Table.{Table as Operations, table_of};
ghost use Rattle.sg_model.specs.SaidReplies.{said_outcome};
ghost use Rattle.sg_model.specs.Verb.Verb.{MakeArray, MakeTable, Discard};
ghost use Rattle.sg_space.specs.View.{Counts, OnlyReads};
ghost use Rattle.sg_contents.specs.Standing.{HasContents, IfContents};
ghost use Rattle.sg_objects.specs.Done.{Did, IsDone, IsFresh, HasRoomFor};
ghost use Rattle.sg_space.specs.Pages.{WritesNone};
ghost use Rattle.sg_objects.specs.Quiet.{IsQuiet};

use crate::note::{note_drop, note_make};
use sg_base::{Name, PageNo, TxnId};
use sg_catalog::{Entry, ObjectKind};
use sg_model::{Reason, Reply};
use sg_ops::Ops;
use sg_space::{PageSpace, SpaceFault, UndoNote};

/// Whether there is an object of this name.
pub fn is_there<P: PageSpace>(space: &mut P, name: Name) -> Result<bool, SpaceFault>
    requires { HasContents (P.view space.old) (λ _. ⊤) }
    ensures counts { Counts (P.view space.old) (P.view space.new) result }
    ensures kept { OnOk result (OnlyReads (P.view space.old) (P.view space.new)) }
    ensures read { IfOk result (λ b. IfContents (P.view space.old) (λ s. b ≡ is_some (there name (rows s.catalog)))) }
    ensures later { (t : Operations) → P.later t space.old space.new }
    ensures means { (t : Operations) → P.means space.old t → P.means space.new t }
    ensures writes { WritesNone (P.view space.old) (P.view space.new) result }
{
    let found = sg_catalog::find(space, name)?;
    Ok(found.is_some())
}

/// Makes an array without items.
pub fn make_array<P: PageSpace>(
    space: &mut P,
    ops: &Ops,
    name: Name,
    size: u64,
    into: &mut [u8],
    undo: &mut UndoNote,
) -> Result<Result<Reply, Reason>, SpaceFault>
    requires means { P.means space.old (table_of record_meaning range_meaning ops.now) }
    requires there { HasContents (P.view space.old) (HasRoomFor (table_of record_meaning range_meaning ops.now) (P.view space.old) name (MakeArray size)) }
    requires fresh { (P.view space.old).Told → IsFresh (P.view space.old) }
    ensures counts { Counts (P.view space.old) (P.view space.new) result }
    ensures did { IfOk result (λ r. Did (P.view space.old) (P.view space.new) (HasRoomFor (table_of record_meaning range_meaning ops.now) (P.view space.old) name (MakeArray size))
        (IsDone (table_of record_meaning range_meaning ops.now) 0 name (MakeArray size) (said_outcome into.new r) undo.new (P.view space.old).space (P.view space.new).space)) }
    ensures later { P.later (table_of record_meaning range_meaning ops.now) space.old space.new }
    ensures means { P.means space.new (table_of record_meaning range_meaning ops.now) }
    ensures few { (P.view space.new).records ≤ (P.view space.old).records + 8 }
    ensures quiet { IfOk result (λ _. undo.new ≡ [] → IsQuiet (P.view space.old) (P.view space.new)) }
{
    undo.set(&[]);
    if is_there(space, name)? {
        return Ok(Err(Reason::Exists));
    }
    if size == 0 || size > 256 {
        return Ok(Err(Reason::OutOfRange));
    }
    let root = sg_array::make(space, ops, size as u16)?;
    let kind = ObjectKind::Array;
    sg_catalog::add(space, ops, name, Entry { kind, root })?;
    note_make(undo, name);
    Ok(Ok(Reply::Done))
}

/// Drops an object: its name goes, and it waits as a tombstone of this transaction to be freed.
pub fn discard<P: PageSpace>(
    space: &mut P,
    ops: &Ops,
    by: TxnId,
    name: Name,
    into: &mut [u8],
    undo: &mut UndoNote,
) -> Result<Result<Reply, Reason>, SpaceFault>
    requires means { P.means space.old (table_of record_meaning range_meaning ops.now) }
    requires there { HasContents (P.view space.old) (HasRoomFor (table_of record_meaning range_meaning ops.now) (P.view space.old) name Discard) }
    ensures counts { Counts (P.view space.old) (P.view space.new) result }
    ensures did { IfOk result (λ r. Did (P.view space.old) (P.view space.new) (HasRoomFor (table_of record_meaning range_meaning ops.now) (P.view space.old) name Discard)
        (IsDone (table_of record_meaning range_meaning ops.now) by.0 name Discard (said_outcome into.new r) undo.new (P.view space.old).space (P.view space.new).space)) }
    ensures later { P.later (table_of record_meaning range_meaning ops.now) space.old space.new }
    ensures means { P.means space.new (table_of record_meaning range_meaning ops.now) }
    ensures few { (P.view space.new).records ≤ (P.view space.old).records + 1 }
    ensures quiet { IfOk result (λ _. undo.new ≡ [] → IsQuiet (P.view space.old) (P.view space.new)) }
{
    undo.set(&[]);
    let sought = sg_catalog::find(space, name)?;
    let Some(found) = sought else {
        return Ok(Err(Reason::NoObject));
    };
    sg_catalog::bury(space, ops, name, by)?;
    note_drop(undo, name, found.root.0);
    Ok(Ok(Reply::Done))
}

/// Makes a table without entries.
pub fn make_table<P: PageSpace>(
    space: &mut P,
    ops: &Ops,
    name: Name,
    into: &mut [u8],
    undo: &mut UndoNote,
) -> Result<Result<Reply, Reason>, SpaceFault>
    requires means { P.means space.old (table_of record_meaning range_meaning ops.now) }
    requires there { HasContents (P.view space.old) (HasRoomFor (table_of record_meaning range_meaning ops.now) (P.view space.old) name MakeTable) }
    requires fresh { (P.view space.old).Told → IsFresh (P.view space.old) }
    ensures counts { Counts (P.view space.old) (P.view space.new) result }
    ensures did { IfOk result (λ r. Did (P.view space.old) (P.view space.new) (HasRoomFor (table_of record_meaning range_meaning ops.now) (P.view space.old) name MakeTable)
        (IsDone (table_of record_meaning range_meaning ops.now) 0 name MakeTable (said_outcome into.new r) undo.new (P.view space.old).space (P.view space.new).space)) }
    ensures later { P.later (table_of record_meaning range_meaning ops.now) space.old space.new }
    ensures means { P.means space.new (table_of record_meaning range_meaning ops.now) }
    ensures few { (P.view space.new).records ≤ (P.view space.old).records + 22 }
    ensures quiet { IfOk result (λ _. undo.new ≡ [] → IsQuiet (P.view space.old) (P.view space.new)) }
{
    undo.set(&[]);
    if is_there(space, name)? {
        return Ok(Err(Reason::Exists));
    }
    let root = sg_hash::make(space, ops)?;
    let kind = ObjectKind::Table;
    sg_catalog::add(space, ops, name, Entry { kind, root })?;
    note_make(undo, name);
    Ok(Ok(Reply::Done))
}
