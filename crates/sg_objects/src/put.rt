// Entries are put into tables, and put back.
ghost use Rattle.std.specs.Prelude.{◌≡◌, ◌≤◌, length, OnOk, IfOk, ⊤, [], ◌+◌};
ghost use Rattle.sg_ops.specs.Table.{Table as Operations, table_of};
ghost use Rattle.sg_model.specs.SaidReplies.{said_outcome};
ghost use Rattle.sg_model.specs.Verb.Verb.{Put};
ghost use Rattle.sg_space.specs.View.{Counts, OnlyReads};
ghost use Rattle.sg_contents.specs.Standing.{HasContents, IfContents};
ghost use Rattle.sg_objects.specs.Done.{Did, IsDone, IsFresh, HasRoomFor};
ghost use Rattle.sg_objects.specs.Found.{PutChecked};
ghost use Rattle.sg_objects.specs.Undone.{CanUndo, Undoes};
ghost use Rattle.sg_reading.specs.Back.Undoing.{WasOver};
ghost use Rattle.sg_objects.specs.Shaped.{Shapes};
ghost use Rattle.sg_objects.specs.Reshaped.{Reshapes};
ghost use Rattle.sg_space.specs.Pages.{WritesNone};
ghost use Rattle.sg_objects.specs.Quiet.{IsQuiet, most_records};

use crate::find::root_of;
use crate::note::{note_over, note_put};
use crate::table::check_key;
use sg_base::{Name, PageNo};
use sg_catalog::ObjectKind;
use sg_model::{Reason, Reply};
use sg_ops::Ops;
use sg_space::{PageSpace, SpaceFault, UndoNote};

/// The root of the table of this name, where these bytes may be a key and these a value.
pub fn check_put<P: PageSpace>(
    space: &mut P,
    name: Name,
    key: &[u8],
    value: &[u8],
) -> Result<Result<PageNo, Reason>, SpaceFault>
    requires { HasContents (P.view space.old) (λ _. ⊤) }
    ensures counts { Counts (P.view space.old) (P.view space.new) result }
    ensures kept { OnOk result (OnlyReads (P.view space.old) (P.view space.new)) }
    ensures read { IfOk result (λ r. IfContents (P.view space.old) (λ s. PutChecked name key.now value.now s r)) }
    ensures short { IfOk result (λ r. IfOk r (λ _. (length key.now ≤ 128))) }
    ensures small { IfOk result (λ r. IfOk r (λ _. (length value.now ≤ 1024))) }
    ensures later { (t : Operations) → P.later t space.old space.new }
    ensures means { (t : Operations) → P.means space.old t → P.means space.new t }
    ensures writes { WritesNone (P.view space.old) (P.view space.new) result }
{
    match check_key(space, name, key)? {
        Err(reason) => Ok(Err(reason)),
        Ok(root) => {
            if value.len() > 1024 {
                return Ok(Err(Reason::TooLong));
            }
            Ok(Ok(root))
        }
    }
}

/// Puts an entry, in place of the one that its key had.
pub fn put<P: PageSpace>(
    space: &mut P,
    ops: &Ops,
    name: Name,
    key: &[u8],
    value: &[u8],
    into: &mut [u8],
    undo: &mut UndoNote,
) -> Result<Result<Reply, Reason>, SpaceFault>
    requires means { P.means space.old (table_of record_meaning range_meaning ops.now) }
    requires there { HasContents (P.view space.old) (HasRoomFor (table_of record_meaning range_meaning ops.now) (P.view space.old) name (Put key.now value.now)) }
    requires fresh { (P.view space.old).Told → IsFresh (P.view space.old) }
    ensures counts { Counts (P.view space.old) (P.view space.new) result }
    ensures did { IfOk result (λ r. Did (P.view space.old) (P.view space.new) (HasRoomFor (table_of record_meaning range_meaning ops.now) (P.view space.old) name (Put key.now value.now))
        (IsDone (table_of record_meaning range_meaning ops.now) 0 name (Put key.now value.now) (said_outcome into.new r) undo.new (P.view space.old).space (P.view space.new).space)) }
    ensures splits { IfOk result (λ r. Shapes (P.view space.old) (P.view space.new) (HasRoomFor (table_of record_meaning range_meaning ops.now) (P.view space.old) name (Put key.now value.now)) name (Put key.now value.now) (said_outcome into.new r)) }
    ensures later { P.later (table_of record_meaning range_meaning ops.now) space.old space.new }
    ensures means { P.means space.new (table_of record_meaning range_meaning ops.now) }
    ensures few { (P.view space.old).Told → (P.view space.new).records ≤ (P.view space.old).records + most_records }
    ensures quiet { IfOk result (λ _. undo.new ≡ [] → IsQuiet (P.view space.old) (P.view space.new)) }
{
    undo.set(&[]);
    match check_put(space, name, key, value)? {
        Err(reason) => Ok(Err(reason)),
        Ok(root) => {
            let mut old = [0; 1024];
            let sought = sg_hash::find(space, root, key, &mut old)?;
            sg_hash::put(space, ops, root, key, value, true)?;
            let Some(n) = sought else {
                note_put(undo, name, key);
                return Ok(Ok(Reply::New));
            };
            note_over(undo, name, key, &old[..n]);
            Ok(Ok(Reply::Replaced))
        }
    }
}

/// Puts an entry back that was removed, or that another one replaced. One page is free for it. No bucket is split.
pub fn undo_over<P: PageSpace>(
    space: &mut P,
    ops: &Ops,
    name: Name,
    key: &[u8],
    value: &[u8],
) -> Result<(), SpaceFault>
    requires means { P.means space.old (table_of record_meaning range_meaning ops.now) }
    requires short { length key.now ≤ 128 }
    requires small { length value.now ≤ 1024 }
    requires there { HasContents (P.view space.old) (CanUndo (table_of record_meaning range_meaning ops.now) (WasOver key.now value.now) name) }
    requires fresh { (P.view space.old).Told → IsFresh (P.view space.old) }
    requires page { (P.view space.old).Told → 1 ≤ (P.view space.old).space.pages.free }
    ensures counts { Counts (P.view space.old) (P.view space.new) result }
    ensures did { OnOk result (Undoes (P.view space.old) (P.view space.new) (table_of record_meaning range_meaning ops.now) (WasOver key.now value.now) name) }
    ensures splits { OnOk result (Reshapes (P.view space.old) (P.view space.new) (WasOver key.now value.now) name) }
    ensures later { P.later (table_of record_meaning range_meaning ops.now) space.old space.new }
    ensures means { P.means space.new (table_of record_meaning range_meaning ops.now) }
    ensures few { (P.view space.new).records ≤ (P.view space.old).records + 8 }
{
    match root_of(space, name, ObjectKind::Table)? {
        Err(_) => Err(space.broken()),
        Ok(root) => {
            sg_hash::put(space, ops, root, key, value, false)?;
            Ok(())
        }
    }
}
