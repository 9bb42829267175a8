// The verbs on tables that look for a key and remove one.
ghost use Rattle.std.specs.Prelude.{◌≡◌, ◌≤◌, length, OnOk, IfOk, ⊤, [], ◌+◌};
ghost use Rattle.sg_ops.specs.Table.{Table as Operations, table_of};
ghost use Rattle.sg_model.specs.SaidReplies.{said_outcome};
ghost use Rattle.sg_model.specs.Verb.Verb.{Find, Del};
ghost use Rattle.sg_space.specs.View.{Counts, OnlyReads};
ghost use Rattle.sg_contents.specs.Standing.{HasContents, IfContents};
ghost use Rattle.sg_objects.specs.Done.{Did, IsDone, HasRoomFor};
ghost use Rattle.sg_objects.specs.Found.{KeyChecked};
ghost use Rattle.sg_objects.specs.Undone.{CanUndo, Undoes};
ghost use Rattle.sg_reading.specs.Back.Undoing.{WasPut};
ghost use Rattle.sg_objects.specs.Shaped.{Shapes};
ghost use Rattle.sg_objects.specs.Reshaped.{Reshapes};
ghost use Rattle.sg_space.specs.Pages.{WritesNone};
ghost use Rattle.sg_objects.specs.Quiet.{IsQuiet, LooksAlone};

use crate::find::root_of;
use crate::note::note_over;
use sg_base::{Name, PageNo};
use sg_catalog::ObjectKind;
use sg_model::{Reason, Reply};
use sg_ops::Ops;
use sg_space::{PageSpace, SpaceFault, UndoNote};

/// The root of the table of this name, where these bytes may be a key.
pub fn check_key<P: PageSpace>(
    space: &mut P,
    name: Name,
    key: &[u8],
) -> Result<Result<PageNo, Reason>, SpaceFault>
    requires { HasContents (P.view space.old) (λ _. ⊤) }
    ensures counts { Counts (P.view space.old) (P.view space.new) result }
    ensures kept { OnOk result (OnlyReads (P.view space.old) (P.view space.new)) }
    ensures read { IfOk result (λ r. IfContents (P.view space.old) (λ s. KeyChecked name key.now s r)) }
    ensures short { IfOk result (λ r. IfOk r (λ _. (length key.now ≤ 128))) }
    ensures later { (t : Operations) → P.later t space.old space.new }
    ensures means { (t : Operations) → P.means space.old t → P.means space.new t }
    ensures writes { WritesNone (P.view space.old) (P.view space.new) result }
{
    match root_of(space, name, ObjectKind::Table)? {
        Err(reason) => Ok(Err(reason)),
        Ok(root) => {
            if key.len() == 0 {
                return Ok(Err(Reason::OutOfRange));
            }
            if key.len() > 128 {
                return Ok(Err(Reason::TooLong));
            }
            Ok(Ok(root))
        }
    }
}

/// Copies the value of a key to the front of `into`.
pub fn find<P: PageSpace>(
    space: &mut P,
    ops: &Ops,
    name: Name,
    key: &[u8],
    into: &mut [u8],
    undo: &mut UndoNote,
) -> Result<Result<Reply, Reason>, SpaceFault>
    requires means { P.means space.old (table_of record_meaning range_meaning ops.now) }
    requires room { 8192 ≤ length into.old }
    requires there { HasContents (P.view space.old) (HasRoomFor (table_of record_meaning range_meaning ops.now) (P.view space.old) name (Find key.now)) }
    ensures counts { Counts (P.view space.old) (P.view space.new) result }
    ensures did { IfOk result (λ r. Did (P.view space.old) (P.view space.new) (HasRoomFor (table_of record_meaning range_meaning ops.now) (P.view space.old) name (Find key.now))
        (IsDone (table_of record_meaning range_meaning ops.now) 0 name (Find key.now) (said_outcome into.new r) undo.new (P.view space.old).space (P.view space.new).space)) }
    ensures later { P.later (table_of record_meaning range_meaning ops.now) space.old space.new }
    ensures means { P.means space.new (table_of record_meaning range_meaning ops.now) }
    ensures looks { LooksAlone (P.view space.old) (P.view space.new) result undo.new }
    ensures quiet { IfOk result (λ _. undo.new ≡ [] → IsQuiet (P.view space.old) (P.view space.new)) }
{
    undo.set(&[]);
    match check_key(space, name, key)? {
        Err(reason) => Ok(Err(reason)),
        Ok(root) => {
            let sought = sg_hash::find(space, root, key, into)?;
            let Some(n) = sought else {
                return Ok(Ok(Reply::Absent));
            };
            Ok(Ok(Reply::Bytes(n)))
        }
    }
}

/// Removes a key.
pub fn del<P: PageSpace>(
    space: &mut P,
    ops: &Ops,
    name: Name,
    key: &[u8],
    into: &mut [u8],
    undo: &mut UndoNote,
) -> Result<Result<Reply, Reason>, SpaceFault>
    requires means { P.means space.old (table_of record_meaning range_meaning ops.now) }
    requires there { HasContents (P.view space.old) (HasRoomFor (table_of record_meaning range_meaning ops.now) (P.view space.old) name (Del key.now)) }
    ensures counts { Counts (P.view space.old) (P.view space.new) result }
    ensures did { IfOk result (λ r. Did (P.view space.old) (P.view space.new) (HasRoomFor (table_of record_meaning range_meaning ops.now) (P.view space.old) name (Del key.now))
        (IsDone (table_of record_meaning range_meaning ops.now) 0 name (Del key.now) (said_outcome into.new r) undo.new (P.view space.old).space (P.view space.new).space)) }
    ensures splits { IfOk result (λ r. Shapes (P.view space.old) (P.view space.new) (HasRoomFor (table_of record_meaning range_meaning ops.now) (P.view space.old) name (Del key.now)) name (Del key.now) (said_outcome into.new r)) }
    ensures later { P.later (table_of record_meaning range_meaning ops.now) space.old space.new }
    ensures means { P.means space.new (table_of record_meaning range_meaning ops.now) }
    ensures few { (P.view space.new).records ≤ (P.view space.old).records + 4 }
    ensures quiet { IfOk result (λ _. undo.new ≡ [] → IsQuiet (P.view space.old) (P.view space.new)) }
{
    undo.set(&[]);
    match check_key(space, name, key)? {
        Err(reason) => Ok(Err(reason)),
        Ok(root) => {
            let mut old = [0; 1024];
            let sought = sg_hash::find(space, root, key, &mut old)?;
            let Some(n) = sought else {
                return Ok(Ok(Reply::Absent));
            };
            sg_hash::del(space, ops, root, key)?;
            note_over(undo, name, key, &old[..n]);
            Ok(Ok(Reply::Done))
        }
    }
}

/// Removes a key that was new.
pub fn undo_put<P: PageSpace>(
    space: &mut P,
    ops: &Ops,
    name: Name,
    key: &[u8],
) -> Result<(), SpaceFault>
    requires means { P.means space.old (table_of record_meaning range_meaning ops.now) }
    requires short { length key.now ≤ 128 }
    requires there { HasContents (P.view space.old) (CanUndo (table_of record_meaning range_meaning ops.now) (WasPut key.now) name) }
    ensures counts { Counts (P.view space.old) (P.view space.new) result }
    ensures did { OnOk result (Undoes (P.view space.old) (P.view space.new) (table_of record_meaning range_meaning ops.now) (WasPut key.now) name) }
    ensures splits { OnOk result (Reshapes (P.view space.old) (P.view space.new) (WasPut key.now) name) }
    ensures later { P.later (table_of record_meaning range_meaning ops.now) space.old space.new }
    ensures means { P.means space.new (table_of record_meaning range_meaning ops.now) }
    ensures few { (P.view space.new).records ≤ (P.view space.old).records + 4 }
{
    match root_of(space, name, ObjectKind::Table)? {
        Err(_) => Err(space.broken()),
        Ok(root) => {
            sg_hash::del(space, ops, root, key)?;
            Ok(())
        }
    }
}
