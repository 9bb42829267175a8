// Blobs are made.
ghost use Rattle.std.specs.Prelude.{◌≡◌, ◌≤◌, OnOk, IfOk, ⊤, [], ◌+◌};
ghost use Rattle.sg_ops.specs.Table.{table_of};
ghost use Rattle.sg_model.specs.SaidReplies.{said_outcome};
ghost use Rattle.sg_model.specs.Verb.Verb.{MakeBlob};
ghost use Rattle.sg_space.specs.View.{Counts};
ghost use Rattle.sg_contents.specs.Standing.{HasContents};
ghost use Rattle.sg_objects.specs.Done.{Did, IsDone, IsFresh, HasRoomFor};
ghost use Rattle.sg_objects.specs.Quiet.{IsQuiet};

use crate::make::is_there;
use crate::note::note_make;
use sg_base::Name;
use sg_catalog::{Entry, ObjectKind};
use sg_model::{Reason, Reply};
use sg_ops::Ops;
use sg_space::{PageSpace, SpaceFault, UndoNote};

/// Makes a blob without bytes.
pub fn make_blob<P: PageSpace>(
    space: &mut P,
    ops: &Ops,
    name: Name,
    into: &mut [u8],
    undo: &mut UndoNote,
) -> Result<Result<Reply, Reason>, SpaceFault>
    requires means { P.means space.old (table_of record_meaning range_meaning ops.now) }
    requires there { HasContents (P.view space.old) (HasRoomFor (table_of record_meaning range_meaning ops.now) (P.view space.old) name MakeBlob) }
    requires fresh { (P.view space.old).Told → IsFresh (P.view space.old) }
    ensures counts { Counts (P.view space.old) (P.view space.new) result }
    ensures did { IfOk result (λ r. Did (P.view space.old) (P.view space.new) (HasRoomFor (table_of record_meaning range_meaning ops.now) (P.view space.old) name MakeBlob)
        (IsDone (table_of record_meaning range_meaning ops.now) 0 name MakeBlob (said_outcome into.new r) undo.new (P.view space.old).space (P.view space.new).space)) }
    ensures later { P.later (table_of record_meaning range_meaning ops.now) space.old space.new }
    ensures means { P.means space.new (table_of record_meaning range_meaning ops.now) }
    ensures few { (P.view space.new).records ≤ (P.view space.old).records + 8 }
    ensures quiet { IfOk result (λ _. undo.new ≡ [] → IsQuiet (P.view space.old) (P.view space.new)) }
{
    undo.set(&[]);
    if is_there(space, name)? {
        return Ok(Err(Reason::Exists));
    }
    let root = sg_blob::make(space, ops)?;
    let kind = ObjectKind::Blob;
    sg_catalog::add(space, ops, name, Entry { kind, root })?;
    note_make(undo, name);
    Ok(Ok(Reply::Done))
}
