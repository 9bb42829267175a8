// The length of an object.
ghost use Rattle.std.specs.Prelude.{◌≡◌, ◌≤◌, length, OnOk, IfOk, ⊤, []};
ghost use Rattle.sg_ops.specs.Table.{Table as Operations, table_of};
ghost use Rattle.sg_model.specs.SaidReplies.{said_outcome};
ghost use Rattle.sg_model.specs.Verb.Verb.{Len};
ghost use Rattle.sg_space.specs.View.{Counts, OnlyReads};
ghost use Rattle.sg_contents.specs.Standing.{HasContents, IfContents};
ghost use Rattle.sg_objects.specs.Done.{Did, IsDone, HasRoomFor};
ghost use Rattle.sg_objects.specs.Found.{LenChecked};
ghost use Rattle.sg_space.specs.Pages.{WritesNone};
ghost use Rattle.sg_objects.specs.Quiet.{IsQuiet, LooksAlone};

use sg_base::Name;
use sg_catalog::ObjectKind;
use sg_model::{Reason, Reply};
use sg_ops::Ops;
use sg_space::{PageSpace, SpaceFault, UndoNote};

/// The length of an object, in items or in bytes.
pub fn check_len<P: PageSpace>(space: &mut P, name: Name) -> Result<Result<u32, Reason>, SpaceFault>
    requires { HasContents (P.view space.old) (λ _. ⊤) }
    ensures counts { Counts (P.view space.old) (P.view space.new) result }
    ensures kept { OnOk result (OnlyReads (P.view space.old) (P.view space.new)) }
    ensures read { IfOk result (λ r. IfContents (P.view space.old) (λ s. LenChecked name s r)) }
    ensures later { (t : Operations) → P.later t space.old space.new }
    ensures means { (t : Operations) → P.means space.old t → P.means space.new t }
    ensures writes { WritesNone (P.view space.old) (P.view space.new) result }
{
    let sought = sg_catalog::find(space, name)?;
    let Some(found) = sought else {
        return Ok(Err(Reason::NoObject));
    };
    match found.kind {
        ObjectKind::Table => Ok(Err(Reason::WrongKind)),
        ObjectKind::Array => {
            let items = sg_array::len(space, found.root)?;
            Ok(Ok(items))
        }
        ObjectKind::Blob => {
            let bytes = sg_blob::len(space, found.root)?;
            Ok(Ok(bytes))
        }
    }
}

/// Reads an object's length.
pub fn len<P: PageSpace>(
    space: &mut P,
    ops: &Ops,
    name: Name,
    into: &mut [u8],
    undo: &mut UndoNote,
) -> Result<Result<Reply, Reason>, SpaceFault>
    requires means { P.means space.old (table_of record_meaning range_meaning ops.now) }
    requires there { HasContents (P.view space.old) (HasRoomFor (table_of record_meaning range_meaning ops.now) (P.view space.old) name Len) }
    ensures counts { Counts (P.view space.old) (P.view space.new) result }
    ensures did { IfOk result (λ r. Did (P.view space.old) (P.view space.new) (HasRoomFor (table_of record_meaning range_meaning ops.now) (P.view space.old) name Len)
        (IsDone (table_of record_meaning range_meaning ops.now) 0 name Len (said_outcome into.new r) undo.new (P.view space.old).space (P.view space.new).space)) }
    ensures later { P.later (table_of record_meaning range_meaning ops.now) space.old space.new }
    ensures means { P.means space.new (table_of record_meaning range_meaning ops.now) }
    ensures looks { LooksAlone (P.view space.old) (P.view space.new) result undo.new }
    ensures quiet { IfOk result (λ _. undo.new ≡ [] → IsQuiet (P.view space.old) (P.view space.new)) }
{
    undo.set(&[]);
    match check_len(space, name)? {
        Err(reason) => Ok(Err(reason)),
        Ok(n) => Ok(Ok(Reply::Number(n as u64))),
    }
}
