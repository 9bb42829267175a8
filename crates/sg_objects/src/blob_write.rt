// Bytes of a blob are written.
ghost use Rattle.std.specs.Prelude.{◌≡◌, ◌+◌, ◌≤◌, length, OnOk, IfOk, ⊤, []};
ghost use Rattle.sg_ops.specs.Table.{Table as Operations, table_of};
ghost use Rattle.sg_model.specs.SaidReplies.{said_outcome};
ghost use Rattle.sg_model.specs.Verb.Verb.{Write};
ghost use Rattle.sg_space.specs.View.{Counts, OnlyReads};
ghost use Rattle.sg_contents.specs.Standing.{HasContents, IfContents};
ghost use Rattle.sg_objects.specs.Blobs.{CanWriteTo};
ghost use Rattle.sg_objects.specs.Done.{Did, IsDone, IsFresh, HasRoomFor};
ghost use Rattle.sg_objects.specs.Found.{Checked};
ghost use Rattle.sg_space.specs.Pages.{WritesNone};
ghost use Rattle.sg_objects.specs.Quiet.{IsQuiet, Wrote};

use crate::blob::{BlobAt, MOST, MOST_AT_ONCE, blob_of, note_size};
use sg_base::Name;
use sg_model::{Reason, Reply};
use sg_ops::Ops;
use sg_space::{PageSpace, SpaceFault, UndoNote};

/// The blob into which these bytes may be written.
pub fn check_write<P: PageSpace>(
    space: &mut P,
    name: Name,
    at: u64,
    bytes: &[u8],
) -> Result<Result<BlobAt, Reason>, SpaceFault>
    requires { HasContents (P.view space.old) (λ _. ⊤) }
    ensures counts { Counts (P.view space.old) (P.view space.new) result }
    ensures kept { OnOk result (OnlyReads (P.view space.old) (P.view space.new)) }
    ensures read { IfOk result (λ r. IfContents (P.view space.old) (λ s.
        Checked name (Write at bytes.now) s (CanWriteTo name at (length bytes.now) s) r)) }
    ensures small { IfOk result (λ r. IfOk r (λ x. at + length bytes.now ≤ 16384000)) }
    ensures later { (t : Operations) → P.later t space.old space.new }
    ensures means { (t : Operations) → P.means space.old t → P.means space.new t }
    ensures writes { WritesNone (P.view space.old) (P.view space.new) result }
{
    match blob_of(space, name)? {
        Err(reason) => Ok(Err(reason)),
        Ok(found) => {
            if bytes.len() > MOST_AT_ONCE {
                return Ok(Err(Reason::TooLong));
            }
            if at > MOST - bytes.len() as u64 {
                return Ok(Err(Reason::TooLong));
            }
            if at > found.len as u64 {
                return Ok(Err(Reason::OutOfRange));
            }
            Ok(Ok(found))
        }
    }
}

/// Writes bytes of a blob from an offset on, which is at most its length.
pub fn write<P: PageSpace>(
    space: &mut P,
    ops: &Ops,
    name: Name,
    at: u64,
    bytes: &[u8],
    into: &mut [u8],
    undo: &mut UndoNote,
) -> Result<Result<Reply, Reason>, SpaceFault>
    requires means { P.means space.old (table_of record_meaning range_meaning ops.now) }
    requires there { HasContents (P.view space.old) (HasRoomFor (table_of record_meaning range_meaning ops.now) (P.view space.old) name (Write at bytes.now)) }
    requires fresh { (P.view space.old).Told → IsFresh (P.view space.old) }
    ensures counts { Counts (P.view space.old) (P.view space.new) result }
    ensures did { IfOk result (λ r. Did (P.view space.old) (P.view space.new) (HasRoomFor (table_of record_meaning range_meaning ops.now) (P.view space.old) name (Write at bytes.now))
        (IsDone (table_of record_meaning range_meaning ops.now) 0 name (Write at bytes.now) (said_outcome into.new r) undo.new (P.view space.old).space (P.view space.new).space)) }
    ensures later { P.later (table_of record_meaning range_meaning ops.now) space.old space.new }
    ensures means { P.means space.new (table_of record_meaning range_meaning ops.now) }
    ensures few { (P.view space.new).records ≤ (P.view space.old).records + 5003 }
    ensures quiet { IfOk result (λ _. undo.new ≡ [] → IsQuiet (P.view space.old) (P.view space.new)) }
    ensures wrote { IfOk result (λ r. Wrote (P.view space.old) (P.view space.new) (HasRoomFor (table_of record_meaning range_meaning ops.now) (P.view space.old) name (Write at bytes.now)) name (Write at bytes.now) (said_outcome into.new r)) }
{
    undo.set(&[]);
    match check_write(space, name, at, bytes)? {
        Err(reason) => Ok(Err(reason)),
        Ok(found) => {
            sg_blob::write(space, ops, found.root, at as u32, bytes)?;
            note_size(undo, name, found.len);
            Ok(Ok(Reply::Done))
        }
    }
}
