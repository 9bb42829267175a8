// Bytes of a blob are read.
ghost use Rattle.std.specs.Prelude.{◌≡◌, ◌+◌, ◌≤◌, length, OnOk, IfOk, ⊤, []};
ghost use Rattle.sg_ops.specs.Table.{Table as Operations, table_of};
ghost use Rattle.sg_model.specs.SaidReplies.{said_outcome};
ghost use Rattle.sg_model.specs.Verb.Verb.{Read};
ghost use Rattle.sg_space.specs.View.{Counts, OnlyReads};
ghost use Rattle.sg_contents.specs.Standing.{HasContents, IfContents};
ghost use Rattle.sg_objects.specs.Blobs.{CanReadFrom};
ghost use Rattle.sg_objects.specs.Done.{Did, IsDone, HasRoomFor};
ghost use Rattle.sg_objects.specs.Found.{Checked};
ghost use Rattle.sg_space.specs.Pages.{WritesNone};
ghost use Rattle.sg_objects.specs.Quiet.{IsQuiet, LooksAlone};

use crate::blob::{BlobAt, MOST_AT_ONCE, blob_of};
use sg_base::Name;
use sg_model::{Reason, Reply};
use sg_ops::Ops;
use sg_space::{PageSpace, SpaceFault, UndoNote};

/// The blob of which so many bytes may be read.
pub fn check_read<P: PageSpace>(
    space: &mut P,
    name: Name,
    at: u64,
    count: u64,
) -> Result<Result<BlobAt, Reason>, SpaceFault>
    requires { HasContents (P.view space.old) (λ _. ⊤) }
    ensures counts { Counts (P.view space.old) (P.view space.new) result }
    ensures kept { OnOk result (OnlyReads (P.view space.old) (P.view space.new)) }
    ensures read { IfOk result (λ r. IfContents (P.view space.old) (λ s.
        Checked name (Read at count) s (CanReadFrom name at count s) r)) }
    ensures few { IfOk result (λ r. IfOk r (λ x. count ≤ 8192)) }
    ensures within { IfOk result (λ r. IfOk r (λ x. at + count ≤ x.len)) }
    ensures later { (t : Operations) → P.later t space.old space.new }
    ensures means { (t : Operations) → P.means space.old t → P.means space.new t }
    ensures writes { WritesNone (P.view space.old) (P.view space.new) result }
{
    match blob_of(space, name)? {
        Err(reason) => Ok(Err(reason)),
        Ok(found) => {
            if count > MOST_AT_ONCE as u64 {
                return Ok(Err(Reason::TooLong));
            }
            if at > found.len as u64 {
                return Ok(Err(Reason::OutOfRange));
            }
            if count > found.len as u64 - at {
                return Ok(Err(Reason::OutOfRange));
            }
            Ok(Ok(found))
        }
    }
}

/// Copies bytes of a blob from an offset on to the front of `into`.
pub fn read<P: PageSpace>(
    space: &mut P,
    ops: &Ops,
    name: Name,
    at: u64,
    count: u64,
    into: &mut [u8],
    undo: &mut UndoNote,
) -> Result<Result<Reply, Reason>, SpaceFault>
    requires means { P.means space.old (table_of record_meaning range_meaning ops.now) }
    requires room { 8192 ≤ length into.old }
    requires there { HasContents (P.view space.old) (HasRoomFor (table_of record_meaning range_meaning ops.now) (P.view space.old) name (Read at count)) }
    ensures counts { Counts (P.view space.old) (P.view space.new) result }
    ensures did { IfOk result (λ r. Did (P.view space.old) (P.view space.new) (HasRoomFor (table_of record_meaning range_meaning ops.now) (P.view space.old) name (Read at count))
        (IsDone (table_of record_meaning range_meaning ops.now) 0 name (Read at count) (said_outcome into.new r) undo.new (P.view space.old).space (P.view space.new).space)) }
    ensures later { P.later (table_of record_meaning range_meaning ops.now) space.old space.new }
    ensures means { P.means space.new (table_of record_meaning range_meaning ops.now) }
    ensures looks { LooksAlone (P.view space.old) (P.view space.new) result undo.new }
    ensures quiet { IfOk result (λ _. undo.new ≡ [] → IsQuiet (P.view space.old) (P.view space.new)) }
{
    undo.set(&[]);
    match check_read(space, name, at, count)? {
        Err(reason) => Ok(Err(reason)),
        Ok(found) => {
            let n = count as usize;
            sg_blob::read(space, found.root, at as u32, &mut into[..n])?;
            Ok(Ok(Reply::Bytes(n)))
        }
    }
}
