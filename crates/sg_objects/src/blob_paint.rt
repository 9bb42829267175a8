// A registered range operation writes bytes of a blob.
ghost use Rattle.std.specs.Prelude.{◌≡◌, ◌+◌, ◌≤◌, ◌<◌, length, OnOk, IfOk, ⊤, []};
ghost use Rattle.sg_ops.specs.Table.{Table as Operations, table_of};
ghost use Rattle.sg_model.specs.SaidReplies.{said_outcome};
ghost use Rattle.sg_model.specs.Verb.Verb.{Paint};
ghost use Rattle.sg_space.specs.View.{Counts, OnlyReads};
ghost use Rattle.sg_contents.specs.Standing.{HasContents, IfContents};
ghost use Rattle.sg_objects.specs.Blobs.{CanPaintOn};
ghost use Rattle.sg_objects.specs.Done.{Did, IsDone, HasRoomFor};
ghost use Rattle.sg_objects.specs.Found.{CheckedBy};
ghost use Rattle.sg_space.specs.Pages.{WritesNone};
ghost use Rattle.sg_objects.specs.Quiet.{IsQuiet, Wrote};

use crate::blob::{BlobAt, blob_of, note_size};
use sg_base::Name;
use sg_model::{Reason, Reply};
use sg_ops::Ops;
use sg_space::{PageSpace, SpaceFault, UndoNote};

/// The blob of which so many bytes may be written by a registered operation.
pub fn check_paint<P: PageSpace>(
    space: &mut P,
    ops: &Ops,
    name: Name,
    at: u64,
    count: u64,
    code: u64,
    arg: &[u8],
) -> Result<Result<BlobAt, Reason>, SpaceFault>
    requires { HasContents (P.view space.old) (λ _. ⊤) }
    ensures counts { Counts (P.view space.old) (P.view space.new) result }
    ensures kept { OnOk result (OnlyReads (P.view space.old) (P.view space.new)) }
    ensures read { IfOk result (λ r. IfContents (P.view space.old) (λ s.
        CheckedBy (table_of record_meaning range_meaning ops.now) name (Paint at count code arg.now) s
        (CanPaintOn (table_of record_meaning range_meaning ops.now) name at count code arg.now s) r)) }
    ensures within { IfOk result (λ r. IfOk r (λ x. at + count ≤ x.len)) }
    ensures short { IfOk result (λ r. IfOk r (λ x. (length arg.now ≤ 256))) }
    ensures most { IfOk result (λ r. IfOk r (λ x. (count ≤ 16384000))) }
    ensures code { IfOk result (λ r. IfOk r (λ x. (code < 65536))) }
    ensures later { (t : Operations) → P.later t space.old space.new }
    ensures means { (t : Operations) → P.means space.old t → P.means space.new t }
    ensures writes { WritesNone (P.view space.old) (P.view space.new) result }
{
    match blob_of(space, name)? {
        Err(reason) => Ok(Err(reason)),
        Ok(found) => {
            if arg.len() > 256 {
                return Ok(Err(Reason::TooLong));
            }
            if at > found.len as u64 {
                return Ok(Err(Reason::OutOfRange));
            }
            if count > found.len as u64 - at {
                return Ok(Err(Reason::OutOfRange));
            }
            if code > 65535 {
                return Ok(Err(Reason::NoOperation));
            }
            if !ops.has_range(code as u16) {
                return Ok(Err(Reason::NoOperation));
            }
            Ok(Ok(found))
        }
    }
}

/// Writes bytes of a blob from an offset on by a registered operation.
pub fn paint<P: PageSpace>(
    space: &mut P,
    ops: &Ops,
    name: Name,
    at: u64,
    count: u64,
    code: u64,
    arg: &[u8],
    into: &mut [u8],
    undo: &mut UndoNote,
) -> Result<Result<Reply, Reason>, SpaceFault>
    requires means { P.means space.old (table_of record_meaning range_meaning ops.now) }
    requires there { HasContents (P.view space.old) (HasRoomFor (table_of record_meaning range_meaning ops.now) (P.view space.old) name (Paint at count code arg.now)) }
    ensures counts { Counts (P.view space.old) (P.view space.new) result }
    ensures did { IfOk result (λ r. Did (P.view space.old) (P.view space.new) (HasRoomFor (table_of record_meaning range_meaning ops.now) (P.view space.old) name (Paint at count code arg.now))
        (IsDone (table_of record_meaning range_meaning ops.now) 0 name (Paint at count code arg.now) (said_outcome into.new r) undo.new (P.view space.old).space (P.view space.new).space)) }
    ensures later { P.later (table_of record_meaning range_meaning ops.now) space.old space.new }
    ensures means { P.means space.new (table_of record_meaning range_meaning ops.now) }
    ensures few { (P.view space.new).records ≤ (P.view space.old).records + 2002 }
    ensures quiet { IfOk result (λ _. undo.new ≡ [] → IsQuiet (P.view space.old) (P.view space.new)) }
    ensures wrote { IfOk result (λ r. Wrote (P.view space.old) (P.view space.new) (HasRoomFor (table_of record_meaning range_meaning ops.now) (P.view space.old) name (Paint at count code arg.now)) name (Paint at count code arg.now) (said_outcome into.new r)) }
{
    undo.set(&[]);
    match check_paint(space, ops, name, at, count, code, arg)? {
        Err(reason) => Ok(Err(reason)),
        Ok(found) => {
            sg_blob::paint(
                space,
                ops,
                found.root,
                at as u32,
                count as u32,
                code as u16,
                arg,
            )?;
            note_size(undo, name, found.len);
            Ok(Ok(Reply::Done))
        }
    }
}
