// The blob of a name, and the note of its length.
ghost use Rattle.std.specs.Prelude.{◌≡◌, ◌≤◌, IfOk, OnOk, ⊤};
ghost use Rattle.sg_ops.specs.Table.{Table as Operations};
ghost use Rattle.sg_space.specs.View.{Counts, OnlyReads};
ghost use Rattle.sg_reading.specs.Back.Undoing.{WasBytes};
ghost use Rattle.sg_contents.specs.Standing.{HasContents, IfContents};
ghost use Rattle.sg_objects.specs.Blobs.{IsBlobFound};
ghost use Rattle.sg_objects.specs.Notes.{note_bytes};
ghost use Rattle.sg_space.specs.Pages.{WritesNone};

use crate::find::root_of;
use crate::note::put_head;
use sg_base::{Name, PageNo, put_u32};
use sg_catalog::ObjectKind;
use sg_model::Reason;
use sg_space::{PageSpace, SpaceFault, UndoNote};

/// The most bytes that a blob may have.
pub const MOST: u64 = 16_384_000;

/// The most bytes that are written or read at once.
pub const MOST_AT_ONCE: usize = 8_192;

/// A blob: its root, and how many bytes it has.
#[derive(Clone, Copy)]
pub struct BlobAt {
    pub root: PageNo,
    pub len: u32,
}

/// The blob of this name.
pub fn blob_of<P: PageSpace>(
    space: &mut P,
    name: Name,
) -> Result<Result<BlobAt, Reason>, SpaceFault>
    requires { HasContents (P.view space.old) (λ _. ⊤) }
    ensures counts { Counts (P.view space.old) (P.view space.new) result }
    ensures kept { OnOk result (OnlyReads (P.view space.old) (P.view space.new)) }
    ensures read { IfOk result (λ r. IfContents (P.view space.old) (λ s. IsBlobFound name s r)) }
    ensures later { (t : Operations) → P.later t space.old space.new }
    ensures means { (t : Operations) → P.means space.old t → P.means space.new t }
    ensures writes { WritesNone (P.view space.old) (P.view space.new) result }
    ensures small { IfOk result (λ r. IfOk r (λ x. x.len ≤ 16384000)) }
{
    match root_of(space, name, ObjectKind::Blob)? {
        Err(reason) => Ok(Err(reason)),
        Ok(root) => {
            let len = sg_blob::len(space, root)?;
            Ok(Ok(BlobAt { root, len }))
        }
    }
}

/// Notes that a blob had so many bytes. What they were is in the records of the change.
pub fn note_size(undo: &mut UndoNote, name: Name, size: u32)
    ensures { undo.new ≡ note_bytes name (WasBytes size) }
{
    let mut bytes = [0; 38];
    let at = put_head(&mut bytes, 9, name);
    let size = put_u32(&mut bytes, at, size);
    undo.set(&bytes[..size]);
}
