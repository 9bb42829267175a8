// A blob.
ghost use Rattle.std.specs.Prelude.{◌≡◌, ◌+◌, ◌*◌, ◌/◌, ◌<◌, ◌≤◌, length, take, drop, ⊤};
ghost use Rattle.sg_blob.specs.Calls.{HasBlob, IfBlob};
ghost use Rattle.sg_lines.specs.Parts.{piece_part, piece_parts, parts_of_object};
ghost use Rattle.sg_listing.specs.Telling.{OnlyTold, CountsEars, IsTold};
ghost use Rattle.sg_model.specs.Objects.Object.{Blob};
ghost use Rattle.sg_ops.specs.Table.{Table};

use crate::fault::TellFault;
use sg_base::{Name, PageNo};
use sg_lines::{Listener, are_zero};
use sg_space::PageSpace;

// Reads bytes from an offset on, and tells of them unless all are 0.
fn tell_read<P: PageSpace, L: Listener>(
    space: &mut P,
    root: PageNo,
    at: u32,
    piece: &mut [u8],
    to: &mut L,
) -> Result<(), TellFault>
    requires short { length piece.old ≤ 32 }
    requires there { HasBlob (P.view space.old) root.0 (λ b. at + length piece.old ≤ length b.bytes) }
    ensures space { OnlyTold (P.view space.old) (P.view space.new) result }
    ensures heard { IfBlob (P.view space.old) root.0 (λ b.
        IsTold L.ears to.old (piece_part at (take (length piece.old) (drop at b.bytes))) to.new result) }
    ensures listener { CountsEars L.ears to.old to.new result }
    ensures later { (t : Table) → P.later t space.old space.new }
    ensures means { (t : Table) → P.means space.old t → P.means space.new t }
{
    sg_blob::read(space, root, at, piece)?;
    if are_zero(piece) {
        return Ok(());
    }
    to.piece(u64::from(at), piece)?;
    Ok(())
}

// Tells of the piece with a number, of a blob of `len` bytes.
fn tell_piece<P: PageSpace, L: Listener>(
    space: &mut P,
    root: PageNo,
    number: u32,
    len: u32,
    to: &mut L,
) -> Result<(), TellFault>
    requires few { len ≤ 16384000 }
    requires within { 32 * number < len }
    requires there { HasBlob (P.view space.old) root.0 (λ b. len ≡ length b.bytes) }
    ensures space { OnlyTold (P.view space.old) (P.view space.new) result }
    ensures heard { IfBlob (P.view space.old) root.0 (λ b. len ≡ length b.bytes
        → IsTold L.ears to.old (piece_part (32 * number) (take 32 (drop (32 * number) b.bytes))) to.new result) }
    ensures listener { CountsEars L.ears to.old to.new result }
    ensures later { (t : Table) → P.later t space.old space.new }
    ensures means { (t : Table) → P.means space.old t → P.means space.new t }
{
    let at = 32 * number;
    let count = (len - at).min(32) as usize;
    let mut piece = [0; 32];
    tell_read(space, root, at, &mut piece[..count], to)
}

// Tells of the pieces of a blob of `len` bytes.
fn tell_pieces<P: PageSpace, L: Listener>(
    space: &mut P,
    root: PageNo,
    len: u32,
    to: &mut L,
) -> Result<(), TellFault>
    requires few { len ≤ 16384000 }
    requires there { HasBlob (P.view space.old) root.0 (λ b. len ≡ length b.bytes) }
    ensures space { OnlyTold (P.view space.old) (P.view space.new) result }
    ensures heard { IfBlob (P.view space.old) root.0 (λ b. len ≡ length b.bytes
        → IsTold L.ears to.old (piece_parts ((len + 31) / 32) b.bytes) to.new result) }
    ensures listener { CountsEars L.ears to.old to.new result }
    ensures later { (t : Table) → P.later t space.old space.new }
    ensures means { (t : Table) → P.means space.old t → P.means space.new t }
{
    let count = (len + 31) / 32;
    'pieces: for number in 0..count {
        tell_piece(space, root, number, len, to)?;
    }
    Ok(())
}

/// Tells a listener of a blob under a name: what it begins with, and then those of its pieces of 32 bytes that aren't all 0. No more
/// than one piece is held at a time.
pub fn tell_blob<P: PageSpace, L: Listener>(
    space: &mut P,
    name: &Name,
    root: PageNo,
    to: &mut L,
) -> Result<(), TellFault>
    requires { HasBlob (P.view space.old) root.0 (λ _. ⊤) }
    ensures space { OnlyTold (P.view space.old) (P.view space.new) result }
    ensures heard { IfBlob (P.view space.old) root.0 (λ b.
        IsTold L.ears to.old (parts_of_object name.now (Blob b.bytes)) to.new result) }
    ensures listener { CountsEars L.ears to.old to.new result }
    ensures later { (t : Table) → P.later t space.old space.new }
    ensures means { (t : Table) → P.means space.old t → P.means space.new t }
{
    let len = sg_blob::len(space, root)?;
    to.blob(name, u64::from(len))?;
    tell_pieces(space, root, len, to)
}
