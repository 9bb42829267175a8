// What a note undoes, undone.
ghost use Rattle.std.specs.Prelude.{◌≡◌, ◌+◌, ◌≤◌, length, OnOk};
ghost use Rattle.sg_ops.specs.Table.{table_of};
ghost use Rattle.sg_space.specs.View.{Counts};
ghost use Rattle.sg_contents.specs.Standing.{HasContents};
ghost use Rattle.sg_objects.specs.Done.{IsFresh};
ghost use Rattle.sg_objects.specs.Notes.{byte_at, undoing_said, note_said};
ghost use Rattle.sg_objects.specs.Reversing.{CanReverseBy, HasNote, Reverses};
ghost use Rattle.sg_objects.specs.Undone.{Undoes};
ghost use Rattle.sg_objects.specs.Reshaped.{Reshapes};
ghost use Rattle.sg_objects.specs.Quiet.{most_freed};

use crate::back::{undo_apply, undo_drop, undo_pop, undo_push, undo_set};
use crate::blob_back::undo_bytes;
use crate::put::undo_over;
use crate::table::undo_put;
use crate::unmake::undo_make;
use sg_base::{Name, PageNo, read_u16, read_u32};
use sg_ops::Ops;
use sg_space::{PageSpace, SpaceFault, UndoNote};

// Puts an entry back whose key stands behind its length, and its value behind that.
fn reverse_over<P: PageSpace>(
    space: &mut P,
    ops: &Ops,
    name: Name,
    rest: &[u8],
) -> Result<(), SpaceFault>
    requires means { P.means space.old (table_of record_meaning range_meaning ops.now) }
    requires there { HasContents (P.view space.old) (CanReverseBy (table_of record_meaning range_meaning ops.now) (P.view space.old) 8 name rest.now) }
    requires fresh { (P.view space.old).Told → IsFresh (P.view space.old) }
    ensures counts { Counts (P.view space.old) (P.view space.new) result }
    ensures did { OnOk result (Undoes (P.view space.old) (P.view space.new) (table_of record_meaning range_meaning ops.now) (undoing_said 8 rest.now) name) }
    ensures splits { OnOk result (Reshapes (P.view space.old) (P.view space.new) (undoing_said 8 rest.now) name) }
    ensures later { P.later (table_of record_meaning range_meaning ops.now) space.old space.new }
    ensures means { P.means space.new (table_of record_meaning range_meaning ops.now) }
    ensures few { (P.view space.new).records ≤ (P.view space.old).records + 8 }
{
    if rest.len() == 0 {
        return Err(space.broken());
    }
    let size = rest[0] as usize;
    let behind = &rest[1..];
    if size > behind.len() {
        return Err(space.broken());
    }
    let key = &behind[..size];
    let value = &behind[size..];
    if key.len() > 128 {
        return Err(space.broken());
    }
    if value.len() > 1024 {
        return Err(space.broken());
    }
    undo_over(space, ops, name, key, value)
}

// Undoes what a note of this code with these further fields undoes.
fn reverse_by<P: PageSpace>(
    space: &mut P,
    ops: &Ops,
    code: u8,
    name: Name,
    rest: &[u8],
) -> Result<(), SpaceFault>
    requires means { P.means space.old (table_of record_meaning range_meaning ops.now) }
    requires there { HasContents (P.view space.old) (CanReverseBy (table_of record_meaning range_meaning ops.now) (P.view space.old) code name rest.now) }
    requires fresh { (P.view space.old).Told → IsFresh (P.view space.old) }
    ensures counts { Counts (P.view space.old) (P.view space.new) result }
    ensures did { OnOk result (Undoes (P.view space.old) (P.view space.new) (table_of record_meaning range_meaning ops.now) (undoing_said code rest.now) name) }
    ensures splits { OnOk result (Reshapes (P.view space.old) (P.view space.new) (undoing_said code rest.now) name) }
    ensures later { P.later (table_of record_meaning range_meaning ops.now) space.old space.new }
    ensures means { P.means space.new (table_of record_meaning range_meaning ops.now) }
    ensures few { (P.view space.old).Told → (P.view space.new).records ≤ (P.view space.old).records + most_freed }
{
    if code == 1 {
        return undo_make(space, ops, name);
    }
    if code == 2 {
        if rest.len() < 4 {
            return Err(space.broken());
        }
        return undo_drop(space, ops, name, PageNo(read_u32(rest)));
    }
    if code == 3 {
        return undo_push(space, ops, name);
    }
    if code == 4 {
        return undo_pop(space, ops, name, rest);
    }
    if code == 5 {
        if rest.len() < 4 {
            return Err(space.broken());
        }
        return undo_set(space, ops, name, read_u32(rest), &rest[4..]);
    }
    if code == 6 {
        if rest.len() < 6 {
            return Err(space.broken());
        }
        let index = read_u32(rest);
        let behind = &rest[4..];
        return undo_apply(space, ops, name, index, read_u16(behind), &behind[2..]);
    }
    if code == 7 {
        if rest.len() > 128 {
            return Err(space.broken());
        }
        return undo_put(space, ops, name, rest);
    }
    if code == 8 {
        return reverse_over(space, ops, name, rest);
    }
    Err(space.broken())
}

/// Undoes what a note undoes: in an action that has changed nothing yet, or, where the note is one of bytes, has put
/// the before bytes back in the bands.
pub fn reverse<P: PageSpace>(space: &mut P, ops: &Ops, note: &UndoNote) -> Result<(), SpaceFault>
    requires means { P.means space.old (table_of record_meaning range_meaning ops.now) }
    requires there { HasNote (table_of record_meaning range_meaning ops.now) (P.view space.old) note.now }
    requires fresh { (P.view space.old).Told → (byte_at note.now 0 ≡ 9 → ⊥) → IsFresh (P.view space.old) }
    ensures counts { Counts (P.view space.old) (P.view space.new) result }
    ensures did { OnOk result (Reverses (P.view space.old) (P.view space.new) (table_of record_meaning range_meaning ops.now) note.now) }
    ensures splits { OnOk result (Reshapes (P.view space.old) (P.view space.new) (note_said note.now).undoes (note_said note.now).name) }
    ensures later { P.later (table_of record_meaning range_meaning ops.now) space.old space.new }
    ensures means { P.means space.new (table_of record_meaning range_meaning ops.now) }
    ensures few { (P.view space.old).Told → (P.view space.new).records ≤ (P.view space.old).records + most_freed }
{
    let bytes = note.bytes();
    if bytes.len() < 2 {
        return Err(space.broken());
    }
    let code = bytes[0];
    let size = bytes[1] as usize;
    let behind = &bytes[2..];
    if size > behind.len() {
        return Err(space.broken());
    }
    let Some(name) = Name::new(&behind[..size]) else {
        return Err(space.broken());
    };
    let rest = &behind[size..];
    if code == 9 {
        if rest.len() < 4 {
            return Err(space.broken());
        }
        return undo_bytes(space, ops, name, read_u32(rest));
    }
    reverse_by(space, ops, code, name, rest)
}
