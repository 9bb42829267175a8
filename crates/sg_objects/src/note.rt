// The bytes of notes.
ghost use Rattle.std.specs.Prelude.{◌≡◌, ◌+◌, ◌≤◌, ◌++◌, length, take};
ghost use Rattle.byteorder.specs.Endian.{little_bytes};
ghost use Rattle.sg_base.specs.Overwritten.{Wrote};
ghost use Rattle.sg_reading.specs.Back.Undoing.{WasMake, WasDrop, WasPush, WasPop, WasSet, WasApply, WasPut, WasOver};
ghost use Rattle.sg_objects.specs.Notes.{head_bytes, note_bytes};

use sg_base::{Name, put_text, put_u8, put_u16, put_u32};
use sg_space::UndoNote;

// Writes the head of a note: what it undoes, and the name.
pub fn put_head(into: &mut [u8], code: u8, name: Name) -> usize
    requires { 34 ≤ length into.old }
    ensures wrote { Wrote into.old 0 (head_bytes code name) into.new result }
    ensures few { result ≤ 34 }
{
    name.tell_name();
    let at = put_u8(into, 0, code);
    let text = name.text();
    let at = put_u8(into, at, text.len() as u8);
    put_text(into, at, text)
}

/// Notes that an object was made.
pub fn note_make(undo: &mut UndoNote, name: Name)
    ensures { undo.new ≡ note_bytes name WasMake }
{
    let mut bytes = [0; 34];
    let size = put_head(&mut bytes, 1, name);
    undo.set(&bytes[..size]);
}

/// Notes that the object with this root was dropped.
pub fn note_drop(undo: &mut UndoNote, name: Name, root: u32)
    ensures { undo.new ≡ note_bytes name (WasDrop root) }
{
    let mut bytes = [0; 38];
    let at = put_head(&mut bytes, 2, name);
    let size = put_u32(&mut bytes, at, root);
    undo.set(&bytes[..size]);
}

/// Notes that an item was pushed.
pub fn note_push(undo: &mut UndoNote, name: Name)
    ensures { undo.new ≡ note_bytes name WasPush }
{
    let mut bytes = [0; 34];
    let size = put_head(&mut bytes, 3, name);
    undo.set(&bytes[..size]);
}

/// Notes that an item, of at most 256 bytes, was popped.
pub fn note_pop(undo: &mut UndoNote, name: Name, item: &[u8])
    requires { length item.now ≤ 256 }
    ensures { undo.new ≡ note_bytes name (WasPop item.now) }
{
    let mut bytes = [0; 290];
    let at = put_head(&mut bytes, 4, name);
    let size = put_text(&mut bytes, at, item);
    undo.set(&bytes[..size]);
}

/// Notes that this item, of at most 256 bytes, stood at an index.
pub fn note_set(undo: &mut UndoNote, name: Name, index: u32, item: &[u8])
    requires { length item.now ≤ 256 }
    ensures { undo.new ≡ note_bytes name (WasSet index item.now) }
{
    let mut bytes = [0; 294];
    let at = put_head(&mut bytes, 5, name);
    let at = put_u32(&mut bytes, at, index);
    let size = put_text(&mut bytes, at, item);
    undo.set(&bytes[..size]);
}

/// Notes that a registered operation was done to the item at an index, with an argument of at most 256 bytes.
pub fn note_apply(undo: &mut UndoNote, name: Name, index: u32, code: u16, arg: &[u8])
    requires { length arg.now ≤ 256 }
    ensures { undo.new ≡ note_bytes name (WasApply index code arg.now) }
{
    let mut bytes = [0; 296];
    let at = put_head(&mut bytes, 6, name);
    let at = put_u32(&mut bytes, at, index);
    let at = put_u16(&mut bytes, at, code);
    let size = put_text(&mut bytes, at, arg);
    undo.set(&bytes[..size]);
}

/// Notes that a new key, of at most 128 bytes, was put.
pub fn note_put(undo: &mut UndoNote, name: Name, key: &[u8])
    requires { length key.now ≤ 128 }
    ensures { undo.new ≡ note_bytes name (WasPut key.now) }
{
    let mut bytes = [0; 162];
    let at = put_head(&mut bytes, 7, name);
    let size = put_text(&mut bytes, at, key);
    undo.set(&bytes[..size]);
}

/// Notes that a key, of at most 128 bytes, had this value, of at most 1,024.
pub fn note_over(undo: &mut UndoNote, name: Name, key: &[u8], value: &[u8])
    requires key { length key.now ≤ 128 }
    requires value { length value.now ≤ 1024 }
    ensures { undo.new ≡ note_bytes name (WasOver key.now value.now) }
{
    let mut bytes = [0; 1187];
    let at = put_head(&mut bytes, 8, name);
    let at = put_u8(&mut bytes, at, key.len() as u8);
    let at = put_text(&mut bytes, at, key);
    let size = put_text(&mut bytes, at, value);
    undo.set(&bytes[..size]);
}
