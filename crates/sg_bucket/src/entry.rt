// The cells of entries.
ghost use Rattle.std.specs.Prelude.{◌≡◌, ◌≤◌, ◌↔◌, IsTrue, length, take};
ghost use Rattle.sg_bucket.specs.Entry.{IsEntryCell, entry_in, key_size, value_size, cell_of};

use sg_base::{put_text, put_u16, read_u16};

/// The most bytes of a key.
pub const MOST_KEY: usize = 128;

/// The most bytes of a value.
pub const MOST_VALUE: usize = 1_024;

/// Whether a cell holds an entry: the lengths of a key and of a value, 2 bytes each, the key and the value, and no more.
pub fn is_entry(cell: &[u8]) -> bool
    ensures { IsTrue result ↔ IsEntryCell cell.now }
{
    if cell.len() < 4 {
        return false;
    }
    let key = read_u16(cell) as usize;
    let value = read_u16(&cell[2..]) as usize;
    key <= MOST_KEY && value <= MOST_VALUE && 4 + (key + value) == cell.len()
}

/// The key of the entry in a cell.
pub fn key_in(cell: &[u8]) -> &[u8]
    requires { IsEntryCell cell.now }
    ensures key { result.now ≡ (entry_in cell.now).key }
    ensures size { length result.now ≡ key_size cell.now }
    ensures few { length result.now ≤ 128 }
{
    let end = 4 + read_u16(cell) as usize;
    &cell[4..end]
}

/// The value of the entry in a cell.
pub fn value_in(cell: &[u8]) -> &[u8]
    requires { IsEntryCell cell.now }
    ensures value { result.now ≡ (entry_in cell.now).value }
    ensures size { length result.now ≡ value_size cell.now }
{
    let start = 4 + read_u16(cell) as usize;
    &cell[start..]
}

/// The most bytes of an entry's cell.
pub const MOST_CELL: usize = 1_156;

/// Writes the cell of an entry to the front of the buffer, and says how many bytes it has.
pub fn spell(into: &mut [u8], key: &[u8], value: &[u8]) -> usize
    requires room { 1156 ≤ length into.old }
    requires key { length key.now ≤ 128 }
    requires value { length value.now ≤ 1024 }
    ensures spelled { take result into.new ≡ cell_of (record { key = key.now; value = value.now }) }
    ensures within { result ≤ length into.new }
{
    let at = put_u16(into, 0, key.len() as u16);
    let at = put_u16(into, at, value.len() as u16);
    let at = put_text(into, at, key);
    put_text(into, at, value)
}
