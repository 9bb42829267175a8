// Fields one behind another: each is written at a place, and answers the place behind it.
ghost use Rattle.std.specs.Prelude.{◌+◌, ◌≤◌, length};
ghost use Rattle.byteorder.specs.Endian.{little_bytes};
ghost use Rattle.sg_base.specs.Overwritten.{Wrote};

use crate::fields::{write_u16, write_u32, write_u64};

/// Writes the bytes from this place on, and answers the place behind them. The other bytes stay.
pub fn put_text(into: &mut [u8], at: usize, bytes: &[u8]) -> usize
    requires { at + length bytes.now ≤ length into.old }
    ensures { Wrote into.old at bytes.now into.new result }
{
    let next = at + bytes.len();
    into[at..next].copy_from_slice(bytes);
    next
}

/// Writes the number into the byte at this place, and answers the place behind it. The other bytes
/// stay.
pub fn put_u8(into: &mut [u8], at: usize, number: u8) -> usize
    requires { at + 1 ≤ length into.old }
    ensures { Wrote into.old at (little_bytes 1 number) into.new result }
{
    put_text(into, at, &[number])
}

/// Writes the number into the 2 bytes from this place on, and answers the place behind them. The
/// other bytes stay.
pub fn put_u16(into: &mut [u8], at: usize, number: u16) -> usize
    requires { at + 2 ≤ length into.old }
    ensures { Wrote into.old at (little_bytes 2 number) into.new result }
{
    write_u16(&mut into[at..at + 2], number);
    at + 2
}

/// Writes the number into the 4 bytes from this place on, and answers the place behind them. The
/// other bytes stay.
pub fn put_u32(into: &mut [u8], at: usize, number: u32) -> usize
    requires { at + 4 ≤ length into.old }
    ensures { Wrote into.old at (little_bytes 4 number) into.new result }
{
    write_u32(&mut into[at..at + 4], number);
    at + 4
}

/// Writes the number into the 8 bytes from this place on, and answers the place behind them. The
/// other bytes stay.
pub fn put_u64(into: &mut [u8], at: usize, number: u64) -> usize
    requires { at + 8 ≤ length into.old }
    ensures { Wrote into.old at (little_bytes 8 number) into.new result }
{
    write_u64(&mut into[at..at + 8], number);
    at + 8
}
