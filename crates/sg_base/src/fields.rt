// Fields of fixed width, little-endian: the least byte first.
ghost use Rattle.std.specs.Prelude.{◌≡◌, ◌++◌, ◌≤◌, length, take, drop};
ghost use Rattle.byteorder.specs.Endian.{little_bytes, little_number};

use byteorder::{ByteOrder, LittleEndian};

/// The number in the first 2 bytes.
pub fn read_u16(bytes: &[u8]) -> u16
    requires { 2 ≤ length bytes.now }
    ensures value { result ≡ little_number 2 bytes.now }
    ensures back { little_bytes 2 result ≡ take 2 bytes.now }
{
    LittleEndian::read_u16(bytes)
}

/// The number in the first 4 bytes.
pub fn read_u32(bytes: &[u8]) -> u32
    requires { 4 ≤ length bytes.now }
    ensures value { result ≡ little_number 4 bytes.now }
    ensures back { little_bytes 4 result ≡ take 4 bytes.now }
{
    LittleEndian::read_u32(bytes)
}

/// The number in the first 8 bytes.
pub fn read_u64(bytes: &[u8]) -> u64
    requires { 8 ≤ length bytes.now }
    ensures value { result ≡ little_number 8 bytes.now }
    ensures back { little_bytes 8 result ≡ take 8 bytes.now }
{
    LittleEndian::read_u64(bytes)
}

/// Writes the number into the first 2 bytes.
pub fn write_u16(into: &mut [u8], number: u16)
    requires { 2 ≤ length into.old }
    ensures bytes { into.new ≡ little_bytes 2 number ++ drop 2 into.old }
    ensures back { little_number 2 into.new ≡ number }
{
    LittleEndian::write_u16(into, number);
}

/// Writes the number into the first 4 bytes.
pub fn write_u32(into: &mut [u8], number: u32)
    requires { 4 ≤ length into.old }
    ensures bytes { into.new ≡ little_bytes 4 number ++ drop 4 into.old }
    ensures back { little_number 4 into.new ≡ number }
{
    LittleEndian::write_u32(into, number);
}

/// Writes the number into the first 8 bytes.
pub fn write_u64(into: &mut [u8], number: u64)
    requires { 8 ≤ length into.old }
    ensures bytes { into.new ≡ little_bytes 8 number ++ drop 8 into.old }
    ensures back { little_number 8 into.new ≡ number }
{
    LittleEndian::write_u64(into, number);
}
