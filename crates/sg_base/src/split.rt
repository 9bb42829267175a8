// Fields one behind another: each is taken off the front of some bytes.
ghost use Rattle.std.specs.Prelude.{◌≡◌, option_map};
ghost use Rattle.sg_base.specs.Forms.{read_number, read_text};

use crate::fields::{read_u16, read_u32, read_u64};

/// The first byte, and what stands behind it. There is nothing where there are no bytes.
pub fn split_u8(bytes: &[u8]) -> Option<(u8, &[u8])>
    ensures { option_map (λ p. (p.0, p.1.now)) result ≡ read_number 1 bytes.now }
{
    if bytes.len() < 1 {
        return None;
    }
    Some((bytes[0], &bytes[1..]))
}

/// The number in the first 2 bytes, and what stands behind it. There is nothing where there are
/// fewer bytes.
pub fn split_u16(bytes: &[u8]) -> Option<(u16, &[u8])>
    ensures { option_map (λ p. (p.0, p.1.now)) result ≡ read_number 2 bytes.now }
{
    if bytes.len() < 2 {
        return None;
    }
    Some((read_u16(bytes), &bytes[2..]))
}

/// The number in the first 4 bytes, and what stands behind it. There is nothing where there are
/// fewer bytes.
pub fn split_u32(bytes: &[u8]) -> Option<(u32, &[u8])>
    ensures { option_map (λ p. (p.0, p.1.now)) result ≡ read_number 4 bytes.now }
{
    if bytes.len() < 4 {
        return None;
    }
    Some((read_u32(bytes), &bytes[4..]))
}

/// The number in the first 8 bytes, and what stands behind it. There is nothing where there are
/// fewer bytes.
pub fn split_u64(bytes: &[u8]) -> Option<(u64, &[u8])>
    ensures { option_map (λ p. (p.0, p.1.now)) result ≡ read_number 8 bytes.now }
{
    if bytes.len() < 8 {
        return None;
    }
    Some((read_u64(bytes), &bytes[8..]))
}

/// The first `size` bytes, and what stands behind them. There is nothing where there are fewer
/// bytes.
pub fn split_text(bytes: &[u8], size: usize) -> Option<(&[u8], &[u8])>
    ensures { option_map (λ p. (p.0.now, p.1.now)) result ≡ read_text size bytes.now }
{
    if bytes.len() < size {
        return None;
    }
    Some((&bytes[..size], &bytes[size..]))
}
