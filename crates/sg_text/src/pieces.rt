ghost use Rattle.std.specs.Prelude.{◌≡◌, ◌+◌, ◌*◌, ◌≤◌, ◌++◌, length, take, decimal};
ghost use Rattle.hex.specs.Hex.{encode_lower};

use itoa::Buffer;

/// Puts a text behind the first `at` bytes of a buffer, and gives the end of the text.
#[tactic(auto, using(crate::proofs::Fronts::appended))]
pub fn append(into: &mut [u8], at: usize, text: &[u8]) -> usize
    requires { at + length text.now ≤ length into.old }
    ensures end { result ≡ at + length text.now }
    ensures front { take result into.new ≡ take at into.old ++ text.now }
{
    let end = at + text.len();
    into[at..end].copy_from_slice(text);
    end
}

/// Puts the lower-case hexadecimal digits of some bytes behind the first `at` bytes of a buffer, two for each, and gives their end.
#[tactic(auto, using(crate::proofs::Fronts::appended))]
pub fn append_hex(into: &mut [u8], at: usize, bytes: &[u8]) -> usize
    requires { at + 2 * length bytes.now ≤ length into.old }
    ensures end { result ≡ at + 2 * length bytes.now }
    ensures front { take result into.new ≡ take at into.old ++ encode_lower bytes.now }
{
    let end = at + 2 * bytes.len();
    match hex::encode_to_slice(bytes, &mut into[at..end]) {
        Ok(()) => end,
        Err(_) => unreachable!(),
    }
}

/// Puts the decimal digits of a number behind the first `at` bytes of a buffer, at most 20, and gives their end.
pub fn append_number(into: &mut [u8], at: usize, n: u64) -> usize
    requires { at + 20 ≤ length into.old }
    ensures end { result ≤ at + 20 }
    ensures front { take result into.new ≡ take at into.old ++ decimal n }
{
    let mut digits = Buffer::new();
    append(into, at, digits.format(n).as_bytes())
}
