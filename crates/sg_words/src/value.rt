ghost use Rattle.std.specs.Prelude.{◌≡◌, ◌*◌, ◌≤◌, ◌<◌, ◌&&◌, nat_le, length, option_copied};
ghost use Rattle.std.specs.List.{list_all};
ghost use Rattle.hex.specs.Hex.{decode_of};
ghost use Rattle.sg_words.specs.Parse.{is_plain, if_decoded, value_of};
ghost use Rattle.sg_words.specs.Text.{prints_plain};

/// The first byte that stands for itself.
const FIRST_PLAIN: u8 = 0x21;

/// How far the last byte that stands for itself is behind the first.
const MOST_BEHIND: u8 = 0x7e - 0x21;

// How far a byte is behind the first that stands for itself. The bytes before that one come last.
fn behind_first(b: u8) -> u8
    ensures { nat_le result 93 ≡ is_plain b }
{
    b.wrapping_sub(FIRST_PLAIN)
}

fn greater(a: u8, b: u8) -> u8
    ensures { nat_le result 93 ≡ (nat_le a 93 && nat_le b 93) }
{
    a.max(b)
}

// Whether all of the bytes stand for themselves. It looks at all of them, so that several can be
// looked at at once.
fn are_plain(word: &[u8]) -> bool
    ensures { result ≡ list_all is_plain word.now }
{
    let mut most = 0;
    'bytes: for b in word {
        most = greater(most, behind_first(*b));
    }
    most <= MOST_BEHIND
}

/// Whether bytes are printed as themselves.
pub fn prints_plain(bytes: &[u8]) -> bool
    ensures { result ≡ prints_plain bytes.now }
{
    if let [b'x', b':', ..] = bytes {
        return false;
    }
    !bytes.is_empty() && are_plain(bytes)
}

// The bytes of hexadecimal digits, put at the front of the scratch.
#[tactic(auto, using(crate::proofs::Digits::decoded))]
fn decode<'a>(digits: &[u8], scratch: &'a mut [u8]) -> Option<&'a [u8]>
    requires { length digits.now ≤ length scratch.old }
    ensures { option_copied result ≡ if_decoded (decode_of digits.now) }
{
    let into = &mut scratch[..digits.len() / 2];
    match hex::decode_to_slice(digits, into) {
        Ok(()) => Some(into),
        Err(_) => None,
    }
}

/// The bytes that a value word stands for.
pub fn value<'a>(word: &'a [u8], scratch: &'a mut [u8]) -> Option<&'a [u8]>
    requires { length word.now ≤ length scratch.old }
    ensures { option_copied result ≡ value_of word.now }
{
    if let [b'x', b':', digits @ ..] = word {
        return decode(digits, scratch);
    }
    if are_plain(word) { Some(word) } else { None }
}
