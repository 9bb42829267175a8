ghost use Rattle.std.specs.Prelude.{◌≡◌};
ghost use Rattle.std.specs.List.{list_all};
ghost use Rattle.sg_base.specs.Spelling.{is_digit};
ghost use Rattle.sg_words.specs.Parse.{number_of, fitting, value_from};

fn is_digit(b: u8) -> bool
    ensures { result ≡ is_digit b }
{
    b.is_ascii_digit()
}

fn has_digits(word: &[u8]) -> bool
    ensures { result ≡ list_all is_digit word.now }
{
    word.iter().all(|b| is_digit(*b))
}

// The value of the digits, if it is below 2^64.
#[tactic(auto, using(crate::proofs::Values::all_read, crate::proofs::Values::too_great))]
fn value(digits: &[u8]) -> Option<u64>
    ensures { result ≡ fitting (value_from 0 digits.now) }
{
    let mut value: u64 = 0;
    'digits: for b in digits {
        let digit = u64::from(b.saturating_sub(b'0'));
        let Some(shifted) = value.checked_mul(10) else {
            return None;
        };
        let Some(next) = shifted.checked_add(digit) else {
            return None;
        };
        value = next;
    }
    Some(value)
}

/// The number that the word is, if it is one: 1 to 20 digits with a value below 2^64.
pub fn parse_number(word: &[u8]) -> Option<u64>
    ensures { result ≡ number_of word.now }
{
    if word.is_empty() || word.len() > 20 || !has_digits(word) {
        return None;
    }
    value(word)
}
