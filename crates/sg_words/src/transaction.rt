ghost use Rattle.std.specs.Prelude.{◌≡◌, Some, None, if◌then◌else◌};
ghost use Rattle.sg_words.specs.Parse.{is_reserved, is_transaction};

use sg_base::Name;

fn is_reserved(word: &[u8]) -> bool
    ensures { result ≡ is_reserved word.now }
{
    word == b"flush".as_slice()
        || word == b"checkpoint".as_slice()
        || word == b"truncate".as_slice()
}

/// The name of a transaction.
pub fn transaction(word: &[u8]) -> Option<Name>
    ensures { result ≡ (if is_transaction word.now then Some word.now else None) }
{
    if word.len() > 16 || is_reserved(word) {
        return None;
    }
    Name::new(word)
}
