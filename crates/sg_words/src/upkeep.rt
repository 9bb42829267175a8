ghost use Rattle.std.specs.Prelude.{◌≡◌};
ghost use Rattle.sg_words.specs.Upkeep.{upkeep_word, upkeep_of};

use crate::request::MOST_LINE_BYTES;
use crate::split::{one_word, without_return};

/// What a line may ask of the store as a whole, and of no transaction.
#[derive(Clone, Copy)]
pub enum Upkeep {
    /// To make all that was done durable, at its place.
    Flush,
    /// To make the log durable, with a record of where its redo has to begin.
    Checkpoint,
    /// To cut off of the log what isn't wanted any more.
    Truncate,
}

// What a word asks of the store as a whole.
#[tactic(auto, unfolding(crate::specs::Upkeep::upkeep_word))]
fn upkeep_word(word: &[u8]) -> Option<Upkeep>
    ensures { result ≡ upkeep_word word.now }
{
    if word == b"flush".as_slice() {
        Some(Upkeep::Flush)
    } else if word == b"checkpoint".as_slice() {
        Some(Upkeep::Checkpoint)
    } else if word == b"truncate".as_slice() {
        Some(Upkeep::Truncate)
    } else {
        None
    }
}

/// What a line without its LF asks of the store as a whole: one that is the word `flush`, `checkpoint` or
/// `truncate` alone. Such a line is no request of a transaction.
#[tactic(auto, unfolding(crate::specs::Upkeep::upkeep_of))]
pub fn parse_upkeep(text: &[u8]) -> Option<Upkeep>
    ensures { result ≡ upkeep_of text.now }
{
    if text.len() > MOST_LINE_BYTES {
        return None;
    }
    match one_word(without_return(text)) {
        Some(word) => upkeep_word(word),
        None => None,
    }
}
