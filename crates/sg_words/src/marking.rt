ghost use Rattle.std.specs.Prelude.{◌≡◌};
ghost use Rattle.sg_words.specs.Marking.{mark_number, save_of, back_of, marking_in, marking_of};
ghost use Rattle.sg_words.specs.Parse.{words_of};

use crate::number::parse_number;
use crate::request::MOST_LINE_BYTES;
use crate::split::{next_word, without_return};
use crate::transaction::transaction;
use sg_base::Name;

/// The most marks that a transaction has.
const MOST_MARKS: u64 = 16;

/// What a line may ask of the marks of a transaction.
#[derive(Clone, Copy)]
pub enum Marking {
    /// To set one more.
    Save,
    /// To go back to the one with this number, of which the first is 1; 0 stands for each number that no
    /// transaction has a mark of.
    Back(u16),
}

// The number of a mark, and 0 where no transaction has one with that number.
fn mark_number(n: u64) -> u16
    ensures { result ≡ mark_number n }
{
    if n <= MOST_MARKS { n as u16 } else { 0 }
}

// To set a mark, where no words are behind the verb.
fn save(rest: &[u8]) -> Option<Marking>
    ensures { result ≡ save_of (words_of rest.now) }
{
    match next_word(rest) {
        Some(_) => None,
        None => Some(Marking::Save),
    }
}

// To go back to a mark, where its number alone is behind the verb.
fn back(rest: &[u8]) -> Option<Marking>
    ensures { result ≡ back_of (words_of rest.now) }
{
    let Some((number, rest)) = next_word(rest) else {
        return None;
    };
    if next_word(rest).is_some() {
        return None;
    }
    match parse_number(number) {
        Some(n) => Some(Marking::Back(mark_number(n))),
        None => None,
    }
}

// What the words behind a transaction's name ask of its marks.
#[tactic(auto, unfolding(crate::specs::Marking::marking_in))]
fn words_of_marks(words: &[u8]) -> Option<Marking>
    ensures { result ≡ marking_in (words_of words.now) }
{
    let Some((verb, rest)) = next_word(words) else {
        return None;
    };
    if verb == b"save".as_slice() {
        save(rest)
    } else if verb == b"back".as_slice() {
        back(rest)
    } else {
        None
    }
}

/// What a line without its LF asks of the marks of a transaction, and of which: one that is the
/// transaction's name and the word `save` alone, or that name, `back` and a number. Such a line is no other
/// request of a transaction.
#[tactic(auto, unfolding(crate::specs::Marking::marking_of))]
pub fn parse_marking(text: &[u8]) -> Option<(Name, Marking)>
    ensures { result ≡ marking_of text.now }
{
    if text.len() > MOST_LINE_BYTES {
        return None;
    }
    let Some((name, words)) = next_word(without_return(text)) else {
        return None;
    };
    if let Some(name) = transaction(name)
        && let Some(marking) = words_of_marks(words)
    {
        return Some((name, marking));
    }
    None
}
