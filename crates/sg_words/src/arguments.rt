ghost use Rattle.std.specs.Prelude.{◌≡◌, ◌≤◌, None, Some, true, length, IfSome, MatchOption};
ghost use Rattle.sg_words.specs.Parse.{words_of};
ghost use Rattle.sg_words.specs.Spoken.{IsJoined};
ghost use Rattle.sg_words.specs.Verbs.{number_if, numbers_of, one_value};

use crate::number::parse_number;
use crate::split::{is_next, next_word, one_word};
use crate::value::{self, prints_plain};
use crate::verb::Numbered;

/// The number that the first word is, and what follows it, where a number is wanted; else 0 and the
/// whole text. And whether the words stand joined if those that follow do.
#[inline(always)]
pub fn number_if(wanted: bool, text: &[u8]) -> Option<(u64, &[u8], bool)>
    ensures number { MatchOption result (number_if wanted (words_of text.now) ≡ None) (λ p. number_if wanted (words_of text.now) ≡ Some (p.0, words_of p.1.now)) }
    ensures within { IfSome result (λ p. length p.1.now ≤ length text.now) }
    ensures joined { IfSome result (λ p. p.2 ≡ true → IsJoined p.1.now → IsJoined text.now) }
{
    if !wanted {
        return Some((0, text, true));
    }
    if let Some((word, rest)) = next_word(text)
        && let Some(number) = parse_number(word)
    {
        return Some((number, rest, is_next(text, word, rest)));
    }
    None
}

/// The numbers before the value of a verb, 0 for each that it has not, and what follows them. And whether
/// the words stand joined if those that follow do.
#[inline(always)]
pub fn numbers(verb: Numbered, text: &[u8]) -> Option<(u64, u64, u64, &[u8], bool)>
    ensures numbers { MatchOption result (numbers_of verb (words_of text.now) ≡ None)
        (λ p. numbers_of verb (words_of text.now) ≡ Some (p.0, p.1, p.2, words_of p.3.now)) }
    ensures within { IfSome result (λ p. length p.3.now ≤ length text.now) }
    ensures joined { IfSome result (λ p. p.4 ≡ true → IsJoined p.3.now → IsJoined text.now) }
{
    if let Some((first, rest, first_joined)) = number_if(verb.wants_one(), text)
        && let Some((second, rest, second_joined)) = number_if(verb.wants_two(), rest)
        && let Some((third, rest, third_joined)) = number_if(verb.wants_three(), rest)
    {
        let are_joined = first_joined & second_joined & third_joined;
        return Some((first, second, third, rest, are_joined));
    }
    None
}

/// The bytes that the only word of a text stands for as a value, and whether the word is known to be the
/// whole text. One that stands for itself is looked at once: bytes that are plain have no space among
/// them.
#[inline(always)]
#[tactic(auto, using(crate::proofs::Counts::value_alone, crate::proofs::Counts::no_value))]
pub fn one_value<'a>(text: &'a [u8], scratch: &'a mut [u8]) -> Option<(&'a [u8], bool)>
    requires { length text.now ≤ length scratch.old }
    ensures value { MatchOption result (one_value (words_of text.now) ≡ None) (λ p. one_value (words_of text.now) ≡ Some p.0.now) }
    ensures joined { IfSome result (λ p. p.1 ≡ true → IsJoined text.now) }
{
    if prints_plain(text) {
        return Some((text, true));
    }
    if let Some(word) = one_word(text)
        && let Some(value) = value::value(word, scratch)
    {
        return Some((value, false));
    }
    None
}
