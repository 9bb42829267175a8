ghost use Rattle.std.specs.Prelude.{◌≡◌, ◌≤◌, None, Some, true, length, IfSome, MatchOption};
ghost use Rattle.sg_model.specs.SaidOps.{said_op};
ghost use Rattle.sg_model.specs.Verb.Op.{On};
ghost use Rattle.sg_words.specs.Parse.{words_of};
ghost use Rattle.sg_words.specs.Requested.{shown, shown_option, shown_asked, HasWords};
ghost use Rattle.sg_words.specs.Spoken.{IsJoined};
ghost use Rattle.sg_words.specs.Requests.{put_of, make_of, plain_request, valued_request, either, request_of, asked};
ghost use Rattle.sg_words.specs.Requests.Request.{Do};
ghost use Rattle.sg_words.specs.Verbs.{of_alone, of_named, of_numbered, verb_on, verb_with};

use crate::arguments::{number_if, numbers, one_value};
use crate::kept::Words;
use crate::split::{is_next, next_word, without_return};
use crate::transaction::transaction;
use crate::value;
use crate::verb::{Alone, Named, Numbered, Plain, Valued, making_verb, plain_verb, valued_verb};
use sg_base::Name;
use sg_model::Op;

/// The longest line in bytes, without its LF.
pub(crate) const MOST_LINE_BYTES: usize = 32768;

/// What is asked of a transaction.
#[derive(Clone, Copy)]
pub enum Request<'a> {
    /// To begin.
    Begin,
    /// To commit.
    Commit,
    /// To abort.
    Abort,
    /// To do an operation.
    Do(Op<'a>),
    /// The keys of a table.
    Keys(Name),
    /// The names of all objects.
    List,
}

/// What a line of a script says.
#[derive(Clone, Copy)]
pub enum Asked<'a> {
    /// Nothing: it has no words, or is a remark.
    Blank,
    /// Nothing that is a line of a script.
    Wrong,
    /// A request of the transaction with this name, and the words that a log keeps of the line.
    Of { name: Name, words: Words<'a> },
}

// What a verb without words behind it asks for.
fn alone(verb: Alone, rest: &[u8]) -> Option<Request<'_>>
    ensures { shown_option result ≡ of_alone verb (words_of rest.now) }
{
    if next_word(rest).is_some() {
        return None;
    }
    Some(match verb {
        Alone::Begin => Request::Begin,
        Alone::Commit => Request::Commit,
        Alone::Abort => Request::Abort,
        Alone::List => Request::List,
    })
}

// The request that a verb on the object with this name makes of its numbers.
fn request_on(verb: Named, name: Name, first: u64, second: u64) -> Request<'static>
    ensures { shown result ≡ Do (On name (verb_on verb first second)) }
{
    Request::Do(match verb {
        Named::MakeArray => Op::MakeArray { name, size: first },
        Named::MakeTable => Op::MakeTable { name },
        Named::MakeBlob => Op::MakeBlob { name },
        Named::Discard => Op::Discard { name },
        Named::Pop => Op::Pop { name },
        Named::Get => Op::Get { name, index: first },
        Named::Len => Op::Len { name },
        Named::Read => Op::Read {
            name,
            at: first,
            count: second,
        },
        Named::Size => Op::Size {
            name,
            length: first,
        },
        Named::Keys => return Request::Keys(name),
    })
}

// What a verb on the object with a name asks for.
#[inline(never)]
#[tactic(auto, using(crate::proofs::Counts::named_words, crate::proofs::Counts::named_none))]
fn on_name(verb: Named, rest: &[u8]) -> Option<Request<'_>>
    ensures { shown_option result ≡ of_named verb (words_of rest.now) }
{
    if let Some((name, rest)) = next_word(rest)
        && let Some((first, rest, _)) = number_if(verb.has_number(), rest)
        && let Some((second, rest, _)) = number_if(verb.has_two(), rest)
        && next_word(rest).is_none()
        && let Some(name) = Name::new(name)
    {
        return Some(request_on(verb, name, first, second));
    }
    None
}

// What is made.
fn make(rest: &[u8]) -> Option<Request<'_>>
    ensures { shown_option result ≡ make_of (words_of rest.now) }
{
    if let Some((kind, rest)) = next_word(rest)
        && let Some(verb) = making_verb(kind)
    {
        return on_name(verb, rest);
    }
    None
}

// What a verb without a value asks for.
#[inline(never)]
fn plain_request<'a>(word: &[u8], rest: &'a [u8]) -> Option<Request<'a>>
    ensures { shown_option result ≡ plain_request word.now (words_of rest.now) }
{
    match plain_verb(word) {
        Some(Plain::Alone(verb)) => alone(verb, rest),
        Some(Plain::Make) => make(rest),
        Some(Plain::On(verb)) => on_name(verb, rest),
        None => None,
    }
}

// The operation that a verb with a value makes of its numbers.
fn op_with<'a>(verb: Numbered, name: Name, numbers: (u64, u64, u64), value: &'a [u8]) -> Op<'a>
    ensures { said_op result ≡ On name (verb_with verb numbers.0 numbers.1 numbers.2 value.now) }
{
    let (first, second, third) = numbers;
    match verb {
        Numbered::Push => Op::Push { name, value },
        Numbered::Set => Op::Set {
            name,
            index: first,
            value,
        },
        Numbered::Apply => Op::Apply {
            name,
            index: first,
            code: second,
            arg: value,
        },
        Numbered::Del => Op::Del { name, key: value },
        Numbered::Find => Op::Find { name, key: value },
        Numbered::Write => Op::Write {
            name,
            at: first,
            bytes: value,
        },
        Numbered::Paint => Op::Paint {
            name,
            at: first,
            count: second,
            code: third,
            arg: value,
        },
    }
}

// Reads what a verb with a value at its end asks for, and gives whether the words are known to stand joined.
#[inline(always)]
#[tactic(auto, using(crate::proofs::Counts::numbered_words, crate::proofs::Counts::numbered_none))]
fn with_value<'a>(
    verb: Numbered,
    rest: &'a [u8],
    scratch: &'a mut [u8],
    request: &mut Request<'a>,
) -> Option<bool>
    requires { length rest.now ≤ length scratch.old }
    ensures request { MatchOption result (of_numbered verb (words_of rest.now) ≡ None) (λ j. of_numbered verb (words_of rest.now) ≡ Some (shown request.new)) }
    ensures joined { IfSome result (λ j. j ≡ true → IsJoined rest.now) }
{
    if let Some((word, behind)) = next_word(rest)
        && let Some((first, second, third, last, are_joined)) = numbers(verb, behind)
        && let Some((value, is_last)) = one_value(last, scratch)
        && let Some(name) = Name::new(word)
    {
        *request = Request::Do(op_with(verb, name, (first, second, third), value));
        return Some(is_next(rest, word, behind) & are_joined & is_last);
    }
    None
}

// Reads what is put.
#[inline(never)]
#[tactic(auto, using(crate::proofs::Counts::put_words))]
fn put<'a>(rest: &'a [u8], scratch: &'a mut [u8], request: &mut Request<'a>) -> Option<bool>
    requires { length rest.now ≤ length scratch.old }
    ensures request { MatchOption result (put_of (words_of rest.now) ≡ None) (λ j. put_of (words_of rest.now) ≡ Some (shown request.new)) }
    ensures joined { IfSome result (λ j. j ≡ true → IsJoined rest.now) }
{
    let Some((word, words)) = next_word(rest) else {
        return None;
    };
    let Some((key_word, last)) = next_word(words) else {
        return None;
    };
    let (first, second) = scratch.split_at_mut(key_word.len());
    if let Some(key) = value::value(key_word, first)
        && let Some((value, is_last)) = one_value(last, second)
        && let Some(name) = Name::new(word)
    {
        *request = Request::Do(Op::Put { name, key, value });
        return Some(is_next(rest, word, words) & is_next(words, key_word, last) & is_last);
    }
    None
}

// Reads what a verb without a value asks for.
#[inline(never)]
fn without_value<'a>(word: &[u8], rest: &'a [u8], request: &mut Request<'a>) -> Option<bool>
    ensures request { MatchOption result (plain_request word.now (words_of rest.now) ≡ None) (λ j. plain_request word.now (words_of rest.now) ≡ Some (shown request.new)) }
    ensures joined { IfSome result (λ j. j ≡ true → IsJoined rest.now) }
{
    match plain_request(word, rest) {
        Some(read) => {
            *request = read;
            Some(false)
        }
        None => None,
    }
}

// Reads what a verb and the words after it ask for, and gives whether these are known to stand joined.
#[inline(always)]
#[tactic(auto, using(crate::proofs::Verbs::by_value, crate::proofs::Verbs::by_none))]
fn read_request<'a>(
    word: &[u8],
    rest: &'a [u8],
    scratch: &'a mut [u8],
    request: &mut Request<'a>,
) -> Option<bool>
    requires { length rest.now ≤ length scratch.old }
    ensures request { MatchOption result (either (plain_request word.now (words_of rest.now)) (valued_request word.now (words_of rest.now)) ≡ None)
        (λ j. either (plain_request word.now (words_of rest.now)) (valued_request word.now (words_of rest.now)) ≡ Some (shown request.new)) }
    ensures joined { IfSome result (λ j. j ≡ true → IsJoined rest.now) }
{
    match valued_verb(word) {
        Some(Valued::With(verb)) => with_value(verb, rest, scratch, request),
        Some(Valued::Put) => put(rest, scratch, request),
        None => without_value(word, rest, request),
    }
}

/// What a line without its LF asks for, and the words that a log keeps of it. `request` takes what is asked
/// of a transaction, and `scratch` the bytes of values in hexadecimal digits.
#[inline(always)]
#[tactic(auto, unfolding(crate::specs::Requests::asked))]
pub fn parse_request<'a>(
    text: &'a [u8],
    scratch: &'a mut [u8],
    request: &mut Request<'a>,
) -> Asked<'a>
    requires { 32768 ≤ length scratch.old }
    ensures asked { shown_asked result request.new ≡ asked text.now }
    ensures words { HasWords text.now result }
{
    if text.len() > MOST_LINE_BYTES {
        return Asked::Wrong;
    }
    if let [b'#', ..] = text {
        return Asked::Blank;
    }
    let Some((name, words)) = next_word(without_return(text)) else {
        return Asked::Blank;
    };
    if let Some((word, rest)) = next_word(words)
        && let Some(are_joined) = read_request(word, rest, scratch, request)
        && let Some(name) = transaction(name)
    {
        let are_joined = is_next(words, word, rest) & are_joined;
        return Asked::Of {
            name,
            words: Words {
                text: words,
                are_joined,
            },
        };
    }
    Asked::Wrong
}

/// What the words kept of a line ask for, with every verb: a verb and its arguments. `scratch` takes
/// the bytes of values in hexadecimal digits.
pub fn parse_words<'a>(words: &'a [u8], scratch: &'a mut [u8]) -> Option<Request<'a>>
    requires { length words.now ≤ length scratch.old }
    ensures { shown_option result ≡ request_of (words_of words.now) }
{
    let Some((word, rest)) = next_word(words) else {
        return None;
    };
    let mut request = Request::List;
    match read_request(word, rest, scratch, &mut request) {
        Some(_) => Some(request),
        None => None,
    }
}
