use sg_model::Op;
use sg_words::{Asked, Request, parse_request, parse_words};
use std::alloc::{AllocError, Global};
use std::test::Fail;

// What a line asks for, without its words: nothing, nothing that is a line of a script, or a verb.
#[derive(Clone, Copy, PartialEq, Eq)]
enum Verb {
    Blank,
    Wrong,
    Begin,
    Commit,
    Abort,
    Keys,
    List,
    MakeArray,
    MakeTable,
    MakeBlob,
    Discard,
    Push,
    Pop,
    Set,
    Get,
    Len,
    Apply,
    Put,
    Del,
    Find,
    Write,
    Read,
    Size,
    Paint,
}

// A verb with its numbers, and with the lengths of its keys and values, filled up with 0.
type What = (Verb, [u64; 4]);

const BLANK: What = (Verb::Blank, [0; 4]);

const WRONG: What = (Verb::Wrong, [0; 4]);

const BEGIN: What = (Verb::Begin, [0; 4]);

const COMMIT: What = (Verb::Commit, [0; 4]);

const ABORT: What = (Verb::Abort, [0; 4]);

const KEYS: What = (Verb::Keys, [0; 4]);

const LIST: What = (Verb::List, [0; 4]);

const MAKE_TABLE: What = (Verb::MakeTable, [0; 4]);

const MAKE_BLOB: What = (Verb::MakeBlob, [0; 4]);

const DISCARD: What = (Verb::Discard, [0; 4]);

const POP: What = (Verb::Pop, [0; 4]);

const LEN: What = (Verb::Len, [0; 4]);

// A line, and what it asks for.
type Row = (&'static [u8], What);

fn of_op(op: &Op<'_>) -> What {
    match *op {
        Op::MakeArray { name: _, size } => (Verb::MakeArray, [size, 0, 0, 0]),
        Op::MakeTable { name: _ } => MAKE_TABLE,
        Op::MakeBlob { name: _ } => MAKE_BLOB,
        Op::Discard { name: _ } => DISCARD,
        Op::Push { name: _, value } => (Verb::Push, [value.len() as u64, 0, 0, 0]),
        Op::Pop { name: _ } => POP,
        Op::Set {
            name: _,
            index,
            value,
        } => (Verb::Set, [index, value.len() as u64, 0, 0]),
        Op::Get { name: _, index } => (Verb::Get, [index, 0, 0, 0]),
        Op::Len { name: _ } => LEN,
        Op::Apply {
            name: _,
            index,
            code,
            arg,
        } => (Verb::Apply, [index, code, arg.len() as u64, 0]),
        Op::Put {
            name: _,
            key,
            value,
        } => (Verb::Put, [key.len() as u64, value.len() as u64, 0, 0]),
        Op::Del { name: _, key } => (Verb::Del, [key.len() as u64, 0, 0, 0]),
        Op::Find { name: _, key } => (Verb::Find, [key.len() as u64, 0, 0, 0]),
        Op::Write { name: _, at, bytes } => (Verb::Write, [at, bytes.len() as u64, 0, 0]),
        Op::Read { name: _, at, count } => (Verb::Read, [at, count, 0, 0]),
        Op::Size { name: _, length } => (Verb::Size, [length, 0, 0, 0]),
        Op::Paint {
            name: _,
            at,
            count,
            code,
            arg,
        } => (Verb::Paint, [at, count, code, arg.len() as u64]),
    }
}

fn of_request(request: &Request<'_>) -> What {
    match request {
        Request::Begin => BEGIN,
        Request::Commit => COMMIT,
        Request::Abort => ABORT,
        Request::Do(op) => of_op(op),
        Request::Keys(_) => KEYS,
        Request::List => LIST,
    }
}

// Whether a request pushes this value.
fn is_push_of(request: &Request<'_>, value: &[u8]) -> bool {
    match request {
        Request::Do(
            Op::Push {
                name: _,
                value: pushed,
            },
        ) => *pushed == value,
        _ => false,
    }
}

// What a line asks for, and whether it pushes this value.
fn asked_and_pushed(text: &[u8], value: &[u8]) -> (What, bool) {
    let mut scratch = [0u8; 32768];
    let mut request = Request::List;
    match parse_request(text, &mut scratch, &mut request) {
        Asked::Blank => (BLANK, false),
        Asked::Wrong => (WRONG, false),
        Asked::Of { name: _, words: _ } => (of_request(&request), is_push_of(&request, value)),
    }
}

// What a line asks for.
fn asked(text: &[u8]) -> What {
    let (what, _) = asked_and_pushed(text, b"");
    what
}

// Whether a line pushes this value.
fn is_pushed(text: &[u8], value: &[u8]) -> bool {
    let (_, is_pushed) = asked_and_pushed(text, value);
    is_pushed
}

// The first row that asks for something else.
fn first_asked(rows: &[Row]) -> Option<usize> {
    for (i, (text, want)) in rows.iter().enumerate() {
        if asked(text) != *want {
            return Some(i);
        }
    }
    None
}

// Lines without words and remarks; words are parted by spaces alone, and stand in one order.
const WORDS: [Row; 36] = [
    (b"", BLANK),
    (b"    ", BLANK),
    (b"\r", BLANK),
    (b"  \r", BLANK),
    (b"#", BLANK),
    (b"#t begin", BLANK),
    (b" #t begin", WRONG),
    (b"\t", WRONG),
    (b"\r\r", WRONG),
    (b"t begin", BEGIN),
    (b"   t   begin   ", BEGIN),
    (b"t begin\r", BEGIN),
    (b"t commit \r", COMMIT),
    (b"t begin\r\r", WRONG),
    (b"t\rbegin", WRONG),
    (b"t\tbegin", WRONG),
    (b"t begin\t", WRONG),
    (b"t Begin", WRONG),
    (b"t begin\0", WRONG),
    (b"t", WRONG),
    (b"begin t", WRONG),
    (b"t begin now", WRONG),
    (b"t commit now", WRONG),
    (b"t make array a", WRONG),
    (b"t make array a 4", (Verb::MakeArray, [4, 0, 0, 0])),
    (b"t make a array 4", WRONG),
    (b"t make array a 4 4", WRONG),
    (b"t push a", WRONG),
    (b"t push a b c", WRONG),
    (b"t set a b 0", WRONG),
    (b"t set a 0 b", (Verb::Set, [0, 1, 0, 0])),
    (b"t set a 0 b c", WRONG),
    (b"t get a", WRONG),
    (b"t get a 0 0", WRONG),
    (b"t get 0 a", WRONG),
    (b"flush", WRONG),
];

// A number has 1 to 20 digits and 64 bits, a value is its bytes or digits, and names have their lengths.
const PARTS: [Row; 34] = [
    (b"t get a 0", (Verb::Get, [0, 0, 0, 0])),
    (
        b"t get a 18446744073709551615",
        (Verb::Get, [18446744073709551615, 0, 0, 0]),
    ),
    (b"t get a 18446744073709551616", WRONG),
    (b"t get a 99999999999999999999", WRONG),
    (b"t get a 00000000000000000001", (Verb::Get, [1, 0, 0, 0])),
    (b"t get a 000000000000000000001", WRONG),
    (b"t get a -1", WRONG),
    (b"t get a +1", WRONG),
    (b"t get a 1a", WRONG),
    (b"t get a 0x1", WRONG),
    (b"t get a x:01", WRONG),
    (b"t make array a 0", (Verb::MakeArray, [0, 0, 0, 0])),
    (b"t make array a 257", (Verb::MakeArray, [257, 0, 0, 0])),
    (b"t push a x:4", WRONG),
    (b"t push a x:414", WRONG),
    (b"t push a x:4g", WRONG),
    (b"t push a x:41:41", WRONG),
    (b"t push a b\x7f", WRONG),
    (b"t push a b\x80", WRONG),
    (b"t push a b\x1f", WRONG),
    (b"t push a b\tc", WRONG),
    (
        b"t get abcdefghijklmnopqrstuvwxyz_01234 0",
        (Verb::Get, [0, 0, 0, 0]),
    ),
    (b"t get abcdefghijklmnopqrstuvwxyz_012345 0", WRONG),
    (b"abcdefghijkl_123 begin", BEGIN),
    (b"abcdefghijkl_1234 begin", WRONG),
    (b"1 begin", WRONG),
    (b"T begin", WRONG),
    (b"t get A 0", WRONG),
    (b"flush begin", WRONG),
    (b"checkpoint commit", WRONG),
    (b"truncate get a 0", WRONG),
    (b"flushed begin", BEGIN),
    (b"begin begin", BEGIN),
    (b"t get flush 0", (Verb::Get, [0, 0, 0, 0])),
];

// The first row of each of these tables that asks for something else.
fn first_of_words() -> Option<usize> {
    first_asked(&WORDS)
}

fn first_of_parts() -> Option<usize> {
    first_asked(&PARTS)
}

#[test]
fn a_line_says_what_its_words_say(rt: HostRuntime) {
    assert_eq!(rt; first_of_words(), None);
    assert_eq!(rt; first_of_parts(), None);
}

// Each verb takes its words. A line of marks or of the store as a whole has a reader of its own.
const VERBS: [Row; 42] = [
    (b"", BLANK),
    (b"# t list", BLANK),
    (b"t begin", BEGIN),
    (b"t  commit \r", COMMIT),
    (b"t abort", ABORT),
    (b"t abort now", WRONG),
    (b"t save", WRONG),
    (b"t back 1", WRONG),
    (b"flush", WRONG),
    (b"checkpoint", WRONG),
    (b"truncate", WRONG),
    (b"flush list", WRONG),
    (b"t list", LIST),
    (b"t list a", WRONG),
    (b"t keys a", KEYS),
    (b"t keys", WRONG),
    (b"t make array a 4", (Verb::MakeArray, [4, 0, 0, 0])),
    (b"t make table a", MAKE_TABLE),
    (b"t make blob a", MAKE_BLOB),
    (b"t make blob a 4", WRONG),
    (b"t make heap a", WRONG),
    (b"t make", WRONG),
    (b"t drop a", DISCARD),
    (b"t push a abc", (Verb::Push, [3, 0, 0, 0])),
    (b"t pop a", POP),
    (b"t pop A", WRONG),
    (b"t set a 1 x", (Verb::Set, [1, 1, 0, 0])),
    (b"t get a 1", (Verb::Get, [1, 0, 0, 0])),
    (b"t len a", LEN),
    (b"t apply a 1 2 x:0102", (Verb::Apply, [1, 2, 2, 0])),
    (b"t apply a 1 x:0102", WRONG),
    (b"t put a k v", (Verb::Put, [1, 1, 0, 0])),
    (b"t put a x:6b6b x:76", (Verb::Put, [2, 1, 0, 0])),
    (b"t put a k", WRONG),
    (b"t del a x:", (Verb::Del, [0, 0, 0, 0])),
    (b"t find a key", (Verb::Find, [3, 0, 0, 0])),
    (b"t write a 0 x:00", (Verb::Write, [0, 1, 0, 0])),
    (b"t read a 1 2", (Verb::Read, [1, 2, 0, 0])),
    (b"t size a 7", (Verb::Size, [7, 0, 0, 0])),
    (b"t paint a 1 2 3 Z", (Verb::Paint, [1, 2, 3, 1])),
    (b"t paint a 1 2 3", WRONG),
    (b"t paint a 1 2 3 Z Z", WRONG),
];

// Numbers and values of the other verbs at their limits.
const LIMITS: [Row; 15] = [
    (
        b"t read a 18446744073709551615 18446744073709551615",
        (
            Verb::Read,
            [18446744073709551615, 18446744073709551615, 0, 0],
        ),
    ),
    (b"t read a 18446744073709551616 1", WRONG),
    (b"t read a 1 18446744073709551616", WRONG),
    (b"t size a 00000000000000000007", (Verb::Size, [7, 0, 0, 0])),
    (b"t size a 000000000000000000007", WRONG),
    (b"t size a 99999999999999999999", WRONG),
    (b"t apply a 0 18446744073709551616 x", WRONG),
    (
        b"t paint a 0 1 18446744073709551615 x",
        (Verb::Paint, [0, 1, 18446744073709551615, 1]),
    ),
    (b"t size a -1", WRONG),
    (b"t put a x: x:", (Verb::Put, [0, 0, 0, 0])),
    (b"t put a x:0 v", WRONG),
    (b"t put a k x:0", WRONG),
    (b"t put a x:0g v", WRONG),
    (b"t put a k\xff v", WRONG),
    (b"t write a 0 x:Ff", (Verb::Write, [0, 1, 0, 0])),
];

// The first row of each of these tables that asks for something else.
fn first_of_verbs() -> Option<usize> {
    first_asked(&VERBS)
}

fn first_of_limits() -> Option<usize> {
    first_asked(&LIMITS)
}

#[test]
fn each_verb_takes_its_words(rt: HostRuntime) {
    assert_eq!(rt; first_of_verbs(), None);
    assert_eq!(rt; first_of_limits(), None);
}

// Lines that push, and the bytes of their values.
const VALUES: [(&[u8], &[u8]); 8] = [
    (b"t push a abc", b"abc"),
    (b"t push a !~", b"!~"),
    (b"t push a x", b"x"),
    (b"t push a X:41", b"X:41"),
    (b"t push a ax:41", b"ax:41"),
    (b"t push a x:", b""),
    (b"t push a x:00ff7f80", b"\0\xff\x7f\x80"),
    (b"t push a x:4a4B4C4d\r", b"JKLM"),
];

// The first row that pushes something else.
fn first_pushed() -> Option<usize> {
    for (i, (text, value)) in VALUES.iter().enumerate() {
        if !is_pushed(text, value) {
            return Some(i);
        }
    }
    None
}

// A line that begins with a text, has so many bytes then, filled up with one byte, and ends with another
// text; and what it asks for.
const LONG: [(&[u8], u8, usize, &[u8], What); 9] = [
    (b"", b' ', 32768, b"", BLANK),
    (b"", b' ', 32769, b"", WRONG),
    (
        b"t push a x:",
        b'4',
        32767,
        b"",
        (Verb::Push, [16378, 0, 0, 0]),
    ),
    (
        b"t push a x:",
        b'4',
        32767,
        b"\r",
        (Verb::Push, [16378, 0, 0, 0]),
    ),
    (b"t push a x:", b'4', 32767, b"\r\r", WRONG),
    (b"t find a ", b'k', 137, b"", (Verb::Find, [128, 0, 0, 0])),
    (b"t find a ", b'k', 138, b"", (Verb::Find, [129, 0, 0, 0])),
    (b"t put a k ", b'k', 1035, b"", (Verb::Put, [1, 1025, 0, 0])),
    (
        b"t apply a 0 1 ",
        b'k',
        271,
        b"",
        (Verb::Apply, [0, 1, 257, 0]),
    ),
];

fn filled(
    alloc: Global,
    front: &[u8],
    fill: u8,
    len: usize,
    back: &[u8],
) -> Result<Vec<u8>, AllocError> {
    let mut line = Vec::from_slice(alloc, front)?;
    line.resize(len, fill)?;
    line.extend_from_slice(back)?;
    Ok(line)
}

// The first row that asks for something else.
fn first_long(alloc: Global) -> Result<Option<usize>, AllocError> {
    for (i, (front, fill, len, back, want)) in LONG.iter().enumerate() {
        let line = filled(alloc, front, *fill, *len, back)?;
        if asked(&line) != *want {
            return Ok(Some(i));
        }
    }
    Ok(None)
}

#[test]
fn values_keys_and_lines_have_their_lengths(rt: HostRuntime) -> Result<(), Fail> {
    assert_eq!(rt; first_pushed(), None);
    assert_eq!(rt; first_long(rt.alloc())?, None);
    Ok(())
}

// Lines, the words that are kept of them, and what these ask for.
const KEPT: [(&[u8], &[u8], What); 11] = [
    (
        b"  t  set   a 7  x:4142 \r",
        b"set a 7 x:4142",
        (Verb::Set, [7, 2, 0, 0]),
    ),
    (b"t set a 7 v", b"set a 7 v", (Verb::Set, [7, 1, 0, 0])),
    (b"t push a abc\r", b"push a abc", (Verb::Push, [3, 0, 0, 0])),
    (b"t  push a abc", b"push a abc", (Verb::Push, [3, 0, 0, 0])),
    (b"t push  a abc", b"push a abc", (Verb::Push, [3, 0, 0, 0])),
    (b"t push a  abc", b"push a abc", (Verb::Push, [3, 0, 0, 0])),
    (b"t push a abc ", b"push a abc", (Verb::Push, [3, 0, 0, 0])),
    (b"t put a k  v", b"put a k v", (Verb::Put, [1, 1, 0, 0])),
    (b"t begin", b"begin", BEGIN),
    (b"t", b"", WRONG),
    (b"", b"", WRONG),
];

// What the words kept of a line ask for.
fn asked_again(words: &[u8]) -> What {
    let mut scratch = [0u8; 32768];
    if words.len() > 32768 {
        return WRONG;
    }
    match parse_words(words, &mut scratch) {
        Some(request) => of_request(&request),
        None => WRONG,
    }
}

fn is_kept(text: &[u8], words: &[u8]) -> bool {
    let mut scratch = [0u8; 32768];
    let mut into = [0u8; 64];
    if text.len() > 64 {
        return false;
    }
    let mut request = Request::List;
    match parse_request(text, &mut scratch, &mut request) {
        Asked::Of {
            name: _,
            words: spoken,
        } => spoken.joined(&mut into) == words,
        _ => words.is_empty(),
    }
}

// The first row that keeps or asks for something else.
fn first_kept() -> Option<usize> {
    for (i, (text, words, want)) in KEPT.iter().enumerate() {
        if !is_kept(text, words) || asked_again(words) != *want {
            return Some(i);
        }
    }
    None
}

#[test]
fn the_words_kept_of_a_line_ask_for_the_same(rt: HostRuntime) {
    assert_eq!(rt; first_kept(), None);
}
