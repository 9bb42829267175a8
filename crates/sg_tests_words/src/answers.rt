use sg_base::{MemSink, Name, Sink};
use sg_model::{Key, Reason, Reply};
use sg_words::{Answer, write_answer};
use std::alloc::Global;
use std::test::Fail;

// Answers are written in the functions below, which promise nothing: a test sees plain values, and its proof carries none
// of the clauses of what writes them.

/// Whether a sink takes an answer, which is written with these bytes.
pub fn is_taken(sink: &mut impl Sink, answer: &Answer, bytes: &[u8]) -> bool {
    bytes.len() <= 8192 && write_answer(answer, bytes, sink).is_ok()
}

// What a sink has taken of an answer whose call of this number fails, and whether that went well.
fn taken(alloc: Global, answer: &Answer, bytes: &[u8], fail: Option<u64>) -> (bool, MemSink) {
    let mut sink = MemSink::new(alloc, fail);
    let went = is_taken(&mut sink, answer, bytes);
    (went, sink)
}

// Whether an answer is this text, in one call at most.
fn is_text(alloc: Global, answer: &Answer, text: &[u8]) -> bool {
    let (went, sink) = taken(alloc, answer, b"abc", Some(2));
    went && sink.text() == text
}

// How many of these answers there are.
const ANSWERS: usize = 19;

// An answer and its line, by number.
fn answer(alloc: Global, name: Name, number: usize) -> (Answer, &'static [u8]) {
    match number {
        0 => (Answer::Silent, b""),
        1 => (Answer::BadSyntax, b"error syntax\n"),
        2 => (Answer::Stopped, b"error stopped\n"),
        3 => (Answer::NoTransaction, b"error no-transaction\n"),
        4 => (Answer::IsLive, b"error live\n"),
        5 => (Answer::TooManyLive, b"error too-many-live\n"),
        6 => (Answer::Busy(name), b"busy abcdefghij_12345\n"),
        7 => (Answer::LocksFull, b"error locks-full\n"),
        8 => (Answer::Refused(Reason::TooMany), b"error too-many\n"),
        9 => (Answer::LogEnd, b"error log-end\n"),
        10 => (Answer::Memory, b"error memory\n"),
        11 => (Answer::Disk, b"error disk\n"),
        12 => (Answer::Said(Reply::New), b"ok new\n"),
        13 => (Answer::Said(Reply::Bytes(2)), b"ok ab\n"),
        14 => {
            let answer = Answer::NoSpace {
                free: 0,
                reserved: 10,
                need: u32::MAX,
            };
            (answer, b"error no-space 0 10 4294967295\n")
        }
        15 => (
            Answer::NoBands { free: 7, need: 500 },
            b"error no-bands 7 500\n",
        ),
        16 => (Answer::NoMark, b"error no-mark\n"),
        17 => (Answer::MarksFull, b"error marks-full\n"),
        _ => (Answer::Names(Vec::new(alloc)), b"ok 0\n"),
    }
}

fn is_answered(alloc: Global, name: Name, number: usize) -> bool {
    let (answer, text) = answer(alloc, name, number);
    is_text(alloc, &answer, text)
}

// The number of the first answer that is another line.
fn first_answered(alloc: Global, name: Name) -> Option<usize> {
    for number in 0..ANSWERS {
        if !is_answered(alloc, name, number) {
            return Some(number);
        }
    }
    None
}

fn name() -> Option<Name> {
    Name::new(b"abcdefghij_12345")
}

#[test]
fn each_answer_has_its_line(rt: HostRuntime) -> Result<(), Fail> {
    let name = name().ok_or("a name")?;
    assert_eq!(rt; first_answered(rt.alloc(), name), None);
    Ok(())
}

fn push_key(keys: &mut Vec<Key>, bytes: &[u8]) -> bool {
    match Key::new(bytes) {
        Some(key) => keys.push(key).is_ok(),
        None => false,
    }
}

// The keys of these bytes, where memory isn't refused.
fn keys_of(alloc: Global, words: &[&[u8]]) -> Option<Answer> {
    let mut keys = Vec::new(alloc);
    for word in words {
        if !push_key(&mut keys, word) {
            return None;
        }
    }
    Some(Answer::Keys(keys))
}

// Whether keys are counted, and printed as themselves where they can be.
fn are_printed(alloc: Global) -> bool {
    match keys_of(alloc, &[b"a", b"\xc3\xa9", b"x:y", b"x", b" ", b"~!"]) {
        Some(keys) => is_text(alloc, &keys, b"ok 6 a x:c3a9 x:783a79 x x:20 ~!\n"),
        None => false,
    }
}

#[test]
fn keys_are_counted_and_printed(rt: HostRuntime) {
    assert!(rt; are_printed(rt.alloc()));
}

// So many keys of 128 bytes that aren't printed as themselves.
fn many_keys(alloc: Global, count: u32) -> Option<Answer> {
    let mut keys = Vec::new(alloc);
    for _ in 0..count {
        if !push_key(&mut keys, &[0xa5; 128]) {
            return None;
        }
    }
    Some(Answer::Keys(keys))
}

// Whether one sink has taken all bytes, and another the front of them, above what one call takes.
fn is_cut(whole: &MemSink, cut: &MemSink) -> bool {
    whole.text().len() == 25907 && cut.text().len() > 8192 && whole.text().starts_with(cut.text())
}

// Whether an answer is written whole, and to a sink whose third call fails as far as that.
fn takes_several_calls(alloc: Global, answer: &Answer) -> bool {
    let (went, whole) = taken(alloc, answer, b"", None);
    let (went_on, cut) = taken(alloc, answer, b"", Some(3));
    went && !went_on && is_cut(&whole, &cut)
}

fn keys_take_several_calls(alloc: Global) -> bool {
    match many_keys(alloc, 100) {
        Some(keys) => takes_several_calls(alloc, &keys),
        None => false,
    }
}

#[test]
fn many_keys_take_several_calls(rt: HostRuntime) {
    assert!(rt; keys_take_several_calls(rt.alloc()));
}
