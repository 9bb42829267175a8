use crate::answers::is_taken;
use sg_base::{MemSink, Sink};
use sg_model::{Reason, Reply};
use sg_words::{Answer, cut};
use std::alloc::{AllocError, Global};
use std::test::Fail;

// A reply, the bytes that it is written with, and its line.
const REPLIES: [(Reply, &[u8], &[u8]); 13] = [
    (Reply::Done, b"", b"ok\n"),
    (Reply::New, b"", b"ok new\n"),
    (Reply::Replaced, b"", b"ok replaced\n"),
    (Reply::Absent, b"", b"none\n"),
    (Reply::Number(0), b"", b"ok 0\n"),
    (
        Reply::Number(18446744073709551615),
        b"",
        b"ok 18446744073709551615\n",
    ),
    (Reply::Bytes(3), b"abcdef", b"ok abc\n"),
    (Reply::Bytes(0), b"abcdef", b"ok x:\n"),
    (Reply::Bytes(2), b"x:", b"ok x:783a\n"),
    (Reply::Bytes(1), b"x:", b"ok x\n"),
    (Reply::Bytes(2), b"!~", b"ok !~\n"),
    (Reply::Bytes(2), b"a ", b"ok x:6120\n"),
    (Reply::Bytes(2), b"\xab\x7f", b"ok x:ab7f\n"),
];

// Whether a sink takes more.
fn is_more_taken(sink: &mut impl Sink) -> bool {
    sink.write(b"more").is_ok()
}

// Whether an answer is written as this text in one call of a sink whose second one fails.
fn is_one_call(alloc: Global, answer: &Answer, bytes: &[u8], text: &[u8]) -> bool {
    let mut sink = MemSink::new(alloc, Some(2));
    is_taken(&mut sink, answer, bytes) && sink.text() == text && !is_more_taken(&mut sink)
}

// The same of a reply.
fn is_replied(alloc: Global, reply: Reply, bytes: &[u8], text: &[u8]) -> bool {
    is_one_call(alloc, &Answer::Said(reply), bytes, text)
}

// The first row that is written as something else.
fn first_replied(alloc: Global) -> Option<usize> {
    for (i, (reply, bytes, text)) in REPLIES.iter().enumerate() {
        if !is_replied(alloc, *reply, bytes, text) {
            return Some(i);
        }
    }
    None
}

#[test]
fn a_reply_is_one_line(rt: HostRuntime) {
    assert_eq!(rt; first_replied(rt.alloc()), None);
}

// The line of a value of so many bytes 0xa5.
fn long_line(alloc: Global, count: usize) -> Result<Vec<u8>, AllocError> {
    let mut text = Vec::from_slice(alloc, b"ok x:")?;
    for _ in 0..count {
        text.extend_from_slice(b"a5")?;
    }
    text.push(b'\n')?;
    Ok(text)
}

// Whether a value of so many bytes 0xa5 is one line.
fn is_one_line(alloc: Global, count: usize) -> Result<bool, AllocError> {
    let text = long_line(alloc, count)?;
    Ok(is_replied(alloc, Reply::Bytes(count), &[0xa5u8; 8192], &text))
}

// The first count of such bytes that are another line.
fn first_long_line(alloc: Global) -> Result<Option<usize>, AllocError> {
    for count in [256, 257, 8192] {
        if !is_one_line(alloc, count)? {
            return Ok(Some(count));
        }
    }
    Ok(None)
}

#[test]
fn a_long_value_is_one_line(rt: HostRuntime) -> Result<(), Fail> {
    assert_eq!(rt; first_long_line(rt.alloc())?, None);
    Ok(())
}

const REASONS: [(Reason, &[u8]); 8] = [
    (Reason::NoObject, b"error no-object\n"),
    (Reason::WrongKind, b"error wrong-kind\n"),
    (Reason::Exists, b"error exists\n"),
    (Reason::OutOfRange, b"error out-of-range\n"),
    (Reason::NoOperation, b"error no-operation\n"),
    (Reason::Declined, b"error declined\n"),
    (Reason::TooLong, b"error too-long\n"),
    (Reason::TooMany, b"error too-many\n"),
];

// The same of a reason.
fn is_told(alloc: Global, reason: Reason, text: &[u8]) -> bool {
    is_one_call(alloc, &Answer::Refused(reason), b"", text)
}

// The first reason that has another line.
fn first_reason(alloc: Global) -> Option<usize> {
    for (i, (reason, text)) in REASONS.iter().enumerate() {
        if !is_told(alloc, *reason, text) {
            return Some(i);
        }
    }
    None
}

// A text, and what stands before its first LF and behind it.
const CUTS: [(&[u8], &[u8], Option<&[u8]>); 2] = [
    (b"ab\n\nc", b"ab", Some(b"\nc")),
    (b"", b"", None),
];

fn is_cut(text: &[u8], line: &[u8], rest: Option<&[u8]>) -> bool {
    let (front, behind) = cut(text, b'\n');
    front == line && behind == rest
}

// The first text that is cut otherwise.
fn first_cut() -> Option<usize> {
    for (i, (text, line, rest)) in CUTS.iter().enumerate() {
        if !is_cut(text, line, *rest) {
            return Some(i);
        }
    }
    None
}

#[test]
fn each_reason_has_its_line_and_a_text_is_cut_at_the_first_byte(rt: HostRuntime) {
    assert_eq!(rt; first_reason(rt.alloc()), None);
    assert_eq!(rt; first_cut(), None);
}
