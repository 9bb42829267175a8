ghost use Rattle.std.specs.Prelude.{◌≡◌, ◌+◌, ◌<◌, length};

use sg_base::{
    MemSink, MemSource, Name, ReadSource, Sink, Source, Steps, WriteSink, read_u16, read_u32,
    read_u64, write_u16, write_u32, write_u64,
};
use std::alloc::{AllocError, Global};
use std::io;
use std::io::{ErrorKind, Read, Write};
use std::marker::Brand;
use std::sync::ledger::{Blank, Ledger};
use std::test::Fail;

// A number of 8 bytes.
fn one_number() -> [u8; 9] {
    let mut bytes = [7u8; 9];
    write_u64(&mut bytes, 0x0102_0304_0506_0708);
    bytes
}

// The same with two smaller ones written over it.
fn three_numbers() -> [u8; 9] {
    let mut bytes = one_number();
    write_u32(&mut bytes, 140);
    write_u16(&mut bytes[4..], 4072);
    bytes
}

// What is read of the three.
fn numbers_read() -> (u16, u32, u64) {
    let first = one_number();
    let second = three_numbers();
    (read_u16(&second[4..]), read_u32(&second), read_u64(&first))
}

fn are_written() -> bool {
    let first = one_number();
    let second = three_numbers();
    first == [8, 7, 6, 5, 4, 3, 2, 1, 7] && second == [0x8c, 0, 0, 0, 0xe8, 0x0f, 2, 1, 7]
}

fn are_read() -> bool {
    numbers_read() == (4072, 140, 0x0102_0304_0506_0708)
}

#[test]
fn fields_are_little_endian(rt: HostRuntime) {
    assert!(rt; are_written() && are_read());
}

const TEXTS: [(&[u8], bool); 8] = [
    (&[b'a'; 32], true),
    (&[b'a'; 33], false),
    (b"", false),
    (b"a_9", true),
    (b"9a", false),
    (b"_a", false),
    (b"aB", false),
    (b"a-b", false),
];

fn is_name(text: &[u8]) -> bool {
    Name::new(text).is_some()
}

// The place of the first text that is told otherwise.
fn told_otherwise() -> Option<usize> {
    for (at, (text, wanted)) in TEXTS.iter().enumerate() {
        if is_name(text) != *wanted {
            return Some(at);
        }
    }
    None
}

#[test]
fn a_name_has_1_to_32_bytes(rt: HostRuntime) {
    assert!(rt; told_otherwise().is_none());
}

// Whether a read of a source is answered so, and gives these bytes, with zeros behind them.
fn reads<S: Source>(source: &mut S, answer: Option<usize>, bytes: &[u8; 8]) -> bool {
    let mut into = [0; 8];
    source.read(&mut into).ok() == answer && into == *bytes
}

// The place of the first of some reads that is answered otherwise, or gives other bytes.
fn read_otherwise<S: Source>(source: &mut S, rows: &[(Option<usize>, [u8; 8])]) -> Option<usize> {
    for (at, (answer, bytes)) in rows.iter().enumerate() {
        if !reads(source, *answer, bytes) {
            return Some(at);
        }
    }
    None
}

// The same of a source in memory with these bytes, pieces and calls.
fn memory_reads(
    alloc: Global,
    text: &[u8],
    piece: usize,
    calls: Option<u64>,
    rows: &[(Option<usize>, [u8; 8])],
) -> Result<Option<usize>, AllocError>
    requires { 0 < piece }
{
    let mut source = MemSource::new(Vec::from_slice(alloc, text)?, piece, calls);
    Ok(read_otherwise(&mut source, rows))
}

const PIECES: [(Option<usize>, [u8; 8]); 4] = [
    (Some(3), *b"abc\0\0\0\0\0"),
    (Some(2), *b"de\0\0\0\0\0\0"),
    (None, [0; 8]),
    (None, [0; 8]),
];

#[test]
fn a_source_gives_pieces_and_fails_from_a_call_on(rt: HostRuntime) -> Result<(), Fail> {
    assert!(rt; memory_reads(rt.alloc(), b"abcde", 3, Some(3), &PIECES)?.is_none());
    Ok(())
}

const WHOLE: [(Option<usize>, [u8; 8]); 2] = [(Some(2), *b"ab\0\0\0\0\0\0"), (Some(0), [0; 8])];

#[test]
fn a_source_ends_with_0(rt: HostRuntime) -> Result<(), Fail> {
    assert!(rt; memory_reads(rt.alloc(), b"ab", 9, None, &WHOLE)?.is_none());
    Ok(())
}

fn takes<S: Sink>(sink: &mut S, text: &[u8]) -> bool {
    sink.write(text).is_ok()
}

// Which of three writes a sink takes that fails from the third call on, and whether the first two are what it has then.
fn taken(alloc: Global) -> ([bool; 3], bool) {
    let mut sink = MemSink::new(alloc, Some(3));
    let first = takes(&mut sink, b"ok\n");
    let second = takes(&mut sink, b"none\n");
    let third = takes(&mut sink, b"ok\n");
    let has_two = *sink.text() == *b"ok\nnone\n".as_slice();
    ([first, second, third], has_two)
}

#[test]
fn a_sink_takes_and_fails_from_a_call_on(rt: HostRuntime) {
    assert!(rt; taken(rt.alloc()) == ([true, true, false], true));
}

// A terminal of one byte a call, each second call of which a signal interrupts.
#[derive(Drop)]
struct Terminal {
    bytes: Vec<u8>,
    at: usize,
    is_interrupted: bool,
}

impl Terminal {
    fn new(bytes: Vec<u8>) -> Self {
        Terminal {
            bytes,
            at: 0,
            is_interrupted: false,
        }
    }

    // Whether this call is interrupted.
    fn interrupts(&mut self) -> bool {
        self.is_interrupted = !self.is_interrupted;
        self.is_interrupted
    }
}

impl Read for Terminal {
    fn read(&mut self, into: &mut [u8]) -> io::Result<usize> {
        if self.interrupts() {
            return Err(ErrorKind::Interrupted.into());
        }
        let Some((&byte, place)) = self.bytes.get(self.at).zip(into.first_mut()) else {
            return Ok(0);
        };
        *place = byte;
        self.at = self.at.saturating_add(1);
        Ok(1)
    }
}

impl Write for Terminal {
    fn write(&mut self, bytes: &[u8]) -> io::Result<usize> {
        if self.interrupts() {
            return Err(ErrorKind::Interrupted.into());
        }
        let Some(&byte) = bytes.first() else {
            return Ok(0);
        };
        self.bytes.push(byte)?;
        Ok(1)
    }

    fn flush(&mut self) -> io::Result<()> {
        Ok(())
    }
}

const BYTES: [(Option<usize>, [u8; 8]); 3] = [
    (Some(1), *b"a\0\0\0\0\0\0\0"),
    (Some(1), *b"b\0\0\0\0\0\0\0"),
    (Some(0), [0; 8]),
];

// The place of the first of these reads through a terminal that is answered otherwise, or gives other bytes.
fn terminal_reads(alloc: Global) -> Result<Option<usize>, AllocError> {
    let bytes = Vec::from_slice(alloc, b"ab")?;
    let mut source = ReadSource::new(Terminal::new(bytes));
    Ok(read_otherwise(&mut source, &BYTES))
}

#[test]
fn a_terminal_gives_a_byte_a_read(rt: HostRuntime) -> Result<(), Fail> {
    assert!(rt; terminal_reads(rt.alloc())?.is_none());
    Ok(())
}

// Whether a write through a terminal is taken, and is what it has then.
fn terminal_takes(alloc: Global) -> (bool, bool) {
    let mut terminal = Terminal::new(Vec::new(alloc));
    let is_taken = takes(&mut WriteSink::new(&mut terminal), b"ok\n");
    (is_taken, *terminal.bytes.as_slice() == *b"ok\n".as_slice())
}

#[test]
fn a_terminal_takes_a_byte_a_write(rt: HostRuntime) {
    assert!(rt; terminal_takes(rt.alloc()) == (true, true));
}

// One step for each byte.
fn walk<L: Ledger>(bytes: &[u8], steps: &mut Steps<L>)
    ensures { steps.new ≡ steps.old + length bytes.now }
{
    for _ in 0..bytes.len() {
        steps.tick();
    }
}

// The same on a ledger that the caller hands in.
fn walk_from<L: Ledger>(bytes: &[u8], blank: Blank) -> usize
    requires name { blank.name ≡ L.name }
    requires parts { blank.parts ≡ L.parts }
    requires some { 0 < L.parts }
    ensures { result ≡ length bytes.now }
{
    let mut steps = Steps::<L>::open(blank);
    walk(bytes, &mut steps);
    bytes.len()
}

fn walked() -> usize {
    walk_from::<Brand>(b"abc", Blank::new(1))
}

#[test]
fn steps_are_counted_without_bytes(rt: HostRuntime) {
    assert!(rt; walked() == 3);
    assert!(rt; size_of::<Steps<Brand>>() == 0);
}
