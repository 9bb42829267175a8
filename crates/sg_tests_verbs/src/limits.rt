// Each verb on the objects of a space at the limits that its definition has, with each reason for which it is refused.
use crate::rows::{Came, DONE, HIGHEST, NONE, ONE, Trial};
use Says::*;
use sg_base::Name;
use sg_model::{Op, Reason, Reply};
use sg_objects::{ObjFault, needs_of};
use std::alloc::Global;
use std::test::Fail;

// The most bytes of a blob.
const MOST: u64 = 16_384_000;

// What is to be done to an object, without its name.
#[derive(Clone, Copy)]
enum Says {
    MakeArray(u64),
    MakeTable,
    MakeBlob,
    Discard,
    Push(&'static [u8]),
    Pop,
    Set(u64, &'static [u8]),
    Get(u64),
    Len,
    Apply(u64, u64, &'static [u8]),
    Put(&'static [u8], &'static [u8]),
    Del(&'static [u8]),
    Find(&'static [u8]),
    Write(u64, &'static [u8]),
    Read(u64, u64),
    Size(u64),
    Paint(u64, u64, u64, &'static [u8]),
}

// One operation, what it comes to, and the first bytes of the buffer after it.
type Row = (Says, Came, [u8; 8]);

fn named(name: Name, says: Says) -> Op<'static> {
    match says {
        MakeArray(size) => Op::MakeArray { name, size },
        MakeTable => Op::MakeTable { name },
        MakeBlob => Op::MakeBlob { name },
        Discard => Op::Discard { name },
        Push(value) => Op::Push { name, value },
        Pop => Op::Pop { name },
        Set(index, value) => Op::Set { name, index, value },
        Get(index) => Op::Get { name, index },
        Len => Op::Len { name },
        Apply(index, code, arg) => Op::Apply {
            name,
            index,
            code,
            arg,
        },
        Put(key, value) => Op::Put { name, key, value },
        Del(key) => Op::Del { name, key },
        Find(key) => Op::Find { name, key },
        Write(at, bytes) => Op::Write { name, at, bytes },
        Read(at, count) => Op::Read { name, at, count },
        Size(length) => Op::Size { name, length },
        Paint(at, count, code, arg) => Op::Paint {
            name,
            at,
            count,
            code,
            arg,
        },
    }
}

// What an operation comes to, with the first bytes of the buffer.
fn outcome(trial: &mut Trial, op: &Op<'_>) -> (Came, [u8; 8]) {
    let mut into = [0u8; 8192];
    let came = trial.does(0, op, &mut into);
    let mut first = [0u8; 8];
    first.copy_from_slice(&into[..8]);
    (came, first)
}

// Why an operation would be refused, as what it needs is asked.
fn refusal(trial: &mut Trial, op: &Op<'_>) -> Option<Reason> {
    match needs_of(&mut trial.space, &trial.ops, op) {
        Err(ObjFault::Model(reason)) => Some(reason),
        _ => None,
    }
}

// Objects of a space, one of which has this name. Each table below stands in a function of its own, which promises nothing, since
// a function that names a table writes all of it, and its proof carries what it has written.
#[derive(Drop)]
struct One {
    name: Name,
    trial: Trial,
}

impl One {
    fn new(alloc: Global, name: &[u8]) -> Result<One, Fail> {
        let name = Name::new(name).ok_or("a name")?;
        let trial = Trial::new(alloc)?;
        Ok(One { name, trial })
    }

    fn outcome(&mut self, says: Says) -> (Came, [u8; 8]) {
        outcome(&mut self.trial, &named(self.name, says))
    }

    // The first row that came to something else, the rows done one after another.
    fn first_wrong(&mut self, rows: &[Row]) -> Option<usize> {
        for (i, (says, want, bytes)) in rows.iter().enumerate() {
            let (came, first) = self.outcome(*says);
            if came != *want || first != *bytes {
                return Some(i);
            }
        }
        None
    }

    fn refusal(&mut self, says: Says) -> Option<Reason> {
        refusal(&mut self.trial, &named(self.name, says))
    }
}

// An array from before it is made until after it is gone.
const ARRAY_MADE: [Row; 8] = [
    (Push(HIGHEST), Came::Reason(Reason::NoObject), NONE),
    (MakeArray(0), Came::Reason(Reason::OutOfRange), NONE),
    (MakeArray(257), Came::Reason(Reason::OutOfRange), NONE),
    (MakeArray(8), DONE, NONE),
    (MakeArray(0), Came::Reason(Reason::Exists), NONE),
    (MakeTable, Came::Reason(Reason::Exists), NONE),
    (Pop, Came::Reason(Reason::OutOfRange), NONE),
    (Push(b"short"), Came::Reason(Reason::Declined), NONE),
];

fn array_made(one: &mut One) -> Option<usize> {
    one.first_wrong(&ARRAY_MADE)
}

// Record operations, of which some are refused.
const ARRAY_CHANGED: [Row; 8] = [
    (Push(HIGHEST), Came::Reply(Reply::Number(0)), NONE),
    (Apply(0, 1, ONE), DONE, NONE),
    (Get(0), Came::Reply(Reply::Bytes(8)), NONE),
    (Apply(0, 2, HIGHEST), DONE, NONE),
    (Get(0), Came::Reply(Reply::Bytes(8)), [255; 8]),
    (Apply(0, 2, b"1"), Came::Reason(Reason::Declined), NONE),
    (Apply(0, 9, b"1"), Came::Reason(Reason::NoOperation), NONE),
    (
        Apply(0, 65537, ONE),
        Came::Reason(Reason::NoOperation),
        NONE,
    ),
];

fn array_changed(one: &mut One) -> Option<usize> {
    one.first_wrong(&ARRAY_CHANGED)
}

// Places that are there, and some that are not.
const ARRAY_SET: [Row; 6] = [
    (Apply(1, 9, b"1"), Came::Reason(Reason::OutOfRange), NONE),
    (Apply(1, 9, &[0; 257]), Came::Reason(Reason::TooLong), NONE),
    (Set(1, b"x"), Came::Reason(Reason::OutOfRange), NONE),
    (Set(0, b"x"), Came::Reason(Reason::Declined), NONE),
    (Set(0, b"abcdefgh"), DONE, NONE),
    (Apply(0, 3, &[1]), DONE, NONE),
];

fn array_set(one: &mut One) -> Option<usize> {
    one.first_wrong(&ARRAY_SET)
}

// What it answers until it is gone.
const ARRAY_GONE: [Row; 7] = [
    (Len, Came::Reply(Reply::Number(1)), NONE),
    (Find(b"k"), Came::Reason(Reason::WrongKind), NONE),
    (Read(0, 1), Came::Reason(Reason::WrongKind), NONE),
    (Pop, Came::Reply(Reply::Bytes(8)), *b"bcdefgha"),
    (Get(0), Came::Reason(Reason::OutOfRange), NONE),
    (Discard, DONE, NONE),
    (Discard, Came::Reason(Reason::NoObject), NONE),
];

fn array_gone(one: &mut One) -> Option<usize> {
    one.first_wrong(&ARRAY_GONE)
}

// The first row of each table, the tables one after another, that came to something else.
fn wrong_array(alloc: Global) -> Result<[Option<usize>; 4], Fail> {
    let mut one = One::new(alloc, b"n")?;
    let wrong = [
        array_made(&mut one),
        array_changed(&mut one),
        array_set(&mut one),
        array_gone(&mut one),
    ];
    drop(one);
    Ok(wrong)
}

#[test]
fn an_array_keeps_its_items(rt: HostRuntime) -> Result<(), Fail> {
    assert_eq!(rt; wrong_array(rt.alloc())?, [None; 4]);
    Ok(())
}

// A table, with keys and values at their limits.
const TABLE_FILLED: [Row; 8] = [
    (MakeTable, DONE, NONE),
    (Put(b"", b"v"), Came::Reason(Reason::OutOfRange), NONE),
    (Put(&[7; 129], b"v"), Came::Reason(Reason::TooLong), NONE),
    (Put(b"k", &[7; 1025]), Came::Reason(Reason::TooLong), NONE),
    (Put(b"k", &[7; 1024]), Came::Reply(Reply::New), NONE),
    (Find(b"k"), Came::Reply(Reply::Bytes(1024)), [7; 8]),
    (Put(b"k", b""), Came::Reply(Reply::Replaced), NONE),
    (Find(b"k"), Came::Reply(Reply::Bytes(0)), NONE),
];

fn table_filled(one: &mut One) -> Option<usize> {
    one.first_wrong(&TABLE_FILLED)
}

// Keys of other lengths, and keys that are taken away.
const TABLE_EMPTIED: [Row; 10] = [
    (Put(&[7; 128], b"abcdefgh"), Came::Reply(Reply::New), NONE),
    (Find(&[7; 128]), Came::Reply(Reply::Bytes(8)), *b"abcdefgh"),
    (Find(&[7; 127]), Came::Reply(Reply::Absent), NONE),
    (Del(&[7; 129]), Came::Reason(Reason::TooLong), NONE),
    (Del(b""), Came::Reason(Reason::OutOfRange), NONE),
    (Del(b"l"), Came::Reply(Reply::Absent), NONE),
    (Del(b"k"), DONE, NONE),
    (Find(b"k"), Came::Reply(Reply::Absent), NONE),
    (Len, Came::Reason(Reason::WrongKind), NONE),
    (Push(b"v"), Came::Reason(Reason::WrongKind), NONE),
];

fn table_emptied(one: &mut One) -> Option<usize> {
    one.first_wrong(&TABLE_EMPTIED)
}

// The first row of each table, the tables one after another, that came to something else.
fn wrong_table(alloc: Global) -> Result<[Option<usize>; 2], Fail> {
    let mut one = One::new(alloc, b"t")?;
    let wrong = [table_filled(&mut one), table_emptied(&mut one)];
    drop(one);
    Ok(wrong)
}

#[test]
fn a_table_keeps_its_values(rt: HostRuntime) -> Result<(), Fail> {
    assert_eq!(rt; wrong_table(rt.alloc())?, [None; 2]);
    Ok(())
}

// A blob, with places and lengths at their limits.
const BLOB_WRITTEN: [Row; 9] = [
    (MakeBlob, DONE, NONE),
    (Write(1, b"x"), Came::Reason(Reason::OutOfRange), NONE),
    (Write(0, b"hello"), DONE, NONE),
    (Size(2), DONE, NONE),
    (Size(5), DONE, NONE),
    (Read(0, 5), Came::Reply(Reply::Bytes(5)), *b"he\0\0\0\0\0\0"),
    (Size(4), DONE, NONE),
    (Paint(0, 4, 2, b"\x0a"), DONE, NONE),
    (Paint(1, 2, 1, b"Z"), DONE, NONE),
];

fn blob_written(one: &mut One) -> Option<usize> {
    one.first_wrong(&BLOB_WRITTEN)
}

// Bytes at the end and past it.
const BLOB_READ: [Row; 9] = [
    (
        Read(0, 4),
        Came::Reply(Reply::Bytes(4)),
        *b"\x0aZZ\x0d\0\0\0\0",
    ),
    (Write(3, b"AB"), DONE, NONE),
    (Read(2, 3), Came::Reply(Reply::Bytes(3)), *b"ZAB\0\0\0\0\0"),
    (Read(0, 6), Came::Reason(Reason::OutOfRange), NONE),
    (Read(0, 8193), Came::Reason(Reason::TooLong), NONE),
    (Read(u64::MAX, 8192), Came::Reason(Reason::OutOfRange), NONE),
    (Write(u64::MAX, b"x"), Came::Reason(Reason::TooLong), NONE),
    (Write(MOST, b""), Came::Reason(Reason::OutOfRange), NONE),
    (Write(MOST, b"x"), Came::Reason(Reason::TooLong), NONE),
];

fn blob_read(one: &mut One) -> Option<usize> {
    one.first_wrong(&BLOB_READ)
}

// What is too long or names no operation.
const BLOB_REFUSED: [Row; 9] = [
    (Write(0, &[0; 8193]), Came::Reason(Reason::TooLong), NONE),
    (Size(MOST + 1), Came::Reason(Reason::TooLong), NONE),
    (
        Paint(2, u64::MAX, 1, b""),
        Came::Reason(Reason::OutOfRange),
        NONE,
    ),
    (Paint(0, 5, 3, b""), Came::Reason(Reason::NoOperation), NONE),
    (Paint(0, 6, 3, b""), Came::Reason(Reason::OutOfRange), NONE),
    (
        Paint(0, 6, 3, &[0; 257]),
        Came::Reason(Reason::TooLong),
        NONE,
    ),
    (
        Paint(0, 5, 65537, b""),
        Came::Reason(Reason::NoOperation),
        NONE,
    ),
    (Len, Came::Reply(Reply::Number(5)), NONE),
    (Apply(0, 1, b""), Came::Reason(Reason::WrongKind), NONE),
];

fn blob_refused(one: &mut One) -> Option<usize> {
    one.first_wrong(&BLOB_REFUSED)
}

// The first row of each table, the tables one after another, that came to something else.
fn wrong_blob(alloc: Global) -> Result<[Option<usize>; 3], Fail> {
    let mut one = One::new(alloc, b"b")?;
    let wrong = [
        blob_written(&mut one),
        blob_read(&mut one),
        blob_refused(&mut one),
    ];
    drop(one);
    Ok(wrong)
}

#[test]
fn a_blob_keeps_its_bytes(rt: HostRuntime) -> Result<(), Fail> {
    assert_eq!(rt; wrong_blob(rt.alloc())?, [None; 3]);
    Ok(())
}

// Why the length would not be said, and why a blob would not be made, before one is, what making it comes to, and
// why its length would not be said.
type Known = (Option<Reason>, Option<Reason>, bool, Option<Reason>);

fn known_before(one: &mut One) -> Known {
    let length = one.refusal(Len);
    let blob = one.refusal(MakeBlob);
    let (made, _) = one.outcome(MakeBlob);
    (length, blob, made == DONE, one.refusal(Len))
}

fn known_of(alloc: Global) -> Result<Known, Fail> {
    let mut one = One::new(alloc, b"b")?;
    let known = known_before(&mut one);
    drop(one);
    Ok(known)
}

#[test]
fn a_refusal_is_known_before(rt: HostRuntime) -> Result<(), Fail> {
    assert_eq!(rt;
        known_of(rt.alloc())?,
        (Some(Reason::NoObject), None, true, None)
    );
    Ok(())
}
