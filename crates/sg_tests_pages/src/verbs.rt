// Verbs on the objects of a store, beside the same on objects in memory.
ghost use Rattle.std.specs.Prelude.{◌≡◌, ◌<◌};

use crate::stores::{Host, Stop, Trial, named};
use sg_base::{Name, Steps, TxnId};
use sg_model::{Op, Reason, Reply};
use sg_objects::ObjFault;
use sg_plain::Objects;
use std::alloc::Global;
use std::marker::Brand;
use std::sync::ledger::{Blank, Ledger};
use std::test::Fail;

// Of which kind the objects are that verbs are drawn for.
#[derive(Clone, Copy)]
enum Kind {
    Array,
    Table,
    Blob,
    Name,
}

// What the drawn verbs go to, and the bytes that they have.
#[derive(Clone, Copy)]
struct Draw {
    name: Name,
    key: [u8; 2],
    bytes: [u8; 1_000],
}

// A part of some bytes, from their front.
fn front(bytes: &[u8], count: usize) -> &[u8] {
    &bytes[..count.min(bytes.len())]
}

// More pushes than pops, so that the array grows.
fn item_verb(i: u32, draw: &Draw) -> Op<'_> {
    let name = draw.name;
    let value = front(&draw.bytes, 200);
    let index = u64::from(i % 29);
    match i % 8 {
        0..=3 => Op::Push { name, value },
        4 => Op::Set { name, index, value },
        5 => Op::Get { name, index },
        6 => Op::Apply {
            name,
            index,
            code: 3,
            arg: &draw.bytes[..1],
        },
        _ => Op::Pop { name },
    }
}

// Puts under 60 keys, so that the table is split, and takes some out again.
fn entry_verb(i: u32, draw: &Draw) -> Op<'_> {
    let name = draw.name;
    let key = &draw.key;
    match i % 5 {
        0..=2 => Op::Put {
            name,
            key,
            value: front(&draw.bytes, (i.wrapping_mul(37) % 700) as usize),
        },
        3 => Op::Find { name, key },
        _ => Op::Del { name, key },
    }
}

// Writes within 100,000 bytes, so that the blob has up to four bands.
fn bytes_verb(i: u32, draw: &Draw) -> Op<'_> {
    let name = draw.name;
    let at = u64::from(i.wrapping_mul(7_919) % 99_000);
    let count = u64::from(i.wrapping_mul(613) % 1_000);
    match i % 6 {
        0 | 1 => Op::Write {
            name,
            at,
            bytes: front(&draw.bytes, count as usize),
        },
        2 => Op::Read { name, at, count },
        3 => Op::Size {
            name,
            length: at + count,
        },
        4 => Op::Paint {
            name,
            at,
            count,
            code: 2,
            arg: &draw.bytes[..1],
        },
        _ => Op::Len { name },
    }
}

// Makes objects and drops them.
fn name_verb(i: u32, draw: &Draw) -> Op<'_> {
    let name = draw.name;
    match i % 7 {
        0 => Op::MakeArray { name, size: 8 },
        1 | 2 => Op::MakeTable { name },
        3 => Op::MakeBlob { name },
        4 => Op::Len { name },
        _ => Op::Discard { name },
    }
}

fn verb(kind: Kind, i: u32, draw: &Draw) -> Op<'_> {
    match kind {
        Kind::Array => item_verb(i, draw),
        Kind::Table => entry_verb(i, draw),
        Kind::Blob => bytes_verb(i, draw),
        Kind::Name => name_verb(i, draw),
    }
}

// What makes the object that the verbs go to.
fn making(kind: Kind, name: Name) -> Op<'static> {
    match kind {
        Kind::Array => Op::MakeArray { name, size: 200 },
        Kind::Table => Op::MakeTable { name },
        Kind::Blob => Op::MakeBlob { name },
        Kind::Name => Op::Len { name },
    }
}

// What the verb of this number goes to: one object, or one of five names.
fn drawn(kind: Kind, i: u32) -> Result<Draw, Stop> {
    let letter = match kind {
        Kind::Name => b'a' + (i % 5) as u8,
        _ => b'o',
    };
    Ok(Draw {
        name: named(letter)?,
        key: [b'k', (i.wrapping_mul(7) % 60) as u8],
        bytes: [(i % 251) as u8; 1_000],
    })
}

// Whether two outcomes are the same, with the bytes that they answer.
fn is_same(
    said: &Result<Reply, ObjFault>,
    plain: &Result<Reply, Reason>,
    into: &[u8; 8192],
    other: &[u8; 8192],
) -> bool {
    match (said, plain) {
        (Ok(reply), Ok(want)) => reply == want && into == other,
        (Err(ObjFault::Model(reason)), Err(want)) => reason == want,
        _ => false,
    }
}

// Whether a verb comes to the same in a store and in memory.
fn agrees(
    alloc: Global,
    trial: &mut Trial,
    plain: &mut Objects,
    txn: TxnId,
    op: &Op<'_>,
) -> Result<bool, Stop> {
    let (mut into, mut other) = ([0; 8192], [0; 8192]);
    let said = trial.does(txn, op, &mut into);
    let want = plain.apply(alloc, &trial.ops, op, &mut other)?;
    Ok(is_same(&said, &want, &into, &other))
}

// The first of so many verbs that comes to something else. Each third one is done once before, and taken off.
fn first_wrong(
    alloc: Global,
    trial: &mut Trial,
    kind: Kind,
    count: u32,
) -> Result<Option<u32>, Stop> {
    let mut plain = Objects::empty(alloc);
    let txn = trial.begin()?;
    if !agrees(alloc, trial, &mut plain, txn, &making(kind, named(b'o')?))? {
        return Ok(Some(count));
    }
    for i in 0..count {
        let draw = drawn(kind, i)?;
        let op = verb(kind, i, &draw);
        if i % 3 == 0 {
            trial.gives_up(txn, &op)?;
        }
        if !agrees(alloc, trial, &mut plain, txn, &op)? {
            return Ok(Some(i));
        }
    }
    trial.commit(txn)?;
    Ok(None)
}

// The same in a new store.
fn in_a_store<R: Host, L: Ledger>(
    rt: &R,
    kind: Kind,
    count: u32,
    blank: Blank,
) -> Result<Option<u32>, Stop>
    requires name { blank.name ≡ L.name }
    requires parts { blank.parts ≡ L.parts }
    requires some { 0 < L.parts }
{
    let mut steps = Steps::<L>::open(blank);
    let mut trial = Trial::new(rt, &mut steps)?;
    let wrong = first_wrong(rt.alloc(), &mut trial, kind, count);
    let _disk = trial.into_disk();
    wrong
}

#[test]
fn verbs_of_an_array(rt: HostRuntime) -> Result<(), Fail> {
    assert_eq!(rt;
        in_a_store::<_, Brand>(&rt, Kind::Array, 400, Blank::new(1)),
        Ok(None)
    );
    Ok(())
}

#[test]
fn verbs_of_a_table(rt: HostRuntime) -> Result<(), Fail> {
    assert_eq!(rt;
        in_a_store::<_, Brand>(&rt, Kind::Table, 400, Blank::new(1)),
        Ok(None)
    );
    Ok(())
}

#[test]
fn verbs_of_a_blob(rt: HostRuntime) -> Result<(), Fail> {
    assert_eq!(rt;
        in_a_store::<_, Brand>(&rt, Kind::Blob, 400, Blank::new(1)),
        Ok(None)
    );
    Ok(())
}

#[test]
fn verbs_of_the_catalogue(rt: HostRuntime) -> Result<(), Fail> {
    assert_eq!(rt;
        in_a_store::<_, Brand>(&rt, Kind::Name, 300, Blank::new(1)),
        Ok(None)
    );
    Ok(())
}
