// A transaction that a crash interrupts, and that is undone over the store that was opened again.
ghost use Rattle.std.specs.Prelude.{◌≡◌, ◌<◌};

use crate::stores::{Host, Stop, Trial, named};
use sg_base::{Steps, TxnId};
use sg_disk::MemDisk;
use sg_model::Op;
use std::marker::Brand;
use std::sync::ledger::{Blank, Ledger};
use std::test::Fail;

// The only item of the array.
fn item(trial: &mut Trial, txn: TxnId) -> Result<[u8; 4], Stop> {
    let name = named(b'a')?;
    let mut into = [0; 8192];
    trial.does(txn, &Op::Get { name, index: 0 }, &mut into)?;
    Ok([into[0], into[1], into[2], into[3]])
}

// An array with one item, which a transaction that has ended made.
fn make(trial: &mut Trial) -> Result<(), Stop> {
    let name = named(b'a')?;
    let mut into = [0; 8192];
    let txn = trial.begin()?;
    trial.does(txn, &Op::MakeArray { name, size: 4 }, &mut into)?;
    let value = b"wxyz";
    trial.does(txn, &Op::Push { name, value }, &mut into)?;
    trial.commit(txn)
}

// Rotates it by one, three times, in a transaction that goes on, and makes that durable. Answers the item.
fn rotate(trial: &mut Trial) -> Result<[u8; 4], Stop> {
    let name = named(b'a')?;
    let mut into = [0; 8192];
    let txn = trial.begin()?;
    for _ in 0..3 {
        let op = Op::Apply {
            name,
            index: 0,
            code: 3,
            arg: &[1],
        };
        trial.does(txn, &op, &mut into)?;
    }
    trial.flush()?;
    item(trial, txn)
}

// The item at first, and then after each undone note; at last whether a note is left.
fn undo(trial: &mut Trial, txn: TxnId) -> Result<([[u8; 4]; 4], bool), Stop> {
    let mut items = [[0; 4]; 4];
    for i in 0..4usize {
        items[i] = item(trial, txn)?;
        if i < 3 {
            trial.undo_one(txn)?;
        }
    }
    let left = trial.has_note(txn)? || trial.undo_one(txn)?;
    trial.end(txn)?;
    trial.flush()?;
    Ok((items, left))
}

// What a crash leaves of the store in which the item was rotated, and the item then.
fn interrupted<R: Host, L: Ledger>(
    rt: &R,
    pick: u64,
    steps: &mut Steps<L>,
) -> Result<(MemDisk, [u8; 4]), Stop> {
    let mut trial = Trial::new(rt, steps)?;
    let made = make(&mut trial);
    let rotated = rotate(&mut trial);
    let disk = trial.into_disk().crash(pick);
    made?;
    Ok((disk, rotated?))
}

// What undoing comes to over such a store, and the item once that is opened again, where no transaction goes on.
fn undone<R: Host, L: Ledger>(rt: &R, pick: u64, blank: Blank) -> Result<[[u8; 4]; 6], Stop>
    requires name { blank.name ≡ L.name }
    requires parts { blank.parts ≡ L.parts }
    requires some { 0 < L.parts }
{
    let mut steps = Steps::<L>::open(blank);
    let (disk, rotated) = interrupted(rt, pick, &mut steps)?;
    let (mut trial, loser) = Trial::again(rt, disk, &mut steps)?;
    let came = undo(&mut trial, loser);
    let disk = trial.into_disk();
    let (items, left) = came?;
    let (mut trial, none) = Trial::again(rt, disk, &mut steps)?;
    let found = item(&mut trial, none);
    let _disk = trial.into_disk();
    if left || none.0 != 0 {
        return Err(Stop::Left);
    }
    Ok([rotated, items[0], items[1], items[2], items[3], found?])
}

// Three rotates of a transaction that never ends are each undone once, the last first.
#[test]
fn three_rotates_of_a_loser_are_undone(rt: HostRuntime) -> Result<(), Fail> {
    let want = [*b"zwxy", *b"zwxy", *b"yzwx", *b"xyzw", *b"wxyz", *b"wxyz"];
    for pick in 0..4u64 {
        assert_eq!(rt; undone::<_, Brand>(&rt, pick, Blank::new(1)), Ok(want));
    }
    Ok(())
}
