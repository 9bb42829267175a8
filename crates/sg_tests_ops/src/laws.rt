use sg_laws::{Change, are_accepted, redo_all, redo_and_undo, redo_in_turn};
use sg_meeting::{Flags, Meeting};
use sg_ops::Ops;
use std::alloc::{AllocError, Global};
use std::test::Fail;
use std::thread::Threads;

fn change(alloc: Global, item: u8, code: u16, arg: u8) -> Result<Change, AllocError> {
    Ok(Change {
        item: vec![in alloc; item]?,
        code,
        arg: vec![in alloc; arg]?,
    })
}

fn is_taken(alloc: Global, ops: &mut Ops, meeting: Meeting) -> Result<bool, Fail> {
    Ok(ops.register_record(Box::new(alloc, meeting)?).is_ok())
}

// Whether both operations are taken.
pub fn are_taken(alloc: Global, ops: &mut Ops, flags: &Flags) -> Result<bool, Fail> {
    let is_first = is_taken(alloc, ops, flags.first()?)?;
    let is_second = is_taken(alloc, ops, flags.second()?)?;
    Ok(is_first && is_second)
}

// Changes of an item of one byte, by a code, with an argument of one byte.
fn changes_of(alloc: Global, rows: &[[u8; 3]]) -> Result<Vec<Change>, AllocError> {
    let mut changes = Vec::new(alloc);
    for [item, code, arg] in rows {
        changes.push(change(alloc, *item, u16::from(*code), *arg)?)?;
    }
    Ok(changes)
}

// Whether all of them are made, in at most two threads.
fn are_redone<R: Threads + Sync>(rt: &R, ops: &Ops, changes: &mut Vec<Change>) -> bool {
    redo_all(rt, 2, ops, changes.as_mut_slice())
}

// How often a flag was seen, if both operations are taken and done.
fn met<R: Threads + Sync>(rt: &R, alloc: Global) -> Result<Option<u64>, Fail> {
    let flags = Flags::new(alloc)?;
    let mut ops = Ops::new(alloc)?;
    let are_taken = are_taken(alloc, &mut ops, &flags)?;
    let mut changes = changes_of(alloc, &[[1, 7, 0], [2, 8, 0]])?;
    let are_done = are_redone(rt, &ops, &mut changes);
    Ok(if are_taken && are_done {
        Some(flags.count())
    } else {
        None
    })
}

// Two operations that run at once, in two threads, see each other's flag.
#[test]
fn two_threads_meet(rt: HostRuntime) -> Result<(), Fail> {
    assert!(rt; met(&rt, rt.alloc())? == Some(2));
    Ok(())
}

// Whether the items are of one byte each, and these.
fn items_are(changes: &[Change], want: &[u8]) -> bool {
    if changes.len() != want.len() {
        return false;
    }
    for (change, byte) in changes.iter().zip(want) {
        if change.item.as_slice() != [*byte].as_slice() {
            return false;
        }
    }
    true
}

// Makes the changes one after the other, where all are accepted.
fn redo_accepted(ops: &Ops, changes: &mut Vec<Change>) {
    if are_accepted(ops, changes.as_slice()) {
        redo_in_turn(ops, changes.as_mut_slice());
    }
}

// Whether three changes are made in threads, and once more in turn, and none is where a fourth has a code that isn't.
fn are_shared<R: Threads + Sync>(rt: &R, alloc: Global) -> Result<bool, Fail> {
    let ops = Ops::shipped(alloc)?;
    let mut changes = changes_of(alloc, &[[250, 1, 10], [0b1100, 2, 0b1010], [1, 1, 2]])?;
    let in_threads = are_redone(rt, &ops, &mut changes) && items_are(&changes, &[4, 0b0110, 3]);
    redo_accepted(&ops, &mut changes);
    let in_turn = items_are(&changes, &[14, 0b1100, 5]);
    changes.push(change(alloc, 9, 4, 1)?)?;
    let are_refused = !are_redone(rt, &ops, &mut changes);
    Ok(in_threads && in_turn && are_refused)
}

#[test]
fn threads_share_the_operations(rt: HostRuntime) -> Result<(), Fail> {
    assert!(rt; are_shared(&rt, rt.alloc())?);
    Ok(())
}

// What an addition leaves of an item, and what its undo leaves of that.
fn undone(ops: &Ops) -> ([u8; 2], [u8; 2]) {
    let mut item = [200, 1];
    let arg = [100, 255];
    let mut changed = [0; 2];
    if ops.has_record(1) && ops.accepts(1, &item, &arg) {
        redo_and_undo(ops, 1, &mut item, &arg, &mut changed);
    }
    (changed, item)
}

#[test]
fn undone_at_once(rt: HostRuntime) -> Result<(), Fail> {
    let ops = Ops::shipped(rt.alloc())?;
    // 456 + 65,380 = 65,836 = 65,536 + 300
    assert!(rt; undone(&ops) == ([44, 1], [200, 1]));
    Ok(())
}
