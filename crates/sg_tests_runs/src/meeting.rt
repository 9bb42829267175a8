// An opening repeats records on several pages at once: two operations that wait for one another see each other.
use crate::trial::{Host, Left, copy_of, new_store, run_with};
use sg_disk::MemDisk;
use sg_meeting::{Flags, Meeting};
use sg_ops::Ops;
use sg_top::Status;

// Eight arrays of an item each, and the two operations on the first item and on the last. So their pages are of two threads, however
// many units there are beside them.
const SCRIPT: &[u8] =
    b"t begin\nt make array a 1\nt push a 0\nt make array b 1\nt push b 0\nt make array c 1\nt push c 0\n\
    t make array d 1\nt push d 0\nt make array e 1\nt push e 0\nt make array f 1\nt push f 0\nt make array g 1\nt push g 0\n\
    t make array h 1\nt push h 0\nt apply a 0 7 x:\nt apply h 0 8 x:\nt commit";

const REPLIES: &[u8] =
    b"ok\nok\nok 0\nok\nok 0\nok\nok 0\nok\nok 0\nok\nok 0\nok\nok 0\nok\nok 0\nok\nok 0\nok\nok\nok\n";

// More calls of the disk than a run of it makes.
const MOST_CALLS: u64 = 1_000;

fn is_taken(rt: &impl Host, ops: &mut Ops, meeting: Meeting) -> bool {
    match Box::new(rt.alloc(), meeting) {
        Ok(meeting) => ops.register_record(meeting).is_ok(),
        Err(_) => false,
    }
}

// The shipped operations and the two.
fn ops_with(rt: &impl Host, flags: &Flags) -> Option<Ops> {
    if let Ok(mut ops) = Ops::shipped(rt.alloc())
        && let Ok(first) = flags.first()
        && let Ok(second) = flags.second()
        && is_taken(rt, &mut ops, first)
        && is_taken(rt, &mut ops, second)
    {
        Some(ops)
    } else {
        None
    }
}

// What is left of a run over a copy of a store that makes so many calls, in which neither operation waits.
fn written(rt: &impl Host, store: &MemDisk, calls: u64) -> Option<Left> {
    let Ok(flags) = Flags::new(rt.alloc()) else {
        return None;
    };
    flags.set();
    let ops = ops_with(rt, &flags)?;
    run_with(rt, ops, copy_of(rt, store)?, SCRIPT, calls)
}

// The disk of a run that makes as few calls as get all replies: it is stopped before its end, so that its changes are in the log alone.
fn stopped(rt: &impl Host, store: &MemDisk) -> Option<MemDisk> {
    let mut last = written(rt, store, MOST_CALLS)?;
    for _ in 0..100u32 {
        let fewer = last.disk.call_count().saturating_sub(1);
        let left = written(rt, store, fewer)?;
        if left.replies() != REPLIES {
            return Some(last.disk);
        }
        last = left;
    }
    None
}

// How an opening of that store ends, and how often one of the operations saw the other's flag in it.
fn met(rt: &impl Host) -> Option<(Status, u64)> {
    let store = new_store(rt)?;
    let disk = stopped(rt, &store)?.crash(0);
    let Ok(flags) = Flags::new(rt.alloc()) else {
        return None;
    };
    let ops = ops_with(rt, &flags)?;
    let left = run_with(rt, ops, disk, b"", MOST_CALLS)?;
    Some((left.status, flags.count()))
}

#[test]
fn an_opening_repeats_two_pages_at_once(rt: HostRuntime) {
    assert_eq!(rt; met(&rt), Some((Status::Done, 2)));
}
