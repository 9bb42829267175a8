// A transaction that is left with three turns of an item, with and without a checkpoint between these: its opening is stopped after each call of the disk, opened and
// stopped again, and opened whole.
use crate::trial::{Host, calls_of_lines, copy_of, new_store, opening_stopped, run, run_stopped};
use sg_disk::MemDisk;
use sg_top::Status;

// Lines that leave the transaction live, with its records durable, and their replies.
#[derive(Clone, Copy)]
struct Turned {
    lines: &'static [u8],
    replies: &'static [u8],
}

const WITHOUT: Turned = Turned {
    lines: b"p begin\np make array a 3\np push a abc\np commit\nt begin\n\
    t apply a 0 3 x:01\nt apply a 0 3 x:01\nt apply a 0 3 x:01\nflush",
    replies: b"ok\nok\nok 0\nok\nok\nok\nok\nok\nok\n",
};

const BETWEEN: Turned = Turned {
    lines: b"p begin\np make array a 3\np push a abc\np commit\nt begin\n\
    t apply a 0 3 x:01\nt apply a 0 3 x:01\ncheckpoint\nt apply a 0 3 x:01\nflush",
    replies: b"ok\nok\nok 0\nok\nok\nok\nok\nok\nok\nok\n",
};

// The disk of a run that is stopped once its lines are answered, before the end of a run takes the turns back.
fn cut_off(rt: &impl Host, turned: Turned) -> Option<MemDisk> {
    let store = new_store(rt)?;
    let calls = calls_of_lines(rt, &store, turned.lines, turned.replies)?;
    let left = run_stopped(rt, copy_of(rt, &store)?, turned.lines, calls)?;
    Some(left.disk.crash(0))
}

// Whether a run over a disk shows the item as it was.
fn shows(rt: &impl Host, disk: MemDisk) -> bool {
    match run(rt, disk, b"u begin\nu get a 0") {
        Some(left) => left.is(Status::Done, b"ok\nok abc\n"),
        None => false,
    }
}

// Whether it does where an opening is stopped after so many calls, and the next one too.
fn stop_goes(rt: &impl Host, disk: &MemDisk, calls: u64, pick: u64) -> bool {
    match opening_stopped(rt, disk, calls, pick).and_then(|first| opening_stopped(
        rt,
        &first,
        calls,
        calls.saturating_mul(0x9e37_79b9),
    )) {
        Some(second) => shows(rt, second),
        None => false,
    }
}

// Whether it does whatever became of the last call's bytes.
fn stops_go(rt: &impl Host, disk: &MemDisk, calls: u64) -> bool {
    for pick in 0..4u64 {
        if !stop_goes(rt, disk, calls, pick) {
            return false;
        }
    }
    true
}

// The first number of calls that goes otherwise, up to the number that an opening and the end of its run make.
fn first_wrong_of_stops(rt: &impl Host, disk: &MemDisk) -> Option<u64> {
    let left = run(rt, copy_of(rt, disk)?, b"")?;
    for n in 0..left.disk.call_count() {
        if !stops_go(rt, disk, n) {
            return Some(n);
        }
    }
    None
}

// Whether the turns are taken back, also where the openings are stopped.
fn turns_go(rt: &impl Host, turned: Turned) -> bool {
    match cut_off(rt, turned) {
        Some(disk) => first_wrong_of_stops(rt, &disk) == None && shows(rt, disk),
        None => false,
    }
}

#[test]
fn turns_are_taken_back(rt: HostRuntime) {
    assert!(rt; turns_go(&rt, WITHOUT));
}

#[test]
fn turns_are_taken_back_with_a_checkpoint_between_them(rt: HostRuntime) {
    assert!(rt; turns_go(&rt, BETWEEN));
}
