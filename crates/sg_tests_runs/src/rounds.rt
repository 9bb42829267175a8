// The scripts of `objects`, stopped after each number of calls of the disk and followed by a crash; the store that is left opened, stopped in the midst of
// that and followed by a crash again; and then opened whole.
use crate::objects::{Course, SIZES};
use crate::trial::{Host, acknowledged, are_same, copy_of, new_store_of, run_stopped};
use sg_disk::MemDisk;

// What a crash makes of the bytes that no sync made durable: all of them are there; none is; those of every other call are; and of each call the
// first half is.
const ALL: u64 = 0;

const NONE: u64 = 0x5555_5555_5555_5555;

const EVERY_OTHER: u64 = 0x4444_4444_4444_4444;

const TORN: u64 = 0xffff_ffff_ffff_ffff;

// More calls than any run here makes.
const MOST_CALLS: u64 = 1_000;

// What a stopped run leaves: how many commits it acknowledged, the disk after the crash, and how many calls it made.
#[derive(Drop)]
struct Crashed {
    acknowledged: usize,
    disk: MemDisk,
    calls: u64,
}

// The bytes that were looked at last, and how many commits a store over them shows.
#[derive(Drop)]
struct Seen {
    disk: MemDisk,
    shown: usize,
}

// A run of a script over a copy of the store that makes so many calls, and a crash.
fn crash_run(
    rt: &impl Host,
    store: &MemDisk,
    script: &[u8],
    calls: u64,
    pick: u64,
) -> Option<Crashed> {
    let left = run_stopped(rt, copy_of(rt, store)?, script, calls)?;
    Some(Crashed {
        acknowledged: acknowledged(script, left.replies()),
        calls: left.disk.call_count(),
        disk: left.disk.crash(pick),
    })
}

// Whether a store that shows so many commits shows as many once its opening was stopped, after each number of calls. Where two stops leave
// the same bytes, the second shows nothing new.
fn openings_show(
    rt: &impl Host,
    course: Course,
    store: &MemDisk,
    shown: usize,
    pick: u64,
) -> Option<bool> {
    let mut before = copy_of(rt, store)?;
    for calls in 0..MOST_CALLS {
        let Crashed {
            disk,
            calls: made,
            ..
        } = crash_run(rt, store, b"", calls, pick)?;
        if !are_same(&before, &disk) {
            before = copy_of(rt, &disk)?;
            if course.commits_shown(rt, disk)? != shown {
                return Some(false);
            }
        }
        if made < calls {
            return Some(true);
        }
    }
    None
}

// The number of commits that a store shows over these bytes, where it shows as many however its opening is stopped.
fn look(rt: &impl Host, course: Course, disk: MemDisk, pick: u64) -> Option<Seen> {
    let shown = course.commits_shown(rt, copy_of(rt, &disk)?)?;
    if openings_show(rt, course, &disk, shown, pick)? {
        Some(Seen { disk, shown })
    } else {
        None
    }
}

// Whether the second number is the first, or one more.
fn is_next(least: usize, shown: usize) -> bool {
    least <= shown && shown - least <= 1
}

// A run of a script that makes so many calls: how many commits it acknowledged, and whether it was whole. None where what a crash leaves doesn't show
// these commits, or one more.
fn round(
    rt: &impl Host,
    course: Course,
    store: &MemDisk,
    calls: u64,
    pick: u64,
    seen: &mut Seen,
) -> Option<(usize, bool)> {
    let crashed = crash_run(rt, store, course.script(), calls, pick)?;
    let Crashed {
        acknowledged,
        disk,
        calls: made,
    } = crashed;
    if !are_same(&seen.disk, &disk) {
        *seen = look(rt, course, disk, pick)?;
    }
    if is_next(acknowledged, seen.shown) {
        Some((acknowledged, made < calls))
    } else {
        None
    }
}

// How many commits the first whole run acknowledged, where it and each run that was stopped before go as they should; and else the number of calls at
// which one goes otherwise.
fn rounds(rt: &impl Host, course: Course, pick: u64) -> Result<usize, u64> {
    let Some(store) = new_store_of(rt, &SIZES) else {
        return Err(MOST_CALLS);
    };
    let Some(disk) = copy_of(rt, &store) else {
        return Err(MOST_CALLS);
    };
    let mut seen = Seen { disk, shown: 0 };
    for calls in 0..MOST_CALLS {
        match round(rt, course, &store, calls, pick, &mut seen) {
            Some((acknowledged, true)) => return Ok(acknowledged),
            Some(_) => {}
            None => return Err(calls),
        }
    }
    Err(MOST_CALLS)
}

#[test]
fn stopped_where_all_bytes_are_there(rt: HostRuntime) {
    assert_eq!(rt; rounds(&rt, Course::Objects, ALL), Ok(5));
}

#[test]
fn stopped_where_none_is(rt: HostRuntime) {
    assert_eq!(rt; rounds(&rt, Course::Objects, NONE), Ok(5));
}

#[test]
fn stopped_where_those_of_every_other_call_are(rt: HostRuntime) {
    assert_eq!(rt; rounds(&rt, Course::Objects, EVERY_OTHER), Ok(5));
}

#[test]
fn stopped_where_the_first_half_of_each_call_is(rt: HostRuntime) {
    assert_eq!(rt; rounds(&rt, Course::Objects, TORN), Ok(5));
}

// Behind these four all bytes of earlier calls are there. Those of the last call are, aren't, are others, and are by half.
#[test]
fn cut_and_stopped_where_all_bytes_are_there(rt: HostRuntime) {
    assert_eq!(rt; rounds(&rt, Course::Cut, ALL), Ok(2));
}

#[test]
fn cut_and_stopped_where_the_last_are_not(rt: HostRuntime) {
    assert_eq!(rt; rounds(&rt, Course::Cut, 1), Ok(2));
}

#[test]
fn cut_and_stopped_where_the_last_are_others(rt: HostRuntime) {
    assert_eq!(rt; rounds(&rt, Course::Cut, 2), Ok(2));
}

#[test]
fn cut_and_stopped_where_the_last_are_there_by_half(rt: HostRuntime) {
    assert_eq!(rt; rounds(&rt, Course::Cut, 3), Ok(2));
}
