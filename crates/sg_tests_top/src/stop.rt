use crate::trial::{Host, copy_of, new_store, run, run_in_pieces, run_stopped};
use sg_disk::MemDisk;
use sg_top::Status;

const SCRIPT: &[u8] = b"t begin\nt make array a 3\nt push a abc\nt commit";

// How many calls of the disk a run of a script over this store makes.
fn calls_of(rt: &impl Host, store: &MemDisk, script: &[u8]) -> Option<u64> {
    let left = run(rt, copy_of(rt, store)?, script)?;
    Some(left.disk.call_count())
}

// Words of runs, one behind another with a comma between.
const RUNS: &str = "run d --stop-after 1000,\
    run d --stop-after 00000000000000001000,\
    run d --stop-after 18446744073709551615,\
    run --stop-after 1000 d,\
    run --stop-after=1000 d";

// And words that are none.
const NO_RUNS: &str = "run d --stop-after 18446744073709551616,\
    run d --stop-after 000000000000000000006,\
    run d --stop-after,\
    run d --stop-after x,\
    run d --stop-after -1,\
    run d --stop-after 6 6,\
    run d --stop 6,\
    run --stop-after 6,\
    --stop-after 6 run d";

// Whether the script goes so with these words over a new store: how it ends, and whether there is a reply. No call is refused.
fn words_go(rt: &impl Host, words: &str, status: Status, are_replies: bool) -> bool {
    match new_store(rt).and_then(|disk| run_in_pieces(rt, words, disk, SCRIPT, 65_536)) {
        Some(left) => {
            left.status == status && left.refused == 0 && left.replies().is_empty() != are_replies
        }
        None => false,
    }
}

// How many rows of words these are, where all go so.
fn all_go(rt: &impl Host, rows: &str, status: Status, are_replies: bool) -> Option<usize> {
    let mut count = 0usize;
    for words in rows.split(',') {
        if !words_go(rt, words, status, are_replies) {
            return None;
        }
        count = count.saturating_add(1);
    }
    Some(count)
}

#[test]
fn words_with_a_stop(rt: HostRuntime) {
    let runs = all_go(&rt, RUNS, Status::Done, true);
    let no_runs = all_go(&rt, NO_RUNS, Status::Usage, false);
    assert_eq!(rt; [runs, no_runs], [Some(5), Some(9)]);
}

// Transactions among one another: p commits, then u, and then t, which began before u. v aborts, and w is left.
const THREE: &[u8] = b"p begin\np make array a 1\np push a x\np push a y\np commit\n\
    t begin\nu begin\nv begin\nt set a 0 t\nv make array b 1\nu set a 1 u\nv push b v\n\
    u commit\nv abort\nt commit\nw begin\nw set a 1 w\nw push a w";

const ITEMS: &[u8] = b"u begin\nu get a 0\nu get a 1\nu get a 2\nu get b 0";

// What the items are answered after the first so many commits.
const AFTER: [&[u8]; 4] = [
    b"ok\nerror no-object\nerror no-object\nerror no-object\nerror no-object\n",
    b"ok\nok x\nok y\nerror out-of-range\nerror no-object\n",
    b"ok\nok x\nok u\nerror out-of-range\nerror no-object\n",
    b"ok\nok t\nok u\nerror out-of-range\nerror no-object\n",
];

// How many of the replies to the commits, which are the lines 4, 12 and 14 from 0 on, are `ok`.
fn acknowledged(replies: &[u8]) -> usize {
    let mut count = 0;
    for (i, reply) in replies.split(|b| *b == b'\n').enumerate() {
        if matches!(i, 4 | 12 | 14) && reply == b"ok".as_slice() && count < 3 {
            count += 1;
        }
    }
    count
}

// The number of commits whose objects a store over this disk shows.
fn commits_shown(rt: &impl Host, disk: MemDisk) -> Option<usize> {
    let left = run(rt, disk, ITEMS)?;
    AFTER.iter().position(|replies| *replies == left.replies())
}

// A run of the three over a copy of the store that is stopped: how many commits were acknowledged, and what a crash leaves.
fn three_stopped(
    rt: &impl Host,
    store: &MemDisk,
    calls: u64,
    pick: u64,
) -> Option<(usize, MemDisk)> {
    let left = run_stopped(rt, copy_of(rt, store)?, THREE, calls)?;
    Some((acknowledged(left.replies()), left.disk.crash(pick)))
}

// The number of commits that a store shows over a copy of what is left where its opening was stopped after so many calls
// before, and crashed.
fn look_stopped(rt: &impl Host, disk: &MemDisk, calls: u64, pick: u64) -> Option<usize> {
    let left = run_stopped(rt, copy_of(rt, disk)?, ITEMS, calls)?;
    commits_shown(rt, left.disk.crash(pick))
}

// Whether the second number is the first, or one more.
fn is_next(least: usize, shown: usize) -> bool {
    least <= shown && shown - least <= 1
}

// Whether a store shows the objects after some first commits, so many as were acknowledged or one more, however its opening was
// stopped before.
fn looks_go(rt: &impl Host, disk: &MemDisk, least: usize, pick: u64) -> bool {
    for calls in 0..6u64 {
        match look_stopped(rt, disk, calls.saturating_mul(9), pick) {
            Some(shown) if is_next(least, shown) => {}
            _ => return false,
        }
    }
    true
}

// Whether a run goes as it should that is stopped after so many calls, then opened and stopped again, and then opened whole.
fn three_go(rt: &impl Host, store: &MemDisk, calls: u64, pick: u64) -> bool {
    match three_stopped(rt, store, calls, pick) {
        Some((least, disk)) => looks_go(rt, &disk, least, pick.saturating_add(1)),
        None => false,
    }
}

// The first number of calls that goes otherwise, of each third one up to the number that a whole run makes.
fn first_wrong_of_three(rt: &impl Host) -> Option<u64> {
    let store = new_store(rt)?;
    let calls = calls_of(rt, &store, THREE)?;
    for n in 0..calls.min(400) {
        if n % 3 == 0 && !three_go(rt, &store, n, n.saturating_mul(0x9e37_79b9)) {
            return Some(n);
        }
    }
    None
}

// A run is stopped, the store is opened again and that is stopped too, and then it is opened whole. Each time it shows
// the objects after some first commits, all acknowledged ones among them.
#[test]
fn stopped_and_opened_twice(rt: HostRuntime) {
    assert_eq!(rt; first_wrong_of_three(&rt), None);
}

// Whether a whole run acknowledges all three, and is shown.
fn whole_goes(rt: &impl Host) -> Option<bool> {
    let store = new_store(rt)?;
    let (least, disk) = three_stopped(rt, &store, u64::MAX, 0)?;
    let shown = commits_shown(rt, disk)?;
    Some(least == 3 && shown == 3)
}

#[test]
fn a_whole_run_is_shown(rt: HostRuntime) {
    assert_eq!(rt; whole_goes(&rt), Some(true));
}
