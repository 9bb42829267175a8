// An action that is longer than the log's buffer, so that a stop leaves some of its records in the log, and not its end. An opening takes it off. That is stopped
// after each call of the disk, and gone on with.
use crate::objects::SIZES;
use crate::trial::{
    Host, calls_of_lines, copy_of, looks_so, new_store_of, opening_stopped, run, run_in_pieces,
    run_stopped,
};
use sg_disk::MemDisk;

// The blob has 3 bands. Each record of a paint has 8,192 of the bytes before in 8,238: t makes 12 of these, and the buffer of 65,536 holds 7.
const SCRIPT: &[u8] =
    b"p begin\np make blob b\np size b 98304\np paint b 0 98304 1 A\np commit\nt begin\nt paint b 0 98304 1 T";

const REPLIES: &[u8] = b"ok\nok\nok\nok\nok\nok\nok\n";

// What the objects come to without t: 98,304 times 65.
const SUM: &[u8] = b"objects 1 items 0 entries 0 bytes 98304 sum 6389760\n";

// The disk of a run that is stopped once its lines are answered, when the action's end waits in the buffer.
fn cut_off(rt: &impl Host) -> Option<MemDisk> {
    let store = new_store_of(rt, &SIZES)?;
    let calls = calls_of_lines(rt, &store, SCRIPT, REPLIES)?;
    let left = run_stopped(rt, copy_of(rt, &store)?, SCRIPT, calls)?;
    Some(left.disk.crash(0))
}

// The kind of the record that a line of a listing is about.
fn kind_of(line: &[u8]) -> &[u8] {
    line.split(|b| *b == b' ').nth(1).unwrap_or(b"")
}

// How many records of a kind a log's listing has behind the last begin, and how many of all kinds.
fn counts_in(listing: &[u8], kind: &[u8]) -> [u32; 2] {
    let mut counts = [0u32, 0];
    for line in listing.split(|b| *b == b'\n') {
        let [of_kind, all] = counts;
        let found = kind_of(line);
        counts = if found == b"begin".as_slice() {
            [0, 0]
        } else if found == kind {
            [of_kind.saturating_add(1), all.saturating_add(1)]
        } else if line.is_empty() {
            counts
        } else {
            [of_kind, all.saturating_add(1)]
        };
    }
    counts
}

// The same of the log of a copy of this store.
fn counts_of(rt: &impl Host, disk: &MemDisk, kind: &[u8]) -> Option<[u32; 2]> {
    let left = run_in_pieces(rt, "log store", copy_of(rt, disk)?, b"", 8)?;
    Some(counts_in(left.replies(), kind))
}

// In the log that is left, changes alone stand behind the begin of t.
fn changes_left(rt: &impl Host) -> Option<[u32; 2]> {
    counts_of(rt, &cut_off(rt)?, b"seg-op")
}

// The changes that an opening makes the other way round, and the ends of actions that were taken off.
fn taken_off(rt: &impl Host) -> Option<[u32; 2]> {
    let disk = run(rt, cut_off(rt)?, b"")?.disk;
    let [changes, _] = counts_of(rt, &disk, b"phys-comp")?;
    let [ends, _] = counts_of(rt, &disk, b"top-void")?;
    Some([changes, ends])
}

#[test]
fn a_log_ends_in_the_midst_of_an_action(rt: HostRuntime) {
    assert_eq!(rt; changes_left(&rt), Some([7, 7]));
    assert_eq!(rt; taken_off(&rt), Some([7, 1]));
}

// Whether the objects are as before where an opening is stopped after so many calls, and the next one too.
fn stop_goes(rt: &impl Host, disk: &MemDisk, calls: u64, pick: u64) -> bool {
    match opening_stopped(rt, disk, calls, pick).and_then(|first| opening_stopped(
        rt, &first, calls, pick,
    )) {
        Some(second) => looks_so(rt, second, "check", SUM),
        None => false,
    }
}

// Whether they are whatever became of the last calls' bytes.
fn stops_go(rt: &impl Host, disk: &MemDisk, calls: u64) -> bool {
    for pick in [0, 1, 2, 3, 0x5555_5555_5555_5555, u64::MAX] {
        if !stop_goes(rt, disk, calls, pick) {
            return false;
        }
    }
    true
}

// The first number of calls that goes otherwise, up to the number that an opening and the end of its run make.
fn first_wrong(rt: &impl Host, disk: &MemDisk) -> Option<u64> {
    let left = run(rt, copy_of(rt, disk)?, b"")?;
    for calls in 0..left.disk.call_count() {
        if !stops_go(rt, disk, calls) {
            return Some(calls);
        }
    }
    None
}

// Whether all are as they should.
fn openings_go(rt: &impl Host) -> Option<bool> {
    let disk = cut_off(rt)?;
    Some(first_wrong(rt, &disk) == None && looks_so(rt, disk, "check", SUM))
}

#[test]
fn an_action_is_taken_off_however_often_that_is_stopped(rt: HostRuntime) {
    assert_eq!(rt; openings_go(&rt), Some(true));
}
