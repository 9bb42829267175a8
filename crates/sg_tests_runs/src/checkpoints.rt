// Checkpoints and truncations: what a script leaves of its log, and what is shown where a truncation is stopped.
use crate::trial::{Host, copy_of, done, looks_so, new_store, run, run_stopped};
use sg_base::MemSink;
use sg_disk::MemDisk;
use sg_inspect::write_log;

// Scripts over a new store, what they are answered, and the listing of the log that they leave: its area, its first byte and
// its last one, and each record's number, kind, transaction, previous record and length.
const ROWS: [(&str, &str, &str); 6] = [
    // the end of a run makes a checkpoint
    ("", "", "log 0 0 36\n5 checkpoint 0 0 31\n"),
    // in the frame of the records that waited
    (
        "t begin\nt commit",
        "ok\nok\n",
        "log 0 0 104\n5 begin 5 0 21\n26 commit 5 5 21\n52 end 5 26 21\n73 checkpoint 0 0 31\n",
    ),
    // behind the live transactions' ends
    (
        "t begin",
        "ok\n",
        "log 0 0 78\n5 begin 5 0 21\n26 end 5 5 21\n47 checkpoint 0 0 31\n",
    ),
    // one that is asked for is in the log at once, with who is live
    (
        "t begin\nflush\ncheckpoint\nt abort",
        "ok\nok\nok\nok\n",
        "log 0 0 135\n5 begin 5 0 21\n31 checkpoint 0 0 47\n83 end 5 5 21\n104 checkpoint 0 0 31\n",
    ),
    // nothing is cut where a transaction goes on that began in the log's first frame
    (
        "t begin\nflush\ncheckpoint\ntruncate\nt abort",
        "ok\nok\nok\nok\nok\n",
        "log 0 0 135\n5 begin 5 0 21\n31 checkpoint 0 0 47\n83 end 5 5 21\n104 checkpoint 0 0 31\n",
    ),
    // by the word alone
    (
        "checkpoint\n  checkpoint \r\ncheckpoint now\nCheckpoint\ncheckpoints",
        "ok\nok\nerror syntax\nerror syntax\nerror syntax\n",
        "log 0 0 108\n5 checkpoint 0 0 31\n41 checkpoint 0 0 31\n77 checkpoint 0 0 31\n",
    ),
];

// Whether the log of a store is listed so.
fn lists(rt: &impl Host, disk: MemDisk, listing: &str) -> bool {
    let mut disk = disk;
    let mut sink = MemSink::new(rt.alloc(), None);
    write_log(rt.alloc(), &mut disk, &mut sink).is_ok() && sink.text() == listing.as_bytes()
}

// Whether a script over a new store is answered so, and leaves that log.
fn leaves(rt: &impl Host, script: &str, replies: &str, listing: &str) -> bool {
    match new_store(rt).and_then(|disk| done(rt, disk, script.as_bytes(), replies.as_bytes())) {
        Some(disk) => lists(rt, disk, listing),
        None => false,
    }
}

// The number of the first row that goes otherwise.
fn first_wrong(rt: &impl Host) -> Option<usize> {
    for (number, (script, replies, listing)) in ROWS.iter().enumerate() {
        if !leaves(rt, script, replies, listing) {
            return Some(number);
        }
    }
    None
}

#[test]
fn logs_end_with_a_checkpoint(rt: HostRuntime) {
    assert_eq!(rt; first_wrong(&rt), None);
}

// The log that a truncation leaves where no transaction goes on and all is home: it begins with the frame of the last checkpoint, in the
// other area.
const CUT: &str = "log 1 78 171\n83 end 5 5 21\n104 checkpoint 0 0 31\n140 checkpoint 0 0 31\n";

// The disk that the row with a truncation leaves, which cuts nothing.
fn uncut(rt: &impl Host) -> Option<MemDisk> {
    let (script, replies, _) = ROWS[4];
    done(rt, new_store(rt)?, script.as_bytes(), replies.as_bytes())
}

// Whether its log is cut so by a run with one line.
fn cut_goes(rt: &impl Host) -> Option<bool> {
    let cut = done(rt, uncut(rt)?, b"truncate", b"ok\n")?;
    Some(lists(rt, cut, CUT))
}

#[test]
fn a_log_is_cut_at_the_frame_of_its_last_checkpoint(rt: HostRuntime) {
    assert_eq!(rt; cut_goes(&rt), Some(true));
}

// The bytes of a log that has a checkpoint alone, up to the closed gate behind it: the gate and the length of the frame, and the
// record's kind, length, transaction, previous record, the number from which redo begins, which is its own, and how many are live.
const ALONE: [u8; 37] = [
    1, 31, 0, 0, 0, 12, 31, 0, 0, 0, 0, 0, 0, 0, 0, 0, 0, 0, 0, 0, 0, 0, 0, 0, 0, 0, 5, 0, 0, 0, 0,
    0, 0, 0, 0, 0, 0,
];

// Whether the log of a run without a line begins with these.
fn alone_goes(rt: &impl Host) -> Option<bool> {
    let disk = done(rt, new_store(rt)?, b"", b"")?;
    Some(disk.log0().starts_with(&ALONE))
}

#[test]
fn redo_begins_at_a_checkpoint_with_nothing_to_write_home(rt: HostRuntime) {
    assert_eq!(rt; alone_goes(&rt), Some(true));
}

// A store whose log can be cut: an item, all home, and a checkpoint behind it.
fn pushed(rt: &impl Host) -> Option<MemDisk> {
    done(
        rt,
        new_store(rt)?,
        b"p begin\np make array a 3\np push a abc\np commit\nflush\ncheckpoint",
        b"ok\nok\nok 0\nok\nok\nok\n",
    )
}

// What a crash leaves of a run that truncates the log of a copy of a store, and that is stopped after so many calls.
fn cut_stopped(rt: &impl Host, store: &MemDisk, calls: u64, pick: u64) -> Option<MemDisk> {
    let left = run_stopped(rt, copy_of(rt, store)?, b"truncate", calls)?;
    Some(left.disk.crash(pick))
}

// Whether the objects are written so behind such a stop, whatever became of the last call's bytes.
fn cut_keeps(rt: &impl Host, store: &MemDisk, calls: u64, text: &[u8]) -> bool {
    for pick in 0..4u64 {
        let is_kept = match cut_stopped(rt, store, calls, pick) {
            Some(disk) => looks_so(rt, disk, "dump", text),
            None => false,
        };
        if !is_kept {
            return false;
        }
    }
    true
}

// The first number of calls that goes otherwise, up to the number that a whole run makes.
fn first_wrong_of_cuts(rt: &impl Host, store: &MemDisk, text: &[u8]) -> Option<u64> {
    let left = run(rt, copy_of(rt, store)?, b"truncate")?;
    for n in 0..left.disk.call_count() {
        if !cut_keeps(rt, store, n, text) {
            return Some(n);
        }
    }
    None
}

// The same over a store that is there, and whose objects are written so.
fn cuts_go(rt: &impl Host, store: Option<MemDisk>, text: &[u8]) -> bool {
    match store {
        Some(store) => {
            cut_keeps(rt, &store, u64::MAX, text) && first_wrong_of_cuts(rt, &store, text) == None
        }
        None => false,
    }
}

#[test]
fn a_truncation_that_is_stopped_leaves_the_objects(rt: HostRuntime) {
    assert!(rt; cuts_go(&rt, pushed(&rt), b"array a 3 1\n 0 abc\nobjects 1\n"));
    assert!(rt; cuts_go(&rt, uncut(&rt), b"objects 0\n"));
}
