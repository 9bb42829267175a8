// Images that no run left: a log that begins near the greatest number of a transaction, and one that names an operation that isn't there.
use crate::objects::SIZES;
use crate::trial::{Host, new_store_of, run_goes, run_in_pieces};
use sg_disk::MemDisk;
use sg_top::Status;

// A store without objects whose log has no record, and begins at 2^62 + 1: the superblock has that number from byte 36 on, the least byte first.
fn far_store(rt: &impl Host) -> Option<MemDisk> {
    let mut home = new_store_of(rt, &SIZES)?.home().to_vec(rt.alloc()).ok()?;
    if home.len() > 43 {
        home[36] = 1;
        home[43] = 0x40;
    }
    Some(MemDisk::of(rt.alloc(), home, Vec::new(rt.alloc()), Vec::new(rt.alloc())))
}

// Whether a begin is refused there, and the run ends as ever.
fn far_goes(rt: &impl Host) -> Option<bool> {
    let disk = far_store(rt)?;
    Some(run_goes(rt, disk, b"t begin", Status::Done, b"error log-end\n"))
}

#[test]
fn no_transaction_begins_near_the_end_of_the_log(rt: HostRuntime) {
    assert_eq!(rt; far_goes(&rt), Some(true));
}

// A frame with a begin, and a change of page 1 by the operation with code 9.
const UNKNOWN: [u8; 61] = [
    1, 56, 0, 0, 0, 1, 21, 0, 0, 0, 5, 0, 0, 0, 0, 0, 0, 0, 0, 0, 0, 0, 0, 0, 0, 0, 2, 35, 0, 0, 0,
    5, 0, 0, 0, 0, 0, 0, 0, 5, 0, 0, 0, 0, 0, 0, 0, 1, 0, 0, 0, 6, 0, 0, 9, 0, 0, 0, 1, 0, 1,
];

// A store with that log.
fn unknown_store(rt: &impl Host) -> Option<MemDisk> {
    let home = new_store_of(rt, &SIZES)?.home().to_vec(rt.alloc()).ok()?;
    let log0 = UNKNOWN.to_vec(rt.alloc()).ok()?;
    Some(MemDisk::of(rt.alloc(), home, log0, Vec::new(rt.alloc())))
}

// How these words end over it, where they write nothing, neither to the sink nor to the disk.
fn end_of(rt: &impl Host, words: &str) -> Option<Status> {
    let left = run_in_pieces(rt, words, unknown_store(rt)?, b"t begin", 8)?;
    let is_quiet = left.replies().is_empty() && left.disk.log0() == UNKNOWN.as_slice();
    if is_quiet { Some(left.status) } else { None }
}

#[test]
fn an_operation_that_is_not_there_is_told(rt: HostRuntime) {
    for words in ["run store", "dump store", "check store"] {
        assert_eq!(rt; end_of(&rt, words), Some(Status::UnknownOperation(9)));
    }
}
