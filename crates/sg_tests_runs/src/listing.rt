// The log of a store, listed by the program.
use crate::trial::{Host, Left, copy_of, done, new_store, run_from, run_in_pieces};
use sg_base::{Area, MemSource};
use sg_disk::{CallKind, MemDisk};
use sg_top::Status;

// The log of a run with one commit: the frame that the commit forces, and that of the transaction's end and of the checkpoint with
// which a run ends. A frame has 5 bytes before its records; these have 21 here, and the checkpoint 10 more.
const COMMIT: &[u8] =
    b"log 0 0 104\n5 begin 5 0 21\n26 commit 5 5 21\n52 end 5 26 21\n73 checkpoint 0 0 31\n";

// What a listing of the log of a disk leaves, whose source may not be read. The sink's n-th call fails where n is given.
fn listed(rt: &impl Host, disk: &MemDisk, sink_fails: Option<u64>) -> Option<Left> {
    let disk = copy_of(rt, disk)?;
    let mut source = MemSource::new(Vec::new(rt.alloc()), 8, Some(1));
    run_from(rt, "log store", disk, &mut source, sink_fails)
}

// Whether the listing ends so with this text, and wrote nothing to the disk.
fn lists(rt: &impl Host, disk: &MemDisk, status: Status, text: &[u8]) -> bool {
    match listed(rt, disk, None) {
        Some(left) => left.is(status, text) && left.disk.calls_made().is_empty(),
        None => false,
    }
}

// The disk of a store that the program made, and that of the same behind a commit.
fn made(rt: &impl Host) -> Option<MemDisk> {
    let left = run_in_pieces(rt, "init store", MemDisk::new(rt.alloc()), b"", 8)?;
    Some(left.disk)
}

fn committed(rt: &impl Host) -> Option<MemDisk> {
    done(rt, made(rt)?, b"t begin\nt commit", b"ok\nok\n")
}

// Whether a new store has no records, and one with a commit those of it.
fn listings_go(rt: &impl Host) -> Option<[bool; 2]> {
    let new = made(rt)?;
    let old = committed(rt)?;
    Some([
        lists(rt, &new, Status::Done, b"log 0 0 0\n"),
        lists(rt, &old, Status::Done, COMMIT),
    ])
}

#[test]
fn the_records_of_a_store_are_listed(rt: HostRuntime) {
    assert_eq!(rt; listings_go(&rt), Some([true, true]));
}

// Whether zeros are no store, and a superblock with a wrong magic is told with its place.
fn refusals_go(rt: &impl Host) -> Option<[bool; 2]> {
    let none = MemDisk::new(rt.alloc());
    let store = new_store(rt)?;
    let mut home = store.home().to_vec(rt.alloc()).ok()?;
    if home.len() > 1 {
        home[1] = 0;
    }
    let spoiled = MemDisk::of(rt.alloc(), home, Vec::new(rt.alloc()), Vec::new(rt.alloc()));
    Some([
        lists(rt, &none, Status::NotAStore, b""),
        lists(rt, &spoiled, Status::Damaged(Area::Home, 1), b""),
    ])
}

#[test]
fn a_store_that_has_no_log_is_told(rt: HostRuntime) {
    assert_eq!(rt; refusals_go(&rt), Some([true, true]));
}

// How a listing ends where the sink's second call fails.
fn cut_by_sink(rt: &impl Host) -> Option<bool> {
    let left = listed(rt, &committed(rt)?, Some(2))?;
    Some(left.is(Status::Write, b"log 0 0 104\n"))
}

// And where the disk's first read does.
fn cut_by_disk(rt: &impl Host) -> Option<bool> {
    let mut disk = committed(rt)?;
    disk.fail(CallKind::Read, 1);
    let left = run_in_pieces(rt, "log store", disk, b"", 8)?;
    Some(left.is(Status::Disk, b""))
}

#[test]
fn what_fails_in_a_listing_is_told(rt: HostRuntime) {
    assert_eq!(rt; cut_by_sink(&rt), Some(true));
    assert_eq!(rt; cut_by_disk(&rt), Some(true));
}
