use crate::table::{LISTING_OF_EACH_KIND, OF_A_COMMIT, OF_A_CUT, OF_EACH_KIND, OF_PAGE_64};
use sg_base::{Area, MemSink};
use sg_disk::{CallKind, MemDisk};
use sg_inspect::{InspectFault, write_log};
use std::alloc::{AllocError, Global};
use std::test::Fail;

// The bytes of a superblock with 64 pages and 4 bands behind an open gate, whose log begins in the first area.
const SUPERBLOCK: [u8; 44] = [
    1, b'S', b'T', b'A', b'S', b'I', b'S', b'S', b'G', 1, 0, 1, 0, 0, 0, 0, 0, 0, 0, 64, 0, 0, 0,
    4, 0, 0, 0, 32, 0, 0, 0, 4, 0, 0, 0, 0, 0, 0, 0, 0, 0, 0, 0, 0,
];

// A disk with these bytes, nothing pending.
fn disk_of(alloc: Global, home: &[u8], log0: &[u8], log1: &[u8]) -> Result<MemDisk, AllocError> {
    let home = Vec::from_slice(alloc, home)?;
    let log0 = Vec::from_slice(alloc, log0)?;
    let log1 = Vec::from_slice(alloc, log1)?;
    Ok(MemDisk::of(alloc, home, log0, log1))
}

// A store with this log.
fn store_of(alloc: Global, log0: &[u8]) -> Result<MemDisk, AllocError> {
    disk_of(alloc, &SUPERBLOCK, log0, &[])
}

// A home area whose superblock in the first slot has this byte in place of the one there.
fn with_byte(at: usize, byte: u8) -> [u8; 44] {
    let mut home = SUPERBLOCK;
    if at < 44 {
        home[at] = byte;
    }
    home
}

// Whether the listing is this text, and nothing was written to the disk.
fn lists(alloc: Global, disk: &mut MemDisk, text: &[u8]) -> bool {
    let mut sink = MemSink::new(alloc, None);
    write_log(alloc, disk, &mut sink).is_ok() && sink.text() == text && disk.calls_made().is_empty()
}

// Whether a store isn't listed for this reason, and nothing was written to the disk and the sink.
fn refuses(alloc: Global, disk: &mut MemDisk, fault: InspectFault) -> bool {
    let mut sink = MemSink::new(alloc, None);
    write_log(alloc, disk, &mut sink) == Err(fault)
        && sink.text().is_empty()
        && disk.calls_made().is_empty()
}

#[test]
fn a_new_store_has_no_records(rt: HostRuntime) -> Result<(), Fail> {
    let mut disk = store_of(rt.alloc(), &[])?;
    assert!(rt; lists(rt.alloc(), &mut disk, b"log 0 0 0\n"));
    Ok(())
}

#[test]
fn a_commit_is_listed(rt: HostRuntime) -> Result<(), Fail> {
    let mut disk = store_of(rt.alloc(), &OF_A_COMMIT)?;
    let text = b"log 0 0 73\n5 begin 5 0 21\n26 commit 5 5 21\n52 end 5 26 21\n";
    assert!(rt; lists(rt.alloc(), &mut disk, text));
    Ok(())
}

#[test]
fn each_kind_is_listed(rt: HostRuntime) -> Result<(), Fail> {
    let mut disk = store_of(rt.alloc(), &OF_EACH_KIND)?;
    assert!(rt; lists(rt.alloc(), &mut disk, LISTING_OF_EACH_KIND));
    Ok(())
}

// The home area of a store that was renewed once: the second slot has the greater sequence, and says that the log is in the second area
// and begins at byte 78.
fn renewed(alloc: Global) -> Result<Vec<u8>, AllocError> {
    let mut home = Vec::from_slice(alloc, &SUPERBLOCK)?;
    home.resize(4_096, 0)?;
    home.extend_from_slice(&SUPERBLOCK)?;
    if home.len() == 4_140 {
        home[4_107] = 2;
        home[4_131] = 1;
        home[4_132] = 78;
    }
    Ok(home)
}

#[test]
fn a_log_that_was_cut_is_listed(rt: HostRuntime) -> Result<(), Fail> {
    let home = renewed(rt.alloc())?;
    let mut disk = disk_of(rt.alloc(), &home, &OF_A_COMMIT, &OF_A_CUT)?;
    let text = b"log 1 78 171\n83 end 5 5 21\n104 checkpoint 0 0 31\n140 checkpoint 0 0 31\n";
    assert!(rt; lists(rt.alloc(), &mut disk, text));
    Ok(())
}

#[test]
fn zeros_are_no_store(rt: HostRuntime) {
    let mut disk = MemDisk::new(rt.alloc());
    assert!(rt; refuses(rt.alloc(), &mut disk, InspectFault::NotAStore));
}

// Whether a store whose first slot has this byte in place of the one there is told as damaged there.
fn is_damaged_at(alloc: Global, at: usize, byte: u8) -> Result<bool, AllocError> {
    let mut disk = disk_of(alloc, &with_byte(at, byte), &[], &[])?;
    let fault = InspectFault::Damaged {
        area: Area::Home,
        at: at as u64,
    };
    Ok(refuses(alloc, &mut disk, fault))
}

// A wrong magic number, and 63 pages.
#[test]
fn a_damaged_superblock_is_told(rt: HostRuntime) -> Result<(), Fail> {
    assert!(rt; is_damaged_at(rt.alloc(), 1, b'T')?);
    assert!(rt; is_damaged_at(rt.alloc(), 19, 63)?);
    Ok(())
}

// A frame without a record, and a commit of a transaction that hasn't begun.
#[test]
fn a_damaged_log_is_told(rt: HostRuntime) -> Result<(), Fail> {
    let fault = InspectFault::Damaged {
        area: Area::Log0,
        at: 0,
    };
    let mut empty = store_of(rt.alloc(), &[1, 0, 0, 0, 0])?;
    assert!(rt; refuses(rt.alloc(), &mut empty, fault));
    let mut stray = store_of(rt.alloc(), &stray())?;
    assert!(rt; refuses(rt.alloc(), &mut stray, fault));
    Ok(())
}

// A frame of a commit alone.
fn stray() -> [u8; 26] {
    let mut log = [0; 26];
    log[0] = 1;
    log[1] = 21;
    log[5] = 10;
    log[6] = 21;
    log[10] = 1;
    log
}

#[test]
fn a_page_that_the_store_has_not_is_told(rt: HostRuntime) -> Result<(), Fail> {
    let mut disk = store_of(rt.alloc(), &OF_PAGE_64)?;
    let area = Area::Log0;
    assert!(rt;
        refuses(
            rt.alloc(),
            &mut disk,
            InspectFault::Damaged { area, at: 26 }
        )
    );
    Ok(())
}

// How the listing of a commit ends where a read of the disk fails, and what was written.
fn is_cut_by_disk(alloc: Global, nth: u64, text: &[u8]) -> Result<bool, AllocError> {
    let mut disk = store_of(alloc, &OF_A_COMMIT)?;
    disk.fail(CallKind::Read, nth);
    let mut sink = MemSink::new(alloc, None);
    let ended = write_log(alloc, &mut disk, &mut sink);
    Ok(ended == Err(InspectFault::Disk) && sink.text() == text)
}

// The log is read three times, with five calls each, behind two of the superblock.
#[test]
fn a_disk_that_fails_is_told(rt: HostRuntime) -> Result<(), Fail> {
    for nth in 1..13u64 {
        assert!(rt; is_cut_by_disk(rt.alloc(), nth, b"")?);
    }
    assert!(rt; is_cut_by_disk(rt.alloc(), 13, b"log 0 0 73\n")?);
    let text = b"log 0 0 73\n5 begin 5 0 21\n26 commit 5 5 21\n52 end 5 26 21\n";
    assert!(rt; is_cut_by_disk(rt.alloc(), 17, text)?);
    Ok(())
}

// How the listing of a commit ends where a write of the sink fails, and what was written before.
fn is_cut_by_sink(alloc: Global, nth: u64, text: &[u8]) -> Result<bool, AllocError> {
    let mut disk = store_of(alloc, &OF_A_COMMIT)?;
    let mut sink = MemSink::new(alloc, Some(nth));
    let ended = write_log(alloc, &mut disk, &mut sink);
    Ok(ended == Err(InspectFault::Sink) && sink.text() == text)
}

#[test]
fn a_sink_that_fails_is_told(rt: HostRuntime) -> Result<(), Fail> {
    assert!(rt; is_cut_by_sink(rt.alloc(), 1, b"")?);
    assert!(rt; is_cut_by_sink(rt.alloc(), 2, b"log 0 0 73\n")?);
    assert!(rt;
        is_cut_by_sink(
            rt.alloc(),
            4,
            b"log 0 0 73\n5 begin 5 0 21\n26 commit 5 5 21\n"
        )?
    );
    Ok(())
}
