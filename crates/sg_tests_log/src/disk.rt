use sg_disk::{Area, Call, CallKind, Disk, Fuse, MemDisk};
use std::alloc::{AllocError, Global};
use std::test::Fail;

// The calls of a disk stand in the functions below, which promise nothing: a test that makes them sees plain values,
// and its proof carries none of the clauses of `Disk`.
fn read(disk: &mut impl Disk, area: Area, at: u16) -> Option<[u8; 4]> {
    let mut into = [5; 4];
    match disk.read_at(area, at as u64, &mut into) {
        Ok(()) => Some(into),
        Err(_) => None,
    }
}

fn write(disk: &mut impl Disk, area: Area, at: u16, bytes: &[u8]) -> bool {
    bytes.len() <= 8 && disk.write_at(area, at as u64, bytes).is_ok()
}

fn drop_from(disk: &mut impl Disk, area: Area, at: u16) -> bool {
    disk.drop_from(area, at as u64).is_ok()
}

fn sync(disk: &mut impl Disk, area: Area) -> bool {
    disk.sync(area).is_ok()
}

// Makes one call of each kind on the first log area, and answers which went well: read, write, drop, sync.
fn each_call(disk: &mut impl Disk) -> [bool; 4] {
    [
        read(disk, Area::Log0, 0).is_some(),
        write(disk, Area::Log0, 0, &[1]),
        drop_from(disk, Area::Log0, 4),
        sync(disk, Area::Log0),
    ]
}

// How many calls a disk has answered, and how many of them failed.
fn counts(disk: &MemDisk) -> (u64, u64) {
    (disk.call_count(), disk.fault_count())
}

fn fail(disk: &mut MemDisk, kind: CallKind, nth: u64) {
    disk.fail(kind, nth);
}

fn disk_of(alloc: Global, log0: Vec<u8>) -> MemDisk {
    MemDisk::of(alloc, Vec::new(alloc), log0, Vec::new(alloc))
}

// 8 bytes of 7 in the first log area, nothing pending.
fn sevens(alloc: Global) -> Result<MemDisk, AllocError> {
    let log0 = [7; 8].to_vec(alloc)?;
    Ok(disk_of(alloc, log0))
}

// Whether a crash leaves these bytes of the first log area.
fn leaves(disk: MemDisk, pick: u64, left: &[u8; 8]) -> bool {
    disk.crash(pick).log0() == left.as_slice()
}

// Whether two writes are read, and what was never written reads 0.
fn reads_what_is_written(disk: &mut MemDisk) -> bool {
    write(disk, Area::Home, 2, &[1, 2, 3])
        && write(disk, Area::Log1, 0, &[9])
        && disk.home() == [0, 0, 1, 2, 3].as_slice()
        && read(disk, Area::Home, 3) == Some([2, 3, 0, 0])
        && read(disk, Area::Log0, 1000) == Some([0; 4])
}

fn drops_and_syncs(disk: &mut MemDisk) -> bool {
    drop_from(disk, Area::Home, 3)
        && disk.home() == [0, 0, 1].as_slice()
        && sync(disk, Area::Home)
        && disk.log0().is_empty()
        && disk.log1() == [9].as_slice()
}

// Whether the latest call was a sync of the area `Home`.
fn has_synced_home(disk: &MemDisk) -> bool {
    matches!(
        disk.calls_made().front(),
        Some(Call::Sync { area: Area::Home })
    )
}

// Whether six calls are counted, and the four that changed something are kept.
fn has_six_calls(disk: &MemDisk) -> bool {
    counts(disk) == (6, 0) && disk.calls_made().len() == 4 && has_synced_home(disk)
}

// Whether a new disk answers each call, says what it should of reads and writes, of what follows, and of the calls made.
fn answers_each_call(alloc: Global) -> [bool; 3] {
    let mut disk = MemDisk::new(alloc);
    [
        reads_what_is_written(&mut disk),
        drops_and_syncs(&mut disk),
        has_six_calls(&disk),
    ]
}

#[test]
fn each_call_once(rt: HostRuntime) {
    assert_eq!(rt; answers_each_call(rt.alloc()), [true; 3]);
}

// Has the second call of each kind fail, where a later number takes the place of one before it.
fn fail_each_second(disk: &mut MemDisk) {
    fail(disk, CallKind::Read, 9);
    fail(disk, CallKind::Read, 2);
    fail(disk, CallKind::Write, 2);
    fail(disk, CallKind::Drop, 2);
    fail(disk, CallKind::Sync, 2);
}

fn each_call_thrice(disk: &mut MemDisk) -> [[bool; 4]; 3] {
    [each_call(disk), each_call(disk), each_call(disk)]
}

// Whether of each kind the second call fails, and the third goes well.
fn fails_each_second(disk: &mut MemDisk) -> bool {
    fail_each_second(disk);
    each_call_thrice(disk) == [[true; 4], [false; 4], [true; 4]]
        && counts(disk) == (12, 4)
        && disk.log0() == [1, 7, 7, 7].as_slice()
}

// Whether the next sync goes well, which was to fail until that was taken away.
fn fails_no_more(disk: &mut MemDisk) -> bool {
    fail(disk, CallKind::Sync, 1);
    fail(disk, CallKind::Sync, 0);
    sync(disk, Area::Log0)
}

fn faults_fall_once(alloc: Global) -> Result<bool, AllocError> {
    let mut disk = sevens(alloc)?;
    Ok(fails_each_second(&mut disk) && fails_no_more(&mut disk))
}

#[test]
fn each_fault_once(rt: HostRuntime) -> Result<(), Fail> {
    assert!(rt; faults_fall_once(rt.alloc())?);
    Ok(())
}

// A write that is synced, another one over it that isn't, and a sync of another area.
fn writes_twice(disk: &mut MemDisk) -> bool {
    write(disk, Area::Log0, 0, &[1, 1, 1, 1])
        && sync(disk, Area::Log0)
        && write(disk, Area::Log0, 2, &[2, 2, 2, 2])
        && sync(disk, Area::Home)
}

// Whether a crash behind them leaves these bytes.
fn is_left_of_writes(alloc: Global, pick: u64, left: &[u8; 8]) -> Result<bool, AllocError> {
    let mut disk = sevens(alloc)?;
    Ok(writes_twice(&mut disk) && leaves(disk, pick, left))
}

// What a crash picks, and what it leaves. The lowest two bits belong to the sync of another area, the next two to the write.
const LEFT: [(u64, [u8; 8]); 4] = [
    (0, [1, 1, 2, 2, 2, 2, 7, 7]),
    (4, [1, 1, 1, 1, 7, 7, 7, 7]),
    (8, [1, 1, 253, 253, 253, 253, 7, 7]),
    (12, [1, 1, 2, 2, 7, 7, 7, 7]),
];

// The first row of which a crash leaves something else.
fn first_left(alloc: Global) -> Result<Option<usize>, AllocError> {
    for (i, (pick, left)) in LEFT.iter().enumerate() {
        if !is_left_of_writes(alloc, *pick, left)? {
            return Ok(Some(i));
        }
    }
    Ok(None)
}

#[test]
fn a_crash_spoils_an_unsynced_write(rt: HostRuntime) -> Result<(), Fail> {
    assert_eq!(rt; first_left(rt.alloc())?, None);
    Ok(())
}

// A drop, and a write that fails.
fn drops_and_fails(disk: &mut MemDisk) -> bool {
    let went = drop_from(disk, Area::Log0, 6);
    fail(disk, CallKind::Write, 1);
    went && !write(disk, Area::Log0, 0, &[1, 1]) && disk.log0() == [7; 6].as_slice()
}

fn is_left_of_drop(alloc: Global) -> Result<bool, AllocError> {
    let mut disk = sevens(alloc)?;
    Ok(drops_and_fails(&mut disk) && leaves(disk, 2 + 4, &[248, 248, 7, 7, 7, 7, 7, 7]))
}

// What was dropped can come back, and the range of a write that failed can hold anything.
#[test]
fn a_crash_spoils_a_drop_and_a_failed_write(rt: HostRuntime) -> Result<(), Fail> {
    assert!(rt; is_left_of_drop(rt.alloc())?);
    Ok(())
}

// One call of each kind through a fuse that passes so many: which went well, how many it refused, and how many the disk counts.
fn through_a_fuse(disk: MemDisk, passes: u64) -> ([bool; 4], u64, u64) {
    let mut fuse = Fuse::new(disk, Some(passes));
    let passed = each_call(&mut fuse);
    let refused = fuse.refused();
    (passed, refused, fuse.into_inner().call_count())
}

fn stopped_after(alloc: Global, passes: u64) -> Result<([bool; 4], u64, u64), AllocError> {
    Ok(through_a_fuse(sevens(alloc)?, passes))
}

// Whether a fuse without a number passes a call.
fn passes_all(disk: MemDisk) -> bool {
    let mut open = Fuse::new(disk, None);
    sync(&mut open, Area::Log0)
}

fn an_open_fuse_passes(alloc: Global) -> Result<bool, AllocError> {
    Ok(passes_all(sevens(alloc)?))
}

// The first number of calls after which a fuse stops otherwise: those past it never reach the disk.
fn first_stopped(alloc: Global) -> Result<Option<u64>, AllocError> {
    for passes in 0..6u64 {
        let passed = [passes > 0, passes > 1, passes > 2, passes > 3];
        let refused = 4u64.saturating_sub(passes);
        if stopped_after(alloc, passes)? != (passed, refused, passes.min(4)) {
            return Ok(Some(passes));
        }
    }
    Ok(None)
}

#[test]
fn a_fuse_stops_after_each_number_of_calls(rt: HostRuntime) -> Result<(), Fail> {
    assert_eq!(rt; first_stopped(rt.alloc())?, None);
    assert!(rt; an_open_fuse_passes(rt.alloc())?);
    Ok(())
}
