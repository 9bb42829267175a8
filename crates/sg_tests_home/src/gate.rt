use sg_base::{BandNo, PageNo};
use sg_disk::{Area, Disk, Fuse, MemDisk};
use sg_gate::{
    GateFault, Super, band_start, finish, lay_over, page_start, place, place_start, read_super,
    renew, shut_batch,
};
use std::alloc::Global;
use std::test::Fail;

const NUMBERS: [u32; 2] = [3, 0];

// The byte at this offset, and 0 behind the end.
fn byte_at(bytes: &[u8], at: usize) -> u8 {
    match bytes.get(at) {
        Some(byte) => *byte,
        None => 0,
    }
}

// The bytes of the store that the tests look at, once an open batch has been laid over: the first and
// the last byte of pages 3 and 0, one of page 1, one of a band, and one of the superblock.
fn seen(disk: &mut MemDisk) -> Result<[u8; 7], Fail> {
    lay_over(disk, 64)?;
    let home = disk.home();
    Ok([
        byte_at(home, 155_648),
        byte_at(home, 159_743),
        byte_at(home, 143_360),
        byte_at(home, 147_455),
        byte_at(home, 147_456),
        byte_at(home, 405_504),
        byte_at(home, 5_000),
    ])
}

// A store with bytes in each of these places, and two pages at their double-write places, not synced.
fn with_places(alloc: Global) -> Result<MemDisk, Fail> {
    let mut disk = MemDisk::new(alloc);
    disk.write_at(Area::Home, 155_648, &[9; 4_096])?;
    disk.write_at(Area::Home, 143_360, &[5; 4_097])?;
    disk.write_at(Area::Home, 405_504, &[6])?;
    disk.write_at(Area::Home, 5_000, &[4])?;
    disk.sync(Area::Home)?;
    place(&mut disk, 0, &[7; 4_096])?;
    place(&mut disk, 1, &[8; 4_096])?;
    Ok(disk)
}

const OLD: [u8; 7] = [9, 9, 5, 5, 5, 6, 4];

const NEW: [u8; 7] = [7, 7, 8, 8, 5, 6, 4];

// What a crash leaves after so many calls of `finish`, and whether it had ended.
fn stopped(alloc: Global, passes: u64, pick: u64) -> Result<(MemDisk, bool), Fail> {
    let mut fuse = Fuse::new(with_places(alloc)?, Some(passes));
    let done = finish(&mut fuse, 64, &NUMBERS).is_ok();
    Ok((fuse.into_inner().crash(pick), done))
}

// It makes 11 calls. The gate is opened by the third: from the fourth on, its sync, the batch is there.
#[test]
fn a_stopped_batch_is_there_whole_or_not_at_all(rt: HostRuntime) -> Result<(), Fail> {
    let alloc = rt.alloc();
    for passes in 0..12u64 {
        for pick in 0..4u64 {
            let (mut left, done) = stopped(alloc, passes, pick)?;
            assert_eq!(rt; done, passes == 11);
            let found = seen(&mut left)?;
            let opened = passes > 3 || passes == 3 && pick == 0;
            assert_eq!(rt; found, if opened { NEW } else { OLD });
        }
    }
    Ok(())
}

// What a crash leaves of an open batch after so many calls of `lay_over`, and whether that had ended.
fn stopped_laying(alloc: Global, passes: u64, pick: u64) -> Result<(MemDisk, bool), Fail> {
    let (open, _done) = stopped(alloc, 4, 0)?;
    let mut fuse = Fuse::new(open, Some(passes));
    let done = lay_over(&mut fuse, 64).is_ok();
    Ok((fuse.into_inner().crash(pick), done))
}

// It makes 8 calls: a read of the header, a read and a write for each of two pages, and the last three.
#[test]
fn a_stopped_laying_over_can_be_done_again(rt: HostRuntime) -> Result<(), Fail> {
    let alloc = rt.alloc();
    for passes in 0..9u64 {
        for pick in 0..4u64 {
            let (mut left, done) = stopped_laying(alloc, passes, pick)?;
            assert_eq!(rt; done, passes == 8);
            assert_eq!(rt; seen(&mut left)?, NEW);
        }
    }
    Ok(())
}

// What a crash leaves of an open batch after so many calls of `shut_batch`, and whether that had ended.
fn stopped_shutting(alloc: Global, passes: u64, pick: u64) -> Result<(MemDisk, bool), Fail> {
    let (open, _done) = stopped(alloc, 4, 0)?;
    let mut fuse = Fuse::new(open, Some(passes));
    let done = shut_batch(&mut fuse).is_ok();
    Ok((fuse.into_inner().crash(pick), done))
}

// It makes 3 calls, of which the second closes the gate: from its sync on no batch is there.
#[test]
fn a_batch_is_shut_by_three_calls(rt: HostRuntime) -> Result<(), Fail> {
    let alloc = rt.alloc();
    for passes in 0..4u64 {
        for pick in 0..4u64 {
            let (mut left, done) = stopped_shutting(alloc, passes, pick)?;
            assert_eq!(rt; done, passes == 3);
            let found = seen(&mut left)?;
            assert!(rt; found == OLD && passes > 1 || found == NEW && passes < 3);
        }
    }
    let mut shut = Fuse::new(with_places(alloc)?, Some(1));
    assert!(rt; shut_batch(&mut shut).is_ok());
    Ok(())
}

// What a crash leaves after so many calls of one `place`, and whether that had ended.
fn stopped_placing(alloc: Global, passes: u64, pick: u64) -> Result<(MemDisk, bool), Fail> {
    let mut fuse = Fuse::new(with_places(alloc)?, Some(passes));
    let done = place(&mut fuse, 31, &[3; 4_096]).is_ok();
    Ok((fuse.into_inner().crash(pick), done))
}

#[test]
fn a_stopped_place_leaves_the_store(rt: HostRuntime) -> Result<(), Fail> {
    let alloc = rt.alloc();
    for passes in 0..2u64 {
        for pick in 0..4u64 {
            let (mut left, done) = stopped_placing(alloc, passes, pick)?;
            assert_eq!(rt; done, passes == 1);
            assert_eq!(rt; seen(&mut left)?, OLD);
        }
    }
    Ok(())
}

// The bytes of a home area that has this header alone.
fn home_with(alloc: Global, header: &[u8]) -> Result<Vec<u8>, Fail> {
    let mut home = [0; 8_192].to_vec(alloc)?;
    home.extend_from_slice(header)?;
    Ok(home)
}

// What laying over answers for such a home area, in a store of 64 pages, and whether no byte changed.
fn laid_with(alloc: Global, header: &[u8]) -> Result<(Result<(), GateFault>, bool), Fail> {
    let home = home_with(alloc, header)?;
    let mut disk = MemDisk::of(alloc, home, Vec::new(alloc), Vec::new(alloc));
    let answer = lay_over(&mut disk, 64);
    let same = disk.home() == home_with(alloc, header)?.as_slice();
    Ok((answer, same))
}

const DAMAGES: [(&[u8], u64); 6] = [
    (&[1, 0, 0, 0, 0], 8_193),
    (&[1, 33, 0, 0, 0, 1, 0, 0, 0], 8_193),
    (&[1, 1, 0, 0, 0, 64, 0, 0, 0], 8_197),
    (&[1, 2, 0, 0, 0, 63, 0, 0, 0, 63, 0, 0, 0], 8_201),
    (&[1, 3, 0, 0, 0, 1, 0, 0, 0, 0, 1, 0, 0, 1, 0, 0, 0], 8_201),
    (&[1, 3, 0, 0, 0, 1, 0, 0, 0, 2, 0, 0, 0, 1, 0, 0, 0], 8_205),
];

#[test]
fn a_damage_is_told_by_its_offset(rt: HostRuntime) -> Result<(), Fail> {
    for (header, at) in DAMAGES {
        let (answer, same) = laid_with(rt.alloc(), header)?;
        assert_eq!(rt; answer, Err(GateFault::Damaged { at }));
        assert!(rt; same);
    }
    let (answer, same) = laid_with(rt.alloc(), &[2, 0, 0, 0, 0])?;
    assert_eq!(rt; answer, Ok(()));
    assert!(rt; same);
    Ok(())
}

// The offsets of place 31, of page 3, and of band 1 behind 64 pages.
#[test]
fn the_home_area_has_its_parts_in_order(rt: HostRuntime) {
    assert_eq!(rt; place_start(31), 139_264);
    assert_eq!(rt; page_start(PageNo(3)), 155_648);
    assert_eq!(rt; band_start(64, BandNo(1)), 438_272);
}

// The superblock of a new store, and two that follow it.
const FIRST: Super = Super {
    sequence: 1,
    pages: 16_384,
    bands: 1_024,
    frames: 256,
    windows: 32,
    log: 0,
    base: 0,
};

const SECOND: Super = Super {
    sequence: 2,
    pages: 16_384,
    bands: 1_024,
    frames: 256,
    windows: 32,
    log: 1,
    base: 70_000,
};

const THIRD: Super = Super {
    sequence: 300,
    pages: 64,
    bands: 4,
    frames: 32,
    windows: 4,
    log: 1,
    base: 9_223_372_036_854_775_808,
};

// The bytes of a slot that has the first of them.
const SLOT: [u8; 44] = [
    1, b'S', b'T', b'A', b'S', b'I', b'S', b'S', b'G', 1, 0, 1, 0, 0, 0, 0, 0, 0, 0, 0, 64, 0, 0,
    0, 4, 0, 0, 0, 1, 0, 0, 32, 0, 0, 0, 0, 0, 0, 0, 0, 0, 0, 0, 0,
];

// What a disk reads on which so many of them were written, one after another.
fn nth_super(times: u64) -> Result<Super, GateFault> {
    match times {
        0 => Err(GateFault::NotAStore),
        1 => Ok(FIRST),
        2 => Ok(SECOND),
        _ => Ok(THIRD),
    }
}

// Writes the next one.
fn renew_after<D: Disk>(disk: &mut D, times: u64) -> Result<(), GateFault> {
    match times {
        0 => renew(disk, &FIRST),
        1 => renew(disk, &SECOND),
        _ => renew(disk, &THIRD),
    }
}

fn renewed(alloc: Global, times: u64) -> Result<MemDisk, Fail> {
    let mut disk = MemDisk::new(alloc);
    for before in 0..times {
        renew_after(&mut disk, before)?;
    }
    Ok(disk)
}

// What is read after one renewal more, that was stopped after so many calls, and a crash; and whether it
// had ended.
fn stopped_renewal(
    alloc: Global,
    times: u64,
    passes: u64,
    pick: u64,
) -> Result<(Result<Super, GateFault>, bool), Fail> {
    let mut fuse = Fuse::new(renewed(alloc, times)?, Some(passes));
    let done = renew_after(&mut fuse, times).is_ok();
    let mut left = fuse.into_inner().crash(pick);
    Ok((read_super(&mut left), done))
}

// The first two renewals find the other slot closed and make 6 calls. The third closes a gate first, by
// two calls more. Each opens the gate by its last call but one.
#[test]
fn a_stopped_renewal_leaves_the_old_superblock_or_the_new_one(rt: HostRuntime) -> Result<(), Fail> {
    let alloc = rt.alloc();
    for times in 0..3u64 {
        let calls = if times == 2 { 8 } else { 6 };
        for passes in 0..9u64 {
            for pick in 0..4u64 {
                let (read, done) = stopped_renewal(alloc, times, passes, pick)?;
                assert_eq!(rt; done, passes >= calls);
                let opened = done || passes + 1 == calls && pick == 0;
                assert_eq!(rt; read, nth_super(if opened { times + 1 } else { times }));
            }
        }
    }
    Ok(())
}

#[test]
fn a_superblock_has_its_bytes(rt: HostRuntime) -> Result<(), Fail> {
    let disk = renewed(rt.alloc(), 1)?;
    assert_eq!(rt; disk.home(), SLOT.as_slice());
    Ok(())
}

// What is read of a home area whose slots have the bytes of the first one, with these in their place from
// an offset of the area on.
fn read_with(alloc: Global, at: usize, bytes: &[u8]) -> Result<Result<Super, GateFault>, Fail> {
    let mut home = SLOT.to_vec(alloc)?;
    home.extend_from_slice(&[0; 4_052])?;
    home.extend_from_slice(&SLOT)?;
    for (i, byte) in bytes.iter().enumerate() {
        if let Some(place) = home.get_mut(at.saturating_add(i)) {
            *place = *byte;
        }
    }
    let mut disk = MemDisk::of(alloc, home, Vec::new(alloc), Vec::new(alloc));
    Ok(read_super(&mut disk))
}

// Each field just out of its range, and which offset is told. The first slot counts, and in the last row
// the second one, whose sequence is 2 there.
const WRONG: [(usize, &[u8], u64); 16] = [
    (1, &[b'T'], 1),
    (9, &[2, 0], 9),
    (9, &[1, 1], 9),
    (11, &[255, 255, 255, 255, 255, 255, 255, 255], 11),
    (19, &[63, 0, 0, 0], 19),
    (19, &[1, 0, 16, 0], 19),
    (23, &[3, 0, 0, 0], 23),
    (23, &[1, 0, 1, 0], 23),
    (19, &[0, 0, 16, 0, 4, 0, 0, 0], 23),
    (27, &[31, 0, 0, 0], 27),
    (27, &[1, 64, 0, 0], 27),
    (31, &[3, 0, 0, 0], 31),
    (31, &[1, 1, 0, 0], 31),
    (35, &[2], 35),
    (36, &[1, 0, 0, 0, 0, 0, 0, 128], 36),
    (4_107, &[2, 0, 0, 0, 0, 0, 0, 0, 63, 0], 4_115),
];

#[test]
fn a_field_out_of_its_range_is_told(rt: HostRuntime) -> Result<(), Fail> {
    for (at, bytes, wrong) in WRONG {
        let read = read_with(rt.alloc(), at, bytes)?;
        assert_eq!(rt; read, Err(GateFault::Damaged { at: wrong }));
    }
    assert_eq!(rt; read_with(rt.alloc(), 4_097, &[0])?, Ok(FIRST));
    Ok(())
}

// What a read answers that is stopped after so many calls.
fn stopped_read(alloc: Global, passes: u64) -> Result<Result<Super, GateFault>, Fail> {
    let mut fuse = Fuse::new(renewed(alloc, 3)?, Some(passes));
    Ok(read_super(&mut fuse))
}

#[test]
fn a_superblock_is_read_by_two_calls(rt: HostRuntime) -> Result<(), Fail> {
    for passes in 0..2u64 {
        let read = stopped_read(rt.alloc(), passes)?;
        assert_eq!(rt; read, Err(GateFault::Disk));
    }
    assert_eq!(rt; stopped_read(rt.alloc(), 2)?, nth_super(3));
    Ok(())
}
