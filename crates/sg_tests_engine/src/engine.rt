ghost use Rattle.std.specs.Prelude.{◌≤◌};
ghost use Rattle.sg_record.specs.Ranges.{IsRecord};
ghost use Rattle.sg_record.specs.Records.Says.{PhysComp};
ghost use Rattle.sg_record.specs.Shown.{by, shown, shown_change};
ghost use Rattle.sg_log.specs.Frames.{LOG_END};

use sg_base::{BandNo, Lsn, PageNo, TxnId, view};
use sg_disk::{Area, Fuse, MemDisk};
use sg_engine::{Engine, EngineFault};
use sg_gate::{Super, page_start, read_super, renew};
use sg_log::{Log, LogFault};
use sg_ops::Ops;
use sg_pool::{Pool, PoolFault};
use sg_record::{Change, Rec, decode};
use std::alloc::{AllocError, Global};
use std::test::Fail;

const PAGES: u32 = 64;

const STORE: Super = Super {
    sequence: 1,
    pages: PAGES,
    bands: 8,
    frames: 32,
    windows: 4,
    log: 0,
    base: 0,
};

// One record of each kind of change, one behind another, and one that changes nothing.
const RECORDS: [u8; 322] = [
    // Page 7 is formatted.
    2, 36, 0, 0, 0, 5, 0, 0, 0, 0, 0, 0, 0, 26, 0, 0, 0, 0, 0, 0, 0, 7, 0, 0, 0, 1, 0, 0, 0, 0, 1,
    0, 1, 0, 0, 1,
    // `xyz` is put into its slot 0.
    2, 37, 0, 0, 0, 5, 0, 0, 0, 0, 0, 0, 0, 26, 0, 0, 0, 0, 0, 0, 0, 7, 0, 0, 0, 2, 0, 0, 0, 0, 0,
    0, 3, 0, b'x', b'y', b'z',
    // Bytes 100 and 101 of band 3 become 3 and 4.
    3, 37, 0, 0, 0, 5, 0, 0, 0, 0, 0, 0, 0, 26, 0, 0, 0, 0, 0, 0, 0, 3, 0, 0, 0, 100, 0, 0, 0, 2,
    0, 0, 0, 0, 0, 3, 4,
    // A ramp of 9 at position 8, on bytes 256 to 259 of band 3.
    4, 50, 0, 0, 0, 5, 0, 0, 0, 0, 0, 0, 0, 26, 0, 0, 0, 0, 0, 0, 0, 3, 0, 0, 0, 0, 1, 0, 0, 4, 0,
    0, 0, 2, 0, 8, 0, 0, 0, 1, 0, 9, 4, 0, 0, 0, 0, 0, 0, 0,
    // Slot 0 of page 7 is removed, where a change is taken off.
    6, 43, 0, 0, 0, 5, 0, 0, 0, 0, 0, 0, 0, 26, 0, 0, 0, 0, 0, 0, 0, 5, 0, 0, 0, 0, 0, 0, 0, 2, 7,
    0, 0, 0, 3, 0, 0, 0, 0, 0, 0, 0, 0,
    // Bytes 100 and 101 become 1 and 2, where a change is taken off.
    6, 44, 0, 0, 0, 5, 0, 0, 0, 0, 0, 0, 0, 26, 0, 0, 0, 0, 0, 0, 0, 5, 0, 0, 0, 0, 0, 0, 0, 3, 3,
    0, 0, 0, 100, 0, 0, 0, 2, 0, 0, 0, 1, 2,
    // Zeros in bytes 256 and 257, where a change is taken off.
    6, 54, 0, 0, 0, 5, 0, 0, 0, 0, 0, 0, 0, 26, 0, 0, 0, 0, 0, 0, 0, 5, 0, 0, 0, 0, 0, 0, 0, 4, 3,
    0, 0, 0, 0, 1, 0, 0, 2, 0, 0, 0, 1, 0, 8, 0, 0, 0, 0, 0, 0, 0, 0, 0,
    // A transaction begins.
    1, 21, 0, 0, 0, 5, 0, 0, 0, 0, 0, 0, 0, 0, 0, 0, 0, 0, 0, 0, 0,
];

// An engine and the operations that its records name. Its calls promise nothing: a test that makes them sees
// plain values.
struct Trial {
    engine: Engine<Fuse<MemDisk>>,
    ops: Ops,
}

// Why a call of a trial stops.
#[derive(Clone, Copy, Debug, PartialEq, Eq)]
enum Stop {
    Engine(EngineFault),
    Memory,
    NoRecord,
    NoUnit,
    NoOperation,
}

impl From<EngineFault> for Stop {
    fn from(fault: EngineFault) -> Stop {
        Stop::Engine(fault)
    }
}

impl From<AllocError> for Stop {
    fn from(_fault: AllocError) -> Stop {
        Stop::Memory
    }
}

// Whether a page has that number and `xyz` in its slot 0.
fn is_filled(bytes: &[u8], lsn: Lsn) -> bool {
    match view(bytes) {
        Some(slots) => slots.lsn() == lsn && slots.slot(0) == Some(b"xyz"),
        None => false,
    }
}

impl Trial {
    // A store of zeros whose log begins with this number, of whose disk so many more calls pass, or all.
    fn new(alloc: Global, ops: Ops, base: Lsn, passes: Option<u64>) -> Result<Trial, Fail>
        requires { base ≤ LOG_END }
    {
        Trial::over(alloc, MemDisk::new(alloc), ops, base, passes)
    }

    // The same over this disk.
    fn over(
        alloc: Global,
        disk: MemDisk,
        ops: Ops,
        base: Lsn,
        passes: Option<u64>,
    ) -> Result<Trial, Fail>
        requires { base ≤ LOG_END }
    {
        let mut disk = disk;
        let log = Log::attach(alloc, &mut disk, Area::Log0, base)?;
        let pool = Pool::new(alloc, &STORE)?;
        let engine = Engine::of_parts(Fuse::new(disk, passes), log, pool);
        Ok(Trial { engine, ops })
    }

    fn end(self) -> Fuse<MemDisk> {
        let Trial { engine, ops: _ } = self;
        engine.into_disk()
    }

    // Does the first record of a text. Answers its number and its size.
    fn log(&mut self, text: &[u8]) -> Result<(Lsn, usize), Stop> {
        match decode(text) {
            Ok((rec, size)) => {
                let lsn = self.log_record(rec)?;
                Ok((lsn, size))
            }
            Err(_) => Err(Stop::NoRecord),
        }
    }

    fn log_record(&mut self, rec: Rec<'_>) -> Result<Lsn, Stop>
        requires { IsRecord (shown rec) }
    {
        match rec {
            Rec::Page { txn, prev, change } => {
                if change.page.0 >= self.engine.pages() {
                    return Err(Stop::NoUnit);
                }
                Ok(self.engine.log_page(txn, prev, change, &self.ops)?)
            }
            Rec::SegWrite { txn, prev, change } => {
                if change.band.0 >= self.engine.bands() {
                    return Err(Stop::NoUnit);
                }
                Ok(self.engine.log_write(txn, prev, change)?)
            }
            Rec::SegOp { txn, prev, change } => {
                if change.band.0 >= self.engine.bands() {
                    return Err(Stop::NoUnit);
                }
                if !self.ops.has_range(change.code) {
                    return Err(Stop::NoOperation);
                }
                Ok(self.engine.log_op(txn, prev, change, &self.ops)?)
            }
            Rec::PhysComp {
                txn,
                prev,
                undo_next,
                change,
            } => self.compensate(txn, prev, undo_next, change),
            _ => Ok(self.engine.append(&rec)?),
        }
    }

    fn compensate(
        &mut self,
        txn: TxnId,
        prev: Lsn,
        undo_next: Lsn,
        change: Change<'_>,
    ) -> Result<Lsn, Stop>
        requires { IsRecord (by txn.0 prev (PhysComp undo_next (shown_change change))) }
    {
        match change {
            Change::Page(change) => {
                if change.page.0 >= self.engine.pages() {
                    return Err(Stop::NoUnit);
                }
                Ok(
                    self.engine
                        .compensate_page(txn, prev, undo_next, change, &self.ops)?,
                )
            }
            Change::SegWrite(change) => {
                if change.band.0 >= self.engine.bands() {
                    return Err(Stop::NoUnit);
                }
                Ok(self.engine.compensate_write(txn, prev, undo_next, change)?)
            }
            Change::SegOp(change) => {
                if change.band.0 >= self.engine.bands() {
                    return Err(Stop::NoUnit);
                }
                if !self.ops.has_range(change.code) {
                    return Err(Stop::NoOperation);
                }
                Ok(
                    self.engine
                        .compensate_op(txn, prev, undo_next, change, &self.ops)?,
                )
            }
        }
    }

    // Does all records of a text of eight. Answers their numbers.
    fn log_all(&mut self, text: &[u8]) -> Result<[Lsn; 8], Stop> {
        let mut numbers = [0; 8];
        let mut rest = text;
        for number in numbers.iter_mut() {
            let (lsn, size) = self.log(rest)?;
            *number = lsn;
            rest = rest.get(size..).unwrap_or(&[]);
        }
        Ok(numbers)
    }

    // Does the first two records with another page. Answers the number of the second.
    fn fill(&mut self, p: u32) -> Result<Lsn, Stop> {
        let mut text = [0; 73];
        text.copy_from_slice(&RECORDS[..73]);
        text[21..25].copy_from_slice(&p.to_le_bytes());
        text[57..61].copy_from_slice(&p.to_le_bytes());
        self.log(&text)?;
        let (lsn, _size) = self.log(&text[36..])?;
        Ok(lsn)
    }

    // Copies page 7 and band 3.
    fn read(&mut self, page: &mut [u8; 4_096], band: &mut [u8; 32_768]) -> Result<(), Stop> {
        if self.engine.pages() <= 7 || self.engine.bands() <= 3 {
            return Err(Stop::NoUnit);
        }
        self.engine.read_page(PageNo(7), page)?;
        Ok(self.engine.read_band(BandNo(3), band)?)
    }

    // Whether the page reads as one that was filled so.
    fn has(&mut self, p: u32, lsn: Lsn) -> Result<bool, Stop> {
        if p >= self.engine.pages() {
            return Err(Stop::NoUnit);
        }
        self.engine.load_page(PageNo(p))?;
        Ok(is_filled(self.engine.page(PageNo(p)), lsn))
    }

    // Logs the records of each kind and those that fill page 9, each group in a frame, and flushes. Cuts the log at the second
    // frame then, if that one is there, and answers the superblock that counts and the number of page 9.
    fn cut_at_the_second_frame(&mut self) -> Result<(Super, Lsn), Stop> {
        self.log_all(&RECORDS)?;
        self.engine.force()?;
        let point = self.engine.durable();
        let number = self.fill(9)?;
        self.engine.flush()?;
        if self.engine.base() <= point && point < self.engine.durable() {
            Ok((self.engine.cut(&STORE, point)?, number))
        } else {
            Err(Stop::NoRecord)
        }
    }

    // The log's tail, where what is durable ends, and the redo point.
    fn points(&self) -> [Lsn; 3] {
        [
            self.engine.tail(),
            self.engine.durable(),
            self.engine.redo_point(),
        ]
    }
}

// What the records leave: their numbers; the page's number and its slot 0; the bytes of the band; and the points,
// before a force, behind it, and behind a flush.
#[derive(Clone, Copy)]
struct Left {
    numbers: [Lsn; 8],
    page: (Lsn, bool),
    bytes: ([u8; 2], [u8; 4]),
    points: [[Lsn; 3]; 3],
}

fn leave(trial: &mut Trial) -> Result<Left, Stop> {
    let numbers = trial.log_all(&RECORDS)?;
    let mut page = [0; 4_096];
    let mut band = [0; 32_768];
    trial.read(&mut page, &mut band)?;
    let before = trial.points();
    trial.engine.force()?;
    let behind = trial.points();
    trial.engine.flush()?;
    let page = match view(&page) {
        Some(slots) => (slots.lsn(), slots.slot(0).is_some()),
        None => (0, false),
    };
    Ok(Left {
        numbers,
        page,
        bytes: (
            [band[100], band[101]],
            [band[256], band[257], band[258], band[259]],
        ),
        points: [before, behind, trial.points()],
    })
}

#[test]
fn each_kind_of_record_is_numbered_and_done(rt: HostRuntime) -> Result<(), Fail> {
    let mut trial = Trial::new(rt.alloc(), Ops::shipped(rt.alloc())?, 0, None)?;
    let outcome = leave(&mut trial);
    trial.end();
    let left = outcome?;
    assert_eq!(rt; left.numbers, [5, 41, 78, 115, 165, 208, 252, 306]);
    assert_eq!(rt; left.page, (165, false));
    assert_eq!(rt; left.bytes, ([1, 2], [0, 0, 19, 20]));
    assert_eq!(rt; left.points, [[327, 0, 5], [327, 327, 5], [327, 327, 327]]);
    Ok(())
}

// Fills all pages, through half as many frames. Answers their numbers, and how many read as they were filled.
fn fill_all(trial: &mut Trial) -> Result<([Lsn; 64], u32), Stop> {
    let mut numbers = [0; 64];
    for (p, number) in numbers.iter_mut().enumerate() {
        *number = trial.fill(p as u32)?;
    }
    let mut count = 0u32;
    for (p, number) in numbers.iter().enumerate() {
        if trial.has(p as u32, *number)? {
            count = count.wrapping_add(1);
        }
    }
    trial.engine.flush()?;
    Ok((numbers, count))
}

// How many pages of the home area have these numbers, and are filled.
fn count_at_home(home: &[u8], numbers: &[Lsn; 64]) -> u32 {
    let mut count = 0u32;
    for (p, number) in numbers.iter().enumerate() {
        let start = page_start(PageNo(p as u32)) as usize;
        let page = home.get(start..).unwrap_or(&[]).get(..4_096).unwrap_or(&[]);
        if is_filled(page, *number) {
            count = count.wrapping_add(1);
        }
    }
    count
}

#[test]
fn pages_pass_through_fewer_frames_and_go_home(rt: HostRuntime) -> Result<(), Fail> {
    let mut trial = Trial::new(rt.alloc(), Ops::shipped(rt.alloc())?, 0, None)?;
    let outcome = fill_all(&mut trial);
    let disk = trial.end().into_inner();
    let (numbers, count) = outcome?;
    assert_eq!(rt; count, PAGES);
    assert_eq!(rt; count_at_home(disk.home(), &numbers), PAGES);
    Ok(())
}

// Whether the records, a force and a flush are answered by a fault, over a disk that passes so many calls; and
// how many it refused.
fn stopped(alloc: Global, passes: u64) -> Result<(bool, u64), Fail> {
    let mut trial = Trial::new(alloc, Ops::shipped(alloc)?, 0, Some(passes))?;
    let outcome = leave(&mut trial);
    let disk = trial.end();
    let answered = match outcome {
        Ok(_) => false,
        Err(stop) => stop == Stop::Engine(EngineFault::Disk),
    };
    Ok((answered, disk.refused()))
}

#[test]
fn a_refused_call_is_answered_by_a_fault(rt: HostRuntime) -> Result<(), Fail> {
    for passes in 0..40 {
        let (answered, refused) = stopped(rt.alloc(), passes)?;
        assert_eq!(rt; answered, refused > 0);
    }
    assert_eq!(rt; stopped(rt.alloc(), 0)?, (true, 1));
    assert_eq!(rt; stopped(rt.alloc(), 40)?, (false, 0));
    Ok(())
}

// 26 bytes in front of the end are room for the record of 21 bytes behind a gate and a length, and then no more.
#[test]
fn no_record_ends_behind_the_end_of_the_log(rt: HostRuntime) -> Result<(), Fail> {
    let base = 9_223_372_036_854_775_782;
    let mut trial = Trial::new(rt.alloc(), Ops::shipped(rt.alloc())?, base, None)?;
    let first = trial.log(&RECORDS[301..]);
    let second = trial.log(&RECORDS[301..]);
    let points = trial.points();
    trial.end();
    assert_eq!(rt; first, Ok((9_223_372_036_854_775_787, 21)));
    assert_eq!(rt; second, Err(Stop::Engine(EngineFault::LogEnd)));
    assert_eq!(rt; points[0], 9_223_372_036_854_775_808);
    Ok(())
}

// The superblock of the cut store.
const CUT: Super = Super {
    sequence: 2,
    pages: PAGES,
    bands: 8,
    frames: 32,
    windows: 4,
    log: 1,
    base: 327,
};

fn with_a_superblock(alloc: Global) -> Result<MemDisk, Fail> {
    let mut disk = MemDisk::new(alloc);
    renew(&mut disk, &STORE)?;
    Ok(disk)
}

// A cut store goes on with the same numbers, and its disk has the other area alone, from the second frame on.
#[test]
fn a_cut_store_goes_on(rt: HostRuntime) -> Result<(), Fail> {
    let alloc = rt.alloc();
    let disk = with_a_superblock(alloc)?;
    let mut trial = Trial::over(alloc, disk, Ops::shipped(alloc)?, 0, None)?;
    let outcome = trial.cut_at_the_second_frame();
    let points = trial.points();
    let filled = match outcome {
        Ok((_, number)) => trial.has(9, number),
        Err(stop) => Err(stop),
    };
    let mut disk = trial.end().into_inner();
    assert!(rt; outcome == Ok((CUT, 368)) && filled == Ok(true));
    assert_eq!(rt; points, [405, 405, 405]);
    assert!(rt; read_super(&mut disk) == Ok(CUT));
    assert_eq!(rt; (disk.log0().len(), disk.log1().len()), (0, 79));
    Ok(())
}

// Cuts over a disk that passes so many calls, and answers whether the superblock that a crash leaves names an area that has its
// records, and whether it is the cut store's.
fn after_a_stopped_cut(alloc: Global, passes: u64, pick: u64) -> Result<(bool, bool), Fail> {
    let disk = with_a_superblock(alloc)?;
    let mut trial = Trial::over(alloc, disk, Ops::shipped(alloc)?, 0, Some(passes))?;
    let outcome = trial.cut_at_the_second_frame();
    let mut left = trial.end().into_inner().crash(pick);
    let (area, tail) = match read_super(&mut left) {
        Ok(found) if found == CUT => (Area::Log1, 405),
        Ok(found) if found == STORE => (Area::Log0, 0),
        _ => return Ok((false, false)),
    };
    let is_cut = tail == 405;
    let base = if is_cut { 327 } else { 0 };
    let log = Log::attach(alloc, &mut left, area, base)?;
    Ok((
        log.durable() >= tail && (is_cut || outcome.is_err()),
        is_cut,
    ))
}

#[test]
fn a_stopped_cut_leaves_a_store(rt: HostRuntime) -> Result<(), Fail> {
    let mut cuts = 0u32;
    for passes in 20..60u64 {
        let (is_there, is_cut) = after_a_stopped_cut(rt.alloc(), passes, passes % 4)?;
        assert!(rt; is_there);
        cuts = cuts.wrapping_add(u32::from(is_cut));
    }
    assert!(rt; 0 < cuts && cuts < 40);
    Ok(())
}
