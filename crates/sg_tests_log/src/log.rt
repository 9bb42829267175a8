ghost use Rattle.std.specs.Prelude.{◌≡◌, ◌⊎◌, ◌≤◌, IfOk, length};
ghost use Rattle.sg_base.specs.declared.area.Area.TheVariants.{Log0, Log1};
ghost use Rattle.sg_log.specs.Frames.{LOG_END};
ghost use Rattle.sg_record.specs.Ranges.{IsRecord};
ghost use Rattle.sg_record.specs.Shown.{shown};

use sg_base::{BandNo, Lsn, PageNo, TxnId};
use sg_disk::{Area, CallKind, Disk, Fuse, MemDisk};
use sg_log::{Log, LogFault, Place};
use sg_record::{BandBytes, PageChange, Rec, is_record};
use std::alloc::{AllocError, Global};
use std::test::Fail;

const BEGIN: Rec<'static> = Rec::Begin {
    txn: TxnId(5),
    prev: 0,
};

const COMMIT: Rec<'static> = Rec::Commit {
    txn: TxnId(5),
    prev: 5,
};

// A gate, the length 42, a begin and a commit of transaction 5, and a closed gate.
const FRAME: [u8; 48] = [
    1, 42, 0, 0, 0, 1, 21, 0, 0, 0, 5, 0, 0, 0, 0, 0, 0, 0, 0, 0, 0, 0, 0, 0, 0, 0, 10, 21, 0, 0,
    0, 5, 0, 0, 0, 0, 0, 0, 0, 5, 0, 0, 0, 0, 0, 0, 0, 0,
];

// A frame of mark 2 of transaction 7, whose record before it is 5.
const MARK_FRAME: [u8; 28] = [
    1, 23, 0, 0, 0, 9, 23, 0, 0, 0, 7, 0, 0, 0, 0, 0, 0, 0, 5, 0, 0, 0, 0, 0, 0, 0, 2, 0,
];

// A change of slot 2 of page 7 from one byte to another, by transaction 5.
const CHANGE: Rec<'static> = Rec::Page {
    txn: TxnId(5),
    prev: 5,
    change: PageChange {
        page: PageNo(7),
        operation: 4,
        slot: 2,
        code: 0,
        before: b"a",
        after: b"b",
    },
};

// The end of the action of which it is, with a note of one byte.
const ACTION_END: Rec<'static> = Rec::TopEnd {
    txn: TxnId(5),
    prev: 26,
    undo_next: 5,
    note: &[0],
};

// Both as bytes.
const ACTION: [u8; 68] = [
    2, 36, 0, 0, 0, 5, 0, 0, 0, 0, 0, 0, 0, 5, 0, 0, 0, 0, 0, 0, 0, 7, 0, 0, 0, 4, 2, 0, 0, 0, 1,
    0, 1, 0, b'a', b'b', 5, 32, 0, 0, 0, 5, 0, 0, 0, 0, 0, 0, 0, 26, 0, 0, 0, 0, 0, 0, 0, 5, 0, 0,
    0, 0, 0, 0, 0, 1, 0, 0,
];

// What a test has a log do: append a begin, a commit or a write of so many bytes of a band, or force.
#[derive(Clone, Copy)]
enum Step {
    Begin,
    Commit,
    Write(u32),
    Force,
}

fn letters(alloc: Global, count: usize) -> Result<Vec<u8>, LogFault>
    ensures { IfOk result (λ v. length v.items ≡ count) }
{
    many(alloc, count).map_err(|_| LogFault::Memory)
}

fn many(alloc: Global, count: usize) -> Result<Vec<u8>, AllocError>
    ensures { IfOk result (λ v. length v.items ≡ count) }
{
    vec![in alloc; b'a'; count]
}

// A log and its disk. All calls of the log stand in the functions below, which promise nothing: a test that makes them
// sees plain values, and its proof carries none of the log's clauses.
#[derive(Drop)]
struct Trial {
    alloc: Global,
    disk: MemDisk,
    log: Log,
}

impl Trial {
    fn attach(alloc: Global, disk: MemDisk, area: Area, base: Lsn) -> Result<Trial, LogFault>
        requires log_area { (area ≡ Log0) ⊎ (area ≡ Log1) }
        requires base { base ≤ LOG_END }
    {
        let mut disk = disk;
        let log = Log::attach(alloc, &mut disk, area, base)?;
        Ok(Trial { alloc, disk, log })
    }

    // The log in an empty area.
    fn new(alloc: Global) -> Result<Trial, LogFault> {
        Trial::attach(alloc, MemDisk::new(alloc), Area::Log0, 0)
    }

    // The same disk, with a log that is attached again.
    fn again(self) -> Result<Trial, LogFault> {
        let Trial { alloc, disk, .. } = self;
        Trial::attach(alloc, disk, Area::Log0, 0)
    }

    // Does a step, and answers the number of the record that it appended, if it did.
    fn step(&mut self, step: Step) -> Result<Option<Lsn>, LogFault> {
        match step {
            Step::Begin => self.append(&BEGIN),
            Step::Commit => self.append(&COMMIT),
            Step::Write(count) => self.append_write(count),
            Step::Force => self.force(),
        }
    }

    // Does the steps of some rows, and answers the place of the first row whose number, tail or count of calls is another.
    fn other(&mut self, rows: &[(Step, Option<Lsn>, Lsn, u64)]) -> Result<Option<usize>, LogFault> {
        for (i, (step, lsn, tail, calls)) in rows.iter().enumerate() {
            let answer = self.step(*step)?;
            if answer != *lsn || self.tail_and_calls() != (*tail, *calls) {
                return Ok(Some(i));
            }
        }
        Ok(None)
    }

    fn append(&mut self, r: &Rec<'_>) -> Result<Option<Lsn>, LogFault>
        requires { IsRecord (shown r.now) }
    {
        let lsn = self.log.append(&mut self.disk, r)?;
        Ok(Some(lsn))
    }

    // A write has 33 bytes, those before it and those after. One that is no record isn't appended.
    fn append_write(&mut self, count: u32) -> Result<Option<Lsn>, LogFault> {
        let bytes = letters(self.alloc, count as usize)?;
        let write = Rec::SegWrite {
            txn: TxnId(5),
            prev: 5,
            change: BandBytes {
                band: BandNo(3),
                at: 0,
                count,
                before: &bytes,
                after: &bytes,
            },
        };
        if !is_record(&write) {
            return Ok(None);
        }
        self.append(&write)
    }

    fn force(&mut self) -> Result<Option<Lsn>, LogFault> {
        self.log.force(&mut self.disk)?;
        Ok(None)
    }

    // The log's end with the buffer.
    fn tail(&self) -> Lsn {
        self.log.tail()
    }

    // The same, and how many calls the disk has answered.
    fn tail_and_calls(&self) -> (Lsn, u64) {
        (self.tail(), self.disk.call_count())
    }

    fn home(&self) -> &[u8] {
        self.disk.home()
    }

    fn log0(&self) -> &[u8] {
        self.disk.log0()
    }

    fn log1(&self) -> &[u8] {
        self.disk.log1()
    }

    fn first(&mut self) -> Result<Option<Place>, LogFault> {
        self.log.first(&mut self.disk)
    }

    fn next(&mut self, place: Place) -> Result<Option<Place>, LogFault> {
        self.log.next(&mut self.disk, place)
    }

    // Where the records stand, the first 9 of them.
    fn walk(&mut self) -> Result<Vec<Place>, Fail> {
        let mut places = Vec::new(self.alloc);
        let mut next = self.first()?;
        for _ in 0..9 {
            if let Some(place) = next {
                places.push(place)?;
                next = self.next(place)?;
            }
        }
        Ok(places)
    }

    // Whether the records stand at these places, up to 9 of them.
    fn walks(&mut self, places: &[Place]) -> Result<bool, Fail> {
        let walked = self.walk()?;
        Ok(walked.as_slice() == places)
    }

    // The record at this number, as bytes, and none where `read` answers `Disk`.
    fn read(&mut self, at: Lsn) -> Result<Vec<u8>, LogFault> {
        let mut into = letters(self.alloc, 16_417)?;
        let size = match self.log.read(&mut self.disk, at, &mut into) {
            Ok(size) => size,
            Err(LogFault::Disk) => 0,
            Err(fault) => return Err(fault),
        };
        into.truncate(size);
        Ok(into)
    }

    // Whether the record at this number has these bytes; none where `read` answers `Disk`.
    fn reads(&mut self, at: Lsn, text: &[u8]) -> Result<bool, LogFault> {
        let bytes = self.read(at)?;
        Ok(bytes.as_slice() == text)
    }

    // Cuts the log at a durable byte, and answers whether it is one.
    fn cut(&mut self, point: Lsn) -> Result<bool, LogFault> {
        let durable = self.log.base() <= point && point < self.log.durable();
        if durable {
            self.log.cut(&mut self.disk, point)?;
        }
        Ok(durable)
    }

    // Whether the log stands in this area from this number on, how far it is durable, and its end with the buffer.
    fn stands(&self, area: Area, base: Lsn, durable: Lsn, tail: Lsn) -> bool {
        self.log.area() == area
            && self.log.base() == base
            && self.log.durable() == durable
            && self.log.tail() == tail
    }

    // Cuts at 60 through a fuse, and answers whether that went well, and what a crash leaves.
    fn cut_stopped(self, passes: u64, pick: u64) -> (bool, MemDisk) {
        let Trial { disk, log, .. } = self;
        let mut log = log;
        let mut fuse = Fuse::new(disk, Some(passes));
        let done = log.base() <= 60 && 60 < log.durable() && log.cut(&mut fuse, 60).is_ok();
        (done, fuse.into_inner().crash(pick))
    }

    // Forces through a fuse, and answers whether that went well, and what a crash leaves.
    fn force_stopped(self, passes: u64, pick: u64) -> (bool, MemDisk) {
        let Trial { disk, log, .. } = self;
        let mut log = log;
        let mut fuse = Fuse::new(disk, Some(passes));
        let done = log.force(&mut fuse).is_ok();
        (done, fuse.into_inner().crash(pick))
    }
}

fn place(lsn: Lsn, frame_end: Lsn) -> Place {
    Place { lsn, frame_end }
}

// The disk with these bytes in its first log area.
fn disk_of(alloc: Global, log0: Vec<u8>) -> MemDisk {
    MemDisk::of(alloc, Vec::new(alloc), log0, Vec::new(alloc))
}

// The frame of two records, and these bytes behind it.
fn behind_a_frame(alloc: Global, bytes: &[u8]) -> Result<Vec<u8>, AllocError> {
    let mut log0 = FRAME[..47].to_vec(alloc)?;
    log0.extend_from_slice(bytes)?;
    Ok(log0)
}

// The bytes from there on.
fn behind(bytes: &[u8], at: usize) -> &[u8] {
    if at <= bytes.len() { &bytes[at..] } else { &[] }
}

// Puts another byte there.
fn spoil(bytes: &mut [u8], at: usize, byte: u8) {
    if at < bytes.len() {
        bytes[at] = byte;
    }
}

// Where attaching finds a damage, if it does.
fn damage(alloc: Global, log0: Vec<u8>, base: Lsn) -> Result<Option<u64>, LogFault>
    requires { base ≤ LOG_END }
{
    match Trial::attach(alloc, disk_of(alloc, log0), Area::Log0, base) {
        Ok(_) => Ok(None),
        Err(LogFault::Damaged { at }) => Ok(Some(at)),
        Err(fault) => Err(fault),
    }
}

// Two records are one frame, and a force of none makes no call.
fn is_one_frame(alloc: Global) -> Result<bool, LogFault> {
    let mut trial = Trial::new(alloc)?;
    let first = trial.tail_and_calls();
    let other = trial.other(&[
        (Step::Begin, Some(5), 26, 1),
        (Step::Commit, Some(26), 47, 1),
        (Step::Force, None, 47, 5),
        (Step::Force, None, 47, 5),
        (Step::Begin, Some(52), 73, 5),
    ])?;
    Ok(
        first == (0, 1)
            && other.is_none()
            && trial.log0() == FRAME.as_slice()
            && trial.home().is_empty(),
    )
}

#[test]
fn one_commit_is_one_frame(rt: HostRuntime) -> Result<(), Fail> {
    assert!(rt; is_one_frame(rt.alloc())?);
    Ok(())
}

// Appends a begin and an action of a page, and answers their numbers.
fn append_action(trial: &mut Trial) -> Result<[Option<Lsn>; 3], LogFault> {
    let begin = trial.append(&BEGIN)?;
    let change = trial.append(&CHANGE)?;
    let end = trial.append(&ACTION_END)?;
    Ok([begin, change, end])
}

// Whether each record of the action is read at its number.
fn reads_the_action(trial: &mut Trial) -> Result<bool, LogFault> {
    let change = trial.reads(26, &ACTION[..36])?;
    let end = trial.reads(62, &ACTION[36..])?;
    Ok(change && end)
}

// Whether an action of a page is read where it waits, and where it is a frame, and is found again.
fn holds_an_action(alloc: Global) -> Result<bool, LogFault> {
    let mut trial = Trial::new(alloc)?;
    let numbers = append_action(&mut trial)?;
    let waiting = reads_the_action(&mut trial)?;
    trial.step(Step::Force)?;
    let mut again = trial.again()?;
    let durable = reads_the_action(&mut again)?;
    Ok(
        numbers == [Some(5), Some(26), Some(62)]
            && waiting
            && durable
            && again.tail() == 94
            && again.log0().starts_with(&[1, 89, 0, 0, 0, 1, 21])
            && again
                .log0()
                .ends_with(&[5, 0, 0, 0, 0, 0, 0, 0, 1, 0, 0, 0]),
    )
}

#[test]
fn an_action_of_a_page_is_held(rt: HostRuntime) -> Result<(), Fail> {
    assert!(rt; holds_an_action(rt.alloc())?);
    Ok(())
}

// Appends a begin and forces: its number, and the log's end then.
fn begun(trial: &mut Trial) -> Result<(Option<Lsn>, Lsn), LogFault> {
    let lsn = trial.step(Step::Begin)?;
    trial.step(Step::Force)?;
    Ok((lsn, trial.tail()))
}

// Whether each number has the base in it, and the other area has nothing.
fn has_base(alloc: Global) -> Result<bool, LogFault> {
    let mut trial = Trial::attach(alloc, MemDisk::new(alloc), Area::Log1, 1000)?;
    let (lsn, tail) = begun(&mut trial)?;
    Ok(lsn == Some(1005) && tail == 1026 && trial.log1().len() == 27 && trial.log0().is_empty())
}

#[test]
fn a_base_is_added_to_each_number(rt: HostRuntime) -> Result<(), Fail> {
    assert!(rt; has_base(rt.alloc())?);
    Ok(())
}

// A log with two records that wait.
fn with_two(alloc: Global) -> Result<Trial, LogFault> {
    let mut trial = Trial::new(alloc)?;
    append_two(&mut trial)?;
    Ok(trial)
}

fn append_two(trial: &mut Trial) -> Result<(), LogFault> {
    trial.step(Step::Begin)?;
    trial.step(Step::Commit)?;
    Ok(())
}

// Forces through a fuse, and answers whether that went well, whether the frame is there after a crash, and whether it
// is whole then.
fn after_a_stop(alloc: Global, passes: u64, pick: u64) -> Result<(bool, bool, bool), LogFault> {
    let trial = with_two(alloc)?;
    let (done, left) = trial.force_stopped(passes, pick);
    let again = Trial::attach(alloc, left, Area::Log0, 0)?;
    let there = again.log.durable() == 47;
    let whole = !there || again.log0() == FRAME.as_slice();
    Ok((done, there, whole))
}

// With each crash the frame is there whole or its gate is closed; it is there from the fourth call on.
#[test]
fn a_stopped_force_leaves_the_frame_or_none(rt: HostRuntime) -> Result<(), Fail> {
    let alloc = rt.alloc();
    for passes in 0..5u64 {
        for pick in 0..4u64 {
            let there = passes == 4 || passes == 3 && pick == 0;
            assert!(rt; after_a_stop(alloc, passes, pick)? == (passes == 4, there, true));
        }
    }
    Ok(())
}

// Whether each record of the two frames is read at its number, and nothing where none stands.
fn reads_the_frames(trial: &mut Trial) -> Result<bool, LogFault> {
    let begin = trial.reads(1005, &FRAME[5..26])?;
    let commit = trial.reads(1026, &FRAME[26..47])?;
    let mark = trial.reads(1052, &MARK_FRAME[5..])?;
    let none = trial.reads(1047, &[])? && trial.reads(1080, &[])?;
    Ok(begin && commit && mark && none)
}

// Whether a commit that waits behind them is found and read.
fn reads_a_waiting_commit(trial: &mut Trial) -> Result<bool, LogFault> {
    let lsn = trial.step(Step::Commit)?;
    let next = trial.next(place(1052, 1075))?;
    let commit = trial.reads(1080, &FRAME[26..47])?;
    Ok(lsn == Some(1080) && next == Some(place(1080, 1101)) && commit)
}

// A log at base 1000 over two frames, a closed gate, and bytes that no gate stands before.
fn over_two_frames(alloc: Global) -> Result<Trial, Fail> {
    let mut log0 = behind_a_frame(alloc, &MARK_FRAME)?;
    log0.extend_from_slice(&[0, 1, 21, 0, 0, 0])?;
    Ok(Trial::attach(alloc, disk_of(alloc, log0), Area::Log0, 1000)?)
}

fn reads_each_record(trial: &mut Trial) -> Result<bool, Fail> {
    let is_at_its_end = trial.tail_and_calls() == (1075, 5)
        && trial.log.base() == 1000
        && trial.log.durable() == 1075
        && trial.log.area() == Area::Log0;
    let walks = trial.walks(&[place(1005, 1047), place(1026, 1047), place(1052, 1075)])?;
    let durable = reads_the_frames(trial)?;
    let waiting = reads_a_waiting_commit(trial)?;
    Ok(is_at_its_end && walks && durable && waiting)
}

fn reads_two_frames(alloc: Global) -> Result<bool, Fail> {
    let mut trial = over_two_frames(alloc)?;
    reads_each_record(&mut trial)
}

#[test]
fn a_log_is_read_record_by_record(rt: HostRuntime) -> Result<(), Fail> {
    assert!(rt; reads_two_frames(rt.alloc())?);
    Ok(())
}

// Whether what waits is walked through, once it is there, without a call of the disk.
fn walks_the_buffer(trial: &mut Trial) -> Result<bool, Fail> {
    let none = trial.first()?;
    append_two(trial)?;
    let walks = trial.walks(&[place(5, 47), place(26, 47)])?;
    Ok(none.is_none() && walks && trial.disk.call_count() == 1)
}

fn walks_a_new_buffer(alloc: Global) -> Result<bool, Fail> {
    let mut trial = Trial::new(alloc)?;
    walks_the_buffer(&mut trial)
}

#[test]
fn a_walk_goes_through_the_buffer(rt: HostRuntime) -> Result<(), Fail> {
    assert!(rt; walks_a_new_buffer(rt.alloc())?);
    Ok(())
}

// The mark's frame, which begins at offset 47, with another byte at an offset: each time it isn't formed.
const SPOILT: [[u8; 2]; 9] = [
    // no length
    [48, 0],
    // a kind that isn't, or whose fields these aren't, and a record's length that its kind hasn't or that leads behind the body
    [52, 13],
    [52, 2],
    [52, 10],
    [53, 20],
    [53, 22],
    [53, 24],
    // a record that leaves a byte of the body, and a body that ends in its record
    [48, 24],
    [48, 22],
];

// The place of the first of these with which no damage is found at the frame.
fn found_elsewhere(alloc: Global, spoilt: &[[u8; 2]]) -> Result<Option<usize>, Fail> {
    for (i, [at, byte]) in spoilt.iter().enumerate() {
        let mut log0 = behind_a_frame(alloc, &MARK_FRAME)?;
        spoil(&mut log0, usize::from(*at), *byte);
        if damage(alloc, log0, 0)? != Some(47) {
            return Ok(Some(i));
        }
    }
    Ok(None)
}

// Where a damage is found behind a frame, if it is, where a length above 65,536 stands there.
fn long_damage(alloc: Global) -> Result<Option<u64>, Fail> {
    let log0 = behind_a_frame(alloc, &[1, 1, 0, 1, 0])?;
    Ok(damage(alloc, log0, 0)?)
}

// Where a damage is found in an area with this base that has the mark's frame, if it is.
fn mark_damage(alloc: Global, base: Lsn) -> Result<Option<u64>, Fail>
    requires { base ≤ LOG_END }
{
    let log0 = behind_a_frame(alloc, &MARK_FRAME)?;
    Ok(damage(alloc, log0, base)?)
}

// The same with base 0, with one at which the frame ends at 2^63, and with one at which it ends behind that.
fn mark_damages(alloc: Global) -> Result<(Option<u64>, Option<u64>, Option<u64>), Fail> {
    let low = mark_damage(alloc, 0)?;
    let last = mark_damage(alloc, (1 << 63) - 75)?;
    let behind = mark_damage(alloc, (1 << 63) - 74)?;
    Ok((low, last, behind))
}

#[test]
fn a_frame_that_is_not_formed_is_a_damage(rt: HostRuntime) -> Result<(), Fail> {
    let alloc = rt.alloc();
    assert!(rt; long_damage(alloc)? == Some(47));
    assert!(rt; found_elsewhere(alloc, &SPOILT)?.is_none());
    // the frame as it is
    assert!(rt; mark_damages(alloc)? == (None, None, Some(47)));
    Ok(())
}

// The log over a frame and what this gate makes of a second one.
fn with_gate(alloc: Global, gate: u8) -> Result<Trial, Fail> {
    let mut log0 = behind_a_frame(alloc, &MARK_FRAME)?;
    spoil(&mut log0, 47, gate);
    Ok(Trial::attach(alloc, disk_of(alloc, log0), Area::Log0, 0)?)
}

// Whether the record behind the first frame is a begin at 52, up to which the log goes.
fn has_begin_behind(trial: &mut Trial) -> Result<bool, LogFault> {
    let next = trial.next(place(26, 47))?;
    let is_begin = trial.reads(52, &FRAME[5..26])?;
    Ok(trial.tail() == 73 && next == Some(place(52, 73)) && is_begin)
}

// Whether a frame is written over what stands behind this gate, and is read there.
fn is_written_over(alloc: Global, gate: u8) -> Result<bool, Fail> {
    let mut trial = with_gate(alloc, gate)?;
    let tail = trial.tail();
    let written = begun(&mut trial)?;
    let mut again = trial.again()?;
    let found = has_begin_behind(&mut again)?;
    Ok(tail == 47 && written == (Some(52), 73) && found)
}

// A gate that isn't 1 is closed: what stands behind it isn't read, and the next frame takes its place.
#[test]
fn a_closed_gate_ends_the_log(rt: HostRuntime) -> Result<(), Fail> {
    let alloc = rt.alloc();
    for gate in [0, 2, 255] {
        assert!(rt; is_written_over(alloc, gate)?);
    }
    Ok(())
}

// Whether records fill the buffer up, and one that doesn't fit it has it forced and begins another frame. The greatest
// record is read again.
fn begins_another_frame(alloc: Global) -> Result<bool, LogFault> {
    let mut trial = Trial::new(alloc)?;
    let other = trial.other(&[
        (Step::Begin, Some(5), 26, 1),
        (Step::Write(8_192), Some(26), 16_443, 1),
        (Step::Write(8_192), Some(16_443), 32_860, 1),
        (Step::Write(8_192), Some(32_860), 49_277, 1),
        (Step::Commit, Some(49_277), 49_298, 1),
        (Step::Write(8_105), Some(49_298), 65_541, 1),
        (Step::Write(8_192), Some(65_546), 81_963, 5),
    ])?;
    let durable = trial.read(16_443)?.len();
    let waiting = trial.read(65_546)?.len();
    let bytes = trial.log0();
    let framed = bytes.len() == 65_542 && bytes.starts_with(&[1, 0, 0, 1, 0]);
    Ok(other.is_none() && framed && durable == 16_417 && waiting == 16_417)
}

#[test]
fn a_record_that_does_not_fit_begins_another_frame(rt: HostRuntime) -> Result<(), Fail> {
    assert!(rt; begins_another_frame(rt.alloc())?);
    Ok(())
}

// What a force answers whose nth sync fails, and how many faults the disk has counted then.
fn failed_force(alloc: Global, nth: u64) -> Result<(Result<Option<Lsn>, LogFault>, u64), LogFault> {
    let mut trial = Trial::new(alloc)?;
    trial.step(Step::Begin)?;
    trial.disk.fail(CallKind::Sync, nth);
    let answer = trial.step(Step::Force);
    Ok((answer, trial.disk.fault_count()))
}

// Whether an attach answers `Disk` where its first read fails.
fn attach_fails(alloc: Global) -> bool {
    let mut disk = MemDisk::new(alloc);
    disk.fail(CallKind::Read, 1);
    matches!(
        Trial::attach(alloc, disk, Area::Log0, 0),
        Err(LogFault::Disk)
    )
}

#[test]
fn a_fault_of_the_disk_is_handed_on(rt: HostRuntime) -> Result<(), Fail> {
    let alloc = rt.alloc();
    for nth in 1..3u64 {
        assert!(rt; failed_force(alloc, nth)? == (Err(LogFault::Disk), 1));
    }
    assert!(rt; attach_fails(alloc));
    Ok(())
}

// Does the steps of some rows, and answers the place of the first row that is answered otherwise.
fn answers_otherwise(
    trial: &mut Trial,
    rows: &[(Step, Result<Option<Lsn>, LogFault>)],
) -> Option<usize> {
    for (i, (step, answer)) in rows.iter().enumerate() {
        if trial.step(*step) != *answer {
            return Some(i);
        }
    }
    None
}

// Whether the last record ends at 2^63.
fn ends_at_its_end(alloc: Global) -> Result<bool, LogFault> {
    let mut trial = Trial::attach(alloc, MemDisk::new(alloc), Area::Log0, (1 << 63) - 47)?;
    let other = answers_otherwise(
        &mut trial,
        &[
            (Step::Begin, Ok(Some((1 << 63) - 42))),
            (Step::Commit, Ok(Some((1 << 63) - 21))),
            (Step::Commit, Err(LogFault::LogEnd)),
            (Step::Force, Ok(None)),
            (Step::Commit, Err(LogFault::LogEnd)),
        ],
    );
    Ok(other.is_none() && trial.tail() == 1 << 63 && trial.log0().len() == 48)
}

#[test]
fn no_record_ends_behind_the_logs_end(rt: HostRuntime) -> Result<(), Fail> {
    assert!(rt; ends_at_its_end(rt.alloc())?);
    Ok(())
}

// Three frames, whose gates are 0, 47 and 94, the closed gate 141 behind them, and a begin that waits.
fn with_three_frames(alloc: Global) -> Result<Trial, LogFault> {
    let mut trial = Trial::new(alloc)?;
    for _ in 0..3 {
        append_two(&mut trial)?;
        trial.force()?;
    }
    trial.step(Step::Begin)?;
    Ok(trial)
}

fn three_frames(alloc: Global) -> Result<Vec<u8>, AllocError> {
    let mut bytes = Vec::new(alloc);
    for _ in 0..3 {
        bytes.extend_from_slice(&FRAME[..47])?;
    }
    bytes.push(0)?;
    Ok(bytes)
}

// Whether a cut at this point leaves the log from this number on, in so many calls.
fn is_cut(alloc: Global, point: Lsn, base: Lsn, calls: u64) -> Result<bool, Fail> {
    let mut trial = with_three_frames(alloc)?;
    let whole = three_frames(alloc)?;
    let before = trial.disk.call_count();
    let cut = trial.cut(point)?;
    let (area, copied) = if base == 0 {
        (Area::Log0, behind(&whole, 142))
    } else {
        (Area::Log1, behind(&whole, base as usize))
    };
    Ok(
        cut && trial.stands(area, base, 141, 167)
            && trial.log1() == copied
            && trial.log0() == whole.as_slice()
            && before.checked_add(calls) == Some(trial.disk.call_count()),
    )
}

// Each is read by its length, up to the one that holds the point; then the other area is dropped, and the rest copied and synced.
#[test]
fn a_cut_copies_the_frames_from_the_point_on(rt: HostRuntime) -> Result<(), Fail> {
    let alloc = rt.alloc();
    let rows = [
        (0, 0, 1),
        (46, 0, 1),
        (47, 47, 6),
        (93, 47, 6),
        (94, 94, 7),
        (140, 94, 7),
    ];
    for (point, base, calls) in rows {
        assert!(rt; is_cut(alloc, point, base, calls)?);
    }
    Ok(())
}

// What waited is appended behind the frames that were copied, and all is found where the log is attached again.
fn goes_on_when_cut(alloc: Global) -> Result<bool, Fail> {
    let mut trial = with_three_frames(alloc)?;
    if !trial.cut(60)? {
        return Ok(false);
    }
    trial.force()?;
    let Trial { alloc, disk, .. } = trial;
    let mut again = Trial::attach(alloc, disk, Area::Log1, 47)?;
    let places = [
        place(52, 94),
        place(73, 94),
        place(99, 141),
        place(120, 141),
        place(146, 167),
    ];
    Ok(again.stands(Area::Log1, 47, 167, 167) && again.walks(&places)?)
}

#[test]
fn a_log_goes_on_when_it_is_cut(rt: HostRuntime) -> Result<(), Fail> {
    assert!(rt; goes_on_when_cut(rt.alloc())?);
    Ok(())
}

// Cuts through a fuse, and answers whether that went well, whether the old area is whole after a crash, and whether the new one
// has the log from 47 on.
fn after_a_stopped_cut(alloc: Global, passes: u64, pick: u64) -> Result<(bool, bool, bool), Fail> {
    let (done, left) = with_three_frames(alloc)?.cut_stopped(passes, pick);
    let whole = three_frames(alloc)?;
    let old = left.log0() == whole.as_slice();
    let new = left.log1() == behind(&whole, 47);
    Ok((done, old, new))
}

#[test]
fn a_stopped_cut_leaves_the_old_log(rt: HostRuntime) -> Result<(), Fail> {
    let alloc = rt.alloc();
    for passes in 0..7u64 {
        for pick in 0..4u64 {
            let (done, old, new) = after_a_stopped_cut(alloc, passes, pick)?;
            assert!(rt; done == (passes == 6) && old && (new || !done));
        }
    }
    Ok(())
}
