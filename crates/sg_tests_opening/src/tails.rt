// Bytes behind a log's end, and in a band's bytes that were on their way home at a crash: nobody reads either.
ghost use Rattle.std.specs.Prelude.{◌≡◌, ◌<◌};

use crate::stores::{GEOMETRY, Stop, anew, spoil, store};
use sg_base::{BandNo, Lsn, Steps, TxnId};
use sg_disk::{Area, Disk, MemDisk};
use sg_engine::Engine;
use sg_gate::band_start;
use sg_ops::Ops;
use sg_record::Rec;
use sg_reopen::{Started, Unopened, open_engine};
use std::alloc::Global;
use std::marker::Brand;
use std::sync::ledger::{Blank, Ledger};
use std::test::Fail;
use std::thread::Threads;

// A frame of a transaction that has committed, up to byte 124 of the log: its begin, with the number 5; a write of 1, 2 and 3 to
// bytes 100 to 102 of band 1; the end of this action, with the note that the blob `b` had no bytes; and the commit.
const FRAME: [u8; 124] = [
    1, 119, 0, 0, 0, 1, 21, 0, 0, 0, 5, 0, 0, 0, 0, 0, 0, 0, 0, 0, 0, 0, 0, 0, 0, 0, 3, 39, 0, 0,
    0, 5, 0, 0, 0, 0, 0, 0, 0, 5, 0, 0, 0, 0, 0, 0, 0, 1, 0, 0, 0, 100, 0, 0, 0, 3, 0, 0, 0, 0, 0,
    0, 1, 2, 3, 5, 38, 0, 0, 0, 5, 0, 0, 0, 0, 0, 0, 0, 26, 0, 0, 0, 0, 0, 0, 0, 5, 0, 0, 0, 0, 0,
    0, 0, 7, 0, 9, 1, b'b', 0, 0, 0, 0, 10, 21, 0, 0, 0, 5, 0, 0, 0, 0, 0, 0, 0, 65, 0, 0, 0, 0, 0,
    0, 0,
];

// A transaction that changes nothing, behind that frame: its records are 21 bytes each.
const BEGIN: Rec<'static> = Rec::Begin {
    txn: TxnId(129),
    prev: 0,
};

const COMMIT: Rec<'static> = Rec::Commit {
    txn: TxnId(129),
    prev: 129,
};

// Where the bytes stand at home that the frame's write is of.
fn run_start() -> u64 {
    band_start(GEOMETRY.pages, BandNo(1)).saturating_add(100)
}

// A store with that frame, this byte behind it and gates that are open behind that, and other bytes where the write belongs. No
// sync is behind these.
fn left(alloc: Global, gate: u8) -> Result<MemDisk, Stop> {
    let mut disk = store(alloc)?;
    spoil(&mut disk, Area::Log0, 0, &FRAME)?;
    let mut disk = anew(alloc, &disk)?;
    disk.write_at(Area::Log0, 124, &[gate])?;
    disk.write_at(Area::Log0, 125, &[1; 80])?;
    let run = run_start();
    if run > 1_048_576 {
        return Err(Stop::Far);
    }
    disk.write_at(Area::Home, run, &[200, 201, 202])?;
    Ok(disk)
}

// What an engine shows: where its log ends, and bytes 99 to 103 of band 1.
#[derive(Clone, Copy, Debug, PartialEq, Eq)]
struct Shown {
    end: Lsn,
    bytes: [u8; 5],
}

fn show(engine: &mut Engine<MemDisk>) -> Result<Shown, Stop> {
    if engine.bands() <= 1 {
        return Err(Stop::Far);
    }
    engine.load_band(BandNo(1))?;
    let mut bytes = [0; 5];
    bytes.copy_from_slice(&engine.band(BandNo(1))[99..104]);
    Ok(Shown {
        end: engine.durable(),
        bytes,
    })
}

// Commits the transaction. Answers the numbers of its records.
fn commit_one(engine: &mut Engine<MemDisk>) -> Result<[Lsn; 2], Stop> {
    let begin = engine.append(&BEGIN)?;
    let commit = engine.append(&COMMIT)?;
    engine.force()?;
    Ok([begin, commit])
}

// Opens the store, and commits the transaction there. Answers what was shown before, and the numbers.
fn go_on<R: Threads + Sync, L: Ledger>(
    rt: &R,
    alloc: Global,
    disk: MemDisk,
    ops: &Ops,
    steps: &mut Steps<L>,
) -> Result<(MemDisk, Shown, [Lsn; 2]), Stop> {
    match open_engine(rt, alloc, disk, ops, steps) {
        Ok(
            Started {
                geometry: _,
                mut engine,
                analysis: _,
            },
        ) => {
            let shown = show(&mut engine);
            let numbers = commit_one(&mut engine);
            let disk = engine.into_disk();
            Ok((disk, shown?, numbers?))
        }
        Err(Unopened { disk: _, fault }) => Err(Stop::Open(fault)),
    }
}

// Opens the store, and writes all home. Answers what was shown before.
fn settle<R: Threads + Sync, L: Ledger>(
    rt: &R,
    alloc: Global,
    disk: MemDisk,
    ops: &Ops,
    steps: &mut Steps<L>,
) -> Result<(MemDisk, Shown), Stop> {
    match open_engine(rt, alloc, disk, ops, steps) {
        Ok(
            Started {
                geometry: _,
                mut engine,
                analysis: _,
            },
        ) => {
            let shown = show(&mut engine);
            let flushed = engine.flush();
            let disk = engine.into_disk();
            flushed?;
            Ok((disk, shown?))
        }
        Err(Unopened { disk: _, fault }) => Err(Stop::Open(fault)),
    }
}

// The first bytes from there on.
fn bytes_at<const N: usize>(bytes: &[u8], at: usize) -> [u8; N] {
    let mut found = [255; N];
    for (i, byte) in found.iter_mut().enumerate() {
        *byte = bytes.get(at.saturating_add(i)).copied().unwrap_or(0);
    }
    found
}

// What comes of such a store: what its first opening shows, the numbers of the records behind, the gate and the length of their
// frame, the gate behind it, what the next opening shows, and the bytes at home behind that.
#[derive(Clone, Copy, Debug, PartialEq, Eq)]
struct Course {
    first: Shown,
    numbers: [Lsn; 2],
    frame: [u8; 5],
    gate: [u8; 1],
    second: Shown,
    home: [u8; 3],
}

fn course_of<R: Threads + Sync, L: Ledger>(
    rt: &R,
    alloc: Global,
    gate: u8,
    blank: Blank,
) -> Result<Course, Stop>
    requires name { blank.name ≡ L.name }
    requires parts { blank.parts ≡ L.parts }
    requires some { 0 < L.parts }
{
    let mut steps = Steps::<L>::open(blank);
    let ops = Ops::shipped(alloc)?;
    let disk = left(alloc, gate)?;
    let (disk, first, numbers) = go_on(rt, alloc, disk, &ops, &mut steps)?;
    let frame = bytes_at(disk.log0(), 124);
    let gate = bytes_at(disk.log0(), 171);
    let (disk, second) = settle(rt, alloc, disk, &ops, &mut steps)?;
    Ok(Course {
        first,
        numbers,
        frame,
        gate,
        second,
        home: bytes_at(disk.home(), run_start() as usize),
    })
}

// The band has what the record says. The transaction's frame stands where the log ended, behind an open gate and before a closed one.
const EXPECTED: Course = Course {
    first: Shown {
        end: 124,
        bytes: [0, 1, 2, 3, 0],
    },
    numbers: [129, 150],
    frame: [1, 42, 0, 0, 0],
    gate: [0],
    second: Shown {
        end: 171,
        bytes: [0, 1, 2, 3, 0],
    },
    home: [1, 2, 3],
};

#[test]
fn a_log_goes_on_where_any_byte_but_an_open_gate_stands(rt: HostRuntime) -> Result<(), Fail> {
    for gate in [0, 2, 57, 255] {
        let found = course_of::<_, Brand>(&rt, rt.alloc(), gate, Blank::new(1));
        assert_eq!(rt; found, Ok(EXPECTED));
    }
    Ok(())
}
