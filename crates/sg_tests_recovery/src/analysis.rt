ghost use Rattle.std.specs.Prelude.{◌≡◌, ◌≤◌};
ghost use Rattle.sg_log.specs.Frames.{LOG_END};

use sg_analysis::{Analysis, AnalysisFault, analyse};
use sg_base::{Lsn, TxnId};
use sg_disk::{Area, CallKind, Disk, MemDisk};
use std::alloc::{AllocError, Global};
use std::test::Fail;

// A record of a log: its kind, and the places in the log, from 1 on, of its transaction's begin, of the record before it and of
// the one at which undoing goes on, or which a checkpoint estimates. 0 is none, and the system.
type Made = (u8, usize, usize, usize);

// A number before a log that begins at 1000, and one behind it.
const BEFORE: usize = 98;

const BEHIND: usize = 99;

// Slot 2 of page 7 is set from one byte to another, and set back.
const CHANGE: [u8; 15] = [7, 0, 0, 0, 4, 2, 0, 0, 0, 1, 0, 1, 0, b'a', b'b'];

const BACK: [u8; 15] = [2, 7, 0, 0, 0, 4, 2, 0, 0, 0, 0, 0, 1, 0, b'a'];

// An area with one frame for each record.
#[derive(Drop)]
struct Written {
    base: Lsn,
    bytes: Vec<u8>,
    lsns: Vec<Lsn>,
}

impl Written {
    // All calls stand in functions that promise nothing, so that a test's proof carries none of their clauses.
    fn new(alloc: Global, base: Lsn, log: &[&[Made]]) -> Result<Written, AllocError>
        requires { base ≤ LOG_END }
    {
        let mut written = Written {
            base,
            bytes: Vec::new(alloc),
            lsns: Vec::new(alloc),
        };
        for part in log {
            written.put_all(part)?;
        }
        Ok(written)
    }

    fn put_all(&mut self, part: &[Made]) -> Result<(), AllocError> {
        for made in part {
            self.lsns.push(
                self.base
                    .saturating_add(self.bytes.len() as u64)
                    .saturating_add(5),
            )?;
            self.put(*made)?;
        }
        Ok(())
    }

    // The number of the record at this place.
    fn number(&self, place: usize) -> u64 {
        match place {
            0 => 0,
            BEFORE => 5,
            BEHIND => 1_000_000,
            _ => self.lsns.get(place - 1).copied().unwrap_or(0),
        }
    }

    // The place of the record with this number.
    fn place(&self, lsn: Lsn) -> usize {
        self.lsns
            .iter()
            .position(|l| *l == lsn)
            .map_or(0, |i| i + 1)
    }

    // A frame of a record of so many bytes.
    fn put(&mut self, made: Made) -> Result<(), AllocError> {
        let (kind, txn, prev, undo_next) = made;
        let txn = self.number(txn);
        let prev = self.number(prev);
        let undo_next = self.number(undo_next).to_le_bytes();
        match kind {
            2 => self.put_parts(kind, 36, txn, prev, &[], &CHANGE),
            5 => self.put_parts(kind, 32, txn, prev, &undo_next, &[1, 0, 7]),
            6 => self.put_parts(kind, 44, txn, prev, &undo_next, &BACK),
            7 | 8 => self.put_parts(kind, 29, txn, prev, &undo_next, &[]),
            9 => self.put_parts(kind, 23, txn, prev, &[], &[1, 0]),
            12 => self.put_parts(kind, 31, txn, prev, &undo_next, &[0, 0]),
            13 => self.put_parts(kind, 22, txn, prev, &[], &[b'x']),
            _ => self.put_parts(kind, 21, txn, prev, &[], &[]),
        }
    }

    fn put_parts(
        &mut self,
        kind: u8,
        size: u8,
        txn: u64,
        prev: Lsn,
        undo_next: &[u8],
        rest: &[u8],
    ) -> Result<(), AllocError> {
        let head = [1, size, 0, 0, 0, kind, size, 0, 0, 0];
        self.bytes.extend_from_slice(&head)?;
        self.bytes.extend_from_slice(&txn.to_le_bytes())?;
        self.bytes.extend_from_slice(&prev.to_le_bytes())?;
        self.bytes.extend_from_slice(undo_next)?;
        self.bytes.extend_from_slice(rest)
    }
}

// What is said of the log in an area with these bytes.
fn analysed(alloc: Global, base: Lsn, bytes: &[u8]) -> Result<Analysis, AnalysisFault>
    requires { base ≤ LOG_END }
{
    let log = Vec::from_slice(alloc, bytes)?;
    let mut disk = MemDisk::of(alloc, Vec::new(alloc), log, Vec::new(alloc));
    analyse(alloc, &mut disk, Area::Log0, base)
}

// A transaction and its last record, by their places.
type Place = (usize, usize);

// What is to be found: the losers, the action without an end, and the last checkpoint with what it estimates.
type Found<'a> = (&'a [Place], Option<Place>, Option<Place>);

fn place_of(written: &Written, txn: TxnId, last: Lsn) -> Place {
    (written.place(txn.0), written.place(last))
}

fn has_losers(written: &Written, found: &Analysis, losers: &[Place]) -> bool {
    if found.losers.len() != losers.len() {
        return false;
    }
    for i in 0..losers.len() {
        if i < found.losers.len() {
            let (txn, last) = found.losers.get(i);
            if place_of(written, txn, last) != losers[i] {
                return false;
            }
        }
    }
    true
}

fn checkpoint_of(written: &Written, found: &Analysis) -> Option<Place> {
    match found.last_checkpoint {
        Some(lsn) => Some((written.place(lsn), written.place(found.estimate))),
        None => None,
    }
}

fn unfinished_of(written: &Written, found: &Analysis) -> Option<Place> {
    match found.unfinished {
        Some((txn, last)) => Some(place_of(written, txn, last)),
        None => None,
    }
}

fn says(written: &Written, found: &Analysis, expected: Found<'_>) -> bool {
    let (losers, unfinished, checkpoint) = expected;
    has_losers(written, found, losers)
        && unfinished_of(written, found) == unfinished
        && checkpoint_of(written, found) == checkpoint
}

// Whether an analysis of the log says this.
fn finds(alloc: Global, base: Lsn, log: &[&[Made]], expected: Found<'_>) -> Result<bool, AllocError>
    requires { base ≤ LOG_END }
{
    let written = Written::new(alloc, base, log)?;
    match analysed(alloc, base, &written.bytes) {
        Ok(found) => Ok(says(&written, &found, expected)),
        Err(_fault) => Ok(false),
    }
}

// The place of the record in whose frame the log is damaged, if it is.
fn damaged_at(alloc: Global, base: Lsn, log: &[&[Made]]) -> Result<Option<usize>, AllocError>
    requires { base ≤ LOG_END }
{
    let written = Written::new(alloc, base, log)?;
    match analysed(alloc, base, &written.bytes) {
        Err(AnalysisFault::Damaged { at }) => {
            Ok(Some(written.place(base.saturating_add(at).saturating_add(5))))
        }
        _ => Ok(None),
    }
}

// How many records these are.
fn length_of(log: &[&[Made]]) -> usize {
    let mut length: usize = 0;
    for part in log {
        length = length.saturating_add(part.len());
    }
    length
}

const BOTH: [Made; 6] = [
    (1, 1, 0, 0),
    (1, 2, 0, 0),
    (2, 1, 1, 0),
    (5, 1, 3, 1),
    (2, 2, 2, 0),
    (5, 2, 5, 2),
];

const OPEN_ACTION: [Made; 3] = [(10, 1, 4, 0), (2, 2, 6, 0), (2, 2, 8, 0)];

const MARKED: [Made; 10] = [
    (1, 1, 0, 0),
    (2, 1, 1, 0),
    (5, 1, 2, 1),
    (9, 1, 3, 0),
    (2, 1, 4, 0),
    (5, 1, 5, 4),
    (2, 1, 6, 0),
    (8, 1, 7, 4),
    (2, 1, 8, 0),
    (5, 1, 9, 8),
];

// The small logs whose objects are computed beside the definitions: who goes on, and whose action has no end.
#[test]
fn small_logs(rt: HostRuntime) -> Result<(), Fail> {
    let alloc = rt.alloc();
    let rows: [(&[&[Made]], &[Place], Option<Place>); 12] = [
        (&[&BOTH], &[(1, 4), (2, 6)], None),
        (&[&BOTH, &[(10, 1, 4, 0)]], &[(2, 6)], None),
        (&[&BOTH, &[(10, 2, 6, 0)]], &[(1, 4)], None),
        (&[&BOTH, &OPEN_ACTION], &[(2, 9)], Some((2, 9))),
        (
            &[&BOTH, &OPEN_ACTION, &[(6, 2, 9, 8)]],
            &[(2, 10)],
            Some((2, 10)),
        ),
        (
            &[&BOTH, &OPEN_ACTION, &[(6, 2, 9, 8), (6, 2, 10, 6)]],
            &[(2, 11)],
            Some((2, 11)),
        ),
        (
            &[
                &BOTH,
                &OPEN_ACTION,
                &[(6, 2, 9, 8), (6, 2, 10, 6), (7, 2, 11, 6)],
            ],
            &[(2, 12)],
            None,
        ),
        (&[&BOTH, &[(2, 1, 4, 0)]], &[(1, 7), (2, 6)], Some((1, 7))),
        (
            &[&BOTH, &[(2, 1, 4, 0), (8, 1, 7, 1)]],
            &[(1, 8), (2, 6)],
            None,
        ),
        (
            &[
                &BOTH,
                &[(2, 1, 4, 0), (8, 1, 7, 1), (11, 1, 8, 0), (10, 2, 6, 0)],
            ],
            &[],
            None,
        ),
        (&[&MARKED], &[(1, 10)], None),
        (&[&MARKED, &[(10, 1, 10, 0)]], &[], None),
    ];
    for (log, losers, unfinished) in rows {
        assert!(rt; finds(alloc, 0, log, (losers, unfinished, None))?);
    }
    Ok(())
}

// Actions of the system, checkpoints, and logs whose front was cut off within an action or a transaction.
#[test]
fn the_system_checkpoints_and_cuts(rt: HostRuntime) -> Result<(), Fail> {
    let alloc = rt.alloc();
    let rows: [(&[Made], Found<'_>); 11] = [
        (&[], (&[], None, None)),
        (
            &[(2, 0, 0, 0), (2, 0, 1, 0), (5, 0, 2, 0), (2, 0, 0, 0)],
            (&[], Some((0, 4)), None),
        ),
        (
            &[(2, 0, 0, 0), (2, 0, 1, 0), (6, 0, 2, 1), (6, 0, 3, 0)],
            (&[], Some((0, 4)), None),
        ),
        (
            &[(2, 0, 0, 0), (6, 0, 1, 0), (7, 0, 2, 0), (5, 0, 0, 0)],
            (&[], None, None),
        ),
        (&[(2, 0, BEFORE, 0), (5, 0, 1, 0)], (&[], None, None)),
        (
            &[(6, 0, BEFORE, BEFORE), (6, 0, 1, 0), (7, 0, 2, 0)],
            (&[], None, None),
        ),
        (
            &[
                (2, BEFORE, BEFORE, 0),
                (5, BEFORE, 1, BEFORE),
                (10, BEFORE, 2, 0),
            ],
            (&[], None, None),
        ),
        (
            &[(1, 1, 0, 0), (12, 0, 0, 1)],
            (&[(1, 1)], None, Some((2, 1))),
        ),
        (
            &[(12, 0, 0, 1), (1, 2, 0, 0), (12, 0, 0, 3)],
            (&[(2, 2)], None, Some((3, 3))),
        ),
        (
            &[(2, 0, 0, 0), (12, 0, 0, 1), (5, 0, 1, 0)],
            (&[], None, Some((2, 1))),
        ),
        (
            &[(1, 1, 0, 0), (10, 1, 1, 0), (11, 1, 2, 0)],
            (&[], None, None),
        ),
    ];
    for (log, expected) in rows {
        assert!(rt; finds(alloc, 1000, &[log], expected)?);
    }
    Ok(())
}

// Records that may not stand where they do, each told by the place of its frame.
#[test]
fn hostile_records(rt: HostRuntime) -> Result<(), Fail> {
    let alloc = rt.alloc();
    let rows: [&[Made]; 34] = [
        &[(1, 0, 0, 0)],
        &[(1, BEHIND, 0, 0)],
        &[(1, 1, 0, 0), (1, 1, 0, 0)],
        &[(1, 1, 0, 0), (1, 2, 1, 0)],
        &[(2, BEHIND, 0, 0)],
        &[(1, 1, 0, 0), (2, 1, 0, 0)],
        &[(1, 1, 0, 0), (2, 1, BEFORE, 0)],
        &[(1, 1, 0, 0), (2, 1, 1, 0), (5, 1, 1, 1)],
        &[(1, 1, 0, 0), (2, 1, 1, 0), (5, 1, 2, 2)],
        &[(1, 1, 0, 0), (2, 1, 1, 0), (5, 1, 2, 0)],
        &[(1, 1, 0, 0), (2, 1, 1, 0), (6, 1, 2, 0)],
        &[(1, 1, 0, 0), (2, 1, 1, 0), (6, 1, 2, 1), (7, 1, 3, 2)],
        &[
            (1, 1, 0, 0),
            (2, 1, 1, 0),
            (5, 1, 2, 1),
            (2, 1, 3, 0),
            (8, 1, 4, 3),
        ],
        &[(1, 1, 0, 0), (8, 1, 1, 1)],
        &[(1, 1, 0, 0), (2, 1, 1, 0), (9, 1, 2, 0)],
        &[(1, 1, 0, 0), (10, 1, 0, 0)],
        &[(1, 1, 0, 0), (11, 1, 0, 0)],
        // of a transaction that has no begin, within an action, behind a commit, and behind an end
        &[(12, 0, 0, 1), (2, 1, 0, 0)],
        &[(1, 1, 0, 0), (2, 1, 1, 0), (10, 1, 2, 0)],
        &[(1, 1, 0, 0), (2, 1, 1, 0), (6, 1, 2, 1), (10, 1, 3, 0)],
        &[(1, 1, 0, 0), (2, 1, 1, 0), (6, 1, 2, 1), (11, 1, 3, 0)],
        &[(1, 1, 0, 0), (10, 1, 1, 0), (2, 1, 2, 0)],
        &[(1, 1, 0, 0), (11, 1, 1, 0), (2, 1, 2, 0)],
        &[(8, 0, 0, 0)],
        &[(9, 0, 0, 0)],
        &[(10, 0, 0, 0)],
        &[(11, 0, 0, 0)],
        &[(2, 0, BEHIND, 0)],
        &[(2, 0, 0, 0), (5, 0, 1, 0), (2, 0, 2, 0)],
        &[(2, 0, 0, 0), (2, 0, 0, 0)],
        &[(2, 0, 0, 0), (5, 0, 1, 1)],
        &[(12, 0, 0, BEHIND)],
        &[(13, BEFORE, 0, 0)],
        &[(14, BEFORE, 0, 0)],
    ];
    for log in rows {
        assert_eq!(rt; damaged_at(alloc, 1000, &[log])?, Some(log.len()));
    }
    Ok(())
}

// Records that may not stand in an action that is being taken off: a change, the end of an action and that of one which undid
// another. Each is told by the place of its frame.
#[test]
fn within_a_take_off(rt: HostRuntime) -> Result<(), Fail> {
    let alloc = rt.alloc();
    let rows: [&[Made]; 6] = [
        &[
            (1, 1, 0, 0),
            (2, 1, 1, 0),
            (2, 1, 2, 0),
            (6, 1, 3, 2),
            (2, 1, 4, 0),
        ],
        &[(1, 1, 0, 0), (2, 1, 1, 0), (6, 1, 2, 1), (2, 1, 3, 0)],
        &[(1, 1, 0, 0), (2, 1, 1, 0), (6, 1, 2, 1), (5, 1, 3, 1)],
        &[
            (1, 1, 0, 0),
            (2, 1, 1, 0),
            (5, 1, 2, 1),
            (2, 1, 3, 0),
            (6, 1, 4, 3),
            (8, 1, 5, 1),
        ],
        &[(2, 0, 0, 0), (2, 0, 1, 0), (6, 0, 2, 1), (2, 0, 3, 0)],
        &[(2, 0, 0, 0), (6, 0, 1, 0), (5, 0, 2, 0)],
    ];
    for log in rows {
        assert_eq!(rt; damaged_at(alloc, 1000, &[log])?, Some(log.len()));
    }
    Ok(())
}

// Where undoing goes on: behind a record that takes a change off at the change before, or behind the action; behind one that
// undid an action where that one's note says. Each other number is told by the place of its frame.
#[test]
fn where_undoing_goes_on(rt: HostRuntime) -> Result<(), Fail> {
    let alloc = rt.alloc();
    let three: [Made; 4] = [(1, 1, 0, 0), (2, 1, 1, 0), (2, 1, 2, 0), (2, 1, 3, 0)];
    let notes: [Made; 5] = [
        (1, 1, 0, 0),
        (2, 1, 1, 0),
        (5, 1, 2, 1),
        (2, 1, 3, 0),
        (5, 1, 4, 3),
    ];
    let rows: [&[&[Made]]; 12] = [
        &[&three, &[(6, 1, 4, 2)]],
        &[&three, &[(6, 1, 4, 4)]],
        &[&three, &[(6, 1, 4, 1)]],
        &[&three, &[(6, 1, 4, 3), (6, 1, 5, 1)]],
        &[
            &three,
            &[(6, 1, 4, 3), (6, 1, 5, 2), (6, 1, 6, 1), (6, 1, 7, 1)],
        ],
        &[&[(2, 0, 0, 0), (2, 0, 1, 0), (6, 0, 2, 0)]],
        &[&[(2, 0, 0, 0), (5, 0, 1, 0), (2, 0, 0, 0), (6, 0, 3, 2)]],
        &[&[(2, 0, 0, 0), (5, 0, 1, 0), (6, 0, 0, 0)]],
        &[&notes, &[(2, 1, 5, 0), (8, 1, 6, 1)]],
        &[&notes, &[(2, 1, 5, 0), (8, 1, 6, 2)]],
        &[
            &notes,
            &[(2, 1, 5, 0), (8, 1, 6, 3), (2, 1, 7, 0), (8, 1, 8, 3)],
        ],
        &[&[
            (1, 1, 0, 0),
            (2, 1, 1, 0),
            (5, 1, 2, 1),
            (8, 1, 3, 1),
            (8, 1, 4, 1),
        ]],
    ];
    for log in rows {
        assert_eq!(rt; damaged_at(alloc, 1000, log)?, Some(length_of(log)));
    }
    let off: [Made; 4] = [(6, 1, 4, 3), (6, 1, 5, 2), (6, 1, 6, 1), (7, 1, 7, 1)];
    assert!(rt; finds(alloc, 1000, &[&three, &off], (&[(1, 8)], None, None))?);
    let undone: [Made; 4] = [(2, 1, 5, 0), (8, 1, 6, 3), (2, 1, 7, 0), (8, 1, 8, 1)];
    assert!(rt; finds(alloc, 1000, &[&notes, &undone], (&[(1, 9)], None, None))?);
    Ok(())
}

// Changes that are open where none may be: at the end of a take-off, and at a mark, a commit and an end, also of a transaction
// that had begun before the log. Each is told by the place of its frame.
#[test]
fn open_changes_left(rt: HostRuntime) -> Result<(), Fail> {
    let alloc = rt.alloc();
    let rows: [&[Made]; 9] = [
        &[(1, 1, 0, 0), (2, 1, 1, 0), (7, 1, 2, 1)],
        &[
            (1, 1, 0, 0),
            (2, 1, 1, 0),
            (2, 1, 2, 0),
            (6, 1, 3, 2),
            (7, 1, 4, 1),
        ],
        &[(2, 0, 0, 0), (7, 0, 1, 0)],
        &[(2, 0, 0, 0), (2, 0, 1, 0), (6, 0, 2, 1), (7, 0, 3, 0)],
        &[(2, BEFORE, BEFORE, 0), (9, BEFORE, 1, 0)],
        &[(2, BEFORE, BEFORE, 0), (10, BEFORE, 1, 0)],
        &[(2, BEFORE, BEFORE, 0), (11, BEFORE, 1, 0)],
        &[
            (2, BEFORE, BEFORE, 0),
            (2, BEFORE, 1, 0),
            (6, BEFORE, 2, 1),
            (10, BEFORE, 3, 0),
        ],
        &[
            (5, BEFORE, BEFORE, BEFORE),
            (2, BEFORE, 1, 0),
            (11, BEFORE, 2, 0),
        ],
    ];
    for log in rows {
        assert_eq!(rt; damaged_at(alloc, 1000, &[log])?, Some(log.len()));
    }
    let formed: [&[Made]; 3] = [
        &[
            (2, BEFORE, BEFORE, 0),
            (6, BEFORE, 1, BEFORE),
            (10, BEFORE, 2, 0),
        ],
        &[
            (2, BEFORE, BEFORE, 0),
            (7, BEFORE, 1, BEFORE),
            (9, BEFORE, 2, 0),
        ],
        &[
            (2, BEFORE, BEFORE, 0),
            (8, BEFORE, 1, BEFORE),
            (11, BEFORE, 2, 0),
        ],
    ];
    for log in formed {
        assert!(rt; finds(alloc, 1000, &[log], (&[], None, None))?);
    }
    Ok(())
}

// Records of transactions that don't go on: behind a commit but an end that names it, behind an end, and behind another of a
// transaction that had begun before the log but one that names it. Each is told by the place of its frame.
#[test]
fn of_transactions_that_are_over(rt: HostRuntime) -> Result<(), Fail> {
    let alloc = rt.alloc();
    let rows: [&[Made]; 10] = [
        &[(1, 1, 0, 0), (10, 1, 1, 0), (11, 1, 1, 0)],
        &[(1, 1, 0, 0), (10, 1, 1, 0), (10, 1, 2, 0)],
        &[(1, 1, 0, 0), (10, 1, 1, 0), (11, 1, 2, 0), (11, 1, 3, 0)],
        &[(1, 1, 0, 0), (11, 1, 1, 0), (11, 1, 2, 0)],
        &[(12, 0, 0, 1), (2, BEFORE, 1, 0)],
        &[(2, BEFORE, BEFORE, 0), (2, BEFORE, BEFORE, 0)],
        &[(10, BEFORE, BEFORE, 0), (2, BEFORE, 1, 0)],
        &[(10, BEFORE, BEFORE, 0), (11, BEFORE, BEFORE, 0)],
        &[(11, BEFORE, BEFORE, 0), (11, BEFORE, 1, 0)],
        &[(11, BEFORE, BEFORE, 0), (10, BEFORE, 1, 0)],
    ];
    for log in rows {
        assert_eq!(rt; damaged_at(alloc, 1000, &[log])?, Some(log.len()));
    }
    let ended: [Made; 2] = [(10, BEFORE, BEFORE, 0), (11, BEFORE, 1, 0)];
    assert!(rt; finds(alloc, 1000, &[&ended], (&[], None, None))?);
    Ok(())
}

// A second action without an end is told at the frame in which it began, whatever follows, and so is one of a transaction that
// doesn't go on; actions that ended beside each other are none.
#[test]
fn two_open_actions(rt: HostRuntime) -> Result<(), Fail> {
    let alloc = rt.alloc();
    let front: [Made; 4] = [(1, 1, 0, 0), (1, 2, 0, 0), (2, 1, 1, 0), (2, 2, 2, 0)];
    assert_eq!(rt; damaged_at(alloc, 0, &[&front])?, Some(4));
    assert_eq!(rt; damaged_at(alloc, 0, &[&front, &[(9, 1, 1, 0)]])?, Some(5));
    assert_eq!(rt;
        damaged_at(alloc, 0, &[&front, &[(2, 1, 3, 0), (12, 0, 0, 1)]])?,
        Some(4)
    );
    assert_eq!(rt;
        damaged_at(
            alloc,
            0,
            &[&front, &[(2, 0, 0, 0), (5, 1, 3, 1), (12, 0, 0, 1)]]
        )?,
        Some(5)
    );
    assert_eq!(rt;
        damaged_at(
            alloc,
            1000,
            &[&[(12, 0, 0, 1), (2, BEFORE, BEFORE, 0), (12, 0, 0, 1)]]
        )?,
        Some(2)
    );
    assert!(rt;
        finds(
            alloc,
            0,
            &[&front, &[(5, 1, 3, 1), (5, 2, 4, 2)]],
            (&[(1, 5), (2, 6)], None, None)
        )?
    );
    Ok(())
}

// The offset at which an area with these bytes is damaged.
fn fault_of(alloc: Global, base: Lsn, bytes: &[u8]) -> Option<AnalysisFault>
    requires { base ≤ LOG_END }
{
    analysed(alloc, base, bytes).err()
}

// Frames that aren't formed, gates that are closed, and the log's end.
#[test]
fn hostile_frames(rt: HostRuntime) -> Result<(), Fail> {
    let alloc = rt.alloc();
    let begin = [
        1, 21, 0, 0, 0, 1, 21, 0, 0, 0, 5, 0, 0, 0, 0, 0, 0, 0, 0, 0, 0, 0, 0, 0, 0, 0,
    ];
    let rows: [(Lsn, &[u8], Option<u64>); 9] = [
        (0, &[], None),
        (0, &[0, 21, 0, 0, 0, 1], None),
        (0, &[2, 21, 0, 0, 0, 1], None),
        (0, &[1], Some(0)),
        (0, &[1, 1, 0, 1, 0], Some(0)),
        (0, &[1, 20, 0, 0, 0, 1, 21, 0, 0, 0, 5], Some(0)),
        (0, &begin, None),
        (5, &begin, Some(0)),
        (1 << 63, &begin, Some(0)),
    ];
    for (base, bytes, at) in rows {
        assert_eq!(rt;
            fault_of(alloc, base, bytes),
            at.map(|at| AnalysisFault::Damaged { at })
        );
    }
    Ok(())
}

// How an analysis of this log ends where the nth read of the disk fails, and how many calls it made.
fn with_fault(
    alloc: Global,
    log: &[Made],
    nth: u64,
) -> Result<(Option<AnalysisFault>, u64), AllocError> {
    let written = Written::new(alloc, 0, &[log])?;
    let bytes = Vec::from_slice(alloc, &written.bytes)?;
    let mut disk = MemDisk::of(alloc, Vec::new(alloc), bytes, Vec::new(alloc));
    disk.fail(CallKind::Read, nth);
    let fault = analyse(alloc, &mut disk, Area::Log0, 0).err();
    Ok((fault, disk.call_count()))
}

// Each read fails once; with none the log is read once, in two reads a frame and one of the closed gate.
#[test]
fn faults_of_the_disk(rt: HostRuntime) -> Result<(), Fail> {
    let alloc = rt.alloc();
    for nth in 1..14 {
        assert_eq!(rt;
            with_fault(alloc, &BOTH, nth)?,
            (Some(AnalysisFault::Disk), nth)
        );
    }
    assert_eq!(rt; with_fault(alloc, &BOTH, 14)?, (None, 13));
    Ok(())
}
