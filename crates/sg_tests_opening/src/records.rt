// Logs that no store left, beside such as one may have left: each of the former is refused by the frame of its last record, and nothing
// is written.
ghost use Rattle.std.specs.Prelude.{◌≡◌, ◌<◌};

use crate::stores::{Refused, Stop, anew, spoil, store, try_open};
use sg_disk::Area;
use sg_find::OpenFault;
use std::alloc::{AllocError, Global};
use std::marker::Brand;
use std::sync::ledger::{Blank, Ledger};
use std::test::Fail;
use std::thread::Threads;

// A record: its kind, the numbers of its transaction and of that one's record before it, and the bytes of its fields.
type Made = (u8, u64, u64, &'static [u8]);

// The records of a log, each in a frame of its own, and the offset of the frame by which it is refused, if it is.
type Row = (&'static [Made], Option<u64>);

// Adds a frame of this record.
fn put(text: &mut Vec<u8>, record: Made) -> Result<(), AllocError> {
    let (kind, transaction, previous, fields) = record;
    let size = (fields.len() as u64).wrapping_add(21).to_le_bytes();
    let size = &size[..4];
    text.push(1)?;
    text.extend_from_slice(size)?;
    text.push(kind)?;
    text.extend_from_slice(size)?;
    text.extend_from_slice(&transaction.to_le_bytes())?;
    text.extend_from_slice(&previous.to_le_bytes())?;
    text.extend_from_slice(fields)
}

fn text_of(alloc: Global, records: &[Made]) -> Result<Vec<u8>, AllocError> {
    let mut text = Vec::new(alloc);
    for record in records {
        put(&mut text, *record)?;
    }
    Ok(text)
}

// Whether a new store with this log is refused.
fn answer<R: Threads + Sync, L: Ledger>(
    rt: &R,
    alloc: Global,
    records: &[Made],
    blank: Blank,
) -> Result<Option<Refused>, Stop>
    requires name { blank.name ≡ L.name }
    requires parts { blank.parts ≡ L.parts }
    requires some { 0 < L.parts }
{
    let mut disk = store(alloc)?;
    let text = text_of(alloc, records)?;
    spoil(&mut disk, Area::Log0, 0, &text)?;
    let disk = anew(alloc, &disk)?;
    try_open::<R, L>(rt, alloc, disk, blank)
}

// A refusal by the frame at this offset, before the first write.
fn by_frame(at: u64) -> Refused {
    Refused::unwritten(OpenFault::Damaged {
        area: Area::Log0,
        at,
    })
}

// A transaction begins in the first frame: its number is 5, and the frame has 26 bytes.
const BEGIN: Made = (1, 5, 0, &[]);

// Page 1 is formatted, from nothing to the kind 1.
const KIND: [u8; 15] = [1, 0, 0, 0, 1, 0, 0, 0, 0, 1, 0, 1, 0, 0, 1];

// That is done in the second frame: the record's number is 31, and the frame has 41 bytes.
const FORMAT: Made = (2, 5, 5, &KIND);

// A zero is filled in a band there instead, by a frame of 50 bytes.
const ZERO: Made = (
    4,
    5,
    5,
    &[
        1, 0, 0, 0, 0, 0, 0, 0, 1, 0, 0, 0, 1, 0, 0, 0, 0, 0, 0, 0, 0, 0, 0, 0,
    ],
);

// The format is taken off in the third frame: the record's number is 72, and the frame has 49 bytes.
const TAKEN_OFF: Made = (
    6,
    5,
    31,
    &[
        5, 0, 0, 0, 0, 0, 0, 0, 2, 1, 0, 0, 0, 1, 0, 0, 0, 0, 0, 0, 1, 0, 0,
    ],
);

// Changes with a field at its edge, and one just behind it.
fn changes() -> [Row; 18] {
    [
        // A page.
        (
            &[
                BEGIN,
                (2, 5, 5, &[63, 0, 0, 0, 1, 0, 0, 0, 0, 1, 0, 1, 0, 0, 1]),
            ],
            None,
        ),
        (
            &[
                BEGIN,
                (2, 5, 5, &[64, 0, 0, 0, 1, 0, 0, 0, 0, 1, 0, 1, 0, 0, 1]),
            ],
            Some(26),
        ),
        // An operation.
        (
            &[
                BEGIN,
                (2, 5, 5, &[1, 0, 0, 0, 7, 0, 0, 1, 0, 0, 0, 1, 0, 9]),
            ],
            None,
        ),
        (
            &[
                BEGIN,
                (2, 5, 5, &[1, 0, 0, 0, 8, 0, 0, 1, 0, 0, 0, 1, 0, 9]),
            ],
            Some(26),
        ),
        // What stands before and after links.
        (
            &[
                BEGIN,
                (
                    2,
                    5,
                    5,
                    &[
                        1, 0, 0, 0, 5, 0, 0, 0, 0, 8, 0, 8, 0, 0, 0, 0, 0, 0, 0, 0, 0, 1, 0, 0, 0,
                        2, 0, 0, 0,
                    ],
                ),
            ],
            None,
        ),
        (
            &[
                BEGIN,
                (
                    2,
                    5,
                    5,
                    &[
                        1, 0, 0, 0, 5, 0, 0, 0, 0, 8, 0, 7, 0, 0, 0, 0, 0, 0, 0, 0, 0, 1, 0, 0, 0,
                        2, 0, 0,
                    ],
                ),
            ],
            Some(26),
        ),
        // A band.
        (
            &[
                BEGIN,
                (3, 5, 5, &[3, 0, 0, 0, 0, 0, 0, 0, 1, 0, 0, 0, 0, 7]),
            ],
            None,
        ),
        (
            &[
                BEGIN,
                (3, 5, 5, &[4, 0, 0, 0, 0, 0, 0, 0, 1, 0, 0, 0, 0, 7]),
            ],
            Some(26),
        ),
        // A place and a count: of the last byte, of that and one more, and of none.
        (
            &[
                BEGIN,
                (3, 5, 5, &[1, 0, 0, 0, 255, 127, 0, 0, 1, 0, 0, 0, 0, 7]),
            ],
            None,
        ),
        (
            &[
                BEGIN,
                (
                    3,
                    5,
                    5,
                    &[1, 0, 0, 0, 255, 127, 0, 0, 2, 0, 0, 0, 0, 0, 7, 7],
                ),
            ],
            Some(26),
        ),
        (
            &[BEGIN, (3, 5, 5, &[1, 0, 0, 0, 0, 0, 0, 0, 0, 0, 0, 0])],
            Some(26),
        ),
        // A position: of the last byte of a blob, and one more.
        (
            &[
                BEGIN,
                (
                    4,
                    5,
                    5,
                    &[
                        1, 0, 0, 0, 0, 0, 0, 0, 1, 0, 0, 0, 2, 0, 255, 255, 249, 0, 1, 0, 9, 1, 0,
                        0, 0, 0,
                    ],
                ),
            ],
            None,
        ),
        (
            &[
                BEGIN,
                (
                    4,
                    5,
                    5,
                    &[
                        1, 0, 0, 0, 0, 0, 0, 0, 1, 0, 0, 0, 2, 0, 0, 0, 250, 0, 1, 0, 9, 1, 0, 0,
                        0, 0,
                    ],
                ),
            ],
            Some(26),
        ),
        // Nothing stands before zeros that are filled in, and it does before any other operation.
        (&[BEGIN, ZERO], None),
        (
            &[
                BEGIN,
                (
                    4,
                    5,
                    5,
                    &[
                        1, 0, 0, 0, 0, 0, 0, 0, 1, 0, 0, 0, 2, 0, 0, 0, 0, 0, 0, 0, 0, 0, 0, 0,
                    ],
                ),
            ],
            Some(26),
        ),
        (
            &[
                BEGIN,
                (
                    4,
                    5,
                    5,
                    &[
                        1, 0, 0, 0, 0, 0, 0, 0, 1, 0, 0, 0, 1, 0, 0, 0, 0, 0, 1, 0, 9, 0, 0, 0, 0,
                    ],
                ),
            ],
            Some(26),
        ),
        // Kinds.
        (&[BEGIN, (0, 5, 5, &[])], Some(26)),
        (&[BEGIN, (13, 5, 5, &[])], Some(26)),
    ]
}

// Records of other kinds with a field at its edge, and one just behind it.
fn others() -> [Row; 15] {
    [
        // A change that is taken off: the byte before it, what stood before it, and the operation of a band.
        (&[BEGIN, FORMAT, TAKEN_OFF], None),
        (
            &[
                BEGIN,
                FORMAT,
                (
                    6,
                    5,
                    31,
                    &[
                        5, 0, 0, 0, 0, 0, 0, 0, 5, 1, 0, 0, 0, 1, 0, 0, 0, 0, 0, 0, 1, 0, 0,
                    ],
                ),
            ],
            Some(67),
        ),
        (
            &[
                BEGIN,
                FORMAT,
                (
                    6,
                    5,
                    31,
                    &[
                        5, 0, 0, 0, 0, 0, 0, 0, 2, 1, 0, 0, 0, 1, 0, 0, 0, 0, 1, 0, 1, 0, 1, 0,
                    ],
                ),
            ],
            Some(67),
        ),
        (
            &[
                BEGIN,
                ZERO,
                (
                    6,
                    5,
                    31,
                    &[
                        5, 0, 0, 0, 0, 0, 0, 0, 4, 1, 0, 0, 0, 0, 0, 0, 0, 1, 0, 0, 0, 1, 0, 0, 0,
                        0, 0, 0, 0, 0, 0, 0, 0,
                    ],
                ),
            ],
            None,
        ),
        (
            &[
                BEGIN,
                ZERO,
                (
                    6,
                    5,
                    31,
                    &[
                        5, 0, 0, 0, 0, 0, 0, 0, 4, 1, 0, 0, 0, 0, 0, 0, 0, 1, 0, 0, 0, 2, 0, 0, 0,
                        0, 0, 0, 0, 0, 0, 0, 0,
                    ],
                ),
            ],
            Some(76),
        ),
        // The length of a note.
        (&[BEGIN, (5, 5, 5, &[5, 0, 0, 0, 0, 0, 0, 0, 0, 0])], None),
        (
            &[BEGIN, (5, 5, 5, &[5, 0, 0, 0, 0, 0, 0, 0, 1, 0])],
            Some(26),
        ),
        // A mark.
        (&[BEGIN, (9, 5, 5, &[16, 0])], None),
        (&[BEGIN, (9, 5, 5, &[17, 0])], Some(26)),
        (&[BEGIN, (9, 5, 5, &[0, 0])], Some(26)),
        // A checkpoint, which is nobody's, and reads on from no record behind it.
        (&[BEGIN, (12, 0, 0, &[31, 0, 0, 0, 0, 0, 0, 0, 0, 0])], None),
        (
            &[BEGIN, (12, 0, 0, &[32, 0, 0, 0, 0, 0, 0, 0, 0, 0])],
            Some(26),
        ),
        (
            &[BEGIN, (12, 0, 0, &[31, 0, 0, 0, 0, 0, 0, 0, 1, 0])],
            Some(26),
        ),
        (
            &[BEGIN, (12, 5, 0, &[31, 0, 0, 0, 0, 0, 0, 0, 0, 0])],
            Some(26),
        ),
        (
            &[BEGIN, (12, 0, 5, &[31, 0, 0, 0, 0, 0, 0, 0, 0, 0])],
            Some(26),
        ),
    ]
}

// Records of one transaction that may follow one another, and such that may not.
fn orders() -> [Row; 23] {
    [
        // A begin, whose number is its own.
        (&[(1, 6, 0, &[])], Some(0)),
        (&[(1, 5, 5, &[])], Some(0)),
        (&[BEGIN, (1, 31, 0, &[])], None),
        (&[BEGIN, (1, 5, 5, &[])], Some(26)),
        // The record before.
        (&[BEGIN, FORMAT, (2, 5, 31, &KIND)], None),
        (&[BEGIN, FORMAT, (2, 5, 5, &KIND)], Some(67)),
        // A commit of a transaction that never began, of one that does, and of one that did; and an end.
        (&[BEGIN, (10, 6, 0, &[])], Some(26)),
        (&[BEGIN, (10, 5, 5, &[])], None),
        (&[BEGIN, (10, 5, 5, &[]), (10, 5, 31, &[])], Some(52)),
        (&[BEGIN, (10, 5, 5, &[]), (11, 5, 31, &[])], None),
        (&[BEGIN, (10, 5, 5, &[]), (11, 5, 5, &[])], Some(52)),
        (&[BEGIN, (11, 5, 5, &[]), (2, 5, 31, &KIND)], Some(52)),
        // A commit and a mark within an action.
        (&[BEGIN, FORMAT, (10, 5, 31, &[])], Some(67)),
        (&[BEGIN, FORMAT, (9, 5, 31, &[1, 0])], Some(67)),
        // The end of an action, behind which undoing goes on before the action.
        (
            &[BEGIN, FORMAT, (5, 5, 31, &[5, 0, 0, 0, 0, 0, 0, 0, 0, 0])],
            None,
        ),
        (
            &[BEGIN, FORMAT, (5, 5, 31, &[31, 0, 0, 0, 0, 0, 0, 0, 0, 0])],
            Some(67),
        ),
        // The end of an undoing where nothing is left to undo.
        (
            &[BEGIN, FORMAT, (8, 5, 31, &[5, 0, 0, 0, 0, 0, 0, 0])],
            Some(67),
        ),
        // The end of a take-off while a change is left, and behind the last.
        (
            &[BEGIN, FORMAT, (7, 5, 31, &[5, 0, 0, 0, 0, 0, 0, 0])],
            Some(67),
        ),
        (
            &[
                BEGIN,
                FORMAT,
                TAKEN_OFF,
                (7, 5, 72, &[5, 0, 0, 0, 0, 0, 0, 0]),
            ],
            None,
        ),
        // A change, and an action's end, within a take-off.
        (&[BEGIN, FORMAT, TAKEN_OFF, (2, 5, 72, &KIND)], Some(116)),
        (
            &[
                BEGIN,
                FORMAT,
                TAKEN_OFF,
                (5, 5, 72, &[5, 0, 0, 0, 0, 0, 0, 0, 0, 0]),
            ],
            Some(116),
        ),
        // A change of the system beside an action that has no end, and a commit of the system.
        (&[BEGIN, FORMAT, (2, 0, 0, &KIND)], Some(67)),
        (&[BEGIN, (10, 0, 0, &[])], Some(26)),
    ]
}

#[test]
fn a_change_is_refused_behind_the_edge_of_a_field(rt: HostRuntime) -> Result<(), Fail> {
    let alloc = rt.alloc();
    for (records, at) in &changes() {
        let found = answer::<_, Brand>(&rt, alloc, records, Blank::new(1));
        assert_eq!(rt; found, Ok(at.map(by_frame)));
    }
    Ok(())
}

#[test]
fn a_record_is_refused_behind_the_edge_of_a_field(rt: HostRuntime) -> Result<(), Fail> {
    let alloc = rt.alloc();
    for (records, at) in &others() {
        let found = answer::<_, Brand>(&rt, alloc, records, Blank::new(1));
        assert_eq!(rt; found, Ok(at.map(by_frame)));
    }
    Ok(())
}

#[test]
fn a_record_is_refused_that_may_not_follow(rt: HostRuntime) -> Result<(), Fail> {
    let alloc = rt.alloc();
    for (records, at) in &orders() {
        let found = answer::<_, Brand>(&rt, alloc, records, Blank::new(1));
        assert_eq!(rt; found, Ok(at.map(by_frame)));
    }
    Ok(())
}
