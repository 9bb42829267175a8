// Images that no store left, beside such as one may have left: each of the former is refused by its name, with its place, and nothing is
// written.
ghost use Rattle.std.specs.Prelude.{◌≡◌, ◌<◌};

use crate::stores::{Refused, Stop, anew, spoil, store, try_open};
use sg_disk::Area;
use sg_find::OpenFault;
use std::alloc::Global;
use std::marker::Brand;
use std::sync::ledger::{Blank, Ledger};
use std::test::Fail;
use std::thread::Threads;

// Bytes of an image, from this offset of an area on.
type Patch = (Area, u64, &'static [u8]);

// What stands in a new store in place of its own bytes, and why such an image is refused, if it is.
type Row = (&'static [Patch], Option<OpenFault>);

// A damage at this offset of the home area, and one of the log's area.
const fn home(at: u64) -> Option<OpenFault> {
    Some(OpenFault::Damaged {
        area: Area::Home,
        at,
    })
}

const fn log0(at: u64) -> Option<OpenFault> {
    Some(OpenFault::Damaged {
        area: Area::Log0,
        at,
    })
}

// Whether a new store with these bytes is refused.
fn answer<R: Threads + Sync, L: Ledger>(
    rt: &R,
    alloc: Global,
    patches: &[Patch],
    blank: Blank,
) -> Result<Option<Refused>, Stop>
    requires name { blank.name ≡ L.name }
    requires parts { blank.parts ≡ L.parts }
    requires some { 0 < L.parts }
{
    let mut disk = store(alloc)?;
    for (area, at, bytes) in patches {
        spoil(&mut disk, *area, *at, bytes)?;
    }
    let disk = anew(alloc, &disk)?;
    try_open::<R, L>(rt, alloc, disk, blank)
}

// A slot of the superblock with the sequence 1, for 64 pages and 4 bands.
const SLOT: [u8; 44] = [
    1, b'S', b'T', b'A', b'S', b'I', b'S', b'S', b'G', 1, 0, 1, 0, 0, 0, 0, 0, 0, 0, 64, 0, 0, 0,
    4, 0, 0, 0, 32, 0, 0, 0, 4, 0, 0, 0, 0, 0, 0, 0, 0, 0, 0, 0, 0,
];

// The superblock: each field at its edges, and which of the slots counts.
fn superblocks() -> [Row; 37] {
    [
        // No gate is open, where any byte but 1 is a closed one.
        (&[(Area::Home, 0, &[0])], Some(OpenFault::NotAStore)),
        (
            &[(Area::Home, 0, &[2]), (Area::Home, 4_096, &[255])],
            Some(OpenFault::NotAStore),
        ),
        (&[(Area::Home, 1, &[0])], home(1)),
        (&[(Area::Home, 8, &[b'g'])], home(1)),
        (&[(Area::Home, 9, &[9])], home(9)),
        (&[(Area::Home, 9, &[1, 1])], home(9)),
        // The sequence.
        (&[(Area::Home, 11, &[0])], home(11)),
        (
            &[(Area::Home, 11, &[254, 255, 255, 255, 255, 255, 255, 255])],
            None,
        ),
        (
            &[(Area::Home, 11, &[255, 255, 255, 255, 255, 255, 255, 255])],
            home(11),
        ),
        // The pages, of 1,048,576 with so many bands that there are more than the map's 5.
        (&[(Area::Home, 19, &[63])], home(19)),
        (&[(Area::Home, 19, &[0, 0, 16, 0, 6])], None),
        (&[(Area::Home, 19, &[1, 0, 16, 0, 6])], home(19)),
        // The bands. The map of 786,428 pages and 4 bands takes 3 of these, and with a page more all 4.
        (&[(Area::Home, 23, &[3])], home(23)),
        (&[(Area::Home, 23, &[0, 0, 1, 0])], None),
        (&[(Area::Home, 23, &[1, 0, 1, 0])], home(23)),
        (&[(Area::Home, 19, &[252, 255, 11, 0])], None),
        (&[(Area::Home, 19, &[253, 255, 11, 0])], home(23)),
        // The frames and the windows.
        (&[(Area::Home, 27, &[31])], home(27)),
        (&[(Area::Home, 27, &[1, 64])], home(27)),
        (&[(Area::Home, 31, &[3])], home(31)),
        (&[(Area::Home, 31, &[0, 1])], None),
        (&[(Area::Home, 31, &[1, 1])], home(31)),
        // The log's area, and the number of its first byte.
        (&[(Area::Home, 35, &[1])], None),
        (&[(Area::Home, 35, &[2])], home(35)),
        (&[(Area::Home, 36, &[0, 0, 0, 0, 0, 0, 0, 128])], None),
        (&[(Area::Home, 36, &[1, 0, 0, 0, 0, 0, 0, 128])], home(36)),
        // Of several fields the first is told. What stands behind the last one is read by nobody.
        (&[(Area::Home, 27, &[31, 0, 0, 0, 3, 0, 0, 0, 2])], home(27)),
        (&[(Area::Home, 44, &[255])], None),
        // The second slot counts where it alone is open, and where its sequence is greater.
        (&[(Area::Home, 4_096, &SLOT), (Area::Home, 0, &[0])], None),
        (
            &[
                (Area::Home, 4_096, &SLOT),
                (Area::Home, 4_127, &[3]),
                (Area::Home, 0, &[0]),
            ],
            home(4_127),
        ),
        (
            &[
                (Area::Home, 4_096, &SLOT),
                (Area::Home, 4_107, &[2]),
                (Area::Home, 19, &[63]),
            ],
            None,
        ),
        (
            &[
                (Area::Home, 4_096, &SLOT),
                (Area::Home, 4_107, &[2]),
                (Area::Home, 4_115, &[63]),
            ],
            home(4_115),
        ),
        (
            &[
                (Area::Home, 4_096, &SLOT),
                (Area::Home, 4_107, &[2]),
                (Area::Home, 4_097, &[b's']),
            ],
            home(4_097),
        ),
        // The first counts where both sequences are equal, and where the second is smaller or closed.
        (
            &[(Area::Home, 4_096, &SLOT), (Area::Home, 35, &[2])],
            home(35),
        ),
        (
            &[(Area::Home, 4_096, &SLOT), (Area::Home, 4_131, &[2])],
            None,
        ),
        (
            &[
                (Area::Home, 4_096, &SLOT),
                (Area::Home, 4_107, &[0]),
                (Area::Home, 27, &[31]),
            ],
            home(27),
        ),
        (
            &[
                (Area::Home, 4_096, &SLOT),
                (Area::Home, 4_096, &[2, 0]),
                (Area::Home, 4_107, &[9]),
            ],
            None,
        ),
    ]
}

// The double-write header.
fn headers() -> [Row; 10] {
    [
        (&[(Area::Home, 8_192, &[2, 0, 0, 0, 0])], None),
        (&[(Area::Home, 8_192, &[1, 0, 0, 0, 0])], home(8_193)),
        (&[(Area::Home, 8_192, &[1, 33, 0, 0, 0])], home(8_193)),
        (&[(Area::Home, 8_192, &[1, 1, 0, 0, 1])], home(8_193)),
        (&[(Area::Home, 8_192, &[1, 1, 0, 0, 0, 63, 0, 0, 0])], None),
        (
            &[(Area::Home, 8_192, &[1, 1, 0, 0, 0, 64, 0, 0, 0])],
            home(8_197),
        ),
        (
            &[(Area::Home, 8_192, &[1, 2, 0, 0, 0, 5, 0, 0, 0, 5, 0, 0, 0])],
            home(8_201),
        ),
        (
            &[(Area::Home, 8_192, &[1, 2, 0, 0, 0, 5, 0, 0, 0, 5, 0, 0, 1])],
            home(8_201),
        ),
        (
            &[(
                Area::Home,
                8_192,
                &[1, 3, 0, 0, 0, 7, 0, 0, 0, 5, 0, 0, 0, 7, 0, 0, 0],
            )],
            home(8_205),
        ),
        // The log is read first.
        (
            &[
                (Area::Home, 8_192, &[1, 0, 0, 0, 0]),
                (Area::Log0, 0, &[1, 0, 0, 0, 0]),
            ],
            log0(0),
        ),
    ]
}

// A frame in which a transaction begins, as its number 5 says.
const BEGIN: [u8; 26] = [
    1, 21, 0, 0, 0, 1, 21, 0, 0, 0, 5, 0, 0, 0, 0, 0, 0, 0, 0, 0, 0, 0, 0, 0, 0, 0,
];

// A begin and a change of page 64, and a change of page 1 by the operation with code 9.
const OUTSIDE: [u8; 62] = [
    1, 57, 0, 0, 0, 1, 21, 0, 0, 0, 5, 0, 0, 0, 0, 0, 0, 0, 0, 0, 0, 0, 0, 0, 0, 0, 2, 36, 0, 0, 0,
    5, 0, 0, 0, 0, 0, 0, 0, 5, 0, 0, 0, 0, 0, 0, 0, 64, 0, 0, 0, 1, 0, 0, 0, 0, 1, 0, 1, 0, 0, 1,
];

const UNKNOWN: [u8; 61] = [
    1, 56, 0, 0, 0, 1, 21, 0, 0, 0, 5, 0, 0, 0, 0, 0, 0, 0, 0, 0, 0, 0, 0, 0, 0, 0, 2, 35, 0, 0, 0,
    5, 0, 0, 0, 0, 0, 0, 0, 5, 0, 0, 0, 0, 0, 0, 0, 1, 0, 0, 0, 6, 0, 0, 9, 0, 0, 0, 1, 0, 1,
];

// A change by the operation with code 9 in an action of the system that has no end, and a checkpoint behind it that estimates its
// own number: history is repeated behind the change, which is taken off.
const UNKNOWN_BEFORE_THE_POINT: [u8; 76] = [
    1, 35, 0, 0, 0, 2, 35, 0, 0, 0, 0, 0, 0, 0, 0, 0, 0, 0, 0, 0, 0, 0, 0, 0, 0, 0, 1, 0, 0, 0, 6,
    0, 0, 9, 0, 0, 0, 1, 0, 1, 1, 31, 0, 0, 0, 12, 31, 0, 0, 0, 0, 0, 0, 0, 0, 0, 0, 0, 0, 0, 0, 0,
    0, 0, 0, 0, 45, 0, 0, 0, 0, 0, 0, 0, 0, 0,
];

// Frames of the log, each told by the offset of its gate.
fn frames() -> [Row; 15] {
    [
        (&[(Area::Log0, 0, &BEGIN)], None),
        // Lengths that no body has, and one of more bytes than the records have.
        (&[(Area::Log0, 0, &[1, 0, 0, 0, 0])], log0(0)),
        (
            &[(Area::Log0, 0, &BEGIN), (Area::Log0, 1, &[1, 0, 1])],
            log0(0),
        ),
        (&[(Area::Log0, 0, &BEGIN), (Area::Log0, 1, &[22])], log0(0)),
        // A body that ends within a record.
        (&[(Area::Log0, 0, &BEGIN), (Area::Log0, 1, &[20])], log0(0)),
        // A record that says another length than its own.
        (&[(Area::Log0, 0, &BEGIN), (Area::Log0, 6, &[20])], log0(0)),
        // A second frame without a record, behind an open gate and behind a closed one.
        (&[(Area::Log0, 0, &BEGIN), (Area::Log0, 26, &[1])], log0(26)),
        (
            &[(Area::Log0, 0, &BEGIN), (Area::Log0, 26, &[3, 1, 1])],
            None,
        ),
        // Of the log's areas the superblock's counts.
        (&[(Area::Log1, 0, &[1])], None),
        (
            &[(Area::Home, 35, &[1]), (Area::Log1, 0, &[1])],
            Some(OpenFault::Damaged {
                area: Area::Log1,
                at: 0,
            }),
        ),
        // A frame that ends at byte 2^63 of the log, and one that ends behind it.
        (
            &[
                (Area::Home, 36, &[230, 255, 255, 255, 255, 255, 255, 127]),
                (Area::Log0, 0, &BEGIN),
                (Area::Log0, 10, &[235, 255, 255, 255, 255, 255, 255, 127]),
            ],
            None,
        ),
        (
            &[
                (Area::Home, 36, &[231, 255, 255, 255, 255, 255, 255, 127]),
                (Area::Log0, 0, &BEGIN),
                (Area::Log0, 10, &[236, 255, 255, 255, 255, 255, 255, 127]),
            ],
            log0(0),
        ),
        (&[(Area::Log0, 0, &OUTSIDE)], log0(0)),
        (
            &[(Area::Log0, 0, &UNKNOWN)],
            Some(OpenFault::UnknownOperation(9)),
        ),
        (
            &[(Area::Log0, 0, &UNKNOWN_BEFORE_THE_POINT)],
            Some(OpenFault::UnknownOperation(9)),
        ),
    ]
}

#[test]
fn the_superblock_that_counts_is_refused_by_its_first_wrong_field(
    rt: HostRuntime,
) -> Result<(), Fail> {
    let alloc = rt.alloc();
    for (patches, fault) in &superblocks() {
        let found = answer::<_, Brand>(&rt, alloc, patches, Blank::new(1));
        assert_eq!(rt; found, Ok(fault.map(Refused::unwritten)));
    }
    Ok(())
}

#[test]
fn a_double_write_header_is_refused_by_its_first_wrong_number(rt: HostRuntime) -> Result<(), Fail> {
    let alloc = rt.alloc();
    for (patches, fault) in &headers() {
        let found = answer::<_, Brand>(&rt, alloc, patches, Blank::new(1));
        assert_eq!(rt; found, Ok(fault.map(Refused::unwritten)));
    }
    Ok(())
}

#[test]
fn a_log_is_refused_by_its_first_wrong_frame(rt: HostRuntime) -> Result<(), Fail> {
    let alloc = rt.alloc();
    for (patches, fault) in &frames() {
        let found = answer::<_, Brand>(&rt, alloc, patches, Blank::new(1));
        assert_eq!(rt; found, Ok(fault.map(Refused::unwritten)));
    }
    Ok(())
}
