use sg_record::{Rec, RecError, decode, encode, size};

// One record of each kind, one behind another.
const RECORDS: [u8; 536] = [
    // A transaction begins.
    1, 21, 0, 0, 0, 5, 0, 0, 0, 0, 0, 0, 0, 0, 0, 0, 0, 0, 0, 0, 0,
    // Slot 2 of page 7 is set from `ab` to `xyz`.
    2, 39, 0, 0, 0, 5, 0, 0, 0, 0, 0, 0, 0, 26, 0, 0, 0, 0, 0, 0, 0, 7, 0, 0, 0, 4, 2, 0, 0, 0, 2,
    0, 3, 0, b'a', b'b', b'x', b'y', b'z',
    // Bytes 100 and 101 of band 3.
    3, 37, 0, 0, 0, 5, 0, 0, 0, 0, 0, 0, 0, 26, 0, 0, 0, 0, 0, 0, 0, 3, 0, 0, 0, 100, 0, 0, 0, 2,
    0, 0, 0, 1, 2, 3, 4,
    // Operation 2 with the argument 9 at position 8, on 4 bytes of band 3.
    4, 50, 0, 0, 0, 5, 0, 0, 0, 0, 0, 0, 0, 26, 0, 0, 0, 0, 0, 0, 0, 3, 0, 0, 0, 0, 1, 0, 0, 4, 0,
    0, 0, 2, 0, 8, 0, 0, 0, 1, 0, 9, 4, 0, 0, 0, 1, 2, 3, 4,
    // Zeros in 4 bytes of band 3.
    4, 45, 0, 0, 0, 5, 0, 0, 0, 0, 0, 0, 0, 26, 0, 0, 0, 0, 0, 0, 0, 3, 0, 0, 0, 0, 1, 0, 0, 4, 0,
    0, 0, 1, 0, 8, 0, 0, 0, 0, 0, 0, 0, 0, 0,
    // An action with a note of one byte.
    5, 32, 0, 0, 0, 5, 0, 0, 0, 0, 0, 0, 0, 26, 0, 0, 0, 0, 0, 0, 0, 5, 0, 0, 0, 0, 0, 0, 0, 1, 0,
    7,
    // Slot 2 of page 7 is set back to one byte.
    6, 44, 0, 0, 0, 5, 0, 0, 0, 0, 0, 0, 0, 26, 0, 0, 0, 0, 0, 0, 0, 5, 0, 0, 0, 0, 0, 0, 0, 2, 7,
    0, 0, 0, 4, 2, 0, 0, 0, 0, 0, 1, 0, b'x',
    // Bytes 100 and 101 of band 3, set back.
    6, 44, 0, 0, 0, 5, 0, 0, 0, 0, 0, 0, 0, 26, 0, 0, 0, 0, 0, 0, 0, 5, 0, 0, 0, 0, 0, 0, 0, 3, 3,
    0, 0, 0, 100, 0, 0, 0, 2, 0, 0, 0, 1, 2,
    // Zeros in 4 bytes of band 3, where a change is taken off.
    6, 54, 0, 0, 0, 5, 0, 0, 0, 0, 0, 0, 0, 26, 0, 0, 0, 0, 0, 0, 0, 5, 0, 0, 0, 0, 0, 0, 0, 4, 3,
    0, 0, 0, 0, 1, 0, 0, 4, 0, 0, 0, 1, 0, 8, 0, 0, 0, 0, 0, 0, 0, 0, 0,
    // No change of an action is left.
    7, 29, 0, 0, 0, 5, 0, 0, 0, 0, 0, 0, 0, 26, 0, 0, 0, 0, 0, 0, 0, 5, 0, 0, 0, 0, 0, 0, 0,
    // An action was undone.
    8, 29, 0, 0, 0, 5, 0, 0, 0, 0, 0, 0, 0, 26, 0, 0, 0, 0, 0, 0, 0, 5, 0, 0, 0, 0, 0, 0, 0,
    // Mark 16.
    9, 23, 0, 0, 0, 5, 0, 0, 0, 0, 0, 0, 0, 26, 0, 0, 0, 0, 0, 0, 0, 16, 0,
    // A transaction is committed.
    10, 21, 0, 0, 0, 5, 0, 0, 0, 0, 0, 0, 0, 47, 0, 0, 0, 0, 0, 0, 0,
    // Another one has ended, with a number of 8 bytes.
    11, 21, 0, 0, 0, 8, 7, 6, 5, 4, 3, 2, 1, 0, 1, 0, 0, 0, 0, 0, 0,
    // Transaction 5 is live, and its last record is 26.
    12, 47, 0, 0, 0, 0, 0, 0, 0, 0, 0, 0, 0, 0, 0, 0, 0, 0, 0, 0, 0, 5, 0, 0, 0, 0, 0, 0, 0, 1, 0,
    5, 0, 0, 0, 0, 0, 0, 0, 26, 0, 0, 0, 0, 0, 0, 0,
];

// Their numbers.
const BEGIN: u32 = 0;

const PAGE: u32 = 1;

const SEG_WRITE: u32 = 2;

const SEG_OP: u32 = 3;

const ZEROS: u32 = 4;

const TOP_END: u32 = 5;

const COMP_PAGE: u32 = 6;

const COMP_WRITE: u32 = 7;

const COMP_ZEROS: u32 = 8;

const TOP_VOID: u32 = 9;

const COMP_END: u32 = 10;

const SAVE: u32 = 11;

const COMMIT: u32 = 12;

const END: u32 = 13;

const CHECKPOINT: u32 = 14;

// Where each of them begins and ends.
const PLACES: [(usize, usize); 15] = [
    (0, 21),
    (21, 60),
    (60, 97),
    (97, 147),
    (147, 192),
    (192, 224),
    (224, 268),
    (268, 312),
    (312, 366),
    (366, 395),
    (395, 424),
    (424, 447),
    (447, 468),
    (468, 489),
    (489, 536),
];

// The bytes of one of them.
fn record(number: usize) -> Option<&'static [u8]> {
    let Some((start, end)) = PLACES.get(number) else {
        return None;
    };
    RECORDS.get(*start..*end)
}

// Reads the record and writes it again, and says how many bytes were written.
fn written_again(bytes: &[u8], into: &mut [u8]) -> Option<usize> {
    let Ok((r, length)) = decode(bytes) else {
        return None;
    };
    if length > into.len() || size(&r) != length {
        return None;
    }
    Some(encode(&r, into))
}

// Whether it's the same bytes that were written, and none behind them.
fn comes_back(bytes: &[u8]) -> bool {
    let mut into = [7u8; 64];
    let length = written_again(bytes, &mut into);
    length == Some(bytes.len()) && into.starts_with(bytes) && into.get(bytes.len()) == Some(&7)
}

// Which of the records doesn't come back.
fn first_lost() -> Option<usize> {
    for number in 0..PLACES.len() {
        if !record(number).is_some_and(comes_back) {
            return Some(number);
        }
    }
    None
}

#[test]
fn each_kind_is_read_and_written(rt: HostRuntime) {
    assert_eq!(rt; first_lost(), None);
}

// The numbers of a record, in the order of its fields.
fn numbers(bytes: &[u8]) -> Option<[u64; 5]> {
    let Ok((r, _)) = decode(bytes) else {
        return None;
    };
    let txn = r.txn().0;
    let prev = r.prev();
    Some(match &r {
        Rec::Page { change, .. } => [
            txn,
            u64::from(change.page.0),
            u64::from(change.operation),
            u64::from(change.slot),
            change.after.len() as u64,
        ],
        Rec::SegWrite { change, .. } => [
            txn,
            u64::from(change.band.0),
            u64::from(change.at),
            u64::from(change.count),
            change.before.len() as u64,
        ],
        Rec::SegOp { change, .. } => [
            u64::from(change.at),
            u64::from(change.code),
            u64::from(change.position),
            change.arg.len() as u64,
            change.before.len() as u64,
        ],
        Rec::TopEnd {
            undo_next,
            note,
            ..
        } => [txn, prev, *undo_next, note.len() as u64, 0],
        Rec::Save { mark, .. } => [txn, prev, u64::from(*mark), 0, 0],
        Rec::Checkpoint { estimate, live } => [txn, prev, *estimate, live.len() as u64, 0],
        _ => [txn, prev, 0, 0, 0],
    })
}

// Those of each record.
const FIELDS: [[u64; 5]; 15] = [
    [5, 0, 0, 0, 0],
    [5, 7, 4, 2, 3],
    [5, 3, 100, 2, 2],
    [256, 2, 8, 1, 4],
    [256, 1, 8, 0, 0],
    [5, 26, 5, 1, 0],
    [5, 26, 0, 0, 0],
    [5, 26, 0, 0, 0],
    [5, 26, 0, 0, 0],
    [5, 26, 0, 0, 0],
    [5, 26, 0, 0, 0],
    [5, 26, 16, 0, 0],
    [5, 47, 0, 0, 0],
    [0x0102_0304_0506_0708, 256, 0, 0, 0],
    [0, 0, 5, 16, 0],
];

// Which record has other numbers.
fn first_other() -> Option<usize> {
    for (number, want) in FIELDS.iter().enumerate() {
        if record(number).and_then(numbers) != Some(*want) {
            return Some(number);
        }
    }
    None
}

#[test]
fn fields_are_those_of_the_record(rt: HostRuntime) {
    assert_eq!(rt; first_other(), None);
}

// What is told of a record's bytes: nothing, that bytes are lacking, or a kind or a field's offset
// that is at fault.
type Told = (u32, u32);

const GOOD: u32 = 0;

const SHORT: u32 = 1;

const BAD_KIND: u32 = 2;

const BAD_FIELD: u32 = 3;

fn told(fault: Option<RecError>) -> Told {
    match fault {
        None => (GOOD, 0),
        Some(RecError::Short) => (SHORT, 0),
        Some(RecError::BadKind(kind)) => (BAD_KIND, u32::from(kind)),
        Some(RecError::BadField(at)) => (BAD_FIELD, at),
    }
}

// A byte of a record that is changed: where it stands, and what stands there then.
type Patch = [u32; 2];

// One that changes nothing: a zero behind each record.
const SAME: Patch = [255, 0];

fn patch(bytes: &mut [u8], changes: &[Patch]) {
    for [at, byte] in changes {
        if let Some(to) = bytes.get_mut(*at as usize) {
            *to = (*byte % 256) as u8;
        }
    }
}

// What is told of the first bytes, so many, of a record with some bytes changed and zeros behind it.
fn told_of(number: u32, changes: &[Patch], count: u32) -> Option<Told> {
    let mut bytes = [0u8; 16_500];
    let Some(record) = record(number as usize) else {
        return None;
    };
    let Some(front) = bytes.get_mut(..record.len()) else {
        return None;
    };
    front.copy_from_slice(record);
    patch(&mut bytes, changes);
    let Some(read) = bytes.get(..count as usize) else {
        return None;
    };
    Some(told(decode(read).err()))
}

// A record, the bytes of it that are changed, how many bytes are read, and what is told of them.
const HOSTILE: [(u32, [Patch; 2], u32, u32, u32); 35] = [
    // The order of the faults.
    (BEGIN, [SAME, SAME], 0, SHORT, 0),
    (BEGIN, [SAME, SAME], 20, SHORT, 0),
    (BEGIN, [[0, 0], SAME], 20, SHORT, 0),
    (BEGIN, [[0, 0], SAME], 21, BAD_KIND, 0),
    (BEGIN, [[0, 13], SAME], 21, BAD_KIND, 13),
    (BEGIN, [[0, 255], [1, 99]], 21, BAD_KIND, 255),
    (BEGIN, [[1, 22], SAME], 21, SHORT, 0),
    (BEGIN, [[4, 1], SAME], 21, SHORT, 0),
    // The length of the whole record.
    (BEGIN, [[1, 20], SAME], 21, BAD_FIELD, 1),
    (BEGIN, [[1, 22], SAME], 22, BAD_FIELD, 1),
    (BEGIN, [SAME, SAME], 22, GOOD, 0),
    (PAGE, [[30, 3], SAME], 39, BAD_FIELD, 1),
    (SEG_WRITE, [[29, 3], SAME], 37, BAD_FIELD, 1),
    (SEG_OP, [[39, 2], SAME], 50, BAD_FIELD, 1),
    (TOP_END, [[29, 2], SAME], 32, BAD_FIELD, 1),
    (CHECKPOINT, [[29, 2], SAME], 47, BAD_FIELD, 1),
    (COMP_PAGE, [[1, 29], SAME], 44, BAD_FIELD, 1),
    // A page's number, the operation and both lengths.
    (PAGE, [[23, 16], SAME], 39, BAD_FIELD, 21),
    (PAGE, [[25, 0], SAME], 39, BAD_FIELD, 25),
    (PAGE, [[25, 2], SAME], 39, BAD_FIELD, 30),
    (PAGE, [[25, 3], SAME], 39, BAD_FIELD, 32),
    // A band, a place and a count.
    (SEG_WRITE, [[23, 1], SAME], 37, BAD_FIELD, 21),
    (SEG_WRITE, [[26, 0x80], SAME], 37, BAD_FIELD, 25),
    (SEG_WRITE, [[25, 0xfe], [26, 0x7f]], 37, GOOD, 0),
    (SEG_WRITE, [[25, 0xff], [26, 0x7f]], 37, BAD_FIELD, 29),
    (ZEROS, [[29, 0], SAME], 45, BAD_FIELD, 29),
    (ZEROS, [[29, 1], [30, 0x20]], 45, BAD_FIELD, 29),
    // A position, an argument, and how many bytes stood there.
    (ZEROS, [[33, 2], SAME], 45, BAD_FIELD, 41),
    (SEG_OP, [[29, 3], SAME], 50, BAD_FIELD, 42),
    // What takes a change off.
    (COMP_PAGE, [[29, 5], SAME], 44, BAD_FIELD, 29),
    (COMP_PAGE, [[39, 1], [41, 0]], 44, BAD_FIELD, 39),
    (COMP_ZEROS, [[42, 2], SAME], 54, BAD_FIELD, 42),
    // A note of 2,401 bytes, marks, and checkpoints.
    (SAVE, [[21, 17], SAME], 23, BAD_FIELD, 21),
    (CHECKPOINT, [[5, 1], [13, 1]], 47, BAD_FIELD, 5),
    (CHECKPOINT, [[13, 1], SAME], 47, BAD_FIELD, 13),
];

// The same with more bytes changed.
const LONGER: [(u32, [Patch; 6], u32, u32, u32); 12] = [
    // The length of the whole record.
    (
        PAGE,
        [[1, 33], [21, 255], [24, 255], SAME, SAME, SAME],
        39,
        BAD_FIELD,
        1,
    ),
    // 16,417 bytes of a band's 8,192 and of a page, and 16,418.
    (
        SEG_WRITE,
        [[1, 0x21], [2, 0x40], [29, 0], [30, 0x20], SAME, SAME],
        16_417,
        GOOD,
        0,
    ),
    (
        PAGE,
        [[1, 0x21], [2, 0x40], [30, 0], [32, 0xff], [33, 0x3f], SAME],
        16_417,
        GOOD,
        0,
    ),
    (
        PAGE,
        [[1, 0x22], [2, 0x40], [30, 0], [32, 0], [33, 0x40], SAME],
        16_418,
        BAD_FIELD,
        1,
    ),
    // A page's number, the operation and both lengths.
    (
        PAGE,
        [[25, 8], [30, 5], [32, 0], SAME, SAME, SAME],
        39,
        BAD_FIELD,
        25,
    ),
    (
        PAGE,
        [[25, 6], [30, 0], [32, 5], SAME, SAME, SAME],
        39,
        GOOD,
        0,
    ),
    (
        PAGE,
        [[1, 0x23], [2, 1], [25, 6], [30, 0], [32, 1], [33, 1]],
        291,
        BAD_FIELD,
        32,
    ),
    // A position, an argument, and how many bytes stood there.
    (
        ZEROS,
        [[35, 0xfc], [36, 0xff], [37, 0xf9], SAME, SAME, SAME],
        45,
        GOOD,
        0,
    ),
    (
        ZEROS,
        [[35, 0xfd], [36, 0xff], [37, 0xf9], SAME, SAME, SAME],
        45,
        BAD_FIELD,
        35,
    ),
    (
        ZEROS,
        [[1, 0x2e], [2, 1], [39, 1], [40, 1], SAME, SAME],
        302,
        BAD_FIELD,
        39,
    ),
    // A note of 2,401 bytes, marks, and checkpoints.
    (
        TOP_END,
        [[1, 0x80], [2, 9], [29, 0x61], [30, 9], SAME, SAME],
        2_432,
        BAD_FIELD,
        29,
    ),
    (
        CHECKPOINT,
        [[1, 0x2f], [2, 4], [29, 65], SAME, SAME, SAME],
        1_071,
        BAD_FIELD,
        29,
    ),
];

// Of which record something else is told.
fn first_told_wrong() -> Option<usize> {
    for (row, (number, changes, count, fault, what)) in HOSTILE.iter().enumerate() {
        if told_of(*number, changes, *count) != Some((*fault, *what)) {
            return Some(row);
        }
    }
    None
}

fn first_longer_told_wrong() -> Option<usize> {
    for (row, (number, changes, count, fault, what)) in LONGER.iter().enumerate() {
        if told_of(*number, changes, *count) != Some((*fault, *what)) {
            return Some(row);
        }
    }
    None
}

#[test]
fn hostile_records(rt: HostRuntime) {
    assert_eq!(rt; first_told_wrong(), None);
    assert_eq!(rt; first_longer_told_wrong(), None);
}
