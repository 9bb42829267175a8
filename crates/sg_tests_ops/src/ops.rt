ghost use Rattle.std.specs.Prelude.{true, refl};
ghost use Rattle.std.proofs.Common.{rules};

use sg_ops::{Add, Ops, OpsError, RANGE_LIMIT, Ramp, RangeOp, RecordOp};
use std::alloc::Global;
use std::sync::Arc;
use std::sync::atomic::{AtomicU64, Ordering};
use std::test::Fail;

// A record operation under any code, which changes nothing and counts how often it is dropped.
struct Idle {
    code: u16,
    drops: Arc<AtomicU64, Global>,
}

impl Drop for Idle {
    fn drop(self) {
        self.drops.fetch_add(1, Ordering::SeqCst);
        let Idle { code: _, drops: _ } = self;
    }
}

impl RecordOp for Idle {
    ghost record_meaning = { λ op. record { code = op.code; accepts = λ item arg. true; after = λ item arg. item; before = λ item arg. item } };

    ghost record_law = { λ op. record { undoes = λ item arg a b h. refl; keeps_length = λ item arg a b h. refl; leaves_bytes = λ item arg a b h. a; undo_keeps_length = λ item arg a b. refl; undo_leaves_bytes = λ item arg a b. a } };

    fn code(&self) -> u16 {
        self.code
    }

    fn accepts(&self, _item: &[u8], _arg: &[u8]) -> bool {
        true
    }

    fn redo(&self, _item: &mut [u8], _arg: &[u8]) {}

    fn undo(&self, _item: &mut [u8], _arg: &[u8]) {}
}

// A range operation under any code, which gives zeros.
struct Blank {
    code: u16,
    drops: Arc<AtomicU64, Global>,
}

impl Drop for Blank {
    fn drop(self) {
        self.drops.fetch_add(1, Ordering::SeqCst);
        let Blank { code: _, drops: _ } = self;
    }
}

impl RangeOp for Blank {
    ghost range_meaning = { λ op. record { code = op.code; byte = λ arg position. 0 } };

    ghost range_law = { λ op arg position bytes within. Prim.search rules };

    fn code(&self) -> u16 {
        self.code
    }

    fn render(&self, _pos: u32, _arg: &[u8], into: &mut [u8]) {
        into.fill(0);
    }
}

fn make_idle(code: u16, drops: &Arc<AtomicU64, Global>) -> Result<Idle, Fail> {
    Ok(Idle {
        code,
        drops: Arc::try_clone(drops)?,
    })
}

fn make_blank(code: u16, drops: &Arc<AtomicU64, Global>) -> Result<Blank, Fail> {
    Ok(Blank {
        code,
        drops: Arc::try_clone(drops)?,
    })
}

// Whether the operation accepts the item, leaves this of it, and its undo gives the item back.
fn leaves(ops: &Ops, code: u16, item: &[u8], arg: &[u8], want: &[u8]) -> bool {
    let mut buffer = [0u8; 8];
    let Some(bytes) = buffer.get_mut(..item.len()) else {
        return false;
    };
    bytes.copy_from_slice(item);
    if !ops.has_record(code) || !ops.accepts(code, bytes, arg) {
        return false;
    }
    ops.redo(code, bytes, arg);
    let is_changed = *bytes == *want;
    ops.undo(code, bytes, arg);
    is_changed && *bytes == *item
}

// Whether an operation is registered that accepts an item and an argument of these lengths.
fn accepts(ops: &Ops, code: u16, item: usize, arg: usize) -> bool {
    let bytes = [7u8; 9];
    match bytes.get(..item).zip(bytes.get(..arg)) {
        Some((item, arg)) => ops.has_record(code) && ops.accepts(code, item, arg),
        None => false,
    }
}

// Whether the operation is registered and gives these bytes from the position on.
fn gives(ops: &Ops, code: u16, pos: u32, arg: &[u8], want: &[u8]) -> bool {
    let mut bytes = [9u8; 4];
    if !ops.has_range(code) || pos > RANGE_LIMIT - 4 {
        return false;
    }
    ops.render(code, pos, arg, &mut bytes);
    bytes.as_slice() == want
}

// Code, item, argument, and what the operation leaves.
const CHANGES: [(u16, &[u8], &[u8], &[u8]); 10] = [
    // The sum of numbers, of which the bytes past the item's length are lost.
    (1, &[250, 0, 0], &[10, 0, 0], &[4, 1, 0]),
    (1, &[255, 255, 0], &[1, 0, 0], &[0, 0, 1]),
    (1, &[255, 255, 255], &[1, 0, 0], &[0, 0, 0]),
    // 0x563412 + 0xf0debc = 0x14712ce
    (
        1,
        &[0x12, 0x34, 0x56],
        &[0xbc, 0xde, 0xf0],
        &[0xce, 0x12, 0x47],
    ),
    // Each bit that differs.
    (
        2,
        &[0b1100, 0xff, 0],
        &[0b1010, 0x0f, 9],
        &[0b0110, 0xf0, 9],
    ),
    // Turned toward the front.
    (3, &[1, 2, 3, 4, 5], &[0], &[1, 2, 3, 4, 5]),
    (3, &[1, 2, 3, 4, 5], &[2], &[3, 4, 5, 1, 2]),
    (3, &[1, 2, 3, 4, 5], &[7], &[3, 4, 5, 1, 2]),
    (3, &[1, 2, 3, 4, 5], &[255], &[1, 2, 3, 4, 5]),
    (3, &[], &[2], &[]),
];

// The place of the first row that goes otherwise.
fn changed_otherwise(ops: &Ops) -> Option<usize> {
    for (i, (code, item, arg, want)) in CHANGES.iter().enumerate() {
        if !leaves(ops, *code, item, arg, want) {
            return Some(i);
        }
    }
    None
}

#[test]
fn items_are_changed_and_come_back(rt: HostRuntime) -> Result<(), Fail> {
    let ops = Ops::shipped(rt.alloc())?;
    assert!(rt; changed_otherwise(&ops).is_none());
    Ok(())
}

// Lengths of item and argument, and whether add, xor and rotate accept them.
const ACCEPTED: [(usize, usize, bool, bool, bool); 7] = [
    (0, 0, true, true, false),
    (8, 8, true, true, false),
    (9, 9, false, true, false),
    (3, 2, false, false, false),
    (0, 1, false, false, true),
    (5, 1, false, false, true),
    (1, 1, true, true, true),
];

// The place of the first row that is accepted otherwise.
fn accepted_otherwise(ops: &Ops) -> Option<usize> {
    for (i, (item, arg, add, xor, rotate)) in ACCEPTED.iter().enumerate() {
        let are_so = accepts(ops, 1, *item, *arg) == *add
            && accepts(ops, 2, *item, *arg) == *xor
            && accepts(ops, 3, *item, *arg) == *rotate;
        if !are_so {
            return Some(i);
        }
    }
    None
}

#[test]
fn accepts_by_lengths(rt: HostRuntime) -> Result<(), Fail> {
    let ops = Ops::shipped(rt.alloc())?;
    assert!(rt; accepted_otherwise(&ops).is_none());
    Ok(())
}

// Code, position, argument, and the four bytes from there on.
const RENDERED: [(u16, u32, &[u8], [u8; 4]); 4] = [
    (1, 4, &[1, 2, 3], [2, 3, 1, 2]),
    (1, 4, &[], [0, 0, 0, 0]),
    (2, 3, &[250, 7], [253, 254, 255, 0]),
    // The last four positions: 16,384,000 is a multiple of 256.
    (2, 16_383_996, &[], [252, 253, 254, 255]),
];

// The place of the first row whose bytes are others.
fn rendered_otherwise(ops: &Ops) -> Option<usize> {
    for (i, (code, pos, arg, want)) in RENDERED.iter().enumerate() {
        if !gives(ops, *code, *pos, arg, want) {
            return Some(i);
        }
    }
    None
}

#[test]
fn bytes_by_position(rt: HostRuntime) -> Result<(), Fail> {
    let ops = Ops::shipped(rt.alloc())?;
    assert!(rt; rendered_otherwise(&ops).is_none());
    Ok(())
}

// A new table has one range operation, and takes a record operation.
fn begins_with_one(alloc: Global) -> Result<bool, Fail> {
    let mut ops = Ops::new(alloc)?;
    let has_one = ops.has_range(1) && !ops.has_range(2) && !ops.has_record(1);
    let is_taken = ops.register_record(Box::new(alloc, Add)?).is_ok();
    Ok(has_one && is_taken && leaves(&ops, 1, &[255, 0], &[2, 0], &[1, 1]))
}

fn has_the_shipped(ops: &Ops) -> bool {
    let has_records = ops.has_record(1) && ops.has_record(2) && ops.has_record(3);
    let has_ranges = ops.has_range(1) && ops.has_range(2);
    let has_no_more = !ops.has_record(0)
        && !ops.has_record(4)
        && !ops.has_range(0)
        && !ops.has_range(3);
    has_records && has_ranges && has_no_more
}

// What a table of the shipped operations answers to a second one with the code of `ramp`.
fn said_of_ramp(alloc: Global, ops: &mut Ops) -> Result<Result<(), OpsError>, Fail> {
    Ok(ops.register_range(Box::new(alloc, Ramp)?))
}

#[test]
fn five_are_shipped(rt: HostRuntime) -> Result<(), Fail> {
    let alloc = rt.alloc();
    assert!(rt; begins_with_one(alloc)?);
    let mut ops = Ops::shipped(alloc)?;
    let has_them = has_the_shipped(&ops);
    let said = said_of_ramp(alloc, &mut ops)?;
    assert!(rt; has_them && said == Err(OpsError::CodeTaken));
    Ok(())
}

// What is answered to a record operation with this code.
fn said_of_idle(
    alloc: Global,
    ops: &mut Ops,
    code: u16,
    drops: &Arc<AtomicU64, Global>,
) -> Result<Result<(), OpsError>, Fail> {
    let op = make_idle(code, drops)?;
    Ok(ops.register_record(Box::new(alloc, op)?))
}

// What is answered to a range operation with this code.
fn said_of_blank(
    alloc: Global,
    ops: &mut Ops,
    code: u16,
    drops: &Arc<AtomicU64, Global>,
) -> Result<Result<(), OpsError>, Fail> {
    let op = make_blank(code, drops)?;
    Ok(ops.register_range(Box::new(alloc, op)?))
}

// The first of the record operations with codes 0 to 63 that is refused.
fn refused_idle(
    alloc: Global,
    ops: &mut Ops,
    drops: &Arc<AtomicU64, Global>,
) -> Result<Option<u16>, Fail> {
    for code in 0..64u16 {
        if said_of_idle(alloc, ops, code, drops)? != Ok(()) {
            return Ok(Some(code));
        }
    }
    Ok(None)
}

// The first of the range operations with codes 2 to 64 that is refused.
fn refused_blank(
    alloc: Global,
    ops: &mut Ops,
    drops: &Arc<AtomicU64, Global>,
) -> Result<Option<u16>, Fail> {
    for code in 2..65u16 {
        if said_of_blank(alloc, ops, code, drops)? != Ok(()) {
            return Ok(Some(code));
        }
    }
    Ok(None)
}

fn dropped(drops: &Arc<AtomicU64, Global>) -> u64 {
    drops.load(Ordering::SeqCst)
}

// Whether 64 record operations are taken, and what has a code of theirs, or comes behind them, is refused and dropped.
fn records_are_refused(alloc: Global) -> Result<bool, Fail> {
    let drops = Arc::new(alloc, AtomicU64::new(0))?;
    let mut ops = Ops::new(alloc)?;
    let refused = refused_idle(alloc, &mut ops, &drops)?;
    let dropped_first = dropped(&drops);
    let again = said_of_idle(alloc, &mut ops, 63, &drops)?;
    let more = said_of_idle(alloc, &mut ops, 64, &drops)?;
    Ok(
        refused.is_none()
            && dropped_first == 0
            && again == Err(OpsError::CodeTaken)
            && more == Err(OpsError::TableFull)
            && dropped(&drops) == 2
            && ops.has_record(0)
            && ops.has_record(63)
            && !ops.has_record(64),
    )
}

#[test]
fn refuses_records(rt: HostRuntime) -> Result<(), Fail> {
    assert!(rt; records_are_refused(rt.alloc())?);
    Ok(())
}

// The same of range operations, of which one is there at first.
fn ranges_are_refused(alloc: Global) -> Result<bool, Fail> {
    let drops = Arc::new(alloc, AtomicU64::new(0))?;
    let mut ops = Ops::new(alloc)?;
    let again = said_of_blank(alloc, &mut ops, 1, &drops)?;
    let refused = refused_blank(alloc, &mut ops, &drops)?;
    let dropped_first = dropped(&drops);
    let more = said_of_blank(alloc, &mut ops, 0, &drops)?;
    Ok(
        again == Err(OpsError::CodeTaken)
            && refused.is_none()
            && dropped_first == 1
            && more == Err(OpsError::TableFull)
            && dropped(&drops) == 2
            && ops.has_range(64)
            && !ops.has_range(0),
    )
}

#[test]
fn refuses_ranges(rt: HostRuntime) -> Result<(), Fail> {
    assert!(rt; ranges_are_refused(rt.alloc())?);
    Ok(())
}
