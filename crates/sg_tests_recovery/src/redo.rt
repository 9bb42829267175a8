ghost use Rattle.std.specs.Prelude.{◌≡◌, ◌<◌};

use sg_base::{BAND_SIZE, Lsn, PAGE_SIZE, PageOp, Steps, view};
use sg_frames::{Frames, Loan};
use sg_ops::{Ops, Rotate};
use sg_redo::{BandChange, Place, Unit, apply_page, apply_window, are_known, replay};
use sg_segment::Dirty;
use std::alloc::Global;
use std::marker::Brand;
use std::sync::ledger::{Blank, Ledger};
use std::test::Fail;

// A record on a page, and the slot's cell afterwards: by calls that no clause follows.
fn redo(page: &mut [u8; PAGE_SIZE], lsn: Lsn, op: &PageOp<'_>, ops: &Ops) -> bool {
    apply_page(page, lsn, op, ops)
}

fn holds(page: &[u8], cell: Option<&[u8]>) -> bool {
    match view(page) {
        Some(view) => view.slot(0) == cell,
        None => cell.is_none(),
    }
}

const TURN: PageOp<'static> = PageOp::Item {
    slot: 0,
    code: 3,
    arg: &[1],
};

// Each row: a record's number and operation, whether it is done, and what slot 0 holds then.
const RECORDS: [(Lsn, PageOp<'static>, bool, Option<&'static [u8]>); 15] = [
    (
        4,
        PageOp::Put {
            slot: 0,
            bytes: b"abc",
        },
        false,
        None,
    ),
    (5, PageOp::Format { kind: 4 }, true, None),
    (
        9,
        PageOp::Put {
            slot: 0,
            bytes: b"abc",
        },
        true,
        Some(b"abc"),
    ),
    (
        9,
        PageOp::Set {
            slot: 0,
            bytes: b"xyz",
        },
        false,
        Some(b"abc"),
    ),
    (20, TURN, true, Some(b"bca")),
    (20, TURN, false, Some(b"bca")),
    (19, TURN, false, Some(b"bca")),
    (
        21,
        PageOp::Item {
            slot: 0,
            code: 2,
            arg: &[1],
        },
        false,
        Some(b"bca"),
    ),
    (
        22,
        PageOp::Item {
            slot: 1,
            code: 3,
            arg: &[1],
        },
        false,
        Some(b"bca"),
    ),
    (
        23,
        PageOp::ItemBack {
            slot: 0,
            code: 3,
            arg: &[1],
        },
        true,
        Some(b"abc"),
    ),
    (
        24,
        PageOp::Set {
            slot: 0,
            bytes: b"wx",
        },
        true,
        Some(b"wx"),
    ),
    (25, PageOp::Links { a: 1, b: 2 }, true, Some(b"wx")),
    (26, PageOp::Remove { slot: 0 }, true, None),
    (27, PageOp::Remove { slot: 0 }, false, None),
    (
        28,
        PageOp::Put {
            slot: 2,
            bytes: b"",
        },
        false,
        None,
    ),
];

#[test]
fn each_record_is_done_once_where_it_fits(rt: HostRuntime) -> Result<(), Fail> {
    let Ok(mut ops) = Ops::new(rt.alloc()) else {
        assert!(rt; false);
        return Ok(());
    };
    assert!(rt; ops.register_record(Box::new(rt.alloc(), Rotate)?).is_ok());
    let mut page = [0; PAGE_SIZE];
    for (lsn, op, is_done, cell) in RECORDS {
        assert_eq!(rt; redo(&mut page, lsn, &op, &ops), is_done, "record {lsn}");
        assert!(rt; holds(&page, cell), "after record {lsn}");
    }
    assert_eq!(rt; sg_base::page_lsn(&page), 26);
    Ok(())
}

// Two changes of a window, the second over the first, and a part of it with the marked run.
fn changed(alloc: Global) -> Option<([u8; 6], Option<(u32, u32)>)> {
    let Ok(ops) = Ops::new(alloc) else {
        return None;
    };
    if !ops.has_range(1) {
        return None;
    }
    let mut window = [7; BAND_SIZE];
    let mut dirty = Dirty::new();
    apply_window(
        &mut window,
        &mut dirty,
        &BandChange::Write {
            at: 10,
            bytes: b"abc",
        },
        &ops,
    );
    let paint = BandChange::Paint {
        at: 12,
        count: 2,
        code: 1,
        position: 3,
        arg: b"xy",
    };
    apply_window(&mut window, &mut dirty, &paint, &ops);
    let mut part = [0; 6];
    part.copy_from_slice(&window[9..15]);
    Some((part, dirty.next_run(0)))
}

#[test]
fn the_last_change_of_a_byte_wins(rt: HostRuntime) {
    assert!(rt; changed(rt.alloc()) == Some(([7, b'a', b'b', b'y', b'x', 7], Some((10, 4)))));
}

// The record of transaction 5 that turns the item in slot 0 of page 3 by one byte.
const TURNED: [u8; 35] = [
    2, 35, 0, 0, 0, 5, 0, 0, 0, 0, 0, 0, 0, 26, 0, 0, 0, 0, 0, 0, 0, 3, 0, 0, 0, 6, 0, 0, 3, 0, 0,
    0, 1, 0, 1,
];

// Replays that record, whose number is 20, on the page that is lent.
fn turn<L: Ledger>(loan: Loan, ops: &Ops, steps: &mut Steps<L>) -> Loan
    ensures spot { result.spot ≡ loan.spot }
    ensures place { result.place ≡ loan.place }
{
    let places = [Place {
        unit: 3,
        lsn: 20,
        at: 0,
    }];
    let mut units = [Unit {
        number: 3,
        loan,
        dirty: Dirty::new(),
        since: None,
        first: 0,
        count: 1,
    }];
    if are_known(&places, &TURNED, ops) {
        replay(&mut units, &places, &TURNED, ops, steps);
    }
    let [unit] = units;
    let Unit {
        number: _,
        loan,
        dirty: _,
        since: _,
        first: _,
        count: _,
    } = unit;
    loan
}

// Lays over the page that is lent: its number is 9, and slot 0 holds `abc`.
fn lay_over(loan: &mut Loan, ops: &Ops)
    ensures spot { loan.new.spot ≡ loan.old.spot }
    ensures place { loan.new.place ≡ loan.old.place }
{
    let mut page = [0; PAGE_SIZE];
    redo(&mut page, 5, &PageOp::Format { kind: 4 }, ops);
    let put = PageOp::Put {
        slot: 0,
        bytes: b"abc",
    };
    redo(&mut page, 9, &put, ops);
    let bytes = loan.bytes_mut();
    if bytes.len() == PAGE_SIZE {
        bytes.copy_from_slice(&page);
    }
}

// Replays the record on a page of 255 in each byte, and twice on the page that is laid over it: whether
// slot 0 holds nothing, and then the turned item both times.
fn turned<L: Ledger>(loan: Loan, ops: &Ops, blank: Blank) -> ([bool; 3], Loan)
    requires name { blank.name ≡ L.name }
    requires parts { blank.parts ≡ L.parts }
    requires some { 0 < L.parts }
    ensures spot { result.1.spot ≡ loan.spot }
    ensures place { result.1.place ≡ loan.place }
{
    let mut steps = Steps::<L>::open(blank);
    let mut loan = loan;
    loan.bytes_mut().fill(255);
    let mut loan = turn(loan, ops, &mut steps);
    let none = holds(loan.bytes(), None);
    lay_over(&mut loan, ops);
    let loan = turn(loan, ops, &mut steps);
    let once = holds(loan.bytes(), Some(b"bca"));
    let loan = turn(loan, ops, &mut steps);
    let still = holds(loan.bytes(), Some(b"bca"));
    ([none, once, still], loan)
}

#[test]
fn a_page_of_255_that_is_laid_over(rt: HostRuntime) -> Result<(), Fail> {
    let Ok(mut ops) = Ops::new(rt.alloc()) else {
        assert!(rt; false);
        return Ok(());
    };
    assert!(rt; ops.register_record(Box::new(rt.alloc(), Rotate)?).is_ok());
    let mut frames = Frames::new(rt.alloc(), 1, 1)?;
    let (are_right, loan) = turned::<Brand>(frames.take(0), &ops, Blank::new(1));
    assert_eq!(rt; are_right, [true, true, true]);
    frames.give(loan);
    frames.end();
    Ok(())
}
