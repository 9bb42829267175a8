use sg_base::{PAGE_SIZE, PageOp, view};
use sg_ops::Ops;
use sg_slotted::format;
use sg_step::apply;
use std::test::Fail;

// Does an operation to a page that is one of slots.
fn step(page: &mut [u8], op: &PageOp<'_>, ops: &Ops) -> bool {
    if view(page).is_none() {
        return false;
    }
    apply(page, op, ops)
}

// Whether an operation is done exactly where it is to fit, and the page stays as it was where not.
fn goes(page: &mut [u8; PAGE_SIZE], ops: &Ops, op: &PageOp<'_>, fits: bool) -> bool {
    let before = *page;
    let is_done = step(page, op, ops);
    is_done == fits && (fits || *page == before)
}

// Whether a slot of a page has this cell. None is asked for as `None`.
fn has_cell(page: &[u8], slot: u16, want: Option<&[u8]>) -> bool {
    match view(page) {
        Some(view) => view.slot(slot) == want,
        None => false,
    }
}

// Operations, and whether each fits the page that those before it leave.
const TABLE: [(PageOp<'static>, bool); 13] = [
    (PageOp::Format { kind: 4 }, true),
    (
        PageOp::Put {
            slot: 1,
            bytes: b"ab",
        },
        false,
    ),
    (
        PageOp::Put {
            slot: 0,
            bytes: b"ab",
        },
        true,
    ),
    (
        PageOp::Put {
            slot: 0,
            bytes: b"ab",
        },
        false,
    ),
    (
        PageOp::Set {
            slot: 1,
            bytes: b"x",
        },
        false,
    ),
    (
        PageOp::Set {
            slot: 0,
            bytes: b"\x01\x02",
        },
        true,
    ),
    (
        PageOp::Item {
            slot: 0,
            code: 1,
            arg: b"\xff\x01",
        },
        true,
    ),
    (
        PageOp::Item {
            slot: 0,
            code: 1,
            arg: b"\xff",
        },
        false,
    ),
    (
        PageOp::Item {
            slot: 0,
            code: 9,
            arg: b"\xff\x01",
        },
        false,
    ),
    (
        PageOp::Item {
            slot: 1,
            code: 1,
            arg: b"\xff\x01",
        },
        false,
    ),
    (
        PageOp::ItemBack {
            slot: 0,
            code: 9,
            arg: b"\xff\x01",
        },
        false,
    ),
    (PageOp::Links { a: 7, b: 8 }, true),
    (PageOp::Remove { slot: 1 }, false),
];

// The place of the first of them that goes otherwise.
fn first_wrong(page: &mut [u8; PAGE_SIZE], ops: &Ops) -> Option<usize> {
    for (at, (op, fits)) in TABLE.iter().enumerate() {
        if !goes(page, ops, op, *fits) {
            return Some(at);
        }
    }
    None
}

// Takes the last change of the cell off, and then the cell out.
const BACK: PageOp<'static> = PageOp::ItemBack {
    slot: 0,
    code: 1,
    arg: b"\xff\x01",
};

const REMOVE: PageOp<'static> = PageOp::Remove { slot: 0 };

fn goes_back(page: &mut [u8; PAGE_SIZE], ops: &Ops) -> bool {
    let is_back = goes(page, ops, &BACK, true) && has_cell(page, 0, Some(b"\x01\x02"));
    let is_out = goes(page, ops, &REMOVE, true) && has_cell(page, 0, None);
    is_back && is_out
}

fn is_done_where_it_fits(ops: &Ops) -> bool {
    let mut page = [0xff; PAGE_SIZE];
    format(&mut page, 0);
    let wrong = first_wrong(&mut page, ops);
    wrong.is_none() && has_cell(&page, 0, Some(b"\x00\x04")) && goes_back(&mut page, ops)
}

#[test]
fn each_operation_is_done_where_it_fits(rt: HostRuntime) -> Result<(), Fail> {
    let ops = Ops::shipped(rt.alloc())?;
    assert!(rt; is_done_where_it_fits(&ops));
    Ok(())
}
