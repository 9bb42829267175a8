ghost use Rattle.std.specs.Prelude.{◌≡◌, ◌&&◌, nat_lt, length, Some};
ghost use Rattle.std.specs.Bool.{OnTrue, OnFalse};
ghost use Rattle.sg_base.specs.Op.{op_of};
ghost use Rattle.sg_base.specs.Page.{lsn_of, IsSlotted};
ghost use Rattle.sg_base.specs.Sheet.{sheet_of};
ghost use Rattle.sg_ops.specs.Steps.{step};
ghost use Rattle.sg_ops.specs.Table.{table_of};
ghost use Rattle.sg_redo.specs.History.{redone};
ghost use Rattle.sg_redo.specs.Page.{fits, on_page};
ghost use Rattle.sg_step.specs.Changed.{changed};

use sg_base::{Lsn, PAGE_SIZE, PageOp, page_lsn, view};
use sg_ops::Ops;
use sg_slotted::{format, set_lsn};
use sg_step::apply;

// The operation on any page, where it fits: a format fits each, and any other a page of slots.
#[tactic(auto, unfolding(crate::specs::Page::fits, sg_step::specs::Changed::changed))]
fn change(page: &mut [u8], op: &PageOp<'_>, ops: &Ops) -> bool
    requires { length page.old ≡ PAGE_SIZE }
    ensures fits { result ≡ fits (table_of record_meaning range_meaning ops.now) (op_of op.now) page.old }
    ensures slotted { OnTrue result (IsSlotted page.new) }
    ensures says { OnTrue result
        (step (table_of record_meaning range_meaning ops.now) (op_of op.now) (sheet_of page.old)
        ≡ Some (sheet_of page.new)) }
    ensures lsn { lsn_of page.new ≡ lsn_of page.old }
    ensures bytes { OnTrue result
        (page.new ≡ changed (table_of record_meaning range_meaning ops.now) (op_of op.now) page.old) }
    ensures same { OnFalse result (page.new ≡ page.old) }
{
    if let PageOp::Format { kind } = *op {
        format(page, kind);
        return true;
    }
    if view(page).is_none() {
        return false;
    }
    apply(page, op, ops)
}

/// Does a record's operation to a page of 4,096 bytes where the page's number in the log is below
/// the record's and the operation fits the page, and sets the number then. Says whether it did;
/// where not, no byte changes.
///
/// A format fits any 4,096 bytes. Any other operation fits a page of slots where the call of
/// `sg_slotted` isn't refused, and an operation on an item where it is registered and the slot is
/// full, and accepts the item where it isn't undone.
pub fn apply_page(page: &mut [u8], lsn: Lsn, op: &PageOp<'_>, ops: &Ops) -> bool
    requires { length page.old ≡ PAGE_SIZE }
    ensures redone { page.new ≡ redone (on_page (table_of record_meaning range_meaning ops.now) lsn (op_of op.now)) page.old }
    ensures applied { result ≡ (nat_lt (lsn_of page.old) lsn
        && fits (table_of record_meaning range_meaning ops.now) (op_of op.now) page.old) }

    // A page of slots stays one.
    ensures kept { IsSlotted page.old → IsSlotted page.new }

    // What it leaves of a page, where it does something.
    ensures slotted { OnTrue result (IsSlotted page.new) }
    ensures says { OnTrue result
        (step (table_of record_meaning range_meaning ops.now) (op_of op.now) (sheet_of page.old)
        ≡ Some (sheet_of page.new)) }
    ensures number { OnTrue result (lsn_of page.new ≡ lsn) }
    ensures same { OnFalse result (page.new ≡ page.old) }
{
    if page_lsn(page) >= lsn {
        return false;
    }
    if !change(page, op, ops) {
        return false;
    }
    set_lsn(page, lsn);
    true
}
