ghost use Rattle.std.specs.Prelude.{◌≡◌, ◌↔◌, IsSome, IsTrue, false};
ghost use Rattle.std.specs.Bool.{OnTrue, OnFalse};
ghost use Rattle.sg_base.specs.Op.{op_of, is_format};
ghost use Rattle.sg_base.specs.Page.{IsSlotted};
ghost use Rattle.sg_base.specs.Sheet.{sheet_of, seen};
ghost use Rattle.sg_ops.specs.Steps.{step, inverse, BringsBytes, WasDone};
ghost use Rattle.sg_ops.specs.Table.{table_of};

use crate::apply;
use sg_base::PageOp;
use sg_ops::{Ops, are_bytes};

/// Tells a proof that the bytes that an operation brings are bytes. It runs no code.
pub fn brings_bytes(op: &PageOp<'_>)
    ensures { BringsBytes (op_of op.now) }
{
    match *op {
        PageOp::Put { bytes, .. } | PageOp::Set { bytes, .. } => are_bytes(bytes),
        PageOp::Item { arg, .. } | PageOp::ItemBack { arg, .. } => are_bytes(arg),
        PageOp::Format { .. } | PageOp::Remove { .. } | PageOp::Links { .. } => {}
    }
}

/// Does an operation to a page of slots and takes it off again, by the operation `back` that is its
/// inverse. Where the first one fits, the other does too, and all that can be seen of the page is as it
/// was; where not, no byte changes.
pub fn do_and_take_off(page: &mut [u8], op: &PageOp<'_>, back: &PageOp<'_>, ops: &Ops) -> bool
    requires slotted { IsSlotted page.old }
    requires plain { is_format (op_of op.now) ≡ false }
    requires proper { WasDone (table_of record_meaning range_meaning ops.now)
        (op_of op.now) (sheet_of page.old) }
    requires inverse { op_of back.now ≡ inverse (op_of op.now) (sheet_of page.old) }
    ensures done { IsTrue result ↔ IsSome
        (step (table_of record_meaning range_meaning ops.now) (op_of op.now) (sheet_of page.old)) }
    ensures alike { OnTrue result (seen (sheet_of page.new) ≡ seen (sheet_of page.old)) }
    ensures same { OnFalse result (page.new ≡ page.old) }
{
    ops.laws();
    are_bytes(page);
    brings_bytes(op);
    if !apply(page, op, ops) {
        return false;
    }
    apply(page, back, ops)
}

/// Does an operation to two pages of slots with the same bytes: it fits both or neither, and they have
/// the same bytes afterwards too.
pub fn do_to_both(page: &mut [u8], twin: &mut [u8], op: &PageOp<'_>, ops: &Ops) -> bool
    requires slotted { IsSlotted page.old }
    requires same { twin.old ≡ page.old }
    ensures done { IsTrue result ↔ IsSome
        (step (table_of record_meaning range_meaning ops.now) (op_of op.now) (sheet_of page.old)) }
    ensures alike { twin.new ≡ page.new }
{
    let is_done = apply(page, op, ops);
    let is_done_again = apply(twin, op, ops);
    prove!(is_done_again == is_done);
    is_done
}
