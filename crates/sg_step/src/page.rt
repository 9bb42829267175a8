ghost use Rattle.std.specs.Prelude.{◌≡◌, None, Some, length, slice_set, IsSomeAnd, option_and_then};
ghost use Rattle.std.specs.Bool.{OnTrue, OnFalse};
ghost use Rattle.sg_base.specs.Op.{op_of};
ghost use Rattle.sg_base.specs.Page.{lsn_of, slots_of, cell_in, header_of, IsSlotted};
ghost use Rattle.sg_base.specs.Sheet.{sheet_of};
ghost use Rattle.sg_ops.specs.Steps.{change_in, step};
ghost use Rattle.sg_ops.specs.Table.{table_of};
ghost use Rattle.sg_slotted.specs.Layout.{set_layout};
ghost use Rattle.sg_step.specs.Changed.{item_change, with_item, changed};

use sg_base::{PAGE_SIZE, PageOp, SlotView};
use sg_ops::Ops;
use sg_slotted::{format, put, remove, set, set_links};

// Whether an operation on an item is done or undone.
#[derive(Clone, Copy)]
pub enum Way {
    Do,
    Undo,
}

// Does the operation with this code to an item that it accepts, or undoes it where it's registered.
#[tactic(auto, unfolding(sg_ops::specs::Table::accepts_of))]
fn change_item(item: &mut [u8], way: Way, code: u16, arg: &[u8], ops: &Ops) -> bool
    ensures done { OnTrue result
        (item_change (table_of record_meaning range_meaning ops.now) way code arg.now item.old ≡ Some item.new) }
    ensures refused { OnFalse result
        (item_change (table_of record_meaning range_meaning ops.now) way code arg.now item.old ≡ None) }
{
    if !ops.has_record(code) {
        return false;
    }
    match way {
        Way::Do => {
            if !ops.accepts(code, item, arg) {
                return false;
            }
            ops.redo(code, item, arg);
        }
        Way::Undo => ops.undo(code, item, arg),
    }
    true
}

// Puts a cell of as many bytes in the place of a full slot's.
#[tactic(auto, using(crate::proofs::Sheets::set_again))]
fn replace(page: &mut [u8], slot: u16, cell: &[u8])
    requires slotted { IsSlotted page.old }
    requires full { IsSomeAnd (cell_in (slots_of page.old) slot) (λ old. length cell.now ≡ length old) }
    ensures slotted { IsSlotted page.new }
    ensures slots { slots_of page.new ≡ slice_set (slots_of page.old) slot (Some cell.now) }
    ensures header { header_of page.new ≡ header_of page.old }
    ensures bytes { page.new ≡ set_layout page.old slot cell.now }
{
    let is_set = set(page, slot, cell).is_ok();
    prove!(is_set);
}

// Does an operation to the cell of a full slot, or undoes it, where that is defined.
fn apply_item(page: &mut [u8], slot: u16, way: Way, code: u16, arg: &[u8], ops: &Ops) -> bool
    requires { IsSlotted page.old }
    ensures slotted { IsSlotted page.new }
    ensures header { header_of page.new ≡ header_of page.old }
    ensures done { OnTrue result (change_in (slots_of page.old) slot
        (item_change (table_of record_meaning range_meaning ops.now) way code arg.now) ≡ Some (slots_of page.new)) }
    ensures refused { OnFalse result (change_in (slots_of page.old) slot
        (item_change (table_of record_meaning range_meaning ops.now) way code arg.now) ≡ None) }
    ensures same { OnFalse result (page.new ≡ page.old) }
    ensures bytes { OnTrue result (page.new ≡ with_item page.old slot (option_and_then
        (item_change (table_of record_meaning range_meaning ops.now) way code arg.now)
        (cell_in (slots_of page.old) slot))) }
{
    let mut buffer = [0u8; PAGE_SIZE];
    let Some(cell) = SlotView::new(page).slot(slot) else {
        return false;
    };
    let item = &mut buffer[..cell.len()];
    item.copy_from_slice(cell);
    if !change_item(item, way, code, arg, ops) {
        return false;
    }
    replace(page, slot, item);
    true
}

/// Does an operation to a page of slots, where it fits, and says whether it did; where not, no byte
/// changes. The page's number in the log stays.
#[tactic(auto, unfolding(crate::specs::Changed::changed))]
pub fn apply(page: &mut [u8], op: &PageOp<'_>, ops: &Ops) -> bool
    requires { IsSlotted page.old }
    ensures slotted { IsSlotted page.new }
    ensures done { OnTrue result
        (step (table_of record_meaning range_meaning ops.now) (op_of op.now) (sheet_of page.old)
        ≡ Some (sheet_of page.new)) }
    ensures lsn { lsn_of page.new ≡ lsn_of page.old }
    ensures refused { OnFalse result
        (step (table_of record_meaning range_meaning ops.now) (op_of op.now) (sheet_of page.old)
        ≡ None) }
    ensures same { OnFalse result (page.new ≡ page.old) }
    ensures bytes { OnTrue result
        (page.new ≡ changed (table_of record_meaning range_meaning ops.now) (op_of op.now) page.old) }
{
    match *op {
        PageOp::Format { kind } => {
            format(page, kind);
            true
        }
        PageOp::Put { slot, bytes } => put(page, slot, bytes).is_ok(),
        PageOp::Remove { slot } => remove(page, slot).is_ok(),
        PageOp::Set { slot, bytes } => set(page, slot, bytes).is_ok(),
        PageOp::Links { a, b } => {
            set_links(page, a, b);
            true
        }
        PageOp::Item { slot, code, arg } => apply_item(page, slot, Way::Do, code, arg, ops),
        PageOp::ItemBack { slot, code, arg } => apply_item(page, slot, Way::Undo, code, arg, ops),
    }
}
