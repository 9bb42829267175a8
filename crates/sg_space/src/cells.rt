// What the structures read of a page.
ghost use Rattle.std.specs.Prelude.{◌≡◌, ◌≢◌, ◌+◌, ◌≤◌, length, Some, IfOk, OnOk, IsTrue, IsFalse};
ghost use Rattle.sg_base.specs.Page.{slots_of, cell_in};
ghost use Rattle.sg_ops.specs.Table.{Table, table_of};
ghost use Rattle.sg_space.specs.Pages.{CanTake, WritesNone};
ghost use Rattle.sg_space.specs.Reads.{CanRead, Reads, TookWith};
ghost use Rattle.sg_space.specs.View.{Counts, OnlyReads};

use crate::{PageSpace, SpaceFault};
use sg_base::{PageNo, PageOp, SlotView};
use sg_ops::Ops;

// Copies the cell of a slot, if there is one and it is as long as the buffer.
fn copy_cell(view: &SlotView<'_>, slot: u16, into: &mut [u8]) -> bool
    ensures copied { IsTrue result → cell_in (slots_of view.now.page.now) slot ≡ Some into.new }
    ensures other { IsFalse result → (cell : _) → cell_in (slots_of view.now.page.now) slot ≡ Some cell → length cell ≢ length into.old }
{
    let Some(cell) = view.slot(slot) else {
        return false;
    };
    if cell.len() != into.len() {
        return false;
    }
    into.copy_from_slice(cell);
    true
}

/// Fills the buffer with the cell of a slot. A page of another kind, an empty slot and a cell of
/// another length are reported as what can't be.
pub fn read_cell<P: PageSpace>(
    space: &mut P,
    p: PageNo,
    kind: u8,
    slot: u16,
    into: &mut [u8],
) -> Result<(), SpaceFault>
    requires { CanRead (P.view space.old) p.0 kind slot (length into.old) }
    ensures counts { Counts (P.view space.old) (P.view space.new) result }
    ensures kept { OnOk result (OnlyReads (P.view space.old) (P.view space.new)) }
    ensures read { OnOk result (Reads (P.view space.old) p.0 kind slot into.new) }
    ensures later { (t : Table) → P.later t space.old space.new }
    ensures means { (t : Table) → P.means space.old t → P.means space.new t }
    ensures writes { WritesNone (P.view space.old) (P.view space.new) result }
{
    let view = space.page(p)?;
    if view.kind() != kind {
        return Err(space.broken());
    }
    if !copy_cell(&view, slot, into) {
        return Err(space.broken());
    }
    Ok(())
}

/// Takes a page of this kind, with links 0, and puts a cell of at most 4,068 bytes into its slot 0.
pub fn take_page_with<P: PageSpace>(
    space: &mut P,
    ops: &Ops,
    kind: u8,
    cell: &[u8],
) -> Result<PageNo, SpaceFault>
    requires free { CanTake (P.view space.old) (P.view space.old).space.pages }
    requires fits { length cell.now ≤ 4068 }
    requires means { P.means space.old (table_of record_meaning range_meaning ops.now) }
    ensures counts { Counts (P.view space.old) (P.view space.new) result }
    ensures did { IfOk result (λ p. TookWith (P.view space.old) (P.view space.new) kind cell.now p.0) }
    ensures later { P.later (table_of record_meaning range_meaning ops.now) space.old space.new }
    ensures means { P.means space.new (table_of record_meaning range_meaning ops.now) }
    ensures few { (P.view space.new).records ≤ (P.view space.old).records + 3 }
{
    let p = space.take_page(kind)?;
    let op = PageOp::Put {
        slot: 0,
        bytes: cell,
    };
    space.change(ops, p, &op)?;
    Ok(p)
}
