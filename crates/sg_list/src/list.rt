ghost use Rattle.std.specs.Prelude.{◌≡◌, ◌≤◌, length, slice_get, Some, IfOk, OnOk, ⊤, ◌+◌};
ghost use Rattle.sg_list.specs.Items.{HasList, IfList, HasSized, CanPush, Made, Pushed};
ghost use Rattle.sg_ops.specs.Table.{Table, table_of};
ghost use Rattle.sg_space.specs.Pages.{CanTake, WritesNone};
ghost use Rattle.sg_space.specs.View.{Counts, OnlyReads};

use sg_base::{PageNo, PageOp};
use sg_ops::Ops;
use sg_space::{PageSpace, SpaceFault, read_cell};

// The kind of the page of a list, which is that of no page in a format.
const LIST_KIND: u8 = 255;

/// Makes a list of no items, in a page that is taken for it.
pub fn make<P: PageSpace>(space: &mut P) -> Result<PageNo, SpaceFault>
    requires { CanTake (P.view space.old) (P.view space.old).space.pages }
    ensures counts { Counts (P.view space.old) (P.view space.new) result }
    ensures did { IfOk result (λ root. Made (P.view space.old) (P.view space.new) root.0) }
    ensures later { (t : Table) → P.later t space.old space.new }
    ensures means { (t : Table) → P.means space.old t → P.means space.new t }
    ensures few { (P.view space.new).records ≤ (P.view space.old).records + 2 }
{
    let root = space.take_page(LIST_KIND)?;
    Ok(root)
}

/// How many items there are.
pub fn count<P: PageSpace>(space: &mut P, root: PageNo) -> Result<u16, SpaceFault>
    requires { HasList (P.view space.old) root.0 (λ _. ⊤) }
    ensures counts { Counts (P.view space.old) (P.view space.new) result }
    ensures kept { OnOk result (OnlyReads (P.view space.old) (P.view space.new)) }
    ensures read { IfOk result (λ n. IfList (P.view space.old) root.0 (λ items. n ≡ length items)) }
    ensures later { (t : Table) → P.later t space.old space.new }
    ensures means { (t : Table) → P.means space.old t → P.means space.new t }
    ensures writes { WritesNone (P.view space.old) (P.view space.new) result }
{
    let view = space.page(root)?;
    Ok(view.slots())
}

/// Fills the buffer with item `i`, which has as many bytes.
pub fn get<P: PageSpace>(
    space: &mut P,
    root: PageNo,
    i: u16,
    into: &mut [u8],
) -> Result<(), SpaceFault>
    requires { HasList (P.view space.old) root.0 (HasSized i (length into.old)) }
    ensures counts { Counts (P.view space.old) (P.view space.new) result }
    ensures kept { OnOk result (OnlyReads (P.view space.old) (P.view space.new)) }
    ensures read { OnOk result (IfList (P.view space.old) root.0
        (λ items. slice_get items i ≡ Some into.new)) }
    ensures later { (t : Table) → P.later t space.old space.new }
    ensures means { (t : Table) → P.means space.old t → P.means space.new t }
    ensures writes { WritesNone (P.view space.old) (P.view space.new) result }
{
    read_cell(space, root, LIST_KIND, i, into)?;
    Ok(())
}

/// Puts an item behind the others. The page has the bytes for it: 4,072 for all items and 4 for each.
pub fn push<P: PageSpace>(
    space: &mut P,
    ops: &Ops,
    root: PageNo,
    item: &[u8],
) -> Result<(), SpaceFault>
    requires means { P.means space.old (table_of record_meaning range_meaning ops.now) }
    requires can { HasList (P.view space.old) root.0 (CanPush (P.view space.old) root.0 item.now) }
    ensures counts { Counts (P.view space.old) (P.view space.new) result }
    ensures did { OnOk result (Pushed (P.view space.old) (P.view space.new) root.0 item.now) }
    ensures later { P.later (table_of record_meaning range_meaning ops.now) space.old space.new }
    ensures means { P.means space.new (table_of record_meaning range_meaning ops.now) }
    ensures few { (P.view space.new).records ≤ (P.view space.old).records + 1 }
{
    let slot = count(space, root)?;
    let op = PageOp::Put { slot, bytes: item };
    space.change(ops, root, &op)?;
    Ok(())
}
