// A page for one more item.
ghost use Rattle.std.specs.Prelude.{◌≡◌, ◌≢◌, ◌/◌, ◌%◌, ◌<◌, ◌≤◌, ◌⊎◌, IfOk, ◌+◌};
ghost use Rattle.sg_array.specs.Array.{per_page};
ghost use Rattle.sg_array.specs.Calls.{HasArray};
ghost use Rattle.sg_array.specs.Steps.{MakesIndex, MakesRoom, CanGrow, IsNext};
ghost use Rattle.sg_ops.specs.Table.{Table, table_of};
ghost use Rattle.sg_space.specs.View.{Counts};

use crate::grow::link_new;
use crate::walk::{INDEX_KIND, LEAF_KIND, LINKS, Root, check_kind, index_at, leaf_at, per_page};
use sg_base::PageNo;
use sg_ops::Ops;
use sg_space::{PageSpace, SpaceFault};

// The index page for one more item page that is there.
fn old_index<P: PageSpace>(space: &mut P, root: PageNo, d: u32) -> Result<PageNo, SpaceFault>
    requires below { d < 70000 }
    requires part { d % 509 ≢ 0 }
    requires there { HasArray (P.view space.old) root.0 (CanGrow (P.view space.old) root.0 d) }
    ensures counts { Counts (P.view space.old) (P.view space.new) result }
    ensures did { IfOk result (λ q. MakesIndex (P.view space.old) (P.view space.new) root.0 d q.0) }
    ensures later { (t : Table) → P.later t space.old space.new }
    ensures means { (t : Table) → P.means space.old t → P.means space.new t }
    ensures few { (P.view space.new).records ≤ (P.view space.old).records + 3 }
{
    let index = index_at(space, root, d / LINKS)?;
    check_kind(space, index, INDEX_KIND)?;
    Ok(index)
}

// A new index page.
fn new_index<P: PageSpace>(
    space: &mut P,
    ops: &Ops,
    root: PageNo,
    d: u32,
) -> Result<PageNo, SpaceFault>
    requires means { P.means space.old (table_of record_meaning range_meaning ops.now) }
    requires below { d < 70000 }
    requires full { d % 509 ≡ 0 }
    requires there { HasArray (P.view space.old) root.0 (CanGrow (P.view space.old) root.0 d) }
    ensures counts { Counts (P.view space.old) (P.view space.new) result }
    ensures did { IfOk result (λ q. MakesIndex (P.view space.old) (P.view space.new) root.0 d q.0) }
    ensures later { P.later (table_of record_meaning range_meaning ops.now) space.old space.new }
    ensures means { P.means space.new (table_of record_meaning range_meaning ops.now) }
    ensures few { (P.view space.new).records ≤ (P.view space.old).records + 3 }
{
    let slot = (d / LINKS + 1) as u16;
    let found = link_new(space, ops, root, slot, INDEX_KIND)?;
    Ok(found)
}

// The index page for one more item page, behind d of them.
fn index_for<P: PageSpace>(
    space: &mut P,
    ops: &Ops,
    root: PageNo,
    d: u32,
) -> Result<PageNo, SpaceFault>
    requires means { P.means space.old (table_of record_meaning range_meaning ops.now) }
    requires below { d < 70000 }
    requires there { HasArray (P.view space.old) root.0 (CanGrow (P.view space.old) root.0 d) }
    ensures counts { Counts (P.view space.old) (P.view space.new) result }
    ensures did { IfOk result (λ q. MakesIndex (P.view space.old) (P.view space.new) root.0 d q.0) }
    ensures later { P.later (table_of record_meaning range_meaning ops.now) space.old space.new }
    ensures means { P.means space.new (table_of record_meaning range_meaning ops.now) }
    ensures few { (P.view space.new).records ≤ (P.view space.old).records + 3 }
{
    if d % LINKS != 0 {
        old_index(space, root, d)
    } else {
        new_index(space, ops, root, d)
    }
}

// A new item page, where all are full.
fn new_leaf<P: PageSpace>(
    space: &mut P,
    ops: &Ops,
    root: PageNo,
    found: Root,
) -> Result<PageNo, SpaceFault>
    requires means { P.means space.old (table_of record_meaning range_meaning ops.now) }
    requires most { found.count < 1048576 }
    requires longest { found.count ≡ found.peak }
    requires full { found.count % per_page found.size ≡ 0 }
    requires there { HasArray (P.view space.old) root.0
        (IsNext (P.view space.old) root.0 found.size found.count found.peak) }
    ensures counts { Counts (P.view space.old) (P.view space.new) result }
    ensures did { IfOk result (λ p. MakesRoom (P.view space.old) (P.view space.new) root.0 p.0
        found.size found.count found.peak) }
    ensures later { P.later (table_of record_meaning range_meaning ops.now) space.old space.new }
    ensures means { P.means space.new (table_of record_meaning range_meaning ops.now) }
    ensures few { (P.view space.new).records ≤ (P.view space.old).records + 6 }
{
    let d = found.count / per_page(found.size);
    let index = index_for(space, ops, root, d)?;
    let leaf = link_new(space, ops, index, (d % LINKS) as u16, LEAF_KIND)?;
    Ok(leaf)
}

// The item page for one more item that is there.
fn old_leaf<P: PageSpace>(space: &mut P, root: PageNo, found: Root) -> Result<PageNo, SpaceFault>
    requires most { found.count < 1048576 }
    requires why { (found.count < found.peak) ⊎ (found.count % per_page found.size ≢ 0) }
    requires there { HasArray (P.view space.old) root.0
        (IsNext (P.view space.old) root.0 found.size found.count found.peak) }
    ensures counts { Counts (P.view space.old) (P.view space.new) result }
    ensures did { IfOk result (λ p. MakesRoom (P.view space.old) (P.view space.new) root.0 p.0
        found.size found.count found.peak) }
    ensures later { (t : Table) → P.later t space.old space.new }
    ensures means { (t : Table) → P.means space.old t → P.means space.new t }
    ensures few { (P.view space.new).records ≤ (P.view space.old).records + 6 }
{
    let leaf = leaf_at(space, root, found.count / per_page(found.size))?;
    check_kind(space, leaf, LEAF_KIND)?;
    Ok(leaf)
}

/// The item page for one more item.
pub fn leaf_for<P: PageSpace>(
    space: &mut P,
    ops: &Ops,
    root: PageNo,
    found: Root,
) -> Result<PageNo, SpaceFault>
    requires means { P.means space.old (table_of record_meaning range_meaning ops.now) }
    requires most { found.count < 1048576 }
    requires there { HasArray (P.view space.old) root.0
        (IsNext (P.view space.old) root.0 found.size found.count found.peak) }
    ensures counts { Counts (P.view space.old) (P.view space.new) result }
    ensures did { IfOk result (λ p. MakesRoom (P.view space.old) (P.view space.new) root.0 p.0
        found.size found.count found.peak) }
    ensures later { P.later (table_of record_meaning range_meaning ops.now) space.old space.new }
    ensures means { P.means space.new (table_of record_meaning range_meaning ops.now) }
    ensures few { (P.view space.new).records ≤ (P.view space.old).records + 6 }
{
    if found.count < found.peak || found.count % per_page(found.size) != 0 {
        old_leaf(space, root, found)
    } else {
        new_leaf(space, ops, root, found)
    }
}
