ghost use Rattle.std.specs.Prelude.{◌≡◌, ◌-◌, ◌<◌, ◌≤◌, length, take, drop, slice_get, Some, IfOk, OnOk, ⊤, ◌+◌};
ghost use Rattle.sg_array.specs.Array.{page_count, pages_for};
ghost use Rattle.sg_array.specs.Calls.{HasArray, IfArray, DidIf, DidBut, Made, CanGet, CanSet, IsSet, CanPop, IsPopped, CanPush, IsPushed};
ghost use Rattle.sg_ops.specs.Table.{Table, table_of};
ghost use Rattle.sg_space.specs.Pages.{CanTake, WritesNone};
ghost use Rattle.sg_space.specs.View.{Counts, OnlyReads};

use crate::extend::leaf_for;
use crate::grow::{put_last, spell_root, take_last};
use crate::walk::{
    LEAF_KIND, MOST, ROOT_KIND, find_item, last_of, place_of, read_root, wanted_pages,
};
use sg_base::{PageNo, PageOp};
use sg_ops::{Ops, are_bytes};
use sg_space::{PageSpace, SpaceFault, read_cell, take_page_with};

/// Makes an array without items, which will have `size` bytes each, in a page that is taken for its root.
pub fn make<P: PageSpace>(space: &mut P, ops: &Ops, size: u16) -> Result<PageNo, SpaceFault>
    requires means { P.means space.old (table_of record_meaning range_meaning ops.now) }
    requires some { 1 ≤ size }
    requires small { size ≤ 256 }
    requires free { CanTake (P.view space.old) (P.view space.old).space.pages }
    ensures counts { Counts (P.view space.old) (P.view space.new) result }
    ensures did { IfOk result (λ root. Made (P.view space.old) (P.view space.new) root.0 size) }
    ensures later { P.later (table_of record_meaning range_meaning ops.now) space.old space.new }
    ensures means { P.means space.new (table_of record_meaning range_meaning ops.now) }
    ensures few { (P.view space.new).records ≤ (P.view space.old).records + 3 }
{
    let root = take_page_with(space, ops, ROOT_KIND, &spell_root(size, 0, 0))?;
    Ok(root)
}

/// How many bytes an item has.
pub fn size<P: PageSpace>(space: &mut P, root: PageNo) -> Result<u16, SpaceFault>
    requires { HasArray (P.view space.old) root.0 (λ _. ⊤) }
    ensures counts { Counts (P.view space.old) (P.view space.new) result }
    ensures kept { OnOk result (OnlyReads (P.view space.old) (P.view space.new)) }
    ensures read { IfOk result (λ n. IfArray (P.view space.old) root.0 (λ a. n ≡ a.size)) }
    ensures within { IfOk result (λ n. n ≤ 256) }
    ensures later { (t : Table) → P.later t space.old space.new }
    ensures means { (t : Table) → P.means space.old t → P.means space.new t }
    ensures writes { WritesNone (P.view space.old) (P.view space.new) result }
{
    let found = read_root(space, root)?;
    Ok(found.size)
}

/// How many items there are.
pub fn len<P: PageSpace>(space: &mut P, root: PageNo) -> Result<u32, SpaceFault>
    requires { HasArray (P.view space.old) root.0 (λ _. ⊤) }
    ensures counts { Counts (P.view space.old) (P.view space.new) result }
    ensures kept { OnOk result (OnlyReads (P.view space.old) (P.view space.new)) }
    ensures read { IfOk result (λ n. IfArray (P.view space.old) root.0 (λ a. n ≡ length a.items)) }
    ensures within { IfOk result (λ n. n ≤ 1048576) }
    ensures later { (t : Table) → P.later t space.old space.new }
    ensures means { (t : Table) → P.means space.old t → P.means space.new t }
    ensures writes { WritesNone (P.view space.old) (P.view space.new) result }
{
    let found = read_root(space, root)?;
    Ok(found.count)
}

/// How many pages it has: its root, the item pages that its greatest length wants, and the index pages
/// that these want.
pub fn pages<P: PageSpace>(space: &mut P, root: PageNo) -> Result<u32, SpaceFault>
    requires { HasArray (P.view space.old) root.0 (λ _. ⊤) }
    ensures counts { Counts (P.view space.old) (P.view space.new) result }
    ensures kept { OnOk result (OnlyReads (P.view space.old) (P.view space.new)) }
    ensures read { IfOk result (λ n. IfArray (P.view space.old) root.0 (λ a. n ≡ page_count a)) }
    ensures exact { IfOk result (λ n. IfArray (P.view space.old) root.0 (λ a. n ≡ pages_for a.size a.peak)) }
    ensures later { (t : Table) → P.later t space.old space.new }
    ensures means { (t : Table) → P.means space.old t → P.means space.new t }
    ensures writes { WritesNone (P.view space.old) (P.view space.new) result }
{
    let found = read_root(space, root)?;
    let wanted = wanted_pages(found);
    Ok(1 + wanted.leaves + wanted.index)
}

/// Copies an item to the front of `into`, which has room for it. The bytes behind it stay.
pub fn get<P: PageSpace>(
    space: &mut P,
    root: PageNo,
    i: u32,
    into: &mut [u8],
) -> Result<(), SpaceFault>
    requires { HasArray (P.view space.old) root.0 (CanGet i (length into.old)) }
    ensures counts { Counts (P.view space.old) (P.view space.new) result }
    ensures kept { OnOk result (OnlyReads (P.view space.old) (P.view space.new)) }
    ensures read { OnOk result (IfArray (P.view space.old) root.0
        (λ a. slice_get a.items i ≡ Some (take a.size into.new))) }
    ensures rest { OnOk result (IfArray (P.view space.old) root.0
        (λ a. drop a.size into.new ≡ drop a.size into.old)) }
    ensures later { (t : Table) → P.later t space.old space.new }
    ensures means { (t : Table) → P.means space.old t → P.means space.new t }
    ensures writes { WritesNone (P.view space.old) (P.view space.new) result }
{
    let place = place_of(space, root, i)?;
    let size = place.size as usize;
    if into.len() < size {
        return Err(space.broken());
    }
    read_cell(space, place.leaf, LEAF_KIND, place.slot, &mut into[..size])?;
    Ok(())
}

/// Puts another item in the place of one.
pub fn set<P: PageSpace>(
    space: &mut P,
    ops: &Ops,
    root: PageNo,
    i: u32,
    item: &[u8],
) -> Result<(), SpaceFault>
    requires means { P.means space.old (table_of record_meaning range_meaning ops.now) }
    requires can { HasArray (P.view space.old) root.0 (CanSet i (length item.now)) }
    ensures counts { Counts (P.view space.old) (P.view space.new) result }
    ensures did { OnOk result (DidIf (P.view space.old) (P.view space.new) root.0
        (CanSet i (length item.now)) (IsSet i item.now)) }
    ensures within { OnOk result (IfArray (P.view space.old) root.0 (CanSet i (length item.now))) }
    ensures later { P.later (table_of record_meaning range_meaning ops.now) space.old space.new }
    ensures means { P.means space.new (table_of record_meaning range_meaning ops.now) }
    ensures few { (P.view space.new).records ≤ (P.view space.old).records + 1 }
{
    let place = find_item(space, root, i)?;
    if item.len() != place.size as usize {
        return Err(space.broken());
    }
    are_bytes(item);
    let slot = place.slot;
    space.change(ops, place.leaf, &PageOp::Set { slot, bytes: item })?;
    Ok(())
}

/// Takes the last item out, and copies it to the front of `into`, which has room for it. The array keeps
/// its pages.
pub fn pop<P: PageSpace>(
    space: &mut P,
    ops: &Ops,
    root: PageNo,
    into: &mut [u8],
) -> Result<(), SpaceFault>
    requires means { P.means space.old (table_of record_meaning range_meaning ops.now) }
    requires can { HasArray (P.view space.old) root.0 (CanPop (length into.old)) }
    ensures counts { Counts (P.view space.old) (P.view space.new) result }
    ensures did { OnOk result (DidBut (P.view space.old) (P.view space.new) root.0
        (CanPop (length into.old)) IsPopped) }
    ensures item { OnOk result (IfArray (P.view space.old) root.0
        (λ a. slice_get a.items (length a.items - 1) ≡ Some (take a.size into.new))) }
    ensures rest { OnOk result (IfArray (P.view space.old) root.0
        (λ a. drop a.size into.new ≡ drop a.size into.old)) }
    ensures within { OnOk result (IfArray (P.view space.old) root.0 (CanPop (length into.old))) }
    ensures later { P.later (table_of record_meaning range_meaning ops.now) space.old space.new }
    ensures means { P.means space.new (table_of record_meaning range_meaning ops.now) }
    ensures few { (P.view space.new).records ≤ (P.view space.old).records + 2 }
{
    let last = last_of(space, root)?;
    let place = last.place;
    let size = place.size as usize;
    if into.len() < size {
        return Err(space.broken());
    }
    read_cell(space, place.leaf, LEAF_KIND, place.slot, &mut into[..size])?;
    take_last(space, ops, root, last)?;
    Ok(())
}

/// Adds an item at the end, and answers its index.
pub fn push<P: PageSpace>(
    space: &mut P,
    ops: &Ops,
    root: PageNo,
    item: &[u8],
) -> Result<u32, SpaceFault>
    requires means { P.means space.old (table_of record_meaning range_meaning ops.now) }
    requires can { HasArray (P.view space.old) root.0 (CanPush (P.view space.old) root.0 (length item.now)) }
    ensures counts { Counts (P.view space.old) (P.view space.new) result }
    ensures did { OnOk result (DidIf (P.view space.old) (P.view space.new) root.0
        (CanPush (P.view space.old) root.0 (length item.now))
        (IsPushed (P.view space.new) root.0 item.now)) }
    ensures index { IfOk result (λ i. IfArray (P.view space.old) root.0 (λ a. i ≡ length a.items)) }
    ensures within { OnOk result (IfArray (P.view space.old) root.0
        (λ a. (length item.now ≡ a.size) × (length a.items < 1048576))) }
    ensures later { P.later (table_of record_meaning range_meaning ops.now) space.old space.new }
    ensures means { P.means space.new (table_of record_meaning range_meaning ops.now) }
    ensures few { (P.view space.new).records ≤ (P.view space.old).records + 8 }
{
    let found = read_root(space, root)?;
    let count = found.count;
    if item.len() != found.size as usize || count >= MOST {
        return Err(space.broken());
    }
    let leaf = leaf_for(space, ops, root, found)?;
    put_last(space, ops, root, leaf, found, item)?;
    Ok(count)
}
