// The steps of a change of a bucket.
ghost use Rattle.std.specs.Prelude.{◌≡◌, ◌≤◌, length, IfOk, OnOk, ◌+◌};
ghost use Rattle.sg_bucket.specs.Bucket.{HasLinked};
ghost use Rattle.sg_bucket.specs.Entry.{IsEntryCell};
ghost use Rattle.sg_bucket.specs.Steps.{CanPutAt, CanAppend, CanAdd, IsAdded, IsPutAt, IsAppended, CanSet, IsSet, CanCut, IsCut, HasCellAt, IsRemoved, CanReplace, IsReplaced, IsTakenOut, Did, DidKeep};
ghost use Rattle.sg_ops.specs.Table.{table_of};
ghost use Rattle.sg_space.specs.View.{Counts};

use crate::page::BUCKET_KIND;
use crate::room::{Room, emptied, held_at, room_on};
use crate::walk::Place;
use sg_base::{PageNo, PageOp};
use sg_ops::Ops;
use sg_space::{PageSpace, SpaceFault, take_page_with};

/// Puts a cell into a slot of a page of the chain.
pub fn put_at<P: PageSpace>(
    space: &mut P,
    ops: &Ops,
    first: PageNo,
    p: PageNo,
    slot: u16,
    cell: &[u8],
) -> Result<(), SpaceFault>
    requires means { P.means space.old (table_of record_meaning range_meaning ops.now) }
    requires cell { IsEntryCell cell.now }
    requires there { HasLinked (P.view space.old) first.0 (CanPutAt (P.view space.old) (length cell.now) p.0 slot) }
    ensures counts { Counts (P.view space.old) (P.view space.new) result }
    ensures did { OnOk result (DidKeep (P.view space.old) (P.view space.new) first.0
        (CanPutAt (P.view space.old) (length cell.now) p.0 slot) (IsPutAt cell.now p.0 slot)) }
    ensures later { P.later (table_of record_meaning range_meaning ops.now) space.old space.new }
    ensures means { P.means space.new (table_of record_meaning range_meaning ops.now) }
    ensures few { (P.view space.new).records ≤ (P.view space.old).records + 1 }
{
    let op = PageOp::Put { slot, bytes: cell };
    space.change(ops, p, &op)?;
    Ok(())
}

/// Puts a cell on a page that is taken and linked behind the last, and answers which.
pub fn append<P: PageSpace>(
    space: &mut P,
    ops: &Ops,
    first: PageNo,
    last: PageNo,
    cell: &[u8],
) -> Result<PageNo, SpaceFault>
    requires means { P.means space.old (table_of record_meaning range_meaning ops.now) }
    requires cell { IsEntryCell cell.now }
    requires there { HasLinked (P.view space.old) first.0 (CanAppend (P.view space.old) last.0) }
    ensures counts { Counts (P.view space.old) (P.view space.new) result }
    ensures did { IfOk result (λ p. DidKeep (P.view space.old) (P.view space.new) first.0
        (CanAppend (P.view space.old) last.0) (IsAppended (P.view space.new) cell.now p.0)) }
    ensures later { P.later (table_of record_meaning range_meaning ops.now) space.old space.new }
    ensures means { P.means space.new (table_of record_meaning range_meaning ops.now) }
    ensures few { (P.view space.new).records ≤ (P.view space.old).records + 4 }
{
    let p = take_page_with(space, ops, BUCKET_KIND, cell)?;
    let op = PageOp::Links { a: p.0, b: 0 };
    space.change(ops, last, &op)?;
    Ok(p)
}

/// Puts a cell on the first page that has room for it, or on a new one behind the last.
pub fn add<P: PageSpace>(
    space: &mut P,
    ops: &Ops,
    first: PageNo,
    cell: &[u8],
) -> Result<(), SpaceFault>
    requires means { P.means space.old (table_of record_meaning range_meaning ops.now) }
    requires cell { IsEntryCell cell.now }
    requires there { HasLinked (P.view space.old) first.0 (CanAdd (P.view space.old)) }
    ensures counts { Counts (P.view space.old) (P.view space.new) result }
    ensures did { OnOk result (DidKeep (P.view space.old) (P.view space.new) first.0
        (CanAdd (P.view space.old)) (IsAdded cell.now)) }
    ensures later { P.later (table_of record_meaning range_meaning ops.now) space.old space.new }
    ensures means { P.means space.new (table_of record_meaning range_meaning ops.now) }
    ensures few { (P.view space.new).records ≤ (P.view space.old).records + 4 }
{
    let mut page = first;
    for _passed in 0..space.pages() {
        match room_on(space, page, cell.len())? {
            Room::At(slot) => {
                put_at(space, ops, first, page, slot, cell)?;
                return Ok(());
            }
            Room::Full(next) => {
                if next.0 == 0 {
                    append(space, ops, first, page, cell)?;
                    return Ok(());
                }
                page = next;
            }
        }
    }
    Err(space.broken())
}

/// Puts another cell in place of one, where the page has the room.
pub fn set_over<P: PageSpace>(
    space: &mut P,
    ops: &Ops,
    first: PageNo,
    place: Place,
    cell: &[u8],
) -> Result<(), SpaceFault>
    requires means { P.means space.old (table_of record_meaning range_meaning ops.now) }
    requires cell { IsEntryCell cell.now }
    requires there { HasLinked (P.view space.old) first.0 (CanSet (length cell.now) place) }
    ensures counts { Counts (P.view space.old) (P.view space.new) result }
    ensures did { OnOk result (Did (P.view space.old) (P.view space.new) first.0
        (CanSet (length cell.now) place) (IsSet cell.now place)) }
    ensures later { P.later (table_of record_meaning range_meaning ops.now) space.old space.new }
    ensures means { P.means space.new (table_of record_meaning range_meaning ops.now) }
    ensures few { (P.view space.new).records ≤ (P.view space.old).records + 1 }
{
    let op = PageOp::Set {
        slot: place.slot,
        bytes: cell,
    };
    space.change(ops, place.page, &op)?;
    Ok(())
}

/// Takes a page without entries out of the chain, and frees it.
pub fn cut<P: PageSpace>(
    space: &mut P,
    ops: &Ops,
    first: PageNo,
    before: PageNo,
    page: PageNo,
    next: PageNo,
) -> Result<(), SpaceFault>
    requires means { P.means space.old (table_of record_meaning range_meaning ops.now) }
    requires can { HasLinked (P.view space.old) first.0 (CanCut before.0 page.0 next.0) }
    ensures counts { Counts (P.view space.old) (P.view space.new) result }
    ensures did { OnOk result (Did (P.view space.old) (P.view space.new) first.0
        (CanCut before.0 page.0 next.0) (IsCut page.0)) }
    ensures later { P.later (table_of record_meaning range_meaning ops.now) space.old space.new }
    ensures means { P.means space.new (table_of record_meaning range_meaning ops.now) }
    ensures few { (P.view space.new).records ≤ (P.view space.old).records + 2 }
{
    let op = PageOp::Links { a: next.0, b: 0 };
    space.change(ops, before, &op)?;
    space.free_page(page)?;
    Ok(())
}

/// Removes the cell at a place.
pub fn remove_at<P: PageSpace>(
    space: &mut P,
    ops: &Ops,
    first: PageNo,
    place: Place,
) -> Result<(), SpaceFault>
    requires means { P.means space.old (table_of record_meaning range_meaning ops.now) }
    requires can { HasLinked (P.view space.old) first.0 (HasCellAt place) }
    ensures counts { Counts (P.view space.old) (P.view space.new) result }
    ensures did { OnOk result (Did (P.view space.old) (P.view space.new) first.0 (HasCellAt place) (IsRemoved place)) }
    ensures later { P.later (table_of record_meaning range_meaning ops.now) space.old space.new }
    ensures means { P.means space.new (table_of record_meaning range_meaning ops.now) }
    ensures few { (P.view space.new).records ≤ (P.view space.old).records + 1 }
{
    let op = PageOp::Remove { slot: place.slot };
    space.change(ops, place.page, &op)?;
    Ok(())
}

/// Removes the cell at a place, and the page from the chain where it was the last one there. The first page
/// stays.
pub fn take_out<P: PageSpace>(
    space: &mut P,
    ops: &Ops,
    first: PageNo,
    place: Place,
) -> Result<(), SpaceFault>
    requires means { P.means space.old (table_of record_meaning range_meaning ops.now) }
    requires can { HasLinked (P.view space.old) first.0 (HasCellAt place) }
    ensures counts { Counts (P.view space.old) (P.view space.new) result }
    ensures did { OnOk result (Did (P.view space.old) (P.view space.new) first.0 (HasCellAt place) (IsTakenOut place)) }
    ensures later { P.later (table_of record_meaning range_meaning ops.now) space.old space.new }
    ensures means { P.means space.new (table_of record_meaning range_meaning ops.now) }
    ensures few { (P.view space.new).records ≤ (P.view space.old).records + 3 }
{
    remove_at(space, ops, first, place)?;
    if place.page.0 == first.0 {
        return Ok(());
    }
    match emptied(space, place.page)? {
        None => Ok(()),
        Some(next) => {
            cut(space, ops, first, place.before, place.page, next)?;
            Ok(())
        }
    }
}

/// Puts another cell in place of the one at a place: there, or elsewhere in the chain where its page has not the
/// room. Answers how long the value was.
pub fn replace<P: PageSpace>(
    space: &mut P,
    ops: &Ops,
    first: PageNo,
    place: Place,
    cell: &[u8],
) -> Result<u16, SpaceFault>
    requires means { P.means space.old (table_of record_meaning range_meaning ops.now) }
    requires cell { IsEntryCell cell.now }
    requires there { HasLinked (P.view space.old) first.0 (CanReplace (P.view space.old) place) }
    ensures counts { Counts (P.view space.old) (P.view space.new) result }
    ensures did { IfOk result (λ old. Did (P.view space.old) (P.view space.new) first.0
        (CanReplace (P.view space.old) place) (IsReplaced cell.now place old)) }
    ensures later { P.later (table_of record_meaning range_meaning ops.now) space.old space.new }
    ensures means { P.means space.new (table_of record_meaning range_meaning ops.now) }
    ensures few { (P.view space.new).records ≤ (P.view space.old).records + 7 }
{
    let held = held_at(space, place.page, place.slot)?;
    if cell.len() <= held.most as usize {
        set_over(space, ops, first, place, cell)?;
        return Ok(held.value);
    }
    add(space, ops, first, cell)?;
    take_out(space, ops, first, place)?;
    Ok(held.value)
}
