// The entries of a bucket at an address are removed.
ghost use Rattle.std.specs.Prelude.{◌+◌, ◌*◌, ◌≤◌, length, IfOk, OnOk};
ghost use Rattle.sg_bucket.specs.Bucket.{Bucket, HasLinked, IsLinked};
ghost use Rattle.sg_bucket.specs.Calls.{IsSound};
ghost use Rattle.sg_bucket.specs.Division.{IsPruned};
ghost use Rattle.sg_bucket.specs.Prune.{IsBehind, IsStripped, IsPagePruned};
ghost use Rattle.sg_bucket.specs.Steps.{Did};
ghost use Rattle.sg_ops.specs.Table.{table_of};
ghost use Rattle.sg_space.specs.View.{Counts};

use crate::change::{cut, remove_at};
use crate::page::next_of;
use crate::pick::{is_picked, outline_of};
use crate::room::emptied;
use crate::walk::Place;
use sg_base::PageNo;
use sg_linear::Address;
use sg_ops::Ops;
use sg_space::{PageSpace, SpaceFault};

// Removes the entries of a page that are at the address. `before` is the page before it, for the first page itself.
fn strip<P: PageSpace>(
    space: &mut P,
    ops: &Ops,
    first: PageNo,
    before: PageNo,
    page: PageNo,
    there: Address,
) -> Result<(), SpaceFault>
    requires means { P.means space.old (table_of record_meaning range_meaning ops.now) }
    requires can { HasLinked (P.view space.old) first.0 (IsBehind before.0 page.0) }
    ensures counts { Counts (P.view space.old) (P.view space.new) result }
    ensures did { OnOk result (Did (P.view space.old) (P.view space.new) first.0
        (IsBehind before.0 page.0) (IsStripped there page.0)) }
    ensures later { P.later (table_of record_meaning range_meaning ops.now) space.old space.new }
    ensures means { P.means space.new (table_of record_meaning range_meaning ops.now) }
    ensures few { (P.view space.new).records ≤ (P.view space.old).records + 1018 }
{
    let seen = outline_of(space, page)?;
    for slot in 0..seen.slots {
        let picked = is_picked(space, page, slot, there)?;
        if !picked {
            continue;
        }
        let place = Place { before, page, slot };
        remove_at(space, ops, first, place)?;
    }
    Ok(())
}

// Removes the entries of a page that are at the address, and the page from the chain where none is left. The first
// page stays. Answers behind which page the next one stands now: this one, or the one before it.
fn prune_page<P: PageSpace>(
    space: &mut P,
    ops: &Ops,
    first: PageNo,
    before: PageNo,
    page: PageNo,
    there: Address,
) -> Result<PageNo, SpaceFault>
    requires means { P.means space.old (table_of record_meaning range_meaning ops.now) }
    requires can { HasLinked (P.view space.old) first.0 (IsBehind before.0 page.0) }
    ensures counts { Counts (P.view space.old) (P.view space.new) result }
    ensures did { IfOk result (λ end. Did (P.view space.old) (P.view space.new) first.0
        (IsBehind before.0 page.0) (IsPagePruned there before.0 page.0 end.0)) }
    ensures later { P.later (table_of record_meaning range_meaning ops.now) space.old space.new }
    ensures means { P.means space.new (table_of record_meaning range_meaning ops.now) }
    ensures few { (P.view space.new).records ≤ (P.view space.old).records + 1020 }
{
    strip(space, ops, first, before, page, there)?;
    if page.0 == first.0 {
        return Ok(page);
    }
    match emptied(space, page)? {
        None => Ok(page),
        Some(next) => {
            cut(space, ops, first, before, page, next)?;
            Ok(before)
        }
    }
}

/// Removes the entries of the bucket whose key is at the address. A page but the first that has no entry any more is
/// freed.
pub fn prune<P: PageSpace>(
    space: &mut P,
    ops: &Ops,
    first: PageNo,
    there: Address,
) -> Result<(), SpaceFault>
    requires means { P.means space.old (table_of record_meaning range_meaning ops.now) }
    requires can { HasLinked (P.view space.old) first.0 IsSound }
    ensures counts { Counts (P.view space.old) (P.view space.new) result }
    ensures did { OnOk result (Did (P.view space.old) (P.view space.new) first.0 IsSound (IsPruned there)) }
    ensures later { P.later (table_of record_meaning range_meaning ops.now) space.old space.new }
    ensures means { P.means space.new (table_of record_meaning range_meaning ops.now) }
    ensures few { (P.view space.new).records ≤ (P.view space.old).records + 1020 * (P.view space.old).space.pages.count }
    ensures few_told { (P.view space.old).Told → (b : Bucket) → IsLinked (P.view space.old).space.pages.at first.0 b → IsSound b →
        (P.view space.new).records ≤ (P.view space.old).records + 1020 * length b.pages }
{
    let mut before = first;
    let mut page = first;
    for _passed in 0..space.pages() {
        let next = next_of(space, page)?;
        before = prune_page(space, ops, first, before, page, there)?;
        if next.0 == 0 {
            return Ok(());
        }
        page = next;
    }
    Err(space.broken())
}
