ghost use Rattle.std.specs.Prelude.{◌≡◌, ◌≤◌, length, take, IfOk, None, ⊤, ◌+◌};
ghost use Rattle.sg_bucket.specs.Bucket.{HasLinked};
ghost use Rattle.sg_bucket.specs.Calls.{CanPutEntry, DidPut, IsSound, IsDeleted, Made};
ghost use Rattle.sg_bucket.specs.Entry.{cell_of};
ghost use Rattle.sg_bucket.specs.Steps.{Did};
ghost use Rattle.sg_ops.specs.Table.{Table, table_of};
ghost use Rattle.sg_space.specs.Pages.{CanTake};
ghost use Rattle.sg_space.specs.View.{Counts, OnlyReads};

use crate::change::{add, replace, take_out};
use crate::entry::{MOST_CELL, spell};
use crate::page::BUCKET_KIND;
use crate::room::held_at;
use crate::walk::seek;
use sg_base::PageNo;
use sg_ops::Ops;
use sg_space::{PageSpace, SpaceFault};

/// Makes a bucket without entries, in a page that is taken for it.
pub fn make<P: PageSpace>(space: &mut P) -> Result<PageNo, SpaceFault>
    requires { CanTake (P.view space.old) (P.view space.old).space.pages }
    ensures counts { Counts (P.view space.old) (P.view space.new) result }
    ensures did { IfOk result (λ p. Made (P.view space.old) (P.view space.new) p.0) }
    ensures later { (t : Table) → P.later t space.old space.new }
    ensures means { (t : Table) → P.means space.old t → P.means space.new t }
    ensures few { (P.view space.new).records ≤ (P.view space.old).records + 2 }
{
    let p = space.take_page(BUCKET_KIND)?;
    Ok(p)
}

/// Puts the entry of this key, in place of the one that it had. Answers how long the value was that the key had, if
/// it had one. At most one page is taken for it.
pub fn put<P: PageSpace>(
    space: &mut P,
    ops: &Ops,
    first: PageNo,
    key: &[u8],
    value: &[u8],
) -> Result<Option<u16>, SpaceFault>
    requires means { P.means space.old (table_of record_meaning range_meaning ops.now) }
    requires key { length key.now ≤ 128 }
    requires value { length value.now ≤ 1024 }
    requires there { HasLinked (P.view space.old) first.0 (CanPutEntry (P.view space.old)) }
    ensures counts { Counts (P.view space.old) (P.view space.new) result }
    ensures did { IfOk result (λ old. DidPut (P.view space.old) (P.view space.new) first.0 key.now value.now old) }
    ensures later { P.later (table_of record_meaning range_meaning ops.now) space.old space.new }
    ensures means { P.means space.new (table_of record_meaning range_meaning ops.now) }
    ensures few { (P.view space.new).records ≤ (P.view space.old).records + 7 }
{
    let mut bytes = [0; MOST_CELL];
    let size = spell(&mut bytes, key, value);
    match seek(space, first, key)? {
        None => {
            add(space, ops, first, &bytes[..size])?;
            Ok(None)
        }
        Some(place) => {
            let old = replace(space, ops, first, place, &bytes[..size])?;
            Ok(Some(old))
        }
    }
}

/// Removes the entry of this key, if there is one. Answers how long its value was. A page but the first that has no
/// entry any more is freed.
pub fn del<P: PageSpace>(
    space: &mut P,
    ops: &Ops,
    first: PageNo,
    key: &[u8],
) -> Result<Option<u16>, SpaceFault>
    requires means { P.means space.old (table_of record_meaning range_meaning ops.now) }
    requires can { HasLinked (P.view space.old) first.0 IsSound }
    ensures counts { Counts (P.view space.old) (P.view space.new) result }
    ensures did { IfOk result (λ old. Did (P.view space.old) (P.view space.new) first.0 IsSound (IsDeleted key.now old)) }
    ensures absent { IfOk result (λ old. old ≡ None → OnlyReads (P.view space.old) (P.view space.new)) }
    ensures later { P.later (table_of record_meaning range_meaning ops.now) space.old space.new }
    ensures means { P.means space.new (table_of record_meaning range_meaning ops.now) }
    ensures few { (P.view space.new).records ≤ (P.view space.old).records + 3 }
{
    match seek(space, first, key)? {
        None => Ok(None),
        Some(place) => {
            let held = held_at(space, place.page, place.slot)?;
            take_out(space, ops, first, place)?;
            Ok(Some(held.value))
        }
    }
}
