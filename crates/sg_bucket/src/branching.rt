// The entries of a bucket at an address are copied to a new bucket.
ghost use Rattle.std.specs.Prelude.{◌≡◌, ◌+◌, ◌*◌, ◌<◌, ◌≤◌, length, IfOk};
ghost use Rattle.sg_bucket.specs.Bucket.{Bucket, HasLinked, IsLinked};
ghost use Rattle.sg_bucket.specs.Branch.{CanExtend, IsExtended, CanCopy, IsPartCopied, filled};
ghost use Rattle.sg_bucket.specs.Division.{CanBranch, Branched};
ghost use Rattle.sg_bucket.specs.Entry.{IsEntryCell};
ghost use Rattle.sg_bucket.specs.Steps.{DidKeep};
ghost use Rattle.sg_ops.specs.Table.{table_of};
ghost use Rattle.sg_space.specs.Units.{HasAt};
ghost use Rattle.sg_space.specs.View.{Counts};

use crate::bucket::make;
use crate::change::{append, put_at};
use crate::entry::MOST_CELL;
use crate::pick::{copy_entry, outline_of};
use sg_base::PageNo;
use sg_linear::Address;
use sg_ops::Ops;
use sg_space::{PageSpace, SpaceFault};

/// Where the next cell of a new bucket goes: into this slot of its last page, or to a page of its own behind that.
#[derive(Clone, Copy)]
pub struct Tail {
    pub page: PageNo,
    pub slot: Option<u16>,
}

/// What the copying of a page's entries leaves: the last page of the new bucket, and the next one of the old, 0 for
/// none.
#[derive(Clone, Copy)]
pub struct Copied {
    pub last: PageNo,
    pub next: PageNo,
}

// Puts a cell behind those of a new bucket.
fn extend<P: PageSpace>(
    space: &mut P,
    ops: &Ops,
    new: PageNo,
    tail: Tail,
    cell: &[u8],
) -> Result<Tail, SpaceFault>
    requires means { P.means space.old (table_of record_meaning range_meaning ops.now) }
    requires cell { IsEntryCell cell.now }
    requires slot { filled tail.slot < 65535 }
    requires there { HasLinked (P.view space.old) new.0 (CanExtend (P.view space.old) tail (length cell.now)) }
    ensures counts { Counts (P.view space.old) (P.view space.new) result }
    ensures did { IfOk result (λ end. DidKeep (P.view space.old) (P.view space.new) new.0
        (CanExtend (P.view space.old) tail (length cell.now)) (IsExtended (P.view space.new) cell.now tail end)) }
    ensures slot { IfOk result (λ end. filled end.slot ≤ filled tail.slot + 1) }
    ensures later { P.later (table_of record_meaning range_meaning ops.now) space.old space.new }
    ensures means { P.means space.new (table_of record_meaning range_meaning ops.now) }
    ensures few { (P.view space.new).records ≤ (P.view space.old).records + 4 }
{
    match tail.slot {
        Some(slot) => {
            put_at(space, ops, new, tail.page, slot, cell)?;
            Ok(Tail {
                page: tail.page,
                slot: Some(slot + 1),
            })
        }
        None => {
            let page = append(space, ops, new, tail.page, cell)?;
            Ok(Tail {
                page,
                slot: Some(1),
            })
        }
    }
}

// Copies the entries of a page that are at the address to the end of a new bucket: all to its last page, or all to a
// page behind that.
fn copy_part<P: PageSpace>(
    space: &mut P,
    ops: &Ops,
    new: PageNo,
    tail: Tail,
    from: PageNo,
    there: Address,
) -> Result<Copied, SpaceFault>
    requires means { P.means space.old (table_of record_meaning range_meaning ops.now) }
    requires slot { filled tail.slot ≡ 0 }
    requires there { HasLinked (P.view space.old) new.0 (CanCopy (P.view space.old) tail from.0) }
    ensures counts { Counts (P.view space.old) (P.view space.new) result }
    ensures did { IfOk result (λ copied. DidKeep (P.view space.old) (P.view space.new) new.0
        (CanCopy (P.view space.old) tail from.0) (IsPartCopied (P.view space.old) (P.view space.new) there from.0 tail copied)) }
    ensures read { IfOk result (λ copied. (P.view space.old).Shows → HasAt (P.view space.old).space.pages.at from.0 (λ sheet. sheet.links.0 ≡ copied.next.0)) }
    ensures later { P.later (table_of record_meaning range_meaning ops.now) space.old space.new }
    ensures means { P.means space.new (table_of record_meaning range_meaning ops.now) }
    ensures few { (P.view space.new).records ≤ (P.view space.old).records + 4072 }
{
    let seen = outline_of(space, from)?;
    let mut tail = tail;
    let mut bytes = [0; MOST_CELL];
    for slot in 0..seen.slots {
        match copy_entry(space, from, slot, there, &mut bytes)? {
            None => continue,
            Some(size) => tail = extend(space, ops, new, tail, &bytes[..size])?,
        }
    }
    Ok(Copied {
        last: tail.page,
        next: seen.next,
    })
}

/// Makes a new bucket with copies of those entries of this one whose key is at the address, and answers its first
/// page. What stands on one page of the old bucket goes to one page of the new, so it has no more pages; each but the
/// first has an entry. The old bucket stays as it is.
pub fn branch<P: PageSpace>(
    space: &mut P,
    ops: &Ops,
    first: PageNo,
    there: Address,
) -> Result<PageNo, SpaceFault>
    requires means { P.means space.old (table_of record_meaning range_meaning ops.now) }
    requires can { HasLinked (P.view space.old) first.0 (CanBranch (P.view space.old)) }
    ensures counts { Counts (P.view space.old) (P.view space.new) result }
    ensures did { IfOk result (λ new. Branched (P.view space.old) (P.view space.new) first.0 new.0 there) }
    ensures later { P.later (table_of record_meaning range_meaning ops.now) space.old space.new }
    ensures means { P.means space.new (table_of record_meaning range_meaning ops.now) }
    ensures few { (P.view space.new).records ≤ (P.view space.old).records + (2 + 4072 * (P.view space.old).space.pages.count) }
    ensures few_told { (P.view space.old).Told → (b : Bucket) → IsLinked (P.view space.old).space.pages.at first.0 b →
        (P.view space.new).records ≤ (P.view space.old).records + (2 + 4072 * length b.pages) }
{
    let most = space.pages();
    let new = make(space)?;
    let mut tail = Tail {
        page: new,
        slot: Some(0),
    };
    let mut page = first;
    for _passed in 0..most {
        let copied = copy_part(space, ops, new, tail, page, there)?;
        if copied.next.0 == 0 {
            return Ok(new);
        }
        tail = Tail {
            page: copied.last,
            slot: None,
        };
        page = copied.next;
    }
    Err(space.broken())
}
