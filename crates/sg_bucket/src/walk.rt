// Along the chain of a bucket.
ghost use Rattle.std.specs.Prelude.{◌≡◌, ◌+◌, ◌≤◌, length, take, IfOk, OnOk, IfSome, Some, ⊤, drop, unwrap_or};
ghost use Rattle.sg_bucket.specs.Bucket.{HasLinked, IfLinked, HasBucket, IfBucket, IsFound, IsAnswer, entries_of};
ghost use Rattle.sg_bucket.specs.Entry.{value_of};
ghost use Rattle.sg_bucket.specs.Part.{HasValueAt, IsCopied};
ghost use Rattle.sg_ops.specs.Table.{Table};
ghost use Rattle.sg_space.specs.Units.{HasAt};
ghost use Rattle.sg_space.specs.Pages.{WritesNone};
ghost use Rattle.sg_space.specs.View.{Counts, OnlyReads};

use crate::entry::{is_entry, value_in};
use crate::page::{BUCKET_KIND, Look, look_for, next_of};
use sg_base::PageNo;
use sg_space::{PageSpace, SpaceFault};

/// Where an entry stands: its page, its slot there, and the page before in the chain. For an entry of the
/// first page that's the page itself.
#[derive(Clone, Copy)]
pub struct Place {
    pub before: PageNo,
    pub page: PageNo,
    pub slot: u16,
}

/// Looks for the entry with this key. A chain has no more pages than the space, so one that goes on in a
/// ring is reported as what can't be.
pub fn seek<P: PageSpace>(
    space: &mut P,
    first: PageNo,
    key: &[u8],
) -> Result<Option<Place>, SpaceFault>
    requires { HasLinked (P.view space.old) first.0 (λ _. ⊤) }
    ensures counts { Counts (P.view space.old) (P.view space.new) result }
    ensures kept { OnOk result (OnlyReads (P.view space.old) (P.view space.new)) }
    ensures read { IfOk result (λ found. IfLinked (P.view space.old) first.0 (λ b. IsFound b key.now found)) }
    ensures later { (t : Table) → P.later t space.old space.new }
    ensures means { (t : Table) → P.means space.old t → P.means space.new t }
    ensures writes { WritesNone (P.view space.old) (P.view space.new) result }
{
    let mut before = first;
    let mut page = first;
    for _passed in 0..space.pages() {
        match look_for(space, page, key)? {
            Look::Here(slot) => return Ok(Some(Place { before, page, slot })),
            Look::Next(next) => {
                if next.0 == 0 {
                    return Ok(None);
                }
                before = page;
                page = next;
            }
        }
    }
    Err(space.broken())
}

// Copies the value of the entry in a slot to the front of the buffer, and says how many bytes it has.
fn copy_value<P: PageSpace>(
    space: &mut P,
    p: PageNo,
    slot: u16,
    into: &mut [u8],
) -> Result<usize, SpaceFault>
    requires room { 1024 ≤ length into.old }
    requires there { (P.view space.old).Told → HasAt (P.view space.old).space.pages.at p.0 (HasValueAt slot) }
    ensures counts { Counts (P.view space.old) (P.view space.new) result }
    ensures kept { OnOk result (OnlyReads (P.view space.old) (P.view space.new)) }
    ensures read { IfOk result (λ n. (P.view space.old).Shows → HasAt (P.view space.old).space.pages.at p.0 (IsCopied slot n into.new)) }
    ensures within { IfOk result (λ n. n ≤ length into.new) }
    ensures rest { IfOk result (λ n. drop n into.new ≡ drop n into.old) }
    ensures later { (t : Table) → P.later t space.old space.new }
    ensures means { (t : Table) → P.means space.old t → P.means space.new t }
    ensures writes { WritesNone (P.view space.old) (P.view space.new) result }
{
    let view = space.page(p)?;
    if view.kind() != BUCKET_KIND {
        return Err(space.broken());
    }
    let Some(cell) = view.slot(slot) else {
        return Err(space.broken());
    };
    if !is_entry(cell) {
        return Err(space.broken());
    }
    let value = value_in(cell);
    into[..value.len()].copy_from_slice(value);
    Ok(value.len())
}

/// Copies the value of this key to the front of the buffer, and says how many bytes it has. There is none where no
/// entry has the key. The buffer has room for 1,024 bytes, the most that a value has: how many this one has isn't known
/// before it is read, and a space that tells nothing may have any.
pub fn find<P: PageSpace>(
    space: &mut P,
    first: PageNo,
    key: &[u8],
    into: &mut [u8],
) -> Result<Option<usize>, SpaceFault>
    requires room { 1024 ≤ length into.old }
    requires there { HasBucket (P.view space.old) first.0 (λ _. ⊤) }
    ensures counts { Counts (P.view space.old) (P.view space.new) result }
    ensures kept { OnOk result (OnlyReads (P.view space.old) (P.view space.new)) }
    ensures read { IfOk result (λ found. IfBucket (P.view space.old) first.0
        (λ b. IsAnswer (value_of (entries_of b.parts) key.now) found into.new)) }
    ensures within { IfOk result (λ found. IfSome found (λ n. n ≤ length into.new)) }
    ensures rest { IfOk result (λ found. drop (unwrap_or found 0) into.new ≡ drop (unwrap_or found 0) into.old) }
    ensures later { (t : Table) → P.later t space.old space.new }
    ensures means { (t : Table) → P.means space.old t → P.means space.new t }
    ensures writes { WritesNone (P.view space.old) (P.view space.new) result }
{
    match seek(space, first, key)? {
        None => Ok(None),
        Some(place) => {
            let n = copy_value(space, place.page, place.slot, into)?;
            Ok(Some(n))
        }
    }
}

/// How many pages the bucket has: at most one more than it has entries.
pub fn pages<P: PageSpace>(space: &mut P, first: PageNo) -> Result<u32, SpaceFault>
    requires { HasBucket (P.view space.old) first.0 (λ _. ⊤) }
    ensures counts { Counts (P.view space.old) (P.view space.new) result }
    ensures kept { OnOk result (OnlyReads (P.view space.old) (P.view space.new)) }
    ensures read { IfOk result (λ n. IfBucket (P.view space.old) first.0 (λ b. n ≡ length b.pages)) }
    ensures few { IfOk result (λ n. IfBucket (P.view space.old) first.0 (λ b. n ≤ 1 + length (entries_of b.parts))) }
    ensures later { (t : Table) → P.later t space.old space.new }
    ensures means { (t : Table) → P.means space.old t → P.means space.new t }
    ensures writes { WritesNone (P.view space.old) (P.view space.new) result }
{
    let mut page = first;
    for passed in 0..space.pages() {
        let next = next_of(space, page)?;
        if next.0 == 0 {
            return Ok(passed + 1);
        }
        page = next;
    }
    Err(space.broken())
}
