// The walk along the chain of a bucket.
ghost use Rattle.std.specs.Prelude.{◌≡◌, ◌<◌, ◌^◌, true, Some, slice_get, IfOk, IfErr, OnOk};
ghost use Rattle.sg_chains.specs.Reached.{CanReachChain, ReachesChain, AreFew};
ghost use Rattle.sg_ops.specs.Table.{Table};
ghost use Rattle.sg_reach.specs.Fault.{CountsReach, WritesNoneReach, IfBroken, IsReached};
ghost use Rattle.sg_space.specs.View.{OnlyReads};

use crate::page::look;
use sg_alloc::Maps;
use sg_base::PageNo;
use sg_linear::Address;
use sg_reach::{ReachFault, set_page};
use sg_space::PageSpace;

/// How many pages a chain has, and how many entries, of how many bytes, 4 of each entry for its lengths.
#[derive(Clone, Copy)]
pub struct Chain {
    pub pages: u32,
    pub entries: u64,
    pub bytes: u64,
}

/// Sets the pages of the chain whose first page `from` names. It is looked that each of its entries belongs there, with
/// a key of 1 to 128 bytes, and that each page but the first has one.
///
/// An error is the space's own, or `Broken` with a page of the chain that is wrong or names a page that can't be set;
/// some pages may be set then.
pub fn reach_chain<P: PageSpace>(
    space: &mut P,
    from: PageNo,
    first: PageNo,
    there: Address,
    into: &mut Maps,
) -> Result<Chain, ReachFault>
    requires small { first.0 < 2 ^ 32 }
    requires there { (P.view space.old).Told
        → CanReachChain (P.view space.old).space.pages.at there first.0 into.old.pages }
    ensures counts { CountsReach (P.view space.old) (P.view space.new) result }
    ensures kept { OnOk result (OnlyReads (P.view space.old) (P.view space.new)) }
    ensures bands { into.new.bands ≡ into.old.bands }
    ensures reached { IfOk result (λ c. (P.view space.old).Shows
        → ReachesChain (P.view space.old).space.pages.at there first.0 into.old.pages into.new.pages c) }
    ensures few { IfOk result (λ c. AreFew into.old.pages into.new.pages c.pages c.entries c.bytes) }
    ensures broken { IfErr result (IfBroken ((P.view space.old).Shows
        → ¬ CanReachChain (P.view space.old).space.pages.at there first.0 into.old.pages)) }
    ensures later { (t : Table) → P.later t space.old space.new }
    ensures means { (t : Table) → P.means space.old t → P.means space.new t }
    ensures writes { WritesNoneReach (P.view space.old) (P.view space.new) result }
    ensures place { IfErr result (IsReached ((P.view space.old).Shows × (slice_get into.old.pages from.0 ≡ Some true)) into.new.pages) }
{
    // Each page that is set was free, which bounds the sums.
    let _most = into.free_pages();
    set_page(into, from, first)?;
    let seen = look(space, first, there)?;
    let mut pages = 1u32;
    let mut entries = u64::from(seen.entries);
    let mut bytes = seen.bytes;
    let mut last = first;
    let mut next = seen.next;
    'links: while next.0 != 0 {
        set_page(into, last, next)?;
        let more = look(space, next, there)?;
        if more.entries == 0 {
            return Err(ReachFault::Broken(next));
        }
        pages += 1;
        entries += u64::from(more.entries);
        bytes += more.bytes;
        last = next;
        next = more.next;
    }
    Ok(Chain {
        pages,
        entries,
        bytes,
    })
}
