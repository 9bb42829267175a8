// The pages of the catalogue, one after another.
ghost use Rattle.std.specs.Prelude.{◌≡◌, ◌-◌, ◌/◌, true, Some, slice_get, IfOk, IfErr, OnOk};
ghost use Rattle.sg_names.specs.Pages.{CanReachNames, WalksNames};
ghost use Rattle.sg_ops.specs.Table.{Table};
ghost use Rattle.sg_reach.specs.Fault.{CountsReach, WritesNoneReach, IfBroken, IsReached};
ghost use Rattle.sg_space.specs.View.{OnlyReads};

use crate::page::look;
use sg_alloc::Maps;
use sg_base::PageNo;
use sg_reach::{ReachFault, set_page};
use sg_space::PageSpace;

const FIRST: PageNo = PageNo(0);

// How many pages follow the first where there were so many rows at most.
pub fn later_pages(peak: u32) -> u32
    ensures { result ≡ (peak - 1) / 79 }
{
    peak.saturating_sub(1) / 79
}

/// Sets the catalogue's pages but the first, which is set already, and looks that each cell of them spells a
/// row. Answers the most rows that there were.
pub fn reach_pages<P: PageSpace>(space: &mut P, into: &mut Maps) -> Result<u32, ReachFault>
    requires first { slice_get into.old.pages 0 ≡ Some true }
    requires there { (P.view space.old).Told
        → CanReachNames (P.view space.old).space.pages.at into.old.pages }
    ensures counts { CountsReach (P.view space.old) (P.view space.new) result }
    ensures kept { OnOk result (OnlyReads (P.view space.old) (P.view space.new)) }
    ensures bands { into.new.bands ≡ into.old.bands }
    ensures reached { IfOk result (λ peak. (P.view space.old).Shows
        → WalksNames (P.view space.old).space.pages.at peak into.old.pages into.new.pages) }
    ensures broken { IfErr result (IfBroken ((P.view space.old).Shows
        → ¬ CanReachNames (P.view space.old).space.pages.at into.old.pages)) }
    ensures later { (t : Table) → P.later t space.old space.new }
    ensures means { (t : Table) → P.means space.old t → P.means space.new t }
    ensures writes { WritesNoneReach (P.view space.old) (P.view space.new) result }
    ensures place { IfErr result (IsReached ((P.view space.old).Shows) into.new.pages) }
{
    let first = look(space, FIRST)?;
    let mut last = FIRST;
    let mut next = first.next;
    let later = later_pages(first.peak);
    'pages: for _ in 0..later {
        set_page(into, last, next)?;
        let seen = look(space, next)?;
        last = next;
        next = seen.next;
    }
    if next != FIRST {
        return Err(ReachFault::Broken(last));
    }
    Ok(first.peak)
}
