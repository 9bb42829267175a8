// The names of the catalogue.
ghost use Rattle.std.specs.Prelude.{◌≡◌, ℕ, ◌<◌, true, false, Some, slice_get, get_or, length, IfOk, IfErr, OnOk};
ghost use Rattle.sg_catalog.specs.Catalog.{Catalog, IsCatalog};
ghost use Rattle.sg_names.specs.Pages.{CanReachNames, ReachesNames};
ghost use Rattle.sg_ops.specs.Table.{Table};
ghost use Rattle.sg_reach.specs.Fault.{CountsReach, WritesNoneReach, IfBroken, IsReached};
ghost use Rattle.sg_space.specs.View.{OnlyReads};

use crate::chain::{later_pages, reach_pages};
use crate::marked::check_names_by;
use crate::tally::{Counted, count};
use sg_alloc::Maps;
use sg_base::PageNo;
use sg_reach::ReachFault;
use sg_space::PageSpace;

const FIRST: PageNo = PageNo(0);

/// Sets the pages of the catalogue but the first, page 0, which is set already, and looks that they are a catalogue's:
/// each cell spells a row, there are no more rows than the peak says, and no more pages than it wants, and each name of
/// an object stands once. Answers how many pages there are, with the first. The marks, which are clear, are the
/// caller's: the more there are the fewer names are counted.
///
/// An error is the space's own, or `Broken` with a page of the catalogue that is wrong or names a page that can't be
/// set; some pages may be set then.
pub fn reach_names<P: PageSpace>(
    space: &mut P,
    into: &mut Maps,
    marks: &mut [bool],
) -> Result<u32, ReachFault>
    requires some { 0 < length marks.old }
    requires clear { (i : ℕ) → get_or marks.old i false ≡ false }
    requires first { slice_get into.old.pages 0 ≡ Some true }
    requires there { (P.view space.old).Told
        → CanReachNames (P.view space.old).space.pages.at into.old.pages }
    ensures counts { CountsReach (P.view space.old) (P.view space.new) result }
    ensures kept { OnOk result (OnlyReads (P.view space.old) (P.view space.new)) }
    ensures bands { into.new.bands ≡ into.old.bands }
    ensures reached { OnOk result ((P.view space.old).Shows
        → ReachesNames (P.view space.old).space.pages.at into.old.pages into.new.pages) }
    ensures many { IfOk result (λ n. (P.view space.old).Shows → (c : Catalog)
        → IsCatalog (P.view space.old).space.pages.at c → length c.pages ≡ n) }
    ensures broken { IfErr result (IfBroken ((P.view space.old).Shows
        → ¬ CanReachNames (P.view space.old).space.pages.at into.old.pages)) }
    ensures later { (t : Table) → P.later t space.old space.new }
    ensures means { (t : Table) → P.means space.old t → P.means space.new t }
    ensures writes { WritesNoneReach (P.view space.old) (P.view space.new) result }
    ensures place { IfErr result (IsReached ((P.view space.old).Shows) into.new.pages) }
{
    let peak = reach_pages(space, into)?;
    let pages = later_pages(peak) + 1;
    if count(space, pages, &Counted::Every)? > peak as u64 {
        return Err(ReachFault::Broken(FIRST));
    }
    check_names_by(space, pages, marks)?;
    Ok(pages)
}
