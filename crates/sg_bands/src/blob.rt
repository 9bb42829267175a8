// The walk over a blob.
ghost use Rattle.std.specs.Prelude.{◌≡◌, ℕ, ◌-◌, ◌*◌, ◌≤◌, ◌<◌, length, true, Some, slice_get, IfSome, IsSome, IfOk, IfErr, OnOk};
ghost use Rattle.sg_base.specs.Sheet.{sheet_of};
ghost use Rattle.sg_base.specs.declared.page.TheConstants.{BAND_SIZE};
ghost use Rattle.sg_blob.specs.Raw.{root_cell};
ghost use Rattle.sg_bands.specs.Parts.{Root, IsInRange, root_form, band_count};
ghost use Rattle.sg_bands.specs.Reached.{numbers_in, CanWalkBands, WalksBands, CanReachBlob, ReachesBlob};
ghost use Rattle.sg_ops.specs.Table.{Table};
ghost use Rattle.sg_reach.specs.Fault.{CountsReach, WritesNoneReach, IfBroken, IsAtPage, IsReached};
ghost use Rattle.sg_space.specs.Pages.{CanLook};
ghost use Rattle.sg_space.specs.Reads.{HasCell};
ghost use Rattle.sg_space.specs.Units.{HasAt};
ghost use Rattle.sg_space.specs.View.{OnlyReads};

use crate::numbers::Numbers;
use crate::tail::{check_band, set_band};
use sg_alloc::Maps;
use sg_base::{BandNo, PageNo, SlotView, read_u32};
use sg_reach::{Form, ReachFault, check, link_at, set_page};
use sg_space::PageSpace;

const ROOT_KIND: u8 = 7;

// The greatest length.
const MOST: u32 = 16_384_000;

// How many bytes a band has.
const BAND: u32 = 32_768;

impl Numbers {
    // How many bands there are.
    fn bands(self) -> u32
        ensures bands { result ≡ band_count (numbers_in self) }
        ensures few { result ≤ 500 }
    {
        (self.peak + (BAND - 1)) / BAND
    }

    // What its page looks like.
    fn root_form(self) -> Form
        ensures { result ≡ root_form (numbers_in self) }
    {
        Form {
            kind: ROOT_KIND,
            most: 501,
            first: 1,
            count: self.bands() as u16,
            size: 4,
        }
    }

    // From where on band j is 0.
    fn tail_from(self, j: u32) -> u32
        requires { j ≤ 500 }
        ensures { result ≡ self.count - BAND_SIZE * j }
    {
        self.count.saturating_sub(BAND * j)
    }
}

// The numbers that the root's first cell spells, if they are in their ranges.
fn numbers_of(cell: &[u8]) -> Option<Numbers>
    requires { length cell.now ≡ 8 }
    ensures found { IfSome result (λ n. cell.now ≡ root_cell n.count n.peak) }
    ensures all { (r : Root) → IsInRange r → cell.now ≡ root_cell r.count r.peak → IsSome result }
{
    let count = read_u32(cell);
    let peak = read_u32(&cell[4..]);
    if count <= peak && peak <= MOST {
        Some(Numbers { count, peak })
    } else {
        None
    }
}

// The numbers of a page, if it is a root of a blob.
fn numbers_on(view: &SlotView<'_>) -> Option<Numbers>
    ensures found { IfSome result (λ n. HasCell 7 0 (root_cell n.count n.peak) (sheet_of view.now.page.now)) }
    ensures all { (r : Root) → IsInRange r
        → HasCell 7 0 (root_cell r.count r.peak) (sheet_of view.now.page.now) → IsSome result }
{
    if view.kind() != ROOT_KIND {
        return None;
    }
    let cell = view.slot(0)?;
    if cell.len() != 8 {
        return None;
    }
    numbers_of(cell)
}

// What the root's first cell says.
fn read_numbers<P: PageSpace>(space: &mut P, root: PageNo) -> Result<Numbers, ReachFault>
    requires { CanLook (P.view space.old) (P.view space.old).space.pages root.0 }
    ensures counts { CountsReach (P.view space.old) (P.view space.new) result }
    ensures kept { OnOk result (OnlyReads (P.view space.old) (P.view space.new)) }
    ensures read { IfOk result (λ n. (P.view space.old).Shows
        → HasAt (P.view space.old).space.pages.at root.0 (HasCell 7 0 (root_cell n.count n.peak))) }
    ensures broken { IfErr result (IfBroken ((P.view space.old).Shows → (r : Root) → IsInRange r
        → ¬ HasAt (P.view space.old).space.pages.at root.0 (HasCell 7 0 (root_cell r.count r.peak)))) }
    ensures later { (t : Table) → P.later t space.old space.new }
    ensures means { (t : Table) → P.means space.old t → P.means space.new t }
    ensures writes { WritesNoneReach (P.view space.old) (P.view space.new) result }
    ensures names { IfErr result (IsAtPage root.0) }
{
    let view = space.page(root)?;
    match numbers_on(&view) {
        Some(found) => Ok(found),
        None => Err(ReachFault::Broken(root)),
    }
}

// Sets the bands, each of which is looked at.
fn reach_bands<P: PageSpace>(
    space: &mut P,
    root: PageNo,
    found: Numbers,
    into: &mut Maps,
) -> Result<(), ReachFault>
    requires { (P.view space.old).Told → CanWalkBands (P.view space.old).space root.0 (numbers_in found) into.old.bands }
    ensures counts { CountsReach (P.view space.old) (P.view space.new) result }
    ensures kept { OnOk result (OnlyReads (P.view space.old) (P.view space.new)) }
    ensures pages { into.new.pages ≡ into.old.pages }
    ensures reached { OnOk result ((P.view space.old).Shows
        → WalksBands (P.view space.old).space root.0 (numbers_in found) into.old.bands into.new.bands) }
    ensures broken { IfErr result (IfBroken ((P.view space.old).Shows
        → ¬ CanWalkBands (P.view space.old).space root.0 (numbers_in found) into.old.bands)) }
    ensures later { (t : Table) → P.later t space.old space.new }
    ensures means { (t : Table) → P.means space.old t → P.means space.new t }
    ensures writes { WritesNoneReach (P.view space.old) (P.view space.new) result }
    ensures names { IfErr result (IsAtPage root.0) }
{
    for j in 0..found.bands() {
        let band = link_at(space, root, ROOT_KIND, (j + 1) as u16)?;
        let band = BandNo(band.0);
        set_band(into, root, band)?;
        check_band(space, root, band, found.tail_from(j))?;
    }
    Ok(())
}

/// Sets the page of the blob whose root page `from` names, and its bands. It is looked that they are a blob's: as many
/// bands as its peak wants, and zeros behind its bytes.
///
/// An error is the space's own, or `Broken` with the root, or with `from` where the root can't be set; the page and
/// some bands may be set then.
pub fn reach_blob<P: PageSpace>(
    space: &mut P,
    from: PageNo,
    root: PageNo,
    into: &mut Maps,
) -> Result<(), ReachFault>
    requires { (P.view space.old).Told → CanReachBlob (P.view space.old).space root.0 into.old.pages into.old.bands }
    ensures counts { CountsReach (P.view space.old) (P.view space.new) result }
    ensures kept { OnOk result (OnlyReads (P.view space.old) (P.view space.new)) }
    ensures reached { OnOk result ((P.view space.old).Shows → ReachesBlob (P.view space.old).space root.0
        into.old.pages into.new.pages into.old.bands into.new.bands) }
    ensures broken { IfErr result (IfBroken ((P.view space.old).Shows
        → ¬ CanReachBlob (P.view space.old).space root.0 into.old.pages into.old.bands)) }
    ensures later { (t : Table) → P.later t space.old space.new }
    ensures means { (t : Table) → P.means space.old t → P.means space.new t }
    ensures writes { WritesNoneReach (P.view space.old) (P.view space.new) result }
    ensures place { IfErr result (IsReached ((P.view space.old).Shows × (slice_get into.old.pages from.0 ≡ Some true)) into.new.pages) }
{
    set_page(into, from, root)?;
    let found = read_numbers(space, root)?;
    check(space, root, found.root_form())?;
    reach_bands(space, root, found, into)?;
    Ok(())
}
