// The walk over an array.
ghost use Rattle.std.specs.Prelude.{◌≡◌, ℕ, ◌+◌, ◌-◌, ◌*◌, ◌<◌, ◌≤◌, min, true, length, slice_get, Some, IfSome, IsSome, IfOk, IfErr, OnOk};
ghost use Rattle.sg_array.specs.Array.{per_page, root_cell, rounded_up};
ghost use Rattle.sg_array.specs.Steps.{Root, IsInRange};
ghost use Rattle.sg_base.specs.Sheet.{sheet_of};
ghost use Rattle.sg_ops.specs.Table.{Table};
ghost use Rattle.sg_reach.specs.Fault.{CountsReach, WritesNoneReach, IfBroken, IsAtPage, IsReached};
ghost use Rattle.sg_reach.specs.Parts.{root_form, index_form, leaf_form, leaf_count, index_count, index_no};
ghost use Rattle.sg_reach.specs.Reached.{numbers_in, CanWalkIndex, WalksIndex, CanWalkLeaves, WalksLeaves, CanReachArray, ReachesArray};
ghost use Rattle.sg_space.specs.Pages.{CanLook};
ghost use Rattle.sg_space.specs.Reads.{HasCell};
ghost use Rattle.sg_space.specs.Units.{HasAt};
ghost use Rattle.sg_space.specs.View.{OnlyReads};

use crate::ReachFault;
use crate::looks::{Form, check, link_at};
use crate::marks::set_page;
use crate::numbers::Numbers;
use sg_alloc::Maps;
use sg_base::{PageNo, SlotView, read_u16, read_u32};
use sg_space::PageSpace;

const ROOT_KIND: u8 = 2;

const INDEX_KIND: u8 = 3;

const LEAF_KIND: u8 = 4;

// The most items.
const MOST: u32 = 1_048_576;

// How many item pages an index page names.
const LINKS: u32 = 509;

impl Numbers {
    // How many items a page holds.
    fn each(self) -> u32
        ensures { result ≡ per_page self.size }
    {
        4_072 / (self.size as u32 + 4)
    }

    // How many item pages there are.
    fn leaves(self) -> u32
        ensures leaves { result ≡ leaf_count (numbers_in self) }
        ensures few { result < 70000 }
    {
        let each = self.each();
        (self.peak + (each - 1)) / each
    }

    // How many index pages there are.
    fn index(self) -> u32
        ensures index { result ≡ index_count (numbers_in self) }
        ensures few { result ≤ 138 }
    {
        (self.leaves() + (LINKS - 1)) / LINKS
    }

    // What its pages look like.
    fn root_form(self) -> Form
        ensures { result ≡ root_form (numbers_in self) }
    {
        Form {
            kind: ROOT_KIND,
            most: 139,
            first: 1,
            count: self.index() as u16,
            size: 4,
        }
    }

    fn index_form(self, j: u32) -> Form
        requires { j ≤ 138 }
        ensures { result ≡ index_form (numbers_in self) j }
    {
        let rest = self.leaves().saturating_sub(LINKS * j);
        Form {
            kind: INDEX_KIND,
            most: LINKS as u16,
            first: 0,
            count: rest.min(LINKS) as u16,
            size: 4,
        }
    }

    fn leaf_form(self, d: u32) -> Form
        requires { d < 70000 }
        ensures { result ≡ leaf_form (numbers_in self) d }
    {
        let each = self.each();
        let rest = self.count.saturating_sub(each * d);
        Form {
            kind: LEAF_KIND,
            most: each as u16,
            first: 0,
            count: rest.min(each) as u16,
            size: self.size,
        }
    }
}

// The numbers that the root's first cell spells, if they are in their ranges.
fn numbers_of(cell: &[u8]) -> Option<Numbers>
    requires { length cell.now ≡ 10 }
    ensures found { IfSome result (λ n. cell.now ≡ root_cell n.size n.count n.peak) }
    ensures all { (r : Root) → IsInRange r → cell.now ≡ root_cell r.size r.count r.peak → IsSome result }
{
    let size = read_u16(cell);
    let count = read_u32(&cell[2..]);
    let peak = read_u32(&cell[6..]);
    if size >= 1 && size <= 256 && count <= peak && peak <= MOST {
        Some(Numbers { size, count, peak })
    } else {
        None
    }
}

// The numbers of a page, if it is a root of an array.
fn numbers_on(view: &SlotView<'_>) -> Option<Numbers>
    ensures found { IfSome result (λ n. HasCell 2 0 (root_cell n.size n.count n.peak) (sheet_of view.now.page.now)) }
    ensures all { (r : Root) → IsInRange r
        → HasCell 2 0 (root_cell r.size r.count r.peak) (sheet_of view.now.page.now) → IsSome result }
{
    if view.kind() != ROOT_KIND {
        return None;
    }
    let cell = view.slot(0)?;
    if cell.len() != 10 {
        return None;
    }
    numbers_of(cell)
}

/// Reads the numbers of an array's root: the size of an item in bytes, how many items there are, and the most that
/// there were. `Broken` names the root where its first cell spells no such numbers.
pub fn read_numbers<P: PageSpace>(space: &mut P, root: PageNo) -> Result<Numbers, ReachFault>
    requires { CanLook (P.view space.old) (P.view space.old).space.pages root.0 }
    ensures counts { CountsReach (P.view space.old) (P.view space.new) result }
    ensures kept { OnOk result (OnlyReads (P.view space.old) (P.view space.new)) }
    ensures read { IfOk result (λ n. (P.view space.old).Shows
        → HasAt (P.view space.old).space.pages.at root.0 (HasCell 2 0 (root_cell n.size n.count n.peak))) }
    ensures broken { IfErr result (IfBroken ((P.view space.old).Shows → (r : Root) → IsInRange r
        → ¬ HasAt (P.view space.old).space.pages.at root.0 (HasCell 2 0 (root_cell r.size r.count r.peak)))) }
    ensures later { (t : Table) → P.later t space.old space.new }
    ensures means { (t : Table) → P.means space.old t → P.means space.new t }
    ensures writes { WritesNoneReach (P.view space.old) (P.view space.new) result }
    ensures names { IfErr result (IsAtPage root.0) }
{
    let view = space.page(root)?;
    match numbers_on(&view) {
        Some(found) => Ok(found),
        None => Err(ReachFault::Broken(root)),
    }
}

// Sets the index pages, each of which is looked at.
fn reach_index<P: PageSpace>(
    space: &mut P,
    root: PageNo,
    found: Numbers,
    into: &mut Maps,
) -> Result<(), ReachFault>
    requires { (P.view space.old).Told
        → CanWalkIndex (P.view space.old).space.pages.at root.0 (numbers_in found) into.old.pages }
    ensures counts { CountsReach (P.view space.old) (P.view space.new) result }
    ensures kept { OnOk result (OnlyReads (P.view space.old) (P.view space.new)) }
    ensures bands { into.new.bands ≡ into.old.bands }
    ensures reached { OnOk result ((P.view space.old).Shows
        → WalksIndex (P.view space.old).space.pages.at root.0 (numbers_in found) into.old.pages into.new.pages) }
    ensures broken { IfErr result (IfBroken ((P.view space.old).Shows
        → ¬ CanWalkIndex (P.view space.old).space.pages.at root.0 (numbers_in found) into.old.pages)) }
    ensures later { (t : Table) → P.later t space.old space.new }
    ensures means { (t : Table) → P.means space.old t → P.means space.new t }
    ensures writes { WritesNoneReach (P.view space.old) (P.view space.new) result }
    ensures place { IfErr result (IsReached ((P.view space.old).Shows × (slice_get into.old.pages root.0 ≡ Some true)) into.new.pages) }
{
    for j in 0..found.index() {
        let index = link_at(space, root, ROOT_KIND, (j + 1) as u16)?;
        set_page(into, root, index)?;
        check(space, index, found.index_form(j))?;
    }
    Ok(())
}

// Sets the item pages, each of which is looked at.
fn reach_leaves<P: PageSpace>(
    space: &mut P,
    root: PageNo,
    found: Numbers,
    into: &mut Maps,
) -> Result<(), ReachFault>
    requires { (P.view space.old).Told
        → CanWalkLeaves (P.view space.old).space.pages.at root.0 (numbers_in found) into.old.pages }
    ensures counts { CountsReach (P.view space.old) (P.view space.new) result }
    ensures kept { OnOk result (OnlyReads (P.view space.old) (P.view space.new)) }
    ensures bands { into.new.bands ≡ into.old.bands }
    ensures reached { OnOk result ((P.view space.old).Shows
        → WalksLeaves (P.view space.old).space.pages.at root.0 (numbers_in found) into.old.pages into.new.pages) }
    ensures broken { IfErr result (IfBroken ((P.view space.old).Shows
        → ¬ CanWalkLeaves (P.view space.old).space.pages.at root.0 (numbers_in found) into.old.pages)) }
    ensures later { (t : Table) → P.later t space.old space.new }
    ensures means { (t : Table) → P.means space.old t → P.means space.new t }
    ensures writes { WritesNoneReach (P.view space.old) (P.view space.new) result }
    ensures place { IfErr result (IsReached ((P.view space.old).Shows × (slice_get into.old.pages root.0 ≡ Some true)
        × ((j : ℕ) → j < index_count (numbers_in found) → slice_get into.old.pages (index_no (P.view space.old).space.pages.at root.0 j) ≡ Some true)) into.new.pages) }
{
    for d in 0..found.leaves() {
        let index = link_at(space, root, ROOT_KIND, (d / LINKS + 1) as u16)?;
        let leaf = link_at(space, index, INDEX_KIND, (d % LINKS) as u16)?;
        set_page(into, index, leaf)?;
        check(space, leaf, found.leaf_form(d))?;
    }
    Ok(())
}

/// Sets the pages of the array whose root page `from` names: its root, its index pages and its item pages. It is
/// looked that they are an array's: each page of its kind, with as many cells as the root's numbers say, of the
/// items' size, and nothing behind them.
///
/// An error is the space's own, or `Broken` with a page that is wrong or names a page that can't be set; some pages
/// may be set then.
pub fn reach_array<P: PageSpace>(
    space: &mut P,
    from: PageNo,
    root: PageNo,
    into: &mut Maps,
) -> Result<(), ReachFault>
    requires { (P.view space.old).Told
        → CanReachArray (P.view space.old).space.pages.at root.0 into.old.pages }
    ensures counts { CountsReach (P.view space.old) (P.view space.new) result }
    ensures kept { OnOk result (OnlyReads (P.view space.old) (P.view space.new)) }
    ensures bands { into.new.bands ≡ into.old.bands }
    ensures reached { OnOk result ((P.view space.old).Shows
        → ReachesArray (P.view space.old).space.pages.at root.0 into.old.pages into.new.pages) }
    ensures broken { IfErr result (IfBroken ((P.view space.old).Shows
        → ¬ CanReachArray (P.view space.old).space.pages.at root.0 into.old.pages)) }
    ensures later { (t : Table) → P.later t space.old space.new }
    ensures means { (t : Table) → P.means space.old t → P.means space.new t }
    ensures writes { WritesNoneReach (P.view space.old) (P.view space.new) result }
    ensures place { IfErr result (IsReached ((P.view space.old).Shows × (slice_get into.old.pages from.0 ≡ Some true)) into.new.pages) }
{
    set_page(into, from, root)?;
    let found = read_numbers(space, root)?;
    check(space, root, found.root_form())?;
    reach_index(space, root, found, into)?;
    reach_leaves(space, root, found, into)?;
    Ok(())
}
