// From the root of an array to its other pages.
ghost use Rattle.std.specs.Prelude.{◌≡◌, ◌+◌, ◌*◌, ◌/◌, ◌^◌, ◌<◌, ◌≤◌, length, slice_get, Some, IfOk, OnOk, IfSome, IsSome, ⊤};
ghost use Rattle.byteorder.specs.Endian.{little_bytes};
ghost use Rattle.sg_array.specs.Array.{per_page, root_cell, rounded_up};
ghost use Rattle.sg_array.specs.Calls.{HasArray, IfArray};
ghost use Rattle.sg_array.specs.Steps.{HasNames, IfNames, IsInRange, IsOfKind, IsPlace, IsLast};
ghost use Rattle.sg_array.specs.Steps as spec;
ghost use Rattle.sg_ops.specs.Table.{Table};
ghost use Rattle.sg_space.specs.Reads.{CanRead, Reads};
ghost use Rattle.sg_space.specs.Units.{HasAt};
ghost use Rattle.sg_space.specs.Pages.{WritesNone};
ghost use Rattle.sg_space.specs.View.{Counts, OnlyReads};

use sg_base::{PageNo, read_u16, read_u32};
use sg_space::{PageSpace, SpaceFault, read_cell};

/// The kind of an array's root page.
pub const ROOT_KIND: u8 = 2;

/// The kind of a page that names item pages.
pub const INDEX_KIND: u8 = 3;

/// The kind of a page of items.
pub const LEAF_KIND: u8 = 4;

/// The most items.
pub const MOST: u32 = 1_048_576;

/// How many item pages an index page names.
pub const LINKS: u32 = 509;

/// What the root's first cell says.
#[derive(Clone, Copy)]
pub struct Root {
    pub size: u16,
    pub count: u32,
    pub peak: u32,
    ghost some: { 1 ≤ size },
    ghost small: { size ≤ 256 },
    ghost below_peak: { count ≤ peak },
    ghost few: { peak ≤ 1048576 },
}

/// How many items of this size a page holds.
pub fn per_page(size: u16) -> u32
    requires { 1 ≤ size }
    ensures { result ≡ per_page size }
{
    4_072 / (size as u32 + 4)
}

// The numbers that the root's first cell spells, if they are in their ranges.
fn root_in(cell: &[u8]) -> Option<Root>
    requires { length cell.now ≡ 10 }
    ensures found { IfSome result (λ r. cell.now ≡ root_cell r.size r.count r.peak) }
    ensures all { (r : spec.Root) → IsInRange r → cell.now ≡ root_cell r.size r.count r.peak → IsSome result }
{
    let size = read_u16(cell);
    let count = read_u32(&cell[2..]);
    let peak = read_u32(&cell[6..]);
    if size >= 1 && size <= 256 && count <= peak && peak <= MOST {
        Some(Root { size, count, peak })
    } else {
        None
    }
}

/// What the root's first cell says.
pub fn read_root<P: PageSpace>(space: &mut P, root: PageNo) -> Result<Root, SpaceFault>
    requires { HasArray (P.view space.old) root.0 (λ _. ⊤) }
    ensures counts { Counts (P.view space.old) (P.view space.new) result }
    ensures kept { OnOk result (OnlyReads (P.view space.old) (P.view space.new)) }
    ensures read { IfOk result (λ r. IfArray (P.view space.old) root.0
        (λ a. (r.size ≡ a.size) × (r.count ≡ length a.items) × (r.peak ≡ a.peak))) }
    ensures later { (t : Table) → P.later t space.old space.new }
    ensures means { (t : Table) → P.means space.old t → P.means space.new t }
    ensures writes { WritesNone (P.view space.old) (P.view space.new) result }
{
    let mut cell = [0; 10];
    read_cell(space, root, ROOT_KIND, 0, &mut cell)?;
    match root_in(&cell) {
        Some(found) => Ok(found),
        None => Err(space.broken()),
    }
}

/// The number of the page that a slot names.
pub fn link_at<P: PageSpace>(
    space: &mut P,
    p: PageNo,
    kind: u8,
    slot: u16,
) -> Result<PageNo, SpaceFault>
    requires { CanRead (P.view space.old) p.0 kind slot 4 }
    ensures counts { Counts (P.view space.old) (P.view space.new) result }
    ensures kept { OnOk result (OnlyReads (P.view space.old) (P.view space.new)) }
    ensures read { IfOk result (λ n. Reads (P.view space.old) p.0 kind slot (little_bytes 4 n.0)) }
    ensures small { IfOk result (λ n. n.0 < 2 ^ 32) }
    ensures later { (t : Table) → P.later t space.old space.new }
    ensures means { (t : Table) → P.means space.old t → P.means space.new t }
    ensures writes { WritesNone (P.view space.old) (P.view space.new) result }
{
    let mut cell = [0; 4];
    read_cell(space, p, kind, slot, &mut cell)?;
    Ok(PageNo(read_u32(&cell)))
}

/// The number of index page j, from 0 on.
pub fn index_at<P: PageSpace>(space: &mut P, root: PageNo, j: u32) -> Result<PageNo, SpaceFault>
    requires below { j < 138 }
    requires there { HasNames (P.view space.old) root.0 (λ a. j < length a.index) }
    ensures counts { Counts (P.view space.old) (P.view space.new) result }
    ensures kept { OnOk result (OnlyReads (P.view space.old) (P.view space.new)) }
    ensures read { IfOk result (λ n. IfNames (P.view space.old) root.0 (λ a. slice_get a.index j ≡ Some n.0)) }
    ensures later { (t : Table) → P.later t space.old space.new }
    ensures means { (t : Table) → P.means space.old t → P.means space.new t }
    ensures writes { WritesNone (P.view space.old) (P.view space.new) result }
{
    let found = link_at(space, root, ROOT_KIND, (j + 1) as u16)?;
    Ok(found)
}

/// The number of item page d, from 0 on.
pub fn leaf_at<P: PageSpace>(space: &mut P, root: PageNo, d: u32) -> Result<PageNo, SpaceFault>
    requires below { d < 70000 }
    requires there { HasNames (P.view space.old) root.0 (λ a. d < length a.leaves) }
    ensures counts { Counts (P.view space.old) (P.view space.new) result }
    ensures kept { OnOk result (OnlyReads (P.view space.old) (P.view space.new)) }
    ensures read { IfOk result (λ n. IfNames (P.view space.old) root.0 (λ a. slice_get a.leaves d ≡ Some n.0)) }
    ensures later { (t : Table) → P.later t space.old space.new }
    ensures means { (t : Table) → P.means space.old t → P.means space.new t }
    ensures writes { WritesNone (P.view space.old) (P.view space.new) result }
{
    let index = index_at(space, root, d / LINKS)?;
    let found = link_at(space, index, INDEX_KIND, (d % LINKS) as u16)?;
    Ok(found)
}

/// Looks that a page is of this kind.
pub fn check_kind<P: PageSpace>(space: &mut P, p: PageNo, kind: u8) -> Result<(), SpaceFault>
    requires { (P.view space.old).Told → HasAt (P.view space.old).space.pages.at p.0 (IsOfKind kind) }
    ensures counts { Counts (P.view space.old) (P.view space.new) result }
    ensures kept { OnOk result (OnlyReads (P.view space.old) (P.view space.new)) }
    ensures later { (t : Table) → P.later t space.old space.new }
    ensures means { (t : Table) → P.means space.old t → P.means space.new t }
    ensures writes { WritesNone (P.view space.old) (P.view space.new) result }
{
    let view = space.page(p)?;
    if view.kind() != kind {
        return Err(space.broken());
    }
    Ok(())
}

/// Where an item stands.
#[derive(Clone, Copy)]
pub struct Place {
    pub leaf: PageNo,
    pub slot: u16,
    pub size: u16,
    ghost small: { size ≤ 256 },
}

/// Where an item stands, and how many bytes it has.
pub fn place_of<P: PageSpace>(space: &mut P, root: PageNo, i: u32) -> Result<Place, SpaceFault>
    requires { HasArray (P.view space.old) root.0 (λ a. i < length a.items) }
    ensures counts { Counts (P.view space.old) (P.view space.new) result }
    ensures kept { OnOk result (OnlyReads (P.view space.old) (P.view space.new)) }
    ensures read { IfOk result (λ r. IfArray (P.view space.old) root.0 (IsPlace i r.leaf.0 r.slot r.size)) }
    ensures later { (t : Table) → P.later t space.old space.new }
    ensures means { (t : Table) → P.means space.old t → P.means space.new t }
    ensures writes { WritesNone (P.view space.old) (P.view space.new) result }
{
    let found = read_root(space, root)?;
    if i >= found.count {
        return Err(space.broken());
    }
    let size = found.size;
    let each = per_page(size);
    let leaf = leaf_at(space, root, i / each)?;
    let slot = (i % each) as u16;
    Ok(Place { leaf, slot, size })
}

// Looks that a page of items has a cell of this size there.
fn check_item<P: PageSpace>(space: &mut P, place: Place) -> Result<(), SpaceFault>
    requires { CanRead (P.view space.old) place.leaf.0 4 place.slot place.size }
    ensures counts { Counts (P.view space.old) (P.view space.new) result }
    ensures kept { OnOk result (OnlyReads (P.view space.old) (P.view space.new)) }
    ensures later { (t : Table) → P.later t space.old space.new }
    ensures means { (t : Table) → P.means space.old t → P.means space.new t }
    ensures writes { WritesNone (P.view space.old) (P.view space.new) result }
{
    let mut buffer = [0; 256];
    let item = &mut buffer[..place.size as usize];
    read_cell(space, place.leaf, LEAF_KIND, place.slot, item)?;
    Ok(())
}

/// Where an item stands, in a page of items that has a cell of its size there.
pub fn find_item<P: PageSpace>(space: &mut P, root: PageNo, i: u32) -> Result<Place, SpaceFault>
    requires { HasArray (P.view space.old) root.0 (λ a. i < length a.items) }
    ensures counts { Counts (P.view space.old) (P.view space.new) result }
    ensures kept { OnOk result (OnlyReads (P.view space.old) (P.view space.new)) }
    ensures read { IfOk result (λ r. IfArray (P.view space.old) root.0 (IsPlace i r.leaf.0 r.slot r.size)) }
    ensures later { (t : Table) → P.later t space.old space.new }
    ensures means { (t : Table) → P.means space.old t → P.means space.new t }
    ensures writes { WritesNone (P.view space.old) (P.view space.new) result }
{
    let place = place_of(space, root, i)?;
    check_item(space, place)?;
    Ok(place)
}

/// Where the last item stands, and the numbers of the root without it.
#[derive(Clone, Copy)]
pub struct Last {
    pub place: Place,
    pub count: u32,
    pub peak: u32,
}

/// Where the last item stands.
pub fn last_of<P: PageSpace>(space: &mut P, root: PageNo) -> Result<Last, SpaceFault>
    requires { HasArray (P.view space.old) root.0 (λ a. 0 < length a.items) }
    ensures counts { Counts (P.view space.old) (P.view space.new) result }
    ensures kept { OnOk result (OnlyReads (P.view space.old) (P.view space.new)) }
    ensures read { IfOk result (λ r. IfArray (P.view space.old) root.0
        (IsLast r.place.leaf.0 r.place.slot r.place.size r.count r.peak)) }
    ensures later { (t : Table) → P.later t space.old space.new }
    ensures means { (t : Table) → P.means space.old t → P.means space.new t }
    ensures writes { WritesNone (P.view space.old) (P.view space.new) result }
{
    let found = read_root(space, root)?;
    if found.count == 0 {
        return Err(space.broken());
    }
    let count = found.count - 1;
    let peak = found.peak;
    let place = place_of(space, root, count)?;
    Ok(Last { place, count, peak })
}

/// How many item pages and index pages an array wants.
#[derive(Clone, Copy)]
pub struct Wanted {
    pub leaves: u32,
    pub index: u32,
}

/// How many item pages and index pages an array with this root wants.
pub fn wanted_pages(found: Root) -> Wanted
    ensures leaves { result.leaves ≡ rounded_up found.peak (per_page found.size) }
    ensures index { result.index ≡ rounded_up result.leaves 509 }
    ensures few { result.leaves < 70000 }
{
    let each = per_page(found.size);
    let leaves = (found.peak + (each - 1)) / each;
    let index = (leaves + (LINKS - 1)) / LINKS;
    Wanted { leaves, index }
}
