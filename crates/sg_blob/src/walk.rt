// From the root of a blob to its bands.
ghost use Rattle.std.specs.Prelude.{◌≡◌, ◌+◌, ◌-◌, ◌*◌, ◌/◌, ◌%◌, ◌^◌, ◌<◌, ◌≤◌, min, length, slice_get, Some, IfOk, OnOk, IfSome, IsSome, ⊤};
ghost use Rattle.byteorder.specs.Endian.{little_bytes};
ghost use Rattle.sg_blob.specs.Raw.{root_cell};
ghost use Rattle.sg_blob.specs.Steps.{HasRaw, IfRaw, IsInRange, IsCopied};
ghost use Rattle.sg_blob.specs.Steps as spec;
ghost use Rattle.sg_ops.specs.Table.{Table};
ghost use Rattle.sg_space.specs.Bands.{IsPiece};
ghost use Rattle.sg_space.specs.Pages.{CanLook, WritesNone};
ghost use Rattle.sg_space.specs.Reads.{CanRead, Reads};
ghost use Rattle.sg_space.specs.Units.{HasAt};
ghost use Rattle.sg_space.specs.View.{Counts, OnlyReads};

use sg_base::{BAND_SIZE, BandNo, PageNo, read_u32};
use sg_space::{PageSpace, SpaceFault, read_cell};

/// The kind of a blob's root page.
pub const ROOT_KIND: u8 = 7;

/// The most bytes that a blob may have.
pub const MOST: u32 = 16_384_000;

/// How many bytes a band has, as a number of the type of places in a blob.
pub const BAND: u32 = BAND_SIZE as u32;

/// The most bytes that are written or read at once.
const MOST_AT_ONCE: u32 = 8_192;

/// What the root's first cell says.
#[derive(Clone, Copy)]
pub struct Root {
    pub count: u32,
    pub peak: u32,
    ghost below_peak: { count ≤ peak },
    ghost few: { peak ≤ 16384000 },
}

// The numbers that the root's first cell spells, if they are in their ranges.
fn root_in(cell: &[u8]) -> Option<Root>
    requires { length cell.now ≡ 8 }
    ensures found { IfSome result (λ r. cell.now ≡ root_cell r.count r.peak) }
    ensures all { (r : spec.Root) → IsInRange r → cell.now ≡ root_cell r.count r.peak → IsSome result }
{
    let count = read_u32(cell);
    let peak = read_u32(&cell[4..]);
    if count <= peak && peak <= MOST {
        Some(Root { count, peak })
    } else {
        None
    }
}

/// What the root's first cell says.
pub fn read_root<P: PageSpace>(space: &mut P, root: PageNo) -> Result<Root, SpaceFault>
    requires { HasRaw (P.view space.old) root.0 (λ _. ⊤) }
    ensures counts { Counts (P.view space.old) (P.view space.new) result }
    ensures kept { OnOk result (OnlyReads (P.view space.old) (P.view space.new)) }
    ensures read { IfOk result (λ n. IfRaw (P.view space.old) root.0 (λ r. (n.count ≡ r.count) × (n.peak ≡ r.peak))) }
    ensures later { (t : Table) → P.later t space.old space.new }
    ensures means { (t : Table) → P.means space.old t → P.means space.new t }
    ensures writes { WritesNone (P.view space.old) (P.view space.new) result }
{
    let mut cell = [0; 8];
    read_cell(space, root, ROOT_KIND, 0, &mut cell)?;
    match root_in(&cell) {
        Some(found) => Ok(found),
        None => Err(space.broken()),
    }
}

/// The number of a band that a slot of the root names.
pub fn link_at<P: PageSpace>(space: &mut P, root: PageNo, slot: u16) -> Result<BandNo, SpaceFault>
    requires { CanRead (P.view space.old) root.0 7 slot 4 }
    ensures counts { Counts (P.view space.old) (P.view space.new) result }
    ensures kept { OnOk result (OnlyReads (P.view space.old) (P.view space.new)) }
    ensures read { IfOk result (λ n. Reads (P.view space.old) root.0 7 slot (little_bytes 4 n.0)) }
    ensures small { IfOk result (λ n. n.0 < 2 ^ 32) }
    ensures later { (t : Table) → P.later t space.old space.new }
    ensures means { (t : Table) → P.means space.old t → P.means space.new t }
    ensures writes { WritesNone (P.view space.old) (P.view space.new) result }
{
    let mut cell = [0; 4];
    read_cell(space, root, ROOT_KIND, slot, &mut cell)?;
    Ok(BandNo(read_u32(&cell)))
}

/// The number of band j, from 0 on.
pub fn band_at<P: PageSpace>(space: &mut P, root: PageNo, j: u32) -> Result<BandNo, SpaceFault>
    requires below { j < 500 }
    requires there { HasRaw (P.view space.old) root.0 (λ r. j < length r.bands) }
    ensures counts { Counts (P.view space.old) (P.view space.new) result }
    ensures kept { OnOk result (OnlyReads (P.view space.old) (P.view space.new)) }
    ensures read { IfOk result (λ n. IfRaw (P.view space.old) root.0 (λ r. slice_get r.bands j ≡ Some n.0)) }
    ensures later { (t : Table) → P.later t space.old space.new }
    ensures means { (t : Table) → P.means space.old t → P.means space.new t }
    ensures writes { WritesNone (P.view space.old) (P.view space.new) result }
{
    let found = link_at(space, root, (j + 1) as u16)?;
    Ok(found)
}

// Copies bytes of a band.
fn copy_band<P: PageSpace>(
    space: &mut P,
    b: BandNo,
    at: u32,
    into: &mut [u8],
) -> Result<(), SpaceFault>
    requires there { CanLook (P.view space.old) (P.view space.old).space.bands b.0 }
    requires piece { IsPiece at (length into.old) }
    ensures counts { Counts (P.view space.old) (P.view space.new) result }
    ensures kept { OnOk result (OnlyReads (P.view space.old) (P.view space.new)) }
    ensures read { OnOk result ((P.view space.old).Shows → HasAt (P.view space.old).space.bands.at b.0 (λ band. IsCopied band at into.new)) }
    ensures later { (t : Table) → P.later t space.old space.new }
    ensures means { (t : Table) → P.means space.old t → P.means space.new t }
    ensures writes { WritesNone (P.view space.old) (P.view space.new) result }
{
    let band = space.band(b)?;
    let start = at as usize;
    into.copy_from_slice(&band[start..start + into.len()]);
    Ok(())
}

/// Copies bytes that stand in one band.
pub fn read_in<P: PageSpace>(
    space: &mut P,
    root: PageNo,
    at: u32,
    into: &mut [u8],
) -> Result<(), SpaceFault>
    requires piece { IsPiece (at % BAND) (length into.old) }
    requires small { at < 16384000 }
    requires there { HasRaw (P.view space.old) root.0 (λ r. at / BAND < length r.bands) }
    ensures counts { Counts (P.view space.old) (P.view space.new) result }
    ensures kept { OnOk result (OnlyReads (P.view space.old) (P.view space.new)) }
    ensures read { OnOk result (IfRaw (P.view space.old) root.0 (λ r. IsCopied r.bytes at into.new)) }
    ensures later { (t : Table) → P.later t space.old space.new }
    ensures means { (t : Table) → P.means space.old t → P.means space.new t }
    ensures writes { WritesNone (P.view space.old) (P.view space.new) result }
{
    let b = band_at(space, root, at / BAND)?;
    copy_band(space, b, at % BAND, into)?;
    Ok(())
}

/// How many of so many bytes from byte `at` on are written or read at once: at most 8,192, and none of
/// the next band.
pub fn piece(at: u32, left: usize) -> usize
    requires { 1 ≤ left }
    ensures piece { IsPiece (at % BAND) result }
    ensures most { result ≤ left }
    ensures value { result ≡ min (min (BAND - at % BAND) 8192) left }
{
    let room = (BAND - at % BAND).min(MOST_AT_ONCE) as usize;
    room.min(left)
}

/// How many bands so many bytes want.
pub fn bands_for(size: u32) -> u32
    requires { size ≤ 16384000 }
    ensures { result ≡ (size + (BAND - 1)) / BAND }
{
    (size + (BAND - 1)) / BAND
}
