// The steps of a change of a blob.
ghost use Rattle.std.specs.Prelude.{◌≡◌, ◌+◌, ◌-◌, ◌*◌, ◌/◌, ◌%◌, ◌^◌, ◌<◌, ◌≤◌, length, OnOk, ⊤};
ghost use Rattle.sg_blob.specs.Raw.{root_cell};
ghost use Rattle.sg_blob.specs.Steps.{HasRaw, HasPlace, Did, DidSome, with_bytes, with_root, CanPaintBy, CanAdd, CanGrow, IsGrown};
ghost use Rattle.sg_ops.specs.Table.{Table, table_of, range_at, rendered};
ghost use Rattle.sg_space.specs.Bands.{IsPiece};
ghost use Rattle.sg_space.specs.View.{Counts};

use crate::walk::{BAND, band_at, piece};
use sg_base::{PageNo, PageOp, write_u32};
use sg_ops::Ops;
use sg_space::{PageSpace, SpaceFault};

/// Writes bytes into one band.
pub fn write_in<P: PageSpace>(
    space: &mut P,
    root: PageNo,
    at: u32,
    bytes: &[u8],
) -> Result<(), SpaceFault>
    requires piece { IsPiece (at % BAND) (length bytes.now) }
    requires small { at < 16384000 }
    requires there { HasRaw (P.view space.old) root.0 (HasPlace at (length bytes.now)) }
    ensures counts { Counts (P.view space.old) (P.view space.new) result }
    ensures did { OnOk result (Did (P.view space.old) (P.view space.new) root.0
        (HasPlace at (length bytes.now)) (with_bytes at bytes.now)) }
    ensures later { (t : Table) → P.later t space.old space.new }
    ensures means { (t : Table) → P.means space.old t → P.means space.new t }
    ensures few { (P.view space.new).records ≤ (P.view space.old).records + 1 }
{
    let b = band_at(space, root, at / BAND)?;
    space.write_band(b, at % BAND, bytes)?;
    Ok(())
}

/// Writes bytes, in pieces that don't pass a band.
pub fn write_all<P: PageSpace>(
    space: &mut P,
    root: PageNo,
    at: u32,
    bytes: &[u8],
) -> Result<(), SpaceFault>
    requires small { at + length bytes.now ≤ 16384000 }
    requires there { HasRaw (P.view space.old) root.0 (HasPlace at (length bytes.now)) }
    ensures counts { Counts (P.view space.old) (P.view space.new) result }
    ensures did { OnOk result (Did (P.view space.old) (P.view space.new) root.0
        (HasPlace at (length bytes.now)) (with_bytes at bytes.now)) }
    ensures later { (t : Table) → P.later t space.old space.new }
    ensures means { (t : Table) → P.means space.old t → P.means space.new t }
    ensures few { (P.view space.new).records ≤ (P.view space.old).records + (length bytes.now / 8192 + 2) }
{
    let mut done = 0;
    'pieces: while done < bytes.len() {
        let place = at + done as u32;
        let n = piece(place, bytes.len() - done);
        write_in(space, root, place, &bytes[done..done + n])?;
        done += n;
    }
    Ok(())
}

/// The bytes of the root's first cell.
pub fn spell_root(count: u32, peak: u32) -> [u8; 8]
    ensures { result ≡ root_cell count peak }
{
    let mut cell = [0; 8];
    write_u32(&mut cell, count);
    write_u32(&mut cell[4..], peak);
    cell
}

/// Writes the root's first cell.
pub fn set_root<P: PageSpace>(
    space: &mut P,
    ops: &Ops,
    root: PageNo,
    count: u32,
    peak: u32,
) -> Result<(), SpaceFault>
    requires means { P.means space.old (table_of record_meaning range_meaning ops.now) }
    requires below { count ≤ peak }
    requires few { peak ≤ 16384000 }
    requires there { HasRaw (P.view space.old) root.0 (λ _. ⊤) }
    ensures counts { Counts (P.view space.old) (P.view space.new) result }
    ensures did { OnOk result (Did (P.view space.old) (P.view space.new) root.0 (λ _. ⊤) (with_root count peak)) }
    ensures later { P.later (table_of record_meaning range_meaning ops.now) space.old space.new }
    ensures means { P.means space.new (table_of record_meaning range_meaning ops.now) }
    ensures few { (P.view space.new).records ≤ (P.view space.old).records + 1 }
{
    let cell = spell_root(count, peak);
    let op = PageOp::Set {
        slot: 0,
        bytes: &cell,
    };
    space.change(ops, root, &op)?;
    Ok(())
}

/// Paints bytes of one band.
pub fn paint_in<P: PageSpace>(
    space: &mut P,
    ops: &Ops,
    root: PageNo,
    at: u32,
    count: u32,
    code: u16,
    arg: &[u8],
) -> Result<(), SpaceFault>
    requires means { P.means space.old (table_of record_meaning range_meaning ops.now) }
    requires piece { IsPiece (at % BAND) count }
    requires small { at + count ≤ 16384000 }
    requires there { HasRaw (P.view space.old) root.0 (HasPlace at count) }
    requires can { (P.view space.old).Told → CanPaintBy (table_of record_meaning range_meaning ops.now)
        code arg.now }
    ensures counts { Counts (P.view space.old) (P.view space.new) result }
    ensures did { OnOk result (Did (P.view space.old) (P.view space.new) root.0 (HasPlace at count)
        (with_bytes at (rendered (range_at (table_of record_meaning range_meaning ops.now) code) arg.now at count))) }
    ensures later { P.later (table_of record_meaning range_meaning ops.now) space.old space.new }
    ensures means { P.means space.new (table_of record_meaning range_meaning ops.now) }
    ensures few { (P.view space.new).records ≤ (P.view space.old).records + 1 }
{
    let b = band_at(space, root, at / BAND)?;
    space.paint_band(ops, b, at % BAND, count, code, at, arg)?;
    Ok(())
}

/// Paints bytes, in pieces that don't pass a band.
pub fn paint_all<P: PageSpace>(
    space: &mut P,
    ops: &Ops,
    root: PageNo,
    at: u32,
    count: u32,
    code: u16,
    arg: &[u8],
) -> Result<(), SpaceFault>
    requires means { P.means space.old (table_of record_meaning range_meaning ops.now) }
    requires small { at + count ≤ 16384000 }
    requires there { HasRaw (P.view space.old) root.0 (HasPlace at count) }
    requires can { (P.view space.old).Told → CanPaintBy (table_of record_meaning range_meaning ops.now)
        code arg.now }
    ensures counts { Counts (P.view space.old) (P.view space.new) result }
    ensures did { OnOk result (Did (P.view space.old) (P.view space.new) root.0 (HasPlace at count)
        (with_bytes at (rendered (range_at (table_of record_meaning range_meaning ops.now) code) arg.now at count))) }
    ensures later { P.later (table_of record_meaning range_meaning ops.now) space.old space.new }
    ensures means { P.means space.new (table_of record_meaning range_meaning ops.now) }
    ensures few { (P.view space.new).records ≤ (P.view space.old).records + (count / 8192 + 2) }
{
    let mut done = 0;
    'pieces: while done < count {
        let place = at + done;
        let n = piece(place, (count - done) as usize) as u32;
        paint_in(space, ops, root, place, n, code, arg)?;
        done += n;
    }
    Ok(())
}

// Takes a band, and puts its number behind those of the root.
fn add_band<P: PageSpace>(space: &mut P, ops: &Ops, root: PageNo, j: u32) -> Result<(), SpaceFault>
    requires means { P.means space.old (table_of record_meaning range_meaning ops.now) }
    requires below { j < 500 }
    requires there { HasRaw (P.view space.old) root.0 (CanAdd (P.view space.old) root.0 j) }
    ensures counts { Counts (P.view space.old) (P.view space.new) result }
    ensures did { OnOk result (DidSome (P.view space.old) (P.view space.new) root.0
        (CanAdd (P.view space.old) root.0 j) (IsGrown (j + 1))) }
    ensures later { P.later (table_of record_meaning range_meaning ops.now) space.old space.new }
    ensures means { P.means space.new (table_of record_meaning range_meaning ops.now) }
    ensures few { (P.view space.new).records ≤ (P.view space.old).records + 6 }
{
    let band = space.take_band()?;
    let mut cell = [0; 4];
    write_u32(&mut cell, band.0);
    let slot = (j + 1) as u16;
    let op = PageOp::Put { slot, bytes: &cell };
    space.change(ops, root, &op)?;
    Ok(())
}

/// Takes bands until there are so many.
pub fn grow_to<P: PageSpace>(
    space: &mut P,
    ops: &Ops,
    root: PageNo,
    have: u32,
    want: u32,
) -> Result<(), SpaceFault>
    requires means { P.means space.old (table_of record_meaning range_meaning ops.now) }
    requires order { have ≤ want }
    requires most { want ≤ 500 }
    requires there { HasRaw (P.view space.old) root.0 (CanGrow (P.view space.old) root.0 have want) }
    ensures counts { Counts (P.view space.old) (P.view space.new) result }
    ensures did { OnOk result (DidSome (P.view space.old) (P.view space.new) root.0
        (CanGrow (P.view space.old) root.0 have want) (IsGrown want)) }
    ensures later { P.later (table_of record_meaning range_meaning ops.now) space.old space.new }
    ensures means { P.means space.new (table_of record_meaning range_meaning ops.now) }
    ensures few { (P.view space.new).records ≤ (P.view space.old).records + 6 * (want - have) }
{
    for j in have..want {
        add_band(space, ops, root, j)?;
    }
    Ok(())
}
