ghost use Rattle.std.specs.Prelude.{◌≡◌, ◌+◌, ◌-◌, ◌*◌, ◌/◌, ◌%◌, ◌^◌, ◌<◌, ◌≤◌, length, take, drop, IfOk, OnOk, ⊤};
ghost use Rattle.sg_blob.specs.Calls.{HasBlob, IfBlob, DidIf, HasBandsFor, CanWriteAt, IsPlaced, IsPaintedAt, IsResized, Made, CanRestore, Restored};
ghost use Rattle.sg_blob.specs.Steps.{HasRaw, IfRaw, CanPaintBy};
ghost use Rattle.sg_ops.specs.Table.{Table, table_of};
ghost use Rattle.sg_space.specs.Pages.{CanTake, WritesNone};
ghost use Rattle.sg_space.specs.View.{Counts, OnlyReads};

use crate::change::{grow_to, paint_all, set_root, spell_root, write_all};
use crate::walk::{ROOT_KIND, bands_for, piece, read_in, read_root};
use sg_base::PageNo;
use sg_ops::Ops;
use sg_space::{PageSpace, SpaceFault, take_page_with};

// The code of the range operation `fill`, which is always registered.
const FILL: u16 = 1;

/// Makes a blob without bytes, in a page that is taken for its root.
pub fn make<P: PageSpace>(space: &mut P, ops: &Ops) -> Result<PageNo, SpaceFault>
    requires means { P.means space.old (table_of record_meaning range_meaning ops.now) }
    requires can { CanTake (P.view space.old) (P.view space.old).space.pages }
    ensures counts { Counts (P.view space.old) (P.view space.new) result }
    ensures did { IfOk result (λ root. Made (P.view space.old) (P.view space.new) root.0) }
    ensures later { P.later (table_of record_meaning range_meaning ops.now) space.old space.new }
    ensures means { P.means space.new (table_of record_meaning range_meaning ops.now) }
    ensures few { (P.view space.new).records ≤ (P.view space.old).records + 3 }
{
    let root = take_page_with(space, ops, ROOT_KIND, &spell_root(0, 0))?;
    Ok(root)
}

/// How many bytes there are.
pub fn len<P: PageSpace>(space: &mut P, root: PageNo) -> Result<u32, SpaceFault>
    requires { HasBlob (P.view space.old) root.0 (λ _. ⊤) }
    ensures counts { Counts (P.view space.old) (P.view space.new) result }
    ensures kept { OnOk result (OnlyReads (P.view space.old) (P.view space.new)) }
    ensures read { IfOk result (λ n. IfBlob (P.view space.old) root.0 (λ b. n ≡ length b.bytes)) }
    ensures within { IfOk result (λ n. n ≤ 16384000) }
    ensures later { (t : Table) → P.later t space.old space.new }
    ensures means { (t : Table) → P.means space.old t → P.means space.new t }
    ensures writes { WritesNone (P.view space.old) (P.view space.new) result }
{
    let found = read_root(space, root)?;
    Ok(found.count)
}

/// How many bands it has.
pub fn bands<P: PageSpace>(space: &mut P, root: PageNo) -> Result<u32, SpaceFault>
    requires { HasBlob (P.view space.old) root.0 (λ _. ⊤) }
    ensures counts { Counts (P.view space.old) (P.view space.new) result }
    ensures kept { OnOk result (OnlyReads (P.view space.old) (P.view space.new)) }
    ensures read { IfOk result (λ n. IfBlob (P.view space.old) root.0 (λ b. n ≡ length b.bands)) }
    ensures later { (t : Table) → P.later t space.old space.new }
    ensures means { (t : Table) → P.means space.old t → P.means space.new t }
    ensures writes { WritesNone (P.view space.old) (P.view space.new) result }
{
    let found = read_root(space, root)?;
    Ok(bands_for(found.peak))
}

/// Fills `into` with the bytes from byte `at` on. They end at or before the length.
pub fn read<P: PageSpace>(
    space: &mut P,
    root: PageNo,
    at: u32,
    into: &mut [u8],
) -> Result<(), SpaceFault>
    requires { HasBlob (P.view space.old) root.0 (λ b. at + length into.old ≤ length b.bytes) }
    ensures counts { Counts (P.view space.old) (P.view space.new) result }
    ensures kept { OnOk result (OnlyReads (P.view space.old) (P.view space.new)) }
    ensures read { OnOk result (IfBlob (P.view space.old) root.0
        (λ b. into.new ≡ take (length into.new) (drop at b.bytes))) }
    ensures later { (t : Table) → P.later t space.old space.new }
    ensures means { (t : Table) → P.means space.old t → P.means space.new t }
    ensures writes { WritesNone (P.view space.old) (P.view space.new) result }
{
    let found = read_root(space, root)?;
    if at > found.count || into.len() > (found.count - at) as usize {
        return Err(space.broken());
    }
    let mut done = 0;
    'pieces: while done < into.len() {
        let place = at + done as u32;
        let n = piece(place, into.len() - done);
        read_in(space, root, place, &mut into[done..done + n])?;
        done += n;
    }
    Ok(())
}

/// Writes bytes from byte `at` on, which is at most the length and rises where it has to. There are
/// bands for it: a blob has as many as its greatest length wants.
pub fn write<P: PageSpace>(
    space: &mut P,
    ops: &Ops,
    root: PageNo,
    at: u32,
    bytes: &[u8],
) -> Result<(), SpaceFault>
    requires means { P.means space.old (table_of record_meaning range_meaning ops.now) }
    requires small { at + length bytes.now ≤ 16384000 }
    requires there { HasBlob (P.view space.old) root.0
        (CanWriteAt (P.view space.old) root.0 at (length bytes.now)) }
    ensures counts { Counts (P.view space.old) (P.view space.new) result }
    ensures did { OnOk result (DidIf (P.view space.old) (P.view space.new) root.0
        (CanWriteAt (P.view space.old) root.0 at (length bytes.now)) (IsPlaced at bytes.now)) }
    ensures within { OnOk result (IfBlob (P.view space.old) root.0 (λ b. at ≤ length b.bytes)) }
    ensures later { P.later (table_of record_meaning range_meaning ops.now) space.old space.new }
    ensures means { P.means space.new (table_of record_meaning range_meaning ops.now) }
    ensures few { (P.view space.new).records ≤ (P.view space.old).records + (length bytes.now / 8192 + 3003) }
{
    let found = read_root(space, root)?;
    if at > found.count {
        return Err(space.broken());
    }
    let end = at + bytes.len() as u32;
    let count = found.count.max(end);
    let peak = found.peak.max(end);
    grow_to(space, ops, root, bands_for(found.peak), bands_for(peak))?;
    write_all(space, root, at, bytes)?;
    set_root(space, ops, root, count, peak)?;
    Ok(())
}

/// Writes `count` bytes from byte `at` on, which end at or before the length: what the range
/// operation with this code gives for `arg` at the positions of these bytes in the blob.
pub fn paint<P: PageSpace>(
    space: &mut P,
    ops: &Ops,
    root: PageNo,
    at: u32,
    count: u32,
    code: u16,
    arg: &[u8],
) -> Result<(), SpaceFault>
    requires means { P.means space.old (table_of record_meaning range_meaning ops.now) }
    requires there { HasBlob (P.view space.old) root.0 (λ b. at + count ≤ length b.bytes) }
    requires can { (P.view space.old).Told → CanPaintBy (table_of record_meaning range_meaning ops.now)
        code arg.now }
    ensures counts { Counts (P.view space.old) (P.view space.new) result }
    ensures did { OnOk result (DidIf (P.view space.old) (P.view space.new) root.0
        (λ b. at + count ≤ length b.bytes)
        (IsPaintedAt (table_of record_meaning range_meaning ops.now) at count code arg.now)) }
    ensures within { OnOk result (IfBlob (P.view space.old) root.0 (λ b. at + count ≤ length b.bytes)) }
    ensures later { P.later (table_of record_meaning range_meaning ops.now) space.old space.new }
    ensures means { P.means space.new (table_of record_meaning range_meaning ops.now) }
    ensures few { (P.view space.new).records ≤ (P.view space.old).records + (count / 8192 + 2) }
{
    let found = read_root(space, root)?;
    if at > found.count || count > found.count - at {
        return Err(space.broken());
    }
    paint_all(space, ops, root, at, count, code, arg)?;
    Ok(())
}

/// Makes the length another one. Bytes that are gained are 0, and there are bands for them. A blob
/// that becomes shorter keeps its bands.
pub fn set_len<P: PageSpace>(
    space: &mut P,
    ops: &Ops,
    root: PageNo,
    size: u32,
) -> Result<(), SpaceFault>
    requires means { P.means space.old (table_of record_meaning range_meaning ops.now) }
    requires small { size ≤ 16384000 }
    requires there { HasBlob (P.view space.old) root.0 (HasBandsFor (P.view space.old) root.0 size) }
    ensures counts { Counts (P.view space.old) (P.view space.new) result }
    ensures did { OnOk result (DidIf (P.view space.old) (P.view space.new) root.0
        (HasBandsFor (P.view space.old) root.0 size) (IsResized size)) }
    ensures later { P.later (table_of record_meaning range_meaning ops.now) space.old space.new }
    ensures means { P.means space.new (table_of record_meaning range_meaning ops.now) }
    ensures few { (P.view space.new).records ≤ (P.view space.old).records + 5003 }
{
    let found = read_root(space, root)?;
    let from = found.count.min(size);
    let peak = found.peak.max(size);
    paint_all(space, ops, root, from, found.count - from, FILL, &[])?;
    grow_to(space, ops, root, bands_for(found.peak), bands_for(peak))?;
    set_root(space, ops, root, size, peak)?;
    Ok(())
}

/// Makes the length another one and changes nothing else, where the bytes that the bands hold are of
/// this length already: those behind it are 0. It is what undoes a change of the length, once the bytes
/// are back.
pub fn restore_len<P: PageSpace>(
    space: &mut P,
    ops: &Ops,
    root: PageNo,
    size: u32,
) -> Result<(), SpaceFault>
    requires means { P.means space.old (table_of record_meaning range_meaning ops.now) }
    requires can { HasRaw (P.view space.old) root.0 (CanRestore size) }
    ensures counts { Counts (P.view space.old) (P.view space.new) result }
    ensures did { OnOk result (Restored (P.view space.old) (P.view space.new) root.0 size) }
    ensures within { OnOk result (IfRaw (P.view space.old) root.0 (λ r. size ≤ r.peak)) }
    ensures later { P.later (table_of record_meaning range_meaning ops.now) space.old space.new }
    ensures means { P.means space.new (table_of record_meaning range_meaning ops.now) }
    ensures few { (P.view space.new).records ≤ (P.view space.old).records + 1 }
{
    let found = read_root(space, root)?;
    if size > found.peak {
        return Err(space.broken());
    }
    set_root(space, ops, root, size, found.peak)?;
    Ok(())
}
