// How the frames of a log are copied to another area.
ghost use Rattle.std.specs.Prelude.{◌≡◌, ◌≢◌, ◌≤◌, ◌<◌, ◌+◌, ◌-◌, ℕ, List, length, IfOk, IfErr, OnOk, OnErr, IsTrue};
ghost use Rattle.sg_base.specs.Ends.{HasRisen};
ghost use Rattle.sg_disk.specs.Disk.{END, View, LeavesOnly};
ghost use Rattle.sg_record.specs.Records.{Record};
ghost use Rattle.sg_log.specs.Frames.{Frames, LOG_END, gate_after};
ghost use Rattle.sg_log.specs.Reads.{OnlyReads};
ghost use Rattle.sg_log.specs.Cut.{IsHolding, IsCopied, Spares, other_log};

use crate::reading::body_size;
use sg_base::Lsn;
use sg_disk::{Area, Disk, Failed};

// Copies so many bytes.
fn copy_piece<D: Disk>(
    disk: &mut D,
    from: Area,
    start: u64,
    to: Area,
    at: u64,
    count: usize,
) -> Result<(), Failed>
    requires short { count ≤ 4096 }
    requires there { start + at + count ≤ END }
    requires here { at + count ≤ END }
    ensures copied { (v : View) → IsTrue D.told → from ≢ to → IsCopied from start to at v (D.view disk.old) → OnOk result (IsCopied from start to (at + count) v (D.view disk.new)) }
    ensures any_moment { (v : View) → IsTrue D.told → LeavesOnly v (D.view disk.old) (Spares to v.now) → IsCopied from start to at v (D.view disk.old) → LeavesOnly v (D.view disk.new) (Spares to v.now) }
    ensures failed { OnErr result (HasRisen (D.view disk.old).faults (D.view disk.new).faults) }
    ensures quiet { OnOk result ((D.view disk.new).faults ≡ (D.view disk.old).faults) }
    ensures handed { (D.view disk.new).handed ≤ (D.view disk.old).handed + count }
    ensures kept { (D.view disk.old).handed ≤ (D.view disk.new).handed }
    ensures later { (D.view disk.old).faults ≤ (D.view disk.new).faults }
{
    let mut piece = [0; 4096];
    disk.read_at(from, start + at, &mut piece[..count])?;
    disk.write_at(to, at, &piece[..count])?;
    Ok(())
}

/// Copies so many bytes of one area, from this offset on, to the front of another one. Only that one is
/// touched.
pub fn copy<D: Disk>(
    disk: &mut D,
    from: Area,
    start: u64,
    to: Area,
    count: u64,
) -> Result<(), Failed>
    requires there { start + count ≤ END }
    ensures copied { IsTrue D.told → from ≢ to → OnOk result (IsCopied from start to count (D.view disk.old) (D.view disk.new)) }
    ensures any_moment { IsTrue D.told → from ≢ to → LeavesOnly (D.view disk.old) (D.view disk.new) (Spares to (D.view disk.old).now) }
    ensures failed { OnErr result (HasRisen (D.view disk.old).faults (D.view disk.new).faults) }
    ensures quiet { OnOk result ((D.view disk.new).faults ≡ (D.view disk.old).faults) }
    ensures handed { (D.view disk.new).handed ≤ (D.view disk.old).handed + count }
    ensures kept { (D.view disk.old).handed ≤ (D.view disk.new).handed }
    ensures later { (D.view disk.old).faults ≤ (D.view disk.new).faults }
{
    let mut at = 0;
    'pieces: while at < count {
        let left = count - at;
        let size = if left < 4096 { left as usize } else { 4096 };
        copy_piece(disk, from, start, to, at, size)?;
        at += size as u64;
    }
    Ok(())
}

/// The offset of the gate of the frame that holds the point, in an area whose first byte has the number
/// base and whose closed gate has the number `gate`. It fails where a frame is longer than that.
pub fn find_holding<D: Disk>(
    disk: &mut D,
    area: Area,
    base: Lsn,
    gate: Lsn,
    point: Lsn,
) -> Result<u64, Failed>
    requires front { base ≤ point }
    requires before { point < gate }
    requires within { gate ≤ LOG_END }
    ensures found { (frames : List (List Record)) → IsTrue D.told → Frames ((D.view disk.old).now area).seen 0 frames → gate ≡ base + gate_after 0 frames →
        IfOk result (IsHolding base point frames) }
    ensures low { IfOk result (λ at. base + at ≤ point) }
    ensures failed { (frames : List (List Record)) → IsTrue D.told → Frames ((D.view disk.old).now area).seen 0 frames → gate ≡ base + gate_after 0 frames →
        OnErr result (HasRisen (D.view disk.old).faults (D.view disk.new).faults) }
    ensures quiet { OnOk result ((D.view disk.new).faults ≡ (D.view disk.old).faults) }
    ensures reads { OnlyReads D.told (D.view disk.old) (D.view disk.new) }
{
    let mut at = 0;
    'frames: loop {
        let size = body_size(disk, area, at)?;
        let end = at + 5 + size as u64;
        if end > gate - base {
            return Err(Failed);
        }
        if base + end > point {
            return Ok(at);
        }
        at = end;
    }
}

/// The other one of the two areas in which a log may stand.
pub fn other_area(area: Area) -> Area
    ensures { result ≡ other_log area }
{
    match area {
        Area::Home => Area::Log0,
        Area::Log0 => Area::Log1,
        Area::Log1 => Area::Log0,
    }
}
