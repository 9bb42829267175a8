// How a frame comes to the disk.
ghost use Rattle.std.specs.Prelude.{◌≡◌, ◌≤◌, ◌+◌, ◌++◌, ◌∷◌, [], ℕ, List, length, take, drop, min, OnOk, OnErr, IsTrue};
ghost use Rattle.byteorder.specs.Endian.{little_bytes};
ghost use Rattle.sg_base.specs.Ends.{HasRisen};
ghost use Rattle.sg_disk.specs.Disk.{END, FULL, LeavesOnly};
ghost use Rattle.sg_log.specs.Frames.{text_of, IsFrame, IsAtRest, IsWithOrWithout, SameElsewhere};
ghost use Rattle.sg_record.specs.Records.{Record};
ghost use Rattle.sg_log.specs.Texts.{spelled_all};

use sg_base::write_u32;
use sg_disk::{Area, Disk, Failed};

/// Writes the length of the body that stands behind the first 4 bytes there, and a closed gate after
/// it. The body stays.
pub fn seal(frame: &mut [u8], used: usize)
    requires room { 4 + used + 1 ≤ length frame.old }
    requires short { used ≤ 65536 }
    ensures text { take (4 + used + 1) frame.new ≡ text_of (take used (drop 4 frame.old)) ++ 0 ∷ [] }
    ensures body { take used (drop 4 frame.new) ≡ take used (drop 4 frame.old) }
{
    write_u32(frame, used as u32);
    frame[4 + used] = 0;
}

/// Writes a frame behind the closed gate at that offset, and opens the gate once it is on the disk.
/// `text` is the frame behind its gate, and a closed gate.
pub fn write_frame<D: Disk>(disk: &mut D, area: Area, at: u64, text: &[u8]) -> Result<(), Failed>
    requires { at + 1 + length text.now ≤ END }
    ensures done { (frames : List (List Record)) (rs : List Record) →
        IsTrue D.told → IsAtRest (D.view disk.old).now area at frames → IsFrame rs → text.now ≡ text_of (spelled_all rs) ++ 0 ∷ [] →
        OnOk result (IsAtRest (D.view disk.new).now area (at + length text.now) (frames ++ rs ∷ [])) }
    // A crash at any moment of the call leaves the frames from before it, with the new one or without.
    ensures any_moment { (frames : List (List Record)) (rs : List Record) →
        IsTrue D.told → IsAtRest (D.view disk.old).now area at frames → IsFrame rs → text.now ≡ text_of (spelled_all rs) ++ 0 ∷ [] →
        LeavesOnly (D.view disk.old) (D.view disk.new) (IsWithOrWithout (D.view disk.old).now area frames rs) }
    ensures elsewhere { IsTrue D.told → OnOk result (SameElsewhere area (D.view disk.old).now (D.view disk.new).now) }
    ensures failed { OnErr result (HasRisen (D.view disk.old).faults (D.view disk.new).faults) }
    ensures quiet { OnOk result ((D.view disk.new).faults ≡ (D.view disk.old).faults) }
    ensures handed { (D.view disk.new).handed ≤ (D.view disk.old).handed + length text.now + 1 }
    ensures kept { (D.view disk.old).handed ≤ (D.view disk.new).handed }
    ensures all_handed { OnOk result ((D.view disk.new).handed ≡ min ((D.view disk.old).handed + length text.now + 1) FULL) }
    ensures calls { OnOk result ((D.view disk.new).calls ≡ min ((D.view disk.old).calls + 4) FULL) }
    ensures later { (D.view disk.old).faults ≤ (D.view disk.new).faults }
{
    disk.write_at(area, at + 1, text)?;
    disk.sync(area)?; // the body, before its gate is opened
    disk.write_at(area, at, &[1])?;
    disk.sync(area)?; // the gate, before the frame is told to be there
    Ok(())
}
