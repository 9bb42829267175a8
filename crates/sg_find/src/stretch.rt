// A log's text is read in stretches of whole frames, so that a log is never held whole.
ghost use Rattle.std.specs.Prelude.{◌≡◌, ◌≤◌, ◌<◌, ◌+◌, ◌*◌, ℕ, List, [], length, take, IfOk, IfErr, IsTrue, vec_capacity};
ghost use Rattle.sg_base.specs.Ends.{HasRisen};
ghost use Rattle.sg_disk.specs.Heeds.{Heeds};
ghost use Rattle.sg_record.specs.Records.{Record};
ghost use Rattle.sg_log.specs.Frames.{Frames, LOG_END, gate_after};
ghost use Rattle.sg_log.specs.Reads.{OnlyReads};
ghost use Rattle.sg_find.specs.Faults.{is_disk};
ghost use Rattle.sg_find.specs.Stretch.{GREATEST_FRAME, IsRead, IsRoom};

use crate::OpenFault;
use sg_base::Area;
use sg_disk::Disk;
use sg_places::whole_frames;
use sg_redo::Place;
use std::alloc::Global;

/// The most bytes of a stretch.
const STRETCH: usize = 1_048_576;
/// No stretch has more records: each has 21 bytes at least, and a frame 5 before them.
const MOST_PLACES: usize = 49_932;

/// The memory into which stretches of a log's text are read one after another, and the list of the
/// places in a stretch.
#[derive(Drop)]
pub struct Room {
    pub text: Vec<u8>,
    pub places: Vec<Place>,
}

/// Takes the memory for a stretch of 1,048,576 bytes and 49,932 places.
pub fn take_room(alloc: Global) -> Result<Room, OpenFault>
    ensures room { IfOk result IsRoom }
    ensures memory { IfErr result (λ e. e ≡ OpenFault.Memory) }
{
    let text = match vec![in alloc; 0u8; STRETCH] {
        Ok(text) => text,
        Err(_) => return Err(OpenFault::Memory),
    };
    match Vec::with_capacity(alloc, MOST_PLACES) {
        Ok(places) => Ok(Room { text, places }),
        Err(_) => Err(OpenFault::Memory),
    }
}

/// Reads a stretch of a log's text to the front of `space`: from this offset of its area on as many
/// whole frames as the space holds, up to the offset `end`, at which the log's closed gate stands. It
/// answers how many bytes these have.
pub fn read_stretch<D: Disk>(
    disk: &mut D,
    area: Area,
    at: u64,
    end: u64,
    space: &mut [u8],
) -> Result<usize, OpenFault>
    requires there { at < end }
    requires within { end ≤ LOG_END }
    ensures stretch { (frames : List (List Record)) → IsTrue D.told → Frames ((D.view disk.old).now area).seen at frames → end ≡ gate_after at frames → GREATEST_FRAME ≤ length space.old →
        IfOk result (λ n. IsRead at frames (take n space.new) n) }
    ensures some { IfOk result (λ n. (0 < n) × (n ≤ length space.new) × (at + n ≤ end)) }
    ensures long { length space.new ≡ length space.old }
    ensures refused { (frames : List (List Record)) → IsTrue D.told → Frames ((D.view disk.old).now area).seen at frames → end ≡ gate_after at frames → GREATEST_FRAME ≤ length space.old →
        IfErr result (λ e. HasRisen (D.view disk.old).faults (D.view disk.new).faults) }
    ensures fault { IfErr result (λ e. e ≡ OpenFault.Disk) }
    ensures heeded { Heeds is_disk result (D.view disk.old) (D.view disk.new) }
    ensures reads { OnlyReads D.told (D.view disk.old) (D.view disk.new) }
{
    let left = (end - at) as usize;
    let size = left.min(space.len());
    let text = &mut space[..size];
    if disk.read_at(area, at, text).is_err() {
        return Err(OpenFault::Disk);
    }
    let whole = whole_frames(text);
    if whole == 0 {
        return Err(OpenFault::Disk);
    }
    Ok(whole)
}
