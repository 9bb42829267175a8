// How frames and records are read from the disk.
ghost use Rattle.std.specs.Prelude.{◌≡◌, ◌⊎◌, ◌≤◌, ◌<◌, ◌+◌, ◌-◌, ◌*◌, ℕ, List, [], ◌∷◌, ◌++◌, length, take, min, Some, None, IfOk, IfErr, IfSome, OnOk, OnErr, IsTrue, ◌↔◌, is_some, if◌then◌else◌};
ghost use Rattle.sg_base.specs.Ends.{HasRisen};
ghost use Rattle.sg_disk.specs.Disk.{FULL, window};
ghost use Rattle.sg_log.specs.Faults.{FrameFails, WalkFails, HeedsFaults};
ghost use Rattle.sg_log.specs.Formed.{IsWhole, HasBody, IsFormed, IsUnformed, IsDamagedAt};
ghost use Rattle.sg_log.specs.Frames.{Frames, LOG_END, GREATEST_BODY, gate_after};
ghost use Rattle.sg_log.specs.Places.{IsRecordText};
ghost use Rattle.sg_log.specs.Reads.{OnlyReads};
ghost use Rattle.sg_record.specs.Records.{Record, HEADER, spelled};
ghost use Rattle.sg_log.specs.Texts.{spelled_all};
ghost use Rattle.sg_record.specs.Ranges.{GREATEST, IsRecord};

use crate::LogFault;
use sg_base::{Lsn, read_u32};
use sg_disk::{Area, Disk, Failed};
use sg_record::decode;

/// Whether the bytes are whole records, one after another.
pub fn is_whole(bytes: &[u8]) -> bool
    ensures { IsTrue result ↔ IsWhole bytes.now }
{
    let mut at = 0;
    'records: while at < bytes.len() {
        match decode(&bytes[at..]) {
            Ok((_record, size)) => at += size,
            Err(_fault) => return false,
        }
    }
    true
}

/// Reads the body of the frame whose gate is at this offset to the front of `space`, and answers how
/// many bytes it has, or none where the gate is closed. It looks at no record. It answers `Damaged`
/// where the length isn't 1 to 65,536, or the frame ends behind the log's end, and `Disk` only where
/// the disk fails.
pub fn read_body<D: Disk>(
    disk: &mut D,
    area: Area,
    base: Lsn,
    at: u64,
    space: &mut [u8],
) -> Result<Option<usize>, LogFault>
    requires space { GREATEST_BODY ≤ length space.old }
    requires within { base + at ≤ LOG_END }
    ensures closed { IsTrue D.told → result ≡ Ok None → ((D.view disk.old).now area).seen at ≡ 1 → ⊥ }
    ensures body { IsTrue D.told → IfOk result (λ r. IfSome r (λ n. HasBody ((D.view disk.old).now area).seen at (take n space.new))) }
    ensures onward { IfOk result (λ r. IfSome r (λ n. (0 < n) × (n ≤ GREATEST_BODY) × (base + (at + 5 + n) ≤ LOG_END))) }
    ensures faults { IfErr result (λ e. FrameFails D.told area base at (D.view disk.old) (D.view disk.new) e) }
    ensures heeded { HeedsFaults result (D.view disk.old) (D.view disk.new) }
    ensures reads { OnlyReads D.told (D.view disk.old) (D.view disk.new) }
    ensures calls { IfOk result (λ r. (D.view disk.new).calls ≡ min ((D.view disk.old).calls + (if is_some r then 2 else 1)) FULL) }
{
    let mut head = [0; 5];
    disk.read_at(area, at, &mut head)?;
    if head[0] != 1 {
        return Ok(None);
    }
    let size = read_u32(&head[1..]) as usize;
    let end = at + 5 + size as u64;
    if size == 0 || size > 65_536 || base + end > 1 << 63 {
        return Err(LogFault::Damaged { at });
    }
    disk.read_at(area, at + 5, &mut space[..size])?;
    Ok(Some(size))
}

/// The offset behind the frame whose gate is at this offset, or none where the gate is closed. The
/// frame's body is put at the front of `space`. Where the frame isn't formed, or ends behind the log's
/// end, it answers `Damaged`.
pub fn read_frame<D: Disk>(
    disk: &mut D,
    area: Area,
    base: Lsn,
    at: u64,
    space: &mut [u8],
) -> Result<Option<u64>, LogFault>
    requires space { GREATEST_BODY ≤ length space.old }
    requires within { base + at ≤ LOG_END }
    ensures closed { IsTrue D.told → result ≡ Ok None → ((D.view disk.old).now area).seen at ≡ 1 → ⊥ }
    ensures formed { IsTrue D.told → IfOk result (λ r. IfSome r (λ end. (rs : List Record) × IsFormed ((D.view disk.old).now area).seen at rs × (end ≡ gate_after at (rs ∷ [])) × (take (end - (at + 5)) space.new ≡ spelled_all rs))) }
    ensures onward { IfOk result (λ r. IfSome r (λ end. (at + 5 < end) × (end ≤ at + 5 + GREATEST_BODY) × (base + end ≤ LOG_END))) }
    ensures faults { IfErr result (λ e. FrameFails D.told area base at (D.view disk.old) (D.view disk.new) e) }
    ensures heeded { HeedsFaults result (D.view disk.old) (D.view disk.new) }
    ensures reads { OnlyReads D.told (D.view disk.old) (D.view disk.new) }
    ensures calls { IfOk result (λ r. (D.view disk.new).calls ≡ min ((D.view disk.old).calls + (if is_some r then 2 else 1)) FULL) }
{
    let size = match read_body(disk, area, base, at, space) {
        Ok(Some(size)) => size,
        Ok(None) => return Ok(None),
        Err(fault) => return Err(fault),
    };
    if is_whole(&space[..size]) {
        Ok(Some(at + 5 + size as u64))
    } else {
        Err(LogFault::Damaged { at })
    }
}

/// The offset of the first closed gate.
pub fn find_gate<D: Disk>(
    disk: &mut D,
    area: Area,
    base: Lsn,
    space: &mut [u8],
) -> Result<u64, LogFault>
    requires space { GREATEST_BODY ≤ length space.old }
    requires base { base ≤ LOG_END }
    ensures gate { IsTrue D.told → IfOk result (λ gate. (frames : List (List Record)) × Frames ((D.view disk.old).now area).seen 0 frames × (gate ≡ gate_after 0 frames)) }
    ensures within { IfOk result (λ gate. base + gate ≤ LOG_END) }
    ensures faults { IfErr result (λ e. WalkFails D.told area base (D.view disk.old) (D.view disk.new) e) }
    ensures heeded { HeedsFaults result (D.view disk.old) (D.view disk.new) }
    ensures reads { OnlyReads D.told (D.view disk.old) (D.view disk.new) }
    ensures calls { (frames : List (List Record)) → IsTrue D.told → Frames ((D.view disk.old).now area).seen 0 frames →
        OnOk result ((D.view disk.new).calls ≡ min ((D.view disk.old).calls + 1 + 2 * length frames) FULL) }
{
    let mut at = 0;
    'frames: loop {
        match read_frame(disk, area, base, at, space) {
            Ok(Some(end)) => at = end,
            Ok(None) => return Ok(at),
            Err(fault) => return Err(fault),
        }
    }
}

/// The length of the body of the frame whose gate is at this offset.
pub fn body_size<D: Disk>(disk: &mut D, area: Area, at: u64) -> Result<u32, Failed>
    requires { at ≤ LOG_END }
    ensures size { (rs : List Record) → IsTrue D.told → IsFormed ((D.view disk.old).now area).seen at rs → IfOk result (λ n. n ≡ length (spelled_all rs)) }
    ensures reads { OnlyReads D.told (D.view disk.old) (D.view disk.new) }
    ensures failed { OnErr result (HasRisen (D.view disk.old).faults (D.view disk.new).faults) }
    ensures quiet { OnOk result ((D.view disk.new).faults ≡ (D.view disk.old).faults) }
    ensures calls { (D.view disk.new).calls ≤ (D.view disk.old).calls + 1 }
{
    let mut length = [0; 4];
    disk.read_at(area, at + 1, &mut length)?;
    Ok(read_u32(&length))
}

/// The length of the record at this offset.
pub fn record_size<D: Disk>(disk: &mut D, area: Area, at: u64) -> Result<u32, Failed>
    requires { at ≤ LOG_END }
    ensures size { (r : Record) → IsTrue D.told → IsRecord r → window ((D.view disk.old).now area).seen at (length (spelled r)) ≡ spelled r → IfOk result (λ n. n ≡ length (spelled r)) }
    ensures reads { OnlyReads D.told (D.view disk.old) (D.view disk.new) }
    ensures failed { OnErr result (HasRisen (D.view disk.old).faults (D.view disk.new).faults) }
    ensures quiet { OnOk result ((D.view disk.new).faults ≡ (D.view disk.old).faults) }
    ensures calls { (D.view disk.new).calls ≤ (D.view disk.old).calls + 1 }
{
    let mut header = [0; 21];
    disk.read_at(area, at, &mut header)?;
    Ok(read_u32(&header[1..]))
}

/// The length of the record at the front of the bytes, or none where no record stands there.
pub fn size_of_first(bytes: &[u8]) -> Option<usize>
    ensures is_record { IfSome result (λ n. IsRecordText (take n bytes.now) n) }
    ensures found { (r : Record) (rest : List ℕ) → IsRecord r → bytes.now ≡ spelled r ++ rest → result ≡ Some (length (spelled r)) }
{
    match decode(bytes) {
        Ok((_record, size)) => Some(size),
        Err(_fault) => None,
    }
}

/// Reads so many bytes from this offset on to the front of `into`, and answers the length of the
/// record at their front, or none where no record stands there.
pub fn read_record<D: Disk>(
    disk: &mut D,
    area: Area,
    at: u64,
    count: usize,
    into: &mut [u8],
) -> Result<Option<usize>, Failed>
    requires at { at + count ≤ LOG_END }
    requires short { count ≤ GREATEST }
    requires room { GREATEST ≤ length into.old }
    ensures found { (r : Record) → IsTrue D.told → IsRecord r → length (spelled r) ≤ count → window ((D.view disk.old).now area).seen at (length (spelled r)) ≡ spelled r →
        IfOk result (λ n. n ≡ Some (length (spelled r))) }
    ensures text { (r : Record) → IsTrue D.told → length (spelled r) ≤ count → window ((D.view disk.old).now area).seen at (length (spelled r)) ≡ spelled r →
        OnOk result (take (length (spelled r)) into.new ≡ spelled r) }
    ensures is_record { IfOk result (λ n. IfSome n (λ n. IsRecordText (take n into.new) n)) }
    ensures reads { OnlyReads D.told (D.view disk.old) (D.view disk.new) }
    ensures failed { OnErr result (HasRisen (D.view disk.old).faults (D.view disk.new).faults) }
    ensures quiet { OnOk result ((D.view disk.new).faults ≡ (D.view disk.old).faults) }
    ensures calls { (D.view disk.new).calls ≤ (D.view disk.old).calls + 1 }
{
    disk.read_at(area, at, &mut into[..count])?;
    Ok(size_of_first(&into[..count]))
}
