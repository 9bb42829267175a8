ghost use Rattle.std.specs.Prelude.{false, ◌≡◌, ◌⊎◌, ◌≤◌, ◌<◌, ◌+◌, ◌-◌, ◌*◌, ◌^◌, ◌++◌, ◌==◌, ◌∷◌, [], ℕ, List, length, take, drop, min, None, IsTrue, IsErr, IsOk, IsSome, IfOk, IfErr, IfSome, OnOk, OnErr, OnSome, if◌then◌else◌, ◌↔◌};
ghost use Rattle.sg_base.specs.declared.area.Area.TheVariants.{Home, Log0, Log1};
ghost use Rattle.sg_base.specs.Ends.{HasRisen};
ghost use Rattle.sg_disk.specs.Disk.{FULL, Image, Leaves, LeavesOnly, window};
ghost use Rattle.sg_record.specs.Records.{Record, spelled};
ghost use Rattle.sg_log.specs.Texts.{spelled_all};
ghost use Rattle.sg_record.specs.Ranges.{GREATEST, IsRecord};
ghost use Rattle.sg_record.specs.Shown.{shown};
ghost use Rattle.sg_log.specs.Faults.{ForceFails, AppendFails, AttachFails, FrameFails, HeedsFaults};
ghost use Rattle.sg_log.specs.Formed.{IsFormed, IsDamagedAt};
ghost use Rattle.sg_log.specs.Frames.{Frames, Numbered, HasRecords, SameElsewhere, LOG_END, GREATEST_BODY};
ghost use Rattle.sg_log.specs.Held.{Tail, IsTail, Holds, tail_of, place_of, end_of, has_room, forced, buffered, appended, durable_after, waiting_after, IsBeforeOrAfter};
ghost use Rattle.sg_log.specs.Places.{Placed, HoldsAt, StandsAt, first_of, IsRecordText, IsDurable, IsWaiting, IsThere, IsSizeBehind, StandBehind};
ghost use Rattle.sg_log.specs.Reads.{OnlyReads};
ghost use Rattle.sg_log.specs.Cut.{IsSplit, gate_of, kept_of, Spares, other_log, cut_to};

use crate::copying::{copy, find_holding, other_area};
use crate::frame::{seal, write_frame};
use crate::reading::{body_size, find_gate, read_frame, read_record, record_size, size_of_first};
use crate::{LogFault, Place};
use sg_base::{Area, Lsn};
use sg_disk::Disk;
use sg_record::{Rec, encode, size};
use std::alloc::{AllocError, Global};
use std::marker::Model;

// The bytes of the greatest frame behind its gate, and a closed gate: 4 of length, the body, 1.
const FRAME_BYTES: usize = 65_541;

/// A log in one of a disk's areas, with a buffer of 65,536 bytes for records that aren't on the disk
/// yet. Its frames begin at the area's first byte.
#[derive(Drop)]
pub struct Log {
    area: Area,
    // the number of the area's first byte
    base: Lsn,
    // the number of the closed gate behind the last frame
    gate: Lsn,
    // how many bytes of records are in the buffer
    used: usize,
    // room for the length, the buffer, which is to be the body, and the next frame's closed gate
    frame: Vec<u8>,
}

impl Model for Log {
    ghost use Rattle.std.specs.Prelude.{◌≡◌, take, drop, length};
    ghost use Rattle.sg_log.specs.Held.{Tail, IsTail};

    ghost Value = { Tail };

    ghost view = { λ l. record { area = l.area; base = l.base; gate = l.gate; buffer = take l.used (drop 4 l.frame.items) } };

    ghost invariant = { λ l. IsTail l.base l.gate l.used × (length l.frame.items ≡ 65541) };
}

// Room for the greatest frame.
fn room(alloc: Global) -> Result<Vec<u8>, LogFault>
    ensures room { IfOk result (λ v. length v.items ≡ 65541) }
    ensures memory { IfErr result (λ e. e ≡ LogFault.Memory) }
{
    zeros(alloc, FRAME_BYTES).map_err(|_| LogFault::Memory)
}

fn zeros(alloc: Global, count: usize) -> Result<Vec<u8>, AllocError>
    ensures { IfOk result (λ v. length v.items ≡ count) }
{
    vec![in alloc; 0; count]
}

impl Log {
    /// The log in this area, whose first byte has the number `base`. It reads the log frame by frame,
    /// up to the first closed gate, behind which the next force writes. The caller has synced the
    /// area. It takes its memory before it reads, and writes nothing.
    ///
    /// It answers `Damaged` exactly where a frame with an open gate isn't formed: its length isn't 1
    /// to 65,536, its body isn't whole records, or it ends behind byte 2^63 of the log.
    pub fn attach<D: Disk>(
        alloc: Global,
        disk: &mut D,
        area: Area,
        base: Lsn,
    ) -> Result<Log, LogFault>
        requires log_area { (area ≡ Log0) ⊎ (area ≡ Log1) }
        requires base { base ≤ LOG_END }
        ensures log { IfOk result (λ log. log ≡ record { area = area; base = base; gate = log.gate; buffer = [] }) }
        // The log holds what the area has, where nothing in it is pending,
        ensures holds { IsTrue D.told → ((D.view disk.old).now area).pending ≡ [] →
            IfOk result (λ log. (ds : List Numbered) × HasRecords ((D.view disk.old).now area).seen base log.gate ds × Holds (D.view disk.new) log ds []) }
        // that is, the area's records where it has records at all.
        ensures records { (ds : List Numbered) (gate : ℕ) → IsTrue D.told → ((D.view disk.old).now area).pending ≡ [] → HasRecords ((D.view disk.old).now area).seen base gate ds →
            IfOk result (λ log. (log.gate ≡ gate) × Holds (D.view disk.new) log ds []) }
        ensures undamaged { (ds : List Numbered) (gate at : ℕ) → IsTrue D.told → HasRecords ((D.view disk.old).now area).seen base gate ds → result ≡ Err (LogFault.Damaged at) → ⊥ }
        // A damage is found, if the disk reads it and there is memory.
        ensures damaged { (at : ℕ) → IsTrue D.told → IsDamagedAt ((D.view disk.old).now area).seen base at →
            (result ≡ Err (LogFault.Damaged at)) ⊎ ((result ≡ Err LogFault.Disk) ⊎ (result ≡ Err LogFault.Memory)) }
        ensures faults { IfErr result (λ e. AttachFails D.told area base (D.view disk.old) (D.view disk.new) e) }
        ensures heeded { HeedsFaults result (D.view disk.old) (D.view disk.new) }
        // For want of memory no call is made.
        ensures memory { result ≡ Err LogFault.Memory → disk.new ≡ disk.old }
        ensures unchanged { IsTrue D.told → (D.view disk.new).now ≡ (D.view disk.old).now }
        ensures any_moment { IsTrue D.told → LeavesOnly (D.view disk.old) (D.view disk.new) (Leaves (D.view disk.old).now) }
        ensures handed { (D.view disk.new).handed ≡ (D.view disk.old).handed }
        ensures calls { (frames : List (List Record)) → IsTrue D.told → Frames ((D.view disk.old).now area).seen 0 frames →
            OnOk result ((D.view disk.new).calls ≡ min ((D.view disk.old).calls + 1 + 2 * length frames) FULL) }
        ensures later { (D.view disk.old).faults ≤ (D.view disk.new).faults }
    {
        let mut frame = room(alloc)?;
        match find_gate(disk, area, base, &mut frame) {
            Ok(gate) => Ok(Log {
                area,
                base,
                gate: base + gate,
                used: 0,
                frame,
            }),
            Err(fault) => Err(fault),
        }
    }

    /// Its area.
    pub fn area(&self) -> Area
        ensures { result ≡ self.now.area }
    {
        self.area
    }

    /// The number of the first byte of its area.
    pub fn base(&self) -> Lsn
        ensures { result ≡ self.now.base }
    {
        self.base
    }

    /// The number of the closed gate behind the last frame: the durable records end before it.
    pub fn durable(&self) -> Lsn
        ensures { result ≡ self.now.gate }
    {
        self.gate
    }

    /// Reads the record whose first byte has the number `at` into the front of `into`, and answers how
    /// many bytes it has: at most 16,417. It reads buffered records too.
    ///
    /// It answers `Disk` only where the disk fails, or where no record stands there: that is so where
    /// `at` isn't the number of a record of this log, or the disk isn't the log's.
    pub fn read<D: Disk>(&self, disk: &mut D, at: Lsn, into: &mut [u8]) -> Result<usize, LogFault>
        requires { GREATEST ≤ length into.old }
        ensures record { (ds ps : List Numbered) (r : Record) → IsTrue D.told → Holds (D.view disk.old) self.now ds ps → StandsAt (ds ++ ps) at r →
            IfOk result (λ n. take n into.new ≡ spelled r) }
        ensures size { (ds ps : List Numbered) (r : Record) → IsTrue D.told → Holds (D.view disk.old) self.now ds ps → StandsAt (ds ++ ps) at r →
            IfOk result (λ n. n ≡ length (spelled r)) }
        ensures failed { (ds ps : List Numbered) (r : Record) → IsTrue D.told → Holds (D.view disk.old) self.now ds ps → StandsAt (ds ++ ps) at r →
            OnErr result (HasRisen (D.view disk.old).faults (D.view disk.new).faults) }
        // On any disk, what it answers is a record.
        ensures is_record { IfOk result (λ n. IsRecordText (take n into.new) n) }
        ensures fault { IfErr result (λ e. e ≡ LogFault.Disk) }
        ensures heeded { HeedsFaults result (D.view disk.old) (D.view disk.new) }
        ensures reads { OnlyReads D.told (D.view disk.old) (D.view disk.new) }
        ensures calls { (D.view disk.new).calls ≤ (D.view disk.old).calls + 1 }
    {
        if self.is_before_gate(at) {
            self.read_durable(disk, at, into)
        } else {
            self.copy_waiting(at, into)
        }
    }

    /// Reads the frame whose gate has the number `gate`: the bytes of its records come to the front of
    /// `into`, and it answers how many they are, or none where the gate is closed. The gate of the next
    /// frame has a number greater by 5 and these. The first frame's gate has the number `base`.
    ///
    /// It answers `Disk` only where the disk fails, and `Damaged` with the gate's offset in the area
    /// exactly where the gate is open and no frame is formed there, as `attach` says it.
    pub fn frame<D: Disk>(
        &self,
        disk: &mut D,
        gate: Lsn,
        into: &mut [u8],
    ) -> Result<Option<usize>, LogFault>
        requires space { GREATEST_BODY ≤ length into.old }
        requires front { self.now.base ≤ gate }
        requires within { gate ≤ LOG_END }
        ensures closed { IsTrue D.told → result ≡ Ok None → ((D.view disk.old).now self.now.area).seen (gate - self.now.base) ≡ 1 → ⊥ }
        ensures formed { IsTrue D.told → IfOk result (λ r. IfSome r (λ n. (rs : List Record) × IsFormed ((D.view disk.old).now self.now.area).seen (gate - self.now.base) rs
            × (n ≡ length (spelled_all rs)) × (take n into.new ≡ spelled_all rs))) }
        ensures onward { IfOk result (λ r. IfSome r (λ n. (0 < n) × (n ≤ GREATEST_BODY) × (gate + 5 + n ≤ LOG_END))) }
        ensures faults { IfErr result (λ e. FrameFails D.told self.now.area self.now.base (gate - self.now.base) (D.view disk.old) (D.view disk.new) e) }
        ensures heeded { HeedsFaults result (D.view disk.old) (D.view disk.new) }
        ensures reads { OnlyReads D.told (D.view disk.old) (D.view disk.new) }
        ensures calls { OnOk result ((D.view disk.new).calls ≤ (D.view disk.old).calls + 2) }
    {
        let at = gate - self.base;
        let end = read_frame(disk, self.area, self.base, at, into)?;
        Ok(end.map(|end| (end - (at + 5)) as usize))
    }

    /// Where the first record stands, if there is one. Its number is the base and 5.
    ///
    /// It answers `Disk` only where the disk fails, or isn't the log's.
    pub fn first<D: Disk>(&self, disk: &mut D) -> Result<Option<Place>, LogFault>
        ensures first { (ds ps : List Numbered) (held : List Placed) → IsTrue D.told → HoldsAt (D.view disk.old) self.now ds ps held → IfOk result (λ first. first ≡ first_of held) }
        ensures failed { (ds ps : List Numbered) (held : List Placed) → IsTrue D.told → HoldsAt (D.view disk.old) self.now ds ps held →
            OnErr result (HasRisen (D.view disk.old).faults (D.view disk.new).faults) }
        ensures within { IfOk result (λ first. IfSome first (λ p. p.lsn < tail_of self.now)) }
        ensures fault { IfErr result (λ e. e ≡ LogFault.Disk) }
        ensures heeded { HeedsFaults result (D.view disk.old) (D.view disk.new) }
        ensures reads { OnlyReads D.told (D.view disk.old) (D.view disk.new) }
        ensures calls { (D.view disk.new).calls ≤ (D.view disk.old).calls + 1 }
    {
        self.first_behind(disk, self.base)
    }

    /// Where the record behind the one at this place stands, or none behind the last one. The buffered
    /// records come behind the durable ones.
    ///
    /// It answers `Disk` only where the disk fails, or where no record stands at this place: that is so
    /// where `first` or `next` didn't answer it, since the last append or force.
    pub fn next<D: Disk>(&self, disk: &mut D, place: Place) -> Result<Option<Place>, LogFault>
        ensures next { (ds ps : List Numbered) (front rest : List Placed) (r : Record) → IsTrue D.told → HoldsAt (D.view disk.old) self.now ds ps (front ++ (place, r) ∷ rest) →
            IfOk result (λ next. next ≡ first_of rest) }
        ensures failed { (ds ps : List Numbered) (front rest : List Placed) (r : Record) → IsTrue D.told → HoldsAt (D.view disk.old) self.now ds ps (front ++ (place, r) ∷ rest) →
            OnErr result (HasRisen (D.view disk.old).faults (D.view disk.new).faults) }
        // On any disk, a walk ends.
        ensures onward { IfOk result (λ next. IfSome next (λ p. (place.lsn < p.lsn) × (p.lsn < tail_of self.now))) }
        ensures fault { IfErr result (λ e. e ≡ LogFault.Disk) }
        ensures heeded { HeedsFaults result (D.view disk.old) (D.view disk.new) }
        ensures reads { OnlyReads D.told (D.view disk.old) (D.view disk.new) }
        ensures calls { (D.view disk.new).calls ≤ (D.view disk.old).calls + 2 }
    {
        let tail = self.tail();
        let size = match self.size_at(disk, place.lsn) {
            Ok(size) => size,
            Err(fault) => return Err(fault),
        };
        let lsn = place.lsn + size;
        if lsn == place.frame_end {
            return self.first_behind(disk, lsn);
        }
        if lsn > place.frame_end || place.frame_end > tail {
            return Err(LogFault::Disk);
        }
        let frame_end = place.frame_end;
        Ok(Some(Place { lsn, frame_end }))
    }

    // The buffered bytes from this number on, or none where it is no buffered byte's.
    fn waiting_from(&self, at: Lsn) -> Option<&[u8]>
        ensures bytes { IfSome result (λ b. b.now ≡ drop (at - (self.now.gate + 5)) self.now.buffer) }
        ensures within { OnSome result ((self.now.gate + 5 ≤ at) × (at < self.now.gate + 5 + length self.now.buffer)) }
        ensures found { self.now.gate + 5 ≤ at → at < self.now.gate + 5 + length self.now.buffer → IsSome result }
    {
        let start = self.gate + 5;
        if at < start || at >= start + self.used as u64 {
            return None;
        }
        let from = (at - start) as usize;
        Some(&self.frame[4 + from..4 + self.used])
    }

    // Whether this number is of a byte of the area, before the last gate.
    fn is_before_gate(&self, at: Lsn) -> bool
        ensures { IsTrue result ↔ (self.now.base ≤ at) × (at < self.now.gate) }
    {
        self.base <= at && at < self.gate
    }

    // Copies the buffered record there to the front of `into`, and answers its length.
    fn copy_waiting(&self, at: Lsn, into: &mut [u8]) -> Result<usize, LogFault>
        requires { GREATEST ≤ length into.old }
        ensures size { (r : Record) → IsWaiting self.now at r → IfOk result (λ n. n ≡ length (spelled r)) }
        ensures text { (r : Record) → IsWaiting self.now at r → IfOk result (λ n. take n into.new ≡ spelled r) }
        ensures found { (r : Record) → IsWaiting self.now at r → IsOk result }
        ensures is_record { IfOk result (λ n. IsRecordText (take n into.new) n) }
        ensures fault { IfErr result (λ e. e ≡ LogFault.Disk) }
    {
        let Some(bytes) = self.waiting_from(at) else {
            return Err(LogFault::Disk);
        };
        let Some(size) = size_of_first(bytes) else {
            return Err(LogFault::Disk);
        };
        into[..size].copy_from_slice(&bytes[..size]);
        Ok(size)
    }

    // Reads the durable record there to the front of `into`, and answers its length.
    fn read_durable<D: Disk>(
        &self,
        disk: &mut D,
        at: Lsn,
        into: &mut [u8],
    ) -> Result<usize, LogFault>
        requires room { GREATEST ≤ length into.old }
        requires front { self.now.base ≤ at }
        requires before { at < self.now.gate }
        ensures size { (r : Record) → IsTrue D.told → IsDurable (D.view disk.old) self.now at r → IfOk result (λ n. n ≡ length (spelled r)) }
        ensures text { (r : Record) → IsTrue D.told → IsDurable (D.view disk.old) self.now at r → IfOk result (λ n. take n into.new ≡ spelled r) }
        ensures failed { (r : Record) → IsTrue D.told → IsDurable (D.view disk.old) self.now at r → OnErr result (HasRisen (D.view disk.old).faults (D.view disk.new).faults) }
        ensures is_record { IfOk result (λ n. IsRecordText (take n into.new) n) }
        ensures fault { IfErr result (λ e. e ≡ LogFault.Disk) }
        ensures heeded { HeedsFaults result (D.view disk.old) (D.view disk.new) }
        ensures reads { OnlyReads D.told (D.view disk.old) (D.view disk.new) }
        ensures calls { (D.view disk.new).calls ≤ (D.view disk.old).calls + 1 }
    {
        let left = self.gate - at;
        let most = if left < 16_417 { left as usize } else { 16_417 };
        let size = read_record(disk, self.area, at - self.base, most, into)?;
        size.ok_or(LogFault::Disk)
    }

    // The length of the buffered record there.
    fn waiting_size(&self, at: Lsn) -> Result<u64, LogFault>
        ensures size { (r : Record) → IsWaiting self.now at r → IfOk result (λ n. n ≡ length (spelled r)) }
        ensures found { (r : Record) → IsWaiting self.now at r → IsOk result }
        ensures within { IfOk result (λ n. (0 < n) × (at + n ≤ tail_of self.now)) }
        ensures fault { IfErr result (λ e. e ≡ LogFault.Disk) }
    {
        let Some(bytes) = self.waiting_from(at) else {
            return Err(LogFault::Disk);
        };
        let Some(size) = size_of_first(bytes) else {
            return Err(LogFault::Disk);
        };
        Ok(size as u64)
    }

    // The length of the durable record there.
    fn durable_size<D: Disk>(&self, disk: &mut D, at: Lsn) -> Result<u64, LogFault>
        requires front { self.now.base ≤ at }
        requires before { at < self.now.gate }
        ensures size { (r : Record) → IsTrue D.told → IsDurable (D.view disk.old) self.now at r → IfOk result (λ n. n ≡ length (spelled r)) }
        ensures failed { (r : Record) → IsTrue D.told → IsDurable (D.view disk.old) self.now at r → OnErr result (HasRisen (D.view disk.old).faults (D.view disk.new).faults) }
        ensures within { IfOk result (λ n. (0 < n) × (at + n ≤ self.now.gate)) }
        ensures fault { IfErr result (λ e. e ≡ LogFault.Disk) }
        ensures heeded { HeedsFaults result (D.view disk.old) (D.view disk.new) }
        ensures reads { OnlyReads D.told (D.view disk.old) (D.view disk.new) }
        ensures calls { (D.view disk.new).calls ≤ (D.view disk.old).calls + 1 }
    {
        let size = record_size(disk, self.area, at - self.base)? as u64;
        if size == 0 || size > self.gate - at {
            return Err(LogFault::Disk);
        }
        Ok(size)
    }

    // The length of the record there.
    fn size_at<D: Disk>(&self, disk: &mut D, at: Lsn) -> Result<u64, LogFault>
        ensures size { (r : Record) → IsTrue D.told → IsThere (D.view disk.old) self.now at r → IfOk result (λ n. n ≡ length (spelled r)) }
        ensures failed { (r : Record) → IsTrue D.told → IsThere (D.view disk.old) self.now at r → OnErr result (HasRisen (D.view disk.old).faults (D.view disk.new).faults) }
        ensures within { IfOk result (λ n. (0 < n) × (at + n ≤ tail_of self.now)) }
        ensures fault { IfErr result (λ e. e ≡ LogFault.Disk) }
        ensures heeded { HeedsFaults result (D.view disk.old) (D.view disk.new) }
        ensures reads { OnlyReads D.told (D.view disk.old) (D.view disk.new) }
        ensures calls { (D.view disk.new).calls ≤ (D.view disk.old).calls + 1 }
    {
        if self.is_before_gate(at) {
            self.durable_size(disk, at)
        } else {
            self.waiting_size(at)
        }
    }

    // The length of the frame's body behind this gate, where the buffered records count as one.
    fn size_behind<D: Disk>(&self, disk: &mut D, gate: Lsn) -> Result<u64, LogFault>
        ensures size { (n : ℕ) → IsTrue D.told → IsSizeBehind (D.view disk.old) self.now gate n → IfOk result (λ k. k ≡ n) }
        ensures failed { (n : ℕ) → IsTrue D.told → IsSizeBehind (D.view disk.old) self.now gate n → OnErr result (HasRisen (D.view disk.old).faults (D.view disk.new).faults) }
        ensures within { IfOk result (λ n. (gate ≤ LOG_END) × (n < 2 ^ 32)) }
        ensures fault { IfErr result (λ e. e ≡ LogFault.Disk) }
        ensures heeded { HeedsFaults result (D.view disk.old) (D.view disk.new) }
        ensures reads { OnlyReads D.told (D.view disk.old) (D.view disk.new) }
        ensures calls { (D.view disk.new).calls ≤ (D.view disk.old).calls + 1 }
    {
        if gate == self.gate {
            return Ok(self.used as u64);
        }
        if !self.is_before_gate(gate) {
            return Err(LogFault::Disk);
        }
        let size = body_size(disk, self.area, gate - self.base)?;
        Ok(size as u64)
    }

    // Where the first record behind this gate stands, or none behind the log's tail.
    fn first_behind<D: Disk>(&self, disk: &mut D, gate: Lsn) -> Result<Option<Place>, LogFault>
        ensures end { gate ≡ tail_of self.now → result ≡ Ok None }
        ensures first { (rest : List Placed) → IsTrue D.told → StandBehind (D.view disk.old) self.now gate rest → IfOk result (λ first. first ≡ first_of rest) }
        ensures failed { (rest : List Placed) → IsTrue D.told → StandBehind (D.view disk.old) self.now gate rest → OnErr result (HasRisen (D.view disk.old).faults (D.view disk.new).faults) }
        ensures onward { IfOk result (λ first. IfSome first (λ p. (gate < p.lsn) × (p.lsn < tail_of self.now))) }
        ensures fault { IfErr result (λ e. e ≡ LogFault.Disk) }
        ensures heeded { HeedsFaults result (D.view disk.old) (D.view disk.new) }
        ensures reads { OnlyReads D.told (D.view disk.old) (D.view disk.new) }
        ensures calls { (D.view disk.new).calls ≤ (D.view disk.old).calls + 1 }
    {
        let tail = self.tail();
        if gate == tail {
            return Ok(None);
        }
        let size = match self.size_behind(disk, gate) {
            Ok(size) => size,
            Err(fault) => return Err(fault),
        };
        let frame_end = gate + 5 + size;
        if size == 0 || frame_end > tail {
            return Err(LogFault::Disk);
        }
        let lsn = gate + 5;
        Ok(Some(Place { lsn, frame_end }))
    }

    /// The number of the log's next byte, with the buffered records counted. Where there are none, it
    /// is that of the closed gate: the next record begins 5 bytes later, behind gate and length.
    #[inline(always)]
    pub fn tail(&self) -> Lsn
        ensures { result ≡ tail_of self.now }
    {
        if self.used == 0 {
            self.gate
        } else {
            self.gate + 5 + self.used as u64
        }
    }

    /// The number that the record's first byte would have, if it were appended now.
    #[inline(always)]
    #[tactic(auto, using(crate::proofs::Holding::spelled_most))]
    pub fn place(&self, r: &Rec<'_>) -> Lsn
        requires { IsRecord (shown r.now) }
        ensures place { result ≡ place_of self.now (shown r.now) }
        ensures near { tail_of self.now ≤ self.now.gate + 65541 }
        ensures low { result ≤ 2 ^ 63 + 2 ^ 17 }
    {
        let behind = self.gate + 5 + self.used as u64;
        if self.has_room(r) { behind } else { behind + 5 }
    }

    // Whether it fits the buffer.
    #[inline(always)]
    #[tactic(auto, using(crate::proofs::Holding::spelled_most))]
    fn has_room(&self, r: &Rec<'_>) -> bool
        requires { IsRecord (shown r.now) }
        ensures { result ≡ has_room self.now (shown r.now) }
    {
        self.used + size(r) <= 65_536
    }

    // Puts a record into the buffer.
    #[inline(always)]
    fn buffer(&mut self, r: &Rec<'_>) -> Lsn
        requires room { length self.old.buffer + length (spelled (shown r.now)) ≤ GREATEST_BODY }
        requires within { self.old.gate + 5 + length self.old.buffer + length (spelled (shown r.now)) ≤ LOG_END }
        requires range { IsRecord (shown r.now) }
        ensures log { self.new ≡ buffered self.old (shown r.now) }
        ensures lsn { result ≡ self.old.gate + 5 + length self.old.buffer }
    {
        let lsn = self.gate + 5 + self.used as u64;
        let at = 4 + self.used;
        let size = encode(r, &mut self.frame[at..]);
        self.used += size;
        lsn
    }

    /// Appends a record, and answers the number of its first byte. It is put into the buffer, and no
    /// call of the disk is made, unless it doesn't fit what is left of it: then the buffer is forced
    /// first.
    ///
    /// It answers `LogEnd` exactly where the record would end after byte 2^63 of the log. Nothing has
    /// changed then. After `Disk` nothing more is known of the log.
    #[inline(always)]
    pub fn append<D: Disk>(&mut self, disk: &mut D, r: &Rec<'_>) -> Result<Lsn, LogFault>
        requires { IsRecord (shown r.now) }
        ensures lsn { IfOk result (λ lsn. lsn ≡ place_of self.old (shown r.now)) }
        ensures log { OnOk result (self.new ≡ appended self.old (shown r.now)) }
        ensures tail { OnOk result (tail_of self.new ≡ end_of self.old (shown r.now)) }
        ensures full { LOG_END < end_of self.old (shown r.now) → result ≡ Err LogFault.LogEnd }
        ensures faults { IfErr result (λ e. AppendFails (end_of self.old (shown r.now)) (D.view disk.old) (D.view disk.new) e) }
        ensures heeded { HeedsFaults result (D.view disk.old) (D.view disk.new) }
        ensures unchanged { result ≡ Err LogFault.LogEnd → (self.new ≡ self.old) × (disk.new ≡ disk.old) }
        ensures no_call { IsTrue (has_room self.old (shown r.now)) → disk.new ≡ disk.old }
        // It holds the record at its number from then on, and each record before it at the number that it had.
        ensures holds { (ds ps : List Numbered) → IsTrue D.told → Holds (D.view disk.old) self.old ds ps →
            OnOk result (Holds (D.view disk.new) self.new (durable_after self.old (shown r.now) ds ps) (waiting_after self.old (shown r.now) ps)) }
        // A crash at any moment of the call leaves the records that were durable, or the buffered ones too.
        ensures any_moment { (ds ps : List Numbered) → IsTrue D.told → Holds (D.view disk.old) self.old ds ps →
            LeavesOnly (D.view disk.old) (D.view disk.new) (IsBeforeOrAfter (D.view disk.old).now self.old ds ps) }
        ensures elsewhere { IsTrue D.told → OnOk result (SameElsewhere self.old.area (D.view disk.old).now (D.view disk.new).now) }
        ensures near { tail_of self.old ≤ self.old.gate + 65541 }
        // The log grows by no more than is handed to the disk, as far as that is counted.
        ensures grown { (FULL ≤ (D.view disk.new).handed) ⊎ (self.new.gate + (D.view disk.old).handed ≤ self.old.gate + (D.view disk.new).handed) }
        ensures handed { (D.view disk.new).handed ≤ (D.view disk.old).handed + length self.old.buffer + 6 }
        ensures kept { (D.view disk.old).handed ≤ (D.view disk.new).handed }
        ensures calls { has_room self.old (shown r.now) ≡ false → OnOk result ((D.view disk.new).calls ≡ min ((D.view disk.old).calls + 4) FULL) }
        ensures later { (D.view disk.old).faults ≤ (D.view disk.new).faults }
    {
        let lsn = self.place(r);
        if lsn + size(r) as u64 > 1 << 63 {
            return Err(LogFault::LogEnd);
        }
        if self.has_room(r) {
            return Ok(self.buffer(r));
        }
        self.force(disk)?;
        Ok(self.buffer(r))
    }

    /// Cuts the log at a durable byte: copies the frames from the one on that holds it to the other area,
    /// with the closed gate behind them, and is there from then on. Where that frame is the first one,
    /// nothing is done. The buffer stays as it is.
    ///
    /// It writes nothing to the area in which the log stood, and renews no superblock. After `Disk`
    /// nothing more is known of the log.
    pub fn cut<D: Disk>(&mut self, disk: &mut D, point: Lsn) -> Result<(), LogFault>
        requires front { self.old.base ≤ point }
        requires before { point < self.old.gate }
        ensures log { OnOk result ((self.new ≡ self.old) ⊎ (self.new ≡ cut_to self.new.base self.old)) }
        ensures base { OnOk result ((self.old.base ≤ self.new.base) × (self.new.base ≤ point)) }
        ensures within { OnOk result (self.new.base ≤ LOG_END) }
        ensures fault { IfErr result (λ e. e ≡ LogFault.Disk) }
        // It holds the records from the frame on that holds the point.
        ensures holds { OnOk result ((ds ps : List Numbered) → IsTrue D.told → Holds (D.view disk.old) self.old ds ps →
            (s : IsSplit self.old.base point ds) × (self.new.base ≡ gate_of s) × Holds (D.view disk.new) self.new (kept_of s) ps) }
        ensures none { self.new.base ≡ self.old.base → OnOk result (self.new ≡ self.old) }
        ensures unwritten { self.new.base ≡ self.old.base → OnOk result ((D.view disk.new).handed ≡ (D.view disk.old).handed) }
        ensures unchanged { IsTrue D.told → self.new.base ≡ self.old.base → OnOk result ((D.view disk.new).now ≡ (D.view disk.old).now) }
        // At each moment, faults included, only the other area is touched.
        ensures any_moment { IsTrue D.told → LeavesOnly (D.view disk.old) (D.view disk.new) (Spares (other_log self.old.area) (D.view disk.old).now) }
        ensures elsewhere { IsTrue D.told → OnOk result (SameElsewhere (other_log self.old.area) (D.view disk.old).now (D.view disk.new).now) }
        ensures failed { (ds ps : List Numbered) → IsTrue D.told → Holds (D.view disk.old) self.old ds ps → OnErr result (HasRisen (D.view disk.old).faults (D.view disk.new).faults) }
        ensures heeded { HeedsFaults result (D.view disk.old) (D.view disk.new) }
        ensures later { (D.view disk.old).faults ≤ (D.view disk.new).faults }
        ensures handed { (D.view disk.new).handed + self.old.base ≤ (D.view disk.old).handed + self.old.gate + 1 }
        ensures kept { (D.view disk.old).handed ≤ (D.view disk.new).handed }
    {
        let at = find_holding(disk, self.area, self.base, self.gate, point)?;
        if at == 0 {
            return Ok(());
        }
        let to = other_area(self.area);
        let count = self.gate - self.base - at + 1;
        disk.drop_from(to, 0)?;
        copy(disk, self.area, at, to, count)?;
        disk.sync(to)?;
        self.area = to;
        self.base += at;
        Ok(())
    }

    /// Makes the buffered records durable, as one frame, and empties the buffer. Where it is empty no
    /// call of the disk is made. After `Disk` nothing more is known of the log.
    #[inline(never)]
    pub fn force<D: Disk>(&mut self, disk: &mut D) -> Result<(), LogFault>
        ensures log { OnOk result (self.new ≡ forced self.old) }
        ensures same { OnErr result (self.new ≡ self.old) }
        ensures faults { IfErr result (λ e. ForceFails (D.view disk.old) (D.view disk.new) e) }
        ensures heeded { HeedsFaults result (D.view disk.old) (D.view disk.new) }
        ensures no_call { length self.old.buffer ≡ 0 → disk.new ≡ disk.old }
        ensures holds { (ds ps : List Numbered) → IsTrue D.told → Holds (D.view disk.old) self.old ds ps → OnOk result (Holds (D.view disk.new) self.new (ds ++ ps) []) }
        // A crash after it leaves all the records, and one at any moment of the call all or those that were durable.
        ensures after { (ds ps : List Numbered) → IsTrue D.told → Holds (D.view disk.old) self.old ds ps →
            OnOk result ((c : Image) → Leaves (D.view disk.new).now c → HasRecords (c self.old.area) self.old.base (tail_of self.old) (ds ++ ps)) }
        ensures any_moment { (ds ps : List Numbered) → IsTrue D.told → Holds (D.view disk.old) self.old ds ps →
            LeavesOnly (D.view disk.old) (D.view disk.new) (IsBeforeOrAfter (D.view disk.old).now self.old ds ps) }
        ensures elsewhere { IsTrue D.told → OnOk result (SameElsewhere self.old.area (D.view disk.old).now (D.view disk.new).now) }
        // The log grows by no more than is handed to the disk, as far as that is counted.
        ensures grown { (FULL ≤ (D.view disk.new).handed) ⊎ (self.new.gate + (D.view disk.old).handed ≤ self.old.gate + (D.view disk.new).handed) }
        ensures handed { (D.view disk.new).handed ≤ (D.view disk.old).handed + length self.old.buffer + 6 }
        ensures kept { (D.view disk.old).handed ≤ (D.view disk.new).handed }
        ensures all_handed { 0 < length self.old.buffer → OnOk result ((D.view disk.new).handed ≡ min ((D.view disk.old).handed + length self.old.buffer + 6) FULL) }
        ensures calls { 0 < length self.old.buffer → OnOk result ((D.view disk.new).calls ≡ min ((D.view disk.old).calls + 4) FULL) }
        ensures later { (D.view disk.old).faults ≤ (D.view disk.new).faults }
    {
        if self.used == 0 {
            return Ok(());
        }
        let used = self.used;
        let at = self.gate - self.base;
        seal(&mut self.frame, used);
        write_frame(disk, self.area, at, &self.frame[..used + 5])?;
        self.gate += used as u64 + 5;
        self.used = 0;
        Ok(())
    }
}
