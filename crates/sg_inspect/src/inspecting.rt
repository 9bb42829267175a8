// The listing of a store's log.
ghost use Rattle.std.specs.Prelude.{◌≡◌, ◌≢◌, ◌⊎◌, ◌≤◌, ℕ, List, length, None, IsTrue, OnOk, OnErr, IfOk, IfErr};
ghost use Rattle.sg_base.specs.Ends.{Takes, TakesFront};
ghost use Rattle.sg_base.specs.declared.area.Area.TheVariants.{Home};
ghost use Rattle.sg_log.specs.Frames.{LOG_END, GREATEST_BODY, HasRecords, Numbered};
ghost use Rattle.sg_log.specs.Reads.{OnlyReads};
ghost use Rattle.sg_gate.specs.Superblock.{superblock, IsSuper};
ghost use Rattle.sg_gate.specs.declared.superblock.Super.{Super};
ghost use Rattle.sg_analysis.specs.Standing.{IsPageLog};
ghost use Rattle.sg_places.specs.Asked.{first_outside};
ghost use Rattle.sg_inspect.specs.Listing.{listing};
ghost use Rattle.sg_inspect.specs.Logs.{HasLog, IsLogRead, area_of};
ghost use Rattle.sg_inspect.specs.Faults.{InspectFails, IsNotOfStore, BeforeWriting, CutsListing, HeedsFaults, LinesFail, LogFails};

use crate::InspectFault;
use crate::fault::{of_analysis, of_gate};
use crate::line::write_heading;
use crate::listing::list_frames;
use crate::survey::find_end;
use sg_analysis::analyse;
use sg_base::{Area, Lsn, Sink};
use sg_disk::Disk;
use sg_gate::{Super, read_super};
use std::alloc::{AllocError, Global};

// The area in which the log stands.
fn area_of(s: &Super) -> Area
    ensures { result ≡ area_of s.now }
{
    if s.log == 0 { Area::Log0 } else { Area::Log1 }
}

// Room for the greatest body of a frame.
fn room(alloc: Global) -> Result<Vec<u8>, AllocError>
    ensures { IfOk result (λ v. length v.items ≡ 65536) }
{
    vec![in alloc; 0; 65_536]
}

// Reads the log that the superblock says, and gives the number of the closed gate behind it.
fn read_log<D: Disk>(
    alloc: Global,
    disk: &mut D,
    s: &Super,
    space: &mut [u8],
) -> Result<Lsn, InspectFault>
    requires space { GREATEST_BODY ≤ length space.old }
    requires range { IsSuper s.now }
    ensures log { IsTrue D.told → superblock ((D.view disk.old).now Home).seen ≡ Ok s.now → IfOk result (λ gate. IsLogRead (D.view disk.old).now s.now gate) }
    ensures faults { IfErr result (λ e. LogFails D.told s.now (D.view disk.old) (D.view disk.new) e) }
    ensures sound { (gate : ℕ) (ns : List Numbered) (has : HasRecords ((D.view disk.old).now (area_of s.now)).seen s.now.base gate ns) → IsTrue D.told → IsPageLog s.now.base ns
        → first_outside s.now.pages s.now.bands 0 has.frames ≡ None → IfErr result IsNotOfStore }
    ensures heeded { HeedsFaults result (D.view disk.old) (D.view disk.new) 0 0 }
    ensures reads { OnlyReads D.told (D.view disk.old) (D.view disk.new) }
{
    let area = area_of(s);
    match analyse(alloc, disk, area, s.base) {
        Ok(_analysis) => {}
        Err(fault) => return Err(of_analysis(area, fault)),
    }
    match find_end(disk, s, area, space) {
        Ok(end) => Ok(s.base + end),
        Err(fault) => Err(fault),
    }
}

// Writes the listing of a log up to the closed gate with this number.
fn write_listing<D: Disk, K: Sink>(
    disk: &mut D,
    s: &Super,
    gate: Lsn,
    space: &mut [u8],
    out: &mut K,
) -> Result<(), InspectFault>
    requires space { GREATEST_BODY ≤ length space.old }
    requires range { IsSuper s.now }
    ensures took { IsTrue D.told → (log : IsLogRead (D.view disk.old).now s.now gate) → OnOk result (Takes (K.taken out.old) (listing s.now gate log.records) (K.taken out.new)) }
    ensures cut { IsTrue D.told → (log : IsLogRead (D.view disk.old).now s.now gate) → OnErr result (TakesFront (K.taken out.old) (listing s.now gate log.records) (K.taken out.new)) }
    ensures faults { IfErr result (λ e. LinesFail D.told s.now (area_of s.now) (D.view disk.old) (D.view disk.new) (K.faults out.old) (K.faults out.new) e) }
    ensures heeded { HeedsFaults result (D.view disk.old) (D.view disk.new) (K.faults out.old) (K.faults out.new) }
    ensures reads { OnlyReads D.told (D.view disk.old) (D.view disk.new) }
    ensures later { K.faults out.old ≤ K.faults out.new }
{
    match write_heading(s, gate, out) {
        Ok(()) => list_frames(disk, s, area_of(s), space, out),
        Err(_) => Err(InspectFault::Sink),
    }
}

/// Writes the listing of a store's log: its area, the number of its first byte and that of the closed gate behind its records, and
/// then of each record, in order, its number, kind, transaction, previous record and length, each with one call of the sink. It reads
/// the log three times, a frame at a time, and writes nothing to the disk. Beside room for two frames it takes memory for the
/// transactions that go on at one time, however long the log is.
///
/// It answers `NotAStore` exactly where the gates of both superblock slots are closed, and `Damaged` only where the superblock has a
/// field out of its range, or the log isn't one that an opening reads. Both, and `Memory`, come before anything is written to the sink.
/// `Disk` and `Sink` come only where that one's count of faults rose, and the sink took a front of the listing then. A disk that doesn't
/// tell may also be answered `Disk` where a later look reads otherwise than the first.
pub fn write_log<D: Disk, K: Sink>(
    alloc: Global,
    disk: &mut D,
    out: &mut K,
) -> Result<(), InspectFault>
    // The whole listing of the log was written, or a front of it, or nothing.
    ensures took { IsTrue D.told → OnOk result ((log : HasLog (D.view disk.old).now) × Takes (K.taken out.old) (listing log.super log.gate log.log.records) (K.taken out.new)) }
    ensures cut { IsTrue D.told → OnErr result (CutsListing (D.view disk.old).now (K.taken out.old) (K.taken out.new)) }
    ensures untouched { IfErr result (λ e. BeforeWriting e (out.new ≡ out.old)) }
    ensures faults { IfErr result (λ e. InspectFails D.told (D.view disk.old) (D.view disk.new) (K.faults out.old) (K.faults out.new) e) }
    ensures shut { IsTrue D.told → ((D.view disk.old).now Home).seen 0 ≢ 1 → ((D.view disk.old).now Home).seen 4096 ≢ 1 → (result ≡ Err InspectFault.NotAStore) ⊎ (result ≡ Err InspectFault.Disk) }
    // A store with a formed log of its own pages and bands is listed, but where the disk, the sink or the memory fails.
    ensures sound { (s : Super) (gate : ℕ) (ns : List Numbered) (has : HasRecords ((D.view disk.old).now (area_of s)).seen s.base gate ns) → IsTrue D.told → superblock ((D.view disk.old).now Home).seen ≡ Ok s
        → IsPageLog s.base ns → first_outside s.pages s.bands 0 has.frames ≡ None → IfErr result IsNotOfStore }
    ensures heeded { HeedsFaults result (D.view disk.old) (D.view disk.new) (K.faults out.old) (K.faults out.new) }
    ensures reads { OnlyReads D.told (D.view disk.old) (D.view disk.new) }
    ensures later { K.faults out.old ≤ K.faults out.new }
{
    let s = match read_super(disk) {
        Ok(s) => s,
        Err(fault) => return Err(of_gate(fault)),
    };
    let Ok(mut space) = room(alloc) else {
        return Err(InspectFault::Memory);
    };
    match read_log(alloc, disk, &s, &mut space) {
        Ok(gate) => write_listing(disk, &s, gate, &mut space, out),
        Err(fault) => Err(fault),
    }
}
