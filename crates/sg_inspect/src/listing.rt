// The lines of a log's records.
ghost use Rattle.std.specs.Prelude.{◌≡◌, ◌≤◌, ◌+◌, ℕ, List, length, IsTrue, OnOk, OnErr, IfErr};
ghost use Rattle.sg_base.specs.Ends.{HasRisen, Takes, TakesFront};
ghost use Rattle.sg_record.specs.Records.{Record};
ghost use Rattle.sg_log.specs.Frames.{LOG_END, GREATEST_BODY, numbered_from, numbered_in};
ghost use Rattle.sg_log.specs.Reads.{OnlyReads};
ghost use Rattle.sg_log.specs.Texts.{AreRecords, spelled_all};
ghost use Rattle.sg_inspect.specs.Listing.{lines_of};
ghost use Rattle.sg_inspect.specs.Logs.{HasFrames};
ghost use Rattle.sg_inspect.specs.Faults.{LinesFail, HeedsFaults, BodyFails};

use crate::InspectFault;
use crate::line::write_line;
use sg_base::{Area, Lsn, Sink};
use sg_disk::Disk;
use sg_gate::Super;
use sg_log::read_body;
use sg_record::decode;

// Writes the lines of the records that these bytes are, of which the first has the number `lsn`.
fn list_body<K: Sink>(body: &[u8], lsn: Lsn, out: &mut K) -> Result<(), InspectFault>
    requires { lsn + length body.now ≤ LOG_END }
    ensures took { (rs : List Record) → AreRecords rs → spelled_all rs ≡ body.now → OnOk result (Takes (K.taken out.old) (lines_of (numbered_from lsn rs)) (K.taken out.new)) }
    ensures cut { (rs : List Record) → AreRecords rs → spelled_all rs ≡ body.now → OnErr result (TakesFront (K.taken out.old) (lines_of (numbered_from lsn rs)) (K.taken out.new)) }
    ensures faults { IfErr result (λ e. BodyFails body.now (K.faults out.old) (K.faults out.new) e) }
    ensures later { K.faults out.old ≤ K.faults out.new }
    ensures quiet { OnOk result (K.faults out.new ≡ K.faults out.old) }
{
    let mut from = 0;
    'records: while from < body.len() {
        let Ok((rec, size)) = decode(&body[from..]) else {
            return Err(InspectFault::Disk);
        };
        match write_line(lsn + from as u64, &rec, size as u64, out) {
            Ok(()) => from += size,
            Err(_) => return Err(InspectFault::Sink),
        }
    }
    Ok(())
}

/// Writes the lines of the records of a log.
pub fn list_frames<D: Disk, K: Sink>(
    disk: &mut D,
    s: &Super,
    area: Area,
    space: &mut [u8],
    out: &mut K,
) -> Result<(), InspectFault>
    requires space { GREATEST_BODY ≤ length space.old }
    requires base { s.now.base ≤ LOG_END }
    ensures took { (frames : List (List Record)) → IsTrue D.told → HasFrames ((D.view disk.old).now area).seen s.now.base frames →
        OnOk result (Takes (K.taken out.old) (lines_of (numbered_in s.now.base frames)) (K.taken out.new)) }
    ensures cut { (frames : List (List Record)) → IsTrue D.told → HasFrames ((D.view disk.old).now area).seen s.now.base frames →
        OnErr result (TakesFront (K.taken out.old) (lines_of (numbered_in s.now.base frames)) (K.taken out.new)) }
    ensures faults { IfErr result (λ e. LinesFail D.told s.now area (D.view disk.old) (D.view disk.new) (K.faults out.old) (K.faults out.new) e) }
    ensures heeded { HeedsFaults result (D.view disk.old) (D.view disk.new) (K.faults out.old) (K.faults out.new) }
    ensures reads { OnlyReads D.told (D.view disk.old) (D.view disk.new) }
    ensures later { K.faults out.old ≤ K.faults out.new }
{
    let mut at = 0;
    'frames: loop {
        let size = match read_body(disk, area, s.base, at, space) {
            Ok(Some(size)) => size,
            Ok(None) => return Ok(()),
            Err(_) => return Err(InspectFault::Disk),
        };
        match list_body(&space[..size], s.base + at + 5, out) {
            Ok(()) => at += 5 + size as u64,
            Err(fault) => return Err(fault),
        }
    }
}
