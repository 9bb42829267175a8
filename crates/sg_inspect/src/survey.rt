// Where a log ends, and whether its records are of the store's pages and bands.
ghost use Rattle.std.specs.Prelude.{◌≡◌, ◌≤◌, ◌+◌, ℕ, List, length, true, Some, None, IsTrue, IfOk, IfErr};
ghost use Rattle.sg_record.specs.Records.{Record};
ghost use Rattle.sg_record.specs.Shown.{shown, shown_change};
ghost use Rattle.sg_redo.specs.Places.{changed_by};
ghost use Rattle.sg_log.specs.Frames.{LOG_END, GREATEST_BODY, gate_after};
ghost use Rattle.sg_log.specs.Reads.{OnlyReads};
ghost use Rattle.sg_log.specs.Texts.{AreRecords, spelled_all};
ghost use Rattle.sg_places.specs.Asked.{is_there, all_there, first_outside};
ghost use Rattle.sg_inspect.specs.Logs.{HasFrames};
ghost use Rattle.sg_inspect.specs.Faults.{EndFails, HeedsFaults};

use crate::InspectFault;
use crate::fault::of_log;
use sg_base::Area;
use sg_disk::Disk;
use sg_gate::Super;
use sg_log::read_body;
use sg_record::{Change, Rec, decode};

// Whether the page or the band that is changed is one of the store's.
fn is_change_inside(change: &Change<'_>, s: &Super) -> bool
    ensures { result ≡ is_there s.now.pages s.now.bands (Some (shown_change change.now)) }
{
    match change {
        Change::Page(change) => change.page.0 < s.pages,
        Change::SegWrite(change) => change.band.0 < s.bands,
        Change::SegOp(change) => change.band.0 < s.bands,
    }
}

// Whether the page or the band that a record changes, if it changes one, is one of the store's.
fn is_inside(rec: &Rec<'_>, s: &Super) -> bool
    ensures { result ≡ is_there s.now.pages s.now.bands (changed_by (shown rec.now).says) }
{
    match *rec {
        Rec::Page { change, .. } => change.page.0 < s.pages,
        Rec::SegWrite { change, .. } => change.band.0 < s.bands,
        Rec::SegOp { change, .. } => change.band.0 < s.bands,
        Rec::PhysComp { change, .. } => is_change_inside(&change, s),
        _ => true,
    }
}

// Whether the records that these bytes are have each changed a page or a band of the store, if any.
fn are_inside(body: &[u8], s: &Super) -> bool
    ensures { (rs : List Record) → AreRecords rs → spelled_all rs ≡ body.now → result ≡ all_there s.now.pages s.now.bands rs }
{
    let mut from = 0;
    'records: while from < body.len() {
        let Ok((rec, size)) = decode(&body[from..]) else {
            return false;
        };
        if !is_inside(&rec, s) {
            return false;
        }
        from += size;
    }
    true
}

/// The offset of the closed gate behind the frames of a log, of which each record is of a page or a band of the store, if any.
pub fn find_end<D: Disk>(
    disk: &mut D,
    s: &Super,
    area: Area,
    space: &mut [u8],
) -> Result<u64, InspectFault>
    requires space { GREATEST_BODY ≤ length space.old }
    requires base { s.now.base ≤ LOG_END }
    ensures end { (frames : List (List Record)) → IsTrue D.told → HasFrames ((D.view disk.old).now area).seen s.now.base frames → IfOk result (λ end. end ≡ gate_after 0 frames) }
    ensures inside { (frames : List (List Record)) → IsTrue D.told → HasFrames ((D.view disk.old).now area).seen s.now.base frames → IfOk result (λ end. first_outside s.now.pages s.now.bands 0 frames ≡ None) }
    ensures within { IfOk result (λ end. s.now.base + end ≤ LOG_END) }
    ensures faults { IfErr result (λ e. EndFails D.told s.now area (D.view disk.old) (D.view disk.new) e) }
    ensures heeded { HeedsFaults result (D.view disk.old) (D.view disk.new) 0 0 }
    ensures reads { OnlyReads D.told (D.view disk.old) (D.view disk.new) }
{
    let mut at = 0;
    'frames: loop {
        match read_body(disk, area, s.base, at, space) {
            Ok(Some(size)) => {
                if !are_inside(&space[..size], s) {
                    return Err(InspectFault::Damaged { area, at });
                }
                at += 5 + size as u64;
            }
            Ok(None) => return Ok(at),
            Err(fault) => return Err(of_log(area, fault)),
        }
    }
}
