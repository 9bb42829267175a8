// Whether the records of a log may be repeated is asked of its whole text, before anything is written.
ghost use Rattle.std.specs.Prelude.{◌≡◌, ◌≤◌, ◌+◌, max, ℕ, List, length, None, Err, IfOk, IfErr, OnOk, IsTrue};
ghost use Rattle.sg_disk.specs.Heeds.{Heeds};
ghost use Rattle.sg_gate.specs.Superblock.{IsSuper};
ghost use Rattle.sg_ops.specs.Table.{table_of};
ghost use Rattle.sg_record.specs.Records.{Record};
ghost use Rattle.sg_log.specs.Frames.{Frames, LOG_END, gate_after, numbered_in};
ghost use Rattle.sg_log.specs.Reads.{OnlyReads};
ghost use Rattle.sg_places.specs.Asked.{first_outside, first_unknown};
ghost use Rattle.sg_find.specs.Faults.{is_disk};
ghost use Rattle.sg_find.specs.Prepared.{IsPrepared};
ghost use Rattle.sg_find.specs.Refused.{TextRefused, StretchesRefused};
ghost use Rattle.sg_find.specs.Stretch.{GREATEST_FRAME};
ghost use Rattle.sg_find.specs.Synced.{log_area};

use crate::OpenFault;
use crate::finding::log_area;
use crate::stretch::read_stretch;
use sg_analysis::Analysis;
use sg_base::{Area, Lsn};
use sg_disk::Disk;
use sg_gate::Super;
use sg_ops::Ops;
use sg_places::{Refusal, check, or_else};

// The first code that isn't registered, of those that are needed of a log whose closed gate is at the
// offset `end` of its area.
fn check_stretches<D: Disk>(
    disk: &mut D,
    area: Area,
    s: &Super,
    end: u64,
    point: Lsn,
    analysis: &Analysis,
    ops: &Ops,
    space: &mut [u8],
) -> Result<Option<u16>, OpenFault>
    requires within { s.now.base + end ≤ LOG_END }
    ensures there { (frames : List (List Record)) → IsTrue D.told → Frames ((D.view disk.old).now area).seen 0 frames → end ≡ gate_after 0 frames → GREATEST_FRAME ≤ length space.old →
        OnOk result (first_outside s.now.pages s.now.bands 0 frames ≡ None) }
    ensures unknown { (frames : List (List Record)) → IsTrue D.told → Frames ((D.view disk.old).now area).seen 0 frames → end ≡ gate_after 0 frames → GREATEST_FRAME ≤ length space.old →
        IfOk result (λ code. code ≡ first_unknown (table_of record_meaning range_meaning ops.now) point (analysis.now.losers, analysis.now.opened) (numbered_in s.now.base frames)) }
    ensures refused { (frames : List (List Record)) → IsTrue D.told → Frames ((D.view disk.old).now area).seen 0 frames → end ≡ gate_after 0 frames → GREATEST_FRAME ≤ length space.old →
        IfErr result (StretchesRefused area s.now.pages s.now.bands frames (D.view disk.old) (D.view disk.new)) }
    ensures store { result ≡ Err OpenFault.NotAStore → ⊥ }
    ensures heeded { Heeds is_disk result (D.view disk.old) (D.view disk.new) }
    ensures reads { OnlyReads D.told (D.view disk.old) (D.view disk.new) }
    ensures long { length space.new ≡ length space.old }
{
    let mut at = 0;
    let mut unknown = None;
    'stretches: while at < end {
        let size = match read_stretch(disk, area, at, end, space) {
            Ok(size) => size,
            Err(fault) => return Err(fault),
        };
        let text = &space[..size];
        match check(
            text,
            at,
            s.base,
            s.pages,
            s.bands,
            point,
            &analysis.losers,
            &analysis.opened,
            ops,
        ) {
            Ok(code) => {
                unknown = or_else(unknown, code);
                at += size as u64;
            }
            Err(Refusal::Outside { gate }) => return Err(OpenFault::Damaged { area, at: gate }),
            Err(Refusal::Torn) => return Err(OpenFault::Disk),
        }
    }
    Ok(unknown)
}

/// Whether the records of a log may be repeated: each that makes a change is of a page or a band of
/// the store, and the operations are registered that records from the redo point on name, those of
/// the transactions that are undone, and the system's open changes. The log's first byte has the number that the superblock says. It
/// reads the log in stretches, to the front of `space`, and writes nothing.
pub fn check_log<D: Disk>(
    disk: &mut D,
    s: &Super,
    gate: Lsn,
    analysis: &Analysis,
    ops: &Ops,
    space: &mut [u8],
) -> Result<(), OpenFault>
    requires { IsSuper s.now }
    ensures prepared { (frames : List (List Record)) → IsTrue D.told → Frames ((D.view disk.old).now (log_area s.now)).seen 0 frames → gate ≡ s.now.base + gate_after 0 frames → GREATEST_FRAME ≤ length space.old →
        OnOk result (IsPrepared (table_of record_meaning range_meaning ops.now) s.now.pages s.now.bands s.now.base (max s.now.base analysis.now.estimate) (analysis.now.losers, analysis.now.opened) frames) }
    ensures refused { (frames : List (List Record)) → IsTrue D.told → Frames ((D.view disk.old).now (log_area s.now)).seen 0 frames → gate ≡ s.now.base + gate_after 0 frames → gate ≤ LOG_END → GREATEST_FRAME ≤ length space.old →
        IfErr result (TextRefused (table_of record_meaning range_meaning ops.now) (log_area s.now) s.now.pages s.now.bands s.now.base (max s.now.base analysis.now.estimate) (analysis.now.losers, analysis.now.opened) frames (D.view disk.old) (D.view disk.new)) }
    ensures store { result ≡ Err OpenFault.NotAStore → ⊥ }
    ensures heeded { Heeds is_disk result (D.view disk.old) (D.view disk.new) }
    ensures reads { OnlyReads D.told (D.view disk.old) (D.view disk.new) }
    ensures long { length space.new ≡ length space.old }
{
    let area = log_area(s);
    if gate < s.base || gate > 1 << 63 {
        return Err(OpenFault::Disk);
    }
    let end = gate - s.base;
    let point = s.base.max(analysis.estimate);
    match check_stretches(disk, area, s, end, point, analysis, ops, space) {
        Ok(None) => Ok(()),
        Ok(Some(code)) => Err(OpenFault::UnknownOperation(code)),
        Err(fault) => Err(fault),
    }
}
