ghost use Rattle.std.specs.Prelude.{◌≡◌, ◌≤◌, ◌+◌, ◌*◌, ℕ, List, [], length, min, Err, IfOk, IfErr, OnOk, IsTrue};
ghost use Rattle.sg_disk.specs.Disk.{FULL};
ghost use Rattle.sg_record.specs.Records.{Record};
ghost use Rattle.sg_log.specs.Frames.{LOG_END, GREATEST_BODY, Frames, HasRecords, Numbered};
ghost use Rattle.sg_log.specs.Reads.{OnlyReads};
ghost use Rattle.sg_analysis.specs.Rows.{Knows};
ghost use Rattle.sg_analysis.specs.Walks.{IsFound};
ghost use Rattle.sg_analysis.specs.Standing.{IsPageLog};
ghost use Rattle.sg_analysis.specs.Damage.{AnalysisFails, HeedsFaults};
ghost use Rattle.sg_analysis.specs.Analysis.{analysis_of};
ghost use Rattle.sg_analysis.specs.Shown.{shown, IsAnalysed};

use crate::AnalysisFault;
use crate::losers::Losers;
use crate::opened::Opened;
use crate::scan::Scan;
use sg_base::{Lsn, TxnId};
use sg_disk::{Area, Disk};
use sg_log::read_body;
use std::alloc::{AllocError, Global};

/// What opening needs to know of a log.
#[derive(Drop)]
pub struct Analysis {
    /// The transactions that have begun and neither committed nor ended.
    pub losers: Losers,
    /// What the last checkpoint estimates: history is repeated from there on. It is the number of the
    /// log's first byte where there is no checkpoint.
    pub estimate: Lsn,
    /// The number of the last checkpoint.
    pub last_checkpoint: Option<Lsn>,
    /// The system, which is 0, or the loser whose action has no end, with the number of its last record.
    pub unfinished: Option<(TxnId, Lsn)>,
    /// The system's changes that are open, where its action has no end.
    pub opened: Opened,
}

// Room for the greatest body of a frame.
fn room(alloc: Global) -> Result<Vec<u8>, AllocError>
    ensures { IfOk result (λ v. length v.items ≡ 65536) }
{
    vec![in alloc; 0; 65_536]
}

// Takes all records of the log in.
fn walk<D: Disk>(
    disk: &mut D,
    area: Area,
    base: Lsn,
    space: &mut [u8],
    scan: &mut Scan,
) -> Result<(), AnalysisFault>
    requires base { base ≤ LOG_END }
    requires space { GREATEST_BODY ≤ length space.old }
    requires scan { Knows scan.old base [] }
    requires unended { scan.old.unended.actions.items ≡ [] }
    ensures found { OnOk result (IsFound D.told area base (D.view disk.old) (D.view disk.new) scan.new) }
    ensures faults { IfErr result (λ e. AnalysisFails D.told area base (D.view disk.old) (D.view disk.new) e) }
    ensures heeded { HeedsFaults result (D.view disk.old) (D.view disk.new) }
    ensures reads { OnlyReads D.told (D.view disk.old) (D.view disk.new) }
{
    let mut at = 0;
    'frames: loop {
        match read_body(disk, area, base, at, space) {
            Err(fault) => return Err(AnalysisFault::from(fault)),
            Ok(None) => return Ok(()),
            Ok(Some(size)) => {
                match scan.take(base + at + 5, at, &space[..size]) {
                    Err(fault) => return Err(fault),
                    Ok(()) => {
                        at += 5 + size as u64;
                    }
                }
            }
        }
    }
}

/// Analyses the log in this area, whose first byte has the number `base`. It reads the log once, frame
/// by frame, up to the first closed gate, and writes nothing. Beside room for one frame it takes memory
/// for the transactions that go on at one time, for those that have committed and have no end, and for
/// those that had begun before the log; and a number for each change that is open at one time, and for
/// each note that stands, however long the log is.
///
/// Its Ok says that the log is formed. It answers `Damaged`, with the offset of a frame's gate, exactly
/// where that frame isn't formed, or a record of it doesn't stand as a formed log has it behind those
/// before it; or where an action began in it that has no end and may not be without one: the second of
/// the log, or one of a transaction that doesn't go on. A formed log is never damaged. It answers `Disk`
/// only where the disk fails.
pub fn analyse<D: Disk>(
    alloc: Global,
    disk: &mut D,
    area: Area,
    base: Lsn,
) -> Result<Analysis, AnalysisFault>
    requires { base ≤ LOG_END }
    ensures analysed { IsTrue D.told → IfOk result (IsAnalysed ((D.view disk.old).now area).seen base) }
    ensures says { (gate : ℕ) (ns : List Numbered) → IsTrue D.told → HasRecords ((D.view disk.old).now area).seen base gate ns →
        IfOk result (λ a. shown a ≡ analysis_of base ns) }
    ensures undamaged { (gate : ℕ) (ns : List Numbered) (at : ℕ) → IsTrue D.told → HasRecords ((D.view disk.old).now area).seen base gate ns → IsPageLog base ns →
        result ≡ Err (AnalysisFault.Damaged at) → ⊥ }
    ensures faults { IfErr result (λ e. AnalysisFails D.told area base (D.view disk.old) (D.view disk.new) e) }
    ensures heeded { HeedsFaults result (D.view disk.old) (D.view disk.new) }
    ensures reads { OnlyReads D.told (D.view disk.old) (D.view disk.new) }
    ensures calls { (frames : List (List Record)) → IsTrue D.told → Frames ((D.view disk.old).now area).seen 0 frames →
        OnOk result ((D.view disk.new).calls ≡ min ((D.view disk.old).calls + 1 + 2 * length frames) FULL) }
{
    let mut space = room(alloc)?;
    let mut scan = Scan::new(alloc, base);
    match walk(disk, area, base, &mut space, &mut scan) {
        Ok(()) => scan.finish(),
        Err(fault) => Err(fault),
    }
}
