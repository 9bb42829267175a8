// What opening reads before it writes anything.
ghost use Rattle.std.specs.Prelude.{◌≡◌, ◌⊎◌, [], ℕ, List, IfOk, IfErr, IsTrue};
ghost use Rattle.sg_base.specs.declared.area.Area.TheVariants.{Log0, Log1};
ghost use Rattle.sg_disk.specs.Heeds.{Heeds};
ghost use Rattle.sg_gate.specs.Superblock.{IsSuper};
ghost use Rattle.sg_log.specs.Frames.{Numbered, HasRecords};
ghost use Rattle.sg_log.specs.Held.{Holds};
ghost use Rattle.sg_log.specs.Reads.{OnlyReads};
ghost use Rattle.sg_analysis.specs.Analysis.{analysis_of};
ghost use Rattle.sg_analysis.specs.Shown.{shown, IsAnalysed};
ghost use Rattle.sg_find.specs.Faults.{is_disk};
ghost use Rattle.sg_find.specs.Refused.{LogRefused, of_log, of_analysis, of_gate};
ghost use Rattle.sg_find.specs.Synced.{HasLog, log_area};

use crate::OpenFault;
use sg_analysis::{Analysis, AnalysisFault, analyse};
use sg_base::Area;
use sg_disk::Disk;
use sg_gate::{GateFault, Super};
use sg_log::{Log, LogFault};
use std::alloc::Global;

/// The area in which the superblock says that the log stands.
pub fn log_area(s: &Super) -> Area
    ensures area { result ≡ log_area s.now }
    ensures log { (result ≡ Log0) ⊎ (result ≡ Log1) }
{
    if s.log == 0 { Area::Log0 } else { Area::Log1 }
}

/// The refusal of a gate.
pub fn of_gate(fault: GateFault) -> OpenFault
    ensures { result ≡ of_gate fault }
{
    match fault {
        GateFault::Disk => OpenFault::Disk,
        GateFault::NotAStore => OpenFault::NotAStore,
        GateFault::Damaged { at } => OpenFault::Damaged {
            area: Area::Home,
            at,
        },
    }
}

fn of_log(area: Area, fault: LogFault) -> OpenFault
    ensures { result ≡ of_log area fault }
{
    match fault {
        LogFault::Disk | LogFault::LogEnd => OpenFault::Disk,
        LogFault::Damaged { at } => OpenFault::Damaged { area, at },
        LogFault::Memory => OpenFault::Memory,
    }
}

fn of_analysis(area: Area, fault: AnalysisFault) -> OpenFault
    ensures { result ≡ of_analysis area fault }
{
    match fault {
        AnalysisFault::Disk => OpenFault::Disk,
        AnalysisFault::Damaged { at } => OpenFault::Damaged { area, at },
        AnalysisFault::Memory => OpenFault::Memory,
    }
}

/// The log of a store, and what an analysis says of it. It writes nothing. Nothing of the log's area is
/// pending.
pub fn read_log<D: Disk>(
    alloc: Global,
    disk: &mut D,
    s: &Super,
) -> Result<(Log, Analysis), OpenFault>
    requires { IsSuper s.now }
    ensures log { IfOk result (λ r. r.0 ≡ record { area = log_area s.now; base = s.now.base; gate = r.0.gate; buffer = [] }) }
    ensures records { (ds : List Numbered) (gate : ℕ) → IsTrue D.told → ((D.view disk.old).now (log_area s.now)).pending ≡ [] → HasRecords ((D.view disk.old).now (log_area s.now)).seen s.now.base gate ds →
        IfOk result (λ r. (r.0.gate ≡ gate) × Holds (D.view disk.new) r.0 ds []) }
    ensures says { (ds : List Numbered) (gate : ℕ) → IsTrue D.told → HasRecords ((D.view disk.old).now (log_area s.now)).seen s.now.base gate ds →
        IfOk result (λ r. shown r.1 ≡ analysis_of s.now.base ds) }
    // The area holds a log that is formed, and the analysis is one of it.
    ensures analysed { IsTrue D.told → IfOk result (λ r. IsAnalysed ((D.view disk.old).now (log_area s.now)).seen s.now.base r.1) }
    ensures found { IsTrue D.told → IfOk result (λ r. HasLog ((D.view disk.old).now (log_area s.now)).seen s.now.base) }
    ensures refused { IfErr result (LogRefused D.told (log_area s.now) s.now.base (D.view disk.old) (D.view disk.new)) }
    ensures heeded { Heeds is_disk result (D.view disk.old) (D.view disk.new) }
    ensures reads { OnlyReads D.told (D.view disk.old) (D.view disk.new) }
{
    let area = log_area(s);
    let log = match Log::attach(alloc, disk, area, s.base) {
        Ok(log) => log,
        Err(fault) => return Err(of_log(area, fault)),
    };
    match analyse(alloc, disk, area, s.base) {
        Ok(analysis) => Ok((log, analysis)),
        Err(fault) => Err(of_analysis(area, fault)),
    }
}
