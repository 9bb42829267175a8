// Why a log can't be listed.
ghost use Rattle.std.specs.Prelude.{◌≡◌};
ghost use Rattle.sg_inspect.specs.Faults.{of_gate, of_log, of_analysis};

use sg_analysis::AnalysisFault;
use sg_base::Area;
use sg_gate::GateFault;
use sg_log::LogFault;

/// Why a store's log isn't listed.
#[derive(Clone, Copy, Debug, PartialEq, Eq)]
pub enum InspectFault {
    /// A call of the disk failed.
    Disk,
    /// The sink failed.
    Sink,
    /// The gates of both superblock slots are closed.
    NotAStore,
    /// The superblock has a field out of its range at this offset of the home area, or the log can't be read on in the frame whose gate
    /// is at this offset of its area.
    Damaged { area: Area, at: u64 },
    /// There was not enough memory.
    Memory,
}

/// The fault of a superblock that can't be read.
pub fn of_gate(fault: GateFault) -> InspectFault
    ensures { result ≡ of_gate fault }
{
    match fault {
        GateFault::Disk => InspectFault::Disk,
        GateFault::NotAStore => InspectFault::NotAStore,
        GateFault::Damaged { at } => InspectFault::Damaged {
            area: Area::Home,
            at,
        },
    }
}

/// The fault of a frame in this area that can't be read. The reading of a frame answers no end of the log.
pub fn of_log(area: Area, fault: LogFault) -> InspectFault
    ensures { result ≡ of_log area fault }
{
    match fault {
        LogFault::Disk | LogFault::LogEnd => InspectFault::Disk,
        LogFault::Damaged { at } => InspectFault::Damaged { area, at },
        LogFault::Memory => InspectFault::Memory,
    }
}

/// The fault of a log in this area that can't be read.
pub fn of_analysis(area: Area, fault: AnalysisFault) -> InspectFault
    ensures { result ≡ of_analysis area fault }
{
    match fault {
        AnalysisFault::Disk => InspectFault::Disk,
        AnalysisFault::Damaged { at } => InspectFault::Damaged { area, at },
        AnalysisFault::Memory => InspectFault::Memory,
    }
}
