// The engine's words in those of the actions.
ghost use Rattle.std.specs.Prelude.{◌≡◌};
ghost use Rattle.sg_record.specs.Shown.{shown};
ghost use Rattle.sg_phys_laws.specs.Faults.{space_fault, is_log_end};
ghost use Rattle.sg_phys_laws.specs.Logged.{is_no_step};

use sg_engine::EngineFault;
use sg_record::Rec;
use sg_space::SpaceFault;

/// What the engine's fault is to a space.
pub fn space_fault(fault: EngineFault) -> SpaceFault
    ensures { result ≡ space_fault fault }
{
    match fault {
        EngineFault::Disk => SpaceFault::Disk,
        EngineFault::LogEnd => SpaceFault::LogEnd,
    }
}

/// Whether the engine refused a record for the log's end.
pub fn is_log_end(fault: EngineFault) -> bool
    ensures { result ≡ is_log_end fault }
{
    match fault {
        EngineFault::Disk => false,
        EngineFault::LogEnd => true,
    }
}

/// Whether the record is no step of a transaction or of the system: a checkpoint.
pub fn is_no_step(r: &Rec<'_>) -> bool
    ensures { result ≡ is_no_step (shown r.now).says }
{
    match *r {
        Rec::Checkpoint { .. } => true,
        _ => false,
    }
}
