// The listing of the log of a disk's store.
ghost use Rattle.std.specs.Prelude.{◌≡◌};
ghost use Rattle.sg_commands.specs.Drawing.{sunk};
ghost use Rattle.sg_commands.specs.Logged.{ListsLog, status_of_inspection};

use crate::status::Status;
use sg_base::Sink;
use sg_disk::Disk;
use sg_inspect::{InspectFault, write_log};
use std::alloc::Global;

// The status of a log that wasn't listed.
fn status_of_inspection(fault: InspectFault) -> Status
    ensures { result ≡ status_of_inspection fault }
{
    match fault {
        InspectFault::Disk => Status::Disk,
        InspectFault::Sink => Status::Write,
        InspectFault::NotAStore => Status::NotAStore,
        InspectFault::Damaged { area, at } => Status::Damaged(area, at),
        InspectFault::Memory => Status::Memory,
    }
}

/// Writes the listing of the log of a disk's store, which isn't opened, and says how that ended.
pub fn list_log<D: Disk, K: Sink>(alloc: Global, disk: &mut D, out: &mut K) -> Status
    ensures lists { ListsLog result D.told (D.view disk.old) (D.view disk.new) (sunk (K.taken out.old) (K.faults out.old)) (sunk (K.taken out.new) (K.faults out.new)) }
    ensures heeded { (result ≡ Status.Disk → ⊥) → (D.view disk.new).faults ≡ (D.view disk.old).faults }
{
    match write_log(alloc, disk, out) {
        Ok(()) => Status::Done,
        Err(fault) => status_of_inspection(fault),
    }
}
