ghost use Rattle.sg_commands.specs.Done.{DoneTellsAll};
ghost use Rattle.sg_commands.specs.Images.{StandsFor, reads_of};
ghost use Rattle.sg_commands.specs.Stores.{grounds, says};
ghost use Rattle.sg_disk.specs.Disk.{View};
ghost use Rattle.sg_inspect.specs.Logs.{HasLog};
ghost use Rattle.sg_model.specs.Objects.{Objects as Model};
ghost use Rattle.sg_ops.specs.Table.{Table};

use crate::opens::Opens;
use sg_disk::Presumed;

/// Tells a proof what status `Done` tells of a run: the whole script was executed, the sink took all replies,
/// and a crash leaves what stands for the objects after all commits. It runs no code.
pub fn done_tells_all<D: Presumed, E: Opens<D>>()
    ensures { DoneTellsAll E.basis E.says }
{}

/// Tells a proof that where the image which reads give stands for objects, whichever, the disk's bytes have the log of a store: a
/// formed log of the store's own pages and bands, which nothing but a fault or want of memory keeps from being listed. It runs no code.
pub fn stores_have_logs()
    ensures { (t : Table) (v : View) (m : Model) → StandsFor grounds says t (reads_of v) m → ∥ HasLog v.now ∥₁ }
{}
