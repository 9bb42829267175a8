ghost use Rattle.std.specs.Prelude.{◌≡◌, ◌⊎◌, ◌≤◌, ◌<◌, ◌+◌, ℕ, length, OnOk, OnErr, IfErr, IsTrue};
ghost use Rattle.sg_base.specs.Ends.{HasRisen};
ghost use Rattle.sg_base.specs.declared.area.Area.TheVariants.{Home};
ghost use Rattle.sg_disk.specs.Disk.{LeavesOnly};
ghost use Rattle.sg_disk.specs.Heeds.{Heeds};
ghost use Rattle.sg_gate.specs.Layout.{PAGE};
ghost use Rattle.sg_gate.specs.Batch.{IsReady, IsEither, SameLogs};
ghost use Rattle.sg_pool.specs.Counts.{is_disk};
ghost use Rattle.sg_pool.specs.Going.{IsStored, with_home};

use crate::PoolFault;
use sg_disk::Disk;
use sg_gate::{finish, place};

// Writes a page home through the double-write area.
pub(crate) fn write_page<D: Disk>(
    disk: &mut D,
    pages: u32,
    n: u32,
    page: &[u8],
) -> Result<(), PoolFault>
    requires number { n < pages }
    requires pages { pages ≤ 1048576 }
    requires size { length page.now ≡ PAGE }
    ensures any_moment { IsTrue D.told → IsReady ((D.view disk.old).now Home) →
        LeavesOnly (D.view disk.old) (D.view disk.new) (IsEither (D.view disk.old).now pages ((D.view disk.old).now Home).seen (with_home n page.now ((D.view disk.old).now Home).seen)) }
    ensures done { IsTrue D.told → IsReady ((D.view disk.old).now Home) → OnOk result (IsStored ((D.view disk.new).now Home) (with_home n page.now ((D.view disk.old).now Home).seen)) }
    ensures logs { IsTrue D.told → IsReady ((D.view disk.old).now Home) → OnOk result (SameLogs (D.view disk.old).now (D.view disk.new).now) }
    ensures later { (D.view disk.old).faults ≤ (D.view disk.new).faults }
    ensures heeded { Heeds is_disk result (D.view disk.old) (D.view disk.new) }
    ensures kept { (D.view disk.old).handed ≤ (D.view disk.new).handed }
    ensures failed { OnErr result (HasRisen (D.view disk.old).faults (D.view disk.new).faults) }
    ensures fault { IfErr result (λ e. e ≡ PoolFault.Disk) }
{
    match place(disk, 0, page) {
        Ok(()) => {}
        Err(_) => return Err(PoolFault::Disk),
    }
    match finish(disk, pages, &[n]) {
        Ok(()) => Ok(()),
        Err(_) => Err(PoolFault::Disk),
    }
}
