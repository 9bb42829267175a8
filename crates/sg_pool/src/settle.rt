ghost use Rattle.std.specs.Prelude.{◌≡◌, ◌≢◌, ◌⊎◌, ◌≤◌, ◌<◌, ◌+◌, ◌++◌, [], ℕ, List, length, OnOk, OnErr, IfErr, IsTrue};
ghost use Rattle.sg_base.specs.Ends.{HasRisen};
ghost use Rattle.sg_base.specs.declared.area.Area.TheVariants.{Home};
ghost use Rattle.sg_disk.specs.Disk.{LeavesOnly};
ghost use Rattle.sg_disk.specs.Heeds.{Heeds};
ghost use Rattle.sg_log.specs.Frames.{Numbered, SameElsewhere};
ghost use Rattle.sg_log.specs.Held.{Holds, tail_of, forced, IsBeforeOrAfter};
ghost use Rattle.sg_gate.specs.Layout.{PAGE};
ghost use Rattle.sg_gate.specs.Batch.{IsReady};
ghost use Rattle.sg_pool.specs.Counts.{HasGrown, is_disk};
ghost use Rattle.sg_pool.specs.Going.{IsStored, with_home};
ghost use Rattle.sg_base.specs.Page.{lsn_of};
ghost use Rattle.sg_pool.specs.Units.{Geometry, Units};
ghost use Rattle.sg_pool.specs.Moments.{IsSameOrForced, IsMoment};

use crate::PoolFault;
use crate::home::write_page;
use sg_base::page_lsn;
use sg_disk::Disk;
use sg_log::Log;

// Forces the log, unless the record of this number is durable.
pub(crate) fn make_durable<D: Disk>(disk: &mut D, log: &mut Log, lsn: u64) -> Result<(), PoolFault>
    ensures durable { lsn < tail_of log.old → OnOk result (lsn < log.new.gate) }
    ensures log { (ds ps : List Numbered) → IsTrue D.told → Holds (D.view disk.old) log.old ds ps → OnOk result (IsSameOrForced (D.view disk.new) log.old log.new ds ps) }
    ensures elsewhere { IsTrue D.told → OnOk result (SameElsewhere log.old.area (D.view disk.old).now (D.view disk.new).now) }
    ensures any_moment { (ds ps : List Numbered) → IsTrue D.told → Holds (D.view disk.old) log.old ds ps → LeavesOnly (D.view disk.old) (D.view disk.new) (IsBeforeOrAfter (D.view disk.old).now log.old ds ps) }
    ensures log_kept { (log.new ≡ log.old) ⊎ (log.new ≡ forced log.old) }
    ensures spared { lsn < log.old.gate → log.new ≡ log.old }
    ensures later { (D.view disk.old).faults ≤ (D.view disk.new).faults }
    ensures heeded { Heeds is_disk result (D.view disk.old) (D.view disk.new) }
    ensures kept { (D.view disk.old).handed ≤ (D.view disk.new).handed }
    ensures grown { HasGrown log.old log.new (D.view disk.old) (D.view disk.new) }
    ensures failed { OnErr result (HasRisen (D.view disk.old).faults (D.view disk.new).faults) }
    ensures fault { IfErr result (λ e. e ≡ PoolFault.Disk) }
{
    if lsn < log.durable() {
        return Ok(());
    }
    match log.force(disk) {
        Ok(()) => Ok(()),
        Err(_) => Err(PoolFault::Disk),
    }
}

// Writes a page home, once its last change is durable.
pub(crate) fn settle<D: Disk>(
    disk: &mut D,
    log: &mut Log,
    pages: u32,
    n: u32,
    page: &[u8],
) -> Result<(), PoolFault>
    requires number { n < pages }
    requires pages { pages ≤ 1048576 }
    requires size { length page.now ≡ PAGE }
    ensures done { IsTrue D.told → log.old.area ≢ Home → IsReady ((D.view disk.old).now Home) → OnOk result (IsStored ((D.view disk.new).now Home) (with_home n page.now ((D.view disk.old).now Home).seen)) }
    ensures log { (ds ps : List Numbered) → IsTrue D.told → log.old.area ≢ Home → IsReady ((D.view disk.old).now Home) → Holds (D.view disk.old) log.old ds ps → OnOk result (IsSameOrForced (D.view disk.new) log.old log.new ds ps) }
    ensures moments { (ds ps : List Numbered) (g : Geometry) (last : ℕ → ℕ) (m : Units) → IsTrue D.told → log.old.area ≢ Home → IsReady ((D.view disk.old).now Home) → Holds (D.view disk.old) log.old ds ps → g.pages ≡ pages → m.page n ≡ page.now → lsn_of page.now < tail_of log.old →
        LeavesOnly (D.view disk.old) (D.view disk.new) (IsMoment g (D.view disk.old) log.old ds ps last m) }
    ensures log_kept { (log.new ≡ log.old) ⊎ (log.new ≡ forced log.old) }
    ensures spared { lsn_of page.now < log.old.gate → log.new ≡ log.old }
    ensures later { (D.view disk.old).faults ≤ (D.view disk.new).faults }
    ensures heeded { Heeds is_disk result (D.view disk.old) (D.view disk.new) }
    ensures kept { (D.view disk.old).handed ≤ (D.view disk.new).handed }
    ensures grown { HasGrown log.old log.new (D.view disk.old) (D.view disk.new) }
    ensures failed { OnErr result (HasRisen (D.view disk.old).faults (D.view disk.new).faults) }
    ensures fault { IfErr result (λ e. e ≡ PoolFault.Disk) }
{
    make_durable(disk, log, page_lsn(page))?;
    write_page(disk, pages, n, page)
}
