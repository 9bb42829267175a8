// Opening a store again, whose log may have been cut.
ghost use Rattle.std.specs.Prelude.{◌≡◌, ◌+◌, List, IsTrue, IfOk, IfErr, OnOk};
ghost use Rattle.sg_disk.specs.Disk.{Image, Leaves, LeavesOnly};
ghost use Rattle.sg_disk.specs.Heeds.{Heeds};
ghost use Rattle.sg_ops.specs.Table.{table_of};
ghost use Rattle.sg_log.specs.Frames.{Numbered};
ghost use Rattle.sg_engine.specs.Effects.{IsBy};
ghost use Rattle.sg_engine.specs.Engine.{Origin};
ghost use Rattle.sg_engine.specs.Cut.{cut_at};
ghost use Rattle.sg_find.specs.Faults.{is_disk};
ghost use Rattle.sg_find.specs.Synced.{reads};
ghost use Rattle.sg_open.specs.Refusals.{StoreRefused};
ghost use Rattle.sg_reopen.specs.Again.{image_home, origin_at};
ghost use Rattle.sg_reopen.specs.Running.{RunsAgain, repeated_count};
ghost use Rattle.sg_reopen.specs.Over.{StandsOver};

use sg_base::Steps;
use sg_disk::Disk;
use sg_find::OpenFault;
use sg_open::{Opened, open};
use sg_ops::Ops;
use std::alloc::Global;
use std::sync::ledger::Ledger;
use std::thread::Threads;

/// Opens a store of which each image that a crash could leave now stands over all that was ever done
/// to it: also where a crash came while its log was cut, so that some of them have the old superblock
/// and some the new one. The image that is read says which.
///
/// Where it succeeds, the next life of the store as it was cut last begins, with the records of the
/// image that was read, over its home area. Each image of each moment stands over all that was ever
/// done, so that another crash during it is one more life's end. It refuses a store only where the
/// disk fails, for want of memory, where no operation is registered with a code that it needs, or
/// where the log isn't formed in full.
pub fn reopen<R: Threads + Sync, D: Disk, L: Ledger>(
    rt: &R,
    alloc: Global,
    disk: &mut D,
    ops: &Ops,
    steps: &mut Steps<L>,
) -> Result<Opened, OpenFault>
    ensures runs { (o : Origin) (ds all : List Numbered) → IsTrue D.told → IsBy (table_of record_meaning range_meaning ops.now) o → (over : StandsOver o ds all (reads (D.view disk.old))) →
        IfOk result (λ e. RunsAgain (cut_at o over.stand over.gone) (image_home (cut_at o over.stand over.gone) (reads (D.view disk.old))) over.again.stands.records (D.view disk.new) e.log e.pool) }
    ensures refused { (o : Origin) (ds all : List Numbered) → IsTrue D.told → IsBy (table_of record_meaning range_meaning ops.now) o → (over : StandsOver o ds all (reads (D.view disk.old))) →
        IfErr result (StoreRefused D.told (table_of record_meaning range_meaning ops.now) (origin_at (cut_at o over.stand over.gone) (reads (D.view disk.old))) over.again.stands.records (D.view disk.old) (D.view disk.new)) }
    ensures heeded { Heeds is_disk result (D.view disk.old) (D.view disk.new) }
    // Each record from the redo point on that makes a change is one step.
    ensures steps { (o : Origin) (ds all : List Numbered) → IsTrue D.told → IsBy (table_of record_meaning range_meaning ops.now) o → (over : StandsOver o ds all (reads (D.view disk.old))) →
        OnOk result (steps.new ≡ steps.old + repeated_count (cut_at o over.stand over.gone) over.again.stands.records) }
    // At each moment, faults included.
    ensures moments { (o : Origin) (ds all : List Numbered) → IsTrue D.told → IsBy (table_of record_meaning range_meaning ops.now) o →
        ((c : Image) → Leaves (D.view disk.old).now c → StandsOver o ds all c) → LeavesOnly (D.view disk.old) (D.view disk.new) (StandsOver o ds all) }
{
    open(rt, alloc, disk, ops, steps)
}
