// Opening a store again as an engine, which takes the disk, or hands it back.
ghost use Rattle.std.specs.Prelude.{◌≡◌, ◌+◌, List, IsTrue, IfOk, IfErr, OnOk};
ghost use Rattle.std.specs.Bool.{OnFalse};
ghost use Rattle.sg_disk.specs.Disk.{Image, Leaves, LeavesOnly};
ghost use Rattle.sg_ops.specs.Table.{table_of};
ghost use Rattle.sg_log.specs.Frames.{Numbered};
ghost use Rattle.sg_engine.specs.Effects.{IsBy};
ghost use Rattle.sg_engine.specs.Engine.{Origin};
ghost use Rattle.sg_engine.specs.Cut.{cut_at};
ghost use Rattle.sg_find.specs.Faults.{is_disk};
ghost use Rattle.sg_find.specs.Synced.{reads};
ghost use Rattle.sg_open.specs.Refusals.{StoreRefused};
ghost use Rattle.sg_reopen.specs.Again.{image_home, origin_at};
ghost use Rattle.sg_reopen.specs.Running.{RunsAgain, repeated_count};
ghost use Rattle.sg_reopen.specs.Over.{StandsOver};

use crate::reopening::reopen;
use sg_analysis::Analysis;
use sg_base::Steps;
use sg_disk::Disk;
use sg_engine::Engine;
use sg_find::OpenFault;
use sg_gate::Super;
use sg_open::Opened;
use sg_ops::Ops;
use std::alloc::Global;
use std::sync::ledger::Ledger;
use std::thread::Threads;

/// The engine of a store that was opened, with the superblock that counts and what its log says of
/// transactions. The engine has to be ended (`Engine::into_disk`).
pub struct Started<D: Disk> {
    pub geometry: Super,
    pub engine: Engine<D>,
    pub analysis: Analysis,
}

/// A disk whose store wasn't opened, and why.
pub struct Unopened<D: Disk> {
    pub disk: D,
    pub fault: OpenFault,
}

/// Opens a store as `reopen` does, and makes an engine of what it gives. A refusal hands the disk back,
/// as opening left it.
pub fn open_engine<R: Threads + Sync, D: Disk, L: Ledger>(
    rt: &R,
    alloc: Global,
    disk: D,
    ops: &Ops,
    steps: &mut Steps<L>,
) -> Result<Started<D>, Unopened<D>>
    ensures runs { (o : Origin) (ds all : List Numbered) → IsTrue D.told → IsBy (table_of record_meaning range_meaning ops.now) o → (over : StandsOver o ds all (reads (D.view disk))) →
        IfOk result (λ e. RunsAgain (cut_at o over.stand over.gone) (image_home (cut_at o over.stand over.gone) (reads (D.view disk))) over.again.stands.records (D.view e.engine.disk) e.engine.log e.engine.pool) }
    ensures refused { (o : Origin) (ds all : List Numbered) → IsTrue D.told → IsBy (table_of record_meaning range_meaning ops.now) o → (over : StandsOver o ds all (reads (D.view disk))) →
        IfErr result (λ u. StoreRefused D.told (table_of record_meaning range_meaning ops.now) (origin_at (cut_at o over.stand over.gone) (reads (D.view disk))) over.again.stands.records (D.view disk) (D.view u.disk) u.fault) }
    // No fault of the disk is passed over: where it answers anything but `Disk`, the disk's count of faults is as it was.
    ensures heeded { IfOk result (λ e. (D.view e.engine.disk).faults ≡ (D.view disk).faults) }
    ensures heeded_so { IfErr result (λ u. OnFalse (is_disk u.fault) ((D.view u.disk).faults ≡ (D.view disk).faults)) }
    // Each record from the redo point on that makes a change is one step.
    ensures steps { (o : Origin) (ds all : List Numbered) → IsTrue D.told → IsBy (table_of record_meaning range_meaning ops.now) o → (over : StandsOver o ds all (reads (D.view disk))) →
        OnOk result (steps.new ≡ steps.old + repeated_count (cut_at o over.stand over.gone) over.again.stands.records) }
    // At each moment, where it succeeds and where it doesn't.
    ensures opened { (o : Origin) (ds all : List Numbered) → IsTrue D.told → IsBy (table_of record_meaning range_meaning ops.now) o →
        ((c : Image) → Leaves (D.view disk).now c → StandsOver o ds all c) → IfOk result (λ e. LeavesOnly (D.view disk) (D.view e.engine.disk) (StandsOver o ds all)) }
    ensures failed { (o : Origin) (ds all : List Numbered) → IsTrue D.told → IsBy (table_of record_meaning range_meaning ops.now) o →
        ((c : Image) → Leaves (D.view disk).now c → StandsOver o ds all c) → IfErr result (λ u. LeavesOnly (D.view disk) (D.view u.disk) (StandsOver o ds all)) }
{
    let mut disk = disk;
    match reopen(rt, alloc, &mut disk, ops, steps) {
        Ok(
            Opened {
                geometry,
                log,
                pool,
                analysis,
            },
        ) => {
            let engine = Engine::of_parts(disk, log, pool);
            Ok(Started {
                geometry,
                engine,
                analysis,
            })
        }
        Err(fault) => Err(Unopened { disk, fault }),
    }
}
