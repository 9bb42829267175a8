// Opening.
ghost use Rattle.std.specs.Prelude.{◌≡◌, ◌≢◌, ◌⊎◌, ◌+◌, ◌≤◌, ℕ, List, [], length, IsTrue, IfOk, IfErr, OnOk, OnErr};
ghost use Rattle.sg_base.specs.declared.area.Area.TheVariants.{Home};
ghost use Rattle.sg_gate.specs.Superblock.{IsSuper};
ghost use Rattle.sg_disk.specs.Accounts.{IsShownEnd};
ghost use Rattle.sg_disk.specs.Heeds.{Heeds};
ghost use Rattle.sg_ops.specs.Table.{table_of};
ghost use Rattle.sg_record.specs.Records.{Record};
ghost use Rattle.sg_log.specs.Frames.{HasRecords, Numbered};
ghost use Rattle.sg_engine.specs.Effects.{effect_in};
ghost use Rattle.sg_engine.specs.Engine.{Origin};
ghost use Rattle.sg_engine.specs.Running.{IsEngine, IsAllowed};
ghost use Rattle.sg_find.specs.Faults.{is_disk};
ghost use Rattle.sg_find.specs.Synced.{log_area, reads, redo_point, IsUnsynced, SplitsAtSync};
ghost use Rattle.sg_analysis.specs.Shown.{IsAnalysed};
ghost use Rattle.sg_places.specs.Placed.{places_in};
ghost use Rattle.sg_open.specs.Repeatable.{IsNew};
ghost use Rattle.sg_open.specs.Refusals.{StoreRefused, IsUnwrittenAt, IsCause, IsLateCause, IsAccepted};
ghost use Rattle.sg_open.specs.Found.{Opens, AreOpening, IsGoingOn};

use crate::found::{Found, find};
use crate::repeating::repeat;
use sg_analysis::Analysis;
use sg_base::Steps;
use sg_disk::Disk;
use sg_find::{OpenFault, Room, sync_all};
use sg_gate::Super;
use sg_log::Log;
use sg_ops::Ops;
use sg_pool::Pool;
use std::alloc::Global;
use std::sync::ledger::Ledger;
use std::thread::Threads;

/// The running engine of a store that was opened. Its pool has to be ended.
pub struct Opened {
    pub geometry: Super,
    pub log: Log,
    pub pool: Pool,
    pub analysis: Analysis,
}

// A new pool.
fn take_pool(alloc: Global, geometry: &Super) -> Result<Pool, OpenFault>
    requires { IsSuper geometry.now }
    ensures new { IfOk result (IsNew geometry.now) }
    ensures memory { IfErr result (λ e. e ≡ OpenFault.Memory) }
{
    match Pool::new(alloc, geometry) {
        Ok(pool) => Ok(pool),
        Err(_) => Err(OpenFault::Memory),
    }
}

/// Opens a store: what a crash left is made durable and read, an open batch is laid over, and history is
/// repeated from the redo point on, of pages many at a time, in threads. All memory that it needs is taken before the first write, and none
/// of it is for the whole log: that is read four times, first frame by frame and then in stretches. Where the little that threads want is
/// refused then, pages are done one after another.
///
/// Where what was read can be opened, `Ok` is a running engine: its pages and bands are what the
/// log's records make of the home area. Until the three areas are synced a crash leaves what it could
/// have left before, and from then on an image that stands for the same records.
pub fn open<R: Threads + Sync, D: Disk, L: Ledger>(
    rt: &R,
    alloc: Global,
    disk: &mut D,
    ops: &Ops,
    steps: &mut Steps<L>,
) -> Result<Opened, OpenFault>
    ensures opens { (o : Origin) (tail : ℕ) (ds : List Numbered) → IsTrue D.told → ((lsn : ℕ) (x : Record) → o.effect lsn x ≡ effect_in (table_of record_meaning range_meaning ops.now) lsn x) → Opens o tail ds (D.view disk.old) →
        IfOk result (λ e. IsEngine o (D.view disk.new) e.log ds [] e.pool) }
    // Its redo point is allowed from then on.
    ensures allowed { (o : Origin) (tail : ℕ) (ds : List Numbered) → IsTrue D.told → ((lsn : ℕ) (x : Record) → o.effect lsn x ≡ effect_in (table_of record_meaning range_meaning ops.now) lsn x) → Opens o tail ds (D.view disk.old) →
        redo_point o.super.base ds ≤ tail → IfOk result (λ e. IsAllowed o (D.view disk.new) e.log e.pool (redo_point o.super.base ds)) }
    // Where what was read can be opened, a refusal is one of these.
    ensures refused { (o : Origin) (tail : ℕ) (ds : List Numbered) → IsTrue D.told → ((lsn : ℕ) (x : Record) → o.effect lsn x ≡ effect_in (table_of record_meaning range_meaning ops.now) lsn x) → Opens o tail ds (D.view disk.old) →
        IfErr result (StoreRefused D.told (table_of record_meaning range_meaning ops.now) o ds (D.view disk.old) (D.view disk.new)) }
    // Of any image: why it is refused, with the place that is damaged or the code that is missing; and what is true of one that isn't.
    ensures cause { IsTrue D.told → IfErr result (λ e. IsCause (table_of record_meaning range_meaning ops.now) (reads (D.view disk.old)) e ⊎ IsLateCause (reads (D.view disk.old)) e) }
    ensures accepted { IsTrue D.told → IfOk result (λ e. IsAccepted (table_of record_meaning range_meaning ops.now) (reads (D.view disk.old)) e.geometry) }
    // Its log is formed, and the analysis is one of it. The superblock is in range on any disk.
    ensures analysed { IsTrue D.told → IfOk result (λ e. IsAnalysed (reads (D.view disk.old) (log_area e.geometry)) e.geometry.base e.analysis) }
    ensures range { IfOk result (λ e. IsSuper e.geometry) }
    // The gates of both superblock slots are closed.
    ensures not_a_store { IsTrue D.told → result ≡ Err OpenFault.NotAStore → ((((D.view disk.old).now Home).seen 0 ≢ 1) × (((D.view disk.old).now Home).seen 4096 ≢ 1)) }
    ensures shut { IsTrue D.told → ((D.view disk.old).now Home).seen 0 ≢ 1 → ((D.view disk.old).now Home).seen 4096 ≢ 1 → (result ≡ Err OpenFault.NotAStore) ⊎ (result ≡ Err OpenFault.Disk) }
    // Nothing was written before such a refusal.
    ensures unwritten { IfErr result (λ e. IsUnwrittenAt e (D.view disk.old) (D.view disk.new)) }
    ensures heeded { Heeds is_disk result (D.view disk.old) (D.view disk.new) }
    // History is repeated from the redo point on alone: each record from there on that makes a change is one step.
    ensures steps { (o : Origin) (tail : ℕ) (ds : List Numbered) → IsTrue D.told → ((lsn : ℕ) (x : Record) → o.effect lsn x ≡ effect_in (table_of record_meaning range_meaning ops.now) lsn x) → Opens o tail ds (D.view disk.old) →
        OnOk result (steps.new ≡ steps.old + length (places_in o.super.pages o.super.base (redo_point o.super.base ds) ds)) }
    // At each moment, faults included.
    ensures moments { (o : Origin) (tail : ℕ) (ds : List Numbered) → IsTrue D.told → ((lsn : ℕ) (x : Record) → o.effect lsn x ≡ effect_in (table_of record_meaning range_meaning ops.now) lsn x) → Opens o tail ds (D.view disk.old) →
        AreOpening o ds (D.view disk.old) (D.view disk.new) }
    // No byte is handed over but to the home area: where the log ends is shown by where the frames of the image do.
    ensures kept { (D.view disk.old).handed ≤ (D.view disk.new).handed }
    ensures shown { IsTrue D.told → IfOk result (λ e. (ds : List Numbered) (gate : ℕ) → HasRecords ((D.view disk.old).now (log_area e.geometry)).seen e.geometry.base gate ds
        → IsShownEnd (D.view disk.old) (D.view disk.new) gate e.log.gate) }
    // Nothing waits at its end.
    ensures empty { IfOk result (λ e. length e.log.buffer ≡ 0) }
    // All areas are synced first, and where that fails nothing else is done. It is the same moment for whatever was read.
    ensures behind { IsTrue D.told → OnOk result (SplitsAtSync (D.view disk.old) (IsGoingOn (table_of record_meaning range_meaning ops.now) (D.view disk.old) (D.view disk.new))) }
    ensures stopped { IsTrue D.told → OnErr result (IsUnsynced (D.view disk.old) (D.view disk.new)
        ⊎ SplitsAtSync (D.view disk.old) (IsGoingOn (table_of record_meaning range_meaning ops.now) (D.view disk.old) (D.view disk.new))) }
{
    if sync_all(disk).is_err() {
        return Err(OpenFault::Disk);
    }
    let Found {
        geometry,
        mut log,
        analysis,
        room: Room {
            mut text,
            mut places,
        },
    } = match find(alloc, disk, ops) {
        Ok(found) => found,
        Err(fault) => return Err(fault),
    };
    let mut pool = match take_pool(alloc, &geometry) {
        Ok(pool) => pool,
        Err(fault) => return Err(fault),
    };
    let point = geometry.base.max(analysis.estimate);
    match repeat(
        rt,
        disk,
        &geometry,
        point,
        &mut log,
        &mut pool,
        &mut text,
        &mut places,
        ops,
        steps,
    ) {
        Ok(()) => Ok(Opened {
            geometry,
            log,
            pool,
            analysis,
        }),
        Err(fault) => {
            pool.end();
            Err(fault)
        }
    }
}
