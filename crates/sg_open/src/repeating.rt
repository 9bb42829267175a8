// History is repeated over what an open batch left, stretch by stretch of the log.
ghost use Rattle.std.specs.Prelude.{◌≡◌, ◌+◌, ◌-◌, ◌*◌, ◌^◌, ◌<◌, ◌≤◌, ◌++◌, ℕ, List, [], length, IsTrue, OnOk, IfOk, IfErr, vec_capacity};
ghost use Rattle.sg_base.specs.Ends.{HasRisen};
ghost use Rattle.sg_disk.specs.Disk.{LeavesOnly};
ghost use Rattle.sg_disk.specs.Heeds.{Heeds};
ghost use Rattle.sg_gate.specs.Superblock.{IsSuper};
ghost use Rattle.sg_ops.specs.Table.{table_of};
ghost use Rattle.sg_record.specs.Records.{Record};
ghost use Rattle.sg_log.specs.Frames.{Numbered, LOG_END, gate_after};
ghost use Rattle.sg_engine.specs.Engine.{Origin, IsStanding};
ghost use Rattle.sg_engine.specs.Running.{IsEngine, IsAllowed};
ghost use Rattle.sg_pool.specs.Counts.{HasGrown};
ghost use Rattle.sg_pool.specs.Pooled.{sizes};
ghost use Rattle.sg_places.specs.Placed.{places_in};
ghost use Rattle.sg_find.specs.Faults.{is_disk};
ghost use Rattle.sg_find.specs.Stretch.{GREATEST_FRAME};
ghost use Rattle.sg_open.specs.Repeatable.{MayRepeat, IsRepeatable, IsRepeating, HasRepeated};
ghost use Rattle.sg_open.specs.Refusals.{IsPageFault, IsLate, of_pool};

use sg_base::{Area, Lsn, Steps};
use sg_disk::Disk;
use sg_find::{OpenFault, log_area, of_gate, read_stretch};
use sg_gate::{Super, lay_over, page_start};
use sg_log::Log;
use sg_ops::Ops;
use sg_places::collect;
use sg_pool::{Pool, PoolFault};
use sg_redo::{Place, are_known};
use std::sync::ledger::Ledger;
use std::thread::Threads;

// The refusal of a pool.
fn of_pool(fault: PoolFault) -> OpenFault
    ensures { result ≡ of_pool fault }
{
    match fault {
        PoolFault::Disk => OpenFault::Disk,
        PoolFault::Memory => OpenFault::Memory,
        PoolFault::Damaged { page } => OpenFault::Damaged {
            area: Area::Home,
            at: page_start(page),
        },
    }
}

// Reads a stretch of the log from this offset of its area on, up to that of its closed gate, and
// repeats its records from the redo point on. It answers how many bytes the stretch has.
fn repeat_stretch<R: Threads + Sync, D: Disk, L: Ledger>(
    rt: &R,
    disk: &mut D,
    s: &Super,
    at: u64,
    end: u64,
    point: Lsn,
    log: &mut Log,
    pool: &mut Pool,
    space: &mut [u8],
    places: &mut Vec<Place>,
    ops: &Ops,
    steps: &mut Steps<L>,
) -> Result<u64, OpenFault>
    requires range { IsSuper s.now }
    requires there { at < end }
    requires within { s.now.base + end ≤ LOG_END }
    requires great { GREATEST_FRAME ≤ length space.old }
    requires few { length space.old < 2 ^ 32 }
    requires room { length space.old ≤ 21 * vec_capacity places.old + 5 }
    ensures long { length space.new ≡ length space.old }
    ensures room { vec_capacity places.new ≡ vec_capacity places.old }
    ensures some { IfOk result (λ n. (0 < n) × (at + n ≤ end)) }
    ensures repeats { (o : Origin) (ds : List Numbered) (front back : List (List Record)) → IsTrue D.told → o.super ≡ s.now → MayRepeat (table_of record_meaning range_meaning ops.now) o point log.old.gate ds →
        IsRepeating o point ds front back (D.view disk.old) log.old pool.old → at ≡ gate_after 0 front → end ≡ gate_after 0 (front ++ back) →
        IfOk result (λ n. HasRepeated o point ds front back at n (steps.new - steps.old) (D.view disk.new) log.old log.new pool.new) }
    ensures refused { (o : Origin) (ds : List Numbered) (front back : List (List Record)) → IsTrue D.told → o.super ≡ s.now → MayRepeat (table_of record_meaning range_meaning ops.now) o point log.old.gate ds →
        IsRepeating o point ds front back (D.view disk.old) log.old pool.old → at ≡ gate_after 0 front → end ≡ gate_after 0 (front ++ back) →
        IfErr result (λ e. (e ≡ OpenFault.Disk) × HasRisen (D.view disk.old).faults (D.view disk.new).faults) }
    // At each moment, faults included.
    ensures moments { (o : Origin) (ds : List Numbered) (front back : List (List Record)) → IsTrue D.told → o.super ≡ s.now → MayRepeat (table_of record_meaning range_meaning ops.now) o point log.old.gate ds →
        IsRepeating o point ds front back (D.view disk.old) log.old pool.old → at ≡ gate_after 0 front → end ≡ gate_after 0 (front ++ back) →
        LeavesOnly (D.view disk.old) (D.view disk.new) (IsStanding o ds ds point) }
    ensures late { IfErr result (IsPageFault (sizes pool.old)) }
    ensures size { sizes pool.new ≡ sizes pool.old }
    ensures heeded { Heeds is_disk result (D.view disk.old) (D.view disk.new) }
    ensures later { (D.view disk.old).faults ≤ (D.view disk.new).faults }
    ensures more_steps { steps.old ≤ steps.new }
    ensures kept { (D.view disk.old).handed ≤ (D.view disk.new).handed }
    ensures grown { HasGrown log.old log.new (D.view disk.old) (D.view disk.new) }
    ensures empty { length log.old.buffer ≡ 0 → length log.new.buffer ≡ 0 }
{
    let size = match read_stretch(disk, log_area(s), at, end, space) {
        Ok(size) => size,
        Err(fault) => return Err(fault),
    };
    let text = &space[..size];
    if collect(text, s.base + at, s.pages, s.bands, point, places).is_err() {
        return Err(OpenFault::Disk);
    }
    if !pool.can_redo(places) || !are_known(places, text, ops) {
        return Err(OpenFault::Disk);
    }
    match pool.redo(rt, disk, log, text, places, ops, steps) {
        Ok(()) => Ok(size as u64),
        Err(fault) => Err(of_pool(fault)),
    }
}

// Repeats the records of the log from the redo point on, stretch by stretch.
fn replay<R: Threads + Sync, D: Disk, L: Ledger>(
    rt: &R,
    disk: &mut D,
    s: &Super,
    point: Lsn,
    log: &mut Log,
    pool: &mut Pool,
    space: &mut [u8],
    places: &mut Vec<Place>,
    ops: &Ops,
    steps: &mut Steps<L>,
) -> Result<(), OpenFault>
    requires range { IsSuper s.now }
    requires great { GREATEST_FRAME ≤ length space.old }
    requires few { length space.old < 2 ^ 32 }
    requires room { length space.old ≤ 21 * vec_capacity places.old + 5 }
    ensures repeats { (o : Origin) (ds : List Numbered) (frames : List (List Record)) → IsTrue D.told → o.super ≡ s.now → MayRepeat (table_of record_meaning range_meaning ops.now) o point log.old.gate ds →
        IsRepeating o point ds [] frames (D.view disk.old) log.old pool.old → OnOk result ((log.new ≡ log.old) × IsRepeating o point ds frames [] (D.view disk.new) log.new pool.new) }
    ensures steps { (o : Origin) (ds : List Numbered) (frames : List (List Record)) → IsTrue D.told → o.super ≡ s.now → MayRepeat (table_of record_meaning range_meaning ops.now) o point log.old.gate ds →
        IsRepeating o point ds [] frames (D.view disk.old) log.old pool.old → OnOk result (steps.new ≡ steps.old + length (places_in o.super.pages o.super.base point ds)) }
    ensures refused { (o : Origin) (ds : List Numbered) (frames : List (List Record)) → IsTrue D.told → o.super ≡ s.now → MayRepeat (table_of record_meaning range_meaning ops.now) o point log.old.gate ds →
        IsRepeating o point ds [] frames (D.view disk.old) log.old pool.old → IfErr result (λ e. (e ≡ OpenFault.Disk) × HasRisen (D.view disk.old).faults (D.view disk.new).faults) }
    // At each moment, faults included.
    ensures moments { (o : Origin) (ds : List Numbered) (frames : List (List Record)) → IsTrue D.told → o.super ≡ s.now → MayRepeat (table_of record_meaning range_meaning ops.now) o point log.old.gate ds →
        IsRepeating o point ds [] frames (D.view disk.old) log.old pool.old → LeavesOnly (D.view disk.old) (D.view disk.new) (IsStanding o ds ds point) }
    ensures late { IfErr result (IsPageFault (sizes pool.old)) }
    ensures heeded { Heeds is_disk result (D.view disk.old) (D.view disk.new) }
    ensures kept { (D.view disk.old).handed ≤ (D.view disk.new).handed }
    ensures grown { HasGrown log.old log.new (D.view disk.old) (D.view disk.new) }
    ensures empty { length log.old.buffer ≡ 0 → length log.new.buffer ≡ 0 }
{
    let gate = log.durable();
    if gate < s.base || gate > 1 << 63 {
        return Err(OpenFault::Disk);
    }
    let end = gate - s.base;
    let mut at = 0;
    'stretches: while at < end {
        match repeat_stretch(
            rt, disk, s, at, end, point, log, pool, space, places, ops, steps,
        ) {
            Ok(size) => at += size,
            Err(fault) => return Err(fault),
        }
    }
    Ok(())
}

/// Lays the pages of an open batch over, and repeats the records of the log from the redo point on, on
/// the pages and bands that they change. It reads the log in stretches, to the front of `space`, with
/// their places in the list. It takes no memory but what `Pool::redo` does, which repeats pages in threads.
///
/// At each moment of it a crash leaves an image that stands, from the same redo point and for the
/// same records; at its end the engine runs.
pub fn repeat<R: Threads + Sync, D: Disk, L: Ledger>(
    rt: &R,
    disk: &mut D,
    s: &Super,
    point: Lsn,
    log: &mut Log,
    pool: &mut Pool,
    space: &mut [u8],
    places: &mut Vec<Place>,
    ops: &Ops,
    steps: &mut Steps<L>,
) -> Result<(), OpenFault>
    requires range { IsSuper s.now }
    requires great { GREATEST_FRAME ≤ length space.old }
    requires few { length space.old < 2 ^ 32 }
    requires room { length space.old ≤ 21 * vec_capacity places.old + 5 }
    ensures runs { (o : Origin) (ds : List Numbered) → IsTrue D.told → o.super ≡ s.now → IsRepeatable (table_of record_meaning range_meaning ops.now) o point ds (D.view disk.old) log.old pool.old →
        OnOk result (IsEngine o (D.view disk.new) log.new ds [] pool.new) }
    // The redo point is allowed from then on.
    ensures allowed { (o : Origin) (ds : List Numbered) → IsTrue D.told → o.super ≡ s.now → IsRepeatable (table_of record_meaning range_meaning ops.now) o point ds (D.view disk.old) log.old pool.old → point ≤ log.old.gate →
        OnOk result (IsAllowed o (D.view disk.new) log.new pool.new point) }
    // What can be repeated is refused by the disk alone.
    ensures refused { (o : Origin) (ds : List Numbered) → IsTrue D.told → o.super ≡ s.now → IsRepeatable (table_of record_meaning range_meaning ops.now) o point ds (D.view disk.old) log.old pool.old →
        IfErr result (λ e. (e ≡ OpenFault.Disk) × HasRisen (D.view disk.old).faults (D.view disk.new).faults) }
    // It is refused by the disk, or for the header of an open batch or a page.
    ensures late { IfErr result (IsLate D.told s.now.pages (sizes pool.old) (D.view disk.old)) }
    ensures heeded { Heeds is_disk result (D.view disk.old) (D.view disk.new) }
    // Each record from the redo point on that makes a change is one step.
    ensures steps { (o : Origin) (ds : List Numbered) → IsTrue D.told → o.super ≡ s.now → IsRepeatable (table_of record_meaning range_meaning ops.now) o point ds (D.view disk.old) log.old pool.old →
        OnOk result (steps.new ≡ steps.old + length (places_in o.super.pages o.super.base point ds)) }
    // At each moment, faults included.
    ensures moments { (o : Origin) (ds : List Numbered) → IsTrue D.told → o.super ≡ s.now → IsRepeatable (table_of record_meaning range_meaning ops.now) o point ds (D.view disk.old) log.old pool.old →
        LeavesOnly (D.view disk.old) (D.view disk.new) (IsStanding o ds ds point) }
    // The log grows by no more than is handed over.
    ensures kept { (D.view disk.old).handed ≤ (D.view disk.new).handed }
    ensures grown { HasGrown log.old log.new (D.view disk.old) (D.view disk.new) }
    ensures empty { length log.old.buffer ≡ 0 → length log.new.buffer ≡ 0 }
{
    if let Err(fault) = lay_over(disk, s.pages) {
        return Err(of_gate(fault));
    }
    replay(rt, disk, s, point, log, pool, space, places, ops, steps)
}
