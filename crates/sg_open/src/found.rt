// What opening reads of a store.
ghost use Rattle.std.specs.Prelude.{◌≡◌, ◌≢◌, ◌⊎◌, ℕ, List, [], length, IsTrue, IfOk, IfErr};
ghost use Rattle.sg_base.specs.declared.area.Area.TheVariants.{Home};
ghost use Rattle.sg_disk.specs.Heeds.{Heeds};
ghost use Rattle.sg_gate.specs.Superblock.{IsSuper};
ghost use Rattle.sg_ops.specs.Table.{table_of};
ghost use Rattle.sg_record.specs.Records.{Record};
ghost use Rattle.sg_log.specs.Frames.{HasRecords, Numbered};
ghost use Rattle.sg_log.specs.Reads.{OnlyReads};
ghost use Rattle.sg_engine.specs.Effects.{effect_in};
ghost use Rattle.sg_engine.specs.Engine.{Origin};
ghost use Rattle.sg_find.specs.Faults.{is_disk};
ghost use Rattle.sg_find.specs.Stretch.{IsRoom};
ghost use Rattle.sg_find.specs.Synced.{log_area, reads};
ghost use Rattle.sg_analysis.specs.Shown.{IsAnalysed};
ghost use Rattle.sg_open.specs.Refusals.{StoreRefused, IsCause, IsAccepted};
ghost use Rattle.sg_open.specs.Found.{IsSettledAll, Opens, IsFound};

use sg_analysis::Analysis;
use sg_disk::Disk;
use sg_find::{OpenFault, Room, check_log, of_gate, read_log, take_room};
use sg_gate::{Super, read_super};
use sg_log::Log;
use sg_ops::Ops;
use std::alloc::Global;

/// What is read of a store before anything is written.
#[derive(Drop)]
pub struct Found {
    pub geometry: Super,
    pub log: Log,
    pub analysis: Analysis,
    /// The memory into which the log is read again.
    pub room: Room,
}

/// Reads a store: its superblock, its log twice, and asks whether its records may be repeated. It writes
/// nothing.
pub fn find<D: Disk>(alloc: Global, disk: &mut D, ops: &Ops) -> Result<Found, OpenFault>
    ensures range { IfOk result (λ f. IsSuper f.geometry) }
    ensures room { IfOk result (λ f. IsRoom f.room) }
    ensures found { (o : Origin) (tail : ℕ) (ds : List Numbered) → IsTrue D.told → IsSettledAll (D.view disk.old) → Opens o tail ds (D.view disk.old) →
        IfOk result (IsFound (table_of record_meaning range_meaning ops.now) (D.view disk.new) o tail ds) }
    ensures refused { (o : Origin) (tail : ℕ) (ds : List Numbered) → IsTrue D.told → IsSettledAll (D.view disk.old) → Opens o tail ds (D.view disk.old) →
        IfErr result (StoreRefused D.told (table_of record_meaning range_meaning ops.now) o ds (D.view disk.old) (D.view disk.new)) }
    // Of any image: why it is refused, and with which place; and what is true of one that isn't.
    ensures cause { IsTrue D.told → IsSettledAll (D.view disk.old) → IfErr result (IsCause (table_of record_meaning range_meaning ops.now) (reads (D.view disk.old))) }
    ensures accepted { IsTrue D.told → IsSettledAll (D.view disk.old) → IfOk result (λ f. IsAccepted (table_of record_meaning range_meaning ops.now) (reads (D.view disk.old)) f.geometry) }
    // Its log is formed, and the analysis is one of it.
    ensures analysed { IsTrue D.told → IfOk result (λ f. IsAnalysed (reads (D.view disk.old) (log_area f.geometry)) f.geometry.base f.analysis) }
    // Where its log ends is where the frames of the image do.
    ensures ended { IsTrue D.told → IsSettledAll (D.view disk.old) → IfOk result (λ f. (ds : List Numbered) (gate : ℕ) → HasRecords ((D.view disk.old).now (log_area f.geometry)).seen f.geometry.base gate ds → f.log.gate ≡ gate) }
    ensures empty { IfOk result (λ f. length f.log.buffer ≡ 0) }
    // The gates of both superblock slots are closed.
    ensures not_a_store { IsTrue D.told → result ≡ Err OpenFault.NotAStore → ((((D.view disk.old).now Home).seen 0 ≢ 1) × (((D.view disk.old).now Home).seen 4096 ≢ 1)) }
    ensures shut { IsTrue D.told → ((D.view disk.old).now Home).seen 0 ≢ 1 → ((D.view disk.old).now Home).seen 4096 ≢ 1 → (result ≡ Err OpenFault.NotAStore) ⊎ (result ≡ Err OpenFault.Disk) }
    ensures heeded { Heeds is_disk result (D.view disk.old) (D.view disk.new) }
    ensures reads { OnlyReads D.told (D.view disk.old) (D.view disk.new) }
{
    let geometry = match read_super(disk) {
        Ok(geometry) => geometry,
        Err(fault) => return Err(of_gate(fault)),
    };
    let (log, analysis) = match read_log(alloc, disk, &geometry) {
        Ok(read) => read,
        Err(fault) => return Err(fault),
    };
    let mut room = match take_room(alloc) {
        Ok(room) => room,
        Err(fault) => return Err(fault),
    };
    match check_log(
        disk,
        &geometry,
        log.durable(),
        &analysis,
        ops,
        &mut room.text,
    ) {
        Ok(()) => Ok(Found {
            geometry,
            log,
            analysis,
            room,
        }),
        Err(fault) => Err(fault),
    }
}
