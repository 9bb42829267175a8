// Closing a store.
ghost use Rattle.std.specs.Prelude.{◌≡◌, ℕ, List, OnOk};
ghost use Rattle.sg_disk.specs.Disk.{Image, Leaves, LeavesOnly};
ghost use Rattle.sg_find.specs.Synced.{reads};
ghost use Rattle.sg_model.specs.Objects.{Objects as Model};
ghost use Rattle.sg_mount.specs.Opening.{ImageStandsFor};
ghost use Rattle.sg_ops.specs.Table.{Table as Operations};
ghost use Rattle.sg_store.specs.Seen.{IsServed};
ghost use Rattle.stasis.specs.Telling.{TellsObjects, disk_of};

use crate::store::DiskStore;
use sg_disk::Presumed;
use sg_store::Refused;

/// Closes a store, and hands its disk back: makes the log durable with a record of where its redo has to begin, and writes all that was
/// done home, or says why one of these failed. What live transactions did is undone where the store is opened again.
///
/// Also where it fails, and at each moment before its return, a crash leaves the durable objects, and none else; so does the disk that it hands
/// back, which can be opened again.
pub fn close_store<D: Presumed>(store: DiskStore<D>) -> (Result<(), Refused>, D)
    requires serves { IsServed store }
    // each image of each moment stands for the durable objects
    ensures moments { (t : Operations) (live : List ℕ) (objects durable : Model) → TellsObjects t store live objects durable
        → LeavesOnly (disk_of store) (D.view result.1) (λ c. ImageStandsFor t c durable) }
    // and so does each that a crash leaves of the disk that is handed back
    ensures kept { (t : Operations) (live : List ℕ) (objects durable : Model) → TellsObjects t store live objects durable
        → (c : Image) → Leaves (D.view result.1).now c → ImageStandsFor t c durable }
    // and the one that its reads give, from which it is opened again
    ensures opens { (t : Operations) (live : List ℕ) (objects durable : Model) → TellsObjects t store live objects durable
        → ImageStandsFor t (reads (D.view result.1)) durable }
    // where it is done no call of the disk failed
    ensures heeded { OnOk result.0 ((D.view result.1).faults ≡ (disk_of store).faults) }
{
    let (closed, engine) = store.close();
    let disk = engine.into_acts().into_engine().into_disk();
    (closed, disk)
}

/// A law: each image that a crash leaves of an open store's disk stands for the durable objects. It runs no code.
pub fn crash_leaves_durable<D: Presumed>(store: &DiskStore<D>)
    ensures { (t : Operations) (live : List ℕ) (objects durable : Model) → TellsObjects t store.now live objects durable
        → (c : Image) → Leaves (disk_of store.now).now c → ImageStandsFor t c durable }
{
    let _ = store;
}
