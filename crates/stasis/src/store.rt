// Opening the store of a disk.
ghost use Rattle.std.specs.Prelude.{◌≡◌, ◌⊎◌, ◌<◌, [], IfOk, IfErr, MatchResult, IsTrue};
ghost use Rattle.sg_find.specs.Synced.{reads};
ghost use Rattle.sg_model.specs.Objects.{Objects as Model};
ghost use Rattle.sg_mount.specs.Opening.{AreShut, HasOpenedOn, ImageStandsFor, IsHandedBack, StandsAsPresumed, shown_by};
ghost use Rattle.sg_ops.specs.Table.{table_of};
ghost use Rattle.sg_store.specs.Seen.{core_of, Serves};
ghost use Rattle.stasis.specs.Telling.{TellsObjects};

use sg_base::Steps;
use sg_disk::Presumed;
use sg_mount::{MountFault, Unmounted};
use sg_ops::Ops;
use sg_paged::Paged;
use sg_pages::Phys;
use sg_store::Store;
use std::alloc::Global;
use std::marker::Brand;
use std::sync::ledger::{Blank, Ledger};
use std::thread::Threads;

/// The engine of a store on a disk.
pub type DiskEngine<D> = Paged<Phys<D>>;

/// A store on a disk.
pub type DiskStore<D> = Store<DiskEngine<D>>;

// Opens it, and counts its steps for no one.
fn open_with<R: Threads + Sync, D: Presumed, L: Ledger>(
    rt: &R,
    alloc: Global,
    ops: &Ops,
    disk: D,
    blank: Blank,
) -> Result<DiskStore<D>, Unmounted<D>>
    requires name { blank.name ≡ L.name }
    requires parts { blank.parts ≡ L.parts }
    requires some { 0 < L.parts }
    requires stands { StandsAsPresumed (table_of record_meaning range_meaning ops.now) D.told D.presumed (reads (D.view disk)) }
    ensures serves { IfOk result (λ s. Serves (table_of record_meaning range_meaning ops.now) s) }
    ensures opened { IfOk result (λ s. HasOpenedOn (table_of record_meaning range_meaning ops.now) D.told D.presumed (D.view disk) (core_of s) (shown_by s)) }
    ensures refused { IfErr result (λ u. IsHandedBack (table_of record_meaning range_meaning ops.now) D.told D.presumed (D.view disk) (D.view u.disk) u.fault) }
    ensures shut { IsTrue D.told → AreShut (D.view disk) → MatchResult result (λ s. ⊥) (λ u. (u.fault ≡ MountFault.NotAStore) ⊎ (u.fault ≡ MountFault.Disk)) }
{
    let mut steps = Steps::<L>::open(blank);
    sg_mount::open_store(rt, alloc, ops, disk, &mut steps)
}

/// Opens the store of a disk, with the operations that its log needs: what a crash interrupted is repeated, in threads, or undone, and what was
/// dropped is freed.
///
/// Where the disk tells its contents, and what is presumed of it holds, the image that reads give stands for some objects: nothing else
/// is asked, and of `FolderDisk` and `Silent` nothing at all. The store has these objects then. On any other disk opening is safe, returns, and says
/// why it refused. A refusal hands the disk back, as opening left it.
pub fn open_store<R: Threads + Sync, D: Presumed>(
    rt: &R,
    alloc: Global,
    ops: &Ops,
    disk: D,
) -> Result<DiskStore<D>, Unmounted<D>>
    requires stands { StandsAsPresumed (table_of record_meaning range_meaning ops.now) D.told D.presumed (reads (D.view disk)) }
    ensures serves { IfOk result (λ s. Serves (table_of record_meaning range_meaning ops.now) s) }
    ensures opened { IfOk result (λ s. HasOpenedOn (table_of record_meaning range_meaning ops.now) D.told D.presumed (D.view disk) (core_of s) (shown_by s)) }
    // no transaction is live, and its objects are those for which the image stands that was read
    ensures tells { let t = table_of record_meaning range_meaning ops.now in
        IsTrue D.told → D.presumed → (m : Model) → ImageStandsFor t (reads (D.view disk)) m → IfOk result (λ s. TellsObjects t s [] m m) }
    ensures refused { IfErr result (λ u. IsHandedBack (table_of record_meaning range_meaning ops.now) D.told D.presumed (D.view disk) (D.view u.disk) u.fault) }
    // where no store was made it is refused, and for that alone
    ensures shut { IsTrue D.told → AreShut (D.view disk) → MatchResult result (λ s. ⊥) (λ u. (u.fault ≡ MountFault.NotAStore) ⊎ (u.fault ≡ MountFault.Disk)) }
{
    open_with::<R, D, Brand>(rt, alloc, ops, disk, Blank::new(1))
}
