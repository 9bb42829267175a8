// The store over pages, as an engine that can be opened.
ghost use Rattle.std.specs.Prelude.{◌≡◌, ◌<◌, IfOk, IfErr};
ghost use Rattle.sg_geometry.specs.Fit.{super_of};
ghost use Rattle.sg_making.specs.Making.{super_of as super_made};
ghost use Rattle.sg_mount.specs.Opening.{HasOpenedOn, IsHandedBack, shown_by};
ghost use Rattle.sg_ops.specs.Table.{table_of};
ghost use Rattle.sg_store.specs.Seen.{core_of, Serves};
ghost use Rattle.sg_commands.specs.Images.{IsPresumed};
ghost use Rattle.sg_commands.specs.Opening.{IsOpened, StaysShut};
ghost use Rattle.sg_commands.specs.Stores.{grounds, says, refused_for, making_refused_for};

use crate::opens::{InitRefused, OpenRefused, Opens, Unopened};
use sg_base::Steps;
use sg_disk::Presumed;
use sg_geometry::Geometry;
use sg_making::{Geometry as Numbers, InitFault};
use sg_mount::{MountFault, Unmounted, init_store, open_store};
use sg_ops::Ops;
use sg_paged::Paged;
use sg_pages::Phys;
use sg_store::Store;
use std::alloc::Global;
use std::marker::Brand;
use std::sync::ledger::{Blank, Ledger};
use std::thread::Threads;

// Why a store isn't opened, in the program's words.
fn refused(fault: MountFault) -> OpenRefused
    ensures { result ≡ refused_for fault }
{
    match fault {
        MountFault::Disk => OpenRefused::DiskFault,
        MountFault::Memory => OpenRefused::Memory,
        MountFault::LogEnd => OpenRefused::LogEnd,
        MountFault::NotAStore => OpenRefused::NotAStore,
        MountFault::Damaged { area, at } => OpenRefused::Damaged { area, at },
        MountFault::UnknownOperation(code) => OpenRefused::UnknownOperation(code),
    }
}

// Why no store is made, in the program's words. Its sizes are in their ranges.
fn not_made(fault: InitFault) -> InitRefused
    ensures { result ≡ making_refused_for fault }
{
    match fault {
        InitFault::Exists => InitRefused::Exists,
        InitFault::Disk | InitFault::BadGeometry => InitRefused::DiskFault,
    }
}

// Opens a store, and counts its steps for no one.
fn open_with<R: Threads + Sync, D: Presumed, L: Ledger>(
    rt: &R,
    alloc: Global,
    ops: &Ops,
    disk: D,
    blank: Blank,
) -> Result<Store<Paged<Phys<D>>>, Unmounted<D>>
    requires name { blank.name ≡ L.name }
    requires parts { blank.parts ≡ L.parts }
    requires some { 0 < L.parts }
    requires presumed { IsPresumed grounds says (table_of record_meaning range_meaning ops.now) D.told D.presumed (D.view disk) }
    ensures serves { IfOk result (λ s. Serves (table_of record_meaning range_meaning ops.now) s) }
    ensures opened { IfOk result (λ s. HasOpenedOn (table_of record_meaning range_meaning ops.now) D.told D.presumed (D.view disk) (core_of s) (shown_by s)) }
    ensures refused { IfErr result (λ u. IsHandedBack (table_of record_meaning range_meaning ops.now) D.told D.presumed (D.view disk) (D.view u.disk) u.fault) }
{
    let mut steps = Steps::<L>::open(blank);
    open_store(rt, alloc, ops, disk, &mut steps)
}

// Opens a store, and tells why one isn't in the program's words.
fn open_pages<R: Threads + Sync, D: Presumed>(
    rt: &R,
    alloc: Global,
    ops: &Ops,
    disk: D,
) -> Result<Store<Paged<Phys<D>>>, Unopened<D>>
    requires presumed { IsPresumed grounds says (table_of record_meaning range_meaning ops.now) D.told D.presumed (D.view disk) }
    ensures serves { IfOk result (λ s. Serves (table_of record_meaning range_meaning ops.now) s) }
    ensures opens { IfOk result (λ s. IsOpened grounds says (table_of record_meaning range_meaning ops.now) D.told D.presumed (D.view disk) (shown_by s) (core_of s)) }
    ensures refused { IfErr result (λ u. StaysShut grounds says (table_of record_meaning range_meaning ops.now) D.told D.presumed (D.view disk) (D.view u.disk) u.why) }
{
    match open_with::<R, D, Brand>(rt, alloc, ops, disk, Blank::new(1)) {
        Ok(store) => Ok(store),
        Err(Unmounted { disk, fault }) => {
            let why = refused(fault);
            Err(Unopened { why, disk })
        }
    }
}

// The numbers that a store of these sizes is made with.
fn numbers(sizes: &Geometry) -> Numbers
    ensures { super_made result ≡ super_of sizes.now }
{
    Numbers {
        pages: sizes.pages,
        bands: sizes.bands,
        frames: sizes.frames,
        windows: sizes.windows,
    }
}

impl<D: Presumed> Opens<D> for Paged<Phys<D>> {
    ghost use Rattle.sg_ground.proofs.Collections.{one_collection};
    ghost use Rattle.sg_making.proofs.Made.{blank_none};
    ghost use Rattle.sg_mount.proofs.Standing.{has_sizes, one_log_sized};
    ghost use Rattle.sg_mount.specs.Opening.{sizes_in};
    ghost use Rattle.sg_phys_laws.specs.Recovers.{RecoversBy};
    ghost use Rattle.sg_shown.specs.Shown.{basis_at};

    ghost says = { says };

    ghost bare = { λ g c blank. blank_none (super_of g) c blank };

    ghost sized = { λ t z c m h. has_sizes t z c h.log h.pages h.recovers };

    ghost checkpointed = { λ c lsn estimate ends. (lsn, estimate, ends) };

    ghost one = { λ t c m other h k. one_collection (basis_at RecoversBy (sizes_in c)) (one_log_sized (sizes_in c)) t c m other h k };

    fn open<R: Threads + Sync>(
        rt: &R,
        alloc: Global,
        ops: &Ops,
        disk: D,
    ) -> Result<Store<Self>, Unopened<D>> {
        open_pages(rt, alloc, ops, disk)
    }

    fn into_disk(self) -> D {
        self.into_acts().into_engine().into_disk()
    }

    fn init(disk: &mut D, sizes: &Geometry) -> Result<(), InitRefused> {
        match init_store(disk, &numbers(sizes)) {
            Ok(()) => Ok(()),
            Err(fault) => Err(not_made(fault)),
        }
    }
}
