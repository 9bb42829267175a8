// Opening a store of objects on a disk.
ghost use Rattle.std.specs.Prelude.{◌≡◌, ◌⊎◌, ◌+◌, IfOk, IfErr, OnOk, MatchResult, IsTrue};
ghost use Rattle.sg_attach.specs.Repeats.{repeated_in};
ghost use Rattle.sg_find.specs.Synced.{reads};
ghost use Rattle.sg_model.specs.Objects.{Objects as Model};
ghost use Rattle.sg_ops.specs.Table.{table_of};
ghost use Rattle.sg_store.specs.Seen.{core_of, Serves};
ghost use Rattle.sg_mount.specs.Opening.{AreShut, HasOpenedOn, ImageStandsFor, IsFoundOn, IsHandedBack, StandsAsPresumed, of_opening, of_start, opened_by, shown_by};

use crate::fault::{MountFault, Unmounted};
use crate::losers::numbers_of;
use sg_attach::{AttachedStore, attach};
use sg_base::{Area, OutOfMemory, Steps, TxnId};
use sg_disk::Presumed;
use sg_find::OpenFault;
use sg_gate::page_start;
use sg_ops::Ops;
use sg_paged::Paged;
use sg_pages::Phys;
use sg_reopen::Unopened;
use sg_space::SpaceFault;
use sg_starting::{StartFault, Unstarted};
use sg_store::Store;
use std::alloc::Global;
use std::sync::ledger::Ledger;
use std::thread::Threads;

/// A store, before what an action did that has no end is taken off: its engine, and the transactions that go on.
pub struct FoundStore<E> {
    pub engine: E,
    pub losers: Vec<TxnId>,
}

// How a fault of the page engine's opening is answered.
fn of_opening(fault: OpenFault) -> MountFault
    ensures { result ≡ of_opening fault }
{
    match fault {
        OpenFault::Disk => MountFault::Disk,
        OpenFault::Memory => MountFault::Memory,
        OpenFault::NotAStore => MountFault::NotAStore,
        OpenFault::Damaged { area, at } => MountFault::Damaged { area, at },
        OpenFault::UnknownOperation(code) => MountFault::UnknownOperation(code),
    }
}

// How one of the steps behind it is.
fn of_start(why: StartFault) -> MountFault
    ensures { result ≡ of_start why }
{
    match why {
        StartFault::Space(SpaceFault::Disk) => MountFault::Disk,
        StartFault::Space(SpaceFault::LogEnd) => MountFault::LogEnd,
        StartFault::Broken(page) => MountFault::Damaged {
            area: Area::Home,
            at: page_start(page),
        },
        StartFault::Memory => MountFault::Memory,
    }
}

// The disk of pages for which there was not enough memory.
fn unmounted<D: Presumed>(pages: Phys<D>) -> Unmounted<D>
    ensures disk { result.disk ≡ pages.engine.disk }
    ensures fault { result.fault ≡ MountFault.Memory }
{
    Unmounted {
        disk: pages.into_disk(),
        fault: MountFault::Memory,
    }
}

/// Finds the store of a disk: opens its page engine, as one over which actions are done.
///
/// Where the disk tells, and what is presumed of it holds, the image that reads give stands for some
/// objects: nothing else is asked. On any other disk it is safe, returns, and says why it refused. A refusal hands
/// the disk back, as opening left it.
pub fn find_store<R: Threads + Sync, D: Presumed, L: Ledger>(
    rt: &R,
    alloc: Global,
    ops: &Ops,
    disk: D,
    steps: &mut Steps<L>,
) -> Result<FoundStore<Paged<Phys<D>>>, Unmounted<D>>
    requires stands { let t = table_of record_meaning range_meaning ops.now in StandsAsPresumed t D.told D.presumed (reads (D.view disk)) }
    ensures found { let t = table_of record_meaning range_meaning ops.now in IfOk result (λ f. IsFoundOn t D.told D.presumed (D.view disk) f.losers.items (opened_by f.engine)) }
    ensures refused { let t = table_of record_meaning range_meaning ops.now in IfErr result (λ u. IsHandedBack t D.told D.presumed (D.view disk) (D.view u.disk) u.fault) }
    // Each record of the image's log from its redo point on that makes a change is one step.
    ensures repeats { let t = table_of record_meaning range_meaning ops.now in (m : Model) → IsTrue D.told → ImageStandsFor t (reads (D.view disk)) m →
        OnOk result (steps.new ≡ steps.old + repeated_in (reads (D.view disk))) }
    // Where neither gate is open it is refused, and for that alone.
    ensures shut { IsTrue D.told → AreShut (D.view disk) → MatchResult result (λ f. ⊥) (λ u. (u.fault ≡ MountFault.NotAStore) ⊎ (u.fault ≡ MountFault.Disk)) }
{
    match attach(rt, alloc, disk, ops, steps) {
        Ok(
            AttachedStore {
                pages,
                geometry,
                analysis,
            },
        ) => {
            let losers = match numbers_of(alloc, &analysis.losers) {
                Ok(losers) => losers,
                Err(OutOfMemory) => return Err(unmounted(pages)),
            };
            match Paged::found(alloc, pages, geometry.pages, geometry.bands, &analysis) {
                Ok(engine) => Ok(FoundStore { engine, losers }),
                Err(pages) => Err(unmounted(pages)),
            }
        }
        Err(Unopened { disk, fault }) => Err(Unmounted {
            disk,
            fault: of_opening(fault),
        }),
    }
}

/// Opens a store of objects on a disk, as far as its first line may come: history is repeated, what an action did
/// that has no end is taken off, the transactions that went on are undone and ended, and what is buried is
/// freed.
///
/// Where the disk tells, and what is presumed of it holds, the image that reads give stands for some
/// objects: nothing else is asked. The store has these objects then, and each image that a crash leaves,
/// once all areas had been synced, stands for them, also where opening is stopped. On any other disk it is safe,
/// returns, and says why it refused. A refusal hands the disk back, as opening left it.
pub fn open_store<R: Threads + Sync, D: Presumed, L: Ledger>(
    rt: &R,
    alloc: Global,
    ops: &Ops,
    disk: D,
    steps: &mut Steps<L>,
) -> Result<Store<Paged<Phys<D>>>, Unmounted<D>>
    requires stands { let t = table_of record_meaning range_meaning ops.now in StandsAsPresumed t D.told D.presumed (reads (D.view disk)) }
    ensures serves { let t = table_of record_meaning range_meaning ops.now in IfOk result (λ s. Serves t s) }
    ensures opened { let t = table_of record_meaning range_meaning ops.now in IfOk result (λ s. HasOpenedOn t D.told D.presumed (D.view disk) (core_of s) (shown_by s)) }
    ensures refused { let t = table_of record_meaning range_meaning ops.now in IfErr result (λ u. IsHandedBack t D.told D.presumed (D.view disk) (D.view u.disk) u.fault) }
    // Each record of the image's log from its redo point on that makes a change is one step.
    ensures repeats { let t = table_of record_meaning range_meaning ops.now in (m : Model) → IsTrue D.told → ImageStandsFor t (reads (D.view disk)) m →
        OnOk result (steps.new ≡ steps.old + repeated_in (reads (D.view disk))) }
    // Where neither gate is open it is refused, and for that alone.
    ensures shut { IsTrue D.told → AreShut (D.view disk) → MatchResult result (λ s. ⊥) (λ u. (u.fault ≡ MountFault.NotAStore) ⊎ (u.fault ≡ MountFault.Disk)) }
{
    let FoundStore { engine, losers } = match find_store(rt, alloc, ops, disk, steps) {
        Ok(found) => found,
        Err(unmounted) => return Err(unmounted),
    };
    match sg_starting::attach(engine, ops, &losers, alloc) {
        Ok(store) => Ok(store),
        Err(Unstarted { why, engine }) => {
            let disk = engine.into_acts().into_engine().into_disk();
            let fault = of_start(why);
            Err(Unmounted { disk, fault })
        }
    }
}
