// Opening a store as the engine under the actions.
ghost use Rattle.std.specs.Prelude.{◌≡◌, ◌≢◌, ◌≤◌, ◌+◌, ◌⊎◌, ℕ, false, List, IsTrue, IfOk, IfErr, OnOk, MatchResult, option_map};
ghost use Rattle.std.specs.Bool.{OnFalse};
ghost use Rattle.sg_base.specs.declared.area.Area.{Area};
ghost use Rattle.sg_base.specs.declared.area.Area.TheVariants.{Home};
ghost use Rattle.sg_disk.specs.Accounts.{IsShownEnd};
ghost use Rattle.sg_gate.specs.Superblock.{IsSuper};
ghost use Rattle.sg_gate.specs.declared.superblock.Super.{Super as Said};
ghost use Rattle.sg_ops.specs.Table.{table_of};
ghost use Rattle.sg_analysis.specs.Analysis.{losers_of};
ghost use Rattle.sg_recovery.specs.Chains.{next_lsn};
ghost use Rattle.sg_recovery.specs.Formed.{IsLog};
ghost use Rattle.sg_find.specs.Faults.{is_disk};
ghost use Rattle.sg_find.specs.Synced.{reads, IsUnsynced, SplitsAtSync};
ghost use Rattle.sg_open.specs.Refusals.{StoreRefused, IsCause, IsLateCause, IsAccepted, IsUnwrittenAt};
ghost use Rattle.sg_action.specs.States.{State};
ghost use Rattle.sg_actions.specs.Steps.{Steps as Log};
ghost use Rattle.sg_phys_laws.specs.Recovers.{origin_of, records_in, super_in, RecoversBy};
ghost use Rattle.sg_phys_laws.specs.States.{steps_of};
ghost use Rattle.sg_pages.specs.Parts.{seen, stands};
ghost use Rattle.sg_attach.specs.Ended.{end_in};
ghost use Rattle.sg_attach.specs.Attached.{IsStoreImage, IsSomeStoreImage, IsAttaching, IsExtentOf, unfinished_of};
ghost use Rattle.sg_attach.specs.Repeats.{repeated_in};

use sg_analysis::Analysis;
use sg_base::Steps;
use sg_disk::Presumed;
use sg_engine::Engine;
use sg_find::OpenFault;
use sg_gate::Super;
use sg_open::{Opened, open};
use sg_ops::Ops;
use sg_pages::Phys;
use sg_reopen::Unopened;
use std::alloc::Global;
use std::snapshot::Snapshot;
use std::sync::ledger::Ledger;
use std::thread::Threads;

/// What an opening gives: a store's pages and bands with its log, how many there are, and what its log says of
/// transactions.
pub struct AttachedStore<D: Presumed> {
    pub pages: Phys<D>,
    pub geometry: Super,
    pub analysis: Analysis,
}

/// Opens a store as the engine under the actions, and answers what its log says of transactions.
///
/// Where the disk tells, and what is presumed of it holds, an image that opening takes for a store is one by these
/// operations. Nothing else is asked: what `Phys` promises of each image that a crash leaves is that, so any
/// life may follow any other. On any other disk it is safe, and says why it refused. A refusal hands the disk back,
/// as opening left it.
pub fn attach<R: Threads + Sync, D: Presumed, L: Ledger>(
    rt: &R,
    alloc: Global,
    disk: D,
    ops: &Ops,
    steps: &mut Steps<L>,
) -> Result<AttachedStore<D>, Unopened<D>>
    requires found { let t = table_of record_meaning range_meaning ops.now in IsTrue D.told → D.presumed → (s : Said) → IsAccepted t (reads (D.view disk)) s → IsSomeStoreImage t (reads (D.view disk)) }
    ensures whole { IfOk result (λ made. made.pages.failed ≡ false) }
    ensures fresh { IfOk result (λ made. made.pages.breaks ≡ 0) }
    ensures range { IfOk result (λ made. IsSuper made.geometry) }
    ensures accepted { IsTrue D.told → IfOk result (λ made. IsAccepted (table_of record_meaning range_meaning ops.now) (reads (D.view disk)) made.geometry) }
    // It stands for what the image stood for,
    ensures means { let t = table_of record_meaning range_meaning ops.now in (from : State) (durable log : Log) → IsTrue D.told → IsStoreImage t from durable log (reads (D.view disk)) →
        IfOk result (λ made. stands D.told D.presumed D.view made.pages t from) }
    // and where what is presumed of the disk holds, it holds the steps that it held, all of them durable.
    ensures steps { let t = table_of record_meaning range_meaning ops.now in IsTrue D.told → D.presumed →
        IfOk result (λ made. (seen D.told D.presumed D.view made.pages).steps ≡ steps_of (records_in (origin_of t (reads (D.view disk))) (reads (D.view disk)))) }
    ensures durable { let t = table_of record_meaning range_meaning ops.now in IsTrue D.told → D.presumed →
        IfOk result (λ made. (seen D.told D.presumed D.view made.pages).durable ≡ steps_of (records_in (origin_of t (reads (D.view disk))) (reads (D.view disk)))) }
    // These are a formed log, which begins where the superblock says and ends below the tail, and none of which was cut away; and the
    // analysis is one of it.
    ensures base { IfOk result (λ made. (seen D.told D.presumed D.view made.pages).base ≡ (super_in (reads (D.view disk))).base) }
    ensures formed { IsTrue D.told → D.presumed → IfOk result (λ made. IsLog (seen D.told D.presumed D.view made.pages).base (seen D.told D.presumed D.view made.pages).steps) }
    ensures below { IsTrue D.told → D.presumed → IfOk result (λ made. next_lsn (seen D.told D.presumed D.view made.pages).steps ≤ (seen D.told D.presumed D.view made.pages).tail) }
    ensures first_byte { IsTrue D.told → D.presumed → IfOk result (λ made. (seen D.told D.presumed D.view made.pages).base ≡ made.pages.superblock.base) }
    ensures based { IsTrue D.told → D.presumed → IfOk result (λ made. (seen D.told D.presumed D.view made.pages).base ≤ (seen D.told D.presumed D.view made.pages).tail) }
    ensures losers { IsTrue D.told → D.presumed → IfOk result (λ made. made.analysis.losers ≡ losers_of (seen D.told D.presumed D.view made.pages).steps) }
    ensures unfinished { IsTrue D.told → D.presumed → IfOk result (λ made. option_map (λ p. (p.0.0, p.1)) made.analysis.unfinished ≡ unfinished_of (seen D.told D.presumed D.view made.pages).steps) }
    // There are as many pages and bands as its superblock says.
    ensures extent { IsTrue D.told → D.presumed → IfOk result (λ made. IsExtentOf made.geometry (seen D.told D.presumed D.view made.pages).extent) }
    // Such an image is refused only where the disk fails or for want of memory. The other two causes that this clause lets be, damage of its
    // log and an operation that isn't registered, are excluded by `undamaged` and `known`.
    ensures refused { let t = table_of record_meaning range_meaning ops.now in (from : State) (durable log : Log) → IsTrue D.told → IsStoreImage t from durable log (reads (D.view disk)) →
        IfErr result (λ not. ∥ StoreRefused D.told t (origin_of t (reads (D.view disk))) (records_in (origin_of t (reads (D.view disk))) (reads (D.view disk))) (D.view disk) (D.view not.disk) not.fault ∥₁) }
    // It is never refused as damaged.
    ensures undamaged { let t = table_of record_meaning range_meaning ops.now in (log : Log) (x : State) → IsTrue D.told → RecoversBy t (reads (D.view disk)) log x →
        IfErr result (λ not. (area : Area) (at : ℕ) → not.fault ≡ OpenFault.Damaged area at → ⊥) }
    // Nor is it for an operation that isn't registered.
    ensures known { let t = table_of record_meaning range_meaning ops.now in (log : Log) (x : State) → IsTrue D.told → RecoversBy t (reads (D.view disk)) log x →
        IfErr result (λ not. (code : ℕ) → not.fault ≡ OpenFault.UnknownOperation code → ⊥) }
    // Of any image: why it is refused, and with which place.
    ensures cause { IsTrue D.told → IfErr result (λ not. IsCause (table_of record_meaning range_meaning ops.now) (reads (D.view disk)) not.fault ⊎ IsLateCause (reads (D.view disk)) not.fault) }
    ensures not_a_store { IsTrue D.told → IfErr result (λ not. not.fault ≡ OpenFault.NotAStore → (((D.view disk).now Home).seen 0 ≢ 1) × (((D.view disk).now Home).seen 4096 ≢ 1)) }
    ensures shut { IsTrue D.told → ((D.view disk).now Home).seen 0 ≢ 1 → ((D.view disk).now Home).seen 4096 ≢ 1 →
        MatchResult result (λ made. ⊥) (λ not. (not.fault ≡ OpenFault.NotAStore) ⊎ (not.fault ≡ OpenFault.Disk)) }
    ensures unwritten { IfErr result (λ not. IsUnwrittenAt not.fault (D.view disk) (D.view not.disk)) }
    // No fault of the disk is passed over.
    ensures heeded { IfOk result (λ made. (D.view made.pages.engine.disk).faults ≡ (D.view disk).faults) }
    ensures heeded_so { IfErr result (λ not. OnFalse (is_disk not.fault) ((D.view not.disk).faults ≡ (D.view disk).faults)) }
    // No byte is handed over but to the home area: where its log ends is shown by where that of the image did.
    ensures kept { MatchResult result (λ made. (D.view disk).handed ≤ (D.view made.pages.engine.disk).handed) (λ not. (D.view disk).handed ≤ (D.view not.disk).handed) }
    ensures shown { IsTrue D.told → IfOk result (λ made. IsShownEnd (D.view disk) (D.view made.pages.engine.disk) (end_in (reads (D.view disk))) made.pages.engine.log.gate) }
    // History is repeated from the redo point on alone: each record from there on that makes a change is one step.
    ensures repeats { let t = table_of record_meaning range_meaning ops.now in (log : Log) (x : State) → IsTrue D.told → RecoversBy t (reads (D.view disk)) log x →
        OnOk result (steps.new ≡ steps.old + repeated_in (reads (D.view disk))) }
    // At each moment, where it succeeds and where it doesn't: until all areas are synced an image is one that could have been
    // left before, and from then on one of the store that was read. Where the syncs fail nothing else is done.
    ensures attached { let t = table_of record_meaning range_meaning ops.now in IsTrue D.told →
        IfOk result (λ made. SplitsAtSync (D.view disk) (IsAttaching t (D.view disk) (D.view made.pages.engine.disk))) }
    ensures failed { let t = table_of record_meaning range_meaning ops.now in IsTrue D.told →
        IfErr result (λ not. IsUnsynced (D.view disk) (D.view not.disk) ⊎ SplitsAtSync (D.view disk) (IsAttaching t (D.view disk) (D.view not.disk))) }
{
    let found = Snapshot::of(&disk);
    let mut disk = disk;
    ops.laws();
    match open(rt, alloc, &mut disk, ops, steps) {
        Ok(
            Opened {
                geometry,
                log,
                pool,
                analysis,
            },
        ) => {
            let engine = Engine::of_parts(disk, log, pool);
            let pages = Phys::new(alloc, engine, found, geometry, analysis.last_checkpoint);
            Ok(AttachedStore {
                pages,
                geometry,
                analysis,
            })
        }
        Err(fault) => Err(Unopened { disk, fault }),
    }
}
