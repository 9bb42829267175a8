// All steps behind the page engine's opening.
ghost use Rattle.std.specs.Prelude.{◌≡◌, ◌≤◌, ℕ, List, [], Some, None, Ok, Err, OnOk, IfOk, IfErr};
ghost use Rattle.sg_base.specs.Ends.{HasRisen};
ghost use Rattle.sg_ops.specs.Table.{table_of};
ghost use Rattle.sg_model.specs.Objects.{Objects as Model};
ghost use Rattle.sg_recovery.specs.Log.{tally};
ghost use Rattle.sg_recovery.specs.Claims.{Log};
ghost use Rattle.sg_recovery.specs.Stands.{made, settled};
ghost use Rattle.sg_run.specs.Run.{start};
ghost use Rattle.sg_store.specs.Ground.{IsLawful, setting};
ghost use Rattle.sg_store.specs.Accounting.{AccountsFor};
ghost use Rattle.sg_store.specs.Engine.{KeepsBy, AsMeantBy, AskedBy, Counts, IsDiskFault, IsNearEnd};
ghost use Rattle.sg_store.specs.Store.{Shows};
ghost use Rattle.sg_starting.specs.Starting.{IsStarting, AllStandFor, AreLosers, IsSettled, IsFound, CanResume, IsRead, TakesOff, TakenOff, HasFreed, AreBuried, BeginsStock, OpeningWith, OpeningSettled, IsStartDisk, IsStartEnd, IfBroken};

use crate::losers::settle_losers;
use sg_base::{PageNo, TxnId};
use sg_ops::Ops;
use sg_space::{SpaceFault, UndoNote};
use sg_store::Objects;

/// Why a store wasn't brought to its first line.
#[derive(Clone, Copy, Debug, PartialEq, Eq)]
pub enum StartFault {
    /// A call of the engine failed.
    Space(SpaceFault),
    /// The pages don't read as objects: this one is wrong, or it names what can't be.
    Broken(PageNo),
    /// Memory was refused, once all was undone that had to be. Or the log begins within an action of the system, which
    /// no store leaves: nothing is undone then.
    Memory,
}

/// The engine, handed back, and why.
pub struct Unstarted<E> {
    pub why: StartFault,
    pub engine: E,
}

/// What opening asks of an engine with objects besides.
pub trait Reopens: Objects {
    /// Takes off what an action did that has no end, goes over all that the objects reach, and counts
    /// then what is free. `Broken` where the pages don't read as objects then.
    fn resume(self, ops: &Ops) -> Result<Self, Unstarted<Self>>
        requires can { let t = table_of record_meaning range_meaning ops.now in AskedBy t (Self.opened self) (CanResume t) }
        ensures done { IfOk result (λ e. Counts IsStartDisk (Self.opened self) (Self.view e) (Ok e)) }
        ensures failed { IfErr result (λ u. Counts {T = Self} IsStartDisk (Self.opened self) (Self.view u.engine) (Err u.why)) }
        ensures means { IfOk result (λ e. KeepsBy (table_of record_meaning range_meaning ops.now) (Self.opened self) (Self.view e)) }
        ensures log_end { IfErr result (λ u. IsStartEnd (Self.view u.engine).tail u.why) }
        ensures takes { let t = table_of record_meaning range_meaning ops.now in
            IfOk result (λ e. AsMeantBy t (Self.opened self) (Self.view e) (λ g v w. IsFound t g v
            → (c : TakesOff t g v w) × TakenOff t g v w c.made)) }
        ensures refused { let t = table_of record_meaning range_meaning ops.now in
            IfErr result (λ u. AsMeantBy t (Self.opened self) (Self.view u.engine) (λ g v w. IsFound t g v
            → TakesOff t g v w)) }
        // It is done only where the pages read as objects, and a page is broken only where they don't.
        ensures reads { let t = table_of record_meaning range_meaning ops.now in
            IfOk result (λ e. AsMeantBy t (Self.opened self) (Self.view e) (λ g v w. IsFound t g v
            → (o : g.O) × IsRead t g v o)) }
        ensures broken { let t = table_of record_meaning range_meaning ops.now in
            IfErr result (λ u. IfBroken u.why (AsMeantBy t (Self.opened self) (Self.view u.engine) (λ g v w. IsFound t g v
            → (o : g.O) → IsRead t g v o → ⊥))) };
}

// Frees something that is buried; `false` where nothing is.
fn free_one<E: Reopens>(engine: &mut E, ops: &Ops, note: &mut UndoNote) -> Result<bool, SpaceFault>
    requires can { let t = table_of record_meaning range_meaning ops.now in AskedBy t (E.view engine.old) (OpeningSettled t) }
    ensures means { KeepsBy (table_of record_meaning range_meaning ops.now) (E.view engine.old) (E.view engine.new) }
    ensures told { (E.view engine.new).Told → (E.view engine.old).Told }
    ensures tells { OnOk result ((E.view engine.old).Told → (E.view engine.new).Told) }
    ensures stands { let t = table_of record_meaning range_meaning ops.now in
        AsMeantBy t (E.view engine.old) (E.view engine.new) (λ g v w. (down : Log (setting t g)) (m : Model)
        → IsLawful t g → IsStarting t g v down m → IsSettled v → AllStandFor t g v w m) }
    ensures frees { let t = table_of record_meaning range_meaning ops.now in
        AsMeantBy t (E.view engine.old) (E.view engine.new) (λ g v w. (down : Log (setting t g)) (m : Model)
        → IsLawful t g → IsStarting t g v down m → IsSettled v → IfOk result (λ b. IsStarting t g w down m
        × IsSettled w × HasFreed t g v w b)) }
    ensures failed { IfErr result (λ e. IsDiskFault e
        → HasRisen (E.view engine.old).faults (E.view engine.new).faults) }
    ensures log_end { IfErr result (IsNearEnd (E.view engine.new).tail) }
    ensures later { (E.view engine.old).faults ≤ (E.view engine.new).faults }
    ensures tail { (E.view engine.old).tail ≤ (E.view engine.new).tail }
    ensures accounts { AccountsFor IsDiskFault (E.view engine.old) (E.view engine.new) result }
{
    engine.act(TxnId(0));
    match engine.free_next(ops, None, note) {
        Ok(true) => {}
        Ok(false) => return Ok(false),
        Err(fault) => return Err(fault),
    }
    match engine.end_action(TxnId(0), note) {
        Ok(()) => Ok(true),
        Err(fault) => Err(fault),
    }
}

// Frees all that is buried. Each thing that is freed is in the log, whose tail can't rise for ever.
fn free_all<E: Reopens>(engine: &mut E, ops: &Ops, note: &mut UndoNote) -> Result<(), SpaceFault>
    requires can { let t = table_of record_meaning range_meaning ops.now in AskedBy t (E.view engine.old) (OpeningSettled t) }
    ensures means { KeepsBy (table_of record_meaning range_meaning ops.now) (E.view engine.old) (E.view engine.new) }
    ensures told { (E.view engine.new).Told → (E.view engine.old).Told }
    ensures tells { OnOk result ((E.view engine.old).Told → (E.view engine.new).Told) }
    ensures stands { let t = table_of record_meaning range_meaning ops.now in
        AsMeantBy t (E.view engine.old) (E.view engine.new) (λ g v w. (down : Log (setting t g)) (m : Model)
        → IsLawful t g → IsStarting t g v down m → IsSettled v → AllStandFor t g v w m) }
    ensures frees { let t = table_of record_meaning range_meaning ops.now in
        AsMeantBy t (E.view engine.old) (E.view engine.new) (λ g v w. (down : Log (setting t g)) (m : Model)
        → IsLawful t g → IsStarting t g v down m → IsSettled v
        → OnOk result (IsStarting t g w down m × IsSettled w × AreBuried t g w 0)) }
    ensures failed { IfErr result (λ e. IsDiskFault e
        → HasRisen (E.view engine.old).faults (E.view engine.new).faults) }
    ensures log_end { IfErr result (IsNearEnd (E.view engine.new).tail) }
    ensures later { (E.view engine.old).faults ≤ (E.view engine.new).faults }
    ensures tail { (E.view engine.old).tail ≤ (E.view engine.new).tail }
    ensures accounts { AccountsFor IsDiskFault (E.view engine.old) (E.view engine.new) result }
{
    let start = engine.tail();
    let mut left = u64::MAX - start;
    'buried: loop {
        match free_one(engine, ops, note) {
            Ok(true) => {}
            Ok(false) => return Ok(()),
            Err(fault) => return Err(fault),
        }
        let end = engine.tail();
        let now = u64::MAX - end;
        if now >= left {
            return Err(engine.broken());
        }
        left = now;
    }
}

/// Brings a store, of which no action is without an end, to where its first line may come: the losers are
/// undone, the greatest note first, and ended, and what is buried is freed.
///
/// Each image of each moment stands for the objects for which the log stood that was found; and at the
/// end a store with no transaction shows a run that begins with these.
pub fn start_store<E: Reopens>(
    engine: &mut E,
    ops: &Ops,
    losers: &[TxnId],
    note: &mut UndoNote,
) -> Result<(), SpaceFault>
    requires can { let t = table_of record_meaning range_meaning ops.now in AskedBy t (E.view engine.old) (OpeningWith losers.now t) }
    ensures means { KeepsBy (table_of record_meaning range_meaning ops.now) (E.view engine.old) (E.view engine.new) }
    ensures told { (E.view engine.new).Told → (E.view engine.old).Told }
    ensures tells { OnOk result ((E.view engine.old).Told → (E.view engine.new).Told) }
    ensures stands { let t = table_of record_meaning range_meaning ops.now in
        AsMeantBy t (E.view engine.old) (E.view engine.new) (λ g v w. (down : Log (setting t g)) (m : Model)
        → IsLawful t g → IsStarting t g v down m → AreLosers (tally v.log).live losers.now
        → AllStandFor t g v w m) }
    ensures shows { let t = table_of record_meaning range_meaning ops.now in
        AsMeantBy t (E.view engine.old) (E.view engine.new) (λ g v w. (down : Log (setting t g)) (m : Model)
        → IsLawful t g → IsStarting t g v down m → AreLosers (tally v.log).live losers.now
        → OnOk result (Shows t g w (record { live = []; held = []; stopped = None }) (start m)
        × AreBuried t g w 0)) }
    // The stock that it shows is what the undoing leaves of the one that was found.
    ensures stock { let t = table_of record_meaning range_meaning ops.now in
        AsMeantBy t (E.view engine.old) (E.view engine.new) (λ g v w. (down : Log (setting t g)) (m : Model) (o : g.O)
        → IsLawful t g → IsStarting t g v down m → AreLosers (tally v.log).live losers.now
        → settled (setting t g) (tally down).opened (made (setting t g) v.first down) ≡ Some o
        → OnOk result (BeginsStock t g o (tally down).notes w)) }
    ensures failed { IfErr result (λ e. IsDiskFault e
        → HasRisen (E.view engine.old).faults (E.view engine.new).faults) }
    ensures log_end { IfErr result (IsNearEnd (E.view engine.new).tail) }
    ensures later { (E.view engine.old).faults ≤ (E.view engine.new).faults }
    ensures tail { (E.view engine.old).tail ≤ (E.view engine.new).tail }
    ensures accounts { AccountsFor IsDiskFault (E.view engine.old) (E.view engine.new) result }
{
    match settle_losers(engine, ops, losers, note) {
        Ok(()) => {}
        Err(fault) => return Err(fault),
    }
    free_all(engine, ops, note)
}
