// A store over an engine that is being opened.
ghost use Rattle.std.specs.Prelude.{◌≡◌, ◌≤◌, ◌+◌, [], None, Err, IfOk, IfErr};
ghost use Rattle.sg_ops.specs.Table.{table_of};
ghost use Rattle.sg_model.specs.Objects.{Objects as Model};
ghost use Rattle.sg_recovery.specs.Log.{tally};
ghost use Rattle.sg_recovery.specs.Stands.{StandsFor as LogStands};
ghost use Rattle.sg_store.specs.Ground.{IsLawful, setting};
ghost use Rattle.sg_store.specs.Accounting.{AccountsFor, Unfailed};
ghost use Rattle.sg_store.specs.Engine.{AsMeantBy, AskedBy, KeepsBy};
ghost use Rattle.sg_run.specs.Run.{start};
ghost use Rattle.sg_store.specs.Rests.{HasObjects};
ghost use Rattle.sg_store.specs.Seen.{core_of, Serves};
ghost use Rattle.sg_store.specs.Store.{Shows};
ghost use Rattle.sg_base.specs.Ends.{HasRisen};
ghost use Rattle.sg_starting.specs.Starting.{AllStandFor, AreBuried, AreLosers, IsFound, IsOpenedWith, IsRead, BeginsStock, IsUnread, AreEnded, AppendsNothing, ComesToOne, StandsForNone, IsStartDisk, IsStartEnd, IfBroken};

use crate::opening::{Reopens, StartFault, Unstarted, start_store};
use sg_base::TxnId;
use sg_ops::Ops;
use sg_space::UndoNote;
use sg_store::Store;
use std::alloc::Global;

/// Brings an engine that the page engine has opened to where its first line may come, and makes the store
/// over it, in which no transaction is live.
///
/// Its objects are those for which the image stood that was found, and each image of each moment stands
/// for these. After an error the engine is handed back, and opening may begin again. A page is broken only
/// where what was found doesn't read as objects, so that its log stands for none.
pub fn attach<E: Reopens>(
    engine: E,
    ops: &Ops,
    losers: &[TxnId],
    alloc: Global,
) -> Result<Store<E>, Unstarted<E>>
    requires can { let t = table_of record_meaning range_meaning ops.now in AskedBy t (E.opened engine) (IsOpenedWith losers.now t) }
    // What its records mean, and whether it tells, is as before,
    ensures means { IfOk result (λ s. KeepsBy (table_of record_meaning range_meaning ops.now) (E.opened engine) (E.view s.engine)) }
    ensures tells { IfOk result (λ s. (E.opened engine).Told → (E.view s.engine).Told) }
    ensures serves { let t = table_of record_meaning range_meaning ops.now in IfOk result (λ s. Serves t s) }
    ensures has { let t = table_of record_meaning range_meaning ops.now in
        IfOk result (λ s. AsMeantBy t (E.opened engine) (E.view s.engine) (λ g v w. (m : Model)
        → IsLawful t g → IsFound t g v → LogStands (setting t g) v.first v.log m
        → AreLosers (tally v.log).live losers.now → HasObjects [] m m (core_of s) t g w)) }
    // The run that it shows begins with them, and nothing is buried.
    ensures core { IfOk result (λ s. core_of s ≡ record { live = []; held = []; stopped = None }) }
    ensures shows { let t = table_of record_meaning range_meaning ops.now in
        IfOk result (λ s. AsMeantBy t (E.opened engine) (E.view s.engine) (λ g v w. (m : Model)
        → IsLawful t g → IsFound t g v → LogStands (setting t g) v.first v.log m
        → AreLosers (tally v.log).live losers.now → Shows t g w (core_of s) (start m) × AreBuried t g w 0)) }
    // Its stock is what the image has, with what the losers did undone.
    ensures stock { let t = table_of record_meaning range_meaning ops.now in
        IfOk result (λ s. AsMeantBy t (E.opened engine) (E.view s.engine) (λ g v w. (m : Model)
        → IsLawful t g → IsFound t g v → LogStands (setting t g) v.first v.log m
        → AreLosers (tally v.log).live losers.now → (o : g.O) → IsRead t g v o → BeginsStock t g o (tally v.log).notes w)) }
    ensures stands { let t = table_of record_meaning range_meaning ops.now in
        IfOk result (λ s. AsMeantBy t (E.opened engine) (E.view s.engine) (λ g v w. (m : Model)
        → IsLawful t g → IsFound t g v → LogStands (setting t g) v.first v.log m
        → AreLosers (tally v.log).live losers.now → AllStandFor t g v w m)) }
    ensures refused { let t = table_of record_meaning range_meaning ops.now in
        IfErr result (λ u. AsMeantBy t (E.opened engine) (E.view u.engine) (λ g v w. (m : Model)
        → IsLawful t g → IsFound t g v → LogStands (setting t g) v.first v.log m
        → AreLosers (tally v.log).live losers.now → AllStandFor t g v w m)) }
    // There is a store only where the pages read as objects,
    ensures reads { let t = table_of record_meaning range_meaning ops.now in
        IfOk result (λ s. AsMeantBy t (E.opened engine) (E.view s.engine) (λ g v w. IsFound t g v
        → (o : g.O) × IsRead t g v o)) }
    // and a page is broken only where they don't: no image stands for any then that comes to one log and one state.
    ensures broken { let t = table_of record_meaning range_meaning ops.now in
        IfErr result (λ u. IfBroken u.why (AsMeantBy t (E.opened engine) (E.view u.engine) (λ g v w. IsFound t g v
        → IsUnread t g v))) }
    ensures none { let t = table_of record_meaning range_meaning ops.now in
        IfErr result (λ u. IfBroken u.why (AsMeantBy t (E.opened engine) (E.view u.engine) (λ g v w. IsFound t g v
        → ComesToOne t g → StandsForNone t g v))) }
    // Where no action is without an end nothing is appended then.
    ensures quiet { let t = table_of record_meaning range_meaning ops.now in
        IfErr result (λ u. IfBroken u.why (AsMeantBy t (E.opened engine) (E.view u.engine) (λ g v w. IsFound t g v
        → AreEnded v.log → AppendsNothing t g v w))) }
    ensures failed { IfErr result (λ u. IsStartDisk u.why → HasRisen (E.opened engine).faults (E.view u.engine).faults) }
    ensures log_end { IfErr result (λ u. IsStartEnd (E.view u.engine).tail u.why) }
    ensures waits { IfErr result (λ u. (E.view u.engine).tail ≤ (E.view u.engine).gate + 65541) }
    // The disk counts no fault, unless the answer is that it failed; and where the engine tells it did.
    ensures unfailed { IfOk result (λ s. Unfailed (E.opened engine) (E.view s.engine)) }
    ensures accounts { IfErr result (λ u. AccountsFor {T = E} IsStartDisk (E.opened engine) (E.view u.engine) (Err u.why)) }
{
    let mut engine = match engine.resume(ops) {
        Ok(engine) => engine,
        Err(unstarted) => return Err(unstarted),
    };
    let mut note = UndoNote::new();
    match start_store(&mut engine, ops, losers, &mut note) {
        Ok(()) => {}
        Err(fault) => {
            let why = StartFault::Space(fault);
            return Err(Unstarted { why, engine });
        }
    }
    match Store::new(engine, alloc) {
        Ok(store) => Ok(store),
        Err(engine) => {
            let why = StartFault::Memory;
            Err(Unstarted { why, engine })
        }
    }
}
