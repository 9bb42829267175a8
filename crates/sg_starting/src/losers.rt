// The losers of a log are undone and ended.
ghost use Rattle.std.specs.Prelude.{◌≡◌, ◌≤◌, ◌<◌, ℕ, List, [], ◌∷◌, Option, Some, None, OnOk, IfOk, IfErr};
ghost use Rattle.sg_base.specs.Ends.{HasRisen};
ghost use Rattle.sg_ops.specs.Table.{table_of};
ghost use Rattle.sg_model.specs.Objects.{Objects as Model};
ghost use Rattle.sg_recovery.specs.Log.{Top, tally};
ghost use Rattle.sg_recovery.specs.Claims.{Log};
ghost use Rattle.sg_store.specs.Ground.{IsLawful, setting};
ghost use Rattle.sg_store.specs.Accounting.{AccountsFor};
ghost use Rattle.sg_store.specs.Engine.{Keeps, KeepsBy, AsMeant, AsMeantBy, Asked, AskedBy, IsDiskFault, IsNearEnd};
ghost use Rattle.sg_starting.specs.Starting.{IsStarting, AllStandFor, AreBelow, AreLosers, IsUndone, IsSettled, IsBest, greater, OpeningOver, OpeningWith, OpeningAt, OpeningUndone};

use sg_base::{Lsn, TxnId};
use sg_ops::Ops;
use sg_space::{SpaceFault, UndoNote};
use sg_store::Objects;

/// A transaction, and the number of its last standing note.
#[derive(Clone, Copy)]
pub struct Greatest {
    pub txn: TxnId,
    pub lsn: Lsn,
}

// The greater of what was found so far and of the transaction's next note.
fn greater(best: Option<Greatest>, txn: TxnId, next: Option<Lsn>) -> Option<Greatest>
    ensures { result ≡ greater best txn next }
{
    let lsn = match next {
        Some(lsn) => lsn,
        None => return best,
    };
    match best {
        Some(b) => {
            if b.lsn < lsn {
                Some(Greatest { txn, lsn })
            } else {
                Some(b)
            }
        }
        None => Some(Greatest { txn, lsn }),
    }
}

// The loser with the greatest standing note, and the note's number.
fn find_greatest<E: Objects>(
    engine: &mut E,
    losers: &[TxnId],
) -> Result<Option<Greatest>, SpaceFault>
    requires can { Asked (E.view engine.old) (OpeningOver losers.now) }
    ensures means { Keeps (E.view engine.old) (E.view engine.new) }
    ensures told { (E.view engine.new).Told → (E.view engine.old).Told }
    ensures tells { OnOk result ((E.view engine.old).Told → (E.view engine.new).Told) }
    ensures stands { AsMeant (E.view engine.old) (E.view engine.new) (λ t g v w. (down : Log (setting t g)) (m : Model)
        → IsLawful t g → IsStarting t g v down m → AllStandFor t g v w m) }
    ensures finds { AsMeant (E.view engine.old) (E.view engine.new) (λ t g v w. (down : Log (setting t g)) (m : Model)
        → IsLawful t g → IsStarting t g v down m → IfOk result (λ r. IsStarting t g w down m
        × (w.log ≡ v.log) × IsBest (tally v.log).notes losers.now r)) }
    ensures failed { IfErr result (λ e. IsDiskFault e
        → HasRisen (E.view engine.old).faults (E.view engine.new).faults) }
    ensures log_end { IfErr result (IsNearEnd (E.view engine.new).tail) }
    ensures later { (E.view engine.old).faults ≤ (E.view engine.new).faults }
    ensures tail { (E.view engine.old).tail ≤ (E.view engine.new).tail }
    ensures accounts { AccountsFor IsDiskFault (E.view engine.old) (E.view engine.new) result }
{
    let mut best: Option<Greatest> = None;
    'losers: for txn in losers {
        match engine.next_undo(*txn) {
            Ok(next) => best = greater(best, *txn, next),
            Err(fault) => return Err(fault),
        }
    }
    Ok(best)
}

// Undoes the greatest standing note of all, which is this transaction's.
fn undo_greatest<E: Objects>(
    engine: &mut E,
    ops: &Ops,
    txn: TxnId,
    note: &mut UndoNote,
) -> Result<(), SpaceFault>
    requires can { let t = table_of record_meaning range_meaning ops.now in AskedBy t (E.view engine.old) (OpeningAt txn.0 t) }
    ensures means { KeepsBy (table_of record_meaning range_meaning ops.now) (E.view engine.old) (E.view engine.new) }
    ensures told { (E.view engine.new).Told → (E.view engine.old).Told }
    ensures tells { OnOk result ((E.view engine.old).Told → (E.view engine.new).Told) }
    ensures stands { let t = table_of record_meaning range_meaning ops.now in
        AsMeantBy t (E.view engine.old) (E.view engine.new) (λ g v w. (down : Log (setting t g)) (m : Model) (n : Top g.C g.N) (rest : List (Top g.C g.N))
        → IsLawful t g → IsStarting t g v down m → (tally v.log).notes ≡ n ∷ rest
        → n.transaction ≡ txn.0 → AllStandFor t g v w m) }
    ensures undone { let t = table_of record_meaning range_meaning ops.now in
        AsMeantBy t (E.view engine.old) (E.view engine.new) (λ g v w. (down : Log (setting t g)) (m : Model) (n : Top g.C g.N) (rest : List (Top g.C g.N))
        → IsLawful t g → IsStarting t g v down m → (tally v.log).notes ≡ n ∷ rest
        → n.transaction ≡ txn.0 → OnOk result (IsStarting t g w down m
        × AreBelow n.lsn (tally w.log).notes × ((tally w.log).live ≡ (tally v.log).live))) }
    ensures failed { IfErr result (λ e. IsDiskFault e
        → HasRisen (E.view engine.old).faults (E.view engine.new).faults) }
    ensures log_end { IfErr result (IsNearEnd (E.view engine.new).tail) }
    ensures later { (E.view engine.old).faults ≤ (E.view engine.new).faults }
    ensures tail { (E.view engine.old).tail ≤ (E.view engine.new).tail }
    ensures accounts { AccountsFor IsDiskFault (E.view engine.old) (E.view engine.new) result }
{
    let after = match engine.undo_step(txn, note) {
        Ok(Some(after)) => after,
        Ok(None) => return Err(engine.broken()),
        Err(fault) => return Err(fault),
    };
    match engine.reverse(ops, note) {
        Ok(()) => {}
        Err(fault) => return Err(fault),
    }
    engine.end_undo(txn, after)
}

/// Undoes all that stands of the losers, the greatest note first, whichever loser's it is.
pub fn undo_losers<E: Objects>(
    engine: &mut E,
    ops: &Ops,
    losers: &[TxnId],
    note: &mut UndoNote,
) -> Result<(), SpaceFault>
    requires can { let t = table_of record_meaning range_meaning ops.now in AskedBy t (E.view engine.old) (OpeningWith losers.now t) }
    ensures means { KeepsBy (table_of record_meaning range_meaning ops.now) (E.view engine.old) (E.view engine.new) }
    ensures told { (E.view engine.new).Told → (E.view engine.old).Told }
    ensures tells { OnOk result ((E.view engine.old).Told → (E.view engine.new).Told) }
    ensures stands { let t = table_of record_meaning range_meaning ops.now in
        AsMeantBy t (E.view engine.old) (E.view engine.new) (λ g v w. (down : Log (setting t g)) (m : Model)
        → IsLawful t g → IsStarting t g v down m → AreLosers (tally v.log).live losers.now
        → AllStandFor t g v w m) }
    ensures undone { let t = table_of record_meaning range_meaning ops.now in
        AsMeantBy t (E.view engine.old) (E.view engine.new) (λ g v w. (down : Log (setting t g)) (m : Model)
        → IsLawful t g → IsStarting t g v down m → AreLosers (tally v.log).live losers.now
        → OnOk result (IsStarting t g w down m × IsUndone w × ((tally w.log).live ≡ (tally v.log).live))) }
    ensures failed { IfErr result (λ e. IsDiskFault e
        → HasRisen (E.view engine.old).faults (E.view engine.new).faults) }
    ensures log_end { IfErr result (IsNearEnd (E.view engine.new).tail) }
    ensures later { (E.view engine.old).faults ≤ (E.view engine.new).faults }
    ensures tail { (E.view engine.old).tail ≤ (E.view engine.new).tail }
    ensures accounts { AccountsFor IsDiskFault (E.view engine.old) (E.view engine.new) result }
{
    let mut at = engine.tail();
    'notes: loop {
        let best = match find_greatest(engine, losers) {
            Ok(Some(best)) => best,
            Ok(None) => return Ok(()),
            Err(fault) => return Err(fault),
        };
        if best.lsn >= at {
            return Err(engine.broken());
        }
        match undo_greatest(engine, ops, best.txn, note) {
            Ok(()) => at = best.lsn,
            Err(fault) => return Err(fault),
        }
    }
}

/// Ends the losers, in order of begin, of which nothing is left to undo.
pub fn end_losers<E: Objects>(engine: &mut E, losers: &[TxnId]) -> Result<(), SpaceFault>
    requires can { Asked (E.view engine.old) (OpeningUndone losers.now) }
    ensures means { Keeps (E.view engine.old) (E.view engine.new) }
    ensures told { (E.view engine.new).Told → (E.view engine.old).Told }
    ensures tells { OnOk result ((E.view engine.old).Told → (E.view engine.new).Told) }
    ensures stands { AsMeant (E.view engine.old) (E.view engine.new) (λ t g v w. (down : Log (setting t g)) (m : Model)
        → IsLawful t g → IsStarting t g v down m → IsUndone v → AllStandFor t g v w m) }
    ensures ended { AsMeant (E.view engine.old) (E.view engine.new) (λ t g v w. (down : Log (setting t g)) (m : Model)
        → IsLawful t g → IsStarting t g v down m → IsUndone v → AreLosers (tally v.log).live losers.now
        → OnOk result (IsStarting t g w down m × IsUndone w × ((tally w.log).live ≡ []))) }
    ensures failed { IfErr result (λ e. IsDiskFault e
        → HasRisen (E.view engine.old).faults (E.view engine.new).faults) }
    ensures log_end { IfErr result (IsNearEnd (E.view engine.new).tail) }
    ensures later { (E.view engine.old).faults ≤ (E.view engine.new).faults }
    ensures tail { (E.view engine.old).tail ≤ (E.view engine.new).tail }
    ensures accounts { AccountsFor IsDiskFault (E.view engine.old) (E.view engine.new) result }
{
    'losers: for txn in losers {
        match engine.end(*txn) {
            Ok(()) => {}
            Err(fault) => return Err(fault),
        }
    }
    Ok(())
}

/// Brings the losers of a log that was found to their ends: all that stands of them is undone, the
/// greatest note first, and each is ended.
///
/// Each image of each moment stands for the objects for which the image stood that was found; and at the
/// end a store with no transaction shows a run that begins with these.
pub fn settle_losers<E: Objects>(
    engine: &mut E,
    ops: &Ops,
    losers: &[TxnId],
    note: &mut UndoNote,
) -> Result<(), SpaceFault>
    requires can { let t = table_of record_meaning range_meaning ops.now in AskedBy t (E.view engine.old) (OpeningWith losers.now t) }
    ensures means { KeepsBy (table_of record_meaning range_meaning ops.now) (E.view engine.old) (E.view engine.new) }
    ensures told { (E.view engine.new).Told → (E.view engine.old).Told }
    ensures tells { OnOk result ((E.view engine.old).Told → (E.view engine.new).Told) }
    ensures stands { let t = table_of record_meaning range_meaning ops.now in
        AsMeantBy t (E.view engine.old) (E.view engine.new) (λ g v w. (down : Log (setting t g)) (m : Model)
        → IsLawful t g → IsStarting t g v down m → AreLosers (tally v.log).live losers.now
        → AllStandFor t g v w m) }
    ensures shows { let t = table_of record_meaning range_meaning ops.now in
        AsMeantBy t (E.view engine.old) (E.view engine.new) (λ g v w. (down : Log (setting t g)) (m : Model)
        → IsLawful t g → IsStarting t g v down m → AreLosers (tally v.log).live losers.now
        → OnOk result (IsStarting t g w down m × IsSettled w)) }
    ensures failed { IfErr result (λ e. IsDiskFault e
        → HasRisen (E.view engine.old).faults (E.view engine.new).faults) }
    ensures log_end { IfErr result (IsNearEnd (E.view engine.new).tail) }
    ensures later { (E.view engine.old).faults ≤ (E.view engine.new).faults }
    ensures tail { (E.view engine.old).tail ≤ (E.view engine.new).tail }
    ensures accounts { AccountsFor IsDiskFault (E.view engine.old) (E.view engine.new) result }
{
    match undo_losers(engine, ops, losers, note) {
        Ok(()) => {}
        Err(fault) => return Err(fault),
    }
    end_losers(engine, losers)
}
