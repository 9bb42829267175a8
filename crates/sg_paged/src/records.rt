// The records of a transaction that are outside of its actions.
ghost use Rattle.std.specs.Prelude.{◌≡◌, ◌≤◌, ◌<◌, ◌+◌, ℕ, IfOk, IfErr, OnOk};
ghost use Rattle.sg_recovery.specs.Log.Record.{Begin, Save, Commit};
ghost use Rattle.sg_store.specs.Engine.{Keeps, AsMeant, Asked, IsEngine, IsIdle, HasPlace, IsAt, IsMark, MayEnd, Appends, Appended, EndsOne, Counts, IsDiskFault, IsNearEnd};
ghost use Rattle.sg_shown.specs.Shown.{shown};

use crate::resting::quiet;
use sg_actions::{Acts, Engine};
use sg_base::{Lsn, TxnId};
use sg_space::SpaceFault;

/// A transaction begins, whose number is that of its begin record. One that has committed leaves its place for
/// it, also before it ends.
pub fn begin<E: Engine>(acts: &mut Acts<E>) -> Result<TxnId, SpaceFault>
    requires can { Asked (shown acts.old) HasPlace }
    ensures number { IfOk result (λ u. ((shown acts.old).tail ≤ u.0) × (u.0 < (shown acts.new).tail)) }
    ensures counts { Counts IsDiskFault (shown acts.old) (shown acts.new) result }
    ensures means { Keeps (shown acts.old) (shown acts.new) }
    ensures log_end { IfErr result (IsNearEnd (shown acts.old).tail) }
    ensures begins { AsMeant (shown acts.old) (shown acts.new) (λ t g v w. IsEngine t g v → IsIdle v
        → (n : ℕ) × Appends t g v w (record { lsn = n; is = Begin n 0 })
        × IfOk result (λ u. (u.0 ≡ n) × Appended t g v w (record { lsn = n; is = Begin n 0 }))) }
{
    quiet(acts);
    acts.begin()
}

/// Sets a mark of a live transaction, the so many-th of those that it then has, and answers the number of its
/// record. No page and no band changes.
pub fn save<E: Engine>(acts: &mut Acts<E>, txn: TxnId, mark: u16) -> Result<Lsn, SpaceFault>
    requires can { Asked (shown acts.old) (IsAt txn.0) }
    requires mark { IsMark mark }
    ensures counts { Counts IsDiskFault (shown acts.old) (shown acts.new) result }
    ensures means { Keeps (shown acts.old) (shown acts.new) }
    ensures log_end { IfErr result (IsNearEnd (shown acts.old).tail) }
    ensures saves { AsMeant (shown acts.old) (shown acts.new) (λ t g v w. IsEngine t g v → IsIdle v
        → (lsn : ℕ) × (previous : ℕ) × Appends t g v w (record { lsn = lsn; is = Save txn.0 previous mark })
        × IfOk result (λ number. (number ≡ lsn)
        × Appended t g v w (record { lsn = lsn; is = Save txn.0 previous mark }))) }
{
    quiet(acts);
    acts.save(txn, mark)
}

/// Commits a live transaction, and makes the log durable. Its place is free for another one then.
pub fn commit<E: Engine>(acts: &mut Acts<E>, txn: TxnId) -> Result<(), SpaceFault>
    requires can { Asked (shown acts.old) (IsAt txn.0) }
    ensures counts { Counts IsDiskFault (shown acts.old) (shown acts.new) result }
    ensures hands { (shown acts.new).disk.handed ≤ (shown acts.old).disk.handed + E.waiting acts.old.engine + 33 }
    ensures none_waits { OnOk result (E.waiting acts.new.engine ≡ 0) }
    ensures means { Keeps (shown acts.old) (shown acts.new) }
    ensures log_end { IfErr result (IsNearEnd (shown acts.old).tail) }
    ensures commits { AsMeant (shown acts.old) (shown acts.new) (λ t g v w. IsEngine t g v
        → IsIdle v → (lsn : ℕ) × (previous : ℕ)
        × Appends t g v w (record { lsn = lsn; is = Commit txn.0 previous })
        × OnOk result (Appended t g v w (record { lsn = lsn; is = Commit txn.0 previous })
        × (w.durable ≡ w.log))) }
{
    quiet(acts);
    match acts.commit(txn) {
        Ok(()) => {
            acts.leave(txn);
            Ok(())
        }
        Err(fault) => Err(fault),
    }
}

/// A transaction has ended that goes on, or has committed. It is neither live nor a loser any more. Of one
/// without a row, which had committed when an opening found it, nothing is appended.
pub fn end<E: Engine>(acts: &mut Acts<E>, txn: TxnId) -> Result<(), SpaceFault>
    requires can { Asked (shown acts.old) (MayEnd txn.0) }
    ensures counts { Counts IsDiskFault (shown acts.old) (shown acts.new) result }
    ensures hands { (shown acts.new).disk.handed ≤ (shown acts.old).disk.handed + E.waiting acts.old.engine + 6 }
    ensures means { Keeps (shown acts.old) (shown acts.new) }
    ensures log_end { IfErr result (IsNearEnd (shown acts.old).tail) }
    ensures ends { AsMeant (shown acts.old) (shown acts.new) (λ t g v w. IsEngine t g v
        → IsIdle v → EndsOne t g txn.0 v w result) }
{
    if !acts.has_row(txn) {
        return Ok(());
    }
    quiet(acts);
    acts.end(txn)
}
