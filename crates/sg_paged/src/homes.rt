// Calls that append no record of a transaction.
ghost use Rattle.std.specs.Prelude.{◌≡◌, ◌≤◌, ◌+◌, ℕ, IfErr, OnOk};
ghost use Rattle.sg_checkpoints.specs.Checkpoints.{HasMarked, StaysMarked};
ghost use Rattle.sg_checkpoints.specs.Cutting.{IsCut};
ghost use Rattle.sg_recovery.specs.Log.{tally};
ghost use Rattle.sg_store.specs.Engine.{Keeps, AsMeant, Asked, IsEngine, IsIdle, IsAtRest, IsOldest, IsFirst, Rests, Rested, Counts, IsDiskFault, IsNearEnd};
ghost use Rattle.sg_shown.specs.Shown.{shown};

use crate::resting::{again, quiet};
use sg_actions::{Acts, Engine};
use sg_base::TxnId;
use sg_space::SpaceFault;

/// Makes the log durable and writes all changed pages and bands home.
pub fn flush<E: Engine>(acts: &mut Acts<E>) -> Result<(), SpaceFault>
    requires can { Asked (shown acts.old) IsAtRest }
    ensures counts { Counts IsDiskFault (shown acts.old) (shown acts.new) result }
    ensures means { Keeps (shown acts.old) (shown acts.new) }
    ensures written { OnOk result ((lsn : ℕ) → E.unwritten acts.new.engine lsn → ⊥) }
    ensures marked { OnOk result ((shown acts.old).Told → StaysMarked (E.marked acts.old.engine) (E.marked acts.new.engine) E.ends_at (shown acts.new).disk.now) }
    ensures reads { IfErr result IsDiskFault }
    ensures rests { AsMeant (shown acts.old) (shown acts.new) (λ t g v w. IsEngine t g v
        → IsIdle v → Rests t g v w × OnOk result (Rested t g v w × (w.durable ≡ w.log))) }
{
    acts.flush()
}

/// Makes the log durable, and cuts off of it what neither redo nor undo wants any more, where `oldest` is the
/// live transaction that began first.
pub fn truncate<E: Engine>(acts: &mut Acts<E>, oldest: Option<TxnId>) -> Result<(), SpaceFault>
    requires can { Asked (shown acts.old) (IsFirst oldest) }
    ensures counts { Counts IsDiskFault (shown acts.old) (shown acts.new) result }
    ensures means { Keeps (shown acts.old) (shown acts.new) }
    ensures reads { IfErr result IsDiskFault }
    ensures cuts { OnOk result ((shown acts.old).Told → IsCut (E.unwritten acts.old.engine) oldest (E.last_checkpoint acts.old.engine) (E.is_spent acts.old.engine) (shown acts.old).start (shown acts.new).start (E.first_frame_end acts.new.engine)) }
    ensures rests { AsMeant (shown acts.old) (shown acts.new) (λ t g v w. IsEngine t g v
        → IsIdle v → IsOldest oldest (tally v.log).live → Rests t g v w
        × OnOk result (Rested t g v w × (w.durable ≡ w.log))) }
{
    acts.truncate(oldest)
}

/// Makes the log durable with a record of where its redo has to begin.
pub fn checkpoint<E: Engine>(acts: &mut Acts<E>) -> Result<(), SpaceFault>
    requires can { Asked (shown acts.old) IsAtRest }
    ensures counts { Counts IsDiskFault (shown acts.old) (shown acts.new) result }
    ensures means { Keeps (shown acts.old) (shown acts.new) }
    // what waits, the record's 1,055 bytes at most, and twice what a frame has beside its records
    ensures hands { (shown acts.new).disk.handed ≤ (shown acts.old).disk.handed + E.waiting acts.old.engine + 1067 }
    ensures marks { OnOk result ((shown acts.old).Told → HasMarked (shown acts.old).tail (E.unwritten acts.old.engine) (E.marked acts.new.engine) E.ends_at (shown acts.new).disk.now) }
    ensures log_end { IfErr result (IsNearEnd (shown acts.old).tail) }
    ensures rests { AsMeant (shown acts.old) (shown acts.new) (λ t g v w. IsEngine t g v
        → IsIdle v → Rests t g v w × OnOk result (Rested t g v w × (w.durable ≡ w.log))) }
{
    let who = acts.acting();
    quiet(acts);
    match acts.checkpoint() {
        Ok(()) => {
            again(acts, who);
            Ok(())
        }
        Err(fault) => Err(fault),
    }
}
