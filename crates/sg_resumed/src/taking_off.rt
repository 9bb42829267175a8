// Where the take-off goes on of an action without an end.
ghost use Rattle.std.specs.Prelude.{◌≡◌, ◌≤◌, ℕ, IfOk};
ghost use Rattle.sg_base.specs.Ends.{HasRisen};
ghost use Rattle.sg_ops.specs.Table.{Table};
ghost use Rattle.sg_recovery.specs.Chains.{last_of};
ghost use Rattle.sg_recovery.specs.Formed.{IsLog, IsUnfinished};
ghost use Rattle.sg_action.specs.States.{State};
ghost use Rattle.sg_actions.specs.WentOff.{OffCounts};
ghost use Rattle.sg_unread.specs.Unread.{LooksOn};
ghost use Rattle.sg_found.specs.Found.{IsOpenAt};

use sg_actions::{Actor, Engine};
use sg_base::Lsn;
use sg_found::find_action;
use sg_space::SpaceFault;

// One more break is counted.
fn count_break(breaks: &mut u64) -> SpaceFault
    ensures answer { result ≡ SpaceFault.Disk }
    ensures risen { HasRisen breaks.old breaks.new }
    ensures later { breaks.old ≤ breaks.new }
{
    *breaks = breaks.saturating_add(1);
    SpaceFault::Disk
}

/// Finds where the take-off goes on of an action that has no end, and keeps the record before the action. A
/// break is counted where its changes aren't in the log.
pub fn find_in<E: Engine>(
    engine: &mut E,
    breaks: &mut u64,
    actor: &mut Actor,
) -> Result<Lsn, SpaceFault>
    requires formed { (E.view engine.old).Told → IsLog (E.view engine.old).base (E.view engine.old).steps }
    requires unfinished { (E.view engine.old).Told → IsUnfinished (E.view engine.old).steps actor.old.txn.0 }
    requires last { (E.view engine.old).Told → actor.old.last ≡ last_of actor.old.txn.0 (E.view engine.old).steps }
    requires start { (E.view engine.old).Told → (E.view engine.old).base ≡ E.first_byte engine.old }
    ensures looks { (t : Table) → LooksOn E.recovers t (E.view engine.old) (E.view engine.new) (E.means engine.old) (E.means engine.new) }
    ensures counts { OffCounts (E.view engine.old) (E.view engine.new) breaks.old breaks.new result }
    ensures found { (t : Table) (from : State) → E.means engine.old t from →
        IfOk result (λ at. (E.view engine.old).Told → IsOpenAt (E.view engine.old).steps (E.view engine.old).base actor.old.txn.0 at actor.new.before) }
    ensures txn { actor.new.txn ≡ actor.old.txn }
    ensures last { actor.new.last ≡ actor.old.last }
{
    let Some((at, before)) = find_action(engine, actor.txn.0, actor.last)? else {
        return Err(count_break(breaks));
    };
    if engine.has_failed() {
        return Err(count_break(breaks));
    }
    // Nothing is left to be taken off of an action of the system, wherever it began.
    if actor.txn.0 == 0 && at == before {
        actor.before = 0;
        return Ok(0);
    }
    actor.before = before;
    Ok(at)
}
