// What an action without an end did is taken off.
ghost use Rattle.std.specs.Prelude.{◌≡◌, ℕ, true, false, OnOk};
ghost use Rattle.sg_ops.specs.Table.{table_of};
ghost use Rattle.sg_action.specs.States.{State};
ghost use Rattle.sg_actions.specs.Engine.{AreBy, led};
ghost use Rattle.sg_actions.specs.Acting.{IsChained};
ghost use Rattle.sg_actions.specs.Rows.{at_rest};
ghost use Rattle.sg_actions.specs.Taken.{is_set};
ghost use Rattle.sg_actions.specs.WentOff.{OffCounts, WentOff};
ghost use Rattle.sg_resumed.specs.Taking.{CanGoOn, LeadsOff};

use crate::taking_off::find_in;
use sg_actions::{Actor, Acts, Engine, Parts};
use sg_ops::Ops;
use sg_space::SpaceFault;

/// A space over an engine, and how a take-off ended.
pub struct WithoutEnd<E: Engine> {
    pub acts: Acts<E>,
    pub off: Result<(), SpaceFault>,
    /// The action began in the log, or is none of the system. Else nothing was taken off.
    pub within: bool,
}

// Whether the action began in the log, or is none of the system.
fn is_within(actor: &Actor) -> bool
    ensures { result ≡ true → actor.now.txn.0 ≡ 0 → actor.now.before ≡ 0 }
{
    actor.txn.0 != 0 || actor.before == 0
}

/// Takes off what the action did that has no end, of a space that knows of nothing that is taken. No
/// action is open then, and the system acts. Of an action of the system that began before the log's first byte
/// nothing is taken off: no store leaves one.
pub fn take_off<E: Engine>(acts: Acts<E>, ops: &Ops) -> WithoutEnd<E>
    requires none { (E.view acts.engine).Told → (n : ℕ) → is_set acts.maps.pages n ≡ false }
    requires by { (E.view acts.engine).Told → AreBy (E.means acts.engine) (table_of record_meaning range_meaning ops.now) }
    requires can { (E.view acts.engine).Told → CanGoOn (E.view acts.engine) (E.first_byte acts.engine) acts.rows.items acts.actor }
    requires off { let t = table_of record_meaning range_meaning ops.now in (from : State) → E.means acts.engine t from → (E.view acts.engine).Told → LeadsOff t (led from (E.view acts.engine)) }
    ensures means { let t = table_of record_meaning range_meaning ops.now in (from : State) → E.means acts.engine t from → E.means result.acts.engine t from }
    ensures counts { OffCounts (E.view acts.engine) (E.view result.acts.engine) acts.breaks result.acts.breaks result.off }
    // also where it fails
    ensures went { let t = table_of record_meaning range_meaning ops.now in (from : State) → E.means acts.engine t from → (E.view acts.engine).Told →
        WentOff (E.recovers t) t acts.actor.txn.0 (led from (E.view acts.engine)) (led from (E.view result.acts.engine)) }
    ensures off { let t = table_of record_meaning range_meaning ops.now in (from : State) → E.means acts.engine t from →
        OnOk result.off (result.within ≡ true → (E.view result.acts.engine).Told → IsChained (E.view result.acts.engine).base (E.view result.acts.engine).steps (E.view result.acts.engine).tail result.acts.rows.items result.acts.actor) }
    ensures rest { let t = table_of record_meaning range_meaning ops.now in (from : State) → E.means acts.engine t from → OnOk result.off (result.within ≡ true → (E.view result.acts.engine).Told → result.acts.actor ≡ at_rest) }
    ensures begun { OnOk result.off (result.within ≡ true → result.acts.begun ≡ false) }
    ensures unfreed { result.acts.unfreed ≡ acts.unfreed }
{
    let Parts {
        mut engine,
        maps,
        unfreed,
        mut actor,
        rows,
        mut breaks,
        begun: _,
        count,
        bands,
    } = acts.into_parts();
    let found = find_in(&mut engine, &mut breaks, &mut actor);
    let within = is_within(&actor);
    let mut acts = Acts::of_parts(Parts {
        engine,
        maps,
        unfreed,
        actor,
        rows,
        breaks,
        begun: false,
        count,
        bands,
    });
    match found {
        Ok(at) => {
            if !within {
                return WithoutEnd {
                    acts,
                    off: Ok(()),
                    within,
                };
            }
            let off = acts.resume(ops, at);
            WithoutEnd { acts, off, within }
        }
        Err(fault) => WithoutEnd {
            acts,
            off: Err(fault),
            within,
        },
    }
}
