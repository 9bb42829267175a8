// Where an action was begun that has logged nothing.
ghost use Rattle.std.specs.Prelude.{◌≡◌, ◌≤◌, ℕ, false, [], IfSome, option_map};
ghost use Rattle.sg_base.specs.Ends.{HasRisen};
ghost use Rattle.sg_ops.specs.Table.{Table};
ghost use Rattle.sg_recovery.specs.Log.{tally};
ghost use Rattle.sg_action.specs.States.{State};
ghost use Rattle.sg_actions.specs.Acting.{HasChain};
ghost use Rattle.sg_actions.specs.Calls.{IsActable};
ghost use Rattle.sg_actions.specs.Rows.{rows_after};
ghost use Rattle.sg_store.specs.Engine.{Keeps};
ghost use Rattle.sg_shown.specs.Room.{SameRoom};
ghost use Rattle.sg_shown.specs.Shown.{acting, over, shown};

use sg_actions::{Acts, Engine};
use sg_base::TxnId;
use sg_space::SpaceFault;

/// Ends it. Nobody acts then, and nothing else changes.
pub fn quiet<E: Engine>(acts: &mut Acts<E>)
    requires idle { (shown acts.old).Told → (tally (E.view acts.old.engine).steps).opened ≡ [] }
    ensures engine { acts.new.engine ≡ acts.old.engine }
    ensures begun { acts.new.begun ≡ false }
    ensures breaks { acts.new.breaks ≡ acts.old.breaks }
    ensures rows { acts.new.rows.items ≡ rows_after acts.old.rows.items acts.old.actor.txn acts.old.actor.last }
    ensures room { SameRoom (over acts.old) (over acts.new) }
    ensures means { Keeps (shown acts.old) (shown acts.new) }
{
    acts.rest();
}

/// Begins an action again, where one was begun. Nothing else changes.
pub fn again<E: Engine>(acts: &mut Acts<E>, who: Option<TxnId>)
    requires can { (shown acts.old).Told → IfSome who (λ u. IsActable (E.view acts.old.engine).steps acts.old.unfreed acts.old.rows.items acts.old.actor u.0) }
    requires quiet { acts.old.begun ≡ false }
    requires chain { HasChain (E.view acts.old.engine) acts.old.rows.items acts.old.actor }
    ensures engine { acts.new.engine ≡ acts.old.engine }
    ensures breaks { acts.new.breaks ≡ acts.old.breaks }
    ensures maps { acts.new.maps ≡ acts.old.maps }
    ensures unfreed { acts.new.unfreed ≡ acts.old.unfreed }
    ensures means { Keeps (shown acts.old) (shown acts.new) }
    ensures acts { (t : Table) (from : State) → E.means acts.old.engine t from → (shown acts.old).Told → acting acts.new.begun acts.new.actor.txn.0 ≡ option_map (λ u. u.0) who }
{
    let Some(txn) = who else {
        return;
    };
    acts.act(txn);
}

/// Reports that what was read can't be: a break is counted. One that tells is never asked.
pub fn broken<E: Engine>(acts: &mut Acts<E>) -> SpaceFault
    requires untold { (shown acts.old).Told → ⊥ }
    ensures disk { (shown acts.new).disk ≡ (shown acts.old).disk }
    ensures gate { (shown acts.new).gate ≡ (shown acts.old).gate }
    ensures answer { result ≡ SpaceFault.Disk }
    ensures tail { (shown acts.new).tail ≡ (shown acts.old).tail }
    ensures later { (shown acts.old).faults ≤ (shown acts.new).faults }
    ensures told { (shown acts.new).Told → (shown acts.old).Told }
    ensures means { Keeps (shown acts.old) (shown acts.new) }
    ensures risen { HasRisen (shown acts.old).faults (shown acts.new).faults }
{
    acts.report()
}
