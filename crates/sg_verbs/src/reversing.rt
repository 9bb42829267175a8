// A note is reversed.
ghost use Rattle.std.specs.Prelude.{◌≡◌, ◌↔◌, IsTrue, OnOk, IfErr};
ghost use Rattle.sg_ops.specs.Table.{table_of};
ghost use Rattle.sg_recovery.specs.Log.{Top};
ghost use Rattle.sg_objects.specs.Notes.{byte_at};
ghost use Rattle.sg_store.specs.Engine.{KeepsBy, AsMeantBy, AskedBy, Action, IsEngine, Changes, Changed, Counts, IsDiskFault, IsNearEnd};
ghost use Rattle.sg_store.specs.Verbs.{CanReverse, CanTakeBack, Reversed};
ghost use Rattle.sg_shown.specs.Shown.{shown};

use crate::pausing::{give_up, settle, sound};
use sg_actions::{Acts, Engine};
use sg_ops::Ops;
use sg_space::{SpaceFault, UndoNote};

// Whether the undo of a note begins with bytes of bands that are put back.
fn puts_bytes(note: &UndoNote) -> bool
    ensures { IsTrue result ↔ (byte_at note.now 0 ≡ 9) }
{
    let bytes = note.bytes();
    !bytes.is_empty() && bytes[0] == 9
}

/// Reverses a note in the action that undoes it. One that puts no bytes back may take pages, which only an
/// action may that has changed nothing yet: in any other it fails.
pub fn reverse<E: Engine>(acts: &mut Acts<E>, ops: &Ops, note: &UndoNote) -> Result<(), SpaceFault>
    requires can { AskedBy (table_of record_meaning range_meaning ops.now) (shown acts.old) (CanTakeBack note.now (table_of record_meaning range_meaning ops.now)) }
    ensures counts { Counts IsDiskFault (shown acts.old) (shown acts.new) result }
    ensures means { KeepsBy (table_of record_meaning range_meaning ops.now) (shown acts.old) (shown acts.new) }
    ensures log_end { IfErr result (IsNearEnd (shown acts.new).tail) }
    ensures reverses { let t = table_of record_meaning range_meaning ops.now in
        AsMeantBy t (shown acts.old) (shown acts.new) (λ g v w. (o : g.O) (a : Action g) (n : Top g.C g.N)
        → IsEngine t g v → v.action ≡ Some a → g.note note.now ≡ n.note
        → CanReverse t g a v o n → (c : Changes t g a v w)
        × OnOk result (Changed t g a v w c.made × Reversed t g w o n)) }
{
    sound(acts);
    let puts = puts_bytes(note);
    let still = acts.is_still();
    if !puts && !still {
        acts.stop();
        return Err(acts.report());
    }
    match sg_objects::reverse(acts, ops, note) {
        Ok(()) => match settle(acts) {
            None => Ok(()),
            Some(fault) => Err(fault),
        },
        Err(_fault) => Err(give_up(acts, true)),
    }
}
