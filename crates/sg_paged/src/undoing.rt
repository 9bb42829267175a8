// The undo of a transaction.
ghost use Rattle.std.specs.Prelude.{◌≡◌, ◌≤◌, ◌+◌, ◌==◌, ℕ, List, [], ◌∷◌, Ok, Some, None, IfOk, IfErr, IfSome, OnOk};
ghost use Rattle.sg_recovery.specs.Log.{Top, tally, notes_of};
ghost use Rattle.sg_recovery.specs.Log.Record.{CompEnd};
ghost use Rattle.sg_store.specs.Engine.{Keeps, AsMeant, Asked, Action, IsEngine, IsIdle, IsAt, IsAtMark, NoneBehind, ActsBack, IsNextUndo, Appends, Appended, Changes, Changed, Rests, Rested, Counts, IsDiskFault, IsNearEnd, pages_of};
ghost use Rattle.sg_objects.specs.Notes.{byte_at, note_said};
ghost use Rattle.sg_reading.specs.Model.{wants_page};
ghost use Rattle.sg_shown.specs.Shown.{shown};

use crate::resting::{again, quiet};
use sg_actions::{Acts, Engine};
use sg_base::{Lsn, TxnId};
use sg_space::{SpaceFault, UndoNote};

/// The number of the note that `undo_step` would come to; `None` exactly where none stands. Nothing is
/// changed.
pub fn next_undo<E: Engine>(acts: &mut Acts<E>, txn: TxnId) -> Result<Option<Lsn>, SpaceFault>
    requires can { Asked (shown acts.old) (IsAt txn.0) }
    ensures counts { Counts IsDiskFault (shown acts.old) (shown acts.new) result }
    ensures means { Keeps (shown acts.old) (shown acts.new) }
    ensures reads { IfErr result IsDiskFault }
    ensures finds { AsMeant (shown acts.old) (shown acts.new) (λ t g v w. IsEngine t g v
        → IsIdle v → Rests t g v w × IfOk result (λ r. Rested t g v w
        × IsNextUndo txn.0 (tally v.log).notes r)) }
{
    let who = acts.acting();
    quiet(acts);
    match acts.next_undo(txn, txn.0) {
        Ok(found) => {
            again(acts, who);
            Ok(found)
        }
        Err(fault) => Err(fault),
    }
}

/// Begins an action that undoes the last standing note of a live transaction, where that note is of an action behind
/// the record with this number, and gives it with the number behind which undoing goes on; `None` exactly where none
/// stands there. What the note's action found in bands is back where the note asks for that; where it doesn't, the
/// action has changed nothing yet.
pub fn undo_step_to<E: Engine>(
    acts: &mut Acts<E>,
    txn: TxnId,
    stop: Lsn,
    into: &mut UndoNote,
) -> Result<Option<Lsn>, SpaceFault>
    requires can { Asked (shown acts.old) (IsAtMark txn.0 stop) }
    ensures counts { Counts IsDiskFault (shown acts.old) (shown acts.new) result }
    ensures means { Keeps (shown acts.old) (shown acts.new) }
    ensures log_end { IfErr result (IsNearEnd (shown acts.new).tail) }
    ensures none { AsMeant (shown acts.old) (shown acts.new) (λ t g v w. IsEngine t g v → IsIdle v → result ≡ Ok None
        → NoneBehind stop (notes_of txn.0 (tally v.log).notes) × Rested t g v w) }
    ensures some { AsMeant (shown acts.old) (shown acts.new) (λ t g v w. (a : Action g)
        → IsEngine t g v → IsIdle v
        → a ≡ record { transaction = txn.0; pages = pages_of t g v }
        → (c : Changes t g a v w)
        × IfOk result (λ after. IfSome after (λ next. (n : Top g.C g.N)
        × (ns : List (Top g.C g.N)) × (stop + 1 ≤ n.lsn)
        × (notes_of txn.0 (tally v.log).notes ≡ n ∷ ns)
        × (n.undo_next ≡ next) × (g.note into.new ≡ n.note)
        × g.PutsBack t n.note n.changes (tally w.log).opened a.pages (pages_of t g w)
        × (w.free_pages ≡ v.free_pages) × Changed t g a v w c.made))) }
{
    let who = acts.acting();
    quiet(acts);
    match acts.undo_step(txn, stop, into) {
        Ok(None) => {
            again(acts, who);
            Ok(None)
        }
        Ok(Some(next)) => Ok(Some(next)),
        Err(fault) => Err(fault),
    }
}

/// The same of all that the transaction has done: each of its notes is behind its begin.
pub fn undo_step<E: Engine>(
    acts: &mut Acts<E>,
    txn: TxnId,
    into: &mut UndoNote,
) -> Result<Option<Lsn>, SpaceFault>
    requires can { Asked (shown acts.old) (IsAt txn.0) }
    ensures counts { Counts IsDiskFault (shown acts.old) (shown acts.new) result }
    ensures means { Keeps (shown acts.old) (shown acts.new) }
    ensures log_end { IfErr result (IsNearEnd (shown acts.new).tail) }
    ensures none { AsMeant (shown acts.old) (shown acts.new) (λ t g v w. IsEngine t g v → IsIdle v → result ≡ Ok None
        → (notes_of txn.0 (tally v.log).notes ≡ []) × Rested t g v w) }
    ensures some { AsMeant (shown acts.old) (shown acts.new) (λ t g v w. (a : Action g)
        → IsEngine t g v → IsIdle v
        → a ≡ record { transaction = txn.0; pages = pages_of t g v }
        → (c : Changes t g a v w)
        × IfOk result (λ after. IfSome after (λ next. (n : Top g.C g.N)
        × (ns : List (Top g.C g.N)) × (notes_of txn.0 (tally v.log).notes ≡ n ∷ ns)
        × (n.undo_next ≡ next) × (g.note into.new ≡ n.note)
        × g.PutsBack t n.note n.changes (tally w.log).opened a.pages (pages_of t g w)
        × (w.free_pages ≡ v.free_pages) × Changed t g a v w c.made))) }
{
    undo_step_to(acts, txn, txn.0, into)
}

// Whether a note says that an entry comes back in place of another.
fn is_of_entry(note: &[u8]) -> bool
    ensures { result ≡ (byte_at note.now 0 == 8) }
{
    !note.is_empty() && note[0] == 8
}

/// Whether the undoing of a note wants a page: an entry that comes back may want one of its bucket.
pub fn wants_page(note: &UndoNote) -> bool
    ensures { result ≡ wants_page (note_said note.now).undoes }
{
    is_of_entry(note.bytes())
}

/// Ends the action that undid a note, behind which undoing goes on at this number.
pub fn end_undo<E: Engine>(acts: &mut Acts<E>, txn: TxnId, after: Lsn) -> Result<(), SpaceFault>
    requires can { Asked (shown acts.old) (ActsBack txn.0 after) }
    ensures counts { Counts IsDiskFault (shown acts.old) (shown acts.new) result }
    ensures means { Keeps (shown acts.old) (shown acts.new) }
    ensures log_end { IfErr result (IsNearEnd (shown acts.old).tail) }
    ensures ends { AsMeant (shown acts.old) (shown acts.new) (λ t g v w. (a : Action g)
        → IsEngine t g v → v.action ≡ Some a → a.transaction ≡ txn.0
        → (n : Top g.C g.N) (ns : List (Top g.C g.N))
        → notes_of txn.0 (tally v.log).notes ≡ n ∷ ns → n.undo_next ≡ after → (lsn : ℕ)
        × (previous : ℕ)
        × Appends t g v w (record { lsn = lsn; is = CompEnd txn.0 previous after })
        × OnOk result (Appended t g v w (record { lsn = lsn; is = CompEnd txn.0 previous after }))) }
{
    acts.end_undo(txn, after)
}
