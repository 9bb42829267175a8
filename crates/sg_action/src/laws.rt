ghost use Rattle.std.specs.Prelude.{◌≡◌, ℕ, List, ◌∷◌, ◌++◌, true};
ghost use Rattle.sg_ops.specs.Table.{table_of};
ghost use Rattle.sg_action.specs.Opened.{TakesTo, TakesOff, GoesOn, IsOpened, IsNotFilled, put_back};
ghost use Rattle.sg_action.specs.States.{State, Change, Kept, made};

use sg_ops::Ops;

/// Tells a proof that an action without an end is taken off, from each moment of it: where each slot
/// was opened on a page that had not shrunk, and was one that the page may have, the inverses of its
/// changes fit, the last one first, and leave pages and bands that can't be told from those at its
/// begin. It runs no code.
pub fn takes_off(ops: &Ops)
    ensures { TakesOff (table_of record_meaning range_meaning ops.now) }
{
    ops.laws();
}

/// Tells a proof that a take-off which was stopped goes on: the inverse of the last change that is left
/// fits, and after it the rest is taken off as before. It runs no code.
pub fn goes_on(ops: &Ops)
    ensures { (kept : Kept) (begin : State) (ds : List Change) (d : Change) (x : State) →
        TakesTo (table_of record_meaning range_meaning ops.now) kept begin (d ∷ ds) x →
        GoesOn (table_of record_meaning range_meaning ops.now) kept begin ds d x }
{}

/// Tells a proof that the bytes which stood in a band come back where the changes of bands alone are
/// taken off, the last one first, also where they overlap: the band is as it was before these changes,
/// if none of them filled it as one that is taken. It runs no code.
pub fn bytes_come_back(ops: &Ops)
    ensures { (kept : Kept) (begin : State) (later ds : List Change) (b : ℕ) →
        IsOpened (table_of record_meaning range_meaning ops.now) kept begin (later ++ ds) →
        IsNotFilled later b →
        (put_back (table_of record_meaning range_meaning ops.now) later
        (made (table_of record_meaning range_meaning ops.now) begin (later ++ ds))).bands b
        ≡ (made (table_of record_meaning range_meaning ops.now) begin ds).bands b }
{}
