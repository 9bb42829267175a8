// Pairs of values that only clauses read.
ghost use Rattle.std.specs.Prelude.{◌≡◌, List, [], ◌∷◌, ◌++◌};
ghost use Rattle.std.specs.Borrow.{ftrue};

use std::marker::{Model, PhantomData};

/// What was, as pairs of values in the order in which they came: a clause reads them as `items`. It has no bytes.
#[derive(Drop)]
pub struct History<A, B> {
    of: PhantomData<(A, B)>,
    pub ghost items: { List (A × B) },
}

impl<A, B> Model for History<A, B> {
    ghost also_owns = { λ _. ftrue };
}

impl<A, B> History<A, B> {
    /// Nothing was yet.
    pub fn new() -> History<A, B>
        ensures { result.items ≡ [] }
    {
        History { of: PhantomData }
    }

    /// The same with these two values at its end, as they are now.
    pub fn and(&self, first: &A, second: &B) -> History<A, B>
        ensures { result.items ≡ self.now.items ++ (first.now, second.now) ∷ [] }
    {
        History { of: PhantomData }
    }
}
