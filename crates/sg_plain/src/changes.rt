ghost use Rattle.std.specs.Prelude.{◌≡◌, ℕ, List, Option};
ghost use Rattle.sg_model.specs.Objects as plain;
ghost use Rattle.sg_plain.specs.Undone.{undo_in};

use crate::undo::Noted;
use std::alloc::Global;

/// What a transaction has done to objects, by their names, with what stood there before.
/// `Objects::change` adds to it, and `Objects::take_back` takes it back.
#[derive(Drop)]
pub struct Changes {
    // in the order in which they were done
    pub(crate) notes: Vec<Noted>,
}

impl Changes {
    /// No changes. Takes no memory.
    pub fn new(alloc: Global) -> Changes
        ensures { (name : List ℕ) (object : Option plain.Object) → undo_in result name object ≡ object }
    {
        Changes {
            notes: Vec::new(alloc),
        }
    }
}
