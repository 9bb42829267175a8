ghost use Rattle.std.specs.Prelude.{◌≡◌, length};

use crate::place::Place;
use std::marker::Model;
use std_alloc::vec::Lodged;

/// A page frame or window that was moved out of its block, with its bytes.
///
/// It can go to another thread. It has to be given back with `Frames::give`: it isn't `Drop`.
pub struct Loan {
    pub(crate) place: Place,
    pub(crate) memory: Vec<u8, Lodged>,
}

impl Model for Loan {
    ghost use Rattle.std.specs.Prelude.{◌≡◌, length};
    ghost use Rattle.std.specs.Vec.{vec_ptr};
    ghost use Rattle.sg_frames.specs.Held.{Lent, size_of};

    ghost Value = { Lent };

    ghost view = { λ l. record { spot = vec_ptr l.memory; place = l.place; bytes = l.memory.items } };

    ghost invariant = { λ l. length l.memory.items ≡ size_of l.place };
}

impl Loan {
    ghost use Rattle.std.specs.Borrow.{sem};
    ghost use Rattle.sg_frames.specs.Held.{size_of};
    ghost use Rattle.sg_frames.specs.Lending.{LendsLoan};

    /// The bytes: 4,096 of a page frame, 32,768 of a window.
    pub fn bytes(&self) -> &[u8]
        ensures value { result.now ≡ self.now.bytes }
        ensures size { length result.now ≡ size_of self.now.place }
    {
        self.memory.as_slice()
    }

    /// The bytes, to write to.
    pub fn bytes_mut(&mut self) -> &mut [u8]
        ensures* writes_back { sem 𝓛 (LendsLoan self.entry result) }
        ensures value { result.now ≡ self.old.bytes }
        ensures size { length result.now ≡ size_of self.old.place }
    {
        self.memory.as_mut_slice()
    }
}
