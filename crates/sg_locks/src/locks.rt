ghost use Rattle.std.specs.Prelude.{◌≡◌, [], map, IfOk};
ghost use Rattle.sg_serial.specs.Locks.{released};
ghost use Rattle.sg_model.specs.Resources.{shown_touch};
ghost use Rattle.sg_locks.specs.Answers.{lock_answer, locks_after};

use crate::finder::Finder;
use crate::table::{LockAnswer, Table};
use sg_base::{OutOfMemory, TxnId};
use sg_model::Touch;
use std::alloc::Global;
use std::marker::Model;

/// What transactions hold: at most 4,096 pairs of a transaction and a resource. Contracts see the
/// list of pairs, in the order in which they were first held.
///
/// A touch is held against the pairs in one bucket of 4,096, into which resources fall by their name
/// and part, so that it costs about the same with thousands of pairs as with ten; one that the
/// transaction holds already is found there, and nothing else is looked at. The first two touches
/// of an operation are looked for before that where such were held the last time. Three things go
/// with what is held: a touch of all of an object or of all keys of a table looks at each pair on a
/// name in the name's bucket, a touch of the names at each pair, and a release too.
#[derive(Drop)]
pub struct Locks {
    table: Table,
    finder: Finder,
}

impl Model for Locks {
    ghost use Rattle.std.specs.Prelude.{List};
    ghost use Rattle.std.specs.Coded.{coded_list};
    ghost use Rattle.sg_serial.specs.Locks.{Hold};
    ghost use Rattle.sg_model.specs.Touches.{Resource};
    ghost use Rattle.sg_locks.specs.Codes.{hold_code};
    ghost use Rattle.sg_locks.specs.Shown.{holds_of};

    ghost Value = { List (Hold Resource) };

    ghost coded = { coded_list hold_code };

    ghost view = { λ l. holds_of l.table.holds.items };
}

impl Locks {
    /// Nothing is held. `OutOfMemory` where memory is refused; no other call takes any.
    pub fn new(alloc: Global) -> Result<Locks, OutOfMemory>
        ensures { IfOk result (λ l. l ≡ []) }
    {
        let table = Table::new(alloc)?;
        Ok(Locks {
            table,
            finder: Finder::new(),
        })
    }

    /// A transaction asks for locks, of which it gets all or none. `Busy` names the first of the
    /// other transactions, by number, that hold a touch in conflict with one of these. `LocksFull`
    /// comes where the transaction's pairs with new resources would make more than 4,096 pairs; a
    /// resource that it holds already, to read or to write, is none of them. Nothing changes then.
    #[inline(never)]
    pub fn try_lock(&mut self, t: TxnId, wanted: &[Touch]) -> LockAnswer
        ensures answer { result ≡ lock_answer t.0 (map shown_touch wanted.now) self.old }
        ensures after { self.new ≡ locks_after t.0 (map shown_touch wanted.now) self.old }
    {
        self.table.try_lock(&mut self.finder, t, wanted)
    }

    /// A transaction holds nothing any more.
    pub fn release(&mut self, t: TxnId)
        ensures { self.new ≡ released t.0 self.old }
    {
        self.table.release(&mut self.finder, t);
    }
}
