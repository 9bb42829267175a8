// A transaction that has committed and not ended.
ghost use Rattle.std.specs.Prelude.{◌≡◌, ◌-◌, ℕ, length, Some, slice_set};
ghost use Rattle.sg_actions.specs.Ending.{vacant};
ghost use Rattle.sg_actions.specs.Rows.{last_in, placed};

use crate::rows::{Row, last_in, place};
use crate::{Acts, Engine};
use sg_base::TxnId;

// Moves the row of a transaction to the last place. Its place is vacant then, and the row that was last is gone.
fn move_last(rows: &mut [Row], txn: TxnId)
    ensures { (last : ℕ) → last_in rows.old txn.0 ≡ Some last → rows.new ≡ slice_set (placed rows.old txn.0 vacant) (length rows.old - 1) (record { txn = txn; last = last }) }
{
    let Some(last) = last_in(rows, txn) else {
        return;
    };
    let vacant = Row {
        txn: TxnId(0),
        last: 0,
    };
    place(rows, txn, vacant);
    let count = rows.len();
    if count > 0 {
        rows[count - 1] = Row { txn, last };
    }
}

impl<E: Engine> Acts<E> {
    ghost use Rattle.std.specs.Prelude.{◌≡◌, ◌-◌, ℕ, length, Some, slice_set};
    ghost use Rattle.sg_actions.specs.Ending.{vacant};
    ghost use Rattle.sg_actions.specs.Rows.{last_in, placed};

    /// A transaction that has committed makes room for another one: its row is the last one from now on, so that
    /// its end can still be appended, and its place is vacant. The row that was last is forgotten: it is to be of
    /// none that goes on. Nothing else changes.
    pub fn leave(&mut self, txn: TxnId)
        ensures rows { (last : ℕ) → last_in self.old.rows.items txn.0 ≡ Some last → self.new.rows.items ≡ slice_set (placed self.old.rows.items txn.0 vacant) (length self.old.rows.items - 1) (record { txn = txn; last = last }) }
        ensures engine { self.new.engine ≡ self.old.engine }
        ensures maps { self.new.maps ≡ self.old.maps }
        ensures unfreed { self.new.unfreed ≡ self.old.unfreed }
        ensures actor { self.new.actor ≡ self.old.actor }
        ensures begun { self.new.begun ≡ self.old.begun }
        ensures begun_at { self.new.begun_at ≡ self.old.begun_at }
        ensures breaks { self.new.breaks ≡ self.old.breaks }
    {
        move_last(self.rows.as_mut_slice(), txn);
    }
}
