// Checkpoints: where a log is read again from, and the transactions that go on.
ghost use Rattle.std.specs.Prelude.{◌≡◌, ◌≤◌, ◌<◌, length, take, IfSome, IfNone, IsPermutation};
ghost use Rattle.std.specs.List.Sorted.{IsNonDecreasingBy};
ghost use Rattle.sg_actions.specs.Changes.{HasTaken};
ghost use Rattle.sg_actions.specs.Checkpoints.{row_bytes, rows_bytes};

use crate::acts::count_break;
use crate::rows::Row;
use crate::{Acts, Engine};
use sg_base::{TxnId, write_u64};
use sg_space::SpaceFault;

// A row: the transaction's number, and that of its last record.
fn spell_row(row: &Row, into: &mut [u8])
    requires { length into.old ≡ 16 }
    ensures { into.new ≡ row_bytes row.now }
{
    write_u64(&mut into[..8], row.txn.0);
    write_u64(&mut into[8..], row.last);
}

// Puts rows in the order of their transactions' numbers.
fn order(rows: &mut [Row])
    ensures same { IsPermutation rows.old rows.new }
    ensures long { length rows.new ≡ length rows.old }
    ensures rising { IsNonDecreasingBy (λ r. r.txn.0) rows.new }
{
    rows.sort_unstable_by_key(|row| row.txn.0);
}

// These rows in the order of their transactions' numbers, at the front of 64.
fn in_order(rows: &[Row]) -> [Row; 64]
    requires { length rows.now ≤ 64 }
    ensures same { IsPermutation rows.now (take (length rows.now) result) }
    ensures rising { IsNonDecreasingBy (λ r. r.txn.0) (take (length rows.now) result) }
{
    let vacant = Row {
        txn: TxnId(0),
        last: 0,
    };
    let mut ordered = [vacant; 64];
    let count = rows.len();
    ordered[..count].copy_from_slice(rows);
    order(&mut ordered[..count]);
    ordered
}

// Spells the rows that aren't vacant, 16 bytes each, and answers how many bytes they are, if they fit.
fn spell_rows(rows: &[Row], into: &mut [u8]) -> Option<usize>
    requires { length into.old ≡ 1024 }
    ensures long { length into.new ≡ 1024 }
    ensures spelled { IfSome result (HasTaken into.new (rows_bytes rows.now)) }
    ensures many { IfNone result (1024 < length (rows_bytes rows.now)) }
{
    let mut size = 0;
    for row in rows {
        if row.txn.0 != 0 {
            if size > 1008 {
                return None;
            }
            spell_row(row, &mut into[size..size + 16]);
            size += 16;
        }
    }
    Some(size)
}

impl<E: Engine> Acts<E> {
    ghost use Rattle.std.specs.Prelude.{◌≡◌, ◌≤◌, ◌+◌, ℕ, false, OnOk, IfErr, length, take};
    ghost use Rattle.sg_checkpoints.specs.Checkpoints.{HasMarked};
    ghost use Rattle.sg_ops.specs.Table.{Table};
    ghost use Rattle.sg_action.specs.States.{State};
    ghost use Rattle.sg_actions.specs.Calls.{IsAtRest};
    ghost use Rattle.sg_actions.specs.Checkpoints.{NamesGoing};
    ghost use Rattle.sg_actions.specs.Counts.{ActsCounts};
    ghost use Rattle.sg_actions.specs.Engine.{Moments, Keeps, IsNearEnd, IsForced, led};
    ghost use Rattle.sg_actions.specs.Led.{HasStayed};
    ghost use Rattle.sg_actions.specs.View.{IsKept};
    ghost use Rattle.sg_space.specs.declared.space.SpaceFault.TheVariants.{LogEnd};

    /// Makes the log durable, with a record of where history has to be repeated from and of the last record
    /// of each transaction that goes on and has one of the first 64 rows: no more than 64 go on behind an
    /// opening, which begins with a row for each that was found. Nothing else changes. No action is open.
    pub fn checkpoint(&mut self) -> Result<(), SpaceFault>
        requires rest { (E.view self.old.engine).Told → IsAtRest (E.view self.old.engine).steps self.old.unfreed self.old.actor }
        requires quiet { (E.view self.old.engine).Told → self.old.begun ≡ false }
        ensures counts { ActsCounts (E.view self.old.engine) (E.view self.new.engine) self.old.breaks self.new.breaks result }
        ensures log_end { IfErr result (λ f. f ≡ LogEnd → IsNearEnd (E.view self.old.engine)) }
        // what waits, the record's 1,055 bytes at most, and twice what a frame has beside its records
        ensures hands { (E.view self.new.engine).disk.handed ≤ (E.view self.old.engine).disk.handed + E.waiting self.old.engine + 1067 }
        ensures none_waits { OnOk result (E.waiting self.new.engine ≡ 0) }
        ensures marks { OnOk result ((E.view self.old.engine).Told → HasMarked (E.view self.old.engine).tail (E.unwritten self.old.engine) (E.marked self.new.engine) E.ends_at (E.view self.new.engine).disk.now) }
        // which names the transactions that go on, in the order in which they began
        ensures names { OnOk result ((E.view self.old.engine).Told → NamesGoing (take 64 self.old.rows.items) (E.names self.new.engine)) }
        ensures means { Keeps (E.means self.old.engine) (E.means self.new.engine) }
        ensures stays { (t : Table) (from : State) → E.means self.old.engine t from → OnOk result (HasStayed (led from (E.view self.old.engine)) (led from (E.view self.new.engine))) }
        ensures forced { (t : Table) (from : State) → E.means self.old.engine t from → OnOk result (IsForced (E.view self.new.engine)) }
        ensures kept { (limits : State → ℕ → ℕ) (t : Table) (from : State) → E.means self.old.engine t from → OnOk result ((E.view self.old.engine).Told → IsKept t limits (led from (E.view self.old.engine)) self.old.maps self.old.rows.items self.old.actor →
            IsKept t limits (led from (E.view self.new.engine)) self.new.maps self.new.rows.items self.new.actor) }
        ensures maps { self.new.maps ≡ self.old.maps }
        ensures unfreed { self.new.unfreed ≡ self.old.unfreed }
        ensures rows { self.new.rows.items ≡ self.old.rows.items }
        ensures actor { self.new.actor ≡ self.old.actor }
        ensures begun { self.new.begun ≡ self.old.begun }
        // also of a call that fails
        ensures moments { (t : Table) (from : State) → E.means self.old.engine t from → (E.view self.old.engine).Told → Moments (E.recovers t) t (led from (E.view self.old.engine)) (led from (E.view self.new.engine)) (E.view self.old.engine).steps }
    {
        let mut text = [0u8; 1024];
        let count = self.rows.len().min(64);
        let ordered = in_order(&self.rows.as_slice()[..count]);
        let Some(size) = spell_rows(&ordered[..count], &mut text) else {
            return Err(count_break(&mut self.breaks));
        };
        self.engine.checkpoint(&text[..size])?;
        self.engine.force()
    }
}
