// Who acts, and the last record of each transaction.
ghost use Rattle.std.specs.Prelude.{◌≡◌, length};
ghost use Rattle.sg_actions.specs.Rows.{last_in, placed, rows_after};

use sg_base::{Lsn, TxnId};

/// Who acts: a transaction, or the system, which is 0; its last record, and the one before its open
/// action. For the system both are 0 where no action is open.
#[derive(Clone, Copy)]
pub struct Actor {
    pub txn: TxnId,
    pub last: Lsn,
    pub before: Lsn,
}

/// A transaction, and the number of its last record. Where the transaction is 0, the row is vacant.
#[derive(Clone, Copy)]
pub struct Row {
    pub txn: TxnId,
    pub last: Lsn,
}

/// The number of a transaction's last record, where there is a row of it.
pub fn last_in(rows: &[Row], txn: TxnId) -> Option<Lsn>
    ensures { result ≡ last_in rows.now txn.0 }
{
    for row in rows {
        if row.txn.0 == txn.0 {
            return Some(row.last);
        }
    }
    None
}

/// Puts a row in the place of a transaction's, where there is one.
pub fn place(rows: &mut [Row], txn: TxnId, row: Row)
    ensures { rows.new ≡ placed rows.old txn.0 row }
{
    for i in 0..rows.len() {
        if rows[i].txn.0 == txn.0 {
            rows[i] = row;
            return;
        }
    }
}

/// Keeps the last record of a transaction in its row. The system, which is 0, has none.
pub fn keep_row(rows: &mut Vec<Row>, txn: TxnId, lsn: Lsn)
    ensures { rows.new.items ≡ rows_after rows.old.items txn lsn }
{
    if txn.0 == 0 {
        return;
    }
    place(rows.as_mut_slice(), txn, Row { txn, last: lsn });
}
