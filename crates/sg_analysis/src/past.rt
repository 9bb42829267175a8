ghost use Rattle.std.specs.Prelude.{◌≡◌, ◌==◌, ℕ, OnOk, None, if◌then◌else◌, Some};
ghost use Rattle.sg_analysis.specs.Past.{over_of, past_behind};

use sg_base::{Lsn, TxnId};
use std::alloc::{AllocError, Global};

/// What a transaction that doesn't go on has come to.
#[derive(Clone, Copy)]
pub enum Stage {
    /// It had begun before the log.
    Older,
    /// It has committed.
    Committed,
    /// It has ended.
    Ended,
}

/// A transaction that doesn't go on: the number of its last record, and what it has come to.
#[derive(Clone, Copy)]
pub struct Over {
    pub txn: TxnId,
    pub last: Lsn,
    pub stage: Stage,
}

/// Transactions that don't go on: those that had begun before the log, and those that have committed
/// and not ended.
#[derive(Drop)]
pub struct Past {
    pub rows: Vec<Over>,
}

impl Past {
    // None of them.
    pub fn new(alloc: Global) -> Past
        ensures { (t : ℕ) → over_of t result.rows.items ≡ None }
    {
        Past {
            rows: Vec::new(alloc),
        }
    }

    // What is kept of this one.
    pub fn get(&self, txn: TxnId) -> Option<Over>
        ensures { result ≡ over_of txn.0 self.now.rows.items }
    {
        for over in &self.rows {
            if over.txn.0 == txn.0 {
                return Some(*over);
            }
        }
        None
    }

    // Keeps nothing of this one.
    fn forget(&mut self, txn: TxnId)
        ensures { (t : ℕ) → over_of t self.new.rows.items ≡ (if txn.0 == t then None else over_of t self.old.rows.items) }
    {
        self.rows.retain(|over| over.txn.0 != txn.0);
    }

    // Keeps this of its transaction, in place of what was kept.
    fn keep(&mut self, over: Over) -> Result<(), AllocError>
        ensures { OnOk result ((t : ℕ) → over_of t self.new.rows.items ≡ (if over.txn.0 == t then Some over else over_of t self.old.rows.items)) }
    {
        self.forget(over.txn);
        self.rows.push(over)?;
        Ok(())
    }

    // Keeps this of its transaction, unless that one lives, or its begin was in a log from `base` on and it has ended.
    pub fn change(&mut self, base: Lsn, over: Over, lives: bool) -> Result<(), AllocError>
        ensures { OnOk result ((t : ℕ) →
            over_of t self.new.rows.items ≡ (if over.txn.0 == t then past_behind base t over.last lives over.stage (over_of t self.old.rows.items) else over_of t self.old.rows.items)) }
    {
        match over.stage {
            Stage::Older => { if lives { Ok(()) } else { self.keep(over) } }
            Stage::Committed => self.keep(over),
            Stage::Ended => {
                if over.txn.0 < base {
                    self.keep(over)
                } else {
                    self.forget(over.txn);
                    Ok(())
                }
            }
        }
    }
}
