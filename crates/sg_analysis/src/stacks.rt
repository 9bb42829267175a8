ghost use Rattle.std.specs.Prelude.{◌≡◌, ◌∷◌, ◌==◌, ◌≤◌, if◌then◌else◌, ℕ, List, [], length, OnOk};
ghost use Rattle.sg_analysis.specs.Analysis.{oldest_first};
ghost use Rattle.sg_analysis.specs.Firsts.{first, second, rest, cut_to};
ghost use Rattle.sg_analysis.specs.Stacks.{numbers_of, Keeps, Becomes};

use sg_base::{Lsn, TxnId};
use std::alloc::{AllocError, Global};
use std::collections::HashMap;

/// Numbers that are kept of transactions, a stack of them for each.
#[derive(Drop)]
pub struct Stacks {
    numbers: HashMap<u64, Vec<Lsn>>,
    alloc: Global,
}

// Takes the newest numbers off, as long as they are above this one.
fn cut_off(numbers: &mut Vec<Lsn>, least: Lsn)
    ensures { (ns : List ℕ) → numbers.old.items ≡ oldest_first ns → numbers.new.items ≡ oldest_first (cut_to least ns) }
{
    'above: while !numbers.is_empty() {
        if numbers[numbers.len() - 1] <= least {
            return;
        }
        numbers.truncate(numbers.len() - 1);
    }
}

impl Stacks {
    // None for any.
    pub fn new(alloc: Global) -> Stacks
        ensures { (t : ℕ) → Keeps result t [] }
    {
        Stacks {
            numbers: HashMap::new(alloc),
            alloc,
        }
    }

    // The newest of a transaction.
    pub fn newest(&self, txn: TxnId) -> Option<Lsn>
        ensures { (ns : List ℕ) → Keeps self.now txn.0 ns → result ≡ first ns }
    {
        match self.numbers.get(&txn.0) {
            None => None,
            Some(numbers) => numbers.last().copied(),
        }
    }

    // The one before that.
    pub fn second(&self, txn: TxnId) -> Option<Lsn>
        ensures { (ns : List ℕ) → Keeps self.now txn.0 ns → result ≡ second ns }
    {
        match self.numbers.get(&txn.0) {
            None => None,
            Some(numbers) => {
                if numbers.len() < 2 {
                    return None;
                }
                Some(numbers[numbers.len() - 2])
            }
        }
    }

    // Those of a transaction, of which nothing is kept then.
    pub fn take(&mut self, txn: TxnId) -> Vec<Lsn>
        ensures taken { result.items ≡ numbers_of self.old txn.0 }
        ensures left { (t : ℕ) → numbers_of self.new t ≡ (if txn.0 == t then [] else numbers_of self.old t) }
    {
        match self.numbers.remove(&txn.0) {
            Some(numbers) => numbers,
            None => Vec::new(self.alloc),
        }
    }

    // Keeps these of a transaction.
    fn keep(&mut self, txn: TxnId, numbers: Vec<Lsn>) -> Result<(), AllocError>
        ensures { OnOk result ((t : ℕ) → numbers_of self.new t ≡ (if txn.0 == t then numbers.items else numbers_of self.old t)) }
    {
        self.numbers.insert(txn.0, numbers)?;
        Ok(())
    }

    // With this number on the stack of its transaction.
    pub fn push(&mut self, txn: TxnId, number: Lsn) -> Result<(), AllocError>
        ensures { OnOk result (Becomes self.old self.new txn.0 (λ ns. number ∷ ns)) }
    {
        let mut numbers = self.take(txn);
        numbers.push(number)?;
        self.keep(txn, numbers)
    }

    // Without the newest of a transaction.
    pub fn pop(&mut self, txn: TxnId) -> Result<(), AllocError>
        ensures { OnOk result (Becomes self.old self.new txn.0 rest) }
    {
        let mut numbers = self.take(txn);
        numbers.truncate(numbers.len().saturating_sub(1));
        self.keep(txn, numbers)
    }

    // Without the newest of a transaction, as long as they are above this one.
    pub fn cut(&mut self, txn: TxnId, least: Lsn) -> Result<(), AllocError>
        ensures { OnOk result (Becomes self.old self.new txn.0 (cut_to least)) }
    {
        let mut numbers = self.take(txn);
        cut_off(&mut numbers, least);
        self.keep(txn, numbers)
    }

    // Without any of a transaction.
    pub fn forget(&mut self, txn: TxnId)
        ensures { Becomes self.old self.new txn.0 (λ ns. []) }
    {
        let _numbers = self.take(txn);
    }
}
