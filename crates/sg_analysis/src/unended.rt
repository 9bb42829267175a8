ghost use Rattle.std.specs.Prelude.{◌≡◌, ◌+◌, ◌≤◌, ℕ, [], List, map, slice_get, option_map, OnOk};
ghost use Rattle.std.specs.Option.{IfSome};
ghost use Rattle.sg_record.specs.Records.{Record};
ghost use Rattle.sg_analysis.specs.Unended.{start_of, has_start, starts_behind};
ghost use Rattle.sg_analysis.specs.Placed.{IsInFrame, AreInFrames, ArePlaced};

use sg_base::{Lsn, TxnId};
use std::alloc::{AllocError, Global};

/// An action: whose it is, the number of its first record, and the offset of the gate of that one's frame.
#[derive(Clone, Copy)]
pub struct Begun {
    pub txn: TxnId,
    pub lsn: Lsn,
    pub gate: u64,
}

/// The actions of a log that have no end, in the order of their begins.
#[derive(Drop)]
pub struct Unended {
    pub actions: Vec<Begun>,
}

impl Unended {
    // None of them.
    pub fn new(alloc: Global) -> Unended
        ensures { result.actions.items ≡ [] }
    {
        Unended {
            actions: Vec::new(alloc),
        }
    }

    // Whether this transaction has one.
    fn has(&self, txn: TxnId) -> bool
        ensures { result ≡ has_start txn.0 (map start_of self.now.actions.items) }
    {
        for action in &self.actions {
            if action.txn.0 == txn.0 {
                return true;
            }
        }
        false
    }

    // Those behind a record, of which it is told whether it ends actions.
    pub fn change(&mut self, begun: Begun, ends: bool) -> Result<(), AllocError>
        ensures actions { OnOk result (map start_of self.new.actions.items ≡ starts_behind begun.txn.0 begun.lsn ends (map start_of self.old.actions.items)) }
        ensures placed { (base : ℕ) (frames : List (List Record)) (from : ℕ) → from ≤ begun.lsn → ArePlaced base frames begun.gate from begun.lsn self.old.actions.items →
            OnOk result (ArePlaced base frames begun.gate from (begun.lsn + 1) self.new.actions.items) }
    {
        if ends {
            self.actions.retain(|action| action.txn.0 != begun.txn.0);
            return Ok(());
        }
        if self.has(begun.txn) {
            return Ok(());
        }
        self.actions.push(begun)?;
        Ok(())
    }

    // The one at this place, if there are as many.
    pub fn get(&self, i: usize) -> Option<Begun>
        ensures action { option_map start_of result ≡ slice_get (map start_of self.now.actions.items) i }
        ensures placed { (base : ℕ) (frames : List (List Record)) → AreInFrames base frames self.now.actions.items → IfSome result (λ b. IsInFrame base b.gate b.lsn frames) }
    {
        self.actions.get(i).copied()
    }
}
