// The losers of a log, as the transactions that opening undoes.
ghost use Rattle.std.specs.Prelude.{◌≡◌, ℕ, map, IfOk};
ghost use Rattle.sg_base.specs.declared.numbers.TxnId.{TxnId as Number};

use sg_analysis::Losers;
use sg_base::{OutOfMemory, TxnId};
use std::alloc::Global;

/// The numbers of the transactions that go on.
pub fn numbers_of(alloc: Global, losers: &Losers) -> Result<Vec<TxnId>, OutOfMemory>
    ensures { IfOk result (λ v. map (λ (x : Number). x.0) v.items ≡ map (λ (p : ℕ × ℕ). p.0) losers.now) }
{
    let mut numbers = Vec::new(alloc);
    for i in 0..losers.len() {
        let (txn, _) = losers.get(i);
        match numbers.push(txn) {
            Ok(()) => {}
            Err(_) => return Err(OutOfMemory),
        }
    }
    Ok(numbers)
}
