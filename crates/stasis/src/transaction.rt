// The end of a transaction, by what its work answered.
ghost use Rattle.std.specs.Prelude.{◌≡◌, ◌⊎◌, [], ◌∷◌, Ok, Err, IfOk, IfErr, OnErr, IsSome, false};
ghost use Rattle.sg_core.specs.Live.{is_live};
ghost use Rattle.sg_model.specs.Objects.{Objects as Model};
ghost use Rattle.sg_ops.specs.Table.{table_of};
ghost use Rattle.sg_store.specs.Heeds.{Heeds};
ghost use Rattle.sg_store.specs.Seen.{core_of, Serves};
ghost use Rattle.stasis.specs.Telling.{TellsObjects, shown_of};

use sg_base::TxnId;
use sg_ops::Ops;
use sg_store::{Objects, Refused, Store};

/// Ends a transaction by what its work answered: commits it where that is `Ok`, and takes back what it did where that is `Err`. The
/// answer is the work's own, or why the commit or the abort was refused.
///
/// An application writes `let txn = store.begin()?`, does the work in a function of its own, which may stop at any refusal by `?`, and
/// hands its answer in here. Behind it the transaction isn't live, or the store has stopped.
pub fn end_transaction<E: Objects, T: Drop, F: From<Refused> + Drop>(
    store: &mut Store<E>,
    ops: &Ops,
    txn: TxnId,
    did: Result<T, F>,
) -> Result<T, F>
    requires serves { Serves (table_of record_meaning range_meaning ops.now) store.old }
    ensures serves { Serves (table_of record_meaning range_meaning ops.now) store.new }
    ensures same { IfOk result (λ answer. did ≡ Ok answer) }
    // what was done is durable, where no other transaction is live
    ensures kept { let t = table_of record_meaning range_meaning ops.now in
        (objects durable : Model) → TellsObjects t store.old (txn.0 ∷ []) objects durable → IfOk result (λ answer. TellsObjects t store.new [] objects objects) }
    // work that failed is taken back, and answered as it was: the objects are those before the begin. Or the store has stopped
    ensures taken_back { let t = table_of record_meaning range_meaning ops.now in
        (objects durable : Model) → TellsObjects t store.old (txn.0 ∷ []) objects durable
        → IfErr did (λ why. ((result ≡ Err why) × TellsObjects t store.new [] durable durable) ⊎ IsSome (core_of store.new).stopped) }
    // where the commit is refused the store has stopped
    ensures stops { let t = table_of record_meaning range_meaning ops.now in
        (objects durable : Model) → TellsObjects t store.old (txn.0 ∷ []) objects durable
        → IfOk did (λ answer. OnErr result (IsSome (core_of store.new).stopped)) }
    // on any engine
    ensures ended { (is_live (core_of store.new).live txn.0 ≡ false) ⊎ IsSome (core_of store.new).stopped }
    ensures heeds { Heeds (core_of store.old).stopped (core_of store.new).stopped (shown_of store.old) (shown_of store.new) }
{
    match did {
        Ok(answer) => {
            store.commit(ops, txn)?;
            Ok(answer)
        }
        Err(why) => {
            store.abort(ops, txn)?;
            Err(why)
        }
    }
}
