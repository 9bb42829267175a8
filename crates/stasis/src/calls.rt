// The begin of a transaction and its operations, by what is known of a store.
ghost use Rattle.std.specs.Prelude.{◌≡◌, ◌⊎◌, ◌≤◌, ◌++◌, ℕ, List, [], ◌∷◌, None, Ok, IfOk, IfErr, IsSome, OnOk, length, true};
ghost use Rattle.sg_core.specs.Live.{is_live};
ghost use Rattle.sg_model.specs.Objects.{Objects as Model};
ghost use Rattle.sg_model.specs.SaidOps.{said_op};
ghost use Rattle.sg_model.specs.SaidReplies.{said_reply};
ghost use Rattle.sg_model.specs.Step.{step};
ghost use Rattle.sg_ops.specs.Table.{Table as Operations, table_of};
ghost use Rattle.sg_store.specs.Heeds.{Heeds};
ghost use Rattle.sg_store.specs.Seen.{core_of, Serves, IsServed};
ghost use Rattle.stasis.specs.Telling.{TellsObjects, shown_of};

use sg_base::TxnId;
use sg_model::{Op, Reply};
use sg_ops::Ops;
use sg_store::{Objects, Refused, Store};

/// Begins a transaction, as `Store::begin` does. A refusal changes nothing, unless the store has stopped.
pub fn begin_transaction<E: Objects>(store: &mut Store<E>) -> Result<TxnId, Refused>
    requires { IsServed store.old }
    ensures serves { (t : Operations) → Serves t store.old → Serves t store.new }
    // one more transaction is live, and the objects are as before
    ensures begun { (t : Operations) (live : List ℕ) (objects durable : Model) → TellsObjects t store.old live objects durable
        → IfOk result (λ txn. TellsObjects t store.new (live ++ txn.0 ∷ []) objects durable) }
    ensures refused { IfErr result (λ why. (store.new ≡ store.old) ⊎ IsSome (core_of store.new).stopped) }
    // on any engine
    ensures heeds { Heeds (core_of store.old).stopped (core_of store.new).stopped (shown_of store.old) (shown_of store.new) }
{
    store.begin()
}

/// Does an operation of a transaction, as `Store::perform` does: bytes of a reply stand at the front of `into`, which has room for 8,192.
/// A refusal leaves the objects as they were, and ends nothing, unless the store has stopped.
pub fn perform_operation<E: Objects>(
    store: &mut Store<E>,
    ops: &Ops,
    txn: TxnId,
    op: &Op<'_>,
    into: &mut [u8],
) -> Result<Reply, Refused>
    requires into { 8192 ≤ length into.old }
    requires serves { Serves (table_of record_meaning range_meaning ops.now) store.old }
    ensures serves { Serves (table_of record_meaning range_meaning ops.now) store.new }
    // the reply and the objects are the step's
    ensures done { let t = table_of record_meaning range_meaning ops.now in
        (live : List ℕ) (objects durable : Model) → TellsObjects t store.old live objects durable
        → IfOk result (λ r. let s = step t objects (said_op op.now) in (s.0 ≡ Ok (said_reply into.new r)) × TellsObjects t store.new live s.1 durable) }
    ensures refused { let t = table_of record_meaning range_meaning ops.now in
        (live : List ℕ) (objects durable : Model) → TellsObjects t store.old live objects durable
        → IfErr result (λ why. (core_of store.new).stopped ≡ None → TellsObjects t store.new live objects durable) }
    // on any engine
    ensures live { OnOk result (is_live (core_of store.old).live txn.0 ≡ true) }
    ensures heeds { Heeds (core_of store.old).stopped (core_of store.new).stopped (shown_of store.old) (shown_of store.new) }
{
    store.perform(ops, txn, op, into)
}
