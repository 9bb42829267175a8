//! What an application's calls in a row come to, over any store. Each asks what the one before it gave, so
//! that nothing is left for the application to show; and at rest the store has the objects that the
//! operation makes, and each image that a crash leaves stands for exactly these.
#![tactic(auto)]

ghost use Rattle.std.specs.Prelude.{◌≡◌, ◌≤◌, length, [], IfOk};
ghost use Rattle.sg_ops.specs.Table.{table_of};
ghost use Rattle.sg_model.specs.Objects.{Objects as Model};
ghost use Rattle.sg_model.specs.SaidOps.{said_op};
ghost use Rattle.sg_model.specs.SaidReplies.{said_reply};
ghost use Rattle.sg_model.specs.Step.{step};
ghost use Rattle.sg_store.specs.Engine.{AskedBy};
ghost use Rattle.sg_store.specs.Rests.{Has, HasDone};
ghost use Rattle.sg_store.specs.Seen.{core_of, Serves};

#[cfg(test)]
mod rows;
#[cfg(test)]
mod small;
#[cfg(test)]
mod trial;

use sg_model::{Op, Reply};
use sg_ops::Ops;
use sg_store::{Objects, Refused, Store};

/// Does one operation in a transaction of its own. Where it is refused the transaction is taken back.
pub fn do_one<E: Objects>(
    store: &mut Store<E>,
    ops: &Ops,
    op: &Op<'_>,
    into: &mut [u8],
) -> Result<Reply, Refused>
    requires into { 8192 ≤ length into.old }
    requires serves { Serves (table_of record_meaning range_meaning ops.now) store.old }
    ensures serves { Serves (table_of record_meaning range_meaning ops.now) store.new }
    ensures rests { let t = table_of record_meaning range_meaning ops.now in
        (objects : Model) → Has t store.old [] objects objects
        → IfOk result (λ r. AskedBy t (E.view store.new.engine) (HasDone [] objects (step t objects (said_op op.now)).1 (said_op op.now) (said_reply into.new r) (core_of store.new) t)) }
{
    let txn = match store.begin() {
        Ok(txn) => txn,
        Err(why) => return Err(why),
    };
    let reply = match store.perform(ops, txn, op, into) {
        Ok(reply) => reply,
        Err(why) => match store.abort(ops, txn) {
            Ok(()) => return Err(why),
            Err(other) => return Err(other),
        },
    };
    match store.commit(ops, txn) {
        Ok(()) => Ok(reply),
        Err(why) => Err(why),
    }
}
