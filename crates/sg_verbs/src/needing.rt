// What operations need.
ghost use Rattle.std.specs.Prelude.{◌≡◌, IfErr};
ghost use Rattle.sg_ops.specs.Table.{table_of};
ghost use Rattle.sg_model.specs.SaidOps.{said_op};
ghost use Rattle.sg_store.specs.Engine.{KeepsBy, AsMeantBy, AskedBy, IsEngine, Rests, Counts, IsObjDisk, IsReadFault, IsRefusedQuietly};
ghost use Rattle.sg_store.specs.Verbs.{Reads, CanLook, HasNeeds};
ghost use Rattle.sg_shown.specs.Shown.{shown};
ghost use Rattle.sg_verbs.specs.Looks.{is_need_failed, told_need};

use crate::pausing::{go_on, pause};
use sg_actions::{Acts, Engine};
use sg_model::Op;
use sg_objects::Needs;
use sg_ops::Ops;
use sg_store::{Needed, ObjFault};

// Whether a need failed for the space. Where an operation is refused all is as before.
fn has_failed(found: &Result<Needs, sg_objects::ObjFault>) -> bool
    ensures { result ≡ is_need_failed found.now }
{
    matches!(found, Err(sg_objects::ObjFault::Space(_)))
}

// A need as a store is told it.
fn told(found: Result<Needs, sg_objects::ObjFault>) -> Result<Needed, ObjFault>
    ensures { result ≡ told_need found }
{
    match found {
        Ok(n) => Ok(Needed {
            pages: n.pages,
            bands: n.bands,
            reserve: n.reserve,
        }),
        Err(sg_objects::ObjFault::Model(reason)) => Err(ObjFault::Model(reason)),
        Err(sg_objects::ObjFault::Space(fault)) => Err(ObjFault::Space(fault)),
    }
}

/// What an operation needs, or why it is refused.
pub fn needs<E: Engine>(acts: &mut Acts<E>, ops: &Ops, op: &Op<'_>) -> Result<Needed, ObjFault>
    requires can { AskedBy (table_of record_meaning range_meaning ops.now) (shown acts.old) (CanLook (table_of record_meaning range_meaning ops.now)) }
    ensures counts { Counts IsObjDisk (shown acts.old) (shown acts.new) result }
    ensures refused { IfErr result (IsRefusedQuietly (shown acts.old) (shown acts.new)) }
    ensures means { KeepsBy (table_of record_meaning range_meaning ops.now) (shown acts.old) (shown acts.new) }
    ensures tail { (shown acts.new).tail ≡ (shown acts.old).tail }
    ensures needs { let t = table_of record_meaning range_meaning ops.now in
        AsMeantBy t (shown acts.old) (shown acts.new) (λ g v w. (o : g.O)
        → IsEngine t g v → Reads t g v o → Rests t g v w
        × HasNeeds t g v w o (said_op op.now) result) }
    ensures reads { IfErr result IsReadFault }
{
    let was = pause(acts);
    let found = sg_objects::needs_of(acts, ops, op);
    match go_on(acts, was, has_failed(&found)) {
        Ok(()) => told(found),
        Err(fault) => Err(ObjFault::Space(fault)),
    }
}
