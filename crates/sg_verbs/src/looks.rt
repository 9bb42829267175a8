// What operations touch and need: looks at the objects.
ghost use Rattle.std.specs.Prelude.{◌≡◌, OnOk, IfErr};
ghost use Rattle.sg_model.specs.SaidOps.{said_op};
ghost use Rattle.sg_model.specs.TouchList.{shown_touches};
ghost use Rattle.sg_model.specs.Touches.{touches};
ghost use Rattle.sg_model.specs.Verb.Op.{On};
ghost use Rattle.sg_model.specs.Verb.Verb.{Keys};
ghost use Rattle.sg_store.specs.Engine.{Keeps, AsMeant, Asked, IsEngine, Rests, Rested, Counts, IsDiskFault};
ghost use Rattle.sg_store.specs.Verbs.{Reads, CanLook};
ghost use Rattle.sg_shown.specs.Shown.{shown};

use crate::pausing::{go_on, pause};
use sg_actions::{Acts, Engine};
use sg_base::Name;
use sg_model::{Op, Touches};
use sg_space::SpaceFault;

/// What an operation touches.
pub fn touches<E: Engine>(
    acts: &mut Acts<E>,
    op: &Op<'_>,
    into: &mut Touches,
) -> Result<(), SpaceFault>
    requires can { Asked (shown acts.old) CanLook }
    ensures counts { Counts IsDiskFault (shown acts.old) (shown acts.new) result }
    ensures means { Keeps (shown acts.old) (shown acts.new) }
    ensures tail { (shown acts.new).tail ≡ (shown acts.old).tail }
    ensures touches { AsMeant (shown acts.old) (shown acts.new) (λ t g v w. (o : g.O)
        → IsEngine t g v → Reads t g v o → Rests t g v w × OnOk result (Rested t g v w
        × (shown_touches into.new ≡ touches (g.objects o) (said_op op.now)))) }
    ensures reads { IfErr result IsDiskFault }
{
    let was = pause(acts);
    let done = sg_objects::touches(acts, op, into);
    match go_on(acts, was, done.is_err()) {
        Ok(()) => done,
        Err(fault) => Err(fault),
    }
}

/// What the list of a table's keys touches.
pub fn touches_keys<E: Engine>(
    acts: &mut Acts<E>,
    name: Name,
    into: &mut Touches,
) -> Result<(), SpaceFault>
    requires can { Asked (shown acts.old) CanLook }
    ensures counts { Counts IsDiskFault (shown acts.old) (shown acts.new) result }
    ensures means { Keeps (shown acts.old) (shown acts.new) }
    ensures tail { (shown acts.new).tail ≡ (shown acts.old).tail }
    ensures touches { AsMeant (shown acts.old) (shown acts.new) (λ t g v w. (o : g.O)
        → IsEngine t g v → Reads t g v o → Rests t g v w × OnOk result (Rested t g v w
        × (shown_touches into.new ≡ touches (g.objects o) (On name Keys)))) }
    ensures reads { IfErr result IsDiskFault }
{
    let was = pause(acts);
    let done = sg_objects::touches_keys(acts, name, into);
    match go_on(acts, was, done.is_err()) {
        Ok(()) => done,
        Err(fault) => Err(fault),
    }
}
