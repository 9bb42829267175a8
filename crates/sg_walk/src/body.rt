// One object of a kind.
ghost use Rattle.std.specs.Prelude.{◌≡◌, true, Some, slice_get, IfErr, OnOk};
ghost use Rattle.sg_ops.specs.Table.{Table};
ghost use Rattle.sg_reach.specs.Fault.{CountsReach, WritesNoneReach, IfBroken, IsReached};
ghost use Rattle.sg_space.specs.View.{OnlyReads};
ghost use Rattle.sg_walk.specs.Bodies.{CanReachBody, ReachesBody};

use sg_alloc::Maps;
use sg_bands::reach_blob;
use sg_base::PageNo;
use sg_catalog::ObjectKind;
use sg_reach::{ReachFault, reach_array};
use sg_space::PageSpace;
use sg_tables::reach_table;

/// Sets the pages and bands of the object of this kind whose root page `from` names. It is looked that they are such an
/// object's. Errors are those of the walk over its kind.
pub fn reach_body<P: PageSpace>(
    space: &mut P,
    from: PageNo,
    kind: ObjectKind,
    root: PageNo,
    into: &mut Maps,
) -> Result<(), ReachFault>
    requires { (P.view space.old).Told → CanReachBody (P.view space.old).space kind root.0 into.old }
    ensures counts { CountsReach (P.view space.old) (P.view space.new) result }
    ensures kept { OnOk result (OnlyReads (P.view space.old) (P.view space.new)) }
    ensures reached { OnOk result ((P.view space.old).Shows
        → ReachesBody (P.view space.old).space kind root.0 into.old into.new) }
    ensures broken { IfErr result (IfBroken ((P.view space.old).Shows
        → ¬ CanReachBody (P.view space.old).space kind root.0 into.old)) }
    ensures later { (t : Table) → P.later t space.old space.new }
    ensures means { (t : Table) → P.means space.old t → P.means space.new t }
    ensures writes { WritesNoneReach (P.view space.old) (P.view space.new) result }
    ensures place { IfErr result (IsReached ((P.view space.old).Shows × (slice_get into.old.pages from.0 ≡ Some true)) into.new.pages) }
{
    match kind {
        ObjectKind::Array => {
            reach_array(space, from, root, into)?;
            Ok(())
        }
        ObjectKind::Table => {
            reach_table(space, from, root, into)?;
            Ok(())
        }
        ObjectKind::Blob => {
            reach_blob(space, from, root, into)?;
            Ok(())
        }
    }
}
