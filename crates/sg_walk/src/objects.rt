// The walk with marks of its own.
ghost use Rattle.std.specs.Prelude.{◌≡◌, true, Some, slice_get, IfErr, OnOk};
ghost use Rattle.sg_ops.specs.Table.{Table};
ghost use Rattle.sg_reach.specs.Fault.{CountsReach, WritesNoneReach, IfBroken, IsReached};
ghost use Rattle.sg_space.specs.View.{OnlyReads};
ghost use Rattle.sg_walk.specs.Rows.{CanReach, Reaches};

use crate::walk::reach;
use sg_alloc::Maps;
use sg_reach::ReachFault;
use sg_space::PageSpace;

// How many marks tell names apart.
const MARKS: usize = 65_536;

/// Sets the pages and bands that the objects of a space reach, page 0 aside, which is set already: those of the
/// catalogue, and those of each array, table and blob that it names, tombstones' too, each once. It is looked that they
/// are theirs. It lends the walk 65,536 marks from the stack, and takes no memory.
///
/// An error is the space's own, or `Broken` with a page that was reached, and is set: one that is wrong, names what
/// can't be set, or has a name or a key twice. Some pages and bands may be set then.
pub fn reach_objects<P: PageSpace>(space: &mut P, into: &mut Maps) -> Result<(), ReachFault>
    requires first { slice_get into.old.pages 0 ≡ Some true }
    requires there { (P.view space.old).Told → CanReach (P.view space.old).space into.old }
    ensures counts { CountsReach (P.view space.old) (P.view space.new) result }
    ensures kept { OnOk result (OnlyReads (P.view space.old) (P.view space.new)) }
    ensures reached { OnOk result ((P.view space.old).Shows → Reaches (P.view space.old).space into.old into.new) }
    ensures broken { IfErr result (IfBroken ((P.view space.old).Shows → ¬ CanReach (P.view space.old).space into.old)) }
    ensures place { IfErr result (IsReached (P.view space.old).Shows into.new.pages) }
    ensures writes { WritesNoneReach (P.view space.old) (P.view space.new) result }
    ensures later { (t : Table) → P.later t space.old space.new }
    ensures means { (t : Table) → P.means space.old t → P.means space.new t }
{
    let mut marks = [false; MARKS];
    reach(space, into, &mut marks)
}
