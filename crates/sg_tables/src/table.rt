// From the root of a table to its buckets.
ghost use Rattle.std.specs.Prelude.{◌≡◌, true, Some, slice_get, IfErr, OnOk};
ghost use Rattle.sg_ops.specs.Table.{Table};
ghost use Rattle.sg_reach.specs.Fault.{CountsReach, WritesNoneReach, IfBroken, IsReached};
ghost use Rattle.sg_space.specs.View.{OnlyReads};
ghost use Rattle.sg_tables.specs.Reached.{CanReachTable, ReachesTable};

use crate::buckets::reach_buckets;
use crate::root::{is_directory, read_trunk};
use sg_alloc::Maps;
use sg_base::PageNo;
use sg_reach::{ReachFault, reach_array, read_numbers, set_page};
use sg_space::PageSpace;

/// Sets the pages of the table whose root page `from` names: its root, those of its directory and those of its
/// buckets. It is looked that they are a table's, of which no key is empty: the directory is an array of one name for
/// each bucket, each entry is in the bucket of its key, each key stands once, and the root counts entries and bytes.
///
/// An error is the space's own, or `Broken`: with the root where its page or a count is wrong, with the directory where
/// that is none for such a table, and else with a page that is wrong or names a page that can't be set. Some pages
/// may be set then.
pub fn reach_table<P: PageSpace>(
    space: &mut P,
    from: PageNo,
    root: PageNo,
    into: &mut Maps,
) -> Result<(), ReachFault>
    requires { (P.view space.old).Told
        → CanReachTable (P.view space.old).space.pages.at root.0 into.old.pages }
    ensures counts { CountsReach (P.view space.old) (P.view space.new) result }
    ensures kept { OnOk result (OnlyReads (P.view space.old) (P.view space.new)) }
    ensures bands { into.new.bands ≡ into.old.bands }
    ensures reached { OnOk result ((P.view space.old).Shows
        → ReachesTable (P.view space.old).space.pages.at root.0 into.old.pages into.new.pages) }
    ensures broken { IfErr result (IfBroken ((P.view space.old).Shows
        → ¬ CanReachTable (P.view space.old).space.pages.at root.0 into.old.pages)) }
    ensures later { (t : Table) → P.later t space.old space.new }
    ensures means { (t : Table) → P.means space.old t → P.means space.new t }
    ensures writes { WritesNoneReach (P.view space.old) (P.view space.new) result }
    ensures place { IfErr result (IsReached ((P.view space.old).Shows × (slice_get into.old.pages from.0 ≡ Some true)) into.new.pages) }
{
    set_page(into, from, root)?;
    let trunk = read_trunk(space, root)?;
    reach_array(space, root, trunk.directory, into)?;
    let names = read_numbers(space, trunk.directory)?;
    if !is_directory(trunk.root, names) {
        return Err(ReachFault::Broken(trunk.directory));
    }
    let sums = reach_buckets(space, trunk.directory, trunk.root.extent, into)?;
    let many = u64::from(trunk.root.entries);
    if sums.entries != many {
        return Err(ReachFault::Broken(root));
    }
    if sums.bytes != trunk.root.bytes {
        return Err(ReachFault::Broken(root));
    }
    Ok(())
}
