// Calls on a list.
ghost use Rattle.std.specs.Prelude.{◌≡◌, ◌+◌, ◌≤◌, length, OnOk};
ghost use Rattle.sg_list.specs.Items.{HasList, HasSized};
ghost use Rattle.sg_ops.specs.Table.{Table, table_of};
ghost use Rattle.sg_tests_steps.specs.Steps.{steps_view, Later, Means};
ghost use Rattle.sg_tests_steps.specs.Knows.{HasRoom, KnowsItem, Stays};

use crate::StepSpace;
use sg_base::PageNo;
use sg_ops::Ops;
use sg_space::SpaceFault;

/// Makes a list.
pub fn make(space: &mut StepSpace) -> Result<PageNo, SpaceFault>
    requires { HasRoom (steps_view space.old) 1 }
    ensures later { (t : Table) → Later t space.old space.new }
    ensures means { (t : Table) → Means space.old t → Means space.new t }
    ensures quiet { OnOk result (space.new.faults ≡ space.old.faults) }
    ensures few { space.new.records ≤ space.old.records + 2 }
{
    let root = sg_list::make(space)?;
    Ok(root)
}

/// Reads how many items there are, and one of them.
pub fn look(space: &mut StepSpace, root: PageNo, i: u16, into: &mut [u8]) -> Result<u16, SpaceFault>
    requires { HasList (steps_view space.old) root.0 (HasSized i (length into.old)) }
    ensures later { (t : Table) → Later t space.old space.new }
    ensures means { (t : Table) → Means space.old t → Means space.new t }
    ensures quiet { OnOk result (space.new.faults ≡ space.old.faults) }
    ensures stays { Stays space.old space.new result }
{
    let found = sg_list::count(space, root)?;
    sg_list::get(space, root, i, into)?;
    Ok(found)
}

/// Pushes an item.
pub fn push(space: &mut StepSpace, ops: &Ops, root: PageNo, item: &[u8]) -> Result<(), SpaceFault>
    requires there { HasList (steps_view space.old) root.0 (KnowsItem item.now) }
    requires means { Means space.old (table_of record_meaning range_meaning ops.now) }
    ensures later { Later (table_of record_meaning range_meaning ops.now) space.old space.new }
    ensures means { Means space.new (table_of record_meaning range_meaning ops.now) }
    ensures quiet { OnOk result (space.new.faults ≡ space.old.faults) }
    ensures few { space.new.records ≤ space.old.records + 1 }
{
    sg_list::push(space, ops, root, item)?;
    Ok(())
}
