// Calls on an array.
ghost use Rattle.std.specs.Prelude.{◌≡◌, ◌+◌, ◌<◌, ◌≤◌, false, length, IfOk, OnOk, ⊤};
ghost use Rattle.sg_array.specs.Calls.{HasArray, CanApply, CanApplyBack, CanGet, CanPop, CanSet, Turns, IsPushed};
ghost use Rattle.sg_ops.specs.Table.{Table, table_of};
ghost use Rattle.sg_tests_steps.specs.Steps.{steps_view, Later, Means};
ghost use Rattle.sg_tests_steps.specs.Knows.{HasRoom, KnowsPush, Stays};

use crate::StepSpace;
use sg_base::PageNo;
use sg_ops::Ops;
use sg_space::SpaceFault;

/// Makes an array.
pub fn make(space: &mut StepSpace, ops: &Ops, size: u16) -> Result<PageNo, SpaceFault>
    requires some { 1 ≤ size }
    requires small { size ≤ 256 }
    requires room { HasRoom (steps_view space.old) 1 }
    requires means { Means space.old (table_of record_meaning range_meaning ops.now) }
    ensures later { Later (table_of record_meaning range_meaning ops.now) space.old space.new }
    ensures means { Means space.new (table_of record_meaning range_meaning ops.now) }
    ensures quiet { OnOk result (space.new.faults ≡ space.old.faults) }
    ensures few { space.new.records ≤ space.old.records + 3 }
{
    let found = sg_array::make(space, ops, size)?;
    Ok(found)
}

/// Reads the size, the length and the number of pages, and an item.
pub fn look(space: &mut StepSpace, root: PageNo, i: u32, into: &mut [u8]) -> Result<u32, SpaceFault>
    requires { HasArray (steps_view space.old) root.0 (CanGet i (length into.old)) }
    ensures later { (t : Table) → Later t space.old space.new }
    ensures means { (t : Table) → Means space.old t → Means space.new t }
    ensures quiet { OnOk result (space.new.faults ≡ space.old.faults) }
    ensures stays { Stays space.old space.new result }
{
    sg_array::size(space, root)?;
    sg_array::pages(space, root)?;
    sg_array::get(space, root, i, into)?;
    let found = sg_array::len(space, root)?;
    Ok(found)
}

/// Writes an item.
pub fn set(
    space: &mut StepSpace,
    ops: &Ops,
    root: PageNo,
    i: u32,
    item: &[u8],
) -> Result<(), SpaceFault>
    requires there { HasArray (steps_view space.old) root.0 (CanSet i (length item.now)) }
    requires means { Means space.old (table_of record_meaning range_meaning ops.now) }
    ensures later { Later (table_of record_meaning range_meaning ops.now) space.old space.new }
    ensures means { Means space.new (table_of record_meaning range_meaning ops.now) }
    ensures quiet { OnOk result (space.new.faults ≡ space.old.faults) }
    ensures few { space.new.records ≤ space.old.records + 1 }
{
    sg_array::set(space, ops, root, i, item)?;
    Ok(())
}

/// Takes the last item out.
pub fn pop(
    space: &mut StepSpace,
    ops: &Ops,
    root: PageNo,
    into: &mut [u8],
) -> Result<(), SpaceFault>
    requires there { HasArray (steps_view space.old) root.0 (CanPop (length into.old)) }
    requires means { Means space.old (table_of record_meaning range_meaning ops.now) }
    ensures later { Later (table_of record_meaning range_meaning ops.now) space.old space.new }
    ensures means { Means space.new (table_of record_meaning range_meaning ops.now) }
    ensures quiet { OnOk result (space.new.faults ≡ space.old.faults) }
    ensures few { space.new.records ≤ space.old.records + 2 }
{
    sg_array::pop(space, ops, root, into)?;
    Ok(())
}

/// Pushes an item.
pub fn push(space: &mut StepSpace, ops: &Ops, root: PageNo, item: &[u8]) -> Result<u32, SpaceFault>
    requires there { HasArray (steps_view space.old) root.0 (KnowsPush (steps_view space.old) (length item.now)) }
    requires means { Means space.old (table_of record_meaning range_meaning ops.now) }
    ensures later { Later (table_of record_meaning range_meaning ops.now) space.old space.new }
    ensures means { Means space.new (table_of record_meaning range_meaning ops.now) }
    ensures quiet { OnOk result (space.new.faults ≡ space.old.faults) }
    ensures few { space.new.records ≤ space.old.records + 8 }
{
    let found = sg_array::push(space, ops, root, item)?;
    Ok(found)
}

/// Does an operation to an item.
pub fn apply(
    space: &mut StepSpace,
    ops: &Ops,
    root: PageNo,
    i: u32,
    code: u16,
    arg: &[u8],
) -> Result<(), SpaceFault>
    requires there { HasArray (steps_view space.old) root.0
        (CanApply (table_of record_meaning range_meaning ops.now) i code arg.now) }
    requires short { length arg.now ≤ 256 }
    requires means { Means space.old (table_of record_meaning range_meaning ops.now) }
    ensures later { Later (table_of record_meaning range_meaning ops.now) space.old space.new }
    ensures means { Means space.new (table_of record_meaning range_meaning ops.now) }
    ensures quiet { OnOk result (space.new.faults ≡ space.old.faults) }
    ensures few { space.new.records ≤ space.old.records + 1 }
{
    sg_array::apply(space, ops, root, i, code, arg)?;
    Ok(())
}

/// Undoes an operation that left an item as it is.
pub fn apply_back(
    space: &mut StepSpace,
    ops: &Ops,
    root: PageNo,
    i: u32,
    code: u16,
    arg: &[u8],
) -> Result<(), SpaceFault>
    requires there { HasArray (steps_view space.old) root.0
        (CanApplyBack (table_of record_meaning range_meaning ops.now) i code arg.now) }
    requires short { length arg.now ≤ 256 }
    requires means { Means space.old (table_of record_meaning range_meaning ops.now) }
    ensures later { Later (table_of record_meaning range_meaning ops.now) space.old space.new }
    ensures means { Means space.new (table_of record_meaning range_meaning ops.now) }
    ensures quiet { OnOk result (space.new.faults ≡ space.old.faults) }
    ensures few { space.new.records ≤ space.old.records + 1 }
{
    sg_array::apply_back(space, ops, root, i, code, arg)?;
    Ok(())
}

/// Frees an array.
pub fn free_all(space: &mut StepSpace, root: PageNo) -> Result<(), SpaceFault>
    requires { HasArray (steps_view space.old) root.0 (λ _. ⊤) }
    ensures later { (t : Table) → Later t space.old space.new }
    ensures means { (t : Table) → Means space.old t → Means space.new t }
    ensures quiet { OnOk result (space.new.faults ≡ space.old.faults) }
    ensures few { space.new.records ≤ space.old.records + 70138 }
{
    sg_array::free_all(space, root)?;
    Ok(())
}
