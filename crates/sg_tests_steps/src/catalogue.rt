// Calls on the catalogue.
ghost use Rattle.std.specs.Prelude.{◌≡◌, ◌+◌, ◌≤◌, false, OnOk, ⊤};
ghost use Rattle.sg_catalog.specs.Calls.{HasCatalog, HasOne, CanRaise};
ghost use Rattle.sg_catalog.specs.Catalog.{is_there, is_tomb_at};
ghost use Rattle.sg_ops.specs.Table.{Table, table_of};
ghost use Rattle.sg_tests_steps.specs.Steps.{steps_view, Later, Means};
ghost use Rattle.sg_tests_steps.specs.Knows.{KnowsAdd, Stays};

use crate::StepSpace;
use sg_base::{Name, PageNo, TxnId};
use sg_catalog::Entry;
use sg_ops::Ops;
use sg_space::{ListFault, SpaceFault};
use std::alloc::Global;

/// Finds an object, and a tombstone of anybody.
pub fn look(space: &mut StepSpace, name: Name) -> Result<Option<Entry>, SpaceFault>
    requires { HasCatalog (steps_view space.old) (λ _. ⊤) }
    ensures later { (t : Table) → Later t space.old space.new }
    ensures means { (t : Table) → Means space.old t → Means space.new t }
    ensures quiet { OnOk result (space.new.faults ≡ space.old.faults) }
    ensures stays { Stays space.old space.new result }
{
    sg_catalog::next_buried(space, None)?;
    let found = sg_catalog::find(space, name)?;
    Ok(found)
}

/// The names of all objects.
pub fn names(space: &mut StepSpace, alloc: Global) -> Result<Vec<Name>, ListFault>
    requires { HasCatalog (steps_view space.old) (λ _. ⊤) }
    ensures later { (t : Table) → Later t space.old space.new }
    ensures means { (t : Table) → Means space.old t → Means space.new t }
    ensures records { space.new.records ≡ space.old.records }
    ensures still { OnOk result (space.old.changed ≡ false → space.new.changed ≡ false) }
{
    let found = sg_catalog::names(space, alloc)?;
    Ok(found)
}

/// Gives an object a name.
pub fn add(space: &mut StepSpace, ops: &Ops, name: Name, object: Entry) -> Result<(), SpaceFault>
    requires there { HasCatalog (steps_view space.old) (KnowsAdd (steps_view space.old) name) }
    requires means { Means space.old (table_of record_meaning range_meaning ops.now) }
    ensures later { Later (table_of record_meaning range_meaning ops.now) space.old space.new }
    ensures means { Means space.new (table_of record_meaning range_meaning ops.now) }
    ensures quiet { OnOk result (space.new.faults ≡ space.old.faults) }
    ensures few { space.new.records ≤ space.old.records + 5 }
{
    sg_catalog::add(space, ops, name, object)?;
    Ok(())
}

/// Makes an object a tombstone.
pub fn bury(space: &mut StepSpace, ops: &Ops, name: Name, by: TxnId) -> Result<(), SpaceFault>
    requires there { HasCatalog (steps_view space.old) (HasOne (is_there name)) }
    requires means { Means space.old (table_of record_meaning range_meaning ops.now) }
    ensures later { Later (table_of record_meaning range_meaning ops.now) space.old space.new }
    ensures means { Means space.new (table_of record_meaning range_meaning ops.now) }
    ensures quiet { OnOk result (space.new.faults ≡ space.old.faults) }
    ensures few { space.new.records ≤ space.old.records + 1 }
{
    sg_catalog::bury(space, ops, name, by)?;
    Ok(())
}

/// Makes a tombstone the object again.
pub fn unbury(space: &mut StepSpace, ops: &Ops, name: Name, root: PageNo) -> Result<(), SpaceFault>
    requires there { HasCatalog (steps_view space.old) (CanRaise name root.0) }
    requires means { Means space.old (table_of record_meaning range_meaning ops.now) }
    ensures later { Later (table_of record_meaning range_meaning ops.now) space.old space.new }
    ensures means { Means space.new (table_of record_meaning range_meaning ops.now) }
    ensures quiet { OnOk result (space.new.faults ≡ space.old.faults) }
    ensures few { space.new.records ≤ space.old.records + 1 }
{
    sg_catalog::unbury(space, ops, name, root)?;
    Ok(())
}

/// Takes an object out.
pub fn remove(space: &mut StepSpace, ops: &Ops, name: Name) -> Result<(), SpaceFault>
    requires there { HasCatalog (steps_view space.old) (HasOne (is_there name)) }
    requires means { Means space.old (table_of record_meaning range_meaning ops.now) }
    ensures later { Later (table_of record_meaning range_meaning ops.now) space.old space.new }
    ensures means { Means space.new (table_of record_meaning range_meaning ops.now) }
    ensures quiet { OnOk result (space.new.faults ≡ space.old.faults) }
    ensures few { space.new.records ≤ space.old.records + 1 }
{
    sg_catalog::remove(space, ops, name)?;
    Ok(())
}

/// Takes a tombstone out.
pub fn forget(space: &mut StepSpace, ops: &Ops, root: PageNo) -> Result<(), SpaceFault>
    requires there { HasCatalog (steps_view space.old) (HasOne (is_tomb_at root.0)) }
    requires means { Means space.old (table_of record_meaning range_meaning ops.now) }
    ensures later { Later (table_of record_meaning range_meaning ops.now) space.old space.new }
    ensures means { Means space.new (table_of record_meaning range_meaning ops.now) }
    ensures quiet { OnOk result (space.new.faults ≡ space.old.faults) }
    ensures few { space.new.records ≤ space.old.records + 1 }
{
    sg_catalog::forget(space, ops, root)?;
    Ok(())
}
