// Calls on a hash table.
ghost use Rattle.std.specs.Prelude.{◌≡◌, ◌+◌, ◌≤◌, false, length, IfOk, OnOk, ⊤};
ghost use Rattle.sg_hash.specs.Calls.{HasHashTable};
ghost use Rattle.sg_ops.specs.Table.{Table, table_of};
ghost use Rattle.sg_tests_steps.specs.Steps.{steps_view, Later, Means};
ghost use Rattle.sg_tests_steps.specs.Knows.{HasRoom, KnowsPut, Stays};

use crate::StepSpace;
use sg_base::PageNo;
use sg_bucket::Bytes;
use sg_ops::Ops;
use sg_space::{ListFault, SpaceFault};
use std::alloc::Global;

/// Makes a table.
pub fn make(space: &mut StepSpace, ops: &Ops) -> Result<PageNo, SpaceFault>
    requires room { HasRoom (steps_view space.old) 5 }
    requires means { Means space.old (table_of record_meaning range_meaning ops.now) }
    ensures later { Later (table_of record_meaning range_meaning ops.now) space.old space.new }
    ensures means { Means space.new (table_of record_meaning range_meaning ops.now) }
    ensures quiet { OnOk result (space.new.faults ≡ space.old.faults) }
    ensures few { space.new.records ≤ space.old.records + 17 }
{
    let found = sg_hash::make(space, ops)?;
    Ok(found)
}

/// Looks for a key.
pub fn find(
    space: &mut StepSpace,
    root: PageNo,
    key: &[u8],
    into: &mut [u8],
) -> Result<Option<usize>, SpaceFault>
    requires room { 1024 ≤ length into.old }
    requires there { HasHashTable (steps_view space.old) root.0 (λ _. ⊤) }
    ensures later { (t : Table) → Later t space.old space.new }
    ensures means { (t : Table) → Means space.old t → Means space.new t }
    ensures quiet { OnOk result (space.new.faults ≡ space.old.faults) }
    ensures stays { Stays space.old space.new result }
{
    let found = sg_hash::find(space, root, key, into)?;
    Ok(found)
}

/// The keys of all entries.
pub fn keys(space: &mut StepSpace, root: PageNo, alloc: Global) -> Result<Vec<Bytes>, ListFault>
    requires { HasHashTable (steps_view space.old) root.0 (λ _. ⊤) }
    ensures later { (t : Table) → Later t space.old space.new }
    ensures means { (t : Table) → Means space.old t → Means space.new t }
    ensures records { space.new.records ≡ space.old.records }
    ensures still { OnOk result (space.old.changed ≡ false → space.new.changed ≡ false) }
{
    let found = sg_hash::keys(space, root, alloc)?;
    Ok(found)
}

/// Puts an entry.
pub fn put(
    space: &mut StepSpace,
    ops: &Ops,
    root: PageNo,
    key: &[u8],
    value: &[u8],
    split: bool,
) -> Result<bool, SpaceFault>
    requires key { length key.now ≤ 128 }
    requires value { length value.now ≤ 1024 }
    requires there { HasHashTable (steps_view space.old) root.0 (KnowsPut (steps_view space.old) key.now split) }
    requires means { Means space.old (table_of record_meaning range_meaning ops.now) }
    ensures later { Later (table_of record_meaning range_meaning ops.now) space.old space.new }
    ensures means { Means space.new (table_of record_meaning range_meaning ops.now) }
    ensures quiet { OnOk result (space.new.faults ≡ space.old.faults) }
    ensures few { space.new.records ≤ space.old.records + 40755 }
{
    let found = sg_hash::put(space, ops, root, key, value, split)?;
    Ok(found)
}

/// Removes an entry. Where there was none nothing is changed.
pub fn del(space: &mut StepSpace, ops: &Ops, root: PageNo, key: &[u8]) -> Result<bool, SpaceFault>
    requires key { length key.now ≤ 128 }
    requires there { HasHashTable (steps_view space.old) root.0 (λ _. ⊤) }
    requires means { Means space.old (table_of record_meaning range_meaning ops.now) }
    ensures later { Later (table_of record_meaning range_meaning ops.now) space.old space.new }
    ensures means { Means space.new (table_of record_meaning range_meaning ops.now) }
    ensures quiet { OnOk result (space.new.faults ≡ space.old.faults) }
    ensures few { space.new.records ≤ space.old.records + 4 }
    ensures still { IfOk result (λ was. was ≡ false → space.old.changed ≡ false → space.new.changed ≡ false) }
{
    let found = sg_hash::del(space, ops, root, key)?;
    Ok(found)
}

/// Frees a table.
pub fn free_all(space: &mut StepSpace, root: PageNo) -> Result<(), SpaceFault>
    requires { HasHashTable (steps_view space.old) root.0 (λ _. ⊤) }
    ensures later { (t : Table) → Later t space.old space.new }
    ensures means { (t : Table) → Means space.old t → Means space.new t }
    ensures quiet { OnOk result (space.new.faults ≡ space.old.faults) }
    ensures few { space.new.records ≤ space.old.records + 1118715 }
{
    sg_hash::free_all(space, root)?;
    Ok(())
}
