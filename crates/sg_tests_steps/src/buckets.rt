// Calls on a bucket.
ghost use Rattle.std.specs.Prelude.{◌≡◌, ◌+◌, ◌*◌, ◌≤◌, false, length, IfOk, None, OnOk, ⊤};
ghost use Rattle.sg_bucket.specs.Bucket.{Bucket, HasBucket, HasLinked, IsLinked};
ghost use Rattle.sg_bucket.specs.Calls.{IsSound};
ghost use Rattle.sg_ops.specs.Table.{Table, table_of};
ghost use Rattle.sg_tests_steps.specs.Steps.{steps_view, Later, Means};
ghost use Rattle.sg_tests_steps.specs.Knows.{HasRoom, KnowsEntry, KnowsDivision, Stays};

use crate::StepSpace;
use sg_base::PageNo;
use sg_bucket::Bytes;
use sg_linear::Address;
use sg_ops::Ops;
use sg_space::{ListFault, SpaceFault};
use std::alloc::Global;

/// Makes a bucket.
pub fn make(space: &mut StepSpace) -> Result<PageNo, SpaceFault>
    requires { HasRoom (steps_view space.old) 1 }
    ensures later { (t : Table) → Later t space.old space.new }
    ensures means { (t : Table) → Means space.old t → Means space.new t }
    ensures quiet { OnOk result (space.new.faults ≡ space.old.faults) }
    ensures few { space.new.records ≤ space.old.records + 2 }
{
    let found = sg_bucket::make(space)?;
    Ok(found)
}

/// Reads the number of pages, and looks for a key.
pub fn look(
    space: &mut StepSpace,
    first: PageNo,
    key: &[u8],
    into: &mut [u8],
) -> Result<Option<usize>, SpaceFault>
    requires room { 1024 ≤ length into.old }
    requires there { HasBucket (steps_view space.old) first.0 (λ _. ⊤) }
    ensures later { (t : Table) → Later t space.old space.new }
    ensures means { (t : Table) → Means space.old t → Means space.new t }
    ensures quiet { OnOk result (space.new.faults ≡ space.old.faults) }
    ensures stays { Stays space.old space.new result }
{
    sg_bucket::pages(space, first)?;
    let found = sg_bucket::find(space, first, key, into)?;
    Ok(found)
}

/// Puts the keys of all entries behind those that there are.
pub fn keys(
    space: &mut StepSpace,
    alloc: Global,
    first: PageNo,
    into: &mut Vec<Bytes>,
) -> Result<(), ListFault>
    requires { HasLinked (steps_view space.old) first.0 (λ _. ⊤) }
    ensures later { (t : Table) → Later t space.old space.new }
    ensures means { (t : Table) → Means space.old t → Means space.new t }
    ensures quiet { OnOk result (space.new.faults ≡ space.old.faults) }
    ensures records { space.new.records ≡ space.old.records }
    ensures still { OnOk result (space.old.changed ≡ false → space.new.changed ≡ false) }
{
    sg_bucket::keys(space, alloc, first, into)?;
    Ok(())
}

/// Puts an entry.
pub fn put(
    space: &mut StepSpace,
    ops: &Ops,
    first: PageNo,
    key: &[u8],
    value: &[u8],
) -> Result<Option<u16>, SpaceFault>
    requires key { length key.now ≤ 128 }
    requires value { length value.now ≤ 1024 }
    requires there { HasLinked (steps_view space.old) first.0 (KnowsEntry (steps_view space.old)) }
    requires means { Means space.old (table_of record_meaning range_meaning ops.now) }
    ensures later { Later (table_of record_meaning range_meaning ops.now) space.old space.new }
    ensures means { Means space.new (table_of record_meaning range_meaning ops.now) }
    ensures quiet { OnOk result (space.new.faults ≡ space.old.faults) }
    ensures few { space.new.records ≤ space.old.records + 7 }
{
    let found = sg_bucket::put(space, ops, first, key, value)?;
    Ok(found)
}

/// Removes an entry. Where there was none nothing is changed.
pub fn del(
    space: &mut StepSpace,
    ops: &Ops,
    first: PageNo,
    key: &[u8],
) -> Result<Option<u16>, SpaceFault>
    requires there { HasLinked (steps_view space.old) first.0 IsSound }
    requires means { Means space.old (table_of record_meaning range_meaning ops.now) }
    ensures later { Later (table_of record_meaning range_meaning ops.now) space.old space.new }
    ensures means { Means space.new (table_of record_meaning range_meaning ops.now) }
    ensures quiet { OnOk result (space.new.faults ≡ space.old.faults) }
    ensures few { space.new.records ≤ space.old.records + 3 }
    ensures still { IfOk result (λ old. old ≡ None → space.old.changed ≡ false → space.new.changed ≡ false) }
{
    let found = sg_bucket::del(space, ops, first, key)?;
    Ok(found)
}

/// Moves the entries at an address to a bucket of their own, as a split does.
pub fn divide(
    space: &mut StepSpace,
    ops: &Ops,
    first: PageNo,
    there: Address,
) -> Result<PageNo, SpaceFault>
    requires there { HasLinked (steps_view space.old) first.0 (KnowsDivision (steps_view space.old)) }
    requires means { Means space.old (table_of record_meaning range_meaning ops.now) }
    ensures later { Later (table_of record_meaning range_meaning ops.now) space.old space.new }
    ensures means { Means space.new (table_of record_meaning range_meaning ops.now) }
    ensures quiet { OnOk result (space.new.faults ≡ space.old.faults) }
    // also of a call that fails
    ensures few { (b : Bucket) → IsLinked (steps_view space.old).space.pages.at first.0 b → IsSound b →
        space.new.records ≤ space.old.records + (2 + 5092 * length b.pages) }
{
    let found = sg_bucket::branch(space, ops, first, there)?;
    sg_bucket::prune(space, ops, first, there)?;
    Ok(found)
}

/// Frees a bucket.
pub fn free_all(space: &mut StepSpace, first: PageNo) -> Result<(), SpaceFault>
    requires { HasLinked (steps_view space.old) first.0 (λ _. ⊤) }
    ensures later { (t : Table) → Later t space.old space.new }
    ensures means { (t : Table) → Means space.old t → Means space.new t }
    ensures quiet { OnOk result (space.new.faults ≡ space.old.faults) }
    ensures few { (b : Bucket) → IsLinked (steps_view space.old).space.pages.at first.0 b → space.new.records ≤ space.old.records + length b.pages }
{
    sg_bucket::free_all(space, first)?;
    Ok(())
}
