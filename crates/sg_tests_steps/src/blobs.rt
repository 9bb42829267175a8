// Calls on a blob.
ghost use Rattle.std.specs.Prelude.{◌≡◌, ◌+◌, ◌/◌, ◌≤◌, false, length, OnOk, ⊤};
ghost use Rattle.sg_blob.specs.Blob.{IsBlob, OwnsBand};
ghost use Rattle.sg_blob.specs.Calls.{HasBlob, CanRestore};
ghost use Rattle.sg_blob.specs.Steps.{HasRaw, CanPaintBy};
ghost use Rattle.sg_ops.specs.Table.{Table, table_of};
ghost use Rattle.sg_tests_steps.specs.Steps.{steps_view, Later, Means};
ghost use Rattle.sg_tests_steps.specs.Knows.{HasRoom, KnowsBands, KnowsPlace, Stays, WritesOwn};

use crate::StepSpace;
use sg_base::PageNo;
use sg_ops::Ops;
use sg_space::SpaceFault;

/// Makes a blob.
pub fn make(space: &mut StepSpace, ops: &Ops) -> Result<PageNo, SpaceFault>
    requires room { HasRoom (steps_view space.old) 1 }
    requires means { Means space.old (table_of record_meaning range_meaning ops.now) }
    ensures later { Later (table_of record_meaning range_meaning ops.now) space.old space.new }
    ensures means { Means space.new (table_of record_meaning range_meaning ops.now) }
    ensures quiet { OnOk result (space.new.faults ≡ space.old.faults) }
    ensures few { space.new.records ≤ space.old.records + 3 }
{
    let found = sg_blob::make(space, ops)?;
    Ok(found)
}

/// Reads the length and the number of bands, and bytes.
pub fn look(
    space: &mut StepSpace,
    root: PageNo,
    at: u32,
    into: &mut [u8],
) -> Result<u32, SpaceFault>
    requires { HasBlob (steps_view space.old) root.0 (λ b. at + length into.old ≤ length b.bytes) }
    ensures later { (t : Table) → Later t space.old space.new }
    ensures means { (t : Table) → Means space.old t → Means space.new t }
    ensures quiet { OnOk result (space.new.faults ≡ space.old.faults) }
    ensures stays { Stays space.old space.new result }
{
    sg_blob::bands(space, root)?;
    sg_blob::read(space, root, at, into)?;
    let found = sg_blob::len(space, root)?;
    Ok(found)
}

/// Writes bytes.
pub fn write(
    space: &mut StepSpace,
    ops: &Ops,
    root: PageNo,
    at: u32,
    bytes: &[u8],
) -> Result<(), SpaceFault>
    requires small { at + length bytes.now ≤ 16384000 }
    requires there { HasBlob (steps_view space.old) root.0 (KnowsPlace (steps_view space.old) at (length bytes.now)) }
    requires means { Means space.old (table_of record_meaning range_meaning ops.now) }
    ensures later { Later (table_of record_meaning range_meaning ops.now) space.old space.new }
    ensures means { Means space.new (table_of record_meaning range_meaning ops.now) }
    ensures quiet { OnOk result (space.new.faults ≡ space.old.faults) }
    ensures few { space.new.records ≤ space.old.records + (length bytes.now / 8192 + 3003) }
    ensures own { OnOk result (WritesOwn space.old space.new root.0) }
{
    sg_blob::write(space, ops, root, at, bytes)?;
    Ok(())
}

/// Paints bytes.
pub fn paint(
    space: &mut StepSpace,
    ops: &Ops,
    root: PageNo,
    at: u32,
    count: u32,
    code: u16,
    arg: &[u8],
) -> Result<(), SpaceFault>
    requires there { HasBlob (steps_view space.old) root.0 (λ b. at + count ≤ length b.bytes) }
    requires can { CanPaintBy (table_of record_meaning range_meaning ops.now) code arg.now }
    requires means { Means space.old (table_of record_meaning range_meaning ops.now) }
    ensures later { Later (table_of record_meaning range_meaning ops.now) space.old space.new }
    ensures means { Means space.new (table_of record_meaning range_meaning ops.now) }
    ensures quiet { OnOk result (space.new.faults ≡ space.old.faults) }
    ensures few { space.new.records ≤ space.old.records + (count / 8192 + 2) }
    ensures own { OnOk result (WritesOwn space.old space.new root.0) }
{
    sg_blob::paint(space, ops, root, at, count, code, arg)?;
    Ok(())
}

/// Makes the length another one.
pub fn set_len(space: &mut StepSpace, ops: &Ops, root: PageNo, size: u32) -> Result<(), SpaceFault>
    requires small { size ≤ 16384000 }
    requires there { HasBlob (steps_view space.old) root.0 (KnowsBands (steps_view space.old) size) }
    requires means { Means space.old (table_of record_meaning range_meaning ops.now) }
    ensures later { Later (table_of record_meaning range_meaning ops.now) space.old space.new }
    ensures means { Means space.new (table_of record_meaning range_meaning ops.now) }
    ensures quiet { OnOk result (space.new.faults ≡ space.old.faults) }
    ensures few { space.new.records ≤ space.old.records + 5003 }
    ensures own { OnOk result (WritesOwn space.old space.new root.0) }
{
    sg_blob::set_len(space, ops, root, size)?;
    Ok(())
}

/// Makes the length again what it was, once the bytes are back.
pub fn restore_len(
    space: &mut StepSpace,
    ops: &Ops,
    root: PageNo,
    size: u32,
) -> Result<(), SpaceFault>
    requires there { HasRaw (steps_view space.old) root.0 (CanRestore size) }
    requires means { Means space.old (table_of record_meaning range_meaning ops.now) }
    ensures later { Later (table_of record_meaning range_meaning ops.now) space.old space.new }
    ensures means { Means space.new (table_of record_meaning range_meaning ops.now) }
    ensures quiet { OnOk result (space.new.faults ≡ space.old.faults) }
    ensures few { space.new.records ≤ space.old.records + 1 }
{
    sg_blob::restore_len(space, ops, root, size)?;
    Ok(())
}

/// Frees a blob.
pub fn free_all(space: &mut StepSpace, root: PageNo) -> Result<(), SpaceFault>
    requires { HasBlob (steps_view space.old) root.0 (λ _. ⊤) }
    ensures later { (t : Table) → Later t space.old space.new }
    ensures means { (t : Table) → Means space.old t → Means space.new t }
    ensures quiet { OnOk result (space.new.faults ≡ space.old.faults) }
    ensures few { space.new.records ≤ space.old.records + 501 }
{
    sg_blob::free_all(space, root)?;
    Ok(())
}
