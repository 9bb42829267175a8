// What undoes the verbs on arrays.
ghost use Rattle.std.specs.Prelude.{◌≡◌, ◌+◌, ◌≤◌, length, OnOk, IfOk, ⊤};
ghost use Rattle.sg_ops.specs.Table.{table_of};
ghost use Rattle.sg_space.specs.View.{Counts};
ghost use Rattle.sg_reading.specs.Back.Undoing.{WasMake, WasDrop, WasPush, WasPop, WasSet, WasApply};
ghost use Rattle.sg_contents.specs.Standing.{HasContents};
ghost use Rattle.sg_objects.specs.Done.{IsFresh};
ghost use Rattle.sg_objects.specs.Found.{IsAt};
ghost use Rattle.sg_objects.specs.Undone.{CanUndo, Undoes};

use crate::find::root_of;
use sg_base::{Name, PageNo};
use sg_catalog::ObjectKind;
use sg_ops::{Ops, are_bytes};
use sg_space::{PageSpace, SpaceFault};

/// Takes a pushed item away.
pub fn undo_push<P: PageSpace>(space: &mut P, ops: &Ops, name: Name) -> Result<(), SpaceFault>
    requires means { P.means space.old (table_of record_meaning range_meaning ops.now) }
    requires can { HasContents (P.view space.old) (CanUndo (table_of record_meaning range_meaning ops.now) WasPush name) }
    ensures counts { Counts (P.view space.old) (P.view space.new) result }
    ensures did { OnOk result (Undoes (P.view space.old) (P.view space.new) (table_of record_meaning range_meaning ops.now) WasPush name) }
    ensures later { P.later (table_of record_meaning range_meaning ops.now) space.old space.new }
    ensures means { P.means space.new (table_of record_meaning range_meaning ops.now) }
    ensures few { (P.view space.new).records ≤ (P.view space.old).records + 2 }
{
    match root_of(space, name, ObjectKind::Array)? {
        Err(_) => Err(space.broken()),
        Ok(root) => {
            let mut item = [0; 256];
            sg_array::pop(space, ops, root, &mut item)?;
            Ok(())
        }
    }
}

/// Puts a popped item back.
pub fn undo_pop<P: PageSpace>(
    space: &mut P,
    ops: &Ops,
    name: Name,
    item: &[u8],
) -> Result<(), SpaceFault>
    requires means { P.means space.old (table_of record_meaning range_meaning ops.now) }
    requires there { HasContents (P.view space.old) (CanUndo (table_of record_meaning range_meaning ops.now) (WasPop item.now) name) }
    requires fresh { (P.view space.old).Told → IsFresh (P.view space.old) }
    ensures counts { Counts (P.view space.old) (P.view space.new) result }
    ensures did { OnOk result (Undoes (P.view space.old) (P.view space.new) (table_of record_meaning range_meaning ops.now) (WasPop item.now) name) }
    ensures later { P.later (table_of record_meaning range_meaning ops.now) space.old space.new }
    ensures means { P.means space.new (table_of record_meaning range_meaning ops.now) }
    ensures few { (P.view space.new).records ≤ (P.view space.old).records + 8 }
{
    match root_of(space, name, ObjectKind::Array)? {
        Err(_) => Err(space.broken()),
        Ok(root) => {
            sg_array::push(space, ops, root, item)?;
            Ok(())
        }
    }
}

/// Puts the item back that stood at an index.
pub fn undo_set<P: PageSpace>(
    space: &mut P,
    ops: &Ops,
    name: Name,
    index: u32,
    item: &[u8],
) -> Result<(), SpaceFault>
    requires means { P.means space.old (table_of record_meaning range_meaning ops.now) }
    requires can { HasContents (P.view space.old) (CanUndo (table_of record_meaning range_meaning ops.now) (WasSet index item.now) name) }
    ensures counts { Counts (P.view space.old) (P.view space.new) result }
    ensures did { OnOk result (Undoes (P.view space.old) (P.view space.new) (table_of record_meaning range_meaning ops.now) (WasSet index item.now) name) }
    ensures later { P.later (table_of record_meaning range_meaning ops.now) space.old space.new }
    ensures means { P.means space.new (table_of record_meaning range_meaning ops.now) }
    ensures few { (P.view space.new).records ≤ (P.view space.old).records + 1 }
{
    match root_of(space, name, ObjectKind::Array)? {
        Err(_) => Err(space.broken()),
        Ok(root) => {
            sg_array::set(space, ops, root, index, item)?;
            Ok(())
        }
    }
}

/// Makes a dropped object, of which this was the root, the object of its name again.
pub fn undo_drop<P: PageSpace>(
    space: &mut P,
    ops: &Ops,
    name: Name,
    root: PageNo,
) -> Result<(), SpaceFault>
    requires means { P.means space.old (table_of record_meaning range_meaning ops.now) }
    requires can { HasContents (P.view space.old) (CanUndo (table_of record_meaning range_meaning ops.now) (WasDrop root.0) name) }
    ensures counts { Counts (P.view space.old) (P.view space.new) result }
    ensures did { OnOk result (Undoes (P.view space.old) (P.view space.new) (table_of record_meaning range_meaning ops.now) (WasDrop root.0) name) }
    ensures later { P.later (table_of record_meaning range_meaning ops.now) space.old space.new }
    ensures means { P.means space.new (table_of record_meaning range_meaning ops.now) }
    ensures few { (P.view space.new).records ≤ (P.view space.old).records + 1 }
{
    sg_catalog::unbury(space, ops, name, root)?;
    Ok(())
}

/// Takes an array out that was made.
pub fn undo_make_array<P: PageSpace>(space: &mut P, ops: &Ops, name: Name) -> Result<(), SpaceFault>
    requires means { P.means space.old (table_of record_meaning range_meaning ops.now) }
    requires can { HasContents (P.view space.old) (λ s. (root : _) × IsAt ObjectKind.Array s name root) }
    ensures counts { Counts (P.view space.old) (P.view space.new) result }
    ensures did { OnOk result (Undoes (P.view space.old) (P.view space.new) (table_of record_meaning range_meaning ops.now) WasMake name) }
    ensures later { P.later (table_of record_meaning range_meaning ops.now) space.old space.new }
    ensures means { P.means space.new (table_of record_meaning range_meaning ops.now) }
    ensures few { (P.view space.new).records ≤ (P.view space.old).records + 70139 }
{
    match root_of(space, name, ObjectKind::Array)? {
        Err(_) => Err(space.broken()),
        Ok(root) => {
            sg_catalog::remove(space, ops, name)?;
            sg_array::free_all(space, root)?;
            Ok(())
        }
    }
}

/// Undoes a registered operation that was done to an item.
pub fn undo_apply<P: PageSpace>(
    space: &mut P,
    ops: &Ops,
    name: Name,
    index: u32,
    code: u16,
    arg: &[u8],
) -> Result<(), SpaceFault>
    requires means { P.means space.old (table_of record_meaning range_meaning ops.now) }
    requires there { HasContents (P.view space.old) (CanUndo (table_of record_meaning range_meaning ops.now) (WasApply index code arg.now) name) }
    ensures counts { Counts (P.view space.old) (P.view space.new) result }
    ensures did { OnOk result (Undoes (P.view space.old) (P.view space.new) (table_of record_meaning range_meaning ops.now) (WasApply index code arg.now) name) }
    ensures later { P.later (table_of record_meaning range_meaning ops.now) space.old space.new }
    ensures means { P.means space.new (table_of record_meaning range_meaning ops.now) }
    ensures few { (P.view space.new).records ≤ (P.view space.old).records + 1 }
{
    ops.laws();
    are_bytes(arg);
    match root_of(space, name, ObjectKind::Array)? {
        Err(_) => Err(space.broken()),
        Ok(root) => {
            sg_array::apply_back(space, ops, root, index, code, arg)?;
            Ok(())
        }
    }
}
