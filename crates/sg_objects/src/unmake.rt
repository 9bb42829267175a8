// What undoes the making of objects.
ghost use Rattle.std.specs.Prelude.{◌≡◌, ◌+◌, ◌≤◌, length, OnOk, IfOk, ⊤};
ghost use Rattle.sg_ops.specs.Table.{table_of};
ghost use Rattle.sg_space.specs.View.{Counts};
ghost use Rattle.sg_reading.specs.Back.Undoing.{WasMake};
ghost use Rattle.sg_contents.specs.Standing.{HasContents};
ghost use Rattle.sg_objects.specs.Found.{IsAt};
ghost use Rattle.sg_objects.specs.Undone.{CanUndo, Undoes};
ghost use Rattle.sg_objects.specs.Quiet.{most_freed};

use crate::back::undo_make_array;
use crate::find::root_of;
use sg_base::Name;
use sg_catalog::ObjectKind;
use sg_ops::Ops;
use sg_space::{PageSpace, SpaceFault};

/// Takes a table out that was made.
pub fn undo_make_table<P: PageSpace>(space: &mut P, ops: &Ops, name: Name) -> Result<(), SpaceFault>
    requires means { P.means space.old (table_of record_meaning range_meaning ops.now) }
    requires can { HasContents (P.view space.old) (λ s. (root : _) × IsAt ObjectKind.Table s name root) }
    ensures counts { Counts (P.view space.old) (P.view space.new) result }
    ensures did { OnOk result (Undoes (P.view space.old) (P.view space.new) (table_of record_meaning range_meaning ops.now) WasMake name) }
    ensures later { P.later (table_of record_meaning range_meaning ops.now) space.old space.new }
    ensures means { P.means space.new (table_of record_meaning range_meaning ops.now) }
    ensures few { (P.view space.old).Told → (P.view space.new).records ≤ (P.view space.old).records + most_freed }
{
    match root_of(space, name, ObjectKind::Table)? {
        Err(_) => Err(space.broken()),
        Ok(root) => {
            sg_catalog::remove(space, ops, name)?;
            sg_hash::free_all(space, root)?;
            Ok(())
        }
    }
}

/// Takes a blob out that was made.
pub fn undo_make_blob<P: PageSpace>(space: &mut P, ops: &Ops, name: Name) -> Result<(), SpaceFault>
    requires means { P.means space.old (table_of record_meaning range_meaning ops.now) }
    requires can { HasContents (P.view space.old) (λ s. (root : _) × IsAt ObjectKind.Blob s name root) }
    ensures counts { Counts (P.view space.old) (P.view space.new) result }
    ensures did { OnOk result (Undoes (P.view space.old) (P.view space.new) (table_of record_meaning range_meaning ops.now) WasMake name) }
    ensures later { P.later (table_of record_meaning range_meaning ops.now) space.old space.new }
    ensures means { P.means space.new (table_of record_meaning range_meaning ops.now) }
    ensures few { (P.view space.new).records ≤ (P.view space.old).records + 502 }
{
    match root_of(space, name, ObjectKind::Blob)? {
        Err(_) => Err(space.broken()),
        Ok(root) => {
            sg_catalog::remove(space, ops, name)?;
            sg_blob::free_all(space, root)?;
            Ok(())
        }
    }
}

/// Takes an object out that was made.
pub fn undo_make<P: PageSpace>(space: &mut P, ops: &Ops, name: Name) -> Result<(), SpaceFault>
    requires means { P.means space.old (table_of record_meaning range_meaning ops.now) }
    requires can { HasContents (P.view space.old) (CanUndo (table_of record_meaning range_meaning ops.now) WasMake name) }
    ensures counts { Counts (P.view space.old) (P.view space.new) result }
    ensures did { OnOk result (Undoes (P.view space.old) (P.view space.new) (table_of record_meaning range_meaning ops.now) WasMake name) }
    ensures later { P.later (table_of record_meaning range_meaning ops.now) space.old space.new }
    ensures means { P.means space.new (table_of record_meaning range_meaning ops.now) }
    ensures few { (P.view space.old).Told → (P.view space.new).records ≤ (P.view space.old).records + most_freed }
{
    let sought = sg_catalog::find(space, name)?;
    let Some(found) = sought else {
        return Err(space.broken());
    };
    match found.kind {
        ObjectKind::Array => undo_make_array(space, ops, name),
        ObjectKind::Table => undo_make_table(space, ops, name),
        ObjectKind::Blob => undo_make_blob(space, ops, name),
    }
}
