// What undoes a note of bytes.
ghost use Rattle.std.specs.Prelude.{◌≡◌, ◌+◌, ◌≤◌, OnOk};
ghost use Rattle.sg_ops.specs.Table.{table_of};
ghost use Rattle.sg_space.specs.View.{Counts};
ghost use Rattle.sg_objects.specs.PutBack.{CanUndoBytes, UndoesBytes};

use sg_base::Name;
use sg_catalog::ObjectKind;
use sg_ops::Ops;
use sg_space::{PageSpace, SpaceFault};

/// Sets the length back that a blob had, where the bytes that it had are back in its bands.
pub fn undo_bytes<P: PageSpace>(
    space: &mut P,
    ops: &Ops,
    name: Name,
    size: u32,
) -> Result<(), SpaceFault>
    requires means { P.means space.old (table_of record_meaning range_meaning ops.now) }
    requires can { (P.view space.old).Told → CanUndoBytes (table_of record_meaning range_meaning ops.now) size name (P.view space.old).space }
    ensures counts { Counts (P.view space.old) (P.view space.new) result }
    ensures did { OnOk result (UndoesBytes (P.view space.old) (P.view space.new) (table_of record_meaning range_meaning ops.now) size name) }
    ensures later { P.later (table_of record_meaning range_meaning ops.now) space.old space.new }
    ensures means { P.means space.new (table_of record_meaning range_meaning ops.now) }
    ensures few { (P.view space.new).records ≤ (P.view space.old).records + 1 }
{
    let sought = sg_catalog::find(space, name)?;
    let Some(found) = sought else {
        return Err(space.broken());
    };
    match found.kind {
        ObjectKind::Array => Err(space.broken()),
        ObjectKind::Table => Err(space.broken()),
        ObjectKind::Blob => {
            sg_blob::restore_len(space, ops, found.root, size)?;
            Ok(())
        }
    }
}
