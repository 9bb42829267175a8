// The bodies of objects are freed, and what was dropped.
ghost use Rattle.std.specs.Prelude.{◌≡◌, ◌+◌, ◌≤◌, OnOk, IfOk, ⊤, false};
ghost use Rattle.sg_ops.specs.Table.{Table as Operations, table_of};
ghost use Rattle.sg_space.specs.View.{Counts};
ghost use Rattle.sg_contents.specs.Standing.{HasContents};
ghost use Rattle.sg_objects.specs.Freed.{HasBody, FreesBody, FreesNext};
ghost use Rattle.sg_objects.specs.Quiet.{IsQuiet, most_body, most_freed};

use sg_base::{PageNo, TxnId};
use sg_catalog::ObjectKind;
use sg_ops::Ops;
use sg_space::{PageSpace, SpaceFault};

/// Frees the pages and the bands of an array, a table or a blob.
pub fn free_body<P: PageSpace>(
    space: &mut P,
    kind: ObjectKind,
    root: PageNo,
) -> Result<(), SpaceFault>
    requires { HasBody (P.view space.old) kind root.0 }
    ensures counts { Counts (P.view space.old) (P.view space.new) result }
    ensures did { OnOk result (FreesBody (P.view space.old) (P.view space.new) kind root.0) }
    ensures later { (t : Operations) → P.later t space.old space.new }
    ensures means { (t : Operations) → P.means space.old t → P.means space.new t }
    ensures few { (P.view space.old).Told → (P.view space.new).records ≤ (P.view space.old).records + most_body }
{
    match kind {
        ObjectKind::Array => {
            sg_array::free_all(space, root)?;
            Ok(())
        }
        ObjectKind::Table => {
            sg_hash::free_all(space, root)?;
            Ok(())
        }
        ObjectKind::Blob => {
            sg_blob::free_all(space, root)?;
            Ok(())
        }
    }
}

/// Frees an object that this transaction, or anybody, dropped; `false` where there is none.
pub fn free_next<P: PageSpace>(
    space: &mut P,
    ops: &Ops,
    by: Option<TxnId>,
) -> Result<bool, SpaceFault>
    requires means { P.means space.old (table_of record_meaning range_meaning ops.now) }
    requires can { HasContents (P.view space.old) (λ _. ⊤) }
    ensures counts { Counts (P.view space.old) (P.view space.new) result }
    ensures did { IfOk result (λ was. FreesNext (P.view space.old) (P.view space.new) by was) }
    ensures later { P.later (table_of record_meaning range_meaning ops.now) space.old space.new }
    ensures means { P.means space.new (table_of record_meaning range_meaning ops.now) }
    ensures quiet { IfOk result (λ was. was ≡ false → IsQuiet (P.view space.old) (P.view space.new)) }
    ensures few { (P.view space.old).Told → (P.view space.new).records ≤ (P.view space.old).records + most_freed }
{
    let sought = sg_catalog::next_buried(space, by)?;
    let Some(entry) = sought else {
        return Ok(false);
    };
    sg_catalog::forget(space, ops, entry.root)?;
    free_body(space, entry.kind, entry.root)?;
    Ok(true)
}
