// Registered operations on an item.
ghost use Rattle.std.specs.Prelude.{◌<◌, ◌≤◌, length, OnOk, ◌+◌};
ghost use Rattle.sg_array.specs.Calls.{HasArray, IfArray, DidIf, CanApply, IsApplied, CanApplyBack, IsAppliedBack};
ghost use Rattle.sg_ops.specs.Table.{table_of};
ghost use Rattle.sg_space.specs.View.{Counts};

use crate::walk::find_item;
use sg_base::{PageNo, PageOp};
use sg_ops::{Ops, are_bytes};
use sg_space::{PageSpace, SpaceFault};

/// Does a registered operation to an item that it accepts with this argument, of at most 256 bytes.
pub fn apply<P: PageSpace>(
    space: &mut P,
    ops: &Ops,
    root: PageNo,
    i: u32,
    code: u16,
    arg: &[u8],
) -> Result<(), SpaceFault>
    requires means { P.means space.old (table_of record_meaning range_meaning ops.now) }
    requires there { HasArray (P.view space.old) root.0
        (CanApply (table_of record_meaning range_meaning ops.now) i code arg.now) }
    requires short { (P.view space.old).Told → length arg.now ≤ 256 }
    ensures counts { Counts (P.view space.old) (P.view space.new) result }
    ensures did { OnOk result (DidIf (P.view space.old) (P.view space.new) root.0
        (CanApply (table_of record_meaning range_meaning ops.now) i code arg.now)
        (IsApplied (table_of record_meaning range_meaning ops.now) i code arg.now)) }
    ensures within { OnOk result (IfArray (P.view space.old) root.0 (λ a. i < length a.items)) }
    ensures later { P.later (table_of record_meaning range_meaning ops.now) space.old space.new }
    ensures means { P.means space.new (table_of record_meaning range_meaning ops.now) }
    ensures few { (P.view space.new).records ≤ (P.view space.old).records + 1 }
{
    ops.laws();
    are_bytes(arg);
    let place = find_item(space, root, i)?;
    let slot = place.slot;
    let op = PageOp::Item { slot, code, arg };
    space.change(ops, place.leaf, &op)?;
    Ok(())
}

/// Undoes a registered operation that left an item with this argument, of at most 256 bytes.
pub fn apply_back<P: PageSpace>(
    space: &mut P,
    ops: &Ops,
    root: PageNo,
    i: u32,
    code: u16,
    arg: &[u8],
) -> Result<(), SpaceFault>
    requires means { P.means space.old (table_of record_meaning range_meaning ops.now) }
    requires there { HasArray (P.view space.old) root.0
        (CanApplyBack (table_of record_meaning range_meaning ops.now) i code arg.now) }
    requires short { (P.view space.old).Told → length arg.now ≤ 256 }
    ensures counts { Counts (P.view space.old) (P.view space.new) result }
    ensures did { OnOk result (DidIf (P.view space.old) (P.view space.new) root.0
        (CanApplyBack (table_of record_meaning range_meaning ops.now) i code arg.now)
        (IsAppliedBack (table_of record_meaning range_meaning ops.now) i code arg.now)) }
    ensures within { OnOk result (IfArray (P.view space.old) root.0 (λ a. i < length a.items)) }
    ensures later { P.later (table_of record_meaning range_meaning ops.now) space.old space.new }
    ensures means { P.means space.new (table_of record_meaning range_meaning ops.now) }
    ensures few { (P.view space.new).records ≤ (P.view space.old).records + 1 }
{
    ops.laws();
    are_bytes(arg);
    let place = find_item(space, root, i)?;
    let slot = place.slot;
    let op = PageOp::ItemBack { slot, code, arg };
    space.change(ops, place.leaf, &op)?;
    Ok(())
}
