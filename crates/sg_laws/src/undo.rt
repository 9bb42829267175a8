ghost use Rattle.std.specs.Prelude.{◌≡◌, IsTrue, length};
ghost use Rattle.sg_ops.specs.Table.{table_of, record_at, accepts_of, after_of};

use sg_ops::{Ops, are_bytes};

/// Does the record operation with this code to an item that it accepts, keeps in `changed` what it
/// left, and undoes it: the item is as it was. `changed` is as long as the item.
#[tactic(auto, using(sg_ops::proofs::Lookups::known_if, sg_ops::specs::Laws::law_of))]
pub fn redo_and_undo(ops: &Ops, code: u16, item: &mut [u8], arg: &[u8], changed: &mut [u8])
    requires accepted { IsTrue (accepts_of
        (record_at (table_of record_meaning range_meaning ops.now) code) item.old arg.now) }
    requires room { length changed.old ≡ length item.old }
    ensures changed { changed.new ≡ after_of
        (record_at (table_of record_meaning range_meaning ops.now) code) item.old arg.now }
    ensures back { item.new ≡ item.old }
{
    ops.laws();
    are_bytes(item);
    are_bytes(arg);
    ops.redo(code, item, arg);
    changed.copy_from_slice(item);
    ops.undo(code, item, arg);
}
