// What a record of a text changes.
ghost use Rattle.std.specs.Prelude.{◌≡◌, length, IsTrue, IfSome, option_map};
ghost use Rattle.sg_base.specs.Op.{op_of};
ghost use Rattle.sg_record.specs.Ranges.{after_fits};
ghost use Rattle.sg_record.specs.Shown.{shown, shown_change, shown_page};
ghost use Rattle.sg_redo.specs.Places.{changed_by, change_at, op_said, IsInRange};

use sg_base::{PageOp, read_u32};
use sg_record::{Change, PageChange, Rec, decode};

// The change of a page or of a band that a record makes.
fn change_of<'a>(rec: &Rec<'a>) -> Option<Change<'a>>
    ensures { option_map shown_change result ≡ changed_by (shown rec.now).says }
{
    match *rec {
        Rec::Page { change, .. } => Some(Change::Page(change)),
        Rec::SegWrite { change, .. } => Some(Change::SegWrite(change)),
        Rec::SegOp { change, .. } => Some(Change::SegOp(change)),
        Rec::PhysComp { change, .. } => Some(change),
        _ => None,
    }
}

/// The change that is made by the record at this offset of the text, if one stands there that makes
/// one.
pub fn change_at(text: &[u8], at: u64) -> Option<Change<'_>>
    ensures change { option_map shown_change result ≡ change_at text.now at }
    ensures range { IfSome result (λ c. IsInRange (shown_change c)) }
{
    if at > text.len() as u64 {
        return None;
    }
    match decode(&text[at as usize..]) {
        Ok((rec, _)) => change_of(&rec),
        Err(_) => None,
    }
}

/// The operation that a change of a page says.
pub fn page_op<'a>(change: &PageChange<'a>) -> PageOp<'a>
    requires { IsTrue (after_fits change.now.operation (length change.now.after.now)) }
    ensures { op_of result ≡ op_said (shown_page change.now) }
{
    let PageChange {
        operation,
        slot,
        code,
        after,
        ..
    } = *change;
    match operation {
        1 => PageOp::Format { kind: after[0] },
        2 => PageOp::Put { slot, bytes: after },
        3 => PageOp::Remove { slot },
        4 => PageOp::Set { slot, bytes: after },
        5 => PageOp::Links {
            a: read_u32(after),
            b: read_u32(&after[4..]),
        },
        6 => PageOp::Item {
            slot,
            code,
            arg: after,
        },
        _ => PageOp::ItemBack {
            slot,
            code,
            arg: after,
        },
    }
}
