// Whether a record has an encoding.
ghost use Rattle.std.specs.Prelude.{IsTrue};
ghost use Rattle.sg_record.specs.Changes.Change.{Page, SegWrite, SegOp};
ghost use Rattle.sg_record.specs.Ranges.{IsRecord};
ghost use Rattle.sg_record.specs.Shown.{shown, shown_change, shown_page, shown_bytes, shown_op};
ghost use Rattle.sg_record.specs.Texts.{HasTexts};

use crate::ranges::out_of_range;
use crate::says::Says;
use crate::writer::body_size;
use crate::{BandBytes, BandOp, Change, HEADER_SIZE, PageChange, Rec};

// Whether a change's texts are as long as its lengths can say, and its numbers have as many bytes as
// their fields.
fn change_texts(taking_off: bool, change: &Change<'_>) -> bool
    ensures { IsTrue result → HasTexts taking_off (shown_change change.now) }
{
    match change {
        Change::Page(c) => page_texts(taking_off, c),
        Change::SegWrite(c) => bytes_texts(taking_off, c),
        Change::SegOp(c) => op_texts(taking_off, c),
    }
}

fn page_texts(taking_off: bool, c: &PageChange<'_>) -> bool
    ensures { IsTrue result → HasTexts taking_off (Page (shown_page c.now)) }
{
    let numbers = c.page.0 < 1_048_576
        && c.operation <= 7
        && c.slot <= u16::MAX
        && c.code <= u16::MAX;
    numbers && c.before.len() <= 65_535 && c.after.len() <= 65_535
}

fn bytes_texts(taking_off: bool, c: &BandBytes<'_>) -> bool
    ensures { IsTrue result → HasTexts taking_off (SegWrite (shown_bytes c.now)) }
{
    let before = if taking_off { 0 } else { c.count as usize };
    let numbers = c.band.0 < 65_536 && c.at < 32_768 && c.count <= 8_192;
    numbers && c.before.len() == before && c.after.len() == c.count as usize
}

fn op_texts(taking_off: bool, c: &BandOp<'_>) -> bool
    ensures { IsTrue result → HasTexts taking_off (SegOp (shown_op c.now)) }
{
    let numbers = c.band.0 < 65_536 && c.at < 32_768 && c.count <= 8_192;
    let more = c.code <= u16::MAX && c.position <= 16_384_000;
    numbers && more && c.arg.len() <= 65_535 && c.before.len() <= 65_535
}

/// Whether a record of a change has an encoding: each field is in its range, and each text as long as
/// its length says. It answers no for all other records, of which it isn't asked.
pub fn is_record(r: &Rec<'_>) -> bool
    ensures { IsTrue result → IsRecord (shown r.now) }
{
    let says = r.says();
    let texts = match &says {
        Says::Changed(change) => change_texts(false, change),
        Says::PhysComp { undo_next, change } => *undo_next <= u64::MAX
            && change_texts(true, change),
        _ => false,
    };
    if !texts || r.txn().0 > u64::MAX || r.prev() > u64::MAX {
        return false;
    }
    out_of_range(r.txn(), r.prev(), &says, HEADER_SIZE + body_size(&says)).is_none()
}
