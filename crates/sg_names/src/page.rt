// One page of the catalogue.
ghost use Rattle.std.specs.Prelude.{◌≡◌, IfSome, IsSome, IfOk, IfErr, OnOk};
ghost use Rattle.sg_base.specs.Sheet.{sheet_of};
ghost use Rattle.sg_names.specs.Pages.{IsNamePage};
ghost use Rattle.sg_names.specs.Seen.{IsSeen};
ghost use Rattle.sg_ops.specs.Table.{Table};
ghost use Rattle.sg_reach.specs.Fault.{CountsReach, WritesNoneReach, IfBroken, IsAtPage};
ghost use Rattle.sg_space.specs.Pages.{CanLook};
ghost use Rattle.sg_space.specs.Units.{HasAt};
ghost use Rattle.sg_space.specs.View.{OnlyReads};

use sg_base::{PageNo, SlotView};
use sg_catalog::row_in;
use sg_ops::are_bytes;
use sg_reach::ReachFault;
use sg_space::PageSpace;

const KIND: u8 = 1;

const MOST_SLOTS: u16 = 79;

/// What a page of the catalogue says beside its rows: the page that follows, 0 for none, and on page 0 the
/// most rows that there were.
#[derive(Clone, Copy)]
pub struct Seen {
    pub next: PageNo,
    pub peak: u32,
}

// What a page says, if it is one of the catalogue, of which each cell spells a row.
fn see(view: &SlotView<'_>) -> Option<Seen>
    ensures found { IfSome result (λ s. IsSeen s (sheet_of view.now.page.now)) }
    ensures all { IsNamePage (sheet_of view.now.page.now) → IsSome result }
{
    if view.kind() != KIND || view.slots() > MOST_SLOTS {
        return None;
    }
    for slot in 0..view.slots() {
        let Some(cell) = view.slot(slot) else {
            continue;
        };
        are_bytes(cell);
        let Some(_row) = row_in(cell) else {
            return None;
        };
    }
    let (next, peak) = view.links();
    Some(Seen {
        next: PageNo(next),
        peak,
    })
}

/// Looks that a page is one of the catalogue.
pub fn look<P: PageSpace>(space: &mut P, p: PageNo) -> Result<Seen, ReachFault>
    requires { CanLook (P.view space.old) (P.view space.old).space.pages p.0 }
    ensures counts { CountsReach (P.view space.old) (P.view space.new) result }
    ensures kept { OnOk result (OnlyReads (P.view space.old) (P.view space.new)) }
    ensures read { IfOk result (λ s. (P.view space.old).Shows → HasAt (P.view space.old).space.pages.at p.0 (IsSeen s)) }
    ensures broken { IfErr result (IfBroken
        ((P.view space.old).Shows → ¬ HasAt (P.view space.old).space.pages.at p.0 IsNamePage)) }
    ensures later { (t : Table) → P.later t space.old space.new }
    ensures means { (t : Table) → P.means space.old t → P.means space.new t }
    ensures writes { WritesNoneReach (P.view space.old) (P.view space.new) result }
    ensures names { IfErr result (IsAtPage p.0) }
{
    let view = space.page(p)?;
    match see(&view) {
        Some(seen) => Ok(seen),
        None => Err(ReachFault::Broken(p)),
    }
}
