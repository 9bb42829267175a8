// What one page looks like.
ghost use Rattle.std.specs.Prelude.{◌≡◌, ℕ, ◌+◌, ◌≤◌, ◌^◌, ◌<◌, IsTrue, IsFalse, option_map, IfOk, IfErr, OnOk};
ghost use Rattle.byteorder.specs.Endian.{little_bytes};
ghost use Rattle.sg_base.specs.Sheet.{sheet_of};
ghost use Rattle.sg_ops.specs.Table.{Table};
ghost use Rattle.sg_reach.specs.Fault.{CountsReach, WritesNoneReach, IfBroken, IsAtPage};
ghost use Rattle.sg_reach.specs.Form.{HasForm, IsWanted, wanted};
ghost use Rattle.sg_space.specs.Pages.{CanLook, WritesNone};
ghost use Rattle.sg_space.specs.Reads.{CanRead, Reads};
ghost use Rattle.sg_space.specs.Units.{HasAt};
ghost use Rattle.sg_space.specs.View.{Counts, OnlyReads};

use crate::ReachFault;
use sg_base::{PageNo, SlotView, read_u32};
use sg_ops::are_bytes;
use sg_space::{PageSpace, SpaceFault, read_cell};

/// What a page is to look like: it is of this kind and has `most` slots at most, and of those from slot `first` on the
/// first `count` have a cell of `size` bytes each, and all others are empty. Nothing is asked of the slots before.
#[derive(Clone, Copy)]
pub struct Form {
    pub kind: u8,
    pub most: u16,
    pub first: u16,
    pub count: u16,
    pub size: u16,
}

// How many bytes the cell of a slot is to have, if it is to have one.
fn wanted(form: Form, slot: u16) -> Option<u16>
    ensures { result ≡ wanted form slot }
{
    if (slot as u32) < form.first as u32 + form.count as u32 {
        Some(form.size)
    } else {
        None
    }
}

// Whether there is a cell of this size, or none where none is wanted.
fn is_wanted(cell: Option<&[u8]>, size: Option<u16>) -> bool
    ensures yes { IsTrue result → IsWanted (option_map (λ x. x.now) cell.entry) size }
    ensures other { IsFalse result → ¬ IsWanted (option_map (λ x. x.now) cell.entry) size }
{
    let Some(cell) = cell else {
        return size.is_none();
    };
    let Some(size) = size else {
        return false;
    };
    are_bytes(cell);
    cell.len() == size as usize
}

// Whether a page is of a form.
fn has_form(view: &SlotView<'_>, form: Form) -> bool
    requires { form.first + form.count ≤ form.most }
    ensures yes { IsTrue result → HasForm form (sheet_of view.now.page.now) }
    ensures other { IsFalse result → ¬ HasForm form (sheet_of view.now.page.now) }
{
    if view.kind() != form.kind || view.slots() > form.most {
        return false;
    }
    for slot in form.first..form.most {
        if !is_wanted(view.slot(slot), wanted(form, slot)) {
            return false;
        }
    }
    true
}

/// Looks that a page is of a form. `Broken` names the page where it isn't.
pub fn check<P: PageSpace>(space: &mut P, p: PageNo, form: Form) -> Result<(), ReachFault>
    requires fits { form.first + form.count ≤ form.most }
    requires there { CanLook (P.view space.old) (P.view space.old).space.pages p.0 }
    ensures counts { CountsReach (P.view space.old) (P.view space.new) result }
    ensures kept { OnOk result (OnlyReads (P.view space.old) (P.view space.new)) }
    ensures read { OnOk result ((P.view space.old).Shows → HasAt (P.view space.old).space.pages.at p.0 (HasForm form)) }
    ensures broken { IfErr result (IfBroken
        ((P.view space.old).Shows → ¬ HasAt (P.view space.old).space.pages.at p.0 (HasForm form))) }
    ensures later { (t : Table) → P.later t space.old space.new }
    ensures means { (t : Table) → P.means space.old t → P.means space.new t }
    ensures writes { WritesNoneReach (P.view space.old) (P.view space.new) result }
    ensures names { IfErr result (IsAtPage p.0) }
{
    let view = space.page(p)?;
    if !has_form(&view, form) {
        return Err(ReachFault::Broken(p));
    }
    Ok(())
}

/// Reads the number of the page, or of the band, that a slot names in 4 bytes. An error is the space's own.
pub fn link_at<P: PageSpace>(
    space: &mut P,
    p: PageNo,
    kind: u8,
    slot: u16,
) -> Result<PageNo, SpaceFault>
    requires { CanRead (P.view space.old) p.0 kind slot 4 }
    ensures counts { Counts (P.view space.old) (P.view space.new) result }
    ensures kept { OnOk result (OnlyReads (P.view space.old) (P.view space.new)) }
    ensures read { IfOk result (λ n. Reads (P.view space.old) p.0 kind slot (little_bytes 4 n.0)) }
    ensures small { IfOk result (λ n. n.0 < 2 ^ 32) }
    ensures later { (t : Table) → P.later t space.old space.new }
    ensures means { (t : Table) → P.means space.old t → P.means space.new t }
    ensures writes { WritesNone (P.view space.old) (P.view space.new) result }
{
    let mut cell = [0; 4];
    read_cell(space, p, kind, slot, &mut cell)?;
    Ok(PageNo(read_u32(&cell)))
}
