// One page of a chain.
ghost use Rattle.std.specs.Prelude.{◌≡◌, ◌*◌, ◌≤◌, ◌<◌, IsTrue, IsFalse, IfSome, IsSome, IfOk, IfErr, OnOk};
ghost use Rattle.sg_base.specs.Sheet.{sheet_of};
ghost use Rattle.sg_bucket.specs.Entry.{IsEntryCell};
ghost use Rattle.sg_chains.specs.Parts.{IsEntryAt, IsChainPage};
ghost use Rattle.sg_chains.specs.Seen.{IsSeen};
ghost use Rattle.sg_ops.specs.Table.{Table};
ghost use Rattle.sg_reach.specs.Fault.{CountsReach, WritesNoneReach, IfBroken, IsAtPage};
ghost use Rattle.sg_space.specs.Pages.{CanLook};
ghost use Rattle.sg_space.specs.Units.{HasAt};
ghost use Rattle.sg_space.specs.View.{OnlyReads};

use sg_base::{PageNo, SlotView};
use sg_bucket::{is_entry, key_in};
use sg_linear::Address;
use sg_reach::ReachFault;
use sg_space::PageSpace;

const KIND: u8 = 6;

/// What a page says: which one follows, 0 for none, and how many entries it has, of how many bytes.
#[derive(Clone, Copy)]
pub struct Seen {
    pub next: PageNo,
    pub entries: u32,
    pub bytes: u64,
}

// Whether a cell holds an entry whose key has a byte at least and belongs there.
fn is_entry_at(cell: &[u8], there: Address) -> bool
    ensures yes { IsTrue result → IsEntryAt there cell.now }
    ensures other { IsFalse result → ¬ IsEntryAt there cell.now }
{
    if !is_entry(cell) {
        return false;
    }
    let key = key_in(cell);
    if key.is_empty() {
        return false;
    }
    there.holds(key)
}

// What a page says, if it is one of the chain.
fn see(view: &SlotView<'_>, there: Address) -> Option<Seen>
    ensures found { IfSome result (λ s. IsSeen there s (sheet_of view.now.page.now)) }
    ensures few { IfSome result (λ s. s.entries < 65536) }
    ensures short { IfSome result (λ s. s.bytes ≤ 2048 * s.entries) }
    ensures all { IsChainPage there (sheet_of view.now.page.now) → IsSome result }
{
    if view.kind() != KIND {
        return None;
    }
    let mut entries = 0u32;
    let mut bytes = 0u64;
    for slot in 0..view.slots() {
        let Some(cell) = view.slot(slot) else {
            continue;
        };
        if !is_entry_at(cell, there) {
            return None;
        }
        entries += 1;
        bytes += cell.len() as u64;
    }
    let (next, _) = view.links();
    Some(Seen {
        next: PageNo(next),
        entries,
        bytes,
    })
}

/// Looks that a page is one of the chain.
pub fn look<P: PageSpace>(space: &mut P, p: PageNo, there: Address) -> Result<Seen, ReachFault>
    requires { CanLook (P.view space.old) (P.view space.old).space.pages p.0 }
    ensures counts { CountsReach (P.view space.old) (P.view space.new) result }
    ensures kept { OnOk result (OnlyReads (P.view space.old) (P.view space.new)) }
    ensures read { IfOk result (λ s. (P.view space.old).Shows → HasAt (P.view space.old).space.pages.at p.0 (IsSeen there s)) }
    ensures few { IfOk result (λ s. s.entries < 65536) }
    ensures short { IfOk result (λ s. s.bytes ≤ 2048 * s.entries) }
    ensures broken { IfErr result (IfBroken
        ((P.view space.old).Shows → ¬ HasAt (P.view space.old).space.pages.at p.0 (IsChainPage there))) }
    ensures later { (t : Table) → P.later t space.old space.new }
    ensures means { (t : Table) → P.means space.old t → P.means space.new t }
    ensures writes { WritesNoneReach (P.view space.old) (P.view space.new) result }
    ensures names { IfErr result (IsAtPage p.0) }
{
    let view = space.page(p)?;
    match see(&view, there) {
        Some(seen) => Ok(seen),
        None => Err(ReachFault::Broken(p)),
    }
}
