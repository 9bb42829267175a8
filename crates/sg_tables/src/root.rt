// The root of a table.
ghost use Rattle.std.specs.Prelude.{◌≡◌, ◌+◌, ◌*◌, ◌≤◌, IsTrue, IsFalse, IfSome, IsSome, IfOk, IfErr, OnOk};
ghost use Rattle.sg_base.specs.Sheet.{sheet_of};
ghost use Rattle.sg_hash.specs.Steps.{numbers_in};
ghost use Rattle.sg_ops.specs.Table.{Table};
ghost use Rattle.sg_reach.specs.Fault.{CountsReach, WritesNoneReach, IfBroken, IsAtPage};
ghost use Rattle.sg_reach.specs.Reached.{numbers_in as array_root};
ghost use Rattle.sg_space.specs.Pages.{CanLook};
ghost use Rattle.sg_space.specs.Units.{HasAt};
ghost use Rattle.sg_space.specs.View.{OnlyReads};
ghost use Rattle.sg_tables.specs.Trunk.{IsTrunkSheet, IsRootSheet, IsDirectory};

use sg_base::{PageNo, SlotView};
use sg_hash::{Root, root_in};
use sg_reach::{Numbers as ArrayNumbers, ReachFault};
use sg_space::PageSpace;

const KIND: u8 = 5;

const CELL: usize = 25;

/// What the root's page says: its numbers, and where its directory is.
#[derive(Clone, Copy)]
pub struct Trunk {
    pub root: Root,
    pub directory: PageNo,
}

// What a page says, if it is the root of a table and says nothing else.
fn trunk_on(view: &SlotView<'_>) -> Option<Trunk>
    ensures found { IfSome result (λ t. IsTrunkSheet t (sheet_of view.now.page.now)) }
    ensures all { IsRootSheet (sheet_of view.now.page.now) → IsSome result }
{
    if view.kind() != KIND || view.slots() != 1 {
        return None;
    }
    let (directory, other) = view.links();
    if other != 0 {
        return None;
    }
    let cell = view.slot(0)?;
    if cell.len() != CELL {
        return None;
    }
    let root = root_in(cell)?;
    Some(Trunk {
        root,
        directory: PageNo(directory),
    })
}

/// Looks that a page is the root of a table, and answers what it says.
pub fn read_trunk<P: PageSpace>(space: &mut P, root: PageNo) -> Result<Trunk, ReachFault>
    requires { CanLook (P.view space.old) (P.view space.old).space.pages root.0 }
    ensures counts { CountsReach (P.view space.old) (P.view space.new) result }
    ensures kept { OnOk result (OnlyReads (P.view space.old) (P.view space.new)) }
    ensures read { IfOk result (λ t. (P.view space.old).Shows → HasAt (P.view space.old).space.pages.at root.0 (IsTrunkSheet t)) }
    ensures broken { IfErr result (IfBroken
        ((P.view space.old).Shows → ¬ HasAt (P.view space.old).space.pages.at root.0 IsRootSheet)) }
    ensures later { (t : Table) → P.later t space.old space.new }
    ensures means { (t : Table) → P.means space.old t → P.means space.new t }
    ensures writes { WritesNoneReach (P.view space.old) (P.view space.new) result }
    ensures names { IfErr result (IsAtPage root.0) }
{
    let view = space.page(root)?;
    match trunk_on(&view) {
        Some(trunk) => Ok(trunk),
        None => Err(ReachFault::Broken(root)),
    }
}

/// Whether an array of these numbers is a directory for a table of this root.
pub fn is_directory(root: Root, names: ArrayNumbers) -> bool
    ensures yes { IsTrue result → IsDirectory (numbers_in root) (array_root names) }
    ensures other { IsFalse result → ¬ IsDirectory (numbers_in root) (array_root names) }
{
    let buckets = root.extent.buckets();
    if names.size != 4 || names.count != buckets || names.peak != buckets {
        return false;
    }
    buckets <= 1 || u64::from(buckets - 1) * 2_048 < root.peak
}
