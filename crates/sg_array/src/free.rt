// An array is freed.
ghost use Rattle.std.specs.Prelude.{◌≡◌, ◌+◌, ◌<◌, ◌≤◌, length, OnOk, ⊤};
ghost use Rattle.sg_array.specs.Array.{IsArray};
ghost use Rattle.sg_array.specs.Calls.{HasArray, Gone};
ghost use Rattle.sg_array.specs.Steps.{NamesIndex, Frees};
ghost use Rattle.sg_ops.specs.Table.{Table};
ghost use Rattle.sg_space.specs.View.{Counts};

use crate::walk::{
    INDEX_KIND, LEAF_KIND, ROOT_KIND, check_kind, leaf_at, link_at, read_root, wanted_pages,
};
use sg_base::PageNo;
use sg_space::{PageSpace, SpaceFault};

// Frees the item pages, of which there are so many.
fn free_leaves<P: PageSpace>(space: &mut P, root: PageNo, count: u32) -> Result<(), SpaceFault>
    requires few { count < 70000 }
    requires there { HasArray (P.view space.old) root.0 (λ a. length a.leaves ≡ count) }
    ensures counts { Counts (P.view space.old) (P.view space.new) result }
    ensures did { OnOk result (Frees (P.view space.old) (P.view space.new)
        (λ a. IsArray (P.view space.old).space.pages.at root.0 a × (length a.leaves ≡ count))
        (λ a. a.leaves) (λ a. length a.leaves)) }
    ensures later { (t : Table) → P.later t space.old space.new }
    ensures means { (t : Table) → P.means space.old t → P.means space.new t }
    ensures few { (P.view space.new).records ≤ (P.view space.old).records + count }
{
    for d in 0..count {
        let leaf = leaf_at(space, root, d)?;
        check_kind(space, leaf, LEAF_KIND)?;
        space.free_page(leaf)?;
    }
    Ok(())
}

// Frees the index pages, of which there are so many.
fn free_index<P: PageSpace>(space: &mut P, root: PageNo, count: u32) -> Result<(), SpaceFault>
    requires few { count ≤ 138 }
    requires there { (P.view space.old).Told → (a : _) × NamesIndex (P.view space.old).space.pages.at root.0 count a }
    ensures counts { Counts (P.view space.old) (P.view space.new) result }
    ensures did { OnOk result (Frees (P.view space.old) (P.view space.new)
        (NamesIndex (P.view space.old).space.pages.at root.0 count) (λ a. a.index) (λ a. length a.index)) }
    ensures later { (t : Table) → P.later t space.old space.new }
    ensures means { (t : Table) → P.means space.old t → P.means space.new t }
    ensures few { (P.view space.new).records ≤ (P.view space.old).records + count }
{
    for j in 0..count {
        let index = link_at(space, root, ROOT_KIND, (j + 1) as u16)?;
        check_kind(space, index, INDEX_KIND)?;
        space.free_page(index)?;
    }
    Ok(())
}

/// Frees the array's pages: its root, its index pages and its item pages. A space with fewer pages than these has no such array.
pub fn free_all<P: PageSpace>(space: &mut P, root: PageNo) -> Result<(), SpaceFault>
    requires { HasArray (P.view space.old) root.0 (λ _. ⊤) }
    ensures counts { Counts (P.view space.old) (P.view space.new) result }
    ensures did { OnOk result (Gone (P.view space.old) (P.view space.new) root.0) }
    ensures later { (t : Table) → P.later t space.old space.new }
    ensures means { (t : Table) → P.means space.old t → P.means space.new t }
    ensures few { (P.view space.new).records ≤ (P.view space.old).records + 70138 }
{
    let found = read_root(space, root)?;
    let wanted = wanted_pages(found);
    if wanted.leaves > space.pages() {
        return Err(space.broken());
    }
    free_leaves(space, root, wanted.leaves)?;
    free_index(space, root, wanted.index)?;
    space.free_page(root)?;
    Ok(())
}
