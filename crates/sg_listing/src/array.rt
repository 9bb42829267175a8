// An array.
ghost use Rattle.std.specs.Prelude.{◌≡◌, ◌<◌, ◌≤◌, [], ◌∷◌, length, slice_index_or, ⊤};
ghost use Rattle.sg_array.specs.Calls.{HasArray, IfArray};
ghost use Rattle.sg_lines.specs.Parts.{item_parts, parts_of_object};
ghost use Rattle.sg_lines.specs.Parts.Part.{AnItem};
ghost use Rattle.sg_model.specs.Objects.Object.{Array};
ghost use Rattle.sg_listing.specs.Telling.{OnlyTold, CountsEars, IsTold};
ghost use Rattle.sg_ops.specs.Table.{Table};

use crate::fault::TellFault;
use sg_base::{Name, PageNo};
use sg_lines::Listener;
use sg_space::PageSpace;

// Tells of the item at an index, which has `size` bytes.
fn tell_item<P: PageSpace, L: Listener>(
    space: &mut P,
    root: PageNo,
    size: u16,
    index: u32,
    to: &mut L,
) -> Result<(), TellFault>
    requires small { size ≤ 256 }
    requires there { HasArray (P.view space.old) root.0 (λ a. index < length a.items) }
    ensures space { OnlyTold (P.view space.old) (P.view space.new) result }
    ensures heard { IfArray (P.view space.old) root.0 (λ a. size ≡ a.size
        → IsTold L.ears to.old (AnItem index (slice_index_or a.items index []) ∷ []) to.new result) }
    ensures listener { CountsEars L.ears to.old to.new result }
    ensures later { (t : Table) → P.later t space.old space.new }
    ensures means { (t : Table) → P.means space.old t → P.means space.new t }
{
    let mut item = [0; 256];
    sg_array::get(space, root, index, &mut item)?;
    to.item(u64::from(index), &item[..size as usize])?;
    Ok(())
}

// Tells of the first `len` items, which have `size` bytes each.
fn tell_items<P: PageSpace, L: Listener>(
    space: &mut P,
    root: PageNo,
    size: u16,
    len: u32,
    to: &mut L,
) -> Result<(), TellFault>
    requires small { size ≤ 256 }
    requires there { HasArray (P.view space.old) root.0 (λ a. len ≤ length a.items) }
    ensures space { OnlyTold (P.view space.old) (P.view space.new) result }
    ensures heard { IfArray (P.view space.old) root.0 (λ a. size ≡ a.size
        → IsTold L.ears to.old (item_parts len a.items) to.new result) }
    ensures listener { CountsEars L.ears to.old to.new result }
    ensures later { (t : Table) → P.later t space.old space.new }
    ensures means { (t : Table) → P.means space.old t → P.means space.new t }
{
    'items: for index in 0..len {
        tell_item(space, root, size, index, to)?;
    }
    Ok(())
}

/// Tells a listener of an array under a name: what it begins with, and then its items in their order. No more than one item is
/// held at a time.
pub fn tell_array<P: PageSpace, L: Listener>(
    space: &mut P,
    name: &Name,
    root: PageNo,
    to: &mut L,
) -> Result<(), TellFault>
    requires { HasArray (P.view space.old) root.0 (λ _. ⊤) }
    ensures space { OnlyTold (P.view space.old) (P.view space.new) result }
    ensures heard { IfArray (P.view space.old) root.0 (λ a.
        IsTold L.ears to.old (parts_of_object name.now (Array (record { size = a.size; items = a.items }))) to.new result) }
    ensures listener { CountsEars L.ears to.old to.new result }
    ensures later { (t : Table) → P.later t space.old space.new }
    ensures means { (t : Table) → P.means space.old t → P.means space.new t }
{
    let size = sg_array::size(space, root)?;
    let len = sg_array::len(space, root)?;
    to.array(name, u64::from(size), u64::from(len))?;
    tell_items(space, root, size, len, to)
}
