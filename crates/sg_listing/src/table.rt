// A table.
ghost use Rattle.std.specs.Prelude.{◌≡◌, [], ◌∷◌, List, ℕ, map, Some, IsSome, ⊤};
ghost use Rattle.std.specs.FinMap.{entries, keys};
ghost use Rattle.sg_contents.specs.Meaning.{map_of};
ghost use Rattle.sg_hash.specs.Calls.{HasHashTable, IfHashTable};
ghost use Rattle.sg_hash.specs.Table.{value_at};
ghost use Rattle.sg_lines.specs.Parts.{entry_part, parts_of_object};
ghost use Rattle.sg_lines.specs.Parts.Part.{AnEntry};
ghost use Rattle.sg_listing.specs.Telling.{OnlyTold, CountsEars, IsTold};
ghost use Rattle.sg_model.specs.Objects.Object.{Table as as_object};
ghost use Rattle.sg_ops.specs.Table.{Table};

use crate::fault::TellFault;
use sg_base::{Name, PageNo};
use sg_bucket::Bytes;
use sg_lines::Listener;
use sg_space::PageSpace;
use std::alloc::Global;

// Tells of a key that is there, and of its value.
fn tell_entry<P: PageSpace, L: Listener>(
    space: &mut P,
    root: PageNo,
    key: &[u8],
    to: &mut L,
) -> Result<(), TellFault>
    requires { HasHashTable (P.view space.old) root.0 (λ t. IsSome (value_at t key.now)) }
    ensures space { OnlyTold (P.view space.old) (P.view space.new) result }
    ensures heard { IfHashTable (P.view space.old) root.0 (λ t. (value : List ℕ) → value_at t key.now ≡ Some value
        → IsTold L.ears to.old (AnEntry key.now value ∷ []) to.new result) }
    ensures listener { CountsEars L.ears to.old to.new result }
    ensures later { (t : Table) → P.later t space.old space.new }
    ensures means { (t : Table) → P.means space.old t → P.means space.new t }
{
    let mut value = [0; 1024];
    let sought = sg_hash::find(space, root, key, &mut value)?;
    let Some(n) = sought else {
        return Err(TellFault::Space(space.broken()));
    };
    to.entry(key, &value[..n])?;
    Ok(())
}

// Tells of these keys, which are those of a table in the order of their bytes, and of their values.
fn tell_entries<P: PageSpace, L: Listener>(
    space: &mut P,
    root: PageNo,
    sorted: &[Bytes],
    to: &mut L,
) -> Result<(), TellFault>
    requires { HasHashTable (P.view space.old) root.0 (λ t. sorted.now ≡ keys (map_of t)) }
    ensures space { OnlyTold (P.view space.old) (P.view space.new) result }
    ensures heard { IfHashTable (P.view space.old) root.0 (λ t. sorted.now ≡ keys (map_of t)
        → IsTold L.ears to.old (map entry_part (entries (map_of t))) to.new result) }
    ensures listener { CountsEars L.ears to.old to.new result }
    ensures later { (t : Table) → P.later t space.old space.new }
    ensures means { (t : Table) → P.means space.old t → P.means space.new t }
{
    'keys: for key in sorted {
        tell_entry(space, root, key.bytes(), to)?;
    }
    Ok(())
}

/// Tells a listener of a table under a name: what it begins with, and then its entries by the bytes of their keys. Its keys are held, and no
/// more than one value at a time. `Memory` where memory is refused.
pub fn tell_table<P: PageSpace, L: Listener>(
    space: &mut P,
    alloc: Global,
    name: &Name,
    root: PageNo,
    to: &mut L,
) -> Result<(), TellFault>
    requires { HasHashTable (P.view space.old) root.0 (λ _. ⊤) }
    ensures space { OnlyTold (P.view space.old) (P.view space.new) result }
    ensures heard { IfHashTable (P.view space.old) root.0 (λ t.
        IsTold L.ears to.old (parts_of_object name.now (as_object (map_of t))) to.new result) }
    ensures listener { CountsEars L.ears to.old to.new result }
    ensures later { (t : Table) → P.later t space.old space.new }
    ensures means { (t : Table) → P.means space.old t → P.means space.new t }
{
    let keys = sg_hash::keys(space, root, alloc)?;
    let sorted = keys.as_slice();
    to.table(name, sorted.len() as u64)?;
    tell_entries(space, root, sorted, to)
}
