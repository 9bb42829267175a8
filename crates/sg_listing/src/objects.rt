// All objects.
ghost use Rattle.std.specs.Prelude.{◌≡◌, length, IfOk, ⊤};
ghost use Rattle.std.specs.FinMap.{entries, keys};
ghost use Rattle.sg_contents.specs.Meaning.{reading};
ghost use Rattle.sg_contents.specs.Standing.{HasContents, IfContents};
ghost use Rattle.sg_lines.specs.Parts.{parts_of};
ghost use Rattle.sg_listing.specs.Telling.{OnlyTold, CountsEars, IsTold};
ghost use Rattle.sg_ops.specs.Table.{Table};
ghost use Rattle.sg_reading.specs.Reading.{objects};

use crate::fault::TellFault;
use crate::object::tell_object;
use sg_base::Name;
use sg_lines::Listener;
use sg_space::PageSpace;
use std::alloc::Global;

// Tells of the objects under these names, which are all that there are, in the order of their bytes.
fn tell_named<P: PageSpace, L: Listener>(
    space: &mut P,
    alloc: Global,
    names: &[Name],
    to: &mut L,
) -> Result<(), TellFault>
    requires { HasContents (P.view space.old) (λ s. names.now ≡ keys (objects (reading s))) }
    ensures space { OnlyTold (P.view space.old) (P.view space.new) result }
    ensures heard { IfContents (P.view space.old) (λ s. names.now ≡ keys (objects (reading s))
        → IsTold L.ears to.old (parts_of (objects (reading s))) to.new result) }
    ensures listener { CountsEars L.ears to.old to.new result }
    ensures later { (t : Table) → P.later t space.old space.new }
    ensures means { (t : Table) → P.means space.old t → P.means space.new t }
{
    'names: for name in names {
        tell_object(space, alloc, name, to)?;
    }
    Ok(())
}

/// Tells a listener of the objects that the pages and bands of a space hold, in the order of their names: what each begins with, and
/// then its contents. It gives how many objects there are. The names are held, and while a table is told of its keys; no object is. The
/// space is only read.
///
/// `Space` where a call of the space fails or what is read can't be, `Memory` where memory is refused, and `Listener` where the
/// listener fails, which is told nothing more.
pub fn tell<P: PageSpace, L: Listener>(
    space: &mut P,
    alloc: Global,
    to: &mut L,
) -> Result<u64, TellFault>
    requires { HasContents (P.view space.old) (λ _. ⊤) }
    ensures space { OnlyTold (P.view space.old) (P.view space.new) result }
    ensures heard { IfContents (P.view space.old) (λ s. IsTold L.ears to.old (parts_of (objects (reading s))) to.new result) }
    ensures count { IfOk result (λ n. IfContents (P.view space.old) (λ s. n ≡ length (entries (objects (reading s))))) }
    ensures listener { CountsEars L.ears to.old to.new result }
    ensures later { (t : Table) → P.later t space.old space.new }
    ensures means { (t : Table) → P.means space.old t → P.means space.new t }
{
    let all = sg_objects::list(space, alloc)?;
    let names = all.as_slice();
    tell_named(space, alloc, names, to)?;
    Ok(names.len() as u64)
}
