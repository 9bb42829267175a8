// The object of a name.
ghost use Rattle.std.specs.Prelude.{◌≡◌, Some, IsSome};
ghost use Rattle.std.specs.FinMap.{get};
ghost use Rattle.sg_catalog.specs.Catalog.{rows, there};
ghost use Rattle.sg_contents.specs.Meaning.{reading};
ghost use Rattle.sg_contents.specs.Standing.{HasContents, IfContents};
ghost use Rattle.sg_lines.specs.Parts.{parts_of_object};
ghost use Rattle.sg_listing.specs.Telling.{OnlyTold, CountsEars, IsTold};
ghost use Rattle.sg_model.specs.Objects.{Object};
ghost use Rattle.sg_ops.specs.Table.{Table};
ghost use Rattle.sg_reading.specs.Reading.{objects};

use crate::array::tell_array;
use crate::blob::tell_blob;
use crate::fault::TellFault;
use crate::table::tell_table;
use sg_base::Name;
use sg_catalog::ObjectKind;
use sg_lines::Listener;
use sg_space::PageSpace;
use std::alloc::Global;

/// Tells a listener of the object under a name: what it begins with, and then its contents.
pub fn tell_object<P: PageSpace, L: Listener>(
    space: &mut P,
    alloc: Global,
    name: &Name,
    to: &mut L,
) -> Result<(), TellFault>
    requires { HasContents (P.view space.old) (λ s. IsSome (there name.now (rows s.catalog))) }
    ensures space { OnlyTold (P.view space.old) (P.view space.new) result }
    ensures heard { IfContents (P.view space.old) (λ s. (object : Object) → get (objects (reading s)) name.now ≡ Some object
        → IsTold L.ears to.old (parts_of_object name.now object) to.new result) }
    ensures listener { CountsEars L.ears to.old to.new result }
    ensures later { (t : Table) → P.later t space.old space.new }
    ensures means { (t : Table) → P.means space.old t → P.means space.new t }
{
    let sought = sg_catalog::find(space, *name)?;
    let Some(found) = sought else {
        return Err(TellFault::Space(space.broken()));
    };
    match found.kind {
        ObjectKind::Array => tell_array(space, name, found.root, to),
        ObjectKind::Table => tell_table(space, alloc, name, found.root, to),
        ObjectKind::Blob => tell_blob(space, name, found.root, to),
    }
}
