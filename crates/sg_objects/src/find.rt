// The object of a name.
ghost use Rattle.std.specs.Prelude.{◌≡◌, ◌≤◌, IfOk, OnOk, ⊤};
ghost use Rattle.sg_ops.specs.Table.{Table as Operations};
ghost use Rattle.sg_space.specs.View.{Counts, OnlyReads};
ghost use Rattle.sg_contents.specs.Standing.{HasContents, IfContents};
ghost use Rattle.sg_objects.specs.Found.{IsLocated, IsArrayFound};
ghost use Rattle.sg_space.specs.Pages.{WritesNone};

use sg_base::{Name, PageNo};
use sg_catalog::ObjectKind;
use sg_model::Reason;
use sg_space::{PageSpace, SpaceFault};

/// An array: its root, the size of its items, and how many there are.
#[derive(Clone, Copy)]
pub struct ArrayAt {
    pub root: PageNo,
    pub size: u16,
    pub len: u32,
}

/// The root of the object of this name, if it is of this kind.
pub fn root_of<P: PageSpace>(
    space: &mut P,
    name: Name,
    kind: ObjectKind,
) -> Result<Result<PageNo, Reason>, SpaceFault>
    requires { HasContents (P.view space.old) (λ _. ⊤) }
    ensures counts { Counts (P.view space.old) (P.view space.new) result }
    ensures kept { OnOk result (OnlyReads (P.view space.old) (P.view space.new)) }
    ensures read { IfOk result (λ r. IfContents (P.view space.old) (λ s. IsLocated kind name s r)) }
    ensures later { (t : Operations) → P.later t space.old space.new }
    ensures means { (t : Operations) → P.means space.old t → P.means space.new t }
    ensures writes { WritesNone (P.view space.old) (P.view space.new) result }
{
    match sg_catalog::find(space, name)? {
        None => Ok(Err(Reason::NoObject)),
        Some(entry) => {
            if entry.kind == kind {
                Ok(Ok(entry.root))
            } else {
                Ok(Err(Reason::WrongKind))
            }
        }
    }
}

/// The array of this name.
pub fn array_of<P: PageSpace>(
    space: &mut P,
    name: Name,
) -> Result<Result<ArrayAt, Reason>, SpaceFault>
    requires { HasContents (P.view space.old) (λ _. ⊤) }
    ensures counts { Counts (P.view space.old) (P.view space.new) result }
    ensures kept { OnOk result (OnlyReads (P.view space.old) (P.view space.new)) }
    ensures read { IfOk result (λ r. IfContents (P.view space.old) (λ s. IsArrayFound name s r)) }
    ensures small { IfOk result (λ r. IfOk r (λ x. x.size ≤ 256)) }
    ensures later { (t : Operations) → P.later t space.old space.new }
    ensures means { (t : Operations) → P.means space.old t → P.means space.new t }
    ensures writes { WritesNone (P.view space.old) (P.view space.new) result }
{
    match root_of(space, name, ObjectKind::Array)? {
        Err(reason) => Ok(Err(reason)),
        Ok(root) => {
            let size = sg_array::size(space, root)?;
            let len = sg_array::len(space, root)?;
            Ok(Ok(ArrayAt { root, size, len }))
        }
    }
}
