ghost use Rattle.std.specs.Prelude.{◌≡◌, ◌≢◌, ℕ, ◌<◌, [], ◌∷◌, IsOkAnd};
ghost use Rattle.sg_list.specs.Items.{Stands};
ghost use Rattle.sg_list.specs.Two.{Keeps};
ghost use Rattle.sg_space.specs.Memory.{space_of};

use crate::{get, make, push};
use sg_base::PageNo;
use sg_ops::Ops;
use sg_space::{MemSpace, SpaceFault};

/// Makes a list of two items of 4 bytes in a space in memory that has a free page, and reads them back.
/// It never fails: it answers the list's page and what was read, which are the items.
pub fn keep_two(
    space: &mut MemSpace,
    ops: &Ops,
    first: [u8; 4],
    second: [u8; 4],
) -> Result<(PageNo, [u8; 4], [u8; 4]), SpaceFault>
    requires { 0 < (space_of space.old).pages.free }
    ensures { IsOkAnd result (λ r. Keeps (space_of space.old) (space_of space.new) first second r.0.0 r.1 r.2) }
{
    let root = make(space)?;
    push(space, ops, root, &first)?;
    push(space, ops, root, &second)?;
    let mut a = [0; 4];
    let mut b = [0; 4];
    get(space, root, 0, &mut a)?;
    get(space, root, 1, &mut b)?;
    Ok((root, a, b))
}
