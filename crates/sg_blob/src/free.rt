// A blob is freed.
ghost use Rattle.std.specs.Prelude.{◌≡◌, ◌+◌, ◌<◌, ◌≤◌, OnOk, ⊤};
ghost use Rattle.sg_blob.specs.Calls.{HasBlob, Gone};
ghost use Rattle.sg_ops.specs.Table.{Table};
ghost use Rattle.sg_space.specs.View.{Counts};

use crate::walk::{bands_for, link_at, read_root};
use sg_base::PageNo;
use sg_space::{PageSpace, SpaceFault};

/// Frees the blob's bands and its root.
pub fn free_all<P: PageSpace>(space: &mut P, root: PageNo) -> Result<(), SpaceFault>
    requires { HasBlob (P.view space.old) root.0 (λ _. ⊤) }
    ensures counts { Counts (P.view space.old) (P.view space.new) result }
    ensures did { OnOk result (Gone (P.view space.old) (P.view space.new) root.0) }
    ensures later { (t : Table) → P.later t space.old space.new }
    ensures means { (t : Table) → P.means space.old t → P.means space.new t }
    ensures few { (P.view space.new).records ≤ (P.view space.old).records + 501 }
{
    let found = read_root(space, root)?;
    for j in 0..bands_for(found.peak) {
        let b = link_at(space, root, (j + 1) as u16)?;
        space.free_band(b)?;
    }
    space.free_page(root)?;
    Ok(())
}
