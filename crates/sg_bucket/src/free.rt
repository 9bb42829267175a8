// A bucket is freed.
ghost use Rattle.std.specs.Prelude.{◌+◌, ◌≤◌, length, OnOk, ⊤};
ghost use Rattle.sg_bucket.specs.Bucket.{Bucket, HasLinked, IsLinked};
ghost use Rattle.sg_bucket.specs.Calls.{Gone};
ghost use Rattle.sg_ops.specs.Table.{Table};
ghost use Rattle.sg_space.specs.View.{Counts};

use crate::page::next_of;
use sg_base::PageNo;
use sg_space::{PageSpace, SpaceFault};

/// Frees all pages of the bucket.
pub fn free_all<P: PageSpace>(space: &mut P, first: PageNo) -> Result<(), SpaceFault>
    requires { HasLinked (P.view space.old) first.0 (λ _. ⊤) }
    ensures counts { Counts (P.view space.old) (P.view space.new) result }
    ensures did { OnOk result (Gone (P.view space.old) (P.view space.new) first.0) }
    ensures later { (t : Table) → P.later t space.old space.new }
    ensures means { (t : Table) → P.means space.old t → P.means space.new t }
    ensures few { (P.view space.new).records ≤ (P.view space.old).records + (P.view space.old).space.pages.count }
    ensures few_told { (P.view space.old).Told → (b : Bucket) → IsLinked (P.view space.old).space.pages.at first.0 b →
        (P.view space.new).records ≤ (P.view space.old).records + length b.pages }
{
    let mut page = first;
    for _passed in 0..space.pages() {
        let next = next_of(space, page)?;
        space.free_page(page)?;
        if next.0 == 0 {
            return Ok(());
        }
        page = next;
    }
    Err(space.broken())
}
