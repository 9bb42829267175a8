// The buckets of a table.
ghost use Rattle.std.specs.Prelude.{◌≡◌, ◌<◌, true, Some, slice_get, IfOk, IfErr, OnOk};
ghost use Rattle.sg_array.specs.Calls.{IfArray};
ghost use Rattle.sg_chains.specs.Reached.{AreFew};
ghost use Rattle.sg_linear.specs.Extent.{buckets_of, shape_of};
ghost use Rattle.sg_ops.specs.Table.{Table};
ghost use Rattle.sg_reach.specs.Fault.{CountsReach, WritesNoneReach, IfBroken, IsReached};
ghost use Rattle.sg_reach.specs.Marks.{AreKept};
ghost use Rattle.sg_space.specs.View.{OnlyReads};
ghost use Rattle.sg_tables.specs.Reached.{CanReachBucket, ReachesBucket, CanReachBuckets, ReachesBuckets};

use sg_alloc::Maps;
use sg_base::{PageNo, read_u32};
use sg_chains::{Chain, check_once, reach_chain};
use sg_linear::{Address, Extent};
use sg_reach::ReachFault;
use sg_space::PageSpace;

/// How many entries buckets have, and of how many bytes.
#[derive(Clone, Copy)]
pub struct Sums {
    pub entries: u64,
    pub bytes: u64,
}

// Sets the pages of the bucket that item i of the directory names. It is looked that its entries belong there, and
// that the key of each is that of no other.
fn reach_bucket<P: PageSpace>(
    space: &mut P,
    directory: PageNo,
    extent: Extent,
    i: u32,
    into: &mut Maps,
) -> Result<Chain, ReachFault>
    requires { (P.view space.old).Told
        → CanReachBucket (P.view space.old).space.pages.at directory.0 extent i into.old.pages }
    ensures counts { CountsReach (P.view space.old) (P.view space.new) result }
    ensures kept { OnOk result (OnlyReads (P.view space.old) (P.view space.new)) }
    ensures bands { into.new.bands ≡ into.old.bands }
    ensures reached { IfOk result (λ c. IfArray (P.view space.old) directory.0 (λ a. a.size ≡ 4
        → ReachesBucket (P.view space.old).space.pages.at a extent i into.old.pages into.new.pages c)) }
    ensures few { IfOk result (λ c. AreFew into.old.pages into.new.pages c.pages c.entries c.bytes) }
    ensures broken { IfErr result (IfBroken ((P.view space.old).Shows
        → ¬ CanReachBucket (P.view space.old).space.pages.at directory.0 extent i into.old.pages)) }
    ensures later { (t : Table) → P.later t space.old space.new }
    ensures means { (t : Table) → P.means space.old t → P.means space.new t }
    ensures writes { WritesNoneReach (P.view space.old) (P.view space.new) result }
    ensures stays { OnOk result ((P.view space.old).Shows → AreKept into.old.pages into.new.pages) }
    ensures place { IfErr result (IsReached ((P.view space.old).Shows × (slice_get into.old.pages directory.0 ≡ Some true)) into.new.pages) }
{
    let mut name = [0u8; 4];
    sg_array::get(space, directory, i, &mut name)?;
    let first = PageNo(read_u32(&name));
    let there = Address { extent, bucket: i };
    let chain = reach_chain(space, directory, first, there, into)?;
    check_once(space, first, chain.pages)?;
    Ok(chain)
}

/// Sets the pages of all buckets that the directory names.
pub fn reach_buckets<P: PageSpace>(
    space: &mut P,
    directory: PageNo,
    extent: Extent,
    into: &mut Maps,
) -> Result<Sums, ReachFault>
    requires { (P.view space.old).Told
        → CanReachBuckets (P.view space.old).space.pages.at directory.0 extent (buckets_of (shape_of extent)) into.old.pages }
    ensures counts { CountsReach (P.view space.old) (P.view space.new) result }
    ensures kept { OnOk result (OnlyReads (P.view space.old) (P.view space.new)) }
    ensures bands { into.new.bands ≡ into.old.bands }
    ensures reached { IfOk result (λ s. IfArray (P.view space.old) directory.0 (λ a. a.size ≡ 4
        → ReachesBuckets (P.view space.old).space.pages.at a extent (buckets_of (shape_of extent)) into.old.pages into.new.pages s.entries s.bytes)) }
    ensures broken { IfErr result (IfBroken ((P.view space.old).Shows
        → ¬ CanReachBuckets (P.view space.old).space.pages.at directory.0 extent (buckets_of (shape_of extent)) into.old.pages)) }
    ensures later { (t : Table) → P.later t space.old space.new }
    ensures means { (t : Table) → P.means space.old t → P.means space.new t }
    ensures writes { WritesNoneReach (P.view space.old) (P.view space.new) result }
    ensures stays { OnOk result ((P.view space.old).Shows → AreKept into.old.pages into.new.pages) }
    ensures place { IfErr result (IsReached ((P.view space.old).Shows × (slice_get into.old.pages directory.0 ≡ Some true)) into.new.pages) }
{
    // Each page that is set was free, which bounds the sums.
    let _most = into.free_pages();
    let mut entries = 0u64;
    let mut bytes = 0u64;
    for i in 0..extent.buckets() {
        let chain = reach_bucket(space, directory, extent, i, into)?;
        entries += chain.entries;
        bytes += chain.bytes;
    }
    Ok(Sums { entries, bytes })
}
