ghost use Rattle.std.specs.Prelude.{◌≡◌, ◌≤◌, ◌<◌, ◌+◌, ℕ, List, length, min, OnOk, OnErr, IsTrue};
ghost use Rattle.sg_base.specs.Ends.{HasRisen};
ghost use Rattle.sg_base.specs.declared.page.TheConstants.{BAND_SIZE};
ghost use Rattle.sg_disk.specs.Disk.{END, FULL, LeavesOnly};
ghost use Rattle.sg_segment.specs.Runs.{NoneFrom, RunsFrom};
ghost use Rattle.sg_window.specs.Runs.{IsTorn, IsMarkedAt, AreWritten};

use sg_disk::{Area, Disk, Failed};
use sg_segment::Dirty;

/// Writes the marked bytes of a window of 32,768 bytes to the home area, in which the window begins at
/// `base`: each maximal run of them by one call. It doesn't sync.
///
/// Where it fails, each marked byte may have been written or not.
pub fn write_runs<D: Disk>(
    disk: &mut D,
    base: u64,
    window: &[u8],
    dirty: &Dirty,
) -> Result<(), Failed>
    requires size { length window.now ≡ BAND_SIZE }
    requires base { base + BAND_SIZE ≤ END }
    ensures done { IsTrue D.told → OnOk result (AreWritten (D.view disk.old).now (D.view disk.new).now base window.now dirty.now BAND_SIZE) }
    // At each moment, faults included.
    ensures any_moment { IsTrue D.told → LeavesOnly (D.view disk.old) (D.view disk.new) (IsTorn (D.view disk.old).now (IsMarkedAt base dirty.now BAND_SIZE)) }
    ensures later { (D.view disk.old).faults ≤ (D.view disk.new).faults }
    ensures heeded { OnOk result ((D.view disk.new).faults ≡ (D.view disk.old).faults) }
    ensures kept { (D.view disk.old).handed ≤ (D.view disk.new).handed }
    ensures handed { (D.view disk.new).handed ≤ (D.view disk.old).handed + BAND_SIZE }
    ensures failed { OnErr result (HasRisen (D.view disk.old).faults (D.view disk.new).faults) }
    // As many calls as there are maximal runs, and none where nothing is marked.
    ensures calls { (runs : List (ℕ × ℕ)) → RunsFrom dirty.now 0 runs → 0 < length runs → OnOk result ((D.view disk.new).calls ≡ min ((D.view disk.old).calls + length runs) FULL) }
    ensures idle { NoneFrom dirty.now 0 → (D.view disk.new).calls ≡ (D.view disk.old).calls }
{
    let mut from = 0;
    'runs: while let Some((start, count)) = dirty.next_run(from) {
        let end = start + count;
        disk.write_at(
            Area::Home,
            base + start as u64,
            &window[start as usize..end as usize],
        )?;
        from = end;
    }
    Ok(())
}
