// How a batch of pages goes home.
ghost use Rattle.std.specs.Prelude.{◌≡◌, ◌≤◌, ◌<◌, ◌+◌, ◌*◌, ℕ, length, min, slice_index, OnOk, OnErr, IfErr, IsTrue};
ghost use Rattle.sg_base.specs.Ends.{HasRisen};
ghost use Rattle.sg_base.specs.declared.area.Area.TheVariants.{Home};
ghost use Rattle.sg_disk.specs.Disk.{FULL, Leaves, LeavesOnly, Wrote, window, written};
ghost use Rattle.sg_disk.specs.Heeds.{Heeds};
ghost use Rattle.sg_gate.specs.Faults.{WriteFails, is_disk};
ghost use Rattle.sg_gate.specs.Layout.{PAGE, place_at, home_at};
ghost use Rattle.sg_gate.specs.Batch.{homed, IsBatch, IsReady, IsSettled, IsOpen, IsOpened, IsDone, IsWhole, IsEither, SameLogs};

use crate::GateFault;
use crate::gate::open_gate;
use crate::header::stage_header;
use crate::layout::{HEADER_START, page_start, place_start};
use sg_base::{PAGE_SIZE, PageNo};
use sg_disk::{Area, Disk, Failed};

/// Writes a page to place `k` of the double-write area. The store is as it was, and so it is at each
/// moment of the call, while the header's gate is closed.
pub fn place<D: Disk>(disk: &mut D, k: u32, page: &[u8]) -> Result<(), GateFault>
    requires place { k < 32 }
    requires size { length page.now ≡ PAGE }
    ensures does { IsTrue D.told → Wrote Home (place_at k) page.now (D.view disk.old) (D.view disk.new) result }
    ensures ready { IsTrue D.told → IsReady ((D.view disk.old).now Home) → OnOk result (IsReady ((D.view disk.new).now Home)) }
    ensures any_moment { (pages : ℕ) → IsTrue D.told → IsReady ((D.view disk.old).now Home) →
        LeavesOnly (D.view disk.old) (D.view disk.new) (IsWhole (D.view disk.old).now pages ((D.view disk.old).now Home).seen) }
    ensures faults { IfErr result (λ e. WriteFails (D.view disk.old) (D.view disk.new) e) }
    ensures later { (D.view disk.old).faults ≤ (D.view disk.new).faults }
    ensures heeded { Heeds is_disk result (D.view disk.old) (D.view disk.new) }
    ensures calls { (D.view disk.new).calls ≡ min ((D.view disk.old).calls + 1) FULL }
    ensures handed { (D.view disk.new).handed ≤ (D.view disk.old).handed + PAGE }
    ensures kept { (D.view disk.old).handed ≤ (D.view disk.new).handed }
    ensures all_handed { OnOk result ((D.view disk.new).handed ≡ min ((D.view disk.old).handed + PAGE) FULL) }
{
    disk.write_at(Area::Home, place_start(k), page)?;
    Ok(())
}

// Copies the page at place k to the home of page n.
fn copy_page<D: Disk>(disk: &mut D, k: u32, n: u32, page: &mut [u8]) -> Result<(), Failed>
    requires place { k < 32 }
    requires size { length page.old ≡ PAGE }
    ensures any_moment { IsTrue D.told → LeavesOnly (D.view disk.old) (D.view disk.new) (Leaves (written Home (home_at n) (window ((D.view disk.old).now Home).seen (place_at k) (length page.old)) (D.view disk.old).now)) }
    ensures done { IsTrue D.told → OnOk result ((D.view disk.new).now ≡ written Home (home_at n) (window ((D.view disk.old).now Home).seen (place_at k) (length page.old)) (D.view disk.old).now) }
    ensures failed { OnErr result (HasRisen (D.view disk.old).faults (D.view disk.new).faults) }
    ensures later { (D.view disk.old).faults ≤ (D.view disk.new).faults }
    ensures quiet { OnOk result ((D.view disk.new).faults ≡ (D.view disk.old).faults) }
    ensures calls { OnOk result ((D.view disk.new).calls ≡ min ((D.view disk.old).calls + 2) FULL) }
    ensures calls_most { (D.view disk.new).calls ≤ (D.view disk.old).calls + 2 }
    ensures handed { (D.view disk.new).handed ≤ (D.view disk.old).handed + PAGE }
    ensures kept { (D.view disk.old).handed ≤ (D.view disk.new).handed }
    ensures all_handed { OnOk result ((D.view disk.new).handed ≡ min ((D.view disk.old).handed + PAGE) FULL) }
{
    disk.read_at(Area::Home, place_start(k), page)?;
    disk.write_at(Area::Home, page_start(PageNo(n)), page)
}

/// Copies the pages at the first places to the homes of these pages, syncs, closes the gate and
/// syncs.
pub fn copy_home<D: Disk>(disk: &mut D, numbers: &[u32], page: &mut [u8]) -> Result<(), Failed>
    requires most { length numbers.now ≤ 32 }
    requires size { length page.old ≡ PAGE }
    ensures done { IsTrue D.told → OnOk result (IsDone ((D.view disk.new).now Home) (homed numbers.now ((D.view disk.old).now Home).seen)) }
    ensures logs { IsTrue D.told → OnOk result (SameLogs (D.view disk.old).now (D.view disk.new).now) }
    ensures any_moment { (pages : ℕ) → IsTrue D.told → IsOpen ((D.view disk.old).now Home) numbers.now → IsSettled ((D.view disk.old).now Home) → IsBatch pages numbers.now →
        LeavesOnly (D.view disk.old) (D.view disk.new) (IsWhole (D.view disk.old).now pages (homed numbers.now ((D.view disk.old).now Home).seen)) }
    ensures failed { OnErr result (HasRisen (D.view disk.old).faults (D.view disk.new).faults) }
    ensures later { (D.view disk.old).faults ≤ (D.view disk.new).faults }
    ensures quiet { OnOk result ((D.view disk.new).faults ≡ (D.view disk.old).faults) }
    ensures calls { OnOk result ((D.view disk.new).calls ≡ min ((D.view disk.old).calls + 2 * length numbers.now + 3) FULL) }
    ensures calls_most { (D.view disk.new).calls ≤ (D.view disk.old).calls + 2 * length numbers.now + 3 }
    ensures handed { (D.view disk.new).handed ≤ (D.view disk.old).handed + PAGE * length numbers.now + 1 }
    ensures kept { (D.view disk.old).handed ≤ (D.view disk.new).handed }
    ensures all_handed { OnOk result ((D.view disk.new).handed ≡ min ((D.view disk.old).handed + PAGE * length numbers.now + 1) FULL) }
{
    'pages: for k in 0..numbers.len() {
        copy_page(disk, k as u32, numbers[k], page)?;
    }
    disk.sync(Area::Home)?;
    disk.write_at(Area::Home, HEADER_START, &[0])?;
    disk.sync(Area::Home)?;
    Ok(())
}

// Writes the header behind the closed gate, and then opens the gate, with a sync behind each.
fn open_batch<D: Disk>(disk: &mut D, numbers: &[u32], text: &mut [u8]) -> Result<(), Failed>
    requires most { length numbers.now ≤ 32 }
    requires room { 132 ≤ length text.old }
    ensures done { IsTrue D.told → OnOk result (IsOpened (D.view disk.old).now (D.view disk.new).now numbers.now) }
    ensures any_moment { (pages : ℕ) → IsTrue D.told → IsReady ((D.view disk.old).now Home) → IsBatch pages numbers.now →
        LeavesOnly (D.view disk.old) (D.view disk.new) (IsEither (D.view disk.old).now pages ((D.view disk.old).now Home).seen (homed numbers.now ((D.view disk.old).now Home).seen)) }
    ensures failed { OnErr result (HasRisen (D.view disk.old).faults (D.view disk.new).faults) }
    ensures later { (D.view disk.old).faults ≤ (D.view disk.new).faults }
    ensures quiet { OnOk result ((D.view disk.new).faults ≡ (D.view disk.old).faults) }
    ensures calls { OnOk result ((D.view disk.new).calls ≡ min ((D.view disk.old).calls + 4) FULL) }
    ensures calls_most { (D.view disk.new).calls ≤ (D.view disk.old).calls + 4 }
    ensures handed { (D.view disk.new).handed ≤ (D.view disk.old).handed + 4 * length numbers.now + 5 }
    ensures kept { (D.view disk.old).handed ≤ (D.view disk.new).handed }
    ensures all_handed { OnOk result ((D.view disk.new).handed ≡ min ((D.view disk.old).handed + 4 * length numbers.now + 5) FULL) }
{
    stage_header(disk, numbers, text)?;
    open_gate(disk)
}

/// Writes the pages at the first places home, each to the home of its number: it writes the header,
/// opens its gate, copies the places home and closes the gate, with a sync behind each of the four.
/// At each moment a crash leaves an image that opening sees with all of these pages, or with none.
/// That holds where nothing is pending in the home area but in the places.
pub fn finish<D: Disk>(disk: &mut D, pages: u32, numbers: &[u32]) -> Result<(), GateFault>
    requires { IsBatch pages numbers.now }
    ensures done { IsTrue D.told → OnOk result (IsDone ((D.view disk.new).now Home) (homed numbers.now ((D.view disk.old).now Home).seen)) }
    ensures logs { IsTrue D.told → OnOk result (SameLogs (D.view disk.old).now (D.view disk.new).now) }
    ensures any_moment { IsTrue D.told → IsReady ((D.view disk.old).now Home) →
        LeavesOnly (D.view disk.old) (D.view disk.new) (IsEither (D.view disk.old).now pages ((D.view disk.old).now Home).seen (homed numbers.now ((D.view disk.old).now Home).seen)) }
    ensures faults { IfErr result (λ e. WriteFails (D.view disk.old) (D.view disk.new) e) }
    ensures later { (D.view disk.old).faults ≤ (D.view disk.new).faults }
    ensures heeded { Heeds is_disk result (D.view disk.old) (D.view disk.new) }
    ensures calls { OnOk result ((D.view disk.new).calls ≡ min ((D.view disk.old).calls + 2 * length numbers.now + 7) FULL) }
    ensures calls_most { (D.view disk.new).calls ≤ (D.view disk.old).calls + 2 * length numbers.now + 7 }
    ensures handed { (D.view disk.new).handed ≤ (D.view disk.old).handed + (PAGE + 4) * length numbers.now + 6 }
    ensures kept { (D.view disk.old).handed ≤ (D.view disk.new).handed }
    ensures all_handed { OnOk result ((D.view disk.new).handed ≡ min ((D.view disk.old).handed + (PAGE + 4) * length numbers.now + 6) FULL) }
{
    let mut text = [0; 132];
    let mut page = [0; PAGE_SIZE];
    open_batch(disk, numbers, &mut text)?;
    copy_home(disk, numbers, &mut page)?;
    Ok(())
}
