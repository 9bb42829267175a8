// How the batch of an open header is laid over.
ghost use Rattle.std.specs.Prelude.{◌≡◌, ◌≢◌, ◌⊎◌, ◌≤◌, ◌+◌, ◌*◌, ℕ, length, take, min, OnOk, IfOk, IfErr, IfSome, IsTrue};
ghost use Rattle.sg_base.specs.declared.area.Area.TheVariants.{Home};
ghost use Rattle.sg_disk.specs.Disk.{FULL, LeavesOnly};
ghost use Rattle.sg_disk.specs.Heeds.{Heeds};
ghost use Rattle.sg_gate.specs.Faults.{LayFails, is_disk};
ghost use Rattle.sg_gate.specs.Layout.{PAGE, HEADER};
ghost use Rattle.sg_gate.specs.Reads.{OnlyReads};
ghost use Rattle.sg_gate.specs.Batch.{numbers_of, laid, IsBatch, IsSettled, IsLaid, IsWhole, IsWrongAt, SameLogs};

use crate::GateFault;
use crate::batch::copy_home;
use crate::header::read_header;
use crate::layout::{COUNT_START, HEADER_START};
use sg_base::PAGE_SIZE;
use sg_disk::{Area, Disk};

// Reads the numbers of an open batch to the front of `into`, and answers how many there are, or none
// where the gate is closed. `header` is a buffer for the gate and what stands behind it.
fn read_batch<D: Disk>(
    disk: &mut D,
    pages: u32,
    header: &mut [u8],
    into: &mut [u32],
) -> Result<Option<usize>, GateFault>
    requires size { length header.old ≡ 133 }
    requires room { length into.old ≡ 32 }
    ensures closed { IsTrue D.told → result ≡ Ok None → ((D.view disk.old).now Home).seen HEADER ≢ 1 }
    ensures open { IsTrue D.told → IfOk result (λ r. IfSome r (λ n. (((D.view disk.old).now Home).seen HEADER ≡ 1) × (take n into.new ≡ numbers_of ((D.view disk.old).now Home).seen))) }
    ensures batch { IfOk result (λ r. IfSome r (λ n. IsBatch pages (take n into.new))) }
    ensures within { IfOk result (λ r. IfSome r (λ n. n ≤ 32)) }
    ensures faults { IfErr result (λ e. LayFails D.told pages (D.view disk.old) (D.view disk.new) e) }
    ensures reads { OnlyReads D.told (D.view disk.old) (D.view disk.new) }
    ensures heeded { Heeds is_disk result (D.view disk.old) (D.view disk.new) }
    ensures calls { (D.view disk.new).calls ≡ min ((D.view disk.old).calls + 1) FULL }
{
    disk.read_at(Area::Home, HEADER_START, header)?;
    if header[0] != 1 {
        return Ok(None);
    }
    match read_header(&header[1..], pages, into) {
        Ok(count) => Ok(Some(count)),
        Err(at) => Err(GateFault::Damaged {
            at: COUNT_START + at,
        }),
    }
}

/// Lays the pages of an open batch over their homes, and closes its gate. A header whose gate is
/// closed is left as it is. At each moment a crash leaves an image that opening sees as before; that
/// holds where nothing is pending in the home area.
///
/// It answers `Damaged` exactly where the gate is open and a field of the header is out of its range,
/// with the offset of the first such field. Nothing is written then.
pub fn lay_over<D: Disk>(disk: &mut D, pages: u32) -> Result<(), GateFault>
    ensures done { IsTrue D.told → OnOk result (IsLaid (D.view disk.old).now (D.view disk.new).now) }
    ensures any_moment { IsTrue D.told → IsSettled ((D.view disk.old).now Home) → (((D.view disk.old).now Home).seen HEADER ≡ 1 → IsBatch pages (numbers_of ((D.view disk.old).now Home).seen)) →
        LeavesOnly (D.view disk.old) (D.view disk.new) (IsWhole (D.view disk.old).now pages (laid ((D.view disk.old).now Home).seen)) }
    ensures faults { IfErr result (λ e. LayFails D.told pages (D.view disk.old) (D.view disk.new) e) }
    // A damage is found, if the disk reads it.
    ensures damaged { (at : ℕ) → IsTrue D.told → ((D.view disk.old).now Home).seen HEADER ≡ 1 → IsWrongAt pages ((D.view disk.old).now Home).seen (HEADER + 1) at →
        (result ≡ Err (GateFault.Damaged at)) ⊎ (result ≡ Err GateFault.Disk) }
    ensures unchanged { (at : ℕ) → result ≡ Err (GateFault.Damaged at) → OnlyReads D.told (D.view disk.old) (D.view disk.new) }
    ensures later { (D.view disk.old).faults ≤ (D.view disk.new).faults }
    ensures heeded { Heeds is_disk result (D.view disk.old) (D.view disk.new) }
    ensures shut { IsTrue D.told → ((D.view disk.old).now Home).seen HEADER ≢ 1 → OnlyReads D.told (D.view disk.old) (D.view disk.new) }
    ensures shut_calls { IsTrue D.told → ((D.view disk.old).now Home).seen HEADER ≢ 1 → (D.view disk.new).calls ≡ min ((D.view disk.old).calls + 1) FULL }
    ensures calls { IsTrue D.told → ((D.view disk.old).now Home).seen HEADER ≡ 1 →
        OnOk result ((D.view disk.new).calls ≡ min ((D.view disk.old).calls + 2 * length (numbers_of ((D.view disk.old).now Home).seen) + 4) FULL) }
    ensures calls_most { (D.view disk.new).calls ≤ (D.view disk.old).calls + 68 }
    ensures handed { (D.view disk.new).handed ≤ (D.view disk.old).handed + PAGE * 32 + 1 }
    ensures kept { (D.view disk.old).handed ≤ (D.view disk.new).handed }
    ensures all_handed { IsTrue D.told → ((D.view disk.old).now Home).seen HEADER ≡ 1 →
        OnOk result ((D.view disk.new).handed ≡ min ((D.view disk.old).handed + PAGE * length (numbers_of ((D.view disk.old).now Home).seen) + 1) FULL) }
{
    let mut header = [0; 133];
    let mut numbers = [0; 32];
    let mut page = [0; PAGE_SIZE];
    let Some(count) = read_batch(disk, pages, &mut header, &mut numbers)? else {
        return Ok(());
    };
    copy_home(disk, &numbers[..count], &mut page)?;
    Ok(())
}
