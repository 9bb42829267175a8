// The gate of the double-write header.
ghost use Rattle.std.specs.Prelude.{◌≡◌, ◌≢◌, ◌≤◌, ◌+◌, [], ◌∷◌, min, OnOk, OnErr, IfErr, IsTrue};
ghost use Rattle.sg_base.specs.Ends.{HasRisen};
ghost use Rattle.sg_base.specs.declared.area.Area.TheVariants.{Home};
ghost use Rattle.sg_disk.specs.Disk.{FULL, Leaves, LeavesOnly, synced, written};
ghost use Rattle.sg_disk.specs.Heeds.{Heeds};
ghost use Rattle.sg_gate.specs.Batch.{IsShut};
ghost use Rattle.sg_gate.specs.Faults.{WriteFails, is_disk};
ghost use Rattle.sg_gate.specs.Layout.{HEADER};
ghost use Rattle.sg_gate.specs.Reads.{OnlyReads};

use crate::GateFault;
use crate::layout::HEADER_START;
use sg_disk::{Area, Disk, Failed};

/// Opens the gate, and syncs.
pub fn open_gate<D: Disk>(disk: &mut D) -> Result<(), Failed>
    ensures done { IsTrue D.told → OnOk result ((D.view disk.new).now ≡ synced Home (written Home HEADER (1 ∷ []) (D.view disk.old).now)) }
    ensures any_moment { IsTrue D.told → LeavesOnly (D.view disk.old) (D.view disk.new) (Leaves (written Home HEADER (1 ∷ []) (D.view disk.old).now)) }
    ensures failed { OnErr result (HasRisen (D.view disk.old).faults (D.view disk.new).faults) }
    ensures later { (D.view disk.old).faults ≤ (D.view disk.new).faults }
    ensures quiet { OnOk result ((D.view disk.new).faults ≡ (D.view disk.old).faults) }
    ensures calls { OnOk result ((D.view disk.new).calls ≡ min ((D.view disk.old).calls + 2) FULL) }
    ensures calls_most { (D.view disk.new).calls ≤ (D.view disk.old).calls + 2 }
    ensures handed { (D.view disk.new).handed ≤ (D.view disk.old).handed + 1 }
    ensures kept { (D.view disk.old).handed ≤ (D.view disk.new).handed }
    ensures all_handed { OnOk result ((D.view disk.new).handed ≡ min ((D.view disk.old).handed + 1) FULL) }
{
    disk.write_at(Area::Home, HEADER_START, &[1])?;
    disk.sync(Area::Home)
}

/// Closes the gate of the double-write header, and syncs, where it is open: so a home area in which
/// any bytes may stand has no batch. It calls for no more than a read where the gate is closed.
pub fn shut_batch<D: Disk>(disk: &mut D) -> Result<(), GateFault>
    ensures done { IsTrue D.told → OnOk result (IsShut (D.view disk.old).now (D.view disk.new).now) }
    ensures any_moment { IsTrue D.told → LeavesOnly (D.view disk.old) (D.view disk.new) (Leaves (written Home HEADER (0 ∷ []) (D.view disk.old).now)) }
    ensures shut { IsTrue D.told → ((D.view disk.old).now Home).seen HEADER ≢ 1 → OnlyReads D.told (D.view disk.old) (D.view disk.new) }
    ensures faults { IfErr result (λ e. WriteFails (D.view disk.old) (D.view disk.new) e) }
    ensures later { (D.view disk.old).faults ≤ (D.view disk.new).faults }
    ensures heeded { Heeds is_disk result (D.view disk.old) (D.view disk.new) }
    ensures shut_calls { IsTrue D.told → ((D.view disk.old).now Home).seen HEADER ≢ 1 → (D.view disk.new).calls ≡ min ((D.view disk.old).calls + 1) FULL }
    ensures calls { IsTrue D.told → ((D.view disk.old).now Home).seen HEADER ≡ 1 → OnOk result ((D.view disk.new).calls ≡ min ((D.view disk.old).calls + 3) FULL) }
    ensures calls_most { (D.view disk.new).calls ≤ (D.view disk.old).calls + 3 }
    ensures handed { (D.view disk.new).handed ≤ (D.view disk.old).handed + 1 }
    ensures kept { (D.view disk.old).handed ≤ (D.view disk.new).handed }
{
    let mut gate = [0; 1];
    disk.read_at(Area::Home, HEADER_START, &mut gate)?;
    if gate[0] != 1 {
        return Ok(());
    }
    disk.write_at(Area::Home, HEADER_START, &[0])?;
    disk.sync(Area::Home)?;
    Ok(())
}
