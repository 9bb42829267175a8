// Making a store of objects.
ghost use Rattle.std.specs.Prelude.{◌≡◌, ◌⊎◌, ◌↔◌, IsTrue, OnOk, Err};
ghost use Rattle.sg_base.specs.Ends.{HasRisen};
ghost use Rattle.sg_base.specs.declared.area.Area.TheVariants.{Home};
ghost use Rattle.sg_disk.specs.Disk.{Image, Leaves, LeavesOnly};
ghost use Rattle.sg_disk.specs.Heeds.{Heeds};
ghost use Rattle.sg_gate.specs.Reads.{OnlyReads};
ghost use Rattle.sg_gate.specs.Superblock.{IsSuper};
ghost use Rattle.sg_ops.specs.Table.{Table};
ghost use Rattle.sg_reopen.specs.Making.{IsBlank};
ghost use Rattle.sg_making.specs.declared.making.InitFault.{InitFault};
ghost use Rattle.sg_making.specs.Faults.{is_disk};
ghost use Rattle.sg_making.specs.Making.{super_of};
ghost use Rattle.sg_mount.specs.Making.{IsNewStore, MakesStore};

use sg_attach::standing_is_of;
use sg_disk::Disk;
use sg_making::{Geometry, InitFault};
use sg_reopen::empty_stands;

/// Makes a store without objects, with these numbers.
///
/// At each moment a crash leaves no store, or the whole of one that stands for no objects, whatever operations it
/// will be opened with, where at the call neither gate of the superblock was open, and all that isn't written here
/// was 0. It takes no memory.
pub fn init_store<D: Disk>(disk: &mut D, g: &Geometry) -> Result<(), InitFault>
    // A number is out of its range: the disk isn't called.
    ensures bad { (result ≡ Err InitFault.BadGeometry) ↔ (IsSuper (super_of g.now) → ⊥) }
    ensures uncalled { result ≡ Err InitFault.BadGeometry → disk.new ≡ disk.old }
    // A gate is open: nothing is written.
    ensures unwritten { result ≡ Err InitFault.Exists → OnlyReads D.told (D.view disk.old) (D.view disk.new) }
    ensures exists { IsTrue D.told → result ≡ Err InitFault.Exists → (((D.view disk.old).now Home).seen 0 ≡ 1) ⊎ (((D.view disk.old).now Home).seen 4096 ≡ 1) }
    ensures refused { IsTrue D.told → IsSuper (super_of g.now) → (((D.view disk.old).now Home).seen 0 ≡ 1) ⊎ (((D.view disk.old).now Home).seen 4096 ≡ 1) → (result ≡ Err InitFault.Exists) ⊎ (result ≡ Err InitFault.Disk) }
    ensures failed { result ≡ Err InitFault.Disk → HasRisen (D.view disk.old).faults (D.view disk.new).faults }
    ensures heeded { Heeds is_disk result (D.view disk.old) (D.view disk.new) }
    // At each moment, faults included.
    ensures moments { (t : Table) → IsTrue D.told → ((c : Image) → Leaves (D.view disk.old).now c → IsBlank (super_of g.now) c) → LeavesOnly (D.view disk.old) (D.view disk.new) (MakesStore t (super_of g.now)) }
    ensures done { (t : Table) → IsTrue D.told → ((c : Image) → Leaves (D.view disk.old).now c → IsBlank (super_of g.now) c) →
        OnOk result ((c : Image) → Leaves (D.view disk.new).now c → IsNewStore t (super_of g.now) c) }
{
    empty_stands();
    standing_is_of();
    sg_making::init_store(disk, g)
}
