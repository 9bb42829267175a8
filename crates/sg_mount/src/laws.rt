// Which images a store of objects may be opened from.
ghost use Rattle.std.specs.Prelude.{◌≡◌, ℕ};
ghost use Rattle.std.specs.FinMap.{empty};
ghost use Rattle.sg_checkpoints.specs.Checkpoints.{HasMarked};
ghost use Rattle.sg_disk.specs.Disk.{Image};
ghost use Rattle.sg_gate.specs.declared.superblock.Super.{Super};
ghost use Rattle.sg_ground.specs.Recovers.{OneLog};
ghost use Rattle.sg_model.specs.Objects.{Objects as Model};
ghost use Rattle.sg_ops.specs.Table.{Table};
ghost use Rattle.sg_phys_laws.specs.Recovers.{RecoversBy};
ghost use Rattle.sg_store.specs.Engine.{Sizes};
ghost use Rattle.sg_store.specs.Stands.{StandsFor};
ghost use Rattle.sg_mount.specs.Making.{IsNewStore, ground_of_sizes};
ghost use Rattle.sg_mount.specs.Marking.{MarksItself};
ghost use Rattle.sg_mount.specs.Opening.{ImageStandsFor, sizes_in};

use sg_store::Engine;

/// A law: a new store stands for no objects. An image comes to at most one log and one state, so it stands for at most one
/// collection of objects. One that stands for objects as a store of so many pages and bands has so many by its
/// superblock, and stands for them by that.
pub fn images_open()
    ensures new { (t : Table) (s : Super) (c : Image) → IsNewStore t s c → ImageStandsFor t c empty }
    ensures one_log { OneLog RecoversBy }
    ensures one { (t : Table) (c : Image) (m other : Model) → ImageStandsFor t c m → ImageStandsFor t c other → m ≡ other }
    ensures sized { (t : Table) (z : Sizes) (c : Image) (m : Model) → StandsFor t (ground_of_sizes z) c m → sizes_in c ≡ z }
    ensures own { (t : Table) (z : Sizes) (c : Image) (m : Model) → StandsFor t (ground_of_sizes z) c m → ImageStandsFor t c m }
{}

/// A law: a checkpoint that is made where all is home, as it is behind a flush, has redo begin at itself: in the log, and in each image
/// that a crash leaves then.
pub fn flushed_checkpoints<E: Engine>(flushed: &E, marked: &E)
    ensures { ((lsn : ℕ) → E.unwritten flushed.now lsn → ⊥) → HasMarked (E.view flushed.now).tail (E.unwritten flushed.now) (E.marked marked.now) E.ends_at (E.view marked.now).disk.now
        → MarksItself (E.view flushed.now).tail (E.marked marked.now) E.ends_at (E.view marked.now).disk.now }
{
    let _flushed = flushed;
    let _marked = marked;
}
