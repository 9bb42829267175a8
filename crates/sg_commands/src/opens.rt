// What the program asks of an engine's opening.
ghost use Rattle.std.specs.Prelude.{◌≡◌, ◌≤◌, ℕ, Some, Ok, Err, IsTrue, IfOk, IfErr, OnOk};
ghost use Rattle.std.specs.Thread.{IsSync};
ghost use Rattle.sg_base.specs.Ends.{HasRisen};
ghost use Rattle.sg_disk.specs.Disk.{Image, LeavesOnly};
ghost use Rattle.sg_gate.specs.Reads.{OnlyReads};
ghost use Rattle.sg_geometry.specs.Fit.{is_fit};
ghost use Rattle.sg_geometry.specs.declared.geometry.Geometry.{Geometry as Given};
ghost use Rattle.sg_model.specs.Objects.{Objects as Model};
ghost use Rattle.sg_ops.specs.Table.{Table as Operations, table_of};
ghost use Rattle.sg_store.specs.Engine.{Sizes};
ghost use Rattle.sg_store.specs.Seen.{core_of, Serves};
ghost use Rattle.sg_store.specs.Stands as stores;
ghost use Rattle.sg_commands.specs.Images.{Says, StandsFor, IsPresumed};
ghost use Rattle.sg_commands.specs.Making.{HasOpenGate, IsBlank, IsMaking, IsNew};
ghost use Rattle.sg_commands.specs.Opening.{IsOpened, StaysShut};

use sg_base::Area;
use sg_disk::{Disk, Presumed};
use sg_geometry::Geometry;
use sg_ops::Ops;
use sg_store::{Marks, Store, Tells, Truncates};
use std::alloc::Global;
use std::thread::Threads;

/// Why a store isn't opened.
#[derive(Clone, Copy, Debug, PartialEq, Eq)]
pub enum OpenRefused {
    /// A call of the disk failed.
    DiskFault,
    /// There was not enough memory. Or the log begins within an action of the system that has no end, which no store leaves.
    Memory,
    /// What stands at this offset of the area isn't a store's.
    Damaged { area: Area, at: u64 },
    /// The gates of both superblock slots are closed.
    NotAStore,
    /// No operation is registered with this code, which opening needs.
    UnknownOperation(u16),
    /// A record might pass the end of the log.
    LogEnd,
}

/// Why no store is made.
#[derive(Clone, Copy, Debug, PartialEq, Eq)]
pub enum InitRefused {
    /// A call of the disk failed.
    DiskFault,
    /// There is one already.
    Exists,
}

/// A disk whose store wasn't opened, and why.
#[derive(Drop)]
pub struct Unopened<D> {
    pub why: OpenRefused,
    pub disk: D,
}

/// An engine of a store that can be opened on a disk.
pub trait Opens<D: Presumed>: Tells + Truncates + Marks {
    /// What images say of their stores.
    ghost says: { Says };

    /// Opens the store of a disk, whose records are of these operations. What is presumed of the disk is that the
    /// image which reads give is that of a store. Where that doesn't hold, or the disk doesn't tell what it holds,
    /// opening is safe, and answers one or the other. A refusal hands the disk back, as opening left it. The log is repeated in threads of the runtime,
    /// which these may share.
    fn open<R: Threads + Sync>(
        rt: &R,
        alloc: Global,
        ops: &Ops,
        disk: D,
    ) -> Result<Store<Self>, Unopened<D>>
        requires sync { IsSync R.row }
        requires presumed { IsPresumed Self.basis says (table_of record_meaning range_meaning ops.now) D.told D.presumed (D.view disk) }
        ensures serves { IfOk result (λ s. Serves (table_of record_meaning range_meaning ops.now) s) }
        ensures opens { IfOk result (λ s. IsOpened Self.basis says (table_of record_meaning range_meaning ops.now) D.told D.presumed (D.view disk) (Self.view s.engine) (core_of s)) }
        ensures refused { IfErr result (λ u. StaysShut Self.basis says (table_of record_meaning range_meaning ops.now) D.told D.presumed (D.view disk) (D.view u.disk) u.why) };

    /// Hands back the disk.
    fn into_disk(self) -> D
        ensures { D.view result ≡ (Self.view self).disk };

    /// Makes a store without objects, of these sizes, on a disk that has none. Where there is one nothing is written.
    fn init(disk: &mut D, sizes: &Geometry) -> Result<(), InitRefused>
        requires fit { IsTrue (is_fit sizes.now) }
        ensures exists { IsTrue D.told → result ≡ Err InitRefused.Exists → HasOpenGate (D.view disk.old) }
        ensures unwritten { result ≡ Err InitRefused.Exists → OnlyReads D.told (D.view disk.old) (D.view disk.new) }
        ensures refused { IsTrue D.told → HasOpenGate (D.view disk.old) → result ≡ Ok tt → ⊥ }
        ensures failed { result ≡ Err InitRefused.DiskFault → HasRisen (D.view disk.old).faults (D.view disk.new).faults }
        ensures heeded { (result ≡ Err InitRefused.DiskFault → ⊥) → (D.view disk.new).faults ≡ (D.view disk.old).faults }
        ensures moments { (t : Operations) → IsTrue D.told → IsBlank Self.basis says sizes.now (D.view disk.old) → LeavesOnly (D.view disk.old) (D.view disk.new) (IsMaking Self.basis says t sizes.now) }
        ensures done { (t : Operations) → IsTrue D.told → IsBlank Self.basis says sizes.now (D.view disk.old) → OnOk result (IsNew Self.basis says t sizes.now (D.view disk.new)) };

    /// Where a store can be made there is none.
    ghost bare: { (g : Given) (c : Image) → (says).blank g c → (says).no_store c };

    /// An image that stands for objects as a store of so many pages and bands says so itself.
    ghost sized: { (t : Operations) (z : Sizes) (c : Image) (m : Model) → stores.StandsFor t (Self.basis z) c m → (says).sizes c ≡ z };

    /// An image whose last record is a checkpoint says so itself.
    ghost checkpointed: { (c : Image) (lsn estimate : ℕ) → Self.ends_at c lsn estimate → (says).checkpointed c };

    /// An image stands for at most one collection of objects.
    ghost one: { (t : Operations) (c : Image) (m other : Model) → StandsFor Self.basis says t c m → StandsFor Self.basis says t c other → m ≡ other };
}
