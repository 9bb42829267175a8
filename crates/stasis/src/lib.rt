//! The door of the library: by name, all that an application needs of it, so that it lists this crate alone.
//!
//! It stands on `sg_mount`, which makes and opens a store over any disk, on `sg_store`, whose calls are what is done with one, and on
//! `sg_folder`, which is the disk that keeps it. It promises what these promise. In its own words it adds what is known of a store over a disk
//! that tells its contents (`TellsObjects`), from its opening on (`open_store`), behind each call of a transaction (`begin_transaction`,
//! `perform_operation`, `end_transaction`) and at its close (`close_store`), and what operations on a table and on an array come to
//! (`tables_are_maps`, `arrays_are_lists`); and one error
//! with words for each refusal (`StoreError`).
//!
//! The order of use: register operations (`Ops::shipped`, `register_record`), make a store once (`init_store`), open it (`open_store`), and
//! then, as often as wanted, begin a transaction (`begin_transaction`), do operations in it (`perform_operation`, `keys`, `list`), and commit it or
//! take it back (`end_transaction`). A store isn't dropped: `close_store` writes all home and hands its disk back.
//!
//! **An operation of an application's own** changes an item of an array in place, and other transactions may be live meanwhile. It
//! implements `RecordOp`: its code, its meaning as a definition (`record_meaning`: which items and arguments it accepts, what it leaves
//! of an item, what its undo leaves of one), and the proof that its undo undoes it (`record_law`). The codes from 100 on are free; the
//! library's own are below. **An operation that would lose what stood there has to decline instead**: a sum that stops at the
//! greatest number can't be undone, so an item at which it would stop isn't accepted, and the caller is answered `Declined`. A counter of one byte
//! accepts an item `n` with an argument `k` where `n + k` is at most 255, leaves `n + k`, and its undo leaves `n - k`. `Add`, `Xor` and `Rotate` of
//! `sg_ops` are whole ones.
#![tactic(auto)]

mod calls;
mod closing;
mod error;
mod laws;
mod silent;
mod store;
mod transaction;

pub use calls::{begin_transaction, perform_operation};
pub use closing::{close_store, crash_leaves_durable};
pub use error::StoreError;
pub use laws::{arrays_are_lists, tables_are_maps};
pub use sg_base::{Area, Failed, Name, OutOfMemory, TxnId};
pub use sg_bucket::Bytes;
pub use sg_disk::{Call, CallKind, Disk, Fuse, MemDisk, Presumed};
pub use sg_folder::{FolderDisk, area_name};
pub use sg_making::{Geometry, InitFault};
pub use sg_model::{MOST_KEY_BYTES, Op, Reason, Reply, Stop};
pub use sg_mount::{MountFault, Unmounted, images_open, init_store};
pub use sg_ops::{OPS_LIMIT, Ops, OpsError, RANGE_LIMIT, RangeBox, RangeOp, RecordBox, RecordOp};
pub use sg_store::{Lists, Objects, Refused, Store};
pub use silent::Silent;
pub use store::{DiskEngine, DiskStore, open_store};
pub use transaction::end_transaction;
