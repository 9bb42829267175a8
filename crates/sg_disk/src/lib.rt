//! The disk that a store stands on: three areas of bytes, four calls on them, and what a crash
//! leaves. Beside the trait there are a disk in memory, for tests and models, and a fuse that stops
//! any disk after a number of calls.
//!
//! It stands on `sg_base`. It promises that a call fails only where the disk's count of faults rose,
//! and of a disk that tells its contents: what reads give after each call that succeeds, and that a
//! crash, at any moment, spoils no byte but those written or dropped since the area's last sync.
#![tactic(auto)]

mod crash;
mod disk;
mod due;
mod fuse;
mod memory;
mod presumed;
mod record;

pub use disk::Disk;
pub use fuse::{Fuse, Origin, Unmarked};
pub use memory::MemDisk;
pub use presumed::{Presumed, Presumes};
pub use record::{Call, CallKind};
pub use sg_base::{Area, Failed};
