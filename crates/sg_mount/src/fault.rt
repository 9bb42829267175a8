use sg_base::Area;
use sg_disk::Disk;

/// Why a store isn't opened.
#[derive(Clone, Copy, Debug, PartialEq, Eq)]
pub enum MountFault {
    /// A call of the disk failed.
    Disk,
    /// There was not enough memory. Or the log begins within an action of the system that has no end, which no store leaves.
    Memory,
    /// A record might pass the end of the log.
    LogEnd,
    /// The gates of both superblock slots are closed. Nothing was written.
    NotAStore,
    /// What stands at this offset of the area isn't a store's: the field of a superblock or of the
    /// double-write header, the gate of a frame of the log, or a page.
    Damaged { area: Area, at: u64 },
    /// No operation is registered with this code, which a record names that opening needs. Nothing was
    /// written.
    UnknownOperation(u16),
}

/// A disk whose store wasn't opened, and why.
pub struct Unmounted<D: Disk> {
    pub disk: D,
    pub fault: MountFault,
}
