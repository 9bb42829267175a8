use crate::Area;

/// What a call does to a disk.
#[derive(Clone, Copy, Debug, PartialEq, Eq)]
pub enum CallKind {
    Read,
    Write,
    Drop,
    Sync,
}

/// A call that changed a disk in memory, with the bytes that it took the place of. Those of a write
/// or drop that failed are empty, since it left all bytes as they were.
#[derive(Drop)]
pub enum Call {
    /// A write of `len` bytes.
    Write {
        area: Area,
        at: u64,
        len: u64,
        old: Vec<u8>,
    },
    /// A drop of all bytes at and after `at`.
    Drop {
        area: Area,
        at: u64,
        old: Vec<u8>,
    },
    Sync {
        area: Area,
    },
}
