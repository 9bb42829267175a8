use sg_base::PageNo;

/// Why a call of a pool fails.
#[derive(Clone, Copy, Debug, PartialEq, Eq)]
pub enum PoolFault {
    /// A call of the disk failed. Nothing more is known of the pool.
    Disk,
    /// What was read for this page is neither a page of slots nor zeros.
    Damaged { page: PageNo },
    /// There isn't enough memory.
    Memory,
}
