/// The number of a byte of the log, counted over the log's whole life ("log sequence number").
/// A record's is that of its first byte.
pub type Lsn = u64;

/// The number of a page of 4,096 bytes, from 0 on.
#[derive(Clone, Copy, Debug, PartialEq, Eq, PartialOrd, Ord)]
pub struct PageNo(pub u32);

/// The number of a band of 32,768 bytes, from 0 on.
#[derive(Clone, Copy, Debug, PartialEq, Eq, PartialOrd, Ord)]
pub struct BandNo(pub u32);

/// The number of a transaction, which is the [`Lsn`] of its begin record.
#[derive(Clone, Copy, Debug, PartialEq, Eq, PartialOrd, Ord)]
pub struct TxnId(pub u64);
