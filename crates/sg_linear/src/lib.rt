//! Where a key of a linear hash table belongs: FNV-1a of 64 bits, and the addresses of a table that grows by one
//! bucket at a time.
//!
//! It stands on std alone. It promises the fold over the bytes that defines the hash, that each hash has one bucket of
//! those there are, and that where a bucket is split each hash keeps its bucket but for those of the one that is
//! split, of which each stays or goes to the new one.
#![tactic(auto)]

mod address;
mod extent;
mod fnv;

pub use address::Address;
pub use extent::Extent;
pub use fnv::fnv_1a;
