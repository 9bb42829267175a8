//! Buckets of entries, each a key of at most 128 bytes with its value of at most 1,024: chains of pages in
//! a space, found from the first.
//!
//! It stands on `sg_base`, `sg_linear`, `sg_ops`, `sg_slotted`, `sg_step` and `sg_space`. It promises that over a space that is
//! told a bucket is a map in which each key stands once, each call one equation on it; that each page of a chain
//! but the first has an entry; that its entries are divided between two buckets by the address of their keys; and
//! that no other page changes. Over any space a chain that goes on in a ring is answered as a fault, and `find` and
//! `keys` answer only what the space shows.
#![tactic(auto)]

mod branching;
mod bucket;
mod bytes;
mod change;
mod entry;
mod free;
mod listing;
mod page;
mod pick;
mod pruning;
mod room;
mod walk;

pub use branching::branch;
pub use bucket::{del, make, put};
pub use bytes::Bytes;
pub use entry::{MOST_KEY, MOST_VALUE, is_entry, key_in};
pub use free::free_all;
pub use listing::keys;
pub use pruning::prune;
pub use walk::{find, pages};
