//! Blobs: lists of up to 16,384,000 bytes, each in a root page and in bands of a space.
//!
//! It stands on `sg_base`, `sg_ops` and `sg_space`. It promises that over a space that is told each call is
//! one equation on the list of bytes, that a blob has exactly the bands that its greatest length wants,
//! that the bytes behind its length are 0, and that no other page or band changes; and over any space
//! that reads answer only what the space shows.
#![tactic(auto)]

mod beside;
mod blob;
mod change;
mod free;
mod walk;

pub use beside::{keep_bound, stay_in_place};
pub use blob::{bands, len, make, paint, read, restore_len, set_len, write};
pub use free::free_all;
