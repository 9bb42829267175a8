//! Arrays: lists of up to 1,048,576 items of one size, 1 to 256 bytes, each in pages of a space.
//!
//! It stands on `sg_base`, `sg_ops` and `sg_space`. It promises that over a space that is told each call is
//! one equation on the list of items, that an array has exactly the pages that its greatest length wants,
//! that the slots behind its last item are empty, and that no other page and no band changes; over any space
//! that reads answer only what the space shows; and that arrays side by side stay apart.
#![tactic(auto)]

mod array;
mod beside;
mod extend;
mod free;
mod grow;
mod items;
mod walk;

pub use array::{get, len, make, pages, pop, push, set, size};
pub use beside::{keep_bound, stand_apart};
pub use free::free_all;
pub use items::{apply, apply_back};
