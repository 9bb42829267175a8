//! A list of items in one page of any space, the smallest structure that stands on `PageSpace`: `make`,
//! `count`, `get`, `push`. It shows how the contract of a structure is written over any space, and by
//! `keep_two` what such a contract comes to over pages in memory.
//!
//! It stands on `sg_base`, `sg_ops` and `sg_space`. It promises that over a space that is told each call does
//! what its name says to the list and leaves all other pages and all bands, that what is read over a
//! space that shows its contents is what stands there, and that over any space a call fails only where
//! the space's count of faults rose, or near the end of its log. The kind of its page is of no format.
#![tactic(auto)]

mod list;
mod two;

pub use list::{count, get, make, push};
pub use two::keep_two;
