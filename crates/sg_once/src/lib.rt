//! That a structure stands in pages and bands once, and that it is decided whether it does: laws alone. It
//! has no code that runs.
//!
//! It stands on arrays, blobs, buckets and the catalogue. What these crates say of pages that hold one of
//! theirs leaves no choice: it promises that two accounts of the same pages are one, down to the numbers of
//! the pages. It promises too that there is such an account, or can be none: one is read from the pages by
//! their format, and then looked at.
#![tactic(auto)]

mod decided;
mod once;

pub use decided::structures_are_decided;
pub use once::structures_stand_once;
