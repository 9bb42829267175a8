//! The catalogue: which name stands for which object, and which dropped objects wait to be freed.
//!
//! It stands on `sg_base`, `sg_ops` and `sg_space`, and begins in page 0 of a space. It promises that
//! over a space that is told each call is one equation on the list of its rows, and so on the map of
//! names and on the list of tombstones; that it has exactly the pages that the most rows of its life
//! want, of 79 rows each, and that no other page and no band changes; and over any space that reads
//! answer only what the space shows.
#![tactic(auto)]

mod beside;
mod catalog;
mod change;
mod grow;
mod look;
mod page;
mod row;
mod spelled;
mod walk;
mod wanted;

pub use beside::stay_in_place;
pub use catalog::{add, bury, find, forget, names, next_buried, remove, unbury};
pub use row::{Entry, ObjectKind, Row, row_in};
pub use spelled::rows_are_spelled;
