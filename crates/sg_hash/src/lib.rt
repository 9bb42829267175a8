//! Linear hash tables: maps from keys of at most 128 bytes to values of at most 1,024, in buckets of a space, which
//! are found by the hash of a key and split one at a time as the table grows.
//!
//! It stands on `sg_base`, `sg_ops`, `sg_space`, `sg_linear`, `sg_array` and `sg_bucket`. It promises that over a space
//! that is told a table is a map, each call one equation on it; that each key stands once, in the bucket of its hash;
//! that the root counts the entries and their bytes; that a table has no more pages than its peak and its entries
//! allow; and that no other page and no band changes. Over any space `find` and `keys` answer only what the space shows.
#![tactic(auto)]

mod beside;
mod create;
mod free;
mod list;
mod root;
mod split;
mod table;
mod walk;

pub use beside::{keep_bound, keep_once, stand_apart};
pub use create::make;
pub use free::free_all;
pub use list::keys;
pub use root::{Root, root_in};
pub use table::{del, find, put};
