//! Objects under names in memory, and what every verb does to them: arrays of items of one size, tables of values under keys, and
//! blobs of bytes. No program runs over them: tests compare with them what a store does to its pages.
//!
//! It stands on `sg_base`, `sg_ops` and `sg_model`. It promises that `Objects::apply` answers and changes exactly as the definition
//! of a step says, with the operations that are handed to it, that a refused operation changes nothing, and that memory runs out
//! only where an operation that takes memory for what it leaves would have been done. `Objects::change` does the same and notes
//! what takes it back in `Changes`, and `Objects::take_back` takes back what is noted.
#![tactic(auto)]

mod array;
mod blob;
mod changes;
mod front;
mod keys;
mod object;
mod objects;
mod reach;
mod table;
mod undo;

pub use changes::Changes;
pub use objects::Objects;
