//! An ordered index: a map of keys to values in the order of the keys' bytes, kept as a B+ tree whose nodes are records of a
//! table, over anything that finds, puts and deletes records (`Records`).
//!
//! It stands on `sg_base`, and on `arrayvec` and `byteorder`. It promises that, where the records are an index of an ordered
//! list of entries (`IsIndex`), `get` answers the value of a key in that list, `next` its first entry at or above a key, or
//! above it, `insert` whether a key is new and `remove` whether it was there; that the records are then an index of the
//! changed list, and of the same list after `get` and `next`; that a call answers nothing else but `Records` where the count
//! of refusals rose, and `insert` `TooMany` exactly where the number of a new node would pass 4,294,967,294; and that
//! `NotAnIndex` comes only where a record that the records name, or its absence, isn't in the form of an index. The calls
//! take no memory, and recurse at most 16 deep.
#![tactic(auto)]

mod edit;
mod fault;
mod header;
mod item;
mod load;
mod node;
mod order;
mod put;
mod read;
mod records;
mod seek;
mod store;
mod take;
mod text;

pub use fault::IndexFault;
pub use put::insert;
pub use read::{get, next};
pub use records::Records;
pub use take::remove;
