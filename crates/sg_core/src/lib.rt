//! The live transactions of a store, at most 64: which are live, the oldest, the next one behind a
//! number, what each has reserved, and its marks, at most 16.
//!
//! It stands on `sg_base` and `slab`. It promises that each call answers and changes the list of the
//! live transactions, in the order of their numbers, exactly as its one clause says. No call but
//! `Txns::new` takes memory.
#![tactic(auto)]

mod marks;
mod txns;

pub use marks::MOST_MARKS;
pub use txns::{MOST_LIVE, Txns};
