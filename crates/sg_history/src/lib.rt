//! A history of what was, which only proofs read: pairs of values, in the order in which they came.
//!
//! It stands on nothing of the store. It has no bytes, takes no memory, and its calls do nothing at run time. It promises
//! that a clause may read the pairs as a list, which each call of `and` has at its end one pair longer.
#![tactic(auto)]

mod history;

pub use history::History;
