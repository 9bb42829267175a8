//! Transactions and their actions over a page engine, as the engine that the store asks for, with its objects and their
//! lists.
//!
//! It stands on `sg_actions` for the work, on `sg_shown` for what that shows to a store, and on `sg_verbs` for the calls on
//! objects, and on `sg_regained` for what the opening of a store asks besides. It promises, call by call, what the store asks of its engine, over any engine under the actions: what a call
//! appends, and that at each moment, also of a call that fails, each image that a crash leaves has a front of the log
//! with all that was durable.
#![tactic(auto)]

mod actions;
mod homes;
mod paged;
mod records;
mod reopening;
mod resting;
mod undoing;

pub use paged::Paged;
