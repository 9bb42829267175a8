//! What callers of the registered operations rest on, as small functions over `sg_ops`.
//!
//! Promised: an operation and then its undo leave an item as it was, whatever operation is
//! registered under the code; and changes that several threads make with one shared `Ops`, each to
//! an item of its own, leave what one thread leaves that makes them in turn.
#![tactic(auto)]

mod change;
mod undo;

pub use change::{Change, are_accepted, redo_all, redo_in_threads, redo_in_turn};
pub use undo::redo_and_undo;
