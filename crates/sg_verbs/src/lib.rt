//! The calls on objects over transactions and actions, as a store asks them.
//!
//! It stands on `sg_objects`, which does verbs over a space, on `sg_listing`, which tells of its objects, on
//! `sg_actions`, whose transactions and actions are such a space, and on `sg_shown`, which says what these show as the
//! engine of a store. It promises of each call, clause by clause, what the store asks of its objects. A call that fails
//! ends in an engine that tells no more, and says why by what that remembers of the first failure. An operation that can
//! change nothing is looked up while whoever acts pauses.
#![tactic(auto)]

mod freeing;
mod listing;
mod looks;
mod needing;
mod pausing;
mod performing;
mod reversing;
mod telling;

pub use freeing::free_next;
pub use listing::{keys, list};
pub use looks::{touches, touches_keys};
pub use needing::needs;
pub use performing::perform;
pub use reversing::reverse;
pub use telling::tell;
