//! Operations on objects under names, what each answers and changes, and what each touches: the plain
//! model that the whole store is held against. An object is an array of items of one size, a table
//! or a blob.
//!
//! It stands on `sg_base`, `sg_ops` and `sg_serial`. It promises that an operation changes only what its
//! touches write, and that its answer, its changes and its touches follow from what it touches; that
//! what is noted of an operation follows from the same, and takes it back where it was done last; that
//! `conflict` tells exactly which touches are in conflict; and what is a key. `sg_plain` does the
//! operations.
#![tactic(auto)]

mod key;
mod law;
mod op;
mod reason;
mod stop;
mod touch;

pub use key::{Key, MOST_KEY_BYTES};
pub use law::{steps_are_undoable, steps_keep_to_touches};
pub use op::{Op, Reply};
pub use reason::Reason;
pub use stop::Stop;
pub use touch::{MOST_TOUCHES, Resource, Touch, Touches, conflict};
