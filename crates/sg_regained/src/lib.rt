//! An engine that an opening found, made a space of pages and bands, and brought to where its first action may begin.
//!
//! It stands on `sg_resumed`, which takes off what an action did that has no end and goes over all that the objects
//! reach, on `sg_resuming`, which says what both tell of a store, and on `sg_shown`. It promises what the opening of a
//! store asks: which records a take-off appends, that each image of each moment has a front of the log with them, and
//! that behind it exactly what the objects reach is taken.
#![tactic(auto)]

mod founding;
mod regaining;
mod sizes;
mod sparing;

pub use founding::{FoundSpace, found};
pub use regaining::{Unresumed, resume};
