//! An engine's log and pages, as an opening finds them: where the action begins that has no end, and
//! what is taken before a walk over the pages.
//!
//! It stands on `sg_actions`, over any of whose engines it looks, on `sg_unread`, which says what looks
//! leave, and on `sg_recovery`, whose formed logs say where a take-off goes on. It promises that what it
//! finds is where a take-off goes on and the record before the action, and that it only looks.
#![tactic(auto)]

mod first;
mod looking;

pub use first::take_first;
pub use looking::{Back, find_action, look_at_pages};
