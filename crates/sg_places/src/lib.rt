//! What opening reads in the text of a log: whether its records may be repeated, and where those stand
//! that are.
//!
//! It stands on `sg_log` for the form of frames, on `sg_record` for records, on `sg_ops` for the
//! operations that are registered, and on `sg_redo` for places. It promises that of a text that is read
//! it finds how many bytes are whole frames; that these are refused exactly where a record is of a page
//! or a band that the store doesn't have, with its frame; that the first code is told which opening
//! needs and which isn't registered; and that the places are those of the records from the redo point
//! on that make a change, in their order, found without taking memory.
#![tactic(auto)]

mod body;
mod change;
mod checking;
mod collecting;

pub use body::whole_frames;
pub use checking::{Refusal, check, or_else};
pub use collecting::{Torn, collect};
