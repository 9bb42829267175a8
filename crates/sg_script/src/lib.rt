//! A script, run by a session over any page engine: its lines are executed as a source gives them, and
//! the replies go to a sink.
//!
//! It stands on `sg_session`, which answers one line at a time, and on `sg_words`. It promises that the
//! lines of what was read are executed one after another, as far as the script's end says, that the sink
//! takes their replies, or where it fails a front of them, and that each image of each moment stands for
//! the objects after the first transactions in order of commit, all of those that had been answered
//! among them. It says so of an engine that tells its contents; of any engine it says why the script ended
//! and that no fault of the disk is passed over. It takes no memory but for lists.
#![tactic(auto)]

mod buffer;
mod feed;
mod room;
mod script;
mod whole;

pub use room::Room;
pub use script::{RunEnd, run_script};
pub use whole::{Ended, run};
