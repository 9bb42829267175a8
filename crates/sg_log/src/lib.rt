//! The log: records of every kind are appended to a buffer in memory, and a force makes them durable as
//! a frame behind a gate. Which of them may follow which is said above it.
//!
//! It stands on `sg_disk` for the area that the frames stand in, and on `sg_record` for the records'
//! bytes. It promises that the durable records are those appended, in order, and that each has the
//! number that its append told: that of its first byte in the log. A force that succeeds
//! makes all of them durable, and a crash at any moment leaves those that were durable before the
//! call or all, with no record torn and no other area touched.
#![tactic(auto)]

mod copying;
mod fault;
mod frame;
mod laws;
mod log;
mod place;
mod reading;

pub use fault::LogFault;
pub use laws::records_are_read;
pub use log::Log;
pub use place::Place;
pub use reading::read_body;
