//! The way home of a window: exactly the bytes that are marked go to the home area, in maximal runs.
//!
//! It stands on `sg_segment` for the marks, over any disk of `sg_disk`. It promises that no other byte
//! is written, also where a call is stopped at any moment, and that the marked ones are there when it
//! answers `Ok`. They are pending until the next sync.
#![tactic(auto)]

mod runs;

pub use runs::write_runs;
