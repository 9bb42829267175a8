//! The page engine: pages and bands that change by records of a log.
//!
//! It stands on `sg_log` and `sg_pool`. It promises that at every moment, faults included, each image that a crash
//! could leave stands: its log has a front of the appended records with all that were durable, its home area is sound
//! for these, and history repeated over it makes the pages and bands that these records make.
#![tactic(auto)]

mod changes;
mod cutting;
mod engine;
mod fault;
mod laws;
mod lending;
mod looks;

pub use engine::Engine;
pub use fault::EngineFault;
pub use laws::{fresh_engine, images_weaken, records_may_come};
