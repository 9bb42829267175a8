//! Pages and bands over a disk, changed by records of a log: the page engine as the engine under
//! transactions and their actions.
//!
//! It stands on `sg_engine` for the work, and on `sg_phys` for what the engine shows. It promises what
//! `sg_actions` asks of an engine, on any disk: each record is logged and its change made in one call;
//! each image that a crash leaves at any moment, also of a call that fails, has a front of the steps
//! with all that were durable, and comes to what these make of what the store first said; and after
//! its first failure it touches the disk no more. No type names the operations that its records mean:
//! the clauses speak of each table of operations for which it stands.
#![tactic(auto)]

mod calls;
mod cutting;
mod engine;
mod phys;

pub use phys::Phys;
