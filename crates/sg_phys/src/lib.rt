//! What the page engine shows to the actions above it.
//!
//! It stands on `sg_phys_laws`, which reads the engine's records as the steps of a log, and on the view
//! of an engine that `sg_actions` has. It says what an engine over a disk shows, which operations it
//! stands for and from which first pages its steps lead; and that each kind of call leaves what the
//! actions ask of it, on success, on a fault, and once it has stopped.
#![tactic(auto)]

mod words;

pub use words::{is_log_end, is_no_step, space_fault};
