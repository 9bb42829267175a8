//! What a log of page records stands for, over any pages, readings of them and notes: definitions, and
//! what is proved of them. It stands on std alone and has no code that runs.
//!
//! One fold over a log's records says whose transactions go on, which changes are open and which notes
//! stand. The log stands for what is read once its history is repeated, the open changes are taken off
//! and the standing notes are undone, the last first. It promises, each as the contract of a function
//! that a proof calls: what each kind of record does to that; that a store which keeps to the locks
//! leaves at every front of its log what its committed transactions give; and that the steps of an
//! opening keep it at every front, so that a second opening finds the same and undoes nothing twice.
#![tactic(auto)]

mod ground;
mod histories;
mod kinds;
mod locality;
mod reopening;
mod walks;

pub use ground::{Ground, Likeness};
pub use histories::{histories_go_back, runs_keep};
pub use kinds::{actions_are_taken_off, pages_last, records_keep};
pub use locality::{CellGround, arrays_are_lawful, cells_are_lawful};
pub use reopening::openings_keep;
pub use walks::{notes_are_found, nothing_is_undone_twice, take_offs_find};
