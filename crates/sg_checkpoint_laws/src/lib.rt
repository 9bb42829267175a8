//! Which transactions a checkpoint lists: a definition, and a law as a contract. It has no code that runs.
//!
//! It stands on `sg_actions`, whose `checkpoint` says of which rows its record is (`NamesGoing`). It promises that all rows, where no
//! action is open, list each transaction that goes on with its last record, and none but these and such as have committed.
#![tactic(auto)]

mod laws;

pub use laws::checkpoints_list_who_goes_on;
