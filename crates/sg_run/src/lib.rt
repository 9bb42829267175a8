//! Runs of transactions, several at a time, over objects: what each line of a script may be
//! answered, in the order of its refusals, and what has happened after it. It is definitions, with
//! laws that tell of them, and no code that does anything.
//!
//! Of a store over pages it says also what each call by the number of its transaction may be answered,
//! with how much room there is and what the call makes of the stock, and what each line of a script.
//!
//! It stands on `sg_serial`, `sg_ops`, `sg_model`, `sg_words` and `sg_room`. It promises that every list of
//! lines, however its transactions are interleaved, leads to a run that is serial, in which an abort
//! leaves out what its transaction did; that taking back what the transaction did, the last change
//! first, is the same; and that a log of the changing operations which got a reply is enough to have
//! its objects again.
#![tactic(auto)]

mod law;

pub use law::{
    calls_are_serial, log_is_enough, named_lines_are_serial, runs_are_serial, undoing_leaves_out,
};
