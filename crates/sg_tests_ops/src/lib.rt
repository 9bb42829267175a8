//! Tests of what is done to pages, items and ranges: the registered operations and what callers rest on, one operation on a
//! page, a write that is taken off, the frames and loans through which threads do them, and records that two threads replay.
//! Each module has those of one crate.
#![tactic(auto)]

#[cfg(test)]
mod action;
#[cfg(test)]
mod frames;
#[cfg(test)]
mod laws;
#[cfg(test)]
mod ops;
#[cfg(test)]
mod replay;
#[cfg(test)]
mod step;
