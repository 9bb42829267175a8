//! Tests of the structures over a space whose parts are found by their places: lists and blobs.
//! Each module has those of one crate.
#![tactic(auto)]

#[cfg(test)]
mod blob;
#[cfg(test)]
mod list;
