//! Tests of opening a store: an open batch that is laid over before history is repeated, images that are
//! refused, and a log that goes on over what stands behind its end.
//!
//! They stand on `sg_making`, which makes the stores, and on `sg_reopen`, which opens them.
#![tactic(auto)]

#[cfg(test)]
mod batches;
#[cfg(test)]
mod images;
#[cfg(test)]
mod records;
#[cfg(test)]
mod stores;
#[cfg(test)]
mod tails;
