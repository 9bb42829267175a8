//! Tests of the buckets of hash tables and of where a key belongs. Each module has those of one crate, through its
//! public calls.
#![tactic(auto)]

#[cfg(test)]
mod bucket;
#[cfg(test)]
mod linear;
