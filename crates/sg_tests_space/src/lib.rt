//! Tests of pages and bands that are taken, changed and freed: the maps of them, and the space in memory.
//! Each module has those of one crate.
#![tactic(auto)]

#[cfg(test)]
mod alloc;
#[cfg(test)]
mod space;
