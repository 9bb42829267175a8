//! Tests of the disk in memory, of what stops it, and of the log in one of its areas.
//! Each module has those of one crate.
#![tactic(auto)]

#[cfg(test)]
mod disk;
#[cfg(test)]
mod log;
