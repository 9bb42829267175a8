//! Tests of what an opening does: what a log stands for, its analysis, and history repeated.
//! Each module has those of one crate.
#![tactic(auto)]

#[cfg(test)]
mod analysis;
#[cfg(test)]
mod recovery;
#[cfg(test)]
mod redo;
