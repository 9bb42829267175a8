//! Tests of what maps names and keys. Each module has those of one crate.
#![tactic(auto)]

#[cfg(test)]
mod catalog;
