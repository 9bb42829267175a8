//! Tests of what a store holds in memory of its transactions: those that are live, and what they hold.
//! Each module has those of one crate.
#![tactic(auto)]

#[cfg(test)]
mod locks;
#[cfg(test)]
mod txns;
