//! Tests of hash tables. It stands on what it tests, and promises nothing.
#![tactic(auto)]

#[cfg(test)]
mod hash;
