//! Tests of an ordered index. It stands on what it tests, and promises nothing.
#![tactic(auto)]

#[cfg(test)]
mod index;
mod table;
