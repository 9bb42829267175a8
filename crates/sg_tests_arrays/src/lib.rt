//! Tests of arrays in a space, through their public calls.
#![tactic(auto)]

#[cfg(test)]
mod array;
