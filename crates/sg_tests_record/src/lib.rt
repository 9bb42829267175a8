//! Tests of the bytes of records.
#![tactic(auto)]

#[cfg(test)]
mod record;
