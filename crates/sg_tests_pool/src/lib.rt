//! Tests of the buffer manager: its frames and windows against plain arrays, and what a crash leaves.
#![tactic(auto)]

#[cfg(test)]
mod pool;
