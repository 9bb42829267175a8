//! Tests of the home area, of `sg_gate`: its superblock, and the batches of pages that go there.
#![tactic(auto)]

#[cfg(test)]
mod gate;
