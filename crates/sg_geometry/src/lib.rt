//! The sizes that a store is made with.
//!
//! It stands on `sg_gate`, whose superblock keeps them. It promises that sizes are fit exactly where a superblock may have them.
#![tactic(auto)]

mod geometry;

pub use geometry::Geometry;
