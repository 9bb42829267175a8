//! The walk over all that the objects in an engine's pages reach, which says what is taken there and how much is
//! free.
//!
//! It stands on `sg_walk`, on `sg_unread`, over whose space it walks, and on `sg_reader`. It promises that a walk
//! ends well only where the pages and bands read as contents, with exactly what these reach, page 0 and the map's
//! bands set; that a page is broken only where they read as none; and that the engine was only looked at.
#![tactic(auto)]

mod walking;

pub use walking::{Walked, walk};
