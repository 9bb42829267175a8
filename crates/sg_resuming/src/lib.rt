//! What a take-off and a walk over pages say of a store that is being opened.
//!
//! It stands on `sg_actions`, whose steps a take-off appends, on `sg_walked`, and on `sg_ground`, over which a store's
//! pages are read. It has laws, and no code that runs: the steps of a take-off are those of an opening; behind it the
//! pages are what the found ones are once its action is taken off; and a walk over them says what they read as, and
//! how much is free.
#![tactic(auto)]

mod laws;

pub use laws::{offs_are_openings, walks_tell};
