//! Which pages and bands are taken: `Maps`, exactly, and always the least free one.
//!
//! It stands on `sg_base` and `sg_bits`. It promises that a call takes or frees exactly the page or band
//! that it names or answers, that a taking answers the least free one, and that the counts of free ones
//! are exact. No call but `Maps::new` takes memory. The least free one is found by three looks, however
//! many are taken.
#![tactic(auto)]

mod map;
mod maps;
mod rows;

pub use maps::{Maps, map_bands};
