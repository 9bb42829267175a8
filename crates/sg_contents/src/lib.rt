//! What stands in the pages and bands of a space, and what it means as objects: definitions, and what is
//! proved of them. It has no code that runs.
//!
//! Contents are the catalogue and, at each root that it names, an array, a table or a blob; no page and no
//! band is reached twice. They mean a reading (`sg_reading`): objects under their names, each with what
//! stands around it, and tombstones. This crate stands on the structures that lie in pages, and promises
//! that where one of them changes all else stands and means what it did, how many pages and bands are free
//! then, that nothing is taken that isn't reached, and how many slots each page may have.
#![tactic(auto)]

mod beside;
mod counts;
mod limits;
mod meaning;

pub use beside::all_else_stands;
pub use counts::{changes_are_counted, nothing_is_lost};
pub use limits::pages_have_limits;
pub use meaning::{changes_keep_to_names, contents_mean_readings};
