//! The last steps of opening a store, behind those of the page engine: what an action without an end did
//! is taken off, the losers are undone, the greatest note first, and ended, and what is buried is freed.
//!
//! It stands on `sg_store`, whose traits it adds two calls to (`Reopens`). It promises that each image of
//! each moment stands for the objects for which the image stood that was found, so that an opening that
//! is stopped anywhere can begin again; and that at the end a store with no transaction shows a run that
//! begins with these objects, with nothing buried. Each call returns on any engine.
#![tactic(auto)]

mod attaching;
mod laws;
mod losers;
mod opening;

pub use attaching::attach;
pub use laws::losers_cover;
pub use losers::{Greatest, end_losers, settle_losers, undo_losers};
pub use opening::{Reopens, StartFault, Unstarted, start_store};
