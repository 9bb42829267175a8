//! Opening a store as pages and bands under actions.
//!
//! It stands on `sg_open` for opening and on `sg_pages` for what is opened. It promises that an image of
//! which all is known that `Phys` promises of each image can be opened, and that what is opened stands
//! for the same operations and leads from the same first pages: nothing else is asked, in the first life
//! of a store or in a later one.
#![tactic(auto)]

mod attaching;
mod laws;

pub use attaching::{AttachedStore, attach};
pub use laws::{
    checkpoints_bound_openings, images_are_undamaged, images_attach, images_keep_checkpoints,
    none_is_unknown, opening_keeps, standing_is_of,
};
