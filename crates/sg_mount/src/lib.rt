//! Making a store of objects on a disk, and opening one.
//!
//! It stands on `sg_making`, which writes an empty store's pages, on `sg_attach`, which opens the pages of one, on
//! `sg_starting`, which brings what was opened to where the first line may come, and on `sg_shown`, which says
//! what pages mean as objects. It promises that at each moment of making a store a crash leaves no store, or one
//! that stands for no objects; and that opening one gives the store of the objects for which the image stands that
//! was read, each image of each moment standing for the same from the return of its syncs on. Opening is safe on
//! any disk, and says why it refuses.
#![tactic(auto)]

mod fault;
mod laws;
mod losers;
mod making;
mod opening;

pub use fault::{MountFault, Unmounted};
pub use laws::{flushed_checkpoints, images_open};
pub use making::init_store;
pub use opening::{FoundStore, find_store, open_store};
