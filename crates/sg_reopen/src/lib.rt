//! A store that is opened again, as often as a crash ends it, and whose log is cut between.
//!
//! It stands on `sg_engine` for what an image stands for, and on `sg_open` for opening. It promises
//! that each image of each moment, of a store that was made, over each call of its engine and over each
//! opening, whole or cut off, can be opened again, and gives the pages and bands that all records since
//! the store was made give: one invariant for all time, also where records of the log are gone.
#![tactic(auto)]

mod laws;
mod reopening;
mod starting;

pub use laws::{
    contents_of_all, cuts_stand, empty_stands, images_first, images_open, images_stand_over,
    lives_stand, points_go_on, running_stands, stands_from_own,
};
pub use reopening::reopen;
pub use starting::{Started, Unopened, open_engine};
