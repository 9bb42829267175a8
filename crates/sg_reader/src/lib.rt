//! What a state of all pages and bands reads as: laws alone. It has no code that runs.
//!
//! A space has some of the pages and bands, a state says what each of them holds. It stands on contents
//! (`sg_contents`), on laws that each structure stands once (`sg_once`) and on actions that are taken off
//! (`sg_action`). It promises that a state has one reading at most; that it is decided which one, or that
//! there is none, so that a reader of states is there with no premise; that the reading stays where nobody
//! who reads what it reaches can tell the pages apart, though free pages say anything and pages have empty
//! slots up to their limits; and that what contents mean is formed as undoing needs it.
#![tactic(auto)]

mod laws;
mod shape;
mod space;

pub use laws::readings_are_told;
pub use shape::readings_are_formed;
pub use space::spaces_read_as_states;
