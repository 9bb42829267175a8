//! Redo: what the records of a log do to the bytes of pages and of bands' windows when history is
//! repeated.
//!
//! It stands on `sg_base`, `sg_record`, `sg_ops`, `sg_slotted`, `sg_step`, `sg_action`, `sg_segment` and `sg_frames`. It
//! promises that a page has a record's operation done exactly where the page's number in the log is
//! smaller and the operation fits, with the bytes that one function says, and that no byte changes
//! otherwise; that a change of a band writes its bytes whatever stood there and marks exactly these;
//! that `replay` does so with the records of each unit, in their order, and leaves what one function
//! of that unit says, so that no order of the units shows; and, as laws of these functions, that redo
//! keeps a page of slots one, that on bytes it is the step of what they say, that any version of a page repeats to what all its records make, and that
//! windows which differ only in bytes that the changes cover are the same after them.
#![tactic(auto)]

mod change;
mod check;
mod known;
mod laws;
mod page;
mod place;
mod replaying;
mod threads;
mod unit;
mod window;

pub use change::page_op;
pub use check::{check_pages, is_well};
pub use known::are_known;
pub use laws::{
    places_name_units, records_fit_as_said, records_keep_pages, records_make_what_is_said,
    records_set_numbers, redo_is_the_step, replay_converges, versions_repeat, windows_converge,
};
pub use page::apply_page;
pub use place::Place;
pub use replaying::{replay, replay_unit};
pub use threads::replay_all;
pub use unit::Unit;
pub use window::{BandChange, apply_window};
