//! One operation on the bytes of a page of slots, done where it fits.
//!
//! It stands on `sg_base`, `sg_ops` and `sg_slotted`. It promises that what the page says afterwards is
//! the operation's step of what it said before, that the operation is refused exactly where there is
//! no such step, that a refused one changes no byte, and that pages with the same bytes have the same
//! bytes after the same operation.
#![tactic(auto)]

mod page;
mod take_off;

pub use page::apply;
pub use take_off::{brings_bytes, do_and_take_off, do_to_both};
