//! A space of pages and bands, on which arrays, tables, blobs and the catalogue stand: the trait
//! `PageSpace`, one in memory, and what these structures share.
//!
//! It stands on `sg_base`, `sg_ops`, `sg_slotted`, `sg_step` and `sg_alloc`. It promises that a call on a
//! space does exactly what its name says to one page or band and leaves all others, that counts of
//! free ones are exact, and that on any space, also one of which nothing is known, a call fails only
//! where the space's count of faults rose, or near the end of its log.
#![tactic(auto)]

mod cells;
mod guarded;
mod memory;
mod note;
mod space;
mod stock;

pub use cells::{read_cell, take_page_with};
pub use guarded::Guarded;
pub use memory::MemSpace;
pub use note::UndoNote;
pub use space::{ListFault, PageSpace, SpaceFault};
