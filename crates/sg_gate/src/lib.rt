//! The gates of the home area: its superblock, which is renewed in one of two slots, and the pages of a
//! batch, which go home together through the double-write area.
//!
//! It stands on `sg_base` for numbers and their bytes, and on `sg_disk` for the disk and what a crash
//! leaves of it. It promises that a crash at any moment leaves a store that opening sees with the old
//! superblock or the new one, and with all pages of a batch or with none; that a superblock or an open
//! batch with a field out of its range is told, with that field's place; and that no other byte and
//! no log is touched.
#![tactic(auto)]

mod batch;
mod fault;
mod gate;
mod header;
mod laying;
mod layout;
mod slot;
mod superblock;

pub use batch::{finish, place};
pub use fault::GateFault;
pub use gate::shut_batch;
pub use laying::lay_over;
pub use layout::{band_start, page_start, place_start};
pub use slot::{read_super, renew};
pub use superblock::Super;
