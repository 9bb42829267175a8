//! How the page engine's records are read above it: as the steps of a log, over pages and bands without
//! numbers.
//!
//! It stands on `sg_engine` and on the steps of `sg_actions`. It promises that a record of any kind is
//! logged where what the pages say allows it, that what records make of bytes says what their steps make,
//! in each life of a store, and what an image of the disk holds.
#![tactic(auto)]

mod laws;
mod logging;

pub use laws::{
    images_recover, opened_is_poised, records_are_read, records_are_steps, recovers_one, sizes_stay,
};
pub use logging::{links_fit, log_plain, log_record, log_without};
