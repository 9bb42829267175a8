//! The parts of bringing an engine that an opening found to where its first action may begin.
//!
//! It stands on `sg_found`, which says where a take-off goes on, on `sg_actions`, which goes on with it, and
//! on `sg_walked`, by which it goes over all that the pages reach. It promises what a take-off appends, that
//! each image of each moment has a front of the log with it, that each fault is counted, and that behind a
//! walk which ends well exactly what the pages reach is taken, with cells that are bytes.
#![tactic(auto)]

mod resuming;
mod taking_off;
mod walking;

pub use resuming::{WithoutEnd, take_off};
pub use taking_off::find_in;
pub use walking::go_over;
