//! What opening reads of a store before it writes anything: the log, what an analysis says of it, and
//! whether its records may be repeated. A log's text is read in stretches of whole frames, so that it is
//! never held whole.
//!
//! It stands on `sg_gate`, `sg_log`, `sg_analysis` and `sg_places`. It promises that nothing is written,
//! that what it gives is what the disk's log says, and for which cause it refuses.
#![tactic(auto)]

mod asking;
mod fault;
mod finding;
mod stretch;
mod syncing;

pub use asking::check_log;
pub use fault::OpenFault;
pub use finding::{log_area, of_gate, read_log};
pub use stretch::{Room, read_stretch, take_room};
pub use syncing::sync_all;
