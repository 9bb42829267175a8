//! What a store's log holds, as a text: a heading, and a line for each record that is on the disk. It reads the disk alone, whether or
//! not its store can be opened, and changes nothing.
//!
//! It stands on `sg_gate` for the superblock, which says where the log is, on `sg_log` for its frames, on `sg_analysis` for which
//! records may follow one another, on `sg_places` for which pages and bands they may name, and on `sg_text` for the lines. It promises
//! that the text is that of exactly the records which the disk's bytes hold up to the first closed gate, and that damage is answered
//! only where there is some.
#![tactic(auto)]

mod fault;
mod inspecting;
mod line;
mod listing;
mod survey;

pub use fault::InspectFault;
pub use inspecting::write_log;
