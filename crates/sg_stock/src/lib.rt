//! What is free is what the objects leave: how the free pages and bands of a space obey the stock of the
//! contents that stand there. It is laws, and no code that runs.
//!
//! It stands on `sg_contents`, which says what stands in pages and bands and counts it, and on `sg_room`,
//! which says what a stock is and how much room it may take. It promises that where all that is taken is
//! what contents reach, and the map's bands, no more pages are taken than the bounds of the stock say, and
//! exactly its bands; and that each bound rises with the peak.
#![tactic(auto)]

mod laws;

pub use laws::objects_leave_room;
