//! The pages and bands of an engine, to be looked at before it is known what they say.
//!
//! It stands on `sg_reader`, and on `sg_actions`, over any of whose engines it is a space of pages and bands. It promises that a look at
//! it shows what the engine holds, that each page and band is there, and that it only looks: no record is appended,
//! and each image of each moment has a front of the engine's log. It tells where what the engine holds reads as
//! contents: so nothing is asked of who looks before that is known, and where it does no look breaks. A page that says
//! nothing is shown as a blank one, and a call that would change something is refused.
#![tactic(auto)]

mod space;

pub use space::UnreadSpace;
