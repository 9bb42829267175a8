//! The ground of the store: pages and bands as states, changes as the log's records hold them, readings of
//! states as objects, notes, and verbs as they were done. It is definitions and laws, and no code.
//!
//! It stands on `sg_store`, whose ground it gives; on `sg_contents` and `sg_reader`, which say what stands in
//! pages and bands and find it in any state; and on `sg_objects`, which does verbs over a space. It promises
//! that this ground has the laws that the store asks; that an image that comes to at most one log and one
//! state stands for at most one collection of objects; and that what the calls on objects do to a space is,
//! clause by clause, what the store asks of them.
#![tactic(auto)]

mod laws;

pub use laws::{Grounded, grounds_are_lawful, verbs_are_told};
