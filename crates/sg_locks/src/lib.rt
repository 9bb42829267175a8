//! What transactions hold: a table of pairs of a transaction and a resource, and who is in the way
//! of whom.
//!
//! It stands on `sg_base`, `sg_model` and `sg_serial`. It promises that a transaction gets all the locks that it
//! asks for or none, that `Busy` names the least of the other transactions that hold one in
//! conflict, that `LocksFull` comes exactly where there would be more than 4,096 different pairs,
//! and that nothing has changed after either. No call but `Locks::new` takes memory.
#![tactic(auto)]

mod bucket;
mod chains;
mod finder;
mod locks;
mod table;

pub use locks::Locks;
pub use table::{LockAnswer, MOST_HELD};
