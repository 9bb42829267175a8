//! What an action that has no end leaves, and that it can be taken off: the inverses of its changes, the
//! last one first, each fit, and leave all that can be seen of pages and bands as it was.
//!
//! It stands on `sg_base`, `sg_ops`, `sg_slotted` and `sg_step`. It has no state and no data: its calls
//! are laws, stated as what they tell a proof, and small ones that do what the laws speak of.
#![tactic(auto)]

mod bands;
mod laws;

pub use bands::write_and_take_off;
pub use laws::{bytes_come_back, goes_on, takes_off};
