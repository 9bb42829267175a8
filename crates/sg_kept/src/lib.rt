//! A log whose front has been cut off: definitions, and laws as contracts. It has no code that runs.
//!
//! It stands on `sg_recovery`, which says what a log says of transactions, and when it is formed. It promises that what
//! is kept of a formed log, from a point on at which no transaction that goes on had begun and no open change stood, says
//! what all of it said, whatever is appended later, and is itself a formed log whose first byte is that point.
#![tactic(auto)]

mod laws;

pub use laws::{kept_is_formed, kept_says_all};
