//! The records of the log: what each says, and its one spelling in bytes.
//!
//! It stands on `sg_base` and `byteorder`. It promises that `encode` writes a record's spelling, that
//! `decode` accepts exactly the spellings of records whose fields are in their ranges, gives back the
//! record that was encoded whatever follows it, and tells each other text apart by its first fault.
#![tactic(auto)]

mod bodies;
mod fits;
mod kind;
mod ranges;
mod reader;
mod record;
mod says;
mod writer;

pub use fits::is_record;
pub use reader::decode;
pub use record::{BandBytes, BandOp, Change, PageChange, Rec, RecError};
pub use writer::{encode, size};

// The bytes of a record's header.
const HEADER_SIZE: usize = 21;
