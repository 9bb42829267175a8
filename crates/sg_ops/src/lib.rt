//! The registered operations: what a store's records and byte ranges can be told to do by a code
//! and an argument, and what each operation on a page does with them. It stands on `sg_base` alone.
//!
//! A record operation changes one item and can be undone; a range operation gives the bytes of a
//! range by their positions. A program registers its own beside the shipped ones, each once, and
//! hands the `Ops` down by `&Ops` to whatever replays them, from several threads too.
//!
//! Promised: each operation is registered only with a proof of its law, so undoing what an
//! operation left gives back the item, whatever operation it is. A registration adds that one
//! operation and changes no other. The calls by code do what the operation with that code does.
#![tactic(auto)]

mod bytes;
mod entries;
mod ops;
mod range;
mod record;
mod shipped;

pub use bytes::are_bytes;
pub use ops::{Ops, OpsError};
pub use range::{RangeBox, RangeOp};
pub use record::{RecordBox, RecordOp};
pub use shipped::{Add, Ramp, Rotate, Xor};

/// How many operations of one sort an `Ops` holds at most, `fill` counted among the range operations.
pub const OPS_LIMIT: usize = 64;

/// Where the positions of a range end: each byte that is rendered has a position below this.
pub const RANGE_LIMIT: u32 = 16_384_000;
