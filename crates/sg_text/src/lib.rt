//! Lines of text that are put together in a buffer: each call puts a piece behind a front of the buffer and gives the new front's end.
//!
//! It stands on `hex` and `itoa`. It promises of each call that the front is the old one with exactly that piece behind it, where
//! the buffer has room, which each call asks for.
#![tactic(auto)]

mod pieces;

pub use pieces::{append, append_hex, append_number};
