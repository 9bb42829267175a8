//! Rows of bits in words of 64: bits set and cleared, and the next one that is set or clear.
//!
//! It stands on std alone. It promises that a call changes exactly the bits that it names, that a
//! search finds the first such bit from a place on, and that a word is told full exactly where it is. Each
//! goes by words, not by bits.
#![tactic(auto)]

mod bits;
mod word;

pub use bits::{WORD_BITS, clear, is_full, is_set, next_clear, next_set, set};
