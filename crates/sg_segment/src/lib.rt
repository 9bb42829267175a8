//! The dirty bytes of a window of 32,768 bytes, kept as one bit a byte, and blind writes, which set
//! bytes of a window and mark them without a look at what stood there.
//!
//! It stands on `sg_base` and `sg_bits`. It promises that the marked bytes are a set, with a mark for each byte of
//! a window: a mark adds exactly its range, the next run is exactly the first maximal run of marked
//! bytes, going from run to run gives exactly the marked bytes, and a blind write leaves its range as
//! given, marks it, and changes nothing else. No call takes memory, and each goes by words of 64
//! bits, not by bits.
//!
//! The unit, one byte to a bit, is in `dirty.rt` alone, with `marks_of` of `specs/Marks.antt`: bit k
//! stands for byte k. Sectors of 512 bytes are put in there: a bit for each, 64 bits in all, and a
//! condition that a range is of whole sectors. `sg_bits` knows only numbers of bits, and `blind_write`
//! only marks a range.
#![tactic(auto)]

mod dirty;
mod window;

pub use dirty::Dirty;
pub use window::{WINDOW, blind_write};
