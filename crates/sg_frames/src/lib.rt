//! Page frames and windows: the memory that pages of 4,096 bytes and windows of 32,768 bytes are
//! held in, and loans of it, which go to threads and come back.
//!
//! It stands on `sg_base`, for the size of a page and want of memory, and on the kit's `std_alloc`,
//! for a `Vec` that lies in a part of a block. One block of memory holds all page frames and
//! windows, one behind the other; a table for each of the two kinds says where its pieces lie.
//! `new` takes this memory, and no other call takes any.
//!
//! It promises that a page frame, a window and a loan hold lists of bytes: a change through one
//! leaves every other as it was, a loan has the bytes of its place and brings back those that it
//! has then, and two frames that are lent at once are each written back to their own place. The
//! bytes are 0 at first. `new` answers nothing but want of memory, and `end` gives the whole block
//! back, once.
//!
//! `block.rt` has the one `unsafe` call. Its functions are proved by hand, and so is
//! `Frames::pair_mut`.
#![tactic(auto)]

mod block;
mod frames;
mod loan;
mod place;
mod slot;
mod table;

pub use frames::Frames;
pub use loan::Loan;
pub use place::Place;
