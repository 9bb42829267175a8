//! The buffer manager: a store's pages in frames of memory, and its bands in windows. The page that is
//! asked for comes into the frame of the least recently used one, the band into the next window in turn;
//! what was there goes home first where it was changed.
//!
//! It stands on `sg_frames` for the memory, on the kit's `lru` for the order of use, on `sg_redo` for what
//! records do to a page and a band, on `sg_log` for the log, and on `sg_gate` and `sg_window` for the ways home,
//! over any disk of `sg_disk`. It promises that a page and a band are what was last written to them,
//! whatever was evicted; that none goes home before its last change is durable in the log, a page not but
//! through the double-write area, up to 32 at once, and of a band exactly the bytes that were written,
//! also where a call is stopped at any moment; that redo of a page, of a band or of a whole part of the
//! log is each unit's records repeated on it, through loans that are back at the return, of a part also
//! with many pages at once in several threads; which frame goes next; and which is the oldest change
//! that isn't on the disk. After it is made it needs no memory: `redo` takes some for a
//! while, and does without where it is refused. No call looks for a page or a band.
#![tactic(auto)]

mod bands;
mod batch;
mod clear;
mod fault;
mod home;
mod index;
mod least;
mod making;
mod order;
mod part;
mod pool;
mod redo;
mod repeat;
mod settle;
mod shelf;
mod slot;
mod together;
mod well;
mod windows;

pub use fault::PoolFault;
pub use pool::Pool;
