//! The words that every crate of Stasis shares: numbers of pages, bands, transactions and log
//! bytes, names, the three areas of a disk, the ends of a run (where a script comes from and where
//! its replies go) with implementations in memory and over std, fields of fixed width, pages of
//! slots and the operations on them, and a counter of steps that has no bytes (`Steps`).
//!
//! It stands on `byteorder` and `sg_bits`. It promises that a call of a trait here fails only where that
//! object's count of faults rose, that a source and a sink that tell their contents give and take
//! exactly these, that those in memory fail at the call that was asked for, that a number and its
//! bytes are told from each other both ways, and that a step counts one at no cost when it runs.
#![tactic(auto)]

mod area;
mod check;
mod ends;
mod fields;
mod memory;
mod name;
mod numbers;
mod op;
mod page;
mod put;
mod real;
mod split;
mod steps;

pub use area::Area;
pub use check::view;
pub use ends::{Failed, OutOfMemory, Sink, Source};
pub use fields::{read_u16, read_u32, read_u64, write_u16, write_u32, write_u64};
pub use memory::{MemSink, MemSource};
pub use name::Name;
pub use numbers::{BandNo, Lsn, PageNo, TxnId};
pub use op::PageOp;
pub use page::{BAND_SIZE, PAGE_SIZE, SlotView, page_lsn};
pub use put::{put_text, put_u8, put_u16, put_u32, put_u64};
pub use real::{ReadSource, WriteSink};
pub use split::{split_text, split_u8, split_u16, split_u32, split_u64};
pub use steps::Steps;
