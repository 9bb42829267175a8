//! A disk over the files of a folder, `FolderDisk`: what the program `stasis` keeps its store on, and what an
//! application that embeds the library may open one on. Each area of the disk is a file of the area's name.
//!
//! It stands on `sg_base`, whose areas and failures it speaks of, on `sg_disk`, whose trait it implements, and on std's
//! files. It is the trusted edge to these: no proof says what a file gives, takes or keeps, and so the disk tells nothing of
//! what it contains. It promises that each failure of the system is counted as a fault, and each call as a call, that the
//! count of bytes handed to it grows by no more than a write has, and that no open file of a store has the number of a
//! standard stream. That a sync makes durable what was written, and that nobody passes over the folder's lock, is trusted.
#![tactic(auto)]

mod disk;
mod files;
mod folder;
mod names;

pub use disk::FolderDisk;
pub use names::area_name;
