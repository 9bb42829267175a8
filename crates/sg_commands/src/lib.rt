//! The program's commands: making a store on a disk, of sizes that a file may say, a run of a script over the store of one, whatever the
//! engine that opens it, its objects or what they come to, a listing of its log, and a workload. Where the words say so, the disk stops after
//! a number of calls.
//!
//! It stands on `sg_script`, which runs a script by a session over any page engine, on `sg_inspect`, which lists a
//! log, on `sg_command` and `sg_workload`, which read the words and draw a workload, and on what it asks of an engine's opening
//! (`Opens`), which the store over pages of `sg_mount` gives. Of objects it writes what `sg_lines` says. It promises that each reply follows from the lines so far, that committed transactions got
//! the replies that they get one whole transaction after another, that each fault which is answered was
//! there, and that at every moment each image a crash could leave stands for the objects after the first
//! transactions in order of commit, all of those that were answered among them.
#![tactic(auto)]

mod law;
mod listing;
mod objects;
mod opens;
mod sizes;
mod status;
mod stores;
mod top;

pub use law::{done_tells_all, stores_have_logs};
pub use opens::{InitRefused, OpenRefused, Opens, Unopened};
pub use status::Status;
pub use top::{Finish, serve};
