//! The store and its program: a session answers the lines of a script one at a time over a store in pages, and
//! `stasis` does what the words say over a disk: it makes a store, or takes a script from a source, executes it
//! line by line over the disk's store and hands the replies to a sink, or writes the store's objects, what they come
//! to, its log or a workload. Where the words say so, the disk stops after a number of calls.
//!
//! It stands on `sg_commands`, which does the commands over any engine of a store that can be opened, and on the
//! pages of `sg_paged` over `sg_pages`, which are one. It promises that each reply follows from the lines so far,
//! that committed transactions got the replies that they get one whole transaction after another, that each fault
//! which is answered was there, and that at every moment each image a crash could leave stands for the objects
//! after the first transactions in order of commit, all of those that were answered among them.
#![tactic(auto)]

mod law;
mod session;
mod top;

pub use law::done_tells_all;
pub use session::SessionOver;
pub use sg_commands::{Finish, OpenRefused, Status, Unopened};
use sg_paged::Paged;
use sg_pages::Phys;
pub use top::stasis;

/// A store in pages that answers the lines of a script, one at a time.
pub type Session<D> = SessionOver<D, Paged<Phys<D>>>;
