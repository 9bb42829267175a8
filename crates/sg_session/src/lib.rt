//! A session: the lines of a script, answered one at a time by a store over any page engine.
//!
//! It stands on `sg_store`, whose calls know transactions by their numbers, on `sg_words`, which reads
//! what a line asks for, and on `sg_run`, which says what a run of transactions is. A session knows each
//! live transaction by its name. It promises that each line leads the run of its store on as a line may,
//! with the answer that this gives; that on any engine each answer has its cause, and stops the session exactly where it
//! says so; that in each line and after it every image stands for
//! the committed objects, or for those with the line's own commit; that a session that has stopped makes
//! no call of the store; and that its end adds no commit. It says so of an engine that tells its contents.
//! Only making one takes memory.
#![tactic(auto)]

mod answered;
mod names;
mod session;

pub use answered::{Answered, write_answered};
pub use names::Names;
pub use session::Session;
