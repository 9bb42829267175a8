//! A store of objects over a page engine, for several transactions at a time: what it is answered, what
//! the run of its transactions is, and what each image stands for that a crash may leave.
//!
//! It stands on `sg_run`, whose runs it shows, on `sg_recovery` and `sg_join`, which say what a log of
//! pages stands for, on `sg_locks` and `sg_core`. Of pages it knows six traits: `Engine`, an engine with a
//! log in which actions are done and undone; `Objects`, what operations on objects do in it; `Lists`, for
//! lists of keys and names; `Tells`, for an engine that tells a listener of its objects; `Marks`, for one whose transactions set
//! marks; and `Truncates`, for one whose log can be cut. It
//! promises that each call of a store leads its run on as a line may, with the cause of each refusal;
//! that in each call and after it every image stands for the objects after the transactions that were
//! committed, or with the call's own commit; and that a store that has stopped makes no call. It says so
//! of an engine that tells its contents, and of a ground whose laws hold (`IsLawful`), whatever the engine's
//! records mean. Of any engine it promises that no fault is passed over (`Heeds`), by the disk's own count too:
//! a store that hasn't stopped for the disk leaves that as it was, and one that stops for it, where its engine told,
//! does so only where it rose. A caller owes what the call before gave (`Serves`); `rests` of each call says plainly what an
//! application may rest on.
#![tactic(auto)]

mod engine;
mod fault;
mod laws;
mod listing;
mod store;
mod telling;

pub use engine::{Engine, Lists, Marks, Objects, Tells, Truncates};
pub use fault::{CheckRefused, MarkRefused, Needed, ObjFault, Refused, TellFault, Untold};
pub use laws::breaks_dont_count;
pub use store::Store;
