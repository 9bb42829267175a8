//! What pages and bands read as, and what undoes a verb in it: definitions, and what is proved of them.
//! It has no code that runs.
//!
//! A reading is objects under their names, each with its root page, the peak of its length and its
//! bands, and beside them the dropped objects as tombstones. It is made of cells, as locks cover them.
//! A note says what a verb did; `unstep` takes it back in a reading, where that is possible. This
//! crate stands on the step of every verb (`sg_model`), on touches and holds (`sg_serial`) and on what
//! a log of page records stands for (`sg_recovery`). It promises, each as the contract of a function
//! that a proof calls: that each verb and the undoing of each note keep to the cells that they touch,
//! so that what different transactions did can be undone in any order; that the note of each verb,
//! undone where the verb left it, leaves no less than there was; where exactly a note can be undone;
//! that the locks on resources are enough for all this; and that the before bytes of a blob, put back,
//! give what the blob was. What pages have to say for there to be a reading stands above the
//! structures that lie in pages.
#![tactic(auto)]

mod cells;
mod locks;
mod readable;
mod strokes;
mod undoing;
mod verbs;

pub use cells::{readings_are_lawful, readings_show_objects};
pub use locks::locks_keep_apart;
pub use readable::Readable;
pub use strokes::bytes_come_back;
pub use undoing::{notes_are_plain, notes_are_possible, notes_lead_back};
pub use verbs::{verbs_are_steps, verbs_lead_on};
