//! What a listing of objects has: the parts that a listener is told, the line of each, and what objects come to.
//!
//! It stands on `sg_base`, on `sg_model`, whose objects are listed, and on `sg_text` and `sg_words`, which print. It holds no
//! object. A `Listener` is told what an object begins with, and each item, entry and piece. It promises that the lines of these
//! parts make the text of the objects, that each call that writes hands exactly its line to the sink, or a front of it where the
//! sink fails, and that summaries are added as those of the objects are: an `Adder` that was told the parts of objects has the
//! summary of these.
#![tactic(auto)]

mod adder;
mod laws;
mod line;
mod listener;
mod summary;
mod writer;

pub use adder::Adder;
pub use laws::{parts_make_the_summary, parts_make_the_text};
pub use line::{are_zero, write_entry, write_heading, write_item, write_piece, write_summary};
pub use listener::Listener;
pub use summary::{Summary, sum_of};
pub use writer::Writer;
