//! The analysis of a log of page records, which opening begins with: which transactions go on and
//! where each has its last record, which action has no end, and from where on history is repeated.
//!
//! It stands on `sg_base`, `sg_disk` and `sg_record`, on `sg_log` for the frames, and on the
//! definitions of `sg_recovery`. It promises that `analyse` reads the log once, frame by frame, and
//! says of its records exactly what those definitions do; that it answers Ok exactly of a log that is
//! formed, and of another tells where it is damaged; and that what it says is enough to take an action
//! without an end off.
#![tactic(auto)]

mod analysis;
mod ending;
mod fault;
mod laws;
mod losers;
mod opened;
mod past;
mod progress;
mod records;
mod row;
mod scan;
mod stacks;
mod unended;

pub use analysis::{Analysis, analyse};
pub use fault::AnalysisFault;
pub use laws::{analyses_suffice, codes_suffice, formed_logs_exist};
pub use losers::Losers;
pub use opened::Opened;
