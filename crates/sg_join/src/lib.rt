//! What a store keeps of a log of page records and of a run of transactions, joined: definitions, and
//! what is proved of them. It stands on the theories of both and has no code that runs.
//!
//! `sg_recovery` says what a log of page records stands for, and `sg_serial` what a run of transactions
//! leaves. A store keeps both at once: its log's history is its run's, and at each record each front of
//! the log that a crash may leave stands for what the committed transactions of the run give, one whole
//! one after another. It promises, each as the contract of a function that a proof calls: that each
//! record, each lock taken or given back and each force keeps that; that the last note of a live
//! transaction can be undone, with a page for it; and that the objects of the two theories are the same,
//! line by line.
#![tactic(auto)]

mod joint;
mod laws;

pub use joint::Joined;
pub use laws::{histories_are_one, notes_go_back, stores_keep};
