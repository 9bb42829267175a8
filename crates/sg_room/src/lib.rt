//! The stock of a store: how much room its objects and what is buried may take, what each verb needs, and
//! how each line of a run of transactions changes the stock. It is definitions and laws, and no code.
//!
//! It stands on `sg_reading`, which says what verbs and the undoing of notes leave, on `sg_recovery`, and
//! on the bounds that `sg_array` and `sg_hash` give their pages. It promises that what a reading shows of
//! the stock follows each verb, each undoing and each commit; that whichever notes of live transactions
//! are undone, the stock is the run's, and as many pages are kept as the run counts; and that peaks never
//! fall from one moment to a later one, so that what a crash leaves has none above the run's.
#![tactic(auto)]

mod laws;

pub use laws::lines_keep_stock;
