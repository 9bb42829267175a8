//! Definitions and lemmas on transactions over any step that keeps to what it touches: cells and
//! touches, what transactions hold, and runs of them. It has no code, and stands on std alone.
//!
//! Its lemmas say that two steps whose touches are clear of each other commute, that a run under
//! holds of which none is in conflict is serial, and that undoing the ends of some live transactions
//! is leaving them out. What is claimed of them is what the contracts of the crates above name.
#![tactic(auto)]
