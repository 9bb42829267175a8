//! Tests of every verb on the objects of a space, and of its undo, over a space in memory that tells nothing: rows of verbs
//! at their limits, and of undone notes, and drawn verbs beside objects in memory.
#![tactic(auto)]

#[cfg(test)]
mod drawn;
#[cfg(test)]
mod limits;
#[cfg(test)]
mod rows;
