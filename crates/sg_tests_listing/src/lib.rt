//! Tests of what is written of a store for its reader: the listing of its log, over images that were written by hand, and the text of
//! objects from their pages.
#![tactic(auto)]

#[cfg(test)]
mod log;
#[cfg(test)]
mod objects;
#[cfg(test)]
mod table;
