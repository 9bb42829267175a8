//! Tests of objects over the page engine, over a disk in memory that tells nothing: verbs on arrays, tables, blobs and names
//! beside objects in memory, and a transaction that a crash interrupts and that is undone over the store that was opened again.
#![tactic(auto)]

#[cfg(test)]
mod losers;
#[cfg(test)]
mod quiet;
#[cfg(test)]
mod stores;
#[cfg(test)]
mod verbs;
