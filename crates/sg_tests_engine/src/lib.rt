//! Tests of the page engine: each kind of record over a small store, more pages than frames, a disk that
//! stops, and the log's end.
#![tactic(auto)]

#[cfg(test)]
mod engine;
