//! Tests of the disk over a folder's files, in a folder of the system's for files of the moment.
#![tactic(auto)]

#[cfg(test)]
mod folder;
