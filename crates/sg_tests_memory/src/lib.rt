//! Tests of calls over a space in memory that tells its contents: what each call asks of its caller is
//! proved here, and what it answers is a clause. Each module has those of one crate.
#![tactic(auto)]

#[cfg(test)]
mod array;
#[cfg(test)]
mod catalog;
