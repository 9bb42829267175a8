//! Tests of what the words of the command line ask for, of the sizes that a text says, and of the workload.
#![tactic(auto)]

#[cfg(test)]
mod file;
#[cfg(test)]
mod sizes;
#[cfg(test)]
mod table;
#[cfg(test)]
mod words;
#[cfg(test)]
mod workload;
