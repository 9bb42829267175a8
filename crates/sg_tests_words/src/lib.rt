//! Tests of the words of a script, of what lines ask for and of their answers, and of what an operation says of itself.
#![tactic(auto)]

#[cfg(test)]
mod answers;
#[cfg(test)]
mod lines;
#[cfg(test)]
mod marks;
#[cfg(test)]
mod model;
#[cfg(test)]
mod requests;
