//! Tests of the session and of whole scripts over a store on a disk in memory: replies, stops, crashes and openings.
#![tactic(auto)]

#[cfg(test)]
mod quiet;
#[cfg(test)]
mod reopen;
#[cfg(test)]
mod row;
#[cfg(test)]
mod stop;
#[cfg(test)]
mod top;
#[cfg(test)]
mod trial;
