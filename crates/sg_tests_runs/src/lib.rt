//! Tests of whole runs of the program's words: stores made of the sizes of a text, what they have room for, objects and logs that are listed, and
//! checkpoints; images that no run left; and runs that a stop of the disk ends at any call, and that a crash follows: what is there when the store is
//! opened again, and when that opening was stopped too.
#![tactic(auto)]

#[cfg(test)]
mod checkpoints;
#[cfg(test)]
mod commits;
#[cfg(test)]
mod geometry;
#[cfg(test)]
mod images;
#[cfg(test)]
mod listing;
#[cfg(test)]
mod look;
#[cfg(test)]
mod losers;
#[cfg(test)]
mod meeting;
#[cfg(test)]
mod objects;
#[cfg(test)]
mod room;
#[cfg(test)]
mod rounds;
#[cfg(test)]
mod takeoff;
#[cfg(test)]
mod trial;
#[cfg(test)]
mod wide;
