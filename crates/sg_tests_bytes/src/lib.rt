//! Tests of the layers that know bytes alone: fields, names, sources and sinks, pages as they are looked at
//! and changed, rows of bits and dirty bytes. Each module has those of one crate.
#![tactic(auto)]

#[cfg(test)]
mod base;
#[cfg(test)]
mod bits;
#[cfg(test)]
mod pages;
#[cfg(test)]
mod segment;
#[cfg(test)]
mod slotted;
