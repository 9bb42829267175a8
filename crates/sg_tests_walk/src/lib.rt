//! Tests of the walk over all that objects reach, over a space in memory that tells nothing: what it sets where pages and bands
//! read as objects, and which page it names where a page or a band is damaged.
#![tactic(auto)]

#[cfg(test)]
mod damages;
#[cfg(test)]
mod trial;
#[cfg(test)]
mod whole;
