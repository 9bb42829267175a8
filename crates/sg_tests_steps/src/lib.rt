//! Users of each structure over a space of which so many calls may be made. The space keeps, from call to call, what a log
//! would: which way each page went, how many records were written, whether anything was changed, which band was written,
//! and by which operations its records are read. Each user asks of its caller what one knows who has read the pages and
//! hasn't begun to change any, and promises what the space says: whether the call succeeds, or fails at whatever step.
//!
//! The space grants more slots than one over logged pages does (`MayHave` of `steps_view`): 1,018 to every page, and not as many as
//! the page's kind has for its limit (`limit` of `sg_contents`). That the limits suffice for arrays, tables, blobs and the catalogue
//! is shown in `sg_objects/proofs/Fresh.antt`.
#![tactic(auto)]

pub mod arrays;
pub mod blobs;
pub mod buckets;
pub mod catalogue;
pub mod lists;
mod steps;
pub mod tables;

pub use steps::StepSpace;
