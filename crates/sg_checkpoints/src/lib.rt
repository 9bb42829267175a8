//! Where a checkpoint has redo begin, and that it is the last record of a log and of each image that a crash leaves of it:
//! definitions, over any log and any images. And where a log begins once its front is cut off. It has no code that runs, and
//! stands on `sg_disk` for what a crash leaves.
//!
//! An engine under the actions promises them of its calls, and so do the actions over it and a store over these.
#![tactic(auto)]
