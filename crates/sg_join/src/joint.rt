ghost use Rattle.sg_join.specs.Joint.{Joint};

/// A log's pages, readings and notes, and the steps of a run, of which each verb of the log is one. A
/// caller's proof picks them.
pub trait Joined {
    ghost joint: { Joint };
}
