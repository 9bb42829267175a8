ghost use Rattle.sg_reading.specs.Model.{Ground};

/// Pages and bands with their changes, and what they read as. A caller's proof picks them.
pub trait Readable {
    ghost pages: { Ground };
}
