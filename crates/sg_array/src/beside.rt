// Arrays side by side, and how many pages one has.
ghost use Rattle.sg_array.specs.Beside.{StandApart, KeepsBound};

/// Says that arrays side by side stay apart: what makes an array, changes one or frees one leaves each other
/// one as it was, and no page is of both.
pub fn stand_apart()
    ensures { StandApart }
{}

/// Says how many pages an array has: those that its size and its peak want, and at most two more after one item
/// more.
pub fn keep_bound()
    ensures { KeepsBound }
{}
