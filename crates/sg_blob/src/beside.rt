// How many bands a blob has, and what leaves it as it was.
ghost use Rattle.sg_blob.specs.Beside.{KeepsBound, StaysInPlace};

/// Says how many bands a blob has: as many as its greatest length wants.
pub fn keep_bound()
    ensures { KeepsBound }
{}

/// Says that a blob stands where its root says what it said and its bands hold what they held.
pub fn stay_in_place()
    ensures { StaysInPlace }
{}
