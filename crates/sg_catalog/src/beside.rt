// What leaves the catalogue as it was.
ghost use Rattle.sg_catalog.specs.Beside.{StaysInPlace};

/// Says that the catalogue stands where each of its pages says what it said.
pub fn stay_in_place()
    ensures { StaysInPlace }
{}
