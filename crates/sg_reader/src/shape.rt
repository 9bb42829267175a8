// What undoing rests on.
ghost use Rattle.sg_reader.specs.Claims.{SlotsAreFormed, TombsAreFormed};

/// Tells a proof that what contents mean is formed: lengths within peaks, items, keys and values within
/// their limits, of objects and of tombstones, and no object at the root of a tombstone of its name. It
/// runs no code.
pub fn readings_are_formed()
    ensures slots { SlotsAreFormed }
    ensures tombs { TombsAreFormed }
{}
