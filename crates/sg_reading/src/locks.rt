// What the lock table grants, in the terms of a log's laws.
ghost use Rattle.sg_reading.specs.Claims.{FreeIsGranted, HoldsMore, HoldsTouches, TombIsFreed, TombIsApart};

use crate::Readable;

/// Tells a proof that a verb for whose touches the lock table finds no other holder is clear of what
/// the others hold; what is held then; and that the freeing of a tombstone changes its own cell alone,
/// which nobody else holds while its dropper has all of the name. It runs no code.
pub fn locks_keep_apart<R: Readable>()
    ensures granted { FreeIsGranted R.pages }
    ensures more { HoldsMore R.pages }
    ensures within { HoldsTouches R.pages }
    ensures freed { TombIsFreed R.pages }
    ensures apart { TombIsApart R.pages }
{}
