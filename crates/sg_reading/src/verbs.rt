// What a verb leaves of a reading.
ghost use Rattle.sg_reading.specs.Claims.{VerbLeaves, VerbCanBeDone, VerbIsStep, VerbLooks, VerbIsRefused, ListLooks, VerbStaysFormed, VerbIsUndone, LineGoes};

use crate::Readable;

/// Tells a proof which readings may follow a verb: what it left under its name, where it was accepted,
/// and else the same; that its note, undone there, leaves no less than there was; and that a line whose
/// verb was granted its locks, and is noted, goes on in a running store. It runs no code.
pub fn verbs_lead_on<R: Readable>()
    ensures leaves { VerbLeaves R.pages }
    ensures possible { VerbCanBeDone R.pages }
    ensures looks { VerbLooks R.pages }
    ensures refused { VerbIsRefused R.pages }
    ensures list { ListLooks R.pages }
    ensures undone { VerbIsUndone R.pages }
    ensures line { LineGoes R.pages }
{}

/// Tells a proof that the objects of what a verb leaves are those that its step gives, and that what
/// undoing rests on (peaks at least the lengths, items of their size, limits) stays so. It runs no code.
pub fn verbs_are_steps()
    ensures step { VerbIsStep }
    ensures formed { VerbStaysFormed }
{}
