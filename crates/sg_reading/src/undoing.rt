// What the undoing of a note leaves of a reading.
ghost use Rattle.sg_reading.specs.Claims.{NoteLeaves, NoteIsUndone, NoteCanBeUndone, NoteOnlyWhere, NoteStaysFormed, NoteKeepsAround, NoteKeepsOthers, NoteIsPlain, VerbIsTakenBack};

use crate::Readable;

/// Tells a proof what the undoing of a note owes to the log, by what it left under its name or by what
/// it shows in each cell. It runs no code.
pub fn notes_lead_back<R: Readable>()
    ensures leaves { NoteLeaves R.pages }
    ensures undone { NoteIsUndone R.pages }
{}

/// Tells a proof where exactly a note can be undone, and what its undoing leaves alone: root, peak and
/// bands of the object, the catalogue's peak, and all that stands under other names. It runs no code.
pub fn notes_are_possible()
    ensures possible { NoteCanBeUndone }
    ensures only { NoteOnlyWhere }
    ensures formed { NoteStaysFormed }
    ensures around { NoteKeepsAround }
    ensures others { NoteKeepsOthers }
{}

/// Tells a proof that undoing a note does to the objects what a note over plain objects does, and that
/// this one, where a verb left it, gives what there was before the verb. It runs no code.
pub fn notes_are_plain()
    ensures objects { NoteIsPlain }
    ensures verb { VerbIsTakenBack }
{}
