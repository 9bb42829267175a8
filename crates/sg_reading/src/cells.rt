// What verbs and notes have to do with the cells of a reading.
ghost use Rattle.sg_reading.specs.Claims.{KeepsToCells, ChangesPlaces, ShowsObjects, ShowsCells};

use crate::Readable;

/// Tells a proof that every verb and the undoing of every note keep to the cells that they touch, over
/// any pages; and that so all that a log asks of them holds: a note of one transaction is undone behind
/// what others did in other cells as it is before that. It runs no code.
pub fn readings_are_lawful<R: Readable>()
    ensures cells { KeepsToCells R.pages }
    ensures places { ChangesPlaces R.pages }
{}

/// Tells a proof that the objects of a reading are what it has under each name, and what it shows in
/// each cell. It runs no code.
pub fn readings_show_objects()
    ensures names { ShowsObjects }
    ensures cells { ShowsCells }
{}
