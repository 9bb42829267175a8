ghost use Rattle.sg_actions.specs.Notes.{NextIsFirst, GivesAsPut};

/// Tells a proof that the note to which an undo comes is the first of the transaction's notes that stand,
/// and that the bytes which come back are those that the inverses of its action's changes give. It runs
/// no code.
pub fn undos_come_to_notes()
    ensures next { NextIsFirst }
    ensures bytes { GivesAsPut }
{}
