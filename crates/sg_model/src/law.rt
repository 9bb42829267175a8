ghost use Rattle.sg_model.specs.Laws.{KeepsToTouches, StepsAreUndoable};

/// Tells a proof the law of touches: an operation changes only what its touches write, and its
/// answer, its changes and its touches follow from what it touches. It runs no code.
pub fn steps_keep_to_touches()
    ensures { KeepsToTouches }
{}

/// Tells a proof the law of undo: what is noted of an operation beside its answer follows from what
/// it touches, too, and takes back what the operation did, where that was done last. It runs no code.
pub fn steps_are_undoable()
    ensures { StepsAreUndoable }
{}
