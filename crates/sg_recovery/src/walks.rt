// What a formed log says, and what walks back over it find.
ghost use Rattle.sg_recovery.specs.Claims.{FoldSaysTheSentence, ChainsHold, WalkFinds, WalkEnds, GreatestIsFound, TakeOffFindsAll, NothingIsOpen, TakesOffOne, OpenChangesAreLinked, GreatestGoes, NoneIsUndoneTwice, NotesAreBelow, LastOfOwn};

use crate::Ground;

/// Tells a proof which notes of a log stand, and that the walks of an undo find them: back from a
/// transaction's last border they come to its last standing note, or to none. The greatest note to
/// which they come is the greatest of all. It runs no code.
pub fn notes_are_found<G: Ground>()
    ensures sentence { FoldSaysTheSentence G.setting }
    ensures chains { ChainsHold G.setting }
    ensures finds { WalkFinds G.setting }
    ensures end { WalkEnds G.setting }
    ensures greatest { GreatestIsFound G.setting }
    ensures below { NotesAreBelow G.setting }
    ensures last { LastOfOwn G.setting }
{}

/// Tells a proof that a take-off finds all open changes of a formed log, from the last record of the
/// one transaction whose action has no end; that each of these names the one before it, so that a
/// take-off needs to keep no more than where it is; and that none is open where each action has an
/// end. It runs no code.
pub fn take_offs_find<G: Ground>()
    ensures all { TakeOffFindsAll G.setting }
    ensures none { NothingIsOpen G.setting }
    ensures one { TakesOffOne G.setting }
    ensures linked { OpenChangesAreLinked G.setting }
{}

/// Tells a proof that no note is undone twice, however often an opening is stopped. It runs no code.
pub fn nothing_is_undone_twice<G: Ground>()
    ensures gone { GreatestGoes G.setting }
    ensures other { NoneIsUndoneTwice G.setting }
{}
