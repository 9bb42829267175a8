ghost use Rattle.sg_recovery.specs.Claims.{OpeningKeeps, OpeningPages, OpeningStands, OpenedReads};

use crate::Ground;

/// Tells a proof that the steps of an opening, behind the repeating of history, keep what the log
/// stands for at every front, so that an opening which was stopped is opened again to the same; and
/// that once nothing is open and no transaction goes on, the pages read as that. It runs no code.
pub fn openings_keep<G: Ground>()
    ensures step { OpeningKeeps G.setting }
    ensures pages { OpeningPages G.setting }
    ensures fronts { OpeningStands G.setting }
    ensures reads { OpenedReads G.setting }
{}
