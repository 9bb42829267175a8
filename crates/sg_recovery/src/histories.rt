// What a running store keeps at each front of its log.
ghost use Rattle.sg_recovery.specs.Claims.{RunningGoesOn, RunningKeeps, RunningCommits, RunningLooks, RunningForgets, RunningLocks, RunningReleases, RunningStands, RunStands, RunKeeps, FreshRuns};
ghost use Rattle.sg_recovery.specs.Claims.{LastCanBeUndone, LeftTwice, NobodyIsLeft, ReadingShows, MarksShow};

use crate::Ground;

/// Tells a proof that a store which keeps to its locks keeps, at each record, that any of its live
/// transactions can be undone from any point on, also where one of which no note stands gives its
/// locks back; and that each front of its log, down to the last commit, stands for what the
/// transactions that aren't live have done. It runs no code.
pub fn runs_keep<G: Ground>()
    ensures goes_on { RunningGoesOn G.setting }
    ensures same { RunningKeeps G.setting }
    ensures commits { RunningCommits G.setting }
    ensures looks { RunningLooks G.setting }
    ensures forgets { RunningForgets G.setting }
    ensures locks { RunningLocks G.setting }
    ensures releases { RunningReleases G.setting }
    ensures stands { RunningStands G.setting }
    ensures fronts { RunStands G.setting }
    ensures run { RunKeeps G.setting }
    ensures fresh { FreshRuns G.setting }
{}

/// Tells a proof what going back leaves: to a mark, to a transaction's begin, or one action back. It
/// runs no code.
pub fn histories_go_back<G: Ground>()
    ensures last { LastCanBeUndone G.setting }
    ensures twice { LeftTwice G.setting }
    ensures nobody { NobodyIsLeft G.setting }
    ensures reading { ReadingShows G.setting }
    ensures marks { MarksShow G.setting }
{}
