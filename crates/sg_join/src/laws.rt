// What a store keeps of its log and its run.
ghost use Rattle.sg_join.specs.Claims.{KeepingGoes, KeepingCommits, KeepingForces, KeepingLooks, KeepingForgets, KeepingLocks, KeepingReleases, KeepingUndoes, LastIsUndone, LastIsFree};
ghost use Rattle.sg_join.specs.Claims.{ObjectsAreSame, KeptAreCommitted, DoingIsSame, EndingIsSame, AbortingIsSame};

use crate::Joined;
use sg_recovery::Ground;

/// Tells a proof that a store keeps what it has to keep of its log: at each record that is appended, a
/// commit with all of the log durable behind it; where a verb only looks; where a transaction goes back,
/// takes locks or, once none of its notes stands, gives them back; and where more of the log becomes
/// durable. It runs no code.
pub fn stores_keep<G: Ground>()
    ensures goes { KeepingGoes G.setting }
    ensures commits { KeepingCommits G.setting }
    ensures looks { KeepingLooks G.setting }
    ensures forgets { KeepingForgets G.setting }
    ensures locks { KeepingLocks G.setting }
    ensures releases { KeepingReleases G.setting }
    ensures forces { KeepingForces G.setting }
{}

/// Tells a proof that the last note of a live transaction can be undone now, whatever notes of others
/// came later, that a page is free for it where it wants one, and that the store keeps what it has to
/// keep once it has been undone. It runs no code.
pub fn notes_go_back<G: Ground>()
    ensures last { LastIsUndone G.setting }
    ensures free { LastIsFree G.setting }
    ensures undone { KeepingUndoes G.setting }
{}

/// Tells a proof that the history of a log and that of a run are one: what the pages read as is what
/// the run's transactions have made; what is left without the live ones is what the committed ones
/// give, one whole one after another; and each line leaves the two the same. It runs no code.
pub fn histories_are_one<J: Joined>()
    ensures objects { ObjectsAreSame J.joint }
    ensures committed { KeptAreCommitted J.joint }
    ensures does { DoingIsSame J.joint }
    ensures ends { EndingIsSame J.joint }
    ensures aborts { AbortingIsSame J.joint }
{}
