// What each kind of record does to what a log stands for.
ghost use Rattle.sg_recovery.specs.Claims.{BeginKeeps, SaveKeeps, ChangeKeeps, ExactReverts, TopEndKeeps, SystemKeeps, PhysCompKeeps, TopVoidKeeps, CompEndKeeps, EndKeeps, CommitLeaves};
ghost use Rattle.sg_recovery.specs.Claims.{ChangePages, TopEndPages, CompEndPages, PhysCompPages, TopVoidPages, EndPages, CommitPages};
ghost use Rattle.sg_recovery.specs.Claims.{AlikeReverts, TakesNone, TakesMore, TakesLess, TakesReads, TakesReverts};

use crate::{Ground, Likeness};

/// Tells a proof what a record that is appended does to what the log stands for: each kind but a
/// commit keeps the objects, and a commit leaves those that the notes of the others give. It runs no
/// code.
pub fn records_keep<G: Ground>()
    ensures begin { BeginKeeps G.setting }
    ensures save { SaveKeeps G.setting }
    ensures change { ChangeKeeps G.setting }
    ensures exact { ExactReverts G.setting }
    ensures top_end { TopEndKeeps G.setting }
    ensures system { SystemKeeps G.setting }
    ensures phys_comp { PhysCompKeeps G.setting }
    ensures top_void { TopVoidKeeps G.setting }
    ensures comp_end { CompEndKeeps G.setting }
    ensures end { EndKeeps G.setting }
    ensures commit { CommitLeaves G.setting }
{}

/// Tells a proof that as many pages stay free as the standing notes may take. It runs no code.
pub fn pages_last<G: Ground>()
    ensures change { ChangePages G.setting }
    ensures top_end { TopEndPages G.setting }
    ensures comp_end { CompEndPages G.setting }
    ensures phys_comp { PhysCompPages G.setting }
    ensures top_void { TopVoidPages G.setting }
    ensures end { EndPages G.setting }
    ensures commit { CommitPages G.setting }
{}

/// Tells a proof of any action, with what can't be told apart in it, that it is taken off to pages
/// that can't be told from those at its begin, where each inverse fits and gives back pages alike to
/// those before its change; and that what is read is then what was read at the begin. It runs no
/// code.
pub fn actions_are_taken_off<G: Likeness>()
    ensures reverts { (action : G.pages.Action) → AlikeReverts G.pages.setting (G.pages.alike action) }
    ensures none { (action : G.pages.Action) → TakesNone G.pages.setting (G.pages.alike action) }
    ensures more { (action : G.pages.Action) → TakesMore G.pages.setting (G.pages.alike action) }
    ensures less { (action : G.pages.Action) → TakesLess G.pages.setting (G.pages.alike action) }
    ensures reads { (action : G.pages.Action) → TakesReads G.pages.setting (G.pages.alike action) }
    ensures each { (action : G.pages.Action) → TakesReverts G.pages.setting (G.pages.alike action) }
{}
