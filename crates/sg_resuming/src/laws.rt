// From a take-off and a walk to an opening's steps.
ghost use Rattle.sg_resuming.specs.Resuming.{OffsOpen, OffsLead, WalksRead, WalksFree, NoneIsRead};

use sg_ground::Grounded;

/// A law: the steps that a take-off appends are those of an opening; and once no change is open, the pages are what
/// those before were with the open changes taken off, so that they read as the same.
pub fn offs_are_openings<G: Grounded>()
    ensures opens { OffsOpen G.basis }
    ensures lead { OffsLead G.basis }
{}

/// A law: pages over which a walk has gone read as what it found, which is all that they read as; as many are free as
/// that leaves; and pages that it found broken read as nothing.
pub fn walks_tell<G: Grounded>()
    ensures read { WalksRead G.basis }
    ensures free { WalksFree G.basis }
    ensures none { NoneIsRead G.basis }
{}
