ghost use Rattle.sg_before.specs.Laws.{KeptBandsComeBack, TakenBandsAreZero, FoundIsWithin, BlobComesBack, ForgottenIsFreed};

/// Tells a proof what stands in bands once the bytes that an action's changes found are put back, the last first: bands that
/// were taken before the action have their bytes again, those that it took hold zeros, and so a blob has the bytes that it
/// had. It runs no code.
pub fn bytes_come_back()
    ensures kept { KeptBandsComeBack }
    ensures taken { TakenBandsAreZero }
    ensures within { FoundIsWithin }
    ensures blob { BlobComesBack }
{}

/// Tells a proof that a tombstone that is forgotten frees what it stood for in a reading, and that nothing else changes. It
/// runs no code.
pub fn forgotten_is_freed()
    ensures { ForgottenIsFreed }
{}
