ghost use Rattle.sg_commands.specs.Done.{DoneTellsAll};
ghost use Rattle.sg_commands.specs.Stores.{grounds, says};

/// Tells a proof what status `Done` tells of a run: the whole script was executed, the sink took all replies,
/// and a crash leaves what stands for the objects after all commits. It runs no code.
pub fn done_tells_all()
    ensures { DoneTellsAll grounds says }
{}
