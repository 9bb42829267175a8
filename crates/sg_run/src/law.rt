ghost use Rattle.sg_run.specs.Serial.{RunsAreSerial};
ghost use Rattle.sg_run.specs.Kept.{LogIsEnough};
ghost use Rattle.sg_run.specs.Noted.{UndoingLeavesOut};
ghost use Rattle.sg_run.specs.Numbers.{CallsAreSerial};
ghost use Rattle.sg_run.specs.Named.{NamedLinesAreSerial};

/// Tells a proof that every run is serial: after each list of lines, unless the store has stopped,
/// each entry of a committed transaction got the reply or the reason that it gets where the committed
/// transactions run one whole transaction after another in the order of their commits, and the objects
/// are those of the run without what aborted transactions did. It runs no code.
pub fn runs_are_serial()
    ensures { RunsAreSerial }
{}

/// Tells a proof that the changing operations which got a reply, of the first so many transactions in
/// the order of their commits, do again what these transactions did, each with a reply. It runs no code.
pub fn log_is_enough()
    ensures { LogIsEnough }
{}

/// Tells a proof that taking back what a live transaction has done, under each name the last change
/// first, leaves the objects as an abort of it leaves them. It runs no code.
pub fn undoing_leaves_out()
    ensures { UndoingLeavesOut }
{}

/// Tells a proof that every run of a store's calls by number is serial, as `runs_are_serial` says of lines:
/// whatever each call was answered, unless the store has stopped. It runs no code.
pub fn calls_are_serial()
    ensures { CallsAreSerial }
{}

/// Tells a proof the same of the lines of a script over pages, with a stock: each list of them leads to a
/// run that is serial, unless the store has stopped. It runs no code.
pub fn named_lines_are_serial()
    ensures { NamedLinesAreSerial }
{}
