// What the records of a log are.
ghost use Rattle.std.specs.Prelude.{◌≡◌, ℕ, List};
ghost use Rattle.sg_disk.specs.Disk.{Bytes, View};
ghost use Rattle.sg_log.specs.Frames.{HasRecords, Numbered};
ghost use Rattle.sg_log.specs.Held.{Holds, Tail};
ghost use Rattle.sg_log.specs.Reading.{durable_in, frames_read, waiting_in};

/// Tells a proof that the records of an area are a function of its bytes, and those that a log holds
/// one of its disk's bytes and its buffer: what is read of them, frame by frame and record by record.
/// It runs no code.
pub fn records_are_read()
    ensures area { (f : Bytes) (base gate : ℕ) (ns : List Numbered) → HasRecords f base gate ns → frames_read gate f base 0 ≡ ns }
    ensures held { (v : View) (log : Tail) (ds ps : List Numbered) → Holds v log ds ps → (durable_in v log ≡ ds) × (waiting_in log ≡ ps) }
{}
