// The page engine under the actions.
ghost use Rattle.std.specs.Prelude.{◌≡◌, ◌≤◌, ◌+◌, true, false, max};
ghost use Rattle.sg_log.specs.Held.{tail_of};
ghost use Rattle.sg_gate.specs.Superblock.{IsSuper};
ghost use Rattle.sg_phys.specs.Phys.{IsGiven, StandsForSome, past_of, gone_by, settled};

use sg_base::{Area, Lsn};
use sg_disk::Presumed;
use sg_engine::Engine;
use sg_gate::Super;
use sg_history::History;
use std::alloc::Global;
use std::snapshot::Snapshot;

// A cut of the log: where it stood, up to where it was durable, and which number it begins with since.
#[derive(Clone, Copy)]
pub struct LogCut {
    pub(crate) area: Area,
    pub(crate) base: Lsn,
    pub(crate) gate: Lsn,
    pub(crate) start: Lsn,
}

/// A log of page records, and the pages and bands that its records make, over a disk.
///
/// What it holds is known where the disk tells and what is presumed of it holds; it is safe, and accounts for
/// its faults, whether or not it does. A call that fails is its last one of the disk: each later one fails too. No type names the
/// operations: what its records and contents are, by which operations, the clauses of its calls say. It
/// isn't `Drop`; `into_disk` ends it.
pub struct Phys<D: Presumed> {
    pub(crate) engine: Engine<D>,
    pub(crate) alloc: Global,
    pub(crate) failed: bool,
    // The first call that failed was refused for the log's end.
    pub(crate) full: bool,
    // The log's tail before the call that failed, and 1 where that is 0: no record has the number 0.
    pub(crate) end: Lsn,
    // Where what is durable of the log ended before the call that failed.
    pub(crate) gate: Lsn,
    // The number of the record that was appended last, or was to be.
    pub(crate) tried: Lsn,
    // How often a call failed.
    pub(crate) breaks: u64,
    // How many records were appended.
    pub(crate) records: u64,
    // The disk as it was when the store was opened. It has no bytes.
    pub(crate) found: Snapshot<D>,
    // The superblock that counts now.
    pub(crate) superblock: Super,
    // The number of the log's last checkpoint.
    pub(crate) checkpoint: Option<Lsn>,
    // The disk before each cut of the log, and what the cut was. It has no bytes.
    pub(crate) cuts: History<Snapshot<D>, LogCut>,
    ghost ends: { failed ≡ false → end ≡ max (tail_of engine.log) 1 },
    ghost gates: { failed ≡ false → gate ≡ engine.log.gate },
    // What waits to be durable is a frame at most.
    ghost waits: { end ≤ gate + 65541 },
    ghost ended: { full ≡ true → failed ≡ true },
    ghost unbroken: { failed ≡ false → breaks ≡ 0 },
    // Each record has a byte.
    ghost counted: { records ≤ end },
    ghost ranged: { IsSuper superblock },
    ghost some: { StandsForSome (IsGiven D.told D.presumed) failed (past_of (D.view found.value) superblock (gone_by cuts.items (λ e. D.view e.value) (λ c. settled c.area c.base c.gate) (λ c. c.start)) checkpoint) (D.view engine.disk) engine.log engine.pool },
}
