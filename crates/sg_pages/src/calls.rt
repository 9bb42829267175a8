// What the engine under the actions has beside the trait's calls.
ghost use Rattle.std.specs.Prelude.{◌≡◌, ◌≤◌, ◌<◌, ◌*◌, ◌/◌, ℕ, false, [], length, IfOk, OnOk};
ghost use Rattle.sg_ops.specs.Laws.{IsLawful};
ghost use Rattle.sg_ops.specs.Table.{Table};
ghost use Rattle.sg_action.specs.States.{State};
ghost use Rattle.sg_pool.specs.Pooled.{IsUnwritten};
ghost use Rattle.sg_record.specs.Records.{spelled};
ghost use Rattle.sg_record.specs.Records.Says.{Checkpoint};
ghost use Rattle.sg_record.specs.Shown.{by};
ghost use Rattle.sg_checkpoints.specs.Checkpoints.{Estimates, Marks};
ghost use Rattle.sg_actions.specs.Engine.{EngineGrows, EngineLooks, Keeps, led};
ghost use Rattle.sg_actions.specs.Handing.{HandsOver};
ghost use Rattle.sg_engine.specs.Calls.{WaitsFrame};
ghost use Rattle.sg_gate.specs.Superblock.{IsSuper};
ghost use Rattle.sg_phys.specs.Phys.{IsGiven, StandsForSome, past_of};
ghost use Rattle.sg_pages.specs.Marks.{LogEnds, LogNames};
ghost use Rattle.sg_pages.specs.Parts.{seen, stands};
ghost use Rattle.sg_phys_laws.specs.Recovers.{RecoversBy};
ghost use Rattle.sg_phys_laws.specs.Waiting.{waiting_of};

use crate::Phys;
use sg_base::Lsn;
use sg_disk::Presumed;
use sg_engine::Engine;
use sg_gate::Super;
use sg_history::History;
use sg_phys::{is_log_end, space_fault};
use sg_phys_laws::log_plain;
use sg_record::Rec;
use sg_space::SpaceFault;
use std::alloc::Global;
use std::snapshot::Snapshot;

impl<D: Presumed> Phys<D> {
    /// Over an engine, with its disk as it was when the store was opened, its superblock and the number of the last checkpoint
    /// of its log. It takes no memory.
    pub fn new(
        alloc: Global,
        engine: Engine<D>,
        found: Snapshot<D>,
        superblock: Super,
        checkpoint: Option<Lsn>,
    ) -> Phys<D>
        requires waits { WaitsFrame engine.log }
        requires range { IsSuper superblock }
        requires some { StandsForSome (IsGiven D.told D.presumed) false (past_of (D.view found.value) superblock [] checkpoint) (D.view engine.disk) engine.log engine.pool }
        ensures engine { result.engine ≡ engine }
        ensures found { result.found ≡ found }
        ensures superblock { result.superblock ≡ superblock }
        ensures checkpoint { result.checkpoint ≡ checkpoint }
        ensures uncut { result.cuts.items ≡ [] }
        ensures whole { (result.failed ≡ false) × (result.full ≡ false) }
        ensures fresh { (result.breaks ≡ 0) × (result.records ≡ 0) }
    {
        let end = engine.tail().max(1);
        let gate = engine.durable();
        Phys {
            engine,
            alloc,
            failed: false,
            full: false,
            end,
            gate,
            tried: 0,
            breaks: 0,
            records: 0,
            found,
            superblock,
            checkpoint,
            cuts: History::new(),
        }
    }

    /// Gives its memory back, and hands back the disk. Records that weren't forced are lost.
    pub fn into_disk(self) -> D
        ensures { result ≡ self.engine.disk }
    {
        let Phys {
            engine,
            alloc: _,
            failed: _,
            full: _,
            end: _,
            gate: _,
            tried: _,
            breaks: _,
            records: _,
            found: _,
            superblock: _,
            checkpoint: _,
            cuts: _,
        } = self;
        engine.into_disk()
    }

    // Where a checkpoint with this number has redo begin: at the oldest change that isn't on the disk, or
    // at itself where there is none.
    fn redo_from(&self, lsn: Lsn) -> Lsn
        ensures { (seen D.told D.presumed D.view self.now).Told → Estimates (IsUnwritten self.now.engine.pool) lsn result }
    {
        let point = self.engine.redo_point();
        let end = self.engine.tail();
        if point == end { lsn } else { point }
    }

    // Appends a checkpoint, which says where history has to be repeated from, with these live
    // transactions: 16 bytes each, of at most 64. It isn't durable before the next force.
    //
    // `Disk` comes where the count of faults rose, and `LogEnd` near the log's end. It has failed then.
    pub(crate) fn log_checkpoint(&mut self, live: &[u8]) -> Result<Lsn, SpaceFault>
        requires most { length live.now ≤ 1024 }
        requires rows { length live.now ≡ 16 * (length live.now / 16) }
        ensures grows { EngineGrows (seen D.told D.presumed D.view self.old) (seen D.told D.presumed D.view self.new) (by 0 0 (Checkpoint 0 live.now)) result }
        ensures hands { HandsOver (length (spelled (by 0 0 (Checkpoint 0 live.now)))) (D.view self.old.engine.disk).handed (waiting_of self.old.engine.log) (D.view self.new.engine.disk).handed (waiting_of self.new.engine.log) result }
        ensures marks { IfOk result (λ lsn. (seen D.told D.presumed D.view self.old).Told → Marks (IsUnwritten self.old.engine.pool) (LogEnds (D.view self.new.engine.disk) self.new.engine.log) lsn) }
        ensures names { OnOk result ((seen D.told D.presumed D.view self.old).Told → LogNames (D.view self.new.engine.disk) self.new.engine.log live.now) }
        ensures means { Keeps (stands D.told D.presumed D.view self.old) (stands D.told D.presumed D.view self.new) }
        ensures looks { (t : Table) (from : State) → stands D.told D.presumed D.view self.old t from → EngineLooks (RecoversBy t) t (led from (seen D.told D.presumed D.view self.old)) (led from (seen D.told D.presumed D.view self.new)) result }
    {
        if self.failed {
            self.breaks = self.breaks.saturating_add(1);
            return Err(SpaceFault::Disk);
        }
        let at = self.engine.place(&Rec::Checkpoint { estimate: 0, live });
        let estimate = self.redo_from(at);
        if at < estimate {
            self.failed = true;
            self.breaks = self.breaks.saturating_add(1);
            return Err(SpaceFault::Disk);
        }
        let record = Rec::Checkpoint { estimate, live };
        match log_plain(&mut self.engine, &record, &mut self.tried) {
            Ok(lsn) => {
                self.end = self.engine.tail().max(1);
                self.gate = self.engine.durable();
                self.records += 1;
                self.checkpoint = Some(self.tried);
                Ok(lsn)
            }
            Err(fault) => {
                self.failed = true;
                self.full = is_log_end(fault);
                self.breaks = self.breaks.saturating_add(1);
                Err(space_fault(fault))
            }
        }
    }
}
