// The log's front is cut off.
ghost use Rattle.std.specs.Prelude.{◌≡◌, ◌⊎◌, ◌≤◌, ◌<◌, ◌+◌, ◌^◌, ℕ, true, false, [], List, length, IfSome, OnOk, Some};
ghost use Rattle.sg_log.specs.Frames.{Numbered};
ghost use Rattle.sg_log.specs.Held.{tail_of};
ghost use Rattle.sg_ops.specs.Table.{Table};
ghost use Rattle.sg_pool.specs.Pooled.{IsUnwritten};
ghost use Rattle.sg_recovery.specs.Log.{tally};
ghost use Rattle.sg_action.specs.States.{State};
ghost use Rattle.sg_engine.specs.Engine.{Origin};
ghost use Rattle.sg_engine.specs.Running.{IsEngine, IsAllowed};
ghost use Rattle.sg_actions.specs.Cutting.{IsOldest};
ghost use Rattle.sg_checkpoints.specs.Cutting.{IsPoint, IsCut};
ghost use Rattle.sg_actions.specs.Engine.{EngineRests, EngineLooks, IsForced, Keeps, led};
ghost use Rattle.sg_phys_laws.specs.Reading.{durable_in};
ghost use Rattle.sg_phys_laws.specs.Recovers.{RecoversBy};
ghost use Rattle.sg_phys.specs.Phys.{IsSpent, first_end, last_in};
ghost use Rattle.sg_pages.specs.Parts.{seen, stands};

use crate::Phys;
use crate::phys::LogCut;
use sg_base::{Lsn, TxnId};
use sg_disk::Presumed;
use sg_space::SpaceFault;

// The earlier of the begin of this transaction and this checkpoint.
fn earlier(oldest: Option<TxnId>, checkpoint: Lsn) -> Lsn
    ensures marked { result ≤ checkpoint }
    ensures begun { IfSome oldest (λ u. result ≤ u.0) }
    ensures least { (oldest ≡ Some (record { 0 = result })) ⊎ (result ≡ checkpoint) }
{
    match oldest {
        Some(txn) => {
            if txn.0 < checkpoint {
                txn.0
            } else {
                checkpoint
            }
        }
        None => checkpoint,
    }
}

impl<D: Presumed> Phys<D> {
    // The least of the changes that aren't on the disk yet, the begin of this transaction and this checkpoint.
    fn cut_point(&self, oldest: Option<TxnId>, checkpoint: Lsn) -> Lsn
        ensures point { checkpoint ≤ tail_of self.now.engine.log → IsPoint (IsUnwritten self.now.engine.pool) oldest checkpoint result }
        ensures marked { result ≤ checkpoint }
        ensures begun { IfSome oldest (λ u. result ≤ u.0) }
        ensures allowed { (o : Origin) (ds ps : List Numbered) → IsEngine o (D.view self.now.engine.disk) self.now.engine.log ds ps self.now.engine.pool → IsAllowed o (D.view self.now.engine.disk) self.now.engine.log self.now.engine.pool result }
    {
        let begun = earlier(oldest, checkpoint);
        let redo = self.engine.redo_point();
        if redo < begun { redo } else { begun }
    }

    // Whether the log can be cut there: behind its first byte, in front of what isn't durable, and while the superblock can be renewed.
    fn can_cut(&self, point: Lsn) -> bool
        ensures above { result ≡ true → self.now.superblock.base < point }
        ensures newer { result ≡ true → self.now.superblock.sequence + 2 < 2 ^ 64 }
        ensures front { result ≡ true → self.now.engine.log.base ≤ point }
        ensures before { result ≡ true → point < self.now.engine.log.gate }
        ensures not { result ≡ false → ((point ≤ self.now.superblock.base) ⊎ IsSpent self.now.superblock) ⊎ ((point < self.now.engine.log.base) ⊎ (self.now.engine.log.gate ≤ point)) }
    {
        if point <= self.superblock.base {
            return false;
        }
        if self.superblock.sequence >= u64::MAX - 1 {
            return false;
        }
        if point < self.engine.base() {
            return false;
        }
        point < self.engine.durable()
    }

    // Cuts off the log's front where all records are durable and no action is open: the frames before the one that holds the least
    // of the changes that aren't on the disk yet, the begin of `oldest`, which is the transaction that goes on and began first, and
    // the last checkpoint. `Disk` comes where the count of faults rose. It has failed then.
    pub(crate) fn cut_front(&mut self, oldest: Option<TxnId>) -> Result<(), SpaceFault>
        requires whole { self.old.failed ≡ false }
        requires empty { length self.old.engine.log.buffer ≡ 0 }
        requires idle { (seen D.told D.presumed D.view self.old).Told → (tally (seen D.told D.presumed D.view self.old).steps).opened ≡ [] }
        requires oldest { (seen D.told D.presumed D.view self.old).Told → IsOldest oldest (tally (seen D.told D.presumed D.view self.old).steps).live }
        ensures rests { EngineRests (seen D.told D.presumed D.view self.old) (seen D.told D.presumed D.view self.new) result }
        ensures means { Keeps (stands D.told D.presumed D.view self.old) (stands D.told D.presumed D.view self.new) }
        ensures looks { (t : Table) (from : State) → stands D.told D.presumed D.view self.old t from → EngineLooks (RecoversBy t) t (led from (seen D.told D.presumed D.view self.old)) (led from (seen D.told D.presumed D.view self.new)) result }
        ensures forced { (t : Table) (from : State) → stands D.told D.presumed D.view self.old t from → OnOk result (IsForced (seen D.told D.presumed D.view self.new)) }
        ensures cuts { OnOk result ((seen D.told D.presumed D.view self.old).Told → IsCut (IsUnwritten self.old.engine.pool) oldest (last_in (D.view self.old.engine.disk) self.old.engine.log) (IsSpent self.old.superblock) self.old.superblock.base self.new.superblock.base (first_end self.new.superblock.base (durable_in (D.view self.new.engine.disk) self.new.engine.log))) }
    {
        let checkpoint = match self.checkpoint {
            Some(lsn) => lsn,
            None => return Ok(()),
        };
        let point = self.cut_point(oldest, checkpoint);
        if !self.can_cut(point) {
            return Ok(());
        }
        let before = self.engine.snapshot();
        let area = self.engine.area();
        let base = self.engine.base();
        let gate = self.engine.durable();
        match self.engine.cut(&self.superblock, point) {
            Ok(next) => {
                let cut = LogCut {
                    area,
                    base,
                    gate,
                    start: next.base,
                };
                self.cuts = self.cuts.and(&before, &cut);
                self.superblock = next;
                Ok(())
            }
            Err(_) => {
                self.failed = true;
                self.breaks = self.breaks.saturating_add(1);
                Err(SpaceFault::Disk)
            }
        }
    }
}
