// A band that is taken is filled with zeros.
use crate::painting::spell_op;
use crate::spelling::is_number;
use crate::{Acts, Engine};
use sg_base::{BandNo, Lsn};
use sg_record::Rec;
use sg_space::SpaceFault;

impl<E: Engine> Acts<E> {
    ghost use Rattle.std.specs.Prelude.{◌≡◌, ◌<◌, ◌≤◌, true, IfOk};
    ghost use Rattle.sg_record.specs.Changes.Change.{SegOp};
    ghost use Rattle.sg_record.specs.Ranges.{IsRecord};
    ghost use Rattle.sg_record.specs.Records.Says.{Changed};
    ghost use Rattle.sg_record.specs.Shown.{by};
    ghost use Rattle.sg_ops.specs.Table.{Table};
    ghost use Rattle.sg_action.specs.States.{State};
    ghost use Rattle.sg_actions.specs.Engine.{EngineGrows, Logs, Keeps, led};
    ghost use Rattle.sg_actions.specs.Painting.{fill_with};

    // Fills 8,192 bytes of a band with zeros, and keeps none of those that stood there.
    pub(crate) fn fill(&mut self, b: BandNo, at: u32) -> Result<Lsn, SpaceFault>
        requires begun { self.old.begun ≡ true }
        requires band { b.0 < 65536 }
        requires within { at ≤ 24576 }
        requires there { (E.view self.old.engine).Told → b.0 < (E.view self.old.engine).extent.bands }
        ensures range { IsRecord (by self.old.actor.txn.0 self.old.actor.last (Changed (SegOp (fill_with b.0 at)))) }
        ensures grows { EngineGrows (E.view self.old.engine) (E.view self.new.engine) (by self.old.actor.txn.0 self.old.actor.last (Changed (SegOp (fill_with b.0 at)))) result }
        ensures means { Keeps (E.means self.old.engine) (E.means self.new.engine) }
        ensures logs { (t : Table) (from : State) → E.means self.old.engine t from → Logs (E.recovers t) t (led from (E.view self.old.engine)) (led from (E.view self.new.engine)) (by self.old.actor.txn.0 self.old.actor.last (Changed (SegOp (fill_with b.0 at)))) result }
        ensures actor { IfOk result (λ lsn. self.new.actor ≡ record { txn = self.old.actor.txn; last = lsn; before = self.old.actor.before }) }
        ensures maps { self.new.maps ≡ self.old.maps }
        ensures unfreed { self.new.unfreed ≡ self.old.unfreed }
        ensures rows { self.new.rows.items ≡ self.old.rows.items }
        ensures begun { self.new.begun ≡ self.old.begun }
        ensures begun_at { self.new.begun_at ≡ self.old.begun_at }
        ensures breaks { self.new.breaks ≡ self.old.breaks }
    {
        is_number(self.actor.txn.0);
        is_number(self.actor.last);
        let record = Rec::SegOp {
            txn: self.actor.txn,
            prev: self.actor.last,
            change: spell_op(b, at, 8_192, 1, 0, &[], &[]),
        };
        let lsn = self.engine.log(&record)?;
        self.actor.last = lsn;
        Ok(lsn)
    }
}
