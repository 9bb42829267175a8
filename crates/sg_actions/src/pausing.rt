// An action that is paused, so that nothing is logged, and one that is given up.
ghost use Rattle.std.specs.Prelude.{◌≡◌, true, false};
ghost use Rattle.sg_actions.specs.Engine.{Keeps};

use crate::{Acts, Engine};
use std::snapshot::Snapshot;

impl<E: Engine> Acts<E> {
    ghost use Rattle.sg_actions.specs.Acting.{CanChange};

    /// Its engine is asked nothing more: what was done last went wrong.
    pub fn stop(&mut self)
        ensures silent { (E.view self.new.engine).Told → ⊥ }
        ensures stopped { (E.view self.new.engine).failed ≡ true }
        ensures full { (E.view self.new.engine).full ≡ (E.view self.old.engine).full }
        ensures disk { (E.view self.new.engine).disk ≡ (E.view self.old.engine).disk }
        ensures gate { (E.view self.new.engine).gate ≡ (E.view self.old.engine).gate }
        ensures base { (E.view self.new.engine).base ≡ (E.view self.old.engine).base }
        ensures tail { (E.view self.new.engine).tail ≡ (E.view self.old.engine).tail }
        ensures faults { (E.view self.new.engine).faults ≡ (E.view self.old.engine).faults }
        ensures records { (E.view self.new.engine).records ≡ (E.view self.old.engine).records }
        ensures means { Keeps (E.means self.old.engine) (E.means self.new.engine) }
        ensures maps { self.new.maps ≡ self.old.maps }
        ensures unfreed { self.new.unfreed ≡ self.old.unfreed }
        ensures rows { self.new.rows ≡ self.old.rows }
        ensures actor { self.new.actor ≡ self.old.actor }
        ensures begun { self.new.begun ≡ self.old.begun }
        ensures breaks { self.new.breaks ≡ self.old.breaks }
        ensures begun_at { self.new.begun_at ≡ self.old.begun_at }
    {
        self.engine.stop();
    }

    /// Whether a call of its engine failed.
    pub fn has_failed(&self) -> bool
        ensures { result ≡ (E.view self.now.engine).failed }
    {
        self.engine.has_failed()
    }

    /// Whether the first call that failed was refused for the log's end.
    pub fn is_full(&self) -> bool
        ensures { result ≡ (E.view self.now.engine).full }
    {
        self.engine.is_full()
    }

    /// Whoever acts pauses: until it goes on no change is logged, and one that is asked for is refused as at
    /// the log's end. Answers whether an action was begun.
    pub fn pause(&mut self) -> bool
        ensures was { result ≡ self.old.begun }
        ensures goes_on { CanChange (E.view self.old.engine) self.old.begun self.old.actor }
        ensures begun { self.new.begun ≡ false }
        ensures engine { self.new.engine ≡ self.old.engine }
        ensures maps { self.new.maps ≡ self.old.maps }
        ensures unfreed { self.new.unfreed ≡ self.old.unfreed }
        ensures rows { self.new.rows ≡ self.old.rows }
        ensures actor { self.new.actor ≡ self.old.actor }
        ensures breaks { self.new.breaks ≡ self.old.breaks }
        ensures begun_at { self.new.begun_at ≡ self.old.begun_at }
    {
        let was = self.begun;
        self.begun = false;
        was
    }

    /// It goes on, if an action was begun that has changed nothing.
    pub fn go_on(&mut self, was: bool)
        requires { CanChange (E.view self.old.engine) was self.old.actor }
        ensures begun { self.new.begun ≡ was }
        ensures engine { self.new.engine ≡ self.old.engine }
        ensures maps { self.new.maps ≡ self.old.maps }
        ensures unfreed { self.new.unfreed ≡ self.old.unfreed }
        ensures rows { self.new.rows ≡ self.old.rows }
        ensures actor { self.new.actor ≡ self.old.actor }
        ensures breaks { self.new.breaks ≡ self.old.breaks }
        ensures begun_at { self.new.begun_at.value ≡ self.old.engine }
    {
        self.begun = was;
        self.begun_at = Snapshot::of(&self.engine);
    }
}
