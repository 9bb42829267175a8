// How the engine's records are read above it.
ghost use Rattle.std.specs.Prelude.{◌≡◌, ◌++◌, ◌∷◌, [], ℕ, List};
ghost use Rattle.sg_disk.specs.Disk.{Image, View};
ghost use Rattle.sg_log.specs.Frames.{Numbered};
ghost use Rattle.sg_log.specs.Held.{Tail, Holds};
ghost use Rattle.sg_ops.specs.Table.{Table};
ghost use Rattle.sg_pool.specs.declared.pool.Pool.{Pool};
ghost use Rattle.sg_action.specs.States.{State};
ghost use Rattle.sg_engine.specs.Effects.{IsBy};
ghost use Rattle.sg_engine.specs.Engine.{Origin};
ghost use Rattle.sg_engine.specs.Running.{IsEngine, IsAllowed};
ghost use Rattle.sg_actions.specs.Steps.{Steps, repeated};
ghost use Rattle.sg_recovery.specs.Formed.{IsLog};
ghost use Rattle.sg_phys_laws.specs.Formed.{AreFormed};
ghost use Rattle.sg_phys_laws.specs.Known.{IsEnough, AllEnough};
ghost use Rattle.sg_phys_laws.specs.Poised.{IsPoised, AreSaid};
ghost use Rattle.sg_phys_laws.specs.Points.{redo_point, AreMarked};
ghost use Rattle.sg_phys_laws.specs.Reading.{durable_in, waiting_in};
ghost use Rattle.sg_phys_laws.specs.Recovers.{Recovers, RecoversBy, StandsOwn, extent_by, super_in};
ghost use Rattle.sg_phys_laws.specs.States.{AllAgree, IsNext, steps_of};
ghost use Rattle.sg_phys_laws.specs.Whole.{IsWholeImageOf};

/// A law: what more records make of pages and bands, without the pages' numbers, is what their steps
/// make of what these said. It holds without a record more, and with one more whose change may be made.
pub fn records_are_steps()
    ensures none { (t : Table) (o : Origin) (ds : List Numbered) → AllAgree t o ds ds }
    ensures more { (t : Table) (o : Origin) (ds ps : List Numbered) (x : Numbered) → IsBy t o → IsNext t o (ds ++ ps) x → AllAgree t o ds (ds ++ ps) → AllAgree t o ds ((ds ++ ps) ++ x ∷ []) }
{}

/// A law: the records that a log holds are those that its bytes read as, so they are a function of the
/// disk and the log.
pub fn records_are_read()
    ensures { (v : View) (log : Tail) (ds ps : List Numbered) → Holds v log ds ps → (durable_in v log ≡ ds) × (waiting_in log ≡ ps) }
{}

/// A law: an image that stands from its own redo point holds a front of the steps with all that were
/// durable, which is a formed log for which enough operations are registered where each such front is, and its pages
/// and bands come to what these make.
pub fn images_recover()
    ensures { (t : Table) (from : State) (o : Origin) (ds all : List Numbered) (c : Image) → IsBy t o → AllAgree t o ds all → AreSaid t from o ds → AreFormed o.super.base ds all → AllEnough t o.super.base ds all → StandsOwn o ds all c
        → IsWholeImageOf (Recovers t o) t from (steps_of ds) (steps_of all) c }
{}

/// A law: an image holds one list of steps, and comes to one state.
pub fn recovers_one()
    ensures { (t : Table) (o : Origin) (c : Image) (l m : Steps) (x y : State) → Recovers t o c l x → Recovers t o c m y → (l ≡ m) × (x ≡ y) }
{}

/// A law: steps change no number of pages or bands, and what an image comes to has as many of each as its
/// superblock says.
pub fn sizes_stay()
    ensures steps { (t : Table) (x : State) (rs : Steps) → (repeated t x rs).size ≡ x.size }
    ensures images { (t : Table) (c : Image) (log : Steps) (x : State) → RecoversBy t c log x → x.size ≡ extent_by (super_in c) }
{}

/// A law: an engine that was opened, or made, can be the engine under the actions: what its records made
/// of the home area that was read is what their steps make of what the store first said, these are a
/// formed log for which enough operations are registered, and its redo point is allowed.
pub fn opened_is_poised()
    ensures { (t : Table) (from : State) (o : Origin) (v : View) (log : Tail) (rs : List Numbered) (pool : Pool) → IsEngine o v log rs [] pool → AreSaid t from o rs → ∥ IsLog o.super.base (steps_of rs) ∥₁ → IsEnough t o.super.base rs → AreMarked (λ k. Unit {0}) rs
        → IsAllowed o v log pool (redo_point o.super.base rs) → IsPoised t from o v log pool }
{}
