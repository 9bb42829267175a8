// What performing comes to, on the objects that a space has.
ghost use Rattle.std.specs.Prelude.{◌≡◌, ℕ, List};
ghost use Rattle.sg_contents.specs.Meaning.{reading};
ghost use Rattle.sg_contents.specs.Standing.{Contents};
ghost use Rattle.sg_model.specs.Step.{step};
ghost use Rattle.sg_model.specs.Verb.{Outcome, Verb};
ghost use Rattle.sg_model.specs.Verb.Op.{On};
ghost use Rattle.sg_ops.specs.Table.{Table};
ghost use Rattle.sg_reading.specs.Reading.{objects};
ghost use Rattle.sg_space.specs.View.{Space};
ghost use Rattle.sg_objects.specs.Done.{IsDone};

/// A law: what `perform` says that it did to all that stands in pages and bands is the model's step on the objects that stand there: the outcome
/// is the step's, and what is left reads as the objects after it.
pub fn performing_is_a_step()
    ensures is_step { (t : Table) (by : ℕ) (name : List ℕ) (verb : Verb) (outcome : Outcome) (note : List ℕ) (old new : Space) (before after : Contents) → IsDone t by name verb outcome note old new before after
        → step t (objects (reading before)) (On name verb) ≡ (outcome, objects (reading after)) }
{}
