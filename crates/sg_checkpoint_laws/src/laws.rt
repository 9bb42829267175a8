ghost use Rattle.std.specs.Prelude.{◌≤◌, ℕ, Bool, List, length, take, IsPermutation};
ghost use Rattle.sg_alloc.specs.declared.maps.Maps.{Maps};
ghost use Rattle.sg_action.specs.States.{State};
ghost use Rattle.sg_actions.specs.Calls.{IsAtRest};
ghost use Rattle.sg_actions.specs.Steps.{Steps};
ghost use Rattle.sg_actions.specs.View.{IsActing};
ghost use Rattle.sg_actions.specs.declared.rows.Actor.{Actor};
ghost use Rattle.sg_actions.specs.declared.rows.Row.{Row};
ghost use Rattle.sg_ops.specs.Table.{Table};
ghost use Rattle.sg_checkpoint_laws.specs.Listed.{ListsGoing};

/// A law: where no action is open and there are no more rows than a checkpoint names, these rows, in whatever order, list each
/// transaction that goes on with its last record, and any other that they list has committed. What is asked of the log and the rows
/// is what a space over an engine keeps from call to call (`IsKept` of `sg_actions`).
pub fn checkpoints_list_who_goes_on()
    ensures { (t : Table) (limits : State → ℕ → ℕ) (base tail : ℕ) (first : State) (rs : Steps) (pages bands : List Bool) (unfreed : Maps) (rows ordered : List Row) (actor : Actor) →
        IsActing t limits base first rs tail pages bands rows actor → IsAtRest rs unfreed actor → length rows ≤ 64 → IsPermutation (take 64 rows) ordered → ListsGoing rs ordered }
{}
