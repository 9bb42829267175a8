// What is done round calls on the objects: in a look no change is logged, and behind calls that failed nothing more is asked of
// the engine.
ghost use Rattle.std.specs.Prelude.{◌≡◌, Bool, true, false, OnOk, IfErr, IfNone, IfSome};
ghost use Rattle.sg_actions.specs.Acting.{CanChange};
ghost use Rattle.sg_shown.specs.Shown.{over};
ghost use Rattle.sg_verbs.specs.Looks.{IsSound, HasPaused, HasGoneOn, HasHeld, HasReleased, IsHeld, HasLost, IsGivenUp};

use sg_actions::{Acts, Engine};
use sg_space::SpaceFault;

/// Behind this byte of the log a record might pass its end.
const NEAR_END: u64 = 9_223_372_036_854_775_808 - 131_072;

/// What is so of every engine under a space. It does nothing.
pub fn sound<E: Engine>(acts: &Acts<E>)
    ensures { IsSound acts.now }
{}

// Whether the engine has failed for the disk.
fn has_lost<E: Engine>(acts: &Acts<E>) -> bool
    ensures yes { result ≡ true → HasLost (E.view acts.now.engine) }
    ensures no { result ≡ false → IsHeld (E.view acts.now.engine) }
{
    acts.has_failed() && !acts.is_full()
}

/// Behind calls on the objects that answered: why these count for nothing. Where the engine has failed for the
/// disk nothing more is asked of it.
pub fn settle<E: Engine>(acts: &mut Acts<E>) -> Option<SpaceFault>
    ensures sound { IsSound acts.old }
    ensures same { IfNone result (acts.new ≡ acts.old) }
    ensures held { IfNone result (IsHeld (E.view acts.old.engine)) }
    ensures given_up { IfSome result (λ f. IsGivenUp false false (over acts.old) (over acts.new) f) }
{
    sound(acts);
    if !has_lost(acts) {
        return None;
    }
    acts.stop();
    Some(acts.report())
}

/// Behind a call on the objects that failed: nothing more is asked of the engine. Why is said by what that
/// remembers: for the log's end, where calls may come to that.
pub fn give_up<E: Engine>(acts: &mut Acts<E>, ends: bool) -> SpaceFault
    ensures sound { IsSound acts.old }
    ensures given_up { IsGivenUp ends true (over acts.old) (over acts.new) result }
{
    sound(acts);
    let lost = has_lost(acts);
    let near = acts.tail() > NEAR_END;
    acts.stop();
    if ends && near && !lost {
        return SpaceFault::LogEnd;
    }
    acts.report()
}

/// Whoever acts pauses. Answers whether an action was begun.
pub fn pause<E: Engine>(acts: &mut Acts<E>) -> bool
    ensures sound { IsSound acts.old }
    ensures was { result ≡ acts.old.begun }
    ensures paused { HasPaused acts.old acts.new }
{
    sound(acts);
    acts.pause()
}

/// Whoever acted goes on, or nothing more is asked of the engine: behind a look that failed, or where the engine
/// has failed for the disk.
pub fn go_on<E: Engine>(acts: &mut Acts<E>, was: bool, failed: bool) -> Result<(), SpaceFault>
    requires on { CanChange (E.view acts.old.engine) was acts.old.actor }
    ensures sound { IsSound acts.old }
    ensures on { OnOk result (HasGoneOn was acts.old acts.new) }
    ensures held { OnOk result (IsHeld (E.view acts.old.engine)) }
    ensures done { OnOk result (failed ≡ false) }
    ensures given_up { IfErr result (λ f. IsGivenUp false failed (over acts.old) (over acts.new) f) }
{
    sound(acts);
    if failed {
        return Err(give_up(acts, false));
    }
    if let Some(fault) = settle(acts) {
        return Err(fault);
    }
    acts.go_on(was);
    Ok(())
}

/// Whoever acts pauses, unless something may be changed. Answers whether an action was begun that pauses.
pub fn hold<E: Engine>(acts: &mut Acts<E>, changes: bool) -> bool
    ensures sound { IsSound acts.old }
    ensures held { HasHeld changes result acts.old acts.new }
{
    if changes {
        sound(acts);
        return true;
    }
    pause(acts)
}

/// Whoever paused for this goes on.
pub fn release<E: Engine>(acts: &mut Acts<E>, changes: bool, was: bool)
    requires on { changes ≡ false → CanChange (E.view acts.old.engine) was acts.old.actor }
    ensures sound { IsSound acts.old }
    ensures released { HasReleased changes was acts.old acts.new }
{
    sound(acts);
    if !changes {
        acts.go_on(was);
    }
}
