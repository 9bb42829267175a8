// The objects, told to a listener.
ghost use Rattle.std.specs.Prelude.{◌≡◌, IfErr};
ghost use Rattle.sg_store.specs.Engine.{Keeps, AsMeant, Asked, IsEngine, Rests, Counts};
ghost use Rattle.sg_store.specs.Telling.{IsTellDisk, IsUntoldQuietly, CountsListener, HasTold};
ghost use Rattle.sg_store.specs.Verbs.{Reads, CanLook};
ghost use Rattle.sg_shown.specs.Shown.{shown};
ghost use Rattle.sg_verbs.specs.Telling.{is_tell_failed, told_as};

use crate::pausing::{go_on, pause};
use sg_actions::{Acts, Engine};
use sg_lines::Listener;
use sg_listing::TellFault as ListingFault;
use sg_store::TellFault;
use std::alloc::Global;

// Whether a telling failed for the space. Where memory is refused or the listener fails all is as before.
fn has_failed(told: &Result<u64, ListingFault>) -> bool
    ensures { result ≡ is_tell_failed told.now }
{
    matches!(told, Err(ListingFault::Space(_)))
}

// How it ended, as a store is told it.
fn as_told(told: Result<u64, ListingFault>) -> Result<u64, TellFault>
    ensures { result ≡ told_as told }
{
    match told {
        Ok(count) => Ok(count),
        Err(ListingFault::Space(_)) => Err(TellFault::Disk),
        Err(ListingFault::Memory) => Err(TellFault::Memory),
        Err(ListingFault::Listener) => Err(TellFault::Listener),
    }
}

/// Tells a listener of all objects, in the order of their names, a part at a time, and gives how many there are. Where memory is
/// refused or the listener fails nothing has changed.
pub fn tell<E: Engine, L: Listener>(
    acts: &mut Acts<E>,
    alloc: Global,
    to: &mut L,
) -> Result<u64, TellFault>
    requires can { Asked (shown acts.old) CanLook }
    ensures counts { Counts IsTellDisk (shown acts.old) (shown acts.new) result }
    ensures means { Keeps (shown acts.old) (shown acts.new) }
    ensures tail { (shown acts.new).tail ≡ (shown acts.old).tail }
    ensures tells { AsMeant (shown acts.old) (shown acts.new) (λ t g v w. (o : g.O)
        → IsEngine t g v → Reads t g v o → Rests t g v w × HasTold L.ears to.old to.new t g v w o result) }
    ensures quiet { IfErr result (IsUntoldQuietly (shown acts.old) (shown acts.new)) }
    ensures listener { CountsListener L.ears to.old to.new result }
{
    let was = pause(acts);
    let told = sg_listing::tell(acts, alloc, to);
    match go_on(acts, was, has_failed(&told)) {
        Ok(()) => as_told(told),
        Err(_) => Err(TellFault::Disk),
    }
}
