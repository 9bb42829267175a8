// The keys of a table, and the names of all objects.
ghost use Rattle.std.specs.Prelude.{◌≡◌, IfErr};
ghost use Rattle.sg_store.specs.Engine.{Keeps, AsMeant, Asked, IsEngine, Rests, Counts, IsListDisk, IsListRead};
ghost use Rattle.sg_store.specs.Verbs.{Reads, CanLook, HasKeys, HasNames};
ghost use Rattle.sg_shown.specs.Shown.{shown};
ghost use Rattle.sg_verbs.specs.Looks.{is_list_failed};

use crate::pausing::{go_on, pause};
use sg_actions::{Acts, Engine};
use sg_base::Name;
use sg_bucket::Bytes;
use sg_model::Reason;
use sg_space::ListFault;
use std::alloc::Global;

// Whether a list failed for the space. Where memory is refused all is as before.
fn has_failed<T>(listed: &Result<T, ListFault>) -> bool
    ensures { result ≡ is_list_failed listed.now }
{
    matches!(listed, Err(ListFault::Space(_)))
}

/// The keys of a table, in the order of their bytes, or why there are none. `Memory` where memory is
/// refused: then nothing has changed, and with enough there would be keys.
pub fn keys<E: Engine>(
    acts: &mut Acts<E>,
    alloc: Global,
    name: Name,
) -> Result<Result<Vec<Bytes>, Reason>, ListFault>
    requires can { Asked (shown acts.old) CanLook }
    ensures counts { Counts IsListDisk (shown acts.old) (shown acts.new) result }
    ensures means { Keeps (shown acts.old) (shown acts.new) }
    ensures tail { (shown acts.new).tail ≡ (shown acts.old).tail }
    ensures lists { AsMeant (shown acts.old) (shown acts.new) (λ t g v w. (o : g.O)
        → IsEngine t g v → Reads t g v o → Rests t g v w × HasKeys t g v w o name result) }
    ensures memory { IfErr result (λ e. e ≡ ListFault.Memory → (shown acts.old).Told → (shown acts.new).Told) }
    ensures quiet { IfErr result (λ e. e ≡ ListFault.Memory → (shown acts.new).faults ≡ (shown acts.old).faults) }
    ensures reads { IfErr result IsListRead }
{
    let was = pause(acts);
    let listed = sg_objects::keys(acts, name, alloc);
    match go_on(acts, was, has_failed(&listed)) {
        Ok(()) => listed,
        Err(fault) => Err(ListFault::Space(fault)),
    }
}

/// The names of all objects, in the order of their bytes. `Memory` where memory is refused: then nothing
/// has changed.
pub fn list<E: Engine>(acts: &mut Acts<E>, alloc: Global) -> Result<Vec<Name>, ListFault>
    requires can { Asked (shown acts.old) CanLook }
    ensures counts { Counts IsListDisk (shown acts.old) (shown acts.new) result }
    ensures means { Keeps (shown acts.old) (shown acts.new) }
    ensures tail { (shown acts.new).tail ≡ (shown acts.old).tail }
    ensures lists { AsMeant (shown acts.old) (shown acts.new) (λ t g v w. (o : g.O)
        → IsEngine t g v → Reads t g v o → Rests t g v w × HasNames t g v w o result) }
    ensures memory { IfErr result (λ e. e ≡ ListFault.Memory → (shown acts.old).Told → (shown acts.new).Told) }
    ensures quiet { IfErr result (λ e. e ≡ ListFault.Memory → (shown acts.new).faults ≡ (shown acts.old).faults) }
    ensures reads { IfErr result IsListRead }
{
    let was = pause(acts);
    let listed = sg_objects::list(acts, alloc);
    match go_on(acts, was, has_failed(&listed)) {
        Ok(()) => listed,
        Err(fault) => Err(ListFault::Space(fault)),
    }
}
