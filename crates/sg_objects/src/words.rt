// The keys of a table, and the names of all objects.
ghost use Rattle.std.specs.Prelude.{IsOk, ◌≡◌, IfOk, OnOk, ⊤, IfErr};
ghost use Rattle.std.specs.FinMap.{get, keys};
ghost use Rattle.sg_ops.specs.Table.{Table as Operations};
ghost use Rattle.sg_model.specs.Step.{on};
ghost use Rattle.sg_model.specs.Verb.Verb.{Keys};
ghost use Rattle.sg_reading.specs.Reading.{objects, plain};
ghost use Rattle.sg_space.specs.Listing.{CountsList, WritesNoneList};
ghost use Rattle.sg_space.specs.View.{OnlyReads};
ghost use Rattle.sg_contents.specs.Meaning.{reading};
ghost use Rattle.sg_contents.specs.Standing.{HasContents, IfContents};
ghost use Rattle.sg_objects.specs.Listed.{said_keys};

use crate::find::root_of;
use sg_base::Name;
use sg_bucket::Bytes;
use sg_catalog::ObjectKind;
use sg_model::Reason;
use sg_space::{ListFault, PageSpace};
use std::alloc::Global;

/// The keys of a table, in the order of their bytes. `Memory` where memory is refused.
pub fn keys<P: PageSpace>(
    space: &mut P,
    name: Name,
    alloc: Global,
) -> Result<Result<Vec<Bytes>, Reason>, ListFault>
    requires { HasContents (P.view space.old) (λ _. ⊤) }
    ensures counts { CountsList (P.view space.old) (P.view space.new) result }
    ensures kept { OnOk result (OnlyReads (P.view space.old) (P.view space.new)) }
    ensures memory { IfErr result (λ e. e ≡ ListFault.Memory → OnlyReads (P.view space.old) (P.view space.new)) }
    ensures quiet { IfErr result (λ e. e ≡ ListFault.Memory → (P.view space.new).faults ≡ (P.view space.old).faults) }
    ensures read { IfOk result (λ r. IfContents (P.view space.old) (λ s. (t : Operations) → (on t Keys (plain (get (reading s).things name))).0 ≡ said_keys r)) }
    ensures lacks { IfErr result (λ e. e ≡ ListFault.Memory → IfContents (P.view space.old) (λ s. (t : Operations) → IsOk (on t Keys (plain (get (reading s).things name))).0)) }
    ensures later { (t : Operations) → P.later t space.old space.new }
    ensures means { (t : Operations) → P.means space.old t → P.means space.new t }
    ensures writes { WritesNoneList (P.view space.old) (P.view space.new) result }
{
    match root_of(space, name, ObjectKind::Table)? {
        Err(reason) => Ok(Err(reason)),
        Ok(root) => {
            let all = sg_hash::keys(space, root, alloc)?;
            Ok(Ok(all))
        }
    }
}

/// The names of all objects, in the order of their bytes. `Memory` where memory is refused.
pub fn list<P: PageSpace>(space: &mut P, alloc: Global) -> Result<Vec<Name>, ListFault>
    requires { HasContents (P.view space.old) (λ _. ⊤) }
    ensures counts { CountsList (P.view space.old) (P.view space.new) result }
    ensures kept { OnOk result (OnlyReads (P.view space.old) (P.view space.new)) }
    ensures memory { IfErr result (λ e. e ≡ ListFault.Memory → OnlyReads (P.view space.old) (P.view space.new)) }
    ensures quiet { IfErr result (λ e. e ≡ ListFault.Memory → (P.view space.new).faults ≡ (P.view space.old).faults) }
    ensures read { IfOk result (λ v. IfContents (P.view space.old) (λ s. v.items ≡ keys (objects (reading s)))) }
    ensures later { (t : Operations) → P.later t space.old space.new }
    ensures means { (t : Operations) → P.means space.old t → P.means space.new t }
    ensures writes { WritesNoneList (P.view space.old) (P.view space.new) result }
{
    let all = sg_catalog::names(space, alloc)?;
    Ok(all)
}
