// The walk over all that an engine's pages reach.
ghost use Rattle.std.specs.Prelude.{◌≡◌, ◌<◌, ◌≤◌, ℕ, true, length, OnOk, IfErr};
ghost use Rattle.sg_alloc.specs.Flags.{map_bands_of};
ghost use Rattle.sg_contents.specs.Standing.{Contents};
ghost use Rattle.sg_ops.specs.Table.{Table};
ghost use Rattle.sg_action.specs.States.{State};
ghost use Rattle.sg_reach.specs.Fault.{IfBroken};
ghost use Rattle.sg_reach.specs.declared.fault.ReachFault.TheVariants.{Space};
ghost use Rattle.sg_reader.specs.Alike.{ReadsAs};
ghost use Rattle.sg_space.specs.declared.space.SpaceFault.TheVariants.{Disk};
ghost use Rattle.sg_unread.specs.Unread.{LooksOn};
ghost use Rattle.sg_walked.specs.Walked.{AreFirst, IsWalked};
ghost use Rattle.sg_found.specs.Looks.{AreBytes, LacksSome};
ghost use Rattle.sg_resumed.specs.Walking.{Ends, HasWalked, IsSpace};

use sg_actions::Engine;
use sg_alloc::Maps;
use sg_base::PageNo;
use sg_found::look_at_pages;
use sg_reach::ReachFault;
use sg_space::SpaceFault;
use sg_walked::{Walked, walk};

// Looks at each page that a walk took. `Broken` where one says nothing.
fn look_behind<E: Engine>(engine: &mut E, maps: &Maps, count: u32) -> Result<(), ReachFault>
    ensures looks { (t : Table) → LooksOn E.recovers t (E.view engine.old) (E.view engine.new) (E.means engine.old) (E.means engine.new) }
    ensures tells { OnOk result ((E.view engine.old).Told → (E.view engine.new).Told) }
    ensures quiet { OnOk result ((E.view engine.new).faults ≡ (E.view engine.old).faults) }
    ensures bytes { (t : Table) (from : State) → E.means engine.old t from →
        OnOk result ((E.view engine.old).Told → AreBytes maps.now.pages count (E.view engine.old).now) }
    ensures lacks { (t : Table) (from : State) → E.means engine.old t from →
        IfErr result (IfBroken ((E.view engine.old).Told → LacksSome maps.now.pages count (E.view engine.old).now)) }
    ensures failed { IfErr result (λ e. IsSpace e → (E.view engine.new).failed ≡ true) }
{
    match look_at_pages(engine, maps, count) {
        Ok(true) => Ok(()),
        Ok(false) => Err(ReachFault::Broken(PageNo(0))),
        Err(fault) => Err(ReachFault::Space(fault)),
    }
}

// How a walk ends: by the disk where the engine has failed, and else by what it found.
fn ended<E: Engine>(engine: E, found: Result<(), ReachFault>) -> Walked<E>
    ensures engine { result.engine ≡ engine }
    ensures ends { Ends (E.view engine) found result.breaks result.found }
{
    if engine.has_failed() {
        return Walked {
            engine,
            breaks: 1,
            found: Err(ReachFault::Space(SpaceFault::Disk)),
        };
    }
    let found = match found {
        Ok(()) => Ok(()),
        Err(ReachFault::Space(_)) => Err(ReachFault::Broken(PageNo(0))),
        Err(ReachFault::Broken(p)) => Err(ReachFault::Broken(p)),
    };
    Walked {
        engine,
        breaks: 0,
        found,
    }
}

/// Goes over all that the objects in an engine's pages reach, and sets it among what is taken: page 0 and
/// the map's bands are set already. Each page that is taken is looked at behind that. It fails by the disk only where the
/// engine has failed; where that hasn't, and the walk finds no objects, it answers `Broken`.
pub fn go_over<E: Engine>(engine: E, pages: u32, bands: u32, into: &mut Maps) -> Walked<E>
    requires first { AreFirst pages bands into.old }
    requires map { map_bands_of pages bands ≤ bands }
    requires few { pages ≤ 1048576 }
    ensures walked { HasWalked E.recovers (E.view engine) (E.view result.engine) 0 result.breaks (E.means engine) (E.means result.engine) result.found }
    ensures taken { OnOk result.found ((E.view engine).Told → IsWalked pages bands (E.view engine).now into.new) }
    ensures bytes { (t : Table) (from : State) → E.means engine t from →
        OnOk result.found ((E.view engine).Told → AreBytes into.new.pages pages (E.view engine).now) }
    ensures broken { IfErr result.found (IfBroken ((E.view engine).Told → (s : Contents) → ReadsAs pages bands (E.view engine).now s → ⊥)) }
{
    let Walked {
        engine,
        breaks: _,
        found,
    } = walk(engine, pages, bands, into);
    let mut engine = engine;
    match found {
        Ok(()) => {
            let looked = look_behind(&mut engine, into, pages);
            ended(engine, looked)
        }
        Err(fault) => ended(engine, Err(fault)),
    }
}
