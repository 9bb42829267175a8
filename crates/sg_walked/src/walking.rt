ghost use Rattle.std.specs.Prelude.{◌≡◌, ◌+◌, ◌≤◌, true, OnOk, IfErr};
ghost use Rattle.sg_base.specs.Ends.{HasRisen};
ghost use Rattle.sg_alloc.specs.Flags.{map_bands_of};
ghost use Rattle.sg_contents.specs.Standing.{Contents};
ghost use Rattle.sg_ops.specs.Table.{Table};
ghost use Rattle.sg_reach.specs.Fault.{IfBroken, IsReached};
ghost use Rattle.sg_reader.specs.Alike.{ReadsAs};
ghost use Rattle.sg_space.specs.declared.space.SpaceFault.TheVariants.{Disk, LogEnd};
ghost use Rattle.sg_reach.specs.declared.fault.ReachFault.TheVariants.{Space};
ghost use Rattle.sg_unread.specs.Unread.{IsReadable, LooksOn};
ghost use Rattle.sg_walked.specs.Walked.{AllSay, AreFirst, IsWalked};

use sg_actions::Engine;
use sg_alloc::Maps;
use sg_reach::ReachFault;
use sg_unread::UnreadSpace;
use sg_walk::reach_objects;

/// An engine over whose pages a walk has gone, and how it ended.
pub struct Walked<E> {
    pub engine: E,
    /// How often a look passed the last page or band, or what was read couldn't be.
    pub breaks: u64,
    pub found: Result<(), ReachFault>,
}

/// Goes over all that the objects in an engine's pages reach, of which there are so many, and sets it among what is
/// taken: page 0 and the map's bands are set already. It takes no memory.
///
/// `Broken` comes only where the pages and bands read as no contents, with a page that was reached: one that is
/// wrong, names what can't be set, or has a name or a key twice. A page that says nothing is gone over as a blank one:
/// they read as contents behind an Ok where each page that is taken says something, and else as none. Where they read
/// as contents it fails only where the engine has.
pub fn walk<E: Engine>(engine: E, pages: u32, bands: u32, into: &mut Maps) -> Walked<E>
    requires first { AreFirst pages bands into.old }
    requires map { map_bands_of pages bands ≤ bands }
    requires few { pages ≤ 1048576 }
    ensures looks { (t : Table) → LooksOn E.recovers t (E.view engine) (E.view result.engine) (E.means engine) (E.means result.engine) }
    ensures tells { OnOk result.found ((E.view engine).Told → (E.view result.engine).Told) }
    ensures quiet { OnOk result.found ((E.view result.engine).faults + result.breaks ≡ (E.view engine).faults) }
    ensures disk { IfErr result.found (λ e. e ≡ Space Disk → HasRisen (E.view engine).faults ((E.view result.engine).faults + result.breaks)) }
    ensures no_end { IfErr result.found (λ e. e ≡ Space LogEnd → ⊥) }
    ensures failed { IfErr result.found (λ e. e ≡ Space Disk → IsReadable (E.view engine) pages bands → (E.view result.engine).failed ≡ true) }
    ensures walked { OnOk result.found ((E.view engine).Told → AllSay pages (E.view engine).now into.new.pages → IsWalked pages bands (E.view engine).now into.new) }
    ensures say { OnOk result.found ((E.view engine).Told → (s : Contents) → ReadsAs pages bands (E.view engine).now s → AllSay pages (E.view engine).now into.new.pages) }
    ensures broken { IfErr result.found (IfBroken ((E.view engine).Told → (s : Contents) → ReadsAs pages bands (E.view engine).now s → ⊥)) }
    ensures place { IfErr result.found (IsReached (E.view engine).Told into.new.pages) }
{
    let mut space = UnreadSpace::new(engine, pages, bands);
    let found = reach_objects(&mut space, into);
    let (engine, breaks) = space.into_parts();
    Walked {
        engine,
        breaks,
        found,
    }
}
