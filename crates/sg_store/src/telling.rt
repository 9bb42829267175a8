// The objects of a store, told to a listener, and what they come to.
ghost use Rattle.std.specs.Prelude.{◌≡◌, ◌≤◌, ℕ, List, None, IfOk, OnOk, IfErr, length};
ghost use Rattle.sg_model.specs.Objects.{Objects as Model};
ghost use Rattle.sg_ops.specs.Table.{Table as Operations};
ghost use Rattle.sg_run.specs.Run.{Run};
ghost use Rattle.sg_store.specs.Calls.{Goes};
ghost use Rattle.sg_store.specs.Engine.{Keeps, AsMeant, AskedBy};
ghost use Rattle.sg_store.specs.Ground.{IsLawful};
ghost use Rattle.sg_store.specs.Rests.{Has};
ghost use Rattle.sg_store.specs.Stock.{LeavesStock};
ghost use Rattle.sg_store.specs.Store.{Shows};
ghost use Rattle.sg_store.specs.Told.{HearsOn, FailsBy, Tells as Telling, Writes, WritesLines, Checks, TellsFor, ChecksFor, HasToldAll, HasWritten, HasChecked};

use crate::engine::Tells;
use crate::fault::{CheckRefused, TellFault, Untold};
use crate::store::Store;
use sg_base::Sink;
use sg_lines::{Adder, Listener, Summary, Writer, parts_make_the_text, write_heading};
use sg_model::Stop;
use std::alloc::Global;

impl<E: Tells> Store<E> {
    ghost use Rattle.sg_store.specs.Heeds.{Heeds};
    ghost use Rattle.sg_store.specs.Seen.{core_of, Serves, IsServed};

    /// Tells a listener of the store's objects, in the order of their names, a part at a time, and gives how many there are. No
    /// transaction is live. No object is held, and nothing is written to the log.
    ///
    /// `Listener` where the listener fails, and `Memory` where memory is refused: then nothing has changed, and a listener that
    /// didn't fail has heard what nothing is said of. `DiskFault` and `Stopped` as everywhere.
    pub fn objects<L: Listener>(&mut self, alloc: Global, to: &mut L) -> Result<u64, Untold>
        requires serves { IsServed self.old }
        requires alone { length self.old.txns ≡ 0 }
        ensures serves { (t : Operations) → Serves t self.old → Serves t self.new }
        // all was heard, and the objects are as before
        ensures rests { (t : Operations) (live : List ℕ) (objects durable : Model) → Has t self.old live objects durable
            → IfOk result (λ n. AskedBy t (E.view self.new.engine) (HasToldAll L.ears to.old to.new n live objects durable (core_of self.new) t)) }
        ensures told { (E.view self.new.engine).Told → (E.view self.old.engine).Told }
        ensures means { Keeps (E.view self.old.engine) (E.view self.new.engine) }
        ensures tells { AsMeant (E.view self.old.engine) (E.view self.new.engine) (λ t g v w.
            (x : Run) → IsLawful t g → Shows t g v (core_of self.old) x
            → Goes t g v x (Telling L.ears to.old to.new t v.faults w.faults x result) w (core_of self.new)) }
        ensures stock { self.new.stop ≡ None → AsMeant (E.view self.old.engine) (E.view self.new.engine) (λ t g v w.
            (x : Run) → IsLawful t g → Shows t g v (core_of self.old) x → LeavesStock t g v w) }
        // on any engine
        ensures listener { HearsOn L.ears to.old to.new result }
        ensures causes { TellsFor (E.view self.old.engine) (E.view self.new.engine) (core_of self.old) (core_of self.new) result }
        ensures asks { IfErr result (λ e. e ≡ Untold.Stopped → self.new ≡ self.old) }
        ensures heeds { Heeds self.old.stop self.new.stop (E.view self.old.engine) (E.view self.new.engine) }
    {
        if self.stop.is_some() {
            return Err(Untold::Stopped);
        }
        match self.engine.tell(alloc, to) {
            Ok(count) => Ok(count),
            Err(TellFault::Memory) => Err(Untold::Memory),
            Err(TellFault::Listener) => Err(Untold::Listener),
            Err(TellFault::Disk) => {
                self.stop = Some(Stop::Disk);
                Err(Untold::DiskFault)
            }
        }
    }

    // Writes the lines of all objects, and gives how many there are.
    fn write_lines<K: Sink>(&mut self, alloc: Global, out: &mut K) -> Result<u64, Untold>
        requires serves { IsServed self.old }
        requires alone { length self.old.txns ≡ 0 }
        ensures serves { (t : Operations) → Serves t self.old → Serves t self.new }
        ensures told { (E.view self.new.engine).Told → (E.view self.old.engine).Told }
        ensures means { Keeps (E.view self.old.engine) (E.view self.new.engine) }
        ensures writes { AsMeant (E.view self.old.engine) (E.view self.new.engine) (λ t g v w.
            (x : Run) → IsLawful t g → Shows t g v (core_of self.old) x
            → Goes t g v x (WritesLines (K.taken out.old) (K.taken out.new) t v.faults w.faults x result) w (core_of self.new)) }
        ensures stock { self.new.stop ≡ None → AsMeant (E.view self.old.engine) (E.view self.new.engine) (λ t g v w.
            (x : Run) → IsLawful t g → Shows t g v (core_of self.old) x → LeavesStock t g v w) }
        // on any engine
        ensures later { K.faults out.old ≤ K.faults out.new }
        ensures counted { FailsBy (K.faults out.old) (K.faults out.new) result }
        ensures causes { TellsFor (E.view self.old.engine) (E.view self.new.engine) (core_of self.old) (core_of self.new) result }
        ensures heeds { Heeds self.old.stop self.new.stop (E.view self.old.engine) (E.view self.new.engine) }
    {
        let mut writer = Writer { sink: out };
        let told = self.objects(alloc, &mut writer);
        let Writer { sink: _ } = writer;
        told
    }

    /// Writes the text of the store's objects, in the order of their names, and then how many they are. No transaction is live, and no
    /// object is held.
    ///
    /// `Listener` where the sink fails, which then took a front of the text. All else as `objects`.
    pub fn write_text<K: Sink>(&mut self, alloc: Global, out: &mut K) -> Result<(), Untold>
        requires serves { IsServed self.old }
        requires alone { length self.old.txns ≡ 0 }
        ensures serves { (t : Operations) → Serves t self.old → Serves t self.new }
        // the sink took all of it, and the objects are as before
        ensures rests { (t : Operations) (live : List ℕ) (objects durable : Model) → Has t self.old live objects durable
            → OnOk result (AskedBy t (E.view self.new.engine) (HasWritten (K.taken out.old) (K.taken out.new) live objects durable (core_of self.new) t)) }
        ensures told { (E.view self.new.engine).Told → (E.view self.old.engine).Told }
        ensures means { Keeps (E.view self.old.engine) (E.view self.new.engine) }
        ensures writes { AsMeant (E.view self.old.engine) (E.view self.new.engine) (λ t g v w.
            (x : Run) → IsLawful t g → Shows t g v (core_of self.old) x
            → Goes t g v x (Writes (K.taken out.old) (K.taken out.new) t v.faults w.faults x result) w (core_of self.new)) }
        ensures stock { self.new.stop ≡ None → AsMeant (E.view self.old.engine) (E.view self.new.engine) (λ t g v w.
            (x : Run) → IsLawful t g → Shows t g v (core_of self.old) x → LeavesStock t g v w) }
        // on any engine
        ensures later { K.faults out.old ≤ K.faults out.new }
        ensures counted { FailsBy (K.faults out.old) (K.faults out.new) result }
        ensures causes { TellsFor (E.view self.old.engine) (E.view self.new.engine) (core_of self.old) (core_of self.new) result }
        ensures heeds { Heeds self.old.stop self.new.stop (E.view self.old.engine) (E.view self.new.engine) }
    {
        parts_make_the_text();
        let count = match self.write_lines(alloc, out) {
            Ok(count) => count,
            Err(why) => return Err(why),
        };
        match write_heading(b"objects", b"", None, count, out) {
            Ok(()) => Ok(()),
            Err(_) => Err(Untold::Listener),
        }
    }

    /// Reads all of the store's objects, and gives what they come to. No transaction is live. `Memory` where memory is refused: then nothing
    /// has changed.
    pub fn check(&mut self, alloc: Global) -> Result<Summary, CheckRefused>
        requires serves { IsServed self.old }
        requires alone { length self.old.txns ≡ 0 }
        ensures serves { (t : Operations) → Serves t self.old → Serves t self.new }
        // this is their summary, and the objects are as before
        ensures rests { (t : Operations) (live : List ℕ) (objects durable : Model) → Has t self.old live objects durable
            → IfOk result (λ s. AskedBy t (E.view self.new.engine) (HasChecked s live objects durable (core_of self.new) t)) }
        ensures told { (E.view self.new.engine).Told → (E.view self.old.engine).Told }
        ensures means { Keeps (E.view self.old.engine) (E.view self.new.engine) }
        ensures checks { AsMeant (E.view self.old.engine) (E.view self.new.engine) (λ t g v w.
            (x : Run) → IsLawful t g → Shows t g v (core_of self.old) x
            → Goes t g v x (Checks t v.faults w.faults x result) w (core_of self.new)) }
        ensures stock { self.new.stop ≡ None → AsMeant (E.view self.old.engine) (E.view self.new.engine) (λ t g v w.
            (x : Run) → IsLawful t g → Shows t g v (core_of self.old) x → LeavesStock t g v w) }
        // on any engine
        ensures causes { ChecksFor (E.view self.old.engine) (E.view self.new.engine) (core_of self.old) (core_of self.new) result }
        ensures asks { IfErr result (λ e. e ≡ CheckRefused.Stopped → self.new ≡ self.old) }
        ensures heeds { Heeds self.old.stop self.new.stop (E.view self.old.engine) (E.view self.new.engine) }
    {
        let mut adder = Adder::new();
        match self.objects(alloc, &mut adder) {
            Ok(_) => Ok(adder.summary),
            Err(Untold::DiskFault) => Err(CheckRefused::DiskFault),
            Err(Untold::Stopped) => Err(CheckRefused::Stopped),
            Err(Untold::Memory) => Err(CheckRefused::Memory),
            Err(Untold::Listener) => unreachable!("it never fails"),
        }
    }
}
