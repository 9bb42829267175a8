// The keys of a table and the names of all objects, listed for a transaction.
ghost use Rattle.std.specs.Prelude.{◌≡◌, ◌≤◌, ℕ, List, true, None, IfOk, IfErr, OnOk, IsTrue};
ghost use Rattle.sg_core.specs.Live.{is_live};
ghost use Rattle.sg_model.specs.Objects.{Objects as Model};
ghost use Rattle.sg_model.specs.Verb.Op.{On, Names};
ghost use Rattle.sg_model.specs.Verb.Reply.{Several};
ghost use Rattle.sg_model.specs.Verb.Verb.{Keys};
ghost use Rattle.sg_ops.specs.Table.{Table as Operations};
ghost use Rattle.sg_run.specs.Run.{Run};
ghost use Rattle.sg_serial.specs.Runs as serial;
ghost use Rattle.sg_store.specs.Asks.{IsRunning};
ghost use Rattle.sg_store.specs.Causes.{AsksNothing, HoldsFor, ListsFor};
ghost use Rattle.sg_store.specs.Calls.{Goes, Holds, Lists as Listing, SameRoom, Stays};
ghost use Rattle.sg_store.specs.Engine.{Keeps, AsMeant, Asked, AskedBy};
ghost use Rattle.sg_store.specs.Ground.{IsLawful};
ghost use Rattle.sg_store.specs.Rests.{Has, HasDone};
ghost use Rattle.sg_store.specs.Stock.{LeavesStock};
ghost use Rattle.sg_store.specs.Store.{Shows, IsKept};

use crate::engine::Lists;
use crate::fault::Refused;
use crate::store::Store;
use sg_base::{Name, TxnId};
use sg_bucket::Bytes;
use sg_model::{Resource, Touch};
use sg_space::ListFault;
use std::alloc::Global;

impl<E: Lists> Store<E> {
    ghost use Rattle.sg_store.specs.Heeds.{Heeds};
    ghost use Rattle.sg_store.specs.Seen.{core_of, Serves, IsServed};

    // The transaction, which is live, holds what the list of a table's keys touches from now on, unless
    // another one is in the way or too much would be held.
    fn hold_keys(&mut self, txn: TxnId, name: Name) -> Result<(), Refused>
        requires live { IsTrue (is_live self.old.txns txn.0) }
        requires can { Asked (E.view self.old.engine) (IsRunning self.old.txns) }
        ensures means { Keeps (E.view self.old.engine) (E.view self.new.engine) }
        ensures told { (E.view self.new.engine).Told → (E.view self.old.engine).Told }
        ensures tells { OnOk result ((E.view self.old.engine).Told → (E.view self.new.engine).Told) }
        ensures stays { AsMeant (E.view self.old.engine) (E.view self.new.engine) (λ t g v w.
            (x : Run) → IsLawful t g → IsKept t g v self.old.txns x → Stays t g v w x) }
        ensures holds { AsMeant (E.view self.old.engine) (E.view self.new.engine) (λ t g v w.
            (x : Run) → IsLawful t g → IsKept t g v self.old.txns x
            → self.old.locks ≡ x.so_far.held → serial.is_live x.so_far.live txn.0 ≡ true
            → Holds t g v w (core_of self.old) (core_of self.new) x txn.0 (On name Keys) result) }
        ensures same { self.new.stop ≡ None → AsMeant (E.view self.old.engine) (E.view self.new.engine) (λ t g v w.
            (x : Run) → IsLawful t g → IsKept t g v self.old.txns x → SameRoom t g v w) }
        ensures later { (E.view self.old.engine).faults ≤ (E.view self.new.engine).faults }
        ensures live { self.new.txns ≡ self.old.txns }
        ensures causes { HoldsFor txn.0 (E.view self.old.engine) (E.view self.new.engine) (core_of self.old) (core_of self.new) result }
        ensures heeds { self.old.stop ≡ None → Heeds self.old.stop self.new.stop (E.view self.old.engine) (E.view self.new.engine) }
    {
        match self.engine.touches_keys(name, &mut self.touches) {
            Ok(()) => self.grant(txn),
            Err(fault) => Err(self.halt(fault)),
        }
    }

    // It holds which objects there are.
    fn hold_names(&mut self, txn: TxnId) -> Result<(), Refused>
        requires live { IsTrue (is_live self.old.txns txn.0) }
        ensures means { Keeps (E.view self.old.engine) (E.view self.new.engine) }
        ensures told { (E.view self.new.engine).Told → (E.view self.old.engine).Told }
        ensures tells { OnOk result ((E.view self.old.engine).Told → (E.view self.new.engine).Told) }
        ensures stays { AsMeant (E.view self.old.engine) (E.view self.new.engine) (λ t g v w.
            (x : Run) → IsLawful t g → IsKept t g v self.old.txns x → Stays t g v w x) }
        ensures holds { AsMeant (E.view self.old.engine) (E.view self.new.engine) (λ t g v w.
            (x : Run) → IsLawful t g → IsKept t g v self.old.txns x
            → self.old.locks ≡ x.so_far.held → serial.is_live x.so_far.live txn.0 ≡ true
            → Holds t g v w (core_of self.old) (core_of self.new) x txn.0 Names result) }
        ensures same { self.new.stop ≡ None → AsMeant (E.view self.old.engine) (E.view self.new.engine) (λ t g v w.
            (x : Run) → IsLawful t g → IsKept t g v self.old.txns x → SameRoom t g v w) }
        ensures later { (E.view self.old.engine).faults ≤ (E.view self.new.engine).faults }
        ensures live { self.new.txns ≡ self.old.txns }
        ensures causes { HoldsFor txn.0 (E.view self.old.engine) (E.view self.new.engine) (core_of self.old) (core_of self.new) result }
        ensures heeds { Heeds self.old.stop self.new.stop (E.view self.old.engine) (E.view self.new.engine) }
    {
        self.touches.clear();
        self.touches.push(Touch {
            what: Resource::Names,
            write: false,
        });
        self.grant(txn)
    }

    /// The keys of a table, in the order of their bytes. The transaction holds from then on that they are
    /// these, unless another one is in the way or too much would be held. `Memory` where memory is refused:
    /// then that is held too, and nothing else has changed.
    pub fn keys(&mut self, alloc: Global, txn: TxnId, name: Name) -> Result<Vec<Bytes>, Refused>
        requires serves { IsServed self.old }
        ensures serves { (t : Operations) → Serves t self.old → Serves t self.new }
        // the keys are the step's, and the objects are as before
        ensures rests { (t : Operations) (live : List ℕ) (objects durable : Model) → Has t self.old live objects durable
            → IfOk result (λ v. AskedBy t (E.view self.new.engine) (HasDone live objects durable (On name Keys) (Several v.items) (core_of self.new) t)) }
        ensures told { (E.view self.new.engine).Told → (E.view self.old.engine).Told }
        ensures means { Keeps (E.view self.old.engine) (E.view self.new.engine) }
        ensures lists { AsMeant (E.view self.old.engine) (E.view self.new.engine) (λ t g v w.
            (x : Run) → IsLawful t g → Shows t g v (core_of self.old) x
            → Goes t g v x (Listing t v.tail w.tail v.faults w.faults txn.0 (On name Keys) x result) w (core_of self.new)) }
        ensures stock { self.new.stop ≡ None → AsMeant (E.view self.old.engine) (E.view self.new.engine) (λ t g v w.
            (x : Run) → IsLawful t g → Shows t g v (core_of self.old) x → LeavesStock t g v w) }
        // on any engine
        ensures causes { ListsFor txn.0 (E.view self.old.engine) (E.view self.new.engine) (core_of self.old) (core_of self.new) result }
        ensures asks { IfErr result (λ e. AsksNothing e → self.new ≡ self.old) }
        ensures heeds { Heeds self.old.stop self.new.stop (E.view self.old.engine) (E.view self.new.engine) }
    {
        if self.stop.is_some() {
            return Err(Refused::Stopped);
        }
        if !self.txns.is_live(txn) {
            return Err(Refused::NoTxn);
        }
        match self.hold_keys(txn, name) {
            Ok(()) => {}
            Err(why) => return Err(why),
        }
        match self.engine.keys(alloc, name) {
            Ok(Ok(keys)) => Ok(keys),
            Ok(Err(reason)) => Err(Refused::Model(reason)),
            Err(ListFault::Memory) => Err(Refused::Memory),
            Err(ListFault::Space(fault)) => Err(self.halt(fault)),
        }
    }

    /// The names of all objects, in the order of their bytes. The transaction holds from then on that they
    /// are these, unless another one is in the way or too much would be held. `Memory` where memory is
    /// refused: then that is held too, and nothing else has changed.
    pub fn list(&mut self, alloc: Global, txn: TxnId) -> Result<Vec<Name>, Refused>
        requires serves { IsServed self.old }
        ensures serves { (t : Operations) → Serves t self.old → Serves t self.new }
        // the names are the step's, and the objects are as before
        ensures rests { (t : Operations) (live : List ℕ) (objects durable : Model) → Has t self.old live objects durable
            → IfOk result (λ v. AskedBy t (E.view self.new.engine) (HasDone live objects durable Names (Several v.items) (core_of self.new) t)) }
        ensures told { (E.view self.new.engine).Told → (E.view self.old.engine).Told }
        ensures means { Keeps (E.view self.old.engine) (E.view self.new.engine) }
        ensures lists { AsMeant (E.view self.old.engine) (E.view self.new.engine) (λ t g v w.
            (x : Run) → IsLawful t g → Shows t g v (core_of self.old) x
            → Goes t g v x (Listing t v.tail w.tail v.faults w.faults txn.0 Names x result) w (core_of self.new)) }
        ensures stock { self.new.stop ≡ None → AsMeant (E.view self.old.engine) (E.view self.new.engine) (λ t g v w.
            (x : Run) → IsLawful t g → Shows t g v (core_of self.old) x → LeavesStock t g v w) }
        // on any engine
        ensures causes { ListsFor txn.0 (E.view self.old.engine) (E.view self.new.engine) (core_of self.old) (core_of self.new) result }
        ensures asks { IfErr result (λ e. AsksNothing e → self.new ≡ self.old) }
        ensures heeds { Heeds self.old.stop self.new.stop (E.view self.old.engine) (E.view self.new.engine) }
    {
        if self.stop.is_some() {
            return Err(Refused::Stopped);
        }
        if !self.txns.is_live(txn) {
            return Err(Refused::NoTxn);
        }
        match self.hold_names(txn) {
            Ok(()) => {}
            Err(why) => return Err(why),
        }
        match self.engine.list(alloc) {
            Ok(names) => Ok(names),
            Err(ListFault::Memory) => Err(Refused::Memory),
            Err(ListFault::Space(fault)) => Err(self.halt(fault)),
        }
    }
}
