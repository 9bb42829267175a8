ghost use Rattle.std.specs.Prelude.{◌≡◌, ◌<◌, ◌&&◌, ◌+◌, ◌^◌, nat_lt, sum_by, List, [], ℕ, All, IfOk};
ghost use Rattle.sg_model.specs.SaidOps.{said_op};
ghost use Rattle.sg_model.specs.Step.{is_changing};
ghost use Rattle.std.specs.Prelude.{IsTrue};
ghost use Rattle.std.specs.List.{list_all};
ghost use Rattle.sg_core.specs.Live.{is_live};
ghost use Rattle.sg_store.specs.Drops.{drops, marked_by};

use crate::engine::{Marks, Objects, Truncates};
use crate::fault::{MarkRefused, Needed, ObjFault, Refused};
use sg_base::{Lsn, OutOfMemory, TxnId};
use sg_core::Txns;
use sg_locks::{LockAnswer, Locks};
use sg_model::{Op, Reply, Stop, Touches};
use sg_ops::Ops;
use sg_space::{SpaceFault, UndoNote};
use std::alloc::Global;

/// No new work begins once the log's tail is above this byte: 2^62.
const NEW_WORK_END: u64 = 1 << 62;

/// The most transactions that are live at a time.
const MOST_LIVE: u32 = 64;

/// The most marks that a transaction has.
const MOST_MARKS: u16 = 16;

/// Objects over a page engine, and the transactions that are at work on them.
pub struct Store<E: Objects> {
    pub(crate) engine: E,
    pub(crate) locks: Locks,
    pub(crate) txns: Txns,
    // what the last line touched, and how the last action is undone
    pub(crate) touches: Touches,
    note: UndoNote,
    pub(crate) stop: Option<Stop>,
    // the numbers of the live ones are those of records in the log
    ghost below: { All (λ x. x.transaction < (E.view engine).tail) txns },
    // who holds something is live
    ghost holders: { IsTrue (list_all (λ h. is_live txns h.transaction) locks) },
}

// No live transactions, and no locks.
fn nothing(alloc: Global) -> Result<(Txns, Locks), OutOfMemory>
    ensures txns { IfOk result (λ p. p.0 ≡ []) }
    ensures locks { IfOk result (λ p. p.1 ≡ []) }
{
    let txns = Txns::new(alloc)?;
    let locks = Locks::new(alloc)?;
    Ok((txns, locks))
}

// Whether fewer pages are free than are reserved and needed, where any are.
fn lacks(free: u32, reserved: u32, need: u32) -> bool
    ensures { result ≡ (nat_lt 0 need && nat_lt free (reserved + need)) }
{
    need > 0 && (free < reserved || free - reserved < need)
}

// Whether the log is too long for an operation.
fn is_over(op: &Op<'_>, tail: u64) -> bool
    ensures { result ≡ (is_changing (said_op op.now) && nat_lt (2 ^ 62) tail) }
{
    op.is_changing() && tail > NEW_WORK_END
}

// Whether an operation with these needs reserves a page.
fn reserves(needs: Needed) -> bool
    ensures { result ≡ (nat_lt 0 needs.reserve && nat_lt 0 needs.pages) }
{
    needs.reserve > 0 && needs.pages > 0
}

// Whether an operation drops an object.
fn drops(op: &Op<'_>) -> bool
    ensures { result ≡ drops (said_op op.now) }
{
    matches!(op, Op::Discard { .. })
}

// A live transaction is marked where an operation of it drops something.
fn mark(txns: &mut Txns, txn: TxnId, op: &Op<'_>)
    requires { IsTrue (is_live txns.old txn.0) }
    ensures txns { txns.new ≡ marked_by (said_op op.now) txn.0 txns.old }
    ensures live { IsTrue (is_live txns.new txn.0) }
    ensures sum { sum_by (λ x. x.reserved) txns.new ≡ sum_by (λ x. x.reserved) txns.old }
{
    if !drops(op) {
        return;
    }
    txns.mark_dropped(txn);
}

impl<E: Objects> Store<E> {
    ghost use Rattle.sg_checkpoints.specs.Checkpoints.{HasMarked, StaysMarked};
    ghost use Rattle.sg_ops.specs.Table.{Table as Operations, table_of};
    ghost use Rattle.sg_run.specs.Run.{Run, committed, live_objects};
    ghost use Rattle.sg_store.specs.Accounting.{AccountsFor};
    ghost use Rattle.sg_store.specs.Ground.{IsLawful};
    ghost use Rattle.sg_store.specs.Store.{Core, Shows, IsKept, IsUndoing, IsLeaving, HasNone};
    ghost use Rattle.sg_store.specs.Engine.{Keeps, KeepsBy, AsMeant, AsMeantBy, IfMeant, Asked, AskedBy, IsDiskFault, IsNearEnd};
    ghost use Rattle.sg_store.specs.Asks.{IsRunning, IsFreeing, HasBegun, IsTakingBack};
    ghost use Rattle.sg_store.specs.Rests.{Has, HasDone, HasCommitted, HasAborted};
    ghost use Rattle.sg_model.specs.Objects.{Objects as Model};
    ghost use Rattle.sg_model.specs.SaidReplies.{said_reply};
    ghost use Rattle.sg_base.specs.Ends.{HasRisen};
    ghost use Rattle.sg_run.specs.Numbers.{IsGranted};
    ghost use Rattle.sg_store.specs.Calls.{Goes, Begins, Commits, Flushes, Checkpoints, Stays, Holds, Rooms, HasRoom, Acts, Does, Undid, IsUndone, Aborts, Frees, Numbers, SameRoom};
    ghost use Rattle.std.specs.Prelude.{Some, Err, true, false, ◌≤◌, ◌⊎◌, ◌-◌, ◌∷◌, ◌++◌, None, IfErr, IfSome, OnOk, OnErr, sum_by, length, IsTrue, IsSome};
    ghost use Rattle.sg_serial.specs.Runs as serial;
    ghost use Rattle.sg_serial.specs.Locks.{released};
    ghost use Rattle.sg_core.specs.Live.{without, has_dropped};
    ghost use Rattle.sg_store.specs.Drops.{MarksOnly};
    ghost use Rattle.sg_store.specs.Room.{ArePagesLeft, AreBandsLeft, ShowsStock, LeadsStock, BacksStock, FreesStock, is_of};
    ghost use Rattle.sg_store.specs.Stock.{LeavesStock};
    ghost use Rattle.sg_room.specs.Lines as stock;
    ghost use Rattle.sg_room.specs.Steps.{RunStock, backed};
    ghost use Rattle.sg_store.specs.Seen.{core_of, Serves, IsServed};
    ghost use Rattle.sg_store.specs.Stops.{refused_at, stop_at, stop_behind};
    ghost use Rattle.sg_store.specs.Heeds.{Heeds};
    ghost use Rattle.sg_store.specs.Refusals.{said_lock};
    ghost use Rattle.sg_store.specs.Causes.{AsksNothing, BeginsFor, EndsFor, FlushesFor, ChecksFor, ClosesFor, HoldsFor, RoomsFor, ActsFor, DoesFor};
    ghost use Rattle.sg_model.specs.TouchList.{shown_touches};
    ghost use Rattle.sg_locks.specs.Answers.{lock_answer, locks_after};

    /// A store over an engine that was opened, with no transaction. Where memory is refused the engine is
    /// handed back; no other call takes any.
    pub fn new(engine: E, alloc: Global) -> Result<Store<E>, E>
        ensures core { IfOk result (λ s. core_of s ≡ record { live = []; held = []; stopped = None }) }
        ensures engine { IfOk result (λ s. s.engine ≡ engine) }
        ensures back { IfErr result (λ e. e ≡ engine) }
    {
        match nothing(alloc) {
            Ok((txns, locks)) => Ok(Store {
                engine,
                locks,
                txns,
                touches: Touches::new(),
                note: UndoNote::new(),
                stop: None,
            }),
            Err(OutOfMemory) => Err(engine),
        }
    }

    /// How many transactions are live.
    pub fn live(&self) -> u32
        ensures { result ≡ length self.now.txns }
    {
        self.txns.count()
    }

    /// How many pages are free: as many as the objects leave, and what is buried. No more are taken than what
    /// the greatest sizes of these allow.
    pub fn free_pages(&self) -> u32
        ensures free { result ≡ (E.view self.now.engine).free_pages }
        ensures left { IfMeant (E.view self.now.engine) (λ t g v. ArePagesLeft t g v result) }
    {
        self.engine.free_pages()
    }

    /// How many bands are free: exactly as many as blobs leave, buried ones too, by the greatest length that each
    /// has had, and the bands of the map.
    pub fn free_bands(&self) -> u32
        ensures free { result ≡ (E.view self.now.engine).free_bands }
        ensures left { IfMeant (E.view self.now.engine) (λ t g v. AreBandsLeft t g v result) }
    {
        self.engine.free_bands()
    }

    /// How many bytes the log has from its first one on.
    pub fn log_bytes(&self) -> u64
        ensures { result ≡ (E.view self.now.engine).tail - (E.view self.now.engine).start }
    {
        let tail = self.engine.tail();
        let start = self.engine.start();
        tail.saturating_sub(start)
    }

    /// Why the store has stopped, if it has.
    pub fn stop(&self) -> Option<Stop>
        ensures { result ≡ self.now.stop }
    {
        self.stop
    }

    /// A transaction begins.
    pub fn begin(&mut self) -> Result<TxnId, Refused>
        requires serves { IsServed self.old }
        ensures serves { (t : Operations) → Serves t self.old → Serves t self.new }
        // one more transaction is live, and the objects are as before
        ensures rests { (t : Operations) (live : List ℕ) (objects durable : Model) → Has t self.old live objects durable
            → IfOk result (λ u. Has t self.new (live ++ u.0 ∷ []) objects durable) }
        ensures told { (E.view self.new.engine).Told → (E.view self.old.engine).Told }
        ensures means { Keeps (E.view self.old.engine) (E.view self.new.engine) }
        ensures begins { AsMeant (E.view self.old.engine) (E.view self.new.engine) (λ t g v w.
            (x : Run) (name : List ℕ) → IsLawful t g → Shows t g v (core_of self.old) x
            → Goes t g v x (Begins v.tail v.faults w.faults name x result) w (core_of self.new)) }
        // unless the store has stopped, the stock is left alone
        ensures stock { self.new.stop ≡ None → AsMeant (E.view self.old.engine) (E.view self.new.engine) (λ t g v w.
            (x : Run) → IsLawful t g → Shows t g v (core_of self.old) x → LeavesStock t g v w) }
        // on any engine
        ensures causes { BeginsFor (E.view self.old.engine) (E.view self.new.engine) (core_of self.old) (core_of self.new) result }
        ensures asks { IfErr result (λ e. (e ≡ Refused.DiskFault → ⊥) → self.new ≡ self.old) }
        ensures heeds { Heeds self.old.stop self.new.stop (E.view self.old.engine) (E.view self.new.engine) }
    {
        if self.stop.is_some() {
            return Err(Refused::Stopped);
        }
        if self.txns.count() >= MOST_LIVE {
            return Err(Refused::TooManyLive);
        }
        if self.engine.tail() > NEW_WORK_END {
            return Err(Refused::LogEnd);
        }
        match self.engine.begin() {
            Ok(txn) => {
                self.txns.add(txn);
                Ok(txn)
            }
            Err(_) => {
                self.stop = Some(Stop::Disk);
                Err(Refused::DiskFault)
            }
        }
    }

    // A call of the engine failed, and the store stops.
    pub(crate) fn halt(&mut self, fault: SpaceFault) -> Refused
        ensures answer { result ≡ refused_at fault }
        ensures core { core_of self.new ≡ record (core_of self.old) { stopped = Some (stop_at fault) } }
        ensures engine { self.new.engine ≡ self.old.engine }
    {
        match fault {
            SpaceFault::Disk => {
                self.stop = Some(Stop::Disk);
                Refused::DiskFault
            }
            SpaceFault::LogEnd => {
                self.stop = Some(Stop::LogEnd);
                Refused::LogEnd
            }
        }
    }

    // A transaction is no more, and holds nothing.
    fn forget(&mut self, txn: TxnId)
        requires { IsTrue (is_live self.old.txns txn.0) }
        ensures core { let k = core_of self.old in
            core_of self.new ≡ record k { live = without txn.0 k.live; held = released txn.0 k.held } }
        ensures engine { self.new.engine ≡ self.old.engine }
    {
        self.txns.remove(txn);
        self.locks.release(txn);
    }

    // Frees something that a transaction dropped which has committed; `false` where nothing of it is left.
    fn free_one(&mut self, ops: &Ops, txn: TxnId) -> Result<bool, SpaceFault>
        requires can { let t = table_of record_meaning range_meaning ops.now in
            AskedBy t (E.view self.old.engine) (IsFreeing self.old.txns txn.0 t) }
        ensures means { KeepsBy (table_of record_meaning range_meaning ops.now) (E.view self.old.engine) (E.view self.new.engine) }
        ensures told { (E.view self.new.engine).Told → (E.view self.old.engine).Told }
        ensures tells { OnOk result ((E.view self.old.engine).Told → (E.view self.new.engine).Told) }
        ensures stays { let t = table_of record_meaning range_meaning ops.now in
            AsMeantBy t (E.view self.old.engine) (E.view self.new.engine) (λ g v w.
            (x : Run) → IsLawful t g → IsLeaving t g v self.old.txns x txn.0 → Stays t g v w (committed x txn.0)) }
        ensures frees { let t = table_of record_meaning range_meaning ops.now in
            AsMeantBy t (E.view self.old.engine) (E.view self.new.engine) (λ g v w.
            (x : Run) → IsLawful t g → IsLeaving t g v self.old.txns x txn.0
            → IfOk result (Frees t g v w self.old.txns x txn.0)) }
        ensures failed { IfErr result (λ e. IsDiskFault e
            → HasRisen (E.view self.old.engine).faults (E.view self.new.engine).faults) }
        ensures log_end { IfErr result (IsNearEnd (E.view self.new.engine).tail) }
        ensures later { (E.view self.old.engine).faults ≤ (E.view self.new.engine).faults }
        ensures tail { (E.view self.old.engine).tail ≤ (E.view self.new.engine).tail }
        ensures core { core_of self.new ≡ core_of self.old }
        ensures quiet { OnOk result ((E.view self.new.engine).faults ≡ (E.view self.old.engine).faults) }
        ensures accounts { AccountsFor IsDiskFault (E.view self.old.engine) (E.view self.new.engine) result }
    {
        self.engine.act(TxnId(0));
        match self.engine.free_next(ops, Some(txn), &mut self.note) {
            Ok(true) => {}
            Ok(false) => return Ok(false),
            Err(fault) => return Err(fault),
        }
        match self.engine.end_action(TxnId(0), &self.note) {
            Ok(()) => Ok(true),
            Err(fault) => Err(fault),
        }
    }

    // Frees all that a transaction dropped which has committed.
    fn free_all(&mut self, ops: &Ops, txn: TxnId) -> Result<(), SpaceFault>
        requires can { let t = table_of record_meaning range_meaning ops.now in
            AskedBy t (E.view self.old.engine) (IsFreeing self.old.txns txn.0 t) }
        ensures means { KeepsBy (table_of record_meaning range_meaning ops.now) (E.view self.old.engine) (E.view self.new.engine) }
        ensures told { (E.view self.new.engine).Told → (E.view self.old.engine).Told }
        ensures tells { OnOk result ((E.view self.old.engine).Told → (E.view self.new.engine).Told) }
        ensures stays { let t = table_of record_meaning range_meaning ops.now in
            AsMeantBy t (E.view self.old.engine) (E.view self.new.engine) (λ g v w.
            (x : Run) → IsLawful t g → IsLeaving t g v self.old.txns x txn.0 → Stays t g v w (committed x txn.0)) }
        ensures freed { let t = table_of record_meaning range_meaning ops.now in
            OnOk result (AsMeantBy t (E.view self.old.engine) (E.view self.new.engine) (λ g v w.
            (x : Run) → IsLawful t g → IsLeaving t g v self.old.txns x txn.0
            → IsLeaving t g w self.old.txns x txn.0 × HasNone t g w txn.0)) }
        ensures stock { let t = table_of record_meaning range_meaning ops.now in
            OnOk result (AsMeantBy t (E.view self.old.engine) (E.view self.new.engine) (λ g v w.
            (x : Run) → IsLawful t g → IsLeaving t g v self.old.txns x txn.0 → FreesStock t g v w txn.0)) }
        ensures failed { IfErr result (λ e. IsDiskFault e
            → HasRisen (E.view self.old.engine).faults (E.view self.new.engine).faults) }
        ensures log_end { IfErr result (IsNearEnd (E.view self.new.engine).tail) }
        ensures later { (E.view self.old.engine).faults ≤ (E.view self.new.engine).faults }
        ensures tail { (E.view self.old.engine).tail ≤ (E.view self.new.engine).tail }
        ensures core { core_of self.new ≡ core_of self.old }
        ensures quiet { OnOk result ((E.view self.new.engine).faults ≡ (E.view self.old.engine).faults) }
        ensures accounts { AccountsFor IsDiskFault (E.view self.old.engine) (E.view self.new.engine) result }
    {
        let start = self.engine.tail();
        let mut left = u64::MAX - start;
        'dropped: loop {
            match self.free_one(ops, txn) {
                Ok(true) => {}
                Ok(false) => return Ok(()),
                Err(fault) => return Err(fault),
            }
            let end = self.engine.tail();
            let now = u64::MAX - end;
            if now >= left {
                return Err(self.engine.broken());
            }
            left = now;
        }
    }

    // Frees all that a transaction dropped which has committed. Where it isn't marked that is nothing, and no
    // call of the engine is made.
    fn free_dropped(&mut self, ops: &Ops, txn: TxnId) -> Result<(), SpaceFault>
        requires live { IsTrue (is_live self.old.txns txn.0) }
        requires can { let t = table_of record_meaning range_meaning ops.now in
            AskedBy t (E.view self.old.engine) (IsFreeing self.old.txns txn.0 t) }
        ensures means { KeepsBy (table_of record_meaning range_meaning ops.now) (E.view self.old.engine) (E.view self.new.engine) }
        ensures told { (E.view self.new.engine).Told → (E.view self.old.engine).Told }
        ensures tells { OnOk result ((E.view self.old.engine).Told → (E.view self.new.engine).Told) }
        ensures stays { let t = table_of record_meaning range_meaning ops.now in
            AsMeantBy t (E.view self.old.engine) (E.view self.new.engine) (λ g v w.
            (x : Run) → IsLawful t g → IsLeaving t g v self.old.txns x txn.0 → Stays t g v w (committed x txn.0)) }
        ensures freed { let t = table_of record_meaning range_meaning ops.now in
            OnOk result (AsMeantBy t (E.view self.old.engine) (E.view self.new.engine) (λ g v w.
            (x : Run) → IsLawful t g → IsLeaving t g v self.old.txns x txn.0
            → IsLeaving t g w self.old.txns x txn.0 × HasNone t g w txn.0)) }
        ensures stock { let t = table_of record_meaning range_meaning ops.now in
            OnOk result (AsMeantBy t (E.view self.old.engine) (E.view self.new.engine) (λ g v w.
            (x : Run) → IsLawful t g → IsLeaving t g v self.old.txns x txn.0 → FreesStock t g v w txn.0)) }
        ensures failed { IfErr result (λ e. IsDiskFault e
            → HasRisen (E.view self.old.engine).faults (E.view self.new.engine).faults) }
        ensures log_end { IfErr result (IsNearEnd (E.view self.new.engine).tail) }
        ensures later { (E.view self.old.engine).faults ≤ (E.view self.new.engine).faults }
        ensures tail { (E.view self.old.engine).tail ≤ (E.view self.new.engine).tail }
        ensures core { core_of self.new ≡ core_of self.old }
        ensures quiet { OnOk result ((E.view self.new.engine).faults ≡ (E.view self.old.engine).faults) }
        ensures accounts { AccountsFor IsDiskFault (E.view self.old.engine) (E.view self.new.engine) result }
        ensures none { has_dropped self.old.txns txn.0 ≡ false → self.new.engine ≡ self.old.engine }
    {
        if !self.txns.has_dropped(txn) {
            return Ok(());
        }
        self.free_all(ops, txn)
    }

    /// Makes durable what the transaction did, frees what it dropped, and it is no more.
    pub fn commit(&mut self, ops: &Ops, txn: TxnId) -> Result<(), Refused>
        requires serves { Serves (table_of record_meaning range_meaning ops.now) self.old }
        ensures serves { Serves (table_of record_meaning range_meaning ops.now) self.new }
        // each image that a crash leaves stands for objects with what the transaction did
        ensures rests { let t = table_of record_meaning range_meaning ops.now in
            (live : List ℕ) (objects durable : Model) → Has t self.old live objects durable
            → OnOk result (AskedBy t (E.view self.new.engine) (HasCommitted txn.0 live objects durable (core_of self.new) t)) }
        ensures told { (E.view self.new.engine).Told → (E.view self.old.engine).Told }
        ensures means { KeepsBy (table_of record_meaning range_meaning ops.now) (E.view self.old.engine) (E.view self.new.engine) }
        ensures commits { let t = table_of record_meaning range_meaning ops.now in
            AsMeantBy t (E.view self.old.engine) (E.view self.new.engine) (λ g v w.
            (x : Run) → IsLawful t g → Shows t g v (core_of self.old) x
            → Goes t g v x (Commits w.tail v.faults w.faults txn.0 x result) w (core_of self.new)) }
        ensures freed { let t = table_of record_meaning range_meaning ops.now in
            OnOk result (AsMeantBy t (E.view self.old.engine) (E.view self.new.engine) (λ g v w.
            (x : Run) → IsLawful t g → Shows t g v (core_of self.old) x → HasNone t g w txn.0)) }
        // what the transaction dropped is no part of the stock any more, and the undoing of nothing that it did is
        ensures stock { let t = table_of record_meaning range_meaning ops.now in
            OnOk result (AsMeantBy t (E.view self.old.engine) (E.view self.new.engine) (λ g v w.
            (x : Run) → IsLawful t g → Shows t g v (core_of self.old) x
            → (r : RunStock) → ShowsStock t g v r → ShowsStock t g w (stock.committed txn.0 r))) }
        // where it is refused, and the store hasn't stopped, it is left alone
        ensures stock_left { let t = table_of record_meaning range_meaning ops.now in
            self.new.stop ≡ None → OnErr result (AsMeantBy t (E.view self.old.engine) (E.view self.new.engine) (λ g v w.
            (x : Run) → IsLawful t g → Shows t g v (core_of self.old) x → LeavesStock t g v w)) }
        // on any engine
        ensures causes { EndsFor txn.0 (E.view self.old.engine) (E.view self.new.engine) (core_of self.old) (core_of self.new) result }
        ensures asks { IfErr result (λ e. AsksNothing e → self.new ≡ self.old) }
        ensures heeds { Heeds self.old.stop self.new.stop (E.view self.old.engine) (E.view self.new.engine) }
        // where the transaction has dropped nothing, only what waits of the log is handed over, and 64 bytes at most
        ensures hands { has_dropped self.old.txns txn.0 ≡ false → (E.view self.new.engine).disk.handed ≤ (E.view self.old.engine).disk.handed + E.waiting self.old.engine + 64 }
    {
        if self.stop.is_some() {
            return Err(Refused::Stopped);
        }
        if !self.txns.is_live(txn) {
            return Err(Refused::NoTxn);
        }
        match self.engine.commit(txn) {
            Ok(()) => {}
            Err(fault) => return Err(self.halt(fault)),
        }
        match self.free_dropped(ops, txn) {
            Ok(()) => {}
            Err(fault) => return Err(self.halt(fault)),
        }
        match self.engine.end(txn) {
            Ok(()) => {
                self.forget(txn);
                Ok(())
            }
            Err(fault) => Err(self.halt(fault)),
        }
    }

    /// Makes all that was done durable, at its place.
    pub fn flush(&mut self) -> Result<(), Refused>
        requires serves { IsServed self.old }
        ensures serves { (t : Operations) → Serves t self.old → Serves t self.new }
        ensures rests { (t : Operations) (live : List ℕ) (objects durable : Model) → Has t self.old live objects durable
            → OnOk result (Has t self.new live objects durable) }
        ensures told { (E.view self.new.engine).Told → (E.view self.old.engine).Told }
        ensures means { Keeps (E.view self.old.engine) (E.view self.new.engine) }
        ensures flushes { AsMeant (E.view self.old.engine) (E.view self.new.engine) (λ t g v w.
            (x : Run) → IsLawful t g → Shows t g v (core_of self.old) x
            → Goes t g v x (Flushes v.faults w.faults x result) w (core_of self.new)) }
        ensures written { OnOk result ((lsn : ℕ) → E.unwritten self.new.engine lsn → ⊥) }
        ensures marked { OnOk result ((E.view self.old.engine).Told → StaysMarked (E.marked self.old.engine) (E.marked self.new.engine) E.ends_at (E.view self.new.engine).disk.now) }
        ensures stock { self.new.stop ≡ None → AsMeant (E.view self.old.engine) (E.view self.new.engine) (λ t g v w.
            (x : Run) → IsLawful t g → Shows t g v (core_of self.old) x → LeavesStock t g v w) }
        // on any engine
        ensures causes { FlushesFor (E.view self.old.engine) (E.view self.new.engine) (core_of self.old) (core_of self.new) result }
        ensures asks { IfErr result (λ e. AsksNothing e → self.new ≡ self.old) }
        ensures stop { self.new.stop ≡ stop_behind self.old.stop result }
        // a store that has stopped makes no call of its engine
        ensures stopped { IsSome self.old.stop → (self.new ≡ self.old) × (result ≡ Err Refused.Stopped) }
        ensures heeds { Heeds self.old.stop self.new.stop (E.view self.old.engine) (E.view self.new.engine) }
    {
        if self.stop.is_some() {
            return Err(Refused::Stopped);
        }
        match self.engine.flush() {
            Ok(()) => Ok(()),
            Err(fault) => Err(self.halt(fault)),
        }
    }

    /// Makes the log durable with a record of where its redo has to begin.
    pub fn checkpoint(&mut self) -> Result<(), Refused>
        requires serves { IsServed self.old }
        ensures serves { (t : Operations) → Serves t self.old → Serves t self.new }
        ensures rests { (t : Operations) (live : List ℕ) (objects durable : Model) → Has t self.old live objects durable
            → OnOk result (Has t self.new live objects durable) }
        ensures told { (E.view self.new.engine).Told → (E.view self.old.engine).Told }
        ensures means { Keeps (E.view self.old.engine) (E.view self.new.engine) }
        ensures marks { AsMeant (E.view self.old.engine) (E.view self.new.engine) (λ t g v w.
            (x : Run) → IsLawful t g → Shows t g v (core_of self.old) x
            → Goes t g v x (Checkpoints v.tail v.faults w.faults x result) w (core_of self.new)) }
        // the last record of each image that a crash leaves now is the checkpoint
        ensures ends { OnOk result ((E.view self.old.engine).Told → HasMarked (E.view self.old.engine).tail (E.unwritten self.old.engine) (E.marked self.new.engine) E.ends_at (E.view self.new.engine).disk.now) }
        // only what waits of the log is handed over, and 1,200 bytes at most
        ensures hands { (E.view self.new.engine).disk.handed ≤ (E.view self.old.engine).disk.handed + E.waiting self.old.engine + 1200 }
        ensures stock { self.new.stop ≡ None → AsMeant (E.view self.old.engine) (E.view self.new.engine) (λ t g v w.
            (x : Run) → IsLawful t g → Shows t g v (core_of self.old) x → LeavesStock t g v w) }
        // on any engine
        ensures causes { ChecksFor (E.view self.old.engine) (E.view self.new.engine) (core_of self.old) (core_of self.new) result }
        ensures asks { IfErr result (λ e. AsksNothing e → self.new ≡ self.old) }
        ensures stop { self.new.stop ≡ stop_behind self.old.stop result }
        // a store that has stopped makes no call of its engine
        ensures stopped { IsSome self.old.stop → (self.new ≡ self.old) × (result ≡ Err Refused.Stopped) }
        ensures heeds { Heeds self.old.stop self.new.stop (E.view self.old.engine) (E.view self.new.engine) }
    {
        if self.stop.is_some() {
            return Err(Refused::Stopped);
        }
        match self.engine.checkpoint() {
            Ok(()) => Ok(()),
            Err(fault) => Err(self.halt(fault)),
        }
    }

    // The transaction holds what was touched last from now on, unless another one is in the way or too much
    // would be held.
    pub(crate) fn grant(&mut self, txn: TxnId) -> Result<(), Refused>
        requires live { IsTrue (is_live self.old.txns txn.0) }
        ensures answer { result ≡ said_lock (lock_answer txn.0 (shown_touches self.old.touches) self.old.locks) }
        ensures core { let k = core_of self.old in
            core_of self.new ≡ record k { held = locks_after txn.0 (shown_touches self.old.touches) k.held } }
        ensures engine { self.new.engine ≡ self.old.engine }
        ensures causes { HoldsFor txn.0 (E.view self.old.engine) (E.view self.new.engine) (core_of self.old) (core_of self.new) result }
    {
        match self.locks.try_lock(txn, self.touches.list()) {
            LockAnswer::Granted => Ok(()),
            LockAnswer::Busy(holder) => Err(Refused::Busy(holder)),
            LockAnswer::LocksFull => Err(Refused::LocksFull),
        }
    }

    // The transaction, which is live, holds what an operation touches from now on, unless another one is in
    // the way or too much would be held.
    fn hold(&mut self, txn: TxnId, op: &Op<'_>) -> Result<(), Refused>
        requires live { IsTrue (is_live self.old.txns txn.0) }
        requires can { Asked (E.view self.old.engine) (IsRunning self.old.txns) }
        ensures means { Keeps (E.view self.old.engine) (E.view self.new.engine) }
        ensures told { (E.view self.new.engine).Told → (E.view self.old.engine).Told }
        ensures tells { OnOk result ((E.view self.old.engine).Told → (E.view self.new.engine).Told) }
        ensures stays { AsMeant (E.view self.old.engine) (E.view self.new.engine) (λ t g v w.
            (x : Run) → IsLawful t g → IsKept t g v self.old.txns x → Stays t g v w x) }
        ensures holds { AsMeant (E.view self.old.engine) (E.view self.new.engine) (λ t g v w.
            (x : Run) → IsLawful t g → IsKept t g v self.old.txns x
            → self.old.locks ≡ x.so_far.held → serial.is_live x.so_far.live txn.0 ≡ true
            → Holds t g v w (core_of self.old) (core_of self.new) x txn.0 (said_op op.now) result) }
        ensures same { self.new.stop ≡ None → AsMeant (E.view self.old.engine) (E.view self.new.engine) (λ t g v w.
            (x : Run) → IsLawful t g → IsKept t g v self.old.txns x → SameRoom t g v w) }
        ensures later { (E.view self.old.engine).faults ≤ (E.view self.new.engine).faults }
        ensures tail { (E.view self.new.engine).tail ≡ (E.view self.old.engine).tail }
        ensures live { self.new.txns ≡ self.old.txns }
        ensures causes { HoldsFor txn.0 (E.view self.old.engine) (E.view self.new.engine) (core_of self.old) (core_of self.new) result }
        ensures heeds { self.old.stop ≡ None → Heeds self.old.stop self.new.stop (E.view self.old.engine) (E.view self.new.engine) }
    {
        match self.engine.touches(op, &mut self.touches) {
            Ok(()) => self.grant(txn),
            Err(fault) => Err(self.halt(fault)),
        }
    }

    // What an operation needs, where it isn't refused and so much is free.
    fn room_for(&mut self, ops: &Ops, op: &Op<'_>) -> Result<Needed, Refused>
        requires can { let t = table_of record_meaning range_meaning ops.now in
            AskedBy t (E.view self.old.engine) (IsRunning self.old.txns t) }
        ensures means { KeepsBy (table_of record_meaning range_meaning ops.now) (E.view self.old.engine) (E.view self.new.engine) }
        ensures told { (E.view self.new.engine).Told → (E.view self.old.engine).Told }
        ensures tells { OnOk result ((E.view self.old.engine).Told → (E.view self.new.engine).Told) }
        ensures stays { let t = table_of record_meaning range_meaning ops.now in
            AsMeantBy t (E.view self.old.engine) (E.view self.new.engine) (λ g v w.
            (x : Run) → IsLawful t g → IsKept t g v self.old.txns x → Stays t g v w x) }
        ensures rooms { let t = table_of record_meaning range_meaning ops.now in
            AsMeantBy t (E.view self.old.engine) (E.view self.new.engine) (λ g v w.
            (x : Run) → IsLawful t g → IsKept t g v self.old.txns x
            → Rooms t g v w (core_of self.old) (core_of self.new) x (said_op op.now) result) }
        ensures same { let t = table_of record_meaning range_meaning ops.now in
            self.new.stop ≡ None → AsMeantBy t (E.view self.old.engine) (E.view self.new.engine) (λ g v w.
            (x : Run) → IsLawful t g → IsKept t g v self.old.txns x → SameRoom t g v w) }
        ensures tested { OnOk result (is_changing (said_op op.now) ≡ true → (E.view self.new.engine).tail ≤ 2 ^ 62) }
        // so one more can be reserved
        ensures fits { IfOk result (λ n. (n.pages ≡ 0) ⊎ (sum_by (λ k. k.reserved) self.new.txns + n.pages < 2 ^ 32)) }
        ensures later { (E.view self.old.engine).faults ≤ (E.view self.new.engine).faults }
        ensures tail { (E.view self.new.engine).tail ≡ (E.view self.old.engine).tail }
        ensures live { self.new.txns ≡ self.old.txns }
        ensures causes { RoomsFor (is_changing (said_op op.now)) (E.view self.old.engine) (E.view self.new.engine) (core_of self.old) (core_of self.new) result }
        ensures heeds { self.old.stop ≡ None → Heeds self.old.stop self.new.stop (E.view self.old.engine) (E.view self.new.engine) }
    {
        let needs = match self.engine.needs(ops, op) {
            Ok(needs) => needs,
            Err(ObjFault::Model(reason)) => return Err(Refused::Model(reason)),
            Err(ObjFault::Space(fault)) => return Err(self.halt(fault)),
        };
        let free = self.engine.free_pages();
        let reserved = self.txns.reserved();
        if lacks(free, reserved, needs.pages) {
            return Err(Refused::NoSpace {
                free,
                reserved,
                need: needs.pages,
            });
        }
        let bands = self.engine.free_bands();
        if bands < needs.bands {
            return Err(Refused::NoBands {
                free: bands,
                need: needs.bands,
            });
        }
        if is_over(op, self.engine.tail()) {
            return Err(Refused::LogEnd);
        }
        Ok(needs)
    }

    // Does an operation for which there is room, of a live transaction that was granted what it touches.
    fn act(
        &mut self,
        ops: &Ops,
        txn: TxnId,
        op: &Op<'_>,
        into: &mut [u8],
        needs: Needed,
    ) -> Result<Reply, Refused>
        requires live { IsTrue (is_live self.old.txns txn.0) }
        requires fits { (needs.pages ≡ 0) ⊎ (sum_by (λ k. k.reserved) self.old.txns + needs.pages < 2 ^ 32) }
        requires tested { is_changing (said_op op.now) ≡ true → (E.view self.old.engine).tail ≤ 2 ^ 62 }
        requires into { 8192 ≤ length into.old }
        requires can { let t = table_of record_meaning range_meaning ops.now in
            AskedBy t (E.view self.old.engine) (HasBegun self.old.txns txn.0 (said_op op.now) needs t) }
        ensures means { KeepsBy (table_of record_meaning range_meaning ops.now) (E.view self.old.engine) (E.view self.new.engine) }
        ensures told { (E.view self.new.engine).Told → (E.view self.old.engine).Told }
        // it never comes to the log's end
        ensures never { result ≡ Err Refused.LogEnd → ⊥ }
        ensures stays { let t = table_of record_meaning range_meaning ops.now in
            AsMeantBy t (E.view self.old.engine) (E.view self.new.engine) (λ g v w.
            (x : Run) → IsLawful t g → HasRoom t g v self.old.txns x (said_op op.now) needs
            → IsGranted t x txn.0 (said_op op.now) → Stays t g v w x) }
        ensures acts { let t = table_of record_meaning range_meaning ops.now in
            AsMeantBy t (E.view self.old.engine) (E.view self.new.engine) (λ g v w.
            (x : Run) → IsLawful t g → HasRoom t g v self.old.txns x (said_op op.now) needs
            → IsGranted t x txn.0 (said_op op.now)
            → Acts t g v w (core_of self.old) (core_of self.new) x txn.0 (said_op op.now) into.new result) }
        ensures later { (E.view self.old.engine).faults ≤ (E.view self.new.engine).faults }
        ensures tail { (E.view self.old.engine).tail ≤ (E.view self.new.engine).tail }
        ensures causes { ActsFor (E.view self.old.engine) (E.view self.new.engine) (core_of self.old) (core_of self.new) result }
        ensures marks { MarksOnly txn.0 (said_op op.now) self.old.txns self.new.txns }
        ensures heeds { self.old.stop ≡ None → Heeds self.old.stop self.new.stop (E.view self.old.engine) (E.view self.new.engine) }
    {
        self.engine.act(txn);
        let reply = match self.engine.perform(ops, txn, op, into, &mut self.note) {
            Ok(reply) => reply,
            Err(ObjFault::Model(reason)) => return Err(Refused::Model(reason)),
            Err(ObjFault::Space(fault)) => return Err(self.halt(fault)),
        };
        if self.note.bytes().is_empty() {
            return Ok(reply);
        }
        match self.engine.end_action(txn, &self.note) {
            Ok(()) => {}
            Err(fault) => return Err(self.halt(fault)),
        }
        mark(&mut self.txns, txn, op);
        if reserves(needs) {
            self.txns.reserve(txn);
        }
        Ok(reply)
    }

    /// Does an operation of the transaction. It holds what the operation touches from then on, unless
    /// another one is in the way or too much would be held.
    pub fn perform(
        &mut self,
        ops: &Ops,
        txn: TxnId,
        op: &Op<'_>,
        into: &mut [u8],
    ) -> Result<Reply, Refused>
        requires into { 8192 ≤ length into.old }
        requires serves { Serves (table_of record_meaning range_meaning ops.now) self.old }
        ensures serves { Serves (table_of record_meaning range_meaning ops.now) self.new }
        // the reply and the objects are the step's
        ensures rests { let t = table_of record_meaning range_meaning ops.now in
            (live : List ℕ) (objects durable : Model) → Has t self.old live objects durable
            → IfOk result (λ r. AskedBy t (E.view self.new.engine) (HasDone live objects durable (said_op op.now) (said_reply into.new r) (core_of self.new) t)) }
        ensures told { (E.view self.new.engine).Told → (E.view self.old.engine).Told }
        ensures means { KeepsBy (table_of record_meaning range_meaning ops.now) (E.view self.old.engine) (E.view self.new.engine) }
        ensures does { let t = table_of record_meaning range_meaning ops.now in
            AsMeantBy t (E.view self.old.engine) (E.view self.new.engine) (λ g v w.
            (x : Run) → IsLawful t g → Shows t g v (core_of self.old) x
            → Goes t g v x (Does t v.tail w.tail v.faults w.faults txn.0 (said_op op.now) x into.new result) w (core_of self.new)) }
        ensures numbers { let t = table_of record_meaning range_meaning ops.now in
            AsMeantBy t (E.view self.old.engine) (E.view self.new.engine) (λ g v w.
            (x : Run) → IsLawful t g → Shows t g v (core_of self.old) x
            → Numbers t g v self.old.txns (said_op op.now) result) }
        // where it is accepted the stock goes on as its line lets it
        ensures stock { let t = table_of record_meaning range_meaning ops.now in
            AsMeantBy t (E.view self.old.engine) (E.view self.new.engine) (λ g v w.
            (x : Run) → IsLawful t g → Shows t g v (core_of self.old) x
            → IfOk result (λ reply. LeadsStock t g v w (live_objects t x) txn.0 (said_op op.now))) }
        // where it is refused, and the store hasn't stopped, the stock is left alone
        ensures stock_left { let t = table_of record_meaning range_meaning ops.now in
            self.new.stop ≡ None → OnErr result (AsMeantBy t (E.view self.old.engine) (E.view self.new.engine) (λ g v w.
            (x : Run) → IsLawful t g → Shows t g v (core_of self.old) x → LeavesStock t g v w)) }
        // on any engine
        ensures causes { DoesFor (is_changing (said_op op.now)) txn.0 (E.view self.old.engine) (E.view self.new.engine) (core_of self.old) (core_of self.new) result }
        ensures asks { IfErr result (λ e. AsksNothing e → self.new ≡ self.old) }
        // it is marked only where the operation drops something
        ensures marks { MarksOnly txn.0 (said_op op.now) self.old.txns self.new.txns }
        ensures heeds { Heeds self.old.stop self.new.stop (E.view self.old.engine) (E.view self.new.engine) }
    {
        if self.stop.is_some() {
            return Err(Refused::Stopped);
        }
        if !self.txns.is_live(txn) {
            return Err(Refused::NoTxn);
        }
        match self.hold(txn, op) {
            Ok(()) => {}
            Err(why) => return Err(why),
        }
        let needs = match self.room_for(ops, op) {
            Ok(needs) => needs,
            Err(why) => return Err(why),
        };
        self.act(ops, txn, op, into, needs)
    }

    // Undoes the last action of a live transaction that stands, which no note above `at` does, and answers
    // the number behind which undoing goes on.
    fn undo_one(&mut self, ops: &Ops, txn: TxnId, at: Lsn) -> Result<Option<Lsn>, SpaceFault>
        requires can { let t = table_of record_meaning range_meaning ops.now in
            AskedBy t (E.view self.old.engine) (IsTakingBack self.old.txns txn.0 at t) }
        ensures falls { IfOk result (λ r. IfSome r (λ after. after < at)) }
        ensures means { KeepsBy (table_of record_meaning range_meaning ops.now) (E.view self.old.engine) (E.view self.new.engine) }
        ensures told { (E.view self.new.engine).Told → (E.view self.old.engine).Told }
        ensures tells { OnOk result ((E.view self.old.engine).Told → (E.view self.new.engine).Told) }
        ensures stays { let t = table_of record_meaning range_meaning ops.now in
            AsMeantBy t (E.view self.old.engine) (E.view self.new.engine) (λ g v w.
            (x : Run) → IsLawful t g → IsUndoing t g v self.old.txns x txn.0 0 at
            → serial.is_live x.so_far.live txn.0 ≡ true → Stays t g v w x) }
        ensures undid { let t = table_of record_meaning range_meaning ops.now in
            AsMeantBy t (E.view self.old.engine) (E.view self.new.engine) (λ g v w.
            (x : Run) → IsLawful t g → IsUndoing t g v self.old.txns x txn.0 0 at
            → serial.is_live x.so_far.live txn.0 ≡ true
            → Undid t g v w self.old.txns x txn.0 at result) }
        ensures failed { IfErr result (λ e. IsDiskFault e
            → HasRisen (E.view self.old.engine).faults (E.view self.new.engine).faults) }
        ensures log_end { IfErr result (IsNearEnd (E.view self.new.engine).tail) }
        ensures later { (E.view self.old.engine).faults ≤ (E.view self.new.engine).faults }
        ensures tail { (E.view self.old.engine).tail ≤ (E.view self.new.engine).tail }
        ensures core { core_of self.new ≡ core_of self.old }
        ensures quiet { OnOk result ((E.view self.new.engine).faults ≡ (E.view self.old.engine).faults) }
        ensures accounts { AccountsFor IsDiskFault (E.view self.old.engine) (E.view self.new.engine) result }
    {
        let after = match self.engine.undo_step(txn, &mut self.note) {
            Ok(Some(after)) => after,
            Ok(None) => return Ok(None),
            Err(fault) => return Err(fault),
        };
        if after >= at {
            return Err(self.engine.broken());
        }
        match self.engine.reverse(ops, &self.note) {
            Ok(()) => {}
            Err(fault) => return Err(fault),
        }
        match self.engine.end_undo(txn, after) {
            Ok(()) => Ok(Some(after)),
            Err(fault) => Err(fault),
        }
    }

    // Undoes all that a live transaction has done, its last action first.
    fn undo_all(&mut self, ops: &Ops, txn: TxnId) -> Result<(), SpaceFault>
        requires live { IsTrue (is_live self.old.txns txn.0) }
        requires can { let t = table_of record_meaning range_meaning ops.now in
            AskedBy t (E.view self.old.engine) (IsRunning self.old.txns t) }
        ensures means { KeepsBy (table_of record_meaning range_meaning ops.now) (E.view self.old.engine) (E.view self.new.engine) }
        ensures told { (E.view self.new.engine).Told → (E.view self.old.engine).Told }
        ensures tells { OnOk result ((E.view self.old.engine).Told → (E.view self.new.engine).Told) }
        ensures stays { let t = table_of record_meaning range_meaning ops.now in
            AsMeantBy t (E.view self.old.engine) (E.view self.new.engine) (λ g v w.
            (x : Run) → IsLawful t g → IsKept t g v self.old.txns x
            → serial.is_live x.so_far.live txn.0 ≡ true → Stays t g v w x) }
        ensures undone { let t = table_of record_meaning range_meaning ops.now in
            OnOk result (AsMeantBy t (E.view self.old.engine) (E.view self.new.engine) (λ g v w.
            (x : Run) → IsLawful t g → IsKept t g v self.old.txns x
            → serial.is_live x.so_far.live txn.0 ≡ true → IsUndone t g w self.old.txns x txn.0)) }
        ensures stock { let t = table_of record_meaning range_meaning ops.now in
            OnOk result (AsMeantBy t (E.view self.old.engine) (E.view self.new.engine) (λ g v w.
            (x : Run) → IsLawful t g → IsKept t g v self.old.txns x
            → serial.is_live x.so_far.live txn.0 ≡ true → BacksStock t g v w (is_of txn.0))) }
        ensures failed { IfErr result (λ e. IsDiskFault e
            → HasRisen (E.view self.old.engine).faults (E.view self.new.engine).faults) }
        ensures log_end { IfErr result (IsNearEnd (E.view self.new.engine).tail) }
        ensures later { (E.view self.old.engine).faults ≤ (E.view self.new.engine).faults }
        ensures tail { (E.view self.old.engine).tail ≤ (E.view self.new.engine).tail }
        ensures core { core_of self.new ≡ core_of self.old }
        ensures quiet { OnOk result ((E.view self.new.engine).faults ≡ (E.view self.old.engine).faults) }
        ensures accounts { AccountsFor IsDiskFault (E.view self.old.engine) (E.view self.new.engine) result }
    {
        let mut at = self.engine.tail();
        'notes: loop {
            match self.undo_one(ops, txn, at) {
                Ok(Some(after)) => at = after,
                Ok(None) => return Ok(()),
                Err(fault) => return Err(fault),
            }
        }
    }

    /// Takes back what the transaction did, and it is no more.
    pub fn abort(&mut self, ops: &Ops, txn: TxnId) -> Result<(), Refused>
        requires serves { Serves (table_of record_meaning range_meaning ops.now) self.old }
        ensures serves { Serves (table_of record_meaning range_meaning ops.now) self.new }
        // what is durable is as before
        ensures rests { let t = table_of record_meaning range_meaning ops.now in
            (live : List ℕ) (objects durable : Model) → Has t self.old live objects durable
            → OnOk result (AskedBy t (E.view self.new.engine) (HasAborted txn.0 live durable (core_of self.new) t)) }
        ensures told { (E.view self.new.engine).Told → (E.view self.old.engine).Told }
        ensures means { KeepsBy (table_of record_meaning range_meaning ops.now) (E.view self.old.engine) (E.view self.new.engine) }
        ensures aborts { let t = table_of record_meaning range_meaning ops.now in
            AsMeantBy t (E.view self.old.engine) (E.view self.new.engine) (λ g v w.
            (x : Run) → IsLawful t g → Shows t g v (core_of self.old) x
            → Goes t g v x (Aborts w.tail v.faults w.faults txn.0 x result) w (core_of self.new)) }
        // all that the transaction did to the stock is undone, but for the greatest sizes
        ensures stock { let t = table_of record_meaning range_meaning ops.now in
            OnOk result (AsMeantBy t (E.view self.old.engine) (E.view self.new.engine) (λ g v w.
            (x : Run) → IsLawful t g → Shows t g v (core_of self.old) x
            → (r : RunStock) → ShowsStock t g v r → ShowsStock t g w (backed (is_of txn.0) r))) }
        // where it is refused, and the store hasn't stopped, it is left alone
        ensures stock_left { let t = table_of record_meaning range_meaning ops.now in
            self.new.stop ≡ None → OnErr result (AsMeantBy t (E.view self.old.engine) (E.view self.new.engine) (λ g v w.
            (x : Run) → IsLawful t g → Shows t g v (core_of self.old) x → LeavesStock t g v w)) }
        // on any engine
        ensures causes { EndsFor txn.0 (E.view self.old.engine) (E.view self.new.engine) (core_of self.old) (core_of self.new) result }
        ensures asks { IfErr result (λ e. AsksNothing e → self.new ≡ self.old) }
        ensures heeds { Heeds self.old.stop self.new.stop (E.view self.old.engine) (E.view self.new.engine) }
    {
        if self.stop.is_some() {
            return Err(Refused::Stopped);
        }
        if !self.txns.is_live(txn) {
            return Err(Refused::NoTxn);
        }
        match self.undo_all(ops, txn) {
            Ok(()) => {}
            Err(fault) => return Err(self.halt(fault)),
        }
        match self.engine.end(txn) {
            Ok(()) => {
                self.forget(txn);
                Ok(())
            }
            Err(fault) => Err(self.halt(fault)),
        }
    }

    // Makes the log durable with a record of where its redo has to begin, and writes all that was done home.
    fn settle(&mut self) -> Result<(), Refused>
        requires serves { IsServed self.old }
        ensures means { Keeps (E.view self.old.engine) (E.view self.new.engine) }
        ensures closes { AsMeant (E.view self.old.engine) (E.view self.new.engine) (λ t g v w.
            (x : Run) → IsLawful t g → Shows t g v (core_of self.old) x
            → Goes t g v x (Checkpoints w.tail v.faults w.faults x result) w (core_of self.new)) }
        ensures written { OnOk result ((lsn : ℕ) → E.unwritten self.new.engine lsn → ⊥) }
        ensures ends { OnOk result ((E.view self.old.engine).Told → HasMarked (E.view self.old.engine).tail (E.unwritten self.old.engine) (E.marked self.new.engine) E.ends_at (E.view self.new.engine).disk.now) }
        ensures stock { self.new.stop ≡ None → AsMeant (E.view self.old.engine) (E.view self.new.engine) (λ t g v w.
            (x : Run) → IsLawful t g → Shows t g v (core_of self.old) x → LeavesStock t g v w) }
        // on any engine
        ensures causes { ClosesFor (E.view self.old.engine) (E.view self.new.engine) (core_of self.old) (core_of self.new) result }
        ensures stop { self.new.stop ≡ stop_behind self.old.stop result }
        ensures stopped { IsSome self.old.stop → (self.new ≡ self.old) × (result ≡ Err Refused.Stopped) }
        ensures heeds { Heeds self.old.stop self.new.stop (E.view self.old.engine) (E.view self.new.engine) }
    {
        match self.checkpoint() {
            Ok(()) => self.flush(),
            Err(why) => Err(why),
        }
    }

    /// Makes the log durable with a record of where its redo has to begin, writes all that was done home, and
    /// hands the engine back, with why one of these failed if it did. What live transactions did is undone
    /// where the store is opened again.
    pub fn close(self) -> (Result<(), Refused>, E)
        requires serves { IsServed self }
        ensures means { Keeps (E.view self.engine) (E.view result.1) }
        ensures closes { AsMeant (E.view self.engine) (E.view result.1) (λ t g v w.
            (x : Run) → IsLawful t g → Shows t g v (core_of self) x
            → (m : Core) × Goes t g v x (Checkpoints w.tail v.faults w.faults x result.0) w m) }
        ensures written { OnOk result.0 ((lsn : ℕ) → E.unwritten result.1 lsn → ⊥) }
        // the last record of each image that a crash leaves now is the checkpoint
        ensures ends { OnOk result.0 ((E.view self.engine).Told → HasMarked (E.view self.engine).tail (E.unwritten self.engine) (E.marked result.1) E.ends_at (E.view result.1).disk.now) }
        ensures stock { OnOk result.0 (AsMeant (E.view self.engine) (E.view result.1) (λ t g v w.
            (x : Run) → IsLawful t g → Shows t g v (core_of self) x → LeavesStock t g v w)) }
        // on any engine
        ensures causes { (m : Core) × ClosesFor (E.view self.engine) (E.view result.1) (core_of self) m result.0 }
        ensures fault { IfErr result.0 (λ e. e ≡ Refused.DiskFault → HasRisen (E.view self.engine).faults (E.view result.1).faults) }
        ensures stopped { IsSome self.stop → (result.1 ≡ self.engine) × (result.0 ≡ Err Refused.Stopped) }
        ensures heeds { Heeds self.stop (stop_behind self.stop result.0) (E.view self.engine) (E.view result.1) }
    {
        let mut store = self;
        let done = store.settle();
        let Store {
            engine,
            locks,
            txns,
            touches: _,
            note: _,
            stop: _,
        } = store;
        drop(locks);
        drop(txns);
        (done, engine)
    }

    /// Makes the log durable and writes all that was done home, with no checkpoint, and hands the engine back, with why that failed if it
    /// did: the end of a store that was only read. What live transactions did is undone where the store is opened again.
    pub fn close_unmarked(self) -> (Result<(), Refused>, E)
        requires serves { IsServed self }
        ensures means { Keeps (E.view self.engine) (E.view result.1) }
        ensures flushes { AsMeant (E.view self.engine) (E.view result.1) (λ t g v w.
            (x : Run) → IsLawful t g → Shows t g v (core_of self) x
            → (m : Core) × Goes t g v x (Flushes v.faults w.faults x result.0) w m) }
        ensures written { OnOk result.0 ((lsn : ℕ) → E.unwritten result.1 lsn → ⊥) }
        // on any engine
        ensures causes { (m : Core) × FlushesFor (E.view self.engine) (E.view result.1) (core_of self) m result.0 }
        ensures stopped { IsSome self.stop → (result.1 ≡ self.engine) × (result.0 ≡ Err Refused.Stopped) }
        ensures heeds { Heeds self.stop (stop_behind self.stop result.0) (E.view self.engine) (E.view result.1) }
    {
        let mut store = self;
        let done = store.flush();
        let Store {
            engine,
            locks,
            txns,
            touches: _,
            note: _,
            stop: _,
        } = store;
        drop(locks);
        drop(txns);
        (done, engine)
    }
}

impl<E: Marks> Store<E> {
    ghost use Rattle.std.specs.Prelude.{OnOk, IfErr, IfSome, Some, None, true, ◌≤◌};
    ghost use Rattle.sg_base.specs.Ends.{HasRisen};
    ghost use Rattle.sg_serial.specs.Runs as serial;
    ghost use Rattle.sg_serial.specs.Runs.{nth_mark};
    ghost use Rattle.sg_core.specs.Live.{marks_of};
    ghost use Rattle.sg_store.specs.Causes.{AsksNoMark, SavesFor, RollsFor};
    ghost use Rattle.sg_ops.specs.Table.{Table as Operations, table_of};
    ghost use Rattle.sg_run.specs.Run.{Run};
    ghost use Rattle.sg_model.specs.Objects.{Objects as Model};
    ghost use Rattle.sg_store.specs.Accounting.{AccountsFor};
    ghost use Rattle.sg_store.specs.Asks.{HasMark, IsGoingBack};
    ghost use Rattle.sg_store.specs.Drops.{given_by};
    ghost use Rattle.sg_store.specs.Ground.{IsLawful};
    ghost use Rattle.sg_store.specs.Store.{Shows, IsKept, IsUndoing};
    ghost use Rattle.sg_store.specs.Engine.{Keeps, KeepsBy, AsMeant, AsMeantBy, AskedBy, IfMeant, IsDiskFault, IsNearEnd};
    ghost use Rattle.sg_store.specs.Rests.{Has, HasGoneBack};
    ghost use Rattle.sg_store.specs.Room.{ShowsStock, BacksStock, is_behind};
    ghost use Rattle.sg_room.specs.Steps.{RunStock, backed};
    ghost use Rattle.sg_store.specs.Calls.{Goes, Stays, Saves, RollsBack, UndidTo, IsBack};
    ghost use Rattle.sg_store.specs.Stock.{LeavesStock};
    ghost use Rattle.sg_store.specs.Seen.{core_of, Serves, IsServed};
    ghost use Rattle.sg_store.specs.Heeds.{Heeds};

    /// Sets a mark of a live transaction, of which it has 16 at most, and answers its number: the first is 1.
    pub fn save(&mut self, txn: TxnId) -> Result<u16, MarkRefused>
        requires serves { IsServed self.old }
        ensures serves { (t : Operations) → Serves t self.old → Serves t self.new }
        // the transactions and the objects are as before
        ensures rests { (t : Operations) (live : List ℕ) (objects durable : Model) → Has t self.old live objects durable
            → OnOk result (Has t self.new live objects durable) }
        ensures told { (E.view self.new.engine).Told → (E.view self.old.engine).Told }
        ensures means { Keeps (E.view self.old.engine) (E.view self.new.engine) }
        ensures saves { AsMeant (E.view self.old.engine) (E.view self.new.engine) (λ t g v w.
            (x : Run) → IsLawful t g → Shows t g v (core_of self.old) x
            → Goes t g v x (Saves v.tail v.faults w.faults txn.0 x result) w (core_of self.new)) }
        // unless the store has stopped, the stock is left alone
        ensures stock { self.new.stop ≡ None → AsMeant (E.view self.old.engine) (E.view self.new.engine) (λ t g v w.
            (x : Run) → IsLawful t g → Shows t g v (core_of self.old) x → LeavesStock t g v w) }
        // on any engine
        ensures causes { SavesFor txn.0 (E.view self.old.engine) (E.view self.new.engine) (core_of self.old) (core_of self.new) result }
        ensures asks { IfErr result (λ e. (e ≡ MarkRefused.Store Refused.DiskFault → ⊥) → self.new ≡ self.old) }
        ensures heeds { Heeds self.old.stop self.new.stop (E.view self.old.engine) (E.view self.new.engine) }
    {
        if self.stop.is_some() {
            return Err(MarkRefused::Store(Refused::Stopped));
        }
        if !self.txns.is_live(txn) {
            return Err(MarkRefused::Store(Refused::NoTxn));
        }
        let count = self.txns.marks(txn);
        if count >= MOST_MARKS {
            return Err(MarkRefused::MarksFull);
        }
        if self.engine.tail() > NEW_WORK_END {
            return Err(MarkRefused::Store(Refused::LogEnd));
        }
        match self.engine.save(txn, count + 1) {
            Ok(at) => Ok(self.txns.push_mark(txn, at)),
            Err(_) => {
                self.stop = Some(Stop::Disk);
                Err(MarkRefused::Store(Refused::DiskFault))
            }
        }
    }

    // Undoes the last action of a live transaction that stands behind the record with the number `stop`, which no
    // note above `at` does, and answers the number behind which undoing goes on.
    fn undo_one_to(
        &mut self,
        ops: &Ops,
        txn: TxnId,
        stop: Lsn,
        at: Lsn,
    ) -> Result<Option<Lsn>, SpaceFault>
        requires can { let t = table_of record_meaning range_meaning ops.now in
            AskedBy t (E.view self.old.engine) (IsGoingBack self.old.txns txn.0 stop at t) }
        ensures falls { IfOk result (λ r. IfSome r (λ after. after < at)) }
        ensures means { KeepsBy (table_of record_meaning range_meaning ops.now) (E.view self.old.engine) (E.view self.new.engine) }
        ensures told { (E.view self.new.engine).Told → (E.view self.old.engine).Told }
        ensures tells { OnOk result ((E.view self.old.engine).Told → (E.view self.new.engine).Told) }
        ensures stays { let t = table_of record_meaning range_meaning ops.now in
            AsMeantBy t (E.view self.old.engine) (E.view self.new.engine) (λ g v w.
            (x : Run) → IsLawful t g → IsUndoing t g v self.old.txns x txn.0 (stop + 1) at
            → serial.is_live x.so_far.live txn.0 ≡ true → Stays t g v w x) }
        ensures undid { let t = table_of record_meaning range_meaning ops.now in
            AsMeantBy t (E.view self.old.engine) (E.view self.new.engine) (λ g v w.
            (x : Run) → IsLawful t g → IsUndoing t g v self.old.txns x txn.0 (stop + 1) at
            → serial.is_live x.so_far.live txn.0 ≡ true
            → UndidTo t g v w self.old.txns x txn.0 stop at self.new.note result) }
        ensures failed { IfErr result (λ e. IsDiskFault e
            → HasRisen (E.view self.old.engine).faults (E.view self.new.engine).faults) }
        ensures log_end { IfErr result (IsNearEnd (E.view self.new.engine).tail) }
        ensures later { (E.view self.old.engine).faults ≤ (E.view self.new.engine).faults }
        ensures tail { (E.view self.old.engine).tail ≤ (E.view self.new.engine).tail }
        ensures core { core_of self.new ≡ core_of self.old }
        ensures quiet { OnOk result ((E.view self.new.engine).faults ≡ (E.view self.old.engine).faults) }
        ensures accounts { AccountsFor IsDiskFault (E.view self.old.engine) (E.view self.new.engine) result }
    {
        let next = match self.engine.undo_step_to(txn, stop, &mut self.note) {
            Ok(Some(next)) => next,
            Ok(None) => return Ok(None),
            Err(fault) => return Err(fault),
        };
        if next >= at {
            return Err(self.engine.broken());
        }
        match self.engine.reverse(ops, &self.note) {
            Ok(()) => {}
            Err(fault) => return Err(fault),
        }
        match self.engine.end_undo(txn, next) {
            Ok(()) => Ok(Some(next)),
            Err(fault) => Err(fault),
        }
    }

    // A live transaction gives back the page that it had reserved for the note that was undone, if that wants one.
    fn give_back(&mut self, txn: TxnId)
        requires { IsTrue (is_live self.old.txns txn.0) }
        ensures core { core_of self.new ≡ record (core_of self.old) { live = self.new.txns } }
        ensures live { IsTrue (is_live self.new.txns txn.0) }
        ensures engine { self.new.engine ≡ self.old.engine }
        ensures given { IfMeant (E.view self.old.engine) (λ t g v.
            self.new.txns ≡ given_by (g.wants (g.note self.old.note)) txn.0 self.old.txns) }
    {
        if !self.engine.wants_page(&self.note) {
            return;
        }
        self.txns.unreserve(txn);
    }

    // Undoes what a live transaction has done behind the record with the number `stop`, its last action first.
    fn undo_to(&mut self, ops: &Ops, txn: TxnId, stop: Lsn) -> Result<(), SpaceFault>
        requires live { IsTrue (is_live self.old.txns txn.0) }
        requires can { let t = table_of record_meaning range_meaning ops.now in
            AskedBy t (E.view self.old.engine) (HasMark self.old.txns txn.0 stop t) }
        ensures means { KeepsBy (table_of record_meaning range_meaning ops.now) (E.view self.old.engine) (E.view self.new.engine) }
        ensures told { (E.view self.new.engine).Told → (E.view self.old.engine).Told }
        ensures tells { OnOk result ((E.view self.old.engine).Told → (E.view self.new.engine).Told) }
        ensures stays { let t = table_of record_meaning range_meaning ops.now in
            AsMeantBy t (E.view self.old.engine) (E.view self.new.engine) (λ g v w.
            (x : Run) → IsLawful t g → IsKept t g v self.old.txns x
            → serial.is_live x.so_far.live txn.0 ≡ true → Stays t g v w x) }
        ensures undone { let t = table_of record_meaning range_meaning ops.now in
            OnOk result (AsMeantBy t (E.view self.old.engine) (E.view self.new.engine) (λ g v w.
            (x : Run) → IsLawful t g → IsKept t g v self.old.txns x
            → serial.is_live x.so_far.live txn.0 ≡ true → IsBack t g w self.new.txns x txn.0 stop)) }
        ensures stock { let t = table_of record_meaning range_meaning ops.now in
            OnOk result (AsMeantBy t (E.view self.old.engine) (E.view self.new.engine) (λ g v w.
            (x : Run) → IsLawful t g → IsKept t g v self.old.txns x
            → serial.is_live x.so_far.live txn.0 ≡ true → BacksStock t g v w (is_behind txn.0 stop))) }
        ensures failed { IfErr result (λ e. IsDiskFault e
            → HasRisen (E.view self.old.engine).faults (E.view self.new.engine).faults) }
        ensures log_end { IfErr result (IsNearEnd (E.view self.new.engine).tail) }
        ensures later { (E.view self.old.engine).faults ≤ (E.view self.new.engine).faults }
        ensures tail { (E.view self.old.engine).tail ≤ (E.view self.new.engine).tail }
        ensures core { core_of self.new ≡ record (core_of self.old) { live = self.new.txns } }
        ensures live { IsTrue (is_live self.new.txns txn.0) }
        ensures quiet { OnOk result ((E.view self.new.engine).faults ≡ (E.view self.old.engine).faults) }
        ensures accounts { AccountsFor IsDiskFault (E.view self.old.engine) (E.view self.new.engine) result }
    {
        let mut at = self.engine.tail();
        'notes: loop {
            match self.undo_one_to(ops, txn, stop, at) {
                Ok(Some(after)) => {
                    self.give_back(txn);
                    at = after;
                }
                Ok(None) => return Ok(()),
                Err(fault) => return Err(fault),
            }
        }
    }

    /// Takes back what the transaction did behind its mark with this number. It is still live, holds what it held,
    /// and has its marks up to this one.
    pub fn rollback_to(&mut self, ops: &Ops, txn: TxnId, mark: u16) -> Result<(), MarkRefused>
        requires serves { Serves (table_of record_meaning range_meaning ops.now) self.old }
        ensures serves { Serves (table_of record_meaning range_meaning ops.now) self.new }
        // the transactions are as before, and so is what is durable
        ensures rests { let t = table_of record_meaning range_meaning ops.now in
            (live : List ℕ) (objects durable : Model) → Has t self.old live objects durable
            → OnOk result (AskedBy t (E.view self.new.engine) (HasGoneBack live durable (core_of self.new) t)) }
        ensures told { (E.view self.new.engine).Told → (E.view self.old.engine).Told }
        ensures means { KeepsBy (table_of record_meaning range_meaning ops.now) (E.view self.old.engine) (E.view self.new.engine) }
        ensures rolls_back { let t = table_of record_meaning range_meaning ops.now in
            AsMeantBy t (E.view self.old.engine) (E.view self.new.engine) (λ g v w.
            (x : Run) → IsLawful t g → Shows t g v (core_of self.old) x
            → Goes t g v x (RollsBack w.tail v.faults w.faults txn.0 mark x result) w (core_of self.new)) }
        // what the transaction did to the stock behind the mark is undone, but for the greatest sizes
        ensures stock { let t = table_of record_meaning range_meaning ops.now in
            OnOk result (AsMeantBy t (E.view self.old.engine) (E.view self.new.engine) (λ g v w.
            (x : Run) → IsLawful t g → Shows t g v (core_of self.old) x
            → (at : ℕ) → nth_mark mark (marks_of self.old.txns txn.0) ≡ Some at
            → (r : RunStock) → ShowsStock t g v r → ShowsStock t g w (backed (is_behind txn.0 at) r))) }
        // on any engine
        ensures causes { RollsFor txn.0 mark (E.view self.old.engine) (E.view self.new.engine) (core_of self.old) (core_of self.new) result }
        ensures asks { IfErr result (λ e. AsksNoMark e → self.new ≡ self.old) }
        ensures heeds { Heeds self.old.stop self.new.stop (E.view self.old.engine) (E.view self.new.engine) }
    {
        if self.stop.is_some() {
            return Err(MarkRefused::Store(Refused::Stopped));
        }
        if !self.txns.is_live(txn) {
            return Err(MarkRefused::Store(Refused::NoTxn));
        }
        let Some(at) = self.txns.mark(txn, mark) else {
            return Err(MarkRefused::NoMark);
        };
        match self.undo_to(ops, txn, at) {
            Ok(()) => {
                self.txns.cut_marks(txn, mark);
                Ok(())
            }
            Err(fault) => Err(MarkRefused::Store(self.halt(fault))),
        }
    }
}

impl<E: Truncates> Store<E> {
    ghost use Rattle.std.specs.Prelude.{OnOk, IfErr, None, option_map, slice_get};
    ghost use Rattle.sg_checkpoints.specs.Cutting.{IsCut};
    ghost use Rattle.sg_core.specs.Live.{number_of};
    ghost use Rattle.sg_store.specs.Causes.{AsksNothing, FlushesFor};
    ghost use Rattle.sg_ops.specs.Table.{Table as Operations};
    ghost use Rattle.sg_run.specs.Run.{Run};
    ghost use Rattle.sg_model.specs.Objects.{Objects as Model};
    ghost use Rattle.sg_store.specs.Ground.{IsLawful};
    ghost use Rattle.sg_store.specs.Store.{Shows};
    ghost use Rattle.sg_store.specs.Engine.{Keeps, AsMeant};
    ghost use Rattle.sg_store.specs.Rests.{Has};
    ghost use Rattle.sg_store.specs.Calls.{Goes, Flushes};
    ghost use Rattle.sg_store.specs.Stock.{LeavesStock};
    ghost use Rattle.sg_store.specs.Seen.{core_of, Serves, IsServed};
    ghost use Rattle.sg_store.specs.Heeds.{Heeds};

    /// Cuts off of the log what isn't wanted any more: it begins then with the frame that holds the least of the
    /// changes that aren't home, the begin of the live transaction that began first, and the last checkpoint.
    /// Without a checkpoint nothing is cut. The objects, the transactions and what each image stands for stay.
    pub fn truncate(&mut self) -> Result<(), Refused>
        requires serves { IsServed self.old }
        ensures serves { (t : Operations) → Serves t self.old → Serves t self.new }
        ensures rests { (t : Operations) (live : List ℕ) (objects durable : Model) → Has t self.old live objects durable
            → OnOk result (Has t self.new live objects durable) }
        ensures told { (E.view self.new.engine).Told → (E.view self.old.engine).Told }
        ensures means { Keeps (E.view self.old.engine) (E.view self.new.engine) }
        ensures truncates { AsMeant (E.view self.old.engine) (E.view self.new.engine) (λ t g v w.
            (x : Run) → IsLawful t g → Shows t g v (core_of self.old) x
            → Goes t g v x (Flushes v.faults w.faults x result) w (core_of self.new)) }
        // where the log begins now, which is the byte from which `log_bytes` counts
        ensures cuts { OnOk result ((E.view self.old.engine).Told → IsCut (E.unwritten self.old.engine) (option_map number_of (slice_get self.old.txns 0)) (E.last_checkpoint self.old.engine) (E.is_spent self.old.engine)
            (E.view self.old.engine).start (E.view self.new.engine).start (E.first_frame_end self.new.engine)) }
        ensures stock { self.new.stop ≡ None → AsMeant (E.view self.old.engine) (E.view self.new.engine) (λ t g v w.
            (x : Run) → IsLawful t g → Shows t g v (core_of self.old) x → LeavesStock t g v w) }
        // on any engine
        ensures causes { FlushesFor (E.view self.old.engine) (E.view self.new.engine) (core_of self.old) (core_of self.new) result }
        ensures asks { IfErr result (λ e. AsksNothing e → self.new ≡ self.old) }
        ensures heeds { Heeds self.old.stop self.new.stop (E.view self.old.engine) (E.view self.new.engine) }
    {
        if self.stop.is_some() {
            return Err(Refused::Stopped);
        }
        let first = self.txns.oldest();
        match self.engine.truncate(first) {
            Ok(()) => Ok(()),
            Err(fault) => Err(self.halt(fault)),
        }
    }
}
