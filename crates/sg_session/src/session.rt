ghost use Rattle.std.specs.Prelude.{◌≡◌, ◌≤◌, [], ℕ, List, Some, None, IsSome, IfOk, IfErr, OnOk, OnErr, length};
ghost use Rattle.sg_ops.specs.Table.{table_of};
ghost use Rattle.sg_model.specs.SaidOps.{said_op};
ghost use Rattle.sg_base.specs.Ends.{HasRisen, Takes, TakesFront};
ghost use Rattle.sg_words.specs.Answered.{shown_answer};
ghost use Rattle.sg_words.specs.Answers.{text_of_answer};
ghost use Rattle.sg_words.specs.Requests.Asked.{Of};
ghost use Rattle.sg_words.specs.Requests.Request.{Begin, Commit, Abort, Do};
ghost use Rattle.sg_model.specs.Verb.Op.{On, Names as AllNames};
ghost use Rattle.sg_model.specs.Verb.Verb.{Keys};
ghost use Rattle.sg_store.specs.Stops.{stop_behind};
ghost use Rattle.sg_session.specs.Answered.{shown};

use crate::answered::{Answered, write_answered};
use crate::names::Names;
use sg_base::{Failed, Name, OutOfMemory, Sink};
use sg_model::{Op, Reply, Stop};
use sg_ops::Ops;
use sg_store::{Lists, Marks, Objects, Refused, Store, Truncates};
use sg_words::{
    Answer, Asked, Marking, Request, Upkeep, parse_marking, parse_request, parse_upkeep,
};
use std::alloc::Global;

// Why a store has stopped behind a call, if it has.
fn stopped_by(before: Option<Stop>, done: Result<(), Refused>) -> Option<Stop>
    ensures { result ≡ stop_behind before done }
{
    match done {
        Err(Refused::DiskFault) => Some(Stop::Disk),
        Err(Refused::LogEnd) => Some(Stop::LogEnd),
        _ => before,
    }
}

/// A store over a page engine that answers the lines of a script, one at a time.
pub struct Session<E: Objects> {
    store: Store<E>,
    names: Names,
}

impl<E: Objects> Session<E> {
    ghost use Rattle.sg_ops.specs.Table.{Table as Operations};
    ghost use Rattle.std.specs.Prelude.{◌⊎◌};
    ghost use Rattle.sg_run.specs.Run.{Run};
    ghost use Rattle.sg_run.specs.Numbers.{IsAtEnd};
    ghost use Rattle.sg_store.specs.Ground.{IsLawful};
    ghost use Rattle.sg_store.specs.Engine.{Keeps, KeepsBy, AsMeant, AsMeantBy};
    ghost use Rattle.sg_store.specs.Seen as stores;
    ghost use Rattle.sg_session.specs.Lines.Line.{OfStore, Other};
    ghost use Rattle.sg_session.specs.Names.{all_live};
    ghost use Rattle.sg_session.specs.Shows.{Shows};
    ghost use Rattle.sg_store.specs.Heeds.{Heeds};
    ghost use Rattle.sg_session.specs.Causes.{Caused};
    ghost use Rattle.sg_session.specs.Goes.{Goes};
    ghost use Rattle.sg_session.specs.Ending.{HasAborted, IsClosed, IsEnded};
    ghost use Rattle.sg_checkpoints.specs.Checkpoints.{EndsMarked};
    ghost use Rattle.sg_session.specs.Seen.{session_core, session_engine, Serves, IsServed, HasKeptUp, HandsAtCommit};

    /// A session over a store that has no live transaction. Where memory is refused the store is handed
    /// back; no other call takes any.
    pub fn new(store: Store<E>, alloc: Global) -> Result<Session<E>, Store<E>>
        requires none { (stores.core_of store).live ≡ [] }
        ensures core { IfOk result (λ s. session_core s ≡ record { store = stores.core_of store; names = [] }) }
        ensures engine { IfOk result (λ s. session_engine s ≡ store.engine) }
        ensures back { IfErr result (λ s. s ≡ store) }
        ensures serves { (t : Operations) → stores.Serves t store → IfOk result (λ s. Serves t s) }
    {
        match Names::new(alloc) {
            Ok(names) => Ok(Session::over(store, names)),
            Err(OutOfMemory) => Err(store),
        }
    }

    /// A session over a store that has no live transaction, with room for the names of those that begin. So
    /// the room may be made before the store is opened. It takes no memory.
    pub fn over(store: Store<E>, names: Names) -> Session<E>
        requires none { (stores.core_of store).live ≡ [] }
        requires unnamed { all_live names.all.items ≡ [] }
        ensures core { session_core result ≡ record { store = stores.core_of store; names = [] } }
        ensures engine { session_engine result ≡ store.engine }
        ensures serves { (t : Operations) → stores.Serves t store → Serves t result }
    {
        Session { store, names }
    }

    /// Why the store has stopped, if it has.
    pub fn stop(&self) -> Option<Stop>
        ensures { result ≡ self.now.store.stop }
    {
        self.store.stop()
    }

    // A transaction with this name begins.
    fn begin(&mut self, name: Name) -> Answer
        requires running { self.old.store.stop ≡ None }
        requires serves { IsServed self.old }
        ensures caused { (into : List ℕ) → Caused (E.view self.old.store.engine) (E.view self.new.store.engine) self.old.store.stop self.new.store.stop (Other (Of name Begin)) (shown_answer into result) }
        ensures told { (E.view self.new.store.engine).Told → (E.view self.old.store.engine).Told }
        ensures heeds { Heeds self.old.store.stop self.new.store.stop (E.view self.old.store.engine) (E.view self.new.store.engine) }
        ensures means { Keeps (E.view self.old.store.engine) (E.view self.new.store.engine) }
        ensures goes { (into : List ℕ) → AsMeant (E.view self.old.store.engine) (E.view self.new.store.engine) (λ t g v w.
            (x : Run) → IsLawful t g → Shows t g v (session_core self.old) x
            → Goes t g v x (Other (Of name Begin)) (shown_answer into result) w (session_core self.new)) }
    {
        if self.names.named(name).is_some() {
            return Answer::IsLive;
        }
        if self.names.is_full() {
            return Answer::TooManyLive;
        }
        match self.store.begin() {
            Ok(txn) => {
                self.names.add(name, txn);
                Answer::Said(Reply::Done)
            }
            Err(why) => self.names.answer_to(why),
        }
    }

    // The transaction with this name commits.
    fn commit(&mut self, ops: &Ops, name: Name) -> Answer
        requires running { self.old.store.stop ≡ None }
        requires serves { Serves (table_of record_meaning range_meaning ops.now) self.old }
        ensures caused { (into : List ℕ) → Caused (E.view self.old.store.engine) (E.view self.new.store.engine) self.old.store.stop self.new.store.stop (Other (Of name Commit)) (shown_answer into result) }
        ensures hands { HandsAtCommit (Other (Of name Commit)) self.old self.new }
        ensures told { (E.view self.new.store.engine).Told → (E.view self.old.store.engine).Told }
        ensures heeds { Heeds self.old.store.stop self.new.store.stop (E.view self.old.store.engine) (E.view self.new.store.engine) }
        ensures means { KeepsBy (table_of record_meaning range_meaning ops.now) (E.view self.old.store.engine) (E.view self.new.store.engine) }
        ensures goes { let t = table_of record_meaning range_meaning ops.now in
            (into : List ℕ) → AsMeantBy t (E.view self.old.store.engine) (E.view self.new.store.engine) (λ g v w.
            (x : Run) → IsLawful t g → Shows t g v (session_core self.old) x
            → Goes t g v x (Other (Of name Commit)) (shown_answer into result) w (session_core self.new)) }
    {
        let Some(named) = self.names.named(name) else {
            return Answer::NoTransaction;
        };
        match self.store.commit(ops, named.txn) {
            Ok(()) => {
                self.names.remove(named.txn);
                Answer::Said(Reply::Done)
            }
            Err(why) => self.names.answer_to(why),
        }
    }

    // The transaction with this name aborts.
    fn abort(&mut self, ops: &Ops, name: Name) -> Answer
        requires running { self.old.store.stop ≡ None }
        requires serves { Serves (table_of record_meaning range_meaning ops.now) self.old }
        ensures caused { (into : List ℕ) → Caused (E.view self.old.store.engine) (E.view self.new.store.engine) self.old.store.stop self.new.store.stop (Other (Of name Abort)) (shown_answer into result) }
        ensures told { (E.view self.new.store.engine).Told → (E.view self.old.store.engine).Told }
        ensures heeds { Heeds self.old.store.stop self.new.store.stop (E.view self.old.store.engine) (E.view self.new.store.engine) }
        ensures means { KeepsBy (table_of record_meaning range_meaning ops.now) (E.view self.old.store.engine) (E.view self.new.store.engine) }
        ensures goes { let t = table_of record_meaning range_meaning ops.now in
            (into : List ℕ) → AsMeantBy t (E.view self.old.store.engine) (E.view self.new.store.engine) (λ g v w.
            (x : Run) → IsLawful t g → Shows t g v (session_core self.old) x
            → Goes t g v x (Other (Of name Abort)) (shown_answer into result) w (session_core self.new)) }
    {
        let Some(named) = self.names.named(name) else {
            return Answer::NoTransaction;
        };
        match self.store.abort(ops, named.txn) {
            Ok(()) => {
                self.names.remove(named.txn);
                Answer::Said(Reply::Done)
            }
            Err(why) => self.names.answer_to(why),
        }
    }

    // All that was done is made durable, at its place.
    fn flush(&mut self) -> Answer
        requires running { self.old.store.stop ≡ None }
        requires serves { IsServed self.old }
        ensures caused { (into : List ℕ) → Caused (E.view self.old.store.engine) (E.view self.new.store.engine) self.old.store.stop self.new.store.stop (OfStore Upkeep.Flush) (shown_answer into result) }
        ensures kept_up { HasKeptUp (OfStore Upkeep.Flush) self.old self.new }
        ensures told { (E.view self.new.store.engine).Told → (E.view self.old.store.engine).Told }
        ensures heeds { Heeds self.old.store.stop self.new.store.stop (E.view self.old.store.engine) (E.view self.new.store.engine) }
        ensures means { Keeps (E.view self.old.store.engine) (E.view self.new.store.engine) }
        ensures goes { (into : List ℕ) → AsMeant (E.view self.old.store.engine) (E.view self.new.store.engine) (λ t g v w.
            (x : Run) → IsLawful t g → Shows t g v (session_core self.old) x
            → Goes t g v x (OfStore Upkeep.Flush) (shown_answer into result) w (session_core self.new)) }
    {
        match self.store.flush() {
            Ok(()) => Answer::Said(Reply::Done),
            Err(why) => self.names.answer_to(why),
        }
    }

    // The log is made durable, with a record of where its redo has to begin.
    fn checkpoint(&mut self) -> Answer
        requires running { self.old.store.stop ≡ None }
        requires serves { IsServed self.old }
        ensures caused { (into : List ℕ) → Caused (E.view self.old.store.engine) (E.view self.new.store.engine) self.old.store.stop self.new.store.stop (OfStore Upkeep.Checkpoint) (shown_answer into result) }
        ensures kept_up { HasKeptUp (OfStore Upkeep.Checkpoint) self.old self.new }
        ensures told { (E.view self.new.store.engine).Told → (E.view self.old.store.engine).Told }
        ensures heeds { Heeds self.old.store.stop self.new.store.stop (E.view self.old.store.engine) (E.view self.new.store.engine) }
        ensures means { Keeps (E.view self.old.store.engine) (E.view self.new.store.engine) }
        ensures goes { (into : List ℕ) → AsMeant (E.view self.old.store.engine) (E.view self.new.store.engine) (λ t g v w.
            (x : Run) → IsLawful t g → Shows t g v (session_core self.old) x
            → Goes t g v x (OfStore Upkeep.Checkpoint) (shown_answer into result) w (session_core self.new)) }
    {
        match self.store.checkpoint() {
            Ok(()) => Answer::Said(Reply::Done),
            Err(why) => self.names.answer_to(why),
        }
    }

    // The transaction with this name does an operation, whose bytes are the first of `into`.
    fn perform(&mut self, ops: &Ops, name: Name, op: &Op<'_>, into: &mut [u8]) -> Answer
        requires running { self.old.store.stop ≡ None }
        requires into { 8192 ≤ length into.old }
        requires serves { Serves (table_of record_meaning range_meaning ops.now) self.old }
        ensures caused { Caused (E.view self.old.store.engine) (E.view self.new.store.engine) self.old.store.stop self.new.store.stop (Other (Of name (Do (said_op op.now)))) (shown_answer into.new result) }
        ensures told { (E.view self.new.store.engine).Told → (E.view self.old.store.engine).Told }
        ensures heeds { Heeds self.old.store.stop self.new.store.stop (E.view self.old.store.engine) (E.view self.new.store.engine) }
        ensures means { KeepsBy (table_of record_meaning range_meaning ops.now) (E.view self.old.store.engine) (E.view self.new.store.engine) }
        ensures goes { let t = table_of record_meaning range_meaning ops.now in
            AsMeantBy t (E.view self.old.store.engine) (E.view self.new.store.engine) (λ g v w.
            (x : Run) → IsLawful t g → Shows t g v (session_core self.old) x
            → Goes t g v x (Other (Of name (Do (said_op op.now)))) (shown_answer into.new result) w (session_core self.new)) }
    {
        let Some(named) = self.names.named(name) else {
            return Answer::NoTransaction;
        };
        match self.store.perform(ops, named.txn, op, into) {
            Ok(reply) => Answer::Said(reply),
            Err(why) => self.names.answer_to(why),
        }
    }

    // Aborts the live transactions in order of begin, up to the first whose abort fails.
    fn abort_all(&mut self, ops: &Ops)
        requires running { self.old.store.stop ≡ None }
        requires serves { Serves (table_of record_meaning range_meaning ops.now) self.old }
        ensures serves { Serves (table_of record_meaning range_meaning ops.now) self.new }
        ensures means { KeepsBy (table_of record_meaning range_meaning ops.now) (E.view self.old.store.engine) (E.view self.new.store.engine) }
        ensures heeds { Heeds self.old.store.stop self.new.store.stop (E.view self.old.store.engine) (E.view self.new.store.engine) }
        // it stops for the log's end only where a record might pass that
        ensures full { self.new.store.stop ≡ Some Stop.LogEnd → IsAtEnd (E.view self.new.store.engine).tail }
        ensures aborts { let t = table_of record_meaning range_meaning ops.now in
            AsMeantBy t (E.view self.old.store.engine) (E.view self.new.store.engine) (λ g v w.
            (x : Run) → IsLawful t g → Shows t g v (session_core self.old) x
            → HasAborted t g v x w (session_core self.new)) }
    {
        'live: loop {
            let Some(first) = self.names.first() else {
                return;
            };
            match self.store.abort(ops, first.txn) {
                Ok(()) => self.names.remove(first.txn),
                Err(_) => return,
            }
        }
    }

    // Makes a checkpoint and writes all that was done home, unless the store has stopped, and hands back the
    // engine, with why the store has stopped, if it has.
    fn close(self) -> (Option<Stop>, E)
        requires serves { IsServed self }
        ensures means { Keeps (E.view (session_engine self)) (E.view result.1) }
        // a session that has stopped makes no call of its engine
        ensures stopped { IsSome self.store.stop → (result.1 ≡ session_engine self) × (result.0 ≡ self.store.stop) }
        // it stops for the log's end only where a record might pass that
        ensures full { result.0 ≡ Some Stop.LogEnd → (self.store.stop ≡ Some Stop.LogEnd) ⊎ IsAtEnd (E.view result.1).tail }
        ensures heeds { Heeds self.store.stop result.0 (E.view (session_engine self)) (E.view result.1) }
        // where it hasn't stopped all is home, and the last record of each image that a crash leaves now is a checkpoint
        ensures written { result.0 ≡ None → (lsn : ℕ) → E.unwritten result.1 lsn → ⊥ }
        ensures marked { result.0 ≡ None → (E.view (session_engine self)).Told → EndsMarked (E.view (session_engine self)).tail (E.marked result.1) E.ends_at (E.view result.1).disk.now }
        ensures closes { AsMeant (E.view (session_engine self)) (E.view result.1) (λ t g v w.
            (x : Run) → IsLawful t g → Shows t g v (session_core self) x → IsClosed t g v (session_core self) x result.0 w) }
    {
        let Session { store, names } = self;
        drop(names);
        let stop = store.stop();
        let (done, engine) = store.close();
        (stopped_by(stop, done), engine)
    }

    /// Ends the session. Unless the store has stopped, the live transactions abort in order of begin, a
    /// checkpoint is made, and all that was done is written home. Hands back the engine, with why the store
    /// has stopped, if it has.
    pub fn finish(self, ops: &Ops) -> (Option<Stop>, E)
        requires serves { Serves (table_of record_meaning range_meaning ops.now) self }
        ensures means { KeepsBy (table_of record_meaning range_meaning ops.now) (E.view (session_engine self)) (E.view result.1) }
        // a session that had stopped makes no call of its engine
        ensures stopped { IsSome self.store.stop → (result.1 ≡ session_engine self) × (result.0 ≡ self.store.stop) }
        // it stops for the log's end only where a record might pass that
        ensures full { result.0 ≡ Some Stop.LogEnd → (self.store.stop ≡ Some Stop.LogEnd) ⊎ IsAtEnd (E.view result.1).tail }
        ensures heeds { Heeds self.store.stop result.0 (E.view (session_engine self)) (E.view result.1) }
        // where it hasn't stopped all is home, and the last record of each image that a crash leaves now is a checkpoint
        ensures written { result.0 ≡ None → (lsn : ℕ) → E.unwritten result.1 lsn → ⊥ }
        ensures marked { result.0 ≡ None → (E.view (session_engine self)).Told → EndsMarked (E.view (session_engine self)).tail (E.marked result.1) E.ends_at (E.view result.1).disk.now }
        ensures ends { let t = table_of record_meaning range_meaning ops.now in
            AsMeantBy t (E.view (session_engine self)) (E.view result.1) (λ g v w.
            (x : Run) → IsLawful t g → Shows t g v (session_core self) x → IsEnded t g v x result.0 w) }
    {
        let mut session = self;
        if session.store.stop().is_some() {
            return session.close();
        }
        session.abort_all(ops);
        session.close()
    }
}

impl<E: Truncates> Session<E> {
    ghost use Rattle.sg_run.specs.Run.{Run};
    ghost use Rattle.sg_store.specs.Ground.{IsLawful};
    ghost use Rattle.sg_store.specs.Engine.{Keeps, AsMeant};
    ghost use Rattle.sg_store.specs.Heeds.{Heeds};
    ghost use Rattle.sg_session.specs.Lines.Line.{OfStore};
    ghost use Rattle.sg_session.specs.Shows.{Shows};
    ghost use Rattle.sg_session.specs.Causes.{Caused};
    ghost use Rattle.sg_session.specs.Goes.{Goes};
    ghost use Rattle.sg_session.specs.Seen.{session_core, IsServed, HasKeptUp, HasCut};

    // What isn't wanted any more is cut off of the log.
    fn truncate(&mut self) -> Answer
        requires running { self.old.store.stop ≡ None }
        requires serves { IsServed self.old }
        ensures caused { (into : List ℕ) → Caused (E.view self.old.store.engine) (E.view self.new.store.engine) self.old.store.stop self.new.store.stop (OfStore Upkeep.Truncate) (shown_answer into result) }
        ensures cuts { HasCut E.first_frame_end E.last_checkpoint E.is_spent (OfStore Upkeep.Truncate) self.old self.new }
        ensures told { (E.view self.new.store.engine).Told → (E.view self.old.store.engine).Told }
        ensures heeds { Heeds self.old.store.stop self.new.store.stop (E.view self.old.store.engine) (E.view self.new.store.engine) }
        ensures means { Keeps (E.view self.old.store.engine) (E.view self.new.store.engine) }
        ensures goes { (into : List ℕ) → AsMeant (E.view self.old.store.engine) (E.view self.new.store.engine) (λ t g v w.
            (x : Run) → IsLawful t g → Shows t g v (session_core self.old) x
            → Goes t g v x (OfStore Upkeep.Truncate) (shown_answer into result) w (session_core self.new)) }
    {
        match self.store.truncate() {
            Ok(()) => Answer::Said(Reply::Done),
            Err(why) => self.names.answer_to(why),
        }
    }

    // What is asked of the store as a whole is done.
    fn keep_up(&mut self, upkeep: Upkeep) -> Answer
        requires running { self.old.store.stop ≡ None }
        requires serves { IsServed self.old }
        ensures caused { (into : List ℕ) → Caused (E.view self.old.store.engine) (E.view self.new.store.engine) self.old.store.stop self.new.store.stop (OfStore upkeep) (shown_answer into result) }
        ensures kept_up { HasKeptUp (OfStore upkeep) self.old self.new }
        ensures cuts { HasCut E.first_frame_end E.last_checkpoint E.is_spent (OfStore upkeep) self.old self.new }
        ensures told { (E.view self.new.store.engine).Told → (E.view self.old.store.engine).Told }
        ensures heeds { Heeds self.old.store.stop self.new.store.stop (E.view self.old.store.engine) (E.view self.new.store.engine) }
        ensures means { Keeps (E.view self.old.store.engine) (E.view self.new.store.engine) }
        ensures goes { (into : List ℕ) → AsMeant (E.view self.old.store.engine) (E.view self.new.store.engine) (λ t g v w.
            (x : Run) → IsLawful t g → Shows t g v (session_core self.old) x
            → Goes t g v x (OfStore upkeep) (shown_answer into result) w (session_core self.new)) }
    {
        match upkeep {
            Upkeep::Flush => self.flush(),
            Upkeep::Checkpoint => self.checkpoint(),
            Upkeep::Truncate => self.truncate(),
        }
    }
}

impl<E: Marks> Session<E> {
    ghost use Rattle.sg_run.specs.Run.{Run};
    ghost use Rattle.sg_words.specs.Requests.{asked};
    ghost use Rattle.sg_words.specs.Requests.Asked.{Wrong};
    ghost use Rattle.sg_words.specs.Upkeep.{upkeep_of};
    ghost use Rattle.sg_store.specs.Ground.{IsLawful};
    ghost use Rattle.sg_store.specs.Engine.{Keeps, KeepsBy, AsMeant, AsMeantBy};
    ghost use Rattle.sg_store.specs.Heeds.{Heeds};
    ghost use Rattle.sg_session.specs.Lines.{line_of};
    ghost use Rattle.sg_session.specs.Lines.Line.{OfMarks};
    ghost use Rattle.sg_session.specs.Shows.{Shows};
    ghost use Rattle.sg_session.specs.Causes.{Caused};
    ghost use Rattle.sg_session.specs.Goes.{Goes, when_stopped};
    ghost use Rattle.sg_session.specs.Seen.{session_core, Serves, IsServed};

    // A mark of the transaction with this name is set.
    fn save(&mut self, name: Name) -> Answer
        requires running { self.old.store.stop ≡ None }
        requires serves { IsServed self.old }
        ensures caused { (into : List ℕ) → Caused (E.view self.old.store.engine) (E.view self.new.store.engine) self.old.store.stop self.new.store.stop (OfMarks name Marking.Save) (shown_answer into result) }
        ensures told { (E.view self.new.store.engine).Told → (E.view self.old.store.engine).Told }
        ensures heeds { Heeds self.old.store.stop self.new.store.stop (E.view self.old.store.engine) (E.view self.new.store.engine) }
        ensures means { Keeps (E.view self.old.store.engine) (E.view self.new.store.engine) }
        ensures goes { (into : List ℕ) → AsMeant (E.view self.old.store.engine) (E.view self.new.store.engine) (λ t g v w.
            (x : Run) → IsLawful t g → Shows t g v (session_core self.old) x
            → Goes t g v x (OfMarks name Marking.Save) (shown_answer into result) w (session_core self.new)) }
    {
        let Some(named) = self.names.named(name) else {
            return Answer::NoTransaction;
        };
        match self.store.save(named.txn) {
            Ok(mark) => Answer::Said(Reply::Number(u64::from(mark))),
            Err(why) => self.names.answer_to_mark(why),
        }
    }

    // The transaction with this name goes back to its mark with this number.
    fn back(&mut self, ops: &Ops, name: Name, mark: u16) -> Answer
        requires running { self.old.store.stop ≡ None }
        requires serves { Serves (table_of record_meaning range_meaning ops.now) self.old }
        ensures caused { (into : List ℕ) → Caused (E.view self.old.store.engine) (E.view self.new.store.engine) self.old.store.stop self.new.store.stop (OfMarks name (Marking.Back mark)) (shown_answer into result) }
        ensures told { (E.view self.new.store.engine).Told → (E.view self.old.store.engine).Told }
        ensures heeds { Heeds self.old.store.stop self.new.store.stop (E.view self.old.store.engine) (E.view self.new.store.engine) }
        ensures means { KeepsBy (table_of record_meaning range_meaning ops.now) (E.view self.old.store.engine) (E.view self.new.store.engine) }
        ensures goes { let t = table_of record_meaning range_meaning ops.now in
            (into : List ℕ) → AsMeantBy t (E.view self.old.store.engine) (E.view self.new.store.engine) (λ g v w.
            (x : Run) → IsLawful t g → Shows t g v (session_core self.old) x
            → Goes t g v x (OfMarks name (Marking.Back mark)) (shown_answer into result) w (session_core self.new)) }
    {
        let Some(named) = self.names.named(name) else {
            return Answer::NoTransaction;
        };
        match self.store.rollback_to(ops, named.txn, mark) {
            Ok(()) => Answer::Said(Reply::Done),
            Err(why) => self.names.answer_to_mark(why),
        }
    }

    // What is asked of the marks of the transaction with this name is done.
    fn mark(&mut self, ops: &Ops, name: Name, marking: Marking) -> Answer
        requires running { self.old.store.stop ≡ None }
        requires serves { Serves (table_of record_meaning range_meaning ops.now) self.old }
        ensures caused { (into : List ℕ) → Caused (E.view self.old.store.engine) (E.view self.new.store.engine) self.old.store.stop self.new.store.stop (OfMarks name marking) (shown_answer into result) }
        ensures told { (E.view self.new.store.engine).Told → (E.view self.old.store.engine).Told }
        ensures heeds { Heeds self.old.store.stop self.new.store.stop (E.view self.old.store.engine) (E.view self.new.store.engine) }
        ensures means { KeepsBy (table_of record_meaning range_meaning ops.now) (E.view self.old.store.engine) (E.view self.new.store.engine) }
        ensures goes { let t = table_of record_meaning range_meaning ops.now in
            (into : List ℕ) → AsMeantBy t (E.view self.old.store.engine) (E.view self.new.store.engine) (λ g v w.
            (x : Run) → IsLawful t g → Shows t g v (session_core self.old) x
            → Goes t g v x (OfMarks name marking) (shown_answer into result) w (session_core self.new)) }
    {
        match marking {
            Marking::Save => self.save(name),
            Marking::Back(mark) => self.back(ops, name, mark),
        }
    }

    // Executes a line that asks for something of a transaction's marks, or for nothing that is known.
    fn execute_marking(&mut self, ops: &Ops, text: &[u8]) -> Answer
        requires wrong { asked text.now ≡ Wrong }
        requires no_upkeep { upkeep_of text.now ≡ None }
        requires serves { Serves (table_of record_meaning range_meaning ops.now) self.old }
        ensures stopped { IsSome self.old.store.stop → self.new ≡ self.old }
        ensures still { IsSome self.old.store.stop → (into : List ℕ) → shown_answer into result ≡ when_stopped (line_of text.now) }
        ensures caused { (into : List ℕ) → Caused (E.view self.old.store.engine) (E.view self.new.store.engine) self.old.store.stop self.new.store.stop (line_of text.now) (shown_answer into result) }
        ensures told { (E.view self.new.store.engine).Told → (E.view self.old.store.engine).Told }
        ensures heeds { Heeds self.old.store.stop self.new.store.stop (E.view self.old.store.engine) (E.view self.new.store.engine) }
        ensures means { KeepsBy (table_of record_meaning range_meaning ops.now) (E.view self.old.store.engine) (E.view self.new.store.engine) }
        ensures goes { let t = table_of record_meaning range_meaning ops.now in
            (into : List ℕ) → AsMeantBy t (E.view self.old.store.engine) (E.view self.new.store.engine) (λ g v w.
            (x : Run) → IsLawful t g → Shows t g v (session_core self.old) x
            → Goes t g v x (line_of text.now) (shown_answer into result) w (session_core self.new)) }
    {
        let Some(asked) = parse_marking(text) else {
            return Answer::BadSyntax;
        };
        if self.store.stop().is_some() {
            return Answer::Stopped;
        }
        self.mark(ops, asked.0, asked.1)
    }
}

impl<E: Lists + Truncates + Marks> Session<E> {
    ghost use Rattle.sg_run.specs.Run.{Run};
    ghost use Rattle.sg_store.specs.Ground.{IsLawful};
    ghost use Rattle.sg_store.specs.Engine.{Keeps, KeepsBy, AsMeant, AsMeantBy};
    ghost use Rattle.sg_store.specs.Heeds.{Heeds};
    ghost use Rattle.sg_session.specs.Lines.{line_of};
    ghost use Rattle.sg_session.specs.Lines.Line.{Other};
    ghost use Rattle.sg_session.specs.Shows.{Shows};
    ghost use Rattle.sg_session.specs.Causes.{Caused};
    ghost use Rattle.sg_session.specs.Goes.{Goes, Answers, when_stopped};
    ghost use Rattle.sg_session.specs.OneLine.{OneLine};
    ghost use Rattle.sg_session.specs.Seen.{session_core, Serves, IsServed, HasAnswered, HasKeptUp, HasCut, HandsAtCommit};

    // The keys of a table, asked by the transaction with this name.
    fn keys(&mut self, alloc: Global, name: Name, table: Name) -> Answered
        requires running { self.old.store.stop ≡ None }
        requires serves { IsServed self.old }
        ensures caused { (into : List ℕ) → Caused (E.view self.old.store.engine) (E.view self.new.store.engine) self.old.store.stop self.new.store.stop (Other (Of name (Do (On table Keys)))) (shown into result) }
        ensures told { (E.view self.new.store.engine).Told → (E.view self.old.store.engine).Told }
        ensures heeds { Heeds self.old.store.stop self.new.store.stop (E.view self.old.store.engine) (E.view self.new.store.engine) }
        ensures means { Keeps (E.view self.old.store.engine) (E.view self.new.store.engine) }
        ensures goes { (into : List ℕ) → AsMeant (E.view self.old.store.engine) (E.view self.new.store.engine) (λ t g v w.
            (x : Run) → IsLawful t g → Shows t g v (session_core self.old) x
            → Goes t g v x (Other (Of name (Do (On table Keys)))) (shown into result) w (session_core self.new)) }
    {
        let Some(named) = self.names.named(name) else {
            return Answered::Line(Answer::NoTransaction);
        };
        match self.store.keys(alloc, named.txn, table) {
            Ok(keys) => Answered::Keys(keys),
            Err(why) => Answered::Line(self.names.answer_to(why)),
        }
    }

    // The names of all objects, asked by the transaction with this name.
    fn list(&mut self, alloc: Global, name: Name) -> Answer
        requires running { self.old.store.stop ≡ None }
        requires serves { IsServed self.old }
        ensures caused { (into : List ℕ) → Caused (E.view self.old.store.engine) (E.view self.new.store.engine) self.old.store.stop self.new.store.stop (Other (Of name (Do AllNames))) (shown_answer into result) }
        ensures told { (E.view self.new.store.engine).Told → (E.view self.old.store.engine).Told }
        ensures heeds { Heeds self.old.store.stop self.new.store.stop (E.view self.old.store.engine) (E.view self.new.store.engine) }
        ensures means { Keeps (E.view self.old.store.engine) (E.view self.new.store.engine) }
        ensures goes { (into : List ℕ) → AsMeant (E.view self.old.store.engine) (E.view self.new.store.engine) (λ t g v w.
            (x : Run) → IsLawful t g → Shows t g v (session_core self.old) x
            → Goes t g v x (Other (Of name (Do AllNames))) (shown_answer into result) w (session_core self.new)) }
    {
        let Some(named) = self.names.named(name) else {
            return Answer::NoTransaction;
        };
        match self.store.list(alloc, named.txn) {
            Ok(names) => Answer::Names(names),
            Err(why) => self.names.answer_to(why),
        }
    }

    // Executes a line.
    fn execute(
        &mut self,
        alloc: Global,
        ops: &Ops,
        text: &[u8],
        values: &mut [u8],
        into: &mut [u8],
    ) -> Answered
        requires values { 32768 ≤ length values.old }
        requires into { 8192 ≤ length into.old }
        requires serves { Serves (table_of record_meaning range_meaning ops.now) self.old }
        ensures stopped { IsSome self.old.store.stop → self.new ≡ self.old }
        ensures still { IsSome self.old.store.stop → shown into.new result ≡ when_stopped (line_of text.now) }
        ensures caused { Caused (E.view self.old.store.engine) (E.view self.new.store.engine) self.old.store.stop self.new.store.stop (line_of text.now) (shown into.new result) }
        ensures kept_up { HasKeptUp (line_of text.now) self.old self.new }
        ensures hands { self.old.store.stop ≡ None → HandsAtCommit (line_of text.now) self.old self.new }
        ensures cuts { HasCut E.first_frame_end E.last_checkpoint E.is_spent (line_of text.now) self.old self.new }
        ensures told { (E.view self.new.store.engine).Told → (E.view self.old.store.engine).Told }
        ensures heeds { Heeds self.old.store.stop self.new.store.stop (E.view self.old.store.engine) (E.view self.new.store.engine) }
        ensures means { KeepsBy (table_of record_meaning range_meaning ops.now) (E.view self.old.store.engine) (E.view self.new.store.engine) }
        ensures goes { let t = table_of record_meaning range_meaning ops.now in
            AsMeantBy t (E.view self.old.store.engine) (E.view self.new.store.engine) (λ g v w.
            (x : Run) → IsLawful t g → Shows t g v (session_core self.old) x
            → Goes t g v x (line_of text.now) (shown into.new result) w (session_core self.new)) }
    {
        let mut request = Request::List;
        match parse_request(text, values, &mut request) {
            Asked::Blank => Answered::Line(Answer::Silent),
            Asked::Wrong => {
                let Some(upkeep) = parse_upkeep(text) else {
                    return Answered::Line(self.execute_marking(ops, text));
                };
                if self.store.stop().is_some() {
                    return Answered::Line(Answer::Stopped);
                }
                Answered::Line(self.keep_up(upkeep))
            }
            Asked::Of { name, words: _ } => {
                if self.store.stop().is_some() {
                    return Answered::Line(Answer::Stopped);
                }
                match &request {
                    Request::Begin => Answered::Line(self.begin(name)),
                    Request::Commit => Answered::Line(self.commit(ops, name)),
                    Request::Abort => Answered::Line(self.abort(ops, name)),
                    Request::Do(op) => Answered::Line(self.perform(ops, name, op, into)),
                    Request::Keys(table) => self.keys(alloc, name, *table),
                    Request::List => Answered::Line(self.list(alloc, name)),
                }
            }
        }
    }

    /// Answers a line, without its LF and of any length. `values` takes the bytes of values that are
    /// written in hexadecimal digits, and the first bytes of `into` are those of an answer
    /// `Said(Reply::Bytes(n))`. The operations are those of the store's records. A session that has
    /// stopped answers `Stopped` to each line that asks for something.
    pub fn answer(
        &mut self,
        alloc: Global,
        ops: &Ops,
        text: &[u8],
        values: &mut [u8],
        into: &mut [u8],
    ) -> Answered
        requires values { 32768 ≤ length values.old }
        requires into { 8192 ≤ length into.old }
        requires serves { Serves (table_of record_meaning range_meaning ops.now) self.old }
        ensures serves { Serves (table_of record_meaning range_meaning ops.now) self.new }
        // a session that has stopped changes no more, and makes no call of its engine
        ensures stopped { IsSome self.old.store.stop → self.new ≡ self.old }
        ensures still { IsSome self.old.store.stop → shown into.new result ≡ when_stopped (line_of text.now) }
        // the answer has its cause, and the session has stopped for what it says
        ensures caused { Caused (E.view self.old.store.engine) (E.view self.new.store.engine) self.old.store.stop self.new.store.stop (line_of text.now) (shown into.new result) }
        ensures kept_up { HasKeptUp (line_of text.now) self.old self.new }
        // a commit that drops nothing hands over little more than its log
        ensures hands { self.old.store.stop ≡ None → HandsAtCommit (line_of text.now) self.old self.new }
        ensures cuts { HasCut E.first_frame_end E.last_checkpoint E.is_spent (line_of text.now) self.old self.new }
        ensures heeds { Heeds self.old.store.stop self.new.store.stop (E.view self.old.store.engine) (E.view self.new.store.engine) }
        ensures told { (E.view self.new.store.engine).Told → (E.view self.old.store.engine).Told }
        ensures means { KeepsBy (table_of record_meaning range_meaning ops.now) (E.view self.old.store.engine) (E.view self.new.store.engine) }
        // for each run that the session shows: what is answered, and which run it then shows
        ensures line { let t = table_of record_meaning range_meaning ops.now in
            AsMeantBy t (E.view self.old.store.engine) (E.view self.new.store.engine) (λ g v w.
            (x : Run) → IsLawful t g → Shows t g v (session_core self.old) x
            → Answers t g v x (line_of text.now) (shown into.new result) w (session_core self.new)) }
        // what a crash leaves of one line, where the store hasn't stopped
        ensures one_line { let t = table_of record_meaning range_meaning ops.now in
            self.old.store.stop ≡ None → AsMeantBy t (E.view self.old.store.engine) (E.view self.new.store.engine) (λ g v w.
            (x : Run) → IsLawful t g → Shows t g v (session_core self.old) x
            → OneLine t g v x (line_of text.now) w self.new.store.stop) }
    {
        self.execute(alloc, ops, text, values, into)
    }

    /// Answers a line, as `answer` does, and writes the reply line. Where the sink fails, the line was
    /// executed, and a front of its reply was taken.
    pub fn line<K: Sink>(
        &mut self,
        alloc: Global,
        ops: &Ops,
        text: &[u8],
        values: &mut [u8],
        into: &mut [u8],
        out: &mut K,
    ) -> Result<(), Failed>
        requires values { 32768 ≤ length values.old }
        requires into { length into.old ≡ 8192 }
        requires serves { Serves (table_of record_meaning range_meaning ops.now) self.old }
        ensures serves { Serves (table_of record_meaning range_meaning ops.now) self.new }
        // a session that has stopped changes no more, and makes no call of its engine
        ensures stopped { IsSome self.old.store.stop → self.new ≡ self.old }
        ensures heeds { Heeds self.old.store.stop self.new.store.stop (E.view self.old.store.engine) (E.view self.new.store.engine) }
        ensures told { (E.view self.new.store.engine).Told → (E.view self.old.store.engine).Told }
        ensures means { KeepsBy (table_of record_meaning range_meaning ops.now) (E.view self.old.store.engine) (E.view self.new.store.engine) }
        // one answer, of which the sink takes the line: its cause, and for each run that the session shows where
        // its engine tells, which run it then shows
        ensures line { let t = table_of record_meaning range_meaning ops.now in
            OnOk result (HasAnswered t self.old self.new (line_of text.now) (λ answer. Takes (K.taken out.old) (text_of_answer answer) (K.taken out.new))) }
        ensures cut { let t = table_of record_meaning range_meaning ops.now in
            OnErr result (HasAnswered t self.old self.new (line_of text.now) (λ answer. TakesFront (K.taken out.old) (text_of_answer answer) (K.taken out.new))) }
        // what a crash leaves of one line, where the store hasn't stopped
        ensures one_line { let t = table_of record_meaning range_meaning ops.now in
            self.old.store.stop ≡ None → AsMeantBy t (E.view self.old.store.engine) (E.view self.new.store.engine) (λ g v w.
            (x : Run) → IsLawful t g → Shows t g v (session_core self.old) x
            → OneLine t g v x (line_of text.now) w self.new.store.stop) }
        // a flush, a checkpoint and a truncation that don't stop the session are made
        ensures kept_up { HasKeptUp (line_of text.now) self.old self.new }
        // a commit that drops nothing hands over little more than its log
        ensures hands { self.old.store.stop ≡ None → HandsAtCommit (line_of text.now) self.old self.new }
        ensures cuts { HasCut E.first_frame_end E.last_checkpoint E.is_spent (line_of text.now) self.old self.new }
        ensures quiet { OnOk result (K.faults out.new ≡ K.faults out.old) }
        ensures failed { OnErr result (HasRisen (K.faults out.old) (K.faults out.new)) }
    {
        let answer = self.answer(alloc, ops, text, values, into);
        write_answered(&answer, into, out)
    }
}
