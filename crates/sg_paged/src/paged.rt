// The engine of a store.
ghost use Rattle.std.specs.Prelude.{◌≡◌, ◌≤◌, ◌+◌};

use crate::{actions, homes, records, resting, undoing};
use sg_actions::{Acts, Engine};
use sg_alloc::Maps;
use sg_base::{Lsn, Name, TxnId};
use sg_bucket::Bytes;
use sg_lines::Listener;
use sg_model::{Op, Reason, Reply, Touches};
use sg_ops::Ops;
use sg_space::{ListFault, PageSpace, SpaceFault, UndoNote};
use sg_store::{Needed, ObjFault, TellFault};
use std::alloc::Global;

/// Transactions and their actions over a page engine, as the engine of a store.
pub struct Paged<E: Engine> {
    pub(crate) acts: Acts<E>,
    // what the walk of an opening sets, where it hasn't gone yet
    pub(crate) room: Option<Maps>,
    // what waits at the log's end to be durable is a frame at most, with its head
    ghost waits: { (E.view acts.engine).tail ≤ (E.view acts.engine).gate + 65541 },
}

impl<E: Engine> Paged<E> {
    /// Over a space of pages and bands in which actions are done.
    pub fn new(acts: Acts<E>) -> Paged<E>
        ensures { result.acts ≡ acts }
    {
        Paged { acts, room: None }
    }

    /// The space.
    pub fn into_acts(self) -> Acts<E>
        ensures { result ≡ self.acts }
    {
        let Paged { acts, room } = self;
        drop(room);
        acts
    }
}

impl<E: Engine> sg_store::Engine for Paged<E> {
    ghost use Rattle.sg_shown.specs.Shown.{basis, shown, opened};
    ghost use Rattle.sg_shown.proofs.Leaving as leaving;

    ghost basis = { basis E.recovers };

    ghost view = { λ s. shown s.acts };

    ghost waiting = { λ s. E.waiting s.acts.engine };

    ghost unwritten = { λ s. E.unwritten s.acts.engine };

    ghost marked = { λ s. E.marked s.acts.engine };

    ghost ends_at = { E.ends_at };

    ghost opened = { λ s. opened s.acts s.room };

    ghost waits = { λ s. s.waits };

    ghost leaves = { λ s. leaving.leaves s.acts };

    fn tail(&self) -> Lsn {
        self.acts.tail()
    }

    fn start(&self) -> Lsn {
        self.acts.start()
    }

    fn free_pages(&self) -> u32 {
        self.acts.free_pages()
    }

    fn free_bands(&self) -> u32 {
        self.acts.free_bands()
    }

    fn begin(&mut self) -> Result<TxnId, SpaceFault> {
        records::begin(&mut self.acts)
    }

    fn act(&mut self, txn: TxnId) {
        actions::act(&mut self.acts, txn)
    }

    fn end_action(&mut self, txn: TxnId, note: &UndoNote) -> Result<(), SpaceFault> {
        actions::end_action(&mut self.acts, txn, note)
    }

    fn undo_step(&mut self, txn: TxnId, into: &mut UndoNote) -> Result<Option<Lsn>, SpaceFault> {
        undoing::undo_step(&mut self.acts, txn, into)
    }

    fn next_undo(&mut self, txn: TxnId) -> Result<Option<Lsn>, SpaceFault> {
        undoing::next_undo(&mut self.acts, txn)
    }

    fn broken(&mut self) -> SpaceFault {
        resting::broken(&mut self.acts)
    }

    fn end_undo(&mut self, txn: TxnId, after: Lsn) -> Result<(), SpaceFault> {
        undoing::end_undo(&mut self.acts, txn, after)
    }

    fn commit(&mut self, txn: TxnId) -> Result<(), SpaceFault> {
        records::commit(&mut self.acts, txn)
    }

    fn end(&mut self, txn: TxnId) -> Result<(), SpaceFault> {
        records::end(&mut self.acts, txn)
    }

    fn flush(&mut self) -> Result<(), SpaceFault> {
        homes::flush(&mut self.acts)
    }

    fn checkpoint(&mut self) -> Result<(), SpaceFault> {
        homes::checkpoint(&mut self.acts)
    }
}

impl<E: Engine> sg_store::Objects for Paged<E> {
    fn touches(&mut self, op: &Op<'_>, into: &mut Touches) -> Result<(), SpaceFault> {
        sg_verbs::touches(&mut self.acts, op, into)
    }

    fn needs(&mut self, ops: &Ops, op: &Op<'_>) -> Result<Needed, ObjFault> {
        sg_verbs::needs(&mut self.acts, ops, op)
    }

    fn perform(
        &mut self,
        ops: &Ops,
        txn: TxnId,
        op: &Op<'_>,
        into: &mut [u8],
        note: &mut UndoNote,
    ) -> Result<Reply, ObjFault> {
        sg_verbs::perform(&mut self.acts, ops, txn, op, into, note)
    }

    fn reverse(&mut self, ops: &Ops, note: &UndoNote) -> Result<(), SpaceFault> {
        sg_verbs::reverse(&mut self.acts, ops, note)
    }

    fn free_next(
        &mut self,
        ops: &Ops,
        by: Option<TxnId>,
        note: &mut UndoNote,
    ) -> Result<bool, SpaceFault> {
        sg_verbs::free_next(&mut self.acts, ops, by, note)
    }
}

impl<E: Engine> sg_store::Marks for Paged<E> {
    fn save(&mut self, txn: TxnId, mark: u16) -> Result<Lsn, SpaceFault> {
        records::save(&mut self.acts, txn, mark)
    }

    fn undo_step_to(
        &mut self,
        txn: TxnId,
        stop: Lsn,
        into: &mut UndoNote,
    ) -> Result<Option<Lsn>, SpaceFault> {
        undoing::undo_step_to(&mut self.acts, txn, stop, into)
    }

    fn wants_page(&self, note: &UndoNote) -> bool {
        undoing::wants_page(note)
    }
}

impl<E: Engine> sg_store::Truncates for Paged<E> {
    ghost first_frame_end = { λ s. E.first_frame_end s.acts.engine };

    ghost last_checkpoint = { λ s. E.last_checkpoint s.acts.engine };

    ghost is_spent = { λ s. E.is_spent s.acts.engine };

    fn truncate(&mut self, oldest: Option<TxnId>) -> Result<(), SpaceFault> {
        homes::truncate(&mut self.acts, oldest)
    }
}

impl<E: Engine> sg_store::Lists for Paged<E> {
    fn touches_keys(&mut self, name: Name, into: &mut Touches) -> Result<(), SpaceFault> {
        sg_verbs::touches_keys(&mut self.acts, name, into)
    }

    fn keys(&mut self, alloc: Global, name: Name) -> Result<Result<Vec<Bytes>, Reason>, ListFault> {
        sg_verbs::keys(&mut self.acts, alloc, name)
    }

    fn list(&mut self, alloc: Global) -> Result<Vec<Name>, ListFault> {
        sg_verbs::list(&mut self.acts, alloc)
    }
}

impl<E: Engine> sg_store::Tells for Paged<E> {
    fn tell<L: Listener>(&mut self, alloc: Global, to: &mut L) -> Result<u64, TellFault> {
        sg_verbs::tell(&mut self.acts, alloc, to)
    }
}
