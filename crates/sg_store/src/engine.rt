ghost use Rattle.std.specs.Prelude.{◌≡◌, ◌≤◌, ◌<◌, ◌+◌, ℕ, List, false, [], ◌∷◌, Option, Some, None, Ok, OnOk, IfOk, IfErr, IfSome, length};
ghost use Rattle.sg_base.specs.Ends.{HasRisen};
ghost use Rattle.sg_disk.specs.Disk.{Image};
ghost use Rattle.sg_checkpoints.specs.Checkpoints.{HasMarked, StaysMarked};
ghost use Rattle.sg_checkpoints.specs.Cutting.{IsCut};
ghost use Rattle.sg_ops.specs.Table.{table_of};
ghost use Rattle.sg_model.specs.SaidOps.{said_op};
ghost use Rattle.sg_model.specs.TouchList.{shown_touches};
ghost use Rattle.sg_model.specs.Touches.{touches};
ghost use Rattle.sg_model.specs.Step.{is_changing};
ghost use Rattle.sg_model.specs.Verb.Op.{On, Names};
ghost use Rattle.sg_model.specs.Verb.Verb.{Keys};
ghost use Rattle.sg_recovery.specs.Log.{Top, tally, notes_of};
ghost use Rattle.sg_recovery.specs.Log.Record.{Begin, TopEnd, CompEnd, Save, Commit};
ghost use Rattle.sg_store.specs.Ground.{Ground};
ghost use Rattle.sg_store.specs.Engine.{Sizes, Shown, Keeps, KeepsBy, AsMeant, AsMeantBy, IfMeant, Asked, AskedBy, IsOldest, Action, IsEngine, IsIdle, pages_of, Appends, Appended, Changes, Changed, Rests, Rested, EndsOne, Counts, IsNearEnd, IsVerbEnd, VERB_BYTES, IsDiskFault, IsObjDisk, IsReadFault, IsRefusedQuietly, IsListDisk, IsListRead, IsNextUndo, IsAtRest, HasPlace, IsAt, IsAtMark, IsMark, NoneBehind, MayAct, MayEnd, ActsFor, ActsBack, IsFirst};
ghost use Rattle.sg_store.specs.Room.{LeavesRoom};
ghost use Rattle.sg_store.specs.Telling.{IsTellDisk, IsUntoldQuietly, CountsListener, HasTold};
ghost use Rattle.sg_store.specs.Verbs.{Reads, CanLook, CanPerform, CanDo, CanReverse, CanTakeBack, CanFree, Reversed, HasPerformed, HasNeeds, HasKeys, HasNames, FreesNext};

use crate::fault::{Needed, ObjFault, TellFault};
use sg_base::{Lsn, Name, TxnId};
use sg_bucket::Bytes;
use sg_lines::Listener;
use sg_model::{Op, Reason, Reply, Touches};
use sg_ops::Ops;
use sg_space::{ListFault, SpaceFault, UndoNote};
use std::alloc::Global;

/// Pages and bands that are changed in actions, each of a transaction, over a log.
///
/// An action's records are changes, and then one that ends it with a note of how it is undone, or that
/// says what it has undone. What the clauses say is said of an engine that has kept to them so far
/// (`IsEngine`): of one whose disk tells, and whose image stood for objects when it was opened.
///
/// What is asked of a caller is asked where the engine tells. On any engine each call is safe and
/// returns, and fails only where the count of faults rose, or near the log's end. Where the engine told, a
/// call fails for the disk only where the disk's own count rose; and the end of what is durable of the
/// log moves at most by the bytes that were handed to the disk.
pub trait Engine {
    /// What its pages, its records and its objects are, by how many pages and bands it has.
    ghost basis: { Sizes → Ground };

    /// All that is known of its value.
    ghost view: { Self → Shown basis };

    /// How many bytes wait at the log's end to be handed to the disk: records, and the head of their frame.
    ghost waiting: { Self → ℕ };

    /// A change of a page or a band by the record with this number isn't at its place on the disk yet.
    ghost unwritten: { Self → ℕ → Type 0 };

    /// The log's last record, durable or not, is the checkpoint with this number, which has redo begin at this estimate.
    ghost marked: { Self → (lsn estimate : ℕ) → Type 0 };

    /// So is the last record of an image's log.
    ghost ends_at: { Image → (lsn estimate : ℕ) → Type 0 };

    /// The same while it is being opened: an action may be without its end, and what is free isn't known yet. No call
    /// of these is asked of it then.
    ghost opened: { Self → Shown basis };

    /// What waits at the log's end to be durable is a frame at most, with its head.
    ghost waits: { (s : Self) → (view s).tail ≤ (view s).gate + 65541 };

    /// What is free is what the objects leave, and what is buried.
    ghost leaves: { (s : Self) → IfMeant (view s) LeavesRoom };

    /// The number of the log's next byte.
    fn tail(&self) -> Lsn
        ensures { result ≡ (view self.now).tail };

    /// The number of the first byte that the log still has.
    fn start(&self) -> Lsn
        ensures { result ≡ (view self.now).start };

    /// How many pages are free.
    fn free_pages(&self) -> u32
        ensures { result ≡ (view self.now).free_pages };

    /// How many bands are free.
    fn free_bands(&self) -> u32
        ensures { result ≡ (view self.now).free_bands };

    /// A transaction begins, whose number is that of its begin record.
    fn begin(&mut self) -> Result<TxnId, SpaceFault>
        requires can { Asked (view self.old) HasPlace }
        ensures number { IfOk result (λ u. ((view self.old).tail ≤ u.0) × (u.0 < (view self.new).tail)) }
        ensures counts { Counts IsDiskFault (view self.old) (view self.new) result }
        ensures means { Keeps (view self.old) (view self.new) }
        ensures log_end { IfErr result (IsNearEnd (view self.old).tail) }
        ensures begins { AsMeant (view self.old) (view self.new) (λ t g v w. IsEngine t g v → IsIdle v
            → (n : ℕ) × Appends t g v w (record { lsn = n; is = Begin n 0 })
            × IfOk result (λ u. (u.0 ≡ n) × Appended t g v w (record { lsn = n; is = Begin n 0 }))) };

    /// What is changed from now on is an action of this transaction, which is live, or of the system.
    fn act(&mut self, txn: TxnId)
        requires can { Asked (view self.old) (MayAct txn.0) }
        ensures disk { (view self.new).disk ≡ (view self.old).disk }
        ensures gate { (view self.new).gate ≡ (view self.old).gate }
        ensures tail { (view self.new).tail ≡ (view self.old).tail }
        ensures quiet { (view self.new).faults ≡ (view self.old).faults }
        ensures told { (view self.new).Told → (view self.old).Told }
        ensures tells { (view self.old).Told → (view self.new).Told }
        ensures means { Keeps (view self.old) (view self.new) }
        ensures acts { AsMeant (view self.old) (view self.new) (λ t g v w. IsEngine t g v → IsIdle v
            → IsEngine t g w × (w ≡ record v { action = Some (record { transaction = txn.0; pages = pages_of t g v }) })) };

    /// Ends the action of the transaction, with how it is undone.
    fn end_action(&mut self, txn: TxnId, note: &UndoNote) -> Result<(), SpaceFault>
        requires can { Asked (view self.old) (ActsFor txn.0) }
        ensures counts { Counts IsDiskFault (view self.old) (view self.new) result }
        ensures means { Keeps (view self.old) (view self.new) }
        ensures log_end { IfErr result (IsNearEnd (view self.old).tail) }
        ensures ends { AsMeant (view self.old) (view self.new) (λ t g v w. (a : Action g)
            → IsEngine t g v → v.action ≡ Some a → a.transaction ≡ txn.0 → (lsn : ℕ)
            × (previous : ℕ) × (undo_next : ℕ)
            × Appends t g v w (record { lsn = lsn; is = TopEnd txn.0 previous undo_next (g.note note.now) })
            × OnOk result (Appended t g v w (record { lsn = lsn; is = TopEnd txn.0 previous undo_next (g.note note.now) }))) };

    /// Begins an action that undoes the last standing note of a live transaction, which it gives, with the
    /// number behind which undoing goes on; `None` exactly where none stands. What the note's action found
    /// in bands is back where the note asks for that; where it doesn't, the action has changed nothing yet.
    fn undo_step(&mut self, txn: TxnId, into: &mut UndoNote) -> Result<Option<Lsn>, SpaceFault>
        requires can { Asked (view self.old) (IsAt txn.0) }
        ensures counts { Counts IsDiskFault (view self.old) (view self.new) result }
        ensures means { Keeps (view self.old) (view self.new) }
        ensures log_end { IfErr result (IsNearEnd (view self.new).tail) }
        ensures none { AsMeant (view self.old) (view self.new) (λ t g v w. IsEngine t g v → IsIdle v → result ≡ Ok None
            → (notes_of txn.0 (tally v.log).notes ≡ []) × Rested t g v w) }
        ensures some { AsMeant (view self.old) (view self.new) (λ t g v w. (a : Action g)
            → IsEngine t g v → IsIdle v
            → a ≡ record { transaction = txn.0; pages = pages_of t g v }
            → (c : Changes t g a v w)
            × IfOk result (λ after. IfSome after (λ next. (n : Top g.C g.N)
            × (ns : List (Top g.C g.N)) × (notes_of txn.0 (tally v.log).notes ≡ n ∷ ns)
            × (n.undo_next ≡ next) × (g.note into.new ≡ n.note)
            × g.PutsBack t n.note n.changes (tally w.log).opened a.pages (pages_of t g w)
            × (w.free_pages ≡ v.free_pages) × Changed t g a v w c.made))) };

    /// The number of the note that `undo_step` would come to; `None` exactly where none stands. Nothing is
    /// changed.
    fn next_undo(&mut self, txn: TxnId) -> Result<Option<Lsn>, SpaceFault>
        requires can { Asked (view self.old) (IsAt txn.0) }
        ensures counts { Counts IsDiskFault (view self.old) (view self.new) result }
        ensures means { Keeps (view self.old) (view self.new) }
        ensures reads { IfErr result IsDiskFault }
        ensures finds { AsMeant (view self.old) (view self.new) (λ t g v w. IsEngine t g v
            → IsIdle v → Rests t g v w × IfOk result (λ r. Rested t g v w
            × IsNextUndo txn.0 (tally v.log).notes r)) };

    /// Reports that what was read can't be. An engine that tells is never asked.
    fn broken(&mut self) -> SpaceFault
        requires untold { (view self.old).Told → ⊥ }
        ensures disk { (view self.new).disk ≡ (view self.old).disk }
        ensures gate { (view self.new).gate ≡ (view self.old).gate }
        ensures answer { result ≡ SpaceFault.Disk }
        ensures tail { (view self.new).tail ≡ (view self.old).tail }
        ensures later { (view self.old).faults ≤ (view self.new).faults }
        ensures told { (view self.new).Told → (view self.old).Told }
        ensures means { Keeps (view self.old) (view self.new) }
        ensures risen { HasRisen (view self.old).faults (view self.new).faults };

    /// Ends the action that undid a note, behind which undoing goes on at this number.
    fn end_undo(&mut self, txn: TxnId, after: Lsn) -> Result<(), SpaceFault>
        requires can { Asked (view self.old) (ActsBack txn.0 after) }
        ensures counts { Counts IsDiskFault (view self.old) (view self.new) result }
        ensures means { Keeps (view self.old) (view self.new) }
        ensures log_end { IfErr result (IsNearEnd (view self.old).tail) }
        ensures ends { AsMeant (view self.old) (view self.new) (λ t g v w. (a : Action g)
            → IsEngine t g v → v.action ≡ Some a → a.transaction ≡ txn.0
            → (n : Top g.C g.N) (ns : List (Top g.C g.N))
            → notes_of txn.0 (tally v.log).notes ≡ n ∷ ns → n.undo_next ≡ after → (lsn : ℕ)
            × (previous : ℕ)
            × Appends t g v w (record { lsn = lsn; is = CompEnd txn.0 previous after })
            × OnOk result (Appended t g v w (record { lsn = lsn; is = CompEnd txn.0 previous after }))) };

    /// Commits a live transaction, and makes the log durable.
    fn commit(&mut self, txn: TxnId) -> Result<(), SpaceFault>
        requires can { Asked (view self.old) (IsAt txn.0) }
        ensures counts { Counts IsDiskFault (view self.old) (view self.new) result }
        // what waits, the record's 21 bytes, and twice what a frame has beside its records
        ensures hands { (view self.new).disk.handed ≤ (view self.old).disk.handed + waiting self.old + 33 }
        ensures none_waits { OnOk result (waiting self.new ≡ 0) }
        ensures means { Keeps (view self.old) (view self.new) }
        ensures log_end { IfErr result (IsNearEnd (view self.old).tail) }
        ensures commits { AsMeant (view self.old) (view self.new) (λ t g v w. IsEngine t g v
            → IsIdle v → (lsn : ℕ) × (previous : ℕ)
            × Appends t g v w (record { lsn = lsn; is = Commit txn.0 previous })
            × OnOk result (Appended t g v w (record { lsn = lsn; is = Commit txn.0 previous })
            × (w.durable ≡ w.log))) };

    /// A transaction has ended that goes on, or has committed. It is neither live nor a loser any more. Of
    /// one that has committed the record of its end may be left out.
    fn end(&mut self, txn: TxnId) -> Result<(), SpaceFault>
        requires can { Asked (view self.old) (MayEnd txn.0) }
        ensures counts { Counts IsDiskFault (view self.old) (view self.new) result }
        ensures hands { (view self.new).disk.handed ≤ (view self.old).disk.handed + waiting self.old + 6 }
        ensures means { Keeps (view self.old) (view self.new) }
        ensures log_end { IfErr result (IsNearEnd (view self.old).tail) }
        ensures ends { AsMeant (view self.old) (view self.new) (λ t g v w. IsEngine t g v
            → IsIdle v → EndsOne t g txn.0 v w result) };

    /// Makes the log durable and writes all changed pages and bands home.
    fn flush(&mut self) -> Result<(), SpaceFault>
        requires can { Asked (view self.old) IsAtRest }
        ensures counts { Counts IsDiskFault (view self.old) (view self.new) result }
        ensures written { OnOk result ((lsn : ℕ) → unwritten self.new lsn → ⊥) }
        ensures marked { OnOk result ((view self.old).Told → StaysMarked (marked self.old) (marked self.new) ends_at (view self.new).disk.now) }
        ensures means { Keeps (view self.old) (view self.new) }
        ensures reads { IfErr result IsDiskFault }
        ensures rests { AsMeant (view self.old) (view self.new) (λ t g v w. IsEngine t g v
            → IsIdle v → Rests t g v w × OnOk result (Rested t g v w × (w.durable ≡ w.log))) };

    /// Makes the log durable with a record of where its redo has to begin.
    fn checkpoint(&mut self) -> Result<(), SpaceFault>
        requires can { Asked (view self.old) IsAtRest }
        ensures counts { Counts IsDiskFault (view self.old) (view self.new) result }
        // what waits, the record's 1,055 bytes at most, and twice what a frame has beside its records
        ensures hands { (view self.new).disk.handed ≤ (view self.old).disk.handed + waiting self.old + 1067 }
        ensures marks { OnOk result ((view self.old).Told → HasMarked (view self.old).tail (unwritten self.old) (marked self.new) ends_at (view self.new).disk.now) }
        ensures means { Keeps (view self.old) (view self.new) }
        ensures log_end { IfErr result (IsNearEnd (view self.old).tail) }
        ensures rests { AsMeant (view self.old) (view self.new) (λ t g v w. IsEngine t g v
            → IsIdle v → Rests t g v w × OnOk result (Rested t g v w × (w.durable ≡ w.log))) };
}

/// Objects over an engine.
pub trait Objects: Engine {
    /// What an operation touches.
    fn touches(&mut self, op: &Op<'_>, into: &mut Touches) -> Result<(), SpaceFault>
        requires can { Asked (Self.view self.old) CanLook }
        ensures counts { Counts IsDiskFault (Self.view self.old) (Self.view self.new) result }
        ensures means { Keeps (Self.view self.old) (Self.view self.new) }
        ensures tail { (Self.view self.new).tail ≡ (Self.view self.old).tail }
        ensures touches { AsMeant (Self.view self.old) (Self.view self.new) (λ t g v w. (o : g.O)
            → IsEngine t g v → Reads t g v o → Rests t g v w × OnOk result (Rested t g v w
            × (shown_touches into.new ≡ touches (g.objects o) (said_op op.now)))) }
        ensures reads { IfErr result IsDiskFault };

    /// What an operation needs, or why it is refused.
    fn needs(&mut self, ops: &Ops, op: &Op<'_>) -> Result<Needed, ObjFault>
        requires can { AskedBy (table_of record_meaning range_meaning ops.now) (Self.view self.old) (CanLook (table_of record_meaning range_meaning ops.now)) }
        ensures counts { Counts IsObjDisk (Self.view self.old) (Self.view self.new) result }
        ensures refused { IfErr result (IsRefusedQuietly (Self.view self.old) (Self.view self.new)) }
        ensures means { KeepsBy (table_of record_meaning range_meaning ops.now) (Self.view self.old) (Self.view self.new) }
        ensures tail { (Self.view self.new).tail ≡ (Self.view self.old).tail }
        ensures needs { let t = table_of record_meaning range_meaning ops.now in
            AsMeantBy t (Self.view self.old) (Self.view self.new) (λ g v w. (o : g.O)
            → IsEngine t g v → Reads t g v o → Rests t g v w
            × HasNeeds t g v w o (said_op op.now) result) }
        ensures reads { IfErr result IsReadFault };

    /// Does an operation in the action of the transaction, which has changed nothing yet, and notes what
    /// undoes it. The note has no bytes where nothing was changed.
    fn perform(
        &mut self,
        ops: &Ops,
        txn: TxnId,
        op: &Op<'_>,
        into: &mut [u8],
        note: &mut UndoNote,
    ) -> Result<Reply, ObjFault>
        requires into { 8192 ≤ length into.old }
        requires can { AskedBy (table_of record_meaning range_meaning ops.now) (Self.view self.old) (CanDo txn.0 (said_op op.now) (table_of record_meaning range_meaning ops.now)) }
        ensures counts { Counts IsObjDisk (Self.view self.old) (Self.view self.new) result }
        ensures refused { IfErr result (IsRefusedQuietly (Self.view self.old) (Self.view self.new)) }
        ensures means { KeepsBy (table_of record_meaning range_meaning ops.now) (Self.view self.old) (Self.view self.new) }
        ensures log_end { IfErr result (IsVerbEnd (is_changing (said_op op.now)) (Self.view self.old).tail) }
        ensures grows { OnOk result ((Self.view self.new).tail ≤ (Self.view self.old).tail + VERB_BYTES) }
        ensures looks { OnOk result (is_changing (said_op op.now) ≡ false → note.new ≡ []) }
        ensures performs { let t = table_of record_meaning range_meaning ops.now in
            AsMeantBy t (Self.view self.old) (Self.view self.new) (λ g v w. (o : g.O) (a : Action g)
            → IsEngine t g v → v.action ≡ Some a → a.transaction ≡ txn.0
            → CanPerform t g v o (said_op op.now) → (c : Changes t g a v w)
            × HasPerformed t g a v w o (said_op op.now) c.made into.new note.new result) };

    /// Reverses a note in the action that undoes it.
    fn reverse(&mut self, ops: &Ops, note: &UndoNote) -> Result<(), SpaceFault>
        requires can { AskedBy (table_of record_meaning range_meaning ops.now) (Self.view self.old) (CanTakeBack note.now (table_of record_meaning range_meaning ops.now)) }
        ensures counts { Counts IsDiskFault (Self.view self.old) (Self.view self.new) result }
        ensures means { KeepsBy (table_of record_meaning range_meaning ops.now) (Self.view self.old) (Self.view self.new) }
        ensures log_end { IfErr result (IsNearEnd (Self.view self.new).tail) }
        ensures reverses { let t = table_of record_meaning range_meaning ops.now in
            AsMeantBy t (Self.view self.old) (Self.view self.new) (λ g v w. (o : g.O) (a : Action g) (n : Top g.C g.N)
            → IsEngine t g v → v.action ≡ Some a → g.note note.now ≡ n.note
            → CanReverse t g a v o n → (c : Changes t g a v w)
            × OnOk result (Changed t g a v w c.made × Reversed t g w o n)) };

    /// Frees something that is buried, in an action of the system, with the note of its end: something that
    /// this transaction dropped, or anything. `false` exactly where nothing of the kind is.
    fn free_next(
        &mut self,
        ops: &Ops,
        by: Option<TxnId>,
        note: &mut UndoNote,
    ) -> Result<bool, SpaceFault>
        requires can { AskedBy (table_of record_meaning range_meaning ops.now) (Self.view self.old) (CanFree (table_of record_meaning range_meaning ops.now)) }
        ensures counts { Counts IsDiskFault (Self.view self.old) (Self.view self.new) result }
        ensures means { KeepsBy (table_of record_meaning range_meaning ops.now) (Self.view self.old) (Self.view self.new) }
        ensures log_end { IfErr result (IsNearEnd (Self.view self.new).tail) }
        ensures frees { let t = table_of record_meaning range_meaning ops.now in
            AsMeantBy t (Self.view self.old) (Self.view self.new) (λ g v w. (o : g.O) (a : Action g)
            → IsEngine t g v → IsIdle v → v.action ≡ Some a
            → a ≡ record { transaction = 0; pages = pages_of t g v } → Reads t g v o
            → (c : Changes t g a v w) × IfOk result (FreesNext t g a by v w o c.made)) };
}

/// An engine whose objects can be listed. Its lists take memory, and no other call does.
pub trait Lists: Objects {
    /// What the list of a table's keys touches.
    fn touches_keys(&mut self, name: Name, into: &mut Touches) -> Result<(), SpaceFault>
        requires can { Asked (Self.view self.old) CanLook }
        ensures counts { Counts IsDiskFault (Self.view self.old) (Self.view self.new) result }
        ensures means { Keeps (Self.view self.old) (Self.view self.new) }
        ensures tail { (Self.view self.new).tail ≡ (Self.view self.old).tail }
        ensures touches { AsMeant (Self.view self.old) (Self.view self.new) (λ t g v w. (o : g.O)
            → IsEngine t g v → Reads t g v o → Rests t g v w × OnOk result (Rested t g v w
            × (shown_touches into.new ≡ touches (g.objects o) (On name Keys)))) }
        ensures reads { IfErr result IsDiskFault };

    /// The keys of a table, in the order of their bytes, or why there are none. `Memory` where memory is
    /// refused: then nothing has changed, and with enough there would be keys.
    fn keys(&mut self, alloc: Global, name: Name) -> Result<Result<Vec<Bytes>, Reason>, ListFault>
        requires can { Asked (Self.view self.old) CanLook }
        ensures counts { Counts IsListDisk (Self.view self.old) (Self.view self.new) result }
        ensures means { Keeps (Self.view self.old) (Self.view self.new) }
        ensures tail { (Self.view self.new).tail ≡ (Self.view self.old).tail }
        ensures lists { AsMeant (Self.view self.old) (Self.view self.new) (λ t g v w. (o : g.O)
            → IsEngine t g v → Reads t g v o → Rests t g v w × HasKeys t g v w o name result) }
        ensures memory { IfErr result (λ e. e ≡ ListFault.Memory → (Self.view self.old).Told → (Self.view self.new).Told) }
        ensures quiet { IfErr result (λ e. e ≡ ListFault.Memory → (Self.view self.new).faults ≡ (Self.view self.old).faults) }
        ensures reads { IfErr result IsListRead };

    /// The names of all objects, in the order of their bytes. `Memory` where memory is refused: then nothing
    /// has changed.
    fn list(&mut self, alloc: Global) -> Result<Vec<Name>, ListFault>
        requires can { Asked (Self.view self.old) CanLook }
        ensures counts { Counts IsListDisk (Self.view self.old) (Self.view self.new) result }
        ensures means { Keeps (Self.view self.old) (Self.view self.new) }
        ensures tail { (Self.view self.new).tail ≡ (Self.view self.old).tail }
        ensures lists { AsMeant (Self.view self.old) (Self.view self.new) (λ t g v w. (o : g.O)
            → IsEngine t g v → Reads t g v o → Rests t g v w × HasNames t g v w o result) }
        ensures memory { IfErr result (λ e. e ≡ ListFault.Memory → (Self.view self.old).Told → (Self.view self.new).Told) }
        ensures quiet { IfErr result (λ e. e ≡ ListFault.Memory → (Self.view self.new).faults ≡ (Self.view self.old).faults) }
        ensures reads { IfErr result IsListRead };
}

/// An engine that tells of its objects.
pub trait Tells: Lists {
    /// Tells a listener of all objects, in the order of their names, a part at a time, and gives how many there are. The names are
    /// held, and the keys of a table while that is told of; no object is. Nothing is written to the log. Where memory is refused or the
    /// listener fails nothing has changed.
    fn tell<L: Listener>(&mut self, alloc: Global, to: &mut L) -> Result<u64, TellFault>
        requires can { Asked (Self.view self.old) CanLook }
        ensures counts { Counts IsTellDisk (Self.view self.old) (Self.view self.new) result }
        ensures means { Keeps (Self.view self.old) (Self.view self.new) }
        ensures tail { (Self.view self.new).tail ≡ (Self.view self.old).tail }
        ensures tells { AsMeant (Self.view self.old) (Self.view self.new) (λ t g v w. (o : g.O)
            → IsEngine t g v → Reads t g v o → Rests t g v w × HasTold L.ears to.old to.new t g v w o result) }
        ensures quiet { IfErr result (IsUntoldQuietly (Self.view self.old) (Self.view self.new)) }
        ensures listener { CountsListener L.ears to.old to.new result };
}

/// An engine whose transactions set marks, and can be undone as far as one.
pub trait Marks: Objects {
    /// Sets a mark of a live transaction, the so many-th of those that it then has, and answers the number of its
    /// record. No page and no band changes.
    fn save(&mut self, txn: TxnId, mark: u16) -> Result<Lsn, SpaceFault>
        requires can { Asked (Self.view self.old) (IsAt txn.0) }
        requires mark { IsMark mark }
        ensures counts { Counts IsDiskFault (Self.view self.old) (Self.view self.new) result }
        ensures means { Keeps (Self.view self.old) (Self.view self.new) }
        ensures log_end { IfErr result (IsNearEnd (Self.view self.old).tail) }
        ensures saves { AsMeant (Self.view self.old) (Self.view self.new) (λ t g v w. IsEngine t g v → IsIdle v
            → (lsn : ℕ) × (previous : ℕ) × Appends t g v w (record { lsn = lsn; is = Save txn.0 previous mark })
            × IfOk result (λ number. (number ≡ lsn)
            × Appended t g v w (record { lsn = lsn; is = Save txn.0 previous mark }))) };

    /// Begins an action that undoes the last standing note of a live transaction, as `undo_step` does, where that
    /// note is of an action behind the record with this number; `None` exactly where none stands there.
    fn undo_step_to(
        &mut self,
        txn: TxnId,
        stop: Lsn,
        into: &mut UndoNote,
    ) -> Result<Option<Lsn>, SpaceFault>
        requires can { Asked (Self.view self.old) (IsAtMark txn.0 stop) }
        ensures counts { Counts IsDiskFault (Self.view self.old) (Self.view self.new) result }
        ensures means { Keeps (Self.view self.old) (Self.view self.new) }
        ensures log_end { IfErr result (IsNearEnd (Self.view self.new).tail) }
        ensures none { AsMeant (Self.view self.old) (Self.view self.new) (λ t g v w. IsEngine t g v → IsIdle v → result ≡ Ok None
            → NoneBehind stop (notes_of txn.0 (tally v.log).notes) × Rested t g v w) }
        ensures some { AsMeant (Self.view self.old) (Self.view self.new) (λ t g v w. (a : Action g)
            → IsEngine t g v → IsIdle v
            → a ≡ record { transaction = txn.0; pages = pages_of t g v }
            → (c : Changes t g a v w)
            × IfOk result (λ after. IfSome after (λ next. (n : Top g.C g.N)
            × (ns : List (Top g.C g.N)) × (stop + 1 ≤ n.lsn)
            × (notes_of txn.0 (tally v.log).notes ≡ n ∷ ns)
            × (n.undo_next ≡ next) × (g.note into.new ≡ n.note)
            × g.PutsBack t n.note n.changes (tally w.log).opened a.pages (pages_of t g w)
            × (w.free_pages ≡ v.free_pages) × Changed t g a v w c.made))) };

    /// Whether the undoing of a note wants a page.
    fn wants_page(&self, note: &UndoNote) -> bool
        ensures { IfMeant (Self.view self.now) (λ t g v. result ≡ g.wants (g.note note.now)) };
}

/// An engine whose log can be cut at its front.
pub trait Truncates: Objects {
    /// The number of the byte behind the log's first frame.
    ghost first_frame_end: { Self → ℕ };

    /// The number of the log's last checkpoint, durable or not.
    ghost last_checkpoint: { Self → Option ℕ };

    /// The superblock can't be renewed any more: hardly any of its numbers is left.
    ghost is_spent: { Self → Type 0 };

    /// Makes the log durable and cuts off of it what neither redo nor undo wants any more, where `oldest`
    /// is the live transaction that began first: it begins then with the frame that holds the least of the changes
    /// that aren't home, the begin of `oldest` and the last checkpoint. Without a checkpoint nothing is cut.
    fn truncate(&mut self, oldest: Option<TxnId>) -> Result<(), SpaceFault>
        requires can { Asked (Self.view self.old) (IsFirst oldest) }
        ensures cuts { OnOk result ((Self.view self.old).Told → IsCut (Self.unwritten self.old) oldest (last_checkpoint self.old) (is_spent self.old) (Self.view self.old).start (Self.view self.new).start (first_frame_end self.new)) }
        ensures counts { Counts IsDiskFault (Self.view self.old) (Self.view self.new) result }
        ensures means { Keeps (Self.view self.old) (Self.view self.new) }
        ensures reads { IfErr result IsDiskFault }
        ensures rests { AsMeant (Self.view self.old) (Self.view self.new) (λ t g v w. IsEngine t g v
            → IsIdle v → IsOldest oldest (tally v.log).live → Rests t g v w
            × OnOk result (Rested t g v w × (w.durable ≡ w.log))) };
}
