ghost use Rattle.std.specs.Prelude.{◌≡◌, ◌≤◌, length, IfOk, OnOk, OnErr, IsOk, Ok, Some, ◌++◌, map};
ghost use Rattle.sg_ops.specs.Table.{Table as Operations, table_of};
ghost use Rattle.sg_model.specs.Verb.Verb.{Keys};
ghost use Rattle.sg_model.specs.SaidReplies.{said_reply, said_outcome};
ghost use Rattle.sg_plain.specs.Replies.{shown_keys};
ghost use Rattle.sg_plain.specs.Shown.{shown};
ghost use Rattle.sg_model.specs.SaidOps.{verb_of, name_of};
ghost use Rattle.sg_model.specs.TouchList.{shown_touches};
ghost use Rattle.sg_model.specs.Touches.{further, touch_of};
ghost use Rattle.sg_model.specs.Step.{on, IsInPlace, GrowsBy, Refuses};

use crate::array::Array;
use crate::blob::Blob;
use crate::reach::only_read;
use crate::table::Table;
use crate::undo::Undo;
use sg_base::{Name, OutOfMemory};
use sg_model::{Key, Op, Reason, Reply, Resource, Touches};
use sg_ops::Ops;
use std::alloc::{AllocError, Global};

/// An object.
#[derive(Drop)]
pub enum Object {
    /// Items of one size.
    Array(Array),
    /// Values under keys.
    Table(Table),
    /// Bytes.
    Blob(Blob),
}

impl Object {
    ghost use Rattle.sg_model.specs.Undo.{undo, note_there};
    ghost use Rattle.sg_plain.specs.Undone.{shown_undo};

    /// Why an operation that makes and drops no object would be refused.
    #[tactic(auto, using(crate::proofs::Steps::table_refuses))]
    pub fn refusal(&self, ops: &Ops, op: &Op<'_>) -> Option<Reason>
        requires { IsInPlace (verb_of op.now) }
        ensures { Refuses (on (table_of record_meaning range_meaning ops.now) (verb_of op.now) (Some (shown self.now))).0 result }
    {
        match self {
            Object::Array(array) => array.refusal(ops, op),
            Object::Table(table) => table.refusal(op),
            Object::Blob(blob) => blob.refusal(ops, op),
        }
    }

    /// Adds what an operation that makes and drops no object touches of the object beside whether
    /// and what it is.
    pub fn reach(&self, op: &Op<'_>, into: &mut Touches)
        requires in_place { IsInPlace (verb_of op.now) }
        requires room { length (shown_touches into.old) ≤ 1 }
        ensures { shown_touches into.new ≡ shown_touches into.old ++ map (touch_of (name_of op.now)) (further (verb_of op.now) (Some (shown self.now))) }
    {
        match self {
            Object::Array(array) => array.reach(op, into),
            Object::Table(table) => table.reach(op, into),
            Object::Blob(blob) => blob.reach(op, into),
        }
    }

    /// Adds what the keys of the table with this name touch beside whether and what the object is.
    pub fn reach_keys(&self, name: Name, into: &mut Touches)
        requires { length (shown_touches into.old) ≤ 1 }
        ensures { shown_touches into.new ≡ shown_touches into.old ++ map (touch_of name) (further Keys (Some (shown self.now))) }
    {
        match self {
            Object::Table(_) => into.push(only_read(Resource::Keys(name))),
            Object::Array(_) | Object::Blob(_) => {}
        }
    }

    /// The keys of a table, by their bytes.
    pub fn keys(&self, alloc: Global) -> Result<Result<Vec<Key>, Reason>, OutOfMemory>
        ensures done { IfOk result (λ r. (t : Operations) → on t Keys (Some (shown self.now)) ≡ (shown_keys r, Some (shown self.now))) }
        ensures cause { OnErr result ((t : Operations) → IsOk (on t Keys (Some (shown self.now))).0) }
    {
        match self {
            Object::Table(table) => match table.keys(alloc) {
                Ok(keys) => Ok(Ok(keys)),
                Err(fault) => Err(fault),
            },
            _ => Ok(Err(Reason::WrongKind)),
        }
    }

    /// Does an operation that isn't refused, and that makes and drops no object. After
    /// `OutOfMemory`, which comes only for an operation that takes memory for what it leaves, the
    /// object is unchanged.
    #[tactic(auto, using(crate::proofs::Steps::table_accepts, crate::proofs::Steps::table_does))]
    pub fn apply(
        &mut self,
        alloc: Global,
        ops: &Ops,
        op: &Op<'_>,
        into: &mut [u8],
    ) -> Result<Reply, OutOfMemory>
        requires room { 8192 ≤ length into.old }
        requires in_place { IsInPlace (verb_of op.now) }
        requires accepted { IsOk (on (table_of record_meaning range_meaning ops.now) (verb_of op.now) (Some (shown self.old))).0 }
        ensures done { IfOk result (λ r. on (table_of record_meaning range_meaning ops.now) (verb_of op.now) (Some (shown self.old)) ≡ (Ok (said_reply into.new r), Some (shown self.new))) }
        ensures err { OnErr result (shown self.new ≡ shown self.old) }
        ensures memory { OnErr result (GrowsBy (verb_of op.now)) }
    {
        match self {
            Object::Array(array) => array.apply(ops, op, into),
            Object::Table(table) => table.apply(alloc, op, into),
            Object::Blob(blob) => blob.apply(ops, op, into),
        }
    }

    /// Does an operation that makes and drops no object, or answers the reason why it is refused, which
    /// changes nothing. After `OutOfMemory`, which comes only for an operation that takes memory for
    /// what it leaves and would have got a reply, the object is unchanged.
    pub fn attempt(
        &mut self,
        alloc: Global,
        ops: &Ops,
        op: &Op<'_>,
        into: &mut [u8],
    ) -> Result<Result<Reply, Reason>, OutOfMemory>
        requires room { 8192 ≤ length into.old }
        requires in_place { IsInPlace (verb_of op.now) }
        ensures done { IfOk result (λ r. on (table_of record_meaning range_meaning ops.now) (verb_of op.now) (Some (shown self.old)) ≡ (said_outcome into.new r, Some (shown self.new))) }
        ensures err { OnErr result (shown self.new ≡ shown self.old) }
        ensures memory { OnErr result (GrowsBy (verb_of op.now)) }
        ensures cause { OnErr result (IsOk (on (table_of record_meaning range_meaning ops.now) (verb_of op.now) (Some (shown self.old))).0) }
    {
        if let Some(reason) = self.refusal(ops, op) {
            return Ok(Err(reason));
        }
        match self.apply(alloc, ops, op, into) {
            Ok(reply) => Ok(Ok(reply)),
            Err(fault) => Err(fault),
        }
    }

    // What undoes an operation that isn't refused, and that neither drops the object nor makes one.
    #[tactic(auto, using(crate::proofs::Steps::table_accepts))]
    fn undo_in_place(&self, alloc: Global, op: &Op<'_>) -> Result<Undo, OutOfMemory>
        requires in_place { IsInPlace (verb_of op.now) }
        requires accepted { (t : Operations) × IsOk (on t (verb_of op.now) (Some (shown self.now))).0 }
        ensures { IfOk result (λ undo. shown_undo undo ≡ note_there (verb_of op.now) (shown self.now)) }
    {
        match self {
            Object::Array(array) => array.undo_of(alloc, op),
            Object::Table(table) => table.undo_of(alloc, op),
            Object::Blob(blob) => blob.undo_of(alloc, op),
        }
    }

    /// What undoes an operation that isn't refused: nothing, where it changes nothing.
    pub fn undo_of(&self, alloc: Global, op: &Op<'_>) -> Result<Undo, OutOfMemory>
        requires { (t : Operations) × IsOk (on t (verb_of op.now) (Some (shown self.now))).0 }
        ensures { IfOk result (λ undo. shown_undo undo ≡ note_there (verb_of op.now) (shown self.now)) }
    {
        match *op {
            Op::Discard { .. } => match self.clone() {
                Ok(object) => Ok(Undo::Dropped(object)),
                Err(_) => Err(OutOfMemory),
            },
            Op::MakeArray { .. } | Op::MakeTable { .. } | Op::MakeBlob { .. } => unreachable!(),
            Op::Push { .. }
            | Op::Pop { .. }
            | Op::Set { .. }
            | Op::Get { .. }
            | Op::Len { .. }
            | Op::Apply { .. }
            | Op::Put { .. }
            | Op::Del { .. }
            | Op::Find { .. }
            | Op::Write { .. }
            | Op::Read { .. }
            | Op::Size { .. }
            | Op::Paint { .. } => self.undo_in_place(alloc, op),
        }
    }

    /// Undoes what a note says that neither makes nor drops an object. It answers `OutOfMemory` too where the note isn't one
    /// of an object like this, and then some of it may be done.
    pub fn undo(&mut self, alloc: Global, note: &Undo) -> Result<(), OutOfMemory>
        ensures { OnOk result (Some (shown self.new) ≡ undo (shown_undo note.now) (Some (shown self.old))) }
    {
        if let Undo::Nothing = note {
            return Ok(());
        }
        match self {
            Object::Array(array) => array.undo(note),
            Object::Table(table) => table.undo(alloc, note),
            Object::Blob(blob) => blob.undo(note),
        }
    }
}

impl Clone for Object {
    ghost is_clone = { λ object copy. shown copy ≡ shown object };

    fn clone(&self) -> Result<Object, AllocError> {
        match self {
            Object::Array(array) => Ok(Object::Array(array.clone()?)),
            Object::Table(table) => Ok(Object::Table(table.clone()?)),
            Object::Blob(blob) => Ok(Object::Blob(blob.clone()?)),
        }
    }
}
