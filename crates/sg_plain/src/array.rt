ghost use Rattle.std.specs.Prelude.{◌≡◌, ◌<◌, ◌≤◌, ◌*◌, [], ◌∷◌, ◌++◌, length, take, is_some, IfSome, IfOk, OnOk, OnErr, IsOk, IsTrue, Ok, Err, Some, slice_get, slice_set, slice_index_or, option_copied, map};
ghost use Rattle.std.specs.Simd.{first_chunks};
ghost use Rattle.sg_ops.specs.Table.{table_of, record_at, accepts_of, after_of};
ghost use Rattle.sg_plain.specs.Undone.{shown_undo};
ghost use Rattle.sg_model.specs.Objects.Object.{Array as as_object};
ghost use Rattle.sg_model.specs.SaidReplies.{said_reply};
ghost use Rattle.sg_model.specs.SaidOps.{verb_of, name_of};
ghost use Rattle.sg_model.specs.TouchList.{shown_touches};
ghost use Rattle.sg_model.specs.Touches.{array_touches, touch_of};
ghost use Rattle.sg_model.specs.Step.{push, pop, at_item, set_to, got, apply, on, IsInPlace, GrowsBy, Refuses};
ghost use Rattle.sg_model.specs.Verb.Reply.{Done, Number, Bytes};

use crate::front::put_front;
use crate::reach::{only_read, written};
use crate::undo::Undo;
use sg_base::OutOfMemory;
use sg_model::{Op, Reason, Reply, Resource, Touches};
use sg_ops::Ops;
use std::alloc::{AllocError, Global};
use std::marker::Model;

/// The most items of an array.
const MOST_ITEMS: usize = 1048576;

/// The most bytes of an operation's argument.
pub const MOST_ARG_BYTES: usize = 256;

/// Items of one size of at most 256 bytes, which contracts see as the size and the list of items.
#[derive(Drop)]
pub struct Array {
    size: usize,
    // how many items there are
    count: usize,
    // the items, one behind another
    bytes: Vec<u8>,
}

impl Model for Array {
    ghost use Rattle.sg_model.specs.Objects.{Row};

    ghost Value = { Row };

    ghost use Rattle.sg_plain.specs.Arrays.{row_of, IsRow};

    ghost view = { row_of };

    ghost invariant = { IsRow };
}

// The bytes of an item that is there, of so many of this size.
fn item_in(bytes: &[u8], size: usize, count: usize, index: usize) -> &[u8]
    requires there { index < count }
    requires whole { length bytes.now ≡ count * size }
    ensures item { result.now ≡ slice_index_or (first_chunks size count bytes.now) index [] }
    ensures size { length result.now ≡ size }
{
    let at = index * size;
    &bytes[at..at + size]
}

// Writes over the bytes of an item that is there, of so many of this size.
fn replace_in(bytes: &mut [u8], size: usize, count: usize, index: usize, value: &[u8])
    requires there { index < count }
    requires whole { length bytes.old ≡ count * size }
    requires sized { length value.now ≡ size }
    ensures { first_chunks size count bytes.new ≡ slice_set (first_chunks size count bytes.old) index value.now }
{
    let at = index * size;
    bytes[at..at + size].copy_from_slice(value);
}

// Does a record operation to the bytes of an item that is there, of so many of this size, and that
// it accepts.
fn redo_in(
    bytes: &mut [u8],
    size: usize,
    count: usize,
    index: usize,
    ops: &Ops,
    code: u16,
    arg: &[u8],
)
    requires there { index < count }
    requires whole { length bytes.old ≡ count * size }
    requires accepted { IsTrue (accepts_of (record_at (table_of record_meaning range_meaning ops.now) code) (slice_index_or (first_chunks size count bytes.old) index []) arg.now) }
    ensures { first_chunks size count bytes.new ≡ slice_set (first_chunks size count bytes.old) index
        (after_of (record_at (table_of record_meaning range_meaning ops.now) code) (slice_index_or (first_chunks size count bytes.old) index []) arg.now) }
{
    let at = index * size;
    ops.redo(code, &mut bytes[at..at + size], arg);
}

#[tactic(auto, using(crate::proofs::Chunks::length_chunks))]
impl Array {
    ghost use Rattle.sg_model.specs.Step.{put_item};
    ghost use Rattle.sg_model.specs.Undo.{note_array, note_item, note_last, undo};

    /// An array without items, for items of this many bytes. Takes no memory.
    pub fn new(alloc: Global, size: u64) -> Array
        requires { size ≤ 256 }
        ensures { result ≡ record { size = size; items = [] } }
    {
        Array {
            size: size as usize,
            count: 0,
            bytes: Vec::new(alloc),
        }
    }

    /// How many bytes an item has.
    pub fn size(&self) -> u64
        ensures { result ≡ self.now.size }
    {
        self.size as u64
    }

    /// How many items there are.
    pub fn len(&self) -> usize
        ensures { result ≡ length self.now.items }
    {
        self.count
    }

    // Adds an item of the right size.
    fn add(&mut self, value: &[u8]) -> Result<(), AllocError>
        requires sized { length value.now ≡ self.old.size }
        requires room { length self.old.items < MOST_ITEMS }
        ensures ok { OnOk result (self.new ≡ record { size = self.old.size; items = self.old.items ++ value.now ∷ [] }) }
        ensures err { OnErr result (self.new ≡ self.old) }
    {
        self.bytes.extend_from_slice(value)?;
        self.count += 1;
        Ok(())
    }

    // Takes the last item, which is there, puts its bytes at the front of a buffer, and gives how many
    // they are.
    fn take_last(&mut self, into: &mut [u8]) -> usize
        requires some { 0 < length self.old.items }
        requires room { 256 ≤ length into.old }
        ensures { self.old ≡ record { size = self.new.size; items = self.new.items ++ take result into.new ∷ [] } }
    {
        let rest = self.count - 1;
        put_front(into, item_in(&self.bytes, self.size, self.count, rest));
        self.bytes.truncate(rest * self.size);
        self.count = rest;
        self.size
    }

    // Writes into an item that is there. Takes no memory.
    fn replace(&mut self, index: usize, value: &[u8])
        requires there { index < length self.old.items }
        requires sized { length value.now ≡ self.old.size }
        ensures { self.new ≡ record { size = self.old.size; items = slice_set self.old.items index value.now } }
    {
        replace_in(&mut self.bytes, self.size, self.count, index, value);
    }

    // Whether a record operation accepts an item that is there.
    fn is_accepted(&self, ops: &Ops, index: usize, code: u16, arg: &[u8]) -> bool
        requires there { index < length self.now.items }
        requires registered { IsTrue (is_some (record_at (table_of record_meaning range_meaning ops.now) code)) }
        ensures { result ≡ accepts_of (record_at (table_of record_meaning range_meaning ops.now) code) (slice_index_or self.now.items index []) arg.now }
    {
        ops.accepts(
            code,
            item_in(&self.bytes, self.size, self.count, index),
            arg,
        )
    }

    // Does a record operation to an item that is there and that it accepts.
    fn redo(&mut self, ops: &Ops, index: usize, code: u16, arg: &[u8])
        requires there { index < length self.old.items }
        requires accepted { IsTrue (accepts_of (record_at (table_of record_meaning range_meaning ops.now) code) (slice_index_or self.old.items index []) arg.now) }
        ensures { self.new ≡ record {
          size = self.old.size;
          items = slice_set self.old.items index
              (after_of (record_at (table_of record_meaning range_meaning ops.now) code) (slice_index_or self.old.items index []) arg.now);
        } }
    {
        redo_in(
            &mut self.bytes,
            self.size,
            self.count,
            index,
            ops,
            code,
            arg,
        );
    }

    /// The item at an index, if it is there.
    pub fn get(&self, index: u64) -> Option<&[u8]>
        ensures item { option_copied result ≡ slice_get self.now.items index }
        ensures size { IfSome result (λ item. length item.now ≤ 256) }
    {
        if index >= self.count as u64 {
            return None;
        }
        Some(item_in(&self.bytes, self.size, self.count, index as usize))
    }

    /// Why an item would not be added.
    pub fn push_refusal(&self, value: &[u8]) -> Option<Reason>
        ensures { Refuses (push value.now self.now).0 result }
    {
        if value.len() as u64 != self.size() {
            return Some(Reason::Declined);
        }
        if self.len() >= MOST_ITEMS {
            return Some(Reason::TooMany);
        }
        None
    }

    // Why the last item would not be taken.
    fn pop_refusal(&self) -> Option<Reason>
        ensures { Refuses (pop self.now).0 result }
    {
        if self.len() == 0 {
            return Some(Reason::OutOfRange);
        }
        None
    }

    // Why the item at an index would not be replaced.
    fn set_refusal(&self, index: u64, value: &[u8]) -> Option<Reason>
        ensures { Refuses (at_item index (set_to value.now) self.now).0 result }
    {
        if index >= self.len() as u64 {
            return Some(Reason::OutOfRange);
        }
        if value.len() as u64 != self.size() {
            return Some(Reason::Declined);
        }
        None
    }

    // Why the item at an index would not be read.
    fn get_refusal(&self, index: u64) -> Option<Reason>
        ensures { Refuses (at_item index got self.now).0 result }
    {
        if index >= self.len() as u64 {
            return Some(Reason::OutOfRange);
        }
        None
    }

    // Why a record operation would not be done to the item at an index.
    #[tactic(auto, unfolding(sg_ops::specs::Table::accepts_of))]
    fn change_refusal(&self, ops: &Ops, index: u64, code: u64, arg: &[u8]) -> Option<Reason>
        ensures { Refuses (apply (table_of record_meaning range_meaning ops.now) index code arg.now self.now).0 result }
    {
        if arg.len() > MOST_ARG_BYTES {
            return Some(Reason::TooLong);
        }
        if index >= self.len() as u64 {
            return Some(Reason::OutOfRange);
        }
        let Ok(code) = u16::try_from(code) else {
            return Some(Reason::NoOperation);
        };
        if !ops.has_record(code) {
            return Some(Reason::NoOperation);
        }
        if !self.is_accepted(ops, index as usize, code, arg) {
            return Some(Reason::Declined);
        }
        None
    }

    /// Why an operation that makes and drops no object would be refused.
    pub fn refusal(&self, ops: &Ops, op: &Op<'_>) -> Option<Reason>
        requires { IsInPlace (verb_of op.now) }
        ensures { Refuses (on (table_of record_meaning range_meaning ops.now) (verb_of op.now) (Some (as_object self.now))).0 result }
    {
        match *op {
            Op::Push { name: _, value } => self.push_refusal(value),
            Op::Pop { name: _ } => self.pop_refusal(),
            Op::Set {
                name: _,
                index,
                value,
            } => self.set_refusal(index, value),
            Op::Get { name: _, index } => self.get_refusal(index),
            Op::Len { name: _ } => None,
            Op::Apply {
                name: _,
                index,
                code,
                arg,
            } => self.change_refusal(ops, index, code, arg),
            Op::Put { .. }
            | Op::Del { .. }
            | Op::Find { .. }
            | Op::Write { .. }
            | Op::Read { .. }
            | Op::Size { .. }
            | Op::Paint { .. } => Some(Reason::WrongKind),
            Op::MakeArray { .. }
            | Op::MakeTable { .. }
            | Op::MakeBlob { .. }
            | Op::Discard { .. } => unreachable!(),
        }
    }

    /// Adds an item at the end, where that isn't refused, and gives its index. After `OutOfMemory` the
    /// array is unchanged.
    #[inline(always)]
    pub fn push(&mut self, value: &[u8]) -> Result<u64, OutOfMemory>
        requires { IsOk (push value.now self.old).0 }
        ensures done { IfOk result (λ n. push value.now self.old ≡ (Ok (Number n), self.new)) }
        ensures err { OnErr result (self.new ≡ self.old) }
    {
        let at = self.len() as u64;
        match self.add(value) {
            Ok(()) => Ok(at),
            Err(_) => Err(OutOfMemory),
        }
    }

    // Takes the last item, and gives its length. Takes no memory.
    fn pop(&mut self, into: &mut [u8]) -> usize
        requires room { 256 ≤ length into.old }
        requires some { IsOk (pop self.old).0 }
        ensures { pop self.old ≡ (Ok (Bytes (take result into.new)), self.new) }
    {
        self.take_last(into)
    }

    // Replaces the item at an index. Takes no memory.
    fn set(&mut self, index: u64, value: &[u8])
        requires { IsOk (at_item index (set_to value.now) self.old).0 }
        ensures { at_item index (set_to value.now) self.old ≡ (Ok Done, self.new) }
    {
        self.replace(index as usize, value);
    }

    // Reads the item at an index, and gives its length.
    fn read(&self, index: u64, into: &mut [u8]) -> usize
        requires room { 256 ≤ length into.old }
        requires there { IsOk (at_item index got self.now).0 }
        ensures { at_item index got self.now ≡ (Ok (Bytes (take result into.new)), self.now) }
    {
        match self.get(index) {
            None => 0,
            Some(item) => {
                put_front(into, item);
                item.len()
            }
        }
    }

    // Does a record operation to the item at an index. Takes no memory.
    #[tactic(auto, unfolding(sg_ops::specs::Table::accepts_of, sg_ops::specs::Table::after_of))]
    fn change(&mut self, ops: &Ops, index: u64, code: u64, arg: &[u8])
        requires { IsOk (apply (table_of record_meaning range_meaning ops.now) index code arg.now self.old).0 }
        ensures { apply (table_of record_meaning range_meaning ops.now) index code arg.now self.old ≡ (Ok Done, self.new) }
    {
        self.redo(ops, index as usize, code as u16, arg);
    }

    /// Adds what an operation that makes and drops no object touches of the array beside whether
    /// and what it is.
    pub fn reach(&self, op: &Op<'_>, into: &mut Touches)
        requires in_place { IsInPlace (verb_of op.now) }
        requires room { length (shown_touches into.old) ≤ 1 }
        ensures { shown_touches into.new ≡ shown_touches into.old ++ map (touch_of (name_of op.now)) (array_touches (verb_of op.now) self.now) }
    {
        match *op {
            Op::Push { name, value: _ } => {
                into.push(written(Resource::Len(name)));
                into.push(written(Resource::Item(name, self.len() as u64)));
            }
            Op::Pop { name } => {
                into.push(written(Resource::Len(name)));
                if self.len() > 0 {
                    into.push(written(Resource::Item(name, self.len() as u64 - 1)));
                }
            }
            Op::Set {
                name,
                index,
                value: _,
            } => into.push(written(Resource::Item(name, index))),
            Op::Get { name, index } => into.push(only_read(Resource::Item(name, index))),
            Op::Len { name } => into.push(only_read(Resource::Len(name))),
            Op::Apply {
                name,
                index,
                code: _,
                arg: _,
            } => into.push(written(Resource::Item(name, index))),
            _ => {}
        }
    }

    /// Does an operation that isn't refused, and that makes and drops no object. After
    /// `OutOfMemory`, which comes only for an item to be added, the array is unchanged.
    pub fn apply(&mut self, ops: &Ops, op: &Op<'_>, into: &mut [u8]) -> Result<Reply, OutOfMemory>
        requires room { 8192 ≤ length into.old }
        requires in_place { IsInPlace (verb_of op.now) }
        requires accepted { IsOk (on (table_of record_meaning range_meaning ops.now) (verb_of op.now) (Some (as_object self.old))).0 }
        ensures done { IfOk result (λ r. on (table_of record_meaning range_meaning ops.now) (verb_of op.now) (Some (as_object self.old)) ≡ (Ok (said_reply into.new r), Some (as_object self.new))) }
        ensures err { OnErr result (self.new ≡ self.old) }
        ensures memory { OnErr result (GrowsBy (verb_of op.now)) }
    {
        match *op {
            Op::Push { name: _, value } => match self.push(value) {
                Ok(index) => Ok(Reply::Number(index)),
                Err(fault) => Err(fault),
            },
            Op::Pop { name: _ } => Ok(Reply::Bytes(self.pop(into))),
            Op::Set {
                name: _,
                index,
                value,
            } => {
                self.set(index, value);
                Ok(Reply::Done)
            }
            Op::Get { name: _, index } => Ok(Reply::Bytes(self.read(index, into))),
            Op::Len { name: _ } => Ok(Reply::Number(self.len() as u64)),
            Op::Apply {
                name: _,
                index,
                code,
                arg,
            } => {
                self.change(ops, index, code, arg);
                Ok(Reply::Done)
            }
            _ => unreachable!(),
        }
    }

    // What undoes a change of the item at an index, if it is there.
    fn undo_of_item(&self, alloc: Global, index: u64) -> Result<Undo, OutOfMemory>
        ensures { IfOk result (λ undo. shown_undo undo ≡ note_item index (slice_get self.now.items index)) }
    {
        let Some(item) = self.get(index) else {
            return Ok(Undo::Nothing);
        };
        match Vec::from_slice(alloc, item) {
            Ok(item) => Ok(Undo::Set {
                index: index as usize,
                item,
            }),
            Err(_) => Err(OutOfMemory),
        }
    }

    // What undoes that the last item is taken, if there is one.
    fn undo_of_pop(&self, alloc: Global) -> Result<Undo, OutOfMemory>
        ensures { IfOk result (λ undo. shown_undo undo ≡ note_last (length self.now.items) self.now) }
    {
        if self.len() == 0 {
            return Ok(Undo::Nothing);
        }
        match self.get(self.len() as u64 - 1) {
            None => Ok(Undo::Nothing),
            Some(item) => match Vec::from_slice(alloc, item) {
                Ok(item) => Ok(Undo::Popped(item)),
                Err(_) => Err(OutOfMemory),
            },
        }
    }

    /// What undoes an operation that isn't refused: nothing, where it changes nothing.
    pub fn undo_of(&self, alloc: Global, op: &Op<'_>) -> Result<Undo, OutOfMemory>
        ensures { IfOk result (λ undo. shown_undo undo ≡ note_array (verb_of op.now) self.now) }
    {
        match *op {
            Op::Push { .. } => Ok(Undo::Pushed),
            Op::Pop { .. } => self.undo_of_pop(alloc),
            Op::Set { index, .. } => self.undo_of_item(alloc, index),
            Op::Apply { index, .. } => self.undo_of_item(alloc, index),
            _ => Ok(Undo::Nothing),
        }
    }

    // Takes the last item away, if there is one. Takes no memory.
    fn cut_last(&mut self)
        ensures { self.new ≡ (pop self.old).1 }
    {
        if self.count > 0 {
            let left = self.count - 1;
            self.bytes.truncate(left * self.size);
            self.count = left;
        }
    }

    // Puts an item that fits back at the end.
    fn put_back(&mut self, item: &[u8]) -> Result<(), OutOfMemory>
        ensures { OnOk result (self.new ≡ record { size = self.old.size; items = self.old.items ++ item.now ∷ [] }) }
    {
        if item.len() as u64 != self.size() || self.len() >= MOST_ITEMS {
            return Err(OutOfMemory);
        }
        match self.add(item) {
            Ok(()) => Ok(()),
            Err(_) => Err(OutOfMemory),
        }
    }

    // Puts an item that fits back in its place, if the place is there.
    fn set_back(&mut self, index: usize, item: &[u8]) -> Result<(), OutOfMemory>
        ensures { OnOk result (self.new ≡ put_item self.old index (Some item.now)) }
    {
        if item.len() as u64 != self.size() {
            return Err(OutOfMemory);
        }
        if index >= self.len() {
            return Ok(());
        }
        self.replace(index, item);
        Ok(())
    }

    /// Undoes what a note says. It answers `OutOfMemory` too where the note isn't one of an array with items of this
    /// size, and then some of it may be done.
    pub fn undo(&mut self, note: &Undo) -> Result<(), OutOfMemory>
        ensures { OnOk result (Some (as_object self.new) ≡ undo (shown_undo note.now) (Some (as_object self.old))) }
    {
        match note {
            Undo::Pushed => {
                self.cut_last();
                Ok(())
            }
            Undo::Popped(item) => self.put_back(item),
            Undo::Set { index, item } => self.set_back(*index, item),
            _ => Err(OutOfMemory),
        }
    }
}

impl Clone for Array {
    ghost is_clone = { λ array copy. copy ≡ array };

    fn clone(&self) -> Result<Array, AllocError> {
        Ok(Array {
            size: self.size,
            count: self.count,
            bytes: self.bytes.clone()?,
        })
    }
}
