ghost use Rattle.std.specs.Prelude.{◌≡◌, ◌+◌, ◌≤◌, ◌<◌, [], length, take, OnOk, OnErr, IsOk, IsTrue, is_some, IfOk, Ok, Err, Some, ◌++◌, map};
ghost use Rattle.sg_ops.specs.Table.{table_of, range_at, rendered};
ghost use Rattle.sg_plain.specs.Undone.{shown_undo};
ghost use Rattle.sg_model.specs.Objects.Object.{Blob as as_object};
ghost use Rattle.sg_model.specs.SaidReplies.{said_reply};
ghost use Rattle.sg_model.specs.SaidOps.{verb_of, name_of};
ghost use Rattle.sg_model.specs.TouchList.{shown_touches};
ghost use Rattle.sg_model.specs.Touches.{blob_touches, touch_of};
ghost use Rattle.sg_model.specs.Step.{overlaid, resized, write, read, resize, paint, on, IsInPlace, GrowsBy, Refuses};
ghost use Rattle.sg_model.specs.Verb.Reply.{Done, Bytes};

use crate::array::MOST_ARG_BYTES;
use crate::front::put_front;
use crate::reach::{only_read, written};
use crate::undo::Undo;
use sg_base::OutOfMemory;
use sg_model::{Op, Reason, Reply, Resource, Touches};
use sg_ops::Ops;
use std::alloc::{AllocError, Global};
use std::cmp::min;
use std::marker::Model;

/// The most bytes of a blob.
const MOST_BLOB_BYTES: u64 = 16384000;

/// The most bytes that one operation writes or reads.
const MOST_BYTES: u64 = 8192;

/// At most 16,384,000 bytes, which contracts see as a list.
#[derive(Drop)]
pub struct Blob {
    bytes: Vec<u8>,
}

impl Model for Blob {
    ghost use Rattle.std.specs.Prelude.{◌≤◌, length, List, ℕ};

    ghost Value = { List ℕ };

    ghost view = { λ b. b.bytes.items };

    ghost invariant = { λ b. length b.bytes.items ≤ 16384000 };
}

impl Blob {
    ghost use Rattle.sg_model.specs.Verb.Verb.{Size};
    ghost use Rattle.sg_model.specs.Undo.{note_blob, note_bytes, undo};

    /// A blob without bytes. Takes no memory.
    pub fn new(alloc: Global) -> Blob
        ensures { result ≡ [] }
    {
        Blob {
            bytes: Vec::new(alloc),
        }
    }

    /// How many bytes it has, at most 16,384,000.
    pub fn len(&self) -> usize
        ensures len { result ≡ length self.now }
        ensures most { result ≤ 16384000 }
    {
        self.bytes.len()
    }

    // Sets the length; the bytes gained are 0.
    fn set_len(&mut self, len: usize) -> Result<(), AllocError>
        requires { len ≤ 16384000 }
        ensures ok { OnOk result (self.new ≡ resized len self.old) }
        ensures err { OnErr result (self.new ≡ self.old) }
    {
        self.bytes.resize(len, 0)
    }

    // Writes over bytes that are there.
    fn replace(&mut self, at: usize, bytes: &[u8])
        requires { at + length bytes.now ≤ length self.old }
        ensures { self.new ≡ overlaid self.old at bytes.now }
    {
        self.bytes[at..at + bytes.len()].copy_from_slice(bytes);
    }

    // Writes bytes from a place on that is there, and past the end.
    fn overlay(&mut self, at: usize, bytes: &[u8]) -> Result<(), AllocError>
        requires there { at ≤ length self.old }
        requires fits { at + length bytes.now ≤ 16384000 }
        ensures ok { OnOk result (self.new ≡ overlaid self.old at bytes.now) }
        ensures err { OnErr result (self.new ≡ self.old) }
    {
        let end = at + bytes.len();
        if end > self.len() {
            self.set_len(end)?;
        }
        self.replace(at, bytes);
        Ok(())
    }

    // Writes a range operation's bytes over bytes that are there.
    fn render(&mut self, ops: &Ops, at: usize, count: usize, code: u16, arg: &[u8])
        requires there { at + count ≤ length self.old }
        requires most { length self.old ≤ 16384000 }
        requires registered { IsTrue (is_some (range_at (table_of record_meaning range_meaning ops.now) code)) }
        ensures { self.new ≡ overlaid self.old at (rendered (range_at (table_of record_meaning range_meaning ops.now) code) arg.now at count) }
    {
        ops.render(code, at as u32, arg, &mut self.bytes[at..at + count]);
    }

    // Why bytes would not be written.
    fn write_refusal(&self, at: u64, bytes: &[u8]) -> Option<Reason>
        ensures { Refuses (write at bytes.now self.now).0 result }
    {
        let count = bytes.len() as u64;
        if count > MOST_BYTES || at > MOST_BLOB_BYTES || at + count > MOST_BLOB_BYTES {
            return Some(Reason::TooLong);
        }
        if at > self.len() as u64 {
            return Some(Reason::OutOfRange);
        }
        None
    }

    // Why bytes would not be read.
    fn read_refusal(&self, at: u64, count: u64) -> Option<Reason>
        ensures { Refuses (read at count self.now) result }
    {
        if count > MOST_BYTES {
            return Some(Reason::TooLong);
        }
        let len = self.len() as u64;
        if at > len || at + count > len {
            return Some(Reason::OutOfRange);
        }
        None
    }

    // Why the length would not be set.
    fn size_refusal(&self, length: u64) -> Option<Reason>
        ensures { Refuses (resize length self.now).0 result }
    {
        if length > MOST_BLOB_BYTES {
            return Some(Reason::TooLong);
        }
        None
    }

    // Why a range operation's bytes would not be written.
    fn paint_refusal(&self, ops: &Ops, at: u64, count: u64, code: u64, arg: &[u8]) -> Option<Reason>
        ensures { Refuses (paint (table_of record_meaning range_meaning ops.now) at count code arg.now self.now).0 result }
    {
        if arg.len() > MOST_ARG_BYTES {
            return Some(Reason::TooLong);
        }
        let len = self.len() as u64;
        if at > len || count > len || at + count > len {
            return Some(Reason::OutOfRange);
        }
        let Ok(code) = u16::try_from(code) else {
            return Some(Reason::NoOperation);
        };
        if !ops.has_range(code) {
            return Some(Reason::NoOperation);
        }
        None
    }

    /// Why an operation that makes and drops no object would be refused.
    pub fn refusal(&self, ops: &Ops, op: &Op<'_>) -> Option<Reason>
        requires { IsInPlace (verb_of op.now) }
        ensures { Refuses (on (table_of record_meaning range_meaning ops.now) (verb_of op.now) (Some (as_object self.now))).0 result }
    {
        match *op {
            Op::Len { name: _ } => None,
            Op::Write { name: _, at, bytes } => self.write_refusal(at, bytes),
            Op::Read { name: _, at, count } => self.read_refusal(at, count),
            Op::Size { name: _, length } => self.size_refusal(length),
            Op::Paint {
                name: _,
                at,
                count,
                code,
                arg,
            } => self.paint_refusal(ops, at, count, code, arg),
            Op::MakeArray { .. }
            | Op::MakeTable { .. }
            | Op::MakeBlob { .. }
            | Op::Discard { .. } => unreachable!(),
            _ => Some(Reason::WrongKind),
        }
    }

    // Writes bytes, and past the end.
    fn write(&mut self, at: u64, bytes: &[u8]) -> Result<(), OutOfMemory>
        requires { IsOk (write at bytes.now self.old).0 }
        ensures ok { OnOk result (write at bytes.now self.old ≡ (Ok Done, self.new)) }
        ensures err { OnErr result (self.new ≡ self.old) }
    {
        match self.overlay(at as usize, bytes) {
            Ok(()) => Ok(()),
            Err(_) => Err(OutOfMemory),
        }
    }

    // Reads bytes, and gives how many.
    fn read(&self, at: u64, count: u64, into: &mut [u8]) -> usize
        requires room { 8192 ≤ length into.old }
        requires accepted { IsOk (read at count self.now) }
        ensures { read at count self.now ≡ Ok (Bytes (take result into.new)) }
    {
        let bytes = &self.bytes[at as usize..(at + count) as usize];
        put_front(into, bytes);
        bytes.len()
    }

    // Sets the length.
    fn size(&mut self, length: u64) -> Result<(), OutOfMemory>
        requires { IsOk (resize length self.old).0 }
        ensures ok { OnOk result (resize length self.old ≡ (Ok Done, self.new)) }
        ensures err { OnErr result (self.new ≡ self.old) }
    {
        match self.set_len(length as usize) {
            Ok(()) => Ok(()),
            Err(_) => Err(OutOfMemory),
        }
    }

    // Writes a range operation's bytes. Takes no memory.
    fn paint(&mut self, ops: &Ops, at: u64, count: u64, code: u64, arg: &[u8])
        requires { IsOk (paint (table_of record_meaning range_meaning ops.now) at count code arg.now self.old).0 }
        ensures { paint (table_of record_meaning range_meaning ops.now) at count code arg.now self.old ≡ (Ok Done, self.new) }
    {
        let _len = self.len();
        self.render(ops, at as usize, count as usize, code as u16, arg);
    }

    /// Adds what an operation that makes and drops no object touches of the blob beside whether
    /// and what it is.
    pub fn reach(&self, op: &Op<'_>, into: &mut Touches)
        requires in_place { IsInPlace (verb_of op.now) }
        requires room { length (shown_touches into.old) ≤ 1 }
        ensures { shown_touches into.new ≡ shown_touches into.old ++ map (touch_of (name_of op.now)) (blob_touches (verb_of op.now)) }
    {
        match *op {
            Op::Len { name } | Op::Read { name, .. } => {
                into.push(only_read(Resource::Body(name)));
            }
            Op::Write { name, .. } | Op::Size { name, .. } | Op::Paint { name, .. } => {
                into.push(written(Resource::Body(name)));
            }
            _ => {}
        }
    }

    /// Does an operation that isn't refused, and that makes and drops no object. After
    /// `OutOfMemory`, which comes only for a write or a size, the blob is unchanged.
    pub fn apply(&mut self, ops: &Ops, op: &Op<'_>, into: &mut [u8]) -> Result<Reply, OutOfMemory>
        requires room { 8192 ≤ length into.old }
        requires in_place { IsInPlace (verb_of op.now) }
        requires accepted { IsOk (on (table_of record_meaning range_meaning ops.now) (verb_of op.now) (Some (as_object self.old))).0 }
        ensures done { IfOk result (λ r. on (table_of record_meaning range_meaning ops.now) (verb_of op.now) (Some (as_object self.old)) ≡ (Ok (said_reply into.new r), Some (as_object self.new))) }
        ensures err { OnErr result (self.new ≡ self.old) }
        ensures memory { OnErr result (GrowsBy (verb_of op.now)) }
    {
        match *op {
            Op::Len { name: _ } => Ok(Reply::Number(self.len() as u64)),
            Op::Write { name: _, at, bytes } => match self.write(at, bytes) {
                Ok(()) => Ok(Reply::Done),
                Err(fault) => Err(fault),
            },
            Op::Read { name: _, at, count } => Ok(Reply::Bytes(self.read(at, count, into))),
            Op::Size { name: _, length } => match self.size(length) {
                Ok(()) => Ok(Reply::Done),
                Err(fault) => Err(fault),
            },
            Op::Paint {
                name: _,
                at,
                count,
                code,
                arg,
            } => {
                self.paint(ops, at, count, code, arg);
                Ok(Reply::Done)
            }
            _ => unreachable!(),
        }
    }

    // What undoes a change of so many bytes from a position on.
    fn undo_of_bytes(&self, alloc: Global, at: u64, count: u64) -> Result<Undo, OutOfMemory>
        ensures { IfOk result (λ undo. shown_undo undo ≡ note_bytes at count self.now) }
    {
        let len = self.len();
        let from = min(at as usize, len);
        let bytes = &self.bytes[from..];
        let bytes = &bytes[..min(count as usize, bytes.len())];
        match Vec::from_slice(alloc, bytes) {
            Ok(bytes) => Ok(Undo::Bytes {
                at: at as usize,
                bytes,
                length: len,
            }),
            Err(_) => Err(OutOfMemory),
        }
    }

    // What undoes that the length is set.
    fn undo_of_size(&self, alloc: Global, length: u64) -> Result<Undo, OutOfMemory>
        ensures { IfOk result (λ undo. shown_undo undo ≡ note_blob (Size length) self.now) }
    {
        let whole = self.len();
        let at = min(length as usize, whole);
        match Vec::from_slice(alloc, &self.bytes[at..]) {
            Ok(bytes) => Ok(Undo::Bytes {
                at,
                bytes,
                length: whole,
            }),
            Err(_) => Err(OutOfMemory),
        }
    }

    /// What undoes an operation that isn't refused: nothing, where it changes nothing.
    pub fn undo_of(&self, alloc: Global, op: &Op<'_>) -> Result<Undo, OutOfMemory>
        ensures { IfOk result (λ undo. shown_undo undo ≡ note_blob (verb_of op.now) self.now) }
    {
        match *op {
            Op::Write { name: _, at, bytes } => self.undo_of_bytes(alloc, at, bytes.len() as u64),
            Op::Size { name: _, length } => self.undo_of_size(alloc, length),
            Op::Paint { at, count, .. } => self.undo_of_bytes(alloc, at, count),
            _ => Ok(Undo::Nothing),
        }
    }

    /// Undoes what a note says. It answers `OutOfMemory` too where the note isn't one of a blob.
    pub fn undo(&mut self, note: &Undo) -> Result<(), OutOfMemory>
        ensures { OnOk result (Some (as_object self.new) ≡ undo (shown_undo note.now) (Some (as_object self.old))) }
    {
        match note {
            Undo::Bytes { at, bytes, length }
                if *length as u64 <= MOST_BLOB_BYTES
                    && *at <= *length
                    && bytes.len() <= *length - *at => {
                let Ok(()) = self.set_len(*length) else {
                    return Err(OutOfMemory);
                };
                self.replace(*at, bytes);
                Ok(())
            }
            _ => Err(OutOfMemory),
        }
    }
}

impl Clone for Blob {
    ghost is_clone = { λ blob copy. copy ≡ blob };

    fn clone(&self) -> Result<Blob, AllocError> {
        Ok(Blob {
            bytes: self.bytes.clone()?,
        })
    }
}
