ghost use Rattle.std.specs.Prelude.{◌≡◌, ◌≤◌, List, ℕ, length, is_some, option_copied, IfSome, IfOk, OnOk, OnErr, IsOk, MatchOption, Ok, Err, None, Some, vec_len, ◌++◌, map};
ghost use Rattle.std.specs.FinMap as finmap;
ghost use Rattle.sg_ops.specs.Table.{fresh_table};
ghost use Rattle.sg_model.specs.Keys.{key_checked};
ghost use Rattle.sg_model.specs.Objects.Object.{Table as as_object};
ghost use Rattle.sg_model.specs.SaidReplies.{said_reply};
ghost use Rattle.sg_model.specs.SaidOps.{verb_of, name_of};
ghost use Rattle.sg_model.specs.TouchList.{shown_touches};
ghost use Rattle.sg_model.specs.Touches.{table_touches, touch_of};
ghost use Rattle.sg_model.specs.Undo.{undo};
ghost use Rattle.sg_plain.specs.Undone.{shown_undo};
ghost use Rattle.sg_model.specs.Step.Update.{Stays};
ghost use Rattle.sg_model.specs.Step.{at_key, put_value, del_value, found, on, IsInPlace, GrowsBy, Refuses};

use crate::front::put_front;
use crate::keys::all_keys;
use crate::reach::{only_read, written};
use crate::undo::Undo;
use sg_base::OutOfMemory;
use sg_model::{Key, Op, Reason, Reply, Resource, Touches};
use std::alloc::{AllocError, Global};
use std::collections::BTreeMap;
use std::marker::Model;

/// The most bytes of a value under a key.
const MOST_VALUE_BYTES: usize = 1024;

/// The bytes under a key.
#[derive(Drop)]
struct Entry {
    bytes: Vec<u8>,
    ghost short: { vec_len bytes ≤ 1024 },
}

/// Values of at most 1,024 bytes under keys, which contracts see as a finite map.
#[derive(Drop)]
pub struct Table {
    map: BTreeMap<Key, Entry>,
}

impl Model for Table {
    ghost use Rattle.sg_model.specs.Objects.{Entries};

    ghost Value = { Entries };

    ghost use Rattle.std.specs.FinMap.{code};
    ghost use Rattle.std.specs.Coded.{coded_ℕ, coded_list};

    ghost coded = { code (coded_list coded_ℕ) (coded_list coded_ℕ) };

    ghost use Rattle.sg_plain.specs.Tables.{entries_of};

    ghost view = { λ t. entries_of t.map.entries };
}

// The key of these bytes, or why they are none.
fn checked_key(key: &[u8]) -> Result<Key, Reason>
    ensures { result ≡ key_checked key.now }
{
    if key.is_empty() {
        return Err(Reason::OutOfRange);
    }
    match Key::new(key) {
        Some(key) => Ok(key),
        None => Err(Reason::TooLong),
    }
}

// Why these bytes are no key.
fn key_refusal(key: &[u8]) -> Option<Reason>
    ensures { MatchOption result (key_checked key.now ≡ Ok key.now) (λ reason. key_checked key.now ≡ Err reason) }
{
    match checked_key(key) {
        Ok(_) => None,
        Err(reason) => Some(reason),
    }
}

impl Table {
    ghost use Rattle.sg_model.specs.Undo.{note_del, note_put, note_table};

    /// A table without entries. Takes no memory.
    pub fn new(alloc: Global) -> Table
        ensures { result ≡ finmap.empty }
    {
        Table {
            map: BTreeMap::new(alloc),
        }
    }

    /// Its keys, by their bytes.
    pub fn keys(&self, alloc: Global) -> Result<Vec<Key>, OutOfMemory>
        ensures { IfOk result (λ keys. keys.items ≡ finmap.keys self.now) }
    {
        all_keys(alloc, &self.map)
    }

    // Why a value would not be put under a key.
    fn put_refusal(&self, key: &[u8], value: &[u8]) -> Option<Reason>
        ensures { Refuses (at_key key.now (put_value value.now) self.now).0 result }
    {
        if let Some(reason) = key_refusal(key) {
            return Some(reason);
        }
        if value.len() > MOST_VALUE_BYTES {
            return Some(Reason::TooLong);
        }
        None
    }

    /// Why an operation that makes and drops no object would be refused.
    pub fn refusal(&self, op: &Op<'_>) -> Option<Reason>
        requires { IsInPlace (verb_of op.now) }
        ensures { Refuses (on fresh_table (verb_of op.now) (Some (as_object self.now))).0 result }
    {
        match *op {
            Op::Put {
                name: _,
                key,
                value,
            } => self.put_refusal(key, value),
            Op::Del { name: _, key } => key_refusal(key),
            Op::Find { name: _, key } => key_refusal(key),
            Op::MakeArray { .. }
            | Op::MakeTable { .. }
            | Op::MakeBlob { .. }
            | Op::Discard { .. } => unreachable!(),
            _ => Some(Reason::WrongKind),
        }
    }

    // Puts a value under a key, and says whether there was one.
    fn put(&mut self, alloc: Global, key: Key, value: &[u8]) -> Result<bool, OutOfMemory>
        requires { length value.now ≤ 1024 }
        ensures old { IfOk result (λ was. was ≡ is_some (finmap.get self.old key)) }
        ensures after { OnOk result (self.new ≡ finmap.insert self.old key value.now) }
        ensures err { OnErr result (self.new ≡ self.old) }
    {
        let Ok(bytes) = Vec::from_slice(alloc, value) else {
            return Err(OutOfMemory);
        };
        match self.map.insert(key, Entry { bytes }) {
            Ok(old) => Ok(old.is_some()),
            Err(_) => Err(OutOfMemory),
        }
    }

    // Takes a key away, and says whether it was there. Takes no memory.
    fn del(&mut self, key: Key) -> bool
        ensures there { result ≡ is_some (finmap.get self.old key) }
        ensures after { self.new ≡ finmap.remove self.old key }
    {
        self.map.remove(&key).is_some()
    }

    /// The value under a key.
    pub fn find(&self, key: Key) -> Option<&[u8]>
        ensures value { option_copied result ≡ finmap.get self.now key }
        ensures short { IfSome result (λ value. length value.now ≤ 1024) }
    {
        match self.map.get(&key) {
            Some(entry) => Some(entry.bytes.as_slice()),
            None => None,
        }
    }

    // What undoes that the value under a key is replaced or taken away: nothing, where there is none.
    fn undo_of_value(&self, alloc: Global, key: Key) -> Result<Undo, OutOfMemory>
        ensures { IfOk result (λ undo. shown_undo undo ≡ note_del key (finmap.get self.now key)) }
    {
        let Some(value) = self.find(key) else {
            return Ok(Undo::Nothing);
        };
        match Vec::from_slice(alloc, value) {
            Ok(bytes) => Ok(Undo::Value { key, bytes }),
            Err(_) => Err(OutOfMemory),
        }
    }

    // What undoes that a value is put under a key.
    fn undo_of_put(&self, alloc: Global, key: Key) -> Result<Undo, OutOfMemory>
        ensures { IfOk result (λ undo. shown_undo undo ≡ note_put key (finmap.get self.now key)) }
    {
        if self.find(key).is_some() {
            return self.undo_of_value(alloc, key);
        }
        Ok(Undo::New(key))
    }

    /// What undoes an operation that isn't refused: nothing, where it changes nothing.
    pub fn undo_of(&self, alloc: Global, op: &Op<'_>) -> Result<Undo, OutOfMemory>
        requires { IsOk (on fresh_table (verb_of op.now) (Some (as_object self.now))).0 }
        ensures { IfOk result (λ undo. shown_undo undo ≡ note_table (verb_of op.now) self.now) }
    {
        match *op {
            Op::Put { key, .. } => match checked_key(key) {
                Ok(key) => self.undo_of_put(alloc, key),
                Err(_) => unreachable!(),
            },
            Op::Del { key, .. } => match checked_key(key) {
                Ok(key) => self.undo_of_value(alloc, key),
                Err(_) => unreachable!(),
            },
            _ => Ok(Undo::Nothing),
        }
    }

    // Reads the value under a key.
    fn read(&self, key: Key, into: &mut [u8]) -> Reply
        requires { 8192 ≤ length into.old }
        ensures { found (finmap.get self.now key) ≡ (Ok (said_reply into.new result), Stays) }
    {
        match self.find(key) {
            None => Reply::Absent,
            Some(value) => {
                put_front(into, value);
                Reply::Bytes(value.len())
            }
        }
    }

    // Puts a value under the key of these bytes.
    fn put_bytes(&mut self, alloc: Global, key: &[u8], value: &[u8]) -> Result<Reply, OutOfMemory>
        requires { IsOk (at_key key.now (put_value value.now) self.old).0 }
        ensures done { IfOk result (λ r. (bytes : List ℕ) → at_key key.now (put_value value.now) self.old ≡ (Ok (said_reply bytes r), self.new)) }
        ensures err { OnErr result (self.new ≡ self.old) }
    {
        match checked_key(key) {
            Err(_) => Ok(Reply::Absent),
            Ok(key) => {
                if self.put(alloc, key, value)? {
                    Ok(Reply::Replaced)
                } else {
                    Ok(Reply::New)
                }
            }
        }
    }

    // Takes the key of these bytes away. Takes no memory.
    #[tactic(auto, using(crate::proofs::Found::remove_absent))]
    fn del_bytes(&mut self, key: &[u8]) -> Reply
        requires { IsOk (at_key key.now del_value self.old).0 }
        ensures { (bytes : List ℕ) → at_key key.now del_value self.old ≡ (Ok (said_reply bytes result), self.new) }
    {
        match checked_key(key) {
            Err(_) => Reply::Absent,
            Ok(key) => {
                if self.del(key) {
                    Reply::Done
                } else {
                    Reply::Absent
                }
            }
        }
    }

    // Reads the value under the key of these bytes.
    fn find_bytes(&self, key: &[u8], into: &mut [u8]) -> Reply
        requires room { 8192 ≤ length into.old }
        requires key { IsOk (at_key key.now found self.now).0 }
        ensures { at_key key.now found self.now ≡ (Ok (said_reply into.new result), self.now) }
    {
        match checked_key(key) {
            Err(_) => Reply::Absent,
            Ok(key) => self.read(key, into),
        }
    }

    /// Adds what an operation that makes and drops no object touches of the table beside whether
    /// and what it is.
    pub fn reach(&self, op: &Op<'_>, into: &mut Touches)
        requires in_place { IsInPlace (verb_of op.now) }
        requires room { length (shown_touches into.old) ≤ 1 }
        ensures { shown_touches into.new ≡ shown_touches into.old ++ map (touch_of (name_of op.now)) (table_touches (verb_of op.now)) }
    {
        match *op {
            Op::Put {
                name,
                key,
                value: _,
            } => {
                if let Ok(key) = checked_key(key) {
                    into.push(written(Resource::Key(name, key)));
                }
            }
            Op::Del { name, key } => {
                if let Ok(key) = checked_key(key) {
                    into.push(written(Resource::Key(name, key)));
                }
            }
            Op::Find { name, key } => {
                if let Ok(key) = checked_key(key) {
                    into.push(only_read(Resource::Key(name, key)));
                }
            }
            _ => {}
        }
    }

    /// Does an operation that isn't refused, and that makes and drops no object. After
    /// `OutOfMemory`, which comes only for a value to be put, the table is unchanged.
    pub fn apply(
        &mut self,
        alloc: Global,
        op: &Op<'_>,
        into: &mut [u8],
    ) -> Result<Reply, OutOfMemory>
        requires room { 8192 ≤ length into.old }
        requires in_place { IsInPlace (verb_of op.now) }
        requires accepted { IsOk (on fresh_table (verb_of op.now) (Some (as_object self.old))).0 }
        ensures done { IfOk result (λ r. on fresh_table (verb_of op.now) (Some (as_object self.old)) ≡ (Ok (said_reply into.new r), Some (as_object self.new))) }
        ensures err { OnErr result (self.new ≡ self.old) }
        ensures memory { OnErr result (GrowsBy (verb_of op.now)) }
    {
        match *op {
            Op::Put {
                name: _,
                key,
                value,
            } => self.put_bytes(alloc, key, value),
            Op::Del { name: _, key } => Ok(self.del_bytes(key)),
            Op::Find { name: _, key } => Ok(self.find_bytes(key, into)),
            _ => unreachable!(),
        }
    }

    // Puts back a value that isn't too long.
    fn put_back(&mut self, alloc: Global, key: Key, value: &[u8]) -> Result<(), OutOfMemory>
        ensures { OnOk result (self.new ≡ finmap.insert self.old key value.now) }
    {
        if value.len() > MOST_VALUE_BYTES {
            return Err(OutOfMemory);
        }
        match self.put(alloc, key, value) {
            Ok(_) => Ok(()),
            Err(fault) => Err(fault),
        }
    }

    /// Undoes what a note says. It answers `OutOfMemory` too where the note isn't one of a table.
    pub fn undo(&mut self, alloc: Global, note: &Undo) -> Result<(), OutOfMemory>
        ensures { OnOk result (Some (as_object self.new) ≡ undo (shown_undo note.now) (Some (as_object self.old))) }
    {
        match note {
            Undo::New(key) => {
                self.del(*key);
                Ok(())
            }
            Undo::Value { key, bytes } => self.put_back(alloc, *key, bytes),
            _ => Err(OutOfMemory),
        }
    }
}

impl Clone for Entry {
    ghost use Rattle.sg_plain.specs.Tables.{shown_value};

    ghost is_clone = { λ entry copy. shown_value copy ≡ shown_value entry };

    fn clone(&self) -> Result<Entry, AllocError> {
        Ok(Entry {
            bytes: self.bytes.clone()?,
        })
    }
}

impl Clone for Table {
    ghost is_clone = { λ table copy. copy ≡ table };

    fn clone(&self) -> Result<Table, AllocError> {
        Ok(Table {
            map: self.map.clone()?,
        })
    }
}
