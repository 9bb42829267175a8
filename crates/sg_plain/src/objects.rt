ghost use Rattle.std.specs.Prelude.{◌≡◌, ◌≤◌, ℕ, List, IsTrue, Option, None, [], ◌∷◌, map, length, is_some, option_copied, OnOk, IfOk, OnErr, IsOk, Ok};
ghost use Rattle.std.specs.Option.{option_map};
ghost use Rattle.std.specs.FinMap as finmap;
ghost use Rattle.sg_ops.specs.Table.{Table as Operations, table_of};
ghost use Rattle.sg_model.specs.Objects as plain;
ghost use Rattle.sg_model.specs.Verb.Op.{On, Names};
ghost use Rattle.sg_model.specs.Verb.Reply.{Done, Several};
ghost use Rattle.sg_model.specs.Verb.Verb.{Keys};
ghost use Rattle.sg_model.specs.SaidReplies.{said_outcome};
ghost use Rattle.sg_plain.specs.Replies.{shown_keys};
ghost use Rattle.sg_plain.specs.Shown.{shown};
ghost use Rattle.sg_model.specs.SaidOps.{said_op, verb_of, name_of};
ghost use Rattle.sg_model.specs.TouchList.{shown_touches};
ghost use Rattle.sg_model.specs.Touches.{touches, touch_of, to_read, to_write, further};
ghost use Rattle.sg_model.specs.Touches.Part.{Kind};
ghost use Rattle.sg_model.specs.Touches.Region.{Just, Everything};
ghost use Rattle.sg_model.specs.Step.{on, step, put_at, IsInPlace, GrowsBy, Refuses};
ghost use Rattle.sg_model.specs.Undo.{undo, undo_on, undo_all_on, note_of_op, note_object};
ghost use Rattle.sg_plain.specs.Undone.{shown_undo, shown_noted, undo_in};

use crate::array::Array;
use crate::blob::Blob;
use crate::changes::Changes;
use crate::keys::all_keys;
use crate::object::Object;
use crate::reach::{only_read, written};
use crate::table::Table;
use crate::undo::{Noted, Undo};
use sg_base::{Name, OutOfMemory};
use sg_model::{Key, Op, Reason, Reply, Resource, Touches};
use sg_ops::Ops;
use std::alloc::Global;
use std::collections::BTreeMap;
use std::marker::Model;

/// Objects under names, which contracts see as a finite map.
#[derive(Drop)]
pub struct Objects {
    map: BTreeMap<Name, Object>,
}

impl Model for Objects {
    ghost use Rattle.std.specs.FinMap.{FinMap};
    ghost use Rattle.std.specs.Ordering.{nat_cmp};
    ghost use Rattle.std.specs.Cmp.Lexicographic.{slice_cmp};
    ghost use Rattle.sg_model.specs.Objects.{Object};

    ghost Value = { FinMap (slice_cmp nat_cmp) Object };

    ghost use Rattle.std.specs.FinMap.{code};
    ghost use Rattle.std.specs.Coded.{coded_ℕ, coded_list};
    ghost use Rattle.sg_model.specs.Codes.{object_code};

    ghost coded = { code (coded_list coded_ℕ) object_code };

    ghost use Rattle.sg_plain.specs.Shown.{objects_of};

    ghost view = { λ a. objects_of a.map.entries };
}

impl Objects {
    ghost use Rattle.sg_model.specs.Step.{Grows, is_changing, make_array, discard};
    ghost use Rattle.sg_plain.specs.Whole.{MakesOrDrops};

    /// No objects. Takes no memory.
    pub fn empty(alloc: Global) -> Objects
        ensures { result ≡ finmap.empty }
    {
        Objects {
            map: BTreeMap::new(alloc),
        }
    }

    // The object with this name.
    fn get(&self, name: &Name) -> Option<&Object>
        ensures { option_map shown (option_copied result) ≡ finmap.get self.now name.now }
    {
        self.map.get(name)
    }

    // Whether there is an object with this name.
    fn has(&self, name: Name) -> bool
        ensures { result ≡ is_some (finmap.get self.now name) }
    {
        self.get(&name).is_some()
    }

    // Puts a new object under a name.
    fn put(&mut self, name: Name, object: Object) -> Result<(), OutOfMemory>
        ensures ok { OnOk result (self.new ≡ finmap.insert self.old name (shown object)) }
        ensures err { OnErr result (self.new ≡ self.old) }
    {
        match self.map.insert(name, object) {
            Ok(_) => Ok(()),
            Err(_) => Err(OutOfMemory),
        }
    }

    // Takes the object with a name away. Takes no memory.
    fn discard(&mut self, name: Name)
        ensures { self.new ≡ finmap.remove self.old name }
    {
        drop(self.map.remove(&name));
    }

    // Why an operation on an object that is there would be refused.
    fn refusal_in(&self, ops: &Ops, name: Name, op: &Op<'_>) -> Option<Reason>
        requires { IsInPlace (verb_of op.now) }
        ensures { Refuses (on (table_of record_meaning range_meaning ops.now) (verb_of op.now) (finmap.get self.now name)).0 result }
    {
        match self.get(&name) {
            None => Some(Reason::NoObject),
            Some(object) => object.refusal(ops, op),
        }
    }

    // Why an array would not be made.
    #[tactic(auto, using(crate::proofs::Steps::exists_array, crate::proofs::Steps::empty_array, crate::proofs::Steps::wide_array, crate::proofs::Steps::fits_array))]
    fn array_refusal(&self, name: Name, size: u64) -> Option<Reason>
        ensures { Refuses (make_array size (finmap.get self.now name)).0 result }
    {
        if self.has(name) {
            return Some(Reason::Exists);
        }
        if size < 1 || size > 256 {
            return Some(Reason::OutOfRange);
        }
        None
    }

    // Why no object would be dropped.
    #[tactic(auto, using(crate::proofs::Steps::nothing_there, crate::proofs::Steps::dropped))]
    fn discard_refusal(&self, name: Name) -> Option<Reason>
        ensures { Refuses (discard (finmap.get self.now name)).0 result }
    {
        if self.has(name) {
            return None;
        }
        Some(Reason::NoObject)
    }

    /// Why an operation would be refused, if it would. It changes nothing and takes no memory.
    #[tactic(auto, unfolding(sg_model::specs::Step::step), using(crate::proofs::Steps::exists, crate::proofs::Steps::made))]
    pub fn refusal(&self, ops: &Ops, op: &Op<'_>) -> Option<Reason>
        ensures { Refuses (step (table_of record_meaning range_meaning ops.now) self.now (said_op op.now)).0 result }
    {
        match *op {
            Op::MakeArray { name, size } => self.array_refusal(name, size),
            Op::MakeTable { name } => {
                if self.has(name) {
                    Some(Reason::Exists)
                } else {
                    None
                }
            }
            Op::MakeBlob { name } => {
                if self.has(name) {
                    Some(Reason::Exists)
                } else {
                    None
                }
            }
            Op::Discard { name } => self.discard_refusal(name),
            Op::Push { .. }
            | Op::Pop { .. }
            | Op::Set { .. }
            | Op::Get { .. }
            | Op::Len { .. }
            | Op::Apply { .. }
            | Op::Put { .. }
            | Op::Del { .. }
            | Op::Find { .. }
            | Op::Write { .. }
            | Op::Read { .. }
            | Op::Size { .. }
            | Op::Paint { .. } => self.refusal_in(ops, op.name(), op),
        }
    }

    /// The keys of a table by their bytes, or the reason why there are none. It changes nothing.
    pub fn keys(&self, alloc: Global, name: Name) -> Result<Result<Vec<Key>, Reason>, OutOfMemory>
        ensures done { IfOk result (λ r. (t : Operations) → step t self.now (On name Keys) ≡ (shown_keys r, self.now)) }
        ensures cause { OnErr result ((t : Operations) → IsOk (step t self.now (On name Keys)).0) }
    {
        match self.get(&name) {
            None => Ok(Err(Reason::NoObject)),
            Some(object) => object.keys(alloc),
        }
    }

    /// The names of all objects, by their bytes. It changes nothing.
    pub fn list(&self, alloc: Global) -> Result<Vec<Name>, OutOfMemory>
        ensures { IfOk result (λ names. (t : Operations) → step t self.now Names ≡ (Ok (Several names.items), self.now)) }
    {
        all_keys(alloc, &self.map)
    }

    // Puts what an operation on an object that is there touches in the place of other touches.
    fn reach_in(&self, name: &Name, op: &Op<'_>, into: &mut Touches)
        requires named { name.now ≡ name_of op.now }
        requires in_place { IsInPlace (verb_of op.now) }
        ensures { shown_touches into.new ≡ map (touch_of (name_of op.now)) (to_read (Just Kind) ∷ further (verb_of op.now) (finmap.get self.now name.now)) }
    {
        into.clear();
        into.push(only_read(Resource::Name(*name)));
        match self.get(name) {
            None => {}
            Some(object) => object.reach(op, into),
        }
    }

    // Puts the touch of an operation that makes or drops an object in the place of other touches.
    fn reach_all(&self, name: Name, into: &mut Touches)
        ensures { shown_touches into.new ≡ map (touch_of name) (to_write Everything ∷ []) }
    {
        into.clear();
        into.push(written(Resource::AllOf(name)));
    }

    // Puts what the keys of a table touch in the place of other touches.
    fn reach_keys(&self, name: Name, into: &mut Touches)
        ensures { shown_touches into.new ≡ map (touch_of name) (to_read (Just Kind) ∷ further Keys (finmap.get self.now name)) }
    {
        into.clear();
        into.push(only_read(Resource::Name(name)));
        match self.get(&name) {
            None => {}
            Some(object) => object.reach_keys(name, into),
        }
    }

    /// Puts what the keys of a table touch in the place of other touches. It takes no memory.
    #[tactic(auto, unfolding(sg_model::specs::Touches::touches))]
    pub fn keys_touches(&self, name: Name, into: &mut Touches)
        ensures { shown_touches into.new ≡ touches self.now (On name Keys) }
    {
        self.reach_keys(name, into);
    }

    /// Puts what an operation touches in the place of other touches. It takes no memory.
    #[tactic(auto, unfolding(sg_model::specs::Touches::touches))]
    pub fn touches(&self, op: &Op<'_>, into: &mut Touches)
        ensures { shown_touches into.new ≡ touches self.now (said_op op.now) }
    {
        match *op {
            Op::MakeArray { name, size: _ } => self.reach_all(name, into),
            Op::MakeTable { name } => self.reach_all(name, into),
            Op::MakeBlob { name } => self.reach_all(name, into),
            Op::Discard { name } => self.reach_all(name, into),
            Op::Push { .. }
            | Op::Pop { .. }
            | Op::Set { .. }
            | Op::Get { .. }
            | Op::Len { .. }
            | Op::Apply { .. }
            | Op::Put { .. }
            | Op::Del { .. }
            | Op::Find { .. }
            | Op::Write { .. }
            | Op::Read { .. }
            | Op::Size { .. }
            | Op::Paint { .. } => self.reach_in(&op.name(), op, into),
        }
    }

    // Makes or drops an object, where that isn't refused.
    #[tactic(auto, unfolding(sg_model::specs::Step::step), using(crate::proofs::Steps::array_size, crate::proofs::Steps::after_make_array, crate::proofs::Steps::after_make, crate::proofs::Steps::after_discard))]
    fn perform(&mut self, alloc: Global, op: &Op<'_>) -> Result<(), OutOfMemory>
        requires whole { MakesOrDrops (verb_of op.now) }
        requires accepted { (t : Operations) × IsOk (step t self.old (said_op op.now)).0 }
        ensures done { OnOk result ((t : Operations) → step t self.old (said_op op.now) ≡ (Ok Done, self.new)) }
        ensures err { OnErr result (self.new ≡ self.old) }
        ensures memory { OnErr result (GrowsBy (verb_of op.now)) }
    {
        match *op {
            Op::MakeArray { name, size } => self.put(name, Object::Array(Array::new(alloc, size))),
            Op::MakeTable { name } => self.put(name, Object::Table(Table::new(alloc))),
            Op::MakeBlob { name } => self.put(name, Object::Blob(Blob::new(alloc))),
            Op::Discard { name } => {
                self.discard(name);
                Ok(())
            }
            Op::Push { .. }
            | Op::Pop { .. }
            | Op::Set { .. }
            | Op::Get { .. }
            | Op::Len { .. }
            | Op::Apply { .. }
            | Op::Put { .. }
            | Op::Del { .. }
            | Op::Find { .. }
            | Op::Write { .. }
            | Op::Read { .. }
            | Op::Size { .. }
            | Op::Paint { .. } => unreachable!(),
        }
    }

    // Makes or drops an object, or answers the reason why not.
    #[tactic(auto, using(crate::proofs::Steps::refused))]
    fn apply_whole(
        &mut self,
        alloc: Global,
        ops: &Ops,
        op: &Op<'_>,
    ) -> Result<Result<Reply, Reason>, OutOfMemory>
        requires { MakesOrDrops (verb_of op.now) }
        ensures done { IfOk result (λ r. (bytes : List ℕ) → step (table_of record_meaning range_meaning ops.now) self.old (said_op op.now) ≡ (said_outcome bytes r, self.new)) }
        ensures err { OnErr result (self.new ≡ self.old) }
        ensures memory { OnErr result (GrowsBy (verb_of op.now)) }
        ensures cause { OnErr result (IsOk (step (table_of record_meaning range_meaning ops.now) self.old (said_op op.now)).0) }
    {
        if let Some(reason) = self.refusal(ops, op) {
            return Ok(Err(reason));
        }
        match self.perform(alloc, op) {
            Ok(()) => Ok(Ok(Reply::Done)),
            Err(fault) => Err(fault),
        }
    }

    // Does an operation that makes and drops no object, or answers the reason why it is refused.
    fn apply_in(
        &mut self,
        alloc: Global,
        ops: &Ops,
        name: &Name,
        op: &Op<'_>,
        into: &mut [u8],
    ) -> Result<Result<Reply, Reason>, OutOfMemory>
        requires room { 8192 ≤ length into.old }
        requires named { name.now ≡ name_of op.now }
        requires in_place { IsInPlace (verb_of op.now) }
        ensures done { IfOk result (λ r. step (table_of record_meaning range_meaning ops.now) self.old (said_op op.now) ≡ (said_outcome into.new r, self.new)) }
        ensures err { OnErr result (self.new ≡ self.old) }
        ensures memory { OnErr result (GrowsBy (verb_of op.now)) }
        ensures cause { OnErr result (IsOk (step (table_of record_meaning range_meaning ops.now) self.old (said_op op.now)).0) }
    {
        let Some(object) = self.map.get_mut(name) else {
            return Ok(Err(Reason::NoObject));
        };
        object.attempt(alloc, ops, op, into)
    }

    /// Does an operation, and answers its reply or the reason why it is refused. `Bytes(n)` says
    /// that the first n bytes of `into` are the answer. A refused operation changes nothing.
    ///
    /// After `OutOfMemory`, which comes only for an operation that takes memory for what it leaves
    /// and would have got a reply, the objects are unchanged.
    pub fn apply(
        &mut self,
        alloc: Global,
        ops: &Ops,
        op: &Op<'_>,
        into: &mut [u8],
    ) -> Result<Result<Reply, Reason>, OutOfMemory>
        requires { 8192 ≤ length into.old }
        ensures done { IfOk result (λ r. step (table_of record_meaning range_meaning ops.now) self.old (said_op op.now) ≡ (said_outcome into.new r, self.new)) }
        ensures err { OnErr result (self.new ≡ self.old) }
        ensures memory { OnErr result (Grows (said_op op.now)) }
        ensures cause { OnErr result (IsOk (step (table_of record_meaning range_meaning ops.now) self.old (said_op op.now)).0) }
    {
        match *op {
            Op::MakeArray { .. }
            | Op::MakeTable { .. }
            | Op::MakeBlob { .. }
            | Op::Discard { .. } => self.apply_whole(alloc, ops, op),
            Op::Push { .. }
            | Op::Pop { .. }
            | Op::Set { .. }
            | Op::Get { .. }
            | Op::Len { .. }
            | Op::Apply { .. }
            | Op::Put { .. }
            | Op::Del { .. }
            | Op::Find { .. }
            | Op::Write { .. }
            | Op::Read { .. }
            | Op::Size { .. }
            | Op::Paint { .. } => self.apply_in(alloc, ops, &op.name(), op, into),
        }
    }

    // What takes back an operation that isn't refused.
    fn undo_of(&self, alloc: Global, op: &Op<'_>) -> Result<Undo, OutOfMemory>
        requires { (t : Operations) × IsOk (on t (verb_of op.now) (finmap.get self.now (name_of op.now))).0 }
        ensures { IfOk result (λ undo. shown_undo undo ≡ note_object (verb_of op.now) (finmap.get self.now (name_of op.now))) }
    {
        match self.get(&op.name()) {
            None => Ok(Undo::Made),
            Some(object) => object.undo_of(alloc, op),
        }
    }

    /// Does a changing operation as `apply` does, and notes in `changes` what takes it back, before what these note.
    ///
    /// After `OutOfMemory`, which comes only for an operation that would have got a reply, the objects
    /// and the notes are unchanged.
    pub fn change(
        &mut self,
        alloc: Global,
        ops: &Ops,
        op: &Op<'_>,
        into: &mut [u8],
        changes: &mut Changes,
    ) -> Result<Result<Reply, Reason>, OutOfMemory>
        requires room { 8192 ≤ length into.old }
        requires changing { IsTrue (is_changing (said_op op.now)) }
        ensures done { IfOk result (λ r. step (table_of record_meaning range_meaning ops.now) self.old (said_op op.now) ≡ (said_outcome into.new r, self.new)) }
        ensures noted { OnOk result ((name : List ℕ) (object : Option plain.Object) → undo_in changes.new name object ≡ undo_in changes.old name (undo_on name (note_of_op (table_of record_meaning range_meaning ops.now) self.old (said_op op.now)) object)) }
        ensures err { OnErr result (self.new ≡ self.old) }
        ensures same { OnErr result ((name : List ℕ) (object : Option plain.Object) → undo_in changes.new name object ≡ undo_in changes.old name object) }
        ensures cause { OnErr result (IsOk (step (table_of record_meaning range_meaning ops.now) self.old (said_op op.now)).0) }
    {
        if let Some(reason) = self.refusal(ops, op) {
            return Ok(Err(reason));
        }
        let Ok(undo) = self.undo_of(alloc, op) else {
            return Err(OutOfMemory);
        };
        if changes.notes.reserve(1).is_err() {
            return Err(OutOfMemory);
        }
        match self.apply(alloc, ops, op, into) {
            Ok(Ok(reply)) => {
                let name = op.name();
                changes.notes.push_reserved(Noted { name, undo });
                Ok(Ok(reply))
            }
            Ok(Err(reason)) => Ok(Err(reason)),
            Err(fault) => Err(fault),
        }
    }

    // The same objects once more.
    fn copy(&self) -> Result<Objects, OutOfMemory>
        ensures { IfOk result (λ copy. copy ≡ self.now) }
    {
        match self.map.clone() {
            Ok(map) => Ok(Objects { map }),
            Err(_) => Err(OutOfMemory),
        }
    }

    // Takes back what a note says of an object that is there. After `OutOfMemory` some of it may be done.
    fn undo_there(&mut self, alloc: Global, noted: &Noted) -> Result<(), OutOfMemory>
        requires { undo (shown_undo noted.now.undo) None ≡ None }
        ensures { OnOk result (self.new ≡ put_at self.old noted.now.name (undo (shown_undo noted.now.undo) (finmap.get self.old noted.now.name))) }
    {
        let Some(object) = self.map.get_mut(&noted.name) else {
            return Ok(());
        };
        object.undo(alloc, &noted.undo)
    }

    // Takes back what a note says. After `OutOfMemory` some of it may be done.
    fn undo_one(&mut self, alloc: Global, noted: &Noted) -> Result<(), OutOfMemory>
        ensures { OnOk result (self.new ≡ put_at self.old noted.now.name (undo (shown_undo noted.now.undo) (finmap.get self.old noted.now.name))) }
    {
        match &noted.undo {
            Undo::Made => {
                self.discard(noted.name);
                Ok(())
            }
            Undo::Dropped(object) => match object.clone() {
                Ok(object) => self.put(noted.name, object),
                Err(_) => Err(OutOfMemory),
            },
            Undo::Nothing
            | Undo::Pushed
            | Undo::Popped(_)
            | Undo::Set { .. }
            | Undo::New(_)
            | Undo::Value { .. }
            | Undo::Bytes { .. } => self.undo_there(alloc, noted),
        }
    }

    // Takes back what notes say, the last one first. After `OutOfMemory` some of it may be done.
    fn undo_all(&mut self, alloc: Global, notes: &[Noted]) -> Result<(), OutOfMemory>
        ensures { OnOk result ((name : List ℕ) → finmap.get self.new name ≡ undo_all_on name (map shown_noted notes.now) (finmap.get self.old name)) }
    {
        let mut left = notes.len();
        'left: while left > 0 {
            left -= 1;
            self.undo_one(alloc, &notes[left])?;
        }
        Ok(())
    }

    /// Takes back all that `changes` notes, and then it notes nothing.
    /// After `OutOfMemory` the objects and the notes are unchanged.
    ///
    /// It is done to a copy of the objects, which takes their place once all is taken back.
    pub fn take_back(&mut self, alloc: Global, changes: &mut Changes) -> Result<(), OutOfMemory>
        ensures back { OnOk result ((name : List ℕ) → finmap.get self.new name ≡ undo_in changes.old name (finmap.get self.old name)) }
        ensures none { OnOk result ((name : List ℕ) (object : Option plain.Object) → undo_in changes.new name object ≡ object) }
        ensures err { OnErr result (self.new ≡ self.old) }
        ensures same { OnErr result ((name : List ℕ) (object : Option plain.Object) → undo_in changes.new name object ≡ undo_in changes.old name object) }
    {
        let mut back = self.copy()?;
        back.undo_all(alloc, &changes.notes)?;
        *self = back;
        changes.notes.clear();
        Ok(())
    }
}
