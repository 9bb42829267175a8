// What an operation touches.
ghost use Rattle.std.specs.Prelude.{◌≡◌, [], ◌∷◌, map, OnOk, IfOk, ⊤};
ghost use Rattle.std.specs.FinMap.{get};
ghost use Rattle.sg_ops.specs.Table.{Table as Operations};
ghost use Rattle.sg_model.specs.Resources.{shown_touch};
ghost use Rattle.sg_model.specs.SaidOps.{name_of, verb_of, said_op};
ghost use Rattle.sg_model.specs.Touches.{touches, touch_of, to_read};
ghost use Rattle.sg_model.specs.Touches.Part.{Kind};
ghost use Rattle.sg_model.specs.Touches.Region.{Just};
ghost use Rattle.sg_model.specs.TouchList.{shown_touches};
ghost use Rattle.sg_model.specs.Verb.Op.{On};
ghost use Rattle.sg_model.specs.Verb.Verb.{Keys};
ghost use Rattle.sg_reading.specs.Reading.{objects, plain};
ghost use Rattle.sg_space.specs.View.{Counts, OnlyReads};
ghost use Rattle.sg_contents.specs.Meaning.{reading};
ghost use Rattle.sg_contents.specs.Standing.{HasContents, IfContents};
ghost use Rattle.sg_objects.specs.Touching.{IsSeen, push_at, pop_at, len_at, item_at, key_at, body_at, keys_at, reach_at};
ghost use Rattle.sg_space.specs.Pages.{WritesNone};

use sg_base::Name;
use sg_catalog::ObjectKind;
use sg_model::{Key, Op, Resource, Touch, Touches};
use sg_space::{PageSpace, SpaceFault};

/// What stands under a name, as far as it says what is touched.
#[derive(Clone, Copy)]
pub enum Seen {
    /// No object.
    Nothing,
    /// An array of so many items.
    Array(u32),
    /// A table.
    Table,
    /// A blob.
    Blob,
}

// What stands under a name.
fn seen_of<P: PageSpace>(space: &mut P, name: Name) -> Result<Seen, SpaceFault>
    requires { HasContents (P.view space.old) (λ _. ⊤) }
    ensures counts { Counts (P.view space.old) (P.view space.new) result }
    ensures kept { OnOk result (OnlyReads (P.view space.old) (P.view space.new)) }
    ensures read { IfOk result (λ x. IfContents (P.view space.old) (λ s. IsSeen x (plain (get (reading s).things name)))) }
    ensures later { (t : Operations) → P.later t space.old space.new }
    ensures means { (t : Operations) → P.means space.old t → P.means space.new t }
    ensures writes { WritesNone (P.view space.old) (P.view space.new) result }
{
    let sought = sg_catalog::find(space, name)?;
    let Some(found) = sought else {
        return Ok(Seen::Nothing);
    };
    match found.kind {
        ObjectKind::Table => Ok(Seen::Table),
        ObjectKind::Array => {
            let items = sg_array::len(space, found.root)?;
            Ok(Seen::Array(items))
        }
        ObjectKind::Blob => Ok(Seen::Blob),
    }
}

// One touch.
fn only(into: &mut Touches, what: Resource, write: bool)
    ensures { shown_touches into.new ≡ shown_touch (record { what = what; write = write }) ∷ [] }
{
    into.clear();
    into.push(Touch { what, write });
}

// The kind is read.
fn kind(into: &mut Touches, name: Name)
    ensures { shown_touches into.new ≡ map (touch_of name) (to_read (Just Kind) ∷ []) }
{
    only(into, Resource::Name(name), false);
}

// The kind is read, and one part is touched.
fn one(into: &mut Touches, name: Name, what: Resource, write: bool)
    ensures { shown_touches into.new ≡ touch_of name (to_read (Just Kind)) ∷ shown_touch (record { what = what; write = write }) ∷ [] }
{
    kind(into, name);
    into.push(Touch { what, write });
}

// Of an item pushed.
fn of_push(into: &mut Touches, name: Name, seen: Seen)
    ensures { shown_touches into.new ≡ map (touch_of name) (to_read (Just Kind) ∷ push_at seen) }
{
    match seen {
        Seen::Array(n) => {
            one(into, name, Resource::Len(name), true);
            into.push(Touch {
                what: Resource::Item(name, n as u64),
                write: true,
            });
        }
        Seen::Nothing => kind(into, name),
        Seen::Table => kind(into, name),
        Seen::Blob => kind(into, name),
    }
}

// Of an item popped.
fn of_pop(into: &mut Touches, name: Name, seen: Seen)
    ensures { shown_touches into.new ≡ map (touch_of name) (to_read (Just Kind) ∷ pop_at seen) }
{
    match seen {
        Seen::Array(n) => {
            one(into, name, Resource::Len(name), true);
            if n > 0 {
                into.push(Touch {
                    what: Resource::Item(name, n as u64 - 1),
                    write: true,
                });
            }
        }
        Seen::Nothing => kind(into, name),
        Seen::Table => kind(into, name),
        Seen::Blob => kind(into, name),
    }
}

// Of a length read.
fn of_len(into: &mut Touches, name: Name, seen: Seen)
    ensures { shown_touches into.new ≡ map (touch_of name) (to_read (Just Kind) ∷ len_at seen) }
{
    match seen {
        Seen::Array(n) => one(into, name, Resource::Len(name), false),
        Seen::Nothing => kind(into, name),
        Seen::Table => kind(into, name),
        Seen::Blob => one(into, name, Resource::Body(name), false),
    }
}

// Of one item.
fn of_item(into: &mut Touches, name: Name, seen: Seen, index: u64, write: bool)
    ensures { shown_touches into.new ≡ map (touch_of name) (to_read (Just Kind) ∷ item_at seen index write) }
{
    match seen {
        Seen::Array(n) => one(into, name, Resource::Item(name, index), write),
        Seen::Nothing => kind(into, name),
        Seen::Table => kind(into, name),
        Seen::Blob => kind(into, name),
    }
}

// Of one key.
fn of_key(into: &mut Touches, name: Name, seen: Seen, key: &[u8], write: bool)
    ensures { shown_touches into.new ≡ map (touch_of name) (to_read (Just Kind) ∷ key_at seen key.now write) }
{
    match seen {
        Seen::Table => {
            let whole = Key::new(key);
            match whole {
                Some(k) => one(into, name, Resource::Key(name, k), write),
                None => kind(into, name),
            }
        }
        Seen::Nothing => kind(into, name),
        Seen::Array(n) => kind(into, name),
        Seen::Blob => kind(into, name),
    }
}

// Of a blob's bytes.
fn of_body(into: &mut Touches, name: Name, seen: Seen, write: bool)
    ensures { shown_touches into.new ≡ map (touch_of name) (to_read (Just Kind) ∷ body_at seen write) }
{
    match seen {
        Seen::Blob => one(into, name, Resource::Body(name), write),
        Seen::Nothing => kind(into, name),
        Seen::Array(n) => kind(into, name),
        Seen::Table => kind(into, name),
    }
}

// Of a table's keys.
fn of_keys(into: &mut Touches, name: Name, seen: Seen)
    ensures { shown_touches into.new ≡ map (touch_of name) (to_read (Just Kind) ∷ keys_at seen) }
{
    match seen {
        Seen::Table => one(into, name, Resource::Keys(name), false),
        Seen::Nothing => kind(into, name),
        Seen::Array(n) => kind(into, name),
        Seen::Blob => kind(into, name),
    }
}

// What the operation touches, by what stands under its name.
fn touch_verb(op: &Op<'_>, seen: Seen, into: &mut Touches)
    ensures { shown_touches into.new ≡ map (touch_of (name_of op.now)) (reach_at seen (verb_of op.now)) }
{
    match *op {
        Op::MakeArray { name, size } => only(into, Resource::AllOf(name), true),
        Op::MakeTable { name } => only(into, Resource::AllOf(name), true),
        Op::MakeBlob { name } => only(into, Resource::AllOf(name), true),
        Op::Discard { name } => only(into, Resource::AllOf(name), true),
        Op::Push { name, value } => of_push(into, name, seen),
        Op::Pop { name } => of_pop(into, name, seen),
        Op::Set { name, index, value } => of_item(into, name, seen, index, true),
        Op::Get { name, index } => of_item(into, name, seen, index, false),
        Op::Len { name } => of_len(into, name, seen),
        Op::Apply {
            name,
            index,
            code,
            arg,
        } => of_item(into, name, seen, index, true),
        Op::Put { name, key, value } => of_key(into, name, seen, key, true),
        Op::Del { name, key } => of_key(into, name, seen, key, true),
        Op::Find { name, key } => of_key(into, name, seen, key, false),
        Op::Write { name, at, bytes } => of_body(into, name, seen, true),
        Op::Read { name, at, count } => of_body(into, name, seen, false),
        Op::Size { name, length } => of_body(into, name, seen, true),
        Op::Paint {
            name,
            at,
            count,
            code,
            arg,
        } => of_body(into, name, seen, true),
    }
}

/// What an operation touches, accepted or not. Nothing changes.
pub fn touches<P: PageSpace>(
    space: &mut P,
    op: &Op<'_>,
    into: &mut Touches,
) -> Result<(), SpaceFault>
    requires { HasContents (P.view space.old) (λ _. ⊤) }
    ensures counts { Counts (P.view space.old) (P.view space.new) result }
    ensures kept { OnOk result (OnlyReads (P.view space.old) (P.view space.new)) }
    ensures read { OnOk result (IfContents (P.view space.old) (λ s. shown_touches into.new ≡ touches (objects (reading s)) (said_op op.now))) }
    ensures later { (t : Operations) → P.later t space.old space.new }
    ensures means { (t : Operations) → P.means space.old t → P.means space.new t }
    ensures writes { WritesNone (P.view space.old) (P.view space.new) result }
{
    let seen = seen_of(space, op.name())?;
    touch_verb(op, seen, into);
    Ok(())
}

/// What the list of a table's keys touches. Nothing changes.
pub fn touches_keys<P: PageSpace>(
    space: &mut P,
    name: Name,
    into: &mut Touches,
) -> Result<(), SpaceFault>
    requires { HasContents (P.view space.old) (λ _. ⊤) }
    ensures counts { Counts (P.view space.old) (P.view space.new) result }
    ensures kept { OnOk result (OnlyReads (P.view space.old) (P.view space.new)) }
    ensures read { OnOk result (IfContents (P.view space.old) (λ s. shown_touches into.new ≡ touches (objects (reading s)) (On name Keys))) }
    ensures later { (t : Operations) → P.later t space.old space.new }
    ensures means { (t : Operations) → P.means space.old t → P.means space.new t }
    ensures writes { WritesNone (P.view space.old) (P.view space.new) result }
{
    let seen = seen_of(space, name)?;
    of_keys(into, name, seen);
    Ok(())
}
