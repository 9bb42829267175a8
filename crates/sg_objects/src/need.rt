// What an operation needs, or why it is refused.
ghost use Rattle.std.specs.Prelude.{◌≡◌, ◌≤◌, ◌-◌, length, OnOk, IfOk, ⊤};
ghost use Rattle.sg_ops.specs.Table.{Table as Operations, table_of};
ghost use Rattle.sg_model.specs.SaidOps.{name_of, verb_of};
ghost use Rattle.sg_model.specs.Verb.Verb.{MakeArray, MakeTable, MakeBlob, Discard, Push, Pop, Set, Get, Len, Apply, Put, Del, Find, Write, Read, Size, Paint};
ghost use Rattle.sg_space.specs.View.{Counts, OnlyReads};
ghost use Rattle.sg_contents.specs.Standing.{HasContents, IfContents};
ghost use Rattle.sg_objects.specs.Calls.{CountsObject, IfAnswered};
ghost use Rattle.sg_objects.specs.Found.{CheckedBy};
ghost use Rattle.sg_objects.specs.Needing.{HasNeed, needed_of};
ghost use Rattle.sg_objects.specs.Needs.{bands_alone, bands_for, pages_alone};
ghost use Rattle.sg_space.specs.Pages.{WritesNone};
ghost use Rattle.sg_objects.specs.Quiet.{WritesNoneObject};

use crate::apply::check_apply;
use crate::blob_paint::check_paint;
use crate::blob_read::check_read;
use crate::blob_size::check_size;
use crate::blob_write::check_write;
use crate::check::{check_get, check_pop, check_push, check_set};
use crate::len::check_len;
use crate::make::is_there;
use crate::put::check_put;
use crate::table::check_key;
use crate::verb::ObjFault;
use sg_base::Name;
use sg_model::{Op, Reason};
use sg_ops::Ops;
use sg_space::{PageSpace, SpaceFault};

/// What an operation needs.
#[derive(Clone, Copy, Debug, PartialEq, Eq)]
pub struct Needs {
    /// So many free pages,
    pub pages: u32,
    /// so many free bands,
    pub bands: u32,
    /// and so many of the pages stay free for its undoing.
    pub reserve: u32,
}

// Free pages alone.
fn of_pages(pages: u32) -> Needs
    ensures { needed_of result ≡ pages_alone pages }
{
    Needs {
        pages,
        bands: 0,
        reserve: 0,
    }
}

// Free pages, of which one stays free.
fn of_kept(pages: u32) -> Needs
    ensures { needed_of result ≡ record { pages = pages; bands = 0; reserve = 1 } }
{
    Needs {
        pages,
        bands: 0,
        reserve: 1,
    }
}

// Of the making of an array.
fn needs_make_array<P: PageSpace>(
    space: &mut P,
    ops: &Ops,
    name: Name,
    size: u64,
) -> Result<Result<Needs, Reason>, SpaceFault>
    requires { HasContents (P.view space.old) (λ _. ⊤) }
    ensures counts { Counts (P.view space.old) (P.view space.new) result }
    ensures kept { OnOk result (OnlyReads (P.view space.old) (P.view space.new)) }
    ensures read { IfOk result (λ r. IfContents (P.view space.old) (λ s. CheckedBy (table_of record_meaning range_meaning ops.now) name (MakeArray size) s (HasNeed (table_of record_meaning range_meaning ops.now) name (MakeArray size) s) r)) }
    ensures later { (t : Operations) → P.later t space.old space.new }
    ensures means { (t : Operations) → P.means space.old t → P.means space.new t }
    ensures writes { WritesNone (P.view space.old) (P.view space.new) result }
{
    if is_there(space, name)? {
        return Ok(Err(Reason::Exists));
    }
    if size == 0 || size > 256 {
        return Ok(Err(Reason::OutOfRange));
    }
    Ok(Ok(of_pages(2)))
}

// Of the making of a table.
fn needs_make_table<P: PageSpace>(
    space: &mut P,
    ops: &Ops,
    name: Name,
) -> Result<Result<Needs, Reason>, SpaceFault>
    requires { HasContents (P.view space.old) (λ _. ⊤) }
    ensures counts { Counts (P.view space.old) (P.view space.new) result }
    ensures kept { OnOk result (OnlyReads (P.view space.old) (P.view space.new)) }
    ensures read { IfOk result (λ r. IfContents (P.view space.old) (λ s. CheckedBy (table_of record_meaning range_meaning ops.now) name MakeTable s (HasNeed (table_of record_meaning range_meaning ops.now) name MakeTable s) r)) }
    ensures later { (t : Operations) → P.later t space.old space.new }
    ensures means { (t : Operations) → P.means space.old t → P.means space.new t }
    ensures writes { WritesNone (P.view space.old) (P.view space.new) result }
{
    if is_there(space, name)? {
        return Ok(Err(Reason::Exists));
    }
    Ok(Ok(of_pages(6)))
}

// Of a drop.
fn needs_discard<P: PageSpace>(
    space: &mut P,
    ops: &Ops,
    name: Name,
) -> Result<Result<Needs, Reason>, SpaceFault>
    requires { HasContents (P.view space.old) (λ _. ⊤) }
    ensures counts { Counts (P.view space.old) (P.view space.new) result }
    ensures kept { OnOk result (OnlyReads (P.view space.old) (P.view space.new)) }
    ensures read { IfOk result (λ r. IfContents (P.view space.old) (λ s. CheckedBy (table_of record_meaning range_meaning ops.now) name Discard s (HasNeed (table_of record_meaning range_meaning ops.now) name Discard s) r)) }
    ensures later { (t : Operations) → P.later t space.old space.new }
    ensures means { (t : Operations) → P.means space.old t → P.means space.new t }
    ensures writes { WritesNone (P.view space.old) (P.view space.new) result }
{
    if is_there(space, name)? {
        return Ok(Ok(of_pages(0)));
    }
    Ok(Err(Reason::NoObject))
}

// Of an item pushed.
fn needs_push<P: PageSpace>(
    space: &mut P,
    ops: &Ops,
    name: Name,
    value: &[u8],
) -> Result<Result<Needs, Reason>, SpaceFault>
    requires { HasContents (P.view space.old) (λ _. ⊤) }
    ensures counts { Counts (P.view space.old) (P.view space.new) result }
    ensures kept { OnOk result (OnlyReads (P.view space.old) (P.view space.new)) }
    ensures read { IfOk result (λ r. IfContents (P.view space.old) (λ s. CheckedBy (table_of record_meaning range_meaning ops.now) name (Push value.now) s (HasNeed (table_of record_meaning range_meaning ops.now) name (Push value.now) s) r)) }
    ensures later { (t : Operations) → P.later t space.old space.new }
    ensures means { (t : Operations) → P.means space.old t → P.means space.new t }
    ensures writes { WritesNone (P.view space.old) (P.view space.new) result }
{
    match check_push(space, name, value)? {
        Err(reason) => Ok(Err(reason)),
        Ok(found) => Ok(Ok(of_pages(2))),
    }
}

// Of an item popped.
fn needs_pop<P: PageSpace>(
    space: &mut P,
    ops: &Ops,
    name: Name,
) -> Result<Result<Needs, Reason>, SpaceFault>
    requires { HasContents (P.view space.old) (λ _. ⊤) }
    ensures counts { Counts (P.view space.old) (P.view space.new) result }
    ensures kept { OnOk result (OnlyReads (P.view space.old) (P.view space.new)) }
    ensures read { IfOk result (λ r. IfContents (P.view space.old) (λ s. CheckedBy (table_of record_meaning range_meaning ops.now) name Pop s (HasNeed (table_of record_meaning range_meaning ops.now) name Pop s) r)) }
    ensures later { (t : Operations) → P.later t space.old space.new }
    ensures means { (t : Operations) → P.means space.old t → P.means space.new t }
    ensures writes { WritesNone (P.view space.old) (P.view space.new) result }
{
    match check_pop(space, name)? {
        Err(reason) => Ok(Err(reason)),
        Ok(found) => Ok(Ok(of_pages(0))),
    }
}

// Of an item replaced.
fn needs_set<P: PageSpace>(
    space: &mut P,
    ops: &Ops,
    name: Name,
    index: u64,
    value: &[u8],
) -> Result<Result<Needs, Reason>, SpaceFault>
    requires { HasContents (P.view space.old) (λ _. ⊤) }
    ensures counts { Counts (P.view space.old) (P.view space.new) result }
    ensures kept { OnOk result (OnlyReads (P.view space.old) (P.view space.new)) }
    ensures read { IfOk result (λ r. IfContents (P.view space.old) (λ s. CheckedBy (table_of record_meaning range_meaning ops.now) name (Set index value.now) s (HasNeed (table_of record_meaning range_meaning ops.now) name (Set index value.now) s) r)) }
    ensures later { (t : Operations) → P.later t space.old space.new }
    ensures means { (t : Operations) → P.means space.old t → P.means space.new t }
    ensures writes { WritesNone (P.view space.old) (P.view space.new) result }
{
    match check_set(space, name, index, value)? {
        Err(reason) => Ok(Err(reason)),
        Ok(found) => Ok(Ok(of_pages(0))),
    }
}

// Of an item read.
fn needs_get<P: PageSpace>(
    space: &mut P,
    ops: &Ops,
    name: Name,
    index: u64,
) -> Result<Result<Needs, Reason>, SpaceFault>
    requires { HasContents (P.view space.old) (λ _. ⊤) }
    ensures counts { Counts (P.view space.old) (P.view space.new) result }
    ensures kept { OnOk result (OnlyReads (P.view space.old) (P.view space.new)) }
    ensures read { IfOk result (λ r. IfContents (P.view space.old) (λ s. CheckedBy (table_of record_meaning range_meaning ops.now) name (Get index) s (HasNeed (table_of record_meaning range_meaning ops.now) name (Get index) s) r)) }
    ensures later { (t : Operations) → P.later t space.old space.new }
    ensures means { (t : Operations) → P.means space.old t → P.means space.new t }
    ensures writes { WritesNone (P.view space.old) (P.view space.new) result }
{
    match check_get(space, name, index)? {
        Err(reason) => Ok(Err(reason)),
        Ok(found) => Ok(Ok(of_pages(0))),
    }
}

// Of a length read.
fn needs_len<P: PageSpace>(
    space: &mut P,
    ops: &Ops,
    name: Name,
) -> Result<Result<Needs, Reason>, SpaceFault>
    requires { HasContents (P.view space.old) (λ _. ⊤) }
    ensures counts { Counts (P.view space.old) (P.view space.new) result }
    ensures kept { OnOk result (OnlyReads (P.view space.old) (P.view space.new)) }
    ensures read { IfOk result (λ r. IfContents (P.view space.old) (λ s. CheckedBy (table_of record_meaning range_meaning ops.now) name Len s (HasNeed (table_of record_meaning range_meaning ops.now) name Len s) r)) }
    ensures later { (t : Operations) → P.later t space.old space.new }
    ensures means { (t : Operations) → P.means space.old t → P.means space.new t }
    ensures writes { WritesNone (P.view space.old) (P.view space.new) result }
{
    match check_len(space, name)? {
        Err(reason) => Ok(Err(reason)),
        Ok(found) => Ok(Ok(of_pages(0))),
    }
}

// Of an operation on an item.
fn needs_apply<P: PageSpace>(
    space: &mut P,
    ops: &Ops,
    name: Name,
    index: u64,
    code: u64,
    arg: &[u8],
) -> Result<Result<Needs, Reason>, SpaceFault>
    requires { HasContents (P.view space.old) (λ _. ⊤) }
    ensures counts { Counts (P.view space.old) (P.view space.new) result }
    ensures kept { OnOk result (OnlyReads (P.view space.old) (P.view space.new)) }
    ensures read { IfOk result (λ r. IfContents (P.view space.old) (λ s. CheckedBy (table_of record_meaning range_meaning ops.now) name (Apply index code arg.now) s (HasNeed (table_of record_meaning range_meaning ops.now) name (Apply index code arg.now) s) r)) }
    ensures later { (t : Operations) → P.later t space.old space.new }
    ensures means { (t : Operations) → P.means space.old t → P.means space.new t }
    ensures writes { WritesNone (P.view space.old) (P.view space.new) result }
{
    match check_apply(space, ops, name, index, code, arg)? {
        Err(reason) => Ok(Err(reason)),
        Ok(found) => Ok(Ok(of_pages(0))),
    }
}

// Of an entry put.
fn needs_put<P: PageSpace>(
    space: &mut P,
    ops: &Ops,
    name: Name,
    key: &[u8],
    value: &[u8],
) -> Result<Result<Needs, Reason>, SpaceFault>
    requires { HasContents (P.view space.old) (λ _. ⊤) }
    ensures counts { Counts (P.view space.old) (P.view space.new) result }
    ensures kept { OnOk result (OnlyReads (P.view space.old) (P.view space.new)) }
    ensures read { IfOk result (λ r. IfContents (P.view space.old) (λ s. CheckedBy (table_of record_meaning range_meaning ops.now) name (Put key.now value.now) s (HasNeed (table_of record_meaning range_meaning ops.now) name (Put key.now value.now) s) r)) }
    ensures later { (t : Operations) → P.later t space.old space.new }
    ensures means { (t : Operations) → P.means space.old t → P.means space.new t }
    ensures writes { WritesNone (P.view space.old) (P.view space.new) result }
{
    match check_put(space, name, key, value)? {
        Err(reason) => Ok(Err(reason)),
        Ok(root) => {
            let mut old = [0; 1024];
            let sought = sg_hash::find(space, root, key, &mut old)?;
            if sought.is_some() {
                return Ok(Ok(of_kept(2)));
            }
            Ok(Ok(of_pages(12)))
        }
    }
}

// Of an entry removed.
fn needs_del<P: PageSpace>(
    space: &mut P,
    ops: &Ops,
    name: Name,
    key: &[u8],
) -> Result<Result<Needs, Reason>, SpaceFault>
    requires { HasContents (P.view space.old) (λ _. ⊤) }
    ensures counts { Counts (P.view space.old) (P.view space.new) result }
    ensures kept { OnOk result (OnlyReads (P.view space.old) (P.view space.new)) }
    ensures read { IfOk result (λ r. IfContents (P.view space.old) (λ s. CheckedBy (table_of record_meaning range_meaning ops.now) name (Del key.now) s (HasNeed (table_of record_meaning range_meaning ops.now) name (Del key.now) s) r)) }
    ensures later { (t : Operations) → P.later t space.old space.new }
    ensures means { (t : Operations) → P.means space.old t → P.means space.new t }
    ensures writes { WritesNone (P.view space.old) (P.view space.new) result }
{
    match check_key(space, name, key)? {
        Err(reason) => Ok(Err(reason)),
        Ok(root) => {
            let mut old = [0; 1024];
            let sought = sg_hash::find(space, root, key, &mut old)?;
            if sought.is_some() {
                return Ok(Ok(of_kept(1)));
            }
            Ok(Ok(of_pages(0)))
        }
    }
}

// Of a value read.
fn needs_find<P: PageSpace>(
    space: &mut P,
    ops: &Ops,
    name: Name,
    key: &[u8],
) -> Result<Result<Needs, Reason>, SpaceFault>
    requires { HasContents (P.view space.old) (λ _. ⊤) }
    ensures counts { Counts (P.view space.old) (P.view space.new) result }
    ensures kept { OnOk result (OnlyReads (P.view space.old) (P.view space.new)) }
    ensures read { IfOk result (λ r. IfContents (P.view space.old) (λ s. CheckedBy (table_of record_meaning range_meaning ops.now) name (Find key.now) s (HasNeed (table_of record_meaning range_meaning ops.now) name (Find key.now) s) r)) }
    ensures later { (t : Operations) → P.later t space.old space.new }
    ensures means { (t : Operations) → P.means space.old t → P.means space.new t }
    ensures writes { WritesNone (P.view space.old) (P.view space.new) result }
{
    match check_key(space, name, key)? {
        Err(reason) => Ok(Err(reason)),
        Ok(found) => Ok(Ok(of_pages(0))),
    }
}

// The bands that so many bytes want and that aren't there.
fn of_bands(size: u32, have: u32) -> Needs
    requires { size ≤ 16384000 }
    ensures { needed_of result ≡ bands_alone (bands_for size - have) }
{
    let want = (size + 32_767) / 32_768;
    if want > have {
        return Needs {
            pages: 0,
            bands: want - have,
            reserve: 0,
        };
    }
    Needs {
        pages: 0,
        bands: 0,
        reserve: 0,
    }
}

// Of the making of a blob.
fn needs_make_blob<P: PageSpace>(
    space: &mut P,
    ops: &Ops,
    name: Name,
) -> Result<Result<Needs, Reason>, SpaceFault>
    requires { HasContents (P.view space.old) (λ _. ⊤) }
    ensures counts { Counts (P.view space.old) (P.view space.new) result }
    ensures kept { OnOk result (OnlyReads (P.view space.old) (P.view space.new)) }
    ensures read { IfOk result (λ r. IfContents (P.view space.old) (λ s. CheckedBy (table_of record_meaning range_meaning ops.now) name MakeBlob s (HasNeed (table_of record_meaning range_meaning ops.now) name MakeBlob s) r)) }
    ensures later { (t : Operations) → P.later t space.old space.new }
    ensures means { (t : Operations) → P.means space.old t → P.means space.new t }
    ensures writes { WritesNone (P.view space.old) (P.view space.new) result }
{
    if is_there(space, name)? {
        return Ok(Err(Reason::Exists));
    }
    Ok(Ok(of_pages(2)))
}

// Of bytes written.
fn needs_write<P: PageSpace>(
    space: &mut P,
    ops: &Ops,
    name: Name,
    at: u64,
    bytes: &[u8],
) -> Result<Result<Needs, Reason>, SpaceFault>
    requires { HasContents (P.view space.old) (λ _. ⊤) }
    ensures counts { Counts (P.view space.old) (P.view space.new) result }
    ensures kept { OnOk result (OnlyReads (P.view space.old) (P.view space.new)) }
    ensures read { IfOk result (λ r. IfContents (P.view space.old) (λ s. CheckedBy (table_of record_meaning range_meaning ops.now) name (Write at bytes.now) s (HasNeed (table_of record_meaning range_meaning ops.now) name (Write at bytes.now) s) r)) }
    ensures later { (t : Operations) → P.later t space.old space.new }
    ensures means { (t : Operations) → P.means space.old t → P.means space.new t }
    ensures writes { WritesNone (P.view space.old) (P.view space.new) result }
{
    match check_write(space, name, at, bytes)? {
        Err(reason) => Ok(Err(reason)),
        Ok(found) => {
            let have = sg_blob::bands(space, found.root)?;
            Ok(Ok(of_bands(at as u32 + bytes.len() as u32, have)))
        }
    }
}

// Of bytes read.
fn needs_read<P: PageSpace>(
    space: &mut P,
    ops: &Ops,
    name: Name,
    at: u64,
    count: u64,
) -> Result<Result<Needs, Reason>, SpaceFault>
    requires { HasContents (P.view space.old) (λ _. ⊤) }
    ensures counts { Counts (P.view space.old) (P.view space.new) result }
    ensures kept { OnOk result (OnlyReads (P.view space.old) (P.view space.new)) }
    ensures read { IfOk result (λ r. IfContents (P.view space.old) (λ s. CheckedBy (table_of record_meaning range_meaning ops.now) name (Read at count) s (HasNeed (table_of record_meaning range_meaning ops.now) name (Read at count) s) r)) }
    ensures later { (t : Operations) → P.later t space.old space.new }
    ensures means { (t : Operations) → P.means space.old t → P.means space.new t }
    ensures writes { WritesNone (P.view space.old) (P.view space.new) result }
{
    match check_read(space, name, at, count)? {
        Err(reason) => Ok(Err(reason)),
        Ok(found) => Ok(Ok(of_pages(0))),
    }
}

// Of another length of a blob.
fn needs_size<P: PageSpace>(
    space: &mut P,
    ops: &Ops,
    name: Name,
    size: u64,
) -> Result<Result<Needs, Reason>, SpaceFault>
    requires { HasContents (P.view space.old) (λ _. ⊤) }
    ensures counts { Counts (P.view space.old) (P.view space.new) result }
    ensures kept { OnOk result (OnlyReads (P.view space.old) (P.view space.new)) }
    ensures read { IfOk result (λ r. IfContents (P.view space.old) (λ s. CheckedBy (table_of record_meaning range_meaning ops.now) name (Size size) s (HasNeed (table_of record_meaning range_meaning ops.now) name (Size size) s) r)) }
    ensures later { (t : Operations) → P.later t space.old space.new }
    ensures means { (t : Operations) → P.means space.old t → P.means space.new t }
    ensures writes { WritesNone (P.view space.old) (P.view space.new) result }
{
    match check_size(space, name, size)? {
        Err(reason) => Ok(Err(reason)),
        Ok(found) => {
            let have = sg_blob::bands(space, found.root)?;
            Ok(Ok(of_bands(size as u32, have)))
        }
    }
}

// Of bytes that a registered operation writes.
fn needs_paint<P: PageSpace>(
    space: &mut P,
    ops: &Ops,
    name: Name,
    at: u64,
    count: u64,
    code: u64,
    arg: &[u8],
) -> Result<Result<Needs, Reason>, SpaceFault>
    requires { HasContents (P.view space.old) (λ _. ⊤) }
    ensures counts { Counts (P.view space.old) (P.view space.new) result }
    ensures kept { OnOk result (OnlyReads (P.view space.old) (P.view space.new)) }
    ensures read { IfOk result (λ r. IfContents (P.view space.old) (λ s. CheckedBy (table_of record_meaning range_meaning ops.now) name (Paint at count code arg.now) s (HasNeed (table_of record_meaning range_meaning ops.now) name (Paint at count code arg.now) s) r)) }
    ensures later { (t : Operations) → P.later t space.old space.new }
    ensures means { (t : Operations) → P.means space.old t → P.means space.new t }
    ensures writes { WritesNone (P.view space.old) (P.view space.new) result }
{
    match check_paint(space, ops, name, at, count, code, arg)? {
        Err(reason) => Ok(Err(reason)),
        Ok(found) => Ok(Ok(of_pages(0))),
    }
}

// The needs of the verb, by what the operation is.
fn needs_verb<P: PageSpace>(
    space: &mut P,
    ops: &Ops,
    op: &Op<'_>,
) -> Result<Result<Needs, Reason>, SpaceFault>
    requires there { HasContents (P.view space.old) (λ _. ⊤) }
    ensures counts { Counts (P.view space.old) (P.view space.new) result }
    ensures kept { OnOk result (OnlyReads (P.view space.old) (P.view space.new)) }
    ensures read { IfOk result (λ r. IfContents (P.view space.old) (λ s. CheckedBy (table_of record_meaning range_meaning ops.now) (name_of op.now) (verb_of op.now) s (HasNeed (table_of record_meaning range_meaning ops.now) (name_of op.now) (verb_of op.now) s) r)) }
    ensures later { (t : Operations) → P.later t space.old space.new }
    ensures means { (t : Operations) → P.means space.old t → P.means space.new t }
    ensures writes { WritesNone (P.view space.old) (P.view space.new) result }
{
    match *op {
        Op::MakeArray { name, size } => needs_make_array(space, ops, name, size),
        Op::MakeTable { name } => needs_make_table(space, ops, name),
        Op::Discard { name } => needs_discard(space, ops, name),
        Op::Push { name, value } => needs_push(space, ops, name, value),
        Op::Pop { name } => needs_pop(space, ops, name),
        Op::Set { name, index, value } => needs_set(space, ops, name, index, value),
        Op::Get { name, index } => needs_get(space, ops, name, index),
        Op::Len { name } => needs_len(space, ops, name),
        Op::Apply {
            name,
            index,
            code,
            arg,
        } => needs_apply(space, ops, name, index, code, arg),
        Op::Put { name, key, value } => needs_put(space, ops, name, key, value),
        Op::Del { name, key } => needs_del(space, ops, name, key),
        Op::Find { name, key } => needs_find(space, ops, name, key),
        Op::MakeBlob { name } => needs_make_blob(space, ops, name),
        Op::Write { name, at, bytes } => needs_write(space, ops, name, at, bytes),
        Op::Read { name, at, count } => needs_read(space, ops, name, at, count),
        Op::Size { name, length } => needs_size(space, ops, name, length),
        Op::Paint {
            name,
            at,
            count,
            code,
            arg,
        } => needs_paint(space, ops, name, at, count, code, arg),
    }
}

/// What an operation needs, or why it is refused. Nothing changes.
pub fn needs_of<P: PageSpace>(space: &mut P, ops: &Ops, op: &Op<'_>) -> Result<Needs, ObjFault>
    requires there { HasContents (P.view space.old) (λ _. ⊤) }
    ensures counts { CountsObject (P.view space.old) (P.view space.new) result }
    ensures kept { IfAnswered result (λ _. OnlyReads (P.view space.old) (P.view space.new)) }
    ensures read { IfAnswered result (λ r. IfContents (P.view space.old) (λ s. CheckedBy (table_of record_meaning range_meaning ops.now) (name_of op.now) (verb_of op.now) s (HasNeed (table_of record_meaning range_meaning ops.now) (name_of op.now) (verb_of op.now) s) r)) }
    ensures later { (t : Operations) → P.later t space.old space.new }
    ensures means { (t : Operations) → P.means space.old t → P.means space.new t }
    ensures writes { WritesNoneObject (P.view space.old) (P.view space.new) result }
{
    match needs_verb(space, ops, op) {
        Err(fault) => Err(ObjFault::Space(fault)),
        Ok(Err(reason)) => Err(ObjFault::Model(reason)),
        Ok(Ok(needs)) => Ok(needs),
    }
}
