// The calls on a hash table that look for a key, put one or remove one.
ghost use Rattle.std.specs.Prelude.{◌≡◌, ◌+◌, ◌<◌, ◌≤◌, ◌^◌, length, IfOk, OnOk, IfSome, Some, false, ⊤, drop, unwrap_or};
ghost use Rattle.sg_bucket.specs.Bucket.{IsAnswer};
ghost use Rattle.sg_hash.specs.Table.{value_at};
ghost use Rattle.sg_hash.specs.Calls.{HasHashTable, IfHashTable, Did, CanPut, IsPut, IsDeleted};
ghost use Rattle.sg_hash.specs.Steps.{DidEnter};
ghost use Rattle.sg_ops.specs.Table.{Table, table_of};
ghost use Rattle.sg_space.specs.Pages.{WritesNone};
ghost use Rattle.sg_space.specs.View.{Counts, OnlyReads};

use crate::root::{read_root, set_root};
use crate::split::grow;
use crate::walk::bucket_of;
use sg_base::PageNo;
use sg_ops::Ops;
use sg_space::{PageSpace, SpaceFault};

/// Copies the value of this key to the front of the buffer, and says how many bytes it has; the bytes behind it stay.
/// There is none where the table has no entry with the key. The buffer has room for 1,024 bytes, the most that a value
/// has: how many this one has isn't known before it is read, and a space that tells nothing may have any.
pub fn find<P: PageSpace>(
    space: &mut P,
    root: PageNo,
    key: &[u8],
    into: &mut [u8],
) -> Result<Option<usize>, SpaceFault>
    requires room { 1024 ≤ length into.old }
    requires there { HasHashTable (P.view space.old) root.0 (λ _. ⊤) }
    ensures counts { Counts (P.view space.old) (P.view space.new) result }
    ensures kept { OnOk result (OnlyReads (P.view space.old) (P.view space.new)) }
    ensures read { IfOk result (λ found. IfHashTable (P.view space.old) root.0
        (λ t. IsAnswer (value_at t key.now) found into.new)) }
    ensures within { IfOk result (λ found. IfSome found (λ n. n ≤ length into.new)) }
    ensures rest { IfOk result (λ found. drop (unwrap_or found 0) into.new ≡ drop (unwrap_or found 0) into.old) }
    ensures later { (t : Table) → P.later t space.old space.new }
    ensures means { (t : Table) → P.means space.old t → P.means space.new t }
    ensures writes { WritesNone (P.view space.old) (P.view space.new) result }
{
    let found = read_root(space, root)?;
    let first = bucket_of(space, root, found, key)?;
    let value = sg_bucket::find(space, first, key, into)?;
    Ok(value)
}

// Puts the entry of this key, in place of the one that it had, and answers whether the key was new. `split` raises the
// peak of the entries' bytes to what they are then. No bucket is split.
fn enter<P: PageSpace>(
    space: &mut P,
    ops: &Ops,
    root: PageNo,
    key: &[u8],
    value: &[u8],
    split: bool,
) -> Result<bool, SpaceFault>
    requires means { P.means space.old (table_of record_meaning range_meaning ops.now) }
    requires key { length key.now ≤ 128 }
    requires value { length value.now ≤ 1024 }
    requires there { HasHashTable (P.view space.old) root.0 (CanPut (P.view space.old) key.now split) }
    ensures counts { Counts (P.view space.old) (P.view space.new) result }
    ensures did { IfOk result (λ new. DidEnter (P.view space.old) (P.view space.new) root.0 key.now value.now split new) }
    ensures later { P.later (table_of record_meaning range_meaning ops.now) space.old space.new }
    ensures means { P.means space.new (table_of record_meaning range_meaning ops.now) }
    ensures few { (P.view space.new).records ≤ (P.view space.old).records + 8 }
{
    let found = read_root(space, root)?;
    let first = bucket_of(space, root, found, key)?;
    let old = sg_bucket::put(space, ops, first, key, value)?;
    match found.with_entry(key.len(), value.len(), old, split) {
        Some(numbers) => {
            set_root(space, ops, root, numbers)?;
            Ok(old.is_none())
        }
        None => Err(space.broken()),
    }
}

/// Puts the entry of this key, in place of the one that it had, and answers whether the key was new. At most one page is
/// taken. With `split` the peak of the entries' bytes rises to what they are then; and where the key was new and the
/// entries have more than 2,048 bytes for each bucket, the next bucket is split, unless its chain has more than 8 pages. For that
/// at most 10 more pages are taken, before any is freed.
pub fn put<P: PageSpace>(
    space: &mut P,
    ops: &Ops,
    root: PageNo,
    key: &[u8],
    value: &[u8],
    split: bool,
) -> Result<bool, SpaceFault>
    requires means { P.means space.old (table_of record_meaning range_meaning ops.now) }
    requires key { length key.now ≤ 128 }
    requires value { length value.now ≤ 1024 }
    requires there { HasHashTable (P.view space.old) root.0 (CanPut (P.view space.old) key.now split) }
    ensures counts { Counts (P.view space.old) (P.view space.new) result }
    ensures did { IfOk result (λ new. Did (P.view space.old) (P.view space.new) root.0
        (CanPut (P.view space.old) key.now split) (IsPut key.now value.now split new)) }
    ensures later { P.later (table_of record_meaning range_meaning ops.now) space.old space.new }
    ensures means { P.means space.new (table_of record_meaning range_meaning ops.now) }
    ensures few { split ≡ false → (P.view space.new).records ≤ (P.view space.old).records + 8 }
    ensures few_split { (P.view space.old).Told → (P.view space.new).records ≤ (P.view space.old).records + 40755 }
{
    let new = enter(space, ops, root, key, value, split)?;
    if !split {
        return Ok(new);
    }
    if !new {
        return Ok(false);
    }
    grow(space, ops, root)?;
    Ok(true)
}

/// Removes the entry of this key, if there is one, and answers whether there was. A page that has no entry any more is
/// freed, but for the first of each bucket. The table stays as split as it was.
pub fn del<P: PageSpace>(
    space: &mut P,
    ops: &Ops,
    root: PageNo,
    key: &[u8],
) -> Result<bool, SpaceFault>
    requires means { P.means space.old (table_of record_meaning range_meaning ops.now) }
    requires key { length key.now ≤ 128 }
    requires there { HasHashTable (P.view space.old) root.0 (λ _. ⊤) }
    ensures counts { Counts (P.view space.old) (P.view space.new) result }
    ensures did { IfOk result (λ was. Did (P.view space.old) (P.view space.new) root.0 (λ _. ⊤) (IsDeleted key.now was)) }
    ensures absent { IfOk result (λ was. was ≡ false → OnlyReads (P.view space.old) (P.view space.new)) }
    ensures later { P.later (table_of record_meaning range_meaning ops.now) space.old space.new }
    ensures means { P.means space.new (table_of record_meaning range_meaning ops.now) }
    ensures few { (P.view space.new).records ≤ (P.view space.old).records + 4 }
{
    let found = read_root(space, root)?;
    let first = bucket_of(space, root, found, key)?;
    match sg_bucket::del(space, ops, first, key)? {
        None => Ok(false),
        Some(value) => match found.without_entry(key.len(), value) {
            Some(numbers) => {
                set_root(space, ops, root, numbers)?;
                Ok(true)
            }
            None => Err(space.broken()),
        },
    }
}
