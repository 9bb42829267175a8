// Keys compared, and looked for among the items of a node.
ghost use Rattle.std.specs.Prelude.{◌≡◌, ℕ, ◌+◌, ◌<◌, ◌≤◌, length, slice_index_or, true, false, IsTrue, ◌↔◌};
ghost use Rattle.std.specs.Ordering.{is_eq};
ghost use Rattle.sg_index.specs.Order.{is_from, key_cmp, IsBelow};
ghost use Rattle.sg_index.specs.Change.{way};
ghost use Rattle.sg_index.specs.declared.item.Item.{Item as Listed};

use crate::item::Item;
use std::cmp::Ordering;

/// Whether the first key is below the second.
pub(crate) fn is_below(a: &[u8], b: &[u8]) -> bool
    ensures { IsTrue result ↔ IsBelow a.now b.now }
{
    matches!(a.cmp(b), Ordering::Less)
}

/// Whether a key is at or above another one, or above it where `strict`.
pub(crate) fn is_from(from: &[u8], strict: bool, key: &[u8]) -> bool
    ensures { result ≡ is_from from.now strict key.now }
{
    match key.cmp(from) {
        Ordering::Less => false,
        Ordering::Equal => !strict,
        Ordering::Greater => true,
    }
}

/// The first item whose key is at or above this one, or above it where `strict`. It's behind the last where none is.
pub(crate) fn place_from(items: &[Item], from: &[u8], strict: bool) -> usize
    ensures within { result ≤ length items.now }
    ensures before { (k : ℕ) (d : Listed) → k < result → is_from from.now strict (slice_index_or items.now k d).key ≡ false }
    ensures at { (d : Listed) → result < length items.now → is_from from.now strict (slice_index_or items.now result d).key ≡ true }
{
    'items: for i in 0..items.len() {
        if is_from(from, strict, items[i].key.bytes()) {
            return i;
        }
    }
    items.len()
}

/// Whether there is an item at a place, and it has this key.
pub(crate) fn has_at(items: &[Item], at: usize, key: &[u8]) -> bool
    ensures within { IsTrue result → at < length items.now }
    ensures told { (d : Listed) → at < length items.now → is_eq (key_cmp (slice_index_or items.now at d).key key.now) ≡ result }
{
    if at >= items.len() {
        return false;
    }
    let item = &items[at];
    item.key.bytes() == key
}

/// The last item whose separator isn't above this key, and the first item where there is none.
pub(crate) fn branch_for(items: &[Item], key: &[u8]) -> usize
    requires { 1 ≤ length items.now }
    ensures within { result < length items.now }
    ensures left { (d : Listed) → 0 < result → ¬ IsBelow key.now (slice_index_or items.now result d).key }
    ensures way { (d : Listed) → (slice_index_or items.now result d).child ≡ way items.now key.now }
    ensures right { (d : Listed) → result + 1 < length items.now → IsBelow key.now (slice_index_or items.now (result + 1) d).key }
{
    'items: for i in 1..items.len() {
        if is_below(key, items[i].key.bytes()) {
            return i - 1;
        }
    }
    items.len() - 1
}
