// Nodes in memory: an entry put into a leaf or taken from it, a node divided, and two joined.
ghost use Rattle.std.specs.Prelude.{◌≡◌, ◌+◌, ◌-◌, ◌<◌, ◌≤◌, ◌∷◌, [], ◌++◌, List, ℕ, length, map, take, drop, get_or, if◌then◌else◌, true, false};
ghost use Rattle.sg_index.specs.Change.{IsEdited, with_key, joined, opened, half, most, has};
ghost use Rattle.sg_index.specs.Node.{AreFit};
ghost use Rattle.sg_index.specs.Order.{IsBelow};
ghost use Rattle.sg_index.specs.Tree.{separator, mark_of, Rises};
ghost use Rattle.sg_index.specs.declared.item.Item.{Item as Listed};

use crate::item::{Item, Node};
use crate::order::{has_at, place_from};
use crate::text::Text;

/// The most items of a node: 14 entries, or 15 children.
pub(crate) fn most(leaf: bool) -> usize
    ensures { result ≡ most leaf }
{
    if leaf { 14 } else { 15 }
}

/// Puts an entry into a leaf, in place of the one that has its key, and answers whether one had it.
pub(crate) fn put_entry(node: &mut Node, key: &[u8], value: &[u8]) -> bool
    requires room { length node.old.items < 24 }
    requires key { length key.now ≤ 64 }
    requires value { length value.now ≤ 64 }
    ensures edited { (sep : List ℕ) → Rises (separator sep ∷ map mark_of node.old.items) → ¬ IsBelow key.now sep →
        IsEdited key.now ((key.now, value.now) ∷ []) result (separator sep ∷ map mark_of node.old.items) (separator sep ∷ map mark_of node.new.items) }
    ensures known { result ≡ has node.old.items key.now }
    ensures count { length node.new.items ≡ length node.old.items + (if result then 0 else 1) }
    ensures fit { AreFit true node.old.items → AreFit true node.new.items }
{
    let at = place_from(node.as_slice(), key, false);
    let item = Item {
        key: Text::new(key),
        value: Text::new(value),
        child: 0,
    };
    if has_at(node.as_slice(), at, key) {
        node.as_mut_slice()[at] = item;
        return true;
    }
    node.insert(at, item);
    false
}

/// Takes the entry of a key from a leaf, and answers whether one had it.
pub(crate) fn take_entry(node: &mut Node, key: &[u8]) -> bool
    ensures edited { (sep : List ℕ) → Rises (separator sep ∷ map mark_of node.old.items) → ¬ IsBelow key.now sep →
        IsEdited key.now [] result (separator sep ∷ map mark_of node.old.items) (separator sep ∷ map mark_of node.new.items) }
    ensures count { length node.new.items + (if result then 1 else 0) ≡ length node.old.items }
    ensures same { result ≡ false → node.new.items ≡ node.old.items }
    ensures fit { AreFit true node.old.items → AreFit true node.new.items }
{
    let at = place_from(node.as_slice(), key, false);
    if !has_at(node.as_slice(), at, key) {
        return false;
    }
    node.remove(at);
    true
}

// Gives the first child of an inner node this separator. A leaf stays.
fn set_first(node: &mut Node, leaf: bool, key: Text)
    requires { 1 ≤ length node.old.items }
    ensures { node.new.items ≡ with_key leaf key node.old.items }
{
    if !leaf {
        node.as_mut_slice()[0].key = key;
    }
}

// Puts items behind those of a node.
fn append(node: &mut Node, items: &[Item])
    requires { length node.old.items + length items.now ≤ 24 }
    ensures { node.new.items ≡ node.old.items ++ items.now }
{
    'items: for item in items {
        node.push(*item);
    }
}

/// Leaves the first half of its items to a node, and answers the others as a node, with the separator left of it.
pub(crate) fn split(node: &mut Node, leaf: bool) -> (Text, Node)
    requires { 2 ≤ length node.old.items }
    ensures left { node.new.items ≡ take (half node.old.items) node.old.items }
    ensures right { result.1.items ≡ opened leaf (drop (half node.old.items) node.old.items) }
    ensures separator { (d : Listed) → result.0 ≡ (get_or node.old.items (half node.old.items) d).key }
{
    let at = node.len() / 2;
    let mut right = Node::new();
    append(&mut right, &node.as_slice()[at..]);
    node.truncate(at);
    let key = right.as_slice()[0].key;
    set_first(&mut right, leaf, Text::default());
    (key, right)
}

/// Puts the items of a node behind those of the one left of it, whose separator from it is given.
pub(crate) fn join(left: &mut Node, leaf: bool, key: Text, right: &mut Node)
    requires some { 1 ≤ length right.old.items }
    requires room { length left.old.items + length right.old.items ≤ 24 }
    ensures { left.new.items ≡ joined leaf left.old.items key right.old.items }
{
    set_first(right, leaf, key);
    append(left, right.as_slice());
}
