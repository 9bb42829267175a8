// The bytes of a node.
ghost use Rattle.std.specs.Prelude.{◌≡◌, ◌+◌, ◌*◌, ◌<◌, ◌≤◌, ◌∷◌, [], length, option_map, take, drop, IsSome, IfSome};
ghost use Rattle.std.specs.List.{flat_map};
ghost use Rattle.sg_base.specs.Bytes.{IsBytes};
ghost use Rattle.sg_base.specs.Overwritten.{Wrote};
ghost use Rattle.sg_index.specs.Node.{read_entry, read_branch, read_entries, read_children, with_separators, read_head, read_leaf, read_inner, read_node, spelled_entry, spelled_child, spelled_separator, spelled_leaf, spelled_inner, spelled, CanBe, AreFit};

use crate::item::{Item, Node};
use crate::text::{MOST, Text};
use arrayvec::ArrayVec;
use sg_base::{put_text, put_u8, put_u32, split_text, split_u8, split_u32};

/// The most entries of a leaf, and separators of an inner node.
pub(crate) const MOST_COUNT: u8 = 14;

/// The numbers of the children of a node.
type Children = ArrayVec<u32, 16>;

// Puts the entry at the front of some bytes behind the items of the node, and answers what stands behind it.
fn read_entry<'a>(bytes: &'a [u8], node: &mut Node) -> Option<&'a [u8]>
    requires { length node.old.items < 24 }
    ensures read { option_map (λ rest. (node.new.items, rest.now)) result ≡ read_entry node.old.items bytes.now }
    ensures count { IsSome result → length node.new.items ≡ length node.old.items + 1 }
{
    let (key_size, rest) = split_u8(bytes)?;
    let (value_size, rest) = split_u8(rest)?;
    let (key, rest) = split_text(rest, key_size as usize)?;
    let (value, rest) = split_text(rest, value_size as usize)?;
    if key.len() > MOST || value.len() > MOST {
        return None;
    }
    node.push(Item {
        key: Text::new(key),
        value: Text::new(value),
        child: 0,
    });
    Some(rest)
}

// The same with the branch to a child, whose separator stands at the front of some bytes.
fn read_branch<'a>(bytes: &'a [u8], child: u32, node: &mut Node) -> Option<&'a [u8]>
    requires { length node.old.items < 24 }
    ensures read { option_map (λ rest. (node.new.items, rest.now)) result ≡ read_branch node.old.items child bytes.now }
    ensures count { IsSome result → length node.new.items ≡ length node.old.items + 1 }
{
    let (size, rest) = split_u8(bytes)?;
    let (key, rest) = split_text(rest, size as usize)?;
    if key.len() > MOST {
        return None;
    }
    node.push(Item {
        key: Text::new(key),
        value: Text::default(),
        child,
    });
    Some(rest)
}

// Puts so many entries into an empty node, and answers what stands behind them.
fn read_entries<'a>(bytes: &'a [u8], count: usize, node: &mut Node) -> Option<&'a [u8]>
    requires empty { node.old.items ≡ [] }
    requires few { count ≤ 14 }
    ensures { option_map (λ rest. (node.new.items, rest.now)) result ≡ read_entries [] count bytes.now }
{
    let mut rest = bytes;
    'entries: for _i in 0..count {
        rest = read_entry(rest, node)?;
    }
    Some(rest)
}

// Puts so many numbers of children into an empty list, and answers what stands behind them.
fn read_children<'a>(bytes: &'a [u8], count: usize, children: &mut Children) -> Option<&'a [u8]>
    requires empty { children.old.items ≡ [] }
    requires few { count ≤ 15 }
    ensures read { option_map (λ rest. (children.new.items, rest.now)) result ≡ read_children [] count bytes.now }
    ensures count { IsSome result → length children.new.items ≡ count }
{
    let mut rest = bytes;
    'children: for _i in 0..count {
        let (child, behind) = split_u32(rest)?;
        children.push(child);
        rest = behind;
    }
    Some(rest)
}

// Puts the branches to these children into an empty node, and answers what stands behind the separators.
fn read_branches<'a>(bytes: &'a [u8], children: &[u32], node: &mut Node) -> Option<&'a [u8]>
    requires empty { node.old.items ≡ [] }
    requires few { length children.now ≤ 15 }
    ensures { option_map (λ rest. (node.new.items, rest.now)) result ≡ with_separators children.now bytes.now }
{
    let [first, others @ ..] = children else {
        return None;
    };
    node.push(Item {
        key: Text::default(),
        value: Text::default(),
        child: *first,
    });
    let mut rest = bytes;
    'branches: for child in others {
        rest = read_branch(rest, *child, node)?;
    }
    Some(rest)
}

// The count behind the tag, the first byte, and what stands behind both.
fn read_head(bytes: &[u8], tag: u8) -> Option<(u8, &[u8])>
    ensures head { option_map (λ p. (p.0, p.1.now)) result ≡ read_head tag bytes.now }
    ensures few { IfSome result (λ p. p.0 ≤ 14) }
{
    let (first, rest) = split_u8(bytes)?;
    let (count, rest) = split_u8(rest)?;
    if first != tag || count > MOST_COUNT {
        return None;
    }
    Some((count, rest))
}

// The entries of the leaf that some bytes are.
fn read_leaf(bytes: &[u8]) -> Option<Node>
    ensures { option_map (λ node. node.items) result ≡ read_leaf bytes.now }
{
    let (count, rest) = read_head(bytes, 0)?;
    let mut node = Node::new();
    let rest = read_entries(rest, count as usize, &mut node)?;
    if !rest.is_empty() {
        return None;
    }
    Some(node)
}

// The branches of the inner node that some bytes are.
fn read_inner(bytes: &[u8]) -> Option<Node>
    ensures { option_map (λ node. node.items) result ≡ read_inner bytes.now }
{
    let (count, rest) = read_head(bytes, 1)?;
    let mut children = Children::new();
    let rest = read_children(rest, count as usize + 1, &mut children)?;
    let mut node = Node::new();
    let rest = read_branches(rest, children.as_slice(), &mut node)?;
    if !rest.is_empty() {
        return None;
    }
    Some(node)
}

// Tells a proof that each element is below 256. It runs no code.
fn are_bytes(xs: &[u8])
    ensures { IsBytes xs.now }
{}

/// The items of the node that some bytes are: of a leaf, or of an inner node.
pub(crate) fn decode(leaf: bool, bytes: &[u8]) -> Option<Node>
    ensures read { option_map (λ node. node.items) result ≡ read_node leaf bytes.now }
    ensures fit { IfSome result (λ node. AreFit leaf node.items) }
    ensures size { IfSome result (λ node. CanBe leaf (length node.items)) }
{
    are_bytes(bytes);
    if leaf {
        read_leaf(bytes)
    } else {
        read_inner(bytes)
    }
}

// Writes an entry from this place on, and answers the place behind it.
fn put_entry(into: &mut [u8], at: usize, item: &Item) -> usize
    requires { at + 130 ≤ length into.old }
    ensures wrote { Wrote into.old at (spelled_entry item.now) into.new result }
    ensures few { result ≤ at + 130 }
{
    let key = item.key.bytes();
    let value = item.value.bytes();
    let at = put_u8(into, at, key.len() as u8);
    let at = put_u8(into, at, value.len() as u8);
    let at = put_text(into, at, key);
    put_text(into, at, value)
}

// Writes a separator from this place on, and answers the place behind it.
fn put_separator(into: &mut [u8], at: usize, item: &Item) -> usize
    requires { at + 130 ≤ length into.old }
    ensures wrote { Wrote into.old at (spelled_separator item.now) into.new result }
    ensures few { result ≤ at + 130 }
{
    let key = item.key.bytes();
    let at = put_u8(into, at, key.len() as u8);
    put_text(into, at, key)
}

// Writes entries from this place on, and answers the place behind them.
fn put_entries(into: &mut [u8], start: usize, items: &[Item]) -> usize
    requires { start + 130 * length items.now ≤ length into.old }
    ensures wrote { Wrote into.old start (flat_map spelled_entry items.now) into.new result }
    ensures few { result ≤ start + 130 * length items.now }
{
    let mut at = start;
    'entries: for item in items {
        at = put_entry(into, at, item);
    }
    at
}

// Writes the numbers of children from this place on, and answers the place behind them.
fn put_children(into: &mut [u8], start: usize, items: &[Item]) -> usize
    requires { start + 130 * length items.now ≤ length into.old }
    ensures wrote { Wrote into.old start (flat_map spelled_child items.now) into.new result }
    ensures few { result ≤ start + 4 * length items.now }
{
    let mut at = start;
    'children: for item in items {
        at = put_u32(into, at, item.child);
    }
    at
}

// Writes separators from this place on, and answers the place behind them.
fn put_separators(into: &mut [u8], start: usize, items: &[Item]) -> usize
    requires { start + 130 * length items.now ≤ length into.old }
    ensures wrote { Wrote into.old start (flat_map spelled_separator items.now) into.new result }
    ensures few { result ≤ start + 130 * length items.now }
{
    let mut at = start;
    'separators: for item in items {
        at = put_separator(into, at, item);
    }
    at
}

// Writes a leaf of these entries to the front of the buffer, and answers how many bytes it has.
fn put_leaf(into: &mut [u8], items: &[Item]) -> usize
    requires few { length items.now ≤ 14 }
    requires room { 8192 ≤ length into.old }
    ensures wrote { Wrote into.old 0 (spelled_leaf items.now) into.new result }
    ensures short { result ≤ 2048 }
{
    let at = put_u8(into, 0, 0);
    let at = put_u8(into, at, items.len() as u8);
    put_entries(into, at, items)
}

// Writes an inner node of these branches to the front of the buffer, and answers how many bytes it has.
fn put_inner(into: &mut [u8], items: &[Item]) -> usize
    requires some { 1 ≤ length items.now }
    requires few { length items.now ≤ 15 }
    requires room { 8192 ≤ length into.old }
    ensures wrote { Wrote into.old 0 (spelled_inner items.now) into.new result }
    ensures short { result ≤ 2048 }
{
    let at = put_u8(into, 0, 1);
    let at = put_u8(into, at, (items.len() - 1) as u8);
    let at = put_children(into, at, items);
    put_separators(into, at, &items[1..])
}

/// Writes a node of these items to the front of the buffer, a leaf or an inner node, and answers how many bytes it has.
pub(crate) fn encode(leaf: bool, items: &[Item], into: &mut [u8]) -> usize
    requires size { CanBe leaf (length items.now) }
    requires room { 8192 ≤ length into.old }
    ensures spelled { take result into.new ≡ spelled leaf items.now }
    ensures short { result ≤ 2048 }
{
    if leaf {
        put_leaf(into, items)
    } else {
        put_inner(into, items)
    }
}
