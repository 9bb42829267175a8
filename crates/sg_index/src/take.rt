// The call that takes an entry from an index.
ghost use Rattle.std.specs.Prelude.{◌≡◌, ◌+◌, ◌-◌, ◌<◌, ◌≤◌, ◌^◌, ◌==◌, ◌⊎◌, ◌∷◌, [], List, ℕ, length, slice_index_or, IfOk, OnOk, IfErr, MatchResult, MatchOption, None, Some, ⊤, false, is_some};
ghost use Rattle.sg_base.specs.Ends.{HasRisen};
ghost use Rattle.sg_index.specs.Change.{IsChanged, IsSettled, IsJoinedRight, IsJoinedLeft, IsLowered, AreNumbered, knows};
ghost use Rattle.sg_index.specs.Fault.{MatchFault};
ghost use Rattle.sg_index.specs.Node.{AreFit, CanBe};
ghost use Rattle.sg_index.specs.Index.{IsIndex, IsNoIndexNow, header_at};
ghost use Rattle.sg_index.specs.Order.{Entry, IsBelow, value_in, without_key};
ghost use Rattle.sg_index.specs.Tree.{Mark, Rises, Holds, IsBroken, IsNoNode, fewest};
ghost use Rattle.sg_index.specs.declared.item.Item.{Item as Listed};

use crate::edit::{join, most, take_entry};
use crate::header::{Header, find_header, write_header};
use crate::item::Node;
use crate::load::{delete_node, read_node, write_node};
use crate::order::branch_for;
use crate::put::Change;
use crate::read::{BUFFER, root_fewest};
use crate::seek::fewest;
use crate::store::{keep_node, write_halves};
use crate::{IndexFault, Records};

// Writes the items of two children in one node, or in two if they are too many, and changes the node above. The left one
// is the child at a place.
fn settle<R: Records>(
    records: &mut R,
    buffer: &mut [u8],
    leaf: bool,
    node: &mut Node,
    at: usize,
    both: &mut Node,
) -> Result<(), IndexFault<R::Fault>>
    requires room { 8192 ≤ length buffer.old }
    requires within { at + 1 < length node.old.items }
    requires some { 1 ≤ length both.old.items }
    requires few { length both.old.items ≤ 24 }
    ensures settled { OnOk result (IsSettled (R.map records.old) (R.map records.new) leaf both.old.items node.old.items at node.new.items) }
    ensures later { R.refusals records.old ≤ R.refusals records.new }
    ensures failed { IfErr result (λ e. MatchFault e (HasRisen (R.refusals records.old) (R.refusals records.new)) ⊥ ⊥) }
{
    let left = node.as_slice()[at].child;
    let right = node.as_slice()[at + 1].child;
    if both.len() <= most(leaf) {
        write_node(records, buffer, leaf, left, both.as_slice())?;
        delete_node(records, right)?;
        node.remove(at + 1);
        return Ok(());
    }
    let key = write_halves(records, buffer, leaf, both, left, right)?;
    node.as_mut_slice()[at + 1].key = key;
    Ok(())
}

// Joins a child in memory, which has too few items, with the one right of it, or shares their items anew.
fn join_right<R: Records>(
    records: &mut R,
    buffer: &mut [u8],
    leaf: bool,
    node: &mut Node,
    at: usize,
    child: &mut Node,
) -> Result<(), IndexFault<R::Fault>>
    requires room { 8192 ≤ length buffer.old }
    requires within { at + 1 < length node.old.items }
    requires some { 1 ≤ length child.old.items }
    requires few { length child.old.items ≤ 7 }
    ensures done { OnOk result (IsJoinedRight (R.map records.old) (R.map records.new) leaf child.old.items node.old.items at node.new.items) }
    ensures later { R.refusals records.old ≤ R.refusals records.new }
    ensures failed { IfErr result (λ e. MatchFault e (HasRisen (R.refusals records.old) (R.refusals records.new))
        ((R.map records.new ≡ R.map records.old) × ((d : Listed) → IsNoNode (R.map records.old) leaf (fewest leaf) (slice_index_or node.old.items (at + 1) d).child)) ⊥) }
{
    let other = node.as_slice()[at + 1];
    let mut right = read_node(records, buffer, leaf, fewest(leaf), other.child)?;
    join(child, leaf, other.key, &mut right);
    settle(records, buffer, leaf, node, at, child)
}

// The same with the one left of it.
fn join_left<R: Records>(
    records: &mut R,
    buffer: &mut [u8],
    leaf: bool,
    node: &mut Node,
    at: usize,
    child: &mut Node,
) -> Result<(), IndexFault<R::Fault>>
    requires room { 8192 ≤ length buffer.old }
    requires within { at + 1 < length node.old.items }
    requires some { 1 ≤ length child.old.items }
    requires few { length child.old.items ≤ 7 }
    ensures done { OnOk result (IsJoinedLeft (R.map records.old) (R.map records.new) leaf child.old.items node.old.items at node.new.items) }
    ensures later { R.refusals records.old ≤ R.refusals records.new }
    ensures failed { IfErr result (λ e. MatchFault e (HasRisen (R.refusals records.old) (R.refusals records.new))
        ((R.map records.new ≡ R.map records.old) × ((d : Listed) → IsNoNode (R.map records.old) leaf (fewest leaf) (slice_index_or node.old.items at d).child)) ⊥) }
{
    let number = node.as_slice()[at].child;
    let key = node.as_slice()[at + 1].key;
    let mut left = read_node(records, buffer, leaf, fewest(leaf), number)?;
    join(&mut left, leaf, key, child);
    settle(records, buffer, leaf, node, at, &mut left)
}

// Takes the entry of a key from a node in memory, or from below it, so many levels above the leaves. The node may have
// one item too few then, and isn't written.
fn take_in<R: Records>(
    records: &mut R,
    buffer: &mut [u8],
    node: &mut Node,
    level: u8,
    key: &[u8],
) -> Result<Change, IndexFault<R::Fault>>
    requires room { 8192 ≤ length buffer.old }
    requires size { CanBe (level == 0) (length node.old.items) }
    requires two { (level == 0) ≡ false → 2 ≤ length node.old.items }
    requires fit { AreFit (level == 0) node.old.items }
    ensures taken { (sep : List ℕ) (marks : List Mark) (numbers : List ℕ) →
        Holds (R.map records.old) level sep node.old.items marks numbers → Rises marks →
        AreNumbered (R.map records.old) (2 ^ 32) numbers → ¬ IsBelow key.now sep →
        MatchResult result (λ p. IsChanged key.now [] p.known (R.map records.old) (R.map records.new)
        (2 ^ 32) (2 ^ 32) level sep marks numbers node.new.items) (λ e. MatchFault e ⊤ ⊥ ⊥) }
    ensures same { IfOk result (λ p. p.changed ≡ false → node.new.items ≡ node.old.items) }
    ensures fit { OnOk result (AreFit (level == 0) node.new.items) }
    ensures less { OnOk result (length node.new.items ≤ length node.old.items) }
    ensures few { OnOk result (length node.old.items ≤ length node.new.items + 1) }
    ensures later { R.refusals records.old ≤ R.refusals records.new }
    ensures failed { IfErr result (λ e. MatchFault e (HasRisen (R.refusals records.old) (R.refusals records.new))
        (IsBroken (R.map records.old) (R.map records.new) level node.old.items) ⊥) }
{
    if level == 0 {
        let known = take_entry(node, key);
        return Ok(Change {
            known,
            changed: known,
        });
    }
    let below = level - 1;
    let leaf = below == 0;
    let at = branch_for(node.as_slice(), key);
    let number = node.as_slice()[at].child;
    let mut child = read_node(records, buffer, leaf, fewest(leaf), number)?;
    let taken = take_in(records, buffer, &mut child, below, key)?;
    if child.len() >= fewest(leaf) {
        keep_node(
            records,
            buffer,
            leaf,
            number,
            child.as_slice(),
            taken.changed,
        )?;
        return Ok(Change {
            known: taken.known,
            changed: false,
        });
    }
    let done = Change {
        known: taken.known,
        changed: true,
    };
    if at + 1 < node.len() {
        join_right(records, buffer, leaf, node, at, &mut child)?;
        return Ok(done);
    }
    join_left(records, buffer, leaf, node, at - 1, &mut child)?;
    Ok(done)
}

// Takes away a root that has one child, which is the root then, and writes the header.
fn lower<R: Records>(
    records: &mut R,
    header: Header,
    child: u32,
) -> Result<(), IndexFault<R::Fault>>
    ensures lowered { OnOk result (IsLowered (R.map records.old) (R.map records.new) header child) }
    ensures later { R.refusals records.old ≤ R.refusals records.new }
    ensures failed { IfErr result (λ e. MatchFault e (HasRisen (R.refusals records.old) (R.refusals records.new)) ⊥ ⊥) }
{
    delete_node(records, header.root)?;
    write_header(
        records,
        Header {
            root: child,
            next: header.next,
            height: header.height.saturating_sub(1),
        },
    )
}

// Takes the entry of a key from the tree that a header tells of, and answers whether it was there.
fn remove_below<R: Records>(
    records: &mut R,
    buffer: &mut [u8],
    header: Header,
    key: &[u8],
) -> Result<bool, IndexFault<R::Fault>>
    requires room { 8192 ≤ length buffer.old }
    requires low { 1 ≤ header.height }
    requires high { header.height ≤ 16 }
    requires root { header.root < 2 ^ 32 }
    requires next { header.next < 2 ^ 32 }
    requires header { header_at (R.map records.old) ≡ Some header }
    ensures taken { (entries : List Entry) → IsIndex (R.map records.old) entries →
        MatchResult result (λ known. IsIndex (R.map records.new) (without_key entries key.now)) (λ e. MatchFault e ⊤ ⊥ ⊥) }
    ensures known { (entries : List Entry) → IsIndex (R.map records.old) entries → IfOk result (λ known. known ≡ knows entries key.now) }
    ensures later { R.refusals records.old ≤ R.refusals records.new }
    ensures failed { IfErr result (λ e. MatchFault e (HasRisen (R.refusals records.old) (R.refusals records.new))
        (IsNoIndexNow (R.map records.old) (R.map records.new)) ⊥) }
{
    let level = header.height - 1;
    let leaf = level == 0;
    let mut root = read_node(records, buffer, leaf, root_fewest(leaf), header.root)?;
    let taken = take_in(records, buffer, &mut root, level, key)?;
    if root.len() < root_fewest(leaf) {
        let child = root.as_slice()[0].child;
        lower(records, header, child)?;
        return Ok(taken.known);
    }
    keep_node(
        records,
        buffer,
        leaf,
        header.root,
        root.as_slice(),
        taken.changed,
    )?;
    Ok(taken.known)
}

/// Takes a key with its value from the index, and answers whether it was there. The key has 1 to 64 bytes. It answers
/// `Records` where a call on the records failed, and `NotAnIndex` where a record that it read, or its absence, isn't that
/// of an index; what the records are then is open.
pub fn remove<R: Records>(records: &mut R, key: &[u8]) -> Result<bool, IndexFault<R::Fault>>
    requires some { 1 ≤ length key.now }
    requires few { length key.now ≤ 64 }
    ensures taken { (entries : List Entry) → IsIndex (R.map records.old) entries →
        MatchResult result (λ there. IsIndex (R.map records.new) (without_key entries key.now)) (λ e. MatchFault e ⊤ ⊥ ⊥) }
    ensures there { (entries : List Entry) → IsIndex (R.map records.old) entries → IfOk result (λ there. there ≡ is_some (value_in entries key.now)) }
    ensures later { R.refusals records.old ≤ R.refusals records.new }
    ensures failed { IfErr result (λ e. MatchFault e (HasRisen (R.refusals records.old) (R.refusals records.new))
        (IsNoIndexNow (R.map records.old) (R.map records.new)) ⊥) }
{
    let mut buffer = [0; BUFFER];
    let Some(header) = find_header(records, &mut buffer)? else {
        return Ok(false);
    };
    remove_below(records, &mut buffer, header, key)
}
