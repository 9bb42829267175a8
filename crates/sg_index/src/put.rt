// The call that puts an entry into an index.
ghost use Rattle.std.specs.Prelude.{◌≡◌, ◌+◌, ◌-◌, ◌<◌, ◌≤◌, ◌^◌, ◌==◌, ◌∷◌, [], List, ℕ, length, IfOk, OnOk, IfErr, MatchResult, MatchOption, None, Some, ⊤, false, not, is_some};
ghost use Rattle.sg_base.specs.Ends.{HasRisen};
ghost use Rattle.sg_index.specs.Change.{IsBegun, IsChanged, IsGrown, IsFull, AreNumbered, knows, most, put_size, put_new};
ghost use Rattle.sg_index.specs.Fault.{MatchFault};
ghost use Rattle.sg_index.specs.Node.{AreFit, CanBe};
ghost use Rattle.sg_index.specs.Index.{IsIndex, IsNoIndex, header_at};
ghost use Rattle.sg_index.specs.Order.{Entry, IsBelow, value_in, with_entry};
ghost use Rattle.sg_index.specs.Tree.{Mark, Rises, Holds, IsBroken};

use crate::edit::{most, put_entry};
use crate::header::{Header, find_header, keep_header, write_header};
use crate::item::{Item, Node};
use crate::load::{read_node, write_node};
use crate::order::branch_for;
use crate::read::{BUFFER, root_fewest};
use crate::seek::fewest;
use crate::store::{divide, keep_node, take_number};
use crate::text::Text;
use crate::{IndexFault, Records};

/// What a change of a node in memory did: whether an entry had the key before, and whether the node itself changed.
#[derive(Clone, Copy)]
pub(crate) struct Change {
    pub(crate) known: bool,
    pub(crate) changed: bool,
}

/// Puts an entry into a node in memory, or below it, so many levels above the leaves. The node may have one item too
/// many then, and isn't written.
pub(crate) fn put_in<R: Records>(
    records: &mut R,
    buffer: &mut [u8],
    node: &mut Node,
    level: u8,
    next: &mut u32,
    key: &[u8],
    value: &[u8],
) -> Result<Change, IndexFault<R::Fault>>
    requires room { 8192 ≤ length buffer.old }
    requires key { length key.now ≤ 64 }
    requires value { length value.now ≤ 64 }
    requires size { CanBe (level == 0) (length node.old.items) }
    requires fit { AreFit (level == 0) node.old.items }
    ensures put { (sep : List ℕ) (marks : List Mark) (numbers : List ℕ) →
        Holds (R.map records.old) level sep node.old.items marks numbers → Rises marks →
        AreNumbered (R.map records.old) next.old numbers → ¬ IsBelow key.now sep →
        MatchResult result (λ p. IsChanged key.now ((key.now, value.now) ∷ []) p.known (R.map records.old) (R.map records.new)
        next.old next.new level sep marks numbers node.new.items) (λ e. MatchFault e ⊤ ⊥ ⊤) }
    ensures same { IfOk result (λ p. p.changed ≡ false → node.new.items ≡ node.old.items) }
    ensures fit { OnOk result (AreFit (level == 0) node.new.items) }
    ensures size { OnOk result (length node.new.items ≡ put_size (R.map records.old) level node.old.items key.now) }
    ensures next { OnOk result (next.new ≡ next.old + put_new (R.map records.old) level node.old.items key.now) }
    ensures later { R.refusals records.old ≤ R.refusals records.new }
    ensures failed { IfErr result (λ e. MatchFault e (HasRisen (R.refusals records.old) (R.refusals records.new))
        (IsBroken (R.map records.old) (R.map records.old) level node.old.items)
        (4294967295 < next.old + put_new (R.map records.old) level node.old.items key.now)) }
{
    if level == 0 {
        let known = put_entry(node, key, value);
        return Ok(Change {
            known,
            changed: true,
        });
    }
    let below = level - 1;
    let leaf = below == 0;
    let at = branch_for(node.as_slice(), key);
    let number = node.as_slice()[at].child;
    let mut child = read_node(records, buffer, leaf, fewest(leaf), number)?;
    let put = put_in(records, buffer, &mut child, below, next, key, value)?;
    if child.len() > most(leaf) {
        let branch = divide(records, buffer, leaf, &mut child, number, next)?;
        node.insert(at + 1, branch);
        return Ok(Change {
            known: put.known,
            changed: true,
        });
    }
    keep_node(records, buffer, leaf, number, child.as_slice(), put.changed)?;
    Ok(Change {
        known: put.known,
        changed: false,
    })
}

// Divides a root that has too many items, and writes the new root above both halves and the header.
fn grow<R: Records>(
    records: &mut R,
    buffer: &mut [u8],
    leaf: bool,
    root: &mut Node,
    header: Header,
    next: u32,
) -> Result<(), IndexFault<R::Fault>>
    requires room { 8192 ≤ length buffer.old }
    requires many { most leaf < length root.old.items }
    requires few { length root.old.items ≤ 24 }
    requires high { header.height ≤ 16 }
    ensures grown { OnOk result (IsGrown (R.map records.old) (R.map records.new) leaf root.old.items header next) }
    ensures later { R.refusals records.old ≤ R.refusals records.new }
    ensures failed { IfErr result (λ e. MatchFault e (HasRisen (R.refusals records.old) (R.refusals records.new)) ⊥ (4294967295 < next + 2)) }
{
    let mut free = next;
    let branch = divide(records, buffer, leaf, root, header.root, &mut free)?;
    let number = take_number(&mut free)?;
    let first = Item {
        key: Text::default(),
        value: Text::default(),
        child: header.root,
    };
    write_node(records, buffer, false, number, &[first, branch])?;
    write_header(
        records,
        Header {
            root: number,
            next: free,
            height: header.height + 1,
        },
    )
}

// Puts an entry into the tree that a header tells of, and answers whether an entry had the key before.
fn insert_below<R: Records>(
    records: &mut R,
    buffer: &mut [u8],
    header: Header,
    key: &[u8],
    value: &[u8],
) -> Result<bool, IndexFault<R::Fault>>
    requires room { 8192 ≤ length buffer.old }
    requires some { 1 ≤ length key.now }
    requires key { length key.now ≤ 64 }
    requires value { length value.now ≤ 64 }
    requires low { 1 ≤ header.height }
    requires high { header.height ≤ 16 }
    requires root { header.root < 2 ^ 32 }
    requires header { header_at (R.map records.old) ≡ Some header }
    ensures put { (entries : List Entry) → IsIndex (R.map records.old) entries →
        MatchResult result (λ known. IsIndex (R.map records.new) (with_entry entries key.now value.now)) (λ e. MatchFault e ⊤ ⊥ ⊤) }
    ensures known { (entries : List Entry) → IsIndex (R.map records.old) entries → IfOk result (λ known. known ≡ knows entries key.now) }
    ensures few { OnOk result (¬ IsFull (R.map records.old) key.now) }
    ensures later { R.refusals records.old ≤ R.refusals records.new }
    ensures failed { IfErr result (λ e. MatchFault e (HasRisen (R.refusals records.old) (R.refusals records.new))
        (IsNoIndex (R.map records.old)) (IsFull (R.map records.old) key.now)) }
{
    let level = header.height - 1;
    let leaf = level == 0;
    let mut root = read_node(records, buffer, leaf, root_fewest(leaf), header.root)?;
    let mut next = header.next;
    let put = put_in(records, buffer, &mut root, level, &mut next, key, value)?;
    if root.len() > most(leaf) {
        grow(records, buffer, leaf, &mut root, header, next)?;
        return Ok(put.known);
    }
    keep_node(
        records,
        buffer,
        leaf,
        header.root,
        root.as_slice(),
        put.changed,
    )?;
    keep_header(records, header, next)?;
    Ok(put.known)
}

// Writes the first entry, in a leaf of its own, and the header.
fn begin<R: Records>(
    records: &mut R,
    buffer: &mut [u8],
    key: &[u8],
    value: &[u8],
) -> Result<(), IndexFault<R::Fault>>
    requires room { 8192 ≤ length buffer.old }
    requires key { length key.now ≤ 64 }
    requires value { length value.now ≤ 64 }
    ensures begun { OnOk result (IsBegun (R.map records.old) (R.map records.new) key.now value.now) }
    ensures later { R.refusals records.old ≤ R.refusals records.new }
    ensures failed { IfErr result (λ e. MatchFault e (HasRisen (R.refusals records.old) (R.refusals records.new)) ⊥ ⊥) }
{
    let item = Item {
        key: Text::new(key),
        value: Text::new(value),
        child: 0,
    };
    write_node(records, buffer, true, 1, &[item])?;
    write_header(
        records,
        Header {
            root: 1,
            next: 2,
            height: 1,
        },
    )
}

/// Maps a key to a value, and answers whether the key is new. The key has 1 to 64 bytes, and the value at most 64. It
/// answers `Records` where a call on the records failed, `NotAnIndex` where a record that it read, or its absence, isn't
/// that of an index, and `TooMany` where the number of a new node would pass 4,294,967,294; what the records are then
/// is open.
pub fn insert<R: Records>(
    records: &mut R,
    key: &[u8],
    value: &[u8],
) -> Result<bool, IndexFault<R::Fault>>
    requires some { 1 ≤ length key.now }
    requires few { length key.now ≤ 64 }
    requires short { length value.now ≤ 64 }
    ensures put { (entries : List Entry) → IsIndex (R.map records.old) entries →
        MatchResult result (λ new. IsIndex (R.map records.new) (with_entry entries key.now value.now)) (λ e. MatchFault e ⊤ ⊥ ⊤) }
    ensures new { (entries : List Entry) → IsIndex (R.map records.old) entries → IfOk result (λ new. new ≡ not (is_some (value_in entries key.now))) }
    ensures fits { OnOk result (¬ IsFull (R.map records.old) key.now) }
    ensures later { R.refusals records.old ≤ R.refusals records.new }
    ensures failed { IfErr result (λ e. MatchFault e (HasRisen (R.refusals records.old) (R.refusals records.new))
        (IsNoIndex (R.map records.old)) (IsFull (R.map records.old) key.now)) }
{
    let mut buffer = [0; BUFFER];
    let Some(header) = find_header(records, &mut buffer)? else {
        begin(records, &mut buffer, key, value)?;
        return Ok(true);
    };
    let known = insert_below(records, &mut buffer, header, key, value)?;
    Ok(!known)
}
