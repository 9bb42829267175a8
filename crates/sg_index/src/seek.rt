// The first entry from a key on.
ghost use Rattle.std.specs.Prelude.{◌≡◌, ◌≤◌, ◌==◌, ◌⊎◌, ℕ, List, length, Some, IfErr, MatchResult, option_map, ⊤, Bool};
ghost use Rattle.sg_base.specs.Ends.{HasRisen};
ghost use Rattle.sg_index.specs.Fault.{MatchFault};
ghost use Rattle.sg_index.specs.Order.{next_in};
ghost use Rattle.sg_index.specs.Tree.{fewest, node_at, Mark, Rises, entries_in, entry_of, Holds, IsNoNode, IsBroken};
ghost use Rattle.sg_index.specs.declared.item.Item.{Item as Listed};

use crate::item::Item;
use crate::load::read_node;
use crate::order::{branch_for, place_from};
use crate::{IndexFault, Records};

/// How many items a node has at least: 7 entries, or 8 children.
pub(crate) fn fewest(leaf: bool) -> usize
    ensures { result ≡ fewest leaf }
{
    if leaf { 7 } else { 8 }
}

/// The first entry at or below a node with a key at or above `from`, or above it where `strict`. The node stands so many
/// levels above the leaves, and has `least` items at least.
pub(crate) fn next_in<R: Records>(
    records: &mut R,
    buffer: &mut [u8],
    number: u32,
    level: u8,
    least: usize,
    from: &[u8],
    strict: bool,
) -> Result<Option<Item>, IndexFault<R::Fault>>
    requires { 8192 ≤ length buffer.old }
    ensures next { (key : List ℕ) (items : List Listed) (marks : List Mark) (numbers : List ℕ) →
        node_at (R.map records.old) (level == 0) number ≡ Some items → least ≤ length items →
        Holds (R.map records.old) level key items marks numbers → Rises marks →
        MatchResult result (λ found. option_map entry_of found ≡ next_in (entries_in marks) from.now strict)
        (λ e. MatchFault e ⊤ ⊥ ⊤) }
    ensures kept { R.map records.new ≡ R.map records.old }
    ensures later { R.refusals records.old ≤ R.refusals records.new }
    ensures failed { IfErr result (λ e. MatchFault e (HasRisen (R.refusals records.old) (R.refusals records.new))
        (IsNoNode (R.map records.old) (level == 0) least number
        ⊎ ((items : List Listed) × (node_at (R.map records.old) (level == 0) number ≡ Some items)
        × IsBroken (R.map records.old) (R.map records.old) level items)) ⊥) }
{
    let node = read_node(records, buffer, level == 0, least, number)?;
    let items = node.as_slice();
    if level == 0 {
        let at = place_from(items, from, strict);
        if at < items.len() {
            return Ok(Some(items[at]));
        }
        return Ok(None);
    }
    let below = level - 1;
    let least = fewest(below == 0);
    let at = branch_for(items, from);
    let first = items[at].child;
    let found = next_in(records, buffer, first, below, least, from, strict)?;
    if found.is_some() || at + 1 == items.len() {
        return Ok(found);
    }
    let second = items[at + 1].child;
    next_in(records, buffer, second, below, least, from, strict)
}
