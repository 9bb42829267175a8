// Nodes in memory written to their records, whole or divided.
ghost use Rattle.std.specs.Prelude.{◌≡◌, ◌+◌, ◌<◌, ◌≤◌, [], length, IfOk, OnOk, IfErr};
ghost use Rattle.sg_base.specs.Ends.{HasRisen};
ghost use Rattle.sg_index.specs.Change.{AreHalves, IsWritten, most};
ghost use Rattle.sg_index.specs.Fault.{MatchFault};
ghost use Rattle.sg_index.specs.Node.{CanBe, spelled};

use crate::edit::split;
use crate::item::{Item, Node};
use crate::load::write_node;
use crate::text::Text;
use crate::{IndexFault, Records};

/// Writes a node, if it has changed.
pub(crate) fn keep_node<R: Records>(
    records: &mut R,
    buffer: &mut [u8],
    leaf: bool,
    number: u32,
    items: &[Item],
    changed: bool,
) -> Result<(), IndexFault<R::Fault>>
    requires room { 8192 ≤ length buffer.old }
    requires size { CanBe leaf (length items.now) }
    ensures written { OnOk result (IsWritten changed (R.map records.old) (R.map records.new) number (spelled leaf items.now)) }
    ensures later { R.refusals records.old ≤ R.refusals records.new }
    ensures failed { IfErr result (λ e. MatchFault e (HasRisen (R.refusals records.old) (R.refusals records.new)) ⊥ ⊥) }
{
    if !changed {
        return Ok(());
    }
    write_node(records, buffer, leaf, number, items)
}

/// Writes the first half of a node's items as one node and the others as another, and answers the separator between them.
pub(crate) fn write_halves<R: Records>(
    records: &mut R,
    buffer: &mut [u8],
    leaf: bool,
    node: &mut Node,
    left: u32,
    right: u32,
) -> Result<Text, IndexFault<R::Fault>>
    requires room { 8192 ≤ length buffer.old }
    requires many { most leaf < length node.old.items }
    requires few { length node.old.items ≤ 24 }
    ensures halves { IfOk result (λ key. AreHalves (R.map records.old) (R.map records.new) leaf node.old.items left right key) }
    ensures later { R.refusals records.old ≤ R.refusals records.new }
    ensures failed { IfErr result (λ e. MatchFault e (HasRisen (R.refusals records.old) (R.refusals records.new)) ⊥ ⊥) }
{
    let (key, other) = split(node, leaf);
    write_node(records, buffer, leaf, left, node.as_slice())?;
    write_node(records, buffer, leaf, right, other.as_slice())?;
    Ok(key)
}

/// Takes the number of a new node. It answers `TooMany` where it would pass 4,294,967,294.
pub(crate) fn take_number<F>(next: &mut u32) -> Result<u32, IndexFault<F>>
    ensures taken { IfOk result (λ number. number ≡ next.old) }
    ensures next { OnOk result (next.new ≡ next.old + 1) }
    ensures small { OnOk result (next.old < 4294967295) }
    ensures failed { IfErr result (λ e. MatchFault e ⊥ ⊥ (next.old ≡ 4294967295)) }
{
    let number = *next;
    if number == u32::MAX {
        return Err(IndexFault::TooMany);
    }
    *next = number + 1;
    Ok(number)
}

/// Divides a node that has too many items: the first half keeps its number, and the others get a new one. It answers the
/// branch to these.
pub(crate) fn divide<R: Records>(
    records: &mut R,
    buffer: &mut [u8],
    leaf: bool,
    node: &mut Node,
    number: u32,
    next: &mut u32,
) -> Result<Item, IndexFault<R::Fault>>
    requires room { 8192 ≤ length buffer.old }
    requires many { most leaf < length node.old.items }
    requires few { length node.old.items ≤ 24 }
    ensures halves { IfOk result (λ i. AreHalves (R.map records.old) (R.map records.new) leaf node.old.items number next.old i.key) }
    ensures value { IfOk result (λ i. i.value ≡ []) }
    ensures child { IfOk result (λ i. i.child ≡ next.old) }
    ensures next { OnOk result (next.new ≡ next.old + 1) }
    ensures small { OnOk result (next.old < 4294967295) }
    ensures later { R.refusals records.old ≤ R.refusals records.new }
    ensures failed { IfErr result (λ e. MatchFault e (HasRisen (R.refusals records.old) (R.refusals records.new)) ⊥ (next.old ≡ 4294967295)) }
{
    let child = take_number(next)?;
    let key = write_halves(records, buffer, leaf, node, number, child)?;
    Ok(Item {
        key,
        value: Text::default(),
        child,
    })
}
