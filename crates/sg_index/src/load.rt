// Nodes taken from records and put there.
ghost use Rattle.std.specs.Prelude.{◌≡◌, ◌≤◌, ◌∷◌, length, Some, IfOk, IfErr, OnOk};
ghost use Rattle.sg_base.specs.Ends.{HasRisen};
ghost use Rattle.sg_index.specs.Fault.{MatchFault};
ghost use Rattle.sg_index.specs.Node.{AreFit, CanBe, spelled};
ghost use Rattle.sg_index.specs.Records.{Puts, Dels};
ghost use Rattle.sg_index.specs.Tree.{node_key, node_at, IsNoNode};

use crate::item::{Item, Node};
use crate::node::{decode, encode};
use crate::{IndexFault, Records};
use sg_base::put_u32;

// The key of a node's record.
fn node_key(number: u32) -> [u8; 5]
    ensures key { result ≡ node_key number }
    ensures size { length result ≡ 5 }
{
    let mut key = [b'n', 0, 0, 0, 0];
    put_u32(&mut key, 1, number);
    key
}

/// The items of a node, a leaf or an inner node, of which there are `least` at least. It answers `NotAnIndex` where the
/// record isn't one of such a node, or isn't there.
pub(crate) fn read_node<R: Records>(
    records: &mut R,
    buffer: &mut [u8],
    leaf: bool,
    least: usize,
    number: u32,
) -> Result<Node, IndexFault<R::Fault>>
    requires { 8192 ≤ length buffer.old }
    ensures read { IfOk result (λ node. node_at (R.map records.old) leaf number ≡ Some node.items) }
    ensures enough { IfOk result (λ node. least ≤ length node.items) }
    ensures size { IfOk result (λ node. CanBe leaf (length node.items)) }
    ensures fit { IfOk result (λ node. AreFit leaf node.items) }
    ensures kept { R.map records.new ≡ R.map records.old }
    ensures later { R.refusals records.old ≤ R.refusals records.new }
    ensures failed { IfErr result (λ e. MatchFault e (HasRisen (R.refusals records.old) (R.refusals records.new))
        (IsNoNode (R.map records.old) leaf least number) ⊥) }
{
    let key = node_key(number);
    let size = match records.find(&key, buffer) {
        Ok(Some(size)) => size,
        Ok(None) => return Err(IndexFault::NotAnIndex),
        Err(fault) => return Err(IndexFault::Records(fault)),
    };
    let Some(node) = decode(leaf, &buffer[..size]) else {
        return Err(IndexFault::NotAnIndex);
    };
    if node.len() < least {
        return Err(IndexFault::NotAnIndex);
    }
    Ok(node)
}

/// Puts a node of these items, a leaf or an inner node, into its record.
pub(crate) fn write_node<R: Records>(
    records: &mut R,
    buffer: &mut [u8],
    leaf: bool,
    number: u32,
    items: &[Item],
) -> Result<(), IndexFault<R::Fault>>
    requires room { 8192 ≤ length buffer.old }
    requires size { CanBe leaf (length items.now) }
    ensures put { OnOk result (Puts (R.map records.old) (node_key number) (spelled leaf items.now) (R.map records.new)) }
    ensures later { R.refusals records.old ≤ R.refusals records.new }
    ensures failed { IfErr result (λ e. MatchFault e (HasRisen (R.refusals records.old) (R.refusals records.new)) ⊥ ⊥) }
{
    let key = node_key(number);
    let size = encode(leaf, items, buffer);
    match records.put(&key, &buffer[..size]) {
        Ok(()) => Ok(()),
        Err(fault) => Err(IndexFault::Records(fault)),
    }
}

/// Takes the record of a node away.
pub(crate) fn delete_node<R: Records>(
    records: &mut R,
    number: u32,
) -> Result<(), IndexFault<R::Fault>>
    ensures gone { OnOk result (Dels (R.map records.old) (node_key number) (R.map records.new)) }
    ensures later { R.refusals records.old ≤ R.refusals records.new }
    ensures failed { IfErr result (λ e. MatchFault e (HasRisen (R.refusals records.old) (R.refusals records.new)) ⊥ ⊥) }
{
    let key = node_key(number);
    match records.del(&key) {
        Ok(()) => Ok(()),
        Err(fault) => Err(IndexFault::Records(fault)),
    }
}
