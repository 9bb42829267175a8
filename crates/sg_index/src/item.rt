use crate::text::Text;
use arrayvec::ArrayVec;

/// An item of a node. Of a leaf it's an entry, whose child is 0. Of an inner node it's a child with the separator
/// left of it, which of the first child has no bytes; its value has none.
#[derive(Clone, Copy, Default)]
pub(crate) struct Item {
    pub(crate) key: Text,
    pub(crate) value: Text,
    pub(crate) child: u32,
}

/// The items of a node in memory, with room for those of two nodes.
pub(crate) type Node = ArrayVec<Item, 24>;
