use crate::object::Object;
use sg_base::Name;
use sg_model::Key;

/// What was done to what stands under a name, with what stood there before: enough to take it back.
#[derive(Drop)]
pub enum Undo {
    /// Nothing was.
    Nothing,
    /// An object was made.
    Made,
    /// This object was dropped.
    Dropped(Object),
    /// An item was added at an array's end.
    Pushed,
    /// This item was taken off an array's end.
    Popped(Vec<u8>),
    /// An array had this item at the index.
    Set {
        index: usize,
        item: Vec<u8>,
    },
    /// The key was put into a table, and is new.
    New(Key),
    /// A table had these bytes under the key.
    Value {
        key: Key,
        bytes: Vec<u8>,
    },
    /// A blob had these bytes from a position on, and this length.
    Bytes {
        at: usize,
        bytes: Vec<u8>,
        length: usize,
    },
}

/// A name, and what was done to what stands under it.
#[derive(Drop)]
pub struct Noted {
    pub name: Name,
    pub undo: Undo,
}
