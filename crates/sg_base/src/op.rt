/// One change of a page of slots, as a record of the log says it.
#[derive(Clone, Copy)]
pub enum PageOp<'a> {
    /// Makes it an empty page of this kind, with links 0.
    Format { kind: u8 },
    /// Puts a cell into an empty slot, or into a new one behind the last.
    Put { slot: u16, bytes: &'a [u8] },
    /// Takes the cell out of a full slot. The slot stays, and is empty.
    Remove { slot: u16 },
    /// Puts another cell into a full slot.
    Set { slot: u16, bytes: &'a [u8] },
    /// Sets the two numbers of other pages.
    Links { a: u32, b: u32 },
    /// Does the registered record operation with this code to the cell of a full slot. The
    /// argument has at most 256 bytes.
    Item { slot: u16, code: u16, arg: &'a [u8] },
    /// Undoes the same operation on the cell of a full slot.
    ItemBack { slot: u16, code: u16, arg: &'a [u8] },
}
