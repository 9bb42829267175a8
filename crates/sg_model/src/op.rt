ghost use Rattle.std.specs.Prelude.{◌≡◌};

use sg_base::Name;

/// An operation on the object with a name.
#[derive(Clone, Copy)]
pub enum Op<'a> {
    /// Makes an array without items, for items of this many bytes.
    MakeArray {
        name: Name,
        size: u64,
    },
    /// Makes a table without entries.
    MakeTable {
        name: Name,
    },
    /// Makes a blob without bytes.
    MakeBlob {
        name: Name,
    },
    /// Takes an object away.
    Discard {
        name: Name,
    },
    /// Adds an item at an array's end.
    Push {
        name: Name,
        value: &'a [u8],
    },
    /// Takes an array's last item.
    Pop {
        name: Name,
    },
    /// Replaces an array's item.
    Set {
        name: Name,
        index: u64,
        value: &'a [u8],
    },
    /// Reads an array's item.
    Get {
        name: Name,
        index: u64,
    },
    /// Reads the length of an array, in items, or of a blob, in bytes.
    Len {
        name: Name,
    },
    /// Changes an array's item by a registered operation.
    Apply {
        name: Name,
        index: u64,
        code: u64,
        arg: &'a [u8],
    },
    /// Puts a value under a table's key.
    Put {
        name: Name,
        key: &'a [u8],
        value: &'a [u8],
    },
    /// Takes a key out of a table.
    Del {
        name: Name,
        key: &'a [u8],
    },
    /// Reads the value under a table's key.
    Find {
        name: Name,
        key: &'a [u8],
    },
    /// Writes bytes of a blob from an offset on.
    Write {
        name: Name,
        at: u64,
        bytes: &'a [u8],
    },
    /// Reads so many bytes of a blob from an offset on.
    Read {
        name: Name,
        at: u64,
        count: u64,
    },
    /// Sets a blob's length in bytes.
    Size {
        name: Name,
        length: u64,
    },
    /// Writes a range of a blob by a registered operation.
    Paint {
        name: Name,
        at: u64,
        count: u64,
        code: u64,
        arg: &'a [u8],
    },
}

/// What an operation answers where it isn't refused.
#[derive(Clone, Copy, Debug, PartialEq, Eq)]
pub enum Reply {
    /// It is done.
    Done,
    /// The key is new.
    New,
    /// The key had a value.
    Replaced,
    /// The key isn't there.
    Absent,
    /// An index or a length.
    Number(u64),
    /// So many bytes at the front of the buffer that was handed in.
    Bytes(usize),
}

impl Op<'_> {
    ghost use Rattle.sg_model.specs.Step.{is_changing};
    ghost use Rattle.sg_model.specs.SaidOps.{said_op, name_of};

    /// The name of the object that the operation is done to.
    pub fn name(&self) -> Name
        ensures { result ≡ name_of self.now }
    {
        match *self {
            Op::MakeArray { name, .. } => name,
            Op::MakeTable { name } => name,
            Op::MakeBlob { name } => name,
            Op::Discard { name } => name,
            Op::Push { name, .. } => name,
            Op::Pop { name } => name,
            Op::Set { name, .. } => name,
            Op::Get { name, .. } => name,
            Op::Len { name } => name,
            Op::Apply { name, .. } => name,
            Op::Put { name, .. } => name,
            Op::Del { name, .. } => name,
            Op::Find { name, .. } => name,
            Op::Write { name, .. } => name,
            Op::Read { name, .. } => name,
            Op::Size { name, .. } => name,
            Op::Paint { name, .. } => name,
        }
    }

    /// Whether the operation can change the objects: all can but get, len, find and read.
    pub fn is_changing(&self) -> bool
        ensures { result ≡ is_changing (said_op self.now) }
    {
        match self {
            Op::Get { .. } | Op::Len { .. } | Op::Find { .. } | Op::Read { .. } => false,
            _ => true,
        }
    }
}
