use sg_base::TxnId;
use sg_model::Reason;
use sg_space::SpaceFault;
use std::error::Error;
use std::fmt;

/// Why a call of the objects failed.
#[derive(Clone, Copy, Debug, PartialEq, Eq)]
pub enum ObjFault {
    /// The operation is refused.
    Model(Reason),
    /// A call of the space failed.
    Space(SpaceFault),
}

/// What an operation needs.
#[derive(Clone, Copy, Debug, PartialEq, Eq)]
pub struct Needed {
    /// So many free pages,
    pub pages: u32,
    /// so many free bands,
    pub bands: u32,
    /// and so many of the pages stay free for its undoing.
    pub reserve: u32,
}

/// Why an engine doesn't tell of its objects to their end.
#[derive(Clone, Copy, Debug, PartialEq, Eq)]
pub enum TellFault {
    /// A call of the disk failed.
    Disk,
    /// Memory was refused.
    Memory,
    /// The listener failed.
    Listener,
}

/// Why a store doesn't tell of its objects to their end.
#[derive(Clone, Copy, Debug, PartialEq, Eq)]
pub enum Untold {
    /// A call of the disk failed, and the store has stopped.
    DiskFault,
    /// The store had stopped.
    Stopped,
    /// Memory was refused.
    Memory,
    /// The listener failed.
    Listener,
}

/// Why a store isn't checked.
#[derive(Clone, Copy, Debug, PartialEq, Eq)]
pub enum CheckRefused {
    /// A call of the disk failed, and the store has stopped.
    DiskFault,
    /// The store had stopped.
    Stopped,
    /// Memory was refused.
    Memory,
}

/// Why a store refused a call.
#[derive(Clone, Copy, Debug, PartialEq, Eq)]
pub enum Refused {
    /// The transaction isn't live.
    NoTxn,
    /// As many transactions are live as may be.
    TooManyLive,
    /// This live transaction holds something in conflict.
    Busy(TxnId),
    /// Too much would be held.
    LocksFull,
    /// The operation is refused.
    Model(Reason),
    /// Fewer pages are free than are reserved and needed.
    NoSpace { free: u32, reserved: u32, need: u32 },
    /// Fewer bands are free than are needed.
    NoBands { free: u32, need: u32 },
    /// The log has no room.
    LogEnd,
    /// Memory was refused to a list.
    Memory,
    /// A call of the disk failed, and the store has stopped.
    DiskFault,
    /// The store had stopped.
    Stopped,
}

/// Why a store refused a call on the marks of a transaction.
#[derive(Clone, Copy, Debug, PartialEq, Eq)]
pub enum MarkRefused {
    /// The transaction has no such mark.
    NoMark,
    /// The transaction has as many marks as it may.
    MarksFull,
    /// For what other calls are refused for too.
    Store(Refused),
}

// Why an operation is refused, in words.
fn words_of(reason: Reason) -> &'static str {
    match reason {
        Reason::NoObject => "there is no object with this name",
        Reason::WrongKind => "the object is of another kind",
        Reason::Exists => "there is an object with this name already",
        Reason::OutOfRange => "it lies outside what there is or may be",
        Reason::NoOperation => "no operation with this code is registered",
        Reason::Declined => "the item or the argument is not accepted",
        Reason::TooLong => "it is longer than it may be",
        Reason::TooMany => "the array has as many items as it may",
    }
}

impl fmt::Display for Refused {
    fn fmt<W: fmt::Write>(&self, f: &mut fmt::Formatter<W>) -> fmt::Result {
        match *self {
            Refused::NoTxn => f.write_str("the transaction is not live"),
            Refused::TooManyLive => f.write_str("as many transactions are live as may be"),
            Refused::Busy(holder) => {
                let number = holder.0;
                write!(f, "transaction {number} holds something in conflict")
            }
            Refused::LocksFull => f.write_str("too much would be held"),
            Refused::Model(reason) => f.write_str(words_of(reason)),
            Refused::NoSpace {
                free,
                reserved,
                need,
            } => {
                write!(
                    f,
                    "{free} pages are free, {reserved} are reserved, and {need} are needed"
                )
            }
            Refused::NoBands { free, need } => {
                write!(f, "{free} bands are free, and {need} are needed")
            }
            Refused::LogEnd => f.write_str("the log has no room"),
            Refused::Memory => f.write_str("memory was refused"),
            Refused::DiskFault => f.write_str("a call of the disk failed"),
            Refused::Stopped => f.write_str("the store has stopped"),
        }
    }
}

impl Error for Refused {}

impl fmt::Display for MarkRefused {
    fn fmt<W: fmt::Write>(&self, f: &mut fmt::Formatter<W>) -> fmt::Result {
        match *self {
            MarkRefused::NoMark => f.write_str("the transaction has no such mark"),
            MarkRefused::MarksFull => f.write_str("the transaction has as many marks as it may"),
            MarkRefused::Store(why) => fmt::Display::fmt(&why, f),
        }
    }
}

impl Error for MarkRefused {}
