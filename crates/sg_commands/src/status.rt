ghost use Rattle.std.specs.Prelude.{◌≡◌};
ghost use Rattle.sg_commands.specs.Statuses.{status_of_refusal, status_of_making, status_of_sizes, status_of_end, status_of_stop, status_of_writing, status_of_telling, status_of_check, status_of_closing, first_fault};

use crate::opens::{InitRefused, OpenRefused};
use sg_base::{Area, Failed};
use sg_command::SizesFault;
use sg_model::Stop;
use sg_script::RunEnd;
use sg_store::{CheckRefused, Refused, Untold};

/// How a command ended: with the status of its first fault, if there was one.
#[derive(Clone, Copy, Debug, PartialEq, Eq)]
pub enum Status {
    /// It was done.
    Done,
    /// There is no store.
    NotAStore,
    /// The words are no command.
    Usage,
    /// There was not enough memory.
    Memory,
    /// A call of the disk failed.
    Disk,
    /// The source failed.
    Read,
    /// The sink failed.
    Write,
    /// The source gave more than a script may have.
    TooLong,
    /// No operation is registered with this code, which the store needs.
    UnknownOperation(u16),
    /// What stands at this offset of the area isn't a store's.
    Damaged(Area, u64),
    /// There is a store already.
    Exists,
    /// What was to say the sizes of a new store says none that are fit.
    BadGeometry,
    /// The log had no room.
    LogEnd,
}

/// That of a run that didn't begin.
pub fn status_of_refusal(why: OpenRefused) -> Status
    ensures { result ≡ status_of_refusal why }
{
    match why {
        OpenRefused::DiskFault => Status::Disk,
        OpenRefused::Memory => Status::Memory,
        OpenRefused::Damaged { area, at } => Status::Damaged(area, at),
        OpenRefused::NotAStore => Status::NotAStore,
        OpenRefused::UnknownOperation(code) => Status::UnknownOperation(code),
        OpenRefused::LogEnd => Status::LogEnd,
    }
}

/// That of a store that wasn't made.
pub fn status_of_making(why: InitRefused) -> Status
    ensures { result ≡ status_of_making why }
{
    match why {
        InitRefused::DiskFault => Status::Disk,
        InitRefused::Exists => Status::Exists,
    }
}

/// That of a new store for which there are no sizes.
pub fn status_of_sizes(why: SizesFault) -> Status
    ensures { result ≡ status_of_sizes why }
{
    match why {
        SizesFault::Read => Status::Read,
        SizesFault::Bad => Status::BadGeometry,
        SizesFault::Memory => Status::Memory,
    }
}

/// That of a script that ended so.
pub fn status_of_end(end: RunEnd) -> Status
    ensures { result ≡ status_of_end end }
{
    match end {
        RunEnd::Done => Status::Done,
        RunEnd::Read => Status::Read,
        RunEnd::Write => Status::Write,
        RunEnd::TooLong => Status::TooLong,
    }
}

/// That of a store that has stopped for this reason, or hasn't.
pub fn status_of_stop(stop: Option<Stop>) -> Status
    ensures { result ≡ status_of_stop stop }
{
    match stop {
        None => Status::Done,
        Some(Stop::Disk) => Status::Disk,
        Some(Stop::LogEnd) => Status::LogEnd,
    }
}

/// That of bytes that were written to a sink, or weren't.
pub fn status_of_writing(written: Result<(), Failed>) -> Status
    ensures { result ≡ status_of_writing written }
{
    match written {
        Ok(()) => Status::Done,
        Err(_) => Status::Write,
    }
}

/// That of a store's objects that were written, or weren't.
pub fn status_of_telling(told: Result<(), Untold>) -> Status
    ensures { result ≡ status_of_telling told }
{
    match told {
        Ok(()) => Status::Done,
        Err(Untold::DiskFault | Untold::Stopped) => Status::Disk,
        Err(Untold::Memory) => Status::Memory,
        Err(Untold::Listener) => Status::Write,
    }
}

/// That of a store that wasn't checked.
pub fn status_of_check(why: CheckRefused) -> Status
    ensures { result ≡ status_of_check why }
{
    match why {
        CheckRefused::DiskFault | CheckRefused::Stopped => Status::Disk,
        CheckRefused::Memory => Status::Memory,
    }
}

/// That of what was asked of a store, with this status, and of closing it then, which fails where the disk does or has.
pub fn status_of_closing(closed: Result<(), Refused>, status: Status) -> Status
    ensures { result ≡ status_of_closing closed status }
{
    match closed {
        Ok(()) => status,
        Err(_) => Status::Disk,
    }
}

/// Of two, the first that is a fault.
pub fn first_fault(status: Status, later: Status) -> Status
    ensures { result ≡ first_fault status later }
{
    match status {
        Status::Done => later,
        _ => status,
    }
}
