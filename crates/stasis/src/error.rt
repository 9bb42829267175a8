// One error for all refusals of the library.
ghost use Rattle.std.specs.Prelude.{◌≡◌};
ghost use Rattle.stasis.specs.declared.error.StoreError.TheVariants.{Memory, Operations, Making, Opening, Call};

use sg_base::{Area, OutOfMemory};
use sg_disk::Disk;
use sg_folder::area_name;
use sg_making::InitFault;
use sg_mount::{MountFault, Unmounted};
use sg_ops::OpsError;
use sg_store::Refused;
use std::error::Error;
use std::fmt;

/// Why the library did not do what it was asked, in words: each of its refusals becomes one by `?`, that of an opening too, whose disk is
/// dropped then. Who wants the disk back, or goes on at one refusal and not at another, matches the refusal itself.
#[derive(Clone, Copy, Debug, PartialEq, Eq)]
pub enum StoreError {
    /// Memory ran out.
    Memory,
    /// An operation wasn't registered.
    Operations(OpsError),
    /// No store was made.
    Making(InitFault),
    /// A store wasn't opened.
    Opening(MountFault),
    /// A call of an open store was refused.
    Call(Refused),
}

impl From<OutOfMemory> for StoreError {
    ghost from_gives = { λ _ e. e ≡ Memory };

    fn from(_why: OutOfMemory) -> StoreError {
        StoreError::Memory
    }
}

impl From<OpsError> for StoreError {
    ghost from_gives = { λ why e. e ≡ Operations why };

    fn from(why: OpsError) -> StoreError {
        StoreError::Operations(why)
    }
}

impl From<InitFault> for StoreError {
    ghost from_gives = { λ why e. e ≡ Making why };

    fn from(why: InitFault) -> StoreError {
        StoreError::Making(why)
    }
}

impl<D: Disk + Drop> From<Unmounted<D>> for StoreError {
    ghost from_gives = { λ unmounted e. e ≡ Opening unmounted.fault };

    fn from(unmounted: Unmounted<D>) -> StoreError {
        let Unmounted { disk: _, fault } = unmounted;
        StoreError::Opening(fault)
    }
}

impl From<MountFault> for StoreError {
    ghost from_gives = { λ why e. e ≡ Opening why };

    fn from(why: MountFault) -> StoreError {
        StoreError::Opening(why)
    }
}

impl From<Refused> for StoreError {
    ghost from_gives = { λ why e. e ≡ Call why };

    fn from(why: Refused) -> StoreError {
        StoreError::Call(why)
    }
}

// Why an operation wasn't registered, in words.
fn words_of_operations(why: OpsError) -> &'static str {
    match why {
        OpsError::CodeTaken => "an operation of this sort has the code already",
        OpsError::TableFull => "as many operations of this sort are registered as may be",
        OpsError::Memory => "out of memory",
    }
}

// Why no store was made, in words.
fn words_of_making(why: InitFault) -> &'static str {
    match why {
        InitFault::Disk => "a call of the disk failed",
        InitFault::Exists => "there is a store already",
        InitFault::BadGeometry => "a number of pages, bands, frames or windows is out of its range",
    }
}

// Writes why a store wasn't opened.
fn write_opening<W: fmt::Write>(f: &mut fmt::Formatter<W>, why: MountFault) -> fmt::Result {
    match why {
        MountFault::Disk => f.write_str("a call of the disk failed"),
        MountFault::Memory => f.write_str("out of memory"),
        MountFault::LogEnd => f.write_str("the log has no room"),
        MountFault::NotAStore => f.write_str("there is no store"),
        MountFault::Damaged { area, at } => {
            let name = area_name(area);
            write!(f, "{name} is damaged at byte {at}")
        }
        MountFault::UnknownOperation(code) => {
            write!(f, "no operation is registered with the code {code}")
        }
    }
}

impl fmt::Display for StoreError {
    fn fmt<W: fmt::Write>(&self, f: &mut fmt::Formatter<W>) -> fmt::Result {
        match *self {
            StoreError::Memory => f.write_str("out of memory"),
            StoreError::Operations(why) => f.write_str(words_of_operations(why)),
            StoreError::Making(why) => f.write_str(words_of_making(why)),
            StoreError::Opening(why) => write_opening(f, why),
            StoreError::Call(why) => write!(f, "{why}"),
        }
    }
}

impl Error for StoreError {}
