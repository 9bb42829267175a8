// Why a listing isn't told to its end.
ghost use Rattle.std.specs.Prelude.{◌≡◌};

use sg_base::Failed;
use sg_space::{ListFault, SpaceFault};

/// Why a listing isn't told to its end.
#[derive(Clone, Copy, Debug, PartialEq, Eq)]
pub enum TellFault {
    /// A call of the space failed, or what was read can't be.
    Space(SpaceFault),
    /// Memory was refused.
    Memory,
    /// The listener failed.
    Listener,
}

impl From<SpaceFault> for TellFault {
    ghost use Rattle.sg_listing.specs.declared.fault.TellFault.TheVariants.{Space};

    ghost from_gives = { λ fault e. e ≡ Space fault };

    fn from(fault: SpaceFault) -> TellFault {
        TellFault::Space(fault)
    }
}

impl From<ListFault> for TellFault {
    ghost use Rattle.sg_listing.specs.Telling.{list_fault};

    ghost from_gives = { λ fault e. e ≡ list_fault fault };

    fn from(fault: ListFault) -> TellFault {
        match fault {
            ListFault::Space(fault) => TellFault::Space(fault),
            ListFault::Memory => TellFault::Memory,
        }
    }
}

impl From<Failed> for TellFault {
    ghost use Rattle.sg_listing.specs.declared.fault.TellFault.TheVariants.{Listener};

    ghost from_gives = { λ _ e. e ≡ Listener };

    fn from(_fault: Failed) -> TellFault {
        TellFault::Listener
    }
}
