ghost use Rattle.std.specs.Prelude.{◌≡◌};
ghost use Rattle.sg_gate.specs.declared.fault.GateFault.TheVariants.{Disk};

use sg_disk::Failed;

/// Why a call of a gate fails.
#[derive(Clone, Copy, Debug, PartialEq, Eq)]
pub enum GateFault {
    /// A call of the disk failed.
    Disk,
    /// The gates of both superblock slots are closed.
    NotAStore,
    /// The field at this offset of the home area is out of its range.
    Damaged { at: u64 },
}

impl From<Failed> for GateFault {
    ghost from_gives = { λ _ e. e ≡ Disk };

    fn from(_failed: Failed) -> GateFault {
        GateFault::Disk
    }
}
