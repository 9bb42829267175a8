/// Why a store has stopped.
#[derive(Clone, Copy, Debug, PartialEq, Eq)]
pub enum Stop {
    /// A call of the disk failed.
    Disk,
    /// The log had no room for a commit.
    LogEnd,
}
