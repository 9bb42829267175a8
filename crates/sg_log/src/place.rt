use sg_base::Lsn;

/// Where a record of a log stands, for a walk over its records.
#[derive(Clone, Copy, Debug, PartialEq, Eq)]
pub struct Place {
    /// The number of the record's first byte.
    pub lsn: Lsn,
    /// The number of the byte behind the record's frame. For a record that is still in the buffer it
    /// is the log's tail, so an append or a force outdates it.
    pub frame_end: Lsn,
}
