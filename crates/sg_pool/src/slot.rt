ghost use Rattle.std.specs.Prelude.{◌≡◌, Some, unwrap_or};

/// What a page frame or a window holds: the number of a page or of a band, and that of the oldest
/// change of it that isn't on the disk.
#[derive(Clone, Copy)]
pub struct Slot {
    pub(crate) number: Option<u32>,
    pub(crate) since: Option<u64>,
}

impl Slot {
    // The slot once the record of this number has changed what it holds. That is its oldest change, where
    // it has none that isn't on the disk.
    pub(crate) fn changed(self, lsn: u64) -> Slot
        ensures { result ≡ record { number = self.number; since = Some (unwrap_or self.since lsn) } }
    {
        Slot {
            number: self.number,
            since: Some(self.since.unwrap_or(lsn)),
        }
    }
}
