use sg_base::Lsn;

/// One record of a text for replay: the unit that it changes, its number in the log, and the offset
/// in the text at which it stands.
///
/// A unit is a page, by the page's number, or a band, by the number of pages plus the band's.
#[derive(Clone, Copy, Debug, PartialEq, Eq)]
pub struct Place {
    pub unit: u32,
    pub lsn: Lsn,
    pub at: u64,
}
