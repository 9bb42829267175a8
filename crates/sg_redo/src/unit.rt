use sg_base::Lsn;
use sg_frames::Loan;
use sg_segment::Dirty;

/// A page or a band whose bytes are lent for replay, and which places are its own: `count` of them,
/// from `first` on, in the order of the log. `since` is the number of its oldest change that isn't on
/// the disk, where it has one.
///
/// A unit whose loan has 4,096 bytes is the page of its number. Any other has a loan of 32,768 bytes,
/// and is the band of its number less the number of pages; its dirty bytes are marked in `dirty`,
/// which a page doesn't use. The loan has to be given back: a unit isn't `Drop`.
pub struct Unit {
    pub number: u32,
    pub loan: Loan,
    pub dirty: Dirty,
    pub since: Option<Lsn>,
    pub first: u32,
    pub count: u32,
}
