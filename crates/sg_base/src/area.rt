/// A part of a disk. Each has its own bytes, from offset 0 on.
#[derive(Clone, Copy, Debug, PartialEq, Eq)]
pub enum Area {
    /// Superblocks, the double-write area, pages and bands.
    Home,
    /// The first of the two areas that the log uses in turn.
    Log0,
    /// The second of them.
    Log1,
}
