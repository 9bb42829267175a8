/// Why a call on an index failed.
#[derive(Debug, PartialEq, Eq, Drop)]
pub enum IndexFault<F> {
    /// A call on the records failed. What they are then is open.
    Records(F),
    /// A record that was read, or its absence, isn't that of an index.
    NotAnIndex,
    /// The number of a new node would pass 4,294,967,294. What the records are then is open.
    TooMany,
}
