/// Why an operation was refused. It changed nothing.
#[derive(Clone, Copy, Debug, PartialEq, Eq)]
pub enum Reason {
    /// There is no object with this name.
    NoObject,
    /// The object is of a kind that the operation isn't for.
    WrongKind,
    /// There is an object with this name already.
    Exists,
    /// An index, a range, a size or a key lies outside what there is or may be.
    OutOfRange,
    /// There is no registered operation with this code.
    NoOperation,
    /// The item or the argument isn't accepted.
    Declined,
    /// A value, a key, an argument or a length is above its limit.
    TooLong,
    /// The array has as many items as it may.
    TooMany,
}
