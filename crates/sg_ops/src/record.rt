ghost use Rattle.std.specs.Prelude.{◌≡◌, IsTrue};
ghost use Rattle.sg_ops.specs.Meaning.{RecordMeaning, IsUndoable};

/// A record operation on its way into an `Ops`.
pub type RecordBox = Box<dyn RecordOp + Send + Sync + Drop>;

/// An operation on one item, with its undo. An item and an argument are byte strings of any length.
///
/// `record_meaning` says what it does, and `record_law` is the proof that its undo undoes it: with
/// no such proof there is no operation.
///
/// The codes from 100 on are free for an application's own; those below are the library's. A code
/// has to keep its meaning as long as a log may have it.
///
/// **An operation that would lose what stood there has to decline instead.** A sum that stops at the
/// greatest number is the same for many items, so no undo can tell which of them stood there, and its
/// law can't be proved. It accepts no item, then, at which it would stop. One whole, a counter of one
/// byte, whose meaning accepts `n` with `k` where `n + k` is at most 255, leaves `n + k`, and whose
/// undo leaves `n - k`:
///
/// ```text
/// impl RecordOp for Counter {
///     ghost record_meaning = { λ _. counter_meaning };
///     ghost record_law = { λ _. counter_is_undoable };
///
///     fn code(&self) -> u16 {
///         100
///     }
///
///     fn accepts(&self, item: &[u8], arg: &[u8]) -> bool {
///         match (item, arg) {
///             ([n], [k]) => *k <= 255 - *n,
///             _ => false,
///         }
///     }
///
///     fn redo(&self, item: &mut [u8], arg: &[u8]) {
///         if let ([n], [k]) = (item, arg) {
///             *n = n.saturating_add(*k);
///         }
///     }
///
///     fn undo(&self, item: &mut [u8], arg: &[u8]) {
///         if let ([n], [k]) = (item, arg) {
///             *n = n.saturating_sub(*k);
///         }
///     }
/// }
/// ```
pub trait RecordOp {
    ghost record_meaning: { Self → RecordMeaning };

    /// The code under which it is registered.
    fn code(&self) -> u16
        ensures { result ≡ (record_meaning self.now).code };

    /// Whether it may be done to this item with this argument; any item and argument may be asked.
    fn accepts(&self, item: &[u8], arg: &[u8]) -> bool
        ensures { result ≡ (record_meaning self.now).accepts item.now arg.now };

    /// Does it, where it accepts the item and the argument. The item keeps its length.
    fn redo(&self, item: &mut [u8], arg: &[u8])
        requires { IsTrue ((record_meaning self.now).accepts item.old arg.now) }
        ensures { item.new ≡ (record_meaning self.now).after item.old arg.now };

    /// Undoes it, for any item and argument. The item keeps its length.
    fn undo(&self, item: &mut [u8], arg: &[u8])
        ensures { item.new ≡ (record_meaning self.now).before item.old arg.now };

    ghost record_law: { (op : Self) → IsUndoable (record_meaning op) };
}
