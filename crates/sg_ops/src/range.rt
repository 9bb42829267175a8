ghost use Rattle.std.specs.Prelude.{◌≡◌, ℕ, ◌<◌, ◌≤◌, ◌+◌, length, slice_index};
ghost use Rattle.sg_ops.specs.Meaning.{RangeMeaning, GivesBytes};

use crate::RANGE_LIMIT;

/// A range operation on its way into an `Ops`.
pub type RangeBox = Box<dyn RangeOp + Send + Sync + Drop>;

/// An operation that gives the bytes of a range by their positions, whatever stood there.
///
/// `range_meaning` says which bytes, and `range_law` is the proof that they are bytes.
pub trait RangeOp {
    ghost range_meaning: { Self → RangeMeaning };

    /// The code under which it is registered.
    fn code(&self) -> u16
        ensures { result ≡ (range_meaning self.now).code };

    /// Sets byte k of `into` to the byte of `arg` at the position `pos + k`, whatever stood there.
    /// The positions stay below `RANGE_LIMIT`.
    fn render(&self, pos: u32, arg: &[u8], into: &mut [u8])
        requires { pos + length into.old ≤ RANGE_LIMIT }
        ensures { (k : ℕ) → k < length into.old →
            slice_index into.new k ≡ (range_meaning self.now).byte arg.now (pos + k) };

    ghost range_law: { (op : Self) → GivesBytes (range_meaning op) };
}
