// The change that a record holds for a range operation on a band.
ghost use Rattle.std.specs.Prelude.{◌≡◌, ◌≤◌, IsTrue};
ghost use Rattle.sg_record.specs.Shown.{shown_op};
ghost use Rattle.sg_actions.specs.Painting.{op_with, IsPaint};

use sg_base::BandNo;
use sg_record::BandOp;

/// A change of a piece of a band to what a range operation gives.
pub fn spell_op<'a>(
    band: BandNo,
    at: u32,
    count: u32,
    code: u16,
    position: u32,
    arg: &'a [u8],
    before: &'a [u8],
) -> BandOp<'a>
    ensures { shown_op result ≡ op_with band.0 at count code position arg.now before.now }
{
    BandOp {
        band,
        at,
        count,
        code,
        position,
        arg,
        before,
    }
}

/// Whether an argument has no more bytes than a record has room for, and the positions of the bytes end
/// where a blob's may.
pub fn is_paint(position: u32, count: u32, arg: &[u8]) -> bool
    requires { count ≤ 8192 }
    ensures yes { IsTrue result → IsPaint position count arg.now }
    ensures no { IsPaint position count arg.now → IsTrue result }
{
    arg.len() <= 256 && position <= 16_384_000 - count
}
