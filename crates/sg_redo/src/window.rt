ghost use Rattle.std.specs.Prelude.{◌≡◌, ℕ, ◌+◌, ◌≤◌, ◌↔◌, ◌⊎◌, length, IsTrue, is_some};
ghost use Rattle.sg_base.specs.Overwritten.{overwritten};
ghost use Rattle.sg_ops.specs.Table.{table_of, range_at, rendered};
ghost use Rattle.sg_redo.specs.Window.{place_of, bytes_of, IsPossible};
ghost use Rattle.sg_segment.specs.Runs.{IsMarked, IsWithin};

use sg_base::BAND_SIZE;
use sg_ops::Ops;
use sg_segment::{Dirty, blind_write};

/// One change of a band, as a record of the log says it: which bytes it writes, whatever stood
/// there.
#[derive(Clone, Copy, Debug, PartialEq, Eq)]
pub enum BandChange<'a> {
    /// Writes these bytes.
    Write {
        at: u32,
        bytes: &'a [u8],
    },
    /// Writes `count` bytes of the registered range operation with this code, whose first is the
    /// one at `position` of what the operation gives.
    Paint {
        at: u32,
        count: u32,
        code: u16,
        position: u32,
        arg: &'a [u8],
    },
}

// Writes the bytes of a range operation, and marks them.
fn paint(
    window: &mut [u8],
    dirty: &mut Dirty,
    at: u32,
    count: u32,
    code: u16,
    position: u32,
    arg: &[u8],
    ops: &Ops,
)
    requires window { length window.old ≡ BAND_SIZE }
    requires lies { at + count ≤ BAND_SIZE }
    requires known { IsTrue (is_some (range_at (table_of record_meaning range_meaning ops.now) code)) }
    requires positions { position + count ≤ 16384000 }
    ensures written { window.new ≡ overwritten window.old at (rendered (range_at (table_of record_meaning range_meaning ops.now) code) arg.now position count) }
    ensures marked { (k : ℕ) → IsMarked dirty.new k ↔ (IsMarked dirty.old k ⊎ IsWithin at count k) }
    ensures marks { length dirty.new ≡ BAND_SIZE }
{
    let start = at as usize;
    let part = &mut window[start..start + count as usize];
    ops.render(code, position, arg, part);
    dirty.mark(at, count);
}

/// Makes a change of the band that the window holds: its bytes stand there afterwards, whatever
/// stood there, and exactly these are marked besides those that were.
///
/// The window has 32,768 bytes, in which the change's bytes lie. Its operation is registered, and
/// its positions end at 16,384,000 at most.
pub fn apply_window(window: &mut [u8], dirty: &mut Dirty, change: &BandChange<'_>, ops: &Ops)
    requires window { length window.old ≡ BAND_SIZE }
    requires possible { IsPossible (table_of record_meaning range_meaning ops.now) change.now }
    ensures written { window.new ≡ overwritten window.old (place_of change.now) (bytes_of (table_of record_meaning range_meaning ops.now) change.now) }
    ensures marked { (k : ℕ) → IsMarked dirty.new k
        ↔ (IsMarked dirty.old k ⊎ IsWithin (place_of change.now) (length (bytes_of (table_of record_meaning range_meaning ops.now) change.now)) k) }
    ensures marks { length dirty.new ≡ BAND_SIZE }
{
    match *change {
        BandChange::Write { at, bytes } => blind_write(window, dirty, at, bytes),
        BandChange::Paint {
            at,
            count,
            code,
            position,
            arg,
        } => paint(window, dirty, at, count, code, position, arg, ops),
    }
}
