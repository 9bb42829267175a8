ghost use Rattle.std.specs.Prelude.{◌≡◌, ℕ, ◌+◌, ◌≤◌, ◌↔◌, ◌⊎◌, List, length};
ghost use Rattle.sg_base.specs.Overwritten.{overwritten, IsSameOutside};
ghost use Rattle.sg_segment.specs.Runs.{IsMarked, IsWithin};

use crate::dirty::Dirty;
use sg_base::BAND_SIZE;

/// How many bytes a window has: as many as a band, as a number of the type of offsets in one.
pub const WINDOW: u32 = BAND_SIZE as u32;

/// Sets the bytes of `window` from byte `at` on to `bytes`, without a look at what stood there, and
/// marks exactly these.
pub fn blind_write(window: &mut [u8], dirty: &mut Dirty, at: u32, bytes: &[u8])
    requires window { length window.old ≤ WINDOW }
    requires fits { at + length bytes.now ≤ length window.old }
    ensures written { window.new ≡ overwritten window.old at bytes.now }
    ensures blind { (other : List ℕ) → IsSameOutside at (length bytes.now) window.old other → window.new ≡ overwritten other at bytes.now }
    ensures marked { (k : ℕ) → IsMarked dirty.new k ↔ (IsMarked dirty.old k ⊎ IsWithin at (length bytes.now) k) }
    ensures marks { length dirty.new ≡ WINDOW }
{
    let start = at as usize;
    window[start..start + bytes.len()].copy_from_slice(bytes);
    dirty.mark(at, bytes.len() as u32);
}
