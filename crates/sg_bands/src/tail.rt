// What one band looks like, and bands that are set once.
ghost use Rattle.std.specs.Prelude.{◌≡◌, ◌≢◌, ℕ, ◌∷◌, [], ◌≤◌, false, Some, slice_get, slice_index, IsTrue, IsFalse, OnOk, IfErr};
ghost use Rattle.sg_bands.specs.Parts.{HasTail};
ghost use Rattle.sg_ops.specs.Table.{Table};
ghost use Rattle.sg_reach.specs.Fault.{CountsReach, WritesNoneReach, IfBroken, OnlyBroken, IsAtPage};
ghost use Rattle.sg_reach.specs.Marks.{AreSet};
ghost use Rattle.sg_space.specs.Pages.{CanLook};
ghost use Rattle.sg_space.specs.Units.{HasAt};
ghost use Rattle.sg_space.specs.View.{OnlyReads};

use sg_alloc::Maps;
use sg_base::{BandNo, PageNo};
use sg_reach::ReachFault;
use sg_space::PageSpace;

/// Sets a band that a page names. The page is broken where there is no such band, or it was set before.
pub fn set_band(into: &mut Maps, from: PageNo, b: BandNo) -> Result<(), ReachFault>
    ensures set { OnOk result (AreSet into.old.bands into.new.bands (b.0 ∷ [])) }
    ensures pages { into.new.pages ≡ into.old.pages }
    ensures broken { IfErr result (OnlyBroken (slice_get into.old.bands b.0 ≢ Some false)) }
    ensures names { IfErr result (IsAtPage from.0) }
{
    match into.band_taken(b) {
        Some(false) => {
            into.set_band(b);
            Ok(())
        }
        _ => Err(ReachFault::Broken(from)),
    }
}

// Whether all bytes from there on are 0.
fn is_zero_from(bytes: &[u8], from: usize) -> bool
    ensures yes { IsTrue result → (k : ℕ) → from ≤ k → slice_index bytes.now k ≡ 0 }
    ensures other { IsFalse result → ¬ ((k : ℕ) → from ≤ k → slice_index bytes.now k ≡ 0) }
{
    for k in from..bytes.len() {
        if bytes[k] != 0 {
            return false;
        }
    }
    true
}

/// Looks that a band that a page names is 0 from there on.
pub fn check_band<P: PageSpace>(
    space: &mut P,
    root: PageNo,
    b: BandNo,
    from: u32,
) -> Result<(), ReachFault>
    requires { CanLook (P.view space.old) (P.view space.old).space.bands b.0 }
    ensures counts { CountsReach (P.view space.old) (P.view space.new) result }
    ensures kept { OnOk result (OnlyReads (P.view space.old) (P.view space.new)) }
    ensures read { OnOk result ((P.view space.old).Shows → HasAt (P.view space.old).space.bands.at b.0 (HasTail from)) }
    ensures broken { IfErr result (IfBroken
        ((P.view space.old).Shows → ¬ HasAt (P.view space.old).space.bands.at b.0 (HasTail from))) }
    ensures later { (t : Table) → P.later t space.old space.new }
    ensures means { (t : Table) → P.means space.old t → P.means space.new t }
    ensures writes { WritesNoneReach (P.view space.old) (P.view space.new) result }
    ensures names { IfErr result (IsAtPage root.0) }
{
    let bytes = space.band(b)?;
    if !is_zero_from(bytes, from as usize) {
        return Err(ReachFault::Broken(root));
    }
    Ok(())
}
