// The sizes that a new store is to have.
ghost use Rattle.std.specs.Prelude.{◌≡◌, true, false, Err, IsTrue, IfSome, IfOk, OnOk};
ghost use Rattle.sg_base.specs.Ends.{HasRisen};
ghost use Rattle.sg_command.specs.File.{IsTakenOf, IsAtEnd, SaysNone};
ghost use Rattle.sg_command.specs.declared.file.SizesFault.TheVariants as SizesFault;
ghost use Rattle.sg_geometry.specs.Fit.{is_fit};
ghost use Rattle.sg_commands.specs.Sized.{AreAsked};

use sg_base::Source;
use sg_command::{SizesFault, read_sizes};
use sg_geometry::Geometry;
use std::alloc::Global;

/// Those that the source says, which is read to its end, where a file says them; and else the usual ones.
pub fn asked_sizes<S: Source>(
    alloc: Global,
    by_file: bool,
    source: &mut S,
) -> Result<Geometry, SizesFault>
    ensures asked { IfOk result (AreAsked by_file (S.left source.old)) }
    ensures fit { IfOk result (λ g. IsTrue (is_fit g)) }
    ensures whole { by_file ≡ true → OnOk result (IsAtEnd (S.left source.new)) }
    ensures bad { result ≡ Err SizesFault.Bad → (by_file ≡ true) × IfSome (S.left source.old) SaysNone }
    ensures failed { result ≡ Err SizesFault.Read → (by_file ≡ true) × HasRisen (S.faults source.old) (S.faults source.new) }
    ensures quiet { OnOk result (S.faults source.new ≡ S.faults source.old) }
    ensures heeded { (result ≡ Err SizesFault.Read → ⊥) → S.faults source.new ≡ S.faults source.old }
    ensures read { IsTakenOf 65537 (S.left source.old) (S.left source.new) }
    ensures apart { by_file ≡ false → source.new ≡ source.old }
{
    if by_file {
        read_sizes(alloc, source)
    } else {
        Ok(Geometry::default())
    }
}
