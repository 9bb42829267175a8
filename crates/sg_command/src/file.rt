ghost use Rattle.std.specs.Prelude.{◌≡◌, ◌≤◌, ◌<◌, length, Err, IsTrue, IfOk, IfSome, OnOk, OnErr};
ghost use Rattle.sg_base.specs.Ends.{HasRisen};
ghost use Rattle.sg_geometry.specs.Fit.{is_fit};
ghost use Rattle.sg_command.specs.Sizes.{Says};
ghost use Rattle.sg_command.specs.File.{IsFilled, IsTakenOf, IsAtEnd, SaysNone};
ghost use Rattle.sg_command.specs.declared.file.SizesFault.TheVariants as SizesFault;

use crate::sizes::{GeometryError, parse_geometry};
use sg_base::{Failed, Source};
use sg_geometry::Geometry;
use std::alloc::{AllocError, Global};

/// Why no sizes are read from a source.
#[derive(Clone, Copy, Debug, PartialEq, Eq)]
pub enum SizesFault {
    /// The source failed.
    Read,
    /// What it gives says no fit sizes.
    Bad,
    /// There was not enough memory.
    Memory,
}

// Room for a text of the most bytes, and one more.
fn text_room(alloc: Global) -> Result<Vec<u8>, AllocError>
    ensures { IfOk result (λ v. length v.items ≡ 65537) }
{
    vec![in alloc; 0; 65_537]
}

// Reads until the room is full, or the source is at its end, and gives how many bytes that were.
fn fill<S: Source>(source: &mut S, into: &mut [u8]) -> Result<usize, Failed>
    ensures within { IfOk result (λ n. n ≤ length into.new) }
    ensures filled { IfOk result (λ n. IsFilled (S.left source.old) into.new n (S.left source.new)) }
    ensures end { IfOk result (λ n. n < length into.new → IsAtEnd (S.left source.new)) }
    ensures cut { OnErr result (IsTakenOf (length into.old) (S.left source.old) (S.left source.new)) }
    ensures later { S.faults source.old ≤ S.faults source.new }
    ensures quiet { OnOk result (S.faults source.new ≡ S.faults source.old) }
    ensures failed { OnErr result (HasRisen (S.faults source.old) (S.faults source.new)) }
{
    let mut end = 0;
    'pieces: while end < into.len() {
        let Ok(count) = source.read(&mut into[end..]) else {
            return Err(Failed);
        };
        if count == 0 {
            return Ok(end);
        }
        end += count;
    }
    Ok(end)
}

/// The sizes that a source says, which gives the text of a geometry file: those that `parse_geometry` says
/// of all that is left of it. It is read to its end, or until it has given more bytes than such a text may
/// have. Want of memory aside, it is refused as `Bad` exactly where the text says no fit sizes, and as
/// `Read` exactly where the source fails.
pub fn read_sizes<S: Source>(alloc: Global, source: &mut S) -> Result<Geometry, SizesFault>
    ensures says { IfOk result (λ g. IfSome (S.left source.old) (λ text. Says text g)) }
    ensures fit { IfOk result (λ g. IsTrue (is_fit g)) }
    ensures whole { OnOk result (IsAtEnd (S.left source.new)) }
    ensures bad { result ≡ Err SizesFault.Bad → IfSome (S.left source.old) SaysNone }
    // what is read, whatever comes of it
    ensures read { IsTakenOf 65537 (S.left source.old) (S.left source.new) }
    ensures failed { result ≡ Err SizesFault.Read → HasRisen (S.faults source.old) (S.faults source.new) }
    ensures heeded { (result ≡ Err SizesFault.Read → ⊥) → S.faults source.new ≡ S.faults source.old }
    ensures later { S.faults source.old ≤ S.faults source.new }
{
    let Ok(mut text) = text_room(alloc) else {
        return Err(SizesFault::Memory);
    };
    let Ok(count) = fill(source, text.as_mut_slice()) else {
        return Err(SizesFault::Read);
    };
    match parse_geometry(alloc, &text[..count]) {
        Ok(sizes) => Ok(sizes),
        Err(GeometryError::Bad) => Err(SizesFault::Bad),
        Err(GeometryError::Memory) => Err(SizesFault::Memory),
    }
}
