// What is presumed of a disk, for proofs alone.
ghost use Rattle.std.specs.Prelude.{⊤};

use crate::{Disk, Fuse, MemDisk, Origin, Unmarked};
use std::marker::Brand;

/// A disk of which something is presumed, for proofs alone. What a store promises of its contents it promises
/// where this holds; it serves, and is safe, whether or not it does.
pub trait Presumed: Disk {
    /// What is presumed, as that what it held when it was handed over is a store. Nothing is, but for a fuse.
    ghost presumed: { Type 0 };
}

/// A mark of fuses that says what is presumed of the disk inside. A program that is handed any disk marks its
/// fuse by a premise of its promises, and needn't know whether that holds.
pub trait Presumes {
    ghost presumed: { Type 0 };
}

impl Presumes for Brand {
    ghost presumed = { ⊤ };
}

impl Presumes for Unmarked {
    ghost presumed = { ⊤ };
}

impl<D: Disk, O: Origin + Presumes> Presumed for Fuse<D, O> {
    ghost presumed = { O.presumed };
}

impl Presumed for MemDisk {
    ghost presumed = { ⊤ };
}
