ghost use Rattle.sg_store.specs.Breaks.{OwnCountRose};
ghost use Rattle.sg_store.specs.Engine.{Sizes};

use crate::engine::Engine;

/// Tells a proof that where a call ends the value which counts faults, a count that rose is the disk's own,
/// if the disk tells what it holds and the image that opening read stands for objects. It runs no code.
pub fn breaks_dont_count<E: Engine>()
    ensures { (z : Sizes) → OwnCountRose (E.basis z) }
{}
