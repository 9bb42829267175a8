ghost use Rattle.sg_base.specs.Bytes.{IsBytes};

/// Tells a proof that each element of `xs` is below 256, as the undo law asks of an item and an
/// argument. It runs no code.
pub fn are_bytes(xs: &[u8])
    ensures { IsBytes xs.now }
{}
