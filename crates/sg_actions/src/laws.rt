ghost use Rattle.sg_actions.specs.Acting.{FreshIsChained};

/// Tells a proof that what a space over an engine keeps can be met: by a log without records, where the
/// system acts. It runs no code.
pub fn fresh_is_chained()
    ensures { FreshIsChained }
{}
