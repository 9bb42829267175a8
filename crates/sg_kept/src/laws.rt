// What is kept of a log.
ghost use Rattle.std.specs.Prelude.{◌≡◌, ◌<◌, ◌≤◌, ◌++◌, ℕ, List};
ghost use Rattle.sg_recovery.specs.Chains.{Formed};
ghost use Rattle.sg_recovery.specs.Formed.{IsLog};
ghost use Rattle.sg_recovery.specs.Log.{Numbered, tally};
ghost use Rattle.sg_recovery.specs.TakeOff.{AreOwned};
ghost use Rattle.sg_kept.specs.Kept.{IsParted, IsPoint};

/// A law: what is kept of a log says what all of it says, from a point on that each transaction which goes on
/// and each open change has ahead of it; and so it stays with whatever is appended.
pub fn kept_says_all<C, N>()
    ensures kept { (p : ℕ) (kept gone : List (Numbered C N)) → IsParted p kept gone → AreOwned (kept ++ gone) → Formed (kept ++ gone) → IsPoint p (tally (kept ++ gone)) → tally kept ≡ tally (kept ++ gone) }
    ensures more { (more kept log : List (Numbered C N)) → tally kept ≡ tally log → tally (more ++ kept) ≡ tally (more ++ log) }
{}

/// A law: what is kept so of a formed log is a formed log, whose first byte is the point.
pub fn kept_is_formed<C, N>()
    ensures { (base p : ℕ) (kept gone : List (Numbered C N)) → base ≤ p → 0 < p → IsParted p kept gone → IsPoint p (tally (kept ++ gone)) → IsLog base (kept ++ gone) → IsLog p kept }
{}
