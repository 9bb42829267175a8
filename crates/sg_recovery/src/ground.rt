ghost use Rattle.sg_recovery.specs.Setting.{Setting};
ghost use Rattle.sg_recovery.specs.Alike.{AlikePages};

/// What the recovery of a log rests on: pages and changes of them, what is read from them, notes and
/// verbs. A caller's proof picks it.
pub trait Ground {
    ghost setting: { Setting };
}

/// The same, with which of the pages can't be told apart by what is read, for each action.
pub trait Likeness {
    ghost pages: { AlikePages };
}
