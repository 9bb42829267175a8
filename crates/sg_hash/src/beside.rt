// Hash tables side by side, and how many pages one has.
ghost use Rattle.sg_hash.specs.Beside.{StandApart, KeepsBound, KeepsOnce};

/// Says that tables side by side stay apart: what makes a table, changes one or frees one leaves each other one as it
/// was, and no page is of both.
pub fn stand_apart()
    ensures { StandApart }
{}

/// Says how many pages a table has at most: one, those of a directory for as many buckets as its peak of entry bytes
/// allows, one for each of these, and one for each entry.
pub fn keep_bound()
    ensures { KeepsBound }
{}

/// Says that each key is that of one entry of the whole table.
pub fn keep_once()
    ensures { KeepsOnce }
{}
