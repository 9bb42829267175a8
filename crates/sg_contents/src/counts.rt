// How many pages and bands are free.
ghost use Rattle.sg_contents.specs.Claims.{TurnedIsCounted, PlaceIsCounted, MadeIsCounted, UnmadeIsCounted, NothingIsLost};

/// Tells a proof that behind each kind of change there are as many pages and bands as those that are free
/// and those that the contents and the map have. It runs no code.
pub fn changes_are_counted()
    ensures turned { TurnedIsCounted }
    ensures place { PlaceIsCounted }
    ensures made { MadeIsCounted }
    ensures unmade { UnmadeIsCounted }
{}

/// Tells a proof that no page and no band is taken that isn't reached, but for the bands of the map,
/// where as many are free as the contents leave. It runs no code.
pub fn nothing_is_lost()
    ensures lost { NothingIsLost }
{}
