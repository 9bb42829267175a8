// Spaces, and states of all pages and bands.
ghost use Rattle.sg_reader.specs.Claims.{PagesAreTaken, BandsAreTaken, SpaceIsRead, StateIsRead};

/// Tells a proof that what contents reach is taken, and that a space and a state that says what the space
/// has read as the same contents. It runs no code.
pub fn spaces_read_as_states()
    ensures pages { PagesAreTaken }
    ensures bands { BandsAreTaken }
    ensures state { SpaceIsRead }
    ensures space { StateIsRead }
{}
