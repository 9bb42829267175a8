// What stands where something beside it changes.
ghost use Rattle.sg_contents.specs.Claims.{BodyIsTurned, BodyIsMade, BodyIsGone, CatalogIsTurned, FewerStand, RowsAreFew};

/// Tells a proof that where one body turns, is made or goes, or the catalogue turns, all else stands as
/// it did and nothing is reached twice; and that there are fewer rows than pages. It runs no code.
pub fn all_else_stands()
    ensures turned { BodyIsTurned }
    ensures made { BodyIsMade }
    ensures gone { BodyIsGone }
    ensures catalog { CatalogIsTurned }
    ensures fewer { FewerStand }
    ensures few { RowsAreFew }
{}
