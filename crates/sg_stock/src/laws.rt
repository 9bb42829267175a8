ghost use Rattle.sg_stock.specs.Laws.{ContentsObeyStock, BodyIsBounded, BoundsRise};

/// Tells a proof how much room contents leave, by their stock. It runs no code.
pub fn objects_leave_room()
    ensures obeys { ContentsObeyStock }
    ensures body { BodyIsBounded }
    ensures rises { BoundsRise }
{}
