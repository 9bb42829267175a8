// Rows and their bytes.
ghost use Rattle.sg_catalog.specs.Row.{AreSpelled};

/// Says that only what is spelled is read: a cell that is read as a row has that row's bytes, and the row is one
/// that a caller may have.
pub fn rows_are_spelled()
    ensures { AreSpelled }
{}
