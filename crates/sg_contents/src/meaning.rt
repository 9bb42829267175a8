// What contents mean, and what a change of them leaves of that.
ghost use Rattle.sg_contents.specs.Claims.{ThingsAreRows, TombsAreRows, MapIsOfTable, ObjectTurns, ObjectIsMade, ObjectIsBuried, TombIsRaised, ObjectIsUnmade};

/// Tells a proof what the reading of contents has under each name, and of each tombstone. It runs no code.
pub fn contents_mean_readings()
    ensures things { ThingsAreRows }
    ensures tombs { TombsAreRows }
    ensures map { MapIsOfTable }
{}

/// Tells a proof what a change under one name leaves of the reading: what stands under the name then,
/// and that all that stands under other names, and each tombstone of those, is as before. It runs no code.
pub fn changes_keep_to_names()
    ensures turned { ObjectTurns }
    ensures made { ObjectIsMade }
    ensures buried { ObjectIsBuried }
    ensures raised { TombIsRaised }
    ensures unmade { ObjectIsUnmade }
{}
