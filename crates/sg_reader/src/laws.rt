// What a state of all pages and bands reads as.
ghost use Rattle.sg_reader.specs.Claims.{OneReading, ReadingIsDecided, ReaderIsThere, AlikeIsRead, TakenOffIsAlike};

/// Tells a proof that a space has at most one reading, that it is decided what a state reads as, that a
/// state that can't be told from another one by who reads it has its reading, and that what an action that
/// was taken off left is such a state. It runs no code.
pub fn readings_are_told()
    ensures one { OneReading }
    ensures decided { ReadingIsDecided }
    ensures reader { ReaderIsThere }
    ensures alike { AlikeIsRead }
    ensures taken_off { TakenOffIsAlike }
{}
