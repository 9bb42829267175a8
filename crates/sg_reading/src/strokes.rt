// What the segment records of an action leave of a blob's bytes.
ghost use Rattle.sg_reading.specs.Claims.{BytesComeBack, BandIsWritten};

/// Tells a proof that the before bytes of an action, put back the last first, give the bytes that a
/// blob had and zeros behind them; and where a record on one of its bands writes. It runs no code.
pub fn bytes_come_back()
    ensures back { BytesComeBack }
    ensures band { BandIsWritten }
{}
