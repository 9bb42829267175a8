ghost use Rattle.sg_once.specs.Claims.{ArrayIsDecided, BlobIsDecided, BucketIsDecided, CatalogIsDecided};

/// Tells a proof that it is decided whether an array, a blob, a bucket or a catalogue stands in some pages
/// and bands: there is one, or there can be none. It runs no code.
pub fn structures_are_decided()
    ensures array { ArrayIsDecided }
    ensures blob { BlobIsDecided }
    ensures bucket { BucketIsDecided }
    ensures catalog { CatalogIsDecided }
{}
