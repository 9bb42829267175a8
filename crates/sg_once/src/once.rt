ghost use Rattle.sg_once.specs.Claims.{ArrayIsOnce, BlobIsOnce, BucketIsOnce, CatalogIsOnce};

/// Tells a proof that the same pages and bands hold one array at most at a root, one blob, one bucket and
/// one catalogue. It runs no code.
pub fn structures_stand_once()
    ensures array { ArrayIsOnce }
    ensures blob { BlobIsOnce }
    ensures bucket { BucketIsOnce }
    ensures catalog { CatalogIsOnce }
{}
