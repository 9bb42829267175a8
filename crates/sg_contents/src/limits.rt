// How many slots a page may have.
ghost use Rattle.sg_contents.specs.Claims.{BodyIsLimited, CatalogIsLimited};

/// Tells a proof how many slots each page that contents reach may have. It runs no code.
pub fn pages_have_limits()
    ensures body { BodyIsLimited }
    ensures catalog { CatalogIsLimited }
{}
