// How many pages and bands some flags are of.
ghost use Rattle.std.specs.Prelude.{◌≡◌, ◌≤◌, ◌<◌, true, false, length};
ghost use Rattle.sg_alloc.specs.Flags.{map_bands_of};

use sg_alloc::{Maps, map_bands};
use sg_base::{BandNo, PageNo};

// Whether there are so many pages.
fn has_pages(maps: &Maps, pages: u32) -> bool
    ensures yes { result ≡ true → length maps.now.pages ≡ pages }
    ensures no { result ≡ false → length maps.now.pages ≡ pages → ⊥ }
{
    let end = maps.page_taken(PageNo(pages)).is_none();
    let last = pages == 0 || maps.page_taken(PageNo(pages - 1)).is_some();
    end && last
}

// Whether there are so many bands.
fn has_bands(maps: &Maps, bands: u32) -> bool
    ensures yes { result ≡ true → length maps.now.bands ≡ bands }
    ensures no { result ≡ false → length maps.now.bands ≡ bands → ⊥ }
{
    let end = maps.band_taken(BandNo(bands)).is_none();
    let last = bands == 0 || maps.band_taken(BandNo(bands - 1)).is_some();
    end && last
}

/// Whether the flags are of so many pages and bands.
pub fn has_sizes(maps: &Maps, pages: u32, bands: u32) -> bool
    ensures pages { result ≡ true → length maps.now.pages ≡ pages }
    ensures bands { result ≡ true → length maps.now.bands ≡ bands }
    ensures no { result ≡ false → length maps.now.pages ≡ pages → length maps.now.bands ≡ bands → ⊥ }
{
    let same = has_pages(maps, pages);
    let same_bands = has_bands(maps, bands);
    same && same_bands
}

/// Whether a store may have so many pages and bands: a page, and the bands of its allocation map.
pub fn may_be(pages: u32, bands: u32) -> bool
    ensures first { result ≡ true → 0 < pages }
    ensures map { result ≡ true → map_bands_of pages bands ≤ bands }
    ensures no { result ≡ false → 0 < pages → map_bands_of pages bands ≤ bands → ⊥ }
{
    let map = map_bands(pages, bands);
    0 < pages && map <= bands
}
