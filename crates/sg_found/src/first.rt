// What is taken before a walk.
ghost use Rattle.std.specs.Prelude.{◌≡◌, ◌<◌, ◌≤◌, ◌+◌, ℕ, true, false, length, slice_get, Some};
ghost use Rattle.sg_alloc.specs.Flags.{free_of, map_bands_of};
ghost use Rattle.sg_walked.specs.Walked.{AreFirst};

use sg_alloc::{Maps, map_bands};
use sg_base::{BandNo, PageNo};

// Frees all pages.
fn clear_pages(maps: &mut Maps, pages: u32)
    requires { length maps.old.pages ≡ pages }
    ensures free { (k : ℕ) → k < pages → slice_get maps.new.pages k ≡ Some false }
    ensures size { length maps.new.pages ≡ pages }
    ensures bands { maps.new.bands ≡ maps.old.bands }
{
    for p in 0..pages {
        if maps.page_taken(PageNo(p)).unwrap_or(false) {
            maps.free_page(PageNo(p));
        }
    }
}

// Frees all bands.
fn clear_bands(maps: &mut Maps, bands: u32)
    requires { length maps.old.bands ≡ bands }
    ensures free { (k : ℕ) → k < bands → slice_get maps.new.bands k ≡ Some false }
    ensures size { length maps.new.bands ≡ bands }
    ensures pages { maps.new.pages ≡ maps.old.pages }
{
    for b in 0..bands {
        if maps.band_taken(BandNo(b)).unwrap_or(false) {
            maps.free_band(BandNo(b));
        }
    }
}

// Takes the first bands, which are free.
fn take_first_bands(maps: &mut Maps, count: u32)
    requires { (b : ℕ) → b < count → slice_get maps.old.bands b ≡ Some false }
    ensures taken { (b : ℕ) → b < count → slice_get maps.new.bands b ≡ Some true }
    ensures others { (b : ℕ) → count ≤ b → slice_get maps.new.bands b ≡ slice_get maps.old.bands b }
    ensures size { length maps.new.bands ≡ length maps.old.bands }
    ensures free { free_of maps.new.bands + count ≡ free_of maps.old.bands }
    ensures pages { maps.new.pages ≡ maps.old.pages }
{
    for b in 0..count {
        maps.set_band(BandNo(b));
    }
}

/// Takes page 0 and the bands of the allocation map, and frees all else.
pub fn take_first(maps: &mut Maps, pages: u32, bands: u32)
    requires pages { length maps.old.pages ≡ pages }
    requires bands { length maps.old.bands ≡ bands }
    requires first { 0 < pages }
    requires map { map_bands_of pages bands ≤ bands }
    ensures { AreFirst pages bands maps.new }
{
    clear_pages(maps, pages);
    clear_bands(maps, bands);
    maps.set_page(PageNo(0));
    take_first_bands(maps, map_bands(pages, bands));
}
