ghost use Rattle.std.specs.Prelude.{◌≡◌, ◌+◌, ◌*◌, ◌/◌, ◌<◌, ◌≤◌, true, false, Some, replicate, slice_get, slice_set, IfOk};
ghost use Rattle.sg_alloc.specs.Flags.{free_of, map_bands_of, IsLeastFree};

use crate::map::Map;
use sg_base::{BandNo, OutOfMemory, PageNo};
use std::alloc::Global;

/// How many bits a band holds.
const BAND_BITS: u64 = 262_144;

/// How many bands an allocation map of so many pages and bands takes: a bit for each.
pub fn map_bands(pages: u32, bands: u32) -> u32
    ensures { result ≡ map_bands_of pages bands }
{
    ((pages as u64 + bands as u64 + (BAND_BITS - 1)) / BAND_BITS) as u32
}

/// Which pages and bands of a store are taken. Contracts see a flag for each page and each band,
/// from number 0 on.
#[derive(Drop)]
pub struct Maps {
    pages: Map,
    bands: Map,
}

impl Maps {
    /// So many pages and bands, all of them free. `OutOfMemory` where memory is refused; no other
    /// call takes any.
    pub fn new(alloc: Global, pages: u32, bands: u32) -> Result<Maps, OutOfMemory>
        ensures pages { IfOk result (λ m. m.pages ≡ replicate pages false) }
        ensures bands { IfOk result (λ m. m.bands ≡ replicate bands false) }
    {
        Ok(Maps {
            pages: Map::new(alloc, pages)?,
            bands: Map::new(alloc, bands)?,
        })
    }

    /// Takes the least free page.
    pub fn take_page(&mut self) -> PageNo
        requires { 0 < free_of self.old.pages }
        ensures least { IsLeastFree self.old.pages result.0 }
        ensures pages { self.new.pages ≡ slice_set self.old.pages result.0 true }
        ensures bands { self.new.bands ≡ self.old.bands }
    {
        PageNo(self.pages.take())
    }

    /// Takes the least free band.
    pub fn take_band(&mut self) -> BandNo
        requires { 0 < free_of self.old.bands }
        ensures least { IsLeastFree self.old.bands result.0 }
        ensures bands { self.new.bands ≡ slice_set self.old.bands result.0 true }
        ensures pages { self.new.pages ≡ self.old.pages }
    {
        BandNo(self.bands.take())
    }

    /// Takes this page, which is free.
    pub fn set_page(&mut self, p: PageNo)
        requires { slice_get self.old.pages p.0 ≡ Some false }
        ensures pages { self.new.pages ≡ slice_set self.old.pages p.0 true }
        ensures bands { self.new.bands ≡ self.old.bands }
    {
        self.pages.set(p.0);
    }

    /// Takes this band, which is free.
    pub fn set_band(&mut self, b: BandNo)
        requires { slice_get self.old.bands b.0 ≡ Some false }
        ensures bands { self.new.bands ≡ slice_set self.old.bands b.0 true }
        ensures pages { self.new.pages ≡ self.old.pages }
    {
        self.bands.set(b.0);
    }

    /// Frees this page, which is taken.
    pub fn free_page(&mut self, p: PageNo)
        requires { slice_get self.old.pages p.0 ≡ Some true }
        ensures pages { self.new.pages ≡ slice_set self.old.pages p.0 false }
        ensures bands { self.new.bands ≡ self.old.bands }
    {
        self.pages.clear(p.0);
    }

    /// Frees this band, which is taken.
    pub fn free_band(&mut self, b: BandNo)
        requires { slice_get self.old.bands b.0 ≡ Some true }
        ensures bands { self.new.bands ≡ slice_set self.old.bands b.0 false }
        ensures pages { self.new.pages ≡ self.old.pages }
    {
        self.bands.clear(b.0);
    }

    /// How many pages are free.
    pub fn free_pages(&self) -> u32
        ensures { result ≡ free_of self.now.pages }
    {
        self.pages.free()
    }

    /// How many bands are free.
    pub fn free_bands(&self) -> u32
        ensures { result ≡ free_of self.now.bands }
    {
        self.bands.free()
    }

    /// Whether this page is taken, and `None` exactly where there is no such page.
    pub fn page_taken(&self, p: PageNo) -> Option<bool>
        ensures { result ≡ slice_get self.now.pages p.0 }
    {
        self.pages.get(p.0)
    }

    /// Whether this band is taken, and `None` exactly where there is no such band.
    pub fn band_taken(&self, b: BandNo) -> Option<bool>
        ensures { result ≡ slice_get self.now.bands b.0 }
    {
        self.bands.get(b.0)
    }
}
