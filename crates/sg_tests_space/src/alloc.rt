use sg_alloc::{Maps, map_bands};
use sg_base::{BandNo, PageNo};
use std::alloc::Global;
use std::test::Fail;

// Calls of some maps, each made where it may be: a test sees plain values.
#[derive(Drop)]
struct Trial {
    maps: Maps,
}

impl Trial {
    fn new(alloc: Global, pages: u32, bands: u32) -> Result<Trial, Fail> {
        Ok(Trial {
            maps: Maps::new(alloc, pages, bands)?,
        })
    }

    fn take(&mut self) -> Option<u32> {
        if self.maps.free_pages() == 0 {
            return None;
        }
        let page = self.maps.take_page();
        Some(page.0)
    }

    fn take_band(&mut self) -> Option<u32> {
        if self.maps.free_bands() == 0 {
            return None;
        }
        let band = self.maps.take_band();
        Some(band.0)
    }

    fn free(&mut self, p: u32) -> bool {
        if self.maps.page_taken(PageNo(p)) != Some(true) {
            return false;
        }
        self.maps.free_page(PageNo(p));
        true
    }

    fn set(&mut self, p: u32) -> bool {
        if self.maps.page_taken(PageNo(p)) != Some(false) {
            return false;
        }
        self.maps.set_page(PageNo(p));
        true
    }

    // Whether the pages up to this one are taken, one after another, and then no more.
    fn takes_all(&mut self, end: u32) -> bool {
        for p in 0..end {
            if self.take() != Some(p) {
                return false;
            }
        }
        self.take().is_none()
    }

    // Whether of two pages that are freed, each once, the least one is taken. The last one is taken then by its number, once.
    fn gives_the_least(&mut self, p: u32, last: u32) -> bool {
        self.free(last)
            && self.free(p)
            && !self.free(p)
            && self.maps.free_pages() == 2
            && self.take() == Some(p)
            && self.set(last)
            && !self.set(last)
            && self.take().is_none()
    }

    // Which of these pages isn't given as the least one.
    fn first_wrong(&mut self, pages: &[u32], last: u32) -> Option<u32> {
        for p in pages {
            if !self.gives_the_least(*p, last) {
                return Some(*p);
            }
        }
        None
    }

    // What is taken of two bands and a page: a band, the page, and twice a band.
    fn takes_apart(&mut self) -> [Option<u32>; 4] {
        [
            self.take_band(),
            self.take(),
            self.take_band(),
            self.take_band(),
        ]
    }
}

// The least free page is answered at each border of the words of the row and of its summaries.
#[test]
fn the_least_free_page_is_taken(rt: HostRuntime) -> Result<(), Fail> {
    let mut maps = Trial::new(rt.alloc(), 4_200, 2)?;
    let borders = [0, 63, 64, 4_095, 4_096, 4_198];
    let taken = maps.takes_all(4_200);
    let wrong = maps.first_wrong(&borders, 4_199);
    assert!(rt; taken && wrong.is_none());
    Ok(())
}

// Pages, bands, and how many of the bands the maps of both take.
const BANDS: [(u32, u32, u32); 4] = [
    (1, 0, 1),
    (262_143, 1, 1),
    (262_144, 1, 2),
    (u32::MAX, u32::MAX, 32_768),
];

// For which of them it is another count.
fn first_other() -> Option<usize> {
    for (row, (pages, bands, want)) in BANDS.iter().enumerate() {
        if map_bands(*pages, *bands) != *want {
            return Some(row);
        }
    }
    None
}

#[test]
fn bands_are_apart_from_pages(rt: HostRuntime) -> Result<(), Fail> {
    let mut maps = Trial::new(rt.alloc(), 1, 2)?;
    let taken = maps.takes_apart();
    let page = maps.maps.page_taken(PageNo(1));
    let band = maps.maps.band_taken(BandNo(1));
    assert_eq!(rt; taken, [Some(0), Some(0), Some(1), None]);
    assert!(rt; page.is_none() && band == Some(true));
    assert_eq!(rt; first_other(), None);
    Ok(())
}
