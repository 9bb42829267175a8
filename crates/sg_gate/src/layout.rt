// Where the home area has what.
ghost use Rattle.std.specs.Prelude.{◌≡◌, ◌<◌, ◌≤◌};
ghost use Rattle.sg_gate.specs.Layout.{place_at, home_at, band_at};

use sg_base::{BAND_SIZE, BandNo, PageNo};

/// The offset in the home area at which the double-write header begins, with its gate.
pub const HEADER_START: u64 = 8_192;

/// The offset of the header's count of numbers.
pub const COUNT_START: u64 = 8_193;

/// The offset in the home area at which place `k` of the double-write area begins.
pub fn place_start(k: u32) -> u64
    requires { k < 32 }
    ensures { result ≡ place_at k }
{
    12_288 + 4_096 * k as u64
}

/// The offset in the home area at which a page's home begins.
pub fn page_start(page: PageNo) -> u64
    ensures { result ≡ home_at page.0 }
{
    143_360 + 4_096 * page.0 as u64
}

/// The offset in the home area at which a band begins, where there are so many pages.
pub fn band_start(pages: u32, band: BandNo) -> u64
    ensures { result ≡ band_at pages band.0 }
{
    page_start(PageNo(pages)) + BAND_SIZE as u64 * band.0 as u64
}
