// What an action has freed is given back at its end.
ghost use Rattle.std.specs.Prelude.{◌≡◌};
ghost use Rattle.sg_record.specs.Changes.Change.{Page, SegOp};
ghost use Rattle.sg_record.specs.Shown.{shown_change, shown_page, shown_op};
ghost use Rattle.sg_actions.specs.Changes.{meaning};
ghost use Rattle.sg_actions.specs.Taken.{AreFlags, AreForgotten, IsUntaken, IsUntakenBand, is_there};
ghost use Rattle.sg_actions.specs.Calls.{AreSettled};

use sg_alloc::Maps;
use sg_base::{BandNo, PageNo};
use sg_record::{BandOp, Change, PageChange};

/// Frees the pages that are marked as freed, and marks none.
pub fn settle_pages(maps: &mut Maps, unfreed: &mut Maps)
    requires { AreFlags maps.old.pages unfreed.old.pages }
    ensures pages { AreSettled maps.old.pages unfreed.old.pages maps.new.pages unfreed.new.pages }
    ensures bands { maps.new.bands ≡ maps.old.bands }
    ensures unfreed { unfreed.new.bands ≡ unfreed.old.bands }
{
    'freed: while unfreed.free_pages() > 0 {
        let p = unfreed.take_page();
        maps.free_page(p);
    }
}

/// The same of bands.
pub fn settle_bands(maps: &mut Maps, unfreed: &mut Maps)
    requires { AreFlags maps.old.bands unfreed.old.bands }
    ensures bands { AreSettled maps.old.bands unfreed.old.bands maps.new.bands unfreed.new.bands }
    ensures pages { maps.new.pages ≡ maps.old.pages }
    ensures unfreed { unfreed.new.pages ≡ unfreed.old.pages }
{
    'freed: while unfreed.free_bands() > 0 {
        let b = unfreed.take_band();
        maps.free_band(b);
    }
}

/// Marks no page as freed.
pub fn forget_pages(unfreed: &mut Maps)
    ensures pages { AreForgotten unfreed.old.pages unfreed.new.pages }
    ensures bands { unfreed.new.bands ≡ unfreed.old.bands }
{
    'freed: while unfreed.free_pages() > 0 {
        unfreed.take_page();
    }
}

/// Marks no band as freed.
pub fn forget_bands(unfreed: &mut Maps)
    ensures bands { AreForgotten unfreed.old.bands unfreed.new.bands }
    ensures pages { unfreed.new.pages ≡ unfreed.old.pages }
{
    'freed: while unfreed.free_bands() > 0 {
        unfreed.take_band();
    }
}

// Whether the page is taken, and isn't marked as freed.
#[tactic(auto, using(crate::proofs::Flags::set_is))]
fn is_there(maps: &Maps, unfreed: &Maps, p: PageNo) -> bool
    ensures { result ≡ is_there maps.now.pages unfreed.now.pages p.0 }
{
    maps.page_taken(p).unwrap_or(false) && unfreed.page_taken(p).unwrap_or(false)
}

// Frees a page that is there, where the change took it.
fn untake_page(maps: &mut Maps, unfreed: &Maps, c: &PageChange<'_>)
    requires { AreFlags maps.old.pages unfreed.now.pages }
    ensures pages { IsUntaken maps.old.pages unfreed.now.pages maps.new.pages (meaning (Page (shown_page c.now))) }
    ensures bands { maps.new.bands ≡ maps.old.bands }
{
    if c.operation != 1 {
        return;
    }
    if !is_there(maps, unfreed, c.page) {
        return;
    }
    maps.free_page(c.page);
}

// Whether the band is taken, and isn't marked as freed.
#[tactic(auto, using(crate::proofs::Flags::set_is))]
fn is_band_there(maps: &Maps, unfreed: &Maps, b: BandNo) -> bool
    ensures { result ≡ is_there maps.now.bands unfreed.now.bands b.0 }
{
    maps.band_taken(b).unwrap_or(false) && unfreed.band_taken(b).unwrap_or(false)
}

// Frees a band that is there, where the change took it.
fn untake_band(maps: &mut Maps, unfreed: &Maps, c: &BandOp<'_>)
    requires { AreFlags maps.old.bands unfreed.now.bands }
    ensures bands { IsUntakenBand maps.old.bands unfreed.now.bands maps.new.bands (meaning (SegOp (shown_op c.now))) }
    ensures pages { maps.new.pages ≡ maps.old.pages }
{
    if !c.before.is_empty() {
        return;
    }
    if !is_band_there(maps, unfreed, c.band) {
        return;
    }
    maps.free_band(c.band);
}

/// Frees a page or a band that is there, where the change took it.
pub fn untake(maps: &mut Maps, unfreed: &Maps, change: &Change<'_>)
    requires pages { AreFlags maps.old.pages unfreed.now.pages }
    requires bands { AreFlags maps.old.bands unfreed.now.bands }
    ensures pages { IsUntaken maps.old.pages unfreed.now.pages maps.new.pages (meaning (shown_change change.now)) }
    ensures bands { IsUntakenBand maps.old.bands unfreed.now.bands maps.new.bands (meaning (shown_change change.now)) }
{
    match change {
        Change::Page(c) => untake_page(maps, unfreed, c),
        Change::SegWrite(_) => {}
        Change::SegOp(c) => untake_band(maps, unfreed, c),
    }
}
