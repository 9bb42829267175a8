ghost use Rattle.std.specs.Prelude.{◌≡◌, ℕ, ◌+◌, ◌^◌, ◌<◌, ◌≤◌, Some, true, false, length, slice_get};
ghost use Rattle.sg_alloc.specs.Flags.{free_of};

use crate::stock::{MemBand, MemPage, new_bands, new_pages};
use crate::{PageSpace, SpaceFault};
use sg_alloc::{Maps, map_bands};
use sg_base::{BandNo, OutOfMemory, PageNo, PageOp, SlotView};
use sg_ops::Ops;
use std::alloc::Global;

/// Pages and bands in memory. It tells its contents, knows no actions and no log, and never fails.
#[derive(Drop)]
pub struct MemSpace {
    pages: Vec<MemPage>,
    bands: Vec<MemBand>,
    maps: Maps,
    ghost page_flags: { length maps.pages ≡ length pages.items },
    ghost band_flags: { length maps.bands ≡ length bands.items },
    ghost few_pages: { length pages.items ≤ 1048576 },
    ghost few_bands: { length bands.items < 2 ^ 32 },
}

// Takes the first bands, which are free.
fn take_first_bands(maps: &mut Maps, count: u32)
    requires { (b : ℕ) → b < count → slice_get maps.old.bands b ≡ Some false }
    ensures taken { (b : ℕ) → b < count → slice_get maps.new.bands b ≡ Some true }
    ensures others { (b : ℕ) → count ≤ b → slice_get maps.new.bands b ≡ slice_get maps.old.bands b }
    ensures size { length maps.new.bands ≡ length maps.old.bands }
    ensures free { free_of maps.new.bands + count ≡ free_of maps.old.bands }
    ensures pages { maps.new.pages ≡ maps.old.pages }
{
    for b in 0..count {
        maps.set_band(BandNo(b));
    }
}

impl MemSpace {
    ghost use Rattle.std.specs.Prelude.{◌<◌, ◌↔◌, IfOk, IsTrue, IsSome};
    ghost use Rattle.sg_alloc.specs.Flags.{map_bands_of};
    ghost use Rattle.std.specs.Bool.{OnTrue, OnFalse};
    ghost use Rattle.sg_base.specs.Op.{op_of};
    ghost use Rattle.sg_ops.specs.Steps.{step};
    ghost use Rattle.sg_ops.specs.Table.{table_of};
    ghost use Rattle.sg_space.specs.Units.{HasAt, IsChanged};
    ghost use Rattle.sg_space.specs.Guarded.{CanBeDone};
    ghost use Rattle.sg_space.specs.Memory.{space_of, IsNew};

    /// A space of so many pages and bands. Page 0 is taken, as an empty page of kind 1, and so are the
    /// bands of an allocation map, the first ones; all else is free. `OutOfMemory` where memory is
    /// refused; no later call takes any.
    pub fn new(alloc: Global, pages: u32, bands: u32) -> Result<MemSpace, OutOfMemory>
        requires page { 0 < pages }
        requires few { pages ≤ 1048576 }
        requires bands { map_bands_of pages bands < bands }
        ensures { IfOk result (λ s. IsNew (space_of s) pages bands) }
    {
        let mut maps = Maps::new(alloc, pages, bands)?;
        maps.set_page(PageNo(0));
        take_first_bands(&mut maps, map_bands(pages, bands));
        Ok(MemSpace {
            pages: new_pages(alloc, pages)?,
            bands: new_bands(alloc, bands)?,
            maps,
        })
    }

    /// Whether the page is there and taken.
    pub fn has_page(&self, p: PageNo) -> bool
        ensures { IsTrue result ↔ IsSome ((space_of self.now).pages.at p.0) }
    {
        matches!(self.maps.page_taken(p), Some(true))
    }

    /// Whether the band is there and taken.
    pub fn has_band(&self, b: BandNo) -> bool
        ensures { IsTrue result ↔ IsSome ((space_of self.now).bands.at b.0) }
    {
        matches!(self.maps.band_taken(b), Some(true))
    }

    // Does an operation to a taken page, if it can be done, and says whether it did.
    pub(crate) fn try_change(&mut self, ops: &Ops, p: PageNo, op: &PageOp<'_>) -> bool
        requires { IsSome ((space_of self.old).pages.at p.0) }
        ensures can { IsTrue result ↔ HasAt (space_of self.old).pages.at p.0
            (CanBeDone (table_of record_meaning range_meaning ops.now) (op_of op.now)) }
        ensures did { OnTrue result (IsChanged (space_of self.old).pages (space_of self.new).pages p.0
            (step (table_of record_meaning range_meaning ops.now) (op_of op.now))) }
        ensures bands { (space_of self.new).bands ≡ (space_of self.old).bands }
        ensures same { OnFalse result (space_of self.new ≡ space_of self.old) }
    {
        let page = &mut self.pages[p.0 as usize];
        page.try_change(ops, op)
    }
}

impl PageSpace for MemSpace {
    ghost use Rattle.std.specs.Prelude.{◌≡◌, ◌+◌, ◌≤◌, ⊤, IsOk, OnOk};
    ghost use Rattle.sg_space.specs.View.{Counts};
    ghost use Rattle.sg_space.specs.Pages.{CanLook, Freed};
    ghost use Rattle.sg_space.specs.Bands.{FreedBand};
    ghost use Rattle.sg_space.specs.Memory.{memory_view, space_of};
    ghost use Rattle.sg_space.specs.Fit.{memory_fits};
    ghost use Rattle.sg_space.specs.Flagged.{units_exact};

    ghost view = { memory_view };

    ghost later = { λ t a b. ⊤ };

    ghost means = { λ s t. ⊤ };

    // It tells all, so that the trait's condition can't be met here: it wants nothing.
    fn broken(&mut self) -> SpaceFault
        ensures answer { result ≡ SpaceFault.Disk }
        ensures unchanged { space_of self.new ≡ space_of self.old }
    {
        SpaceFault::Disk
    }

    fn pages(&self) -> u32 {
        self.pages.len() as u32
    }

    fn free_pages(&self) -> u32 {
        self.maps.free_pages()
    }

    fn free_bands(&self) -> u32 {
        self.maps.free_bands()
    }

    fn page(&mut self, p: PageNo) -> Result<SlotView<'_>, SpaceFault> {
        let page = &self.pages[p.0 as usize];
        Ok(page.view())
    }

    fn change(&mut self, ops: &Ops, p: PageNo, op: &PageOp<'_>) -> Result<(), SpaceFault> {
        let changed = &mut self.pages[p.0 as usize];
        changed.change(ops, op);
        Ok(())
    }

    fn take_page(&mut self, kind: u8) -> Result<PageNo, SpaceFault> {
        let p = self.maps.take_page();
        let page = &mut self.pages[p.0 as usize];
        page.format(kind);
        Ok(p)
    }

    // The page's bytes stay as they were.
    fn free_page(&mut self, p: PageNo) -> Result<(), SpaceFault>
        requires { CanLook (memory_view self.old) (space_of self.old).pages p.0 }
        ensures counts { Counts (memory_view self.old) (memory_view self.new) result }
        ensures few { (memory_view self.new).records ≤ (memory_view self.old).records + 1 }
        ensures did { OnOk result (Freed (memory_view self.old) (memory_view self.new) p.0) }
        ensures done { IsOk result }
        ensures bytes { self.new.pages.items ≡ self.old.pages.items }
    {
        self.maps.free_page(p);
        Ok(())
    }

    fn band(&mut self, b: BandNo) -> Result<&[u8], SpaceFault> {
        let band = &self.bands[b.0 as usize];
        Ok(band.bytes())
    }

    fn write_band(&mut self, b: BandNo, at: u32, bytes: &[u8]) -> Result<(), SpaceFault> {
        let band = &mut self.bands[b.0 as usize];
        band.write(at, bytes);
        Ok(())
    }

    fn paint_band(
        &mut self,
        ops: &Ops,
        b: BandNo,
        at: u32,
        count: u32,
        code: u16,
        position: u32,
        arg: &[u8],
    ) -> Result<(), SpaceFault> {
        let band = &mut self.bands[b.0 as usize];
        band.paint(ops, at, count, code, position, arg);
        Ok(())
    }

    fn take_band(&mut self) -> Result<BandNo, SpaceFault> {
        let b = self.maps.take_band();
        let band = &mut self.bands[b.0 as usize];
        band.clear();
        Ok(b)
    }

    // The band's bytes stay as they were.
    fn free_band(&mut self, b: BandNo) -> Result<(), SpaceFault>
        requires { CanLook (memory_view self.old) (space_of self.old).bands b.0 }
        ensures counts { Counts (memory_view self.old) (memory_view self.new) result }
        ensures few { (memory_view self.new).records ≤ (memory_view self.old).records + 1 }
        ensures did { OnOk result (FreedBand (memory_view self.old) (memory_view self.new) b.0) }
        ensures done { IsOk result }
        ensures bytes { self.new.bands.items ≡ self.old.bands.items }
    {
        self.maps.free_band(b);
        Ok(())
    }

    ghost later_same = { λ t s. tt };

    ghost later_then = { λ t a b c f g. tt };

    ghost told_shows = { λ s t. t };

    ghost few_pages = { λ s t. s.few_pages };

    ghost pages_fit = { λ s t p sheet is. memory_fits s p sheet is };

    ghost pages_exact = { λ s t. units_exact _ s.maps.pages s.pages.items s.page_flags };

    ghost bands_exact = { λ s t. units_exact _ s.maps.bands s.bands.items s.band_flags };
}
