ghost use Rattle.std.specs.Prelude.{◌≡◌, ◌+◌, ◌≤◌};
ghost use Rattle.sg_base.specs.Ends.{HasRisen};

use sg_base::{BandNo, PageNo, PageOp, SlotView};
use sg_ops::Ops;
use sg_space::{MemSpace, PageSpace, SpaceFault};

/// A space in memory of which so many calls may be made. Later ones fail, and change nothing. It counts its records, and
/// remembers what an open action of a log would know of them.
#[derive(Drop)]
pub struct StepSpace {
    space: MemSpace,
    left: u64,
    faults: u64,
    records: u64,
    // whether a change was made
    changed: bool,
    // whether a page or a band was freed
    freed: bool,
    // the band that was written last
    written: Option<u32>,
    // the code of the range operation that painted last
    painted: Option<u16>,
}

// One more fault is counted.
fn count_fault(faults: &mut u64) -> SpaceFault
    ensures answer { result ≡ SpaceFault.Disk }
    ensures risen { HasRisen faults.old faults.new }
    ensures later { faults.old ≤ faults.new }
{
    *faults = faults.saturating_add(1);
    SpaceFault::Disk
}

// So many records more are counted.
fn count_records(records: &mut u64, more: u64)
    ensures { records.new ≤ records.old + more }
{
    *records = records.saturating_add(more);
}

impl StepSpace {
    /// The same space, of which so many calls may be made.
    pub fn new(space: MemSpace, left: u64) -> StepSpace {
        StepSpace {
            space,
            left,
            faults: 0,
            records: 0,
            changed: false,
            freed: false,
            written: None,
            painted: None,
        }
    }

    /// How many calls failed.
    pub fn faults(&self) -> u64
        ensures { result ≡ self.now.faults }
    {
        self.faults
    }
}

impl PageSpace for StepSpace {
    ghost use Rattle.std.specs.Prelude.{◌≡◌};
    ghost use Rattle.sg_space.specs.Fit.{memory_fits};
    ghost use Rattle.sg_space.specs.Flagged.{units_exact};
    ghost use Rattle.sg_tests_steps.specs.Steps.{steps_view, Later, Means, later_same, later_then};

    ghost view = { steps_view };

    ghost later = { Later };

    ghost means = { Means };

    // It tells all, so that the trait's condition can't be met here.
    fn broken(&mut self) -> SpaceFault
        ensures answer { result ≡ SpaceFault.Disk }
    {
        count_fault(&mut self.faults)
    }

    fn pages(&self) -> u32 {
        self.space.pages()
    }

    fn free_pages(&self) -> u32 {
        self.space.free_pages()
    }

    fn free_bands(&self) -> u32 {
        self.space.free_bands()
    }

    fn page(&mut self, p: PageNo) -> Result<SlotView<'_>, SpaceFault> {
        if self.left == 0 {
            return Err(count_fault(&mut self.faults));
        }
        self.left -= 1;
        let found = self.space.page(p)?;
        Ok(found)
    }

    fn change(&mut self, ops: &Ops, p: PageNo, op: &PageOp<'_>) -> Result<(), SpaceFault> {
        if self.left == 0 {
            return Err(count_fault(&mut self.faults));
        }
        self.left -= 1;
        self.changed = true;
        count_records(&mut self.records, 1);
        self.space.change(ops, p, op)?;
        Ok(())
    }

    fn take_page(&mut self, kind: u8) -> Result<PageNo, SpaceFault> {
        if self.left == 0 {
            return Err(count_fault(&mut self.faults));
        }
        self.left -= 1;
        self.changed = true;
        count_records(&mut self.records, 2);
        let found = self.space.take_page(kind)?;
        Ok(found)
    }

    fn free_page(&mut self, p: PageNo) -> Result<(), SpaceFault> {
        if self.left == 0 {
            return Err(count_fault(&mut self.faults));
        }
        self.left -= 1;
        self.changed = true;
        self.freed = true;
        count_records(&mut self.records, 1);
        self.space.free_page(p)?;
        Ok(())
    }

    fn band(&mut self, b: BandNo) -> Result<&[u8], SpaceFault> {
        if self.left == 0 {
            return Err(count_fault(&mut self.faults));
        }
        self.left -= 1;
        let found = self.space.band(b)?;
        Ok(found)
    }

    fn write_band(&mut self, b: BandNo, at: u32, bytes: &[u8]) -> Result<(), SpaceFault> {
        if self.left == 0 {
            return Err(count_fault(&mut self.faults));
        }
        self.left -= 1;
        self.changed = true;
        self.written = Some(b.0);
        count_records(&mut self.records, 1);
        self.space.write_band(b, at, bytes)?;
        Ok(())
    }

    fn paint_band(
        &mut self,
        ops: &Ops,
        b: BandNo,
        at: u32,
        count: u32,
        code: u16,
        position: u32,
        arg: &[u8],
    ) -> Result<(), SpaceFault> {
        if self.left == 0 {
            return Err(count_fault(&mut self.faults));
        }
        self.left -= 1;
        self.changed = true;
        self.written = Some(b.0);
        self.painted = Some(code);
        count_records(&mut self.records, 1);
        self.space
            .paint_band(ops, b, at, count, code, position, arg)?;
        Ok(())
    }

    fn take_band(&mut self) -> Result<BandNo, SpaceFault> {
        if self.left == 0 {
            return Err(count_fault(&mut self.faults));
        }
        self.left -= 1;
        self.changed = true;
        count_records(&mut self.records, 5);
        let found = self.space.take_band()?;
        self.written = Some(found.0);
        Ok(found)
    }

    fn free_band(&mut self, b: BandNo) -> Result<(), SpaceFault> {
        if self.left == 0 {
            return Err(count_fault(&mut self.faults));
        }
        self.left -= 1;
        self.changed = true;
        self.freed = true;
        count_records(&mut self.records, 1);
        self.space.free_band(b)?;
        Ok(())
    }

    ghost later_same = { λ t s. later_same t s };

    ghost later_then = { λ t a b c f g. later_then t a b c f g };

    ghost told_shows = { λ s t. t };

    ghost few_pages = { λ s t. s.space.few_pages };

    ghost pages_fit = { λ s t p sheet is. memory_fits s.space p sheet is };

    ghost pages_exact = { λ s t. units_exact _ s.space.maps.pages s.space.pages.items s.space.page_flags };

    ghost bands_exact = { λ s t. units_exact _ s.space.maps.bands s.space.bands.items s.space.band_flags };
}
