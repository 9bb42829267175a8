ghost use Rattle.std.specs.Prelude.{◌≡◌, ◌+◌, ◌<◌, ◌≤◌, IsTrue, ◌↔◌, length};
ghost use Rattle.sg_base.specs.Ends.{HasRisen};
ghost use Rattle.sg_space.specs.Bands.{IsPiece};
ghost use Rattle.sg_space.specs.Memory.{space_of};

use crate::{MemSpace, PageSpace, SpaceFault};
use sg_base::{BAND_SIZE, BandNo, PageNo, PageOp, SlotView};
use sg_ops::Ops;

/// How many bytes a band has, as a number of the type of places in one.
const BAND: u32 = BAND_SIZE as u32;

/// The most positions that a range operation paints.
const MOST_POSITIONS: u32 = 16_384_000;

/// A space in memory that shows its contents and tells nothing: it asks nothing of its callers. What a
/// caller of a space that is told has to see to, it looks at itself, and it answers `Disk` and counts a
/// fault where a call can't be done.
#[derive(Drop)]
pub struct Guarded {
    space: MemSpace,
    faults: u64,
}

// One more fault is counted.
fn count_fault(faults: &mut u64) -> SpaceFault
    ensures answer { result ≡ SpaceFault.Disk }
    ensures risen { HasRisen faults.old faults.new }
    ensures later { faults.old ≤ faults.new }
{
    *faults = faults.saturating_add(1);
    SpaceFault::Disk
}

// Whether so many bytes from there on are a piece of a band.
fn is_piece(at: u32, count: usize) -> bool
    ensures { IsTrue result ↔ IsPiece at count }
{
    1 <= count && count <= 8_192 && at <= BAND && count as u32 <= BAND - at
}

impl Guarded {
    ghost use Rattle.std.specs.Prelude.{◌↔◌, IfErr, OnOk, OnErr, IsOk, IsSome};
    ghost use Rattle.sg_base.specs.Op.{op_of};
    ghost use Rattle.sg_ops.specs.Table.{table_of};
    ghost use Rattle.sg_space.specs.Bands.{IsPaintable, Painted};
    ghost use Rattle.sg_space.specs.Pages.{Changed};
    ghost use Rattle.sg_space.specs.Units.{HasAt};
    ghost use Rattle.sg_space.specs.Guarded.{inner_view, IsRefused, CanBeDone};

    /// The same space, of which nothing is told. It has had no fault.
    pub fn new(space: MemSpace) -> Guarded
        ensures space { space_of result.space ≡ space_of space }
        ensures faults { result.faults ≡ 0 }
    {
        Guarded { space, faults: 0 }
    }

    /// Does an operation to a page, if it can be done, which is what `change` does.
    pub fn try_change(&mut self, ops: &Ops, p: PageNo, op: &PageOp<'_>) -> Result<(), SpaceFault>
        ensures done { IsOk result ↔ HasAt (space_of self.old.space).pages.at p.0
            (CanBeDone (table_of record_meaning range_meaning ops.now) (op_of op.now)) }
        ensures did { OnOk result (Changed (table_of record_meaning range_meaning ops.now)
            (inner_view self.old) (inner_view self.new) p.0 (op_of op.now)) }
        ensures quiet { OnOk result (self.new.faults ≡ self.old.faults) }
        ensures answer { IfErr result (λ e. e ≡ SpaceFault.Disk) }
        ensures refused { OnErr result (IsRefused self.old self.new) }
    {
        if !self.space.has_page(p) || !self.space.try_change(ops, p, op) {
            return Err(count_fault(&mut self.faults));
        }
        Ok(())
    }

    /// Paints a piece of a band, if it can be done, which is what `paint_band` does.
    pub fn try_paint(
        &mut self,
        ops: &Ops,
        b: BandNo,
        at: u32,
        count: u32,
        code: u16,
        position: u32,
        arg: &[u8],
    ) -> Result<(), SpaceFault>
        ensures done { IsOk result ↔ IsPaintable (table_of record_meaning range_meaning ops.now)
            (inner_view self.old) b.0 at count code position arg.now }
        ensures did { OnOk result (Painted (table_of record_meaning range_meaning ops.now)
            (inner_view self.old) (inner_view self.new) b.0 at count code position arg.now) }
        ensures quiet { OnOk result (self.new.faults ≡ self.old.faults) }
        ensures answer { IfErr result (λ e. e ≡ SpaceFault.Disk) }
        ensures refused { OnErr result (IsRefused self.old self.new) }
    {
        let there = self.space.has_band(b) && is_piece(at, count as usize);
        let known = ops.has_range(code) && arg.len() <= 256;
        let ends = position <= MOST_POSITIONS && count <= MOST_POSITIONS - position;
        if !there || !known || !ends {
            return Err(count_fault(&mut self.faults));
        }
        self.space
            .paint_band(ops, b, at, count, code, position, arg)
    }

    /// How many calls failed.
    pub fn faults(&self) -> u64
        ensures { result ≡ self.now.faults }
    {
        self.faults
    }
}

impl PageSpace for Guarded {
    ghost use Rattle.std.specs.Prelude.{◌↔◌, ⊤, IfOk, IfErr, OnOk, OnErr, IsOk, IsSome};
    ghost use Rattle.std.specs.Io.BufRead.{Rests};
    ghost use Rattle.sg_space.specs.contracts.guarded.Guarded.{the_row};
    ghost use Rattle.std.specs.Borrow.{sem};
    ghost use Rattle.sg_base.specs.Sheet.{sheet_of};
    ghost use Rattle.sg_ops.specs.Table.{Table};
    ghost use Rattle.sg_space.specs.Bands.{IsWritable, Wrote, TookBand, FreedBand};
    ghost use Rattle.sg_space.specs.Pages.{Looked, Looks, Took, Freed};
    ghost use Rattle.sg_space.specs.Guarded.{guarded_view, inner_view, IsRefused};

    ghost view = { guarded_view };

    ghost later = { λ t a b. ⊤ };

    ghost means = { λ s t. ⊤ };

    fn broken(&mut self) -> SpaceFault
        ensures answer { result ≡ SpaceFault.Disk }
        ensures refused { IsRefused self.old self.new }
    {
        count_fault(&mut self.faults)
    }

    fn pages(&self) -> u32 {
        self.space.pages()
    }

    fn free_pages(&self) -> u32 {
        self.space.free_pages()
    }

    fn free_bands(&self) -> u32 {
        self.space.free_bands()
    }

    fn page(&mut self, p: PageNo) -> Result<SlotView<'_>, SpaceFault>
        ensures done { IsOk result ↔ IsSome ((space_of self.old.space).pages.at p.0) }
        ensures answer { IfErr result (λ e. e ≡ SpaceFault.Disk) }
        ensures looked { IfOk result (λ s. Looked (inner_view self.old) (space_of self.old.space).pages p.0 (sheet_of s.page.now)) }
        ensures* after { sem 𝓛 (Rests the_row self.entry (λ new.
            Looks (guarded_view self.old) (guarded_view new) ((t : Table) → ⊤) ((t : Table) → ⊤ → ⊤) result)) }
    {
        if !self.space.has_page(p) {
            return Err(count_fault(&mut self.faults));
        }
        self.space.page(p)
    }

    fn change(&mut self, ops: &Ops, p: PageNo, op: &PageOp<'_>) -> Result<(), SpaceFault> {
        self.try_change(ops, p, op)
    }

    fn take_page(&mut self, kind: u8) -> Result<PageNo, SpaceFault>
        ensures done { IsOk result ↔ (0 < (space_of self.old.space).pages.free) }
        ensures did { IfOk result (λ p. Took (inner_view self.old) (inner_view self.new) kind p.0) }
        ensures quiet { OnOk result (self.new.faults ≡ self.old.faults) }
        ensures answer { IfErr result (λ e. e ≡ SpaceFault.Disk) }
        ensures refused { OnErr result (IsRefused self.old self.new) }
    {
        if self.space.free_pages() == 0 {
            return Err(count_fault(&mut self.faults));
        }
        self.space.take_page(kind)
    }

    fn free_page(&mut self, p: PageNo) -> Result<(), SpaceFault>
        ensures done { IsOk result ↔ IsSome ((space_of self.old.space).pages.at p.0) }
        ensures did { OnOk result (Freed (inner_view self.old) (inner_view self.new) p.0) }
        ensures quiet { OnOk result (self.new.faults ≡ self.old.faults) }
        ensures answer { IfErr result (λ e. e ≡ SpaceFault.Disk) }
        ensures refused { OnErr result (IsRefused self.old self.new) }
    {
        if !self.space.has_page(p) {
            return Err(count_fault(&mut self.faults));
        }
        self.space.free_page(p)
    }

    fn band(&mut self, b: BandNo) -> Result<&[u8], SpaceFault>
        ensures done { IsOk result ↔ IsSome ((space_of self.old.space).bands.at b.0) }
        ensures answer { IfErr result (λ e. e ≡ SpaceFault.Disk) }
        ensures looked { IfOk result (λ s. Looked (inner_view self.old) (space_of self.old.space).bands b.0 s.now) }
        ensures size { IfOk result (λ s. length s.now ≡ BAND_SIZE) }
        ensures* after { sem 𝓛 (Rests the_row self.entry (λ new.
            Looks (guarded_view self.old) (guarded_view new) ((t : Table) → ⊤) ((t : Table) → ⊤ → ⊤) result)) }
    {
        if !self.space.has_band(b) {
            return Err(count_fault(&mut self.faults));
        }
        self.space.band(b)
    }

    fn write_band(&mut self, b: BandNo, at: u32, bytes: &[u8]) -> Result<(), SpaceFault>
        ensures done { IsOk result ↔ IsWritable (inner_view self.old) b.0 at (length bytes.now) }
        ensures did { OnOk result (Wrote (inner_view self.old) (inner_view self.new) b.0 at bytes.now) }
        ensures quiet { OnOk result (self.new.faults ≡ self.old.faults) }
        ensures answer { IfErr result (λ e. e ≡ SpaceFault.Disk) }
        ensures refused { OnErr result (IsRefused self.old self.new) }
    {
        if !self.space.has_band(b) || !is_piece(at, bytes.len()) {
            return Err(count_fault(&mut self.faults));
        }
        self.space.write_band(b, at, bytes)
    }

    fn paint_band(
        &mut self,
        ops: &Ops,
        b: BandNo,
        at: u32,
        count: u32,
        code: u16,
        position: u32,
        arg: &[u8],
    ) -> Result<(), SpaceFault> {
        self.try_paint(ops, b, at, count, code, position, arg)
    }

    fn take_band(&mut self) -> Result<BandNo, SpaceFault>
        ensures done { IsOk result ↔ (0 < (space_of self.old.space).bands.free) }
        ensures did { IfOk result (λ b. TookBand (inner_view self.old) (inner_view self.new) b.0) }
        ensures quiet { OnOk result (self.new.faults ≡ self.old.faults) }
        ensures answer { IfErr result (λ e. e ≡ SpaceFault.Disk) }
        ensures refused { OnErr result (IsRefused self.old self.new) }
    {
        if self.space.free_bands() == 0 {
            return Err(count_fault(&mut self.faults));
        }
        self.space.take_band()
    }

    fn free_band(&mut self, b: BandNo) -> Result<(), SpaceFault>
        ensures done { IsOk result ↔ IsSome ((space_of self.old.space).bands.at b.0) }
        ensures did { OnOk result (FreedBand (inner_view self.old) (inner_view self.new) b.0) }
        ensures quiet { OnOk result (self.new.faults ≡ self.old.faults) }
        ensures answer { IfErr result (λ e. e ≡ SpaceFault.Disk) }
        ensures refused { OnErr result (IsRefused self.old self.new) }
    {
        if !self.space.has_band(b) {
            return Err(count_fault(&mut self.faults));
        }
        self.space.free_band(b)
    }

    ghost later_same = { λ t s. tt };

    ghost later_then = { λ t a b c f g. tt };

    ghost told_shows = { λ s t. tt };

    ghost few_pages = { λ s t. absurd t };

    ghost pages_fit = { λ s t. absurd t };

    ghost pages_exact = { λ s t. absurd t };

    ghost bands_exact = { λ s t. absurd t };
}
