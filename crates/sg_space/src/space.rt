ghost use Rattle.std.specs.Prelude.{◌≡◌, ℕ, ◌+◌, ◌≤◌, Some, IfOk, OnOk, length};
ghost use Rattle.std.specs.Io.BufRead.{Rests};
ghost use Rattle.std.specs.Borrow.{sem};
ghost use Rattle.sg_base.specs.Ends.{HasRisen};
ghost use Rattle.sg_base.specs.Op.{op_of};
ghost use Rattle.sg_base.specs.Page.{bytes_of};
ghost use Rattle.sg_base.specs.Sheet.{Sheet, sheet_of};
ghost use Rattle.sg_ops.specs.Table.{Table, table_of};
ghost use Rattle.sg_space.specs.Bands.{CanWrite, Wrote, CanPaint, Painted, TookBand, FreedBand};
ghost use Rattle.sg_space.specs.Pages.{CanBreak, CanLook, Looked, Looks, CanChange, Changed, CanTake, Took, Freed};
ghost use Rattle.sg_space.specs.Units.{IsExact};
ghost use Rattle.sg_space.specs.View.{View, Counts};

use sg_base::{BAND_SIZE, BandNo, PageNo, PageOp, SlotView};
use sg_ops::Ops;

/// Why a call of a space failed.
#[derive(Clone, Copy, Debug, PartialEq, Eq)]
pub enum SpaceFault {
    /// A call of the disk failed, or what was read can't be. The count of faults rose.
    Disk,
    /// A record of the change would pass the end of the log.
    LogEnd,
}

/// Why a call that also takes memory failed.
#[derive(Clone, Copy, Debug, PartialEq, Eq)]
pub enum ListFault {
    /// A call of the space failed, or what was read can't be.
    Space(SpaceFault),
    /// Memory was refused.
    Memory,
}

impl From<SpaceFault> for ListFault {
    ghost use Rattle.sg_space.specs.declared.space.ListFault.TheVariants.{Space};

    ghost from_gives = { λ fault e. e ≡ Space fault };

    fn from(fault: SpaceFault) -> ListFault {
        ListFault::Space(fault)
    }
}

/// Pages of slots, which are changed one operation at a time, and bands of 32,768 bytes, which are
/// written in pieces of at most 8,192.
///
/// What is asked of a caller is asked where the space is told. On any space each call is safe and
/// returns, and fails only where the count of faults rose, or near the log's end. After a failure
/// nothing is said of the contents. Where operations are handed in, they are those that its records
/// are read again by.
pub trait PageSpace {
    /// All that is known of it.
    ghost view: { Self → View };

    /// What holds of an earlier state of it and a later one, whatever calls were made between them with
    /// operations that mean this, and whether they failed or not. It's the space's own choice.
    ghost later: { Table → Self → Self → Type 0 };

    /// Its records are read again by a table of operations that means this. A call that is handed operations wants such ones, and
    /// ends with its records read by the same; each other call keeps every table.
    ghost means: { Self → Table → Type 0 };

    /// Reports that what was read can't be. A space that is told is never asked.
    fn broken(&mut self) -> SpaceFault
        requires { CanBreak (view self.old) }
        ensures answer { result ≡ SpaceFault.Disk }
        ensures told { (view self.new).Told → (view self.old).Told }
        ensures risen { HasRisen (view self.old).faults (view self.new).faults }
        ensures rising { (view self.old).faults ≤ (view self.new).faults }
        ensures writes_none { (view self.new).records ≡ (view self.old).records }
        ensures later { (t : Table) → later t self.old self.new }
        ensures means { (t : Table) → means self.old t → means self.new t };

    /// How many pages there are, taken and free.
    fn pages(&self) -> u32
        ensures { result ≡ (view self.now).space.pages.count };

    /// How many pages are free.
    fn free_pages(&self) -> u32
        ensures { result ≡ (view self.now).space.pages.free };

    /// How many bands are free.
    fn free_bands(&self) -> u32
        ensures { result ≡ (view self.now).space.bands.free };

    /// A look at a taken page.
    fn page(&mut self, p: PageNo) -> Result<SlotView<'_>, SpaceFault>
        requires { CanLook (view self.old) (view self.old).space.pages p.0 }
        ensures looked { IfOk result
            (λ s. Looked (view self.old) (view self.old).space.pages p.0 (sheet_of s.page.now)) }
        ensures* after { sem 𝓛 (Rests Self.row self.entry (λ new.
            Looks (view self.old) (view new) ((t : Table) → later t self.old new)
            ((t : Table) → means self.old t → means new t) result)) };

    /// Does an operation to a taken page. It fits the page, and isn't `Format`; where it opens a
    /// slot, the open action may.
    fn change(&mut self, ops: &Ops, p: PageNo, op: &PageOp<'_>) -> Result<(), SpaceFault>
        requires means { means self.old (table_of record_meaning range_meaning ops.now) }
        requires can { CanChange (table_of record_meaning range_meaning ops.now)
            (view self.old) p.0 (op_of op.now) }
        ensures counts { Counts (view self.old) (view self.new) result }
        ensures few { (view self.new).records ≤ (view self.old).records + 1 }
        ensures did { OnOk result (Changed (table_of record_meaning range_meaning ops.now)
            (view self.old) (view self.new) p.0 (op_of op.now)) }
        ensures later { later (table_of record_meaning range_meaning ops.now) self.old self.new }
        ensures means { means self.new (table_of record_meaning range_meaning ops.now) };

    /// Takes a free page, as an empty one of this kind with links 0. The open action has freed
    /// nothing yet.
    fn take_page(&mut self, kind: u8) -> Result<PageNo, SpaceFault>
        requires { CanTake (view self.old) (view self.old).space.pages }
        ensures counts { Counts (view self.old) (view self.new) result }
        ensures few { (view self.new).records ≤ (view self.old).records + 2 }
        ensures did { IfOk result (λ p. Took (view self.old) (view self.new) kind p.0) }
        ensures later { (t : Table) → later t self.old self.new }
        ensures means { (t : Table) → means self.old t → means self.new t };

    /// Frees a taken page.
    fn free_page(&mut self, p: PageNo) -> Result<(), SpaceFault>
        requires { CanLook (view self.old) (view self.old).space.pages p.0 }
        ensures counts { Counts (view self.old) (view self.new) result }
        ensures few { (view self.new).records ≤ (view self.old).records + 1 }
        ensures did { OnOk result (Freed (view self.old) (view self.new) p.0) }
        ensures later { (t : Table) → later t self.old self.new }
        ensures means { (t : Table) → means self.old t → means self.new t };

    /// A look at the 32,768 bytes of a taken band.
    fn band(&mut self, b: BandNo) -> Result<&[u8], SpaceFault>
        requires { CanLook (view self.old) (view self.old).space.bands b.0 }
        ensures looked { IfOk result (λ s. Looked (view self.old) (view self.old).space.bands b.0 s.now) }
        ensures size { IfOk result (λ s. length s.now ≡ BAND_SIZE) }
        ensures* after { sem 𝓛 (Rests Self.row self.entry (λ new.
            Looks (view self.old) (view new) ((t : Table) → later t self.old new)
            ((t : Table) → means self.old t → means new t) result)) };

    /// Writes 1 to 8,192 bytes into a taken band, from byte `at` on.
    fn write_band(&mut self, b: BandNo, at: u32, bytes: &[u8]) -> Result<(), SpaceFault>
        requires { CanWrite (view self.old) b.0 at (length bytes.now) }
        ensures counts { Counts (view self.old) (view self.new) result }
        ensures few { (view self.new).records ≤ (view self.old).records + 1 }
        ensures did { OnOk result (Wrote (view self.old) (view self.new) b.0 at bytes.now) }
        ensures later { (t : Table) → later t self.old self.new }
        ensures means { (t : Table) → means self.old t → means self.new t };

    /// Writes `count` bytes into a taken band, 1 to 8,192 from byte `at` on: what the range operation
    /// with this code gives for `arg`, of at most 256 bytes, at the positions from `position` on, which
    /// end at or before 16,384,000.
    fn paint_band(
        &mut self,
        ops: &Ops,
        b: BandNo,
        at: u32,
        count: u32,
        code: u16,
        position: u32,
        arg: &[u8],
    ) -> Result<(), SpaceFault>
        requires means { means self.old (table_of record_meaning range_meaning ops.now) }
        requires can { CanPaint (table_of record_meaning range_meaning ops.now)
            (view self.old) b.0 at count code position arg.now }
        ensures counts { Counts (view self.old) (view self.new) result }
        ensures few { (view self.new).records ≤ (view self.old).records + 1 }
        ensures did { OnOk result (Painted (table_of record_meaning range_meaning ops.now)
            (view self.old) (view self.new) b.0 at count code position arg.now) }
        ensures later { later (table_of record_meaning range_meaning ops.now) self.old self.new }
        ensures means { means self.new (table_of record_meaning range_meaning ops.now) };

    /// Takes a free band, and makes all its bytes 0. The open action has freed nothing yet.
    fn take_band(&mut self) -> Result<BandNo, SpaceFault>
        requires { CanTake (view self.old) (view self.old).space.bands }
        ensures counts { Counts (view self.old) (view self.new) result }
        ensures few { (view self.new).records ≤ (view self.old).records + 5 }
        ensures did { IfOk result (λ b. TookBand (view self.old) (view self.new) b.0) }
        ensures later { (t : Table) → later t self.old self.new }
        ensures means { (t : Table) → means self.old t → means self.new t };

    /// Frees a taken band.
    fn free_band(&mut self, b: BandNo) -> Result<(), SpaceFault>
        requires { CanLook (view self.old) (view self.old).space.bands b.0 }
        ensures counts { Counts (view self.old) (view self.new) result }
        ensures few { (view self.new).records ≤ (view self.old).records + 1 }
        ensures did { OnOk result (FreedBand (view self.old) (view self.new) b.0) }
        ensures later { (t : Table) → later t self.old self.new }
        ensures means { (t : Table) → means self.old t → means self.new t };

    /// No call is a call.
    ghost later_same: { (t : Table) (s : Self) → later t s s };

    /// Calls one after another.
    ghost later_then: { (t : Table) (a b c : Self) → later t a b → later t b c → later t a c };

    /// A space that is told shows its contents.
    ghost told_shows: { (s : Self) → (view s).Told → (view s).Shows };

    /// It has no more pages than a store may have.
    ghost few_pages: { (s : Self) → (view s).Told → (view s).space.pages.count ≤ 1048576 };

    /// What a page says is within its bytes.
    ghost pages_fit: { (s : Self) → (view s).Told → (p : ℕ) (sheet : Sheet) →
        (view s).space.pages.at p ≡ Some sheet → bytes_of sheet.slots ≤ 4072 };

    /// The count of free pages is exact.
    ghost pages_exact: { (s : Self) → (view s).Told → IsExact (view s).space.pages };

    /// The count of free bands is exact.
    ghost bands_exact: { (s : Self) → (view s).Told → IsExact (view s).space.bands };
}
