// The pages and bands that a space in memory holds, whether they are taken or not.
ghost use Rattle.std.specs.Prelude.{◌≡◌, ℕ, ◌+◌, ◌<◌, ◌≤◌, All, IfOk, IsSome, Some, length, slice_index, vec_len};
ghost use Rattle.sg_base.specs.Op.{op_of};
ghost use Rattle.sg_base.specs.Overwritten.{overwritten};
ghost use Rattle.sg_base.specs.Page.{IsSlotted};
ghost use Rattle.sg_base.specs.Sheet.{sheet_of};
ghost use Rattle.sg_base.specs.declared.page.TheConstants.{BAND_SIZE};
ghost use Rattle.sg_ops.specs.Steps.{step};
ghost use Rattle.sg_ops.specs.Table.{table_of, range_at, rendered};
ghost use Rattle.sg_space.specs.Bands.{IsEmptyBand};
ghost use Rattle.sg_space.specs.Pages.{IsEmptyPage};

use sg_base::{BAND_SIZE, OutOfMemory, PAGE_SIZE, PageOp, SlotView};
use sg_ops::Ops;
use sg_slotted::format;
use sg_step::apply;
use std::alloc::Global;

// The kind of a page of the catalogue.
const CATALOGUE: u8 = 1;

// A page of slots.
#[derive(Drop)]
pub struct MemPage {
    bytes: Vec<u8>,
    ghost slotted: { IsSlotted bytes.items },
}

// The bytes of a band.
#[derive(Drop)]
pub struct MemBand {
    bytes: Vec<u8>,
    ghost size: { vec_len bytes ≡ BAND_SIZE },
}

// Sets the bytes from byte `at` on.
fn overwrite(band: &mut [u8], at: u32, bytes: &[u8])
    requires { at + length bytes.now ≤ length band.old }
    ensures { band.new ≡ overwritten band.old at bytes.now }
{
    let start = at as usize;
    band[start..start + bytes.len()].copy_from_slice(bytes);
}

// Sets `count` bytes from byte `at` on to what a range operation gives.
fn paint(band: &mut [u8], ops: &Ops, at: u32, count: u32, code: u16, position: u32, arg: &[u8])
    requires fits { at + count ≤ length band.old }
    requires small { at + count ≤ BAND_SIZE }
    requires known { IsSome (range_at (table_of record_meaning range_meaning ops.now) code) }
    requires ends { position + count ≤ 16384000 }
    ensures { band.new ≡ overwritten band.old at
        (rendered (range_at (table_of record_meaning range_meaning ops.now) code) arg.now position count) }
{
    let start = at as usize;
    ops.render(
        code,
        position,
        arg,
        &mut band[start..start + count as usize],
    );
}

// Makes all bytes 0.
fn zero(band: &mut [u8])
    ensures size { length band.new ≡ length band.old }
    ensures zero_at { (k : ℕ) → slice_index band.new k ≡ 0 }
{
    band.fill(0);
}

impl MemPage {
    ghost use Rattle.std.specs.Prelude.{◌≡◌, ◌⊎◌, true, false, None, IsSome};
    ghost use Rattle.std.specs.Bool.{OnTrue, OnFalse};
    ghost use Rattle.sg_base.specs.Op.{op_of, is_format};
    ghost use Rattle.sg_base.specs.Sheet.{sheet_of};
    ghost use Rattle.sg_ops.specs.Steps.{step};
    ghost use Rattle.sg_ops.specs.Table.{table_of};
    ghost use Rattle.sg_space.specs.Pages.{empty_sheet};

    pub fn view(&self) -> SlotView<'_>
        ensures { result.page.now ≡ self.now.bytes.items }
    {
        SlotView::new(self.bytes.as_slice())
    }

    // Does an operation that fits.
    pub fn change(&mut self, ops: &Ops, op: &PageOp<'_>)
        requires { IsSome (step (table_of record_meaning range_meaning ops.now)
            (op_of op.now) (sheet_of self.old.bytes.items)) }
        ensures { step (table_of record_meaning range_meaning ops.now)
            (op_of op.now) (sheet_of self.old.bytes.items) ≡ Some (sheet_of self.new.bytes.items) }
    {
        apply(self.bytes.as_mut_slice(), op, ops);
    }

    // Does an operation, if it fits and isn't `Format`, and says whether it did.
    pub fn try_change(&mut self, ops: &Ops, op: &PageOp<'_>) -> bool
        ensures plain { OnTrue result (is_format (op_of op.now) ≡ false) }
        ensures done { OnTrue result (step (table_of record_meaning range_meaning ops.now)
            (op_of op.now) (sheet_of self.old.bytes.items) ≡ Some (sheet_of self.new.bytes.items)) }
        ensures refused { OnFalse result ((is_format (op_of op.now) ≡ true) ⊎ (step (table_of record_meaning range_meaning ops.now)
            (op_of op.now) (sheet_of self.old.bytes.items) ≡ None)) }
        ensures same { OnFalse result (self.new.bytes.items ≡ self.old.bytes.items) }
    {
        if matches!(op, PageOp::Format { .. }) {
            return false;
        }
        apply(self.bytes.as_mut_slice(), op, ops)
    }

    // Makes it an empty page of this kind.
    pub fn format(&mut self, kind: u8)
        ensures { sheet_of self.new.bytes.items ≡ empty_sheet kind }
    {
        format(self.bytes.as_mut_slice(), kind);
    }
}

impl MemBand {
    ghost use Rattle.std.specs.Prelude.{◌≡◌, ◌+◌, ◌≤◌, IsSome};
    ghost use Rattle.sg_base.specs.Overwritten.{overwritten};
    ghost use Rattle.sg_ops.specs.Table.{table_of, range_at, rendered};
    ghost use Rattle.sg_space.specs.Bands.{IsEmptyBand};

    pub fn bytes(&self) -> &[u8]
        ensures { result.now ≡ self.now.bytes.items }
    {
        self.bytes.as_slice()
    }

    pub fn write(&mut self, at: u32, bytes: &[u8])
        requires { at + length bytes.now ≤ BAND_SIZE }
        ensures { self.new.bytes.items ≡ overwritten self.old.bytes.items at bytes.now }
    {
        overwrite(self.bytes.as_mut_slice(), at, bytes);
    }

    pub fn paint(&mut self, ops: &Ops, at: u32, count: u32, code: u16, position: u32, arg: &[u8])
        requires fits { at + count ≤ BAND_SIZE }
        requires known { IsSome (range_at (table_of record_meaning range_meaning ops.now) code) }
        requires ends { position + count ≤ 16384000 }
        ensures { self.new.bytes.items ≡ overwritten self.old.bytes.items at
            (rendered (range_at (table_of record_meaning range_meaning ops.now) code) arg.now position count) }
    {
        paint(
            self.bytes.as_mut_slice(),
            ops,
            at,
            count,
            code,
            position,
            arg,
        );
    }

    // Makes all bytes 0.
    pub fn clear(&mut self)
        ensures { IsEmptyBand self.new.bytes.items }
    {
        zero(self.bytes.as_mut_slice());
    }
}

// An empty page of the catalogue.
#[tactic(auto, unfolding(crate::specs::Pages::IsEmptyPage))]
fn new_page(alloc: Global) -> Result<MemPage, OutOfMemory>
    ensures { IfOk result (λ p. IsEmptyPage 1 p.bytes.items) }
{
    match vec![in alloc; 0u8; PAGE_SIZE] {
        Ok(mut bytes) => {
            format(bytes.as_mut_slice(), CATALOGUE);
            Ok(MemPage { bytes })
        }
        Err(_) => Err(OutOfMemory),
    }
}

// So many of them.
pub fn new_pages(alloc: Global, count: u32) -> Result<Vec<MemPage>, OutOfMemory>
    ensures count { IfOk result (λ v. vec_len v ≡ count) }
    ensures empty { IfOk result (λ v. All (λ p. IsEmptyPage 1 p.bytes.items) v.items) }
{
    let mut all = Vec::new(alloc);
    for _ in 0..count {
        let page = new_page(alloc)?;
        if all.push(page).is_err() {
            return Err(OutOfMemory);
        }
    }
    Ok(all)
}

// A band of zeros.
fn new_band(alloc: Global) -> Result<MemBand, OutOfMemory>
    ensures { IfOk result (λ b. IsEmptyBand b.bytes.items) }
{
    match vec![in alloc; 0u8; BAND_SIZE] {
        Ok(bytes) => {
            let mut band = MemBand { bytes };
            band.clear();
            Ok(band)
        }
        Err(_) => Err(OutOfMemory),
    }
}

// So many of them.
pub fn new_bands(alloc: Global, count: u32) -> Result<Vec<MemBand>, OutOfMemory>
    ensures count { IfOk result (λ v. vec_len v ≡ count) }
    ensures empty { IfOk result (λ v. All (λ b. IsEmptyBand b.bytes.items) v.items) }
{
    let mut all = Vec::new(alloc);
    for _ in 0..count {
        let band = new_band(alloc)?;
        if all.push(band).is_err() {
            return Err(OutOfMemory);
        }
    }
    Ok(all)
}
