// The change that a record holds for an operation on a page.
ghost use Rattle.std.specs.Prelude.{◌≡◌, ◌≤◌, ◌<◌, ◌^◌, ◌+◌, ◌++◌, length, take, drop, IsTrue, IfSome, IfNone, false, option_map};
ghost use Rattle.byteorder.specs.Endian.{little_bytes};
ghost use Rattle.sg_base.specs.Op.{op_of, is_format};
ghost use Rattle.sg_base.specs.Page.{cell_in, slots_of};
ghost use Rattle.sg_base.specs.Slots.{cell_bytes};
ghost use Rattle.sg_base.specs.Sheet.{sheet_of};
ghost use Rattle.sg_record.specs.Changes.{Change as Changing};
ghost use Rattle.sg_record.specs.Ranges.{IsRecord};
ghost use Rattle.sg_record.specs.Records.Says.{Changed};
ghost use Rattle.sg_record.specs.Shown.{shown, shown_page, shown_change, shown_bytes};
ghost use Rattle.sg_space.specs.Bands.{IsPiece};
ghost use Rattle.sg_actions.specs.Changes.{taken_away, change_with, number_of, brought, page_off, bytes_off, bytes_with, comp_of, BringsLinks, AreLinks, HasTaken, IsChangeOf, BringsFew, IsNoCell, FindsNoCell, IsBrief};

use sg_base::{BandNo, Lsn, PAGE_SIZE, PageNo, PageOp, SlotView, write_u32};
use sg_record::{BandBytes, Change, PageChange, Rec};

// Copies bytes to the front of a buffer, if they fit it, and answers how many they are.
fn copy_front(bytes: &[u8], into: &mut [u8]) -> Option<usize>
    ensures long { length into.new ≡ length into.old }
    ensures copied { IfSome result (HasTaken into.new bytes.now) }
    ensures none { IfNone result (length into.old < length bytes.now) }
{
    if bytes.len() > into.len() {
        return None;
    }
    let front = &mut into[..bytes.len()];
    front.copy_from_slice(bytes);
    Some(bytes.len())
}

// Copies the cell of a full slot.
fn copy_cell(page: &SlotView<'_>, slot: u16, into: &mut [u8]) -> Option<usize>
    ensures long { length into.new ≡ length into.old }
    ensures copied { IfSome result (HasTaken into.new (cell_bytes (cell_in (slots_of page.now.page.now) slot))) }
    ensures none { IfNone result (IsNoCell (length into.old) (cell_in (slots_of page.now.page.now) slot)) }
{
    match page.slot(slot) {
        None => None,
        Some(cell) => copy_front(cell, into),
    }
}

/// Two numbers as a record holds them.
pub fn write_links(into: &mut [u8], a: u32, b: u32)
    requires { length into.old ≡ 8 }
    ensures { into.new ≡ little_bytes 4 a ++ little_bytes 4 b }
{
    write_u32(&mut into[..4], a);
    write_u32(&mut into[4..], b);
}

/// Copies the bytes that an operation takes away from a page to the front of a buffer, and answers how
/// many they are. There is none where the operation finds no cell in its slot, and for a format.
pub fn take_away(page: &SlotView<'_>, op: &PageOp<'_>, into: &mut [u8]) -> Option<usize>
    requires { length into.old ≡ PAGE_SIZE }
    ensures long { length into.new ≡ PAGE_SIZE }
    ensures taken { IfSome result (HasTaken into.new (taken_away (op_of op.now) (sheet_of page.now.page.now))) }
    ensures small { AreLinks (sheet_of page.now.page.now).links }
    ensures plain { IfSome result (λ n. is_format (op_of op.now) ≡ false) }
    ensures none { IfNone result (FindsNoCell (op_of op.now) (sheet_of page.now.page.now)) }
{
    let (a, b) = page.links();
    match *op {
        PageOp::Format { .. } => None,
        PageOp::Remove { slot } | PageOp::Set { slot, .. } => copy_cell(page, slot, into),
        PageOp::Links { .. } => {
            write_links(&mut into[..8], a, b);
            Some(8)
        }
        PageOp::Put { .. } | PageOp::Item { .. } | PageOp::ItemBack { .. } => Some(0),
    }
}

/// Whether the bytes that an operation brings are no more than a record has room for, and those of an
/// argument no more than 256. An operation that fits a page has no more.
pub fn is_short(op: &PageOp<'_>) -> bool
    ensures yes { IsTrue result → BringsFew (op_of op.now) }
    ensures no { BringsFew (op_of op.now) → IsTrue result }
{
    match *op {
        PageOp::Put { bytes, .. } | PageOp::Set { bytes, .. } => bytes.len() <= PAGE_SIZE,
        PageOp::Item { arg, .. } | PageOp::ItemBack { arg, .. } => arg.len() <= 256,
        PageOp::Format { .. } | PageOp::Remove { .. } | PageOp::Links { .. } => true,
    }
}

/// The bytes of the links that an operation sets, where it sets some.
pub fn links_of(op: &PageOp<'_>, into: &mut [u8])
    requires size { length into.old ≡ 8 }
    requires plain { is_format (op_of op.now) ≡ false }
    ensures { BringsLinks (op_of op.now) into.new }
{
    if let PageOp::Links { a, b } = *op {
        write_links(into, a, b);
    }
}

/// The number of an operation, its slot, and the code of the registered operation.
pub fn code_of(op: &PageOp<'_>) -> (u8, u16, u16)
    ensures { result ≡ number_of (op_of op.now) }
{
    match *op {
        PageOp::Format { .. } => (1, 0, 0),
        PageOp::Put { slot, .. } => (2, slot, 0),
        PageOp::Remove { slot } => (3, slot, 0),
        PageOp::Set { slot, .. } => (4, slot, 0),
        PageOp::Links { .. } => (5, 0, 0),
        PageOp::Item { slot, code, .. } => (6, slot, code),
        PageOp::ItemBack { slot, code, .. } => (7, slot, code),
    }
}

/// The bytes that an operation brings, where it holds them.
pub fn after_of<'a>(op: &PageOp<'a>) -> Option<&'a [u8]>
    ensures { option_map (λ x. x.now) result ≡ brought (op_of op.now) }
{
    match *op {
        PageOp::Format { .. } | PageOp::Links { .. } => None,
        PageOp::Put { bytes, .. } | PageOp::Set { bytes, .. } => Some(bytes),
        PageOp::Remove { .. } => Some(&[]),
        PageOp::Item { arg, .. } | PageOp::ItemBack { arg, .. } => Some(arg),
    }
}

/// A change of a page.
pub fn spell<'a>(
    p: PageNo,
    operation: (u8, u16, u16),
    before: &'a [u8],
    after: &'a [u8],
) -> PageChange<'a>
    ensures { shown_page result ≡ change_with p.0 operation.0 operation.1 operation.2 before.now after.now }
{
    let (operation, slot, code) = operation;
    PageChange {
        page: p,
        operation,
        slot,
        code,
        before,
        after,
    }
}

// The change that takes one of a page off.
fn page_off<'a>(c: &PageChange<'a>) -> PageChange<'a>
    ensures { shown_page result ≡ page_off (shown_page c.now) }
{
    let (operation, after): (u8, &'a [u8]) = match c.operation {
        1 => (1, &[0]),
        2 => (3, &[]),
        3 => (2, c.before),
        4 => (4, c.before),
        5 => (5, c.before),
        6 => (7, c.after),
        _ => (6, c.after),
    };
    PageChange {
        page: c.page,
        operation,
        slot: c.slot,
        code: c.code,
        before: &[],
        after,
    }
}

// The bytes that stood in a part of a band, written there again.
fn bytes_off<'a>(band: BandNo, at: u32, count: u32, before: &'a [u8]) -> Change<'a>
    ensures { shown_change result ≡ bytes_off band.0 at count before.now }
{
    Change::SegWrite(BandBytes {
        band,
        at,
        count,
        before: &[],
        after: before,
    })
}

/// The change that takes one off, as a record holds it.
pub fn comp_of<'a>(change: &Change<'a>) -> Change<'a>
    ensures { shown_change result ≡ comp_of (shown_change change.now) }
{
    match *change {
        Change::Page(c) => Change::Page(page_off(&c)),
        Change::SegWrite(c) => bytes_off(c.band, c.at, c.count, c.before),
        Change::SegOp(c) => {
            if c.before.is_empty() {
                Change::SegOp(c)
            } else {
                bytes_off(c.band, c.at, c.count, c.before)
            }
        }
    }
}

/// Whether a change keeps no more bytes than a page has, so that a record has room for what takes it off.
pub fn is_brief(change: &Change<'_>) -> bool
    ensures yes { IsTrue result → IsBrief (shown_change change.now) }
    ensures no { IsBrief (shown_change change.now) → IsTrue result }
{
    match change {
        Change::Page(c) => c.before.len() <= PAGE_SIZE,
        Change::SegWrite(_) | Change::SegOp(_) => true,
    }
}

/// The change that a record makes, if it makes one and isn't one that takes another off, with the
/// record before it.
pub fn change_in<'a>(r: &Rec<'a>) -> Option<(Change<'a>, Lsn)>
    ensures is { IfSome result (λ p. IsChangeOf (shown r.now) (shown_change p.0) p.1) }
    ensures none { IfNone result ((c : Changing) → (shown r.now).says ≡ Changed c → ⊥) }
{
    match *r {
        Rec::Page { prev, change, .. } => Some((Change::Page(change), prev)),
        Rec::SegWrite { prev, change, .. } => Some((Change::SegWrite(change), prev)),
        Rec::SegOp { prev, change, .. } => Some((Change::SegOp(change), prev)),
        _ => None,
    }
}

/// Whether so many bytes from there on are a piece of a band.
pub fn is_piece(at: u32, count: usize) -> bool
    ensures yes { IsTrue result → IsPiece at count }
    ensures no { IsPiece at count → IsTrue result }
{
    1 <= count && count <= 8_192 && at <= 32_768 && count as u32 <= 32_768 - at
}

/// Copies a piece of a band.
pub fn copy_piece(band: &[u8], at: u32, count: usize, into: &mut [u8])
    requires fits { at + count ≤ length band.now }
    requires size { length into.old ≡ count }
    ensures { into.new ≡ take count (drop at band.now) }
{
    let start = at as usize;
    into.copy_from_slice(&band[start..start + count]);
}

/// A change of a piece of a band to other bytes.
pub fn spell_bytes<'a>(
    band: BandNo,
    at: u32,
    count: u32,
    before: &'a [u8],
    after: &'a [u8],
) -> BandBytes<'a>
    ensures { shown_bytes result ≡ bytes_with band.0 at count before.now after.now }
{
    BandBytes {
        band,
        at,
        count,
        before,
        after,
    }
}

/// Tells a proof that a record has an encoding. It runs no code.
pub fn tell_range(r: &Rec<'_>)
    requires { IsRecord (shown r.now) }
    ensures { IsRecord (shown r.now) }
{}

/// A number of 64 bits fits its type.
pub fn is_number(n: u64)
    ensures { n < 2 ^ 64 }
{}
