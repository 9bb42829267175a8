// What a record of each kind says, by the bytes behind its header. The fields are taken
// by `if let`, since a `?` takes several times as long to prove (docs/ARCHITECTURE.md, "Keeping the gate
// short").
ghost use Rattle.std.specs.Prelude.{◌≡◌, if◌then◌else◌, option_map};
ghost use Rattle.sg_base.specs.Forms.{number, read_all};
ghost use Rattle.sg_record.specs.Changes.{page_form, band_form, write_form, op_form, read_change};
ghost use Rattle.sg_record.specs.Changes.Change.{Page, SegWrite, SegOp};
ghost use Rattle.sg_record.specs.Records.{note_form, live_form};
ghost use Rattle.sg_record.specs.Records.Says.{Changed, TopEnd, Checkpoint};
ghost use Rattle.sg_record.specs.Reading.{read_taken_off, read_bare, read_says};
ghost use Rattle.sg_record.specs.Shown.{shown_change, shown_says};

use crate::kind::{Kind, kind_with};
use crate::says::Says;
use crate::{BandBytes, BandOp, Change, PageChange};
use sg_base::{BandNo, Lsn, PageNo, split_text, split_u8, split_u16, split_u32, split_u64};

fn page_change(bytes: &[u8]) -> Option<Change<'_>>
    ensures { option_map shown_change result ≡ option_map Page (read_all page_form bytes.now) }
{
    if let Some((page, rest)) = split_u32(bytes)
        && let Some((operation, rest)) = split_u8(rest)
        && let Some((slot, rest)) = split_u16(rest)
        && let Some((code, rest)) = split_u16(rest)
        && let Some((before_size, rest)) = split_u16(rest)
        && let Some((after_size, rest)) = split_u16(rest)
        && let Some((before, rest)) = split_text(rest, before_size as usize)
        && let Some((after, [])) = split_text(rest, after_size as usize)
    {
        return Some(Change::Page(PageChange {
            page: PageNo(page),
            operation,
            slot,
            code,
            before,
            after,
        }));
    }
    None
}

// A write that takes another change off has no bytes before.
fn before_size(taking_off: bool, count: u32) -> usize
    ensures { result ≡ if taking_off then 0 else count }
{
    if taking_off { 0 } else { count as usize }
}

fn band_bytes(taking_off: bool, bytes: &[u8]) -> Option<Change<'_>>
    ensures { option_map shown_change result ≡ option_map SegWrite (read_all (band_form taking_off) bytes.now) }
{
    if let Some((band, rest)) = split_u32(bytes)
        && let Some((at, rest)) = split_u32(rest)
        && let Some((count, rest)) = split_u32(rest)
        && let Some((before, rest)) = split_text(rest, before_size(taking_off, count))
        && let Some((after, [])) = split_text(rest, count as usize)
    {
        return Some(Change::SegWrite(BandBytes {
            band: BandNo(band),
            at,
            count,
            before,
            after,
        }));
    }
    None
}

fn band_op(bytes: &[u8]) -> Option<Change<'_>>
    ensures { option_map shown_change result ≡ option_map SegOp (read_all op_form bytes.now) }
{
    if let Some((band, rest)) = split_u32(bytes)
        && let Some((at, rest)) = split_u32(rest)
        && let Some((count, rest)) = split_u32(rest)
        && let Some((code, rest)) = split_u16(rest)
        && let Some((position, rest)) = split_u32(rest)
        && let Some((arg_size, rest)) = split_u16(rest)
        && let Some((arg, rest)) = split_text(rest, arg_size as usize)
        && let Some((before_size, rest)) = split_u32(rest)
        && let Some((before, [])) = split_text(rest, before_size as usize)
    {
        return Some(Change::SegOp(BandOp {
            band: BandNo(band),
            at,
            count,
            code,
            position,
            arg,
            before,
        }));
    }
    None
}

// Where undoing goes on, and a note behind its length.
fn top_end(bytes: &[u8]) -> Option<Says<'_>>
    ensures { option_map shown_says result ≡ option_map (λ p. TopEnd p.0 p.1) (read_all note_form bytes.now) }
{
    if let Some((undo_next, rest)) = split_u64(bytes)
        && let Some((size, rest)) = split_u16(rest)
        && let Some((note, [])) = split_text(rest, size as usize)
    {
        return Some(Says::TopEnd { undo_next, note });
    }
    None
}

// From where on a log is read again, and the live transactions behind their count.
fn checkpoint(bytes: &[u8]) -> Option<Says<'_>>
    ensures { option_map shown_says result ≡ option_map (λ p. Checkpoint p.0 p.1) (read_all live_form bytes.now) }
{
    if let Some((estimate, rest)) = split_u64(bytes)
        && let Some((count, rest)) = split_u16(rest)
        && let Some((live, [])) = split_text(rest, 16 * count as usize)
    {
        return Some(Says::Checkpoint { estimate, live });
    }
    None
}

fn lsn_alone(bytes: &[u8]) -> Option<Lsn>
    ensures { result ≡ read_all (number 8) bytes.now }
{
    let Some((lsn, [])) = split_u64(bytes) else {
        return None;
    };
    Some(lsn)
}

fn mark_alone(bytes: &[u8]) -> Option<u16>
    ensures { result ≡ read_all (number 2) bytes.now }
{
    let Some((mark, [])) = split_u16(bytes) else {
        return None;
    };
    Some(mark)
}

fn change(taking_off: bool, kind: Kind, bytes: &[u8]) -> Option<Change<'_>>
    ensures { option_map shown_change result ≡ read_change (band_form taking_off) kind bytes.now }
{
    match kind {
        Kind::Page => page_change(bytes),
        Kind::SegWrite => band_bytes(taking_off, bytes),
        Kind::SegOp => band_op(bytes),
        _ => None,
    }
}

fn changed(kind: Kind, bytes: &[u8]) -> Option<Says<'_>>
    ensures { option_map shown_says result ≡ option_map Changed (read_change write_form kind bytes.now) }
{
    let Some(change) = change(false, kind, bytes) else {
        return None;
    };
    Some(Says::Changed(change))
}

// What takes a change off, and where undoing goes on.
fn taken_off(bytes: &[u8]) -> Option<Says<'_>>
    ensures { option_map shown_says result ≡ read_taken_off bytes.now }
{
    if let Some((undo_next, rest)) = split_u64(bytes)
        && let Some((code, rest)) = split_u8(rest)
        && let Some(kind) = kind_with(code)
        && let Some(change) = change(true, kind, rest)
    {
        return Some(Says::PhysComp { undo_next, change });
    }
    None
}

// What a record without fields says.
fn bare<'a>(says: Says<'a>, bytes: &[u8]) -> Option<Says<'a>>
    ensures { option_map shown_says result ≡ read_bare (shown_says says.entry) bytes.now }
{
    if bytes.is_empty() { Some(says) } else { None }
}

/// What a record of this kind says. There is nothing where the bytes are no such record's.
#[tactic(auto, unfolding(crate::specs::Reading::read_says))]
pub fn says(kind: Kind, bytes: &[u8]) -> Option<Says<'_>>
    ensures { option_map shown_says result ≡ read_says kind bytes.now }
{
    match kind {
        Kind::Begin => bare(Says::Begin, bytes),
        Kind::Page | Kind::SegWrite | Kind::SegOp => changed(kind, bytes),
        Kind::TopEnd => top_end(bytes),
        Kind::PhysComp => taken_off(bytes),
        Kind::TopVoid => {
            let Some(undo_next) = lsn_alone(bytes) else {
                return None;
            };
            Some(Says::TopVoid { undo_next })
        }
        Kind::CompEnd => {
            let Some(undo_next) = lsn_alone(bytes) else {
                return None;
            };
            Some(Says::CompEnd { undo_next })
        }
        Kind::Save => {
            let Some(mark) = mark_alone(bytes) else {
                return None;
            };
            Some(Says::Save { mark })
        }
        Kind::Commit => bare(Says::Commit, bytes),
        Kind::End => bare(Says::End, bytes),
        Kind::Checkpoint => checkpoint(bytes),
    }
}
