// How far the action of a transaction and its undoing have come.
ghost use Rattle.std.specs.Prelude.{◌≡◌, OnOk};
ghost use Rattle.sg_record.specs.Shown.{shown};
ghost use Rattle.sg_analysis.specs.Sights.{sight_of};
ghost use Rattle.sg_analysis.specs.Stacks.{Becomes};
ghost use Rattle.sg_analysis.specs.Returns.{next_is, systems_next_is, takes_next, undoes_newest, progress_by, opens_by, returns_by};

use crate::stacks::Stacks;
use sg_base::Lsn;
use sg_record::Rec;
use std::alloc::AllocError;

/// How far a transaction has come where its next record stands: its last border, if it is the system or
/// goes on; the number of its newest open change, and of the one before that; and where undoing goes on
/// behind its newest standing note.
#[derive(Clone, Copy)]
pub struct Progress {
    pub border: Option<Lsn>,
    pub newest: Option<Lsn>,
    pub second: Option<Lsn>,
    pub returning: Option<Lsn>,
}

// Whether undoing goes on there, once a transaction's newest open change is taken off.
fn next_is(border: Lsn, newest: Option<Lsn>, second: Option<Lsn>, undo_next: Lsn) -> bool
    ensures { result ≡ next_is border newest second undo_next }
{
    match (newest, second) {
        (None, _) => false,
        (Some(_), None) => undo_next == border,
        (Some(_), Some(earlier)) => undo_next == earlier,
    }
}

// The same of the system.
fn systems_next_is(base: Lsn, border: Lsn, p: Progress, undo_next: Lsn) -> bool
    ensures { result ≡ systems_next_is base border p.newest p.second undo_next }
{
    let before = undo_next == 0 || undo_next < base;
    match (p.newest, p.second) {
        (None, _) => border == 0 && before,
        (Some(_), None) => { if border == 0 { before } else { undo_next == 0 } }
        (Some(_), Some(second)) => undo_next == second,
    }
}

// Whether a change is taken off as it has to be.
fn takes_next(base: Lsn, system: bool, p: Progress, undo_next: Lsn) -> bool
    ensures { result ≡ takes_next base system p.border p.newest p.second undo_next }
{
    match p.border {
        None => true,
        Some(border) => {
            if system {
                systems_next_is(base, border, p, undo_next)
            } else {
                next_is(border, p.newest, p.second, undo_next)
            }
        }
    }
}

// Whether the newest standing note is undone, and undoing goes on where that one says.
fn undoes_newest(p: Progress, undo_next: Lsn) -> bool
    ensures { result ≡ undoes_newest p.border p.returning undo_next }
{
    match (p.border, p.returning) {
        (None, _) => true,
        (Some(_), None) => false,
        (Some(_), Some(returning)) => undo_next == returning,
    }
}

// Whether a record fits how far its transaction, which is the system or not, has come.
pub fn fits_progress(base: Lsn, system: bool, p: Progress, rec: &Rec<'_>) -> bool
    ensures { result ≡ progress_by base system p (sight_of (shown rec.now)) }
{
    match *rec {
        Rec::PhysComp { undo_next, .. } => takes_next(base, system, p, undo_next),
        Rec::TopVoid { .. } => p.border.is_none() || p.newest.is_none(),
        Rec::CompEnd { undo_next, .. } => undoes_newest(p, undo_next),
        Rec::Save { .. } | Rec::Commit { .. } | Rec::End { .. } => p.newest.is_none(),
        _ => true,
    }
}

// Keeps the numbers of open changes, behind a record with this number.
pub fn keep_opened(opened: &mut Stacks, lsn: Lsn, rec: &Rec<'_>) -> Result<(), AllocError>
    ensures { OnOk result (Becomes opened.old opened.new (shown rec.now).transaction (opens_by (sight_of (shown rec.now)) lsn)) }
{
    match *rec {
        Rec::Page { txn, .. } | Rec::SegWrite { txn, .. } | Rec::SegOp { txn, .. } => {
            opened.push(txn, lsn)
        }
        Rec::PhysComp { txn, undo_next, .. } => opened.cut(txn, undo_next),
        Rec::TopEnd { txn, .. } | Rec::TopVoid { txn, .. } | Rec::CompEnd { txn, .. } => {
            opened.forget(txn);
            Ok(())
        }
        _ => Ok(()),
    }
}

// Keeps where undoing goes on behind standing notes, behind a record of a transaction that goes on or not.
pub fn keep_returns(returns: &mut Stacks, lives: bool, rec: &Rec<'_>) -> Result<(), AllocError>
    ensures { OnOk result (Becomes returns.old returns.new (shown rec.now).transaction (returns_by lives (sight_of (shown rec.now)))) }
{
    match *rec {
        Rec::TopEnd { txn, undo_next, .. } => {
            if lives {
                return returns.push(txn, undo_next);
            }
            Ok(())
        }
        Rec::CompEnd { txn, .. } => returns.pop(txn),
        Rec::Commit { txn, .. } | Rec::End { txn, .. } => {
            returns.forget(txn);
            Ok(())
        }
        _ => Ok(()),
    }
}
