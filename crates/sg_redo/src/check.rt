// Whether pages may be pages: each chunk of several is looked at by a thread of its own.
ghost use Rattle.std.specs.Prelude.{◌≡◌, ◌↔◌, ◌<◌, ℕ, IsTrue, IfOk, All};
ghost use Rattle.sg_redo.specs.Well.{IsWell, FindsBad};

use sg_base::{OutOfMemory, view};
use sg_frames::Loan;
use std::alloc::Global;
use std::thread;
use std::thread::Threads;

fn are_zeros(page: &[u8]) -> bool
    ensures { IsTrue result ↔ All (λ x. x ≡ 0) page.now }
{
    page.iter().all(|b| *b == 0)
}

/// Whether the bytes are a page of slots or zeros.
pub fn is_well(page: &[u8]) -> bool
    ensures { IsTrue result ↔ IsWell page.now }
{
    view(page).is_some() || are_zeros(page)
}

// The first of these that is neither a page of slots nor zeros.
fn first_bad(loans: &[Loan]) -> Option<usize>
    ensures { FindsBad loans.now result }
{
    'loans: for i in 0..loans.len() {
        if !is_well(loans[i].bytes()) {
            return Some(i);
        }
    }
    None
}

/// The least index of a loan whose bytes are neither a page of slots nor all 0, if there is one. At
/// most `threads` threads look, each at loans that stand side by side, so the answer is that of one.
/// `OutOfMemory`, where there is no room for a number a thread, is the only refusal.
pub fn check_pages<R: Threads + Sync>(
    rt: &R,
    alloc: Global,
    threads: usize,
    loans: &[Loan],
) -> Result<Option<usize>, OutOfMemory>
    requires some { 0 < threads }
    ensures found { IfOk result (λ found. FindsBad loans.now found) }
{
    if loans.is_empty() {
        return Ok(None);
    }
    let size = loans.len().div_ceil(threads);
    let Ok(parts) = thread::map_chunks(
        rt,
        alloc,
        loans,
        size,
        &|_, part: &[Loan]|
            ensures { FindsBad part.entry.now result }
        { first_bad(part) },
    ) else {
        return Err(OutOfMemory);
    };
    'parts: for n in 0..parts.len() {
        if let Some(i) = parts[n] {
            return Ok(Some(n * size + i));
        }
    }
    Ok(None)
}
