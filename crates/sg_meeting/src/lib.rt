//! Two operations on records, with the codes 7 and 8, that look for one another: each sets its own flag and then waits for the other's, up to a
//! number of turns, and a count says how often one was seen. They change nothing. By them tests see that records are repeated at once, in threads,
//! of which no clause speaks.
//!
//! It stands on `sg_ops`, in which a test registers them. Tests alone stand on it.
#![tactic(auto)]

ghost use Rattle.std.specs.Prelude.{true, refl};

use sg_ops::RecordOp;
use std::alloc::{AllocError, Global};
use std::sync::Arc;
use std::sync::atomic::{AtomicU64, Ordering};

/// Sets its own flag and then looks for the other's, for so many turns; a count says how often one
/// was seen. It changes nothing.
#[derive(Drop)]
pub struct Meeting {
    code: u16,
    mine: Arc<AtomicU64, Global>,
    other: Arc<AtomicU64, Global>,
    seen: Arc<AtomicU64, Global>,
}

const TURNS: u64 = 100_000_000;

impl RecordOp for Meeting {
    ghost record_meaning = { λ op. record { code = op.code; accepts = λ item arg. true; after = λ item arg. item; before = λ item arg. item } };

    ghost record_law = { λ op. record { undoes = λ item arg a b h. refl; keeps_length = λ item arg a b h. refl; leaves_bytes = λ item arg a b h. a; undo_keeps_length = λ item arg a b. refl; undo_leaves_bytes = λ item arg a b. a } };

    fn code(&self) -> u16 {
        self.code
    }

    fn accepts(&self, _item: &[u8], _arg: &[u8]) -> bool {
        true
    }

    fn redo(&self, _item: &mut [u8], _arg: &[u8]) {
        self.mine.store(1, Ordering::SeqCst);
        for _ in 0..TURNS {
            if self.other.load(Ordering::SeqCst) == 1 {
                self.seen.fetch_add(1, Ordering::SeqCst);
                return;
            }
        }
    }

    fn undo(&self, _item: &mut [u8], _arg: &[u8]) {}
}

/// Two flags, and the count.
#[derive(Drop)]
pub struct Flags {
    left: Arc<AtomicU64, Global>,
    right: Arc<AtomicU64, Global>,
    seen: Arc<AtomicU64, Global>,
}

fn zero(alloc: Global) -> Result<Arc<AtomicU64, Global>, AllocError> {
    Ok(Arc::new(alloc, AtomicU64::new(0))?)
}

impl Flags {
    /// None of them is set.
    pub fn new(alloc: Global) -> Result<Flags, AllocError> {
        Ok(Flags {
            left: zero(alloc)?,
            right: zero(alloc)?,
            seen: zero(alloc)?,
        })
    }

    /// The operation 7, which sets the left one and looks for the right one.
    pub fn first(&self) -> Result<Meeting, AllocError> {
        meeting_of(7, &self.left, &self.right, &self.seen)
    }

    /// The operation 8, the other way round.
    pub fn second(&self) -> Result<Meeting, AllocError> {
        meeting_of(8, &self.right, &self.left, &self.seen)
    }

    /// Sets both, so that neither operation waits.
    pub fn set(&self) {
        self.left.store(1, Ordering::SeqCst);
        self.right.store(1, Ordering::SeqCst);
    }

    /// How often a flag was seen.
    pub fn count(&self) -> u64 {
        self.seen.load(Ordering::SeqCst)
    }
}

fn meeting_of(
    code: u16,
    mine: &Arc<AtomicU64, Global>,
    other: &Arc<AtomicU64, Global>,
    seen: &Arc<AtomicU64, Global>,
) -> Result<Meeting, AllocError> {
    Ok(Meeting {
        code,
        mine: Arc::try_clone(mine)?,
        other: Arc::try_clone(other)?,
        seen: Arc::try_clone(seen)?,
    })
}
