// The bytes of one block as pieces, each with one owner, and what is left of the block while they
// are out. A piece takes no memory of its own: it is ghost state. All raw pointers are here.
ghost use Rattle.std.specs.Prelude.{◌≡◌, ◌+◌, ◌^◌, ◌<◌, ◌≤◌, ◌++◌, ℕ, List, length, take, drop};
ghost use Rattle.std.specs.Ptr.{Ptr};
ghost use Rattle.std.specs.Vec.{with_items};
ghost use base.Fml.{ftrue, fex, fall, fwand, fsep, feq};
ghost use denote.RawPtr.{◌+ₚ◌};
ghost use Rattle.sg_frames.specs.Ownership.{Extent, extent_code, run_owns};

use std::marker::{Model, Move, Owns};
use std_alloc::vec::{Lodged, lodge};

// The bytes at `ptr`, which nothing else can reach.
pub(crate) struct Run {
    ghost ptr: { Ptr },
    ghost items: { List ℕ },
}

impl Model for Run {
    ghost also_owns = { λ r. run_owns r.ptr r.items };
}

// A `Vec` whose elements are out as runs. It is a `Vec` again with any elements in their place, of
// which there are as many.
pub(crate) struct Shell {
    vec: Vec<u8>,
}

impl Owns for Shell {
    ghost Value = { Extent };

    ghost coded = { extent_code };

    ghost shr_at = { λ _ _ _. ftrue };
}

impl Move for Shell {
    ghost own_val = { λ e vs. fex Inside (λ v. fsep (feq ℕ v.vec.len e.len)
        (fall (List ℕ) (λ xs. fwand (fsep (feq ℕ (length xs) e.len) (run_owns e.ptr xs))
        (Fields.own_val (record { vec = with_items v.vec xs }) vs)))) };
}

// Takes the bytes out.
pub(crate) fn detach(vec: Vec<u8>) -> (Run, Shell)
    requires { 0 < vec.len }
    ensures { (result.0.ptr ≡ vec.ptr) × (result.0.items ≡ vec.items) × (result.1.ptr ≡ vec.ptr)
        × (result.1.len ≡ vec.len) }
{
    (Run {}, Shell { vec })
}

// Puts bytes in their place.
pub(crate) fn attach(run: Run, shell: Shell) -> Vec<u8>
    requires { (run.ptr ≡ shell.ptr) × (length run.items ≡ shell.len) }
    ensures { result.items ≡ run.items }
{
    let Run {} = run;
    let Shell { vec } = shell;
    vec
}

// A `Vec` over the run, `at` bytes behind `start`, which neither grows nor frees it.
pub(crate) fn house(start: *mut u8, at: usize, len: usize, run: Run) -> Vec<u8, Lodged>
    requires { (run.ptr ≡ start +ₚ at) × (length run.items ≡ len) × (0 < len) × (len < 2 ^ 63) }
    ensures { (result.items ≡ run.items) × (result.len ≡ len) × (result.ptr ≡ start +ₚ at) }
{
    let Run {} = run;
    unsafe { lodge(start.add(at), len, len) }
}

// The run under such a `Vec`.
pub(crate) fn vacate(vec: Vec<u8, Lodged>) -> Run
    requires { 0 < vec.len }
    ensures { (result.ptr ≡ vec.ptr) × (result.items ≡ vec.items) }
{
    let _len = vec.dislodge();
    Run {}
}

impl Run {
    // The first `mid` bytes, and the rest.
    pub(crate) fn cut(self, mid: usize) -> (Run, Run)
        requires { mid ≤ length self.items }
        ensures { (result.0.ptr ≡ self.ptr) × (result.0.items ≡ take mid self.items)
            × (result.1.ptr ≡ self.ptr +ₚ mid) × (result.1.items ≡ drop mid self.items) }
    {
        let Run {} = self;
        (Run {}, Run {})
    }

    // The two as one, where the second begins at the end of the first.
    pub(crate) fn join(self, next: Run) -> Run
        requires { next.ptr ≡ self.ptr +ₚ length self.items }
        ensures { (result.ptr ≡ self.ptr) × (result.items ≡ self.items ++ next.items) }
    {
        let Run {} = self;
        let Run {} = next;
        Run {}
    }
}
