// The oldest change that isn't on the disk.
ghost use Rattle.std.specs.Prelude.{◌≡◌, ◌≤◌, ◌<◌, ℕ, Some, None, length, IfSome, IfNone};
ghost use Rattle.sg_pool.specs.Held.{since_of};
ghost use Rattle.sg_pool.specs.Oldest.{earlier};

use crate::slot::Slot;

// The lesser of two, where there are two.
pub(crate) fn earlier(a: Option<u64>, b: Option<u64>) -> Option<u64>
    ensures { result ≡ earlier a b }
{
    match (a, b) {
        (Some(x), Some(y)) => Some(if y < x { y } else { x }),
        (Some(x), None) => Some(x),
        (None, b) => b,
    }
}

// The least of the oldest changes that aren't on the disk, over frames or windows.
pub(crate) fn oldest_of(slots: &Vec<Slot>) -> Option<u64>
    ensures none { IfNone result ((f : ℕ) → f < length slots.now.items → since_of slots.now.items (Some f) ≡ None) }
    ensures least { IfSome result (λ o. (f x : ℕ) → f < length slots.now.items → since_of slots.now.items (Some f) ≡ Some x → o ≤ x) }
    ensures some { IfSome result (λ o. (f : ℕ) × (f < length slots.now.items) × (since_of slots.now.items (Some f) ≡ Some o)) }
{
    let mut least = None;
    'frames: for f in 0..slots.len() {
        least = earlier(least, slots[f].since);
    }
    least
}
