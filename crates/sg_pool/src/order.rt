// The frames by their last use.
ghost use Rattle.std.specs.Prelude.{◌≡◌, ◌↔◌, ◌≤◌, ◌<◌, ◌+◌, ℕ, Bool, true, Some, nat_eq, length, IfOk, IsSome, IsTrue};
ghost use Rattle.std.specs.List.{All};
ghost use Rattle.std.specs.Map.{lookup, set_value};
ghost use Rattle.std.specs.NonZero.{non_zero_usize_get};
ghost use Rattle.lru.specs.LruCache.{lru_cache};
ghost use Rattle.sg_pool.specs.Order.{IsVictim, IsOrder, IsUsed, below, pins_of};

use lru::LruCache;
use std::alloc::{AllocError, Global};
use std::num::NonZeroUsize;

// Uses a frame. It takes no memory.
pub(crate) fn touch(order: &mut LruCache<u32, bool>, frame: u32)
    requires there { IsSome (lookup (nat_eq frame) order.old.entries) }
    ensures used { IsUsed frame order.old.entries order.new.entries }
    ensures kept { (count : ℕ) → IsOrder count order.old.entries → IsOrder count order.new.entries }
{
    order.promote(&frame);
}

// The frame that goes next: the least recently used one that isn't pinned.
pub(crate) fn next_out(order: &LruCache<u32, bool>) -> u32
    ensures victim { (count : ℕ) → 32 ≤ count → IsOrder count order.now.entries → IsVictim order.now.entries result }
    ensures frame { (count : ℕ) → 32 ≤ count → IsOrder count order.now.entries → result < count }
{
    let mut left = order.iter();
    while let Some((frame, is_pinned)) = left.next_back() {
        if !*is_pinned {
            return *frame;
        }
    }
    0
}

// Pins a frame, or unpins it, and leaves the order as it is.
pub(crate) fn set_pin(order: &mut LruCache<u32, bool>, frame: u32, is_pinned: bool)
    requires there { IsSome (lookup (nat_eq frame) order.old.entries) }
    ensures entries { order.new.entries ≡ set_value (nat_eq frame) order.old.entries is_pinned }
{
    if let Some(pin) = order.peek_mut(&frame) {
        *pin = is_pinned;
    }
}

// Whether a frame is pinned.
pub(crate) fn is_pinned(order: &LruCache<u32, bool>, frame: u32) -> bool
    ensures { IsTrue result ↔ (lookup (nat_eq frame) order.now.entries ≡ Some true) }
{
    match order.peek(&frame) {
        Some(is_pinned) => *is_pinned,
        None => false,
    }
}

// How many frames are pinned.
pub(crate) fn pin_count(order: &LruCache<u32, bool>) -> usize
    ensures { result ≡ pins_of order.now.entries }
{
    let _most = order.len();
    let mut left = order.iter();
    let mut count = 0;
    while let Some((_frame, is_pinned)) = left.next_back() {
        if *is_pinned {
            count += 1;
        }
    }
    count
}

// All frames, none used yet: the lower ones go first.
pub(crate) fn all_frames(
    alloc: Global,
    cap: NonZeroUsize,
) -> Result<LruCache<u32, bool>, AllocError>
    requires { non_zero_usize_get cap ≤ 16384 }
    ensures { IfOk result (λ o. o ≡ lru_cache (below (non_zero_usize_get cap)) (non_zero_usize_get cap)) }
{
    let mut order = LruCache::new(alloc, cap)?;
    for k in 0..cap.get() as u32 {
        order.put(k, false)?;
    }
    Ok(order)
}
