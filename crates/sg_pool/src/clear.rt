ghost use Rattle.std.specs.Prelude.{◌≡◌, ◌⊎◌, ◌≤◌, ◌<◌, ℕ, false, Some, None, length, get_or};
ghost use Rattle.sg_pool.specs.Held.{page_in, since_of};
ghost use Rattle.sg_pool.specs.Windows.{no_marks, marked_in};

use crate::slot::Slot;
use crate::windows::Marks;

// The frames from `from` to `to` have no change that isn't on the disk.
pub(crate) fn clear_since(slots: &mut Vec<Slot>, from: usize, to: usize)
    requires order { from ≤ to }
    requires within { to ≤ length slots.old.items }
    ensures count { length slots.new.items ≡ length slots.old.items }
    ensures pages { (h : ℕ) → page_in slots.new.items h ≡ page_in slots.old.items h }
    ensures cleared { (h : ℕ) → from ≤ h → h < to → since_of slots.new.items (Some h) ≡ None }
    ensures others { (h : ℕ) → (h < from) ⊎ (to ≤ h) → since_of slots.new.items (Some h) ≡ since_of slots.old.items (Some h) }
{
    'frames: for f in from..to {
        let number = slots[f].number;
        slots[f] = Slot {
            number,
            since: None,
        };
    }
}

// No byte of the windows from `from` to `to` is marked.
pub(crate) fn clear_marks(marks: &mut Vec<Marks>, from: usize, to: usize)
    requires order { from ≤ to }
    requires within { to ≤ length marks.old.items }
    ensures count { length marks.new.items ≡ length marks.old.items }
    ensures cleared { (w k : ℕ) → from ≤ w → w < to → marked_in marks.new.items (Some w) k ≡ false }
    ensures others { (w : ℕ) → (w < from) ⊎ (to ≤ w) → get_or marks.new.items w no_marks ≡ get_or marks.old.items w no_marks }
{
    'windows: for w in from..to {
        marks[w].dirty.clear();
    }
}
