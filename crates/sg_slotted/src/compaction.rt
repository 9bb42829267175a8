// All free bytes in one place, in front of the cells.
ghost use Rattle.std.specs.Prelude.{◌≡◌, ◌+◌, ◌≤◌, [], length};
ghost use Rattle.sg_base.specs.Page.{start_of, lost_of, directory_end, slots_of, header_of, bytes_of, IsSlotted};
ghost use Rattle.sg_slotted.specs.Layout.{emptied, rebuilt, compacted, roomy};

use crate::steps::{fill, grow, reset};
use crate::writes::number_u16;
use sg_base::{PAGE_SIZE, SlotView};

// The slots and cells of another page, one after the other.
fn rebuild(page: &mut [u8], view: &SlotView<'_>)
    requires size { length page.old ≡ 4096 }
    ensures slotted { IsSlotted page.new }
    ensures slots { slots_of page.new ≡ slots_of view.now.page.now }
    ensures header { header_of page.new ≡ header_of page.old }
    ensures lost { lost_of page.new ≡ 0 }
    ensures bytes { page.new ≡ rebuilt (emptied page.old) (slots_of view.now.page.now) (length (slots_of view.now.page.now)) }
{
    reset(page);
    let count = view.slots();
    'slots: for s in 0..count {
        grow(page);
        if let Some(cell) = view.slot(s) {
            fill(page, s, cell);
        }
    }
}

// No byte of the cells' area belongs to no slot any more.
pub fn compact(page: &mut [u8])
    requires { IsSlotted page.old }
    ensures slotted { IsSlotted page.new }
    ensures slots { slots_of page.new ≡ slots_of page.old }
    ensures header { header_of page.new ≡ header_of page.old }
    ensures lost { lost_of page.new ≡ 0 }
    ensures bytes { page.new ≡ compacted page.old }
{
    let mut old = [0; PAGE_SIZE];
    old.copy_from_slice(page);
    rebuild(page, &SlotView::new(&old));
}

// So many free bytes behind the directory.
pub fn make_room(page: &mut [u8], need: usize)
    requires slotted { IsSlotted page.old }
    requires enough { bytes_of (slots_of page.old) + need ≤ 4072 }
    ensures slotted { IsSlotted page.new }
    ensures slots { slots_of page.new ≡ slots_of page.old }
    ensures header { header_of page.new ≡ header_of page.old }
    ensures room { directory_end page.new + need ≤ start_of page.new }
    ensures bytes { page.new ≡ roomy page.old need }
{
    let directory = 24 + 4 * number_u16(page, 10) as usize;
    let start = number_u16(page, 12) as usize;
    if start < directory + need {
        compact(page);
    }
}
