// The lists of a pool that holds nothing yet.
ghost use Rattle.std.specs.Prelude.{◌≡◌, None, IfOk, length, replicate};
ghost use Rattle.sg_pool.specs.Held.{no_slot};

use crate::slot::Slot;
use crate::windows::Marks;
use sg_base::OutOfMemory;
use sg_segment::Dirty;
use std::alloc::{AllocError, Global};

// So many frames or windows that hold nothing.
fn no_slots(alloc: Global, count: u32) -> Result<Vec<Slot>, AllocError>
    ensures { IfOk result (λ v. v.items ≡ replicate count no_slot) }
{
    let slot = Slot {
        number: None,
        since: None,
    };
    vec![in alloc; slot; count as usize]
}

// So many pages or bands that are nowhere.
fn no_places(alloc: Global, count: u32) -> Result<Vec<Option<u32>>, AllocError>
    ensures { IfOk result (λ v. v.items ≡ replicate count None) }
{
    vec![in alloc; None; count as usize]
}

// So many windows without a marked byte.
pub(crate) fn no_changes(alloc: Global, count: u32) -> Result<Vec<Marks>, AllocError>
    ensures { IfOk result (λ v. length v.items ≡ count) }
{
    let mut marks = Vec::with_capacity(alloc, count as usize)?;
    'windows: for _k in 0..count {
        marks.push(Marks {
            last: 0,
            dirty: Dirty::new(),
        })?;
    }
    Ok(marks)
}

// So many frames or windows that hold nothing, and a list by number of so many pages or bands.
pub(crate) fn empty_table(
    alloc: Global,
    numbers: u32,
    places: u32,
) -> Result<(Vec<Slot>, Vec<Option<u32>>), OutOfMemory>
    ensures slots { IfOk result (λ r. r.0.items ≡ replicate places no_slot) }
    ensures index { IfOk result (λ r. r.1.items ≡ replicate numbers None) }
{
    let Ok(slots) = no_slots(alloc, places) else {
        return Err(OutOfMemory);
    };
    let Ok(index) = no_places(alloc, numbers) else {
        return Err(OutOfMemory);
    };
    Ok((slots, index))
}
