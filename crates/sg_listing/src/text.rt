// The text of all objects.
ghost use Rattle.std.specs.Prelude.{◌≡◌, ◌≤◌, length, IfOk, ⊤};
ghost use Rattle.std.specs.FinMap.{entries};
ghost use Rattle.sg_base.specs.Ends.{HasRisen};
ghost use Rattle.sg_contents.specs.Meaning.{reading};
ghost use Rattle.sg_contents.specs.Standing.{HasContents, IfContents};
ghost use Rattle.sg_lines.specs.Parts.{lines_of, parts_of};
ghost use Rattle.sg_lines.specs.Text.{text_of};
ghost use Rattle.sg_listing.specs.Telling.{OnlyTold, OnListener, IsWritten};
ghost use Rattle.sg_ops.specs.Table.{Table};
ghost use Rattle.sg_reading.specs.Reading.{objects};

use crate::fault::TellFault;
use crate::objects::tell;
use sg_base::Sink;
use sg_lines::{Writer, parts_make_the_text, write_heading};
use sg_space::PageSpace;
use std::alloc::Global;

// Writes the lines of all objects, and gives how many objects there are.
fn write_lines<P: PageSpace, K: Sink>(
    space: &mut P,
    alloc: Global,
    out: &mut K,
) -> Result<u64, TellFault>
    requires { HasContents (P.view space.old) (λ _. ⊤) }
    ensures space { OnlyTold (P.view space.old) (P.view space.new) result }
    ensures lines { IfContents (P.view space.old) (λ s.
        IsWritten (K.taken out.old) (lines_of (parts_of (objects (reading s)))) (K.taken out.new) result) }
    ensures count { IfOk result (λ n. IfContents (P.view space.old) (λ s. n ≡ length (entries (objects (reading s))))) }
    ensures counted { OnListener result (K.faults out.new ≡ K.faults out.old) (HasRisen (K.faults out.old) (K.faults out.new)) }
    ensures later { (t : Table) → P.later t space.old space.new }
    ensures means { (t : Table) → P.means space.old t → P.means space.new t }
{
    let mut writer = Writer { sink: out };
    let told = tell(space, alloc, &mut writer);
    let Writer { sink: _ } = writer;
    told
}

/// Writes the text of the objects that the pages and bands of a space hold, in the order of their names, and then how many they are. No
/// object is held, and the space is only read.
///
/// `Listener` where the sink fails, which then took a front of the text. `Space` and `Memory` as `tell`.
pub fn write_text<P: PageSpace, K: Sink>(
    space: &mut P,
    alloc: Global,
    out: &mut K,
) -> Result<(), TellFault>
    requires { HasContents (P.view space.old) (λ _. ⊤) }
    ensures space { OnlyTold (P.view space.old) (P.view space.new) result }
    ensures text { IfContents (P.view space.old) (λ s.
        IsWritten (K.taken out.old) (text_of (objects (reading s))) (K.taken out.new) result) }
    ensures counted { OnListener result (K.faults out.new ≡ K.faults out.old) (HasRisen (K.faults out.old) (K.faults out.new)) }
    ensures later { (t : Table) → P.later t space.old space.new }
    ensures means { (t : Table) → P.means space.old t → P.means space.new t }
{
    parts_make_the_text();
    let count = write_lines(space, alloc, out)?;
    write_heading(b"objects", b"", None, count, out)?;
    Ok(())
}
