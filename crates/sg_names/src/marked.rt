// The names of the catalogue, with marks by which most of them are told apart at a first look.
ghost use Rattle.std.specs.Prelude.{◌≡◌, ℕ, ◌+◌, ◌*◌, ◌<◌, ◌≤◌, false, Some, slice_get, get_or, length, IfErr, OnOk};
ghost use Rattle.sg_names.specs.Marked.{mark_of, IsMarked};
ghost use Rattle.sg_names.specs.Tally.{HasChain, IfChain, IsOnce};
ghost use Rattle.sg_ops.specs.Table.{Table};
ghost use Rattle.sg_reach.specs.Fault.{CountsReach, WritesNoneReach, IfBroken, IsAtPage, IsAmongPages};
ghost use Rattle.sg_space.specs.Pages.{CanLook};
ghost use Rattle.sg_space.specs.View.{OnlyReads};

use crate::tally::{Counted, count, name_at, tally_page};
use sg_base::{Name, PageNo};
use sg_linear::fnv_1a;
use sg_reach::ReachFault;
use sg_space::PageSpace;

const FIRST: PageNo = PageNo(0);

// The mark of a name, of so many.
fn mark_of(name: &Name, marks: usize) -> usize
    requires { 0 < marks }
    ensures value { result ≡ mark_of marks name.now }
    ensures within { result < marks }
{
    (fnv_1a(name.text()) % marks as u64) as usize
}

// Looks that the name of each object on a page is that of no other. A name whose mark is clear is new, and is only
// marked; the others are counted.
fn check_marked<P: PageSpace>(
    space: &mut P,
    pages: u32,
    p: PageNo,
    marks: &mut [bool],
) -> Result<(), ReachFault>
    requires some { 0 < length marks.old }
    requires chain { HasChain (P.view space.old) pages }
    requires there { CanLook (P.view space.old) (P.view space.old).space.pages p.0 }
    ensures counts { CountsReach (P.view space.old) (P.view space.new) result }
    ensures kept { OnOk result (OnlyReads (P.view space.old) (P.view space.new)) }
    ensures read { OnOk result (IfChain (P.view space.old) pages
        (λ c. (j : ℕ) → slice_get c.pages j ≡ Some p.0 → IsMarked c (79 * j) marks.old → IsMarked c (79 * j + 79) marks.new)) }
    ensures broken { IfErr result (IfBroken (IfChain (P.view space.old) pages (λ c. ¬ IsOnce c))) }
    ensures long { length marks.new ≡ length marks.old }
    ensures later { (t : Table) → P.later t space.old space.new }
    ensures means { (t : Table) → P.means space.old t → P.means space.new t }
    ensures writes { WritesNoneReach (P.view space.old) (P.view space.new) result }
    ensures names { IfErr result (IsAtPage p.0) }
{
    for slot in 0..79u16 {
        let Some(name) = name_at(space, p, slot)? else {
            continue;
        };
        let mark = mark_of(&name, marks.len());
        if !marks[mark] {
            marks[mark] = true;
            continue;
        }
        if count(space, pages, &Counted::Named(name))? > 1 {
            return Err(ReachFault::Broken(p));
        }
    }
    Ok(())
}

/// Looks that the name of each object is that of no other, in a catalogue of so many pages. The marks, which are
/// clear, are the caller's; the more there are the fewer names are counted.
pub fn check_names_by<P: PageSpace>(
    space: &mut P,
    pages: u32,
    marks: &mut [bool],
) -> Result<(), ReachFault>
    requires some { 0 < length marks.old }
    requires clear { (i : ℕ) → get_or marks.old i false ≡ false }
    requires chain { HasChain (P.view space.old) pages }
    ensures counts { CountsReach (P.view space.old) (P.view space.new) result }
    ensures kept { OnOk result (OnlyReads (P.view space.old) (P.view space.new)) }
    ensures read { OnOk result (IfChain (P.view space.old) pages IsOnce) }
    ensures broken { IfErr result (IfBroken (IfChain (P.view space.old) pages (λ c. ¬ IsOnce c))) }
    ensures later { (t : Table) → P.later t space.old space.new }
    ensures means { (t : Table) → P.means space.old t → P.means space.new t }
    ensures writes { WritesNoneReach (P.view space.old) (P.view space.new) result }
    ensures place { IfErr result (λ e. IfChain (P.view space.old) pages (λ c. IsAmongPages c.pages e)) }
{
    let mut page = FIRST;
    'pages: for _ in 0..pages {
        check_marked(space, pages, page, marks)?;
        let found = tally_page(space, page, &Counted::Every)?;
        page = found.next;
    }
    Ok(())
}
