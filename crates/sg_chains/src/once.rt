// The keys of a chain, each of which is that of one entry.
ghost use Rattle.std.specs.Prelude.{◌≡◌, ℕ, ◌+◌, Some, slice_get, slice_index, IfOk, IfErr, OnOk};
ghost use Rattle.sg_bucket.specs.Bucket.{entries_of};
ghost use Rattle.sg_bucket.specs.Entry.{AreOnce};
ghost use Rattle.sg_chains.specs.Tally.{HasChain, IfChain, IsOnceAt};
ghost use Rattle.sg_ops.specs.Table.{Table};
ghost use Rattle.sg_reach.specs.Fault.{CountsReach, WritesNoneReach, IfBroken, IsAtPage, IsAmongPages};
ghost use Rattle.sg_space.specs.Pages.{CanLook};
ghost use Rattle.sg_space.specs.View.{OnlyReads};

use crate::tally::{count, key_at, outline_of};
use sg_base::PageNo;
use sg_bucket::MOST_KEY;
use sg_reach::ReachFault;
use sg_space::PageSpace;

// Looks that the key of each entry on a page is that of no other. Answers which page follows.
fn check_page<P: PageSpace>(
    space: &mut P,
    first: PageNo,
    pages: u32,
    p: PageNo,
) -> Result<PageNo, ReachFault>
    requires chain { HasChain (P.view space.old) first.0 pages }
    requires there { CanLook (P.view space.old) (P.view space.old).space.pages p.0 }
    ensures counts { CountsReach (P.view space.old) (P.view space.new) result }
    ensures kept { OnOk result (OnlyReads (P.view space.old) (P.view space.new)) }
    ensures follows { IfOk result (λ next. IfChain (P.view space.old) first.0 pages
        (λ b. (i : ℕ) → slice_get b.pages i ≡ Some p.0 → slice_index b.pages (i + 1) ≡ next.0)) }
    ensures read { OnOk result (IfChain (P.view space.old) first.0 pages
        (λ b. (i : ℕ) → slice_get b.pages i ≡ Some p.0 → (slot : ℕ) → IsOnceAt b i slot)) }
    ensures broken { IfErr result (IfBroken (IfChain (P.view space.old) first.0 pages (λ b. ¬ AreOnce (entries_of b.parts)))) }
    ensures later { (t : Table) → P.later t space.old space.new }
    ensures means { (t : Table) → P.means space.old t → P.means space.new t }
    ensures writes { WritesNoneReach (P.view space.old) (P.view space.new) result }
    ensures names { IfErr result (IsAtPage p.0) }
{
    let outline = outline_of(space, p)?;
    for slot in 0..outline.slots {
        let mut key = [0u8; MOST_KEY];
        let Some(n) = key_at(space, p, slot, &mut key)? else {
            continue;
        };
        if count(space, first, pages, &key[..n])? > 1 {
            return Err(ReachFault::Broken(p));
        }
    }
    Ok(outline.next)
}

/// Looks that the key of each entry of a chain of so many pages is that of no other. `Broken` names the page of the
/// first of two.
pub fn check_once<P: PageSpace>(space: &mut P, first: PageNo, pages: u32) -> Result<(), ReachFault>
    requires { HasChain (P.view space.old) first.0 pages }
    ensures counts { CountsReach (P.view space.old) (P.view space.new) result }
    ensures kept { OnOk result (OnlyReads (P.view space.old) (P.view space.new)) }
    ensures read { OnOk result (IfChain (P.view space.old) first.0 pages (λ b. AreOnce (entries_of b.parts))) }
    ensures broken { IfErr result (IfBroken (IfChain (P.view space.old) first.0 pages (λ b. ¬ AreOnce (entries_of b.parts)))) }
    ensures later { (t : Table) → P.later t space.old space.new }
    ensures means { (t : Table) → P.means space.old t → P.means space.new t }
    ensures writes { WritesNoneReach (P.view space.old) (P.view space.new) result }
    ensures place { IfErr result (λ e. IfChain (P.view space.old) first.0 pages (λ b. IsAmongPages b.pages e)) }
{
    let mut page = first;
    'pages: for _ in 0..pages {
        page = check_page(space, first, pages, page)?;
    }
    Ok(())
}
