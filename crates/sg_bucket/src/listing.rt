// The keys of a bucket.
ghost use Rattle.std.specs.Prelude.{◌≡◌, ◌++◌, ◌∷◌, [], IfErr, IfOk, OnOk, MatchResult, ⊤};
ghost use Rattle.sg_base.specs.Page.{slots_of};
ghost use Rattle.sg_bucket.specs.Bucket.{HasLinked, IfLinked, entries_of};
ghost use Rattle.sg_bucket.specs.Division.{keys_of};
ghost use Rattle.sg_bucket.specs.Entry.{IsEntryCell, entry_in};
ghost use Rattle.sg_bucket.specs.Listing.{IsUnlisted, ListsPage};
ghost use Rattle.sg_bucket.specs.Part.{CanLookInto, entries_in};
ghost use Rattle.sg_ops.specs.Table.{Table};
ghost use Rattle.sg_space.specs.Units.{HasAt};
ghost use Rattle.sg_space.specs.Listing.{CountsList, WritesNoneList};
ghost use Rattle.sg_space.specs.View.{OnlyReads};

use crate::bytes::Bytes;
use crate::entry::{is_entry, key_in};
use crate::page::BUCKET_KIND;
use sg_base::{PageNo, SlotView};
use sg_space::{ListFault, PageSpace};
use std::alloc::Global;

// Why the keys of a page aren't listed.
#[derive(Clone, Copy)]
enum Unlisted {
    // What was read can't be.
    Broken,
    // Memory was refused.
    Memory,
}

// Puts the key of an entry behind those that there are.
fn push_key(alloc: Global, keys: &mut Vec<Bytes>, cell: &[u8]) -> Result<(), Unlisted>
    requires { IsEntryCell cell.now }
    ensures keys { OnOk result (keys.new.items ≡ keys.old.items ++ ((entry_in cell.now).key ∷ [])) }
    ensures memory { IfErr result (λ e. e ≡ Unlisted.Memory) }
{
    let Ok(key) = Bytes::copy_of(alloc, key_in(cell)) else {
        return Err(Unlisted::Memory);
    };
    match keys.push(key) {
        Ok(()) => Ok(()),
        Err(_) => Err(Unlisted::Memory),
    }
}

// Puts the keys of a page's entries behind those that there are.
fn list_keys(view: &SlotView<'_>, alloc: Global, keys: &mut Vec<Bytes>) -> Result<(), Unlisted>
    ensures { MatchResult result
        (λ _. keys.new.items ≡ keys.old.items ++ keys_of (entries_in (slots_of view.now.page.now)))
        (λ e. IsUnlisted (slots_of view.now.page.now) e) }
{
    for slot in 0..view.slots() {
        let Some(cell) = view.slot(slot) else {
            continue;
        };
        if !is_entry(cell) {
            return Err(Unlisted::Broken);
        }
        let Ok(()) = push_key(alloc, keys, cell) else {
            return Err(Unlisted::Memory);
        };
    }
    Ok(())
}

// Puts the keys of a page's entries behind those that there are, and answers which page is next, 0 for none.
fn gather<P: PageSpace>(
    space: &mut P,
    alloc: Global,
    p: PageNo,
    keys: &mut Vec<Bytes>,
) -> Result<PageNo, ListFault>
    requires { CanLookInto (P.view space.old) p.0 }
    ensures counts { CountsList (P.view space.old) (P.view space.new) result }
    ensures kept { OnOk result (OnlyReads (P.view space.old) (P.view space.new)) }
    ensures memory { IfErr result (λ e. e ≡ ListFault.Memory → OnlyReads (P.view space.old) (P.view space.new)) }
    ensures quiet { IfErr result (λ e. e ≡ ListFault.Memory → (P.view space.new).faults ≡ (P.view space.old).faults) }
    ensures read { IfOk result (λ next. (P.view space.old).Shows → HasAt (P.view space.old).space.pages.at p.0
        (ListsPage keys.old.items keys.new.items next.0)) }
    ensures later { (t : Table) → P.later t space.old space.new }
    ensures means { (t : Table) → P.means space.old t → P.means space.new t }
    ensures writes { WritesNoneList (P.view space.old) (P.view space.new) result }
{
    let view = space.page(p)?;
    if view.kind() != BUCKET_KIND {
        return Err(space.broken().into());
    }
    let next = view.links().0;
    match list_keys(&view, alloc, keys) {
        Ok(()) => Ok(PageNo(next)),
        Err(Unlisted::Memory) => Err(ListFault::Memory),
        Err(Unlisted::Broken) => Err(space.broken().into()),
    }
}

/// Puts the keys of the bucket's entries behind those that there are, in the order of the chain. After a fault any
/// of them may stand there. `Memory` where memory is refused.
pub fn keys<P: PageSpace>(
    space: &mut P,
    alloc: Global,
    first: PageNo,
    into: &mut Vec<Bytes>,
) -> Result<(), ListFault>
    requires { HasLinked (P.view space.old) first.0 (λ _. ⊤) }
    ensures counts { CountsList (P.view space.old) (P.view space.new) result }
    ensures kept { OnOk result (OnlyReads (P.view space.old) (P.view space.new)) }
    ensures memory { IfErr result (λ e. e ≡ ListFault.Memory → OnlyReads (P.view space.old) (P.view space.new)) }
    ensures quiet { IfErr result (λ e. e ≡ ListFault.Memory → (P.view space.new).faults ≡ (P.view space.old).faults) }
    ensures read { OnOk result (IfLinked (P.view space.old) first.0 (λ b. into.new.items ≡ into.old.items ++ keys_of (entries_of b.parts))) }
    ensures later { (t : Table) → P.later t space.old space.new }
    ensures means { (t : Table) → P.means space.old t → P.means space.new t }
    ensures writes { WritesNoneList (P.view space.old) (P.view space.new) result }
{
    let mut page = first;
    for _passed in 0..space.pages() {
        let next = gather(space, alloc, page, into)?;
        if next.0 == 0 {
            return Ok(());
        }
        page = next;
    }
    Err(space.broken().into())
}
