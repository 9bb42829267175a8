// How many entries of a chain have a key.
ghost use Rattle.std.specs.Prelude.{◌≡◌, ◌≤◌, ◌<◌, length, IfSome, IfOk, OnOk};
ghost use Rattle.sg_base.specs.Page.{slots_of, cell_in};
ghost use Rattle.sg_bucket.specs.Bucket.{entries_of};
ghost use Rattle.sg_bucket.specs.Part.{AreEntries, entries_in};
ghost use Rattle.sg_chains.specs.Tally.{key_count, IsTally, IsKeyIn, IsKeyAt, HasChain, IfChain, IsOutline};
ghost use Rattle.sg_ops.specs.Table.{Table};
ghost use Rattle.sg_space.specs.Pages.{CanLook, WritesNone};
ghost use Rattle.sg_space.specs.Units.{HasAt};
ghost use Rattle.sg_space.specs.View.{Counts, OnlyReads};

use sg_base::{PageNo, SlotView};
use sg_bucket::{MOST_KEY, is_entry, key_in};
use sg_space::{PageSpace, SpaceFault};

/// How many entries of a page have a key, and which page follows, 0 for none.
#[derive(Clone, Copy)]
pub struct Tally {
    pub next: PageNo,
    pub count: u64,
}

/// How many slots a page has, and which page follows, 0 for none.
#[derive(Clone, Copy)]
pub struct Outline {
    pub slots: u16,
    pub next: PageNo,
}

// How many entries of a page have a key.
fn count_on(view: &SlotView<'_>, key: &[u8]) -> u64
    ensures counted { AreEntries (slots_of view.now.page.now)
        → result ≡ key_count key.now (entries_in (slots_of view.now.page.now)) }
    ensures few { result < 65536 }
{
    let mut n = 0u64;
    for slot in 0..view.slots() {
        let Some(cell) = view.slot(slot) else {
            continue;
        };
        if !is_entry(cell) {
            continue;
        }
        if key_in(cell) == key {
            n += 1;
        }
    }
    n
}

// How many entries of a page have a key, and which page follows.
fn tally_page<P: PageSpace>(space: &mut P, p: PageNo, key: &[u8]) -> Result<Tally, SpaceFault>
    requires { CanLook (P.view space.old) (P.view space.old).space.pages p.0 }
    ensures counts { Counts (P.view space.old) (P.view space.new) result }
    ensures kept { OnOk result (OnlyReads (P.view space.old) (P.view space.new)) }
    ensures read { IfOk result (λ t. (P.view space.old).Shows → HasAt (P.view space.old).space.pages.at p.0 (IsTally key.now t)) }
    ensures few { IfOk result (λ t. t.count < 65536) }
    ensures later { (t : Table) → P.later t space.old space.new }
    ensures means { (t : Table) → P.means space.old t → P.means space.new t }
    ensures writes { WritesNone (P.view space.old) (P.view space.new) result }
{
    let view = space.page(p)?;
    let count = count_on(&view, key);
    let (next, _) = view.links();
    Ok(Tally {
        next: PageNo(next),
        count,
    })
}

/// How many slots a page has, and which page follows.
pub fn outline_of<P: PageSpace>(space: &mut P, p: PageNo) -> Result<Outline, SpaceFault>
    requires { CanLook (P.view space.old) (P.view space.old).space.pages p.0 }
    ensures counts { Counts (P.view space.old) (P.view space.new) result }
    ensures kept { OnOk result (OnlyReads (P.view space.old) (P.view space.new)) }
    ensures read { IfOk result (λ o. (P.view space.old).Shows → HasAt (P.view space.old).space.pages.at p.0 (IsOutline o.slots o.next.0)) }
    ensures later { (t : Table) → P.later t space.old space.new }
    ensures means { (t : Table) → P.means space.old t → P.means space.new t }
    ensures writes { WritesNone (P.view space.old) (P.view space.new) result }
{
    let view = space.page(p)?;
    let slots = view.slots();
    let (next, _) = view.links();
    Ok(Outline {
        slots,
        next: PageNo(next),
    })
}

// Copies the key of the entry in a slot to the front of the buffer, if there is one, and says how long it is.
fn key_on(view: &SlotView<'_>, slot: u16, into: &mut [u8]) -> Option<usize>
    requires { 128 ≤ length into.old }
    ensures key { AreEntries (slots_of view.now.page.now) → IsKeyIn (cell_in (slots_of view.now.page.now) slot) result into.new }
    ensures within { IfSome result (λ n. n ≤ length into.new) }
{
    let cell = view.slot(slot)?;
    if !is_entry(cell) {
        return None;
    }
    let key = key_in(cell);
    into[..key.len()].copy_from_slice(key);
    Some(key.len())
}

/// Copies the key of the entry in a slot to the front of the buffer, if there is one, and says how long it is.
pub fn key_at<P: PageSpace>(
    space: &mut P,
    p: PageNo,
    slot: u16,
    into: &mut [u8],
) -> Result<Option<usize>, SpaceFault>
    requires room { 128 ≤ length into.old }
    requires there { CanLook (P.view space.old) (P.view space.old).space.pages p.0 }
    ensures counts { Counts (P.view space.old) (P.view space.new) result }
    ensures kept { OnOk result (OnlyReads (P.view space.old) (P.view space.new)) }
    ensures read { IfOk result (λ found. (P.view space.old).Shows → HasAt (P.view space.old).space.pages.at p.0 (IsKeyAt slot found into.new)) }
    ensures within { IfOk result (λ found. IfSome found (λ n. n ≤ length into.new)) }
    ensures later { (t : Table) → P.later t space.old space.new }
    ensures means { (t : Table) → P.means space.old t → P.means space.new t }
    ensures writes { WritesNone (P.view space.old) (P.view space.new) result }
{
    let view = space.page(p)?;
    let found = key_on(&view, slot, into);
    Ok(found)
}

/// How many entries have a key, on all pages of a chain, of which there are so many.
pub fn count<P: PageSpace>(
    space: &mut P,
    first: PageNo,
    pages: u32,
    key: &[u8],
) -> Result<u64, SpaceFault>
    requires { HasChain (P.view space.old) first.0 pages }
    ensures counts { Counts (P.view space.old) (P.view space.new) result }
    ensures kept { OnOk result (OnlyReads (P.view space.old) (P.view space.new)) }
    ensures read { IfOk result (λ n. IfChain (P.view space.old) first.0 pages (λ b. n ≡ key_count key.now (entries_of b.parts))) }
    ensures later { (t : Table) → P.later t space.old space.new }
    ensures means { (t : Table) → P.means space.old t → P.means space.new t }
    ensures writes { WritesNone (P.view space.old) (P.view space.new) result }
{
    let mut page = first;
    let mut n = 0u64;
    'pages: for _ in 0..pages {
        let found = tally_page(space, page, key)?;
        n += found.count;
        page = found.next;
    }
    Ok(n)
}
