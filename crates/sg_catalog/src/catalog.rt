ghost use Rattle.std.specs.Prelude.{◌≡◌, IfOk, OnOk, IsPermutation, IsSorted, None, option_map, ⊤, ◌+◌, ◌≤◌, IfErr};
ghost use Rattle.std.specs.Ordering.{nat_cmp};
ghost use Rattle.std.specs.Cmp.Lexicographic.{slice_cmp};
ghost use Rattle.sg_catalog.specs.Calls.{HasCatalog, IfCatalog, DidIf, ShrankIf, HasOne, IsLess, IsBuried, IsRaised, IsRemoved, IsForgotten, CanRaise, CanAdd, IsAdded, object};
ghost use Rattle.sg_catalog.specs.Catalog.{there, buried, rows, is_there, is_tomb_at};
ghost use Rattle.sg_catalog.specs.Look.{fits, names_of};
ghost use Rattle.sg_catalog.specs.Row.{entry_of};
ghost use Rattle.sg_ops.specs.Table.{Table, table_of};
ghost use Rattle.sg_space.specs.Listing.{CountsList, WritesNoneList};
ghost use Rattle.sg_space.specs.Pages.{WritesNone};
ghost use Rattle.sg_space.specs.View.{Counts, OnlyReads};

use crate::change::{clear_row, set_row};
use crate::grow::{place_row, raise_peak};
use crate::look::Found;
use crate::row::{Entry, Row};
use crate::walk::{list_all, search, survey_pages};
use crate::wanted::Wanted;
use sg_base::{Name, PageNo, TxnId};
use sg_ops::Ops;
use sg_space::{ListFault, PageSpace, SpaceFault};
use std::alloc::Global;

// As many rows as a peak can't count.
const MOST_ROWS: u64 = 4_294_967_295;

// The object that was found.
fn entry_of(found: Option<Found>) -> Option<Entry>
    ensures { result ≡ option_map (λ f. entry_of f.row) found }
{
    found.map(|f| Entry {
        kind: f.row.kind,
        root: f.row.root,
    })
}

/// The object of this name, if there is one. Each page is looked at once.
pub fn find<P: PageSpace>(space: &mut P, name: Name) -> Result<Option<Entry>, SpaceFault>
    requires { HasCatalog (P.view space.old) (λ _. ⊤) }
    ensures counts { Counts (P.view space.old) (P.view space.new) result }
    ensures kept { OnOk result (OnlyReads (P.view space.old) (P.view space.new)) }
    ensures read { IfOk result (λ found. IfCatalog (P.view space.old)
        (λ c. found ≡ option_map entry_of (there name (rows c)))) }
    ensures later { (t : Table) → P.later t space.old space.new }
    ensures means { (t : Table) → P.means space.old t → P.means space.new t }
    ensures writes { WritesNone (P.view space.old) (P.view space.new) result }
{
    let found = search(space, &Wanted::There(name))?;
    Ok(entry_of(found))
}

/// A tombstone of this transaction, or of anybody, if there is one: the one that stands first.
pub fn next_buried<P: PageSpace>(
    space: &mut P,
    by: Option<TxnId>,
) -> Result<Option<Entry>, SpaceFault>
    requires { HasCatalog (P.view space.old) (λ _. ⊤) }
    ensures counts { Counts (P.view space.old) (P.view space.new) result }
    ensures kept { OnOk result (OnlyReads (P.view space.old) (P.view space.new)) }
    ensures read { IfOk result (λ found. IfCatalog (P.view space.old)
        (λ c. found ≡ option_map entry_of (buried by (rows c)))) }
    ensures later { (t : Table) → P.later t space.old space.new }
    ensures means { (t : Table) → P.means space.old t → P.means space.new t }
    ensures writes { WritesNone (P.view space.old) (P.view space.new) result }
{
    let found = search(space, &Wanted::Buried(by))?;
    Ok(entry_of(found))
}

/// Makes the object of this name a tombstone of this transaction.
pub fn bury<P: PageSpace>(space: &mut P, ops: &Ops, name: Name, by: TxnId) -> Result<(), SpaceFault>
    requires means { P.means space.old (table_of record_meaning range_meaning ops.now) }
    requires can { HasCatalog (P.view space.old) (HasOne (is_there name)) }
    ensures counts { Counts (P.view space.old) (P.view space.new) result }
    ensures did { OnOk result (DidIf (P.view space.old) (P.view space.new)
        (HasOne (is_there name)) (IsBuried name by)) }
    ensures within { OnOk result (IfCatalog (P.view space.old) (HasOne (is_there name))) }
    ensures later { P.later (table_of record_meaning range_meaning ops.now) space.old space.new }
    ensures means { P.means space.new (table_of record_meaning range_meaning ops.now) }
    ensures few { (P.view space.new).records ≤ (P.view space.old).records + 1 }
{
    let sought = search(space, &Wanted::There(name))?;
    let Some(found) = sought else {
        return Err(space.broken());
    };
    let row = Row {
        dropper: Some(by),
        ..found.row
    };
    set_row(space, ops, found.spot, row)?;
    Ok(())
}

/// Makes a tombstone of this name and root the object again. No object of the name is there.
pub fn unbury<P: PageSpace>(
    space: &mut P,
    ops: &Ops,
    name: Name,
    root: PageNo,
) -> Result<(), SpaceFault>
    requires means { P.means space.old (table_of record_meaning range_meaning ops.now) }
    requires can { HasCatalog (P.view space.old) (CanRaise name root.0) }
    ensures counts { Counts (P.view space.old) (P.view space.new) result }
    ensures did { OnOk result (DidIf (P.view space.old) (P.view space.new)
        (CanRaise name root.0) (IsRaised name root.0)) }
    ensures within { OnOk result (IfCatalog (P.view space.old) (CanRaise name root.0)) }
    ensures later { P.later (table_of record_meaning range_meaning ops.now) space.old space.new }
    ensures means { P.means space.new (table_of record_meaning range_meaning ops.now) }
    ensures few { (P.view space.new).records ≤ (P.view space.old).records + 1 }
{
    if search(space, &Wanted::There(name))?.is_some() {
        return Err(space.broken());
    }
    let sought = search(space, &Wanted::TombOf(name, root))?;
    let Some(found) = sought else {
        return Err(space.broken());
    };
    let row = Row {
        dropper: None,
        ..found.row
    };
    set_row(space, ops, found.spot, row)?;
    Ok(())
}

// Takes the first row out that is wanted.
fn take_out<P: PageSpace>(space: &mut P, ops: &Ops, wanted: &Wanted) -> Result<(), SpaceFault>
    requires means { P.means space.old (table_of record_meaning range_meaning ops.now) }
    requires can { HasCatalog (P.view space.old) (HasOne (fits wanted.now)) }
    ensures counts { Counts (P.view space.old) (P.view space.new) result }
    ensures did { OnOk result (ShrankIf (P.view space.old) (P.view space.new)
        (HasOne (fits wanted.now)) (IsLess (fits wanted.now))) }
    ensures within { OnOk result (IfCatalog (P.view space.old) (HasOne (fits wanted.now))) }
    ensures later { P.later (table_of record_meaning range_meaning ops.now) space.old space.new }
    ensures means { P.means space.new (table_of record_meaning range_meaning ops.now) }
    ensures few { (P.view space.new).records ≤ (P.view space.old).records + 1 }
{
    let sought = search(space, wanted)?;
    let Some(found) = sought else {
        return Err(space.broken());
    };
    clear_row(space, ops, found.spot)?;
    Ok(())
}

/// Takes the object of this name out of the catalogue.
pub fn remove<P: PageSpace>(space: &mut P, ops: &Ops, name: Name) -> Result<(), SpaceFault>
    requires means { P.means space.old (table_of record_meaning range_meaning ops.now) }
    requires can { HasCatalog (P.view space.old) (HasOne (is_there name)) }
    ensures counts { Counts (P.view space.old) (P.view space.new) result }
    ensures did { OnOk result (ShrankIf (P.view space.old) (P.view space.new)
        (HasOne (is_there name)) (IsRemoved name)) }
    ensures within { OnOk result (IfCatalog (P.view space.old) (HasOne (is_there name))) }
    ensures later { P.later (table_of record_meaning range_meaning ops.now) space.old space.new }
    ensures means { P.means space.new (table_of record_meaning range_meaning ops.now) }
    ensures few { (P.view space.new).records ≤ (P.view space.old).records + 1 }
{
    take_out(space, ops, &Wanted::There(name))?;
    Ok(())
}

/// Takes a tombstone with this root out of the catalogue, the one that stands first.
pub fn forget<P: PageSpace>(space: &mut P, ops: &Ops, root: PageNo) -> Result<(), SpaceFault>
    requires means { P.means space.old (table_of record_meaning range_meaning ops.now) }
    requires can { HasCatalog (P.view space.old) (HasOne (is_tomb_at root.0)) }
    ensures counts { Counts (P.view space.old) (P.view space.new) result }
    ensures did { OnOk result (ShrankIf (P.view space.old) (P.view space.new)
        (HasOne (is_tomb_at root.0)) (IsForgotten root.0)) }
    ensures within { OnOk result (IfCatalog (P.view space.old) (HasOne (is_tomb_at root.0))) }
    ensures later { P.later (table_of record_meaning range_meaning ops.now) space.old space.new }
    ensures means { P.means space.new (table_of record_meaning range_meaning ops.now) }
    ensures few { (P.view space.new).records ≤ (P.view space.old).records + 1 }
{
    take_out(space, ops, &Wanted::TombAt(root))?;
    Ok(())
}

/// Puts an object under a name that has none. The peak becomes the number of rows where that is more.
/// It takes one page at most, and none but where each page has its 79 rows.
pub fn add<P: PageSpace>(
    space: &mut P,
    ops: &Ops,
    name: Name,
    entry: Entry,
) -> Result<(), SpaceFault>
    requires means { P.means space.old (table_of record_meaning range_meaning ops.now) }
    requires can { HasCatalog (P.view space.old) (CanAdd (P.view space.old) name) }
    ensures counts { Counts (P.view space.old) (P.view space.new) result }
    ensures did { OnOk result (DidIf (P.view space.old) (P.view space.new)
        (CanAdd (P.view space.old) name) (IsAdded (object name entry))) }
    ensures within { OnOk result (IfCatalog (P.view space.old) (λ c. there name (rows c) ≡ None)) }
    ensures later { P.later (table_of record_meaning range_meaning ops.now) space.old space.new }
    ensures means { P.means space.new (table_of record_meaning range_meaning ops.now) }
    ensures few { (P.view space.new).records ≤ (P.view space.old).records + 5 }
{
    if search(space, &Wanted::There(name))?.is_some() {
        return Err(space.broken());
    }
    let survey = survey_pages(space)?;
    if survey.rows >= MOST_ROWS {
        return Err(space.broken());
    }
    let row = Row {
        kind: entry.kind,
        dropper: None,
        root: entry.root,
        name,
    };
    place_row(space, ops, survey, row)?;
    raise_peak(space, ops, survey.peak, survey.rows as u32 + 1)?;
    Ok(())
}

/// The names of all objects, in the order of their bytes. Each page is looked at once. `Memory` where
/// memory is refused; no other call takes any.
pub fn names<P: PageSpace>(space: &mut P, alloc: Global) -> Result<Vec<Name>, ListFault>
    requires { HasCatalog (P.view space.old) (λ _. ⊤) }
    ensures counts { CountsList (P.view space.old) (P.view space.new) result }
    ensures kept { OnOk result (OnlyReads (P.view space.old) (P.view space.new)) }
    ensures memory { IfErr result (λ e. e ≡ ListFault.Memory → OnlyReads (P.view space.old) (P.view space.new)) }
    ensures quiet { IfErr result (λ e. e ≡ ListFault.Memory → (P.view space.new).faults ≡ (P.view space.old).faults) }
    ensures read { IfOk result (λ v. IfCatalog (P.view space.old)
        (λ c. IsPermutation (names_of (rows c)) v.items)) }
    ensures order { IfOk result (λ v. IsSorted (slice_cmp nat_cmp) v.items) }
    ensures later { (t : Table) → P.later t space.old space.new }
    ensures means { (t : Table) → P.means space.old t → P.means space.new t }
    ensures writes { WritesNoneList (P.view space.old) (P.view space.new) result }
{
    let mut all = list_all(space, alloc)?;
    all.sort_unstable();
    Ok(all)
}
