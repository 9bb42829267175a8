// One page of the catalogue in a space.
ghost use Rattle.std.specs.Prelude.{◌≡◌, ◌<◌, ◌≤◌, IfOk, OnOk, length, IfErr};
ghost use Rattle.sg_catalog.specs.Look.{fits};
ghost use Rattle.sg_catalog.specs.Steps.{HasRaw, IfPage, SeesPage, MeasuresPage, GathersPage};
ghost use Rattle.sg_catalog.specs.Catalog.{Owns};
ghost use Rattle.sg_ops.specs.Table.{Table};
ghost use Rattle.sg_space.specs.Listing.{CountsList, WritesNoneList};
ghost use Rattle.sg_space.specs.Pages.{WritesNone};
ghost use Rattle.sg_space.specs.View.{Counts, OnlyReads};

use crate::look::{Broken, Header, Measured, Seen, Unlisted, list_page, read_measure, see};
use crate::wanted::Wanted;
use sg_base::{Name, PageNo};
use sg_space::{ListFault, PageSpace, SpaceFault};

/// What a search sees of a page.
pub fn look<P: PageSpace>(space: &mut P, p: PageNo, wanted: &Wanted) -> Result<Seen, SpaceFault>
    requires { HasRaw (P.view space.old) (λ c. Owns c p.0) }
    ensures counts { Counts (P.view space.old) (P.view space.new) result }
    ensures kept { OnOk result (OnlyReads (P.view space.old) (P.view space.new)) }
    ensures read { IfOk result (λ s. IfPage (P.view space.old) p.0 (λ c j. SeesPage (fits wanted.now) c j s)) }
    ensures later { (t : Table) → P.later t space.old space.new }
    ensures means { (t : Table) → P.means space.old t → P.means space.new t }
    ensures writes { WritesNone (P.view space.old) (P.view space.new) result }
{
    let view = space.page(p)?;
    match see(&view, p, wanted) {
        Ok(seen) => Ok(seen),
        Err(Broken) => Err(space.broken()),
    }
}

/// How full a page is.
pub fn measure<P: PageSpace>(space: &mut P, p: PageNo) -> Result<Measured, SpaceFault>
    requires { HasRaw (P.view space.old) (λ c. Owns c p.0) }
    ensures counts { Counts (P.view space.old) (P.view space.new) result }
    ensures kept { OnOk result (OnlyReads (P.view space.old) (P.view space.new)) }
    ensures read { IfOk result (λ m. IfPage (P.view space.old) p.0
        (λ c j. MeasuresPage (P.view space.old).space.pages.at c j m)) }
    ensures few { IfOk result (λ m. m.measure.full ≤ 79) }
    ensures later { (t : Table) → P.later t space.old space.new }
    ensures means { (t : Table) → P.means space.old t → P.means space.new t }
    ensures writes { WritesNone (P.view space.old) (P.view space.new) result }
{
    let view = space.page(p)?;
    match read_measure(&view) {
        Ok(found) => Ok(found),
        Err(Broken) => Err(space.broken()),
    }
}

/// Puts the names of a page's objects behind those that there are, and answers what it says beside
/// its rows.
pub fn gather<P: PageSpace>(
    space: &mut P,
    p: PageNo,
    names: &mut Vec<Name>,
) -> Result<Header, ListFault>
    requires { HasRaw (P.view space.old) (λ c. Owns c p.0) }
    ensures counts { CountsList (P.view space.old) (P.view space.new) result }
    ensures kept { OnOk result (OnlyReads (P.view space.old) (P.view space.new)) }
    ensures memory { IfErr result (λ e. e ≡ ListFault.Memory → OnlyReads (P.view space.old) (P.view space.new)) }
    ensures quiet { IfErr result (λ e. e ≡ ListFault.Memory → (P.view space.new).faults ≡ (P.view space.old).faults) }
    ensures read { IfOk result (λ head. IfPage (P.view space.old) p.0
        (λ c j. GathersPage c j names.old.items names.new.items head)) }
    ensures later { (t : Table) → P.later t space.old space.new }
    ensures means { (t : Table) → P.means space.old t → P.means space.new t }
    ensures writes { WritesNoneList (P.view space.old) (P.view space.new) result }
{
    let view = space.page(p)?;
    match list_page(&view, names) {
        Ok(head) => Ok(head),
        Err(Unlisted::Memory) => Err(ListFault::Memory),
        Err(Unlisted::Broken) => Err(space.broken().into()),
    }
}
