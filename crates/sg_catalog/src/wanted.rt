// Which row a search is for.
ghost use Rattle.std.specs.Prelude.{◌≡◌};
ghost use Rattle.std.specs.Str.{bytes_eq};
ghost use Rattle.sg_catalog.specs.Catalog.{is_buried, is_by};
ghost use Rattle.sg_catalog.specs.Look.{fits};

use crate::row::Row;
use sg_base::{Name, PageNo, TxnId};

/// Which row a search is for.
#[derive(Clone, Copy)]
pub enum Wanted {
    /// The object of this name.
    There(Name),
    /// A tombstone of this dropper, or of anybody.
    Buried(Option<TxnId>),
    /// A tombstone of an object that was reached from this page.
    TombAt(PageNo),
    /// The same, under this name.
    TombOf(Name, PageNo),
}

fn is_named(row: &Row, name: Name) -> bool
    ensures { result ≡ bytes_eq row.now.name name }
{
    row.name == name
}

fn is_buried(row: &Row, by: Option<TxnId>) -> bool
    ensures { result ≡ is_buried by row.now }
{
    match (by, row.dropper) {
        (None, dropper) => dropper.is_some(),
        (Some(_), None) => false,
        (Some(by), Some(dropper)) => dropper == by,
    }
}

impl Wanted {
    /// Whether the row is one of them.
    pub fn fits(&self, row: &Row) -> bool
        ensures { result ≡ fits self.now row.now }
    {
        match *self {
            Wanted::There(name) => row.dropper.is_none() && is_named(row, name),
            Wanted::Buried(by) => is_buried(row, by),
            Wanted::TombAt(root) => row.dropper.is_some() && row.root == root,
            Wanted::TombOf(name, root) => {
                row.dropper.is_some() && row.root == root && is_named(row, name)
            }
        }
    }
}
