ghost use Rattle.std.specs.Prelude.{◌≡◌, IfOk, IfErr, option_and_then, string_bytes};
ghost use Rattle.std.specs.List.{list_all};
ghost use Rattle.std.specs.BTreeMap.{keys};
ghost use Rattle.toml.specs.View.{view, table_view};
ghost use Rattle.toml.specs.Data.{as_integer};
ghost use Rattle.sg_command.specs.Sizes.{in_field, number_at, is_size, are_sizes, sizes_in, Says};

use sg_geometry::Geometry;
use std::alloc::Global;
use toml::{Table, Value};

/// The most bytes that the text of a geometry may have.
const MOST_BYTES: usize = 65_536;

/// Why a text says no geometry.
#[derive(Clone, Copy, Debug, PartialEq, Eq)]
pub enum GeometryError {
    /// It is too long, no TOML, or says something else than fit sizes.
    Bad,
    /// There was not enough memory.
    Memory,
}

// The number in an integer, if a field of four bytes holds it.
fn in_field(number: i64) -> Option<u32>
    ensures { result ≡ in_field number }
{
    u32::try_from(number).ok()
}

// The number at a key, or the default where the key isn't there.
fn number_at(table: &Table, key: &str, default: u32) -> Option<u32>
    ensures { result ≡ number_at key.now default (table_view table.now) }
{
    match table.get(key) {
        Some(value) => match value.as_integer() {
            Some(number) => in_field(number),
            None => None,
        },
        None => Some(default),
    }
}

// Whether a key is one of the four.
fn is_size(key: &str) -> bool
    ensures { result ≡ is_size key.now }
{
    key == "pages" || key == "bands" || key == "frames" || key == "windows"
}

// Whether each key is one of the four.
fn are_sizes(table: &Table) -> bool
    ensures { result ≡ are_sizes (table_view table.now) }
{
    are_known(table)
}

fn are_known(table: &Table) -> bool
    ensures { result ≡ list_all (λ key. is_size (string_bytes key)) (keys table.now) }
{
    table.keys().all(|key| is_size(key.as_str()))
}

// The sizes that a table says, if it says fit ones.
fn sizes_in(table: &Table) -> Option<Geometry>
    ensures { result ≡ sizes_in (table_view table.now) }
{
    if !are_sizes(table) {
        return None;
    }
    let usual = Geometry::default();
    let sizes = Geometry {
        pages: number_at(table, "pages", usual.pages)?,
        bands: number_at(table, "bands", usual.bands)?,
        frames: number_at(table, "frames", usual.frames)?,
        windows: number_at(table, "windows", usual.windows)?,
    };
    if sizes.is_fit() { Some(sizes) } else { None }
}

/// The sizes that the text of a geometry file says: a TOML document of at most 65,536 bytes with the keys `pages`, `bands`, `frames` and
/// `windows`, each with an integer in its range, or left out for the default. Nothing is kept of the text.
pub fn parse_geometry(alloc: Global, text: &[u8]) -> Result<Geometry, GeometryError>
    ensures says { IfOk result (λ g. Says text.now g) }
    ensures bad { IfErr result (λ e. e ≡ GeometryError.Bad → (g : Geometry) → Says text.now g → ⊥) }
{
    if text.len() > MOST_BYTES {
        return Err(GeometryError::Bad);
    }
    let Ok(text) = std::str::from_utf8(text) else {
        return Err(GeometryError::Bad);
    };
    match toml::table_from_str(alloc, text) {
        Ok(table) => match sizes_in(&table) {
            Some(sizes) => Ok(sizes),
            None => Err(GeometryError::Bad),
        },
        Err(error) if error.is_memory() => Err(GeometryError::Memory),
        Err(_) => Err(GeometryError::Bad),
    }
}
