// A row of the catalogue, and its bytes.
ghost use Rattle.std.specs.Prelude.{◌≡◌, ◌≤◌, length, take, option_map, IfSome, Some, IsSome};
ghost use Rattle.sg_base.specs.Forms.{read_all};
ghost use Rattle.sg_base.specs.Overwritten.{Wrote};
ghost use Rattle.sg_catalog.specs.Row.{code_of, state_of, dropper_of, row_form, row_cell, shown_fields, kind_with, row_of, IsFormed};
ghost use Rattle.sg_catalog.specs.Row as spec;

use sg_base::{
    Name, PageNo, TxnId, put_text, put_u8, put_u32, put_u64, split_text, split_u8, split_u32,
    split_u64,
};

/// The most bytes that a row has.
pub const LARGEST: usize = 47;

/// What a name may stand for.
#[derive(Clone, Copy, Debug, PartialEq, Eq)]
pub enum ObjectKind {
    Array,
    Table,
    Blob,
}

/// An object: its kind, and the page from which it is reached.
#[derive(Clone, Copy, Debug, PartialEq, Eq)]
pub struct Entry {
    pub kind: ObjectKind,
    pub root: PageNo,
}

/// A row of the catalogue: an object under its name, or, once a transaction has dropped it, its
/// tombstone.
#[derive(Clone, Copy)]
pub struct Row {
    pub kind: ObjectKind,
    pub dropper: Option<TxnId>,
    pub root: PageNo,
    pub name: Name,
}

/// The fields of a row as they stand in its bytes.
#[derive(Clone, Copy)]
pub struct Fields<'a> {
    pub code: u8,
    pub state: u8,
    pub dropper: u64,
    pub root: u32,
    pub name: &'a [u8],
}

fn code_of(kind: ObjectKind) -> u8
    ensures { result ≡ code_of kind }
{
    match kind {
        ObjectKind::Array => 1,
        ObjectKind::Table => 2,
        ObjectKind::Blob => 3,
    }
}

fn kind_with(code: u8) -> Option<ObjectKind>
    ensures { result ≡ kind_with code }
{
    match code {
        1 => Some(ObjectKind::Array),
        2 => Some(ObjectKind::Table),
        3 => Some(ObjectKind::Blob),
        _ => None,
    }
}

fn state_of(dropper: Option<TxnId>) -> u8
    ensures { result ≡ state_of dropper }
{
    match dropper {
        None => 0,
        Some(_) => 1,
    }
}

fn dropper_of(dropper: Option<TxnId>) -> u64
    ensures { result ≡ dropper_of dropper }
{
    match dropper {
        None => 0,
        Some(by) => by.0,
    }
}

/// Writes the row at the front of these bytes, and answers how many it has.
pub fn put_row(into: &mut [u8], row: &Row) -> usize
    requires { LARGEST ≤ length into.old }
    ensures { Wrote into.old 0 (row_cell row.now) into.new result }
{
    row.name.tell_name();
    let at = put_u8(into, 0, code_of(row.kind));
    let at = put_u8(into, at, state_of(row.dropper));
    let at = put_u64(into, at, dropper_of(row.dropper));
    let at = put_u32(into, at, row.root.0);
    let text = row.name.text();
    let at = put_u8(into, at, text.len() as u8);
    put_text(into, at, text)
}

/// Writes the row at the front of these bytes, and answers how many it has.
pub fn spell_row(row: Row, into: &mut [u8]) -> usize
    requires { LARGEST ≤ length into.old }
    ensures size { result ≤ length into.new }
    ensures bytes { take result into.new ≡ row_cell row }
    ensures formed { IsFormed row }
{
    row.name.tell_name();
    put_row(into, &row)
}

// The fields that these bytes spell, if they are as many as they say.
fn fields_in(cell: &[u8]) -> Option<Fields<'_>>
    ensures { option_map shown_fields result ≡ read_all row_form cell.now }
{
    let (code, rest) = split_u8(cell)?;
    let (state, rest) = split_u8(rest)?;
    let (dropper, rest) = split_u64(rest)?;
    let (root, rest) = split_u32(rest)?;
    let (size, rest) = split_u8(rest)?;
    let (name, rest) = split_text(rest, size as usize)?;
    if !rest.is_empty() {
        return None;
    }
    Some(Fields {
        code,
        state,
        dropper,
        root,
        name,
    })
}

// Who dropped it, if state and dropper are those of a row: the state says whether there is one.
fn dropper_in(state: u8, dropper: u64) -> Option<Option<TxnId>>
    ensures { result ≡ spec.dropper_in state dropper }
{
    match (state, dropper) {
        (0, 0) => Some(None),
        (1, by) => Some(Some(TxnId(by))),
        _ => None,
    }
}

/// The row that these bytes spell, if they are one's.
pub fn row_in(cell: &[u8]) -> Option<Row>
    ensures { result ≡ row_of cell.now }
{
    let fields = fields_in(cell)?;
    let kind = kind_with(fields.code)?;
    let dropper = dropper_in(fields.state, fields.dropper)?;
    let name = Name::new(fields.name)?;
    Some(Row {
        kind,
        dropper,
        root: PageNo(fields.root),
        name,
    })
}
