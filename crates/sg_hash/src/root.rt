// The root of a hash table.
ghost use Rattle.std.specs.Prelude.{◌≡◌, ◌+◌, ◌<◌, ◌≤◌, ◌^◌, length, Some, None, IfOk, OnOk, IfSome, IsSome, ⊤};
ghost use Rattle.sg_hash.specs.Table.{Numbers, IsInRange, root_cell};
ghost use Rattle.sg_hash.specs.Steps.{HasTrunk, IfTrunk, HasRootPage, SetsRoot, numbers_in};
ghost use Rattle.sg_ops.specs.Table.{Table, table_of};
ghost use Rattle.sg_space.specs.Pages.{WritesNone};
ghost use Rattle.sg_space.specs.View.{Counts, OnlyReads};

use sg_base::{PageNo, PageOp, read_u32, read_u64, write_u32, write_u64};
use sg_linear::Extent;
use sg_ops::Ops;
use sg_space::{PageSpace, SpaceFault, read_cell};

/// The kind of a table's root page.
pub const ROOT_KIND: u8 = 5;

/// How many bytes the root's cell has.
pub const ROOT_CELL: usize = 25;

/// What the root's cell says: how far the table has grown, how many entries it has, how many bytes these
/// have, and the peak of these bytes.
#[derive(Clone, Copy)]
pub struct Root {
    pub extent: Extent,
    pub entries: u32,
    pub bytes: u64,
    pub peak: u64,
}

// How many bytes an entry has in the count of them.
fn entry_bytes(key: usize, value: usize) -> u64
    requires key { key ≤ 128 }
    requires value { value ≤ 65535 }
    ensures { result ≡ 4 + (key + value) }
{
    4 + (key + value) as u64
}

impl Root {
    ghost use Rattle.std.specs.Prelude.{◌≡◌, ◌+◌, ◌<◌, ◌≤◌, ◌^◌, IfSome, IsSome, Some, None};
    ghost use Rattle.sg_hash.specs.Steps.{numbers_in, IsCounted, IsUncounted, gone_bytes};

    /// The numbers after the entry of a key was put, whose value was `old` bytes long, if it had one. `split` raises the
    /// peak. None where they don't fit.
    pub fn with_entry(self, key: usize, value: usize, old: Option<u16>, split: bool) -> Option<Root>
        requires key { key ≤ 128 }
        requires value { value ≤ 1024 }
        ensures counted { IfSome result (λ r. IsCounted key value old split (numbers_in self) (numbers_in r)) }
        ensures all { self.entries + 1 < 2 ^ 32 → gone_bytes key old ≤ self.bytes → self.bytes + 1156 < 2 ^ 64 → IsSome result }
    {
        let entries = match old {
            None => self.entries.checked_add(1)?,
            Some(_) => self.entries,
        };
        let gone = match old {
            None => 0,
            Some(n) => entry_bytes(key, n as usize),
        };
        let rest = self.bytes.checked_sub(gone)?;
        let bytes = rest.checked_add(entry_bytes(key, value))?;
        let peak = if split {
            self.peak.max(bytes)
        } else {
            self.peak
        };
        Some(Root {
            extent: self.extent,
            entries,
            bytes,
            peak,
        })
    }

    /// The numbers after the entry of a key was removed, whose value was so many bytes long. None where there can't
    /// have been such an entry.
    pub fn without_entry(self, key: usize, value: u16) -> Option<Root>
        requires { key ≤ 128 }
        ensures counted { IfSome result (λ r. IsUncounted key value (numbers_in self) (numbers_in r)) }
        ensures all { 1 ≤ self.entries → 4 + (key + value) ≤ self.bytes → IsSome result }
    {
        let entries = self.entries.checked_sub(1)?;
        let bytes = self.bytes.checked_sub(entry_bytes(key, value as usize))?;
        Some(Root {
            extent: self.extent,
            entries,
            bytes,
            peak: self.peak,
        })
    }
}

/// The bytes of the root's cell.
pub fn spell_root(root: Root) -> [u8; ROOT_CELL]
    ensures { result ≡ root_cell (numbers_in root) }
{
    let mut cell = [0; ROOT_CELL];
    cell[0] = root.extent.level;
    write_u32(&mut cell[1..], root.extent.split);
    write_u32(&mut cell[5..], root.entries);
    write_u64(&mut cell[9..], root.bytes);
    write_u64(&mut cell[17..], root.peak);
    cell
}

/// The numbers that a root's cell of 25 bytes spells, if they are in their ranges.
pub fn root_in(cell: &[u8]) -> Option<Root>
    requires { length cell.now ≡ 25 }
    ensures found { IfSome result (λ r. cell.now ≡ root_cell (numbers_in r)) }
    ensures fits { IfSome result (λ r. IsInRange (numbers_in r)) }
    ensures all { (n : Numbers) → IsInRange n → cell.now ≡ root_cell n → IsSome result }
{
    let extent = Extent::new(cell[0], read_u32(&cell[1..]))?;
    let entries = read_u32(&cell[5..]);
    let bytes = read_u64(&cell[9..]);
    let peak = read_u64(&cell[17..]);
    Some(Root {
        extent,
        entries,
        bytes,
        peak,
    })
}

/// What the root's cell says.
pub fn read_root<P: PageSpace>(space: &mut P, root: PageNo) -> Result<Root, SpaceFault>
    requires { HasTrunk (P.view space.old) root.0 (λ _ _. ⊤) }
    ensures counts { Counts (P.view space.old) (P.view space.new) result }
    ensures kept { OnOk result (OnlyReads (P.view space.old) (P.view space.new)) }
    ensures read { IfOk result (λ r. IfTrunk (P.view space.old) root.0 (λ n _. numbers_in r ≡ n)) }
    ensures later { (t : Table) → P.later t space.old space.new }
    ensures means { (t : Table) → P.means space.old t → P.means space.new t }
    ensures writes { WritesNone (P.view space.old) (P.view space.new) result }
{
    let mut cell = [0; ROOT_CELL];
    read_cell(space, root, ROOT_KIND, 0, &mut cell)?;
    match root_in(&cell) {
        Some(found) => Ok(found),
        None => Err(space.broken()),
    }
}

/// The page of the directory's root.
pub fn directory_of<P: PageSpace>(space: &mut P, root: PageNo) -> Result<PageNo, SpaceFault>
    requires { HasTrunk (P.view space.old) root.0 (λ _ _. ⊤) }
    ensures counts { Counts (P.view space.old) (P.view space.new) result }
    ensures kept { OnOk result (OnlyReads (P.view space.old) (P.view space.new)) }
    ensures read { IfOk result (λ p. IfTrunk (P.view space.old) root.0 (λ _ t. t.directory ≡ p.0)) }
    ensures later { (t : Table) → P.later t space.old space.new }
    ensures means { (t : Table) → P.means space.old t → P.means space.new t }
    ensures writes { WritesNone (P.view space.old) (P.view space.new) result }
{
    let view = space.page(root)?;
    if view.kind() != ROOT_KIND {
        return Err(space.broken());
    }
    let directory = view.links().0;
    Ok(PageNo(directory))
}

/// Writes the root's cell.
pub fn set_root<P: PageSpace>(
    space: &mut P,
    ops: &Ops,
    root: PageNo,
    numbers: Root,
) -> Result<(), SpaceFault>
    requires means { P.means space.old (table_of record_meaning range_meaning ops.now) }
    requires can { (P.view space.old).Told → HasRootPage (P.view space.old) root.0 }
    ensures counts { Counts (P.view space.old) (P.view space.new) result }
    ensures did { OnOk result (SetsRoot (P.view space.old) (P.view space.new) root.0 (numbers_in numbers)) }
    ensures later { P.later (table_of record_meaning range_meaning ops.now) space.old space.new }
    ensures means { P.means space.new (table_of record_meaning range_meaning ops.now) }
    ensures few { (P.view space.new).records ≤ (P.view space.old).records + 1 }
{
    let cell = spell_root(numbers);
    let op = PageOp::Set {
        slot: 0,
        bytes: &cell,
    };
    space.change(ops, root, &op)?;
    Ok(())
}
