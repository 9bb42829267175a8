// A hash table is made.
ghost use Rattle.std.specs.Prelude.{◌≡◌, ◌≤◌, length, IfOk, ◌+◌};
ghost use Rattle.sg_hash.specs.Calls.{HasFive, Made};
ghost use Rattle.sg_hash.specs.Steps.{Started, TookRoot, numbers_in};
ghost use Rattle.sg_ops.specs.Table.{table_of};
ghost use Rattle.sg_space.specs.Pages.{CanTake};
ghost use Rattle.sg_space.specs.View.{Counts};

use crate::root::{ROOT_KIND, Root, spell_root};
use sg_base::{PageNo, PageOp, write_u32};
use sg_linear::Extent;
use sg_ops::Ops;
use sg_space::{PageSpace, SpaceFault, take_page_with};

// Makes a directory that names one bucket, without entries.
fn start<P: PageSpace>(space: &mut P, ops: &Ops) -> Result<PageNo, SpaceFault>
    requires means { P.means space.old (table_of record_meaning range_meaning ops.now) }
    requires can { (P.view space.old).Told → HasFive (P.view space.old) }
    ensures counts { Counts (P.view space.old) (P.view space.new) result }
    ensures did { IfOk result (λ directory. Started (P.view space.old) (P.view space.new) directory.0) }
    ensures later { P.later (table_of record_meaning range_meaning ops.now) space.old space.new }
    ensures means { P.means space.new (table_of record_meaning range_meaning ops.now) }
    ensures few { (P.view space.new).records ≤ (P.view space.old).records + 13 }
{
    let directory = sg_array::make(space, ops, 4)?;
    let first = sg_bucket::make(space)?;
    let mut name = [0; 4];
    write_u32(&mut name, first.0);
    sg_array::push(space, ops, directory, &name)?;
    Ok(directory)
}

// Takes a page for the root, which names its directory.
fn take_root<P: PageSpace>(
    space: &mut P,
    ops: &Ops,
    numbers: Root,
    directory: PageNo,
) -> Result<PageNo, SpaceFault>
    requires means { P.means space.old (table_of record_meaning range_meaning ops.now) }
    requires can { CanTake (P.view space.old) (P.view space.old).space.pages }
    ensures counts { Counts (P.view space.old) (P.view space.new) result }
    ensures did { IfOk result (λ root. TookRoot (P.view space.old) (P.view space.new) root.0 (numbers_in numbers) directory.0) }
    ensures later { P.later (table_of record_meaning range_meaning ops.now) space.old space.new }
    ensures means { P.means space.new (table_of record_meaning range_meaning ops.now) }
    ensures few { (P.view space.new).records ≤ (P.view space.old).records + 4 }
{
    let root = take_page_with(space, ops, ROOT_KIND, &spell_root(numbers))?;
    let op = PageOp::Links {
        a: directory.0,
        b: 0,
    };
    space.change(ops, root, &op)?;
    Ok(root)
}

/// Makes a table without entries, of one bucket. Five pages are taken for it.
pub fn make<P: PageSpace>(space: &mut P, ops: &Ops) -> Result<PageNo, SpaceFault>
    requires means { P.means space.old (table_of record_meaning range_meaning ops.now) }
    requires can { (P.view space.old).Told → HasFive (P.view space.old) }
    ensures counts { Counts (P.view space.old) (P.view space.new) result }
    ensures did { IfOk result (λ root. Made (P.view space.old) (P.view space.new) root.0) }
    ensures later { P.later (table_of record_meaning range_meaning ops.now) space.old space.new }
    ensures means { P.means space.new (table_of record_meaning range_meaning ops.now) }
    ensures few { (P.view space.new).records ≤ (P.view space.old).records + 17 }
{
    let directory = start(space, ops)?;
    let numbers = Root {
        extent: Extent::first(),
        entries: 0,
        bytes: 0,
        peak: 0,
    };
    let root = take_root(space, ops, numbers, directory)?;
    Ok(root)
}
