// What an application may rest on of the model.
ghost use Rattle.sg_ops.specs.Table.{Table};
ghost use Rattle.stasis.specs.Arrays.{AreLists};
ghost use Rattle.stasis.specs.Tables.{AreMaps};

/// A law: a table is a map of keys to values, and operations on another object leave it. It runs no code.
pub fn tables_are_maps()
    ensures { (t : Table) → AreMaps t }
{}

/// A law: an array is a list of items of one size, and a registered operation leaves of an item what its meaning says. It runs no code.
pub fn arrays_are_lists()
    ensures { (t : Table) → AreLists t }
{}
