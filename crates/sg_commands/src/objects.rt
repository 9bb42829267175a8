// The objects of a store, written to a sink: each of them, or what they come to.
ghost use Rattle.std.specs.Prelude.{◌≡◌};
ghost use Rattle.sg_ops.specs.Table.{Table as Operations};
ghost use Rattle.sg_store.specs.Seen.{core_of, Serves, IsServed};
ghost use Rattle.sg_commands.specs.Drawing.{sunk};
ghost use Rattle.sg_commands.specs.Written.{AT_FIRST, Writes};

use crate::status::{Status, status_of_check, status_of_telling, status_of_writing};
use sg_base::Sink;
use sg_lines::write_summary;
use sg_store::{Store, Tells};
use std::alloc::Global;

/// What is written of a store's objects.
#[derive(Clone, Copy, Debug, PartialEq, Eq)]
pub enum Listing {
    /// Each of them, in the order of their names, and how many they are.
    Text,
    /// What they come to.
    Summary,
}

// Writes the line of what the objects of a store come to, which are read for that.
fn write_sum<E: Tells, K: Sink>(alloc: Global, store: &mut Store<E>, out: &mut K) -> Status
    requires serves { IsServed store.old }
    requires first { core_of store.old ≡ AT_FIRST }
    ensures serves { (t : Operations) → Serves t store.old → Serves t store.new }
    ensures writes { Writes Listing.Summary result (E.view store.old.engine) (E.view store.new.engine) (core_of store.old) (core_of store.new)
        (sunk (K.taken out.old) (K.faults out.old)) (sunk (K.taken out.new) (K.faults out.new)) }
{
    match store.check(alloc) {
        Ok(all) => status_of_writing(write_summary(all, out)),
        Err(why) => status_of_check(why),
    }
}

/// Writes what is asked for of the objects of a store that was opened. Before they are checked all that opening did is written home.
pub fn write_objects<E: Tells, K: Sink>(
    alloc: Global,
    store: &mut Store<E>,
    listing: Listing,
    out: &mut K,
) -> Status
    requires serves { IsServed store.old }
    requires first { core_of store.old ≡ AT_FIRST }
    ensures serves { (t : Operations) → Serves t store.old → Serves t store.new }
    ensures writes { Writes listing result (E.view store.old.engine) (E.view store.new.engine) (core_of store.old) (core_of store.new)
        (sunk (K.taken out.old) (K.faults out.old)) (sunk (K.taken out.new) (K.faults out.new)) }
{
    match listing {
        Listing::Text => status_of_telling(store.write_text(alloc, out)),
        Listing::Summary => match store.flush() {
            Ok(()) => write_sum(alloc, store, out),
            Err(_) => Status::Disk,
        },
    }
}
