// Calls on the catalogue over a space in memory that is told: what each call asks is proved here.
ghost use Rattle.std.specs.Prelude.{◌≡◌, Some, None, IfOk};
ghost use Rattle.sg_space.specs.Memory.{memory_view, IsNew};

use sg_base::{Name, PageNo, TxnId};
use sg_catalog::{Entry, ObjectKind, add, bury, find, next_buried, unbury};
use sg_ops::Ops;
use sg_space::{MemSpace, SpaceFault};
use std::test::Fail;

// What is found at three moments.
#[derive(Clone, Copy)]
struct Found {
    // the object of the name once it was dropped
    dropped: Option<Entry>,
    // the tombstone of who dropped it
    tomb: Option<Entry>,
    // the object of the name once the drop was undone
    back: Option<Entry>,
}

// In a new space an object gets a name, is dropped, and comes back.
fn drop_and_undo(
    space: &mut MemSpace,
    ops: &Ops,
    name: Name,
    object: Entry,
    by: TxnId,
) -> Result<Found, SpaceFault>
    requires { IsNew (memory_view space.old).space 64 4 }
    ensures dropped { IfOk result (λ found. found.dropped ≡ None) }
    ensures tomb { IfOk result (λ found. found.tomb ≡ Some object) }
    ensures back { IfOk result (λ found. found.back ≡ Some object) }
{
    add(space, ops, name, object)?;
    bury(space, ops, name, by)?;
    let dropped = find(space, name)?;
    let tomb = next_buried(space, Some(by))?;
    unbury(space, ops, name, object.root)?;
    let back = find(space, name)?;
    Ok(Found {
        dropped,
        tomb,
        back,
    })
}

#[test]
fn a_drop_is_undone(rt: HostRuntime) -> Result<(), Fail> {
    let ops = Ops::shipped(rt.alloc())?;
    let mut space = MemSpace::new(rt.alloc(), 64, 4)?;
    let object = Entry {
        kind: ObjectKind::Blob,
        root: PageNo(5),
    };
    let name = Name::new(b"b").ok_or("no name")?;
    let Ok(found) = drop_and_undo(&mut space, &ops, name, object, TxnId(7)) else {
        return Err("a space in memory failed".into());
    };
    assert_eq!(rt; found.dropped, None);
    assert_eq!(rt; found.tomb, Some(object));
    assert_eq!(rt; found.back, Some(object));
    Ok(())
}
