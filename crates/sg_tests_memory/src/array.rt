// Calls on an array over a space in memory that is told: what each call asks is proved here.
ghost use Rattle.std.specs.Prelude.{◌≡◌, ◌≤◌, ◌∷◌, [], IfOk};
ghost use Rattle.sg_space.specs.Memory.{memory_view};
ghost use Rattle.sg_tests_memory.specs.Holds.{Holds};

use sg_array::{make, push};
use sg_base::PageNo;
use sg_ops::Ops;
use sg_space::{MemSpace, PageSpace, SpaceFault};
use std::test::Fail;

// Makes an array of items of 2 bytes, and pushes `aa` and `bb`.
fn make_two(space: &mut MemSpace, ops: &Ops) -> Result<PageNo, SpaceFault>
    requires { 5 ≤ (memory_view space.old).space.pages.free }
    ensures { IfOk result (λ root. Holds (memory_view space.new) root.0 2 ((97 ∷ 97 ∷ []) ∷ (98 ∷ 98 ∷ []) ∷ [])) }
{
    let root = make(space, ops, 2)?;
    push(space, ops, root, b"aa")?;
    push(space, ops, root, b"bb")?;
    Ok(root)
}

// An array of two items has three of the 63 free pages: its root, an index page and a page of items.
#[test]
fn an_array_of_two_items(rt: HostRuntime) -> Result<(), Fail> {
    let ops = Ops::shipped(rt.alloc())?;
    let mut space = MemSpace::new(rt.alloc(), 64, 4)?;
    let Ok(root) = make_two(&mut space, &ops) else {
        return Err("a space in memory failed".into());
    };
    assert!(rt; space.has_page(root));
    assert_eq!(rt; space.free_pages(), 60);
    Ok(())
}
