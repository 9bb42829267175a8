use sg_base::PageNo;
use sg_list::{count, get, keep_two, make, push};
use sg_ops::Ops;
use sg_space::{Guarded, MemSpace, PageSpace};
use std::alloc::Global;
use std::test::Fail;

// The page in which two items were kept, if there is a free one, and whether they came back.
fn kept(space: &mut MemSpace, ops: &Ops) -> Option<(u32, bool)> {
    if space.free_pages() == 0 {
        return None;
    }
    let first = *b"abcd";
    let second = *b"wxyz";
    let Ok(found) = keep_two(space, ops, first, second) else {
        return None;
    };
    let a = found.1;
    let b = found.2;
    Some((found.0.0, a == first && b == second))
}

// Over pages in memory two items are kept while a page is free.
#[test]
fn two_items_are_kept(rt: HostRuntime) -> Result<(), Fail> {
    let ops = Ops::new(rt.alloc())?;
    let mut space = MemSpace::new(rt.alloc(), 3, 2)?;
    assert_eq!(rt; kept(&mut space, &ops), Some((1, true)));
    assert_eq!(rt; kept(&mut space, &ops), Some((2, true)));
    assert_eq!(rt; kept(&mut space, &ops), None);
    Ok(())
}

// A list over a space that tells nothing, so that its calls ask for nothing.
#[derive(Drop)]
struct Trial {
    space: Guarded,
    ops: Ops,
    root: PageNo,
}

impl Trial {
    fn new(alloc: Global, ops: Ops) -> Result<Trial, Fail> {
        let mut space = Guarded::new(MemSpace::new(alloc, 2, 2)?);
        let root = make(&mut space)?;
        Ok(Trial { space, ops, root })
    }

    fn push(&mut self, item: &[u8]) -> bool {
        push(&mut self.space, &self.ops, self.root, item).is_ok()
    }

    fn count(&mut self) -> Option<u16> {
        count(&mut self.space, self.root).ok()
    }

    fn get(&mut self, i: u16) -> Option<[u8; 8]> {
        let mut item = [0; 8];
        match get(&mut self.space, self.root, i, &mut item) {
            Ok(()) => Some(item),
            Err(_) => None,
        }
    }
}

// A page has the bytes for 339 items of 8 bytes.
#[test]
fn a_list_grows_up_to_its_page(rt: HostRuntime) -> Result<(), Fail> {
    let mut list = Trial::new(rt.alloc(), Ops::new(rt.alloc())?)?;
    for n in 0..339u16 {
        let [low, high] = n.to_le_bytes();
        assert!(rt; list.push(&[low, high, 1, 2, 3, 4, 5, 6]));
    }
    assert!(rt; !list.push(b"12345678"));
    assert_eq!(rt; list.count(), Some(339));
    assert_eq!(rt; list.get(258), Some([2, 1, 1, 2, 3, 4, 5, 6]));
    assert_eq!(rt; list.get(339), None);
    assert!(rt; list.push(b""));
    assert_eq!(rt; list.get(339), None);
    assert_eq!(rt; list.space.faults(), 3);
    Ok(())
}
