use crate::trial::{Came, Trial, named};
use sg_alloc::Maps;
use sg_base::PageNo;
use sg_model::Op;
use std::alloc::Global;
use std::test::Fail;

// Which of the 64 pages are set, as the bits of a number.
fn pages_set(maps: &Maps) -> u64 {
    let mut set = 0;
    for p in 0..64u32 {
        if maps.page_taken(PageNo(p)) == Some(true) {
            set |= 1 << p;
        }
    }
    set
}

// What a walk over an array alone comes to, and which pages are set then.
fn over_an_array(alloc: Global) -> Result<(Came, u64), Fail> {
    let mut trial = Trial::new(alloc)?;
    if !trial.add_array(named(b'a')?) {
        return Ok((Came::Fault, 0));
    }
    let (came, maps) = trial.walked()?;
    Ok((came, pages_set(&maps)))
}

#[test]
fn an_array_of_16_items_sets_its_4_pages(rt: HostRuntime) -> Result<(), Fail> {
    assert!(rt; over_an_array(rt.alloc())? == (Came::Sets(4, 0), 0b11111));
    Ok(())
}

// What walks come to over nothing, over three objects, and once the array and the blob are dropped.
fn over_three(alloc: Global) -> Result<[Came; 3], Fail> {
    let mut trial = Trial::new(alloc)?;
    let nothing = trial.walk()?;
    let filled = trial.fill()?;
    let objects = trial.walk()?;
    let array = trial.does(&Op::Discard { name: named(b'a')? });
    let blob = trial.does(&Op::Discard { name: named(b'b')? });
    let dropped = trial.walk()?;
    Ok(if filled && array && blob {
        [nothing, objects, dropped]
    } else {
        [Came::Fault; 3]
    })
}

// What is dropped is reached as long as it is buried.
#[test]
fn what_objects_reach_is_set(rt: HostRuntime) -> Result<(), Fail> {
    let all = Came::Sets(11, 2);
    assert!(rt; over_three(rt.alloc())? == [Came::Sets(0, 0), all, all]);
    Ok(())
}
