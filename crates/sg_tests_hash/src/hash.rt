use sg_base::{PageNo, PageOp};
use sg_hash::{del, find, free_all, keys, make, put};
use sg_ops::Ops;
use sg_space::{Guarded, ListFault, MemSpace, PageSpace, SpaceFault};
use std::alloc::Global;
use std::test::Fail;

// A table over a space in memory that tells nothing, so that its calls ask for nothing: what they are to answer stands in
// the tests. The methods promise nothing, and a test sees plain values.
#[derive(Drop)]
struct Trial {
    space: Guarded,
    ops: Ops,
    root: PageNo,
}

impl Trial {
    // 64 or 700 pages, of which the catalogue has one.
    fn new(alloc: Global, large: bool) -> Result<Trial, Fail> {
        let pages = if large { 700 } else { 64 };
        let ops = Ops::shipped(alloc)?;
        let mut space = Guarded::new(MemSpace::new(alloc, pages, 2)?);
        let root = make(&mut space, &ops)?;
        Ok(Trial { space, ops, root })
    }

    // Another table in the same space, whose calls go through the same methods.
    fn make_other(&mut self) -> Result<PageNo, SpaceFault> {
        make(&mut self.space, &self.ops)
    }

    // Keys and values are cut to the lengths that they may have.
    fn put(&mut self, key: &[u8], value: &[u8]) -> Result<bool, SpaceFault> {
        let key = &key[..key.len().min(128)];
        let value = &value[..value.len().min(1_024)];
        put(&mut self.space, &self.ops, self.root, key, value, true)
    }

    // The same without a split.
    fn put_whole(&mut self, key: &[u8], value: &[u8]) -> Result<bool, SpaceFault> {
        let key = &key[..key.len().min(128)];
        let value = &value[..value.len().min(1_024)];
        put(&mut self.space, &self.ops, self.root, key, value, false)
    }

    // The level, the split and the number of entries, of which the root's cell has bytes 0, 1 and 5.
    fn shape(&mut self) -> Result<(u8, u8, u8), SpaceFault> {
        let view = self.space.page(self.root)?;
        match view.slot(0) {
            Some(&[level, split, _, _, _, entries, ..]) => Ok((level, split, entries)),
            _ => Ok((255, 255, 255)),
        }
    }

    fn find(&mut self, key: &[u8], into: &mut [u8; 1_024]) -> Result<Option<usize>, SpaceFault> {
        find(&mut self.space, self.root, key, into)
    }

    fn del(&mut self, key: &[u8]) -> Result<bool, SpaceFault> {
        let key = &key[..key.len().min(128)];
        del(&mut self.space, &self.ops, self.root, key)
    }

    fn free_all(&mut self) -> Result<(), SpaceFault> {
        free_all(&mut self.space, self.root)
    }

    fn free_pages(&self) -> u32 {
        self.space.free_pages()
    }

    fn faults(&self) -> u64 {
        self.space.faults()
    }

    // Changes a page, as nothing of this crate would.
    fn spoil(&mut self, page: u32, op: &PageOp<'_>) -> Result<(), SpaceFault> {
        self.space.change(&self.ops, PageNo(page), op)
    }
}

// How long the value of a key is, and the byte that each of its bytes is.
fn found(table: &mut Trial, key: &[u8]) -> Result<Option<(usize, u8)>, SpaceFault> {
    let mut into = [0; 1_024];
    match table.find(key, &mut into)? {
        None => Ok(None),
        Some(n) => Ok(Some((n, into[0]))),
    }
}

// A call, and what it is to answer.
#[derive(Clone, Copy)]
enum Step {
    // A value is put under a key, which is new or isn't.
    Put(&'static [u8], &'static [u8], bool),
    // The same without a split.
    PutWhole(&'static [u8], &'static [u8], bool),
    // A key that was there goes, or one that wasn't.
    Del(&'static [u8], bool),
    // How long the value of a key is, and its first byte.
    Find(&'static [u8], Option<(usize, u8)>),
    // The level, the split and the number of entries.
    Shape((u8, u8, u8)),
    // So many pages are free.
    Free(u32),
    // Free pages are taken until one is left.
    LeaveOne,
}

impl Trial {
    // Whether a call answers what it is to.
    fn does(&mut self, step: &Step) -> bool {
        match *step {
            Step::Put(key, value, new) => self.put(key, value) == Ok(new),
            Step::PutWhole(key, value, new) => self.put_whole(key, value) == Ok(new),
            Step::Del(key, there) => self.del(key) == Ok(there),
            Step::Find(key, value) => found(self, key) == Ok(value),
            Step::Shape(shape) => self.shape() == Ok(shape),
            Step::Free(pages) => self.free_pages() == pages,
            Step::LeaveOne => leave_one(self).is_ok(),
        }
    }

    // The place of the first of these calls that answers something else, the calls made one after another.
    fn first_wrong(&mut self, steps: &[Step]) -> Option<usize> {
        for (i, step) in steps.iter().enumerate() {
            if !self.does(step) {
                return Some(i);
            }
        }
        None
    }
}

// The same of a table of its own.
fn first_wrong(alloc: Global, steps: &[Step]) -> Result<Option<usize>, Fail> {
    let mut table = Trial::new(alloc, false)?;
    Ok(table.first_wrong(steps))
}

// Takes free pages until one is left.
fn leave_one(table: &mut Trial) -> Result<(), SpaceFault> {
    for _ in 0..64 {
        if table.free_pages() > 1 {
            table.space.take_page(9)?;
        }
    }
    Ok(())
}

// Values of 1,024 letters.
const LETTERS: &[u8] = &[b'v'; 1_024];

const OTHERS: &[u8] = &[b'w'; 1_024];

const SPLIT: [Step; 11] = [
    Step::Put(b"k1", LETTERS, true),
    Step::Shape((0, 0, 1)),
    Step::Put(b"k2", LETTERS, true),
    Step::Shape((1, 0, 2)),
    Step::Del(b"k2", true),
    Step::Shape((1, 0, 1)),
    Step::Find(b"k2", None),
    Step::Find(b"k1", Some((1_024, b'v'))),
    Step::PutWhole(b"k2", OTHERS, true),
    Step::Shape((1, 0, 2)),
    Step::Find(b"k2", Some((1_024, b'w'))),
];

// Two values of 1,024 letters, 2,060 bytes of entries and so more than 2,048: the table splits, and stays split when one
// of the keys goes again, and when it comes back without a split.
#[test]
fn a_table_that_split_stays_split(rt: HostRuntime) -> Result<(), Fail> {
    assert_eq!(rt; first_wrong(rt.alloc(), &SPLIT)?, None);
    Ok(())
}

// A drawn call, and whether its answer is that of a plain map from 64 keys to a length and a letter each.
fn drawn_call(
    table: &mut Trial,
    plain: &mut [Option<(usize, u8)>; 64],
    seed: u32,
) -> Result<bool, SpaceFault> {
    let i = ((seed >> 8) % 64) as usize;
    let key = [i as u8; 3];
    let length = 1 + ((seed >> 14) % 1_024) as usize;
    let letter = (seed >> 24) as u8;
    Ok(match seed >> 30 {
        0 => found(table, &key)? == plain[i],
        1 => table.del(&key)? == plain[i].take().is_some(),
        _ => table.put(&key, &[letter; 1_024][..length])?
            == plain[i].replace((length, letter)).is_none(),
    })
}

// So many drawn calls, and in how many the answer wasn't that of the map.
fn drawn_calls(table: &mut Trial, count: u32) -> Result<u32, SpaceFault> {
    let mut plain: [Option<(usize, u8)>; 64] = [None; 64];
    let mut seed = 54u32;
    let mut wrong = 0u32;
    for _ in 0..count {
        seed = seed.wrapping_mul(1_664_525).wrapping_add(1_013_904_223);
        if !drawn_call(table, &mut plain, seed)? {
            wrong = wrong.saturating_add(1);
        }
    }
    Ok(wrong)
}

// The same of a large table, and how many faults were counted.
fn drawn(alloc: Global, count: u32) -> Result<(u32, u64), Fail> {
    let mut table = Trial::new(alloc, true)?;
    let wrong = drawn_calls(&mut table, count)?;
    Ok((wrong, table.faults()))
}

#[test]
fn drawn_calls_are_those_of_a_plain_map(rt: HostRuntime) -> Result<(), Fail> {
    assert_eq!(rt; drawn(rt.alloc(), 20_000)?, (0, 0));
    Ok(())
}

// Puts so many entries of one table.
fn fill(table: &mut Trial, count: u16) -> Result<(), SpaceFault> {
    for i in 0..count {
        table.put_whole(&i.to_le_bytes(), &[7; 500])?;
    }
    Ok(())
}

// Removes those of even number.
fn thin(table: &mut Trial, count: u16) -> Result<(), SpaceFault> {
    for i in 0..count / 2 {
        table.del(&(2 * i).to_le_bytes())?;
    }
    Ok(())
}

// How many pages it takes to put so many entries, and how many are given back where those of even number go.
fn fill_and_thin(table: &mut Trial, count: u16) -> Result<(u32, u32), SpaceFault> {
    let first = table.free_pages();
    fill(table, count)?;
    let full = table.free_pages();
    thin(table, count)?;
    let thinned = table.free_pages();
    Ok((first.saturating_sub(full), thinned.saturating_sub(full)))
}

const THINNED: [Step; 2] = [
    Step::Find(&[2, 0], None),
    Step::Find(&[3, 0], Some((500, 7))),
];

// The same of 70 entries, and the first of them that is found otherwise then.
fn filled(alloc: Global) -> Result<((u32, u32), Option<usize>), Fail> {
    let mut table = Trial::new(alloc, false)?;
    let pages = fill_and_thin(&mut table, 70)?;
    Ok((pages, table.first_wrong(&THINNED)))
}

// Entries of 506 bytes with their places, of which a page of 4,072 holds eight less 24 bytes: seven. A page whose entries
// have all gone is given back.
#[test]
fn a_full_chain_takes_pages_and_gives_them_back(rt: HostRuntime) -> Result<(), Fail> {
    assert_eq!(rt; filled(rt.alloc())?, ((9, 0), None));
    Ok(())
}

// Keys of 4 bytes, little-endian, whose hashes agree in their last 12 bits.
const COLLIDING: [u32; 40] = [
    1_429, 6_170, 9_175, 9_525, 9_892, 17_271, 19_686, 27_057, 27_654, 35_392, 47_091, 53_378,
    55_059, 61_474, 64_861, 65_228, 70_124, 70_269, 78_092, 79_039, 84_814, 85_753, 93_576, 93_721,
    99_110, 99_776, 99_921, 107_872, 120_979, 127_709, 129_075, 130_978, 137_671, 138_324, 139_045,
    145_046, 145_767, 151_760, 152_481, 153_142,
];

// How many of some keys are new.
fn put_all(table: &mut Trial, keys: &[u32]) -> Result<u32, SpaceFault> {
    let mut new = 0u32;
    for key in keys {
        if table.put(&key.to_le_bytes(), &[7; 1_000])? {
            new = new.saturating_add(1);
        }
    }
    Ok(new)
}

// How many of them are found.
fn find_all(table: &mut Trial, keys: &[u32]) -> Result<u32, SpaceFault> {
    let mut there = 0u32;
    for key in keys {
        if found(table, &key.to_le_bytes())? == Some((1_000, 7)) {
            there = there.saturating_add(1);
        }
    }
    Ok(there)
}

// How many of some keys are new, how many are found then, and how many pages they have taken.
fn put_and_find(table: &mut Trial, keys: &[u32]) -> Result<[u32; 3], SpaceFault> {
    let free = table.free_pages();
    let new = put_all(table, keys)?;
    let there = find_all(table, keys)?;
    Ok([new, there, free.saturating_sub(table.free_pages())])
}

// The same of the keys that collide, and the shape of the table then.
fn collided(alloc: Global) -> Result<([u32; 3], (u8, u8, u8)), Fail> {
    let mut table = Trial::new(alloc, false)?;
    let counts = put_and_find(&mut table, &COLLIDING)?;
    Ok((counts, table.shape()?))
}

// All keys stay in one bucket, of four on a page, while 19 buckets are split off beside it. When its turn came for the
// fourth time, at level 3, it had 8 pages, and was split still.
#[test]
fn keys_that_collide_are_found(rt: HostRuntime) -> Result<(), Fail> {
    assert_eq!(rt; collided(rt.alloc())?, ([40, 40, 28], (4, 4, 40)));
    Ok(())
}

const REMOVED: [Step; 11] = [
    Step::PutWhole(b"k1", LETTERS, true),
    Step::PutWhole(b"k2", LETTERS, true),
    Step::PutWhole(b"k3", LETTERS, true),
    Step::PutWhole(b"k4", LETTERS, true),
    Step::LeaveOne,
    Step::Del(b"k4", true),
    Step::Free(2),
    Step::LeaveOne,
    Step::PutWhole(b"k4", OTHERS, true),
    Step::Free(0),
    Step::Find(b"k4", Some((1_024, b'w'))),
];

// Four values of 1,024 letters, of which a page holds three. The fourth comes back where one page is free.
#[test]
fn a_removed_key_comes_back_where_one_page_is_free(rt: HostRuntime) -> Result<(), Fail> {
    assert_eq!(rt; first_wrong(rt.alloc(), &REMOVED)?, None);
    Ok(())
}

// Whether the keys of a table are these three, in the order of their bytes.
fn lists_three(table: &mut Trial, alloc: Global) -> Result<bool, ListFault> {
    let all = keys(&mut table.space, table.root, alloc)?;
    let (Some(first), Some(second), Some(third), None) = (
        all.first(),
        all.get(1),
        all.get(2),
        all.get(3),
    ) else {
        return Ok(false);
    };
    Ok(
        first.bytes() == b"a".as_slice()
            && second.bytes() == b"ab".as_slice()
            && third.bytes() == b"b".as_slice(),
    )
}

const THREE: [Step; 3] = [
    Step::Put(b"b", LETTERS, true),
    Step::Put(b"ab", LETTERS, true),
    Step::Put(b"a", LETTERS, true),
];

// The first of the keys that isn't put as a new one, and whether all are listed.
fn listed(alloc: Global) -> Result<(Option<usize>, bool), Fail> {
    let mut table = Trial::new(alloc, false)?;
    let wrong = table.first_wrong(&THREE);
    let listed = lists_three(&mut table, alloc);
    Ok((wrong, matches!(listed, Ok(true))))
}

#[test]
fn keys_are_listed_in_their_order(rt: HostRuntime) -> Result<(), Fail> {
    assert_eq!(rt; listed(rt.alloc())?, (None, true));
    Ok(())
}

// Makes another table beside one, and frees it: what its key has, and the key of the first one then, and whether as many
// pages are free as before.
fn beside(table: &mut Trial) -> Result<([Option<(usize, u8)>; 2], bool), SpaceFault> {
    let one = table.root;
    table.put(b"key", b"one")?;
    let free = table.free_pages();
    table.root = table.make_other()?;
    table.put(b"key", b"two")?;
    let second = found(table, b"key")?;
    table.free_all()?;
    let back = table.free_pages() == free;
    table.root = one;
    let first = found(table, b"key")?;
    Ok(([second, first], back))
}

fn side_by_side(alloc: Global) -> Result<([Option<(usize, u8)>; 2], bool), Fail> {
    let mut table = Trial::new(alloc, false)?;
    Ok(beside(&mut table)?)
}

// Two tables in one space, one of which is freed.
#[test]
fn tables_stand_side_by_side(rt: HostRuntime) -> Result<(), Fail> {
    assert_eq!(rt;
        side_by_side(rt.alloc())?,
        ([Some((3, b't')), Some((3, b'o'))], true)
    );
    Ok(())
}

// What is found of a key on a chain that goes on in a ring, whether the removal of another one fails, and the number of faults.
fn in_a_ring(table: &mut Trial) -> Result<(Option<(usize, u8)>, bool, u64), SpaceFault> {
    table.put(b"key", b"value")?;
    table.spoil(2, &PageOp::Links { a: 2, b: 0 })?;
    let there = found(table, b"key")?;
    let fails = table.del(b"other").is_err();
    Ok((there, fails, table.faults()))
}

// Whether a key isn't found and the table isn't freed where the root names a page that isn't a directory, and the number of
// faults.
fn without_directory(table: &mut Trial) -> Result<(bool, bool, u64), SpaceFault> {
    let root = table.root.0;
    table.spoil(root, &PageOp::Links { a: 2, b: 0 })?;
    let finds = found(table, b"key").is_ok();
    let frees = table.free_all().is_ok();
    Ok((!finds, !frees, table.faults()))
}

type Broken = ((Option<(usize, u8)>, bool, u64), (bool, bool, u64));

fn broken(alloc: Global) -> Result<Broken, Fail> {
    let mut table = Trial::new(alloc, false)?;
    let ring = in_a_ring(&mut table)?;
    let directory = without_directory(&mut table)?;
    Ok((ring, directory))
}

// In a space whose page 0 is the catalogue's the table's directory is rooted in page 1 and its bucket begins in page 2; the
// root is page 5. A chain that goes on in a ring, and a root that names a page that isn't a directory, end with a fault.
#[test]
fn broken_contents_end_with_a_fault(rt: HostRuntime) -> Result<(), Fail> {
    assert_eq!(rt;
        broken(rt.alloc())?,
        ((Some((5, b'v')), true, 1), (true, true, 3))
    );
    Ok(())
}
