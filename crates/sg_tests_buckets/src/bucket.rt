use sg_base::{PageNo, PageOp};
use sg_bucket::{Bytes, branch, del, find, free_all, keys, make, pages, prune, put};
use sg_linear::{Address, Extent};
use sg_ops::Ops;
use sg_space::{Guarded, MemSpace, PageSpace};
use std::alloc::Global;
use std::test::Fail;

// A bucket over a space in memory that tells nothing, so that its calls ask for nothing. The methods promise nothing,
// and a test sees plain values. A key is two equal bytes, and a value so many bytes of the key.
#[derive(Drop)]
struct Trial {
    space: Guarded,
    first: PageNo,
    into: Vec<u8>,
}

fn are_all(bytes: &[u8], wanted: u8) -> bool {
    for byte in bytes {
        if *byte != wanted {
            return false;
        }
    }
    true
}

// A call, and what it is to answer: how long the key's value was.
#[derive(Clone, Copy)]
enum Call {
    Put(u8, usize, Option<u16>),
    Del(u8, Option<u16>),
    Find(u8, Option<usize>),
    Free(u32),
}

impl Trial {
    // 64 pages, of which page 0 is taken and page 1 is the bucket's first.
    fn new(alloc: Global) -> Result<Trial, Fail> {
        let mut space = Guarded::new(MemSpace::new(alloc, 64, 2)?);
        let first = make(&mut space)?;
        let into = vec![in alloc; 0; 1_024]?;
        Ok(Trial { space, first, into })
    }

    fn put(&mut self, ops: &Ops, key: u8, size: usize) -> Option<Option<u16>> {
        let bytes = [key; 1_024];
        let value = bytes.get(..size)?;
        if value.len() > 1_024 {
            return None;
        }
        put(&mut self.space, ops, self.first, &[key, key], value).ok()
    }

    fn del(&mut self, ops: &Ops, key: u8) -> Option<Option<u16>> {
        del(&mut self.space, ops, self.first, &[key, key]).ok()
    }

    // How long the key's value is, if its bytes are those of the key.
    fn find(&mut self, key: u8) -> Option<Option<usize>> {
        if self.into.len() < 1_024 {
            return None;
        }
        let found = find(
            &mut self.space,
            self.first,
            &[key, key],
            self.into.as_mut_slice(),
        )
        .ok()?;
        let Some(size) = found else {
            return Some(None);
        };
        let bytes = self.into.get(..size)?;
        if are_all(bytes, key) {
            Some(Some(size))
        } else {
            None
        }
    }

    fn pages(&mut self) -> Option<u32> {
        pages(&mut self.space, self.first).ok()
    }

    fn free_all(&mut self) -> bool {
        free_all(&mut self.space, self.first).is_ok()
    }

    fn free_pages(&self) -> u32 {
        self.space.free_pages()
    }

    fn faults(&self) -> u64 {
        self.space.faults()
    }

    fn link(&mut self, ops: &Ops, p: u32, next: u32) -> bool {
        let op = PageOp::Links { a: next, b: 0 };
        self.space.change(ops, PageNo(p), &op).is_ok()
    }

    // Whether the call answers what it is to.
    fn answers(&mut self, ops: &Ops, call: Call) -> bool {
        match call {
            Call::Put(key, size, had) => self.put(ops, key, size) == Some(had),
            Call::Del(key, had) => self.del(ops, key) == Some(had),
            Call::Find(key, size) => self.find(key) == Some(size),
            Call::Free(pages) => self.free_pages() == pages,
        }
    }

    // How many of the calls, from the first on, answer what they are to.
    fn run(&mut self, ops: &Ops, calls: &[Call]) -> usize {
        let mut done = 0usize;
        for call in calls {
            if !self.answers(ops, *call) {
                return done;
            }
            done = done.saturating_add(1);
        }
        done
    }
}

// New keys, replaced values and deleted keys. Three values of the greatest size fill a page, so that the fourth takes
// one, which is freed with it. A value that has no room on its page any more goes to another.
const CALLS: [Call; 20] = [
    Call::Put(1, 3, None),
    Call::Put(2, 0, None),
    Call::Put(1, 5, Some(3)),
    Call::Put(1, 1, Some(5)),
    Call::Find(1, Some(1)),
    Call::Find(2, Some(0)),
    Call::Find(3, None),
    Call::Del(3, None),
    Call::Del(1, Some(1)),
    Call::Find(1, None),
    Call::Put(4, 1_024, None),
    Call::Put(5, 1_024, None),
    Call::Put(6, 1_024, None),
    Call::Free(62),
    Call::Put(7, 1_024, None),
    Call::Free(61),
    Call::Put(2, 1_024, Some(0)),
    Call::Del(7, Some(1_024)),
    Call::Find(2, Some(1_024)),
    Call::Free(61),
];

#[test]
fn keys_have_their_values(rt: HostRuntime) -> Result<(), Fail> {
    let ops = Ops::shipped(rt.alloc())?;
    let mut bucket = Trial::new(rt.alloc())?;
    assert_eq!(rt; bucket.run(&ops, &CALLS), 20);
    Ok(())
}

// Fifty keys, each with a value of 1,000 bytes, all in one bucket: 4 stand on a page, so it has 13 pages.
fn fill(bucket: &mut Trial, ops: &Ops) -> bool {
    for key in 0..50 {
        if bucket.put(ops, key, 1_000) != Some(None) {
            return false;
        }
    }
    true
}

fn has_all(bucket: &mut Trial) -> bool {
    for key in 0..50 {
        if bucket.find(key) != Some(Some(1_000)) {
            return false;
        }
    }
    true
}

#[test]
fn colliding_keys_are_found(rt: HostRuntime) -> Result<(), Fail> {
    let ops = Ops::shipped(rt.alloc())?;
    let mut bucket = Trial::new(rt.alloc())?;
    assert!(rt; fill(&mut bucket, &ops));
    assert!(rt; has_all(&mut bucket));
    assert_eq!(rt; bucket.pages(), Some(13));
    assert!(rt; bucket.free_all());
    assert_eq!(rt; bucket.free_pages(), 63);
    Ok(())
}

// Whether the keys that the bucket lists are those of the address, and how many there are.
fn listed(
    trial: &mut Trial,
    alloc: Global,
    first: PageNo,
    there: Address,
) -> Option<(bool, usize)> {
    let mut all: Vec<Bytes> = Vec::new(alloc);
    keys(&mut trial.space, alloc, first, &mut all).ok()?;
    let mut same = true;
    for key in &all {
        if !there.holds(key.bytes()) {
            same = false;
        }
    }
    Some((same, all.len()))
}

// What is told of a bucket of fifty keys that was divided between the buckets 0 and 1 of a table of two: whether each
// lists its own keys alone, how many both list, and whether the new one has no more pages than the old one had.
fn divide(trial: &mut Trial, ops: &Ops, alloc: Global) -> Option<(bool, usize, bool)> {
    let extent = Extent::new(1, 0)?;
    let stays = Address { extent, bucket: 0 };
    let goes = Address { extent, bucket: 1 };
    let before = trial.pages()?;
    let new = branch(&mut trial.space, ops, trial.first, goes).ok()?;
    prune(&mut trial.space, ops, trial.first, goes).ok()?;
    let more = pages(&mut trial.space, new).ok()?;
    let left = listed(trial, alloc, trial.first, stays)?;
    let gone = listed(trial, alloc, new, goes)?;
    Some((
        left.0 && gone.0,
        left.1.saturating_add(gone.1),
        more <= before,
    ))
}

#[test]
fn a_bucket_is_divided(rt: HostRuntime) -> Result<(), Fail> {
    let ops = Ops::shipped(rt.alloc())?;
    let mut bucket = Trial::new(rt.alloc())?;
    assert!(rt; fill(&mut bucket, &ops));
    assert_eq!(rt;
        divide(&mut bucket, &ops, rt.alloc()),
        Some((true, 50, true))
    );
    Ok(())
}

// A chain that goes on in a ring, and pages that are none of a bucket's, end each call with a fault that is counted.
fn refused(bucket: &mut Trial, ops: &Ops, alloc: Global) -> [bool; 7] {
    let there = Address {
        extent: Extent::first(),
        bucket: 0,
    };
    let first = bucket.first;
    let mut all: Vec<Bytes> = Vec::new(alloc);
    [
        bucket.find(9).is_none(),
        bucket.put(ops, 9, 1_024).is_none(),
        bucket.del(ops, 9).is_none(),
        bucket.pages().is_none(),
        branch(&mut bucket.space, ops, first, there).is_err(),
        keys(&mut bucket.space, alloc, first, &mut all).is_err(),
        prune(&mut bucket.space, ops, first, there).is_err(),
    ]
}

#[test]
fn rings_are_faults(rt: HostRuntime) -> Result<(), Fail> {
    let ops = Ops::shipped(rt.alloc())?;
    let mut bucket = Trial::new(rt.alloc())?;
    assert_eq!(rt; bucket.put(&ops, 1, 3), Some(None));
    assert!(rt; bucket.link(&ops, 1, 1));
    assert_eq!(rt; bucket.find(1), Some(Some(3)));
    assert_eq!(rt; bucket.find(9), None);
    assert_eq!(rt; bucket.faults(), 1);
    assert_eq!(rt; refused(&mut bucket, &ops, rt.alloc()), [true; 7]);
    bucket.first = PageNo(0);
    assert_eq!(rt; refused(&mut bucket, &ops, rt.alloc()), [true; 7]);
    bucket.first = PageNo(100);
    assert_eq!(rt; refused(&mut bucket, &ops, rt.alloc()), [true; 7]);
    Ok(())
}

// How long each key's value is to be, and calls that are drawn.
#[derive(Drop)]
struct Pair {
    bucket: Trial,
    sizes: [Option<u16>; 64],
    seed: u64,
}

impl Pair {
    fn draw(&mut self) -> u32 {
        self.seed = self
            .seed
            .wrapping_mul(6_364_136_223_846_793_005)
            .wrapping_add(1_442_695_040_888_963_407);
        (self.seed >> 33) as u32
    }

    // A value of up to 1,024 bytes, mostly a short one.
    fn size(&mut self) -> u16 {
        if self.draw() % 4 == 0 {
            (self.draw() % 1_025) as u16
        } else {
            (self.draw() % 40) as u16
        }
    }

    // One call and a look, and whether both answer what the map does.
    fn step(&mut self, ops: &Ops) -> bool {
        let key = (self.draw() % 64) as u8;
        let at = key as usize;
        let had = self.sizes[at];
        let size = self.size();
        let answer = if self.draw() % 3 == 0 {
            self.sizes[at] = None;
            self.bucket.del(ops, key)
        } else {
            self.sizes[at] = Some(size);
            self.bucket.put(ops, key, size as usize)
        };
        let looked = (self.draw() % 64) as u8;
        let there = self.sizes[looked as usize].map(usize::from);
        answer == Some(had) && self.bucket.find(looked) == Some(there)
    }
}

#[test]
fn a_bucket_is_a_map(rt: HostRuntime) -> Result<(), Fail> {
    let ops = Ops::shipped(rt.alloc())?;
    let mut pair = Pair {
        bucket: Trial::new(rt.alloc())?,
        sizes: [None; 64],
        seed: 54,
    };
    let mut wrong = 0;
    for _ in 0..2_000 {
        if !pair.step(&ops) {
            wrong = 1;
        }
    }
    assert_eq!(rt; wrong, 0);
    assert_eq!(rt; pair.bucket.faults(), 0);
    Ok(())
}
