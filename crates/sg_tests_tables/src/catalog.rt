use sg_base::{Name, PageNo, PageOp, TxnId};
use sg_catalog::{Entry, ObjectKind, add, bury, find, forget, names, next_buried, remove, unbury};
use sg_ops::Ops;
use sg_space::{Guarded, MemSpace, PageSpace, SpaceFault};
use std::alloc::Global;
use std::test::Fail;

// An object as the tests see it: its kind and its root.
type Object = (ObjectKind, u32);

fn plain(entry: Option<Entry>) -> Option<Object> {
    match entry {
        Some(found) => Some((found.kind, found.root.0)),
        None => None,
    }
}

// A catalogue over a space in memory that tells nothing, so that its calls ask for nothing: what they are to answer
// stands in the tests. The methods promise nothing, and a test sees plain values: whether a call was done, and what was
// found. What isn't a name is answered as a call that wasn't done.
#[derive(Drop)]
struct Trial {
    space: Guarded,
    alloc: Global,
}

impl Trial {
    // 8 or 64 pages, of which page 0 is the catalogue's first, and 4 bands.
    fn new(alloc: Global, large: bool) -> Result<Trial, Fail> {
        let pages = if large { 64 } else { 8 };
        let space = Guarded::new(MemSpace::new(alloc, pages, 4)?);
        Ok(Trial { space, alloc })
    }

    fn add(&mut self, ops: &Ops, text: &[u8], kind: ObjectKind, root: u32) -> bool {
        let Some(name) = Name::new(text) else {
            return false;
        };
        let root = PageNo(root);
        add(&mut self.space, ops, name, Entry { kind, root }).is_ok()
    }

    fn remove(&mut self, ops: &Ops, text: &[u8]) -> bool {
        let Some(name) = Name::new(text) else {
            return false;
        };
        remove(&mut self.space, ops, name).is_ok()
    }

    fn bury(&mut self, ops: &Ops, text: &[u8], by: u64) -> bool {
        let Some(name) = Name::new(text) else {
            return false;
        };
        bury(&mut self.space, ops, name, TxnId(by)).is_ok()
    }

    fn unbury(&mut self, ops: &Ops, text: &[u8], root: u32) -> bool {
        let Some(name) = Name::new(text) else {
            return false;
        };
        unbury(&mut self.space, ops, name, PageNo(root)).is_ok()
    }

    fn forget(&mut self, ops: &Ops, root: u32) -> bool {
        forget(&mut self.space, ops, PageNo(root)).is_ok()
    }

    fn find(&mut self, text: &[u8]) -> Result<Option<Object>, SpaceFault> {
        match Name::new(text) {
            Some(name) => Ok(plain(find(&mut self.space, name)?)),
            None => Ok(None),
        }
    }

    fn next_buried(&mut self, by: Option<u64>) -> Result<Option<Object>, SpaceFault> {
        Ok(plain(next_buried(&mut self.space, by.map(TxnId))?))
    }

    // The names, each with a blank behind it, or nothing where they aren't listed.
    fn list(&mut self) -> Result<Vec<u8>, Fail> {
        let mut text = Vec::new(self.alloc);
        if let Ok(all) = names(&mut self.space, self.alloc) {
            for name in &all {
                push_name(&mut text, name.text())?;
            }
        }
        Ok(text)
    }

    fn faults(&self) -> u64 {
        self.space.faults()
    }

    fn free_pages(&self) -> u32 {
        self.space.free_pages()
    }
}

fn push_name(text: &mut Vec<u8>, name: &[u8]) -> Result<(), Fail> {
    for byte in name {
        text.push(*byte)?;
    }
    text.push(b' ')?;
    Ok(())
}

// A call, and what it is to find.
#[derive(Clone, Copy)]
enum Step {
    Add(&'static [u8], ObjectKind, u32),
    Remove(&'static [u8]),
    Bury(&'static [u8], u64),
    Unbury(&'static [u8], u32),
    Forget(u32),
    Find(&'static [u8], Option<Object>),
    NextBuried(Option<u64>, Option<Object>),
}

impl Trial {
    // Whether the call is done, and finds what it is to.
    fn does(&mut self, ops: &Ops, step: &Step) -> bool {
        match *step {
            Step::Add(name, kind, root) => self.add(ops, name, kind, root),
            Step::Remove(name) => self.remove(ops, name),
            Step::Bury(name, by) => self.bury(ops, name, by),
            Step::Unbury(name, root) => self.unbury(ops, name, root),
            Step::Forget(root) => self.forget(ops, root),
            Step::Find(name, object) => self.find(name) == Ok(object),
            Step::NextBuried(by, object) => self.next_buried(by) == Ok(object),
        }
    }

    // How many of the calls are done.
    fn count_done(&mut self, ops: &Ops, steps: &[Step]) -> usize {
        let mut done = 0usize;
        for step in steps {
            if self.does(ops, step) {
                done = done.saturating_add(1);
            }
        }
        done
    }
}

const FIRST: Option<Object> = Some((ObjectKind::Blob, 5));

const SECOND: Option<Object> = Some((ObjectKind::Array, 6));

// An object is dropped; one of the same name is made beside its tombstone; then the first comes back.
const DROPPED: [Step; 19] = [
    Step::Add(b"b", ObjectKind::Blob, 5),
    Step::Add(b"bb", ObjectKind::Table, 8),
    Step::Find(b"b", FIRST),
    Step::Bury(b"b", 7),
    Step::Find(b"b", None),
    Step::NextBuried(Some(7), FIRST),
    Step::NextBuried(None, FIRST),
    Step::NextBuried(Some(8), None),
    Step::Add(b"b", ObjectKind::Array, 6),
    Step::Find(b"b", SECOND),
    Step::Remove(b"b"),
    Step::Unbury(b"b", 5),
    Step::Find(b"b", FIRST),
    Step::NextBuried(None, None),
    Step::Bury(b"b", 0),
    Step::NextBuried(Some(0), FIRST),
    Step::Forget(5),
    Step::NextBuried(None, None),
    Step::Find(b"bb", Some((ObjectKind::Table, 8))),
];

#[test]
fn a_tombstone_stands_beside_an_object(rt: HostRuntime) -> Result<(), Fail> {
    let ops = Ops::shipped(rt.alloc())?;
    let mut all = Trial::new(rt.alloc(), false)?;
    assert_eq!(rt; all.count_done(&ops, &DROPPED), 19);
    assert_eq!(rt; all.faults(), 0);
    Ok(())
}

const MADE: [Step; 7] = [
    Step::Add(b"t", ObjectKind::Table, 2),
    Step::Add(b"ab", ObjectKind::Array, 3),
    Step::Add(b"b", ObjectKind::Blob, 4),
    Step::Add(b"a", ObjectKind::Array, 1),
    Step::Bury(b"ab", 3),
    Step::Bury(b"b", 3),
    Step::Add(b"b", ObjectKind::Blob, 5),
];

// A name that is there, or isn't; one that has a tombstone alone; a root that is an object's; a name that is there beside
// its tombstone.
const REFUSED: [Step; 7] = [
    Step::Add(b"a", ObjectKind::Blob, 9),
    Step::Remove(b"ab"),
    Step::Remove(b"c"),
    Step::Bury(b"ab", 4),
    Step::Unbury(b"ab", 4),
    Step::Forget(1),
    Step::Unbury(b"b", 4),
];

// What can't be done is answered as a fault and counted, and the names come in order.
#[test]
fn what_cannot_be_done_is_counted(rt: HostRuntime) -> Result<(), Fail> {
    let ops = Ops::shipped(rt.alloc())?;
    let mut all = Trial::new(rt.alloc(), false)?;
    assert_eq!(rt; all.count_done(&ops, &MADE), 7);
    assert_eq!(rt; all.faults(), 0);
    assert_eq!(rt; all.count_done(&ops, &REFUSED), 0);
    assert_eq!(rt; all.faults(), 7);
    assert_eq!(rt; all.list()?.as_slice(), b"a b t ".as_slice());
    Ok(())
}

// The last decimal digit.
fn digit(number: u32) -> u8 {
    b'0' + (number % 10) as u8
}

// A name for a number: a letter and four digits, so that the names are in the order of the numbers.
fn numbered(number: u32) -> [u8; 5] {
    [
        b'n',
        digit(number / 1_000),
        digit(number / 100),
        digit(number / 10),
        digit(number),
    ]
}

impl Trial {
    // Adds an object for each of these numbers, and answers how many.
    fn add_numbered(&mut self, ops: &Ops, from: u32, to: u32) -> u32 {
        let mut done = 0u32;
        for number in from..to {
            if self.add(ops, &numbered(number), ObjectKind::Table, number) {
                done = done.saturating_add(1);
            }
        }
        done
    }

    // Takes the objects of these numbers out, each second one as a tombstone that is forgotten.
    fn remove_numbered(&mut self, ops: &Ops, from: u32, to: u32) -> u32 {
        let mut done = 0u32;
        for number in from..to {
            let name = numbered(number);
            let gone = if number % 2 == 0 {
                self.remove(ops, &name)
            } else {
                self.bury(ops, &name, 1) && self.forget(ops, number)
            };
            if gone {
                done = done.saturating_add(1);
            }
        }
        done
    }
}

// From which number to which one objects are added, and how many of 64 pages are free then: 79 rows fill a page, and the
// 80th and the 159th take another one.
const FILLED: [(u32, u32, u32); 5] = [
    (0, 78, 63),
    (78, 79, 63),
    (79, 80, 62),
    (80, 158, 62),
    (158, 160, 61),
];

// Free places are used again before a page is taken, and no page is given back.
#[test]
fn a_page_has_79_rows(rt: HostRuntime) -> Result<(), Fail> {
    let ops = Ops::shipped(rt.alloc())?;
    let mut all = Trial::new(rt.alloc(), true)?;
    for (from, to, free) in FILLED {
        assert_eq!(rt; all.add_numbered(&ops, from, to), to.saturating_sub(from));
        assert_eq!(rt; all.free_pages(), free);
    }
    assert_eq!(rt; all.remove_numbered(&ops, 0, 150), 150);
    assert_eq!(rt; all.free_pages(), 61);
    assert_eq!(rt; all.add_numbered(&ops, 1_000, 1_150), 150);
    assert_eq!(rt; all.free_pages(), 61);
    assert_eq!(rt; all.find(b"n0159"), Ok(Some((ObjectKind::Table, 159))));
    assert_eq!(rt; all.faults(), 0);
    Ok(())
}

// A row of a plain list: which name, who dropped it, and the root.
#[derive(Clone, Copy)]
struct PlainRow {
    number: u32,
    dropper: Option<u64>,
    root: u32,
}

// A catalogue beside the plain list of rows that it is to be, and calls that are drawn.
#[derive(Drop)]
struct Pair {
    all: Trial,
    rows: Vec<PlainRow>,
    roots: u32,
    seed: u64,
}

impl Pair {
    fn draw(&mut self, below: u32) -> u32 {
        self.seed = self
            .seed
            .wrapping_mul(6_364_136_223_846_793_005)
            .wrapping_add(1_442_695_040_888_963_407);
        ((self.seed >> 33) as u32).checked_rem(below).unwrap_or(0)
    }

    // Where in the list the object of this name is.
    fn there(&self, number: u32) -> Option<usize> {
        for (place, row) in self.rows.iter().enumerate() {
            if row.number == number && row.dropper.is_none() {
                return Some(place);
            }
        }
        None
    }

    fn take_out(&mut self, place: usize) {
        if place < self.rows.len() {
            self.rows.swap_remove(place);
        }
    }

    fn drop_row(&mut self, place: usize, dropper: Option<u64>) {
        if let Some(row) = self.rows.get_mut(place) {
            row.dropper = dropper;
        }
    }

    // Whether a call answered as it is to: it is done where it can be, and changes nothing else.
    fn add(&mut self, ops: &Ops, number: u32) -> Result<bool, Fail> {
        self.roots = self.roots.saturating_add(1);
        let root = self.roots;
        let done = self
            .all
            .add(ops, &numbered(number), ObjectKind::Array, root);
        let can = self.there(number).is_none();
        if can {
            let dropper = None;
            self.rows.push(PlainRow {
                number,
                dropper,
                root,
            })?;
        }
        Ok(done == can)
    }

    fn remove(&mut self, ops: &Ops, number: u32) -> bool {
        let done = self.all.remove(ops, &numbered(number));
        match self.there(number) {
            Some(place) => {
                self.take_out(place);
                done
            }
            None => !done,
        }
    }

    fn bury(&mut self, ops: &Ops, number: u32, by: u64) -> bool {
        let done = self.all.bury(ops, &numbered(number), by);
        match self.there(number) {
            Some(place) => {
                self.drop_row(place, Some(by));
                done
            }
            None => !done,
        }
    }

    // The row at a place that is drawn, if there is one.
    fn some_row(&mut self) -> Option<(usize, PlainRow)> {
        let long = u32::try_from(self.rows.len()).unwrap_or(u32::MAX);
        let place = self.draw(long) as usize;
        let row = self.rows.get(place)?;
        Some((place, *row))
    }

    fn unbury(&mut self, ops: &Ops) -> bool {
        let Some((place, row)) = self.some_row() else {
            return true;
        };
        let done = self.all.unbury(ops, &numbered(row.number), row.root);
        let can = row.dropper.is_some() && self.there(row.number).is_none();
        if can {
            self.drop_row(place, None);
        }
        done == can
    }

    fn forget(&mut self, ops: &Ops) -> bool {
        let Some((place, row)) = self.some_row() else {
            return true;
        };
        let done = self.all.forget(ops, row.root);
        let can = row.dropper.is_some();
        if can {
            self.take_out(place);
        }
        done == can
    }

    // Whether what is found under a name is what the list has.
    fn finds_alike(&mut self, number: u32) -> bool {
        let mut wanted = None;
        if let Some(place) = self.there(number) {
            if let Some(row) = self.rows.get(place) {
                wanted = Some((ObjectKind::Array, row.root));
            }
        }
        self.all.find(&numbered(number)) == Ok(wanted)
    }

    // Whether the list has a tombstone of this dropper, with this root if one is given.
    fn has_tomb(&self, by: u64, root: Option<u32>) -> bool {
        for row in &self.rows {
            if row.dropper == Some(by) && (root.is_none() || root == Some(row.root)) {
                return true;
            }
        }
        false
    }

    // Whether the next tombstone of a dropper is one of the list, and none where the list has none.
    fn buries_alike(&mut self, by: u64) -> bool {
        match self.all.next_buried(Some(by)) {
            Ok(Some((_, root))) => self.has_tomb(by, Some(root)),
            Ok(None) => !self.has_tomb(by, None),
            Err(_) => false,
        }
    }

    // One call, and whether it did what the list does, and what is read then.
    fn call(&mut self, ops: &Ops) -> Result<bool, Fail> {
        let number = self.draw(200);
        let by = u64::from(self.draw(5));
        let alike = match self.draw(8) {
            0 | 1 => self.add(ops, number)?,
            2 => self.remove(ops, number),
            3 | 4 => self.bury(ops, number, by),
            5 => self.unbury(ops),
            _ => self.forget(ops),
        };
        Ok(alike && self.finds_alike(number) && self.buries_alike(by))
    }

    // How many of so many calls did something else.
    fn count_wrong(&mut self, ops: &Ops, calls: u32) -> Result<u32, Fail> {
        let mut wrong = 0u32;
        for _ in 0..calls {
            if !self.call(ops)? {
                wrong = wrong.saturating_add(1);
            }
        }
        Ok(wrong)
    }

    // The names of the list in order, each with a blank behind it.
    fn listed(&self) -> Result<Vec<u8>, Fail> {
        let mut text = Vec::new(self.all.alloc);
        for number in 0u32..200 {
            if self.there(number).is_some() {
                push_name(&mut text, &numbered(number))?;
            }
        }
        Ok(text)
    }
}

#[test]
fn a_catalogue_is_a_map_and_a_list(rt: HostRuntime) -> Result<(), Fail> {
    let ops = Ops::shipped(rt.alloc())?;
    let mut pair = Pair {
        all: Trial::new(rt.alloc(), true)?,
        rows: Vec::new(rt.alloc()),
        roots: 0,
        seed: 79,
    };
    assert_eq!(rt; pair.count_wrong(&ops, 10_000)?, 0);
    let listed = pair.listed()?;
    assert_eq!(rt; pair.all.list()?.as_slice(), listed.as_slice());
    Ok(())
}

// What is wrong with a catalogue of the objects and tombstones n0000 to n0083, of which the last five stand on page 1: three
// objects, and tombstones of the transactions 7 and 8. Beside it page 2 is taken as one of items, and page 3 as a
// catalogue's without rows.
#[derive(Clone, Copy)]
enum Damage {
    // Nothing.
    None,
    // A slot of a page has these bytes.
    Cell(u32, u16, &'static [u8]),
    // A page has another slot, of these bytes.
    Slot(u32, u16, &'static [u8]),
    // A page names this one as the next, and says this peak.
    Links(u32, u32, u32),
    // A page is free.
    Gone(u32),
    // A page is of another kind, and has no slots.
    Kind(u32, u8),
}

// Which of `find`, `next_buried`, `names`, `add`, `remove`, `bury`, `unbury` and `forget` are to fail. Each could be done
// where nothing is wrong.
type Failing = [bool; 8];

const NONE: Failing = [false; 8];

const ALL: Failing = [true; 8];

// Those that read all pages.
const WHOLE: Failing = [false, false, true, true, false, false, true, false];

// Those that read more than the objects of page 1.
const BEHIND: Failing = [false, true, true, true, false, false, true, true];

const ROWS: [(Damage, Failing); 27] = [
    (Damage::None, NONE),
    (
        Damage::Cell(0, 0, b"\x01\0\0\0\0\0\0\0\0\0\x05\0\0\0\x01a"),
        NONE,
    ),
    // the kind of an object
    (
        Damage::Cell(0, 0, b"\x00\0\0\0\0\0\0\0\0\0\x05\0\0\0\x01a"),
        ALL,
    ),
    (
        Damage::Cell(0, 0, b"\x04\0\0\0\0\0\0\0\0\0\x05\0\0\0\x01a"),
        ALL,
    ),
    // its state, and who dropped it
    (
        Damage::Cell(0, 0, b"\x01\x02\0\0\0\0\0\0\0\0\x05\0\0\0\x01a"),
        ALL,
    ),
    (
        Damage::Cell(0, 0, b"\x01\0\x07\0\0\0\0\0\0\0\x05\0\0\0\x01a"),
        ALL,
    ),
    // the length of its name, and the name
    (
        Damage::Cell(0, 0, b"\x01\0\0\0\0\0\0\0\0\0\x05\0\0\0\x02a"),
        ALL,
    ),
    (
        Damage::Cell(0, 0, b"\x01\0\0\0\0\0\0\0\0\0\x05\0\0\0\x01ab"),
        ALL,
    ),
    (
        Damage::Cell(0, 0, b"\x01\0\0\0\0\0\0\0\0\0\x05\0\0\0\x011"),
        ALL,
    ),
    (
        Damage::Cell(0, 0, b"\x01\0\0\0\0\0\0\0\0\0\x05\0\0\0\x00"),
        ALL,
    ),
    // a row without some of its fields
    (Damage::Cell(0, 0, b"\x01\0\0\0\0\0\0\0\0\0\x05\0\0\0"), ALL),
    (Damage::Cell(1, 3, b"\x01"), BEHIND),
    // one row more than a page has
    (
        Damage::Slot(0, 79, b"\x01\0\0\0\0\0\0\0\0\0\x05\0\0\0\x01a"),
        ALL,
    ),
    // the page that follows
    (Damage::Links(0, 0, 84), ALL),
    (Damage::Links(0, 2, 84), ALL),
    (Damage::Links(0, 7, 84), ALL),
    (Damage::Links(0, 4_000_000_000, 84), ALL),
    (Damage::Links(1, 1, 0), WHOLE),
    (Damage::Links(1, 3, 0), WHOLE),
    // the peak: the rows of one page, of as many as the space has, and of more
    (Damage::Links(0, 1, 0), ALL),
    (Damage::Links(0, 1, 79), ALL),
    (Damage::Links(0, 1, 632), WHOLE),
    (Damage::Links(0, 1, 633), ALL),
    (Damage::Links(0, 1, u32::MAX), ALL),
    // the page's kind
    (Damage::Kind(0, 4), ALL),
    (Damage::Kind(1, 4), ALL),
    (Damage::Gone(1), ALL),
];

impl Trial {
    // A catalogue as it was before the damage.
    fn sound(alloc: Global, ops: &Ops) -> Result<Trial, Fail> {
        let mut all = Trial::new(alloc, false)?;
        all.add_numbered(ops, 0, 84);
        all.bury(ops, b"n0082", 7);
        all.bury(ops, b"n0083", 8);
        all.space.take_page(4)?;
        all.space.take_page(1)?;
        Ok(all)
    }

    // Damages it behind its back.
    fn damage(&mut self, ops: &Ops, damage: &Damage) -> Result<(), SpaceFault> {
        match *damage {
            Damage::None => Ok(()),
            Damage::Cell(page, slot, bytes) => {
                let op = PageOp::Set { slot, bytes };
                self.space.change(ops, PageNo(page), &op)
            }
            Damage::Slot(page, slot, bytes) => {
                let op = PageOp::Put { slot, bytes };
                self.space.change(ops, PageNo(page), &op)
            }
            Damage::Links(page, a, b) => {
                let op = PageOp::Links { a, b };
                self.space.change(ops, PageNo(page), &op)
            }
            Damage::Gone(page) => self.space.free_page(PageNo(page)),
            Damage::Kind(page, kind) => {
                self.space.free_page(PageNo(page))?;
                self.space.take_page(kind)?;
                Ok(())
            }
        }
    }

    // Whether a call is done. None hinders another one.
    fn can(&mut self, ops: &Ops, which: usize) -> bool {
        match which {
            0 => self.find(b"n0079") == Ok(Some((ObjectKind::Table, 79))),
            1 => self.next_buried(Some(7)) == Ok(Some((ObjectKind::Table, 82))),
            2 => names(&mut self.space, self.alloc).is_ok(),
            3 => self.add(ops, b"other", ObjectKind::Array, 9),
            4 => self.remove(ops, b"n0080"),
            5 => self.bury(ops, b"n0081", 9),
            6 => self.unbury(ops, b"n0082", 82),
            _ => self.forget(ops, 83),
        }
    }

    // Whether a call fails with one fault counted, where it is to, and else is done without one.
    fn fails_if(&mut self, ops: &Ops, which: usize, wanted: bool) -> bool {
        let before = self.faults();
        let done = self.can(ops, which);
        let counted = self.faults().saturating_sub(before);
        done != wanted && counted == u64::from(wanted)
    }
}

// Whether those calls fail that are to.
fn row_is_met(alloc: Global, ops: &Ops, row: &(Damage, Failing)) -> Result<bool, Fail> {
    let mut all = Trial::sound(alloc, ops)?;
    all.damage(ops, &row.0)?;
    let mut met = all.faults() == 0;
    for (which, wanted) in row.1.iter().enumerate() {
        met = all.fails_if(ops, which, *wanted) && met;
    }
    Ok(met)
}

// Each field of a row and of a page wrong in turn.
#[test]
fn broken_contents_are_faults(rt: HostRuntime) -> Result<(), Fail> {
    let ops = Ops::shipped(rt.alloc())?;
    let mut met = 0usize;
    for row in ROWS.iter() {
        if row_is_met(rt.alloc(), &ops, row)? {
            met = met.saturating_add(1);
        }
    }
    assert_eq!(rt; met, 27);
    Ok(())
}

// A chain that comes back to itself ends with a fault, after as many pages as the peak wants.
#[test]
fn a_ring_ends(rt: HostRuntime) -> Result<(), Fail> {
    let ops = Ops::shipped(rt.alloc())?;
    let mut all = Trial::sound(rt.alloc(), &ops)?;
    all.damage(&ops, &Damage::Links(0, 1, 632))?;
    all.damage(&ops, &Damage::Links(1, 1, 0))?;
    assert_eq!(rt; all.find(b"n0079"), Ok(Some((ObjectKind::Table, 79))));
    assert_eq!(rt; all.find(b"other"), Err(SpaceFault::Disk));
    assert_eq!(rt; all.next_buried(Some(6)), Err(SpaceFault::Disk));
    assert!(rt; all.list()?.is_empty());
    assert!(rt; !all.add(&ops, b"other", ObjectKind::Array, 9));
    assert_eq!(rt; all.faults(), 4);
    Ok(())
}
