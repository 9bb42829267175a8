use Act::*;
use sg_base::{Name, PageNo, TxnId};
use sg_model::{Op, Reason, Reply};
use sg_objects::{ObjFault, free_next, keys, list, perform, reverse};
use sg_ops::Ops;
use sg_space::{Guarded, ListFault, MemSpace, PageSpace, SpaceFault, UndoNote};
use std::alloc::Global;
use std::test::Fail;

// What an act came to.
#[derive(Clone, Copy, PartialEq, Eq)]
pub(crate) enum Came {
    Reply(Reply),
    Reason(Reason),
    Fault,
}

pub(crate) const DONE: Came = Came::Reply(Reply::Done);

const PUSHED: Came = Came::Reply(Reply::Number(0));

// The front of a buffer into which nothing was put.
pub(crate) const NONE: [u8; 8] = [0; 8];

pub(crate) const ONE: &[u8] = b"\x01\0\0\0\0\0\0\0";

pub(crate) const HIGHEST: &[u8] = b"\xff\xff\xff\xff\xff\xff\xff\xff";

// A value of 1,024 letters.
const LETTERS: &[u8] = &[b'v'; 1_024];

// What is done one after another: a verb, whose note goes to a place; what a place's note undoes; bytes of the blob `b` that
// are put back from an offset on, as the records of the action have them.
#[derive(Clone, Copy)]
enum Act {
    Does(usize, Op<'static>),
    Undoes(usize),
    PutsBack(u32, &'static [u8]),
}

// An act, what it comes to, and the first bytes of the buffer after it.
type Row = (Act, Came, [u8; 8]);

fn outcome_of(said: Result<Reply, ObjFault>) -> Came {
    match said {
        Ok(reply) => Came::Reply(reply),
        Err(ObjFault::Model(reason)) => Came::Reason(reason),
        Err(ObjFault::Space(_)) => Came::Fault,
    }
}

fn undone(said: Result<(), SpaceFault>) -> Came {
    match said {
        Ok(()) => DONE,
        Err(_) => Came::Fault,
    }
}

// Objects in a space that tells nothing, so that a call asks for nothing, and four notes.
#[derive(Drop)]
pub(crate) struct Trial {
    pub(crate) space: Guarded,
    pub(crate) ops: Ops,
    notes: [UndoNote; 4],
}

impl Trial {
    // 64 pages, of which the catalogue has one, and 8 bands, of which the map has two.
    pub(crate) fn new(alloc: Global) -> Result<Trial, Fail> {
        let space = Guarded::new(MemSpace::new(alloc, 64, 8)?);
        let ops = Ops::shipped(alloc)?;
        let notes = [
            UndoNote::new(),
            UndoNote::new(),
            UndoNote::new(),
            UndoNote::new(),
        ];
        Ok(Trial { space, ops, notes })
    }

    pub(crate) fn does(&mut self, place: usize, op: &Op<'_>, into: &mut [u8; 8192]) -> Came {
        let mut note = UndoNote::new();
        let result = perform(&mut self.space, &self.ops, TxnId(7), op, into, &mut note);
        if let Some(kept) = self.notes.get_mut(place) {
            *kept = note;
        }
        outcome_of(result)
    }

    fn undoes(&mut self, place: usize) -> Came {
        match self.notes.get(place) {
            None => Came::Fault,
            Some(note) => undone(reverse(&mut self.space, &self.ops, note)),
        }
    }

    fn root(&mut self, letter: u8) -> Result<PageNo, SpaceFault> {
        let Some(name) = Name::new(&[letter]) else {
            return Err(SpaceFault::Disk);
        };
        match sg_catalog::find(&mut self.space, name)? {
            None => Err(SpaceFault::Disk),
            Some(entry) => Ok(entry.root),
        }
    }

    fn put_back(&mut self, at: u32, bytes: &[u8]) -> Result<(), SpaceFault> {
        let root = self.root(b'b')?;
        let bytes = &bytes[..bytes.len().min(8_192)];
        sg_blob::write(&mut self.space, &self.ops, root, at.min(60_000), bytes)
    }

    fn act(&mut self, act: &Act, into: &mut [u8; 8192]) -> Came {
        match act {
            Does(place, op) => self.does(*place, op, into),
            Undoes(place) => self.undoes(*place),
            PutsBack(at, bytes) => undone(self.put_back(*at, bytes)),
        }
    }

    // The first row that came to something else.
    fn first_wrong(&mut self, rows: &[Row]) -> Option<usize> {
        for (i, (act, want, bytes)) in rows.iter().enumerate() {
            let mut into = [0u8; 8192];
            let came = self.act(act, &mut into);
            if came != *want || &into[..8] != bytes.as_slice() {
                return Some(i);
            }
        }
        None
    }

    // The level and the low byte of the split of the table of this letter, whose root's cell begins with them.
    fn shape(&mut self, letter: u8) -> Result<(u8, u8), SpaceFault> {
        let root = self.root(letter)?;
        let view = self.space.page(root)?;
        match view.slot(0) {
            Some(&[level, split, ..]) => Ok((level, split)),
            _ => Ok((255, 255)),
        }
    }

    // Takes free pages until so many are left.
    fn leave(&mut self, count: u32) -> Result<(), SpaceFault> {
        for _ in 0..64 {
            if self.space.free_pages() > count {
                self.space.take_page(9)?;
            }
        }
        Ok(())
    }
}

fn named(letter: u8) -> Result<Name, Fail> {
    Ok(Name::new(&[letter]).ok_or("a name")?)
}

// What one transaction set is undone, and what another one has set since stays.
fn two_setters(a: Name) -> [Row; 8] {
    [
        (Does(0, Op::MakeArray { name: a, size: 2 }), DONE, NONE),
        (
            Does(
                0,
                Op::Push {
                    name: a,
                    value: b"aa",
                },
            ),
            PUSHED,
            NONE,
        ),
        (
            Does(
                0,
                Op::Push {
                    name: a,
                    value: b"bb",
                },
            ),
            Came::Reply(Reply::Number(1)),
            NONE,
        ),
        (
            Does(
                1,
                Op::Set {
                    name: a,
                    index: 0,
                    value: b"cc",
                },
            ),
            DONE,
            NONE,
        ),
        (
            Does(
                2,
                Op::Set {
                    name: a,
                    index: 1,
                    value: b"dd",
                },
            ),
            DONE,
            NONE,
        ),
        (Undoes(1), DONE, NONE),
        (
            Does(2, Op::Get { name: a, index: 0 }),
            Came::Reply(Reply::Bytes(2)),
            *b"aa\0\0\0\0\0\0",
        ),
        (
            Does(2, Op::Get { name: a, index: 1 }),
            Came::Reply(Reply::Bytes(2)),
            *b"dd\0\0\0\0\0\0",
        ),
    ]
}

// 1 is added to the highest number of 8 bytes, and taken off again; then what is declined, and what isn't registered.
fn added(n: Name) -> [Row; 8] {
    [
        (Does(0, Op::MakeArray { name: n, size: 8 }), DONE, NONE),
        (
            Does(
                0,
                Op::Push {
                    name: n,
                    value: HIGHEST,
                },
            ),
            PUSHED,
            NONE,
        ),
        (
            Does(
                1,
                Op::Apply {
                    name: n,
                    index: 0,
                    code: 1,
                    arg: ONE,
                },
            ),
            DONE,
            NONE,
        ),
        (
            Does(2, Op::Get { name: n, index: 0 }),
            Came::Reply(Reply::Bytes(8)),
            NONE,
        ),
        (Undoes(1), DONE, NONE),
        (
            Does(2, Op::Get { name: n, index: 0 }),
            Came::Reply(Reply::Bytes(8)),
            [255; 8],
        ),
        (
            Does(
                2,
                Op::Apply {
                    name: n,
                    index: 0,
                    code: 2,
                    arg: b"\x01",
                },
            ),
            Came::Reason(Reason::Declined),
            NONE,
        ),
        (
            Does(
                2,
                Op::Apply {
                    name: n,
                    index: 0,
                    code: 9,
                    arg: b"\x01",
                },
            ),
            Came::Reason(Reason::NoOperation),
            NONE,
        ),
    ]
}

fn rotated(r: Name) -> [Row; 4] {
    [
        (Does(0, Op::MakeArray { name: r, size: 3 }), DONE, NONE),
        (
            Does(
                0,
                Op::Push {
                    name: r,
                    value: b"abc",
                },
            ),
            PUSHED,
            NONE,
        ),
        (
            Does(
                1,
                Op::Apply {
                    name: r,
                    index: 0,
                    code: 3,
                    arg: b"\x01",
                },
            ),
            DONE,
            NONE,
        ),
        (
            Does(1, Op::Get { name: r, index: 0 }),
            Came::Reply(Reply::Bytes(3)),
            *b"bca\0\0\0\0\0",
        ),
    ]
}

// The second put makes 2,060 bytes of entries, more than 2,048, so that the table splits.
fn split(h: Name) -> [Row; 6] {
    [
        (Does(0, Op::MakeTable { name: h }), DONE, NONE),
        (
            Does(
                0,
                Op::Put {
                    name: h,
                    key: b"k1",
                    value: LETTERS,
                },
            ),
            Came::Reply(Reply::New),
            NONE,
        ),
        (
            Does(
                1,
                Op::Put {
                    name: h,
                    key: b"k2",
                    value: LETTERS,
                },
            ),
            Came::Reply(Reply::New),
            NONE,
        ),
        (Undoes(1), DONE, NONE),
        (
            Does(
                2,
                Op::Find {
                    name: h,
                    key: b"k2",
                },
            ),
            Came::Reply(Reply::Absent),
            NONE,
        ),
        (
            Does(
                2,
                Op::Find {
                    name: h,
                    key: b"k1",
                },
            ),
            Came::Reply(Reply::Bytes(1_024)),
            [b'v'; 8],
        ),
    ]
}

// Two bytes on both sides of a band's end, and the zeros that they found put back.
fn across_bands(b: Name) -> [Row; 7] {
    [
        (Does(0, Op::MakeBlob { name: b }), DONE, NONE),
        (
            Does(
                0,
                Op::Size {
                    name: b,
                    length: 32_769,
                },
            ),
            DONE,
            NONE,
        ),
        (
            Does(
                1,
                Op::Write {
                    name: b,
                    at: 32_767,
                    bytes: b"AB",
                },
            ),
            DONE,
            NONE,
        ),
        (
            Does(
                2,
                Op::Read {
                    name: b,
                    at: 32_766,
                    count: 3,
                },
            ),
            Came::Reply(Reply::Bytes(3)),
            *b"\0AB\0\0\0\0\0",
        ),
        (PutsBack(32_767, b"\0\0"), DONE, NONE),
        (Undoes(1), DONE, NONE),
        (
            Does(
                2,
                Op::Read {
                    name: b,
                    at: 32_766,
                    count: 3,
                },
            ),
            Came::Reply(Reply::Bytes(3)),
            NONE,
        ),
    ]
}

// A blob that is cut and grows again, both undone, the last one first; then painted.
fn cut_and_painted(b: Name) -> [Row; 13] {
    [
        (Does(0, Op::MakeBlob { name: b }), DONE, NONE),
        (
            Does(
                0,
                Op::Write {
                    name: b,
                    at: 0,
                    bytes: b"hello",
                },
            ),
            DONE,
            NONE,
        ),
        (Does(1, Op::Size { name: b, length: 2 }), DONE, NONE),
        (Does(2, Op::Size { name: b, length: 5 }), DONE, NONE),
        (
            Does(
                3,
                Op::Read {
                    name: b,
                    at: 0,
                    count: 5,
                },
            ),
            Came::Reply(Reply::Bytes(5)),
            *b"he\0\0\0\0\0\0",
        ),
        (Undoes(2), DONE, NONE),
        (PutsBack(2, b"llo"), DONE, NONE),
        (Undoes(1), DONE, NONE),
        (
            Does(
                3,
                Op::Read {
                    name: b,
                    at: 0,
                    count: 5,
                },
            ),
            Came::Reply(Reply::Bytes(5)),
            *b"hello\0\0\0",
        ),
        (Does(0, Op::Size { name: b, length: 4 }), DONE, NONE),
        (
            Does(
                0,
                Op::Paint {
                    name: b,
                    at: 0,
                    count: 4,
                    code: 2,
                    arg: b"\x0a",
                },
            ),
            DONE,
            NONE,
        ),
        (
            Does(
                0,
                Op::Paint {
                    name: b,
                    at: 1,
                    count: 2,
                    code: 1,
                    arg: b"Z",
                },
            ),
            DONE,
            NONE,
        ),
        (
            Does(
                3,
                Op::Read {
                    name: b,
                    at: 0,
                    count: 4,
                },
            ),
            Came::Reply(Reply::Bytes(4)),
            *b"\x0aZZ\x0d\0\0\0\0",
        ),
    ]
}

// Three objects, and a table of three keys.
fn three_objects(a: Name, b: Name, t: Name) -> [Row; 8] {
    [
        (Does(0, Op::MakeTable { name: t }), DONE, NONE),
        (Does(0, Op::MakeBlob { name: b }), DONE, NONE),
        (
            Does(
                0,
                Op::Write {
                    name: b,
                    at: 0,
                    bytes: b"hello",
                },
            ),
            DONE,
            NONE,
        ),
        (Does(0, Op::MakeArray { name: a, size: 1 }), DONE, NONE),
        (
            Does(
                0,
                Op::Push {
                    name: a,
                    value: b"\0",
                },
            ),
            PUSHED,
            NONE,
        ),
        (
            Does(
                0,
                Op::Put {
                    name: t,
                    key: b"c",
                    value: b"x:y",
                },
            ),
            Came::Reply(Reply::New),
            NONE,
        ),
        (
            Does(
                0,
                Op::Put {
                    name: t,
                    key: b"a",
                    value: b"",
                },
            ),
            Came::Reply(Reply::New),
            NONE,
        ),
        (
            Does(
                0,
                Op::Put {
                    name: t,
                    key: b"b",
                    value: b"\xc3\xa9",
                },
            ),
            Came::Reply(Reply::New),
            NONE,
        ),
    ]
}

// An array that is dropped, and comes back with its items once the drop is undone, also where another one has its name meanwhile and is
// unmade.
fn dropped(a: Name) -> [Row; 8] {
    [
        (Does(0, Op::MakeArray { name: a, size: 2 }), DONE, NONE),
        (
            Does(
                0,
                Op::Push {
                    name: a,
                    value: b"aa",
                },
            ),
            PUSHED,
            NONE,
        ),
        (Does(1, Op::Discard { name: a }), DONE, NONE),
        (
            Does(3, Op::Len { name: a }),
            Came::Reason(Reason::NoObject),
            NONE,
        ),
        (Does(2, Op::MakeTable { name: a }), DONE, NONE),
        (Undoes(2), DONE, NONE),
        (Undoes(1), DONE, NONE),
        (
            Does(3, Op::Pop { name: a }),
            Came::Reply(Reply::Bytes(2)),
            *b"aa\0\0\0\0\0\0",
        ),
    ]
}

// Whether all rows came to what they say, over objects of their own. Here, and not in a test, a trial goes when it isn't used any more, so that
// the prover doesn't look at that at each of a test's ends.
fn goes(alloc: Global, rows: &[Row]) -> Result<bool, Fail> {
    let mut trial = Trial::new(alloc)?;
    Ok(trial.first_wrong(rows).is_none())
}

#[test]
fn an_undo_leaves_what_others_set(rt: HostRuntime) -> Result<(), Fail> {
    assert!(rt; goes(rt.alloc(), &two_setters(named(b'a')?))?);
    Ok(())
}

#[test]
fn operations_on_items_are_undone(rt: HostRuntime) -> Result<(), Fail> {
    assert!(rt; goes(rt.alloc(), &added(named(b'n')?))?);
    assert!(rt; goes(rt.alloc(), &rotated(named(b'r')?))?);
    Ok(())
}

// The shape of the table once the rows came to what they say.
fn shape_behind(alloc: Global, rows: &[Row]) -> Result<Option<(u8, u8)>, Fail> {
    let mut trial = Trial::new(alloc)?;
    if trial.first_wrong(rows).is_some() {
        return Ok(None);
    }
    Ok(trial.shape(b'h').ok())
}

#[test]
fn a_table_stays_split_where_the_put_is_undone(rt: HostRuntime) -> Result<(), Fail> {
    assert_eq!(rt;
        shape_behind(rt.alloc(), &split(named(b'h')?))?,
        Some((1, 0))
    );
    Ok(())
}

#[test]
fn bytes_of_blobs_come_back(rt: HostRuntime) -> Result<(), Fail> {
    assert!(rt; goes(rt.alloc(), &across_bands(named(b'b')?))?);
    assert!(rt; goes(rt.alloc(), &cut_and_painted(named(b'b')?))?);
    Ok(())
}

// Whether something was freed of what this transaction dropped, or anyone; none where the space has a fault.
fn frees(trial: &mut Trial, dropper: Option<TxnId>) -> Option<bool> {
    free_next(&mut trial.space, &trial.ops, dropper).ok()
}

// Whether an object that comes back, and is dropped again by transaction 7, keeps its pages until what that one dropped is freed, once.
fn is_freed_once(trial: &mut Trial, a: Name) -> bool {
    let free = trial.space.free_pages();
    if trial.first_wrong(&dropped(a)).is_some() {
        return false;
    }
    let taken = trial.space.free_pages();
    let discard = [(Does(0, Op::Discard { name: a }), DONE, NONE)];
    trial.first_wrong(&discard).is_none()
        && trial.space.free_pages() == taken
        && frees(trial, Some(TxnId(6))) == Some(false)
        && frees(trial, Some(TxnId(7))) == Some(true)
        && trial.space.free_pages() == free
        && frees(trial, None) == Some(false)
}

#[test]
fn a_dropped_object_comes_back_or_is_freed(rt: HostRuntime) -> Result<(), Fail> {
    let mut trial = Trial::new(rt.alloc())?;
    let a = named(b'a')?;
    assert!(rt; is_freed_once(&mut trial, a));
    Ok(())
}

// Whether the keys of `t` are these, and the names of all objects.
fn lists_all(trial: &mut Trial, t: Name, alloc: Global) -> Result<bool, ListFault> {
    let Ok(found) = keys(&mut trial.space, t, alloc)? else {
        return Ok(false);
    };
    let names = list(&mut trial.space, alloc)?;
    let mut right = found.len() == 3 && names.len() == 3;
    for (key, want) in found.iter().zip(b"abc") {
        right = right && key.bytes() == [*want].as_slice();
    }
    for (name, want) in names.iter().zip(b"abt") {
        right = right && name.text() == [*want].as_slice();
    }
    Ok(right)
}

// Whether the rows came to what they say, and all is listed then.
fn goes_and_lists(alloc: Global, rows: &[Row], t: Name) -> Result<bool, Fail> {
    let mut trial = Trial::new(alloc)?;
    if trial.first_wrong(rows).is_some() {
        return Ok(false);
    }
    Ok(lists_all(&mut trial, t, alloc).unwrap_or(false))
}

#[test]
fn keys_and_names_are_in_order(rt: HostRuntime) -> Result<(), Fail> {
    let t = named(b't')?;
    let rows = three_objects(named(b'a')?, named(b'b')?, t);
    assert!(rt; goes_and_lists(rt.alloc(), &rows, t)?);
    Ok(())
}

// A value of 1,024 letters is removed.
fn removed(h: Name) -> [Row; 3] {
    [
        (Does(0, Op::MakeTable { name: h }), DONE, NONE),
        (
            Does(
                0,
                Op::Put {
                    name: h,
                    key: b"k1",
                    value: LETTERS,
                },
            ),
            Came::Reply(Reply::New),
            NONE,
        ),
        (
            Does(
                1,
                Op::Del {
                    name: h,
                    key: b"k1",
                },
            ),
            DONE,
            NONE,
        ),
    ]
}

// And comes back.
fn found_again(h: Name) -> [Row; 2] {
    [
        (Undoes(1), DONE, NONE),
        (
            Does(
                2,
                Op::Find {
                    name: h,
                    key: b"k1",
                },
            ),
            Came::Reply(Reply::Bytes(1_024)),
            [b'v'; 8],
        ),
    ]
}

// Whether these rows came to what they say, and those too, once one page is free.
fn goes_on_one_page(alloc: Global, rows: &[Row], behind: &[Row]) -> Result<bool, Fail> {
    let mut trial = Trial::new(alloc)?;
    if trial.first_wrong(rows).is_some() || trial.leave(1).is_err() {
        return Ok(false);
    }
    Ok(trial.first_wrong(behind).is_none())
}

#[test]
fn a_removed_key_comes_back_where_one_page_is_free(rt: HostRuntime) -> Result<(), Fail> {
    let h = named(b'h')?;
    assert!(rt; goes_on_one_page(rt.alloc(), &removed(h), &found_again(h))?);
    Ok(())
}
