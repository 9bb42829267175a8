use sg_array::{apply, apply_back, free_all, get, len, make, pages, pop, push, set, size};
use sg_base::{PageNo, PageOp};
use sg_ops::Ops;
use sg_space::{Guarded, MemSpace, PageSpace, SpaceFault};
use std::alloc::Global;
use std::test::Fail;

// An array over a space in memory that tells nothing, so that its calls ask for nothing: what they are to answer stands in
// the tests. The methods promise nothing, and a test sees plain values.
#[derive(Drop)]
struct Trial {
    space: Guarded,
    ops: Ops,
    root: PageNo,
}

impl Trial {
    // 64 or 700 pages, of which the catalogue has one.
    fn new(alloc: Global, large: bool, size: u16) -> Result<Trial, Fail> {
        let pages = if large { 700 } else { 64 };
        let ops = Ops::shipped(alloc)?;
        let mut space = Guarded::new(MemSpace::new(alloc, pages, 2)?);
        let root = make(&mut space, &ops, size.clamp(1, 256))?;
        Ok(Trial { space, ops, root })
    }

    // Another array in the same space, whose calls go through the same methods.
    fn make_other(&mut self, size: u16) -> Result<PageNo, SpaceFault> {
        make(&mut self.space, &self.ops, size.clamp(1, 256))
    }

    fn push(&mut self, item: &[u8]) -> Result<u32, SpaceFault> {
        push(&mut self.space, &self.ops, self.root, item)
    }

    fn pop(&mut self, into: &mut [u8]) -> Result<(), SpaceFault> {
        pop(&mut self.space, &self.ops, self.root, into)
    }

    fn set(&mut self, i: u32, item: &[u8]) -> Result<(), SpaceFault> {
        set(&mut self.space, &self.ops, self.root, i, item)
    }

    fn get(&mut self, i: u32, into: &mut [u8]) -> Result<(), SpaceFault> {
        get(&mut self.space, self.root, i, into)
    }

    fn apply(&mut self, i: u32, code: u16, arg: &[u8]) -> Result<(), SpaceFault> {
        apply(&mut self.space, &self.ops, self.root, i, code, arg)
    }

    fn apply_back(&mut self, i: u32, code: u16, arg: &[u8]) -> Result<(), SpaceFault> {
        apply_back(&mut self.space, &self.ops, self.root, i, code, arg)
    }

    fn len(&mut self) -> Result<u32, SpaceFault> {
        len(&mut self.space, self.root)
    }

    fn size(&mut self) -> Result<u16, SpaceFault> {
        size(&mut self.space, self.root)
    }

    fn pages(&mut self) -> Result<u32, SpaceFault> {
        pages(&mut self.space, self.root)
    }

    fn free_all(&mut self) -> Result<(), SpaceFault> {
        free_all(&mut self.space, self.root)
    }

    fn free_pages(&self) -> u32 {
        self.space.free_pages()
    }

    fn faults(&self) -> u64 {
        self.space.faults()
    }

    // Writes over a cell, as nothing of this crate would.
    fn spoil(&mut self, page: u32, op: &PageOp<'_>) -> Result<(), SpaceFault> {
        self.space.change(&self.ops, PageNo(page), op)
    }
}

// A call, and what it is to answer. An item is read into a buffer of eight times 7, whose front it takes.
#[derive(Clone, Copy)]
enum Step {
    Push(&'static [u8]),
    Set(u32, &'static [u8]),
    Get(u32, [u8; 8]),
    Apply(u32, u16, &'static [u8]),
    ApplyBack(u32, u16, &'static [u8]),
    // The same that isn't done.
    Declines(u32, u16, &'static [u8]),
}

impl Trial {
    // An item, and what is behind it in the buffer.
    fn item(&mut self, i: u32) -> Result<[u8; 8], SpaceFault> {
        let mut into = [7; 8];
        self.get(i, &mut into)?;
        Ok(into)
    }

    // Whether a call answers what it is to.
    fn does(&mut self, step: &Step) -> bool {
        match *step {
            Step::Push(item) => self.push(item).is_ok(),
            Step::Set(i, item) => self.set(i, item).is_ok(),
            Step::Get(i, item) => self.item(i) == Ok(item),
            Step::Apply(i, code, arg) => self.apply(i, code, arg).is_ok(),
            Step::ApplyBack(i, code, arg) => self.apply_back(i, code, arg).is_ok(),
            Step::Declines(i, code, arg) => self.apply(i, code, arg).is_err(),
        }
    }
}

// The place of the first of these calls that answers something else, the calls made one after another on an array of items
// of this size.
fn first_wrong(alloc: Global, size: u16, steps: &[Step]) -> Result<Option<usize>, Fail> {
    let mut array = Trial::new(alloc, false, size)?;
    for (i, step) in steps.iter().enumerate() {
        if !array.does(step) {
            return Ok(Some(i));
        }
    }
    Ok(None)
}

const SET: [Step; 7] = [
    Step::Push(b"aa"),
    Step::Push(b"bb"),
    Step::Set(0, b"cc"),
    Step::Set(1, b"dd"),
    Step::Set(0, b"aa"),
    Step::Get(0, *b"aa\x07\x07\x07\x07\x07\x07"),
    Step::Get(1, *b"dd\x07\x07\x07\x07\x07\x07"),
];

// An item is set by two, and one takes its own back: the other's stays.
#[test]
fn an_undone_set_leaves_the_others(rt: HostRuntime) -> Result<(), Fail> {
    assert_eq!(rt; first_wrong(rt.alloc(), 2, &SET)?, None);
    Ok(())
}

const ADDED: [Step; 7] = [
    Step::Push(&[0xff; 8]),
    Step::Apply(0, 1, &[1, 0, 0, 0, 0, 0, 0, 0]),
    Step::Get(0, [0; 8]),
    Step::ApplyBack(0, 1, &[1, 0, 0, 0, 0, 0, 0, 0]),
    Step::Get(0, [0xff; 8]),
    Step::Declines(0, 2, &[1]),
    Step::Declines(0, 9, &[1]),
];

// An addition, undone; an operation that isn't accepted, and a code that isn't registered.
#[test]
fn operations_are_undone(rt: HostRuntime) -> Result<(), Fail> {
    assert_eq!(rt; first_wrong(rt.alloc(), 8, &ADDED)?, None);
    Ok(())
}

const ROTATED: [Step; 5] = [
    Step::Push(b"abc"),
    Step::Apply(0, 3, &[1]),
    Step::Get(0, *b"bca\x07\x07\x07\x07\x07"),
    Step::ApplyBack(0, 3, &[1]),
    Step::Get(0, *b"abc\x07\x07\x07\x07\x07"),
];

#[test]
fn an_item_is_rotated_and_back(rt: HostRuntime) -> Result<(), Fail> {
    assert_eq!(rt; first_wrong(rt.alloc(), 3, &ROTATED)?, None);
    Ok(())
}

// Pushes so many items, each of one byte again and again.
fn push_all(array: &mut Trial, count: u32) -> Result<(), SpaceFault> {
    for i in 0..count {
        array.push(&[(i % 251) as u8; 256])?;
    }
    Ok(())
}

fn pop_all(array: &mut Trial, count: u32) -> Result<(), SpaceFault> {
    let mut into = [0; 256];
    for _ in 0..count {
        array.pop(&mut into)?;
    }
    Ok(())
}

// Pushes so many items and pops so many: how many pages the array has then, and how many are free.
fn push_and_pop(array: &mut Trial, count: u32, back: u32) -> Result<(u32, u32), SpaceFault> {
    push_all(array, count)?;
    pop_all(array, back)?;
    let used = array.pages()?;
    Ok((used, array.free_pages()))
}

// The same of 16 items that are pushed, popped, and pushed again and popped but for 13.
fn sixteen(array: &mut Trial) -> Result<[(u32, u32); 3], SpaceFault> {
    let pushed = push_and_pop(array, 16, 0)?;
    let popped = push_and_pop(array, 0, 16)?;
    let again = push_and_pop(array, 16, 3)?;
    Ok([pushed, popped, again])
}

// How many pages are free at first and at last, and how many faults were counted.
fn sixteen_freed(alloc: Global) -> Result<([(u32, u32); 3], [u32; 2], u64), Fail> {
    let mut array = Trial::new(alloc, false, 256)?;
    let first = array.free_pages();
    let pages = sixteen(&mut array)?;
    array.free_all()?;
    Ok((pages, [first, array.free_pages()], array.faults()))
}

// 16 items of 256 bytes have 4 pages: a root, an index page and two pages of 15. They stay as items are popped, and
// are free once the array is.
#[test]
fn pages_stay_until_the_array_is_freed(rt: HostRuntime) -> Result<(), Fail> {
    assert_eq!(rt; sixteen_freed(rt.alloc())?, ([(4, 59); 3], [62, 63], 0));
    Ok(())
}

// An item of 256 bytes that are all the same one; none where they aren't.
fn byte_of(array: &mut Trial, i: u32) -> Result<Option<u8>, SpaceFault> {
    let mut into = [0; 256];
    array.get(i, &mut into)?;
    let byte = into[0];
    Ok(if into == [byte; 256] {
        Some(byte)
    } else {
        None
    })
}

// Whether each 255th item is the one that was pushed.
fn reads_back(array: &mut Trial) -> Result<bool, SpaceFault> {
    for k in 0..30u32 {
        let i = k * 255 + 14;
        if byte_of(array, i)? != Some((i % 251) as u8) {
            return Ok(false);
        }
    }
    Ok(true)
}

// Frees the pages from 2 to 511, which are the first index page and all item pages but the last.
fn free_others(array: &mut Trial) -> Result<(), SpaceFault> {
    for p in 2..512 {
        array.space.free_page(PageNo(p))?;
    }
    Ok(())
}

// The last item where the others are gone, and whether the first isn't read then.
fn last_alone(array: &mut Trial) -> Result<(Option<u8>, bool), SpaceFault> {
    free_others(array)?;
    let last = byte_of(array, 7_649)?;
    let first = byte_of(array, 0);
    Ok((last, first.is_err()))
}

// How many pages 7,650 items have, whether they are read back, and what is read of them where the others are gone.
fn long_array(alloc: Global) -> Result<(u32, bool, (Option<u8>, bool)), Fail> {
    let mut array = Trial::new(alloc, true, 256)?;
    let (used, _free) = push_and_pop(&mut array, 7_650, 0)?;
    let back = reads_back(&mut array)?;
    Ok((used, back, last_alone(&mut array)?))
}

// 7,650 items of 256 bytes have 510 item pages, which want a second index page. A get looks at three pages alone: the
// root, an index page and an item page. The others can be gone.
#[test]
fn a_get_looks_at_three_pages(rt: HostRuntime) -> Result<(), Fail> {
    assert_eq!(rt; long_array(rt.alloc())?, (513, true, (Some(119), true)));
    Ok(())
}

// An array of size 4 with `aaaa` and `bbbb` stands in page 1, its root, page 2, an index page, and page 3, of items. A row
// says which cell is another one, by its page and slot, or none where there are no bytes, and whether get, set, apply, pop,
// push and free_all are to fail then.
type Row = (u32, u16, &'static [u8], [bool; 6]);

const ALL: [bool; 6] = [true; 6];

const NONE: [bool; 6] = [false; 6];

const ITEMS: [bool; 6] = [true, true, true, true, false, false];

const BUT_FREE: [bool; 6] = [true, true, true, true, true, false];

const FREE: [bool; 6] = [false, false, false, false, false, true];

const ROWS: [Row; 26] = [
    // as it was
    (3, 1, b"cccc", NONE),
    // the root's item size, length and peak
    (1, 0, &[0, 0, 2, 0, 0, 0, 2, 0, 0, 0], ALL),
    (1, 0, &[1, 1, 2, 0, 0, 0, 2, 0, 0, 0], ALL),
    (1, 0, &[5, 0, 2, 0, 0, 0, 2, 0, 0, 0], BUT_FREE),
    (1, 0, &[4, 0, 3, 0, 0, 0, 2, 0, 0, 0], ALL),
    (1, 0, &[4, 0, 2, 0, 0, 0, 1, 0, 0, 0], ALL),
    (1, 0, &[4, 0, 2, 0, 0, 0, 1, 0, 16, 0], ALL),
    (1, 0, &[4, 0, 2, 0, 0, 0, 0, 8, 0, 0], FREE),
    (1, 0, &[4, 0, 2, 0, 0, 0, 2, 0, 0], ALL),
    (1, 0, &[], ALL),
    // the number of its index page
    (1, 1, &[63, 0, 0, 0], ALL),
    (1, 1, &[255, 255, 255, 255], ALL),
    (1, 1, &[0, 0, 0, 0], ALL),
    (1, 1, &[1, 0, 0, 0], ALL),
    (1, 1, &[3, 0, 0, 0], ALL),
    (1, 1, &[2, 0, 0], ALL),
    (1, 1, &[], ALL),
    // the number of its item page
    (2, 0, &[63, 0, 0, 0], ALL),
    (2, 0, &[0, 0, 0, 0], ALL),
    (2, 0, &[1, 0, 0, 0], ALL),
    (2, 0, &[2, 0, 0, 0], ALL),
    (2, 0, &[3, 0, 0], ALL),
    (2, 0, &[], ALL),
    // the item
    (3, 1, b"ccc", ITEMS),
    (3, 1, b"ccccc", ITEMS),
    (3, 1, &[], ITEMS),
];

fn call(array: &mut Trial, which: usize, i: u32) -> Result<(), SpaceFault> {
    let mut into = [0; 8];
    match which {
        0 => array.get(i, &mut into),
        1 => array.set(i, b"dddd"),
        2 => array.apply(i, 1, &[1, 0, 0, 0]),
        3 => array.pop(&mut into),
        4 => array.push(b"eeee").map(|_| ()),
        _ => array.free_all(),
    }
}

// Writes a cell over, or takes it out where there are no bytes.
fn write_over(array: &mut Trial, page: u32, slot: u16, cell: &[u8]) -> Result<(), SpaceFault> {
    if cell.is_empty() {
        array.spoil(page, &PageOp::Remove { slot })
    } else {
        array.spoil(page, &PageOp::Set { slot, bytes: cell })
    }
}

// The array, with a row's cell in place of its own.
fn spoilt(alloc: Global, row: &Row) -> Result<Trial, Fail> {
    let (page, slot, cell, _) = *row;
    let mut array = Trial::new(alloc, false, 4)?;
    array.push(b"aaaa")?;
    array.push(b"bbbb")?;
    write_over(&mut array, page, slot, cell)?;
    Ok(array)
}

// Whether a call on such an array failed, as `Disk` with one fault counted.
fn fails(alloc: Global, root: u32, i: u32, row: &Row, which: usize) -> Result<bool, Fail> {
    let mut array = spoilt(alloc, row)?;
    array.root = PageNo(root);
    let answer = call(&mut array, which, i);
    Ok(answer == Err(SpaceFault::Disk) && array.faults() == 1)
}

// Whether those calls fail that are to, on this root and item.
fn row_is_met(alloc: Global, root: u32, i: u32, row: &Row) -> Result<bool, Fail> {
    for (which, wanted) in row.3.iter().enumerate() {
        if fails(alloc, root, i, row, which)? != *wanted {
            return Ok(false);
        }
    }
    Ok(true)
}

// The place of the first row that isn't met.
fn first_unmet(alloc: Global, rows: &[Row]) -> Result<Option<usize>, Fail> {
    for (place, row) in rows.iter().enumerate() {
        if !row_is_met(alloc, 1, 1, row)? {
            return Ok(Some(place));
        }
    }
    Ok(None)
}

#[test]
fn broken_contents_are_faults(rt: HostRuntime) -> Result<(), Fail> {
    assert_eq!(rt; first_unmet(rt.alloc(), &ROWS)?, None);
    Ok(())
}

// A length that has more items than there are.
const LONGER: Row = (1, 0, &[4, 0, 3, 0, 0, 0, 3, 0, 0, 0], BUT_FREE);

// What is no damage, for pages of other kinds as the root.
const OTHER: Row = (3, 1, b"cccc", ALL);

// Pages that are no root.
const NO_ROOTS: [u32; 3] = [2, 3, 9];

// The first page of these on which a call does as on a root.
fn first_root(alloc: Global, roots: &[u32]) -> Result<Option<u32>, Fail> {
    for root in roots {
        if !row_is_met(alloc, *root, 1, &OTHER)? {
            return Ok(Some(*root));
        }
    }
    Ok(None)
}

#[test]
fn what_is_no_root_is_a_fault(rt: HostRuntime) -> Result<(), Fail> {
    assert!(rt; row_is_met(rt.alloc(), 1, 2, &LONGER)?);
    assert_eq!(rt; first_root(rt.alloc(), &NO_ROOTS)?, None);
    Ok(())
}

// An array beside the list of items that it is to be, one after another.
#[derive(Drop)]
struct Side {
    root: PageNo,
    size: usize,
    bytes: Vec<u8>,
    longest: usize,
}

fn parts(n: usize, each: usize) -> usize {
    let all = n.saturating_add(each.saturating_sub(1));
    all.checked_div(each).unwrap_or(0)
}

impl Side {
    // One without items.
    fn new(alloc: Global, root: PageNo, size: usize) -> Side {
        Side {
            root,
            size,
            bytes: Vec::new(alloc),
            longest: 0,
        }
    }

    fn long(&self) -> u32 {
        let items = self.bytes.len().checked_div(self.size).unwrap_or(0);
        u32::try_from(items).unwrap_or(u32::MAX)
    }

    // How many pages an array has that was so long.
    fn pages(&self) -> usize {
        let each = 4_072usize.checked_div(self.size.saturating_add(4));
        let leaves = parts(self.longest, each.unwrap_or(1));
        leaves.saturating_add(parts(leaves, 509)).saturating_add(1)
    }

    fn item(&self, i: usize) -> Option<&[u8]> {
        let start = i.saturating_mul(self.size);
        self.bytes.get(start..start.saturating_add(self.size))
    }

    // Makes the item another one, or what `xor` with these bytes leaves of it.
    fn change(&mut self, i: usize, bytes: &[u8], by_xor: bool) {
        let start = i.saturating_mul(self.size);
        let places = self.bytes.iter_mut().skip(start);
        for (place, byte) in places.zip(bytes.iter()) {
            *place = if by_xor { *place ^ *byte } else { *byte };
        }
    }
}

// Two arrays in one space, and calls that are drawn.
#[derive(Drop)]
struct Pair {
    trial: Trial,
    seed: u64,
    piece: [u8; 256],
}

impl Pair {
    fn draw(&mut self, below: u32) -> u32 {
        self.seed = self
            .seed
            .wrapping_mul(6_364_136_223_846_793_005)
            .wrapping_add(1_442_695_040_888_963_407);
        ((self.seed >> 33) as u32).checked_rem(below).unwrap_or(0)
    }

    // An item of this size, each byte one more than the one before.
    fn draw_item(&mut self) {
        let mut byte = (self.draw(256) % 256) as u8;
        for place in self.piece.iter_mut() {
            *place = byte;
            byte = byte.wrapping_add(1);
        }
    }

    fn push(&mut self, side: &mut Side) -> Result<(), Fail> {
        self.draw_item();
        let item = self.piece.get(..side.size).unwrap_or(&[]);
        self.trial.push(item)?;
        for byte in item.iter() {
            side.bytes.push(*byte)?;
        }
        side.longest = side.longest.max(side.long() as usize);
        Ok(())
    }

    fn pop(&mut self, side: &mut Side) -> Result<bool, Fail> {
        let left = side.bytes.len().saturating_sub(side.size);
        self.trial.pop(&mut self.piece)?;
        let same = side.bytes.get(left..) == self.piece.get(..side.size);
        side.bytes.truncate(left);
        Ok(same)
    }

    fn set(&mut self, side: &mut Side, i: u32) -> Result<(), Fail> {
        self.draw_item();
        let item = self.piece.get(..side.size).unwrap_or(&[]);
        self.trial.set(i, item)?;
        side.change(i as usize, item, false);
        Ok(())
    }

    // By `xor`, whose undo is itself.
    fn apply(&mut self, side: &mut Side, i: u32, back: bool) -> Result<(), Fail> {
        self.draw_item();
        let arg = self.piece.get(..side.size).unwrap_or(&[]);
        if back {
            self.trial.apply_back(i, 2, arg)?;
        } else {
            self.trial.apply(i, 2, arg)?;
        }
        side.change(i as usize, arg, true);
        Ok(())
    }

    // Whether an item that is got is that of the list.
    fn reads_alike(&mut self, side: &Side, i: u32) -> Result<bool, Fail> {
        self.trial.get(i, &mut self.piece)?;
        Ok(self.piece.get(..side.size) == side.item(i as usize))
    }

    // One call on one of the arrays, which is drawn. A pop is right where it takes what the list ends with.
    fn change(&mut self, side: &mut Side) -> Result<bool, Fail> {
        let long = side.long();
        let i = self.draw(long);
        match self.draw(8) {
            _ if long == 0 => self.push(side)?,
            0 | 1 | 2 => self.push(side)?,
            3 | 4 => return self.pop(side),
            5 => self.set(side, i)?,
            6 => self.apply(side, i, false)?,
            _ => self.apply(side, i, true)?,
        }
        Ok(true)
    }

    // Whether an item that is drawn is that of the list, where there is one.
    fn gets_alike(&mut self, side: &Side) -> Result<bool, Fail> {
        let long = side.long();
        if long == 0 {
            return Ok(true);
        }
        let i = self.draw(long);
        self.reads_alike(side, i)
    }

    // Whether the length and the pages are those of the list.
    fn is_alike(&mut self, side: &Side) -> Result<bool, Fail> {
        let pages = self.trial.pages()? as usize;
        let long = self.trial.len()?;
        Ok(long == side.long() && pages == side.pages())
    }

    // One call on one of the arrays, and whether what is got then, the length and the pages are right.
    fn call(&mut self, side: &mut Side) -> Result<bool, Fail> {
        self.trial.root = side.root;
        let right = self.change(side)?;
        let got = self.gets_alike(side)?;
        let alike = self.is_alike(side)?;
        Ok(right && got && alike)
    }
}

impl Pair {
    // Whether so many calls on each of two arrays, by turns, are right.
    fn turns(&mut self, one: &mut Side, two: &mut Side, count: u32) -> Result<bool, Fail> {
        for _ in 0..count {
            if !self.call(one)? || !self.call(two)? {
                return Ok(false);
            }
        }
        Ok(true)
    }
}

// The same of two new ones in one space, of items of 256 bytes and of 3, and how many faults were counted.
fn side_by_side(alloc: Global, count: u32) -> Result<(bool, u64), Fail> {
    let mut trial = Trial::new(alloc, true, 256)?;
    let mut two = Side::new(alloc, trial.make_other(3)?, 3);
    let mut one = Side::new(alloc, trial.root, 256);
    let mut pair = Pair {
        trial,
        seed: 54,
        piece: [0; 256],
    };
    let right = pair.turns(&mut one, &mut two, count)?;
    Ok((right, pair.trial.faults()))
}

#[test]
fn arrays_side_by_side_are_lists(rt: HostRuntime) -> Result<(), Fail> {
    assert_eq!(rt; side_by_side(rt.alloc(), 5_000)?, (true, 0));
    Ok(())
}
