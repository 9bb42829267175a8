use sg_alloc::map_bands;
use sg_base::{BandNo, PageNo, PageOp};
use sg_ops::Ops;
use sg_space::{Guarded, MemSpace, PageSpace, UndoNote};
use std::alloc::Global;
use std::test::Fail;

// A space in memory, each of whose calls is made where it may be: a test sees plain values. `Guarded` looks at each
// condition and hands the call on to `MemSpace`.
#[derive(Drop)]
struct Trial {
    space: Guarded,
    ops: Ops,
}

impl Trial {
    fn new(alloc: Global, ops: Ops, pages: u32, bands: u32) -> Result<Trial, Fail> {
        if pages == 0 || pages > 1_048_576 || map_bands(pages, bands) >= bands {
            return Err("no such space".into());
        }
        Ok(Trial {
            space: Guarded::new(MemSpace::new(alloc, pages, bands)?),
            ops,
        })
    }

    fn take(&mut self, kind: u8) -> Option<u32> {
        match self.space.take_page(kind) {
            Ok(p) => Some(p.0),
            Err(_) => None,
        }
    }

    fn free(&mut self, p: u32) -> bool {
        self.space.free_page(PageNo(p)).is_ok()
    }

    fn take_band(&mut self) -> Option<u32> {
        match self.space.take_band() {
            Ok(b) => Some(b.0),
            Err(_) => None,
        }
    }

    fn free_band(&mut self, b: u32) -> bool {
        self.space.free_band(BandNo(b)).is_ok()
    }

    fn change(&mut self, p: u32, op: &PageOp<'_>) -> bool {
        self.space.change(&self.ops, PageNo(p), op).is_ok()
    }

    fn write(&mut self, b: u32, at: u32, bytes: &[u8]) -> bool {
        self.space.write_band(BandNo(b), at, bytes).is_ok()
    }

    fn paint(&mut self, b: u32, at: u32, count: u32, code: u16, position: u32) -> bool {
        let arg = b"abc";
        self.space
            .paint_band(&self.ops, BandNo(b), at, count, code, position, arg)
            .is_ok()
    }

    // What a page says of itself: its kind, its links, how many slots it has and how many bytes are left.
    fn page(&mut self, p: u32) -> Option<(u8, (u32, u32), u16, u16)> {
        match self.space.page(PageNo(p)) {
            Ok(view) => Some((view.kind(), view.links(), view.slots(), view.room())),
            Err(_) => None,
        }
    }

    // Whether a slot has this cell. None is asked for as one of no bytes.
    fn has_cell(&mut self, p: u32, slot: u16, want: &[u8]) -> bool {
        match self.space.page(PageNo(p)) {
            Ok(view) => view.slot(slot).unwrap_or(b"") == want,
            Err(_) => false,
        }
    }

    // Whether these bytes stand in a band.
    fn has_bytes(&mut self, b: u32, at: usize, want: &[u8]) -> bool {
        match self.space.band(BandNo(b)) {
            Ok(band) => band.get(at..at.saturating_add(want.len())) == Some(want),
            Err(_) => false,
        }
    }

    // Whether an operation is done to page 1 or not, as it is to be, with this cell in slot 0 afterwards, and is neither
    // done to page 2, which is free, nor to page 0.
    fn goes(&mut self, op: &PageOp<'_>, done: bool, cell: &[u8]) -> bool {
        self.change(1, op) == done
            && self.has_cell(1, 0, cell)
            && !self.change(2, op)
            && self.page(0) == Some((1, (0, 0), 0, 4_072))
    }

    // Where the first row stands that goes otherwise.
    fn first_wrong(&mut self, rows: &[(PageOp<'static>, bool, &'static [u8])]) -> Option<usize> {
        for (at, (op, done, cell)) in rows.iter().enumerate() {
            if !self.goes(op, *done, cell) {
                return Some(at);
            }
        }
        None
    }

    // Whether the pages from this one on are taken, one after another.
    fn takes_all(&mut self, from: u32, end: u32) -> bool {
        for p in from..end {
            if self.take(9) != Some(p) {
                return false;
            }
        }
        true
    }

    // Whether a page that is freed can't be looked at, and is the next one to be taken, as an empty page.
    fn comes_back(&mut self, p: u32) -> bool {
        let cell = PageOp::Put {
            slot: 0,
            bytes: b"x",
        };
        self.change(p, &cell)
            && self.free(p)
            && !self.free(p)
            && self.page(p).is_none()
            && self.space.free_pages() == 1
            && self.take(3) == Some(p)
            && self.page(p) == Some((3, (0, 0), 0, 4_072))
    }

    // Whether cells of 8 bytes go into so many slots.
    fn fills(&mut self, count: u16) -> bool {
        for slot in 0..count {
            let cell = PageOp::Put {
                slot,
                bytes: b"12345678",
            };
            if !self.change(1, &cell) {
                return false;
            }
        }
        true
    }

    fn first_wrong_write(&mut self) -> Option<usize> {
        for (at, (b, from, bytes, done)) in WRITES.iter().enumerate() {
            if self.write(*b, *from, bytes) != *done {
                return Some(at);
            }
        }
        None
    }

    fn first_wrong_painting(&mut self) -> Option<usize> {
        for (at, (from, count, code, position, done)) in PAINTINGS.iter().enumerate() {
            if self.paint(1, *from, *count, *code, *position) != *done {
                return Some(at);
            }
        }
        None
    }

    fn first_wrong_bytes(&mut self) -> Option<usize> {
        for (at, (b, from, bytes)) in SEEN.iter().enumerate() {
            if !self.has_bytes(*b, *from, bytes) {
                return Some(at);
            }
        }
        None
    }

    // Free pages, free bands and faults.
    fn counts(&self) -> (u32, u32, u64) {
        (
            self.space.free_pages(),
            self.space.free_bands(),
            self.space.faults(),
        )
    }
}

// Operations on a page, whether each is done, and slot 0 afterwards.
const STEPS: [(PageOp<'static>, bool, &[u8]); 15] = [
    (
        PageOp::Put {
            slot: 1,
            bytes: b"a",
        },
        false,
        b"",
    ),
    (
        PageOp::Put {
            slot: 0,
            bytes: b"ab",
        },
        true,
        b"ab",
    ),
    (
        PageOp::Put {
            slot: 0,
            bytes: b"c",
        },
        false,
        b"ab",
    ),
    (
        PageOp::Set {
            slot: 1,
            bytes: b"c",
        },
        false,
        b"ab",
    ),
    (
        PageOp::Set {
            slot: 0,
            bytes: &[1, 2],
        },
        true,
        &[1, 2],
    ),
    (
        PageOp::Item {
            slot: 0,
            code: 1,
            arg: &[255, 1],
        },
        true,
        &[0, 4],
    ),
    (
        PageOp::Item {
            slot: 0,
            code: 1,
            arg: &[255],
        },
        false,
        &[0, 4],
    ),
    (
        PageOp::Item {
            slot: 0,
            code: 9,
            arg: &[1, 1],
        },
        false,
        &[0, 4],
    ),
    (
        PageOp::ItemBack {
            slot: 0,
            code: 1,
            arg: &[255, 1],
        },
        true,
        &[1, 2],
    ),
    (
        PageOp::ItemBack {
            slot: 1,
            code: 1,
            arg: &[255, 1],
        },
        false,
        &[1, 2],
    ),
    (PageOp::Links { a: 7, b: 8 }, true, &[1, 2]),
    (PageOp::Format { kind: 5 }, false, &[1, 2]),
    (PageOp::Remove { slot: 1 }, false, &[1, 2]),
    (PageOp::Remove { slot: 0 }, true, b""),
    (PageOp::Remove { slot: 0 }, false, b""),
];

// Each operation on a page is done where it fits, to this page alone.
#[test]
fn a_page_is_changed_where_it_fits(rt: HostRuntime) -> Result<(), Fail> {
    let mut trial = Trial::new(rt.alloc(), Ops::shipped(rt.alloc())?, 3, 2)?;
    assert_eq!(rt; trial.take(4), Some(1));
    assert_eq!(rt; trial.first_wrong(&STEPS), None);
    assert_eq!(rt; trial.page(1), Some((4, (7, 8), 1, 4_068)));
    assert_eq!(rt; trial.counts(), (1, 1, 24));
    Ok(())
}

// Pages are taken up to the last one, the least first, and come back empty.
#[test]
fn pages_are_taken_to_the_last(rt: HostRuntime) -> Result<(), Fail> {
    let mut trial = Trial::new(rt.alloc(), Ops::shipped(rt.alloc())?, 70, 2)?;
    assert!(rt; trial.takes_all(1, 70));
    assert_eq!(rt; trial.take(9), None);
    for p in [69, 1, 64] {
        assert!(rt; trial.comes_back(p));
    }
    assert!(rt; !trial.free(70));
    assert_eq!(rt; trial.space.pages(), 70);
    assert_eq!(rt; trial.counts(), (0, 1, 8));
    Ok(())
}

// Operations on a page with 339 cells of 8 bytes, which leave 4 bytes, and slot 0 afterwards.
const FULL: [(PageOp<'static>, bool, &[u8]); 7] = [
    (
        PageOp::Put {
            slot: 339,
            bytes: b"1",
        },
        false,
        b"12345678",
    ),
    (
        PageOp::Put {
            slot: 339,
            bytes: b"",
        },
        true,
        b"12345678",
    ),
    (
        PageOp::Put {
            slot: 340,
            bytes: b"",
        },
        false,
        b"12345678",
    ),
    (
        PageOp::Set {
            slot: 0,
            bytes: b"123456789",
        },
        false,
        b"12345678",
    ),
    (
        PageOp::Set {
            slot: 0,
            bytes: b"87654321",
        },
        true,
        b"87654321",
    ),
    (
        PageOp::Set {
            slot: 0,
            bytes: b"7654321",
        },
        true,
        b"7654321",
    ),
    (
        PageOp::Set {
            slot: 339,
            bytes: b"1",
        },
        true,
        b"7654321",
    ),
];

// A page holds cells of 4,072 bytes with their slots, of 4 bytes each, and not one more.
#[test]
fn a_page_is_filled_to_its_last_byte(rt: HostRuntime) -> Result<(), Fail> {
    let mut trial = Trial::new(rt.alloc(), Ops::shipped(rt.alloc())?, 3, 2)?;
    assert_eq!(rt; trial.take(4), Some(1));
    assert!(rt; trial.fills(339));
    assert_eq!(rt; trial.page(1), Some((4, (0, 0), 339, 4)));
    assert_eq!(rt; trial.first_wrong(&FULL), None);
    assert_eq!(rt; trial.page(1), Some((4, (0, 0), 340, 0)));
    assert!(rt; trial.has_cell(1, 338, b"12345678"));
    Ok(())
}

// Writes into bands of which 1 and 2 are taken, and whether each is done.
const WRITES: [(u32, u32, &[u8], bool); 7] = [
    (1, 0, b"ab", true),
    (1, 32_766, b"yz", true),
    (1, 32_767, b"yz", false),
    (1, 32_768, b"y", false),
    (1, u32::MAX, b"y", false),
    (1, 9, b"", false),
    (3, 0, b"ab", false),
];

// The same of paintings of band 1: from where, how many bytes, by which code, and from which position on.
const PAINTINGS: [(u32, u32, u16, u32, bool); 5] = [
    (3, 5, 1, 16_383_995, true),
    (3, 5, 1, 16_383_996, false),
    (10, 2, 7, 0, false),
    (32_768, 1, 1, 0, false),
    (20, 3, 2, 9, true),
];

// What stands in bands then, from where on.
const SEEN: [(u32, usize, &[u8]); 6] = [
    (1, 0, b"ab\0cabca\0\0"),
    (1, 20, &[106, 107, 108, 0]),
    (1, 99, &[0, 6]),
    (1, 8_291, &[6, 0]),
    (1, 32_765, b"\0yz"),
    (2, 32_766, &[0, 0]),
];

// Bands are taken to the last, are 0 then, and are written and painted within their bytes.
#[test]
fn bands_are_written_within_their_bytes(rt: HostRuntime) -> Result<(), Fail> {
    let mut trial = Trial::new(rt.alloc(), Ops::shipped(rt.alloc())?, 1, 3)?;
    let zeros = [0; 32_768];
    let piece = [6; 8_193];
    let taken = [trial.take_band(), trial.take_band(), trial.take_band()];
    assert_eq!(rt; taken, [Some(1), Some(2), None]);
    assert!(rt; trial.has_bytes(1, 0, &zeros));
    assert_eq!(rt; trial.first_wrong_write(), None);
    assert_eq!(rt; trial.first_wrong_painting(), None);
    assert!(rt; !trial.write(1, 100, &piece));
    assert!(rt; trial.write(1, 100, &piece[..8_192]));
    assert_eq!(rt; trial.first_wrong_bytes(), None);
    assert!(rt; trial.has_bytes(2, 0, &zeros));
    let freed = [
        trial.free_band(1),
        trial.free_band(1),
        trial.has_bytes(1, 0, b"ab"),
    ];
    assert_eq!(rt; freed, [true, false, false]);
    assert_eq!(rt; trial.take_band(), Some(1));
    assert!(rt; trial.has_bytes(1, 0, &zeros));
    assert_eq!(rt; trial.counts(), (0, 0, 12));
    Ok(())
}

// A note has the bytes that it was given last.
#[test]
fn a_note_has_its_last_bytes(rt: HostRuntime) {
    let mut note = UndoNote::new();
    assert!(rt; note.bytes().is_empty());
    note.set(&[5; 2_400]);
    note.set(b"abc");
    assert!(rt; note.bytes() == b"abc".as_slice());
}
