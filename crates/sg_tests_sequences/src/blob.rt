use sg_base::{BandNo, PageNo};
use sg_blob::{bands, free_all, len, make, paint, read, restore_len, set_len, write};
use sg_ops::Ops;
use sg_space::{Guarded, MemSpace, PageSpace, SpaceFault};
use std::alloc::Global;
use std::test::Fail;

// A blob over a space in memory that tells nothing, so that its calls ask for nothing: what they are to answer stands in
// the tests. The methods promise nothing, and a test sees plain values.
#[derive(Drop)]
struct Trial {
    space: Guarded,
    ops: Ops,
    root: PageNo,
}

impl Trial {
    // 4 pages and 4 or 6 bands, of which the map has one.
    fn new(alloc: Global, ops: Ops, large: bool) -> Result<Trial, Fail> {
        let bands = if large { 6 } else { 4 };
        let mut space = Guarded::new(MemSpace::new(alloc, 4, bands)?);
        let root = make(&mut space, &ops)?;
        Ok(Trial { space, ops, root })
    }

    fn write(&mut self, at: u32, bytes: &[u8]) -> Result<(), SpaceFault> {
        if at > 1_000_000 || bytes.len() > 1_000_000 {
            return Err(SpaceFault::LogEnd);
        }
        write(&mut self.space, &self.ops, self.root, at, bytes)
    }

    fn read(&mut self, at: u32, into: &mut [u8]) -> Result<(), SpaceFault> {
        read(&mut self.space, self.root, at, into)
    }

    fn set_len(&mut self, size: u32) -> Result<(), SpaceFault> {
        if size > 1_000_000 {
            return Err(SpaceFault::LogEnd);
        }
        set_len(&mut self.space, &self.ops, self.root, size)
    }

    fn restore_len(&mut self, size: u32) -> Result<(), SpaceFault> {
        restore_len(&mut self.space, &self.ops, self.root, size)
    }

    fn paint(&mut self, at: u32, count: u32, code: u16, arg: &[u8]) -> Result<(), SpaceFault> {
        paint(&mut self.space, &self.ops, self.root, at, count, code, arg)
    }

    fn len(&mut self) -> Result<u32, SpaceFault> {
        len(&mut self.space, self.root)
    }

    fn bands(&mut self) -> Result<u32, SpaceFault> {
        bands(&mut self.space, self.root)
    }

    // Puts bytes back into a band, as what takes an action off does.
    fn put_back(&mut self, band: u32, at: u32, bytes: &[u8]) -> Result<(), SpaceFault> {
        self.space.write_band(BandNo(band), at, bytes)
    }

    // Whether these bytes, at most 8, are read from there on.
    fn reads(&mut self, at: u32, want: &[u8]) -> bool {
        let mut bytes = [7; 8];
        match bytes.get_mut(..want.len()) {
            Some(into) => self.read(at, into).is_ok() && &*into == want,
            None => false,
        }
    }

    // Whether a step is done.
    fn does(&mut self, step: &Step) -> bool {
        match *step {
            Step::Write(at, bytes) => self.write(at, bytes).is_ok(),
            Step::Paint(at, count, code, arg) => self.paint(at, count, code, arg).is_ok(),
            Step::SetLen(size) => self.set_len(size).is_ok(),
            Step::RestoreLen(size) => self.restore_len(size).is_ok(),
            Step::PutBack(at, bytes) => self.put_back(1, at, bytes).is_ok(),
            Step::Reads(at, want) => self.reads(at, want),
        }
    }

    // Where the first step stands that is done and isn't to be, or isn't done and is to be.
    fn first_wrong(&mut self, steps: &[(Step, bool)]) -> Option<usize> {
        for (at, (step, done)) in steps.iter().enumerate() {
            if self.does(step) != *done {
                return Some(at);
            }
        }
        None
    }

    fn free(&mut self) -> bool {
        free_all(&mut self.space, self.root).is_ok()
    }

    // Its length, how many bands it has, how many are free, and how many faults there were.
    fn counts(&mut self) -> (Option<u32>, Option<u32>, u32, u64) {
        (
            self.len().ok(),
            self.bands().ok(),
            self.space.free_bands(),
            self.space.faults(),
        )
    }
}

// One call on a blob, or a look at some of its bytes.
#[derive(Clone, Copy)]
enum Step {
    Write(u32, &'static [u8]),
    Paint(u32, u32, u16, &'static [u8]),
    SetLen(u32),
    RestoreLen(u32),
    PutBack(u32, &'static [u8]),
    Reads(u32, &'static [u8]),
}

// A write across the end of a band, taken off again.
const ACROSS: [(Step, bool); 6] = [
    (Step::SetLen(32_769), true),
    (Step::Write(32_767, b"AB"), true),
    (Step::Reads(32_766, &[0x00, 0x41, 0x42]), true),
    (Step::Write(32_767, &[0, 0]), true),
    (Step::RestoreLen(32_769), true),
    (Step::Reads(32_766, &[0, 0, 0]), true),
];

// Bytes that were cut off come back as zeros, and as themselves where the cut is taken off. Then some are painted.
const CUT: [(Step, bool); 12] = [
    (Step::Write(0, b"hello"), true),
    (Step::SetLen(2), true),
    (Step::SetLen(5), true),
    (Step::Reads(0, b"he\0\0\0"), true),
    (Step::RestoreLen(2), true),
    (Step::PutBack(2, b"llo"), true),
    (Step::RestoreLen(5), true),
    (Step::Reads(0, b"hello"), true),
    (Step::SetLen(4), true),
    (Step::Paint(0, 4, 2, &[0x0a]), true),
    (Step::Paint(1, 2, 1, b"Z"), true),
    (Step::Reads(0, &[0x0a, 0x5a, 0x5a, 0x0d]), true),
];

// What can't be done of a blob of three bytes.
const REFUSED: [(Step, bool); 6] = [
    (Step::Write(0, b"abc"), true),
    (Step::Reads(2, b"c?"), false),
    (Step::Write(4, b"x"), false),
    (Step::Paint(1, 3, 1, b"x"), false),
    (Step::Paint(0, 1, 9, b"x"), false),
    (Step::RestoreLen(4), false),
];

// Of 4 bands the map has one, and the blob two.
#[test]
fn a_write_across_bands_is_taken_off(rt: HostRuntime) -> Result<(), Fail> {
    let mut blob = Trial::new(rt.alloc(), Ops::shipped(rt.alloc())?, false)?;
    assert_eq!(rt; blob.first_wrong(&ACROSS), None);
    assert_eq!(rt; blob.counts(), (Some(32_769), Some(2), 1, 0));
    assert!(rt; !blob.does(&Step::SetLen(98_305)));
    Ok(())
}

#[test]
fn a_cut_is_taken_off(rt: HostRuntime) -> Result<(), Fail> {
    let mut blob = Trial::new(rt.alloc(), Ops::shipped(rt.alloc())?, false)?;
    assert_eq!(rt; blob.first_wrong(&CUT), None);
    assert_eq!(rt; blob.counts(), (Some(4), Some(1), 2, 0));
    Ok(())
}

// What can't be done is answered as a fault and counted. Freed, the blob leaves all bands but the map's.
#[test]
fn what_cannot_be_done_is_counted(rt: HostRuntime) -> Result<(), Fail> {
    let mut blob = Trial::new(rt.alloc(), Ops::shipped(rt.alloc())?, false)?;
    assert_eq!(rt; blob.first_wrong(&REFUSED), None);
    assert_eq!(rt; blob.counts(), (Some(3), Some(1), 2, 5));
    assert!(rt; blob.free());
    assert_eq!(rt; blob.counts(), (None, None, 3, 7));
    Ok(())
}

// A blob beside the list of bytes that it is to be, and calls that are drawn.
#[derive(Drop)]
struct Pair {
    blob: Trial,
    bytes: Vec<u8>,
    piece: Vec<u8>,
    seed: u64,
}

impl Pair {
    fn draw(&mut self, below: u32) -> u32 {
        self.seed = self
            .seed
            .wrapping_mul(6_364_136_223_846_793_005)
            .wrapping_add(1_442_695_040_888_963_407);
        ((self.seed >> 33) as u32).checked_rem(below).unwrap_or(0)
    }

    // A place up to `most`, near where a piece or a band ends.
    fn place(&mut self, most: u32) -> u32 {
        let border = self.draw(14).saturating_mul(8_192);
        let near = border.saturating_add(self.draw(7));
        near.saturating_sub(3).min(most)
    }

    fn long(&self) -> u32 {
        u32::try_from(self.bytes.len()).unwrap_or(u32::MAX)
    }

    // Makes the piece so many bytes, each one more than the one before.
    fn fill_piece(&mut self, first: u8, count: u32) -> Result<(), Fail> {
        self.piece.truncate(0);
        for k in 0..count {
            self.piece.push(first.wrapping_add((k % 256) as u8))?;
        }
        Ok(())
    }

    fn draw_byte(&mut self) -> u8 {
        (self.draw(256) % 256) as u8
    }

    // The piece stands in the list from there on.
    fn place_piece(&mut self, at: u32) {
        let places = self.bytes.iter_mut().skip(at as usize);
        for (byte, new) in places.zip(self.piece.iter()) {
            *byte = *new;
        }
    }

    fn write(&mut self) -> Result<(), Fail> {
        let at = self.place(self.long());
        let count = self.draw(9_000).min(120_000u32.saturating_sub(at));
        let first = self.draw_byte();
        self.fill_piece(first, count)?;
        self.blob.write(at, self.piece.as_slice())?;
        let end = at.saturating_add(count).max(self.long());
        self.bytes.resize(end as usize, 0)?;
        self.place_piece(at);
        Ok(())
    }

    fn set_len(&mut self) -> Result<(), Fail> {
        let size = self.place(120_000);
        self.blob.set_len(size)?;
        self.bytes.resize(size as usize, 0)?;
        Ok(())
    }

    // A painting by `ramp`, whose byte at position k is the argument's and k, modulo 256.
    fn paint(&mut self) -> Result<(), Fail> {
        let at = self.place(self.long());
        let count = self.draw(9_000).min(self.long().saturating_sub(at));
        let first = self.draw_byte();
        self.blob.paint(at, count, 2, &[first])?;
        self.fill_piece(first.wrapping_add((at % 256) as u8), count)?;
        self.place_piece(at);
        Ok(())
    }

    // Whether bytes that are read are those of the list.
    fn reads_alike(&mut self) -> Result<bool, Fail> {
        let at = self.place(self.long());
        let count = self.draw(9_000).min(self.long().saturating_sub(at));
        self.fill_piece(0, count)?;
        self.blob.read(at, self.piece.as_mut_slice())?;
        let end = at.saturating_add(count);
        Ok(self.bytes.get(at as usize..end as usize) == Some(self.piece.as_slice()))
    }

    // One call, and whether what is read then and the length are right.
    fn call(&mut self) -> Result<bool, Fail> {
        match self.draw(4) {
            0 => self.write()?,
            1 => self.paint()?,
            2 => self.set_len()?,
            _ => {}
        }
        let long = self.blob.len()? == self.long();
        Ok(self.reads_alike()? && long)
    }
}

#[test]
fn a_blob_is_a_list_of_bytes(rt: HostRuntime) -> Result<(), Fail> {
    let mut pair = Pair {
        blob: Trial::new(rt.alloc(), Ops::shipped(rt.alloc())?, true)?,
        bytes: Vec::new(rt.alloc()),
        piece: Vec::new(rt.alloc()),
        seed: 54,
    };
    let mut wrong = 0;
    for _ in 0..10_000 {
        if !pair.call()? {
            wrong = 1;
        }
    }
    assert_eq!(rt; wrong, 0);
    assert_eq!(rt; pair.blob.space.faults(), 0);
    Ok(())
}
