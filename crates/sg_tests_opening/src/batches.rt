// An open batch, whose pages are torn at home, and operations in the log that they don't have yet.
ghost use Rattle.std.specs.Prelude.{◌≡◌, ◌<◌};

use crate::stores::{Stop, spoil, store};
use sg_base::{Lsn, PageNo, Steps, view};
use sg_disk::{Area, Disk, MemDisk};
use sg_engine::Engine;
use sg_gate::{page_start, place_start};
use sg_ops::Ops;
use sg_reopen::{Started, Unopened, open_engine};
use std::alloc::Global;
use std::marker::Brand;
use std::sync::ledger::{Blank, Ledger};
use std::test::Fail;
use std::thread::Threads;

// A transaction begins.
const BEGIN: [u8; 21] = [
    1, 21, 0, 0, 0, 5, 0, 0, 0, 0, 0, 0, 0, 0, 0, 0, 0, 0, 0, 0, 0,
];

// A page is formatted.
const FORMAT: [u8; 36] = [
    2, 36, 0, 0, 0, 5, 0, 0, 0, 0, 0, 0, 0, 0, 0, 0, 0, 0, 0, 0, 0, 0, 0, 0, 0, 1, 0, 0, 0, 0, 1,
    0, 1, 0, 0, 1,
];

// `xyz` is put into its slot 0.
const PUT: [u8; 37] = [
    2, 37, 0, 0, 0, 5, 0, 0, 0, 0, 0, 0, 0, 0, 0, 0, 0, 0, 0, 0, 0, 0, 0, 0, 0, 2, 0, 0, 0, 0, 0,
    0, 3, 0, b'x', b'y', b'z',
];

// That cell is rotated by 1.
const ROTATE: [u8; 35] = [
    2, 35, 0, 0, 0, 5, 0, 0, 0, 0, 0, 0, 0, 0, 0, 0, 0, 0, 0, 0, 0, 0, 0, 0, 0, 6, 0, 0, 3, 0, 0,
    0, 1, 0, 1,
];

fn push(text: &mut Vec<u8>, byte: u8) -> Result<(), Stop> {
    match text.push(byte) {
        Ok(()) => Ok(()),
        Err(_) => Err(Stop::Memory),
    }
}

// Frames of a log that is written by hand.
#[derive(Drop)]
struct Script {
    text: Vec<u8>,
    // The number of the transaction's last record.
    last: Lsn,
}

impl Script {
    // Adds a record of the page behind the frame's gate and length, with the number of the one before it.
    fn add(&mut self, record: &[u8], page: u32) -> Result<(), Stop> {
        let lsn = self.text.len() as u64;
        let last = self.last.to_le_bytes();
        let number = page.to_le_bytes();
        for (at, byte) in record.iter().enumerate() {
            let place = if at < 13 {
                None
            } else if at < 21 {
                last.get(at - 13)
            } else if at < 25 {
                number.get(at - 21)
            } else {
                None
            };
            push(&mut self.text, *place.unwrap_or(byte))?;
        }
        self.last = lsn;
        Ok(())
    }

    // Begins a frame whose body has so many bytes.
    fn frame(&mut self, size: u32) -> Result<(), Stop> {
        push(&mut self.text, 1)?;
        for byte in size.to_le_bytes() {
            push(&mut self.text, byte)?;
        }
        Ok(())
    }
}

// A log whose first frame fills so many pages, and whose second rotates the cell of each.
fn fill_and_rotate(alloc: Global, pages: u32) -> Result<(Script, usize), Stop> {
    let mut script = Script {
        text: Vec::new(alloc),
        last: 0,
    };
    script.frame(pages.wrapping_mul(73).wrapping_add(21))?;
    for byte in BEGIN {
        push(&mut script.text, byte)?;
    }
    script.last = 5;
    for page in 0..pages {
        script.add(&FORMAT, page.wrapping_add(1))?;
        script.add(&PUT, page.wrapping_add(1))?;
    }
    let first = script.text.len();
    script.frame(pages.wrapping_mul(35))?;
    for page in 0..pages {
        script.add(&ROTATE, page.wrapping_add(1))?;
    }
    Ok((script, first))
}

// Copies the homes of so many pages to the double-write places, spoils the homes, and opens the header's gate.
fn tear(disk: &mut MemDisk, pages: u32) -> Result<(), Stop> {
    let mut page = [0; 4_096];
    for k in 0..pages.min(31) {
        let home = page_start(PageNo(k + 1));
        disk.read_at(Area::Home, home, &mut page)?;
        spoil(disk, Area::Home, place_start(k), &page)?;
        spoil(disk, Area::Home, home, &[255; 4_096])?;
        spoil(
            disk,
            Area::Home,
            8_197 + 4 * k as u64,
            &(k + 1).to_le_bytes(),
        )?;
    }
    spoil(disk, Area::Home, 8_193, &pages.to_le_bytes())?;
    spoil(disk, Area::Home, 8_192, &[1])
}

// How many of so many pages have the rotated cell, and a number behind that of the first frame.
fn count_rotated(engine: &mut Engine<MemDisk>, pages: u32, first: u64) -> u32 {
    let mut count = 0u32;
    for k in 0..pages.min(31) {
        let page = PageNo(k + 1);
        if page.0 < engine.pages() && engine.load_page(page).is_ok() {
            if let Some(slots) = view(engine.page(page)) {
                if slots.slot(0) == Some(b"yzx") && slots.lsn() > first {
                    count = count.wrapping_add(1);
                }
            }
        }
    }
    count
}

// A store whose pages were filled and went home, with that log.
fn filled<R: Threads + Sync, L: Ledger>(
    rt: &R,
    alloc: Global,
    ops: &Ops,
    text: &[u8],
    steps: &mut Steps<L>,
) -> Result<MemDisk, Stop> {
    let mut disk = store(alloc)?;
    spoil(&mut disk, Area::Log0, 0, text)?;
    match open_engine(rt, alloc, disk, ops, steps) {
        Ok(
            Started {
                geometry: _,
                mut engine,
                analysis: _,
            },
        ) => {
            let outcome = engine.flush();
            let disk = engine.into_disk();
            match outcome {
                Ok(()) => Ok(disk),
                Err(_) => Err(Stop::Disk),
            }
        }
        Err(Unopened { disk: _, fault }) => Err(Stop::Open(fault)),
    }
}

// How many pages of a torn batch of so many are rotated once behind an opening.
fn rotated<R: Threads + Sync, L: Ledger>(
    rt: &R,
    alloc: Global,
    pages: u32,
    blank: Blank,
) -> Result<u32, Stop>
    requires name { blank.name ≡ L.name }
    requires parts { blank.parts ≡ L.parts }
    requires some { 0 < L.parts }
{
    let mut steps = Steps::<L>::open(blank);
    let ops = Ops::shipped(alloc)?;
    let (script, first) = fill_and_rotate(alloc, pages)?;
    let text: &[u8] = &script.text;
    let mut disk = filled(
        rt,
        alloc,
        &ops,
        text.get(..first).unwrap_or(&[]),
        &mut steps,
    )?;
    tear(&mut disk, pages)?;
    spoil(&mut disk, Area::Log0, 0, text)?;
    match open_engine(rt, alloc, disk, &ops, &mut steps) {
        Ok(
            Started {
                geometry: _,
                mut engine,
                analysis: _,
            },
        ) => {
            let count = count_rotated(&mut engine, pages, first as u64);
            let _disk = engine.into_disk();
            Ok(count)
        }
        Err(Unopened { disk: _, fault }) => Err(Stop::Open(fault)),
    }
}

#[test]
fn a_torn_batch_is_laid_over_and_a_rotate_is_done_once(rt: HostRuntime) -> Result<(), Fail> {
    for pages in [1, 2, 26] {
        assert_eq!(rt;
            rotated::<_, Brand>(&rt, rt.alloc(), pages, Blank::new(1)),
            Ok(pages)
        );
    }
    Ok(())
}
