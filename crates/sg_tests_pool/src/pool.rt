ghost use Rattle.std.specs.Prelude.{◌≡◌, ◌<◌};

use sg_base::{BandNo, Lsn, PageNo, PageOp, Steps, TxnId, view};
use sg_disk::{Area, Disk, Fuse, MemDisk};
use sg_gate::{Super, band_start, lay_over, page_start};
use sg_log::{Log, LogFault};
use sg_ops::Ops;
use sg_pool::{Pool, PoolFault};
use sg_record::Rec;
use sg_redo::{Place, are_known};
use std::alloc::Global;
use std::marker::Brand;
use std::sync::ledger::{Blank, Ledger};
use std::test::Fail;
use std::thread::Threads;

const PAGES: u32 = 200;

const BANDS: u32 = 40;

// A band has so many cells of 8 bytes that change, one in each 2,048 bytes, from this byte on.
const CELLS: u32 = 16;

const CELL_AT: u32 = 1_000;

const ZEROS: [u8; 2_048] = [0; 2_048];

// The last byte of the last band.
const LAST: u64 = 2_273_279;

const STORE: Super = Super {
    sequence: 1,
    pages: PAGES,
    bands: BANDS,
    frames: 32,
    windows: 4,
    log: 0,
    base: 0,
};

// A record of 21 bytes, for the sake of its number.
const RECORD: Rec<'static> = Rec::Begin {
    txn: TxnId(5),
    prev: 0,
};

// A pool with its disk and log. Its calls promise nothing: a test that makes them sees plain values.
struct Trial {
    disk: Fuse<MemDisk>,
    log: Log,
    ops: Ops,
    pool: Pool,
}

// Why a call of a trial stops.
#[derive(Clone, Copy, Debug)]
enum Stop {
    Pool(PoolFault),
    Log(LogFault),
    NoPage,
    NoBand,
    NoOperation,
}

impl From<PoolFault> for Stop {
    fn from(fault: PoolFault) -> Stop {
        Stop::Pool(fault)
    }
}

impl From<LogFault> for Stop {
    fn from(fault: LogFault) -> Stop {
        Stop::Log(fault)
    }
}

// The number of a page and that of its last change, as a cell.
fn cell_of(page: u32, lsn: Lsn) -> [u8; 12] {
    let [a, b, c, d] = page.to_le_bytes();
    let [e, f, g, h, i, j, k, l] = lsn.to_le_bytes();
    [a, b, c, d, e, f, g, h, i, j, k, l]
}

// Whether a page has one slot with this cell, and that number; or whether it is all 0, for number 0.
fn is_version(bytes: &[u8], page: u32, lsn: Lsn) -> bool {
    match view(bytes) {
        None => lsn == 0 && bytes.iter().all(|b| *b == 0),
        Some(slots) => {
            slots.lsn() == lsn && slots.slots() == 1 && slots.slot(0) == Some(&cell_of(page, lsn))
        }
    }
}

// The 8 bytes that stand for a cell among 2,048 bytes of a band.
fn has_cell(bytes: &[u8], cell: Lsn) -> bool {
    let text = cell.to_le_bytes();
    bytes.get(1_000..1_008) == Some(text.as_slice())
}

// Whether the other bytes are 0.
fn is_bare(bytes: &[u8]) -> bool {
    bytes.get(..1_000) == ZEROS.get(..1_000) && bytes.get(1_008..) == ZEROS.get(1_008..)
}

// Which cells of a band differ, as bits: 65,536 stands for a byte beside them that isn't 0.
fn cells_differ(bytes: &[u8], cells: &[Lsn; 16]) -> u32 {
    let mut differ = 0;
    let mut bit = 1u32;
    for (part, cell) in bytes.chunks(2_048).zip(cells.iter()) {
        if !is_bare(part) {
            differ |= 65_536;
        }
        if !has_cell(part, *cell) {
            differ |= bit;
        }
        bit = bit.wrapping_mul(2);
    }
    differ
}

impl Trial {
    // A store of zeros that are all written, of whose disk so many more calls pass, or all.
    fn new(alloc: Global, ops: Ops, passes: Option<u64>) -> Result<Trial, Fail> {
        let mut disk = MemDisk::new(alloc);
        let _written = disk.write_at(Area::Home, LAST, &[0]);
        let _synced = disk.sync(Area::Home);
        let log = Log::attach(alloc, &mut disk, Area::Log0, 0)?;
        let pool = Pool::new(alloc, &STORE)?;
        Ok(Trial {
            disk: Fuse::new(disk, passes),
            log,
            ops,
            pool,
        })
    }

    fn end(self) -> MemDisk {
        let Trial {
            disk,
            log: _,
            ops: _,
            pool,
        } = self;
        pool.end();
        disk.into_inner()
    }

    fn change(&mut self, p: u32, op: &PageOp<'_>, lsn: Lsn) -> Result<(), Stop> {
        if p >= self.pool.pages() {
            return Err(Stop::NoPage);
        }
        self.pool.change_page(&mut self.disk, &mut self.log, PageNo(p), lsn, op, &self.ops)?;
        Ok(())
    }

    // Gives a page its number and that of the change as its cell; it is formatted first, where it is new.
    // Answers the number of the first of these changes and of the last.
    fn write(&mut self, p: u32, is_new: bool) -> Result<(Lsn, Lsn), Stop> {
        let first = self.log.append(&mut self.disk, &RECORD)?;
        if !is_new {
            let cell = cell_of(p, first);
            let bytes = cell.as_slice();
            self.change(p, &PageOp::Set { slot: 0, bytes }, first)?;
            return Ok((first, first));
        }
        self.change(p, &PageOp::Format { kind: 1 }, first)?;
        let last = self.log.append(&mut self.disk, &RECORD)?;
        let cell = cell_of(p, last);
        let bytes = cell.as_slice();
        self.change(p, &PageOp::Put { slot: 0, bytes }, last)?;
        Ok((first, last))
    }

    // Whether a page that is lent is that version.
    fn has(&mut self, p: u32, lsn: Lsn) -> Result<bool, Stop> {
        if p >= self.pool.pages() {
            return Err(Stop::NoPage);
        }
        let bytes = self.pool.page(&mut self.disk, &mut self.log, PageNo(p))?;
        Ok(is_version(bytes, p, lsn))
    }

    // Gives a cell of a band the number of a new record. Answers that.
    fn write_cell(&mut self, b: u32, cell: u32) -> Result<Lsn, Stop> {
        let lsn = self.log.append(&mut self.disk, &RECORD)?;
        if b >= self.pool.bands() || cell >= CELLS {
            return Err(Stop::NoBand);
        }
        let at = cell * 2_048 + CELL_AT;
        let bytes = lsn.to_le_bytes();
        self.pool
            .change_band(&mut self.disk, &mut self.log, BandNo(b), lsn, at, &bytes)?;
        Ok(lsn)
    }

    // Whether a band that is lent has these cells, and 0 elsewhere.
    fn has_cells(&mut self, b: u32, cells: &[Lsn; 16]) -> Result<bool, Stop> {
        if b >= self.pool.bands() {
            return Err(Stop::NoBand);
        }
        let bytes = self.pool.band(&mut self.disk, &mut self.log, BandNo(b))?;
        Ok(cells_differ(bytes, cells) == 0)
    }

    // Whether a page that may be pinned, since it is in a frame, is that version without a call of the disk.
    fn has_held(&self, p: u32, lsn: Lsn) -> bool {
        if p >= self.pool.pages() || !self.pool.can_pin(PageNo(p)) {
            return false;
        }
        is_version(self.pool.held(PageNo(p)), p, lsn)
    }

    // Gives the first cell of a band a new record's number, and whether it is there without a call of the disk.
    fn has_held_cell(&mut self, b: u32) -> Result<bool, Stop> {
        let lsn = self.log.append(&mut self.disk, &RECORD)?;
        if b >= self.pool.bands() {
            return Err(Stop::NoBand);
        }
        let bytes = lsn.to_le_bytes();
        self.pool.change_band(
            &mut self.disk,
            &mut self.log,
            BandNo(b),
            lsn,
            CELL_AT,
            &bytes,
        )?;
        let held = self.pool.held_band(BandNo(b));
        Ok(held[1_000..1_008] == bytes[0..8])
    }

    // Pins a page, if it may be pinned.
    fn pin(&mut self, p: u32) -> bool {
        if p >= self.pool.pages() || !self.pool.can_pin(PageNo(p)) {
            return false;
        }
        self.pool.pin(PageNo(p));
        true
    }

    fn unpin(&mut self, p: u32) {
        if p < self.pool.pages() {
            self.pool.unpin(PageNo(p));
        }
    }

    fn flush(&mut self) -> Result<(), PoolFault> {
        self.pool.flush(&mut self.disk, &mut self.log)
    }
}

// The victim before a change of page 32, behind it, and once page 2 was read again; and whether that has its
// last bytes.
fn row_of_frames(trial: &mut Trial) -> Result<([u32; 3], bool), Stop> {
    let mut of_2 = 0;
    for p in 0..32 {
        let (_first, last) = trial.write(p, true)?;
        if p == 2 {
            of_2 = last;
        }
    }
    trial.has(0, 0)?;
    trial.pin(1);
    let before = trial.pool.victim();
    trial.write(32, true)?;
    let behind = trial.pool.victim();
    let same = trial.has(2, of_2)?;
    Ok(([before, behind, trial.pool.victim()], same))
}

#[test]
fn the_least_recently_used_page_that_is_not_pinned_goes(rt: HostRuntime) -> Result<(), Fail> {
    let mut trial = Trial::new(rt.alloc(), Ops::shipped(rt.alloc())?, None)?;
    let outcome = row_of_frames(&mut trial);
    trial.end();
    let (victims, same) = outcome?;
    assert_eq!(rt; victims, [2, 3, 4]);
    assert!(rt; same);
    Ok(())
}

// Whether a page in its frame and a band in its window are what was written; and, where six pages are pinned,
// whether one of them may be pinned again, and a seventh.
fn held_and_pinned(trial: &mut Trial) -> Result<[bool; 4], Stop> {
    let (_first, last) = trial.write(5, true)?;
    let page = trial.has_held(5, last);
    let band = trial.has_held_cell(2)?;
    for p in 0..6 {
        trial.has(p, 0)?;
        trial.pin(p);
    }
    trial.has(6, 0)?;
    Ok([page, band, trial.pin(3), trial.pin(6)])
}

#[test]
fn what_is_held_is_lent_without_the_disk_and_pinned_again(rt: HostRuntime) -> Result<(), Fail> {
    let mut trial = Trial::new(rt.alloc(), Ops::shipped(rt.alloc())?, None)?;
    let outcome = held_and_pinned(&mut trial);
    trial.end();
    assert_eq!(rt; outcome?, [true, true, true, false]);
    Ok(())
}

// A part of a log: page 7 is formatted and its cell put, and a cell of band 3 written.
const PART: [u8; 131] = [
    2, 36, 0, 0, 0, 5, 0, 0, 0, 0, 0, 0, 0, 26, 0, 0, 0, 0, 0, 0, 0, 7, 0, 0, 0, 1, 0, 0, 0, 0, 1,
    0, 1, 0, 0, 1, 2, 46, 0, 0, 0, 5, 0, 0, 0, 0, 0, 0, 0, 26, 0, 0, 0, 0, 0, 0, 0, 7, 0, 0, 0, 2,
    0, 0, 0, 0, 0, 0, 12, 0, 7, 0, 0, 0, 120, 0, 0, 0, 0, 0, 0, 0, 3, 49, 0, 0, 0, 5, 0, 0, 0, 0,
    0, 0, 0, 26, 0, 0, 0, 0, 0, 0, 0, 3, 0, 0, 0, 232, 3, 0, 0, 8, 0, 0, 0, 0, 0, 0, 0, 0, 0, 0, 0,
    130, 0, 0, 0, 0, 0, 0, 0,
];

const OF_PAGE: [Place; 2] = [
    Place {
        unit: 7,
        lsn: 110,
        at: 0,
    },
    Place {
        unit: 7,
        lsn: 120,
        at: 36,
    },
];

const OF_BAND: [Place; 1] = [Place {
    unit: 203,
    lsn: 130,
    at: 82,
}];

impl Trial {
    // Repeats the records of page 7 and band 3.
    fn redo<L: Ledger>(&mut self, steps: &mut Steps<L>) -> Result<(), Stop> {
        if !are_known(&OF_PAGE, &PART, &self.ops) || !are_known(&OF_BAND, &PART, &self.ops) {
            return Err(Stop::NoOperation);
        }
        if self.pool.pages() <= 7 || self.pool.bands() <= 3 {
            return Err(Stop::NoPage);
        }
        self.pool.redo_page(
            &mut self.disk,
            &mut self.log,
            PageNo(7),
            &PART,
            &OF_PAGE,
            &self.ops,
            steps,
        )?;
        self.pool.redo_band(
            &mut self.disk,
            &mut self.log,
            BandNo(3),
            &PART,
            &OF_BAND,
            &self.ops,
            steps,
        )?;
        Ok(())
    }
}

// Whether the page and the band are what these records make of zeros, once and again; and the oldest change then.
fn redone<L: Ledger>(trial: &mut Trial, blank: Blank) -> Result<(bool, Option<Lsn>), Stop>
    requires name { blank.name ≡ L.name }
    requires parts { blank.parts ≡ L.parts }
    requires some { 0 < L.parts }
{
    let mut steps = Steps::<L>::open(blank);
    let mut cells = [0; 16];
    cells[0] = 130;
    trial.redo(&mut steps)?;
    let once = trial.has(7, 120)? && trial.has_cells(3, &cells)?;
    trial.redo(&mut steps)?;
    let again = trial.has(7, 120)? && trial.has_cells(3, &cells)?;
    Ok((once && again, trial.pool.oldest()))
}

#[test]
fn records_are_repeated_on_a_page_and_a_band(rt: HostRuntime) -> Result<(), Fail> {
    let mut trial = Trial::new(rt.alloc(), Ops::shipped(rt.alloc())?, None)?;
    let outcome = redone::<Brand>(&mut trial, Blank::new(1));
    trial.end();
    let (same, oldest) = outcome?;
    assert!(rt; same);
    assert_eq!(rt; oldest, Some(110));
    Ok(())
}

// What a plain array knows of a page: the numbers of its last change, of the oldest that isn't home, and of the
// last that is; when it was used, if it is in a frame; and whether it is pinned there.
#[derive(Clone, Copy)]
struct Row {
    last: Lsn,
    since: Option<Lsn>,
    home: Lsn,
    used: Option<u64>,
    is_pinned: bool,
}

// And of a band: the numbers in its cells, and what was in them when it went home last; the numbers of the oldest
// change that isn't home, and of the last.
#[derive(Clone, Copy)]
struct Strip {
    cells: [Lsn; 16],
    homes: [Lsn; 16],
    since: Option<Lsn>,
    last: Lsn,
}

// A pool beside such arrays, and calls that are drawn.
#[derive(Drop)]
struct Plain {
    rows: Vec<Row>,
    strips: Vec<Strip>,
    // the band in each window, and which window comes next
    windows: [Option<u32>; 4],
    next: usize,
    clock: u64,
    seed: u64,
}

impl Plain {
    fn new(alloc: Global, seed: u64) -> Result<Plain, Fail> {
        let row = Row {
            last: 0,
            since: None,
            home: 0,
            used: None,
            is_pinned: false,
        };
        let strip = Strip {
            cells: [0; 16],
            homes: [0; 16],
            since: None,
            last: 0,
        };
        let rows = vec![in alloc; row; PAGES as usize]?;
        let strips = vec![in alloc; strip; BANDS as usize]?;
        Ok(Plain {
            rows,
            strips,
            windows: [None; 4],
            next: 0,
            clock: 0,
            seed,
        })
    }

    fn draw(&mut self, below: u32) -> u32 {
        self.seed = self
            .seed
            .wrapping_mul(6_364_136_223_846_793_005)
            .wrapping_add(1_442_695_040_888_963_407);
        ((self.seed >> 33) as u32).checked_rem(below).unwrap_or(0)
    }

    fn last(&self, p: u32) -> Lsn {
        match self.rows.get(p as usize) {
            Some(row) => row.last,
            None => 0,
        }
    }

    // The page in a frame that was used longest ago and isn't pinned goes home, where 32 are in frames.
    fn evict(&mut self) {
        let mut held = 0u32;
        let mut least = u64::MAX;
        for row in self.rows.iter() {
            if let Some(used) = row.used {
                held = held.saturating_add(1);
                if !row.is_pinned {
                    least = least.min(used);
                }
            }
        }
        if held < 32 {
            return;
        }
        for row in self.rows.iter_mut() {
            if row.used == Some(least) {
                row.used = None;
                row.since = None;
                row.home = row.last;
            }
        }
    }

    // The page is used.
    fn use_page(&mut self, p: u32) {
        let absent = match self.rows.get(p as usize) {
            Some(row) => row.used.is_none(),
            None => false,
        };
        if absent {
            self.evict();
        }
        self.clock = self.clock.saturating_add(1);
        if let Some(row) = self.rows.get_mut(p as usize) {
            row.used = Some(self.clock);
        }
    }

    // And changed.
    fn change_page(&mut self, p: u32, first: Lsn, last: Lsn) {
        self.use_page(p);
        if let Some(row) = self.rows.get_mut(p as usize) {
            row.last = last;
            row.since = Some(row.since.unwrap_or(first));
        }
    }

    fn flush(&mut self) {
        for row in self.rows.iter_mut() {
            row.since = None;
            row.home = row.last;
        }
        for strip in self.strips.iter_mut() {
            strip.since = None;
            strip.homes = strip.cells;
        }
    }

    fn cells(&self, b: u32) -> [Lsn; 16] {
        match self.strips.get(b as usize) {
            Some(strip) => strip.cells,
            None => [0; 16],
        }
    }

    // The band comes into a window, and the one there goes home.
    fn use_band(&mut self, b: u32) {
        if self.windows.iter().any(|held| *held == Some(b)) {
            return;
        }
        let Some(window) = self.windows.get_mut(self.next) else {
            return;
        };
        if let Some(out) = *window {
            if let Some(strip) = self.strips.get_mut(out as usize) {
                strip.since = None;
                strip.homes = strip.cells;
            }
        }
        *window = Some(b);
        self.next = if self.next >= 3 {
            0
        } else {
            self.next.saturating_add(1)
        };
    }

    // And its cell is changed.
    fn change_cell(&mut self, b: u32, cell: u32, lsn: Lsn) {
        self.use_band(b);
        if let Some(strip) = self.strips.get_mut(b as usize) {
            if let Some(number) = strip.cells.get_mut(cell as usize) {
                *number = lsn;
            }
            strip.since = Some(strip.since.unwrap_or(lsn));
            strip.last = lsn;
        }
    }

    fn set_pin(&mut self, p: u32, is_pinned: bool) {
        if let Some(row) = self.rows.get_mut(p as usize) {
            row.is_pinned = is_pinned;
        }
    }

    fn oldest(&self) -> Option<Lsn> {
        let pages = self.rows.iter().filter_map(|row| row.since).min();
        let bands = self.strips.iter().filter_map(|strip| strip.since).min();
        match (pages, bands) {
            (Some(a), Some(b)) => Some(a.min(b)),
            (Some(a), None) => Some(a),
            (None, b) => b,
        }
    }

    // One call of the pool, and whether what it answers is right.
    fn call(&mut self, trial: &mut Trial) -> Result<bool, Stop> {
        let p = self.draw(PAGES);
        let last = self.last(p);
        let mut is_right = true;
        match self.draw(100) {
            0 => {
                trial.flush()?;
                self.flush();
            }
            1 => {
                if trial.pin(p) {
                    self.set_pin(p, true);
                }
            }
            2 => {
                trial.unpin(p);
                self.set_pin(p, false);
            }
            3..=35 => {
                let (first, last) = trial.write(p, last == 0)?;
                self.change_page(p, first, last);
            }
            36..=50 => {
                let b = self.draw(BANDS);
                let cell = self.draw(CELLS);
                let lsn = trial.write_cell(b, cell)?;
                self.change_cell(b, cell, lsn);
            }
            51..=65 => {
                let b = self.draw(BANDS);
                is_right = trial.has_cells(b, &self.cells(b))?;
                self.use_band(b);
            }
            _ => {
                is_right = trial.has(p, last)?;
                self.use_page(p);
            }
        }
        Ok(is_right && trial.pool.oldest() == self.oldest())
    }

    // Whether so many calls were answered right. It stops at the first fault.
    fn run(&mut self, trial: &mut Trial, count: u32) -> Result<bool, Stop> {
        for _k in 0..count {
            if !self.call(trial)? {
                return Ok(false);
            }
        }
        Ok(true)
    }
}

#[test]
fn a_page_and_a_band_are_what_was_last_written_to_them(rt: HostRuntime) -> Result<(), Fail> {
    let mut plain = Plain::new(rt.alloc(), 1)?;
    let mut trial = Trial::new(rt.alloc(), Ops::shipped(rt.alloc())?, None)?;
    let outcome = plain.run(&mut trial, 10_000);
    trial.end();
    assert!(rt; outcome?);
    Ok(())
}

// Other bytes of a text, from one on.
fn overwrite(text: &mut [u8], at: usize, bytes: &[u8]) {
    for (to, from) in text.iter_mut().skip(at).zip(bytes.iter()) {
        *to = *from;
    }
}

// The same part of a log for another page and another cell of another band, where the first record has this number.
fn part_for(page: u32, band: u32, cell: u32, lsn: Lsn) -> [u8; 131] {
    let mut part = PART;
    let number = page.to_le_bytes();
    let put = lsn.saturating_add(36);
    overwrite(&mut part, 21, &number);
    overwrite(&mut part, 57, &number);
    overwrite(&mut part, 70, &cell_of(page, put));
    overwrite(&mut part, 103, &band.to_le_bytes());
    let at = cell.saturating_mul(2_048).saturating_add(CELL_AT);
    overwrite(&mut part, 107, &at.to_le_bytes());
    overwrite(&mut part, 123, &lsn.saturating_add(82).to_le_bytes());
    part
}

// A part of a log with the places of its records, and what its records make of a store of zeros.
#[derive(Drop)]
struct Part {
    text: Vec<u8>,
    places: Vec<Place>,
    plain: Plain,
}

impl Part {
    fn new(alloc: Global) -> Result<Part, Fail> {
        Ok(Part {
            text: Vec::new(alloc),
            places: Vec::new(alloc),
            plain: Plain::new(alloc, 3)?,
        })
    }

    // Three records more: a page is formatted and its cell put, and a cell of a band written.
    fn add(&mut self, page: u32, band: u32, cell: u32) -> Result<(), Fail> {
        let at = self.text.len() as u64;
        let lsn = at.saturating_add(1_000);
        self.text
            .extend_from_slice(&part_for(page, band, cell, lsn))?;
        for (unit, offset) in [(page, 0u64), (page, 36), (PAGES.saturating_add(band), 82)] {
            self.places.push(Place {
                unit,
                lsn: lsn.saturating_add(offset),
                at: at.saturating_add(offset),
            })?;
        }
        if let Some(row) = self.plain.rows.get_mut(page as usize) {
            row.last = lsn.saturating_add(36);
        }
        if let Some(strip) = self.plain.strips.get_mut(band as usize) {
            if let Some(number) = strip.cells.get_mut(cell as usize) {
                *number = lsn.saturating_add(82);
            }
        }
        Ok(())
    }

    // So many triples of records, of pages and bands that take turns.
    fn drawn(alloc: Global, count: u32) -> Result<Part, Fail> {
        let mut part = Part::new(alloc)?;
        for _k in 0..count {
            let page = part.plain.draw(60);
            let band = part.plain.draw(9);
            let cell = part.plain.draw(CELLS);
            part.add(page, band, cell)?;
        }
        Ok(part)
    }

    fn redo<R: Threads + Sync, L: Ledger>(
        &mut self,
        rt: &R,
        trial: &mut Trial,
        steps: &mut Steps<L>,
    ) -> Result<(), Stop> {
        if self.places.len() >= 65_536 || !trial.pool.can_redo(&self.places) {
            return Err(Stop::NoPage);
        }
        if !are_known(&self.places, &self.text, &trial.ops) {
            return Err(Stop::NoOperation);
        }
        trial.pool.redo(
            rt,
            &mut trial.disk,
            &mut trial.log,
            &self.text,
            &mut self.places,
            &trial.ops,
            steps,
        )?;
        Ok(())
    }

    // Whether each page and each band of the store is what its records make of it.
    fn is_redone(&self, trial: &mut Trial) -> Result<bool, Stop> {
        let mut page = 0u32;
        for row in self.plain.rows.iter() {
            if !trial.has(page, row.last)? {
                return Ok(false);
            }
            page = page.saturating_add(1);
        }
        let mut band = 0u32;
        for strip in self.plain.strips.iter() {
            if !trial.has_cells(band, &strip.cells)? {
                return Ok(false);
            }
            band = band.saturating_add(1);
        }
        Ok(true)
    }
}

// Whether each page and band is what the records of the part make of it, once, and again, and when all are home.
fn part_redone<R: Threads + Sync, L: Ledger>(
    rt: &R,
    trial: &mut Trial,
    part: &mut Part,
    blank: Blank,
) -> Result<bool, Stop>
    requires name { blank.name ≡ L.name }
    requires parts { blank.parts ≡ L.parts }
    requires some { 0 < L.parts }
{
    let mut steps = Steps::<L>::open(blank);
    part.redo(rt, trial, &mut steps)?;
    let once = part.is_redone(trial)?;
    part.places.sort_unstable_by_key(|place| place.lsn);
    part.redo(rt, trial, &mut steps)?;
    let again = part.is_redone(trial)?;
    trial.flush()?;
    Ok(once && again && part.is_redone(trial)? && trial.pool.oldest().is_none())
}

// 150 triples, of 60 pages through 32 frames and 9 bands through 4 windows.
#[test]
fn a_part_of_a_log_is_repeated_on_all_its_units(rt: HostRuntime) -> Result<(), Fail> {
    let mut part = Part::drawn(rt.alloc(), 150)?;
    let mut trial = Trial::new(rt.alloc(), Ops::shipped(rt.alloc())?, None)?;
    let outcome = part_redone::<HostRuntime, Brand>(&rt, &mut trial, &mut part, Blank::new(1));
    trial.end();
    assert!(rt; outcome?);
    Ok(())
}

// What redo of a part over a page that is no page answers, and whether the pages beside it have all their records or
// none.
fn damaged<R: Threads + Sync, L: Ledger>(
    rt: &R,
    trial: &mut Trial,
    part: &mut Part,
    blank: Blank,
) -> Result<(Option<PoolFault>, bool), Stop>
    requires name { blank.name ≡ L.name }
    requires parts { blank.parts ≡ L.parts }
    requires some { 0 < L.parts }
{
    let mut steps = Steps::<L>::open(blank);
    let fault = match part.redo(rt, trial, &mut steps) {
        Err(Stop::Pool(fault)) => Some(fault),
        _ => None,
    };
    let before = trial.has(4, part.plain.last(4))? || trial.has(4, 0)?;
    let behind = trial.has(6, part.plain.last(6))? || trial.has(6, 0)?;
    Ok((fault, before && behind))
}

#[test]
fn a_page_that_is_none_stops_redo(rt: HostRuntime) -> Result<(), Fail> {
    let mut part = Part::new(rt.alloc())?;
    for page in 4..7 {
        part.add(page, page, 0)?;
    }
    let mut trial = Trial::new(rt.alloc(), Ops::shipped(rt.alloc())?, None)?;
    let _written = trial.disk.write_at(Area::Home, page_start(PageNo(5)), &[1]);
    let _synced = trial.disk.sync(Area::Home);
    let outcome = damaged::<HostRuntime, Brand>(&rt, &mut trial, &mut part, Blank::new(1));
    trial.end();
    let (fault, whole) = outcome?;
    assert_eq!(rt; fault, Some(PoolFault::Damaged { page: PageNo(5) }));
    assert!(rt; whole);
    Ok(())
}

// Whether a page's home is one of its versions, not older than the last that went home, and below the durable
// tail of the log.
fn is_kept(bytes: &[u8], page: u32, home: Lsn, durable: Lsn) -> bool {
    let lsn = match view(bytes) {
        Some(slots) => slots.lsn(),
        None => 0,
    };
    is_version(bytes, page, lsn) && home <= lsn && (lsn == 0 || lsn < durable)
}

// Whether that is so of each page, once an open batch was laid over.
fn all_kept(alloc: Global, mut disk: MemDisk, plain: &Plain) -> Result<bool, Fail> {
    lay_over(&mut disk, PAGES)?;
    let log = Log::attach(alloc, &mut disk, Area::Log0, 0)?;
    let durable = log.durable();
    let mut page = 0;
    for row in plain.rows.iter() {
        let from = page_start(PageNo(page)) as usize;
        let Some(bytes) = disk.home().get(from..from.saturating_add(4_096)) else {
            return Ok(false);
        };
        if !is_kept(bytes, page, row.home, durable) {
            return Ok(false);
        }
        page = page.saturating_add(1);
    }
    Ok(bands_kept(&disk, plain, durable))
}

// Whether each cell that has changed since its band went home is as it was then, or the band's last change is below
// the durable tail; and each other byte is as it was.
fn is_strip_kept(bytes: &[u8], strip: &Strip, durable: Lsn) -> bool {
    let mut differ = cells_differ(bytes, &strip.homes);
    if differ >= 65_536 {
        return false;
    }
    for (cell, home) in strip.cells.iter().zip(strip.homes.iter()).rev() {
        let is_open = cell != home && strip.last < durable;
        if differ >= 32_768 && !is_open {
            return false;
        }
        differ = differ.wrapping_mul(2) & 65_535;
    }
    true
}

// Whether that is so of each band.
fn bands_kept(disk: &MemDisk, plain: &Plain, durable: Lsn) -> bool {
    let mut band = 0;
    for strip in plain.strips.iter() {
        let from = band_start(PAGES, BandNo(band)) as usize;
        let Some(bytes) = disk.home().get(from..from.saturating_add(32_768)) else {
            return false;
        };
        if !is_strip_kept(bytes, strip, durable) {
            return false;
        }
        band = band.saturating_add(1);
    }
    true
}

// What a crash leaves of 200 calls that are stopped after so many calls of the disk.
fn is_crash_safe(alloc: Global, ops: Ops, passes: u64, pick: u64) -> Result<bool, Fail> {
    let mut plain = Plain::new(alloc, 2)?;
    let mut trial = Trial::new(alloc, ops, Some(passes))?;
    let _stopped = plain.run(&mut trial, 200);
    let disk = trial.end().crash(pick);
    all_kept(alloc, disk, &plain)
}

#[test]
fn a_crash_leaves_whole_pages_and_bytes_of_durable_records(rt: HostRuntime) -> Result<(), Fail> {
    for k in 0..430u64 {
        let ops = Ops::shipped(rt.alloc())?;
        let safe = is_crash_safe(
            rt.alloc(),
            ops,
            k.wrapping_mul(3),
            k.wrapping_mul(0x9e37_79b9),
        )?;
        assert!(rt; safe);
    }
    Ok(())
}
