ghost use Rattle.std.specs.Prelude.{◌≡◌, ◌≢◌, ◌↔◌, ◌⊎◌, ◌≤◌, ◌<◌, ◌+◌, ◌++◌, [], ℕ, true, List, Some, None, length, get_or, slice_set, replicate, unwrap_or, OnOk, OnErr, IfOk, IfErr, IfSome, IfNone, IsTrue};
ghost use Rattle.sg_base.specs.Ends.{HasRisen};
ghost use Rattle.sg_base.specs.declared.area.Area.TheVariants.{Home};
ghost use Rattle.sg_disk.specs.Disk.{Leaves, LeavesOnly, Counts, ReadBytes};
ghost use Rattle.sg_disk.specs.Heeds.{Heeds};
ghost use Rattle.sg_log.specs.Frames.{Numbered};
ghost use Rattle.sg_log.specs.Held.{Holds, tail_of, forced, IsBeforeOrAfter};
ghost use Rattle.sg_frames.specs.Held.{with_bytes};
ghost use Rattle.sg_frames.specs.declared.place.Place.TheVariants.{Page, Window};
ghost use Rattle.sg_gate.specs.Layout.{PAGE, home_at};
ghost use Rattle.sg_gate.specs.Batch.{IsReady};
ghost use Rattle.sg_pool.specs.Counts.{HasGrown, is_disk};
ghost use Rattle.sg_pool.specs.Going.{IsStored};
ghost use Rattle.sg_base.specs.Op.{op_of};
ghost use Rattle.sg_ops.specs.Table.{table_of};
ghost use Rattle.sg_redo.specs.History.{redone, applies};
ghost use Rattle.sg_redo.specs.Page.{on_page};
ghost use Rattle.sg_pool.specs.Units.{Geometry, page_at, IsBacked, IsCleaned, IsBelow};
ghost use Rattle.sg_pool.specs.Frames.{IsShelf, IsAtHome, window_of};
ghost use Rattle.sg_base.specs.Overwritten.{overwritten};
ghost use Rattle.sg_base.specs.declared.page.TheConstants.{BAND_SIZE};
ghost use Rattle.sg_segment.specs.Runs.{IsWithin};
ghost use Rattle.sg_pool.specs.Windows.{no_marks, marked_in, last_in};
ghost use Rattle.sg_pool.specs.Changed.{slots_after};
ghost use Rattle.sg_pool.specs.Held.{frame_of, page_in, since_of};
ghost use Rattle.sg_pool.specs.Moments.{IsSameOrForced, IsMoment};
ghost use Rattle.sg_pool.specs.Untouched.{IsUntouched};
ghost use Rattle.sg_pool.specs.Well.{IsWell};

use crate::PoolFault;
use crate::index::forget;
use crate::making::empty_table;
use crate::settle::settle;
use crate::slot::Slot;
use crate::well::is_well;
use crate::windows::Windows;
use sg_base::{Area, Failed, OutOfMemory, PageNo, PageOp};
use sg_disk::Disk;
use sg_frames::Frames;
use sg_gate::page_start;
use sg_log::Log;
use sg_ops::Ops;
use sg_redo::apply_page;
use std::alloc::Global;

/// Frames and windows, and what each holds.
pub struct Shelf {
    pub(crate) pages: u32,
    pub(crate) bands: u32,
    pub(crate) frames: Frames,
    // what each frame holds, and the frame of each page
    pub(crate) slots: Vec<Slot>,
    pub(crate) index: Vec<Option<u32>>,
    pub(crate) wins: Windows,
    ghost shelf: { IsShelf pages bands slots.items index.items wins frames },
}

impl Shelf {
    ghost use Rattle.sg_pool.specs.Shelves.{geometry_of, units_at, IsBackedAt, lasts, OnTold, LoadFails, BringFails, IsFrameDurable};

    // So many frames and windows, which hold nothing, for so many pages and bands.
    pub(crate) fn new(
        alloc: Global,
        pages: u32,
        bands: u32,
        frames: u32,
        windows: u32,
    ) -> Result<Shelf, OutOfMemory>
        requires pages { pages ≤ 1048576 }
        requires bands { bands ≤ 65536 }
        requires frames { (1 ≤ frames) × (frames ≤ 16384) }
        requires windows { (1 ≤ windows) × (windows ≤ 256) }
        ensures geometry { IfOk result (λ s. geometry_of s ≡ record { pages = pages; bands = bands }) }
        ensures slots { IfOk result (λ s. s.slots.items ≡ replicate frames (record { number = None; since = None })) }
        ensures wins { IfOk result (λ s. (b : ℕ) → window_of s.wins b ≡ None) }
        ensures windows { IfOk result (λ s. length s.wins.slots.items ≡ windows) }
    {
        let (slots, index) = empty_table(alloc, pages, frames)?;
        let wins = Windows::new(alloc, bands, windows)?;
        let frames = Frames::new(alloc, frames, windows)?;
        Ok(Shelf {
            pages,
            bands,
            frames,
            slots,
            index,
            wins,
        })
    }

    // The frame that holds a page.
    pub(crate) fn find(&self, p: u32) -> Option<u32>
        requires page { p < self.now.pages }
        ensures { result ≡ frame_of self.now.slots.items p }
    {
        self.index[p as usize]
    }

    // Takes the page out of a frame.
    fn empty(&mut self, f: u32)
        requires there { f < length self.old.slots.items }
        ensures slots { self.new.slots.items ≡ slice_set self.old.slots.items f (record { number = None; since = None }) }
        ensures frames { self.new.frames ≡ self.old.frames }
        ensures wins { self.new.wins ≡ self.old.wins }
        ensures geometry { geometry_of self.new ≡ geometry_of self.old }
    {
        let slot = self.slots[f as usize];
        self.slots[f as usize] = Slot {
            number: None,
            since: None,
        };
        forget(&mut self.index, slot.number);
    }

    // Puts a page into an empty frame.
    fn fill(&mut self, f: u32, p: u32)
        requires there { f < length self.old.slots.items }
        requires empty { page_in self.old.slots.items f ≡ None }
        requires page { p < self.old.pages }
        requires absent { frame_of self.old.slots.items p ≡ None }
        requires well { IsWell (get_or self.old.frames.pages f []) }
        ensures slots { self.new.slots.items ≡ slice_set self.old.slots.items f (record { number = Some p; since = None }) }
        ensures frames { self.new.frames ≡ self.old.frames }
        ensures wins { self.new.wins ≡ self.old.wins }
        ensures geometry { geometry_of self.new ≡ geometry_of self.old }
    {
        self.slots[f as usize] = Slot {
            number: Some(p),
            since: None,
        };
        self.index[p as usize] = Some(f);
    }

    // Writes a frame's page home, if it was changed.
    fn write_back<D: Disk>(&self, disk: &mut D, log: &mut Log, f: u32) -> Result<(), PoolFault>
        requires there { f < length self.now.slots.items }
        ensures home { IsTrue D.told → log.old.area ≢ Home → IsReady ((D.view disk.old).now Home) → OnOk result (IsAtHome self.now.slots.items self.now.frames f ((D.view disk.old).now Home) ((D.view disk.new).now Home)) }
        ensures log { (ds ps : List Numbered) → IsTrue D.told → log.old.area ≢ Home → IsReady ((D.view disk.old).now Home) → Holds (D.view disk.old) log.old ds ps → OnOk result (IsSameOrForced (D.view disk.new) log.old log.new ds ps) }
        ensures moments { (ds ps : List Numbered) → IsTrue D.told → log.old.area ≢ Home → IsReady ((D.view disk.old).now Home) → Holds (D.view disk.old) log.old ds ps →
            IsBelow (geometry_of self.now) (tail_of log.old) (units_at (D.view disk.old) self.now) → LeavesOnly (D.view disk.old) (D.view disk.new) (IsMoment (geometry_of self.now) (D.view disk.old) log.old ds ps (lasts self.now) (units_at (D.view disk.old) self.now)) }
        ensures log_kept { (log.new ≡ log.old) ⊎ (log.new ≡ forced log.old) }
        // A change that is durable needs no force.
        ensures spared { IsFrameDurable log.old.gate self.now f → log.new ≡ log.old }
        ensures later { (D.view disk.old).faults ≤ (D.view disk.new).faults }
        ensures heeded { Heeds is_disk result (D.view disk.old) (D.view disk.new) }
        ensures kept { (D.view disk.old).handed ≤ (D.view disk.new).handed }
        ensures grown { HasGrown log.old log.new (D.view disk.old) (D.view disk.new) }
        ensures failed { OnErr result (HasRisen (D.view disk.old).faults (D.view disk.new).faults) }
        ensures fault { IfErr result (λ e. e ≡ PoolFault.Disk) }
    {
        let slot = self.slots[f as usize];
        if slot.since.is_none() {
            return Ok(());
        }
        match slot.number {
            Some(n) => settle(disk, log, self.pages, n, self.frames.page(f)),
            None => Ok(()),
        }
    }

    // Makes a frame clean: its page goes home, if it was changed.
    pub(crate) fn clean<D: Disk>(
        &mut self,
        disk: &mut D,
        log: &mut Log,
        f: u32,
    ) -> Result<(), PoolFault>
        requires there { f < length self.old.slots.items }
        ensures slots { OnOk result (self.new.slots.items ≡ slice_set self.old.slots.items f (record { number = page_in self.old.slots.items f; since = None })) }
        ensures pages { (h : ℕ) → page_in self.new.slots.items h ≡ page_in self.old.slots.items h }
        ensures frames { self.new.frames ≡ self.old.frames }
        ensures wins { self.new.wins ≡ self.old.wins }
        ensures geometry { geometry_of self.new ≡ geometry_of self.old }
        ensures backed { IsTrue D.told → log.old.area ≢ Home → IsBackedAt (geometry_of self.old) (D.view disk.old) self.old →
            OnOk result (IsBackedAt (geometry_of self.old) (D.view disk.new) self.new) }
        ensures units { IsTrue D.told → log.old.area ≢ Home → IsReady ((D.view disk.old).now Home) →
            OnOk result (IsCleaned (geometry_of self.old) (units_at (D.view disk.old) self.old) (units_at (D.view disk.new) self.new)) }
        ensures log { (ds ps : List Numbered) → IsTrue D.told → log.old.area ≢ Home → IsReady ((D.view disk.old).now Home) → Holds (D.view disk.old) log.old ds ps → OnOk result (IsSameOrForced (D.view disk.new) log.old log.new ds ps) }
        ensures untouched { IsTrue D.told → log.old.area ≢ Home → IsReady ((D.view disk.old).now Home) →
            OnOk result (IsUntouched (geometry_of self.old) ((D.view disk.old).now Home).seen ((D.view disk.new).now Home).seen (units_at (D.view disk.new) self.new)) }
        ensures moments { (ds ps : List Numbered) → IsTrue D.told → log.old.area ≢ Home → IsReady ((D.view disk.old).now Home) → Holds (D.view disk.old) log.old ds ps →
            IsBelow (geometry_of self.old) (tail_of log.old) (units_at (D.view disk.old) self.old) → LeavesOnly (D.view disk.old) (D.view disk.new) (IsMoment (geometry_of self.old) (D.view disk.old) log.old ds ps (lasts self.old) (units_at (D.view disk.old) self.old)) }
        ensures log_kept { (log.new ≡ log.old) ⊎ (log.new ≡ forced log.old) }
        ensures spared { IsFrameDurable log.old.gate self.old f → log.new ≡ log.old }
        ensures later { (D.view disk.old).faults ≤ (D.view disk.new).faults }
        ensures heeded { Heeds is_disk result (D.view disk.old) (D.view disk.new) }
        ensures kept { (D.view disk.old).handed ≤ (D.view disk.new).handed }
        ensures grown { HasGrown log.old log.new (D.view disk.old) (D.view disk.new) }
        ensures failed { OnErr result (HasRisen (D.view disk.old).faults (D.view disk.new).faults) }
        ensures fault { IfErr result (λ e. e ≡ PoolFault.Disk) }
    {
        self.write_back(disk, log, f)?;
        self.slots[f as usize].since = None;
        Ok(())
    }

    // Reads a page's home into a frame, which holds no page then.
    fn read_home<D: Disk>(&mut self, disk: &mut D, f: u32, p: u32) -> Result<(), Failed>
        requires there { f < length self.old.slots.items }
        requires page { p < self.old.pages }
        ensures slots { self.new.slots.items ≡ slice_set self.old.slots.items f (record { number = None; since = None }) }
        ensures wins { self.new.wins ≡ self.old.wins }
        ensures windows { self.new.frames.windows ≡ self.old.frames.windows }
        ensures geometry { geometry_of self.new ≡ geometry_of self.old }
        ensures frames { IsTrue D.told → OnOk result (self.new.frames ≡ with_bytes self.old.frames (Page f) (page_at ((D.view disk.old).now Home).seen (home_at p))) }
        ensures counts { Counts 0 (D.view disk.old) (D.view disk.new) result }
        ensures does { IsTrue D.told → ReadBytes (D.view disk.old) (D.view disk.new) result }
        ensures unchanged { IsTrue D.told → (D.view disk.new).now ≡ (D.view disk.old).now }
    {
        self.empty(f);
        disk.read_at(Area::Home, page_start(PageNo(p)), self.frames.page_mut(f))
    }

    // Puts a page into a clean frame.
    fn load<D: Disk>(&mut self, disk: &mut D, f: u32, p: u32) -> Result<(), PoolFault>
        requires there { f < length self.old.slots.items }
        requires page { p < self.old.pages }
        requires absent { frame_of self.old.slots.items p ≡ None }
        requires clean { since_of self.old.slots.items (Some f) ≡ None }
        ensures slots { OnOk result (self.new.slots.items ≡ slice_set self.old.slots.items f (record { number = Some p; since = None })) }
        ensures emptied { OnErr result (self.new.slots.items ≡ slice_set self.old.slots.items f (record { number = None; since = None })) }
        ensures others { (h : ℕ) → h ≢ f → page_in self.new.slots.items h ≡ page_in self.old.slots.items h }
        ensures wins { self.new.wins ≡ self.old.wins }
        ensures windows { self.new.frames.windows ≡ self.old.frames.windows }
        ensures geometry { geometry_of self.new ≡ geometry_of self.old }
        ensures backed { IsTrue D.told → IsBackedAt (geometry_of self.old) (D.view disk.old) self.old →
            OnTold result (IsBackedAt (geometry_of self.old) (D.view disk.new) self.new) }
        ensures units { IsTrue D.told → IsBackedAt (geometry_of self.old) (D.view disk.old) self.old →
            OnTold result (IsCleaned (geometry_of self.old) (units_at (D.view disk.old) self.old) (units_at (D.view disk.new) self.new)) }
        ensures well { IsTrue D.told → OnOk result (IsWell (page_at ((D.view disk.old).now Home).seen (home_at p))) }
        ensures unchanged { IsTrue D.told → (D.view disk.new).now ≡ (D.view disk.old).now }
        ensures moments { IsTrue D.told → LeavesOnly (D.view disk.old) (D.view disk.new) (Leaves (D.view disk.old).now) }
        ensures later { (D.view disk.old).faults ≤ (D.view disk.new).faults }
        ensures heeded { Heeds is_disk result (D.view disk.old) (D.view disk.new) }
        ensures kept { (D.view disk.old).handed ≤ (D.view disk.new).handed }
        ensures faults { IfErr result (λ e. LoadFails D.told p (D.view disk.old) (D.view disk.new) e) }
    {
        match self.read_home(disk, f, p) {
            Ok(()) => {}
            Err(_) => return Err(PoolFault::Disk),
        }
        if !is_well(self.frames.page(f)) {
            return Err(PoolFault::Damaged { page: PageNo(p) });
        }
        self.fill(f, p);
        Ok(())
    }

    // Puts a page into a frame, whose own page goes home first where it was changed.
    pub(crate) fn bring<D: Disk>(
        &mut self,
        disk: &mut D,
        log: &mut Log,
        f: u32,
        p: u32,
    ) -> Result<(), PoolFault>
        requires there { f < length self.old.slots.items }
        requires page { p < self.old.pages }
        requires absent { frame_of self.old.slots.items p ≡ None }
        ensures slots { OnOk result (self.new.slots.items ≡ slice_set self.old.slots.items f (record { number = Some p; since = None })) }
        ensures count { length self.new.slots.items ≡ length self.old.slots.items }
        ensures others { (h : ℕ) → h ≢ f → page_in self.new.slots.items h ≡ page_in self.old.slots.items h }
        ensures wins { self.new.wins ≡ self.old.wins }
        ensures windows { self.new.frames.windows ≡ self.old.frames.windows }
        ensures geometry { geometry_of self.new ≡ geometry_of self.old }
        ensures backed { IsTrue D.told → log.old.area ≢ Home → IsBackedAt (geometry_of self.old) (D.view disk.old) self.old →
            OnTold result (IsBackedAt (geometry_of self.old) (D.view disk.new) self.new) }
        ensures units { IsTrue D.told → log.old.area ≢ Home → IsBackedAt (geometry_of self.old) (D.view disk.old) self.old →
            OnTold result (IsCleaned (geometry_of self.old) (units_at (D.view disk.old) self.old) (units_at (D.view disk.new) self.new)) }
        ensures log { (ds ps : List Numbered) → IsTrue D.told → log.old.area ≢ Home → IsReady ((D.view disk.old).now Home) → Holds (D.view disk.old) log.old ds ps →
            OnTold result (IsSameOrForced (D.view disk.new) log.old log.new ds ps) }
        ensures moments { (ds ps : List Numbered) → IsTrue D.told → log.old.area ≢ Home → IsReady ((D.view disk.old).now Home) → Holds (D.view disk.old) log.old ds ps →
            IsBelow (geometry_of self.old) (tail_of log.old) (units_at (D.view disk.old) self.old) → LeavesOnly (D.view disk.old) (D.view disk.new) (IsMoment (geometry_of self.old) (D.view disk.old) log.old ds ps (lasts self.old) (units_at (D.view disk.old) self.old)) }
        ensures well { IsTrue D.told → log.old.area ≢ Home → IsBackedAt (geometry_of self.old) (D.view disk.old) self.old →
            OnOk result (IsWell ((units_at (D.view disk.old) self.old).page p)) }
        ensures log_kept { (log.new ≡ log.old) ⊎ (log.new ≡ forced log.old) }
        ensures home { IsTrue D.told → log.old.area ≢ Home → IsBackedAt (geometry_of self.old) (D.view disk.old) self.old →
            OnTold result (page_at ((D.view disk.new).now Home).seen (home_at p) ≡ page_at ((D.view disk.old).now Home).seen (home_at p)) }
        ensures untouched { IsTrue D.told → log.old.area ≢ Home → IsBackedAt (geometry_of self.old) (D.view disk.old) self.old →
            OnTold result (IsUntouched (geometry_of self.old) ((D.view disk.old).now Home).seen ((D.view disk.new).now Home).seen (units_at (D.view disk.new) self.new)) }
        ensures spared { IsFrameDurable log.old.gate self.old f → log.new ≡ log.old }
        ensures later { (D.view disk.old).faults ≤ (D.view disk.new).faults }
        ensures heeded { Heeds is_disk result (D.view disk.old) (D.view disk.new) }
        ensures kept { (D.view disk.old).handed ≤ (D.view disk.new).handed }
        ensures grown { HasGrown log.old log.new (D.view disk.old) (D.view disk.new) }
        ensures faults { IfErr result (λ e. BringFails D.told log.old.area p (D.view disk.old) (D.view disk.new) self.old e) }
    {
        self.clean(disk, log, f)?;
        self.load(disk, f, p)
    }

    // Does a record's operation to a frame's page.
    pub(crate) fn change(&mut self, f: u32, lsn: u64, op: &PageOp<'_>, ops: &Ops)
        requires there { f < length self.old.slots.items }
        requires held { (p : ℕ) × (page_in self.old.slots.items f ≡ Some p) }
        ensures slots { let r = on_page (table_of record_meaning range_meaning ops.now) lsn (op_of op.now) in
            self.new.slots.items ≡ slots_after (applies r (get_or self.old.frames.pages f [])) self.old.slots.items f lsn }
        ensures frames { let r = on_page (table_of record_meaning range_meaning ops.now) lsn (op_of op.now) in
            self.new.frames ≡ with_bytes self.old.frames (Page f) (redone r (get_or self.old.frames.pages f [])) }
        ensures wins { self.new.wins ≡ self.old.wins }
        ensures geometry { geometry_of self.new ≡ geometry_of self.old }
    {
        let slot = self.slots[f as usize];
        if !apply_page(self.frames.page_mut(f), lsn, op, ops) {
            return;
        }
        self.slots[f as usize] = slot.changed(lsn);
    }

    // Writes bytes to a window's band, and marks them, as the record of this number does.
    pub(crate) fn write_band(&mut self, w: u32, lsn: u64, at: u32, bytes: &[u8])
        requires there { w < length self.old.wins.slots.items }
        requires held { (b : ℕ) × (page_in self.old.wins.slots.items w ≡ Some b) }
        requires fits { at + length bytes.now ≤ BAND_SIZE }
        ensures wins { self.new.wins.slots.items ≡ slice_set self.old.wins.slots.items w (record { number = page_in self.old.wins.slots.items w; since = Some (unwrap_or (since_of self.old.wins.slots.items (Some w)) lsn) }) }
        ensures last { last_in self.new.wins.marks.items (Some w) ≡ lsn }
        ensures marked { (k : ℕ) → marked_in self.new.wins.marks.items (Some w) k ≡ true ↔ ((marked_in self.old.wins.marks.items (Some w) k ≡ true) ⊎ IsWithin at (length bytes.now) k) }
        ensures marks { (v : ℕ) → v ≢ w → get_or self.new.wins.marks.items v no_marks ≡ get_or self.old.wins.marks.items v no_marks }
        ensures slots { self.new.slots.items ≡ self.old.slots.items }
        ensures geometry { geometry_of self.new ≡ geometry_of self.old }
        ensures frames { self.new.frames ≡ with_bytes self.old.frames (Window w) (overwritten (get_or self.old.frames.windows w []) at bytes.now) }
    {
        self.wins
            .write(self.frames.window_mut(w), w, lsn, at, bytes);
    }

    // Gives the memory back.
    pub(crate) fn end(self) {
        let Shelf {
            pages: _,
            bands: _,
            frames,
            slots,
            index,
            wins,
        } = self;
        drop(slots);
        drop(index);
        drop(wins);
        frames.end();
    }
}
