ghost use Rattle.std.specs.Prelude.{true, false, is_some, ◌≡◌, ◌≢◌, ◌↔◌, ◌⊎◌, ◌≤◌, ◌<◌, ◌+◌, ◌++◌, [], ℕ, List, Some, None, nat_eq, length, get_or, OnOk, OnErr, IfOk, IfErr, IfSome, IfNone, IsTrue, IsSomeAnd};
ghost use Rattle.std.specs.Map.{lookup, set_value};
ghost use Rattle.sg_base.specs.Ends.{HasRisen};
ghost use Rattle.sg_base.specs.Op.{op_of};
ghost use Rattle.sg_base.specs.declared.area.Area.TheVariants.{Home};
ghost use Rattle.sg_base.specs.declared.page.TheConstants.{BAND_SIZE};
ghost use Rattle.sg_disk.specs.Disk.{View, LeavesOnly};
ghost use Rattle.sg_disk.specs.Heeds.{Heeds};
ghost use Rattle.sg_gate.specs.Batch.{IsReady};
ghost use Rattle.sg_gate.specs.Layout.{PAGE, home_at};
ghost use Rattle.sg_gate.specs.Superblock.{IsSuper};
ghost use Rattle.sg_log.specs.Frames.{Numbered};
ghost use Rattle.sg_log.specs.Held.{Holds, tail_of, forced};
ghost use Rattle.sg_ops.specs.Table.{table_of};
ghost use Rattle.sg_redo.specs.Page.{on_page};
ghost use Rattle.sg_pool.specs.Counts.{HasGrown, is_disk};
ghost use Rattle.sg_pool.specs.Changed.{IsCleanedThenChanged, IsCleanedThenWritten};
ghost use Rattle.sg_pool.specs.Frames.{AreLastsKept, HaveGone};
ghost use Rattle.sg_pool.specs.Moments.{IsSameOrForced};
ghost use Rattle.sg_pool.specs.Order.{IsVictim, IsUsed, below, pins_of};
ghost use Rattle.sg_pool.specs.Pools.{IsPool};
ghost use Rattle.sg_pool.specs.Units.{page_at, band_byte};
ghost use Rattle.sg_pool.specs.Untouched.{IsUntouched};
ghost use Rattle.sg_pool.specs.Well.{IsWell};

use crate::PoolFault;
use crate::least::{earlier, oldest_of};
use crate::order::{all_frames, is_pinned, next_out, pin_count, set_pin, touch};
use crate::shelf::Shelf;
use lru::LruCache;
use sg_base::{BandNo, Lsn, PageNo, PageOp};
use sg_disk::Disk;
use sg_gate::Super;
use sg_log::Log;
use sg_ops::Ops;
use std::alloc::Global;
use std::num::NonZeroUsize;

/// Frames of memory that hold pages of a store: the page that is asked for comes into the frame of
/// the least recently used one, which goes home first where it was changed.
///
/// It has to be ended with `end`: it isn't `Drop`. After `PoolFault::Disk` nothing more is known of
/// it, but that its calls return and are safe.
pub struct Pool {
    pub(crate) shelf: Shelf,
    // the frames by their last use, each with whether it is pinned
    order: LruCache<u32, bool>,
    ghost pool: { IsPool shelf.slots.items order.entries },
}

impl Pool {
    ghost use Rattle.std.specs.Borrow.{sem};
    ghost use Rattle.sg_pool.specs.Lending.{IsLent, IsBandLent, IsBrought, IsEmptied, ends_as};
    ghost use Rattle.sg_pool.specs.Pooled.{sizes, contents, frame_holding, window_holding, window_count, next_window, page_held, uses, OthersKeep, Backs, SameContents, IsLogged, IsPoolMoment, IsUnwritten, SameWindows, SameFrames, IsBandBrought, band_held, last_of, band_since_of, OthersKeepLasts};
    ghost use Rattle.sg_pool.specs.Shelves.{OnTold, BringFails, AreLogged, IsFrameDurable, IsWindowDurable};

    /// A pool for a store of this size, with as many frames as its superblock says. No page is in a
    /// frame, and the lower frames are used first.
    ///
    /// `Memory`, where memory is refused, is the only refusal; no other call needs any.
    pub fn new(alloc: Global, geometry: &Super) -> Result<Pool, PoolFault>
        requires { IsSuper geometry.now }
        ensures size { IfOk result (λ pool. sizes pool ≡ record { pages = geometry.now.pages; bands = geometry.now.bands }) }
        ensures empty { IfOk result (λ pool. (f : ℕ) → page_held pool f ≡ None) }
        ensures order { IfOk result (λ pool. uses pool ≡ below geometry.now.frames) }
        // A home area that is ready backs it: it has all of the contents.
        ensures backed { IfOk result (λ pool. (v : View) → IsReady (v.now Home) → Backs (sizes pool) v pool) }
        ensures written { IfOk result (λ pool. (lsn : ℕ) → IsUnwritten pool lsn → ⊥) }
        ensures bands { IfOk result (λ pool. (v : View) (b : ℕ) → (contents v pool).band_since b ≡ None) }
        // As many windows as asked for.
        ensures windows { IfOk result (λ pool. window_count pool ≡ geometry.now.windows) }
        ensures memory { IfErr result (λ e. e ≡ PoolFault.Memory) }
    {
        let cap = NonZeroUsize::new(geometry.frames as usize).unwrap();
        let Ok(order) = all_frames(alloc, cap) else {
            return Err(PoolFault::Memory);
        };
        match Shelf::new(
            alloc,
            geometry.pages,
            geometry.bands,
            geometry.frames,
            geometry.windows,
        ) {
            Ok(shelf) => Ok(Pool { shelf, order }),
            Err(_) => Err(PoolFault::Memory),
        }
    }

    // The frame of a page, which is brought into the victim's where it is in none.
    pub(crate) fn hold<D: Disk>(
        &mut self,
        disk: &mut D,
        log: &mut Log,
        p: u32,
    ) -> Result<u32, PoolFault>
        requires page { p < (sizes self.old).pages }
        ensures held { IfOk result (λ f. frame_holding self.new p ≡ Some f) }
        ensures used { IfOk result (λ f. IsUsed f (uses self.old) (uses self.new)) }
        ensures victim { frame_holding self.old p ≡ None → IfOk result (λ f. IsVictim (uses self.old) f) }
        ensures others { IfOk result (λ f. OthersKeep f self.old self.new) }
        ensures emptied { OnErr result (IsEmptied self.old self.new) }
        ensures size { sizes self.new ≡ sizes self.old }
        ensures backed { IsTrue D.told → log.old.area ≢ Home → Backs (sizes self.old) (D.view disk.old) self.old →
            OnTold result (Backs (sizes self.old) (D.view disk.new) self.new) }
        ensures same { IsTrue D.told → log.old.area ≢ Home → Backs (sizes self.old) (D.view disk.old) self.old →
            OnTold result (SameContents (D.view disk.old) self.old (D.view disk.new) self.new) }
        ensures log_kept { (log.new ≡ log.old) ⊎ (log.new ≡ forced log.old) }
        // A page that is in a frame costs no call.
        ensures hit { frame_holding self.old p ≢ None → (disk.new ≡ disk.old) × (log.new ≡ log.old) }
        // The log is forced only where the victim's page has a change that isn't durable.
        ensures spared { frame_holding self.old p ≡ None → (f : ℕ) × IsVictim (uses self.old) f × (IsFrameDurable log.old.gate self.old.shelf f → log.new ≡ log.old) }
        ensures durable { IsLogged log.old.gate (D.view disk.old) self.old → log.new ≡ log.old }
        ensures untouched { IsTrue D.told → log.old.area ≢ Home → Backs (sizes self.old) (D.view disk.old) self.old →
            OnTold result (IsUntouched (sizes self.old) ((D.view disk.old).now Home).seen ((D.view disk.new).now Home).seen (contents (D.view disk.new) self.new)) }
        ensures home { IsTrue D.told → log.old.area ≢ Home → Backs (sizes self.old) (D.view disk.old) self.old →
            OnTold result (page_at ((D.view disk.new).now Home).seen (home_at p) ≡ page_at ((D.view disk.old).now Home).seen (home_at p)) }
        ensures log { (ds ps : List Numbered) → IsTrue D.told → log.old.area ≢ Home → IsReady ((D.view disk.old).now Home) → Holds (D.view disk.old) log.old ds ps →
            OnTold result (IsSameOrForced (D.view disk.new) log.old log.new ds ps) }
        ensures moments { (ds ps : List Numbered) → IsTrue D.told → log.old.area ≢ Home → IsReady ((D.view disk.old).now Home) → Holds (D.view disk.old) log.old ds ps →
            IsLogged (tail_of log.old) (D.view disk.old) self.old → LeavesOnly (D.view disk.old) (D.view disk.new) (IsPoolMoment (D.view disk.old) self.old log.old ds ps) }
        ensures well { IsTrue D.told → log.old.area ≢ Home → Backs (sizes self.old) (D.view disk.old) self.old → frame_holding self.old p ≡ None →
            OnOk result (IsWell ((contents (D.view disk.old) self.old).page p)) }
        ensures unused { OnErr result (uses self.new ≡ uses self.old) }
        ensures windows { SameWindows self.old self.new }
        ensures later { (D.view disk.old).faults ≤ (D.view disk.new).faults }
        ensures heeded { Heeds is_disk result (D.view disk.old) (D.view disk.new) }
        ensures kept { (D.view disk.old).handed ≤ (D.view disk.new).handed }
        ensures grown { HasGrown log.old log.new (D.view disk.old) (D.view disk.new) }
        ensures faults { IfErr result (λ e. BringFails D.told log.old.area p (D.view disk.old) (D.view disk.new) self.old.shelf e) }
    {
        if let Some(f) = self.shelf.find(p) {
            touch(&mut self.order, f);
            return Ok(f);
        }
        let f = next_out(&self.order);
        self.shelf.bring(disk, log, f, p)?;
        touch(&mut self.order, f);
        Ok(f)
    }

    /// The 4,096 bytes of a page of the store: those that it was given last, whatever was evicted.
    /// The page is in a frame then, which is the most recently used.
    ///
    /// Where the page was in no frame, it comes into the victim's. Whose page goes home first where
    /// it was changed, through the double-write area, and after a force of the log where its last
    /// change isn't durable.
    ///
    /// `Damaged` comes exactly where the home of a page that is in no frame is neither a page of
    /// slots nor all 0. The contents are what they were; the victim's frame is empty then, and the
    /// others keep their pages.
    pub fn page<D: Disk>(
        &mut self,
        disk: &mut D,
        log: &mut Log,
        p: PageNo,
    ) -> Result<&[u8], PoolFault>
        requires page { p.0 < (sizes self.old).pages }
        ensures* ends { sem 𝓛 (ends_as self.entry (IsLent D.told log.old.area (D.view disk.old) (D.view disk.new) p.0 result self.old)) }
        ensures size { IfOk result (λ bytes. length bytes.now ≡ PAGE) }
        // On any disk it is a page of slots, or zeros.
        ensures is_page { IfOk result (λ bytes. IsWell bytes.now) }
        ensures bytes { IsTrue D.told → log.old.area ≢ Home → Backs (sizes self.old) (D.view disk.old) self.old →
            IfOk result (λ bytes. bytes.now ≡ (contents (D.view disk.old) self.old).page p.0) }
        ensures log_kept { (log.new ≡ log.old) ⊎ (log.new ≡ forced log.old) }
        // A page that is in a frame costs no call.
        ensures hit { frame_holding self.old p.0 ≢ None → (disk.new ≡ disk.old) × (log.new ≡ log.old) }
        // The log is forced only where the victim's page has a change that isn't durable.
        ensures spared { frame_holding self.old p.0 ≡ None → (f : ℕ) × IsVictim (uses self.old) f × (IsFrameDurable log.old.gate self.old.shelf f → log.new ≡ log.old) }
        ensures durable { IsLogged log.old.gate (D.view disk.old) self.old → log.new ≡ log.old }
        ensures log { (ds ps : List Numbered) → IsTrue D.told → log.old.area ≢ Home → IsReady ((D.view disk.old).now Home) → Holds (D.view disk.old) log.old ds ps →
            OnTold result (IsSameOrForced (D.view disk.new) log.old log.new ds ps) }
        // At each moment, faults included.
        ensures moments { (ds ps : List Numbered) → IsTrue D.told → log.old.area ≢ Home → IsReady ((D.view disk.old).now Home) → Holds (D.view disk.old) log.old ds ps →
            IsLogged (tail_of log.old) (D.view disk.old) self.old → LeavesOnly (D.view disk.old) (D.view disk.new) (IsPoolMoment (D.view disk.old) self.old log.old ds ps) }
        // Where the page was in no frame, `Ok` says that it is a page of slots or all 0, and `Damaged` that it is neither.
        ensures well { IsTrue D.told → log.old.area ≢ Home → Backs (sizes self.old) (D.view disk.old) self.old → frame_holding self.old p.0 ≡ None →
            OnOk result (IsWell ((contents (D.view disk.old) self.old).page p.0)) }
        ensures faults { IfErr result (λ e. BringFails D.told log.old.area p.0 (D.view disk.old) (D.view disk.new) self.old.shelf e) }
        ensures later { (D.view disk.old).faults ≤ (D.view disk.new).faults }
        ensures heeded { Heeds is_disk result (D.view disk.old) (D.view disk.new) }
        ensures kept { (D.view disk.old).handed ≤ (D.view disk.new).handed }
        ensures grown { HasGrown log.old log.new (D.view disk.old) (D.view disk.new) }
    {
        let f = self.hold(disk, log, p.0)?;
        Ok(self.shelf.frames.page(f))
    }

    /// The 4,096 bytes of a page that is in a frame, as `page` lent them: whatever the disk has.
    pub fn held(&self, p: PageNo) -> &[u8]
        requires page { p.0 < (sizes self.now).pages }
        requires held { IsTrue (is_some (frame_holding self.now p.0)) }
        ensures size { length result.now ≡ PAGE }
        ensures is_page { IsWell result.now }
        ensures bytes { (v : View) → result.now ≡ (contents v self.now).page p.0 }
    {
        match self.shelf.find(p.0) {
            Some(f) => self.shelf.frames.page(f),
            None => unreachable!(),
        }
    }

    /// Does the operation of the record `lsn` to a page, where the page's number is smaller and the
    /// operation fits. The page stays changed in its frame until it goes home. The record has been
    /// appended to the log.
    ///
    /// The page comes into a frame as by `page`, with the same refusals.
    pub fn change_page<D: Disk>(
        &mut self,
        disk: &mut D,
        log: &mut Log,
        p: PageNo,
        lsn: Lsn,
        op: &PageOp<'_>,
        ops: &Ops,
    ) -> Result<(), PoolFault>
        requires page { p.0 < (sizes self.old).pages }
        ensures brought { IfOk result (λ _. (f : ℕ) × IsBrought p.0 self.old self.new f) }
        // No frame but the victim's has lost its page.
        ensures emptied { OnErr result (IsEmptied self.old self.new) }
        ensures unused { OnErr result (uses self.new ≡ uses self.old) }
        ensures windows { SameWindows self.old self.new }
        ensures size { sizes self.new ≡ sizes self.old }
        ensures backed { IsTrue D.told → log.old.area ≢ Home → Backs (sizes self.old) (D.view disk.old) self.old →
            OnTold result (Backs (sizes self.old) (D.view disk.new) self.new) }
        ensures changed { IsTrue D.told → log.old.area ≢ Home → Backs (sizes self.old) (D.view disk.old) self.old →
            OnOk result (IsCleanedThenChanged (sizes self.old) ((D.view disk.new).now Home) p.0 (on_page (table_of record_meaning range_meaning ops.now) lsn (op_of op.now)) (contents (D.view disk.old) self.old) (contents (D.view disk.new) self.new)) }
        ensures refused { IsTrue D.told → log.old.area ≢ Home → Backs (sizes self.old) (D.view disk.old) self.old →
            OnErr result (OnTold result (SameContents (D.view disk.old) self.old (D.view disk.new) self.new)) }
        ensures log_kept { (log.new ≡ log.old) ⊎ (log.new ≡ forced log.old) }
        // A page that is in a frame costs no call.
        ensures hit { frame_holding self.old p.0 ≢ None → (disk.new ≡ disk.old) × (log.new ≡ log.old) }
        // The log is forced only where the victim's page has a change that isn't durable.
        ensures spared { frame_holding self.old p.0 ≡ None → (f : ℕ) × IsVictim (uses self.old) f × (IsFrameDurable log.old.gate self.old.shelf f → log.new ≡ log.old) }
        ensures durable { IsLogged log.old.gate (D.view disk.old) self.old → log.new ≡ log.old }
        // The home area is touched only where a unit went home.
        ensures untouched { IsTrue D.told → log.old.area ≢ Home → Backs (sizes self.old) (D.view disk.old) self.old →
            OnTold result (IsUntouched (sizes self.old) ((D.view disk.old).now Home).seen ((D.view disk.new).now Home).seen (contents (D.view disk.new) self.new)) }
        ensures log { (ds ps : List Numbered) → IsTrue D.told → log.old.area ≢ Home → IsReady ((D.view disk.old).now Home) → Holds (D.view disk.old) log.old ds ps →
            OnTold result (IsSameOrForced (D.view disk.new) log.old log.new ds ps) }
        // At each moment, faults included.
        ensures moments { (ds ps : List Numbered) → IsTrue D.told → log.old.area ≢ Home → IsReady ((D.view disk.old).now Home) → Holds (D.view disk.old) log.old ds ps →
            IsLogged (tail_of log.old) (D.view disk.old) self.old → LeavesOnly (D.view disk.old) (D.view disk.new) (IsPoolMoment (D.view disk.old) self.old log.old ds ps) }
        // Where the page was in no frame, `Ok` says that it is a page of slots or all 0, and `Damaged` that it is neither.
        ensures well { IsTrue D.told → log.old.area ≢ Home → Backs (sizes self.old) (D.view disk.old) self.old → frame_holding self.old p.0 ≡ None →
            OnOk result (IsWell ((contents (D.view disk.old) self.old).page p.0)) }
        ensures faults { IfErr result (λ e. BringFails D.told log.old.area p.0 (D.view disk.old) (D.view disk.new) self.old.shelf e) }
        ensures later { (D.view disk.old).faults ≤ (D.view disk.new).faults }
        ensures heeded { Heeds is_disk result (D.view disk.old) (D.view disk.new) }
        ensures kept { (D.view disk.old).handed ≤ (D.view disk.new).handed }
        ensures grown { HasGrown log.old log.new (D.view disk.old) (D.view disk.new) }
    {
        let f = self.hold(disk, log, p.0)?;
        self.shelf.change(f, lsn, op, ops);
        Ok(())
    }

    // The window of a band, which is brought into the next one where it is in none.
    pub(crate) fn hold_band<D: Disk>(
        &mut self,
        disk: &mut D,
        log: &mut Log,
        b: u32,
    ) -> Result<u32, PoolFault>
        requires band { b < (sizes self.old).bands }
        ensures brought { IfOk result (λ w. IsBandBrought b self.old self.new w) }
        ensures bytes { IsTrue D.told → log.old.area ≢ Home → Backs (sizes self.old) (D.view disk.old) self.old →
            IfOk result (λ w. (i : ℕ) → i < BAND_SIZE → get_or (get_or self.new.shelf.frames.windows w []) i 0 ≡ (contents (D.view disk.old) self.old).byte b i) }
        ensures whole { IfOk result (λ w. length (get_or self.new.shelf.frames.windows w []) ≡ BAND_SIZE) }
        ensures frames { SameFrames self.old self.new }
        ensures lasts { AreLastsKept self.old.shelf.wins self.new.shelf.wins }
        ensures gone { AreLogged (tail_of log.old) self.old.shelf → OnOk result (HaveGone log.new.gate self.old.shelf.wins self.new.shelf.wins) }
        ensures own { OnOk result (band_since_of self.new b ≡ band_since_of self.old b) }
        ensures size { sizes self.new ≡ sizes self.old }
        ensures backed { IsTrue D.told → log.old.area ≢ Home → Backs (sizes self.old) (D.view disk.old) self.old →
            OnTold result (Backs (sizes self.old) (D.view disk.new) self.new) }
        ensures same { IsTrue D.told → log.old.area ≢ Home → Backs (sizes self.old) (D.view disk.old) self.old →
            OnTold result (SameContents (D.view disk.old) self.old (D.view disk.new) self.new) }
        ensures log_kept { (log.new ≡ log.old) ⊎ (log.new ≡ forced log.old) }
        // A band that is in a window costs no call.
        ensures hit { window_holding self.old b ≢ None → (disk.new ≡ disk.old) × (log.new ≡ log.old) }
        // The log is forced only where the band that makes room has a change that isn't durable.
        ensures spared { window_holding self.old b ≡ None → IsWindowDurable log.old.gate self.old.shelf (next_window self.old) → log.new ≡ log.old }
        ensures durable { AreLogged log.old.gate self.old.shelf → log.new ≡ log.old }
        ensures turn { window_holding self.old b ≡ None → OnOk result (window_holding self.new b ≡ Some (next_window self.old)) }
        ensures count { window_count self.new ≡ window_count self.old }
        ensures untouched { IsTrue D.told → log.old.area ≢ Home → Backs (sizes self.old) (D.view disk.old) self.old →
            OnTold result (IsUntouched (sizes self.old) ((D.view disk.old).now Home).seen ((D.view disk.new).now Home).seen (contents (D.view disk.new) self.new)) }
        ensures home { IsTrue D.told → log.old.area ≢ Home → Backs (sizes self.old) (D.view disk.old) self.old →
            OnOk result ((i : ℕ) → i < BAND_SIZE → ((D.view disk.new).now Home).seen (band_byte (sizes self.old) b i) ≡ ((D.view disk.old).now Home).seen (band_byte (sizes self.old) b i)) }
        ensures log { (ds ps : List Numbered) → IsTrue D.told → log.old.area ≢ Home → Holds (D.view disk.old) log.old ds ps → OnTold result (IsSameOrForced (D.view disk.new) log.old log.new ds ps) }
        ensures moments { (ds ps : List Numbered) → IsTrue D.told → log.old.area ≢ Home → IsReady ((D.view disk.old).now Home) → Holds (D.view disk.old) log.old ds ps →
            IsLogged (tail_of log.old) (D.view disk.old) self.old → LeavesOnly (D.view disk.old) (D.view disk.new) (IsPoolMoment (D.view disk.old) self.old log.old ds ps) }
        ensures fault { IfErr result (λ e. e ≡ PoolFault.Disk) }
        ensures failed { OnErr result (HasRisen (D.view disk.old).faults (D.view disk.new).faults) }
        ensures later { (D.view disk.old).faults ≤ (D.view disk.new).faults }
        ensures heeded { Heeds is_disk result (D.view disk.old) (D.view disk.new) }
        ensures kept { (D.view disk.old).handed ≤ (D.view disk.new).handed }
        ensures grown { HasGrown log.old log.new (D.view disk.old) (D.view disk.new) }
    {
        if let Some(w) = self.shelf.wins.find(b) {
            return Ok(w);
        }
        let w = self.shelf.wins.next;
        self.shelf.bring_band(disk, log, w, b)?;
        Ok(w)
    }

    /// The 32,768 bytes of a band of the store: those that it was given last, whatever was evicted.
    /// The band is in a window then.
    ///
    /// Where the band was in no window, it comes into one, in turn. Whose band goes home first where
    /// it was changed: exactly the bytes that were written, after a force of the log where its last
    /// change isn't durable, and with a sync behind. The page frames stay as they are.
    pub fn band<D: Disk>(
        &mut self,
        disk: &mut D,
        log: &mut Log,
        b: BandNo,
    ) -> Result<&[u8], PoolFault>
        requires band { b.0 < (sizes self.old).bands }
        ensures* ends { sem 𝓛 (ends_as self.entry (IsBandLent D.told log.old log.new (D.view disk.old) (D.view disk.new) b.0 result self.old)) }
        ensures size { IfOk result (λ bytes. length bytes.now ≡ BAND_SIZE) }
        ensures bytes { IsTrue D.told → log.old.area ≢ Home → Backs (sizes self.old) (D.view disk.old) self.old →
            IfOk result (λ bytes. (i : ℕ) → i < BAND_SIZE → get_or bytes.now i 0 ≡ (contents (D.view disk.old) self.old).byte b.0 i) }
        ensures log_kept { (log.new ≡ log.old) ⊎ (log.new ≡ forced log.old) }
        // A band that is in a window costs no call.
        ensures hit { window_holding self.old b.0 ≢ None → (disk.new ≡ disk.old) × (log.new ≡ log.old) }
        // The log is forced only where the band that makes room has a change that isn't durable.
        ensures spared { window_holding self.old b.0 ≡ None → IsWindowDurable log.old.gate self.old.shelf (next_window self.old) → log.new ≡ log.old }
        ensures durable { AreLogged log.old.gate self.old.shelf → log.new ≡ log.old }
        ensures log { (ds ps : List Numbered) → IsTrue D.told → log.old.area ≢ Home → Holds (D.view disk.old) log.old ds ps → OnTold result (IsSameOrForced (D.view disk.new) log.old log.new ds ps) }
        // At each moment, faults included.
        ensures moments { (ds ps : List Numbered) → IsTrue D.told → log.old.area ≢ Home → IsReady ((D.view disk.old).now Home) → Holds (D.view disk.old) log.old ds ps →
            IsLogged (tail_of log.old) (D.view disk.old) self.old → LeavesOnly (D.view disk.old) (D.view disk.new) (IsPoolMoment (D.view disk.old) self.old log.old ds ps) }
        ensures fault { IfErr result (λ e. e ≡ PoolFault.Disk) }
        ensures failed { OnErr result (HasRisen (D.view disk.old).faults (D.view disk.new).faults) }
        ensures later { (D.view disk.old).faults ≤ (D.view disk.new).faults }
        ensures heeded { Heeds is_disk result (D.view disk.old) (D.view disk.new) }
        ensures kept { (D.view disk.old).handed ≤ (D.view disk.new).handed }
        ensures grown { HasGrown log.old log.new (D.view disk.old) (D.view disk.new) }
    {
        let w = self.hold_band(disk, log, b.0)?;
        Ok(self.shelf.frames.window(w))
    }

    /// The 32,768 bytes of a band that is in a window, as `band` lent them.
    pub fn held_band(&self, b: BandNo) -> &[u8]
        requires band { b.0 < (sizes self.now).bands }
        requires held { IsTrue (is_some (window_holding self.now b.0)) }
        ensures size { length result.now ≡ BAND_SIZE }
        ensures bytes { (v : View) (i : ℕ) → i < BAND_SIZE → get_or result.now i 0 ≡ (contents v self.now).byte b.0 i }
    {
        match self.shelf.wins.find(b.0) {
            Some(w) => self.shelf.frames.window(w),
            None => unreachable!(),
        }
    }

    /// Writes bytes to a band from byte `at` on, as the record `lsn` does. They stay in the band's
    /// window until it goes home. The record has been appended to the log.
    ///
    /// The band comes into a window as by `band`, with the same refusal.
    pub fn change_band<D: Disk>(
        &mut self,
        disk: &mut D,
        log: &mut Log,
        b: BandNo,
        lsn: Lsn,
        at: u32,
        bytes: &[u8],
    ) -> Result<(), PoolFault>
        requires band { b.0 < (sizes self.old).bands }
        requires fits { at + length bytes.now ≤ BAND_SIZE }
        ensures brought { IfOk result (λ _. (w : ℕ) × IsBandBrought b.0 self.old self.new w) }
        ensures frames { SameFrames self.old self.new }
        // Where the record is in the log, the last change of each band is.
        ensures logged { (tail : ℕ) → AreLogged tail self.old.shelf → lsn < tail → AreLogged tail self.new.shelf }
        ensures size { sizes self.new ≡ sizes self.old }
        ensures backed { IsTrue D.told → log.old.area ≢ Home → Backs (sizes self.old) (D.view disk.old) self.old →
            OnOk result (Backs (sizes self.old) (D.view disk.new) self.new) }
        ensures changed { IsTrue D.told → log.old.area ≢ Home → Backs (sizes self.old) (D.view disk.old) self.old →
            OnOk result (IsCleanedThenWritten (sizes self.old) ((D.view disk.new).now Home) b.0 lsn at bytes.now (contents (D.view disk.old) self.old) (contents (D.view disk.new) self.new)) }
        ensures last { OnOk result (last_of self.new b.0 ≡ lsn) }
        // No other band that has a change that isn't on the disk has another last one than before.
        ensures lasts { OthersKeepLasts b.0 self.old self.new }
        // The last change of a band that went home is durable.
        ensures gone { AreLogged (tail_of log.old) self.old.shelf → OnOk result (HaveGone log.new.gate self.old.shelf.wins self.new.shelf.wins) }
        ensures log_kept { (log.new ≡ log.old) ⊎ (log.new ≡ forced log.old) }
        // A band that is in a window costs no call.
        ensures hit { window_holding self.old b.0 ≢ None → (disk.new ≡ disk.old) × (log.new ≡ log.old) }
        // The log is forced only where the band that makes room has a change that isn't durable.
        ensures spared { window_holding self.old b.0 ≡ None → IsWindowDurable log.old.gate self.old.shelf (next_window self.old) → log.new ≡ log.old }
        ensures durable { AreLogged log.old.gate self.old.shelf → log.new ≡ log.old }
        // Bands come into the windows in turn.
        ensures turn { window_holding self.old b.0 ≡ None → OnOk result (window_holding self.new b.0 ≡ Some (next_window self.old)) }
        ensures count { window_count self.new ≡ window_count self.old }
        // The home area is touched only where a unit went home.
        ensures untouched { IsTrue D.told → log.old.area ≢ Home → Backs (sizes self.old) (D.view disk.old) self.old →
            OnOk result (IsUntouched (sizes self.old) ((D.view disk.old).now Home).seen ((D.view disk.new).now Home).seen (contents (D.view disk.new) self.new)) }
        ensures log { (ds ps : List Numbered) → IsTrue D.told → log.old.area ≢ Home → Holds (D.view disk.old) log.old ds ps → OnTold result (IsSameOrForced (D.view disk.new) log.old log.new ds ps) }
        // At each moment, faults included.
        ensures moments { (ds ps : List Numbered) → IsTrue D.told → log.old.area ≢ Home → IsReady ((D.view disk.old).now Home) → Holds (D.view disk.old) log.old ds ps →
            IsLogged (tail_of log.old) (D.view disk.old) self.old → LeavesOnly (D.view disk.old) (D.view disk.new) (IsPoolMoment (D.view disk.old) self.old log.old ds ps) }
        ensures fault { IfErr result (λ e. e ≡ PoolFault.Disk) }
        ensures failed { OnErr result (HasRisen (D.view disk.old).faults (D.view disk.new).faults) }
        ensures later { (D.view disk.old).faults ≤ (D.view disk.new).faults }
        ensures heeded { Heeds is_disk result (D.view disk.old) (D.view disk.new) }
        ensures kept { (D.view disk.old).handed ≤ (D.view disk.new).handed }
        ensures grown { HasGrown log.old log.new (D.view disk.old) (D.view disk.new) }
    {
        let w = self.hold_band(disk, log, b.0)?;
        self.shelf.write_band(w, lsn, at, bytes);
        Ok(())
    }

    /// Makes the log durable and writes each changed page home, up to 32 of them at once, and then
    /// each changed band, with one sync behind all of them. They stay in their frames and windows.
    pub fn flush<D: Disk>(&mut self, disk: &mut D, log: &mut Log) -> Result<(), PoolFault>
        ensures order { uses self.new ≡ uses self.old }
        ensures frames { (f : ℕ) → page_held self.new f ≡ page_held self.old f }
        ensures windows { (w : ℕ) → band_held self.new w ≡ band_held self.old w }
        ensures logged { (tail : ℕ) → AreLogged tail self.old.shelf → AreLogged tail self.new.shelf }
        ensures size { sizes self.new ≡ sizes self.old }
        ensures written { OnOk result ((lsn : ℕ) → IsUnwritten self.new lsn → ⊥) }
        ensures backed { IsTrue D.told → log.old.area ≢ Home → Backs (sizes self.old) (D.view disk.old) self.old →
            OnOk result (Backs (sizes self.old) (D.view disk.new) self.new) }
        ensures same { IsTrue D.told → log.old.area ≢ Home → Backs (sizes self.old) (D.view disk.old) self.old →
            OnOk result (SameContents (D.view disk.old) self.old (D.view disk.new) self.new) }
        ensures log { OnOk result (log.new ≡ forced log.old) }
        ensures count { window_count self.new ≡ window_count self.old }
        // The home area is touched only where a unit went home.
        ensures untouched { IsTrue D.told → log.old.area ≢ Home → Backs (sizes self.old) (D.view disk.old) self.old →
            OnOk result (IsUntouched (sizes self.old) ((D.view disk.old).now Home).seen ((D.view disk.new).now Home).seen (contents (D.view disk.new) self.new)) }
        ensures holds { (ds ps : List Numbered) → IsTrue D.told → log.old.area ≢ Home → IsReady ((D.view disk.old).now Home) → Holds (D.view disk.old) log.old ds ps →
            OnOk result (Holds (D.view disk.new) log.new (ds ++ ps) []) }
        // At each moment, faults included.
        ensures moments { (ds ps : List Numbered) → IsTrue D.told → log.old.area ≢ Home → Backs (sizes self.old) (D.view disk.old) self.old → Holds (D.view disk.old) log.old ds ps →
            IsLogged (tail_of log.old) (D.view disk.old) self.old → LeavesOnly (D.view disk.old) (D.view disk.new) (IsPoolMoment (D.view disk.old) self.old log.old ds ps) }
        ensures faults { IfErr result (λ e. e ≡ PoolFault.Disk) }
        ensures failed { OnErr result (HasRisen (D.view disk.old).faults (D.view disk.new).faults) }
        ensures later { (D.view disk.old).faults ≤ (D.view disk.new).faults }
        ensures heeded { Heeds is_disk result (D.view disk.old) (D.view disk.new) }
        ensures kept { (D.view disk.old).handed ≤ (D.view disk.new).handed }
        ensures grown { HasGrown log.old log.new (D.view disk.old) (D.view disk.new) }
    {
        self.shelf.flush(disk, log)
    }

    /// How many pages its store has.
    pub fn pages(&self) -> u32
        ensures { result ≡ (sizes self.now).pages }
    {
        self.shelf.pages
    }

    /// How many bands its store has.
    pub fn bands(&self) -> u32
        ensures { result ≡ (sizes self.now).bands }
    {
        self.shelf.bands
    }

    /// Whether `pin` may be called: the page is in a frame, and it is pinned already, or fewer than 6
    /// are pinned. It looks at each frame.
    pub fn can_pin(&self, p: PageNo) -> bool
        requires page { p.0 < (sizes self.now).pages }
        ensures { IsTrue result ↔ IsSomeAnd (frame_holding self.now p.0) (λ f. (lookup (nat_eq f) (uses self.now) ≡ Some true) ⊎ (pins_of (uses self.now) < 6)) }
    {
        match self.shelf.find(p.0) {
            Some(f) => is_pinned(&self.order, f) || pin_count(&self.order) < 6,
            None => false,
        }
    }

    /// Keeps a page's frame from being the victim. The page is in a frame, and it is pinned already, or
    /// fewer than 6 are pinned.
    pub fn pin(&mut self, p: PageNo)
        requires page { p.0 < (sizes self.old).pages }
        requires held { IsTrue (is_some (frame_holding self.old p.0)) }
        requires room { (f : ℕ) → frame_holding self.old p.0 ≡ Some f → (lookup (nat_eq f) (uses self.old) ≡ Some true) ⊎ (pins_of (uses self.old) < 6) }
        ensures shelf { self.new.shelf ≡ self.old.shelf }
        ensures order { IfSome (frame_holding self.old p.0) (λ f. uses self.new ≡ set_value (nat_eq f) (uses self.old) true) }
    {
        if let Some(f) = self.shelf.find(p.0) {
            set_pin(&mut self.order, f, true);
        }
    }

    /// Lets a page's frame be the victim again. A page that is in no frame is left as it is.
    pub fn unpin(&mut self, p: PageNo)
        requires page { p.0 < (sizes self.old).pages }
        ensures shelf { self.new.shelf ≡ self.old.shelf }
        ensures order { IfSome (frame_holding self.old p.0) (λ f. uses self.new ≡ set_value (nat_eq f) (uses self.old) false) }
        ensures absent { frame_holding self.old p.0 ≡ None → uses self.new ≡ uses self.old }
    {
        if let Some(f) = self.shelf.find(p.0) {
            set_pin(&mut self.order, f, false);
        }
    }

    /// The number of the oldest change of a page or band that isn't on the disk: no write of it home
    /// with a sync behind it has followed that change. `None` exactly where there is none.
    pub fn oldest(&self) -> Option<Lsn>
        ensures none { IfNone result ((lsn : ℕ) → IsUnwritten self.now lsn → ⊥) }
        ensures least { IfSome result (λ oldest. (lsn : ℕ) → IsUnwritten self.now lsn → oldest ≤ lsn) }
        ensures some { IfSome result (λ oldest. IsUnwritten self.now oldest) }
    {
        earlier(
            oldest_of(&self.shelf.slots),
            oldest_of(&self.shelf.wins.slots),
        )
    }

    /// The frame into which the next page comes that is in none: the least recently used that isn't
    /// pinned.
    pub fn victim(&self) -> u32
        ensures { IsVictim (uses self.now) result }
    {
        next_out(&self.order)
    }

    /// Gives the memory back.
    pub fn end(self) {
        let Pool { shelf, order } = self;
        drop(order);
        shelf.end();
    }
}
