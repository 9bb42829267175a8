ghost use Rattle.std.specs.Prelude.{◌⊎◌, ◌≡◌, ◌≤◌, ◌<◌, ◌+◌, ◌++◌, ◌∷◌, ℕ, List, [], IsTrue, true, Vec, length, take, drop, IfOk, IsErr, OnOk, OnErr};
ghost use Rattle.std.specs.declared.alloc.Global.{Global};
ghost use Rattle.sg_disk.specs.Disk.{END, put, cut, window, Spoils, Leaves, LeavesPart};
ghost use Rattle.sg_base.specs.Ends.{HasRisen};
ghost use Rattle.sg_disk.specs.Areas.{three};
ghost use Rattle.sg_disk.specs.declared.record.Call.{Call};
ghost use Rattle.sg_base.specs.declared.area.Area.{Area};
ghost use Rattle.sg_base.specs.declared.area.Area.TheVariants.{Home, Log0, Log1};
ghost use Rattle.sg_disk.specs.Memory.{pending_of, bytes_of, image_of, memory_view};
ghost use Rattle.sg_disk.specs.Due.{due_in, with_left};

use crate::crash::crash_all;
use crate::due::Due;
use crate::{Area, Call, CallKind, Disk, Failed};
use std::alloc::{AllocError, Global};
use std::collections::LinkedList;

/// A disk in memory, which tells what it contains. It keeps its calls, so that its past and what is
/// pending are data. A growth of memory that is refused is a fault.
#[derive(Drop)]
pub struct MemDisk {
    alloc: Global,
    home: Vec<u8>,
    log0: Vec<u8>,
    log1: Vec<u8>,
    // the latest first
    calls: LinkedList<Call>,
    count: u64,
    handed: u64,
    faults: u64,
    due: Due,
    ghost home_bytes: { (i : ℕ) → bytes_of home.items i < 256 },
    ghost log0_bytes: { (i : ℕ) → bytes_of log0.items i < 256 },
    ghost log1_bytes: { (i : ℕ) → bytes_of log1.items i < 256 },
}

/// Makes room for a write. What a read gives stays.
pub fn grow(bytes: &mut Vec<u8>, to: usize) -> Result<(), AllocError>
    ensures same { (i : ℕ) → bytes_of bytes.new.items i ≡ bytes_of bytes.old.items i }
    ensures room { OnOk result (to ≤ length bytes.new.items) }
{
    if bytes.len() < to {
        bytes.resize(to, 0)?;
    }
    Ok(())
}

fn overwrite(bytes: &mut Vec<u8>, at: usize, new: &[u8])
    requires { at + length new.now ≤ length bytes.old.items }
    ensures { bytes.new.items ≡ take at bytes.old.items ++ new.now ++ drop (at + length new.now) bytes.old.items }
{
    bytes[at..at + new.len()].copy_from_slice(new);
}

// Writes, and records what stood there.
fn try_write(
    alloc: Global,
    bytes: &mut Vec<u8>,
    calls: &mut LinkedList<Call>,
    area: Area,
    at: u64,
    new: &[u8],
) -> Result<(), AllocError>
    requires { at + length new.now ≤ END }
    ensures bytes { OnOk result ((i : ℕ) → bytes_of bytes.new.items i ≡ put at new.now (bytes_of bytes.old.items) i) }
    ensures recorded { OnOk result ((old : Vec ℕ Global) × (calls.new ≡ Call.Write area at (length new.now) old ∷ calls.old)
        × ((i : ℕ) → put at old.items (bytes_of bytes.new.items) i ≡ bytes_of bytes.old.items i)) }
    ensures bytes_err { OnErr result ((i : ℕ) → bytes_of bytes.new.items i ≡ bytes_of bytes.old.items i) }
    ensures calls_err { OnErr result (calls.new ≡ calls.old) }
{
    let from = at as usize;
    let to = from + new.len();
    grow(bytes, to)?;
    let old = bytes[from..to].to_vec(alloc)?;
    calls.push_front(Call::Write {
        area,
        at,
        len: new.len() as u64,
        old,
    })?;
    overwrite(bytes, from, new);
    Ok(())
}

// The same, where a refusal for memory is a fault.
fn write_part(
    alloc: Global,
    bytes: &mut Vec<u8>,
    calls: &mut LinkedList<Call>,
    faults: &mut u64,
    area: Area,
    at: u64,
    new: &[u8],
) -> Result<(), Failed>
    requires { at + length new.now ≤ END }
    ensures bytes { OnOk result ((i : ℕ) → bytes_of bytes.new.items i ≡ put at new.now (bytes_of bytes.old.items) i) }
    ensures recorded { OnOk result ((old : Vec ℕ Global) × (calls.new ≡ Call.Write area at (length new.now) old ∷ calls.old)
        × ((i : ℕ) → put at old.items (bytes_of bytes.new.items) i ≡ bytes_of bytes.old.items i)) }
    ensures bytes_err { OnErr result ((i : ℕ) → bytes_of bytes.new.items i ≡ bytes_of bytes.old.items i) }
    ensures calls_err { OnErr result (calls.new ≡ calls.old) }
    ensures fit { (i : ℕ) → bytes_of bytes.new.items i < 256 }
    ensures quiet { OnOk result (faults.new ≡ faults.old) }
    ensures fault { OnErr result (HasRisen faults.old faults.new) }
    ensures later { faults.old ≤ faults.new }
{
    match try_write(alloc, bytes, calls, area, at, new) {
        Ok(()) => Ok(()),
        Err(_) => {
            *faults = faults.saturating_add(1);
            Err(Failed)
        }
    }
}

// What stands behind a place.
fn rest_of(alloc: Global, bytes: &[u8], at: u64) -> Result<Vec<u8>, AllocError>
    ensures { IfOk result (λ v. v.items ≡ drop at bytes.now) }
{
    if at < bytes.len() as u64 {
        bytes[at as usize..].to_vec(alloc)
    } else {
        Ok(Vec::new(alloc))
    }
}

fn cut_at(bytes: &mut Vec<u8>, at: u64)
    ensures { bytes.new.items ≡ take at bytes.old.items }
{
    if at < bytes.len() as u64 {
        bytes.truncate(at as usize);
    }
}

fn try_drop(
    alloc: Global,
    bytes: &mut Vec<u8>,
    calls: &mut LinkedList<Call>,
    area: Area,
    at: u64,
) -> Result<(), AllocError>
    ensures bytes { OnOk result ((i : ℕ) → bytes_of bytes.new.items i ≡ cut at (bytes_of bytes.old.items) i) }
    ensures recorded { OnOk result ((old : Vec ℕ Global) × (calls.new ≡ Call.Drop area at old ∷ calls.old)
        × ((i : ℕ) → put at old.items (bytes_of bytes.new.items) i ≡ bytes_of bytes.old.items i)) }
    ensures bytes_err { OnErr result ((i : ℕ) → bytes_of bytes.new.items i ≡ bytes_of bytes.old.items i) }
    ensures calls_err { OnErr result (calls.new ≡ calls.old) }
{
    let old = rest_of(alloc, bytes, at)?;
    calls.push_front(Call::Drop { area, at, old })?;
    cut_at(bytes, at);
    Ok(())
}

fn drop_part(
    alloc: Global,
    bytes: &mut Vec<u8>,
    calls: &mut LinkedList<Call>,
    faults: &mut u64,
    area: Area,
    at: u64,
) -> Result<(), Failed>
    ensures bytes { OnOk result ((i : ℕ) → bytes_of bytes.new.items i ≡ cut at (bytes_of bytes.old.items) i) }
    ensures recorded { OnOk result ((old : Vec ℕ Global) × (calls.new ≡ Call.Drop area at old ∷ calls.old)
        × ((i : ℕ) → put at old.items (bytes_of bytes.new.items) i ≡ bytes_of bytes.old.items i)) }
    ensures bytes_err { OnErr result ((i : ℕ) → bytes_of bytes.new.items i ≡ bytes_of bytes.old.items i) }
    ensures calls_err { OnErr result (calls.new ≡ calls.old) }
    ensures fit { (i : ℕ) → bytes_of bytes.new.items i < 256 }
    ensures quiet { OnOk result (faults.new ≡ faults.old) }
    ensures fault { OnErr result (HasRisen faults.old faults.new) }
    ensures later { faults.old ≤ faults.new }
{
    match try_drop(alloc, bytes, calls, area, at) {
        Ok(()) => Ok(()),
        Err(_) => {
            *faults = faults.saturating_add(1);
            Err(Failed)
        }
    }
}

// Records a sync.
fn sync_part(calls: &mut LinkedList<Call>, faults: &mut u64, area: Area) -> Result<(), Failed>
    ensures recorded { OnOk result (calls.new ≡ Call.Sync area ∷ calls.old) }
    ensures calls_err { OnErr result (calls.new ≡ calls.old) }
    ensures quiet { OnOk result (faults.new ≡ faults.old) }
    ensures fault { OnErr result (HasRisen faults.old faults.new) }
    ensures later { faults.old ≤ faults.new }
{
    match calls.push_front(Call::Sync { area }) {
        Ok(()) => Ok(()),
        Err(_) => {
            *faults = faults.saturating_add(1);
            Err(Failed)
        }
    }
}

// Reads, with 0 past the end.
fn read_part(bytes: &[u8], at: u64, into: &mut [u8])
    requires { at + length into.old ≤ END }
    ensures { into.new ≡ window (bytes_of bytes.now) at (length into.old) }
{
    for i in 0..into.len() {
        let from = at as usize + i;
        into[i] = if from < bytes.len() { bytes[from] } else { 0 };
    }
}

// A write that fails: its range is pending, unless there is no memory to record it.
fn failed_write(
    alloc: Global,
    calls: &mut LinkedList<Call>,
    faults: &mut u64,
    area: Area,
    at: u64,
    len: u64,
) -> Result<(), Failed>
    ensures recorded { ((old : Vec ℕ Global) × (old.items ≡ []) × (calls.new ≡ Call.Write area at len old ∷ calls.old)) ⊎ (calls.new ≡ calls.old) }
    ensures result { IsErr result }
    ensures fault { HasRisen faults.old faults.new }
    ensures later { faults.old ≤ faults.new }
{
    *faults = faults.saturating_add(1);
    let _ = calls.push_front(Call::Write {
        area,
        at,
        len,
        old: Vec::new(alloc),
    });
    Err(Failed)
}

impl MemDisk {
    /// A disk on which nothing was ever written.
    pub fn new(alloc: Global) -> MemDisk
        ensures { ⟦<MemDisk as Disk>⟧.view result ≡ memory_view (image_of [] [] []) [] 0 0 0 }
    {
        MemDisk::of(alloc, Vec::new(alloc), Vec::new(alloc), Vec::new(alloc))
    }

    /// The bytes of the area `Home`. Those after them are 0.
    pub fn home(&self) -> &[u8]
        ensures { ((⟦<MemDisk as Disk>⟧.view self.now).now Home).seen ≡ bytes_of result.now }
    {
        &self.home
    }

    /// The bytes of the area `Log0`. Those after them are 0.
    pub fn log0(&self) -> &[u8]
        ensures { ((⟦<MemDisk as Disk>⟧.view self.now).now Log0).seen ≡ bytes_of result.now }
    {
        &self.log0
    }

    /// The bytes of the area `Log1`. Those after them are 0.
    pub fn log1(&self) -> &[u8]
        ensures { ((⟦<MemDisk as Disk>⟧.view self.now).now Log1).seen ≡ bytes_of result.now }
    {
        &self.log1
    }

    /// How many calls it has answered. A count of 2^64 - 1 stays.
    pub fn call_count(&self) -> u64
        ensures { result ≡ (⟦<MemDisk as Disk>⟧.view self.now).calls }
    {
        self.count
    }

    /// How many of them failed. A count of 2^64 - 1 stays.
    pub fn fault_count(&self) -> u64
        ensures { result ≡ (⟦<MemDisk as Disk>⟧.view self.now).faults }
    {
        self.faults
    }

    /// The writes, drops and syncs, the latest first. One that was refused for want of memory isn't
    /// among them, and neither is a sync that failed.
    pub fn calls_made(&self) -> &LinkedList<Call>
        ensures { result.now ≡ self.now.calls }
    {
        &self.calls
    }

    /// A disk with these bytes, and 0 after them. Nothing is pending.
    pub fn of(alloc: Global, home: Vec<u8>, log0: Vec<u8>, log1: Vec<u8>) -> MemDisk
        ensures { ⟦<MemDisk as Disk>⟧.view result ≡ memory_view (image_of home.items log0.items log1.items) [] 0 0 0 }
    {
        MemDisk {
            alloc,
            home,
            log0,
            log1,
            calls: LinkedList::new(alloc),
            count: 0,
            handed: 0,
            faults: 0,
            due: Due::none(),
        }
    }

    /// Makes the nth later call of that kind fail, once. There is one such number for each kind, and
    /// a later one takes its place; 0 takes it away. A write or drop that fails so changes no byte,
    /// and leaves its range pending.
    pub fn fail(&mut self, kind: CallKind, nth: u64)
        ensures same { ⟦<MemDisk as Disk>⟧.view self.new ≡ ⟦<MemDisk as Disk>⟧.view self.old }
        ensures due { self.new.due ≡ with_left self.old.due kind (due_in nth) }
    {
        self.due.set(kind, nth);
    }

    /// What a crash leaves: one of the images, with nothing pending.
    ///
    /// `pick` has two bits for each call that changed the disk, the lowest two for the latest. They
    /// say what becomes of the bytes that the call left pending: 0 keeps the new ones, 1 puts back
    /// those from before the call, 2 puts other bytes there, and 3 tears, so that the second half of
    /// the range is as before the call.
    pub fn crash(self, pick: u64) -> MemDisk
        ensures image { Leaves (⟦<MemDisk as Disk>⟧.view self).now (λ a. ((⟦<MemDisk as Disk>⟧.view result).now a).seen) }
        ensures settled { (a : Area) → ((⟦<MemDisk as Disk>⟧.view result).now a).pending ≡ [] }
    {
        let MemDisk {
            alloc,
            home,
            log0,
            log1,
            calls,
            ..
        } = self;
        let (home, log0, log1) = crash_all(home, log0, log1, calls, pick);
        MemDisk::of(alloc, home, log0, log1)
    }
}

// A drop that fails: its range is pending, unless there is no memory to record it.
fn failed_drop(
    alloc: Global,
    calls: &mut LinkedList<Call>,
    faults: &mut u64,
    area: Area,
    at: u64,
) -> Result<(), Failed>
    ensures recorded { ((old : Vec ℕ Global) × (old.items ≡ []) × (calls.new ≡ Call.Drop area at old ∷ calls.old)) ⊎ (calls.new ≡ calls.old) }
    ensures result { IsErr result }
    ensures fault { HasRisen faults.old faults.new }
    ensures later { faults.old ≤ faults.new }
{
    *faults = faults.saturating_add(1);
    let _ = calls.push_front(Call::Drop {
        area,
        at,
        old: Vec::new(alloc),
    });
    Err(Failed)
}

// A read or a sync that fails.
fn failed_call(faults: &mut u64) -> Result<(), Failed>
    ensures result { IsErr result }
    ensures fault { HasRisen faults.old faults.new }
    ensures later { faults.old ≤ faults.new }
{
    *faults = faults.saturating_add(1);
    Err(Failed)
}

impl Disk for MemDisk {
    ghost told = { true };

    ghost view = { λ m. memory_view (image_of m.home.items m.log0.items m.log1.items) m.calls m.handed m.count m.faults };

    ghost reads = { λ m told. three _ m.home_bytes m.log0_bytes m.log1_bytes };

    fn read_at(&mut self, area: Area, at: u64, into: &mut [u8]) -> Result<(), Failed> {
        self.count = self.count.saturating_add(1);
        if self.due.falls(CallKind::Read) {
            return failed_call(&mut self.faults);
        }
        match area {
            Area::Home => read_part(&self.home, at, into),
            Area::Log0 => read_part(&self.log0, at, into),
            Area::Log1 => read_part(&self.log1, at, into),
        }
        Ok(())
    }

    fn write_at(&mut self, area: Area, at: u64, bytes: &[u8]) -> Result<(), Failed> {
        self.count = self.count.saturating_add(1);
        self.handed = self.handed.saturating_add(bytes.len() as u64);
        if self.due.falls(CallKind::Write) {
            return failed_write(
                self.alloc,
                &mut self.calls,
                &mut self.faults,
                area,
                at,
                bytes.len() as u64,
            );
        }
        match area {
            Area::Home => write_part(
                self.alloc,
                &mut self.home,
                &mut self.calls,
                &mut self.faults,
                area,
                at,
                bytes,
            ),
            Area::Log0 => write_part(
                self.alloc,
                &mut self.log0,
                &mut self.calls,
                &mut self.faults,
                area,
                at,
                bytes,
            ),
            Area::Log1 => write_part(
                self.alloc,
                &mut self.log1,
                &mut self.calls,
                &mut self.faults,
                area,
                at,
                bytes,
            ),
        }
    }

    fn drop_from(&mut self, area: Area, at: u64) -> Result<(), Failed> {
        self.count = self.count.saturating_add(1);
        if self.due.falls(CallKind::Drop) {
            return failed_drop(self.alloc, &mut self.calls, &mut self.faults, area, at);
        }
        match area {
            Area::Home => drop_part(
                self.alloc,
                &mut self.home,
                &mut self.calls,
                &mut self.faults,
                area,
                at,
            ),
            Area::Log0 => drop_part(
                self.alloc,
                &mut self.log0,
                &mut self.calls,
                &mut self.faults,
                area,
                at,
            ),
            Area::Log1 => drop_part(
                self.alloc,
                &mut self.log1,
                &mut self.calls,
                &mut self.faults,
                area,
                at,
            ),
        }
    }

    fn sync(&mut self, area: Area) -> Result<(), Failed> {
        self.count = self.count.saturating_add(1);
        if self.due.falls(CallKind::Sync) {
            return failed_call(&mut self.faults);
        }
        sync_part(&mut self.calls, &mut self.faults, area)
    }
}
