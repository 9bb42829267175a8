ghost use Rattle.std.specs.Prelude.{⊤, MatchOption, None, Some, ◌≡◌, ◌↔◌, IsErr, IsSome, IfErr, ◌≤◌, ◌+◌, ◌^◌, ◌-◌, min, false, length, OnErr, OnOk, IsTrue};
ghost use Rattle.std.specs.IoError.{error_kind};
ghost use Rattle.sg_base.specs.Ends.{HasRisen};
ghost use Rattle.sg_disk.specs.Disk.{Counts, Dropped, FULL, ReadBytes, Synced, Wrote, window};
ghost use Rattle.sg_folder.specs.Counts.{counts_alone};

use crate::folder::Folder;
use sg_base::{Area, Failed};
use sg_disk::{Disk, Presumed};
use std::fs::File;
use std::io::{self, ErrorKind};
use std::rt::Files;

/// A disk over the files `home`, `log0` and `log1` of a folder, or over none. It tells nothing of
/// what it contains, and counts its calls, the bytes handed to writes, and its failures.
///
/// A file that isn't there reads 0, and its sync and its drop do nothing. The first write to an area
/// makes the folder, where that isn't there, and the file. Where there is no folder each call fails.
///
/// The first call locks the folder against each other disk, and the lock lasts as long as the disk.
/// Where another holds it each call fails, and nothing is read or written. A folder that isn't there
/// at the first call is locked when it is made, and each call fails from there on where another has
/// made a file in it by then.
///
/// **A failed sync stays failed.** After a sync has failed each later call of this disk fails. Some
/// systems count the bytes that they couldn't write as written from then on, so that a later sync would
/// go well over bytes that aren't durable, and a read would give them.
#[derive(Drop)]
pub struct FolderDisk<'a, R: Files<File = File> + Alloc> {
    folder: Option<Folder<'a, R>>,
    handed: u64,
    calls: u64,
    faults: u64,
    // what kind of error the last failure was
    last: Option<ErrorKind>,
    // what kind of error it was with which a sync failed first
    lost: Option<ErrorKind>,
}

impl<'a, R: Files<File = File> + Alloc> FolderDisk<'a, R> {
    /// A disk over the folder of this path. Neither the folder nor a file is made.
    pub fn new(rt: &'a R, path: &'a str) -> Self
        ensures path { MatchOption result.folder ⊥ (λ f. f.path.now ≡ path.now) }
        ensures handed { result.handed ≡ 0 }
        ensures calls { result.calls ≡ 0 }
        ensures faults { result.faults ≡ 0 }
        ensures last { result.last ≡ None }
        ensures lost { result.lost ≡ None }
    {
        let folder = Folder::new(rt, path);
        FolderDisk {
            folder: Some(folder),
            handed: 0,
            calls: 0,
            faults: 0,
            last: None,
            lost: None,
        }
    }

    /// How many calls have failed.
    pub fn faults(&self) -> u64
        ensures { result ≡ self.now.faults }
    {
        self.faults
    }

    /// What kind of error the last failure was, for a person to read; none where no call has failed. A
    /// call that is refused since a sync has failed is told by that sync's.
    pub fn last_fault(&self) -> Option<ErrorKind>
        ensures { result ≡ self.now.last }
    {
        self.last
    }

    /// A disk without a folder.
    pub fn none() -> Self
        ensures folder { result.folder ≡ None }
        ensures handed { result.handed ≡ 0 }
        ensures calls { result.calls ≡ 0 }
        ensures faults { result.faults ≡ 0 }
        ensures last { result.last ≡ None }
        ensures lost { result.lost ≡ None }
    {
        FolderDisk {
            folder: None,
            handed: 0,
            calls: 0,
            faults: 0,
            last: None,
            lost: None,
        }
    }
}

// Counts a call.
fn count(calls: &mut u64)
    ensures { calls.new ≡ min (calls.old + 1) (2 ^ 64 - 1) }
{
    *calls = calls.saturating_add(1);
}

// Counts a failure, and keeps its kind.
fn note(
    answer: io::Result<()>,
    faults: &mut u64,
    last: &mut Option<ErrorKind>,
) -> Result<(), Failed>
    ensures told { IsErr result ↔ IsErr answer }
    ensures failed { OnErr result (HasRisen faults.old faults.new) }
    ensures quiet { OnOk result (faults.new ≡ faults.old) }
    ensures later { faults.old ≤ faults.new }
    ensures kind { IfErr answer (λ e. last.new ≡ Some (error_kind e)) }
    ensures same { OnOk answer (last.new ≡ last.old) }
{
    match answer {
        Ok(()) => Ok(()),
        Err(e) => {
            *faults = faults.saturating_add(1);
            *last = Some(e.kind());
            Err(Failed)
        }
    }
}

// Fails where a sync has failed, with that error's kind.
fn unless_lost(lost: Option<ErrorKind>) -> io::Result<()>
    ensures refused { IsErr result ↔ IsSome lost }
    ensures kind { IfErr result (λ e. lost ≡ Some (error_kind e)) }
{
    match lost {
        Some(kind) => Err(kind.into()),
        None => Ok(()),
    }
}

// Reads in the folder, and fails where there is none.
fn read_in<R: Files<File = File> + Alloc>(
    folder: &mut Option<Folder<'_, R>>,
    area: Area,
    at: u64,
    into: &mut [u8],
) -> io::Result<()>
    ensures { length into.new ≡ length into.old }
{
    match folder {
        Some(folder) => folder.read(area, at, into),
        None => Err(ErrorKind::NotFound.into()),
    }
}

// Writes in the folder, and fails where there is none.
fn write_in<R: Files<File = File> + Alloc>(
    folder: &mut Option<Folder<'_, R>>,
    area: Area,
    at: u64,
    bytes: &[u8],
) -> io::Result<()> {
    match folder {
        Some(folder) => folder.write(area, at, bytes),
        None => Err(ErrorKind::NotFound.into()),
    }
}

// Drops in the folder, and fails where there is none.
fn drop_in<R: Files<File = File> + Alloc>(
    folder: &mut Option<Folder<'_, R>>,
    area: Area,
    at: u64,
) -> io::Result<()> {
    match folder {
        Some(folder) => folder.drop_from(area, at),
        None => Err(ErrorKind::NotFound.into()),
    }
}

// Syncs in the folder, and fails where there is none.
fn sync_in<R: Files<File = File> + Alloc>(
    folder: &mut Option<Folder<'_, R>>,
    area: Area,
) -> io::Result<()> {
    match folder {
        Some(folder) => folder.sync(area),
        None => Err(ErrorKind::NotFound.into()),
    }
}

impl<R: Files<File = File> + Alloc> Presumed for FolderDisk<'_, R> {
    ghost presumed = { ⊤ };
}

impl<R: Files<File = File> + Alloc> Disk for FolderDisk<'_, R> {
    ghost told = { false };

    ghost view = { λ d. counts_alone d.handed d.calls d.faults };

    ghost reads = { λ d told. Prim.cc };

    fn read_at(&mut self, area: Area, at: u64, into: &mut [u8]) -> Result<(), Failed>
        ensures counts { Counts 0 (counts_alone self.old.handed self.old.calls self.old.faults) (counts_alone self.new.handed self.new.calls self.new.faults) result }
        ensures does { IsTrue false → ReadBytes (counts_alone self.old.handed self.old.calls self.old.faults) (counts_alone self.new.handed self.new.calls self.new.faults) result }
        ensures unchanged { IsTrue false → (counts_alone self.new.handed self.new.calls self.new.faults).now ≡ (counts_alone self.old.handed self.old.calls self.old.faults).now }
        ensures bytes { IsTrue false → OnOk result (into.new ≡ window ((counts_alone self.old.handed self.old.calls self.old.faults).now area).seen at (length into.old)) }
        ensures last { OnErr result (IsSome self.new.last) }
        ensures refused { IsSome self.old.lost → IsErr result }
        ensures why { IsSome self.old.lost → self.new.last ≡ self.old.lost }
        ensures lost { self.new.lost ≡ self.old.lost }
    {
        count(&mut self.calls);
        let answer = match unless_lost(self.lost) {
            Ok(()) => read_in(&mut self.folder, area, at, into),
            Err(e) => Err(e),
        };
        note(answer, &mut self.faults, &mut self.last)
    }

    fn write_at(&mut self, area: Area, at: u64, bytes: &[u8]) -> Result<(), Failed>
        ensures counts { Counts (length bytes.now) (counts_alone self.old.handed self.old.calls self.old.faults) (counts_alone self.new.handed self.new.calls self.new.faults) result }
        ensures handed { OnOk result (self.new.handed ≡ min (self.old.handed + length bytes.now) FULL) }
        ensures does { IsTrue false → Wrote area at bytes.now (counts_alone self.old.handed self.old.calls self.old.faults) (counts_alone self.new.handed self.new.calls self.new.faults) result }
        ensures last { OnErr result (IsSome self.new.last) }
        ensures refused { IsSome self.old.lost → IsErr result }
        ensures why { IsSome self.old.lost → self.new.last ≡ self.old.lost }
        ensures lost { self.new.lost ≡ self.old.lost }
    {
        count(&mut self.calls);
        self.handed = self.handed.saturating_add(bytes.len() as u64);
        let answer = match unless_lost(self.lost) {
            Ok(()) => write_in(&mut self.folder, area, at, bytes),
            Err(e) => Err(e),
        };
        note(answer, &mut self.faults, &mut self.last)
    }

    fn drop_from(&mut self, area: Area, at: u64) -> Result<(), Failed>
        ensures counts { Counts 0 (counts_alone self.old.handed self.old.calls self.old.faults) (counts_alone self.new.handed self.new.calls self.new.faults) result }
        ensures does { IsTrue false → Dropped area at (counts_alone self.old.handed self.old.calls self.old.faults) (counts_alone self.new.handed self.new.calls self.new.faults) result }
        ensures last { OnErr result (IsSome self.new.last) }
        ensures refused { IsSome self.old.lost → IsErr result }
        ensures why { IsSome self.old.lost → self.new.last ≡ self.old.lost }
        ensures lost { self.new.lost ≡ self.old.lost }
    {
        count(&mut self.calls);
        let answer = match unless_lost(self.lost) {
            Ok(()) => drop_in(&mut self.folder, area, at),
            Err(e) => Err(e),
        };
        note(answer, &mut self.faults, &mut self.last)
    }

    fn sync(&mut self, area: Area) -> Result<(), Failed>
        ensures counts { Counts 0 (counts_alone self.old.handed self.old.calls self.old.faults) (counts_alone self.new.handed self.new.calls self.new.faults) result }
        ensures does { IsTrue false → Synced area (counts_alone self.old.handed self.old.calls self.old.faults) (counts_alone self.new.handed self.new.calls self.new.faults) result }
        ensures last { OnErr result (IsSome self.new.last) }
        ensures refused { IsSome self.old.lost → IsErr result }
        ensures why { IsSome self.old.lost → self.new.last ≡ self.old.lost }
        ensures lost { OnErr result (IsSome self.new.lost) }
        ensures kept { IsSome self.old.lost → self.new.lost ≡ self.old.lost }
    {
        count(&mut self.calls);
        let answer = match unless_lost(self.lost) {
            Ok(()) => sync_in(&mut self.folder, area),
            Err(e) => Err(e),
        };
        if let Err(e) = &answer {
            self.lost = Some(e.kind());
        }
        note(answer, &mut self.faults, &mut self.last)
    }
}
