use crate::folder::Call::{Cut, Faults, Last, Read, Sync, Write};
use crate::folder::Step::{Begin, End, IsThere, MakeFolder, On};
use crate::folder::Which::{First, Second};
use sg_base::Area::{self, Home, Log0, Log1};
use sg_disk::Disk;
use sg_folder::FolderDisk;
use std::io::ErrorKind;
use std::path::{Path, PathBuf};
use std::test::Fail;
use std::{env, fs, mem, process};

// One of a trial's two disks.
#[derive(Clone, Copy)]
enum Which {
    First,
    Second,
}

// A call of a disk, and last what it should give: the bytes, or none where a read should fail; and whether it should go well.
#[derive(Clone, Copy)]
enum Call {
    Read(Area, u64, Option<[u8; 6]>),
    Write(Area, u64, [u8; 3], bool),
    Cut(Area, u64, bool),
    Sync(Area, bool),
    // how many calls have failed
    Faults(u64),
    // what kind of error the last failure was
    Last(Option<ErrorKind>),
}

// What is done in a trial: a disk begins, one ends, one is called, the folder gets a folder of this name, or it is looked
// whether it has a file of this name, where `.` is the folder itself.
#[derive(Clone, Copy)]
enum Step {
    Begin(Which),
    End(Which),
    On(Which, Call),
    MakeFolder(&'static str),
    IsThere(&'static str, bool),
}

// No offset of a file is greater.
const FAR: u64 = 1 << 63;

// The calls of a disk stand in the functions below, which promise nothing: a test sees plain values, and its proof carries
// none of the clauses of `Disk`.
fn read(disk: &mut impl Disk, area: Area, at: u64) -> Option<[u8; 6]> {
    let mut bytes = [7u8; 6];
    if at <= FAR && disk.read_at(area, at, &mut bytes).is_ok() {
        Some(bytes)
    } else {
        None
    }
}

fn write(disk: &mut impl Disk, area: Area, at: u64, bytes: &[u8; 3]) -> bool {
    at <= FAR && disk.write_at(area, at, bytes).is_ok()
}

fn cut(disk: &mut impl Disk, area: Area, at: u64) -> bool {
    at <= FAR && disk.drop_from(area, at).is_ok()
}

fn sync(disk: &mut impl Disk, area: Area) -> bool {
    disk.sync(area).is_ok()
}

fn faults(disk: &FolderDisk<'_, HostRuntime>) -> u64 {
    disk.faults()
}

fn last_fault(disk: &FolderDisk<'_, HostRuntime>) -> Option<ErrorKind> {
    disk.last_fault()
}

// Whether a call that each disk has gives what it should.
fn disk_goes(disk: &mut impl Disk, call: Call) -> bool {
    match call {
        Read(area, at, given) => read(disk, area, at) == given,
        Write(area, at, bytes, well) => write(disk, area, at, &bytes) == well,
        Cut(area, at, well) => cut(disk, area, at) == well,
        Sync(area, well) => sync(disk, area) == well,
        Faults(_) | Last(_) => false,
    }
}

// Whether a call gives what it should.
fn call_goes(disk: &mut FolderDisk<'_, HostRuntime>, call: Call) -> bool {
    match call {
        Faults(count) => faults(disk) == count,
        Last(kind) => last_fault(disk) == kind,
        _ => disk_goes(disk, call),
    }
}

// Two disks over a folder.
#[derive(Drop)]
struct Trial<'a> {
    rt: &'a HostRuntime,
    path: &'a str,
    first: Option<FolderDisk<'a, HostRuntime>>,
    second: Option<FolderDisk<'a, HostRuntime>>,
}

impl<'a> Trial<'a> {
    // Whether the folder has a file of this name.
    fn is_there(&self, name: &str) -> Option<bool> {
        let path = Path::new(self.path).join(self.rt.alloc(), name).ok()?;
        Some(path.exists(self.rt))
    }

    // Whether a folder of this name could be made in the folder.
    fn make_folder(&self, name: &str) -> Option<()> {
        let path = Path::new(self.path).join(self.rt.alloc(), name).ok()?;
        fs::create_dir(self.rt, path.as_path()).ok()
    }

    // The place of a disk.
    fn place(&mut self, which: Which) -> &mut Option<FolderDisk<'a, HostRuntime>> {
        match which {
            First => &mut self.first,
            Second => &mut self.second,
        }
    }

    // Puts this in the place of a disk, which ends.
    fn put(&mut self, which: Which, disk: Option<FolderDisk<'a, HostRuntime>>) {
        drop(mem::replace(self.place(which), disk));
    }

    // Whether the call of a disk gives what it should.
    fn call_goes(&mut self, which: Which, call: Call) -> bool {
        match self.place(which) {
            Some(disk) => call_goes(disk, call),
            None => false,
        }
    }

    // Does a step, and answers whether it gives what it should.
    fn goes(&mut self, step: Step) -> bool {
        match step {
            Begin(which) => {
                let disk = FolderDisk::new(self.rt, self.path);
                self.put(which, Some(disk));
                true
            }
            End(which) => {
                self.put(which, None);
                true
            }
            On(which, call) => self.call_goes(which, call),
            MakeFolder(name) => self.make_folder(name).is_some(),
            IsThere(name, there) => self.is_there(name) == Some(there),
        }
    }

    // The number of the first step that gives otherwise than it should.
    fn first_wrong(&mut self, steps: &[Step]) -> Option<usize> {
        for (number, step) in steps.iter().enumerate() {
            if !self.goes(*step) {
                return Some(number);
            }
        }
        None
    }
}

// The number of the first step over a folder that gives otherwise than it should.
fn first_wrong<'a>(rt: &'a HostRuntime, path: &'a str, steps: &[Step]) -> Option<usize> {
    let mut trial = Trial {
        rt,
        path,
        first: None,
        second: None,
    };
    let wrong = trial.first_wrong(steps);
    let Trial { first, second, .. } = trial;
    drop(first);
    drop(second);
    wrong
}

// The number of the first of these calls that gives otherwise than it should.
fn first_wrong_of(disk: &mut FolderDisk<'_, HostRuntime>, calls: &[Call]) -> Option<usize> {
    for (number, call) in calls.iter().enumerate() {
        if !call_goes(disk, *call) {
            return Some(number);
        }
    }
    None
}

// A path below the system's folder for files of the moment that no other process uses.
fn own_folder(rt: &HostRuntime, test: &str) -> Result<PathBuf, Fail> {
    let number = process::id(rt.process());
    let name = format!(in rt.alloc(); "stasis-{test}-{number}/inner")?;
    Ok(env::temp_dir(rt)?.join(rt.alloc(), name.as_str())?)
}

// Does the steps over a folder that isn't there, and then removes it.
fn first_wrong_in(rt: &HostRuntime, test: &str, steps: &[Step]) -> Result<Option<usize>, Fail> {
    let path = own_folder(rt, test)?;
    let wrong = first_wrong(rt, path.as_str(), steps);
    fs::remove_dir_all(rt, path.parent().ok_or("no parent")?)?;
    Ok(wrong)
}

const FILES: [Step; 27] = [
    // Of what isn't there each byte is 0, and no call but a write makes it.
    Begin(First),
    On(First, Read(Log0, 9, Some(*b"\0\0\0\0\0\0"))),
    On(First, Sync(Log0, true)),
    On(First, Cut(Log0, 0, true)),
    IsThere(".", false),
    On(First, Write(Log0, 3, *b"abc", true)),
    On(First, Sync(Log0, true)),
    IsThere("home", false),
    On(First, Read(Log0, 2, Some(*b"\0abc\0\0"))),
    On(First, Cut(Log0, 4, true)),
    On(First, Cut(Log0, 100, true)),
    // Another disk over the folder is refused while this one has it, and from then on.
    Begin(Second),
    On(Second, Read(Home, 0, None)),
    On(First, Faults(0)),
    End(First),
    On(Second, Write(Home, 0, *b"abc", false)),
    IsThere("home", false),
    End(Second),
    // A later one reads what the first one left.
    Begin(Second),
    On(Second, Read(Log0, 2, Some(*b"\0a\0\0\0\0"))),
    On(Second, Read(Home, 0, Some(*b"\0\0\0\0\0\0"))),
    On(Second, Faults(0)),
    // An offset that no file has.
    On(Second, Write(Log0, FAR, *b"abc", false)),
    On(Second, Read(Log0, FAR, None)),
    On(Second, Faults(2)),
    End(Second),
    IsThere("log0", true),
];

// Two disks that found no folder: the one that writes first has it, and the other is refused from its first write on.
const RACE: [Step; 16] = [
    Begin(First),
    Begin(Second),
    On(First, Read(Log0, 0, Some(*b"\0\0\0\0\0\0"))),
    On(Second, Read(Log0, 0, Some(*b"\0\0\0\0\0\0"))),
    On(First, Write(Log0, 0, *b"abc", true)),
    // What has been made since isn't read, nor written, also where nobody holds it any more.
    On(Second, Read(Log0, 0, Some(*b"\0\0\0\0\0\0"))),
    End(First),
    On(Second, Write(Log1, 0, *b"xyz", false)),
    On(Second, Read(Log0, 0, None)),
    // What other disks read then.
    Begin(First),
    On(First, Read(Log0, 0, Some(*b"abc\0\0\0"))),
    End(First),
    Begin(First),
    On(First, Read(Log1, 0, Some(*b"\0\0\0\0\0\0"))),
    End(First),
    End(Second),
];

// After a sync has failed, here of a file that can't be opened since it is a folder, the disk refuses each call, with that
// error's kind. Another disk over the folder doesn't.
const FAILED_SYNC: [Step; 17] = [
    Begin(First),
    On(First, Write(Log0, 0, *b"abc", true)),
    On(First, Sync(Log0, true)),
    On(First, Last(None)),
    On(First, Write(Log0, FAR, *b"abc", false)),
    On(First, Last(Some(ErrorKind::InvalidInput))),
    On(First, Read(Log0, 0, Some(*b"abc\0\0\0"))),
    MakeFolder("home"),
    On(First, Sync(Home, false)),
    On(First, Read(Log0, 0, None)),
    On(First, Write(Log0, 0, *b"xyz", false)),
    On(First, Cut(Log0, 0, false)),
    On(First, Sync(Log0, false)),
    On(First, Last(Some(ErrorKind::IsADirectory))),
    End(First),
    Begin(First),
    On(First, Read(Log0, 0, Some(*b"abc\0\0\0"))),
];

const NO_FOLDER: [Call; 7] = [
    Last(None),
    Read(Home, 0, None),
    Write(Log0, 0, *b"abc", false),
    Cut(Log1, 0, false),
    Sync(Home, false),
    Faults(4),
    Last(Some(ErrorKind::NotFound)),
];

// The number of the first step of each of these tables that gives otherwise than it should.
fn first_wrong_file(rt: &HostRuntime) -> Result<Option<usize>, Fail> {
    first_wrong_in(rt, "files", &FILES)
}

fn first_wrong_sync(rt: &HostRuntime) -> Result<Option<usize>, Fail> {
    first_wrong_in(rt, "sync", &FAILED_SYNC)
}

fn first_wrong_race(rt: &HostRuntime) -> Result<Option<usize>, Fail> {
    first_wrong_in(rt, "race", &RACE)
}

// The number of the first call that goes otherwise than it should without a folder.
fn first_wrong_without() -> Option<usize> {
    let mut disk = FolderDisk::none();
    first_wrong_of(&mut disk, &NO_FOLDER)
}

#[test]
fn keeps_bytes_in_files(rt: HostRuntime) -> Result<(), Fail> {
    assert_eq!(rt; first_wrong_file(&rt)?, None);
    Ok(())
}

#[test]
fn a_folder_that_was_made_since_is_refused(rt: HostRuntime) -> Result<(), Fail> {
    assert_eq!(rt; first_wrong_race(&rt)?, None);
    Ok(())
}

#[test]
fn a_failed_sync_stays_failed(rt: HostRuntime) -> Result<(), Fail> {
    assert_eq!(rt; first_wrong_sync(&rt)?, None);
    Ok(())
}

#[test]
fn fails_without_a_folder(rt: HostRuntime) {
    assert_eq!(rt; first_wrong_without(), None);
}
