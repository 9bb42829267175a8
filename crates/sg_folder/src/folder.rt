// A store's folder and its three files.
ghost use Rattle.std.specs.Prelude.{◌≡◌, length};
ghost use Rattle.sg_folder.specs.Streams.{IsApart};

use crate::files::{cut, make_folder, open_file, open_locked, read_all, sync_file};
use crate::names::area_name;
use sg_base::Area;
use std::fs::File;
use std::io::ErrorKind;
use std::os::fd::AsRawFd;
use std::os::unix::fs::FileExt;
use std::path::{Path, PathBuf};
use std::rt::Files;
use std::{fs, io};

// How a disk has its folder, from its first call on.
#[derive(Drop)]
enum Hold {
    // There was no call yet.
    Unasked,
    // There was no folder at the first call. What others have made since isn't looked at.
    Absent,
    // The open folder, locked against each other disk until it is closed.
    Locked(File),
    // Another disk holds the folder, or it couldn't be opened, made or locked.
    Refused,
}

// An area's open file. No standard stream has its number, since what is written to the stream would be
// written to the file.
#[derive(Drop)]
struct AreaFile {
    file: File,
    ghost apart: { IsApart file },
}

/// The folder and its three files, each from when it was first found or made. The runtime is kept since
/// that may be at any call: a file is made by the first write to its area, and not before.
#[derive(Drop)]
pub struct Folder<'a, R: Files<File = File> + Alloc> {
    rt: &'a R,
    path: &'a str,
    hold: Hold,
    home: Option<AreaFile>,
    log0: Option<AreaFile>,
    log1: Option<AreaFile>,
    // whether this process has made the names of the files durable since it last made one
    is_named: bool,
}

impl AreaFile {
    // Fails where a standard stream has the number of the file.
    fn new(file: File) -> io::Result<Self> {
        if file.as_raw_fd() > 2 {
            Ok(AreaFile { file })
        } else {
            Err(ErrorKind::ResourceBusy.into())
        }
    }
}

impl<'a, R: Files<File = File> + Alloc> Folder<'a, R> {
    /// The folder of this path, of which nothing is asked yet.
    pub fn new(rt: &'a R, path: &'a str) -> Self
        ensures { result.path.now ≡ path.now }
    {
        Folder {
            rt,
            path,
            hold: Hold::Unasked,
            home: None,
            log0: None,
            log1: None,
            is_named: false,
        }
    }

    // The path of what the folder has under this name.
    fn path_of(&self, name: &str) -> io::Result<PathBuf<R::A>> {
        let path = Path::new(self.path).join(self.rt.alloc(), name)?;
        Ok(path)
    }

    // Opens the folder and locks it against each other disk.
    fn lock(&self) -> io::Result<File> {
        // By this name only a folder is opened: the open of a pipe would wait.
        let path = self.path_of(".")?;
        open_locked(self.rt, path.as_path())
    }

    // Whether the area's file is there.
    fn has_file(&self, area: Area) -> io::Result<bool> {
        let path = self.path_of(area_name(area))?;
        fs::exists(self.rt, path.as_path())
    }

    // Makes the folder and locks it, where no other disk has made a file in it.
    fn make_locked(&self) -> io::Result<File> {
        make_folder(self.rt, self.path)?;
        let folder = self.lock()?;
        for area in [Area::Home, Area::Log0, Area::Log1] {
            if self.has_file(area)? {
                return Err(ErrorKind::AlreadyExists.into());
            }
        }
        Ok(folder)
    }

    // How the folder is had at the first call.
    fn first_hold(&self) -> Hold {
        match self.lock() {
            Ok(folder) => Hold::Locked(folder),
            Err(e) if e.kind() == ErrorKind::NotFound => Hold::Absent,
            Err(_) => Hold::Refused,
        }
    }

    // How the folder is had that wasn't there at the first call, once it has to be.
    fn made_hold(&self) -> Hold {
        match self.make_locked() {
            Ok(folder) => Hold::Locked(folder),
            Err(_) => Hold::Refused,
        }
    }

    // Locks the folder at the first call, where it is there, and fails where it can't be had.
    fn enter(&mut self) -> io::Result<()> {
        if let Hold::Unasked = self.hold {
            self.hold = self.first_hold();
        }
        match self.hold {
            Hold::Absent | Hold::Locked(_) => Ok(()),
            Hold::Unasked | Hold::Refused => Err(ErrorKind::ResourceBusy.into()),
        }
    }

    // Has the folder, and makes it where it wasn't there at the first call.
    fn enter_or_make(&mut self) -> io::Result<()> {
        self.enter()?;
        if let Hold::Absent = self.hold {
            self.hold = self.made_hold();
        }
        self.enter()
    }

    // Opens the area's file, which is there.
    fn open(&self, area: Area) -> io::Result<AreaFile> {
        let path = self.path_of(area_name(area))?;
        AreaFile::new(open_file(self.rt, path.as_path())?)
    }

    // Makes the area's file, which isn't there.
    fn create(&self, area: Area) -> io::Result<AreaFile> {
        let path = self.path_of(area_name(area))?;
        AreaFile::new(File::create_new(self.rt, path.as_path())?)
    }

    // Makes the area's file, and keeps it.
    fn take_new(&mut self, area: Area) -> io::Result<()> {
        let file = self.create(area)?;
        self.is_named = false;
        self.keep(area, file);
        Ok(())
    }

    // Keeps the area's open file.
    fn keep(&mut self, area: Area, file: AreaFile) {
        let kept = match area {
            Area::Home => &mut self.home,
            Area::Log0 => &mut self.log0,
            Area::Log1 => &mut self.log1,
        };
        *kept = Some(file);
    }

    // The area's open file.
    fn kept(&self, area: Area) -> Option<&File> {
        let kept = match area {
            Area::Home => &self.home,
            Area::Log0 => &self.log0,
            Area::Log1 => &self.log1,
        };
        match kept {
            Some(kept) => Some(&kept.file),
            None => None,
        }
    }

    // Opens the area's file where it is there, and keeps it.
    fn take(&mut self, area: Area) -> io::Result<()> {
        match self.open(area) {
            Ok(file) => {
                self.keep(area, file);
                Ok(())
            }
            Err(e) if e.kind() == ErrorKind::NotFound => Ok(()),
            Err(e) => Err(e),
        }
    }

    // Opens the area's file where the folder and the file are there and it isn't open.
    fn find(&mut self, area: Area) -> io::Result<()> {
        self.enter()?;
        if matches!(self.hold, Hold::Absent) || self.kept(area).is_some() {
            Ok(())
        } else {
            self.take(area)
        }
    }

    // Opens the area's file, and makes it and the folder where they aren't there.
    fn make(&mut self, area: Area) -> io::Result<()> {
        self.enter_or_make()?;
        self.find(area)?;
        if self.kept(area).is_none() {
            self.take_new(area)
        } else {
            Ok(())
        }
    }

    /// Reads what the area's file has there, and zeros where the file ends or isn't there.
    pub fn read(&mut self, area: Area, at: u64, into: &mut [u8]) -> io::Result<()>
        ensures { length into.new ≡ length into.old }
    {
        self.find(area)?;
        match self.kept(area) {
            Some(file) => read_all(file, at, into),
            None => {
                into.fill(0);
                Ok(())
            }
        }
    }

    /// Writes all of the bytes to the area's file.
    pub fn write(&mut self, area: Area, at: u64, bytes: &[u8]) -> io::Result<()> {
        self.make(area)?;
        match self.kept(area) {
            Some(file) => file.write_all_at(bytes, at),
            None => Err(ErrorKind::NotFound.into()),
        }
    }

    /// Cuts the area's file, where it is there and longer.
    pub fn drop_from(&mut self, area: Area, at: u64) -> io::Result<()> {
        self.find(area)?;
        match self.kept(area) {
            Some(file) => cut(file, at),
            None => Ok(()),
        }
    }

    /// Makes the file's bytes and its length durable, and no time of it. The name of a new file is made
    /// durable here too, since its bytes are worth nothing without it: also of one that another process
    /// made and didn't sync.
    pub fn sync(&mut self, area: Area) -> io::Result<()> {
        self.find(area)?;
        if let (Some(file), Hold::Locked(folder)) = (self.kept(area), &self.hold) {
            sync_file(file, folder, self.is_named)?;
            self.is_named = true;
        }
        Ok(())
    }
}
