// What is asked of the files of the system.
ghost use Rattle.std.specs.Prelude.{◌≡◌, length};

use std::fs::{File, OpenOptions};
use std::io::ErrorKind;
use std::os::unix::fs::FileExt;
use std::path::Path;
use std::rt::Files;
use std::{fs, io};

// Makes durable what names the folder contains.
fn sync_folder<R: Files<File = File>>(rt: &R, path: &str) -> io::Result<()> {
    let path = if path.is_empty() { "." } else { path };
    let folder = File::open(rt, path)?;
    folder.sync_all()
}

// How many of the folder and its parents aren't there.
fn count_missing<R: Files<File = File>>(rt: &R, path: &str) -> io::Result<usize> {
    let mut missing = 0usize;
    for folder in Path::new(path).ancestors() {
        if folder.as_str().is_empty() || fs::exists(rt, folder)? {
            break;
        }
        missing = missing.saturating_add(1);
    }
    Ok(missing)
}

// Makes durable what names so many parents of the folder contain.
fn sync_parents<R: Files<File = File>>(rt: &R, path: &str, count: usize) -> io::Result<()> {
    for folder in Path::new(path).ancestors().skip(1).take(count) {
        sync_folder(rt, folder.as_str())?;
    }
    Ok(())
}

/// Makes the folder where it isn't there, with its parents, and then makes the names of those durable.
pub fn make_folder<R: Files<File = File>>(rt: &R, path: &str) -> io::Result<()> {
    let missing = count_missing(rt, path)?;
    fs::create_dir_all(rt, path)?;
    sync_parents(rt, path, missing)
}

/// Opens the folder and locks it against each other disk.
pub fn open_locked<R: Files<File = File>>(rt: &R, path: Path<'_>) -> io::Result<File> {
    let folder = File::open(rt, path)?;
    folder.try_lock()?;
    Ok(folder)
}

/// Opens the file. One that may not be written is opened for reading alone: a write of it fails.
pub fn open_file<R: Files<File = File>>(rt: &R, path: Path<'_>) -> io::Result<File> {
    match OpenOptions::new().read(true).write(true).open(rt, path) {
        Err(e) if is_read_only(&e) => File::open(rt, path),
        opened => opened,
    }
}

/// Reads what the file has there, and zeros past its end.
pub fn read_all(file: &File, at: u64, into: &mut [u8]) -> io::Result<()>
    ensures { length into.new ≡ length into.old }
{
    let mut got = 0usize;
    for _ in 0..u64::MAX {
        if got >= into.len() {
            break;
        }
        match file.read_at(&mut into[got..], at.wrapping_add(got as u64)) {
            Ok(0) => {
                into[got..].fill(0);
                break;
            }
            Ok(n) => got += n,
            Err(e) if e.kind() == ErrorKind::Interrupted => {}
            Err(e) => return Err(e),
        }
    }
    Ok(())
}

/// Makes the file's bytes and its length durable, and its name in the folder where that isn't yet.
pub fn sync_file(file: &File, folder: &File, is_named: bool) -> io::Result<()> {
    file.sync_data()?;
    if is_named { Ok(()) } else { folder.sync_all() }
}

/// Cuts the file where it is longer.
pub fn cut(file: &File, at: u64) -> io::Result<()> {
    if file.metadata()?.len() > at {
        file.set_len(at)?;
    }
    Ok(())
}

// Whether the file or its file system may only be read.
fn is_read_only(e: &io::Error) -> bool {
    matches!(
        e.kind(),
        ErrorKind::PermissionDenied | ErrorKind::ReadOnlyFilesystem
    )
}
