//! The program `stasis`: makes a store in a folder, of sizes that a file may say, runs a script on standard input over
//! one and writes the replies to standard output, or lists its objects, what they come to or its log there. It ends with a number for how that went, and says it in words on
//! standard error.
//!
//! It stands on `sg_top`, which does the work over any disk, source and sink, on `sg_command`, which reads
//! the words, on `sg_folder`, which is a disk over a folder's files, and on the source and the sink of `sg_base` over what std gives. No proof
//! says what these give or take. It is proved how `stasis` ends over whatever they are, which words
//! name the folder and the file, and which number and text stand for each status.
#![tactic(auto)]

ghost use Rattle.std.specs.Prelude.{◌≡◌, ◌⊎◌, false, option_copied, IfOk};
ghost use Rattle.sg_commands.specs.Words.{are_served};
ghost use Rattle.sg_commands.specs.declared.status.Status.TheVariants.{Usage, Memory};
ghost use Rattle.sg_main.specs.Words.{folder_in, file_in};

mod ended;
mod source;
mod status;

use crate::ended::Ended;
use crate::source::Unopened;
use sg_base::{ReadSource, Source, WriteSink};
use sg_command::{Paths, WordsError, read_paths};
use sg_folder::FolderDisk;
use std::alloc::Global;
use std::fs::File;
use std::os::fd::AsRawFd;
use std::thread::Threads;
use std::{env, io};

// The words after the program's name.
fn given_words(rt: &HostRuntime) -> io::Result<Vec<String>> {
    let words = env::args(rt)?.skip(1).collect(rt.alloc())?;
    Ok(words)
}

// The words for the folder and the file, where the words name them. An empty word names no folder.
fn paths_of<'a>(alloc: Global, words: &'a [String]) -> Result<Paths<'a>, WordsError>
    ensures folder { IfOk result (λ paths. option_copied paths.dir ≡ folder_in words.entry.now) }
    ensures file { IfOk result (λ paths. option_copied paths.file ≡ file_in words.entry.now) }
{
    let Paths { dir, file } = read_paths(alloc, words)?;
    let dir = match dir {
        Some(word) if !word.is_empty() => Some(word),
        _ => None,
    };
    Ok(Paths { dir, file })
}

// Opens the root folder in the place of each standard stream that the process began without: an open
// takes the least number that is free. So no file of the store gets the number of a stream. A folder
// can be neither read nor written as a stream, so what is asked of these fails.
fn fill_standard_streams(rt: &HostRuntime) -> io::Result<[Option<File>; 3]> {
    let mut folders = [None, None, None];
    for place in &mut folders {
        let folder = File::open(rt, "/")?;
        if folder.as_raw_fd() > 2 {
            break;
        }
        *place = Some(folder);
    }
    Ok(folders)
}

// Does what the words say over this folder, or over none, from the source to standard output. A log is repeated in threads of the
// handle that may start some.
fn run_over<R: Threads + Sync, S: Source>(
    rt: &HostRuntime,
    threads: &R,
    words: &[String],
    folder: Option<&str>,
    source: &mut S,
) -> Ended
    ensures usage { result ≡ Usage → are_served words.now ≡ false }
    ensures unused { are_served words.now ≡ false → (result ≡ Usage) ⊎ (result ≡ Memory) }
{
    // Neither end keeps bytes back, so nothing is left to be flushed.
    let mut out = WriteSink::new(rt.stdout());
    match folder {
        Some(path) => {
            let disk = FolderDisk::new(rt, path);
            let (ended, _) = Ended::of_run(threads, rt.alloc(), words, disk, source, &mut out);
            ended
        }
        None => {
            let disk = FolderDisk::<HostRuntime>::none();
            let (ended, _) = Ended::of_run(threads, rt.alloc(), words, disk, source, &mut out);
            ended
        }
    }
}

// Does what the words say over the folder that they name, or over none. The source is the file that they name, each of whose
// reads fails where it can't be opened, and else standard input.
fn run<R: Threads + Sync>(rt: &HostRuntime, threads: &R, words: &[String]) -> Ended
    ensures usage { result ≡ Usage → are_served words.now ≡ false }
    ensures unused { are_served words.now ≡ false → (result ≡ Usage) ⊎ (result ≡ Memory) }
{
    // Held to the end of the run. Where they can't be had the disk has no folder, so each of its calls fails.
    let streams = fill_standard_streams(rt);
    let (folder, file) = match paths_of(rt.alloc(), words) {
        Ok(Paths { dir, file }) if streams.is_ok() => (dir, file),
        Ok(Paths { dir: _, file }) => (None, file),
        Err(WordsError::Usage) => (None, None),
        Err(WordsError::Memory) => return Ended::without_memory(),
    };
    let Some(path) = file else {
        let mut script = ReadSource::new(rt.stdin());
        return run_over(rt, threads, words, folder, &mut script);
    };
    match File::open(rt, path) {
        Ok(text) => {
            let mut text = ReadSource::new(text);
            run_over(rt, threads, words, folder, &mut text)
        }
        Err(_) => {
            let mut text = Unopened::new();
            run_over(rt, threads, words, folder, &mut text)
        }
    }
}

fn main(rt: HostRuntime) -> Ended {
    match given_words(&rt) {
        Ok(words) => run(&rt, &rt, words.as_slice()),
        Err(e) => Ended::without_words(&e),
    }
}
