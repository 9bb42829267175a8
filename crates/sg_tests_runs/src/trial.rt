// Runs of the program's words over a disk in memory, and what is left of them. All calls of the program stand in the functions below, which
// promise nothing: a test sees plain values, and its proof carries none of the program's clauses. They give none where
// memory is refused, or no store is made.
ghost use Rattle.std.specs.Prelude.{◌<◌};

use sg_base::{MemSink, MemSource, Source};
use sg_disk::MemDisk;
use sg_making::Geometry;
use sg_mount::init_store;
use sg_ops::Ops;
use sg_top::{Finish, Status, stasis};
use std::alloc::{AllocError, Global};
use std::thread::Threads;

/// The runtime that a test is given, with threads for openings, and memory.
pub trait Host: Threads + Sync + Alloc<A = Global> {}

impl<R: Threads + Sync + Alloc<A = Global>> Host for R {}

// The sizes of a new store where none are given.
const SIZES: Geometry = Geometry {
    pages: 512,
    bands: 12,
    frames: 64,
    windows: 8,
};

/// What is left of a run: how it ended, the disk, and the sink of its replies.
#[derive(Drop)]
pub struct Left {
    pub status: Status,
    pub disk: MemDisk,
    out: MemSink,
}

impl Left {
    /// Whether it ended so, with these replies.
    pub fn is(&self, status: Status, replies: &[u8]) -> bool {
        self.status == status && self.out.text() == replies
    }

    /// The replies.
    pub fn replies(&self) -> &[u8] {
        self.out.text()
    }
}

/// A disk that has a store of these sizes without objects.
pub fn new_store_of(rt: &impl Host, sizes: &Geometry) -> Option<MemDisk> {
    let mut disk = MemDisk::new(rt.alloc());
    match init_store(&mut disk, sizes) {
        Ok(()) => Some(disk),
        Err(_) => None,
    }
}

/// A disk that has a store without objects, of 512 pages and 12 bands.
pub fn new_store(rt: &impl Host) -> Option<MemDisk> {
    new_store_of(rt, &SIZES)
}

/// A disk with the same contents, all of them stable.
pub fn copy_of(rt: &impl Host, disk: &MemDisk) -> Option<MemDisk> {
    if let Ok(home) = disk.home().to_vec(rt.alloc())
        && let Ok(log0) = disk.log0().to_vec(rt.alloc())
        && let Ok(log1) = disk.log1().to_vec(rt.alloc())
    {
        Some(MemDisk::of(rt.alloc(), home, log0, log1))
    } else {
        None
    }
}

/// Whether two disks have the same contents.
pub fn are_same(one: &MemDisk, other: &MemDisk) -> bool {
    one.home() == other.home() && one.log0() == other.log0() && one.log1() == other.log1()
}

fn words_of(rt: &impl Host, text: &str) -> Result<Vec<String>, AllocError> {
    let mut words = Vec::new(rt.alloc());
    for word in text.split(' ') {
        words.push(word.to_string(rt.alloc())?)?;
    }
    Ok(words)
}

// Does what the words say, with these operations.
fn run_words<S: Source>(
    rt: &impl Host,
    ops: Ops,
    words: &[String],
    disk: MemDisk,
    script: &mut S,
    sink_fails: Option<u64>,
) -> Left {
    let mut out = MemSink::new(rt.alloc(), sink_fails);
    let Finish { status, disk, .. } = stasis(rt, rt.alloc(), ops, words, disk, script, &mut out);
    Left { status, disk, out }
}

/// Runs a script with these operations, over a disk that makes so many calls.
pub fn run_with(
    rt: &impl Host,
    ops: Ops,
    disk: MemDisk,
    script: &[u8],
    calls: u64,
) -> Option<Left> {
    if let Ok(line) = format!(in rt.alloc(); "run store --stop-after {calls}")
        && let Ok(words) = words_of(rt, line.as_str())
        && let Ok(text) = script.to_vec(rt.alloc())
    {
        let mut source = MemSource::new(text, 65_536, None);
        Some(run_words(rt, ops, &words, disk, &mut source, None))
    } else {
        None
    }
}

/// Does what the words say, with the shipped operations. The sink's n-th call fails where n is given.
pub fn run_from<S: Source>(
    rt: &impl Host,
    words: &str,
    disk: MemDisk,
    script: &mut S,
    sink_fails: Option<u64>,
) -> Option<Left> {
    if let Ok(words) = words_of(rt, words)
        && let Ok(ops) = Ops::shipped(rt.alloc())
    {
        Some(run_words(rt, ops, &words, disk, script, sink_fails))
    } else {
        None
    }
}

/// The same with a script that comes in pieces of so many bytes.
pub fn run_in_pieces(
    rt: &impl Host,
    words: &str,
    disk: MemDisk,
    script: &[u8],
    piece: usize,
) -> Option<Left>
    requires { 0 < piece }
{
    match script.to_vec(rt.alloc()) {
        Ok(text) => {
            let mut source = MemSource::new(text, piece, None);
            run_from(rt, words, disk, &mut source, None)
        }
        Err(_) => None,
    }
}

/// Runs a script.
pub fn run(rt: &impl Host, disk: MemDisk, script: &[u8]) -> Option<Left> {
    run_in_pieces(rt, "run store", disk, script, 65_536)
}

/// Runs a script over a disk that makes so many calls.
pub fn run_stopped(rt: &impl Host, disk: MemDisk, script: &[u8], calls: u64) -> Option<Left> {
    match format!(in rt.alloc(); "run store --stop-after {calls}") {
        Ok(words) => run_in_pieces(rt, words.as_str(), disk, script, 65_536),
        Err(_) => None,
    }
}

/// Runs a script, and hands back the disk where the run is done with these replies.
pub fn done(rt: &impl Host, disk: MemDisk, script: &[u8], replies: &[u8]) -> Option<MemDisk> {
    match run(rt, disk, script) {
        Some(left) if left.is(Status::Done, replies) => Some(left.disk),
        _ => None,
    }
}

/// The least number of calls of the disk with which a run over a copy of this store gives these replies: those of its opening and of its lines, without
/// the end of the run.
pub fn calls_of_lines(
    rt: &impl Host,
    store: &MemDisk,
    script: &[u8],
    replies: &[u8],
) -> Option<u64> {
    let left = run(rt, copy_of(rt, store)?, script)?;
    let mut enough = left.disk.call_count();
    let mut too_few = 0u64;
    for _ in 0..64u32 {
        let middle = too_few.saturating_add(enough) / 2;
        if middle == too_few {
            return Some(enough);
        }
        let left = run_stopped(rt, copy_of(rt, store)?, script, middle)?;
        if left.replies() == replies {
            enough = middle;
        } else {
            too_few = middle;
        }
    }
    None
}

/// Whether a look at the objects of a store, by the word `dump` or `check`, writes this.
pub fn looks_so(rt: &impl Host, disk: MemDisk, word: &str, text: &[u8]) -> bool {
    match format!(in rt.alloc(); "{word} store") {
        Ok(words) => match run_in_pieces(rt, words.as_str(), disk, b"", 8) {
            Some(left) => left.is(Status::Done, text),
            None => false,
        },
        Err(_) => false,
    }
}

/// What is left of a copy of a store whose opening is stopped after so many calls of the disk, and that a crash follows.
pub fn opening_stopped(rt: &impl Host, store: &MemDisk, calls: u64, pick: u64) -> Option<MemDisk> {
    let left = run_stopped(rt, copy_of(rt, store)?, b"", calls)?;
    Some(left.disk.crash(pick))
}

/// Whether a script over this disk ends so, with these replies.
pub fn run_goes(
    rt: &impl Host,
    disk: MemDisk,
    script: &[u8],
    status: Status,
    replies: &[u8],
) -> bool {
    match run(rt, disk, script) {
        Some(left) => left.is(status, replies),
        None => false,
    }
}

/// How many of a script's lines that end with the word `commit` were answered `ok`. Each line has a reply.
pub fn acknowledged(script: &[u8], replies: &[u8]) -> usize {
    let mut count = 0usize;
    for (line, reply) in script
        .split(|b| *b == b'\n')
        .zip(replies.split(|b| *b == b'\n'))
    {
        if line.ends_with(b" commit") && reply == b"ok".as_slice() {
            count = count.saturating_add(1);
        }
    }
    count
}
