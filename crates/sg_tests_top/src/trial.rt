// A run or a session over a disk in memory, and what is left of it. All calls of the program stand in the functions below, which
// promise nothing: a test sees plain values, and its proof carries none of the program's clauses. They give none where
// memory is refused, a store isn't made, or a session doesn't start.
ghost use Rattle.std.specs.Prelude.{◌<◌};
ghost use Rattle.sg_ops.specs.Table.{table_of};
ghost use Rattle.sg_session.specs.Seen.{Serves};

use crate::quiet::Quiet;
use sg_base::{MemSink, MemSource, Source};
use sg_disk::MemDisk;
use sg_making::Geometry;
use sg_mount::init_store;
use sg_ops::Ops;
use sg_top::{Finish, Session, Status, stasis};
use std::alloc::{AllocError, Global};
use std::thread::Threads;

/// The runtime that a test is given, with threads for openings, and memory.
pub trait Host: Threads + Sync + Alloc<A = Global> {}

impl<R: Threads + Sync + Alloc<A = Global>> Host for R {}

// A disk that tells nothing, so that a session over it asks for nothing.
type Silent = Quiet<MemDisk>;

type Lines = Session<Silent>;

/// A new store is of these sizes.
const SIZES: Geometry = Geometry {
    pages: 512,
    bands: 12,
    frames: 64,
    windows: 8,
};

/// What is left of a run: how it ended, the disk, the calls of it that were refused, and the sink of its replies.
#[derive(Drop)]
pub struct Left {
    pub status: Status,
    pub disk: MemDisk,
    pub refused: u64,
    out: MemSink,
}

impl Left {
    /// Whether it ended so, with these replies.
    pub fn is(&self, status: Status, replies: &[u8]) -> bool {
        self.status == status && self.out.text() == replies
    }

    /// The replies.
    pub fn replies(&self) -> &[u8] {
        self.out.text()
    }
}

/// A disk that has a store without objects.
pub fn new_store(rt: &impl Host) -> Option<MemDisk> {
    let mut disk = MemDisk::new(rt.alloc());
    match init_store(&mut disk, &SIZES) {
        Ok(()) => Some(disk),
        Err(_) => None,
    }
}

/// A disk with the same contents, all of them stable.
pub fn copy_of(rt: &impl Host, disk: &MemDisk) -> Option<MemDisk> {
    if let Ok(home) = disk.home().to_vec(rt.alloc())
        && let Ok(log0) = disk.log0().to_vec(rt.alloc())
        && let Ok(log1) = disk.log1().to_vec(rt.alloc())
    {
        Some(MemDisk::of(rt.alloc(), home, log0, log1))
    } else {
        None
    }
}

fn words_of(rt: &impl Host, text: &str) -> Result<Vec<String>, AllocError> {
    let mut words = Vec::new(rt.alloc());
    for word in text.split(' ') {
        words.push(word.to_string(rt.alloc())?)?;
    }
    Ok(words)
}

// Does what the words say, with these operations.
fn run_words<S: Source>(
    rt: &impl Host,
    ops: Ops,
    words: &[String],
    disk: MemDisk,
    script: &mut S,
    sink_fails: Option<u64>,
) -> Left {
    let mut out = MemSink::new(rt.alloc(), sink_fails);
    let Finish {
        status,
        disk,
        refused,
    } = stasis(rt, rt.alloc(), ops, words, disk, script, &mut out);
    Left {
        status,
        disk,
        refused,
        out,
    }
}

/// Does what the words say, with the shipped operations. The sink's n-th call fails where n is given.
pub fn run_from<S: Source>(
    rt: &impl Host,
    words: &str,
    disk: MemDisk,
    script: &mut S,
    sink_fails: Option<u64>,
) -> Option<Left> {
    if let Ok(words) = words_of(rt, words)
        && let Ok(ops) = Ops::shipped(rt.alloc())
    {
        Some(run_words(rt, ops, &words, disk, script, sink_fails))
    } else {
        None
    }
}

/// The same with a script that comes in pieces of so many bytes.
pub fn run_in_pieces(
    rt: &impl Host,
    words: &str,
    disk: MemDisk,
    script: &[u8],
    piece: usize,
) -> Option<Left>
    requires { 0 < piece }
{
    match script.to_vec(rt.alloc()) {
        Ok(text) => {
            let mut source = MemSource::new(text, piece, None);
            run_from(rt, words, disk, &mut source, None)
        }
        Err(_) => None,
    }
}

/// Runs a script.
pub fn run(rt: &impl Host, disk: MemDisk, script: &[u8]) -> Option<Left> {
    run_in_pieces(rt, "run store", disk, script, 65_536)
}

/// Runs a script over a disk that makes so many calls.
pub fn run_stopped(rt: &impl Host, disk: MemDisk, script: &[u8], calls: u64) -> Option<Left> {
    match format!(in rt.alloc(); "run store --stop-after {calls}") {
        Ok(words) => run_in_pieces(rt, words.as_str(), disk, script, 65_536),
        Err(_) => None,
    }
}

/// Runs a script, and hands back the disk where the run is done with these replies.
pub fn done(rt: &impl Host, disk: MemDisk, script: &[u8], replies: &[u8]) -> Option<MemDisk> {
    match run(rt, disk, script) {
        Some(left) if left.is(Status::Done, replies) => Some(left.disk),
        _ => None,
    }
}

/// Whether a script over a new store ends so, with these replies.
pub fn goes(rt: &impl Host, script: &[u8], status: Status, replies: &[u8]) -> bool {
    match new_store(rt) {
        Some(disk) => run_goes(rt, disk, script, status, replies),
        None => false,
    }
}

/// Whether a script over this disk ends so, with these replies.
pub fn run_goes(
    rt: &impl Host,
    disk: MemDisk,
    script: &[u8],
    status: Status,
    replies: &[u8],
) -> bool {
    match run(rt, disk, script) {
        Some(left) => left.is(status, replies),
        None => false,
    }
}

// Answers lines, which stand behind one another with an LF between.
fn answer_lines(
    rt: &impl Host,
    ops: &Ops,
    session: Lines,
    lines: &str,
    out: &mut MemSink,
) -> (Status, Silent)
    requires serves { Serves (table_of record_meaning range_meaning ops.now) session.inner }
{
    let mut session = session;
    for line in lines.split('\n') {
        let _ = session.line(rt.alloc(), ops, line.as_bytes(), out);
    }
    session.finish(ops)
}

// What a session with these operations leaves that answers lines.
fn answered_with(
    rt: &impl Host,
    ops: &Ops,
    disk: MemDisk,
    lines: &str,
    sink_fails: Option<u64>,
) -> Option<Left> {
    match Lines::start(rt, rt.alloc(), ops, Quiet { inner: disk }) {
        Ok(session) => {
            let mut out = MemSink::new(rt.alloc(), sink_fails);
            let (status, Quiet { inner }) = answer_lines(rt, ops, session, lines, &mut out);
            Some(Left {
                status,
                disk: inner,
                refused: 0,
                out,
            })
        }
        Err(_) => None,
    }
}

/// What a session over a new store leaves that answers lines, with the shipped operations. The sink's
/// n-th call fails where n is given.
pub fn answered(rt: &impl Host, lines: &str, sink_fails: Option<u64>) -> Option<Left> {
    match Ops::shipped(rt.alloc()) {
        Ok(ops) => answered_with(rt, &ops, new_store(rt)?, lines, sink_fails),
        Err(_) => None,
    }
}

/// Whether a session over a new store answers lines so, and has no fault.
pub fn answers(rt: &impl Host, lines: &str, replies: &str) -> bool {
    match answered(rt, lines, None) {
        Some(left) => left.is(Status::Done, replies.as_bytes()),
        None => false,
    }
}
