ghost use Rattle.std.specs.Prelude.{◌≡◌, ◌≤◌, ◌<◌, length};
ghost use Rattle.sg_ops.specs.Table.{table_of};
ghost use Rattle.sg_store.specs.Heeds.{Heeds};
ghost use Rattle.sg_session.specs.Seen.{session_engine, Serves};
ghost use Rattle.sg_script.specs.Ending.{HasCause, MOST_OF_PIECE};
ghost use Rattle.sg_script.specs.Seen.{HasRun};

use crate::buffer::LineBuffer;
use crate::feed::feed;
use crate::room::Room;
use sg_base::{Sink, Source};
use sg_ops::Ops;
use sg_session::Session;
use sg_store::{Lists, Marks, Truncates};
use std::alloc::Global;

/// The most bytes of a script.
const MOST_BYTES: u64 = 268_435_456;

/// How the run of a script ends.
#[derive(Clone, Copy)]
pub enum RunEnd {
    /// The script was read to its end.
    Done,
    /// The source failed.
    Read,
    /// The sink failed.
    Write,
    /// The source gave more than a script may have.
    TooLong,
}

/// Executes the lines of a script as the source gives them, with the operations of the session's records.
pub fn run_script<E: Lists + Truncates + Marks, S: Source, K: Sink>(
    alloc: Global,
    ops: &Ops,
    session: &mut Session<E>,
    room: &mut Room,
    script: &mut S,
    out: &mut K,
    piece: &mut [u8],
) -> RunEnd
    requires some { 0 < length piece.old }
    requires small { length piece.old ≤ MOST_OF_PIECE }
    requires serves { Serves (table_of record_meaning range_meaning ops.now) session.old }
    ensures serves { Serves (table_of record_meaning range_meaning ops.now) session.new }
    // which lines were executed, what they were answered, and what a crash leaves
    ensures ran { HasRun result (table_of record_meaning range_meaning ops.now) session.old session.new (S.left script.old) (S.left script.new) (K.taken out.old) (K.taken out.new) }
    ensures cause { HasCause result (S.faults script.old) (S.faults script.new) (K.faults out.old) (K.faults out.new) }
    ensures told { (E.view (session_engine session.new)).Told → (E.view (session_engine session.old)).Told }
    ensures heeds { Heeds session.old.store.stop session.new.store.stop (E.view (session_engine session.old)) (E.view (session_engine session.new)) }
{
    let mut line = LineBuffer::new();
    let mut total: u64 = 0;
    'pieces: loop {
        let Ok(count) = script.read(piece) else {
            return RunEnd::Read;
        };
        if count == 0 {
            let values = room.values.as_mut_slice();
            let reply = room.reply.as_mut_slice();
            return match session.line(alloc, ops, line.bytes(), values, reply, out) {
                Ok(()) => RunEnd::Done,
                Err(_) => RunEnd::Write,
            };
        }
        if count as u64 > MOST_BYTES - total {
            return RunEnd::TooLong;
        }
        total += count as u64;
        match feed(alloc, ops, session, room, &mut line, &piece[..count], out) {
            Ok(()) => {}
            Err(_) => return RunEnd::Write,
        }
    }
}
