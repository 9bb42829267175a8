ghost use Rattle.std.specs.Prelude.{◌≡◌, [], ◌++◌, OnOk, OnErr};
ghost use Rattle.sg_base.specs.Ends.{HasRisen, Takes, TakesFront};
ghost use Rattle.sg_ops.specs.Table.{table_of};
ghost use Rattle.sg_words.specs.Answers.{text_of_answer};
ghost use Rattle.sg_store.specs.Heeds.{Heeds};
ghost use Rattle.sg_session.specs.Lines.{line_of};
ghost use Rattle.sg_session.specs.Seen.{session_engine, Serves};
ghost use Rattle.sg_script.specs.Seen.{Goes, IsFed, IsBroken};

use crate::buffer::LineBuffer;
use crate::room::Room;
use sg_base::{Failed, Sink};
use sg_ops::Ops;
use sg_session::Session;
use sg_store::{Lists, Marks, Truncates};
use sg_words::cut;
use std::alloc::Global;

// Executes the line that a part ends, behind what has come of it before. A line that stands whole in the
// part is answered where it stands.
fn end_line<E: Lists + Truncates + Marks, K: Sink>(
    alloc: Global,
    ops: &Ops,
    session: &mut Session<E>,
    room: &mut Room,
    pending: &mut LineBuffer,
    part: &[u8],
    out: &mut K,
) -> Result<(), Failed>
    requires serves { Serves (table_of record_meaning range_meaning ops.now) session.old }
    ensures serves { Serves (table_of record_meaning range_meaning ops.now) session.new }
    ensures line { OnOk result (Goes (table_of record_meaning range_meaning ops.now) session.old session.new (line_of (pending.old ++ part.now)) (λ answer. Takes (K.taken out.old) (text_of_answer answer) (K.taken out.new))) }
    ensures cut { OnErr result (Goes (table_of record_meaning range_meaning ops.now) session.old session.new (line_of (pending.old ++ part.now)) (λ answer. TakesFront (K.taken out.old) (text_of_answer answer) (K.taken out.new))) }
    ensures over { pending.new ≡ [] }
    ensures told { (E.view (session_engine session.new)).Told → (E.view (session_engine session.old)).Told }
    ensures heeds { Heeds session.old.store.stop session.new.store.stop (E.view (session_engine session.old)) (E.view (session_engine session.new)) }
    ensures quiet { OnOk result (K.faults out.new ≡ K.faults out.old) }
    ensures failed { OnErr result (HasRisen (K.faults out.old) (K.faults out.new)) }
{
    let values = room.values.as_mut_slice();
    let reply = room.reply.as_mut_slice();
    if pending.is_empty() {
        return session.line(alloc, ops, part, values, reply, out);
    }
    pending.push(part);
    let answered = session.line(alloc, ops, pending.bytes(), values, reply, out);
    pending.clear();
    answered
}

/// Executes the lines that a piece of a script ends, and keeps what has come of the next line.
pub fn feed<E: Lists + Truncates + Marks, K: Sink>(
    alloc: Global,
    ops: &Ops,
    session: &mut Session<E>,
    room: &mut Room,
    pending: &mut LineBuffer,
    piece: &[u8],
    out: &mut K,
) -> Result<(), Failed>
    requires serves { Serves (table_of record_meaning range_meaning ops.now) session.old }
    ensures serves { Serves (table_of record_meaning range_meaning ops.now) session.new }
    ensures fed { OnOk result (IsFed (table_of record_meaning range_meaning ops.now) session.old session.new (K.taken out.old) (K.taken out.new) pending.old piece.now pending.new) }
    ensures broken { OnErr result (IsBroken (table_of record_meaning range_meaning ops.now) session.old session.new (K.taken out.old) (K.taken out.new) pending.old piece.now) }
    ensures told { (E.view (session_engine session.new)).Told → (E.view (session_engine session.old)).Told }
    ensures heeds { Heeds session.old.store.stop session.new.store.stop (E.view (session_engine session.old)) (E.view (session_engine session.new)) }
    ensures quiet { OnOk result (K.faults out.new ≡ K.faults out.old) }
    ensures failed { OnErr result (HasRisen (K.faults out.old) (K.faults out.new)) }
{
    let mut rest = piece;
    'lines: loop {
        let (part, more) = cut(rest, b'\n');
        let Some(after) = more else {
            pending.push(part);
            return Ok(());
        };
        match end_line(alloc, ops, session, room, pending, part, out) {
            Ok(()) => {}
            Err(_) => return Err(Failed),
        }
        rest = after;
    }
}
