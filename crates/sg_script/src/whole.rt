ghost use Rattle.std.specs.Prelude.{◌≡◌, ◌⊎◌, ◌≤◌, ◌<◌, ℕ, length, Some, None};
ghost use Rattle.sg_checkpoints.specs.Checkpoints.{EndsMarked};
ghost use Rattle.sg_model.specs.declared.stop.Stop.{Stop as StopWhy};
ghost use Rattle.sg_ops.specs.Table.{table_of};
ghost use Rattle.sg_run.specs.Numbers.{IsAtEnd};
ghost use Rattle.sg_store.specs.Engine.{KeepsBy};
ghost use Rattle.sg_store.specs.Heeds.{Heeds};
ghost use Rattle.sg_session.specs.Seen.{session_engine, Serves};
ghost use Rattle.sg_script.specs.Ending.{HasCause, MOST_OF_PIECE};
ghost use Rattle.sg_script.specs.Seen.{RanTo};

use crate::room::Room;
use crate::script::{RunEnd, run_script};
use sg_base::{Sink, Source};
use sg_model::Stop;
use sg_ops::Ops;
use sg_session::Session;
use sg_store::{Lists, Marks, Truncates};
use std::alloc::Global;

/// How the run of a session ended.
pub struct Ended<E> {
    /// How its script ended.
    pub end: RunEnd,
    /// Why the session had stopped by then, if it had.
    pub by_then: Option<Stop>,
    /// Why it has stopped behind its end, if it has.
    pub stop: Option<Stop>,
    /// Its engine.
    pub engine: E,
}

/// Runs a script by a session, with the operations of its records, and ends the session, also where the
/// source or the sink has failed.
pub fn run<E: Lists + Truncates + Marks, S: Source, K: Sink>(
    alloc: Global,
    ops: &Ops,
    session: Session<E>,
    room: &mut Room,
    script: &mut S,
    out: &mut K,
    piece: &mut [u8],
) -> Ended<E>
    requires some { 0 < length piece.old }
    requires small { length piece.old ≤ MOST_OF_PIECE }
    requires serves { Serves (table_of record_meaning range_meaning ops.now) session }
    ensures means { KeepsBy (table_of record_meaning range_meaning ops.now) (E.view (session_engine session)) (E.view result.engine) }
    // one account of the run: what was executed and answered, why, and what a crash leaves of it
    ensures ran { RanTo result.end (table_of record_meaning range_meaning ops.now) session (S.left script.old) (S.left script.new) (K.taken out.old) (K.taken out.new) result.by_then result.stop result.engine }
    ensures cause { HasCause result.end (S.faults script.old) (S.faults script.new) (K.faults out.old) (K.faults out.new) }
    // what stops a session in its script it is stopped for at the end
    ensures stays { (why : StopWhy) → result.by_then ≡ Some why → result.stop ≡ Some why }
    // and else it stops for the log's end only where a record might pass that
    ensures full { result.stop ≡ Some Stop.LogEnd → (result.by_then ≡ Some Stop.LogEnd) ⊎ IsAtEnd (E.view result.engine).tail }
    ensures heeds { Heeds session.store.stop result.stop (E.view (session_engine session)) (E.view result.engine) }
    // where it hasn't stopped all is home, and the last record of each image that a crash leaves now is a checkpoint
    ensures written { result.stop ≡ None → (lsn : ℕ) → E.unwritten result.engine lsn → ⊥ }
    ensures marked { result.stop ≡ None → (E.view (session_engine session)).Told → EndsMarked (E.view (session_engine session)).tail (E.marked result.engine) E.ends_at (E.view result.engine).disk.now }
{
    let mut session = session;
    let end = run_script(alloc, ops, &mut session, room, script, out, piece);
    let by_then = session.stop();
    let (stop, engine) = session.finish(ops);
    Ended {
        end,
        by_then,
        stop,
        engine,
    }
}
