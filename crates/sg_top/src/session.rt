// A session of the library: a store that answers the lines of a script, one at a time.
ghost use Rattle.std.specs.Prelude.{◌≡◌, ◌||◌, [], false, None, OnOk, OnErr, IfOk, IfErr, IsSome, is_none, length};
ghost use Rattle.sg_base.specs.Ends.{HasRisen, Takes, TakesFront};
ghost use Rattle.sg_ops.specs.Table.{table_of};
ghost use Rattle.sg_words.specs.Answers.{text_of_answer};
ghost use Rattle.sg_session.specs.Names.{all_live};
ghost use Rattle.sg_commands.specs.Images.{IsPresumed};
ghost use Rattle.sg_commands.specs.Opening.{IsOpened, StaysShut};
ghost use Rattle.sg_top.specs.Sessions.{HasFinished, status_of_session};

use sg_base::{Failed, OutOfMemory, Sink};
use sg_commands::{OpenRefused, Opens, Status, Unopened};
use sg_disk::Presumed;
use sg_model::Stop;
use sg_ops::Ops;
use sg_script::Room;
use sg_session::Names;
use std::alloc::Global;
use std::marker::PhantomData;
use std::thread::Threads;

// Whether an answer was written, for a store that has stopped so or hasn't: where the sink failed before that, it is noted.
fn heard(written: Result<(), Failed>, stop: Option<Stop>, unheard: &mut bool) -> Result<(), Failed>
    ensures written { result ≡ written }
    ensures heard { OnOk result (unheard.new ≡ unheard.old) }
    ensures unheard { OnErr result (unheard.new ≡ (is_none stop || unheard.old)) }
{
    match written {
        Ok(()) => Ok(()),
        Err(Failed) => {
            if stop.is_none() {
                *unheard = true;
            }
            Err(Failed)
        }
    }
}

// The status of a session's first fault, of which it is known whether the sink failed before the store had stopped.
fn status_of(unheard: bool, stop: Option<Stop>) -> Status
    ensures { result ≡ status_of_session unheard stop }
{
    if unheard {
        return Status::Write;
    }
    match stop {
        None => Status::Done,
        Some(Stop::Disk) => Status::Disk,
        Some(Stop::LogEnd) => Status::LogEnd,
    }
}

// The memory that a session takes beside its store's.
#[derive(Drop)]
struct Rooms {
    room: Room,
    names: Names,
}

fn make_rooms(alloc: Global) -> Result<Rooms, OutOfMemory>
    ensures unnamed { IfOk result (λ r. all_live r.names.all.items ≡ []) }
{
    let room = Room::new(alloc)?;
    let names = Names::new(alloc)?;
    Ok(Rooms { room, names })
}

/// A store that answers the lines of a script, one at a time, over the engine that opens it.
pub struct SessionOver<D: Presumed, E: Opens<D>> {
    inner: sg_session::Session<E>,
    // whether the sink failed before the store had stopped
    unheard: bool,
    room: Room,
    disk: PhantomData<D>,
}

impl<D: Presumed, E: Opens<D>> SessionOver<D, E> {
    ghost use Rattle.sg_run.specs.Run.{Run};
    ghost use Rattle.sg_store.specs.Engine.{KeepsBy, AsMeantBy};
    ghost use Rattle.sg_store.specs.Ground.{IsLawful};
    ghost use Rattle.sg_store.specs.Heeds.{Heeds};
    ghost use Rattle.sg_session.specs.Lines.{line_of};
    ghost use Rattle.sg_session.specs.OneLine.{OneLine};
    ghost use Rattle.sg_session.specs.Seen.{session_core, session_engine, Serves, HasAnswered, HasKeptUp, HasCut, HandsAtCommit};
    ghost use Rattle.sg_session.specs.Shows.{Shows};

    /// Opens the store on a disk, whose records are of these operations. What is presumed of the disk is that the
    /// image which reads give is that of a store. A refusal hands the disk back, as opening left it.
    pub fn start<R: Threads + Sync>(
        rt: &R,
        alloc: Global,
        ops: &Ops,
        disk: D,
    ) -> Result<SessionOver<D, E>, Unopened<D>>
        requires presumed { IsPresumed E.basis E.says (table_of record_meaning range_meaning ops.now) D.told D.presumed (D.view disk) }
        ensures serves { IfOk result (λ s. Serves (table_of record_meaning range_meaning ops.now) s.inner) }
        ensures opens { IfOk result (λ s. IsOpened E.basis E.says (table_of record_meaning range_meaning ops.now) D.told D.presumed (D.view disk) (E.view (session_engine s.inner)) (session_core s.inner).store) }
        ensures unnamed { IfOk result (λ s. (session_core s.inner).names ≡ []) }
        ensures heard { IfOk result (λ s. s.unheard ≡ false) }
        ensures refused { IfErr result (λ u. StaysShut E.basis E.says (table_of record_meaning range_meaning ops.now) D.told D.presumed (D.view disk) (D.view u.disk) u.why) }
    {
        let Ok(rooms) = make_rooms(alloc) else {
            let why = OpenRefused::Memory;
            return Err(Unopened { why, disk });
        };
        let Rooms { room, names } = rooms;
        match E::open(rt, alloc, ops, disk) {
            Ok(store) => Ok(SessionOver {
                inner: sg_session::Session::over(store, names),
                unheard: false,
                room,
                disk: PhantomData,
            }),
            Err(unopened) => Err(unopened),
        }
    }

    /// Ends the session. Unless the store has stopped, the live transactions abort in order of begin, a checkpoint
    /// is made, and all that was done is written home. Answers the status of the first fault of its lines and of this, which is `Done`,
    /// `Disk`, `Write` or `LogEnd`, and the disk.
    pub fn finish(self, ops: &Ops) -> (Status, D)
        requires serves { Serves (table_of record_meaning range_meaning ops.now) self.inner }
        ensures { HasFinished E.Engine (table_of record_meaning range_meaning ops.now) (session_engine self.inner) (session_core self.inner) self.unheard result.0 (D.view result.1) }
    {
        let SessionOver {
            inner,
            unheard,
            room: _,
            disk: _,
        } = self;
        let (stop, engine) = inner.finish(ops);
        let status = status_of(unheard, stop);
        (status, engine.into_disk())
    }

    /// Answers one line, without its LF and of any length, and writes the reply line. The operations are
    /// those with which the session was started. Where the sink fails, the line was executed, and a
    /// front of its reply was taken.
    pub fn line<K: Sink>(
        &mut self,
        alloc: Global,
        ops: &Ops,
        text: &[u8],
        out: &mut K,
    ) -> Result<(), Failed>
        requires serves { Serves (table_of record_meaning range_meaning ops.now) self.old.inner }
        ensures serves { Serves (table_of record_meaning range_meaning ops.now) self.new.inner }
        // A session that has stopped changes no more, and makes no call of its engine.
        ensures stopped { IsSome (session_core self.old.inner).store.stopped → self.new.inner ≡ self.old.inner }
        ensures heeds { Heeds (session_core self.old.inner).store.stopped (session_core self.new.inner).store.stopped (E.view (session_engine self.old.inner)) (E.view (session_engine self.new.inner)) }
        ensures told { (E.view (session_engine self.new.inner)).Told → (E.view (session_engine self.old.inner)).Told }
        ensures means { KeepsBy (table_of record_meaning range_meaning ops.now) (E.view (session_engine self.old.inner)) (E.view (session_engine self.new.inner)) }
        // One answer, of which the sink takes the line: its cause, and for each run that the session shows where
        // its engine tells, which run it then shows.
        ensures line { let t = table_of record_meaning range_meaning ops.now in
            OnOk result (HasAnswered t self.old.inner self.new.inner (line_of text.now) (λ answer. Takes (K.taken out.old) (text_of_answer answer) (K.taken out.new))) }
        ensures cut { let t = table_of record_meaning range_meaning ops.now in
            OnErr result (HasAnswered t self.old.inner self.new.inner (line_of text.now) (λ answer. TakesFront (K.taken out.old) (text_of_answer answer) (K.taken out.new))) }
        // What a crash leaves of one line, where the store hasn't stopped.
        ensures one_line { let t = table_of record_meaning range_meaning ops.now in
            (session_core self.old.inner).store.stopped ≡ None → AsMeantBy t (E.view (session_engine self.old.inner)) (E.view (session_engine self.new.inner)) (λ g v w.
            (x : Run) → IsLawful t g → Shows t g v (session_core self.old.inner) x
            → OneLine t g v x (line_of text.now) w (session_core self.new.inner).store.stopped) }
        // A flush, a checkpoint and a truncation that don't stop the session are made, and a commit that drops nothing hands
        // over little more than its log.
        ensures kept_up { HasKeptUp (line_of text.now) self.old.inner self.new.inner }
        ensures cuts { HasCut E.first_frame_end E.last_checkpoint E.is_spent (line_of text.now) self.old.inner self.new.inner }
        ensures hands { (session_core self.old.inner).store.stopped ≡ None → HandsAtCommit (line_of text.now) self.old.inner self.new.inner }
        ensures quiet { OnOk result (K.faults out.new ≡ K.faults out.old) }
        ensures failed { OnErr result (HasRisen (K.faults out.old) (K.faults out.new)) }
        // The session's status is that of its first fault: in a line the store stops before the sink fails.
        ensures heard { OnOk result (self.new.unheard ≡ self.old.unheard) }
        ensures unheard { OnErr result (self.new.unheard ≡ (is_none (session_core self.new.inner).store.stopped || self.old.unheard)) }
    {
        let written = self.inner.line(
            alloc,
            ops,
            text,
            self.room.values.as_mut_slice(),
            self.room.reply.as_mut_slice(),
            out,
        );
        heard(written, self.inner.stop(), &mut self.unheard)
    }
}
