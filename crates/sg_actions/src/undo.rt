// The undo of a transaction.
ghost use Rattle.std.specs.Prelude.{◌≡◌, option_map, IfSome, IfNone};
ghost use Rattle.sg_record.specs.Ranges.{IsRecord};
ghost use Rattle.sg_record.specs.Shown.{shown, shown_change};
ghost use Rattle.sg_actions.specs.PuttingBack.{shown_hop, shown_stood};
ghost use Rattle.sg_actions.specs.Steps.{step_of};
ghost use Rattle.sg_actions.specs.Reads.{AreOfRecord, ReadsHop, ReadsSeen};
ghost use Rattle.sg_actions.specs.Undoing.{Hop, SeesBy, hop_in, stood_in, stood_by, is_of_bytes};

use crate::acts::count_break;
use crate::rows::{Actor, keep_row, last_in};
use crate::settling::{settle_bands, settle_pages};
use crate::spelling::{copy_piece, is_number, spell_bytes};
use crate::{Acts, Engine};
use sg_alloc::map_bands;
use sg_base::{BandNo, Lsn, TxnId};
use sg_record::{BandBytes, Change, Rec, decode};
use sg_space::{SpaceFault, UndoNote};

// The bytes of the greatest record.
const GREATEST: usize = 16_417;

/// A note that was found: the number of its record, the record before that one, and where undoing goes
/// on behind it.
#[derive(Clone, Copy)]
pub struct Found {
    pub at: Lsn,
    pub prev: Lsn,
    pub undo_next: Lsn,
}

/// What an undo sees at a record on its way back.
#[derive(Clone, Copy)]
pub enum Seen {
    /// The end of an action, with the record before it and where undoing goes on behind it.
    Note { prev: Lsn, undo_next: Lsn },
    /// Undoing goes on at this record.
    On(Lsn),
    /// The transaction's begin.
    Begin,
}

// What an undo sees at a record, if it is one of a transaction. The bytes of a note are handed out.
fn see(r: &Rec<'_>, into: &mut UndoNote) -> Option<Seen>
    requires { IsRecord (shown r.now) }
    ensures { SeesBy (step_of (shown r.now)) into.new result }
{
    match *r {
        Rec::Begin { .. } => Some(Seen::Begin),
        Rec::TopEnd {
            prev,
            undo_next,
            note,
            ..
        } => {
            into.set(note);
            Some(Seen::Note { prev, undo_next })
        }
        Rec::TopVoid { undo_next, .. } | Rec::CompEnd { undo_next, .. } => {
            Some(Seen::On(undo_next))
        }
        Rec::Page { prev, .. }
        | Rec::SegWrite { prev, .. }
        | Rec::SegOp { prev, .. }
        | Rec::PhysComp { prev, .. }
        | Rec::Save { prev, .. }
        | Rec::Commit { prev, .. }
        | Rec::End { prev, .. } => Some(Seen::On(prev)),
        Rec::Checkpoint { .. } => None,
    }
}

// What a way back over an action meets at a record: the change that it makes, if it takes none off, and
// where the way goes on.
fn hop_at<'a>(r: &Rec<'a>) -> Option<(Option<Change<'a>>, Lsn)>
    ensures { option_map shown_hop result ≡ hop_in (step_of (shown r.now)) }
{
    match *r {
        Rec::Page { prev, change, .. } => Some((Some(Change::Page(change)), prev)),
        Rec::SegWrite { prev, change, .. } => Some((Some(Change::SegWrite(change)), prev)),
        Rec::SegOp { prev, change, .. } => Some((Some(Change::SegOp(change)), prev)),
        Rec::PhysComp { undo_next, .. } => Some((None, undo_next)),
        _ => None,
    }
}

// What an undo sees at the record that these bytes are of. The bytes of a note are handed out.
fn read_seen(bytes: &[u8], into: &mut UndoNote) -> Option<Seen>
    ensures { ReadsSeen bytes.now into.new result }
{
    let Ok((r, _)) = decode(bytes) else {
        return None;
    };
    see(&r, into)
}

// What a way back over an action meets at the record that these bytes are of, where the way goes on at one
// below its number.
fn read_hop<'a>(bytes: &'a [u8], at: Lsn) -> Option<(Option<Change<'a>>, Lsn)>
    ensures range { IfSome result (λ p. AreOfRecord bytes.now) }
    ensures reads { IfSome result (λ p. ReadsHop bytes.now at (shown_hop p)) }
    ensures none { IfNone result ((hop : Hop) → ReadsHop bytes.now at hop → ⊥) }
{
    let Ok((r, _)) = decode(bytes) else {
        return None;
    };
    let Some((change, next)) = hop_at(&r) else {
        return None;
    };
    if next >= at {
        return None;
    }
    Some((change, next))
}

// The bytes that stood where a change wrote into a band, as ones to be written there, where it keeps some
// and the band is none of those before `outside`.
fn stood_at<'a>(change: &Change<'a>, outside: u32) -> Option<BandBytes<'a>>
    ensures { option_map shown_stood result ≡ stood_in outside (shown_change change.now) }
{
    let (band, at, count, before) = match *change {
        Change::Page(_) => return None,
        Change::SegWrite(c) => (c.band, c.at, c.count, c.before),
        Change::SegOp(c) => (c.band, c.at, c.count, c.before),
    };
    if before.is_empty() {
        return None;
    }
    if band.0 < outside {
        return None;
    }
    Some(BandBytes {
        band,
        at,
        count,
        before: &[],
        after: before,
    })
}

// The same of what a way back meets at a record.
fn part_of<'a>(change: Option<Change<'a>>, outside: u32) -> Option<BandBytes<'a>>
    ensures { option_map shown_stood result ≡ stood_by outside (option_map shown_change change.entry) }
{
    match change {
        None => None,
        Some(change) => stood_at(&change, outside),
    }
}

// Whether a note says that bytes of bands come back.
fn is_of_bytes(note: &[u8]) -> bool
    ensures { result ≡ is_of_bytes note.now }
{
    !note.is_empty() && note[0] == 9
}

impl<E: Engine> Acts<E> {
    ghost use Rattle.std.specs.Prelude.{◌≡◌, ◌<◌, ◌≤◌, ◌||◌, ℕ, true, false, length, is_some, IsSome, IfOk, IfErr, OnOk};
    ghost use Rattle.sg_alloc.specs.Flags.{map_bands_of};
    ghost use Rattle.sg_ops.specs.Table.{Table};
    ghost use Rattle.sg_space.specs.Bands.{IsPiece};
    ghost use Rattle.sg_action.specs.States.{State};
    ghost use Rattle.sg_actions.specs.Later.{acts_at, Later};
    ghost use Rattle.sg_actions.specs.Led.{HasStayed};
    ghost use Rattle.sg_actions.specs.PuttingBack.{HasHop, IsOwnWay, PutBytes, PutOne, CanPutBack, PutAll, UndoStepped, MayUndo};
    ghost use Rattle.sg_recovery.specs.Log.Record.{CompEnd};
    ghost use Rattle.sg_actions.specs.Acting.{HasChain};
    ghost use Rattle.sg_actions.specs.Calls.{Appends};
    ghost use Rattle.sg_actions.specs.Ending.{CanEndUndo, UndoEnded};
    ghost use Rattle.sg_actions.specs.Counts.{ActsCounts};
    ghost use Rattle.sg_actions.specs.Engine.{EngineCounts, HasStep, Moments, Keeps, led};
    ghost use Rattle.sg_actions.specs.Undoing.{SeesAt, CanUndo, FindsNote, IsNextUndo};
    ghost use Rattle.sg_actions.specs.View.{IsKept, Since};

    // Looks at a record on the way back of an undo. The bytes of a note are handed out.
    fn look_back(&mut self, at: Lsn, into: &mut UndoNote) -> Result<Seen, SpaceFault>
        requires there { HasStep (E.view self.old.engine) at }
        requires kept { (E.view self.old.engine).Told → E.first_byte self.old.engine ≤ at }
        ensures counts { ActsCounts (E.view self.old.engine) (E.view self.new.engine) self.old.breaks self.new.breaks result }
        ensures only_disk { IfErr result (λ f. f ≡ SpaceFault.Disk) }
        ensures means { Keeps (E.means self.old.engine) (E.means self.new.engine) }
        ensures stays { (t : Table) (from : State) → E.means self.old.engine t from → OnOk result (HasStayed (led from (E.view self.old.engine)) (led from (E.view self.new.engine))) }
        ensures saw { (t : Table) (from : State) → E.means self.old.engine t from → IfOk result (λ s. (E.view self.old.engine).Told → SeesAt (E.view self.old.engine).steps at into.new s) }
        ensures maps { self.new.maps ≡ self.old.maps }
        ensures unfreed { self.new.unfreed ≡ self.old.unfreed }
        ensures rows { self.new.rows.items ≡ self.old.rows.items }
        ensures actor { self.new.actor ≡ self.old.actor }
        ensures begun { self.new.begun ≡ self.old.begun }
        // also of a call that fails
        ensures moments { (t : Table) (from : State) → E.means self.old.engine t from → (E.view self.old.engine).Told → Moments (E.recovers t) t (led from (E.view self.old.engine)) (led from (E.view self.new.engine)) (E.view self.old.engine).steps }
    {
        let mut text = [0u8; GREATEST];
        let size = self.engine.read(at, &mut text)?;
        let Some(seen) = read_seen(&text[..size], into) else {
            return Err(count_break(&mut self.breaks));
        };
        Ok(seen)
    }

    // Walks back over a transaction's records to its last note that isn't undone, where it is behind
    // the record at which to stop. Each record is below the last one.
    fn find_note(
        &mut self,
        txn: TxnId,
        stop: Lsn,
        into: &mut UndoNote,
    ) -> Result<Option<Found>, SpaceFault>
        requires { CanUndo (E.view self.old.engine) self.old.unfreed self.old.rows.items self.old.actor txn.0 stop }
        ensures counts { ActsCounts (E.view self.old.engine) (E.view self.new.engine) self.old.breaks self.new.breaks result }
        ensures only_disk { IfErr result (λ f. f ≡ SpaceFault.Disk) }
        ensures means { Keeps (E.means self.old.engine) (E.means self.new.engine) }
        ensures stays { (t : Table) (from : State) → E.means self.old.engine t from → OnOk result (HasStayed (led from (E.view self.old.engine)) (led from (E.view self.new.engine))) }
        ensures finds { (t : Table) (from : State) → E.means self.old.engine t from → IfOk result (λ f. (E.view self.old.engine).Told → FindsNote (E.view self.old.engine).steps txn.0 stop into.new f) }
        ensures maps { self.new.maps ≡ self.old.maps }
        ensures unfreed { self.new.unfreed ≡ self.old.unfreed }
        ensures rows { self.new.rows.items ≡ self.old.rows.items }
        ensures actor { self.new.actor ≡ self.old.actor }
        ensures begun { self.new.begun ≡ self.old.begun }
        // also of a call that fails
        ensures moments { (t : Table) (from : State) → E.means self.old.engine t from → (E.view self.old.engine).Told → Moments (E.recovers t) t (led from (E.view self.old.engine)) (led from (E.view self.new.engine)) (E.view self.old.engine).steps }
    {
        let Some(last) = last_in(self.rows.as_slice(), txn) else {
            return Err(count_break(&mut self.breaks));
        };
        let mut at = last;
        'walk: while at > stop {
            match self.look_back(at, into)? {
                Seen::Note { prev, undo_next } => {
                    return Ok(Some(Found {
                        at,
                        prev,
                        undo_next,
                    }));
                }
                Seen::On(next) => {
                    if next >= at {
                        return Err(count_break(&mut self.breaks));
                    }
                    at = next;
                }
                Seen::Begin => return Ok(None),
            }
        }
        Ok(None)
    }

    /// The number of the record whose note `undo_step` would undo, if there is one. Nothing changes.
    pub fn next_undo(&mut self, txn: TxnId, stop: Lsn) -> Result<Option<Lsn>, SpaceFault>
        requires { CanUndo (E.view self.old.engine) self.old.unfreed self.old.rows.items self.old.actor txn.0 stop }
        ensures counts { ActsCounts (E.view self.old.engine) (E.view self.new.engine) self.old.breaks self.new.breaks result }
        ensures only_disk { IfErr result (λ f. f ≡ SpaceFault.Disk) }
        ensures means { Keeps (E.means self.old.engine) (E.means self.new.engine) }
        ensures stays { (t : Table) (from : State) → E.means self.old.engine t from → OnOk result (HasStayed (led from (E.view self.old.engine)) (led from (E.view self.new.engine))) }
        ensures next { IfOk result (IsNextUndo (E.view self.old.engine) txn.0 stop) }
        ensures kept { (limits : State → ℕ → ℕ) (t : Table) (from : State) → E.means self.old.engine t from → OnOk result ((E.view self.old.engine).Told → IsKept t limits (led from (E.view self.old.engine)) self.old.maps self.old.rows.items self.old.actor → IsKept t limits (led from (E.view self.new.engine)) self.new.maps self.new.rows.items self.new.actor) }
        ensures maps { self.new.maps ≡ self.old.maps }
        ensures unfreed { self.new.unfreed ≡ self.old.unfreed }
        ensures rows { self.new.rows.items ≡ self.old.rows.items }
        ensures actor { self.new.actor ≡ self.old.actor }
        ensures begun { self.new.begun ≡ self.old.begun }
        // also of a call that fails
        ensures moments { (t : Table) (from : State) → E.means self.old.engine t from → (E.view self.old.engine).Told → Moments (E.recovers t) t (led from (E.view self.old.engine)) (led from (E.view self.new.engine)) (E.view self.old.engine).steps }
    {
        let mut note = UndoNote::new();
        let Some(found) = self.find_note(txn, stop, &mut note)? else {
            return Ok(None);
        };
        Ok(Some(found.at))
    }

    // Writes bytes into a part of a band, as a change of who acts.
    fn put_bytes(&mut self, b: BandNo, at: u32, bytes: &[u8]) -> Result<(), SpaceFault>
        requires band { b.0 < 65536 }
        requires piece { IsPiece at (length bytes.now) }
        requires there { (E.view self.old.engine).Told → b.0 < (E.view self.old.engine).extent.bands }
        requires begun { self.old.begun ≡ true }
        ensures counts { ActsCounts (E.view self.old.engine) (E.view self.new.engine) self.old.breaks self.new.breaks result }
        ensures means { Keeps (E.means self.old.engine) (E.means self.new.engine) }
        ensures did { (t : Table) (from : State) → E.means self.old.engine t from → OnOk result (PutBytes t (led from (E.view self.old.engine)) (led from (E.view self.new.engine)) self.old.rows.items self.old.actor self.new.actor (b.0, (at, bytes.now))) }
        ensures maps { self.new.maps ≡ self.old.maps }
        ensures unfreed { self.new.unfreed ≡ self.old.unfreed }
        ensures rows { self.new.rows.items ≡ self.old.rows.items }
        ensures begun { self.new.begun ≡ self.old.begun }
        // also of a call that fails
        ensures later { (limits : State → ℕ → ℕ) (t : Table) → Later E.recovers limits t
            (acts_at (E.view self.old.engine) (E.means self.old.engine) (E.view self.old.begun_at.value).now self.old.maps self.old.rows.items self.old.actor self.old.begun)
            (acts_at (E.view self.new.engine) (E.means self.new.engine) (E.view self.new.begun_at.value).now self.new.maps self.new.rows.items self.new.actor self.new.begun) }
    {
        let count = bytes.len();
        let mut before = [0u8; 8192];
        let stood = &mut before[..count];
        self.engine.load_band(b)?;
        copy_piece(self.engine.band(b), at, count, stood);
        is_number(self.actor.txn.0);
        is_number(self.actor.last);
        let record = Rec::SegWrite {
            txn: self.actor.txn,
            prev: self.actor.last,
            change: spell_bytes(b, at, count as u32, stood, bytes),
        };
        self.actor.last = self.engine.log(&record)?;
        Ok(())
    }

    // Puts the bytes back that stood where a change wrote into a band, and answers at which record the
    // way back over its action goes on.
    fn put_one_back(&mut self, at: Lsn) -> Result<Lsn, SpaceFault>
        requires hop { (E.view self.old.engine).Told → HasHop (E.view self.old.engine).steps at }
        requires kept { (E.view self.old.engine).Told → E.first_byte self.old.engine ≤ at }
        requires begun { self.old.begun ≡ true }
        ensures lower { IfOk result (λ next. next < at) }
        ensures counts { ActsCounts (E.view self.old.engine) (E.view self.new.engine) self.old.breaks self.new.breaks result }
        ensures means { Keeps (E.means self.old.engine) (E.means self.new.engine) }
        ensures did { (t : Table) (from : State) → E.means self.old.engine t from → IfOk result (PutOne (map_bands_of (length self.old.maps.pages) (length self.old.maps.bands)) t (led from (E.view self.old.engine)) (led from (E.view self.new.engine)) self.old.rows.items self.old.actor self.new.actor at) }
        ensures maps { self.new.maps ≡ self.old.maps }
        ensures unfreed { self.new.unfreed ≡ self.old.unfreed }
        ensures rows { self.new.rows.items ≡ self.old.rows.items }
        ensures begun { self.new.begun ≡ self.old.begun }
        // also of a call that fails
        ensures later { (limits : State → ℕ → ℕ) (t : Table) → Later E.recovers limits t
            (acts_at (E.view self.old.engine) (E.means self.old.engine) (E.view self.old.begun_at.value).now self.old.maps self.old.rows.items self.old.actor self.old.begun)
            (acts_at (E.view self.new.engine) (E.means self.new.engine) (E.view self.new.begun_at.value).now self.new.maps self.new.rows.items self.new.actor self.new.begun) }
    {
        let mut text = [0u8; GREATEST];
        let size = self.engine.read(at, &mut text)?;
        let Some((change, next)) = read_hop(&text[..size], at) else {
            return Err(count_break(&mut self.breaks));
        };
        let outside = map_bands(self.count, self.bands);
        let Some(part) = part_of(change, outside) else {
            return Ok(next);
        };
        self.put_bytes(part.band, part.at, part.after)?;
        Ok(next)
    }

    // Puts the bytes back of all changes on a way back over an action, those of the last one first.
    fn put_back(&mut self, from: Lsn, to: Lsn) -> Result<(), SpaceFault>
        requires can { (E.view self.old.engine).Told → ∥ CanPutBack (E.view self.old.engine) self.old.rows.items self.old.actor to from ∥₁ }
        requires own { (E.view self.old.engine).Told → IsOwnWay self.old.actor to }
        requires begun { self.old.begun ≡ true }
        ensures counts { ActsCounts (E.view self.old.engine) (E.view self.new.engine) self.old.breaks self.new.breaks result }
        ensures means { Keeps (E.means self.old.engine) (E.means self.new.engine) }
        ensures did { (t : Table) (start : State) → E.means self.old.engine t start → OnOk result (PutAll (map_bands_of (length self.old.maps.pages) (length self.old.maps.bands)) t (led start (E.view self.old.engine)) (led start (E.view self.new.engine)) self.old.rows.items self.old.actor self.new.actor to from) }
        ensures maps { self.new.maps ≡ self.old.maps }
        ensures unfreed { self.new.unfreed ≡ self.old.unfreed }
        ensures rows { self.new.rows.items ≡ self.old.rows.items }
        ensures begun { self.new.begun ≡ self.old.begun }
        // also of a call that fails
        ensures later { (limits : State → ℕ → ℕ) (t : Table) → Later E.recovers limits t
            (acts_at (E.view self.old.engine) (E.means self.old.engine) (E.view self.old.begun_at.value).now self.old.maps self.old.rows.items self.old.actor self.old.begun)
            (acts_at (E.view self.new.engine) (E.means self.new.engine) (E.view self.new.begun_at.value).now self.new.maps self.new.rows.items self.new.actor self.new.begun) }
    {
        let mut at = from;
        'back: while at != to {
            at = self.put_one_back(at)?;
        }
        Ok(())
    }

    /// Comes to the transaction's last note that isn't undone, hands it out, and answers where undoing
    /// goes on behind it; there is none where it isn't behind the record at which to stop. Where it is a
    /// note of bytes, those come back that stood where its action wrote into bands, but for those of the
    /// allocation map. The transaction acts
    /// then, and what undoes the note is to follow as changes of its action.
    pub fn undo_step(
        &mut self,
        txn: TxnId,
        stop: Lsn,
        into: &mut UndoNote,
    ) -> Result<Option<Lsn>, SpaceFault>
        requires { CanUndo (E.view self.old.engine) self.old.unfreed self.old.rows.items self.old.actor txn.0 stop }
        ensures counts { ActsCounts (E.view self.old.engine) (E.view self.new.engine) self.old.breaks self.new.breaks result }
        ensures means { Keeps (E.means self.old.engine) (E.means self.new.engine) }
        ensures did { (t : Table) (from : State) → E.means self.old.engine t from → IfOk result (UndoStepped (map_bands_of (length self.old.maps.pages) (length self.old.maps.bands)) t (led from (E.view self.old.engine)) (led from (E.view self.new.engine)) self.old.rows.items self.old.actor self.new.actor txn.0 stop into.new) }
        ensures maps { self.new.maps ≡ self.old.maps }
        ensures unfreed { self.new.unfreed ≡ self.old.unfreed }
        ensures rows { self.new.rows.items ≡ self.old.rows.items }
        ensures begun { IfOk result (λ next. self.new.begun ≡ (is_some next || self.old.begun)) }
        ensures since { (t : Table) (from : State) → E.means self.old.engine t from → IfOk result (λ next. IsSome next →
            Since (E.means self.new.engine) (E.view self.new.engine) self.new.begun (E.view self.new.begun_at.value).now t from) }
        // also of a call that fails
        ensures undoes { (limits : State → ℕ → ℕ) (t : Table) (from : State) → E.means self.old.engine t from → (E.view self.old.engine).Told → IsKept t limits (led from (E.view self.old.engine)) self.old.maps self.old.rows.items self.old.actor →
            MayUndo (E.recovers t) t limits (led from (E.view self.old.engine)) (led from (E.view self.new.engine)) self.old.maps self.new.rows.items self.new.actor txn.0 }
    {
        let Some(found) = self.find_note(txn, stop, into)? else {
            return Ok(None);
        };
        self.act(txn);
        if is_of_bytes(into.bytes()) {
            self.put_back(found.prev, found.undo_next)?;
        }
        Ok(Some(found.undo_next))
    }

    /// Ends the action that undid the note to which `undo_step` came, with where it answered that undoing
    /// goes on. No action is open then, and the system acts.
    pub fn end_undo(&mut self, txn: TxnId, after: Lsn) -> Result<(), SpaceFault>
        requires can { CanEndUndo (E.view self.old.engine) self.old.actor txn.0 after }
        requires chain { HasChain (E.view self.old.engine) self.old.rows.items self.old.actor }
        ensures counts { EngineCounts (E.view self.old.engine) (E.view self.new.engine) result }
        ensures means { Keeps (E.means self.old.engine) (E.means self.new.engine) }
        ensures did { (limits : State → ℕ → ℕ) (t : Table) (from : State) → E.means self.old.engine t from → OnOk result (UndoEnded t limits (led from (E.view self.old.engine)) (led from (E.view self.new.engine)) self.old.maps self.new.maps self.old.unfreed self.new.unfreed self.old.rows.items self.new.rows.items self.old.actor self.new.actor after) }
        ensures pages { length self.new.maps.pages ≡ length self.old.maps.pages }
        ensures bands { length self.new.maps.bands ≡ length self.old.maps.bands }
        ensures begun { OnOk result (self.new.begun ≡ false) }
        ensures breaks { self.new.breaks ≡ self.old.breaks }
        // also of a call that fails
        ensures appends { (limits : State → ℕ → ℕ) (t : Table) (from : State) → E.means self.old.engine t from → (E.view self.old.engine).Told → IsKept t limits (led from (E.view self.old.engine)) self.old.maps self.old.rows.items self.old.actor →
            Appends (E.recovers t) t (led from (E.view self.old.engine)) (led from (E.view self.new.engine)) (CompEnd self.old.actor.txn.0 self.old.actor.last after) }
    {
        let actor = self.actor;
        is_number(actor.txn.0);
        is_number(actor.last);
        is_number(after);
        let lsn = self.engine.log(&Rec::CompEnd {
            txn: actor.txn,
            prev: actor.last,
            undo_next: after,
        })?;
        keep_row(&mut self.rows, actor.txn, lsn);
        self.actor = Actor {
            txn: TxnId(0),
            last: 0,
            before: 0,
        };
        self.begun = false;
        settle_pages(&mut self.maps, &mut self.unfreed);
        settle_bands(&mut self.maps, &mut self.unfreed);
        Ok(())
    }
}
