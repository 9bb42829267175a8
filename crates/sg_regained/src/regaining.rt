// An engine that an opening found is brought to where its first action may begin.
ghost use Rattle.std.specs.Prelude.{◌≡◌, ◌<◌, ◌≤◌, ◌+◌, ◌^◌, ℕ, true, false, length, Some, Ok, Err, OnOk, IfOk, IfErr};
ghost use Rattle.sg_alloc.specs.Flags.{map_bands_of};
ghost use Rattle.sg_base.specs.Ends.{HasRisen};
ghost use Rattle.sg_ops.specs.Table.{Table, table_of};
ghost use Rattle.sg_recovery.specs.Chains.{next_lsn};
ghost use Rattle.sg_recovery.specs.Formed.{IsLog};
ghost use Rattle.sg_action.specs.States.{State};
ghost use Rattle.sg_contents.specs.Standing.{Contents};
ghost use Rattle.sg_reader.specs.Alike.{ReadsAs};
ghost use Rattle.sg_actions.specs.Engine.{AreBy, led};
ghost use Rattle.sg_actions.specs.View.{HasFreedNone};
ghost use Rattle.sg_actions.specs.WentOff.{OffCounts};
ghost use Rattle.sg_unread.specs.Unread.{LooksOn};
ghost use Rattle.sg_found.specs.Looks.{AreBytes};
ghost use Rattle.sg_walked.specs.Walked.{IsWalked};
ghost use Rattle.sg_resumed.specs.Taking.{LeadsOff};
ghost use Rattle.sg_store.specs.Engine.{KeepsBy, AsMeantBy, AskedBy, Counts};
ghost use Rattle.sg_starting.specs.Starting.{IsFound, CanResume, IsRead, TakesOff, TakenOff, IsStartDisk, IsStartEnd, IfBroken};
ghost use Rattle.sg_shown.specs.Shown.{AsFound, over, opened, shown};
ghost use Rattle.sg_regained.specs.Regained.{TookOff, RestsAt, EndVacant, CanGoOver, IsStopped, HasStopped, OverCounts, HasGoneOver, started};

use crate::sizes::{has_sizes, may_be};
use crate::sparing::{Spared, with_spare};
use sg_actions::{Acts, Engine, Parts};
use sg_alloc::Maps;
use sg_found::take_first;
use sg_ops::Ops;
use sg_reach::ReachFault;
use sg_resumed::{WithoutEnd, go_over, take_off};
use sg_space::SpaceFault;
use sg_starting::StartFault;
use sg_walked::Walked;

/// A space over an engine that wasn't brought to its first action, and why.
pub struct Unresumed<E: Engine> {
    pub why: StartFault,
    pub acts: Acts<E>,
}

// Takes off what an action did that has no end, if one has none. No action is open then, and the system acts.
fn off_open<E: Engine>(acts: Acts<E>, ops: &Ops) -> WithoutEnd<E>
    requires by { (E.view acts.engine).Told → AreBy (E.means acts.engine) (table_of record_meaning range_meaning ops.now) }
    requires found { (E.view acts.engine).Told → AsFound (over acts) }
    requires formed { (E.view acts.engine).Told → IsLog (E.view acts.engine).base (E.view acts.engine).steps }
    requires below { (E.view acts.engine).Told → next_lsn (E.view acts.engine).steps ≤ (E.view acts.engine).tail }
    requires off { let t = table_of record_meaning range_meaning ops.now in (from : State) → E.means acts.engine t from → (E.view acts.engine).Told → LeadsOff t (led from (E.view acts.engine)) }
    ensures means { let t = table_of record_meaning range_meaning ops.now in (from : State) → E.means acts.engine t from → E.means result.acts.engine t from }
    ensures counts { OffCounts (E.view acts.engine) (E.view result.acts.engine) acts.breaks result.acts.breaks result.off }
    ensures took { let t = table_of record_meaning range_meaning ops.now in (from : State) → E.means acts.engine t from → (E.view acts.engine).Told →
        TookOff (E.recovers t) t acts.actor.txn.0 (led from (E.view acts.engine)) (led from (E.view result.acts.engine)) }
    ensures rests { let t = table_of record_meaning range_meaning ops.now in (from : State) → E.means acts.engine t from →
        OnOk result.off (result.within ≡ true → (E.view result.acts.engine).Told → RestsAt (E.view result.acts.engine) result.acts.rows.items result.acts.actor) }
    ensures unfreed { result.acts.unfreed ≡ acts.unfreed }
{
    if acts.has_last() {
        return take_off(acts, ops);
    }
    let off = Ok(());
    let within = true;
    WithoutEnd { acts, off, within }
}

// A space over an engine behind a take-off, how that ended, and whether the space can be gone on with: the action began
// in the log, or is none of the system, and there was memory for rows.
struct OpenEnded<E: Engine> {
    acts: Acts<E>,
    off: Result<(), SpaceFault>,
    goes_on: bool,
}

// Both hold.
fn both(first: bool, second: bool) -> bool
    ensures first { result ≡ true → first ≡ true }
    ensures second { result ≡ true → second ≡ true }
{
    first && second
}

// The same, and vacant rows stand behind the others then, in which transactions may begin.
fn end_open<E: Engine>(acts: Acts<E>, ops: &Ops) -> OpenEnded<E>
    requires by { (E.view acts.engine).Told → AreBy (E.means acts.engine) (table_of record_meaning range_meaning ops.now) }
    requires found { (E.view acts.engine).Told → AsFound (over acts) }
    requires formed { (E.view acts.engine).Told → IsLog (E.view acts.engine).base (E.view acts.engine).steps }
    requires below { (E.view acts.engine).Told → next_lsn (E.view acts.engine).steps ≤ (E.view acts.engine).tail }
    requires off { let t = table_of record_meaning range_meaning ops.now in (from : State) → E.means acts.engine t from → (E.view acts.engine).Told → LeadsOff t (led from (E.view acts.engine)) }
    ensures means { let t = table_of record_meaning range_meaning ops.now in (from : State) → E.means acts.engine t from → E.means result.acts.engine t from }
    ensures counts { OffCounts (E.view acts.engine) (E.view result.acts.engine) acts.breaks result.acts.breaks result.off }
    ensures took { let t = table_of record_meaning range_meaning ops.now in (from : State) → E.means acts.engine t from → (E.view acts.engine).Told →
        TookOff (E.recovers t) t acts.actor.txn.0 (led from (E.view acts.engine)) (led from (E.view result.acts.engine)) }
    ensures rests { let t = table_of record_meaning range_meaning ops.now in (from : State) → E.means acts.engine t from →
        OnOk result.off (result.goes_on ≡ true → (E.view result.acts.engine).Told → RestsAt (E.view result.acts.engine) result.acts.rows.items result.acts.actor) }
    ensures unfreed { result.acts.unfreed ≡ acts.unfreed }
    ensures spare { result.goes_on ≡ true → EndVacant result.acts.rows.items }
{
    let WithoutEnd { acts, off, within } = off_open(acts, ops);
    let Spared { acts, has_rows } = with_spare(acts);
    let goes_on = both(within, has_rows);
    OpenEnded { acts, off, goes_on }
}

// An engine over whose pages a walk has gone, how many breaks that counted, and what is taken, or why it isn't known.
struct Reached<E: Engine> {
    engine: E,
    breaks: u64,
    taken: Result<Maps, StartFault>,
}

// One more break is counted.
fn one_more(breaks: u64) -> u64
    ensures later { breaks ≤ result }
    ensures risen { HasRisen breaks result }
{
    breaks.saturating_add(1)
}

// So many more are.
fn more_breaks(breaks: u64, more: u64) -> u64
    ensures exact { result + 1 < 2 ^ 64 → result ≡ breaks + more }
    ensures later { breaks ≤ result }
    ensures same { more ≡ 0 → result ≡ breaks }
{
    breaks.saturating_add(more)
}

// Why a walk has failed.
fn why_of(fault: ReachFault) -> StartFault
    ensures { result ≡ started fault }
{
    match fault {
        ReachFault::Space(fault) => StartFault::Space(fault),
        ReachFault::Broken(page) => StartFault::Broken(page),
    }
}

// Nothing more is asked of an engine, of which isn't known what is taken.
fn stopped<E: Engine>(engine: E, breaks: u64, why: StartFault) -> Reached<E>
    ensures stopped { IsStopped (E.view engine) (E.view result.engine) }
    ensures breaks { result.breaks ≡ breaks }
    ensures taken { result.taken ≡ Err why }
{
    let mut engine = engine;
    engine.stop();
    Reached {
        engine,
        breaks,
        taken: Err(why),
    }
}

// Goes over all that the objects in an engine's pages reach, and answers what is taken.
fn reach_with<E: Engine>(engine: E, room: Maps, pages: u32, bands: u32) -> Reached<E>
    requires pages { length room.pages ≡ pages }
    requires bands { length room.bands ≡ bands }
    requires first { 0 < pages }
    requires map { map_bands_of pages bands ≤ bands }
    requires few { pages ≤ 1048576 }
    ensures { HasGoneOver E.recovers pages bands (E.view engine) (E.view result.engine) result.breaks (E.means engine) (E.means result.engine) result.taken }
{
    let mut room = room;
    take_first(&mut room, pages, bands);
    let Walked {
        engine,
        breaks,
        found,
    } = go_over(engine, pages, bands, &mut room);
    match found {
        Ok(()) => {}
        Err(fault) => return stopped(engine, breaks, why_of(fault)),
    }
    if !has_sizes(&room, pages, bands) {
        return stopped(
            engine,
            one_more(breaks),
            StartFault::Space(SpaceFault::Disk),
        );
    }
    Reached {
        engine,
        breaks,
        taken: Ok(room),
    }
}

// Whether a walk can go with this room over so many pages and bands, of which none is freed.
fn can_reach(unfreed: &Maps, room: &Maps, pages: u32, bands: u32) -> bool
    ensures pages { result ≡ true → length room.now.pages ≡ pages }
    ensures bands { result ≡ true → length room.now.bands ≡ bands }
    ensures first { result ≡ true → 0 < pages }
    ensures map { result ≡ true → map_bands_of pages bands ≤ bands }
    ensures freed { result ≡ true → HasFreedNone unfreed.now }
    ensures no { result ≡ false → CanGoOver (Some room.now) unfreed.now pages bands → ⊥ }
{
    let sized = has_sizes(room, pages, bands);
    let may = may_be(pages, bands);
    let whole = unfreed.free_pages() == 0;
    let whole_bands = unfreed.free_bands() == 0;
    sized && may && whole && whole_bands
}

// The same with the flags that are lent, if any are. A break is counted where there are none, or too few.
fn reach_lent<E: Engine>(
    engine: E,
    room: Option<Maps>,
    unfreed: &Maps,
    pages: u32,
    bands: u32,
) -> Reached<E>
    requires can { (E.view engine).Told → CanGoOver room unfreed.now pages bands }
    requires few { pages ≤ 1048576 }
    ensures reached { HasGoneOver E.recovers pages bands (E.view engine) (E.view result.engine) result.breaks (E.means engine) (E.means result.engine) result.taken }
    ensures freed { OnOk result.taken (HasFreedNone unfreed.now) }
{
    let Some(room) = room else {
        return stopped(engine, 1, StartFault::Space(SpaceFault::Disk));
    };
    if !can_reach(unfreed, &room, pages, bands) {
        return stopped(engine, 1, StartFault::Space(SpaceFault::Disk));
    }
    reach_with(engine, room, pages, bands)
}

// Goes over all that the objects reach, with the flags that are lent for it, and says then what is taken.
fn reach_all<E: Engine>(acts: Acts<E>, room: Option<Maps>) -> Result<Acts<E>, Unresumed<E>>
    requires can { (E.view acts.engine).Told → CanGoOver room acts.unfreed (length acts.maps.pages) (length acts.maps.bands) }
    ensures looks { (t : Table) → IfOk result (λ e. LooksOn E.recovers t (E.view acts.engine) (E.view e.engine) (E.means acts.engine) (E.means e.engine)) }
    ensures stopped { (t : Table) → IfErr result (λ u. HasStopped E.recovers t (E.view acts.engine) (E.view u.acts.engine) (E.means acts.engine)) }
    ensures counts { IfOk result (λ e. OverCounts (E.view acts.engine) (E.view e.engine) acts.breaks e.breaks (Ok e)) }
    ensures failed { IfErr result (λ u. OverCounts {T = Unit {0}} (E.view acts.engine) (E.view u.acts.engine) acts.breaks u.acts.breaks (Err u.why)) }
    ensures walked { IfOk result (λ e. (E.view acts.engine).Told → IsWalked (length acts.maps.pages) (length acts.maps.bands) (E.view acts.engine).now e.maps) }
    ensures bytes { (t : Table) (from : State) → E.means acts.engine t from →
        IfOk result (λ e. (E.view acts.engine).Told → AreBytes e.maps.pages (length acts.maps.pages) (E.view acts.engine).now) }
    ensures pages { IfOk result (λ e. length e.maps.pages ≡ length acts.maps.pages) }
    ensures bands { IfOk result (λ e. length e.maps.bands ≡ length acts.maps.bands) }
    ensures unfreed { IfOk result (λ e. e.unfreed ≡ acts.unfreed) }
    ensures rows { IfOk result (λ e. e.rows ≡ acts.rows) }
    ensures actor { IfOk result (λ e. e.actor ≡ acts.actor) }
    ensures begun { IfOk result (λ e. e.begun ≡ false) }
    ensures broken { IfErr result (λ u. IfBroken u.why ((E.view acts.engine).Told → (s : Contents) → ReadsAs (length acts.maps.pages) (length acts.maps.bands) (E.view acts.engine).now s → ⊥)) }
{
    let Parts {
        engine,
        maps,
        unfreed,
        actor,
        rows,
        breaks,
        begun: _,
        count,
        bands,
    } = acts.into_parts();
    let Reached {
        engine,
        breaks: more,
        taken,
    } = reach_lent(engine, room, &unfreed, count, bands);
    let breaks = more_breaks(breaks, more);
    match taken {
        Ok(taken) => Ok(Acts::of_parts(Parts {
            engine,
            maps: taken,
            unfreed,
            actor,
            rows,
            breaks,
            begun: false,
            count,
            bands,
        })),
        Err(why) => {
            let acts = Acts::of_parts(Parts {
                engine,
                maps,
                unfreed,
                actor,
                rows,
                breaks,
                begun: false,
                count,
                bands,
            });
            Err(Unresumed { why, acts })
        }
    }
}

/// Brings a space over an engine that an opening found to where its first action may begin: what an action did that
/// has no end is taken off, all that the objects reach is gone over, with the flags that are lent for it, and what is
/// free is counted. `Broken` where the pages don't read as objects then, and `Memory` where there is none for the rows of
/// transactions that may begin, or where the log begins within an action of the system, which no store leaves: no walk is
/// made then.
pub fn resume<E: Engine>(
    acts: Acts<E>,
    room: Option<Maps>,
    ops: &Ops,
) -> Result<Acts<E>, Unresumed<E>>
    requires can { let t = table_of record_meaning range_meaning ops.now in AskedBy t (opened acts room) (CanResume t) }
    ensures done { IfOk result (λ e. Counts IsStartDisk (opened acts room) (shown e) (Ok e)) }
    ensures failed { IfErr result (λ u. Counts {T = Unit {0}} IsStartDisk (opened acts room) (shown u.acts) (Err u.why)) }
    ensures means { IfOk result (λ e. KeepsBy (table_of record_meaning range_meaning ops.now) (opened acts room) (shown e)) }
    ensures log_end { IfErr result (λ u. IsStartEnd (shown u.acts).tail u.why) }
    ensures takes { let t = table_of record_meaning range_meaning ops.now in
        IfOk result (λ e. AsMeantBy t (opened acts room) (shown e) (λ g v w. IsFound t g v
        → (c : TakesOff t g v w) × TakenOff t g v w c.made)) }
    ensures refused { let t = table_of record_meaning range_meaning ops.now in
        IfErr result (λ u. AsMeantBy t (opened acts room) (shown u.acts) (λ g v w. IsFound t g v
        → TakesOff t g v w)) }
    // It is done only where the pages read as objects, and a page is broken only where they don't.
    ensures reads { let t = table_of record_meaning range_meaning ops.now in
        IfOk result (λ e. AsMeantBy t (opened acts room) (shown e) (λ g v w. IsFound t g v
        → (o : g.O) × IsRead t g v o)) }
    ensures broken { let t = table_of record_meaning range_meaning ops.now in
        IfErr result (λ u. IfBroken u.why (AsMeantBy t (opened acts room) (shown u.acts) (λ g v w. IsFound t g v
        → (o : g.O) → IsRead t g v o → ⊥))) }
{
    ops.laws();
    let OpenEnded { acts, off, goes_on } = end_open(acts, ops);
    match off {
        Ok(()) => {}
        Err(fault) => {
            let why = StartFault::Space(fault);
            return Err(Unresumed { why, acts });
        }
    }
    if !goes_on {
        let why = StartFault::Memory;
        return Err(Unresumed { why, acts });
    }
    match reach_all(acts, room) {
        Ok(acts) => Ok(acts),
        Err(not) => Err(not),
    }
}
