// Looks at the records of an action that has no end, and at pages.
ghost use Rattle.std.specs.Prelude.{◌≡◌, ◌<◌, ◌≤◌, ℕ, true, false, None, Some, IsSome, IfOk, IfSome, length};
ghost use Rattle.sg_base.specs.Bytes.{IsBytes};
ghost use Rattle.sg_base.specs.Sheet.{sheet_of, HasBytes};
ghost use Rattle.sg_ops.specs.Table.{Table};
ghost use Rattle.sg_record.specs.Shown.{shown};
ghost use Rattle.sg_recovery.specs.Formed.{IsLog, IsUnfinished};
ghost use Rattle.sg_recovery.specs.Chains.{last_of};
ghost use Rattle.sg_action.specs.States.{State};
ghost use Rattle.sg_actions.specs.Engine.{HasStep};
ghost use Rattle.sg_actions.specs.Steps.{step_of, step_at};
ghost use Rattle.sg_actions.specs.Taken.{is_set};
ghost use Rattle.sg_found.specs.Found.{back_by, HasBack, IsFrom, IsOpenAt};
ghost use Rattle.sg_found.specs.declared.looking.Back.TheVariants.{Other};
ghost use Rattle.sg_found.specs.Looks.{HasLooked, SaysBytes, AreBytes, LacksSome};

use sg_actions::Engine;
use sg_alloc::Maps;
use sg_base::{Lsn, PageNo, SlotView};
use sg_record::{Rec, decode};
use sg_space::SpaceFault;

// The bytes of the greatest record.
const GREATEST: usize = 16_417;

/// What a way back over an action sees at a record.
#[derive(Clone, Copy, Debug, PartialEq, Eq)]
pub enum Back {
    /// A change, with the record before it.
    Changed(Lsn),
    /// A change was taken off: the take-off goes on at this record.
    TakenOff(Lsn),
    /// None of these.
    Other,
}

// What it sees at this one.
fn back_of(r: &Rec<'_>) -> Back
    ensures { result ≡ back_by (step_of (shown r.now)) }
{
    match *r {
        Rec::Page { prev, .. } | Rec::SegWrite { prev, .. } | Rec::SegOp { prev, .. } => {
            Back::Changed(prev)
        }
        Rec::PhysComp { undo_next, .. } => Back::TakenOff(undo_next),
        Rec::Begin { .. }
        | Rec::TopEnd { .. }
        | Rec::TopVoid { .. }
        | Rec::CompEnd { .. }
        | Rec::Save { .. }
        | Rec::Commit { .. }
        | Rec::End { .. }
        | Rec::Checkpoint { .. } => Back::Other,
    }
}

// Looks at a record of the log. What can't be read is none of an action.
fn look_back<E: Engine>(engine: &mut E, at: Lsn) -> Result<Back, SpaceFault>
    requires there { HasStep (E.view engine.old) at }
    requires kept { (E.view engine.old).Told → E.first_byte engine.old ≤ at }
    ensures looks { HasLooked E.recovers (E.view engine.old) (E.view engine.new) (E.means engine.old) (E.means engine.new) result }
    ensures saw { (t : Table) (from : State) → E.means engine.old t from →
        IfOk result (λ b. (E.view engine.old).Told → b ≡ back_by (step_at (E.view engine.old).steps at)) }
{
    let mut text = [0u8; GREATEST];
    let size = engine.read(at, &mut text)?;
    match decode(&text[..size]) {
        Ok((r, _)) => Ok(back_of(&r)),
        Err(_) => Ok(Back::Other),
    }
}

// Where a take-off goes on, by the last record of its action. `None` where that is none of an action.
fn find_from<E: Engine>(engine: &mut E, last: Lsn) -> Result<Option<Lsn>, SpaceFault>
    requires there { HasStep (E.view engine.old) last }
    requires kept { (E.view engine.old).Told → E.first_byte engine.old ≤ last }
    ensures looks { HasLooked E.recovers (E.view engine.old) (E.view engine.new) (E.means engine.old) (E.means engine.new) result }
    ensures found { (t : Table) (from : State) → E.means engine.old t from →
        IfOk result (λ r. (E.view engine.old).Told → IfSome r (IsFrom (back_by (step_at (E.view engine.old).steps last)) last)) }
    ensures none { (t : Table) (from : State) → E.means engine.old t from →
        IfOk result (λ r. (E.view engine.old).Told → r ≡ None → back_by (step_at (E.view engine.old).steps last) ≡ Other) }
{
    match look_back(engine, last)? {
        Back::Changed(_) => Ok(Some(last)),
        Back::TakenOff(next) => Ok(Some(next)),
        Back::Other => Ok(None),
    }
}

// The record before an action, from its last open change on, in a log that begins here. `None` where the
// records aren't those of an action.
fn find_before<E: Engine>(engine: &mut E, first: Lsn, start: Lsn) -> Result<Option<Lsn>, SpaceFault>
    requires there { (E.view engine.old).Told → ∥ HasBack (E.view engine.old).steps start first ∥₁ }
    ensures looks { HasLooked E.recovers (E.view engine.old) (E.view engine.new) (E.means engine.old) (E.means engine.new) result }
    ensures found { (t : Table) (from : State) → E.means engine.old t from →
        IfOk result (λ r. (E.view engine.old).Told → (h : HasBack (E.view engine.old).steps start first) → r ≡ Some h.before) }
{
    let mut at = first;
    'changes: while at != 0 {
        if at < start {
            return Ok(Some(at));
        }
        // an open change is a record that the log still has
        if at < engine.start() {
            return Ok(Some(at));
        }
        match look_back(engine, at)? {
            Back::Changed(prev) => {
                if prev >= at {
                    return Ok(None);
                }
                at = prev;
            }
            Back::TakenOff(_) => return Ok(None),
            Back::Other => return Ok(Some(at)),
        }
    }
    Ok(Some(0))
}

/// Where the take-off of an action without an end goes on, and the record before the action, from its
/// last record on, which may be before the log. `None` where the records aren't those of an action.
pub fn find_action<E: Engine>(
    engine: &mut E,
    txn: u64,
    last: Lsn,
) -> Result<Option<(Lsn, Lsn)>, SpaceFault>
    requires formed { (E.view engine.old).Told → IsLog (E.view engine.old).base (E.view engine.old).steps }
    requires unfinished { (E.view engine.old).Told → IsUnfinished (E.view engine.old).steps txn }
    requires last { (E.view engine.old).Told → last ≡ last_of txn (E.view engine.old).steps }
    requires start { (E.view engine.old).Told → (E.view engine.old).base ≡ E.first_byte engine.old }
    ensures looks { HasLooked E.recovers (E.view engine.old) (E.view engine.new) (E.means engine.old) (E.means engine.new) result }
    ensures found { (t : Table) (from : State) → E.means engine.old t from →
        IfOk result (λ r. (E.view engine.old).Told → IfSome r (λ p. IsOpenAt (E.view engine.old).steps (E.view engine.old).base txn p.0 p.1)) }
    ensures some { (t : Table) (from : State) → E.means engine.old t from → IfOk result (λ r. (E.view engine.old).Told → IsSome r) }
{
    let start = engine.start();
    let Some(first) = find_from(engine, last)? else {
        return Ok(None);
    };
    match find_before(engine, first, start)? {
        Some(before) => Ok(Some((first, before))),
        None => Ok(None),
    }
}

// They are bytes.
fn are_bytes(xs: &[u8])
    ensures { IsBytes xs.now }
{}

// The cells of a page are bytes.
fn says_bytes(page: &SlotView<'_>)
    ensures { HasBytes (sheet_of page.now.page.now) }
{
    are_bytes(page.page);
}

// Looks at a page, whose cells are bytes. `false` of one that says nothing.
fn look_at<E: Engine>(engine: &mut E, p: PageNo) -> Result<bool, SpaceFault>
    ensures looks { HasLooked E.recovers (E.view engine.old) (E.view engine.new) (E.means engine.old) (E.means engine.new) result }
    ensures bytes { IfOk result (λ says. says ≡ true → SaysBytes (E.view engine.new).now p.0) }
    ensures none { IfOk result (λ says. says ≡ false → (E.view engine.new).now.pages p.0 ≡ None) }
{
    if !engine.look(p)? {
        return Ok(false);
    }
    says_bytes(&engine.page(p));
    Ok(true)
}

// Looks at a page, if it is taken. `false` where it is, and says nothing.
fn look_if_taken<E: Engine>(engine: &mut E, maps: &Maps, p: PageNo) -> Result<bool, SpaceFault>
    ensures looks { HasLooked E.recovers (E.view engine.old) (E.view engine.new) (E.means engine.old) (E.means engine.new) result }
    ensures bytes { IfOk result (λ says. says ≡ true → is_set maps.now.pages p.0 ≡ true → SaysBytes (E.view engine.new).now p.0) }
    ensures set { IfOk result (λ says. says ≡ false → is_set maps.now.pages p.0 ≡ true) }
    ensures none { IfOk result (λ says. says ≡ false → (E.view engine.new).now.pages p.0 ≡ None) }
{
    if maps.page_taken(p).unwrap_or(false) {
        return look_at(engine, p);
    }
    Ok(true)
}

/// Looks at each page that is taken: its cells are bytes. `false` where one says nothing.
pub fn look_at_pages<E: Engine>(engine: &mut E, maps: &Maps, count: u32) -> Result<bool, SpaceFault>
    ensures looks { HasLooked E.recovers (E.view engine.old) (E.view engine.new) (E.means engine.old) (E.means engine.new) result }
    ensures bytes { (t : Table) (from : State) → E.means engine.old t from →
        IfOk result (λ all. all ≡ true → (E.view engine.old).Told → AreBytes maps.now.pages count (E.view engine.old).now) }
    ensures none { (t : Table) (from : State) → E.means engine.old t from →
        IfOk result (λ all. all ≡ false → (E.view engine.old).Told → LacksSome maps.now.pages count (E.view engine.old).now) }
{
    'pages: for p in 0..count {
        if !look_if_taken(engine, maps, PageNo(p))? {
            return Ok(false);
        }
    }
    Ok(true)
}
