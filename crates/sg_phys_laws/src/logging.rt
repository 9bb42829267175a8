// Records that are logged where what the pages say allows it.
ghost use Rattle.std.specs.Prelude.{◌≡◌, ◌<◌, ◌≤◌, ◌+◌, ◌++◌, ℕ, max, List, length, Some, None, Err, IfOk, OnOk, IsTrue, option_map};
ghost use Rattle.sg_base.specs.Op.{op_of};
ghost use Rattle.sg_base.specs.declared.page.TheConstants.{BAND_SIZE};
ghost use Rattle.sg_log.specs.Frames.{Numbered, LOG_END};
ghost use Rattle.sg_log.specs.Held.{tail_of, place_of};
ghost use Rattle.sg_ops.specs.Table.{Table, table_of, range_at, rendered};
ghost use Rattle.sg_ops.specs.declared.TheConstants.{RANGE_LIMIT};
ghost use Rattle.sg_record.specs.Changes.Change.{Page, SegWrite, SegOp};
ghost use Rattle.sg_record.specs.Ranges.{IsRecord};
ghost use Rattle.sg_record.specs.Records.{spelled};
ghost use Rattle.sg_engine.specs.declared.fault.EngineFault.{EngineFault};
ghost use Rattle.sg_record.specs.Shown.{shown, shown_change, shown_page, shown_bytes, shown_op};
ghost use Rattle.sg_redo.specs.Places.{changed_by};
ghost use Rattle.sg_engine.specs.Engine.{Origin};
ghost use Rattle.sg_redo.specs.Leaf.{LinksFit};
ghost use Rattle.sg_actions.specs.Handing.{HandsOver};
ghost use Rattle.sg_base.specs.Ends.{HasRisen};
ghost use Rattle.sg_engine.specs.Calls.{WaitsFrame, StandsMeanwhile};
ghost use Rattle.sg_pool.specs.Pooled.{sizes};
ghost use Rattle.sg_phys_laws.specs.Counted.{HasCounted, FailsFor};
ghost use Rattle.sg_phys_laws.specs.Waiting.{waiting_of};
ghost use Rattle.sg_phys_laws.specs.Logged.{SaysPage, IsAsked, IsWrite, HasLogged, HasRun};

use sg_base::{BandNo, Lsn, PageNo, PageOp};
use sg_disk::Disk;
use sg_engine::{Engine, EngineFault};
use sg_ops::{Ops, are_bytes};
use sg_record::{BandBytes, BandOp, Change, PageChange, Rec};
use sg_redo::page_op;
use sg_step::brings_bytes;
use std::alloc::Global;

/// Tells a proof that the links that an operation brings have 4 bytes each. It runs no code.
pub fn links_fit(op: &PageOp<'_>)
    ensures { LinksFit (op_of op.now) }
{
    match *op {
        PageOp::Links { a, b } => {
            let _a = a;
            let _b = b;
        }
        PageOp::Format { .. }
        | PageOp::Put { .. }
        | PageOp::Remove { .. }
        | PageOp::Set { .. }
        | PageOp::Item { .. }
        | PageOp::ItemBack { .. } => {}
    }
}

// The change of a page or of a band that a record makes.
fn change_of<'a>(rec: &Rec<'a>) -> Option<Change<'a>>
    ensures { option_map shown_change result ≡ changed_by (shown rec.now).says }
{
    match *rec {
        Rec::Page { change, .. } => Some(Change::Page(change)),
        Rec::SegWrite { change, .. } => Some(Change::SegWrite(change)),
        Rec::SegOp { change, .. } => Some(Change::SegOp(change)),
        Rec::PhysComp { change, .. } => Some(change),
        _ => None,
    }
}

/// Appends a record that changes no page and no band.
pub fn log_plain<D: Disk>(
    engine: &mut Engine<D>,
    r: &Rec<'_>,
    tried: &mut Lsn,
) -> Result<Lsn, EngineFault>
    requires range { IsRecord (shown r.now) }
    requires says { changed_by (shown r.now).says ≡ None }
    ensures above { max (tail_of engine.old.log) 1 ≤ tried.new }
    ensures number { IfOk result (λ lsn. lsn ≡ tried.new) }
    ensures below { OnOk result (tried.new < tail_of engine.new.log) }
    ensures grown { OnOk result (tail_of engine.new.log ≤ tail_of engine.old.log + (5 + length (spelled (shown r.now)))) }
    ensures counts { HasCounted (D.view engine.old.disk) (D.view engine.new.disk) engine.old.log engine.new.log engine.old.pool engine.new.pool result }
    ensures waits { OnOk result (WaitsFrame engine.new.log) }
    ensures failed { FailsFor D.told (D.view engine.old.disk) engine.old.log engine.old.pool (D.view engine.new.disk) (shown r.now) result }
    ensures near { result ≡ Err EngineFault.LogEnd → LOG_END < tail_of engine.old.log + 131072 }
    ensures within { OnOk result (tried.new + length (spelled (shown r.now)) ≤ LOG_END) }
    ensures past { result ≡ Err EngineFault.LogEnd → LOG_END < tried.new + length (spelled (shown r.now)) }
    ensures place { tried.new ≡ place_of engine.old.log (shown r.now) }
    ensures hands { HandsOver (length (spelled (shown r.now))) (D.view engine.old.disk).handed (waiting_of engine.old.log) (D.view engine.new.disk).handed (waiting_of engine.new.log) result }
    ensures logs { (own given : Table) (o : Origin) (ds ps : List Numbered) → IsTrue D.told → IsAsked own given o (D.view engine.old.disk) engine.old.log ds ps engine.old.pool (shown r.now)
        → OnOk result (HasLogged own o (D.view engine.new.disk) engine.new.log ds (ds ++ ps) (shown r.now) tried.new engine.new.pool) }
    ensures runs { (own given : Table) (o : Origin) (ds ps : List Numbered) → IsTrue D.told → IsAsked own given o (D.view engine.old.disk) engine.old.log ds ps engine.old.pool (shown r.now)
        → HasRun own o (D.view engine.old.disk) (D.view engine.new.disk) engine.old.log engine.new.log engine.old.pool engine.new.pool ds (ds ++ ps) (shown r.now) tried.new result }
    // The record itself isn't durable before the next force.
    ensures stood { StandsMeanwhile D.told (D.view engine.old.disk) engine.old.log engine.old.pool (D.view engine.new.disk) }
    ensures pool { engine.new.pool ≡ engine.old.pool }
{
    *tried = engine.place(r);
    engine.append(r)
}

// Appends the record of an operation on a page and does it to the page.
fn log_to_page<D: Disk>(
    engine: &mut Engine<D>,
    ops: &Ops,
    r: &Rec<'_>,
    p: PageNo,
    op: &PageOp<'_>,
    tried: &mut Lsn,
) -> Result<Lsn, EngineFault>
    requires range { IsRecord (shown r.now) }
    requires says { SaysPage (shown r.now) p.0 (op_of op.now) }
    ensures above { max (tail_of engine.old.log) 1 ≤ tried.new }
    ensures number { IfOk result (λ lsn. lsn ≡ tried.new) }
    ensures below { OnOk result (tried.new < tail_of engine.new.log) }
    ensures grown { OnOk result (tail_of engine.new.log ≤ tail_of engine.old.log + (5 + length (spelled (shown r.now)))) }
    ensures counts { HasCounted (D.view engine.old.disk) (D.view engine.new.disk) engine.old.log engine.new.log engine.old.pool engine.new.pool result }
    ensures waits { OnOk result (WaitsFrame engine.new.log) }
    ensures failed { FailsFor D.told (D.view engine.old.disk) engine.old.log engine.old.pool (D.view engine.new.disk) (shown r.now) result }
    ensures near { result ≡ Err EngineFault.LogEnd → LOG_END < tail_of engine.old.log + 131072 }
    ensures within { OnOk result (tried.new + length (spelled (shown r.now)) ≤ LOG_END) }
    ensures past { result ≡ Err EngineFault.LogEnd → LOG_END < tried.new + length (spelled (shown r.now)) }
    ensures logs { (own : Table) (o : Origin) (ds ps : List Numbered) → IsTrue D.told → IsAsked own (table_of record_meaning range_meaning ops.now) o (D.view engine.old.disk) engine.old.log ds ps engine.old.pool (shown r.now)
        → OnOk result (HasLogged own o (D.view engine.new.disk) engine.new.log ds (ds ++ ps) (shown r.now) tried.new engine.new.pool) }
    ensures runs { (own : Table) (o : Origin) (ds ps : List Numbered) → IsTrue D.told → IsAsked own (table_of record_meaning range_meaning ops.now) o (D.view engine.old.disk) engine.old.log ds ps engine.old.pool (shown r.now)
        → HasRun own o (D.view engine.old.disk) (D.view engine.new.disk) engine.old.log engine.new.log engine.old.pool engine.new.pool ds (ds ++ ps) (shown r.now) tried.new result }
{
    *tried = engine.place(r);
    brings_bytes(op);
    links_fit(op);
    if p.0 >= engine.pages() {
        return Err(EngineFault::Disk);
    }
    match engine.load_page(p) {
        Ok(()) => {}
        Err(fault) => return Err(fault),
    }
    are_bytes(engine.page(p));
    *tried = engine.place(r);
    engine.change_page(r, p, op, ops)
}

// Appends the record of a change of a page, and makes the change.
fn log_page<D: Disk>(
    engine: &mut Engine<D>,
    ops: &Ops,
    r: &Rec<'_>,
    change: &PageChange<'_>,
    tried: &mut Lsn,
) -> Result<Lsn, EngineFault>
    requires range { IsRecord (shown r.now) }
    requires says { changed_by (shown r.now).says ≡ Some (Page (shown_page change.now)) }
    ensures above { max (tail_of engine.old.log) 1 ≤ tried.new }
    ensures number { IfOk result (λ lsn. lsn ≡ tried.new) }
    ensures below { OnOk result (tried.new < tail_of engine.new.log) }
    ensures grown { OnOk result (tail_of engine.new.log ≤ tail_of engine.old.log + (5 + length (spelled (shown r.now)))) }
    ensures counts { HasCounted (D.view engine.old.disk) (D.view engine.new.disk) engine.old.log engine.new.log engine.old.pool engine.new.pool result }
    ensures waits { OnOk result (WaitsFrame engine.new.log) }
    ensures failed { FailsFor D.told (D.view engine.old.disk) engine.old.log engine.old.pool (D.view engine.new.disk) (shown r.now) result }
    ensures near { result ≡ Err EngineFault.LogEnd → LOG_END < tail_of engine.old.log + 131072 }
    ensures within { OnOk result (tried.new + length (spelled (shown r.now)) ≤ LOG_END) }
    ensures past { result ≡ Err EngineFault.LogEnd → LOG_END < tried.new + length (spelled (shown r.now)) }
    ensures logs { (own : Table) (o : Origin) (ds ps : List Numbered) → IsTrue D.told → IsAsked own (table_of record_meaning range_meaning ops.now) o (D.view engine.old.disk) engine.old.log ds ps engine.old.pool (shown r.now)
        → OnOk result (HasLogged own o (D.view engine.new.disk) engine.new.log ds (ds ++ ps) (shown r.now) tried.new engine.new.pool) }
    ensures runs { (own : Table) (o : Origin) (ds ps : List Numbered) → IsTrue D.told → IsAsked own (table_of record_meaning range_meaning ops.now) o (D.view engine.old.disk) engine.old.log ds ps engine.old.pool (shown r.now)
        → HasRun own o (D.view engine.old.disk) (D.view engine.new.disk) engine.old.log engine.new.log engine.old.pool engine.new.pool ds (ds ++ ps) (shown r.now) tried.new result }
{
    let op = page_op(change);
    log_to_page(engine, ops, r, change.page, &op, tried)
}

// Appends the record of a write to a band, and makes it.
fn log_to_band<D: Disk>(
    engine: &mut Engine<D>,
    r: &Rec<'_>,
    b: BandNo,
    at: u32,
    bytes: &[u8],
    tried: &mut Lsn,
) -> Result<Lsn, EngineFault>
    requires range { IsRecord (shown r.now) }
    requires fits { at + length bytes.now ≤ BAND_SIZE }
    ensures above { max (tail_of engine.old.log) 1 ≤ tried.new }
    ensures number { IfOk result (λ lsn. lsn ≡ tried.new) }
    ensures below { OnOk result (tried.new < tail_of engine.new.log) }
    ensures grown { OnOk result (tail_of engine.new.log ≤ tail_of engine.old.log + (5 + length (spelled (shown r.now)))) }
    ensures counts { HasCounted (D.view engine.old.disk) (D.view engine.new.disk) engine.old.log engine.new.log engine.old.pool engine.new.pool result }
    ensures waits { OnOk result (WaitsFrame engine.new.log) }
    ensures failed { b.0 < (sizes engine.old.pool).bands → result ≡ Err EngineFault.Disk → HasRisen (D.view engine.old.disk).faults (D.view engine.new.disk).faults }
    ensures near { result ≡ Err EngineFault.LogEnd → LOG_END < tail_of engine.old.log + 131072 }
    ensures within { OnOk result (tried.new + length (spelled (shown r.now)) ≤ LOG_END) }
    ensures past { result ≡ Err EngineFault.LogEnd → LOG_END < tried.new + length (spelled (shown r.now)) }
    ensures logs { (own : Table) (o : Origin) (ds ps : List Numbered) → IsTrue D.told → IsWrite own o (D.view engine.old.disk) engine.old.log ds ps engine.old.pool (shown r.now) b.0 at bytes.now
        → OnOk result (HasLogged own o (D.view engine.new.disk) engine.new.log ds (ds ++ ps) (shown r.now) tried.new engine.new.pool) }
    ensures runs { (own : Table) (o : Origin) (ds ps : List Numbered) → IsTrue D.told → IsWrite own o (D.view engine.old.disk) engine.old.log ds ps engine.old.pool (shown r.now) b.0 at bytes.now
        → HasRun own o (D.view engine.old.disk) (D.view engine.new.disk) engine.old.log engine.new.log engine.old.pool engine.new.pool ds (ds ++ ps) (shown r.now) tried.new result }
{
    *tried = engine.place(r);
    if b.0 >= engine.bands() {
        return Err(EngineFault::Disk);
    }
    engine.change_band(r, b, at, bytes)
}

// Appends the record of bytes of a band, and writes them.
fn log_bytes<D: Disk>(
    engine: &mut Engine<D>,
    r: &Rec<'_>,
    change: &BandBytes<'_>,
    tried: &mut Lsn,
) -> Result<Lsn, EngineFault>
    requires range { IsRecord (shown r.now) }
    requires says { changed_by (shown r.now).says ≡ Some (SegWrite (shown_bytes change.now)) }
    ensures above { max (tail_of engine.old.log) 1 ≤ tried.new }
    ensures number { IfOk result (λ lsn. lsn ≡ tried.new) }
    ensures below { OnOk result (tried.new < tail_of engine.new.log) }
    ensures grown { OnOk result (tail_of engine.new.log ≤ tail_of engine.old.log + (5 + length (spelled (shown r.now)))) }
    ensures counts { HasCounted (D.view engine.old.disk) (D.view engine.new.disk) engine.old.log engine.new.log engine.old.pool engine.new.pool result }
    ensures waits { OnOk result (WaitsFrame engine.new.log) }
    ensures failed { FailsFor D.told (D.view engine.old.disk) engine.old.log engine.old.pool (D.view engine.new.disk) (shown r.now) result }
    ensures near { result ≡ Err EngineFault.LogEnd → LOG_END < tail_of engine.old.log + 131072 }
    ensures within { OnOk result (tried.new + length (spelled (shown r.now)) ≤ LOG_END) }
    ensures past { result ≡ Err EngineFault.LogEnd → LOG_END < tried.new + length (spelled (shown r.now)) }
    ensures logs { (own given : Table) (o : Origin) (ds ps : List Numbered) → IsTrue D.told → IsAsked own given o (D.view engine.old.disk) engine.old.log ds ps engine.old.pool (shown r.now)
        → OnOk result (HasLogged own o (D.view engine.new.disk) engine.new.log ds (ds ++ ps) (shown r.now) tried.new engine.new.pool) }
    ensures runs { (own given : Table) (o : Origin) (ds ps : List Numbered) → IsTrue D.told → IsAsked own given o (D.view engine.old.disk) engine.old.log ds ps engine.old.pool (shown r.now)
        → HasRun own o (D.view engine.old.disk) (D.view engine.new.disk) engine.old.log engine.new.log engine.old.pool engine.new.pool ds (ds ++ ps) (shown r.now) tried.new result }
{
    log_to_band(engine, r, change.band, change.at, change.after, tried)
}

// Writes what a range operation gives. One that isn't registered gives zeros.
fn render(ops: &Ops, change: &BandOp<'_>, into: &mut [u8])
    requires size { length into.old ≡ change.now.count }
    requires low { change.now.position + change.now.count ≤ RANGE_LIMIT }
    ensures size { length into.new ≡ length into.old }
    ensures text { into.new ≡ rendered (range_at (table_of record_meaning range_meaning ops.now) change.now.code) change.now.arg.now change.now.position change.now.count }
{
    ops.laws();
    if ops.has_range(change.code) {
        ops.render(change.code, change.position, change.arg, into);
    } else {
        ops.render(1, 0, &[], into);
    }
}

// Appends the record of an operation on bytes of a band, and does it.
fn log_op<D: Disk>(
    engine: &mut Engine<D>,
    ops: &Ops,
    r: &Rec<'_>,
    change: &BandOp<'_>,
    tried: &mut Lsn,
) -> Result<Lsn, EngineFault>
    requires range { IsRecord (shown r.now) }
    requires says { changed_by (shown r.now).says ≡ Some (SegOp (shown_op change.now)) }
    ensures above { max (tail_of engine.old.log) 1 ≤ tried.new }
    ensures number { IfOk result (λ lsn. lsn ≡ tried.new) }
    ensures below { OnOk result (tried.new < tail_of engine.new.log) }
    ensures grown { OnOk result (tail_of engine.new.log ≤ tail_of engine.old.log + (5 + length (spelled (shown r.now)))) }
    ensures counts { HasCounted (D.view engine.old.disk) (D.view engine.new.disk) engine.old.log engine.new.log engine.old.pool engine.new.pool result }
    ensures waits { OnOk result (WaitsFrame engine.new.log) }
    ensures failed { FailsFor D.told (D.view engine.old.disk) engine.old.log engine.old.pool (D.view engine.new.disk) (shown r.now) result }
    ensures near { result ≡ Err EngineFault.LogEnd → LOG_END < tail_of engine.old.log + 131072 }
    ensures within { OnOk result (tried.new + length (spelled (shown r.now)) ≤ LOG_END) }
    ensures past { result ≡ Err EngineFault.LogEnd → LOG_END < tried.new + length (spelled (shown r.now)) }
    ensures logs { (own : Table) (o : Origin) (ds ps : List Numbered) → IsTrue D.told → IsAsked own (table_of record_meaning range_meaning ops.now) o (D.view engine.old.disk) engine.old.log ds ps engine.old.pool (shown r.now)
        → OnOk result (HasLogged own o (D.view engine.new.disk) engine.new.log ds (ds ++ ps) (shown r.now) tried.new engine.new.pool) }
    ensures runs { (own : Table) (o : Origin) (ds ps : List Numbered) → IsTrue D.told → IsAsked own (table_of record_meaning range_meaning ops.now) o (D.view engine.old.disk) engine.old.log ds ps engine.old.pool (shown r.now)
        → HasRun own o (D.view engine.old.disk) (D.view engine.new.disk) engine.old.log engine.new.log engine.old.pool engine.new.pool ds (ds ++ ps) (shown r.now) tried.new result }
{
    *tried = engine.place(r);
    ops.laws();
    let mut bytes = [0; 32_768];
    let part = &mut bytes[..change.count as usize];
    render(ops, change, part);
    log_to_band(engine, r, change.band, change.at, part, tried)
}

/// Appends a record, whatever it says, and makes its change. `tried` is the number that the record has,
/// or would have had.
pub fn log_record<D: Disk>(
    engine: &mut Engine<D>,
    ops: &Ops,
    r: &Rec<'_>,
    tried: &mut Lsn,
) -> Result<Lsn, EngineFault>
    requires range { IsRecord (shown r.now) }
    ensures above { max (tail_of engine.old.log) 1 ≤ tried.new }
    ensures number { IfOk result (λ lsn. lsn ≡ tried.new) }
    ensures below { OnOk result (tried.new < tail_of engine.new.log) }
    ensures grown { OnOk result (tail_of engine.new.log ≤ tail_of engine.old.log + (5 + length (spelled (shown r.now)))) }
    ensures counts { HasCounted (D.view engine.old.disk) (D.view engine.new.disk) engine.old.log engine.new.log engine.old.pool engine.new.pool result }
    ensures waits { OnOk result (WaitsFrame engine.new.log) }
    ensures failed { FailsFor D.told (D.view engine.old.disk) engine.old.log engine.old.pool (D.view engine.new.disk) (shown r.now) result }
    ensures near { result ≡ Err EngineFault.LogEnd → LOG_END < tail_of engine.old.log + 131072 }
    ensures within { OnOk result (tried.new + length (spelled (shown r.now)) ≤ LOG_END) }
    ensures past { result ≡ Err EngineFault.LogEnd → LOG_END < tried.new + length (spelled (shown r.now)) }
    ensures place { changed_by (shown r.now).says ≡ None → tried.new ≡ place_of engine.old.log (shown r.now) }
    ensures hands { changed_by (shown r.now).says ≡ None → HandsOver (length (spelled (shown r.now))) (D.view engine.old.disk).handed (waiting_of engine.old.log) (D.view engine.new.disk).handed (waiting_of engine.new.log) result }
    ensures logs { (own : Table) (o : Origin) (ds ps : List Numbered) → IsTrue D.told → IsAsked own (table_of record_meaning range_meaning ops.now) o (D.view engine.old.disk) engine.old.log ds ps engine.old.pool (shown r.now)
        → OnOk result (HasLogged own o (D.view engine.new.disk) engine.new.log ds (ds ++ ps) (shown r.now) tried.new engine.new.pool) }
    ensures runs { (own : Table) (o : Origin) (ds ps : List Numbered) → IsTrue D.told → IsAsked own (table_of record_meaning range_meaning ops.now) o (D.view engine.old.disk) engine.old.log ds ps engine.old.pool (shown r.now)
        → HasRun own o (D.view engine.old.disk) (D.view engine.new.disk) engine.old.log engine.new.log engine.old.pool engine.new.pool ds (ds ++ ps) (shown r.now) tried.new result }
{
    match change_of(r) {
        None => log_plain(engine, r, tried),
        Some(Change::Page(change)) => log_page(engine, ops, r, &change, tried),
        Some(Change::SegWrite(change)) => log_bytes(engine, r, &change, tried),
        Some(Change::SegOp(change)) => log_op(engine, ops, r, &change, tried),
    }
}

/// The same of a record that uses no registered operation.
pub fn log_without<D: Disk>(
    engine: &mut Engine<D>,
    alloc: Global,
    r: &Rec<'_>,
    tried: &mut Lsn,
) -> Result<Lsn, EngineFault>
    requires range { IsRecord (shown r.now) }
    ensures above { max (tail_of engine.old.log) 1 ≤ tried.new }
    ensures number { IfOk result (λ lsn. lsn ≡ tried.new) }
    ensures below { OnOk result (tried.new < tail_of engine.new.log) }
    ensures grown { OnOk result (tail_of engine.new.log ≤ tail_of engine.old.log + (5 + length (spelled (shown r.now)))) }
    ensures counts { HasCounted (D.view engine.old.disk) (D.view engine.new.disk) engine.old.log engine.new.log engine.old.pool engine.new.pool result }
    ensures waits { OnOk result (WaitsFrame engine.new.log) }
    ensures failed { FailsFor D.told (D.view engine.old.disk) engine.old.log engine.old.pool (D.view engine.new.disk) (shown r.now) result }
    ensures near { result ≡ Err EngineFault.LogEnd → LOG_END < tail_of engine.old.log + 131072 }
    ensures within { OnOk result (tried.new + length (spelled (shown r.now)) ≤ LOG_END) }
    ensures past { result ≡ Err EngineFault.LogEnd → LOG_END < tried.new + length (spelled (shown r.now)) }
    ensures place { changed_by (shown r.now).says ≡ None → tried.new ≡ place_of engine.old.log (shown r.now) }
    ensures hands { changed_by (shown r.now).says ≡ None → HandsOver (length (spelled (shown r.now))) (D.view engine.old.disk).handed (waiting_of engine.old.log) (D.view engine.new.disk).handed (waiting_of engine.new.log) result }
    ensures logs { (own : Table) (o : Origin) (ds ps : List Numbered) → IsTrue D.told → ((given : Table) → IsAsked own given o (D.view engine.old.disk) engine.old.log ds ps engine.old.pool (shown r.now))
        → OnOk result (HasLogged own o (D.view engine.new.disk) engine.new.log ds (ds ++ ps) (shown r.now) tried.new engine.new.pool) }
    ensures runs { (own : Table) (o : Origin) (ds ps : List Numbered) → IsTrue D.told → ((given : Table) → IsAsked own given o (D.view engine.old.disk) engine.old.log ds ps engine.old.pool (shown r.now))
        → HasRun own o (D.view engine.old.disk) (D.view engine.new.disk) engine.old.log engine.new.log engine.old.pool engine.new.pool ds (ds ++ ps) (shown r.now) tried.new result }
{
    // A table without a registered operation takes no memory.
    match Ops::new(alloc) {
        Ok(none) => log_record(engine, &none, r, tried),
        Err(_) => unreachable!(),
    }
}
