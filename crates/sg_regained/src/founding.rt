// What a space over an engine begins with that an opening found.
ghost use Rattle.std.specs.Prelude.{◌≡◌, ◌≤◌, ℕ, false, [], ◌++◌, None, length, replicate, map, IfOk, IfErr, IfSome, OnOk, option_map};
ghost use Rattle.sg_alloc.specs.Flags.{free_of};
ghost use Rattle.sg_analysis.specs.Analysis.{losers_of};
ghost use Rattle.sg_recovery.specs.Chains.{next_lsn};
ghost use Rattle.sg_recovery.specs.Formed.{IsLog};
ghost use Rattle.sg_shown.specs.Shown.{AsFound, over};
ghost use Rattle.sg_actions.specs.Ending.{vacant};
ghost use Rattle.sg_actions.specs.Rows.{at_rest};
ghost use Rattle.sg_regained.specs.Regained.{AreRowsOf, row_of, unfinished_in};

use sg_actions::{Actor, Acts, Engine, Parts, Row};
use sg_alloc::Maps;
use sg_analysis::{Analysis, Losers};
use sg_base::{BandNo, Lsn, OutOfMemory, PageNo, TxnId};
use std::alloc::Global;

/// A space over an engine that an opening found, and room for the walk over all that its pages reach.
pub struct FoundSpace<E: Engine> {
    pub acts: Acts<E>,
    pub room: Maps,
}

// Sets all pages, which are free.
fn set_pages(maps: &mut Maps, count: u32)
    requires { maps.old.pages ≡ replicate count false }
    ensures free { free_of maps.new.pages ≡ 0 }
    ensures size { length maps.new.pages ≡ count }
    ensures bands { maps.new.bands ≡ maps.old.bands }
{
    for p in 0..count {
        maps.set_page(PageNo(p));
    }
}

// Sets all bands, which are free.
fn set_bands(maps: &mut Maps, count: u32)
    requires { maps.old.bands ≡ replicate count false }
    ensures free { free_of maps.new.bands ≡ 0 }
    ensures size { length maps.new.bands ≡ count }
    ensures pages { maps.new.pages ≡ maps.old.pages }
{
    for b in 0..count {
        maps.set_band(BandNo(b));
    }
}

// Flags of so many pages and bands, all set.
fn all_set(alloc: Global, pages: u32, bands: u32) -> Result<Maps, OutOfMemory>
    ensures pages { IfOk result (λ m. (length m.pages ≡ pages) × (free_of m.pages ≡ 0)) }
    ensures bands { IfOk result (λ m. (length m.bands ≡ bands) × (free_of m.bands ≡ 0)) }
{
    let mut maps = Maps::new(alloc, pages, bands)?;
    set_pages(&mut maps, pages);
    set_bands(&mut maps, bands);
    Ok(maps)
}

// Puts a row for each of these behind others.
fn push_losers(rows: &mut Vec<Row>, losers: &Losers) -> Result<(), OutOfMemory>
    requires { rows.old.items ≡ [] }
    ensures { OnOk result (rows.new.items ≡ map row_of losers.now) }
{
    for i in 0..losers.len() {
        let (txn, last) = losers.get(i);
        if rows.push(Row { txn, last }).is_err() {
            return Err(OutOfMemory);
        }
    }
    Ok(())
}

// Puts vacant rows behind others, until there are 64.
fn push_vacant(rows: &mut Vec<Row>) -> Result<(), OutOfMemory>
    ensures { OnOk result ((n : ℕ) × (rows.new.items ≡ rows.old.items ++ replicate n vacant) × (64 ≤ length rows.new.items)) }
{
    let vacant = Row {
        txn: TxnId(0),
        last: 0,
    };
    'rest: for _at in rows.len()..64 {
        if rows.push(vacant).is_err() {
            return Err(OutOfMemory);
        }
    }
    Ok(())
}

// A row for each of these, and vacant ones behind them, at least 64 in all.
fn rows_of(alloc: Global, losers: &Losers) -> Result<Vec<Row>, OutOfMemory>
    ensures { IfOk result (λ rows. AreRowsOf losers.now rows.items) }
{
    let mut rows = Vec::new(alloc);
    push_losers(&mut rows, losers)?;
    push_vacant(&mut rows)?;
    Ok(rows)
}

// Who acts: whose action has no end, or nobody.
fn actor_of(unfinished: Option<(TxnId, Lsn)>) -> Actor
    ensures some { IfSome unfinished (λ p. (result.txn ≡ p.0) × (result.last ≡ p.1)) }
    ensures none { unfinished ≡ None → result ≡ at_rest }
{
    match unfinished {
        Some((txn, last)) => Actor {
            txn,
            last,
            before: 0,
        },
        None => Actor {
            txn: TxnId(0),
            last: 0,
            before: 0,
        },
    }
}

/// Makes a space of so many pages and bands of an engine that an opening found, whose log was analysed so.
/// Where memory is refused the engine is handed back as it was.
pub fn found<E: Engine>(
    alloc: Global,
    engine: E,
    pages: u32,
    bands: u32,
    analysis: &Analysis,
) -> Result<FoundSpace<E>, E>
    requires few { pages ≤ 1048576 }
    requires formed { (E.view engine).Told → IsLog (E.view engine).base (E.view engine).steps }
    requires below { (E.view engine).Told → next_lsn (E.view engine).steps ≤ (E.view engine).tail }
    requires based { (E.view engine).Told → (E.view engine).base ≤ (E.view engine).tail }
    requires start { (E.view engine).Told → (E.view engine).base ≡ E.first_byte engine }
    requires within { (E.view engine).Told → (pages ≤ (E.view engine).extent.pages) × (bands ≤ (E.view engine).extent.bands) }
    requires losers { (E.view engine).Told → analysis.now.losers ≡ losers_of (E.view engine).steps }
    requires unfinished { (E.view engine).Told → option_map (λ p. (p.0.0, p.1)) analysis.now.unfinished ≡ unfinished_in (E.view engine).steps }
    ensures made { IfOk result (λ r. (E.view engine).Told → AsFound (over r.acts)) }
    ensures engine { IfOk result (λ r. r.acts.engine ≡ engine) }
    ensures breaks { IfOk result (λ r. r.acts.breaks ≡ 0) }
    ensures pages { IfOk result (λ r. length r.acts.maps.pages ≡ pages) }
    ensures bands { IfOk result (λ r. length r.acts.maps.bands ≡ bands) }
    ensures room { IfOk result (λ r. (length r.room.pages ≡ pages) × (length r.room.bands ≡ bands)) }
    ensures refused { IfErr result (λ e. e ≡ engine) }
{
    let Ok(maps) = Maps::new(alloc, pages, bands) else {
        return Err(engine);
    };
    let Ok(room) = Maps::new(alloc, pages, bands) else {
        return Err(engine);
    };
    let Ok(unfreed) = all_set(alloc, pages, bands) else {
        return Err(engine);
    };
    let Ok(rows) = rows_of(alloc, &analysis.losers) else {
        return Err(engine);
    };
    let acts = Acts::of_parts(Parts {
        engine,
        maps,
        unfreed,
        actor: actor_of(analysis.unfinished),
        rows,
        breaks: 0,
        begun: false,
        count: pages,
        bands,
    });
    Ok(FoundSpace { acts, room })
}
