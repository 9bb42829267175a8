// Stores in memory under transactions and their actions. What stands here promises as good as nothing, so that a test that
// calls it sees plain values.
ghost use Rattle.std.specs.Prelude.{◌≡◌, IfOk, length};
ghost use Rattle.sg_alloc.specs.Flags.{free_of};

use crate::quiet::Quiet;
use sg_actions::{Acts, Row};
use sg_alloc::Maps;
use sg_analysis::Analysis;
use sg_attach::{AttachedStore, attach};
use sg_base::{BandNo, Name, OutOfMemory, PageNo, Steps, TxnId};
use sg_disk::MemDisk;
use sg_find::OpenFault;
use sg_making::{Geometry, InitFault, init_store};
use sg_model::{Op, Reply};
use sg_objects::{ObjFault, perform, reverse};
use sg_ops::{Ops, OpsError};
use sg_pages::Phys;
use sg_reopen::Unopened;
use sg_space::{SpaceFault, UndoNote};
use std::alloc::{AllocError, Global};
use std::sync::ledger::Ledger;
use std::thread::Threads;

/// The runtime that a test is given, with threads for openings, and memory.
pub trait Host: Threads + Sync + Alloc<A = Global> {}

impl<R: Threads + Sync + Alloc<A = Global>> Host for R {}

// Why a call of a test stops.
#[derive(Clone, Copy, Debug, PartialEq, Eq)]
pub enum Stop {
    Init(InitFault),
    Open(OpenFault),
    Object(ObjFault),
    Space(SpaceFault),
    Memory,
    NoName,
    // A note or a transaction was left.
    Left,
}

impl From<AllocError> for Stop {
    fn from(_fault: AllocError) -> Stop {
        Stop::Memory
    }
}

impl From<OutOfMemory> for Stop {
    fn from(_fault: OutOfMemory) -> Stop {
        Stop::Memory
    }
}

impl From<OpsError> for Stop {
    fn from(_fault: OpsError) -> Stop {
        Stop::Memory
    }
}

impl From<InitFault> for Stop {
    fn from(fault: InitFault) -> Stop {
        Stop::Init(fault)
    }
}

impl From<ObjFault> for Stop {
    fn from(fault: ObjFault) -> Stop {
        Stop::Object(fault)
    }
}

impl From<SpaceFault> for Stop {
    fn from(fault: SpaceFault) -> Stop {
        Stop::Space(fault)
    }
}

const PAGES: u32 = 512;

const BANDS: u32 = 12;

const GEOMETRY: Geometry = Geometry {
    pages: PAGES,
    bands: BANDS,
    frames: 32,
    windows: 4,
};

// An empty store on a disk in memory.
fn store(alloc: Global) -> Result<MemDisk, Stop> {
    let mut disk = MemDisk::new(alloc);
    init_store(&mut disk, &GEOMETRY)?;
    Ok(disk)
}

pub fn named(letter: u8) -> Result<Name, Stop> {
    Name::new(&[letter]).ok_or(Stop::NoName)
}

// Maps in which page 0 and the map's own band are set.
fn begun(alloc: Global) -> Result<Maps, OutOfMemory>
    ensures pages { IfOk result (λ m. length m.pages ≡ 512) }
    ensures bands { IfOk result (λ m. length m.bands ≡ 12) }
{
    let mut maps = Maps::new(alloc, PAGES, BANDS)?;
    maps.set_page(PageNo(0));
    maps.set_band(BandNo(0));
    Ok(maps)
}

fn set_pages(maps: &mut Maps)
    ensures none { free_of maps.new.pages ≡ 0 }
    ensures long { length maps.new.pages ≡ length maps.old.pages }
    ensures bands { maps.new.bands ≡ maps.old.bands }
{
    'free: while maps.free_pages() > 0 {
        maps.take_page();
    }
}

fn set_bands(maps: &mut Maps)
    ensures none { free_of maps.new.bands ≡ 0 }
    ensures long { length maps.new.bands ≡ length maps.old.bands }
    ensures pages { maps.new.pages ≡ maps.old.pages }
{
    'free: while maps.free_bands() > 0 {
        maps.take_band();
    }
}

// Maps in which all is set.
fn full(alloc: Global) -> Result<Maps, OutOfMemory>
    ensures pages { IfOk result (λ m. length m.pages ≡ 512) }
    ensures no_page { IfOk result (λ m. free_of m.pages ≡ 0) }
    ensures bands { IfOk result (λ m. length m.bands ≡ 12) }
    ensures no_band { IfOk result (λ m. free_of m.bands ≡ 0) }
{
    let mut maps = Maps::new(alloc, PAGES, BANDS)?;
    set_pages(&mut maps);
    set_bands(&mut maps);
    Ok(maps)
}

const VACANT: Row = Row {
    txn: TxnId(0),
    last: 0,
};

// A row, and three that are vacant.
fn rows_of(alloc: Global, first: Row) -> Result<Vec<Row>, AllocError>
    ensures { IfOk result (λ v. length v.items ≡ 4) }
{
    let mut rows = vec![in alloc; VACANT; 3]?;
    rows.push(first)?;
    Ok(rows)
}

type Engine = Phys<Quiet<MemDisk>>;

// The engine over a disk, and what its log says.
fn opened<R: Host, L: Ledger>(
    rt: &R,
    disk: MemDisk,
    ops: &Ops,
    steps: &mut Steps<L>,
) -> Result<(Engine, Analysis), Stop> {
    match attach(rt, rt.alloc(), Quiet { inner: disk }, ops, steps) {
        Ok(
            AttachedStore {
                pages,
                geometry: _,
                analysis,
            },
        ) => Ok((pages, analysis)),
        Err(Unopened { disk: _, fault }) => Err(Stop::Open(fault)),
    }
}

// Transactions over the engine, with what is taken, nothing freed, and four rows.
fn acts_over(engine: Engine, maps: Maps, unfreed: Maps, rows: Vec<Row>) -> Acts<Engine>
    requires pages { length maps.pages ≡ 512 }
    requires bands { length maps.bands ≡ 12 }
    requires unfreed_pages { length unfreed.pages ≡ 512 }
    requires no_page { free_of unfreed.pages ≡ 0 }
    requires unfreed_bands { length unfreed.bands ≡ 12 }
    requires no_band { free_of unfreed.bands ≡ 0 }
    requires rows { length rows.items ≡ 4 }
{
    Acts::new(engine, maps, unfreed, rows, PAGES, BANDS)
}

// A store under transactions.
pub struct Trial {
    acts: Acts<Engine>,
    pub ops: Ops,
}

// The first transaction that has begun and not ended, with its last record, or a vacant row.
fn loser_of(analysis: &Analysis) -> Row {
    if analysis.losers.is_empty() {
        return VACANT;
    }
    let (txn, last) = analysis.losers.get(0);
    Row { txn, last }
}

impl Trial {
    // The empty store, opened.
    pub fn new<R: Host, L: Ledger>(rt: &R, steps: &mut Steps<L>) -> Result<Trial, Stop> {
        let disk = store(rt.alloc())?;
        let ops = Ops::shipped(rt.alloc())?;
        let maps = begun(rt.alloc())?;
        let unfreed = full(rt.alloc())?;
        let rows = rows_of(rt.alloc(), VACANT)?;
        let (engine, _analysis) = opened(rt, disk, &ops, steps)?;
        let acts = acts_over(engine, maps, unfreed, rows);
        Ok(Trial { acts, ops })
    }

    // A store that was opened again, of which every page counts as taken, and the transaction that goes on, or 0.
    pub fn again<R: Host, L: Ledger>(
        rt: &R,
        disk: MemDisk,
        steps: &mut Steps<L>,
    ) -> Result<(Trial, TxnId), Stop> {
        let ops = Ops::shipped(rt.alloc())?;
        let maps = full(rt.alloc())?;
        let unfreed = full(rt.alloc())?;
        let (engine, analysis) = opened(rt, disk, &ops, steps)?;
        let loser = loser_of(&analysis);
        match rows_of(rt.alloc(), loser) {
            Ok(rows) => {
                let acts = acts_over(engine, maps, unfreed, rows);
                Ok((Trial { acts, ops }, loser.txn))
            }
            Err(_) => {
                let _disk = engine.into_disk();
                Err(Stop::Memory)
            }
        }
    }

    // Its disk.
    pub fn into_disk(self) -> MemDisk {
        let Trial { acts, ops: _ } = self;
        let Quiet { inner } = acts.into_engine().into_disk();
        inner
    }

    pub fn begin(&mut self) -> Result<TxnId, Stop> {
        Ok(self.acts.begin()?)
    }

    pub fn commit(&mut self, txn: TxnId) -> Result<(), Stop> {
        self.acts.commit(txn)?;
        self.acts.end(txn)?;
        Ok(())
    }

    pub fn flush(&mut self) -> Result<(), Stop> {
        Ok(self.acts.flush()?)
    }

    // Does a verb in an action of a transaction.
    fn perform(
        &mut self,
        txn: TxnId,
        op: &Op<'_>,
        into: &mut [u8; 8192],
        note: &mut UndoNote,
    ) -> Result<Reply, ObjFault> {
        self.ops.laws();
        self.acts.act(txn);
        perform(&mut self.acts, &self.ops, txn, op, into, note)
    }

    // Does a verb, and ends its action where something was changed.
    pub fn does(
        &mut self,
        txn: TxnId,
        op: &Op<'_>,
        into: &mut [u8; 8192],
    ) -> Result<Reply, ObjFault> {
        let mut note = UndoNote::new();
        let reply = self.perform(txn, op, into, &mut note)?;
        if note.size() > 0 {
            self.acts.end_action(txn, &note).map_err(ObjFault::Space)?;
        }
        Ok(reply)
    }

    // Does a verb, and takes its action off in place of an end.
    pub fn gives_up(&mut self, txn: TxnId, op: &Op<'_>) -> Result<(), Stop> {
        let mut note = UndoNote::new();
        let mut into = [0; 8192];
        let _ = self.perform(txn, op, &mut into, &mut note);
        self.ops.laws();
        self.acts.take_off(&self.ops)?;
        Ok(())
    }

    // Whether a note of the transaction is left.
    pub fn has_note(&mut self, txn: TxnId) -> Result<bool, Stop> {
        let next = self.acts.next_undo(txn, 0)?;
        Ok(next.is_some())
    }

    // Undoes the transaction's last note that is left, if there is one.
    pub fn undo_one(&mut self, txn: TxnId) -> Result<bool, Stop> {
        let mut note = UndoNote::new();
        let Some(after) = self.acts.undo_step(txn, 0, &mut note)? else {
            return Ok(false);
        };
        self.ops.laws();
        reverse(&mut self.acts, &self.ops, &note)?;
        self.acts.end_undo(txn, after)?;
        Ok(true)
    }

    // Ends a transaction of which all is undone.
    pub fn end(&mut self, txn: TxnId) -> Result<(), Stop> {
        Ok(self.acts.end(txn)?)
    }
}
