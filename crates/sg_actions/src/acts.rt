ghost use Rattle.std.specs.Prelude.{◌≡◌, ◌<◌, ◌≤◌, true, false, length, slice_get, Some, OnErr, OnOk, IfOk, IfErr, IsTrue};
ghost use Rattle.sg_base.specs.Ends.{HasRisen};
ghost use Rattle.sg_actions.specs.Acting.{CanChange};
ghost use Rattle.sg_actions.specs.Taken.{AreFlags, AreSaid, IsWithin};

use crate::Engine;
use crate::painting::{is_paint, spell_op};
use crate::rows::{Actor, Row};
use crate::spelling::{
    after_of, code_of, copy_piece, is_number, is_piece, is_short, links_of, spell, spell_bytes,
    take_away, tell_range,
};
use sg_alloc::Maps;
use sg_base::{BandNo, PAGE_SIZE, PageNo, PageOp, SlotView, TxnId};
use sg_ops::Ops;
use sg_record::Rec;
use sg_space::{PageSpace, SpaceFault};
use sg_step::brings_bytes;
use std::snapshot::Snapshot;

/// Transactions and their actions over an engine, and the pages and bands that they change.
pub struct Acts<E: Engine> {
    pub(crate) engine: E,
    // those that are taken, with those that the open action has freed
    pub(crate) maps: Maps,
    // a flag that is clear for each that the open action has freed
    pub(crate) unfreed: Maps,
    pub(crate) actor: Actor,
    // the last record of each transaction but of who acts
    pub(crate) rows: Vec<Row>,
    pub(crate) breaks: u64,
    // an action was begun, and may change pages and bands
    pub(crate) begun: bool,
    // the engine as it was when the open action began. It has no bytes
    pub(crate) begun_at: Snapshot<E>,
    pub(crate) count: u32,
    // how many bands there are
    pub(crate) bands: u32,
    ghost count_is: { count ≡ length maps.pages },
    ghost bands_are: { bands ≡ length maps.bands },
    ghost few: { count ≤ 1048576 },
    ghost page_flags: { AreFlags maps.pages unfreed.pages },
    ghost band_flags: { AreFlags maps.bands unfreed.bands },
    ghost pages_said: { (E.view engine).Told → AreSaid maps.pages (E.view engine).now.pages },
    ghost within: { (E.view engine).Told → IsWithin maps.pages maps.bands (E.view engine).extent },
    ghost unbroken: { (E.view engine).Told → breaks ≡ 0 },
    ghost goes_on: { CanChange (E.view engine) begun actor },
}

// One more break is counted.
pub(crate) fn count_break(breaks: &mut u64) -> SpaceFault
    ensures answer { result ≡ SpaceFault.Disk }
    ensures risen { HasRisen breaks.old breaks.new }
    ensures later { breaks.old ≤ breaks.new }
{
    *breaks = breaks.saturating_add(1);
    SpaceFault::Disk
}

impl<E: Engine> Acts<E> {
    ghost use Rattle.std.specs.Prelude.{◌≡◌, false, IsTrue, IsFalse, Some, ◌≤◌, length};
    ghost use Rattle.sg_actions.specs.Rows.{at_rest};
    ghost use Rattle.sg_actions.specs.Taken.{is_there};
    ghost use Rattle.sg_actions.specs.Writable.{MayWrite, MayPaint};

    /// Over an engine, with what is taken, nothing freed, and a row for each transaction that goes on or
    /// may begin. The system acts.
    pub fn new(
        engine: E,
        maps: Maps,
        unfreed: Maps,
        rows: Vec<Row>,
        count: u32,
        bands: u32,
    ) -> Acts<E>
        requires count { count ≡ length maps.pages }
        requires width { bands ≡ length maps.bands }
        requires few { count ≤ 1048576 }
        requires pages { AreFlags maps.pages unfreed.pages }
        requires bands { AreFlags maps.bands unfreed.bands }
        requires said { (E.view engine).Told → AreSaid maps.pages (E.view engine).now.pages }
        requires within { (E.view engine).Told → IsWithin maps.pages maps.bands (E.view engine).extent }
        ensures engine { result.engine ≡ engine }
        ensures maps { result.maps ≡ maps }
        ensures unfreed { result.unfreed ≡ unfreed }
        ensures rows { result.rows ≡ rows }
        ensures actor { result.actor ≡ at_rest }
        ensures begun { result.begun ≡ false }
    {
        let begun_at = Snapshot::of(&engine);
        Acts {
            engine,
            maps,
            unfreed,
            actor: Actor {
                txn: TxnId(0),
                last: 0,
                before: 0,
            },
            rows,
            breaks: 0,
            begun: false,
            begun_at,
            count,
            bands,
        }
    }

    /// The engine. What the maps and the rows say is said by its log.
    pub fn into_engine(self) -> E
        ensures { result ≡ self.engine }
    {
        let Acts {
            engine,
            maps,
            unfreed,
            actor,
            rows,
            breaks,
            begun,
            begun_at,
            count,
            bands,
        } = self;
        drop(maps);
        drop(unfreed);
        drop(rows);
        drop(begun_at);
        engine
    }

    // Whether the page is taken, and the open action hasn't freed it.
    #[tactic(auto, using(crate::proofs::Flags::set_is))]
    fn has_page(&self, p: PageNo) -> bool
        ensures { result ≡ is_there self.now.maps.pages self.now.unfreed.pages p.0 }
    {
        self.maps.page_taken(p).unwrap_or(false) && self.unfreed.page_taken(p).unwrap_or(false)
    }

    // The same of a band.
    #[tactic(auto, using(crate::proofs::Flags::set_is))]
    fn has_band(&self, b: BandNo) -> bool
        ensures { result ≡ is_there self.now.maps.bands self.now.unfreed.bands b.0 }
    {
        self.maps.band_taken(b).unwrap_or(false) && self.unfreed.band_taken(b).unwrap_or(false)
    }

    // Whether so many bytes of a band may be changed: it is taken, the open action hasn't freed it, they
    // are a piece of it, and a record has room for its number.
    fn may_write(&self, b: BandNo, at: u32, count: usize) -> bool
        ensures yes { IsTrue result → MayWrite self.now.maps.bands self.now.unfreed.bands b.0 at count }
        ensures no { MayWrite self.now.maps.bands self.now.unfreed.bands b.0 at count → IsTrue result }
    {
        self.has_band(b) && is_piece(at, count) && b.0 <= 65_535
    }

    // And whether by a range operation with this argument.
    fn may_paint(&self, b: BandNo, at: u32, count: u32, position: u32, arg: &[u8]) -> bool
        ensures yes { IsTrue result → MayPaint self.now.maps.bands self.now.unfreed.bands b.0 at count position arg.now }
        ensures no { MayPaint self.now.maps.bands self.now.unfreed.bands b.0 at count position arg.now → IsTrue result }
    {
        count <= 8_192 && self.may_write(b, at, count as usize) && is_paint(position, count, arg)
    }
}

impl<E: Engine> PageSpace for Acts<E> {
    ghost use Rattle.std.specs.Prelude.{◌≡◌, length, refl, true};
    ghost use Rattle.sg_action.specs.States.{State};
    ghost use Rattle.sg_actions.specs.View.{acts_view, Since};
    ghost use Rattle.sg_actions.specs.Later.{acts_at, LaterBy};
    ghost use Rattle.sg_actions.specs.Exact.{units_exact, pages_fit_some, few_there};
    ghost use Rattle.sg_actions.specs.Onward.{later_same, later_then};

    ghost view = { λ s. acts_view (E.limits (length s.maps.pages) (length s.maps.bands)) (E.view s.engine) s.begun
        (E.view s.begun_at.value).now s.breaks s.maps s.unfreed };

    ghost later = { λ t a b. LaterBy true E.recovers (E.limits (length a.maps.pages) (length a.maps.bands)) t
        (acts_at (E.view a.engine) (E.means a.engine) (E.view a.begun_at.value).now a.maps a.rows.items a.actor a.begun)
        (acts_at (E.view b.engine) (E.means b.engine) (E.view b.begun_at.value).now b.maps b.rows.items b.actor b.begun) };

    ghost means = { λ s t. (E.view s.engine).Told → ∥ ((from : State) × Since (E.means s.engine) (E.view s.engine) s.begun (E.view s.begun_at.value).now t from) ∥₁ };

    fn broken(&mut self) -> SpaceFault {
        count_break(&mut self.breaks)
    }

    fn pages(&self) -> u32 {
        self.count
    }

    fn free_pages(&self) -> u32 {
        self.maps.free_pages() + self.unfreed.free_pages()
    }

    fn free_bands(&self) -> u32 {
        self.maps.free_bands() + self.unfreed.free_bands()
    }

    fn page(&mut self, p: PageNo) -> Result<SlotView<'_>, SpaceFault> {
        if !self.has_page(p) {
            return Err(count_break(&mut self.breaks));
        }
        self.engine.load(p)?;
        Ok(self.engine.page(p))
    }

    fn change(&mut self, ops: &Ops, p: PageNo, op: &PageOp<'_>) -> Result<(), SpaceFault> {
        if !self.begun {
            return Err(SpaceFault::LogEnd);
        }
        if !self.has_page(p) {
            return Err(count_break(&mut self.breaks));
        }
        if !is_short(op) {
            return Err(count_break(&mut self.breaks));
        }
        let mut before = [0u8; PAGE_SIZE];
        let mut links = [0u8; 8];
        self.engine.load(p)?;
        let Some(size) = take_away(&self.engine.page(p), op, &mut before) else {
            return Err(count_break(&mut self.breaks));
        };
        brings_bytes(op);
        links_of(op, &mut links);
        let record = Rec::Page {
            txn: self.actor.txn,
            prev: self.actor.last,
            change: spell(
                p,
                code_of(op),
                &before[..size],
                after_of(op).unwrap_or(&links),
            ),
        };
        is_number(self.actor.txn.0);
        is_number(self.actor.last);
        tell_range(&record);
        self.actor.last = self.engine.log_by(ops, &record)?;
        Ok(())
    }

    fn take_page(&mut self, kind: u8) -> Result<PageNo, SpaceFault> {
        if !self.begun {
            return Err(SpaceFault::LogEnd);
        }
        if self.maps.free_pages() == 0 {
            return Err(count_break(&mut self.breaks));
        }
        let p = self.maps.take_page();
        let kinds = [kind];
        is_number(self.actor.txn.0);
        is_number(self.actor.last);
        let record = Rec::Page {
            txn: self.actor.txn,
            prev: self.actor.last,
            change: spell(p, (1, 0, 0), &[0], &kinds),
        };
        self.actor.last = self.engine.log(&record)?;
        Ok(p)
    }

    fn free_page(&mut self, p: PageNo) -> Result<(), SpaceFault> {
        if !self.has_page(p) {
            return Err(count_break(&mut self.breaks));
        }
        self.unfreed.free_page(p);
        Ok(())
    }

    fn band(&mut self, b: BandNo) -> Result<&[u8], SpaceFault> {
        if !self.has_band(b) {
            return Err(count_break(&mut self.breaks));
        }
        self.engine.load_band(b)?;
        Ok(self.engine.band(b))
    }

    fn write_band(&mut self, b: BandNo, at: u32, bytes: &[u8]) -> Result<(), SpaceFault> {
        if !self.begun {
            return Err(SpaceFault::LogEnd);
        }
        let count = bytes.len();
        if !self.may_write(b, at, count) {
            return Err(count_break(&mut self.breaks));
        }
        let mut before = [0u8; 8192];
        let stood = &mut before[..count];
        self.engine.load_band(b)?;
        copy_piece(self.engine.band(b), at, count, stood);
        let record = Rec::SegWrite {
            txn: self.actor.txn,
            prev: self.actor.last,
            change: spell_bytes(b, at, count as u32, stood, bytes),
        };
        is_number(self.actor.txn.0);
        is_number(self.actor.last);
        tell_range(&record);
        self.actor.last = self.engine.log(&record)?;
        Ok(())
    }

    fn paint_band(
        &mut self,
        ops: &Ops,
        b: BandNo,
        at: u32,
        count: u32,
        code: u16,
        position: u32,
        arg: &[u8],
    ) -> Result<(), SpaceFault> {
        if !self.begun {
            return Err(SpaceFault::LogEnd);
        }
        if !self.may_paint(b, at, count, position, arg) {
            return Err(count_break(&mut self.breaks));
        }
        let mut before = [0u8; 8192];
        let stood = &mut before[..count as usize];
        self.engine.load_band(b)?;
        copy_piece(self.engine.band(b), at, count as usize, stood);
        let record = Rec::SegOp {
            txn: self.actor.txn,
            prev: self.actor.last,
            change: spell_op(b, at, count, code, position, arg, stood),
        };
        is_number(self.actor.txn.0);
        is_number(self.actor.last);
        tell_range(&record);
        self.actor.last = self.engine.log_by(ops, &record)?;
        Ok(())
    }

    fn take_band(&mut self) -> Result<BandNo, SpaceFault> {
        if !self.begun {
            return Err(SpaceFault::LogEnd);
        }
        if self.maps.free_bands() == 0 {
            return Err(count_break(&mut self.breaks));
        }
        // a record has room for fewer bands
        if self.maps.band_taken(BandNo(65_536)).is_some() {
            return Err(count_break(&mut self.breaks));
        }
        let b = self.maps.take_band();
        self.fill(b, 0)?;
        let mut at = 8_192;
        'fills: while at < 32_768 {
            self.fill(b, at)?;
            at += 8_192;
        }
        Ok(b)
    }

    fn free_band(&mut self, b: BandNo) -> Result<(), SpaceFault> {
        if !self.has_band(b) {
            return Err(count_break(&mut self.breaks));
        }
        self.unfreed.free_band(b);
        Ok(())
    }

    ghost later_same = { λ t s. later_same E.recovers (E.limits (length s.maps.pages) (length s.maps.bands)) t _ (E.told_whole s.engine) (λ from m told. E.images s.engine t from m.stands told) };

    ghost later_then = { λ t a b c f g. later_then E.recovers E.limits t _ _ _ f g };

    ghost told_shows = { λ s t. t };

    ghost few_pages = { λ s t. few_there s.maps.pages s.few s.count_is };

    ghost pages_fit = { λ s told p sheet is. pages_fit_some (E.limits (length s.maps.pages) (length s.maps.bands)) (E.means s.engine) (E.view s.engine) (E.view s.begun_at.value).now s.breaks s.maps s.unfreed (E.some s.engine told) (λ t from m. E.pages_fit s.engine t from m told) p sheet is };

    ghost pages_exact = { λ s t. units_exact s.maps.pages s.unfreed.pages _ s.page_flags (s.pages_said t) };

    ghost bands_exact = { λ s t. units_exact s.maps.bands s.unfreed.bands _ s.band_flags (λ n h. refl) };
}
