ghost use Rattle.std.specs.Prelude.{◌≡◌, ◌≤◌, [], length};
ghost use Rattle.sg_base.specs.Ends.{HasRisen};
ghost use Rattle.sg_base.specs.Page.{IsSlotted, slots_of};
ghost use Rattle.sg_action.specs.States.{State};
ghost use Rattle.sg_unread.specs.Unread.{IsReadable};

use sg_actions::Engine;
use sg_base::{BandNo, PAGE_SIZE, PageNo, PageOp, SlotView};
use sg_ops::Ops;
use sg_slotted::format;
use sg_space::{PageSpace, SpaceFault};

/// The pages and bands of an engine, of which it isn't known yet what they read as. It shows what the engine holds, and
/// tells where that reads as contents. A page that says nothing is shown as a blank one, of a kind that no object has. It
/// can only be looked at: a call that would change it is refused, as at the log's end.
pub struct UnreadSpace<E: Engine> {
    engine: E,
    pages: u32,
    bands: u32,
    // The bytes of a blank page.
    blank: [u8; PAGE_SIZE],
    // How often a look passed the last page or band, or what was read couldn't be.
    breaks: u64,
    ghost few: { pages ≤ 1048576 },
    ghost slotted: { IsSlotted blank },
    ghost empty: { slots_of blank ≡ [] },
    ghost unbroken: { IsReadable (E.view engine) pages bands → breaks ≡ 0 },
}

// The bytes of a blank page.
fn blank_page() -> [u8; PAGE_SIZE]
    ensures slotted { IsSlotted result }
    ensures empty { slots_of result ≡ [] }
{
    let mut blank = [0u8; PAGE_SIZE];
    format(&mut blank, 0);
    blank
}

// One more fault is counted.
fn count_break(breaks: &mut u64) -> SpaceFault
    ensures answer { result ≡ SpaceFault.Disk }
    ensures risen { HasRisen breaks.old breaks.new }
    ensures later { breaks.old ≤ breaks.new }
{
    *breaks = breaks.saturating_add(1);
    SpaceFault::Disk
}

impl<E: Engine> UnreadSpace<E> {
    /// Over an engine, with so many pages and bands.
    pub fn new(engine: E, pages: u32, bands: u32) -> UnreadSpace<E>
        requires { pages ≤ 1048576 }
        ensures engine { result.engine ≡ engine }
        ensures pages { result.pages ≡ pages }
        ensures bands { result.bands ≡ bands }
        ensures breaks { result.breaks ≡ 0 }
    {
        UnreadSpace {
            engine,
            pages,
            bands,
            blank: blank_page(),
            breaks: 0,
        }
    }

    /// The engine, and how often a look passed the last page or band, or what was read couldn't be.
    pub fn into_parts(self) -> (E, u64)
        ensures engine { result.0 ≡ self.engine }
        ensures breaks { result.1 ≡ self.breaks }
        ensures unbroken { IsReadable (E.view self.engine) self.pages self.bands → self.breaks ≡ 0 }
    {
        let UnreadSpace {
            engine,
            pages: _,
            bands: _,
            blank: _,
            breaks,
        } = self;
        (engine, breaks)
    }
}

impl<E: Engine> PageSpace for UnreadSpace<E> {
    ghost use Rattle.std.specs.Prelude.{◌≡◌, refl};
    ghost use Rattle.std.proofs.Common.{◌∙◌};
    ghost use Rattle.sg_base.specs.Sheet.{sheet_of};
    ghost use Rattle.sg_unread.specs.Unread.{unread_view, LooksOn};
    ghost use Rattle.sg_unread.specs.Looks.{looks_same, looks_then};
    ghost use Rattle.sg_unread.specs.Exact.{all_exact, said_within, no_bytes};

    ghost view = { λ s. unread_view (E.view s.engine) (sheet_of s.blank) s.pages s.bands s.breaks };

    // It has as many pages and bands.
    ghost later = { λ t a b. LooksOn E.recovers t (E.view a.engine) (E.view b.engine) (E.means a.engine) (E.means b.engine) × (b.pages ≡ a.pages) × (b.bands ≡ a.bands) };

    ghost means = { λ s t. ∥ ((from : State) × E.means s.engine t from) ∥₁ };

    fn broken(&mut self) -> SpaceFault {
        count_break(&mut self.breaks)
    }

    fn pages(&self) -> u32 {
        self.pages
    }

    fn free_pages(&self) -> u32 {
        0
    }

    fn free_bands(&self) -> u32 {
        0
    }

    fn page(&mut self, p: PageNo) -> Result<SlotView<'_>, SpaceFault> {
        if p.0 >= self.pages {
            return Err(count_break(&mut self.breaks));
        }
        if !self.engine.look(p)? {
            return Ok(SlotView::new(&self.blank));
        }
        Ok(self.engine.page(p))
    }

    fn change(&mut self, _ops: &Ops, _p: PageNo, _op: &PageOp<'_>) -> Result<(), SpaceFault> {
        Err(SpaceFault::LogEnd)
    }

    fn take_page(&mut self, _kind: u8) -> Result<PageNo, SpaceFault> {
        Err(SpaceFault::LogEnd)
    }

    fn free_page(&mut self, _p: PageNo) -> Result<(), SpaceFault> {
        Err(SpaceFault::LogEnd)
    }

    fn band(&mut self, b: BandNo) -> Result<&[u8], SpaceFault> {
        if b.0 >= self.bands {
            return Err(count_break(&mut self.breaks));
        }
        self.engine.load_band(b)?;
        Ok(self.engine.band(b))
    }

    fn write_band(&mut self, _b: BandNo, _at: u32, _bytes: &[u8]) -> Result<(), SpaceFault> {
        Err(SpaceFault::LogEnd)
    }

    fn paint_band(
        &mut self,
        _ops: &Ops,
        _b: BandNo,
        _at: u32,
        _count: u32,
        _code: u16,
        _position: u32,
        _arg: &[u8],
    ) -> Result<(), SpaceFault> {
        Err(SpaceFault::LogEnd)
    }

    fn take_band(&mut self) -> Result<BandNo, SpaceFault> {
        Err(SpaceFault::LogEnd)
    }

    fn free_band(&mut self, _b: BandNo) -> Result<(), SpaceFault> {
        Err(SpaceFault::LogEnd)
    }

    ghost later_same = { λ t s. (looks_same E.recovers t (E.view s.engine) (E.means s.engine) (E.told_whole s.engine) (λ from m told. E.images s.engine t from m told), refl, refl) };

    ghost later_then = { λ t a b c f g. (looks_then f.0 g.0, g.1 ∙ f.1, g.2 ∙ f.2) };

    ghost told_shows = { λ s t. t.told };

    ghost few_pages = { λ s t. s.few };

    ghost pages_fit = { λ s t p sheet is. said_within (E.means s.engine) (E.view s.engine) (sheet_of s.blank) s.pages (no_bytes s.empty) (E.some s.engine t.told) (λ u from m. E.pages_fit s.engine u from m t.told) p sheet is };

    ghost pages_exact = { λ s t. all_exact s.pages _ };

    ghost bands_exact = { λ s t. all_exact s.bands _ };
}
