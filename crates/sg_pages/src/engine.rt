// The page engine is one under the actions.
ghost use Rattle.std.specs.Prelude.{◌≡◌, length};

use crate::Phys;
use sg_actions::Engine;
use sg_base::{BandNo, Lsn, PageNo, SlotView, TxnId, view};
use sg_disk::Presumed;
use sg_ops::Ops;
use sg_phys::{is_log_end, is_no_step, space_fault};
use sg_phys_laws::{log_record, log_without};
use sg_record::Rec;
use sg_space::SpaceFault;

// What a band has that there isn't.
static NONE: [u8; 32_768] = [0; 32_768];

impl<D: Presumed> Engine for Phys<D> {
    ghost use Rattle.sg_pool.specs.Pooled.{IsUnwritten};
    ghost use Rattle.sg_phys.specs.Phys.{IsGiven, IsLoaded, IsBandLoaded, IsSpent, first_end, last_in};
    ghost use Rattle.sg_phys.proofs.Causes.{told_on};
    ghost use Rattle.sg_phys.proofs.Told.{told_now, told_front, told_images, told_wanted, says_fit, says_whole};
    ghost use Rattle.sg_phys_laws.specs.Reading.{durable_in};
    ghost use Rattle.sg_phys_laws.specs.Recovers.{RecoversBy};
    ghost use Rattle.sg_phys_laws.specs.Waiting.{waiting_of};
    ghost use Rattle.sg_reader.specs.Reader.{limits};
    ghost use Rattle.sg_reader.proofs.Decide.{reader};
    ghost use Rattle.sg_pages.specs.Marks.{LogEnds, ImageEnds, LogNames};
    ghost use Rattle.sg_pages.specs.Parts.{parts, seen, stands};

    ghost limits = { λ pages bands. limits (reader pages bands) };

    ghost recovers = { RecoversBy };

    ghost view = { λ s. seen D.told D.presumed D.view s };

    ghost means = { λ s. stands D.told D.presumed D.view s };

    ghost loaded = { λ s p. IsLoaded (D.view s.engine.disk) s.engine.pool p };

    ghost loaded_band = { λ s b. IsBandLoaded s.engine.pool b };

    ghost unwritten = { λ s lsn. IsUnwritten s.engine.pool lsn };

    ghost first_byte = { λ s. s.superblock.base };

    ghost first_frame_end = { λ s. first_end s.superblock.base (durable_in (D.view s.engine.disk) s.engine.log) };

    ghost last_checkpoint = { λ s. last_in (D.view s.engine.disk) s.engine.log };

    ghost is_spent = { λ s. IsSpent s.superblock };

    ghost waiting = { λ s. waiting_of s.engine.log };

    ghost marked = { λ s. LogEnds (D.view s.engine.disk) s.engine.log };

    ghost ends_at = { ImageEnds };

    ghost names = { λ s. LogNames (D.view s.engine.disk) s.engine.log };

    ghost told_whole = { λ s told. told.whole };

    ghost full_failed = { λ s. s.ended };

    ghost unfailed = { λ s. s.unbroken };

    ghost waits = { λ s. s.waits };

    ghost changes_on = { λ s told. told_on (IsGiven D.told D.presumed) (parts D.view s) s.some told };

    ghost wanted = { λ s told. told_wanted (IsGiven D.told D.presumed) (parts D.view s) s.some told };

    ghost durable_first = { λ s told. told_front (IsGiven D.told D.presumed) (parts D.view s) };

    ghost some = { λ s. s.some };

    ghost lawful = { λ s t from m. m.lawful };

    ghost now_is = { λ s t from m told. told_now (IsGiven D.told D.presumed) (parts D.view s) t from m told };

    ghost pages_fit = { λ s t from m told. says_fit (D.view s.engine.disk) s.engine.pool };

    ghost few_bands = { λ s told. s.engine.pool.shelf.shelf.most_bands };

    ghost bands_whole = { λ s t from m told. says_whole (D.view s.engine.disk) s.engine.pool };

    ghost images = { λ s t from m told. told_images (IsGiven D.told D.presumed) (parts D.view s) t from m told };

    fn tail(&self) -> Lsn {
        self.end
    }

    fn start(&self) -> Lsn {
        self.superblock.base
    }

    fn is_full(&self) -> bool {
        self.full
    }

    fn has_failed(&self) -> bool {
        self.failed
    }

    fn next(&self, r: &Rec<'_>) -> Lsn {
        self.engine.place(r)
    }

    fn log(&mut self, r: &Rec<'_>) -> Result<Lsn, SpaceFault> {
        if self.failed {
            self.breaks = self.breaks.saturating_add(1);
            return Err(SpaceFault::Disk);
        }
        self.tried = self.engine.place(r);
        if is_no_step(r) {
            self.failed = true;
            self.breaks = self.breaks.saturating_add(1);
            return Err(SpaceFault::Disk);
        }
        match log_without(&mut self.engine, self.alloc, r, &mut self.tried) {
            Ok(lsn) => {
                self.end = self.engine.tail().max(1);
                self.gate = self.engine.durable();
                self.records += 1;
                Ok(lsn)
            }
            Err(fault) => {
                self.failed = true;
                self.full = is_log_end(fault);
                self.breaks = self.breaks.saturating_add(1);
                Err(space_fault(fault))
            }
        }
    }

    fn log_by(&mut self, ops: &Ops, r: &Rec<'_>) -> Result<Lsn, SpaceFault> {
        if self.failed {
            self.breaks = self.breaks.saturating_add(1);
            return Err(SpaceFault::Disk);
        }
        self.tried = self.engine.place(r);
        if is_no_step(r) {
            self.failed = true;
            self.breaks = self.breaks.saturating_add(1);
            return Err(SpaceFault::Disk);
        }
        match log_record(&mut self.engine, ops, r, &mut self.tried) {
            Ok(lsn) => {
                self.end = self.engine.tail().max(1);
                self.gate = self.engine.durable();
                self.records += 1;
                Ok(lsn)
            }
            Err(fault) => {
                self.failed = true;
                self.full = is_log_end(fault);
                self.breaks = self.breaks.saturating_add(1);
                Err(space_fault(fault))
            }
        }
    }

    fn force(&mut self) -> Result<(), SpaceFault> {
        if self.failed {
            self.breaks = self.breaks.saturating_add(1);
            return Err(SpaceFault::Disk);
        }
        match self.engine.force() {
            Ok(()) => {
                self.end = self.engine.tail().max(1);
                self.gate = self.engine.durable();
                Ok(())
            }
            Err(_) => {
                self.failed = true;
                self.breaks = self.breaks.saturating_add(1);
                Err(SpaceFault::Disk)
            }
        }
    }

    fn flush(&mut self) -> Result<(), SpaceFault> {
        if self.failed {
            self.breaks = self.breaks.saturating_add(1);
            return Err(SpaceFault::Disk);
        }
        match self.engine.flush() {
            Ok(()) => {
                self.end = self.engine.tail().max(1);
                self.gate = self.engine.durable();
                Ok(())
            }
            Err(_) => {
                self.failed = true;
                self.breaks = self.breaks.saturating_add(1);
                Err(SpaceFault::Disk)
            }
        }
    }

    fn checkpoint(&mut self, live: &[u8]) -> Result<Lsn, SpaceFault> {
        self.log_checkpoint(live)
    }

    fn truncate(&mut self, oldest: Option<TxnId>) -> Result<(), SpaceFault> {
        if self.failed {
            self.breaks = self.breaks.saturating_add(1);
            return Err(SpaceFault::Disk);
        }
        match self.engine.force() {
            Ok(()) => {
                self.end = self.engine.tail().max(1);
                self.gate = self.engine.durable();
                self.cut_front(oldest)
            }
            Err(_) => {
                self.failed = true;
                self.breaks = self.breaks.saturating_add(1);
                Err(SpaceFault::Disk)
            }
        }
    }

    fn stop(&mut self) {
        self.failed = true;
    }

    fn look(&mut self, p: PageNo) -> Result<bool, SpaceFault> {
        if self.failed {
            self.breaks = self.breaks.saturating_add(1);
            return Err(SpaceFault::Disk);
        }
        if p.0 >= self.engine.pages() {
            return Ok(false);
        }
        match self.engine.load_page(p) {
            Ok(()) => {}
            Err(_) => {
                self.failed = true;
                self.breaks = self.breaks.saturating_add(1);
                return Err(SpaceFault::Disk);
            }
        }
        self.end = self.engine.tail().max(1);
        self.gate = self.engine.durable();
        Ok(view(self.engine.page(p)).is_some())
    }

    fn load(&mut self, p: PageNo) -> Result<(), SpaceFault> {
        if self.failed {
            self.breaks = self.breaks.saturating_add(1);
            return Err(SpaceFault::Disk);
        }
        if p.0 >= self.engine.pages() {
            self.failed = true;
            self.breaks = self.breaks.saturating_add(1);
            return Err(SpaceFault::Disk);
        }
        match self.engine.load_page(p) {
            Ok(()) => {}
            Err(_) => {
                self.failed = true;
                self.breaks = self.breaks.saturating_add(1);
                return Err(SpaceFault::Disk);
            }
        }
        if view(self.engine.page(p)).is_none() {
            self.failed = true;
            self.breaks = self.breaks.saturating_add(1);
            return Err(SpaceFault::Disk);
        }
        self.end = self.engine.tail().max(1);
        self.gate = self.engine.durable();
        Ok(())
    }

    fn page(&self, p: PageNo) -> SlotView<'_> {
        SlotView::new(self.engine.page(p))
    }

    fn load_band(&mut self, b: BandNo) -> Result<(), SpaceFault> {
        if self.failed {
            self.breaks = self.breaks.saturating_add(1);
            return Err(SpaceFault::Disk);
        }
        if b.0 >= self.engine.bands() {
            return Ok(());
        }
        match self.engine.load_band(b) {
            Ok(()) => {
                self.end = self.engine.tail().max(1);
                self.gate = self.engine.durable();
                Ok(())
            }
            Err(_) => {
                self.failed = true;
                self.breaks = self.breaks.saturating_add(1);
                Err(SpaceFault::Disk)
            }
        }
    }

    fn band(&self, b: BandNo) -> &[u8] {
        if b.0 >= self.engine.bands() {
            return &NONE;
        }
        self.engine.band(b)
    }

    fn read(&mut self, at: Lsn, into: &mut [u8]) -> Result<usize, SpaceFault> {
        if self.failed {
            self.breaks = self.breaks.saturating_add(1);
            return Err(SpaceFault::Disk);
        }
        match self.engine.read(at, into) {
            Ok(size) => {
                self.end = self.engine.tail().max(1);
                self.gate = self.engine.durable();
                Ok(size)
            }
            Err(_) => {
                self.failed = true;
                self.breaks = self.breaks.saturating_add(1);
                Err(SpaceFault::Disk)
            }
        }
    }
}
