ghost use Rattle.std.specs.Prelude.{◌≡◌, ◌≤◌, ◌+◌, ◌*◌, ◌/◌, ℕ, ⊤, true, false, is_some, List, [], Option, IfOk, OnOk, length, take};
ghost use Rattle.sg_base.specs.Sheet.{sheet_of};
ghost use Rattle.sg_disk.specs.Disk.{Image};
ghost use Rattle.sg_checkpoints.specs.Checkpoints.{Marks, StaysMarked};
ghost use Rattle.sg_checkpoints.specs.Cutting.{IsCut};
ghost use Rattle.sg_ops.specs.Laws.{IsLawful};
ghost use Rattle.sg_ops.specs.Table.{Table, table_of};
ghost use Rattle.sg_record.specs.Ranges.{IsRecord};
ghost use Rattle.sg_actions.specs.Painting.{AreBandsWhole};
ghost use Rattle.sg_record.specs.Records.{spelled};
ghost use Rattle.sg_record.specs.Records.Says.{Begin, Checkpoint};
ghost use Rattle.sg_record.specs.Shown.{shown, by};
ghost use Rattle.sg_recovery.specs.Log.{tally};
ghost use Rattle.sg_action.specs.States.{State};
ghost use Rattle.sg_actions.specs.Cutting.{IsOldest, HasWanted};
ghost use Rattle.sg_actions.specs.Images.{Grows, Recovering};
ghost use Rattle.sg_actions.specs.Handing.{makes_change, HandsOver};
ghost use Rattle.sg_actions.specs.Engine.{EngineSeen, led, Keeps, AreBy, AllOn, HasPage, EngineGrows, EngineRests, CanLog, Logs, EngineLooks, IsForced, StandsNow, LookedAt, LookedAtBand, HasStep, ReadsStep, ArePagesFit, now_of};

use sg_base::{BAND_SIZE, BandNo, Lsn, PageNo, SlotView, TxnId};
use sg_ops::Ops;
use sg_record::Rec;
use sg_space::SpaceFault;

/// A log of page records, and the pages and bands that its records make. A record that changes one is
/// appended and its change made in one call.
///
/// What is asked of a caller is asked where the engine is told, but for the ranges of a record. On any
/// engine each call is safe and returns, and fails only where the count of faults rose, or near the
/// log's end. A call that fails says which images it may have left, and no later call is one of the
/// disk.
pub trait Engine {
    /// How many slots a page may have, of a store of so many pages and bands that said this when an action began.
    ghost limits: { (pages bands : ℕ) → State → ℕ → ℕ };

    /// What an image of the disk holds, by the operations that its records mean.
    ghost recovers: { Table → Recovering };

    /// What it shows, whatever its records mean.
    ghost view: { Self → EngineSeen };

    /// Its records are of these operations, and its steps lead from these pages and bands to its contents.
    ghost means: { Self → Table → State → Type 0 };

    /// The page, or the band, can be looked at.
    ghost loaded: { Self → ℕ → Type 0 };

    ghost loaded_band: { Self → ℕ → Type 0 };

    /// A change of a page or a band by the record with this number isn't on the disk yet.
    ghost unwritten: { Self → ℕ → Type 0 };

    /// The number of the first byte that the log still has.
    ghost first_byte: { Self → ℕ };

    /// The number of the byte behind the log's first frame.
    ghost first_frame_end: { Self → ℕ };

    /// The number of the log's last checkpoint, durable or not.
    ghost last_checkpoint: { Self → Option ℕ };

    /// The superblock can't be renewed any more: hardly any of its numbers is left.
    ghost is_spent: { Self → Type 0 };

    /// How many bytes wait at the log's end to be handed to the disk: records, and the head of their frame.
    ghost waiting: { Self → ℕ };

    /// The log's last record, durable or not, is the checkpoint with this number, which has redo begin at this estimate.
    ghost marked: { Self → (lsn estimate : ℕ) → Type 0 };

    /// So is the last record of an image's log.
    ghost ends_at: { Image → (lsn estimate : ℕ) → Type 0 };

    /// The log's last record, durable or not, is a checkpoint with these transactions that go on, 16 bytes each.
    ghost names: { Self → List ℕ → Type 0 };

    /// No record from now on has a number below this.
    fn tail(&self) -> Lsn
        ensures { result ≡ (view self.now).tail };

    /// The number of the first byte that the log still has.
    fn start(&self) -> Lsn
        ensures { result ≡ first_byte self.now };

    /// Whether a call failed. No later call is one of the disk.
    fn has_failed(&self) -> bool
        ensures { result ≡ (view self.now).failed };

    /// Whether the first call that failed was refused for the log's end.
    fn is_full(&self) -> bool
        ensures { result ≡ (view self.now).full };

    /// The number that a record would get now: of one that makes no change, the very number.
    fn next(&self, r: &Rec<'_>) -> Lsn
        requires { IsRecord (shown r.now) }
        ensures { result ≡ (view self.now).next (shown r.now).says };

    /// Appends a record and makes its change, which needs no registered operation.
    fn log(&mut self, r: &Rec<'_>) -> Result<Lsn, SpaceFault>
        requires range { IsRecord (shown r.now) }
        requires can { (t : Table) (from : State) → means self.old t from → CanLog t ⊥ (view self.old) (shown r.now) }
        ensures grows { EngineGrows (view self.old) (view self.new) (shown r.now) result }
        ensures means { Keeps (means self.old) (means self.new) }
        ensures logs { (t : Table) (from : State) → means self.old t from → Logs (recovers t) t (led from (view self.old)) (led from (view self.new)) (shown r.now) result }
        ensures hands { makes_change (shown r.now).says ≡ false → HandsOver (length (spelled (shown r.now))) (view self.old).disk.handed (waiting self.old) (view self.new).disk.handed (waiting self.new) result }
        ensures number { (shown r.now).says ≡ Begin → IfOk result (λ lsn. lsn ≡ (view self.old).next Begin) }
        ensures tried { (shown r.now).says ≡ Begin → (view self.old).Told → (view self.new).tried ≡ (view self.old).next Begin };

    /// Appends a record and makes its change, by these operations, of which its records are.
    fn log_by(&mut self, ops: &Ops, r: &Rec<'_>) -> Result<Lsn, SpaceFault>
        requires range { IsRecord (shown r.now) }
        requires by { (view self.old).Told → AreBy (means self.old) (table_of record_meaning range_meaning ops.now) }
        requires can { CanLog (table_of record_meaning range_meaning ops.now) ⊤ (view self.old) (shown r.now) }
        ensures grows { EngineGrows (view self.old) (view self.new) (shown r.now) result }
        ensures means { (from : State) → means self.old (table_of record_meaning range_meaning ops.now) from → means self.new (table_of record_meaning range_meaning ops.now) from }
        ensures logs { let t = table_of record_meaning range_meaning ops.now in (from : State) → means self.old t from → Logs (recovers t) t (led from (view self.old)) (led from (view self.new)) (shown r.now) result };

    /// Makes all records durable.
    fn force(&mut self) -> Result<(), SpaceFault>
        ensures rests { EngineRests (view self.old) (view self.new) result }
        ensures hands { HandsOver 0 (view self.old).disk.handed (waiting self.old) (view self.new).disk.handed (waiting self.new) result }
        ensures none_waits { OnOk result (waiting self.new ≡ 0) }
        ensures marked { OnOk result ((view self.old).Told → StaysMarked (marked self.old) (marked self.new) ends_at (view self.new).disk.now) }
        ensures names { OnOk result ((view self.old).Told → (live : List ℕ) → names self.old live → names self.new live) }
        ensures means { Keeps (means self.old) (means self.new) }
        ensures looks { (t : Table) (from : State) → means self.old t from → EngineLooks (recovers t) t (led from (view self.old)) (led from (view self.new)) result }
        ensures forced { (t : Table) (from : State) → means self.old t from → OnOk result (IsForced (view self.new)) };

    /// Makes all records durable, and writes each changed page and band home.
    fn flush(&mut self) -> Result<(), SpaceFault>
        ensures written { OnOk result ((lsn : ℕ) → unwritten self.new lsn → ⊥) }
        ensures marked { OnOk result ((view self.old).Told → StaysMarked (marked self.old) (marked self.new) ends_at (view self.new).disk.now) }
        ensures names { OnOk result ((view self.old).Told → (live : List ℕ) → names self.old live → names self.new live) }
        ensures rests { EngineRests (view self.old) (view self.new) result }
        ensures means { Keeps (means self.old) (means self.new) }
        ensures looks { (t : Table) (from : State) → means self.old t from → EngineLooks (recovers t) t (led from (view self.old)) (led from (view self.new)) result }
        ensures forced { (t : Table) (from : State) → means self.old t from → OnOk result (IsForced (view self.new)) };

    /// Makes all records durable, and cuts off the log's front: the frames before the one that holds the least of the changes that
    /// aren't on the disk yet, the begin of `oldest`, which is the transaction that goes on and began first, and the log's last
    /// checkpoint. Nothing is cut where the log has no checkpoint, where that isn't behind the first byte that the log still has, or
    /// where the superblock can't be renewed. No action is open.
    fn truncate(&mut self, oldest: Option<TxnId>) -> Result<(), SpaceFault>
        requires idle { (view self.old).Told → (tally (view self.old).steps).opened ≡ [] }
        requires oldest { (view self.old).Told → IsOldest oldest (tally (view self.old).steps).live }
        ensures rests { EngineRests (view self.old) (view self.new) result }
        ensures means { Keeps (means self.old) (means self.new) }
        ensures looks { (t : Table) (from : State) → means self.old t from → EngineLooks (recovers t) t (led from (view self.old)) (led from (view self.new)) result }
        ensures forced { (t : Table) (from : State) → means self.old t from → OnOk result (IsForced (view self.new)) }
        ensures cuts { OnOk result ((view self.old).Told → IsCut (unwritten self.old) oldest (last_checkpoint self.old) (is_spent self.old) (first_byte self.old) (first_byte self.new) (first_frame_end self.new)) };

    /// Nothing more is asked of it: it tells no more, and no later call is one of the disk.
    fn stop(&mut self)
        ensures silent { (view self.new).Told → ⊥ }
        ensures stopped { (view self.new).failed ≡ true }
        ensures full { (view self.new).full ≡ (view self.old).full }
        ensures disk { (view self.new).disk ≡ (view self.old).disk }
        ensures base { (view self.new).base ≡ (view self.old).base }
        ensures extent { (view self.new).extent ≡ (view self.old).extent }
        ensures tail { (view self.new).tail ≡ (view self.old).tail }
        ensures gate { (view self.new).gate ≡ (view self.old).gate }
        ensures faults { (view self.new).faults ≡ (view self.old).faults }
        ensures records { (view self.new).records ≡ (view self.old).records }
        ensures means { Keeps (means self.old) (means self.new) };

    /// Appends a record of where history has to be repeated from, with these transactions that go on: 16
    /// bytes each, of at most 64. Nothing else changes. It isn't durable before the next force.
    fn checkpoint(&mut self, live: &[u8]) -> Result<Lsn, SpaceFault>
        requires most { length live.now ≤ 1024 }
        requires rows { length live.now ≡ 16 * (length live.now / 16) }
        ensures grows { EngineGrows (view self.old) (view self.new) (by 0 0 (Checkpoint 0 live.now)) result }
        ensures hands { HandsOver (length (spelled (by 0 0 (Checkpoint 0 live.now)))) (view self.old).disk.handed (waiting self.old) (view self.new).disk.handed (waiting self.new) result }
        ensures marks { IfOk result (λ lsn. (view self.old).Told → Marks (unwritten self.old) (marked self.new) lsn) }
        ensures names { OnOk result ((view self.old).Told → names self.new live.now) }
        ensures means { Keeps (means self.old) (means self.new) }
        ensures looks { (t : Table) (from : State) → means self.old t from → EngineLooks (recovers t) t (led from (view self.old)) (led from (view self.new)) result };

    /// Brings a page to where it can be looked at, and answers whether it says anything.
    fn look(&mut self, p: PageNo) -> Result<bool, SpaceFault>
        ensures rests { EngineRests (view self.old) (view self.new) result }
        ensures means { Keeps (means self.old) (means self.new) }
        ensures looks { (t : Table) (from : State) → means self.old t from → EngineLooks (recovers t) t (led from (view self.old)) (led from (view self.new)) result }
        ensures says { IfOk result (λ is. is ≡ is_some ((view self.new).now.pages p.0)) }
        ensures loaded { IfOk result (λ is. is ≡ true → loaded self.new p.0) };

    /// Brings a page to where it can be looked at. It fails of one that says nothing, and where the engine tells, it isn't asked of one.
    fn load(&mut self, p: PageNo) -> Result<(), SpaceFault>
        requires there { (view self.old).Told → HasPage (view self.old) p.0 }
        ensures rests { EngineRests (view self.old) (view self.new) result }
        ensures means { Keeps (means self.old) (means self.new) }
        ensures looks { (t : Table) (from : State) → means self.old t from → EngineLooks (recovers t) t (led from (view self.old)) (led from (view self.new)) result }
        ensures loaded { OnOk result (loaded self.new p.0) };

    /// A look at a page.
    fn page(&self, p: PageNo) -> SlotView<'_>
        requires { loaded self.now p.0 }
        ensures { LookedAt (view self.now) p.0 (sheet_of result.page.now) };

    /// Brings a band to where it can be looked at. One that there isn't has zeros.
    fn load_band(&mut self, b: BandNo) -> Result<(), SpaceFault>
        ensures rests { EngineRests (view self.old) (view self.new) result }
        ensures means { Keeps (means self.old) (means self.new) }
        ensures looks { (t : Table) (from : State) → means self.old t from → EngineLooks (recovers t) t (led from (view self.old)) (led from (view self.new)) result }
        ensures loaded { OnOk result (loaded_band self.new b.0) };

    /// A look at the 32,768 bytes of a band.
    fn band(&self, b: BandNo) -> &[u8]
        requires { loaded_band self.now b.0 }
        ensures looked { LookedAtBand (view self.now) b.0 result.now }
        ensures size { length result.now ≡ BAND_SIZE };

    /// Reads the record with this number, which the log still has, to the front of a buffer of at least 16,417 bytes, and answers
    /// how many bytes it has.
    fn read(&mut self, at: Lsn, into: &mut [u8]) -> Result<usize, SpaceFault>
        requires there { HasStep (view self.old) at }
        requires kept { (view self.old).Told → first_byte self.old ≤ at }
        requires room { 16417 ≤ length into.old }
        ensures rests { EngineRests (view self.old) (view self.new) result }
        ensures means { Keeps (means self.old) (means self.new) }
        ensures looks { (t : Table) (from : State) → means self.old t from → EngineLooks (recovers t) t (led from (view self.old)) (led from (view self.new)) result }
        ensures within { IfOk result (λ n. n ≤ length into.new) }
        ensures read { (t : Table) (from : State) → means self.old t from → IfOk result (λ n. ReadsStep (view self.old) at (take n into.new)) };

    /// An engine that tells has not failed.
    ghost told_whole: { (s : Self) → (view s).Told → (view s).failed ≡ false };

    /// One that has not failed counts no failure.
    ghost unfailed: { (s : Self) → (view s).failed ≡ false → (view s).faults ≡ 0 };

    /// One that was refused for the log's end has failed.
    ghost full_failed: { (s : Self) → (view s).full ≡ true → (view s).failed ≡ true };

    /// What waits at the log's end to be durable is a frame at most, with its head.
    ghost waits: { (s : Self) → (view s).tail ≤ (view s).gate + 65541 };

    /// Each change that was appended is of a page or a band that there is.
    ghost changes_on: { (s : Self) → (view s).Told → AllOn (view s).extent (view s).steps };

    /// Of a transaction that goes on, and of an action that has no end, it still has all records.
    ghost wanted: { (s : Self) → (view s).Told → HasWanted (first_byte s) (view s).steps };

    /// What is durable is a front of what was appended.
    ghost durable_first: { (s : Self) → (view s).Told → Grows (view s).durable (view s).steps };

    /// One that tells stands for some operations and some first pages. So what a clause says of any that it stands for,
    /// without their name, holds. Of one that doesn't tell none need be known.
    ghost some: { (s : Self) → (view s).Told → ∥ ((t : Table) × (from : State) × means s t from) ∥₁ };

    /// The operations that it stands for keep their laws.
    ghost lawful: { (s : Self) (t : Table) (from : State) → means s t from → IsLawful t };

    /// What it holds is what its steps make of the first pages, by these operations.
    ghost now_is: { (s : Self) (t : Table) (from : State) → means s t from → (view s).Told → (view s).now ≡ now_of t (led from (view s)) };

    /// It has no more bands than a record has room for.
    ghost few_bands: { (s : Self) → (view s).Told → (view s).extent.bands ≤ 65536 };

    /// Its pages have no more cells than they have bytes for.
    ghost pages_fit: { (s : Self) (t : Table) (from : State) → means s t from → (view s).Told → ArePagesFit (view s).now };

    /// Its bands have all their bytes.
    ghost bands_whole: { (s : Self) (t : Table) (from : State) → means s t from → (view s).Told → AreBandsWhole (view s).now };

    /// Each image that a crash now leaves has a front of what was appended, with all that is durable.
    ghost images: { (s : Self) (t : Table) (from : State) → means s t from → (view s).Told → StandsNow (recovers t) t (led from (view s)) };
}
