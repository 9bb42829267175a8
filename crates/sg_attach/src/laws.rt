// What an image of a store is opened as.
ghost use Rattle.std.specs.Prelude.{◌≡◌, ◌≤◌, ◌++◌, [], ℕ, List};
ghost use Rattle.sg_base.specs.declared.area.Area.{Area};
ghost use Rattle.sg_disk.specs.Disk.{Image, View, Leaves, LeavesOnly};
ghost use Rattle.sg_log.specs.Frames.{Numbered};
ghost use Rattle.sg_log.specs.Held.{Tail};
ghost use Rattle.sg_ops.specs.Table.{Table};
ghost use Rattle.sg_pool.specs.declared.pool.Pool.{Pool};
ghost use Rattle.sg_action.specs.States.{State};
ghost use Rattle.sg_engine.specs.Effects.{IsBy};
ghost use Rattle.sg_engine.specs.Engine.{Origin};
ghost use Rattle.sg_engine.specs.Running.{IsEngine, IsAllowed};
ghost use Rattle.sg_find.specs.Synced.{reads, redo_point, SplitsAtSync};
ghost use Rattle.sg_find.specs.declared.fault.OpenFault.TheVariants.{Damaged, UnknownOperation};
ghost use Rattle.sg_open.specs.Found.{Opens};
ghost use Rattle.sg_open.specs.Refusals.{IsCause};
ghost use Rattle.sg_recovery.specs.Formed.{IsLog};
ghost use Rattle.sg_reopen.specs.Again.{StandsAgain};
ghost use Rattle.sg_actions.specs.Steps.{Steps};
ghost use Rattle.sg_phys_laws.specs.Formed.{AreFormed};
ghost use Rattle.sg_phys_laws.specs.Known.{IsEnough, AllEnough};
ghost use Rattle.sg_phys_laws.specs.Points.{AreMarked};
ghost use Rattle.sg_phys_laws.specs.Poised.{AreSaid, IsPoised};
ghost use Rattle.sg_phys_laws.specs.Recovers.{cut_at, origin_of, records_in, point_in, IsSoundImage, RecoversBy};
ghost use Rattle.sg_phys_laws.specs.States.{AllAgree, state_of, steps_of};
ghost use Rattle.sg_attach.specs.Attached.{IsStoreImage, IsAttaching};
ghost use Rattle.sg_attach.specs.Repeats.{repeated_in, records_from, LastMarked, IsLastOf};
ghost use Rattle.sg_engine.specs.Engine.{IsStanding};
ghost use Rattle.sg_pages.specs.Marks.{ImageEnds};
ghost use Rattle.sg_pages.specs.Parts.{seen};
ghost use Rattle.sg_phys_laws.specs.Reading.{durable_in, waiting_in};

use sg_disk::Presumed;
use sg_pages::Phys;

/// A law: an image of a store can be opened, with the records of its log over its own home area; these
/// make of it what the steps make of what the store first said; and what is opened so is the engine
/// under the actions.
pub fn images_attach()
    ensures opens { (t : Table) (v : View) → (s : IsSoundImage (origin_of t (reads v)) (point_in (origin_of t (reads v)) (reads v)) (records_in (origin_of t (reads v)) (reads v)) (reads v)) → Opens (origin_of t (reads v)) s.tail (records_in (origin_of t (reads v)) (reads v)) v }
    ensures point { (t : Table) (k : ℕ) (ns : List Numbered) (c : Image) → (s : IsSoundImage (origin_of t c) k ns c) → redo_point (origin_of t c).super.base ns ≤ s.tail }
    ensures said { (t : Table) (from : State) (durable log : Steps) (c : Image) → IsStoreImage t from durable log c → AreSaid t from (origin_of t c) (records_in (origin_of t c) c) }
    ensures poised { (t : Table) (from : State) (c : Image) (w : View) (log : Tail) (pool : Pool) → AreMarked (λ k. Unit {0}) (records_in (origin_of t c) c) → AreSaid t from (origin_of t c) (records_in (origin_of t c) c)
        → ∥ IsLog (origin_of t c).super.base (steps_of (records_in (origin_of t c) c)) ∥₁ → IsEnough t (origin_of t c).super.base (records_in (origin_of t c) c) → IsEngine (origin_of t c) w log (records_in (origin_of t c) c) [] pool
        → IsAllowed (origin_of t c) w log pool (redo_point (origin_of t c).super.base (records_in (origin_of t c) c)) → IsPoised t from (origin_of t c) w log pool }
{}

/// A law: where each image that could have been left before an opening is one of the store, each that
/// may be left while it is opened is. It need not be so: of a store whose log was being cut, an image may
/// have the log before the cut or behind it, and the one that is read says which store is opened.
pub fn opening_keeps()
    ensures { (t : Table) (from : State) (durable log : Steps) (v w : View) → ((c : Image) → Leaves v.now c → IsStoreImage t from durable log c) → IsStoreImage t from durable log (reads v)
        → SplitsAtSync v (IsAttaching t v w) → LeavesOnly v w (IsStoreImage t from durable log) }
{}

/// A law: an image that stands again, of whichever life, is one of the store, where its records agree
/// with their steps, and each of their fronts with the durable ones is a formed log for an opening of which enough
/// operations are registered; so is one of a store that was just made, of which nothing more is asked.
pub fn standing_is_of()
    ensures stands { (t : Table) (from : State) (o : Origin) (ds all : List Numbered) (c : Image) → IsBy t o → AllAgree t o ds all → AreSaid t from o ds → AreFormed o.super.base ds all → AllEnough t o.super.base ds all → StandsAgain o ds all c → IsStoreImage t from (steps_of ds) (steps_of all) c }
    ensures none { (t : Table) (o : Origin) (c : Image) → IsBy t o → StandsAgain o [] [] c → IsStoreImage t (cut_at o.super (state_of o.first)) [] [] c }
{}

/// A law: an image of a store is refused for no damage before the first write: its superblock is in range,
/// each frame of its log is formed, and so is the log, and each record is of a page or a band of the store.
pub fn images_are_undamaged()
    ensures { (t : Table) (c : Image) (log : Steps) (x : State) (area : Area) (at : ℕ) → RecoversBy t c log x → IsCause t c (Damaged area at) → ⊥ }
{}

/// A law: an image of a store by some operations is refused for none that isn't registered among them: each
/// that opening needs is.
pub fn none_is_unknown()
    ensures { (t : Table) (c : Image) (log : Steps) (x : State) (code : ℕ) → RecoversBy t c log x → IsCause t c (UnknownOperation code) → ⊥ }
{}

/// A law: an opening repeats no more records of an image than its log holds from where the last checkpoint has redo begin. A
/// checkpoint that is the last record of a log is its last checkpoint. An image that stands for records, as each image of each moment
/// of a call of the page engine does, keeps the last checkpoint of those that were durable, where none was appended behind them.
pub fn checkpoints_bound_openings()
    ensures most { (c : Image) (lsn estimate : ℕ) → LastMarked c lsn estimate → repeated_in c ≤ records_from estimate c }
    ensures ends { (c : Image) (lsn estimate : ℕ) → ImageEnds c lsn estimate → LastMarked c lsn estimate }
    ensures stands { (o : Origin) (ds all : List Numbered) (k : ℕ) (c : Image) (lsn estimate : ℕ) → IsStanding o ds all k c → IsLastOf ds all lsn estimate → LastMarked c lsn estimate }
{}

/// A law: as long as the last checkpoint of a store's log is durable, it is the last one of each image that a crash leaves.
pub fn images_keep_checkpoints<D: Presumed>(pages: &Phys<D>)
    ensures { (seen D.told D.presumed D.view pages.now).Told → (c : Image) (lsn estimate : ℕ) → Leaves (D.view pages.now.engine.disk).now c
        → IsLastOf (durable_in (D.view pages.now.engine.disk) pages.now.engine.log) (durable_in (D.view pages.now.engine.disk) pages.now.engine.log ++ waiting_in pages.now.engine.log) lsn estimate
        → LastMarked c lsn estimate }
{
    let _pages = pages;
}
