// What holds of the engine's definitions.
ghost use Rattle.std.specs.Prelude.{◌≡◌, ◌<◌, ◌++◌, ◌^◌, [], ℕ, List, Ok, Some, None};
ghost use Rattle.sg_base.specs.Op.{Op};
ghost use Rattle.sg_base.specs.declared.area.Area.TheVariants.{Home};
ghost use Rattle.sg_disk.specs.Disk.{Image, View};
ghost use Rattle.sg_record.specs.Records.{Record};
ghost use Rattle.sg_log.specs.Frames.{Numbered};
ghost use Rattle.sg_log.specs.Held.{Tail, Holds, numbered};
ghost use Rattle.sg_gate.specs.Superblock.{superblock};
ghost use Rattle.sg_ops.specs.Table.{Table};
ghost use Rattle.sg_redo.specs.Page.{made};
ghost use Rattle.sg_pool.specs.declared.pool.Pool.{Pool};
ghost use Rattle.sg_pool.specs.Pooled.{sizes, contents, Backs};
ghost use Rattle.sg_pool.specs.Units.{EachPage};
ghost use Rattle.sg_pool.specs.Well.{IsWell};
ghost use Rattle.sg_engine.specs.History.{ChangesPage, ChangesBand, ChangesNothing, IsNumbered};
ghost use Rattle.sg_engine.specs.Kept.{home_in};
ghost use Rattle.sg_engine.specs.Engine.{Origin, geometry, IsLogOf, IsStanding};
ghost use Rattle.sg_engine.specs.Running.{IsEngine, DoesToPage, DoesToBand, DoesNothing};

/// A law: a store without a record is an engine, and what its disk has is the home area that it comes
/// from.
pub fn fresh_engine()
    ensures { (o : Origin) (v : View) (log : Tail) (pool : Pool) → sizes pool ≡ geometry o.super → superblock (v.now Home).seen ≡ Ok o.super → IsLogOf o.super log → Holds v log [] [] → Backs (sizes pool) v pool
        → ((n : ℕ) → (contents v pool).page_since n ≡ None) → ((b : ℕ) → (contents v pool).band_since b ≡ None) → o.first ≡ home_in (geometry o.super) (v.now Home).seen
        → EachPage (geometry o.super) (λ n. IsWell (o.first.page n) × IsNumbered log.gate (o.first.page n)) → IsEngine o v log [] [] pool }
{}

/// A law: a record may be appended to an engine's log where it changes no page, and where its
/// operation fits the page as it is and leaves it a page.
pub fn records_may_come()
    ensures page { (o : Origin) (v : View) (log : Tail) (ds ps : List Numbered) (pool : Pool) (r : Record) (t : Table) (p : ℕ) (op : Op) (new : List ℕ) → IsEngine o v log ds ps pool → (numbered log r).lsn < 2 ^ 64
        → o.effect (numbered log r).lsn r ≡ ChangesPage p (made t (numbered log r).lsn op) → p < (sizes pool).pages → made t (numbered log r).lsn op ((contents v pool).page p) ≡ Some new → IsWell new
        → DoesToPage o t (ds ++ ps) (numbered log r) p op }
    ensures band { (o : Origin) (v : View) (log : Tail) (ds ps : List Numbered) (pool : Pool) (r : Record) (b at : ℕ) (bytes : List ℕ) → IsEngine o v log ds ps pool
        → b < o.super.bands → o.effect (numbered log r).lsn r ≡ ChangesBand b at bytes → DoesToBand o (ds ++ ps) (numbered log r) b at bytes }
    ensures neither { (o : Origin) (v : View) (log : Tail) (ds ps : List Numbered) (pool : Pool) (r : Record) → IsEngine o v log ds ps pool
        → o.effect (numbered log r).lsn r ≡ ChangesNothing → DoesNothing o (ds ++ ps) (numbered log r) }
{}

/// A law: an image that stands for some durable records, of some appended ones, stands for fewer
/// durable and more appended ones.
pub fn images_weaken()
    ensures { (o : Origin) (ds all more since later : List Numbered) (k : ℕ) (c : Image) → IsStanding o (ds ++ since) all k c → more ≡ all ++ later → IsStanding o ds more k c }
{}
