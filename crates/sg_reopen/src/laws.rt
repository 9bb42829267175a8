// What holds of images that stand, and of the lives of a store.
ghost use Rattle.std.specs.Prelude.{◌≡◌, ◌<◌, ◌≤◌, ◌++◌, ◌∷◌, [], ℕ, List};
ghost use Rattle.sg_base.specs.declared.area.Area.{Area};
ghost use Rattle.sg_base.specs.declared.page.TheConstants.{BAND_SIZE};
ghost use Rattle.sg_disk.specs.Disk.{Image, View, LeavesOnly};
ghost use Rattle.sg_log.specs.Frames.{Numbered};
ghost use Rattle.sg_log.specs.Held.{Tail, numbered};
ghost use Rattle.sg_ops.specs.Table.{Table};
ghost use Rattle.sg_analysis.specs.Sights.{sight_of};
ghost use Rattle.sg_analysis.specs.Sights.Sight.{Estimated};
ghost use Rattle.sg_pool.specs.Pooled.{contents};
ghost use Rattle.sg_pool.specs.declared.pool.Pool.{Pool};
ghost use Rattle.sg_engine.specs.Effects.{IsBy};
ghost use Rattle.sg_engine.specs.History.{Homes, made};
ghost use Rattle.sg_engine.specs.Engine.{Origin, entries, IsStanding};
ghost use Rattle.sg_engine.specs.Running.{IsEngine, IsAllowed};
ghost use Rattle.sg_find.specs.Synced.{reads, redo_point};
ghost use Rattle.sg_opening.specs.Opening.{IsOpenable};
ghost use Rattle.sg_open.specs.Found.{Opens};
ghost use Rattle.sg_reopen.specs.Again.{at_home, image_home, origin_at, StandsAgain, MakesSame, IsMarked, AreMarked, ArePoints};
ghost use Rattle.sg_gate.specs.declared.superblock.Super.{Super};
ghost use Rattle.sg_record.specs.Records.{Record};
ghost use Rattle.sg_engine.specs.History.{Effect};
ghost use Rattle.sg_reopen.specs.Making.{IsEmptyCatalogue, IsEmptyStore, origin_of};
ghost use Rattle.sg_log.specs.Cut.{IsSplit, gate_of, gone_of, kept_of};
ghost use Rattle.sg_engine.specs.Cut.{Stand, cut_at, IsCutting};
ghost use Rattle.sg_reopen.specs.Over.{StandsOver, GivesAll, IsBetween};
ghost use Rattle.sg_reopen.specs.Lives.{Life, AreLives, records_then, home_then, AllStand};

/// A law: an image that stands can be opened with the records of its log, from the point from which
/// it stands; and as a store is opened, where that is the redo point of these records.
pub fn images_open()
    ensures from { (t : Table) (o : Origin) (ds all : List Numbered) (r : ℕ) (c : Image) → IsBy t o → (s : IsStanding o ds all r c) → IsOpenable (origin_at o c) r s.tail s.records c }
    ensures again { (t : Table) (o : Origin) (ds all : List Numbered) (c : Image) (v : View) → IsBy t o → ((a : Area) → reads v a ≡ c a) → (s : StandsAgain o ds all c) → Opens (origin_at o c) s.stands.tail s.stands.records v }
{}

/// A law: the records of an image make of its own home area what they make of the first one; and an
/// image of a later life stands for the store as it was first.
pub fn images_first()
    ensures start { (o : Origin) (rs : List Numbered) → MakesSame o rs o.first }
    ensures more { (o : Origin) (rs more : List Numbered) (f : Homes) → MakesSame o rs f → MakesSame o (rs ++ more) f }
    ensures makes { (o : Origin) (rs since all : List Numbered) (f : Homes) (r : ℕ) (c : Image) → MakesSame o rs f → (s : IsStanding (at_home o f) (rs ++ since) all r c) → MakesSame o s.records (image_home o c) }
    ensures stands { (o : Origin) (rs since all : List Numbered) (f : Homes) (r : ℕ) (c : Image) → MakesSame o rs f → IsStanding (at_home o f) (rs ++ since) all r c → IsStanding o (rs ++ since) all r c }
    ensures again { (o : Origin) (rs since all : List Numbered) (f : Homes) (v w : View) → MakesSame o rs f → LeavesOnly v w (StandsAgain (at_home o f) (rs ++ since) all) → LeavesOnly v w (StandsAgain o (rs ++ since) all) }
{}

/// A law: the pages and the bands of a running engine are what all records make of the first home
/// area of all, over all its lives.
pub fn contents_of_all()
    ensures pages { (o : Origin) (rs since ds ps : List Numbered) (f : Homes) (v : View) (log : Tail) (pool : Pool) (n : ℕ) → MakesSame o rs f → ds ≡ rs ++ since → IsEngine (at_home o f) v log ds ps pool → n < o.super.pages →
        (contents v pool).page n ≡ (made (entries o (ds ++ ps)) o.first).page n }
    ensures bands { (o : Origin) (rs since ds ps : List Numbered) (f : Homes) (v : View) (log : Tail) (pool : Pool) (b i : ℕ) → MakesSame o rs f → ds ≡ rs ++ since → IsEngine (at_home o f) v log ds ps pool → b < o.super.bands → i < BAND_SIZE →
        (contents v pool).byte b i ≡ (made (entries o (ds ++ ps)) o.first).byte b i }
{}

/// A law: where each image stands from each point that is allowed, it stands from its own.
pub fn stands_from_own()
    ensures { (o : Origin) (ds all : List Numbered) (v w : View) (log : Tail) (pool : Pool) → ArePoints o (IsAllowed o v log pool) ds all → ((k : ℕ) → IsAllowed o v log pool k → LeavesOnly v w (IsStanding o ds all k)) → LeavesOnly v w (StandsAgain o ds all) }
{}

/// A law: the points of a log stay allowed, over what leaves allowed what was, with a record more, and
/// with more that is durable; and a checkpoint that estimates one may be appended.
pub fn points_go_on()
    ensures allow { (o : Origin) (v w : View) (log log' : Tail) (pool pool' : Pool) (ds all : List Numbered) → ((k : ℕ) → IsAllowed o v log pool k → IsAllowed o w log' pool' k) → ArePoints o (IsAllowed o v log pool) ds all → ArePoints o (IsAllowed o w log' pool') ds all }
    ensures append { (o : Origin) (v : View) (log : Tail) (pool : Pool) (ds all : List Numbered) (n : Numbered) → ArePoints o (IsAllowed o v log pool) ds all → IsMarked (IsAllowed o v log pool) n.lsn (sight_of n.is) → ArePoints o (IsAllowed o v log pool) ds (all ++ n ∷ []) }
    ensures durable { (o : Origin) (v : View) (log : Tail) (pool : Pool) (ds since rest all : List Numbered) → ArePoints o (IsAllowed o v log pool) ds all → all ≡ (ds ++ since) ++ rest → ArePoints o (IsAllowed o v log pool) (ds ++ since) all }
    ensures mark { (o : Origin) (v : View) (log : Tail) (ds ps : List Numbered) (pool : Pool) (k : ℕ) (r : Record) → IsEngine o v log ds ps pool → 0 < o.super.pages → IsAllowed o v log pool k → sight_of r ≡ Estimated k →
        IsMarked (IsAllowed o v log pool) (numbered log r).lsn (sight_of r) }
    ensures opened { (o : Origin) (v : View) (log : Tail) (pool : Pool) (rs : List Numbered) → AreMarked (λ k. Unit {0}) rs → IsAllowed o v log pool (redo_point o.super.base rs) → ArePoints o (IsAllowed o v log pool) rs rs }
{}

/// A law: of lives that follow one another each leaves an image that stands for the store as it was
/// first, and the last one's records make of its first home area what they make of the first of all.
pub fn lives_stand()
    ensures stand { (o : Origin) (rs : List Numbered) (f : Homes) (ls : List Life) (are : AreLives o rs f ls) → MakesSame o rs f → AllStand o rs f ls are }
    ensures last { (o : Origin) (rs : List Numbered) (f : Homes) (ls : List Life) (are : AreLives o rs f ls) → MakesSame o rs f → MakesSame o (records_then o rs f ls are) (home_then o rs f ls are) }
{}

/// A law: the image of an empty store stands, with no record, from each point; so it can be opened.
pub fn empty_stands()
    ensures from { (effect : (lsn : ℕ) → Record → Effect) (s : Super) (page : List ℕ) (r : ℕ) (c : Image) → IsEmptyCatalogue page → IsEmptyStore s page c → s.base ≡ 0 → 1 ≤ s.pages → IsStanding (origin_of effect s page) [] [] r c }
    ensures again { (effect : (lsn : ℕ) → Record → Effect) (s : Super) (page : List ℕ) (c : Image) → IsEmptyCatalogue page → IsEmptyStore s page c → s.base ≡ 0 → 1 ≤ s.pages → StandsAgain (origin_of effect s page) [] [] c }
{}

/// A law: a call of a running engine leaves images that stand again for the store as it was first, where
/// each stands from each point that is allowed. With one record more the call may append it, where it
/// isn't a checkpoint, or estimates what is allowed.
pub fn running_stands()
    ensures rests { (o : Origin) (rs since all : List Numbered) (f : Homes) (v w : View) (log : Tail) (pool : Pool) → MakesSame o rs f → ArePoints (at_home o f) (IsAllowed (at_home o f) v log pool) (rs ++ since) all →
        ((k : ℕ) → IsAllowed (at_home o f) v log pool k → LeavesOnly v w (IsStanding (at_home o f) (rs ++ since) all k)) → LeavesOnly v w (StandsAgain o (rs ++ since) all) }
    ensures appends { (o : Origin) (rs since all : List Numbered) (f : Homes) (v w : View) (log : Tail) (pool : Pool) (n : Numbered) → MakesSame o rs f → ArePoints (at_home o f) (IsAllowed (at_home o f) v log pool) (rs ++ since) all →
        IsMarked (IsAllowed (at_home o f) v log pool) n.lsn (sight_of n.is) →
        ((k : ℕ) → IsAllowed (at_home o f) v log pool k → LeavesOnly v w (IsStanding (at_home o f) (rs ++ since) (all ++ n ∷ []) k)) → LeavesOnly v w (StandsAgain o (rs ++ since) (all ++ n ∷ [])) }
{}

/// A law: a store whose log is cut, as often as may be, over any number of lives. Its kept records make
/// of its home area what all records ever made of the first one; and each image stands over all of
/// them.
pub fn cuts_stand()
    ensures same { (o : Origin) (a b : Stand) (before gone kept : List Numbered) (f : Homes) → MakesSame (cut_at o a before) (gone ++ kept) f → MakesSame (cut_at o b (before ++ gone)) kept (made (entries (at_home (cut_at o a before) f) gone) f) }
    ensures points { (o : Origin) (v : View) (log : Tail) (pool : Pool) (point base : ℕ) (ds : List Numbered) (s : IsSplit base point ds) (b : Stand) → o.super.base ≡ base → b.base ≡ gate_of s → IsAllowed o v log pool point →
        ArePoints o (IsAllowed o v log pool) ds ds → ArePoints (cut_at o b (gone_of s)) (IsAllowed o v log pool) (kept_of s) (kept_of s) }
    ensures moments { (o : Origin) (a : Stand) (before rs since ds : List Numbered) (f : Homes) (v w : View) (log : Tail) (pool : Pool) (point : ℕ) → MakesSame (cut_at o a before) rs f → ds ≡ rs ++ since → a.base ≡ log.base →
        IsAllowed (at_home (cut_at o a before) f) v log pool point → ArePoints (at_home (cut_at o a before) f) (IsAllowed (at_home (cut_at o a before) f) v log pool) ds ds →
        LeavesOnly v w (IsCutting (at_home (cut_at o a before) f) v log pool point ds) → LeavesOnly v w (StandsOver o (before ++ ds) (before ++ ds)) }
{}

/// A law, THE INVARIANT FOR ALL TIME: each image of each moment stands over all that was ever done to
/// the store. So does the image of one that was just made. Over each call of its engine, which runs
/// without the records that are gone, each image still does, with one record more where the call
/// appends one; `reopen` says so of an opening, and `cuts_stand` of a cut. Such an image gives, once its
/// records are repeated, the pages and bands that all records since the store was made give; and so
/// does the engine that runs.
pub fn images_stand_over()
    ensures made { (effect : (lsn : ℕ) → Record → Effect) (s : Super) (page : List ℕ) (c : Image) → IsEmptyCatalogue page → IsEmptyStore s page c → s.base ≡ 0 → 1 ≤ s.pages → StandsOver (origin_of effect s page) [] [] c }
    ensures life { (o : Origin) (a : Stand) (before rs since all : List Numbered) (f : Homes) (c : Image) → MakesSame (cut_at o a before) rs f → StandsAgain (at_home (cut_at o a before) f) (rs ++ since) all c → StandsOver o (before ++ (rs ++ since)) (before ++ all) c }
    ensures rests { (o : Origin) (a : Stand) (before rs since all : List Numbered) (f : Homes) (v w : View) (log : Tail) (pool : Pool) → MakesSame (cut_at o a before) rs f →
        ArePoints (at_home (cut_at o a before) f) (IsAllowed (at_home (cut_at o a before) f) v log pool) (rs ++ since) all →
        ((k : ℕ) → IsAllowed (at_home (cut_at o a before) f) v log pool k → LeavesOnly v w (IsStanding (at_home (cut_at o a before) f) (rs ++ since) all k)) →
        LeavesOnly v w (StandsOver o (before ++ (rs ++ since)) (before ++ all)) }
    ensures appends { (o : Origin) (a : Stand) (before rs since all : List Numbered) (f : Homes) (v w : View) (log : Tail) (pool : Pool) (n : Numbered) → MakesSame (cut_at o a before) rs f →
        ArePoints (at_home (cut_at o a before) f) (IsAllowed (at_home (cut_at o a before) f) v log pool) (rs ++ since) all → IsMarked (IsAllowed (at_home (cut_at o a before) f) v log pool) n.lsn (sight_of n.is) →
        ((k : ℕ) → IsAllowed (at_home (cut_at o a before) f) v log pool k → LeavesOnly v w (IsStanding (at_home (cut_at o a before) f) (rs ++ since) (all ++ n ∷ []) k)) →
        LeavesOnly v w (StandsOver o (before ++ (rs ++ since)) (before ++ (all ++ n ∷ []))) }
    ensures gives { (o : Origin) (ds all : List Numbered) (c : Image) → (over : StandsOver o ds all c) → GivesAll o over.gone over.again.stands.records (image_home (cut_at o over.stand over.gone) c) }
    ensures runs { (o : Origin) (a : Stand) (before rs since : List Numbered) (f : Homes) → MakesSame (cut_at o a before) rs f → GivesAll o before (rs ++ since) f }
    ensures between { (o : Origin) (ds all : List Numbered) (c : Image) → (over : StandsOver o ds all c) → IsBetween ds (over.gone ++ over.again.stands.records) all }
{}
