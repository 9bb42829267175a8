// What holds of redo as functions of bytes, whatever the pages and windows.
ghost use Rattle.std.specs.Prelude.{◌≡◌, ◌<◌, ◌^◌, ◌==◌, ℕ, List, filter, length, true, false, Some, is_some, IsSomeAnd};
ghost use Rattle.std.specs.List.{All};
ghost use Rattle.sg_base.specs.Bytes.{IsBytes};
ghost use Rattle.sg_base.specs.Op.{Op};
ghost use Rattle.sg_action.specs.States.{step_leaf, or_same};
ghost use Rattle.sg_base.specs.Page.{lsn_of, IsSlotted};
ghost use Rattle.sg_base.specs.Sheet.{Sheet, sheet_of};
ghost use Rattle.sg_ops.specs.Laws.{IsLawful};
ghost use Rattle.sg_ops.specs.Steps.{BringsBytes};
ghost use Rattle.sg_ops.specs.Table.{Table};
ghost use Rattle.sg_redo.specs.History.{OnPage, redone, repeated, below, Rises, SetsNumber, AllSetNumber, AllFit};
ghost use Rattle.sg_redo.specs.Leaf.{leaf_of, LinksFit};
ghost use Rattle.sg_redo.specs.Named.{AreNamed, named};
ghost use Rattle.sg_redo.specs.Page.{fits, made, on_page};
ghost use Rattle.sg_redo.specs.Places.{page_records, window_records};
ghost use Rattle.sg_redo.specs.Units.{own_places, is_page, replayed_unit};
ghost use Rattle.sg_redo.specs.declared.place.Place.{Place};
ghost use Rattle.sg_redo.specs.declared.unit.Unit as code;
ghost use Rattle.sg_redo.specs.Window.{OnWindow, replayed, AllLie, IsSameBut};

/// A law: what a record's operation makes of a page has the record's number.
pub fn records_set_numbers()
    ensures { (t : Table) (lsn : ℕ) (op : Op) → lsn < 2 ^ 64 → SetsNumber (on_page t lsn op) }
{}

/// A law: redo keeps a page of slots one, whatever the record's operation. The registered operations
/// keep their laws, and the page and what the operation brings are bytes.
pub fn records_keep_pages()
    ensures { (t : Table) (lsn : ℕ) (op : Op) (page : List ℕ) → IsLawful t → BringsBytes op → IsBytes page → IsSlotted page → IsSlotted (redone (on_page t lsn op) page) }
{}

/// A law: history repeated over any version of a page, which is the first one with the records below
/// a number done, makes the page that all records make of the first one. The records' numbers rise,
/// and each fits.
pub fn versions_repeat()
    ensures { (c : ℕ) (rs : List OnPage) (first : List ℕ) → AllSetNumber rs → Rises 1 rs → AllFit rs first
        → repeated rs (repeated (below c rs) first) ≡ repeated rs first }
{}

/// A law: two windows that differ only in bytes that the changes cover are the same after them.
pub fn windows_converge()
    ensures { (ws : List OnWindow) (one other : List ℕ) → AllLie (length one) ws → IsSameBut ws one other
        → replayed ws one ≡ replayed ws other }
{}

/// Two laws of replay, of two lent units with the same places.
///
/// Of two pages of which one is a version of the other, the bytes are the same after it: where the
/// records' numbers rise, each fits, and the version has those below a number done. Of two windows
/// that differ only in bytes that the records cover, they are the same too.
pub fn replay_converges()
    ensures pages { (t : Table) (text : List ℕ) (places : List Place) (c : ℕ) (one other : code.Unit) → is_page one ≡ true → is_page other ≡ true
        → own_places places other ≡ own_places places one → All (λ p. p.lsn < 2 ^ 64) (own_places places one)
        → Rises 1 (page_records t text (own_places places one)) → AllFit (page_records t text (own_places places one)) one.loan.bytes
        → other.loan.bytes ≡ repeated (below c (page_records t text (own_places places one))) one.loan.bytes
        → (replayed_unit t text places other).loan.bytes ≡ (replayed_unit t text places one).loan.bytes }
    ensures windows { (t : Table) (text : List ℕ) (places : List Place) (one other : code.Unit) → is_page one ≡ false → is_page other ≡ false
        → own_places places other ≡ own_places places one → AllLie (length one.loan.bytes) (window_records t text (own_places places one))
        → IsSameBut (window_records t text (own_places places one)) one.loan.bytes other.loan.bytes
        → (replayed_unit t text places other).loan.bytes ≡ (replayed_unit t text places one).loan.bytes }
{}

/// A law: where each place has the unit that the record there names, a unit's own places are those
/// whose records name it. So what replay repeats on a unit are the text's records of that unit.
pub fn places_name_units()
    ensures { (pages : ℕ) (text : List ℕ) (places : List Place) (unit : ℕ) → AreNamed pages text places → filter (λ p. p.unit == unit) places ≡ named pages text unit places }
{}

/// A law: a record's operation fits the bytes of a page exactly where it fits what they say.
pub fn records_fit_as_said()
    ensures { (t : Table) (op : Op) (page : List ℕ) → fits t op page ≡ is_some (step_leaf t op (leaf_of page)) }
{}

/// A law: what a record makes of bytes that its operation fits is a page of slots that says the step
/// of what they say.
pub fn records_make_what_is_said()
    ensures { (t : Table) (lsn : ℕ) (op : Op) (page : List ℕ) (new : Sheet) → IsLawful t → BringsBytes op → LinksFit op → IsBytes page → length page ≡ 4096 → step_leaf t op (leaf_of page) ≡ Some new
        → IsSomeAnd (made t lsn op page) (λ bytes. IsSlotted bytes × (sheet_of bytes ≡ new)) }
{}

/// A law: redo of a page's bytes by a record with a number above the page's is the step of what they
/// say, and nothing where the operation doesn't fit that.
pub fn redo_is_the_step()
    ensures { (t : Table) (lsn : ℕ) (op : Op) (page : List ℕ) → IsLawful t → BringsBytes op → LinksFit op → IsBytes page → length page ≡ 4096 → lsn_of page < lsn
        → leaf_of (redone (on_page t lsn op) page) ≡ or_same (step_leaf t op (leaf_of page)) (leaf_of page) }
{}
